//! A reader or a writer of the standard library, as a port.

ghost use Rattle.std.specs.Prelude.{◌≡◌, false};
ghost use Rattle.content_lines.specs.Port.{inner_of, is_failed};

use crate::ports::{Fault, Input, Output};
use std::io::{Read, Write};

/// A reader or a writer of the standard library, and whether it has failed.
///
/// Each error counts as a fault, that of an interrupted call too, and so does a write that takes
/// no byte.
#[derive(Drop)]
pub struct Port<T> {
    inner: T,
    failed: bool,
}

impl<T> Port<T> {
    /// One that hasn't failed. It takes no memory.
    pub fn new(inner: T) -> Port<T>
        ensures inner { inner_of result ≡ inner }
        ensures failed { is_failed result ≡ false }
    {
        Port {
            inner,
            failed: false,
        }
    }
}

impl<R: Read> Input for Port<R> {
    ghost left = { λ p. R.remaining p.inner };

    ghost has_failed = { λ p. p.failed };

    fn take(&mut self, buf: &mut [u8]) -> Result<usize, Fault> {
        match self.inner.read(buf) {
            Ok(n) => Ok(n),
            Err(_) => {
                self.failed = true;
                Err(Fault)
            }
        }
    }

    fn failed(&self) -> bool {
        self.failed
    }
}

impl<W: Write> Output for Port<W> {
    ghost written = { λ p. W.contents p.inner };

    ghost has_failed = { λ p. p.failed };

    fn put(&mut self, bytes: &[u8]) -> Result<usize, Fault> {
        match self.inner.write(bytes) {
            Ok(n) if n > 0 || bytes.is_empty() => Ok(n),
            _ => {
                self.failed = true;
                Err(Fault)
            }
        }
    }

    fn failed(&self) -> bool {
        self.failed
    }
}
