//! Errors, and which of them say that memory ran out.

use crate::values::same;
use content_cbor::DecodeError;
use content_uses::LoadError;
use serde_content::{Error, ErrorKind, Result};

/// An error that may say that memory ran out.
pub trait Shortage {
    /// Whether it says so.
    fn is_short(&self) -> bool;
}

impl Shortage for Error {
    fn is_short(&self) -> bool {
        matches!(self.kind(), ErrorKind::OutOfMemory)
    }
}

impl Shortage for DecodeError {
    fn is_short(&self) -> bool {
        matches!(self, DecodeError::OutOfMemory)
    }
}

impl Shortage for LoadError {
    fn is_short(&self) -> bool {
        matches!(self, LoadError::Decode(DecodeError::OutOfMemory))
    }
}

/// Whether a call was refused for this cause.
pub fn is_refused<T: Drop>(answer: Result<T>, cause: ErrorKind) -> bool {
    match answer {
        Ok(given) => {
            drop(given);
            drop(cause);
            false
        }
        Err(error) => same(error.into_kind(), cause),
    }
}
