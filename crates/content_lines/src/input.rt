//! Reads all input into one vector.

ghost use Rattle.std.specs.Prelude.{◌≡◌, IfOk, OnOk, IfErr, true};
ghost use Rattle.std.specs.Io.KnownBytes.{Consumes, IsAtEnd};
ghost use Rattle.content_lines.specs.declared.failure.Failure.TheVariants.{OutOfMemory, ReadFailed};

use crate::failure::Failure;
use crate::ports::Input;
use std::alloc::Global;

/// How many bytes a read asks for at most.
const READ_SIZE: usize = 4096;

/// All that is left of the reader, in one vector.
///
/// Each read that is neither the end nor a fault adds at least one byte to the vector, so a reader
/// that never ends brings it to `OutOfMemory`.
///
/// # Errors
///
/// `ReadFailed` where the reader answers a fault, `OutOfMemory` where an allocation fails.
pub fn read_all<R: Input>(alloc: Global, reader: &mut R) -> Result<Vec<u8>, Failure>
    ensures all { IfOk result (λ input. Consumes (R.left reader.old) (R.left reader.new)
        input.items) }
    ensures ended { OnOk result (IsAtEnd (R.left reader.new)) }
    ensures kept { OnOk result (R.has_failed reader.new ≡ R.has_failed reader.old) }
    ensures fault { IfErr result (λ e. e ≡ ReadFailed → R.has_failed reader.new ≡ true) }
    ensures memory { IfErr result (λ e. e ≡ OutOfMemory → R.has_failed reader.new ≡
        R.has_failed reader.old) }
{
    let mut input = Vec::new(alloc);
    let mut buf = [0u8; READ_SIZE];
    'reads: loop {
        let n = reader.take(&mut buf)?;
        if n == 0 {
            return Ok(input);
        }
        input.extend_from_slice(&buf[..n])?;
    }
}
