//! Why a program has no answer.

ghost use Rattle.std.specs.Prelude.{◌≡◌};
ghost use Rattle.content_lines.specs.Told.{failure_line, failure_status};
ghost use Rattle.content_lines.specs.declared.failure.Failure.TheVariants.{OutOfMemory, ReadFailed};

use crate::ports::Fault;
use std::alloc::AllocError;

/// Why a program has no answer to its input.
#[derive(Clone, Copy, Debug, PartialEq, Eq)]
pub enum Failure {
    /// The reader answered a fault: the line `read failed`, status 4.
    ReadFailed,
    /// An allocation failed: the line `out of memory`, status 3.
    OutOfMemory,
}

impl Failure {
    /// The line that names it, with its line feed.
    pub fn line(self) -> &'static str
        ensures { result.now ≡ failure_line self }
    {
        match self {
            Failure::ReadFailed => "read failed\n",
            Failure::OutOfMemory => "out of memory\n",
        }
    }

    /// Its status.
    pub fn status(self) -> u8
        ensures { result ≡ failure_status self }
    {
        match self {
            Failure::ReadFailed => 4,
            Failure::OutOfMemory => 3,
        }
    }
}

impl From<Fault> for Failure {
    ghost from_gives = { λ _ e. e ≡ ReadFailed };

    fn from(_fault: Fault) -> Failure {
        Failure::ReadFailed
    }
}

impl From<AllocError> for Failure {
    ghost from_gives = { λ _ e. e ≡ OutOfMemory };

    fn from(_refused: AllocError) -> Failure {
        Failure::OutOfMemory
    }
}
