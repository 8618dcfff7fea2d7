//! Where reading of a text stops.

ghost use Rattle.std.specs.Prelude.{◌≡◌};
ghost use Rattle.content_json.specs.Inner.Steps.{refusal_at};
ghost use Rattle.content_json.specs.declared.stop.Stop.TheVariants.{OutOfMemory, Refused};

use crate::decode_error::Fault;
use std::alloc::{AllocError, AllocFailed};

/// What is wrong with bytes, and how many of them are left there.
#[derive(Clone, Copy, Drop)]
pub(crate) struct Refusal {
    pub(crate) fault: Fault,
    pub(crate) left: usize,
}

/// Why reading stops.
#[derive(Drop)]
pub(crate) enum Stop {
    OutOfMemory,
    Refused(Refusal),
}

impl From<Refusal> for Stop {
    ghost from_gives = { λ r e. e ≡ Refused r };

    fn from(refusal: Refusal) -> Stop {
        Stop::Refused(refusal)
    }
}

impl From<AllocError> for Stop {
    ghost from_gives = { λ _ e. e ≡ OutOfMemory };

    fn from(_error: AllocError) -> Stop {
        Stop::OutOfMemory
    }
}

impl<T: Drop> From<AllocFailed<T>> for Stop {
    ghost from_gives = { λ _ e. e ≡ OutOfMemory };

    fn from(_error: AllocFailed<T>) -> Stop {
        Stop::OutOfMemory
    }
}

/// The refusal for a fault at the first of the bytes that are left; for their end where none is.
pub(crate) fn stop_at(fault: Fault, left: &[u8]) -> Refusal
    ensures { result ≡ refusal_at fault left.now }
{
    match left {
        [] => Refusal {
            fault: Fault::Ended,
            left: 0,
        },
        _ => Refusal {
            fault,
            left: left.len(),
        },
    }
}
