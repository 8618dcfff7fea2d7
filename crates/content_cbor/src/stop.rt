//! Where reading stops.

ghost use Rattle.std.specs.Prelude.{◌≡◌, length, suc};
ghost use Rattle.content_cbor.specs.declared.stop.Stop.TheVariants.{OutOfMemory, Refused};

use crate::decode_error::Fault;
use std::alloc::{AllocError, AllocFailed};

/// What is wrong with bytes, and how many of them are left there.
#[derive(Clone, Copy, Drop)]
pub(crate) struct Refusal {
    pub(crate) fault: Fault,
    pub(crate) left: usize,
}

/// Why reading stops.
#[derive(Drop)]
pub(crate) enum Stop {
    OutOfMemory,
    Refused(Refusal),
}

impl From<Refusal> for Stop {
    ghost from_gives = { λ r e. e ≡ Refused r };

    fn from(refusal: Refusal) -> Stop {
        Stop::Refused(refusal)
    }
}

impl From<AllocError> for Stop {
    ghost from_gives = { λ _ e. e ≡ OutOfMemory };

    fn from(_error: AllocError) -> Stop {
        Stop::OutOfMemory
    }
}

impl<T: Drop> From<AllocFailed<T>> for Stop {
    ghost from_gives = { λ _ e. e ≡ OutOfMemory };

    fn from(_error: AllocFailed<T>) -> Stop {
        Stop::OutOfMemory
    }
}

/// The refusal for a fault at the first of the bytes that are left.
pub(crate) fn stop_at(fault: Fault, left: &[u8]) -> Refusal
    ensures { result ≡ record { «fault» = fault; left = length left.now } }
{
    Refusal {
        fault,
        left: left.len(),
    }
}

/// The refusal for a fault at the byte before these.
pub(crate) fn stop_before(fault: Fault, behind: &[u8]) -> Refusal
    ensures { result ≡ record { «fault» = fault; left = suc (length behind.now) } }
{
    Refusal {
        fault,
        left: behind.len() + 1,
    }
}
