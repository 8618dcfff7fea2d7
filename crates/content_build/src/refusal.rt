//! Why a call is refused, inside the crate.

ghost use Rattle.std.specs.Prelude.{◌≡◌, Err};
ghost use Rattle.content_ser.specs.Sending.Aside.{answer_of};
ghost use Rattle.content_build.specs.Inner.Taken.{IsAnswerTo, IsErrorOf};
ghost use Rattle.content_build.specs.declared.refusal.Refusal.TheVariants as refusal;

use content_ser::{Aside, Sent};
use content_tree::{Error, ErrorKind, Result};
use std::alloc::{AllocError, AllocFailed};

/// Why a call is refused: a byte, since errors are large.
#[derive(Clone, Copy)]
pub(crate) enum Refusal {
    Misplaced,
    Failed,
    NoMemory,
}

/// What a call is answered, before its error is made.
pub(crate) type Taken = std::result::Result<(), Refusal>;

impl Refusal {
    /// The error.
    #[cold]
    #[inline(never)]
    pub(crate) fn error(self) -> Error
        ensures { IsErrorOf self result }
    {
        match self {
            Refusal::Misplaced => Error::from(ErrorKind::Misplaced),
            Refusal::Failed => Error::from(ErrorKind::Failed),
            Refusal::NoMemory => Error::from(ErrorKind::OutOfMemory),
        }
    }
}

/// The answer, with the error where there is a refusal.
#[inline(always)]
pub(crate) fn answered(taken: Taken) -> Result<()>
    ensures { IsAnswerTo taken result }
{
    match taken {
        Ok(()) => Ok(()),
        Err(refusal) => Err(refusal.error()),
    }
}

/// The answer, with the error put aside where there is a refusal.
#[inline(always)]
pub(crate) fn put_aside(taken: Taken, error: &mut Error) -> Sent
    ensures { IsAnswerTo taken (answer_of result error.new) }
{
    match taken {
        Ok(()) => Ok(()),
        Err(refusal) => stand_aside(refusal, error),
    }
}

/// Puts the error of a refusal aside. It is seldom done, and so isn't inlined.
#[cold]
#[inline(never)]
fn stand_aside(refusal: Refusal, error: &mut Error) -> Sent
    ensures { IsAnswerTo (Err refusal) (answer_of result error.new) }
{
    *error = refusal.error();
    Err(Aside)
}

impl From<AllocError> for Refusal {
    ghost from_gives = { λ _ refused. refused ≡ refusal.NoMemory };

    fn from(_error: AllocError) -> Refusal {
        Refusal::NoMemory
    }
}

impl<T: Drop> From<AllocFailed<T>> for Refusal {
    ghost from_gives = { λ _ refused. refused ≡ refusal.NoMemory };

    fn from(_error: AllocFailed<T>) -> Refusal {
        Refusal::NoMemory
    }
}
