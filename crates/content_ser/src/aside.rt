//! Answers whose error is put aside, so that a level of a deep value takes little stack.

#![tactic(auto)]

ghost use Rattle.std.specs.Prelude.{◌≡◌, Err};
ghost use Rattle.content_ser.specs.Sending.Aside.{answer_of};

use content_tree::{Error, ErrorKind, Result};

/// There was an error; it is in the place that was given for it.
#[derive(Drop)]
pub struct Aside;

/// What sending a part answers: one byte, where a `Result<()>` has 144.
pub type Sent = std::result::Result<(), Aside>;

/// Fills the place of an error before there is one; no answer shows it.
pub fn no_error() -> Error {
    Error::from(ErrorKind::OutOfMemory)
}

/// The answer of what is sent with its error put aside, in a place of this name.
macro_rules! answered {
    ($error:ident => $sent:expr) => {{
        let mut $error = $crate::aside::no_error();
        let sent = $sent;
        $crate::aside::answer(sent, $error)
    }};
}

pub(crate) use answered;

/// Puts the error of an answer aside.
#[inline(always)]
pub fn put_aside(answer: Result<()>, error: &mut Error) -> Sent
    ensures { answer_of result error.new ≡ answer }
{
    match answer {
        Ok(()) => Ok(()),
        Err(refusal) => stand_aside(refusal, error),
    }
}

/// Puts an error aside. It is seldom done, and so isn't inlined.
#[inline(never)]
fn stand_aside(refusal: Error, error: &mut Error) -> Sent
    ensures { answer_of result error.new ≡ Err refusal }
{
    *error = refusal;
    Err(Aside)
}

/// The answer, with the error that was put aside.
pub fn answer(sent: Sent, error: Error) -> Result<()>
    ensures { result ≡ answer_of sent error }
{
    match sent {
        Ok(()) => Ok(()),
        Err(Aside) => Err(error),
    }
}
