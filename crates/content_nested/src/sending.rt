//! How values are sent that may contain others of their own type.
//!
//! A trait with a ghost member is not proved where its function calls itself for a value inside:
//! so what is sent is told by one trait, and sent by another.

#![tactic(auto, using(content_ser::proofs::Sending::sending))]

ghost use Rattle.std.specs.Prelude.{◌≡◌, Bool};
ghost use Rattle.content_ser.specs.Scripts.Script.{Script};
ghost use Rattle.content_ser.specs.Scripts.Sends.{Sends};
ghost use Rattle.content_ser.specs.Calls.Call.{event_of};
ghost use Rattle.content_ser.specs.Scripts.Standard.{call_first, only};
ghost use Rattle.content_ser.specs.Sending.Aside.{answer_of};
ghost use Rattle.content_nested.specs.Nested.{Nested};

use content_ser::{Aside, Call, Sent, Serialize, Serializer};
use content_tree::{Error, ErrorKind, Result};
use serde_content::derive_support::{SendRow, Skip};
use std::alloc::Global;

/// What a value is sent by, made from what those of its type in it are sent by.
pub trait Nests {
    /// A value with that in the place of each of them.
    ghost Layer: { Type 0 };

    /// A value so.
    ghost layer: { Self → Layer };

    /// What it is sent by.
    ghost nested: { Layer → Nested };

    /// Whether it is empty, for what may be left out then.
    ghost is_empty: { Layer → Bool };
}

/// Sends a value by that.
pub trait SendNested: Nests {
    /// Makes the calls of the script, with the error put aside, as
    /// [`serialize_aside`](Serialize::serialize_aside) does.
    fn send_nested<S: Serializer>(
        &self,
        alloc: Global,
        serializer: &mut S,
        error: &mut Error,
    ) -> Sent
        ensures { Sends S.step S.refuses (S.seen serializer.old) (Self.nested (Self.layer self.now)).script
            (answer_of result error.new) (S.seen serializer.new) };
}

/// What a value is sent by, made from what those of its type in it are sent by: one level of it.
pub trait Steps {
    /// A level with what each value of its type in it is sent by in the place of that.
    ghost Filled: { Type 0 };

    /// What such a level is sent by.
    ghost step: { Filled → Nested };
}

/// What a value is sent by, as one of its levels tells it.
pub trait Told {
    /// A level with the values of its type in it as they are.
    ghost Level: { Type 0 };

    /// That of a value.
    ghost level: { Self → Level };

    /// The script of such a level.
    ghost told: { Level → Bool → Script };
}

/// That it is sent so.
pub trait Tells: Nests + Told {
    /// The script that a value's level tells is the value's.
    ghost is_told: { (y : Self) → (Self.nested (Self.layer y)).script ≡ Self.told (Self.level y) };
}

/// Tells proofs what a value is sent by: they needn't look into all its levels then.
pub fn tell<T: Tells>(value: &T)
    ensures { (T.nested (T.layer value.now)).script ≡ T.told (T.level value.now) }
{}

/// A value that may be left out where it is empty.
pub trait SkipNested: Nests {
    /// Whether it is, as [`is_skipped`](Skip::is_skipped) says.
    fn is_empty(&self) -> bool
        ensures { result ≡ Self.is_empty (Self.layer self.now) };
}

/// A value in another, as a row has it.
#[derive(Drop)]
pub struct Inner<'a, T>(pub &'a T);

impl<'a, T: SendNested> Serialize for Inner<'a, T> {
    ghost script = { λ inner. (T.nested (T.layer inner.0.now)).script };

    ghost lawful = { λ inner readable. (T.nested (T.layer inner.0.now)).lawful readable };

    fn serialize<S: Serializer>(&self, alloc: Global, serializer: &mut S) -> Result<()> {
        send_nested(self.0, alloc, serializer)
    }

    #[inline(always)]
    fn serialize_aside<S: Serializer>(
        &self,
        alloc: Global,
        serializer: &mut S,
        error: &mut Error,
    ) -> Sent {
        self.0.send_nested(alloc, serializer, error)
    }
}

impl<'a, T: SkipNested> Skip for Inner<'a, T> {
    ghost is_empty = { λ inner. T.is_empty (T.layer inner.0.now) };

    fn is_skipped(&self) -> bool {
        self.0.is_empty()
    }
}

/// Sends a value, and answers its error.
pub fn send_nested<T: SendNested, S: Serializer>(
    value: &T,
    alloc: Global,
    serializer: &mut S,
) -> Result<()>
    ensures { Sends S.step S.refuses (S.seen serializer.old) (T.nested (T.layer value.now)).script result
        (S.seen serializer.new) }
{
    let mut error = Error::from(ErrorKind::OutOfMemory);
    let sent = value.send_nested(alloc, serializer, &mut error);
    answer(sent, error)
}

/// The answer of what was sent with its error put aside.
fn answer(sent: Sent, error: Error) -> Result<()>
    ensures { result ≡ answer_of sent error }
{
    match sent {
        Ok(()) => Ok(()),
        Err(Aside) => Err(error),
    }
}

/// Makes one call, for a value of one call, with the error put aside.
pub fn send_only<S: Serializer>(call: Call<'static>, serializer: &mut S, error: &mut Error) -> Sent
    ensures { Sends S.step S.refuses (S.seen serializer.old) (only (event_of call.entry))
        (answer_of result error.new) (S.seen serializer.new) }
{
    serializer.call_aside(call, error)
}

/// Makes one call, and then those of the one value that a newtype holds, with the error put aside.
pub fn send_around<T: Serialize, S: Serializer>(
    opening: Call<'static>,
    value: &T,
    alloc: Global,
    serializer: &mut S,
    error: &mut Error,
) -> Sent
    ensures { Sends S.step S.refuses (S.seen serializer.old)
        (call_first (event_of opening.entry) (T.script value.now))
        (answer_of result error.new) (S.seen serializer.new) }
{
    serializer.call_aside(opening, error)?;
    value.serialize_aside(alloc, serializer, error)
}

/// Makes the calls of a row, with the error put aside: the borrow checker covers no call of the
/// trait's own function at a row that borrows several values.
pub fn send_row_aside<R: SendRow, S: Serializer>(
    row: &R,
    alloc: Global,
    serializer: &mut S,
    error: &mut Error,
) -> Sent
    ensures { Sends S.step S.refuses (S.seen serializer.old) (R.script row.now)
        (answer_of result error.new) (S.seen serializer.new) }
{
    row.send(alloc, serializer, error)
}
