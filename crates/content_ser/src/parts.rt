//! What a type of your own sends, put together part by part.

#![tactic(auto, using(crate::proofs::Sending::sending))]

ghost use Rattle.std.specs.Prelude.{◌≡◌};
ghost use Rattle.content_ser.specs.Scripts.Begins.{Begins, Start, value_first};
ghost use Rattle.content_ser.specs.Calls.Call.{event_of};
ghost use Rattle.content_ser.specs.Scripts.Sends.{Sends};
ghost use Rattle.content_ser.specs.Scripts.Own.{end_script};
ghost use Rattle.content_ser.specs.Scripts.Standard.{call_first, only};
ghost use Rattle.content_ser.specs.Sending.Aside.{answer_of};

use crate::aside::{Sent, answered, put_aside};
use crate::call::Call;
use crate::serialize::Serialize;
use crate::serializer::Serializer;
use content_tree::{Error, Result};
use std::alloc::Global;

/// What a type of your own sends, put together part by part: a call that opens something, and the
/// values put into it so far.
///
/// A [`Call`] is one, and [`with`](Parts::with) makes more of them. Nothing is sent until
/// [`end`](Parts::end) or [`around`](Parts::around).
///
/// ```rust
/// Call::Struct("Point", 2)
///     .with(Call::Field("x"), &self.x)
///     .with(Call::Field("y"), &self.y)
///     .end(alloc, serializer)
/// ```
pub trait Parts: Sized + Drop {
    /// The script that begins with these calls and goes on with another.
    ghost first: { Self → Start };

    /// Makes these calls, one after another, up to the first that is refused. Its errors are those
    /// of the serialiser and of the values.
    fn send_parts<S: Serializer>(&self, alloc: Global, serializer: &mut S) -> Result<()>
        ensures { Begins S.step S.refuses (S.seen serializer.old) (first self.now) result
            (S.seen serializer.new) };

    /// Makes these calls as [`send_parts`](Parts::send_parts) does, with the error put aside: the
    /// answer is a byte, and where it is an `Err`, the error is in `error`. Your own parts need not
    /// give it.
    fn send_parts_aside<S: Serializer>(
        &self,
        alloc: Global,
        serializer: &mut S,
        error: &mut Error,
    ) -> Sent
        ensures { Begins S.step S.refuses (S.seen serializer.old) (first self.now)
            (answer_of result error.new) (S.seen serializer.new) }
    {
        put_aside(self.send_parts(alloc, serializer), error)
    }

    /// Adds a call that announces a value, such as `Call::Field("x")` or `Call::TupleField`, and
    /// the value. It sends nothing yet and takes no memory.
    #[inline(always)]
    final fn with<'a, M: Parts, T: Serialize>(
        self,
        item_call: M,
        value: &'a T,
    ) -> Announced<'a, Self, M, T>
        ensures { result ≡ record { before = self; item_call = item_call; value = value.exit } }
    {
        Announced {
            before: self,
            item_call,
            value,
        }
    }

    /// Makes these calls, and then the one that closes what they opened. The error is that of the
    /// first call that is refused, or of the first value that stops. Memory is taken where a value
    /// or the serialiser takes some.
    #[inline(always)]
    final fn end<S: Serializer>(self, alloc: Global, serializer: &mut S) -> Result<()>
        ensures { Sends S.step S.refuses (S.seen serializer.old) (first self end_script) result
            (S.seen serializer.new) }
    {
        answered!(error => send_all(&self, alloc, serializer, &mut error))
    }

    /// Makes these calls, and then those of the one value that a newtype holds. Errors and memory
    /// are as for [`end`](Parts::end).
    #[inline(always)]
    final fn around<T: Serialize, S: Serializer>(
        self,
        value: &T,
        alloc: Global,
        serializer: &mut S,
    ) -> Result<()>
        ensures { Sends S.step S.refuses (S.seen serializer.old) (first self (T.script value.now))
            result (S.seen serializer.new) }
    {
        answered!(error => send_around(&self, value, alloc, serializer, &mut error))
    }
}

/// The parts. Those of [`Announced`] send the parts that they begin with through it: the compiler
/// folds no function into itself, and these are one function at smaller types.
#[inline(always)]
fn send_first<P: Parts, S: Serializer>(
    parts: &P,
    alloc: Global,
    serializer: &mut S,
    error: &mut Error,
) -> Sent
    ensures { Begins S.step S.refuses (S.seen serializer.old) (P.first parts.now)
        (answer_of result error.new) (S.seen serializer.new) }
{
    parts.send_parts_aside(alloc, serializer, error)
}

/// The parts, and then the call that closes what they opened.
#[inline(always)]
fn send_all<P: Parts, S: Serializer>(
    parts: &P,
    alloc: Global,
    serializer: &mut S,
    error: &mut Error,
) -> Sent
    ensures { Sends S.step S.refuses (S.seen serializer.old) (P.first parts.now end_script)
        (answer_of result error.new) (S.seen serializer.new) }
{
    parts.send_parts_aside(alloc, serializer, error)?;
    serializer.call_aside(Call::End, error)
}

/// The parts, and then the value that they hold.
#[inline(always)]
fn send_around<P: Parts, T: Serialize, S: Serializer>(
    parts: &P,
    value: &T,
    alloc: Global,
    serializer: &mut S,
    error: &mut Error,
) -> Sent
    ensures { Sends S.step S.refuses (S.seen serializer.old)
        (P.first parts.now (T.script value.now))
        (answer_of result error.new) (S.seen serializer.new) }
{
    parts.send_parts_aside(alloc, serializer, error)?;
    value.serialize_aside(alloc, serializer, error)
}

impl Parts for Call<'static> {
    ghost first = { λ c. call_first (event_of c) };

    fn send_parts<S: Serializer>(&self, _alloc: Global, serializer: &mut S) -> Result<()> {
        serializer.call(self.lend())
    }

    #[inline(always)]
    fn send_parts_aside<S: Serializer>(
        &self,
        _alloc: Global,
        serializer: &mut S,
        error: &mut Error,
    ) -> Sent {
        serializer.call_aside(self.lend(), error)
    }
}

impl<'a> Call<'a> {
    /// Sends this call alone, for a value of one call. The error is the serialiser's where it
    /// refuses the call; memory is taken where it takes some.
    pub fn send<S: Serializer>(self, serializer: &mut S) -> Result<()>
        ensures { Sends S.step S.refuses (S.seen serializer.old) (only (event_of self.entry)) result
            (S.seen serializer.new) }
    {
        serializer.call(self)
    }
}

/// Calls, then one that announces a value, and then those of the value.
#[derive(Drop)]
pub struct Announced<'a, P, M, T> {
    before: P,
    item_call: M,
    value: &'a T,
}

impl<'a, P: Parts, M: Parts, T: Serialize> Parts for Announced<'a, P, M, T> {
    ghost first = { λ p rest. P.first p.before
        (M.first p.item_call (value_first (T.script p.value.now) rest)) };

    fn send_parts<S: Serializer>(&self, alloc: Global, serializer: &mut S) -> Result<()> {
        answered!(error => self.send_parts_aside(alloc, serializer, &mut error))
    }

    #[inline(always)]
    fn send_parts_aside<S: Serializer>(
        &self,
        alloc: Global,
        serializer: &mut S,
        error: &mut Error,
    ) -> Sent {
        send_first(&self.before, alloc, serializer, error)?;
        send_first(&self.item_call, alloc, serializer, error)?;
        self.value.serialize_aside(alloc, serializer, error)
    }
}
