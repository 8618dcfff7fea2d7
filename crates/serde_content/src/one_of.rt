//! Types tried one after another on the same source, in one call: one function for each count of
//! types, since a function has a fixed number of them.

ghost use Rattle.std.specs.Prelude.{Some};
ghost use Rattle.content_tree.specs.Errors.Cause.{custom};
ghost use Rattle.content_de.specs.Sources.Deserializer.{subject};
ghost use Rattle.content_de.specs.Sources.Origin.{in_buffer};
ghost use Rattle.content_de.specs.Reads.Attempts.{or_next};
ghost use Rattle.content_de.specs.Reads.Read.{Reads};
ghost use Rattle.serde_content.specs.Choices.{TwoGive, ThreeGive, FourGive};

use content_de::{Deserialize, Deserializer, attempt};
use content_tree::{Error, Result};
use std::alloc::Global;

/// A value of one of two types.
#[derive(Drop)]
pub enum OneOfTwo<A, B> {
    /// Of the first.
    First(A),
    /// Of the second.
    Second(B),
}

/// A value of one of three types.
#[derive(Drop)]
pub enum OneOfThree<A, B, C> {
    /// Of the first.
    First(A),
    /// Of the second.
    Second(B),
    /// Of the third.
    Third(C),
}

/// A value of one of four types.
#[derive(Drop)]
pub enum OneOfFour<A, B, C, D> {
    /// Of the first.
    First(A),
    /// Of the second.
    Second(B),
    /// Of the third.
    Third(C),
    /// Of the fourth.
    Fourth(D),
}

/// Reads the first of two types that isn't refused, each tried on a
/// [buffered](Deserializer::buffered) copy of what is there; for an untagged enum of your own.
///
/// # Errors
///
/// `Custom` with this text where each is refused; out of memory, where an allocation failed.
pub fn first_of_two<'de, 'n: 'de, A: Deserialize<'de>, B: Deserialize<'de>>(
    alloc: Global,
    from: Deserializer<'de, 'n>,
    none: &str,
) -> Result<OneOfTwo<A, B>>
    ensures { Reads
        (or_next (A.refusal (in_buffer (subject from.entry)))
        (or_next (B.refusal (in_buffer (subject from.entry)))
        (Some (custom none.now))))
        (TwoGive A.refusal A.gives B.refusal B.gives (in_buffer (subject from.entry))) result }
{
    let answer = two_of(alloc, &from, none);
    drop(from);
    answer
}

/// The same, from a borrowed deserializer.
fn two_of<'de, 'n: 'de, A: Deserialize<'de>, B: Deserialize<'de>>(
    alloc: Global,
    from: &Deserializer<'de, 'n>,
    none: &str,
) -> Result<OneOfTwo<A, B>>
    ensures { Reads
        (or_next (A.refusal (in_buffer (subject from.now)))
        (or_next (B.refusal (in_buffer (subject from.now)))
        (Some (custom none.now))))
        (TwoGive A.refusal A.gives B.refusal B.gives (in_buffer (subject from.now))) result }
{
    if let Some(first) = attempt(alloc, from)? {
        return Ok(OneOfTwo::First(first));
    }
    if let Some(second) = attempt(alloc, from)? {
        return Ok(OneOfTwo::Second(second));
    }
    Err(Error::custom(alloc, none))
}

/// The same of three types.
///
/// # Errors
///
/// As those of [`first_of_two`].
pub fn first_of_three<'de, 'n: 'de, A: Deserialize<'de>, B: Deserialize<'de>, C: Deserialize<'de>>(
    alloc: Global,
    from: Deserializer<'de, 'n>,
    none: &str,
) -> Result<OneOfThree<A, B, C>>
    ensures { Reads
        (or_next (A.refusal (in_buffer (subject from.entry)))
        (or_next (B.refusal (in_buffer (subject from.entry)))
        (or_next (C.refusal (in_buffer (subject from.entry)))
        (Some (custom none.now)))))
        (ThreeGive A.refusal A.gives B.refusal B.gives C.refusal C.gives
        (in_buffer (subject from.entry))) result }
{
    let answer = three_of(alloc, &from, none);
    drop(from);
    answer
}

/// The same, from a borrowed deserializer.
fn three_of<'de, 'n: 'de, A: Deserialize<'de>, B: Deserialize<'de>, C: Deserialize<'de>>(
    alloc: Global,
    from: &Deserializer<'de, 'n>,
    none: &str,
) -> Result<OneOfThree<A, B, C>>
    ensures { Reads
        (or_next (A.refusal (in_buffer (subject from.now)))
        (or_next (B.refusal (in_buffer (subject from.now)))
        (or_next (C.refusal (in_buffer (subject from.now)))
        (Some (custom none.now)))))
        (ThreeGive A.refusal A.gives B.refusal B.gives C.refusal C.gives
        (in_buffer (subject from.now))) result }
{
    if let Some(first) = attempt(alloc, from)? {
        return Ok(OneOfThree::First(first));
    }
    match two_of(alloc, from, none)? {
        OneOfTwo::First(second) => Ok(OneOfThree::Second(second)),
        OneOfTwo::Second(third) => Ok(OneOfThree::Third(third)),
    }
}

/// The same of four types.
///
/// # Errors
///
/// As those of [`first_of_two`].
pub fn first_of_four<
    'de,
    'n: 'de,
    A: Deserialize<'de>,
    B: Deserialize<'de>,
    C: Deserialize<'de>,
    D: Deserialize<'de>,
>(alloc: Global, from: Deserializer<'de, 'n>, none: &str) -> Result<OneOfFour<A, B, C, D>>
    ensures { Reads
        (or_next (A.refusal (in_buffer (subject from.entry)))
        (or_next (B.refusal (in_buffer (subject from.entry)))
        (or_next (C.refusal (in_buffer (subject from.entry)))
        (or_next (D.refusal (in_buffer (subject from.entry)))
        (Some (custom none.now))))))
        (FourGive A.refusal A.gives B.refusal B.gives C.refusal C.gives D.refusal D.gives
        (in_buffer (subject from.entry))) result }
{
    let answer = four_of(alloc, &from, none);
    drop(from);
    answer
}

/// The same, from a borrowed deserializer.
fn four_of<
    'de,
    'n: 'de,
    A: Deserialize<'de>,
    B: Deserialize<'de>,
    C: Deserialize<'de>,
    D: Deserialize<'de>,
>(alloc: Global, from: &Deserializer<'de, 'n>, none: &str) -> Result<OneOfFour<A, B, C, D>>
    ensures { Reads
        (or_next (A.refusal (in_buffer (subject from.now)))
        (or_next (B.refusal (in_buffer (subject from.now)))
        (or_next (C.refusal (in_buffer (subject from.now)))
        (or_next (D.refusal (in_buffer (subject from.now)))
        (Some (custom none.now))))))
        (FourGive A.refusal A.gives B.refusal B.gives C.refusal C.gives D.refusal D.gives
        (in_buffer (subject from.now))) result }
{
    if let Some(first) = attempt(alloc, from)? {
        return Ok(OneOfFour::First(first));
    }
    match three_of(alloc, from, none)? {
        OneOfThree::First(second) => Ok(OneOfFour::Second(second)),
        OneOfThree::Second(third) => Ok(OneOfFour::Third(third)),
        OneOfThree::Third(fourth) => Ok(OneOfFour::Fourth(fourth)),
    }
}
