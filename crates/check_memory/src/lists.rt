//! Lists of calls, and the places at which memory may run out.

use crate::shortage::Shortage as _;
use crate::tally::{Made, Tally};
use crate::values::same;
use serde_content::ErrorKind::{self, Misplaced, OutOfMemory, Unfinished};
use serde_content::ser::{Call, CallsError, from_calls, from_calls_prefix, from_calls_within};
use serde_content::{CowBytes, CowStr, Number};
use std::alloc::{AllocError, Global};

/// Makes the calls.
pub fn run(tally: &mut Tally, alloc: Global) {
    whole(tally, alloc);
    others(tally, alloc);
}

/// Whether a list is refused at this place: memory may run out before.
fn is_refused_at(refusal: CallsError, at: usize, cause: ErrorKind) -> Made<bool> {
    let CallsError { at: place, error } = refusal;
    let is_short = place < at && error.is_short();
    let is_cause = same(error.into_kind(), cause);
    match is_short {
        true => Err(AllocError),
        false => Ok(place == at && is_cause),
    }
}

/// Whether a list is taken of which this many calls spell a tree: memory may run out at its end
/// too.
fn taken<T: Drop>(answer: Result<T, CallsError>, length: usize) -> Made<bool> {
    match answer {
        Ok(given) => {
            drop(given);
            Ok(true)
        }
        Err(refusal) => is_refused_at(refusal, length.saturating_add(1), OutOfMemory).and(Ok(
            false,
        )),
    }
}

/// Whether a list is refused at this place for this cause.
fn refused<T: Drop>(answer: Result<T, CallsError>, at: usize, cause: ErrorKind) -> Made<bool> {
    match answer {
        Ok(given) => {
            drop(given);
            drop(cause);
            Ok(false)
        }
        Err(refusal) => is_refused_at(refusal, at, cause),
    }
}

/// The call of a text.
pub fn ab() -> Call<'static> {
    Call::Str(CowStr::Borrowed("ab"))
}

/// The call of bytes.
pub fn octets() -> Call<'static> {
    Call::Bytes(CowBytes::Borrowed(&[1, 2]))
}

/// The call of a number that takes memory.
pub fn number() -> Call<'static> {
    Call::Number(Number::U128(7))
}

/// A sequence of a text and bytes, which ends so.
pub fn pair(last: Call<'static>) -> [Call<'static>; 6] {
    let (first, second) = (Call::Element, Call::Element);
    [Call::Seq(None), first, ab(), second, octets(), last]
}

/// A present option of a struct, which has one field.
pub fn nested() -> [Call<'static>; 5] {
    let (open, field) = (Call::Struct("S", 1), Call::Field("x"));
    [Call::SomeCall, open, field, number(), Call::End]
}

/// A map without its end.
fn open_map() -> [Call<'static>; 4] {
    [Call::Map(None), Call::Entry, ab(), octets()]
}

/// A sequence of a text, and then another text.
fn two_trees() -> [Call<'static>; 5] {
    [Call::Seq(None), Call::Element, ab(), Call::End, ab()]
}

fn whole(tally: &mut Tally, alloc: Global) {
    let calls = pair(Call::End);
    let sequence = taken(from_calls(alloc, &calls), 6);
    tally.answered("from_calls of a sequence", sequence);
    let sequence = taken(from_calls_within(alloc, &calls, 2), 6);
    tally.answered("from_calls_within of a sequence", sequence);
    drop(calls);
    let calls = nested();
    let option = taken(from_calls(alloc, &calls), 5);
    tally.answered("from_calls of an option", option);
    let deep = refused(from_calls_within(alloc, &calls, 2), 2, Misplaced);
    tally.answered("from_calls_within of a deep option", deep);
    drop(calls);
}

fn others(tally: &mut Tally, alloc: Global) {
    let calls = pair(Call::Key);
    let key = refused(from_calls(alloc, &calls), 5, Misplaced);
    tally.answered("from_calls of a key in a sequence", key);
    let key = refused(from_calls_prefix(alloc, &calls), 5, Misplaced);
    tally.answered("from_calls_prefix of a key in a sequence", key);
    drop(calls);
    let calls = open_map();
    let map = refused(from_calls(alloc, &calls), 4, Unfinished);
    tally.answered("from_calls of an open map", map);
    drop(calls);
    let calls = two_trees();
    let first = taken(from_calls_prefix(alloc, &calls), 4);
    tally.answered("from_calls_prefix of two trees", first);
    drop(calls);
}
