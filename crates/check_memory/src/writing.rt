//! Calls and serialisers: what is asked of them, what they refuse, and what they keep.

use crate::lists::{ab, nested, number, octets, pair};
use crate::nodes::text;
use crate::shortage::is_refused;
use crate::tally::{Made, Tally};
use crate::values::same;
use serde_content::ErrorKind::{Failed, Misplaced, OutOfMemory, Unfinished};
use serde_content::ser::{Builder, Call, Recorder, Serializer as _, replay};
use serde_content::{Result, Serializer};
use std::alloc::{AllocError, Global};

/// Makes the calls.
pub fn run(tally: &mut Tally, alloc: Global) {
    settings(tally, alloc);
    calls(tally, alloc);
    at_first(tally, alloc);
    in_a_sequence(tally, alloc);
    recordings(tally, alloc);
}

/// A builder to which no call was made, under a limit of 1.
fn shallow(alloc: Global) -> Builder<'static> {
    Builder::with_limit(alloc, true, 1)
}

fn settings(tally: &mut Tally, alloc: Global) {
    let plain = Serializer::new();
    tally.promised("Serializer::depth_limit", plain.depth_limit(1) > plain);
    tally.promised("Serializer::human_readable", plain.human_readable() > plain);
    let builder = shallow(alloc);
    tally.promised("Builder::with_limit", builder.is_human_readable());
    drop(builder);
    let calls = Recorder::new(alloc, true).into_calls();
    tally.promised("Recorder::into_calls", calls.is_empty());
    drop(calls);
}

fn calls(tally: &mut Tally, alloc: Global) {
    let call = ab();
    tally.promised("Call::lend", same(call.lend(), ab()));
    tally.succeeds("Call::try_clone", call.try_clone(alloc));
    drop(call);
    if let Some(text) = tally.made(text(alloc)) {
        tally.succeeds("Call::into_owned", Call::Str(text).into_owned(alloc));
    }
}

/// Whether a builder refuses a call as out of place, fails by it, and refuses what follows.
fn refuses(mut builder: Builder<'static>, call: Call<'static>) -> bool {
    let calls = [call];
    let first = is_refused(replay(&calls, &mut builder), Misplaced);
    drop(calls);
    let next = is_refused(builder.serialize_unit(), Failed);
    let last = is_refused(builder.finish(), Failed);
    first && next && last
}

fn at_first(tally: &mut Tally, alloc: Global) {
    let end = refuses(shallow(alloc), Call::End);
    tally.promised("an end out of place", end);
    let some = refuses(shallow(alloc), Call::SomeCall);
    tally.promised("Some past a limit", some);
    let answer = Builder::new(alloc, false).finish();
    tally.promised("finish of no calls", is_refused(answer, Unfinished));
}

/// A builder in a sequence, where no element is announced; none can be.
fn in_sequence(alloc: Global) -> Made<Builder<'static>> {
    let mut builder = shallow(alloc);
    match builder.serialize_seq(None) {
        Ok(()) => Ok(builder),
        Err(refused) => {
            drop(refused);
            drop(builder);
            Err(AllocError)
        }
    }
}

/// Counts a call that a builder in a sequence refuses.
fn refuses_inside(tally: &mut Tally, alloc: Global, name: &str, call: Call<'static>) {
    match tally.made(in_sequence(alloc)) {
        Some(builder) => tally.promised(name, refuses(builder, call)),
        None => drop(call),
    }
}

fn in_a_sequence(tally: &mut Tally, alloc: Global) {
    refuses_inside(tally, alloc, "a text out of place", ab());
    refuses_inside(tally, alloc, "bytes out of place", octets());
    refuses_inside(tally, alloc, "a number out of place", number());
    refuses_inside(tally, alloc, "Element past a limit", Call::Element);
    if let Some(builder) = tally.made(in_sequence(alloc)) {
        let answer = builder.finish();
        tally.promised("finish of a sequence", is_refused(answer, Unfinished));
    }
    if let Some(mut builder) = tally.made(in_sequence(alloc)) {
        tally.answered(
            "Builder::collect_str",
            prints_misplaced(alloc, &mut builder),
        );
        drop(builder);
    }
}

/// What an answer comes to that can only be out of memory, where the rest is right.
fn short(answer: Result<()>, is_right: bool) -> Made<bool> {
    match is_refused(answer, OutOfMemory) && is_right {
        true => Err(AllocError),
        false => Ok(false),
    }
}

/// Whether a recorder has exactly this many of these calls.
fn has(recorder: &Recorder, calls: &[Call<'static>], count: usize) -> bool {
    recorder.calls().iter().eq(calls.iter().take(count))
}

/// Whether a recorder takes these calls in turn, and keeps those before one that it can't.
fn keeps(recorder: &mut Recorder, calls: &[Call<'static>]) -> Made<bool> {
    for (at, call) in calls.iter().enumerate() {
        if let Err(error) = recorder.call(call.lend()) {
            let is_failed = is_refused(recorder.serialize_unit(), Failed);
            return short(Err(error), is_failed && has(recorder, calls, at));
        }
    }
    Ok(has(recorder, calls, calls.len()))
}

/// Counts a list of calls that is recorded.
fn records(tally: &mut Tally, alloc: Global, name: &str, calls: &[Call<'static>]) {
    let mut recorder = Recorder::new(alloc, false);
    tally.answered(name, keeps(&mut recorder, calls));
    drop(recorder);
}

/// Whether a text that is printed first is out of place: where there is no memory to print, the
/// builder is as it was.
fn prints_misplaced(alloc: Global, builder: &mut Builder<'static>) -> Made<bool> {
    let answer = builder.collect_str(alloc, &7u8);
    match builder.is_failed() {
        true => Ok(is_refused(answer, Misplaced)),
        false => short(answer, same(builder.end(), Ok(()))),
    }
}

/// Whether a recorder takes a text that is printed; without memory it has none.
fn prints(alloc: Global, recorder: &mut Recorder) -> Made<bool> {
    let answer = recorder.collect_str(alloc, &7u8);
    match recorder.calls().len() {
        1 => Ok(same(answer, Ok(()))),
        count => short(answer, count == 0),
    }
}

fn recordings(tally: &mut Tally, alloc: Global) {
    let calls = pair(Call::Key);
    records(tally, alloc, "Recorder of a key in a sequence", &calls);
    drop(calls);
    let calls = nested();
    records(tally, alloc, "Recorder of an option", &calls);
    drop(calls);
    let mut recorder = Recorder::new(alloc, false);
    tally.answered("Recorder::collect_str", prints(alloc, &mut recorder));
    drop(recorder);
}
