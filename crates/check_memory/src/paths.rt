//! Errors inside values: where memory runs out for the path there is none, and the kind stays.

use crate::nodes::{fields, structure};
use crate::reading::reads;
use crate::tally::{Made, Tally};
use serde_content::samples::Point;
use serde_content::{Error, ErrorKind, Result, Value};
use std::alloc::{AllocError, Global};

/// Makes the calls.
pub fn run(tally: &mut Tally, alloc: Global) {
    if let Some(items) = tally.made(vec![in alloc; Value::from(true), Value::from(true)]) {
        let pair: Result<(bool, u8)> = reads(Value::Tuple(items)).deserialize(alloc);
        probe_refusal(tally, alloc, pair.err(), "/1");
    }
    if let Some(by_key) = tally.reader(structure(alloc, fields(alloc))) {
        let point: Result<Point> = by_key.deserialize(alloc);
        probe_refusal(tally, alloc, point.err(), "/x");
    }
}

/// Counts an error at this path, and a copy of it.
fn probe_refusal(tally: &mut Tally, alloc: Global, error: Option<Error>, path: &str) {
    tally.promised("an error", error.is_some());
    if let Some(error) = error {
        tally.answered("the path of an error", is_at(alloc, &error, path));
        let copy = tally.given("a copy of an error", error.try_clone(alloc));
        drop(error);
        if let Some(copy) = copy {
            tally.answered("the path of a copy", is_at(alloc, &copy, path));
            drop(copy);
        }
    }
}

/// Whether something else was found than what was expected, at this path. Where there is no path,
/// memory ran out for it.
fn is_at(alloc: Global, error: &Error, path: &str) -> Made<bool> {
    if !matches!(error.kind(), ErrorKind::Unexpected { .. }) {
        return Ok(false);
    }
    match error.path() {
        Some(known) => {
            let printed = format!(in alloc; "{known}");
            drop(known);
            is_same(printed, path)
        }
        None => Err(AllocError),
    }
}

/// Whether a text that was printed is this one.
fn is_same(printed: Made<String>, text: &str) -> Made<bool> {
    let printed = printed?;
    let is_same = printed.as_str() == text;
    drop(printed);
    Ok(is_same)
}
