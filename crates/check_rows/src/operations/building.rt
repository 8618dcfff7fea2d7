//! Trees that are built of calls.

use crate::answer::Answer;
use crate::call::read_calls;
use crate::cursor::Cursor;
use crate::failure::Failure;
use crate::methods::make_call;
use crate::piece::{Pieces, take_word};
use crate::printable::{write_debug, write_printed};
use crate::quoted::take_part;
use crate::show::{write_given, write_whole};
use crate::tree::read_tree;
use serde_content::ser::{
    Builder, CallsError, Serializer as _, from_calls, from_calls_prefix, from_calls_within,
    replay as make_calls,
};
use serde_content::{Error, ErrorKind, Result, Serializer, Value};

/// Adds `ok` and the tree.
fn write_taken(out: &mut Answer, value: Value<'_>) {
    out.push_str("ok ");
    write_whole(out, value);
}

/// Adds the error's kind, unless memory is its cause.
fn write_kind(out: &mut Answer, error: Error) {
    if matches!(error.kind(), ErrorKind::OutOfMemory) {
        out.fail(Failure::OutOfMemory);
    }
    write_debug(out, error.kind());
    drop(error);
}

/// Adds the tree, or what is printed of the refusal.
fn write_spelled(out: &mut Answer, spelled: std::result::Result<Value<'_>, CallsError>) {
    match spelled {
        Ok(value) => write_taken(out, value),
        Err(refusal) => write_refused(out, refusal),
    }
}

/// Adds what is printed of the refusal of calls, unless memory is its cause.
fn write_refused(out: &mut Answer, refusal: CallsError) {
    if matches!(refusal.error.kind(), ErrorKind::OutOfMemory) {
        out.fail(Failure::OutOfMemory);
    }
    write_printed(out, refusal);
}

/// The tree that the calls spell, or where and why they are refused.
pub fn calls(out: &mut Answer, columns: &mut Cursor<'_, u8>) {
    let calls = read_calls(columns);
    write_spelled(out, from_calls(out.alloc(), calls.as_slice()));
}

/// The tree that a beginning of the calls spells and its length, or where and why they are refused.
pub fn calls_prefix(out: &mut Answer, columns: &mut Cursor<'_, u8>) {
    let calls = read_calls(columns);
    match from_calls_prefix(out.alloc(), calls.as_slice()) {
        Ok((value, length)) => {
            write_taken(out, value);
            out.print(format_args!(", {length}"));
        }
        Err(refusal) => write_refused(out, refusal),
    }
}

/// The tree that the calls spell within a limit, or where and why they are refused.
pub fn calls_within(out: &mut Answer, columns: &mut Cursor<'_, u8>) {
    let limit = take_part(columns, b'\t');
    let limit: usize = columns.parsed(limit);
    if limit == 0 {
        return out.fail(Failure::NoRow);
    }
    let calls = read_calls(columns);
    write_spelled(out, from_calls_within(out.alloc(), calls.as_slice(), limit));
}

/// Adds `Ok`, or the error's kind.
fn write_step(out: &mut Answer, answer: Result<()>) {
    match answer {
        Ok(()) => out.push_str("Ok"),
        Err(error) => write_kind(out, error),
    }
}

/// Adds whether the builder has failed, and then `ok` and its tree, or the error's kind.
fn write_end(out: &mut Answer, builder: Builder<'static>) {
    out.push_str(if builder.is_failed() {
        "; failed; "
    } else {
        "; works; "
    });
    match builder.finish() {
        Ok(value) => write_taken(out, value),
        Err(error) => write_kind(out, error),
    }
}

/// What a builder answers to each call, made by its own method, and how it ends.
pub fn builder(out: &mut Answer, columns: &mut Cursor<'_, u8>) {
    let calls = read_calls(columns);
    let mut builder: Builder<'static> = Builder::new(out.alloc(), false);
    for (place, call) in calls.iter().enumerate() {
        out.push_str(if place == 0 { "" } else { " " });
        write_step(out, make_call(&mut builder, call));
    }
    write_end(out, builder);
}

/// What a builder answers to each of two lists, replayed on it in turn, and how it ends.
pub fn replay(out: &mut Answer, columns: &mut Cursor<'_, u8>) {
    let first = read_calls(columns);
    let second = read_calls(columns);
    let mut builder: Builder<'static> = Builder::new(out.alloc(), false);
    write_step(out, make_calls(first.as_slice(), &mut builder));
    out.push(' ');
    write_step(out, make_calls(second.as_slice(), &mut builder));
    write_end(out, builder);
}

/// The serialiser that a word names, with a limit where one follows in brackets.
pub fn read_serializer(pieces: &mut Pieces<'_>) -> Serializer {
    let word = take_word(pieces);
    let (name, limit) = word.split_once('(').unwrap_or((word, ")"));
    let serializer = match name {
        "new" => Serializer::new(),
        "default" => Serializer::default(),
        "human_readable" => Serializer::new().human_readable(),
        _ => pieces.found_or(None, Serializer::new()),
    };
    if limit == ")" {
        return serializer;
    }
    let limit: usize = pieces.parsed(limit.strip_suffix(')').unwrap_or(""));
    if limit == 0 {
        pieces.found_or(None, serializer)
    } else {
        serializer.depth_limit(limit)
    }
}

/// What a serialiser makes of a tree.
pub fn canonical(out: &mut Answer, pieces: &mut Pieces<'_>) {
    let serializer = read_serializer(pieces);
    let value = read_tree(pieces);
    out.push_str("ok ");
    write_given(out, serializer.serialize(pieces.alloc(), &value));
    drop(value);
}
