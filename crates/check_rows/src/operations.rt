//! What a row can ask: one function an operation, and one arm here.

mod asking;
mod building;
mod comparing;
mod converting;
mod copying;
mod editing;
mod looking;
mod naming;
mod printing;
mod sending;
mod stepping;
mod typed;

use crate::answer::Answer;
use crate::cursor::Cursor;
use crate::failure::{Failure, Result};
use crate::piece::{Piece, Pieces, add_pieces};
use crate::quoted::take_rest;
use std::alloc::Global;

/// The answer of an operation to its arguments, which tabs part. What is wrong with the arguments
/// goes before what becomes of them.
pub fn answer(alloc: Global, operation: &str, arguments: &str) -> Result<String> {
    let mut out = Answer::new(alloc);
    let mut columns = Cursor::new(alloc, arguments.as_bytes());
    write_answer(&mut out, operation, &mut columns);
    columns.end()?;
    out.finish()
}

/// Adds the answer of an operation.
fn write_answer(out: &mut Answer, operation: &str, columns: &mut Cursor<'_, u8>) {
    match operation {
        "builder" => building::builder(out, columns),
        "calls" => building::calls(out, columns),
        "calls_prefix" => building::calls_prefix(out, columns),
        "calls_within" => building::calls_within(out, columns),
        "compare_calls" => comparing::calls(out, columns),
        "copy_calls" => copying::calls(out, columns),
        "record" => sending::record(out, columns),
        "replay" => building::replay(out, columns),
        _ => write_columns(out, operation, columns),
    }
}

/// The same for an operation whose arguments are read by pieces. A request, steps, a serialiser and
/// the type of `read`, `round_trip` or `send_as` are one word each.
fn write_columns(out: &mut Answer, operation: &str, columns: &mut Cursor<'_, u8>) {
    let mut pieces = Vec::new(columns.alloc());
    for (place, column) in take_rest(columns).split('\t').enumerate() {
        match (operation, place) {
            ("access", 1 | 2)
            | ("ask" | "read" | "read_buffered" | "round_trip", 1)
            | ("compare_serializers", 0 | 1)
            | ("enum", 2)
            | ("canonical" | "fields" | "send_as" | "send_readable", 0) => {
                let word = columns.copied(column);
                columns.made(pieces.push(Piece::Word(word)));
            }
            _ => columns.note(add_pieces(&mut pieces, column)),
        }
    }
    let mut pieces = Cursor::new(columns.alloc(), pieces.as_slice());
    write_of_pieces(out, operation, &mut pieces);
    columns.note(pieces.end());
}

/// The same of pieces.
fn write_of_pieces(out: &mut Answer, operation: &str, pieces: &mut Pieces<'_>) {
    match operation {
        "access" => stepping::access(out, pieces),
        "ask" => asking::ask(out, pieces),
        "canonical" => building::canonical(out, pieces),
        "enum" => asking::variant(out, pieces),
        "expected" => printing::expected(out, pieces),
        "fields" => naming::fields(out, pieces),
        "from" => converting::from(out, pieces),
        "image" => printing::image(out, pieces),
        "into" => converting::into(out, pieces),
        "kind" => printing::kind(out, pieces),
        "part" => converting::part(out, pieces),
        "pretty" => printing::pretty(out, pieces),
        "read" => typed::read(out, pieces, false),
        "read_buffered" => typed::read(out, pieces, true),
        "round_trip" => typed::round_trip(out, pieces),
        "send" => sending::send(out, pieces),
        "send_as" => typed::send_as(out, pieces, false),
        "send_readable" => typed::send_as(out, pieces, true),
        "unexpected" => printing::unexpected(out, pieces),
        "unexpected_part" => printing::unexpected_part(out, pieces),
        _ => write_of_values(out, operation, pieces),
    }
}

/// The same for an operation that looks into values, edits, copies or compares.
fn write_of_values(out: &mut Answer, operation: &str, pieces: &mut Pieces<'_>) {
    match operation {
        "compare" => comparing::values(out, pieces),
        "compare_data" => comparing::data(out, pieces),
        "compare_expected" => comparing::expected(out, pieces),
        "compare_images" => comparing::images(out, pieces),
        "compare_kinds" => comparing::kinds(out, pieces),
        "compare_serializers" => comparing::serializers(out, pieces),
        "copy" => copying::copy(out, pieces),
        "copy_data" => copying::copy_data(out, pieces),
        "copy_parts" => copying::copy_parts(out, pieces),
        "get" => looking::get(out, pieces),
        "get_index" => looking::get_index(out, pieces),
        "insert" => editing::insert(out, pieces),
        "lend" => looking::lend(out, pieces),
        "order" => comparing::deserializers(out, pieces),
        "pointer" => looking::pointer(out, pieces),
        "push" => editing::push(out, pieces),
        "remove" => editing::remove(out, pieces),
        "remove_pointer" => editing::remove_pointer(out, pieces),
        "remove_str" => editing::remove_str(out, pieces),
        "set_pointer" => editing::set_pointer(out, pieces),
        "take" => editing::take(out, pieces),
        _ => out.fail(Failure::NoRow),
    }
}
