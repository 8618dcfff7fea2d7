//! Copies, and trees and calls that own what they hold.

use crate::answer::Answer;
use crate::call::read_calls;
use crate::cursor::Cursor;
use crate::piece::Pieces;
use crate::show::{write_data, write_enum, write_given, write_struct};
use crate::show_call::write_call;
use crate::tree::read_tree;
use serde_content::ser::Call;
use serde_content::{CowBytes, CowStr, Data, Enum, Result, Struct, Value};

/// Adds a copy, and then what was copied as one that owns what it holds, each by this function.
macro_rules! write_both {
    ($out:expr, $original:ident, $write:ident) => {{
        let alloc = $out.alloc();
        let copy = $original.try_clone(alloc);
        $write($out, copy);
        $out.push_str("; ");
        $write($out, $original.into_owned(alloc));
    }};
}

/// A copy of a tree, and the tree as one that owns what it holds.
pub fn copy(out: &mut Answer, pieces: &mut Pieces<'_>) {
    let value = read_tree(pieces);
    write_both!(out, value, write_given);
}

/// The same of the text, the bytes, the struct or the enum that a tree holds.
pub fn copy_parts(out: &mut Answer, pieces: &mut Pieces<'_>) {
    match read_tree(pieces) {
        Value::String(text) => write_both!(out, text, write_given),
        Value::Bytes(bytes) => write_both!(out, bytes, write_given),
        Value::Struct(node) => {
            let node = Box::into_inner(node);
            write_both!(out, node, write_given_struct);
        }
        Value::Enum(node) => {
            let node = Box::into_inner(node);
            write_both!(out, node, write_given_enum);
        }
        other => out.unfit(other),
    }
}

/// Adds a struct that the library gave.
fn write_given_struct(out: &mut Answer, given: Result<Struct<'_>>) {
    if let Some(node) = out.given(given) {
        write_struct(out, &node);
        drop(node);
    }
}

/// Adds a variant of an enum that the library gave.
fn write_given_enum(out: &mut Answer, given: Result<Enum<'_>>) {
    if let Some(node) = out.given(given) {
        write_enum(out, &node);
        drop(node);
    }
}

/// The same of what the struct or the enum holds that a tree holds.
pub fn copy_data(out: &mut Answer, pieces: &mut Pieces<'_>) {
    let data = read_data(pieces);
    write_both!(out, data, write_given_data);
}

/// What the struct or the enum holds that a tree holds.
fn read_data<'a>(pieces: &mut Pieces<'a>) -> Data<'a> {
    match read_tree(pieces) {
        Value::Struct(node) => Box::into_inner(node).data,
        Value::Enum(node) => Box::into_inner(node).data,
        other => pieces.instead(other, Data::Unit),
    }
}

/// Adds data that the library gave.
fn write_given_data(out: &mut Answer, given: Result<Data<'_>>) {
    if let Some(data) = out.given(given) {
        write_data(out, &data);
        drop(data);
    }
}

/// Adds a call, and how what it holds is held.
fn write_held_call(out: &mut Answer, call: Result<Call<'_>>) {
    if let Some(call) = out.given(call) {
        write_call(out, &call);
        out.push_str(match &call {
            Call::Str(CowStr::Borrowed(_)) | Call::Bytes(CowBytes::Borrowed(_)) => " (borrowed)",
            Call::Str(CowStr::Owned(_)) | Call::Bytes(CowBytes::Owned(_)) => " (owned)",
            _ => "",
        });
    }
}

/// Of each call: a copy, a copy of it borrowed, and it borrowed and then owned.
pub fn calls(out: &mut Answer, columns: &mut Cursor<'_, u8>) {
    let alloc = out.alloc();
    let calls = read_calls(columns);
    for (place, call) in calls.iter().enumerate() {
        out.push_str(if place == 0 { "" } else { "; " });
        write_held_call(out, call.try_clone(alloc));
        out.push_str(", ");
        write_held_call(out, call.lend().try_clone(alloc));
        out.push_str(", ");
        write_held_call(out, call.lend().into_owned(alloc));
    }
}
