//! What becomes a value, a number or a deserializer.

use crate::answer::Answer;
use crate::deserializer::{read_deserializer, write_handed_out};
use crate::failure::Failure;
use crate::flags::{Flags, read_flags};
use crate::number::{with_whole, write_number};
use crate::piece::{Pieces, take_word};
use crate::show::write_whole;
use crate::tree::read_tree;
use serde_content::de::IntoDeserializer;
use serde_content::{CowBytes, CowStr, Deserializer, Number, Result, Value};

/// The value from what a tree holds, by the type that is named.
pub fn from(out: &mut Answer, pieces: &mut Pieces<'_>) {
    let typ = take_word(pieces);
    match read_tree(pieces) {
        Value::String(text) => from_text(out, typ, text),
        Value::Bytes(bytes) => from_bytes(out, typ, bytes),
        value => from_leaf(out, typ, &value),
    }
}

/// The value from what takes no memory.
fn from_leaf(out: &mut Answer, typ: &str, value: &Value<'_>) {
    match (typ, value) {
        ("unit", Value::Unit) => write_whole(out, Value::from(())),
        ("bool", Value::Bool(flag)) => write_whole(out, Value::from(*flag)),
        ("char", Value::Char(character)) => write_whole(out, Value::from(*character)),
        (_, Value::Number(number)) => from_number(out, typ, *number),
        _ => out.fail(Failure::NoRow),
    }
}

/// The value from a number, and for a whole number also the `Number` from it.
fn from_number(out: &mut Answer, typ: &str, number: Number) {
    match typ {
        "Number" => write_whole(out, Value::from(number)),
        "whole" => {
            write_whole(out, with_whole!(number, n => Value::from(n)));
            out.push_str(", ");
            write_number(out, with_whole!(number, n => Number::from(n)));
        }
        _ => out.fail(Failure::NoRow),
    }
}

/// The value from a text.
fn from_text(out: &mut Answer, typ: &str, text: CowStr<'_>) {
    match (typ, text) {
        ("CowStr", text) => write_whole(out, Value::from(text)),
        ("&str", text) => write_whole(out, Value::from(text.as_str())),
        (_, other) => out.unfit(other),
    }
}

/// The value from bytes.
fn from_bytes(out: &mut Answer, typ: &str, bytes: CowBytes<'_>) {
    match (typ, bytes) {
        ("&slice", bytes) => write_whole(out, Value::from(bytes.as_bytes())),
        ("Vec", CowBytes::Owned(bytes)) => write_whole(out, Value::from(bytes)),
        (_, other) => out.unfit(other),
    }
}

/// Adds a part of a value, made a value again; or the value itself, which has no such part.
fn write_part<'a, T: Into<Value<'a>>, V: Into<Value<'a>>>(
    out: &mut Answer,
    part: std::result::Result<T, V>,
) {
    match part {
        Ok(part) => write_whole(out, part.into()),
        Err(value) => {
            out.push_str("none; ");
            write_whole(out, value.into());
        }
    }
}

/// What a value gives as the type that is named, made a value again; or the value itself, which has
/// no such part.
pub fn part(out: &mut Answer, pieces: &mut Pieces<'_>) {
    let typ = take_word(pieces);
    match (typ, read_tree(pieces)) {
        ("bool", value) => write_part(out, bool::try_from(value)),
        ("Number", value) => write_part(out, Number::try_from(value)),
        ("char", value) => write_part(out, char::try_from(value)),
        ("CowStr", value) => write_part(out, <CowStr<'_>>::try_from(value)),
        ("CowBytes", value) => write_part(out, <CowBytes<'_>>::try_from(value)),
        ("seq", value) => write_part(out, <Vec<Value<'_>>>::try_from(value)),
        ("map", value) => write_part(out, <Vec<(Value<'_>, Value<'_>)>>::try_from(value)),
        ("option", value) => write_part(out, <Option<Box<Value<'_>>>>::try_from(value)),
        ("box", Value::Struct(node)) => write_whole(out, Value::from(node)),
        ("box", Value::Enum(node)) => write_whole(out, Value::from(node)),
        (_, other) => out.unfit(other),
    }
}

/// The deserializer that a tree, a number, an enum or a deserializer with these flags becomes.
pub fn into(out: &mut Answer, pieces: &mut Pieces<'_>) {
    let form = take_word(pieces);
    let flags = read_flags(pieces);
    let from = match form {
        "deserializer" => of_deserializer(pieces, flags),
        _ => of_tree(pieces, form),
    };
    out.push_str("ok ");
    write_handed_out(out, from);
}

/// The deserializer that one with these flags becomes.
fn of_deserializer<'a>(pieces: &mut Pieces<'a>, flags: Flags) -> Result<Deserializer<'a, 'static>> {
    read_deserializer(pieces, flags).into_deserializer(pieces.alloc())
}

/// The deserializer of a tree in this form.
fn of_tree<'a>(pieces: &mut Pieces<'a>, form: &str) -> Result<Deserializer<'a, 'static>> {
    let alloc = pieces.alloc();
    let value: Value<'a> = read_tree(pieces);
    match (form, value) {
        ("value", value) => value.into_deserializer(alloc),
        ("number", Value::Number(number)) => number.into_deserializer(alloc),
        ("enum", Value::Enum(node)) => Box::into_inner(node).into_deserializer(alloc),
        (_, other) => Ok(pieces.instead(other, Deserializer::new(Value::Unit))),
    }
}
