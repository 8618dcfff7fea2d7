//! Requests, and what they answer.

use crate::access::{open, write_enum, write_map, write_seq};
use crate::answer::Answer;
use crate::deserializer::{read_deserializer, write_handed, write_handed_out};
use crate::flags::{Flags, read_flags};
use crate::piece::{Pieces, take_word};
use crate::printable::write_datum;
use crate::request::{Request, read_request};
use crate::show::{write_given, write_whole};
use serde_content::de::{Node, VariantAccess};
use serde_content::{Deserializer, Result, Value};

/// What is answered to a request.
pub fn ask(out: &mut Answer, pieces: &mut Pieces<'_>) {
    let flags = read_flags(pieces);
    let request = read_request(pieces);
    let from = read_deserializer(pieces, flags);
    out.push_str("ok ");
    match request.word {
        "any" => write_any(out, flags, from),
        _ => write_parts(out, flags, request, from),
    }
}

/// Adds the answer to a request, here of one for parts.
fn write_parts(
    out: &mut Answer,
    flags: Flags,
    request: Request<'_>,
    from: Deserializer<'_, 'static>,
) {
    let alloc = out.alloc();
    let name = request.name;
    let length = request.length;
    match request.word {
        "option" => write_option(out, from.deserialize_option(alloc)),
        "newtype_struct" => write_handed_out(out, from.deserialize_newtype_struct(alloc, name)),
        "seq" => write_seq(out, flags, from.deserialize_seq(alloc)),
        "tuple" => write_seq(out, flags, from.deserialize_tuple(alloc, length)),
        "tuple_struct" => {
            let items = from.deserialize_tuple_struct(alloc, name, length);
            write_seq(out, flags, items);
        }
        "map" => write_map(out, flags, from.deserialize_map(alloc)),
        "struct" => write_map(out, flags, from.deserialize_struct(alloc, name, &[])),
        "enum" => write_enum(out, from.deserialize_enum(alloc, name, &[])),
        _ => write_leaf(out, request, from),
    }
}

/// Adds what may be held.
fn write_option(out: &mut Answer, held: Result<Option<Deserializer<'_, 'static>>>) {
    match out.given(held).flatten() {
        Some(held) => {
            out.push_str("some ");
            write_handed(out, held);
        }
        None => out.push_str("none"),
    }
}

/// Adds the answer to a request for a datum.
fn write_leaf(out: &mut Answer, request: Request<'_>, from: Deserializer<'_, 'static>) {
    let alloc = out.alloc();
    match request.word {
        "bool" => write_datum(out, from.deserialize_bool(alloc)),
        "i8" => write_datum(out, from.deserialize_i8(alloc)),
        "u8" => write_datum(out, from.deserialize_u8(alloc)),
        "i16" => write_datum(out, from.deserialize_i16(alloc)),
        "u16" => write_datum(out, from.deserialize_u16(alloc)),
        "i32" => write_datum(out, from.deserialize_i32(alloc)),
        "u32" => write_datum(out, from.deserialize_u32(alloc)),
        "i64" => write_datum(out, from.deserialize_i64(alloc)),
        "u64" => write_datum(out, from.deserialize_u64(alloc)),
        "i128" => write_datum(out, from.deserialize_i128(alloc)),
        "u128" => write_datum(out, from.deserialize_u128(alloc)),
        "char" => write_given(out, from.deserialize_char(alloc)),
        "str" => write_given(out, from.deserialize_str(alloc)),
        "string" => write_given(out, from.deserialize_string(alloc)),
        "identifier" => write_given(out, from.deserialize_identifier(alloc)),
        "bytes" => write_given(out, from.deserialize_bytes(alloc)),
        "byte_buf" => write_given(out, from.deserialize_byte_buf(alloc)),
        "unit" => write_datum(out, from.deserialize_unit(alloc)),
        "unit_struct" => write_datum(out, from.deserialize_unit_struct(alloc, request.name)),
        "ignored_any" => write_datum(out, from.deserialize_ignored_any(alloc)),
        _ => out.unfit(from),
    }
}

/// Adds what is there, whatever it is.
fn write_any(out: &mut Answer, flags: Flags, from: Deserializer<'_, 'static>) {
    out.push_str("node ");
    if let Some(node) = out.given(from.deserialize_any(out.alloc())) {
        write_node(out, flags, node);
    }
}

/// Adds a node.
fn write_node(out: &mut Answer, flags: Flags, node: Node<'_, 'static>) {
    match node {
        Node::Unit => write_whole(out, Value::Unit),
        Node::Bool(flag) => write_whole(out, Value::Bool(flag)),
        Node::Number(number) => write_whole(out, Value::Number(number)),
        Node::Char(character) => write_whole(out, Value::Char(character)),
        Node::Str(text) => write_whole(out, Value::String(text)),
        Node::Bytes(bytes) => write_whole(out, Value::Bytes(bytes)),
        Node::NoneNode => write_option(out, Ok(None)),
        Node::SomeNode(held) => write_option(out, Ok(Some(held))),
        Node::Newtype(held) => {
            out.push_str("newtype ");
            write_handed(out, held);
        }
        Node::Seq(items) => write_seq(out, flags, Ok(items)),
        Node::Map(entries) => write_map(out, flags, Ok(entries)),
        Node::Enum(access) => write_enum(out, Ok(access)),
    }
}

/// Opens the variant that is there: requested under a name, or without one as whatever is there.
fn open_enum<'de>(
    out: &mut Answer,
    from: Deserializer<'de, 'static>,
    name: &'static str,
) -> Option<(Deserializer<'de, 'static>, VariantAccess<'de, 'static>)> {
    let alloc = out.alloc();
    if !name.is_empty() {
        return open(out, from.deserialize_enum(alloc, name, &[]));
    }
    match out.given(from.deserialize_any(alloc))? {
        Node::Enum(access) => open(out, Ok(access)),
        other => {
            out.unfit(other);
            None
        }
    }
}

/// What is answered to a request for a variant, whatever its tag, of the enum of this name, or under
/// `-` of whatever is there.
pub fn variant(out: &mut Answer, pieces: &mut Pieces<'_>) {
    let flags = read_flags(pieces);
    let name = match take_word(pieces) {
        "-" => "",
        name => pieces.name(name),
    };
    let request = read_request(pieces);
    let from = read_deserializer(pieces, flags);
    out.push_str("ok ");
    if let Some((tag, variant)) = open_enum(out, from, name) {
        drop(tag);
        write_variant(out, flags, request, variant);
    }
}

/// Adds the answer to a request for what a variant holds.
fn write_variant(
    out: &mut Answer,
    flags: Flags,
    request: Request<'_>,
    variant: VariantAccess<'_, 'static>,
) {
    let alloc = out.alloc();
    match request.word {
        "unit_variant" => write_datum(out, variant.unit_variant(alloc)),
        "newtype_deserializer" => write_handed_out(out, variant.newtype_deserializer(alloc)),
        "tuple_variant" => write_seq(out, flags, variant.tuple_variant(alloc, request.length)),
        "struct_variant" => write_map(out, flags, variant.struct_variant(alloc, &[])),
        _ => out.unfit(variant),
    }
}
