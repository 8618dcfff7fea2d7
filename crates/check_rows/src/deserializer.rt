//! Deserializers as rows have them.

use crate::answer::Answer;
use crate::flags::{Flags, flags_of, flags_word, with_flags};
use crate::piece::{Pieces, take_if_word, take_mark, take_name, take_parsed};
use crate::show::{write_text, write_whole};
use crate::tree::read_tree;
use serde_content::{CowStr, Data, Deserializer, Enum, Result, Value};
use std::alloc::Global;

/// A deserializer of a tree, or of the name of a variant, which is always human readable.
pub fn read_deserializer<'a>(pieces: &mut Pieces<'a>, flags: Flags) -> Deserializer<'a, 'static> {
    if take_if_word(pieces, "id") {
        let node = read_name(pieces);
        let name = deserializer_of_name(pieces.alloc(), node, flags);
        pieces.made(name).unwrap_or(Deserializer::new(Value::Unit))
    } else {
        let value: Value<'a> = read_tree(pieces);
        with_flags(Deserializer::new(value), flags)
    }
}

/// The name of a variant and its index, in brackets.
fn read_name<'a>(pieces: &mut Pieces<'a>) -> Enum<'a> {
    take_mark(pieces, b'(');
    let node = Enum {
        name: CowStr::Borrowed("E"),
        variant: take_name(pieces),
        variant_index: take_parsed(pieces),
        data: Data::Unit,
    };
    take_mark(pieces, b')');
    node
}

/// A deserializer of the name of this variant, with its index.
fn deserializer_of_name<'a>(
    alloc: Global,
    node: Enum<'a>,
    flags: Flags,
) -> Result<Deserializer<'a, 'static>> {
    let value: Value<'a> = Value::Enum(Box::new(alloc, node)?);
    let access = with_flags(Deserializer::new(value), flags).deserialize_enum(alloc, "E", &[])?;
    let (name, _held) = access.variant_deserializer(alloc)?;
    Ok(name)
}

/// The index that a name tells.
fn index_of(alloc: Global, name: &Deserializer<'_, 'static>) -> Result<u64> {
    name.try_clone(alloc)?.deserialize_u64(alloc)
}

/// Adds what reads a name: its text, and its index.
fn write_name(out: &mut Answer, name: Deserializer<'_, 'static>) {
    let index = out.given(index_of(out.alloc(), &name)).unwrap_or(0);
    if let Some(text) = out.given(name.deserialize_str(out.alloc())) {
        out.push_str("id(");
        write_text(out, 's', &text);
        out.print(format_args!(", {index})"));
    }
}

/// Adds flags and a colon.
fn write_flags(out: &mut Answer, flags: Flags) {
    out.push_str(flags_word(flags));
    out.push(':');
}

/// Adds what is read.
fn write_source(out: &mut Answer, from: Deserializer<'_, 'static>) {
    match from.into_value() {
        Ok(tree) => write_whole(out, tree),
        Err(name) => write_name(out, name),
    }
}

/// Adds flags, a colon and what is read.
pub fn write_handed(out: &mut Answer, from: Deserializer<'_, 'static>) {
    let flags = flags_of(out, &from);
    write_flags(out, flags);
    write_source(out, from);
}

/// The same of what the library handed out.
pub fn write_handed_out(out: &mut Answer, given: Result<Deserializer<'_, 'static>>) {
    if let Some(from) = out.given(given) {
        write_handed(out, from);
    }
}

/// The flags of what is read inside an access with these flags; a name is human readable.
fn flags_inside(flags: Flags, from: &Deserializer<'_, 'static>) -> Flags {
    Flags {
        human_readable: flags.human_readable || from.as_value().is_none(),
        coerces: flags.coerces,
    }
}

/// Adds what is read inside an access with these flags, which come before it only where its own are
/// others.
pub fn write_inside(out: &mut Answer, flags: Flags, from: Deserializer<'_, 'static>) {
    let own = flags_of(out, &from);
    if own != flags_inside(flags, &from) {
        write_flags(out, own);
    }
    write_source(out, from);
}
