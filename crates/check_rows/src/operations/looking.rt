//! What a value contains, and what is found by a key, a path or an index.

use crate::answer::Answer;
use crate::failure::Failure;
use crate::piece::{Pieces, take_parsed, take_word};
use crate::show::{write_items, write_pairs, write_tree, write_whole};
use crate::tree::{read_text, read_tree};
use serde_content::{NamedValue, Value};

/// The value of a key, and of one that is a text again by its text.
pub fn get(out: &mut Answer, pieces: &mut Pieces<'_>) {
    let key = read_tree(pieces);
    let value = read_tree(pieces);
    write_lent(out, value.get(&key));
    if let Some(text) = key.as_str() {
        out.push_str(", ");
        write_lent(out, value.get_str(text));
    }
    drop((key, value));
}

/// The value that a path leads to.
pub fn pointer(out: &mut Answer, pieces: &mut Pieces<'_>) {
    let path = read_text(pieces);
    let value = read_tree(pieces);
    write_lent(out, value.pointer(path.as_str()));
    drop((path, value));
}

/// The item of an index.
pub fn get_index(out: &mut Answer, pieces: &mut Pieces<'_>) {
    let index: usize = take_parsed(pieces);
    let value = read_tree(pieces);
    write_lent(out, value.get_index(index));
    drop(value);
}

/// What a value contains, by the type that is named.
pub fn lend(out: &mut Answer, pieces: &mut Pieces<'_>) {
    let typ = take_word(pieces);
    let value = read_tree(pieces);
    write_inside(out, typ, &value);
    drop(value);
}

/// Adds what a value contains, as this type.
fn write_inside(out: &mut Answer, typ: &str, value: &Value<'_>) {
    match typ {
        "seq" => match value.as_seq() {
            Some(items) => write_items(out, "[", items),
            None => write_lent(out, None),
        },
        "map" => match value.as_map() {
            Some(pairs) => write_pairs(out, "{", pairs),
            None => write_lent(out, None),
        },
        "items" => write_items(out, "[", value.items()),
        "entries" => write_pairs(out, "{", value.entries()),
        "fields" => out.print(value.fields().len()),
        "bool" => write_leaf(out, value.as_bool()),
        "number" => write_leaf(out, value.as_number()),
        "i64" => write_leaf(out, value.as_i64()),
        "u64" => write_leaf(out, value.as_u64()),
        "i128" => write_leaf(out, value.as_i128()),
        "u128" => write_leaf(out, value.as_u128()),
        "char" => write_leaf(out, value.as_char()),
        "str" => write_leaf(out, value.as_str()),
        "bytes" => write_leaf(out, value.as_bytes()),
        _ => out.fail(Failure::NoRow),
    }
}

/// Adds the value of a leaf, or that there is none.
fn write_leaf<'a, T: Into<Value<'a>> + Drop>(out: &mut Answer, leaf: Option<T>) {
    match leaf {
        Some(leaf) => write_whole(out, leaf.into()),
        None => write_lent(out, None),
    }
}

/// Adds a value that is borrowed, or that there is none.
fn write_lent(out: &mut Answer, value: Option<&NamedValue<'_, '_>>) {
    match value {
        Some(value) => write_tree(out, value),
        None => out.push_str("none"),
    }
}
