//! Trees and images of a row.

use crate::failure::Failure;
use crate::number::read_number;
use crate::piece::{
    Case, Piece, Pieces, take_if_mark, take_if_word, take_mark, take_name, take_parsed, take_text,
    take_word,
};
use serde_content::{CowBytes, CowStr, Data, Enum, Found, Struct, Value};

/// How deep a tree may nest.
const MAX_DEPTH: usize = 100;

/// A tree.
pub fn read_tree<'a>(pieces: &mut Pieces<'a>) -> Value<'a> {
    read_value(pieces, MAX_DEPTH)
}

/// The text that a tree is.
pub fn read_text<'a>(pieces: &mut Pieces<'a>) -> CowStr<'a> {
    match read_tree(pieces) {
        Value::String(text) => text,
        other => pieces.instead(other, CowStr::Borrowed("")),
    }
}

/// The image of a tree, or an identifier.
pub fn read_image(pieces: &mut Pieces<'_>) -> Found {
    if take_if_word(pieces, "Identifier") {
        take_mark(pieces, b'(');
        let name = take_text(pieces);
        take_mark(pieces, b')');
        Found::Identifier(name)
    } else {
        let image = read_tree(pieces).into_found(pieces.alloc());
        pieces.made(image).unwrap_or(Found::Unit)
    }
}

/// A copy of bytes.
fn copied<'a>(pieces: &mut Pieces<'_>, bytes: &Vec<u8>) -> CowBytes<'a> {
    let copy = bytes.as_slice().to_vec(pieces.alloc());
    match pieces.made(copy) {
        Some(copy) => CowBytes::Owned(copy),
        None => CowBytes::Borrowed(&[]),
    }
}

/// A tree of at most this depth.
#[cycle(tree)]
fn read_value<'a>(pieces: &mut Pieces<'a>, depth: usize) -> Value<'a> {
    if depth == 0 {
        return pieces.found_or(None, Value::Unit);
    }
    match pieces.next() {
        Some(Piece::Char(character)) => Value::Char(*character),
        Some(Piece::Text(Case::Borrowed, text)) => Value::from(text),
        Some(Piece::Text(Case::Owned, text)) => Value::from(pieces.copied(text.as_str())),
        Some(Piece::Bytes(Case::Borrowed, bytes)) => Value::from(bytes),
        Some(Piece::Bytes(Case::Owned, bytes)) => Value::Bytes(copied(pieces, bytes)),
        Some(Piece::Word(word)) => read_worded(word.as_str(), pieces, depth - 1),
        Some(Piece::Mark(b'(')) if take_if_mark(pieces, b')') => Value::Unit,
        Some(Piece::Mark(b'(')) => Value::Tuple(read_items(pieces, b')', depth - 1)),
        Some(Piece::Mark(b'[')) => Value::Seq(read_items(pieces, b']', depth - 1)),
        Some(Piece::Mark(b'{')) => Value::Map(read_pairs(pieces, depth - 1)),
        _ => pieces.found_or(None, Value::Unit),
    }
}

/// A tree whose word was read.
#[cycle(tree)]
fn read_worded<'a>(word: &str, pieces: &mut Pieces<'a>, depth: usize) -> Value<'a> {
    match word {
        "true" => Value::Bool(true),
        "false" => Value::Bool(false),
        "None" => Value::Option(None),
        "Some" => {
            let held = Box::new(pieces.alloc(), read_held(pieces, depth));
            Value::Option(pieces.made(held))
        }
        "Seq" => Value::Seq(read_list(pieces, depth)),
        "Tuple" => Value::Tuple(read_list(pieces, depth)),
        "Map" => {
            take_mark(pieces, b'{');
            Value::Map(read_pairs(pieces, depth))
        }
        "Struct" => {
            let node = Box::new(pieces.alloc(), read_struct(pieces, depth));
            pieces.made(node).map_or(Value::Unit, Value::Struct)
        }
        "Enum" => {
            let node = Box::new(pieces.alloc(), read_enum(pieces, depth));
            pieces.made(node).map_or(Value::Unit, Value::Enum)
        }
        _ => Value::Number(read_number(pieces, word)),
    }
}

/// A tree in brackets.
#[cycle(tree)]
fn read_held<'a>(pieces: &mut Pieces<'a>, depth: usize) -> Value<'a> {
    take_mark(pieces, b'(');
    let held = read_value(pieces, depth);
    take_mark(pieces, b')');
    held
}

/// Trees in brackets.
#[cycle(tree)]
fn read_list<'a>(pieces: &mut Pieces<'a>, depth: usize) -> Vec<Value<'a>> {
    take_mark(pieces, b'[');
    read_items(pieces, b']', depth)
}

/// Trees, up to this bracket.
#[cycle(tree)]
fn read_items<'a>(pieces: &mut Pieces<'a>, end: u8, depth: usize) -> Vec<Value<'a>> {
    let mut items = Vec::new(pieces.alloc());
    for _ in pieces.rest() {
        if take_if_mark(pieces, end) {
            return items;
        }
        let item = read_value(pieces, depth);
        pieces.made(items.push(item));
    }
    pieces.note(Err(Failure::NoRow));
    items
}

/// Pairs of trees, up to a bracket.
#[cycle(tree)]
fn read_pairs<'a>(pieces: &mut Pieces<'a>, depth: usize) -> Vec<(Value<'a>, Value<'a>)> {
    let mut pairs = Vec::new(pieces.alloc());
    for _ in pieces.rest() {
        if take_if_mark(pieces, b'}') {
            return pairs;
        }
        let pair = (read_value(pieces, depth), read_value(pieces, depth));
        pieces.made(pairs.push(pair));
    }
    pieces.note(Err(Failure::NoRow));
    pairs
}

/// Keys with trees in brackets.
#[cycle(tree)]
fn read_fields<'a>(pieces: &mut Pieces<'a>, depth: usize) -> Vec<(CowStr<'static>, Value<'a>)> {
    let mut fields = Vec::new(pieces.alloc());
    take_mark(pieces, b'{');
    for _ in pieces.rest() {
        if take_if_mark(pieces, b'}') {
            return fields;
        }
        let field = (take_name(pieces), read_value(pieces, depth));
        pieces.made(fields.push(field));
    }
    pieces.note(Err(Failure::NoRow));
    fields
}

/// A name and what the struct holds, in brackets.
#[cycle(tree)]
fn read_struct<'a>(pieces: &mut Pieces<'a>, depth: usize) -> Struct<'a> {
    take_mark(pieces, b'(');
    let node = Struct {
        name: take_name(pieces),
        data: read_data(pieces, depth),
    };
    take_mark(pieces, b')');
    node
}

/// A name, an index, a variant and what it holds, in brackets.
#[cycle(tree)]
fn read_enum<'a>(pieces: &mut Pieces<'a>, depth: usize) -> Enum<'a> {
    take_mark(pieces, b'(');
    let node = Enum {
        name: take_name(pieces),
        variant_index: take_parsed(pieces),
        variant: take_name(pieces),
        data: read_data(pieces, depth),
    };
    take_mark(pieces, b')');
    node
}

/// What a struct or a variant holds.
#[cycle(tree)]
fn read_data<'a>(pieces: &mut Pieces<'a>, depth: usize) -> Data<'a> {
    match take_word(pieces) {
        "Unit" => Data::Unit,
        "NewType" => Data::NewType {
            value: read_held(pieces, depth),
        },
        "Tuple" => Data::Tuple {
            values: read_list(pieces, depth),
        },
        "Fields" => Data::Struct {
            fields: read_fields(pieces, depth),
        },
        _ => pieces.found_or(None, Data::Unit),
    }
}
