//! Printed texts, of things and of their copies.

use crate::answer::Answer;
use crate::expectation::read_expected;
use crate::kind::read_kind;
use crate::piece::{Piece, Pieces};
use crate::printable::{write_printed, write_refusal};
use crate::tree::{read_image, read_tree};
use serde_content::ser::{Builder, Serializer as _};
use serde_content::{Error, Found, FoundData, Result, Unexpected, Value};
use std::alloc::Global;
use std::fmt::Display;

/// Adds the text of a copy, where it equals the original.
fn write_copy<T: Display + PartialEq + Drop>(out: &mut Answer, original: &T, copy: Result<T>) {
    if let Some(copy) = out.given(copy) {
        if copy == *original {
            write_printed(out, copy);
        } else {
            out.push_str("unequal");
        }
    }
}

/// A copy, in a box.
fn boxed_copy(alloc: Global, data: &FoundData) -> Result<Box<FoundData>> {
    Ok(Box::new(alloc, data.try_clone(alloc)?)?)
}

/// A copy of an image, of which what a struct or an enum holds is copied once more.
fn copy_of(alloc: Global, image: &Found) -> Result<Found> {
    match image.try_clone(alloc)? {
        Found::Struct { name, data } => {
            let data = boxed_copy(alloc, &data)?;
            Ok(Found::Struct { name, data })
        }
        Found::Enum {
            name,
            variant,
            data,
        } => {
            let data = boxed_copy(alloc, &data)?;
            Ok(Found::Enum {
                name,
                variant,
                data,
            })
        }
        other => Ok(other),
    }
}

/// What the value that starts here prints.
fn printed<'a>(pieces: &mut Pieces<'a>, start: &'a [Piece]) -> Result<String> {
    pieces.move_to(start);
    let value: Value<'a> = read_tree(pieces);
    let text = format!(in pieces.alloc(); "{}", value.display());
    drop(value);
    Ok(text?)
}

/// The tree of the text that an image prints, as a builder collects it.
fn collected(alloc: Global, image: &Found) -> Result<Value<'static>> {
    let mut builder: Builder<'static> = Builder::new(alloc, false);
    builder.collect_str(alloc, image)?;
    builder.finish()
}

/// Whether this text is what a builder collects of an image.
fn is_collected(alloc: Global, image: &Found, text: Result<String>) -> Result<bool> {
    let text = text?;
    let collected = collected(alloc, image)?;
    Ok(collected.as_str() == Some(text.as_str()))
}

/// Of a copy of an image; the value that has it prints the same, and a builder collects that.
pub fn image(out: &mut Answer, pieces: &mut Pieces<'_>) {
    let start = pieces.rest();
    let image = read_image(pieces);
    let text = match &image {
        Found::Identifier(name) => Ok(pieces.copied(name.as_str())),
        _ => printed(pieces, start),
    };
    match out.given(is_collected(pieces.alloc(), &image, text)) {
        Some(false) => out.push_str("another text"),
        _ => write_copy(out, &image, copy_of(pieces.alloc(), &image)),
    }
    drop(image);
}

/// Of a value on several lines.
pub fn pretty(out: &mut Answer, pieces: &mut Pieces<'_>) {
    let value = read_tree(pieces);
    write_printed(out, value.pretty());
    drop(value);
}

/// Of a copy of an expectation.
pub fn expected(out: &mut Answer, pieces: &mut Pieces<'_>) {
    let expected = read_expected(pieces);
    write_copy(out, &expected, expected.try_clone(pieces.alloc()));
    drop(expected);
}

/// Of a copy of the kind of an error, and of a copy of the error of this kind.
pub fn kind(out: &mut Answer, pieces: &mut Pieces<'_>) {
    let kind = read_kind(pieces);
    write_copy(out, &kind, kind.try_clone(pieces.alloc()));
    out.push_str("; ");
    let error = Error::from(kind);
    write_copy(out, &error, error.try_clone(pieces.alloc()));
    drop(error);
}

/// Of the error that a tree is not what was expected.
pub fn unexpected(out: &mut Answer, pieces: &mut Pieces<'_>) {
    let value = read_tree(pieces);
    let expected = read_expected(pieces);
    write_refusal(out, "", value.unexpected(pieces.alloc(), expected));
}

/// Of the error that a number, a struct or an enum is not what was expected.
pub fn unexpected_part(out: &mut Answer, pieces: &mut Pieces<'_>) {
    let alloc = pieces.alloc();
    let value = read_tree(pieces);
    let expected = read_expected(pieces);
    match value {
        Value::Number(number) => write_refusal(out, "", number.unexpected(alloc, expected)),
        Value::Struct(node) => write_refusal(out, "", node.unexpected(alloc, expected)),
        Value::Enum(node) => write_refusal(out, "", node.unexpected(alloc, expected)),
        other => out.unfit((other, expected)),
    }
}
