//! Expectations of a row.

use crate::named::case_named;
use crate::piece::{Pieces, take_if_word, take_mark, take_parsed, take_text, take_word};
use serde_content::{DataType, Expected};

/// An expectation.
pub fn read_expected(pieces: &mut Pieces<'_>) -> Expected {
    match take_word(pieces) {
        "Tuple" => {
            take_mark(pieces, b'(');
            let length = take_parsed(pieces);
            take_mark(pieces, b')');
            Expected::Tuple(length)
        }
        "Struct" => {
            let (name, typ) = read_named(pieces);
            Expected::Struct { name, typ }
        }
        "Enum" => {
            let (name, typ) = read_named(pieces);
            Expected::Enum { name, typ }
        }
        word => {
            let expected = case_named!(
                word,
                Expected,
                [
                    Unit, Bool, Char, String, StaticStr, Bytes, Seq, Map, Identifier, I8, U8, I16,
                    U16, I32, U32, I64, U64, I128, U128,
                ]
            );
            pieces.found_or(expected, Expected::Unit)
        }
    }
}

/// A name and a type in brackets, each of which may be `-`.
fn read_named(pieces: &mut Pieces<'_>) -> (Option<String>, Option<DataType>) {
    take_mark(pieces, b'(');
    let name = match take_if_word(pieces, "-") {
        true => None,
        false => Some(take_text(pieces)),
    };
    let typ = match take_if_word(pieces, "-") {
        true => None,
        false => Some(read_type(pieces)),
    };
    take_mark(pieces, b')');
    (name, typ)
}

/// A type.
fn read_type(pieces: &mut Pieces<'_>) -> DataType {
    let word = take_word(pieces);
    let typ = case_named!(word, DataType, [Unit, NewType, Tuple, Struct]);
    pieces.found_or(typ, DataType::Unit)
}
