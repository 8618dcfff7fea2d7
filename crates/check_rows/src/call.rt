//! Calls that are read from a row.

use crate::cursor::Cursor;
use crate::number::number_of;
use crate::printable::{octet, read_printable};
use crate::quoted::{take_part, take_rest};
use serde_content::ser::Call;
use serde_content::{CowBytes, CowStr};
use std::str::FromStr;

/// Takes a list of calls, parted by a semicolon and a space.
pub fn read_calls(columns: &mut Cursor<'_, u8>) -> Vec<Call<'static>> {
    let list = take_part(columns, b'\t');
    let mut calls = Vec::new(columns.alloc());
    if !list.is_empty() {
        for text in list.split("; ") {
            let mut words = Cursor::new(columns.alloc(), text.as_bytes());
            let call = read_call(&mut words);
            columns.note(words.end());
            columns.made(calls.push(call));
        }
    }
    calls
}

/// A call: a word, and after it what it tells.
fn read_call(words: &mut Cursor<'_, u8>) -> Call<'static> {
    let is_phrase = words.rest().iter().any(|byte| *byte == b' ');
    let word = take_part(words, b' ');
    if is_phrase {
        read_phrase(word, words)
    } else {
        words.found_or(read_word(word), Call::End)
    }
}

/// A call of one word.
fn read_word(word: &str) -> Option<Call<'static>> {
    match word {
        "unit" => Some(Call::Unit),
        "none" => Some(Call::NoneCall),
        "some" => Some(Call::SomeCall),
        "seq" => Some(Call::Seq(None)),
        "map" => Some(Call::Map(None)),
        "element" => Some(Call::Element),
        "tuple_field" => Some(Call::TupleField),
        "key" => Some(Call::Key),
        "value" => Some(Call::Value),
        "entry" => Some(Call::Entry),
        "end" => Some(Call::End),
        _ => None,
    }
}

/// Takes a word as what it spells.
fn take<T: FromStr + Default + Drop>(words: &mut Cursor<'_, u8>) -> T
where
    T::Err: Drop,
{
    let word = take_part(words, b' ');
    words.parsed(word)
}

/// Takes a name.
fn name(words: &mut Cursor<'_, u8>) -> &'static str {
    let name = take_part(words, b' ');
    words.name(name)
}

/// A call of this word and what it tells.
fn read_phrase(word: &str, words: &mut Cursor<'_, u8>) -> Call<'static> {
    match word {
        "bool" => Call::Bool(take(words)),
        "char" => Call::Char(read_char(words)),
        "str" => Call::Str(CowStr::Owned(read_text(words))),
        "bytes" => Call::Bytes(CowBytes::Owned(read_bytes(words))),
        "seq" => Call::Seq(Some(take(words))),
        "map" => Call::Map(Some(take(words))),
        "tuple" => Call::Tuple(take(words)),
        "field" => Call::Field(name(words)),
        "unit_struct" => Call::UnitStruct(name(words)),
        "newtype_struct" => Call::NewtypeStruct(name(words)),
        "tuple_struct" => Call::TupleStruct(name(words), take(words)),
        "struct" => Call::Struct(name(words), take(words)),
        "unit_variant" => Call::UnitVariant(name(words), take(words), name(words)),
        "newtype_variant" => Call::NewtypeVariant(name(words), take(words), name(words)),
        "tuple_variant" => Call::TupleVariant(name(words), take(words), name(words), take(words)),
        "struct_variant" => Call::StructVariant(name(words), take(words), name(words), take(words)),
        kind => {
            let digits = take_part(words, b' ');
            Call::Number(number_of(words, kind, digits))
        }
    }
}

/// The text that is left.
fn read_text(words: &mut Cursor<'_, u8>) -> String {
    let octets = read_printable(words);
    words.found_or(String::from_utf8(octets).ok(), String::new(words.alloc()))
}

/// The character that is left.
fn read_char(words: &mut Cursor<'_, u8>) -> char {
    let text = read_text(words);
    words.parsed(text.as_str())
}

/// The bytes that pairs of hexadecimal digits spell.
fn read_bytes(words: &mut Cursor<'_, u8>) -> Vec<u8> {
    let mut bytes = Vec::new(words.alloc());
    for pair in take_rest(words).as_bytes().chunks(2) {
        let byte = match pair {
            [high, low] => octet(*high, *low),
            _ => None,
        };
        let byte = words.found_or(byte, 0);
        words.made(bytes.push(byte));
    }
    bytes
}
