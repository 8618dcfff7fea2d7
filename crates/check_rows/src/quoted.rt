//! Parts of a text; characters and texts in quotes and bytes in brackets, from after their opening.

use crate::cursor::Cursor;
use crate::failure::Failure;
use std::str;

/// Takes the text before this byte, or all that is left where there is none, and the byte.
pub fn take_part<'a>(bytes: &mut Cursor<'a, u8>, end: u8) -> &'a str {
    let rest = bytes.rest();
    let length = rest.iter().position(|b| *b == end).unwrap_or(rest.len());
    let (part, after) = rest.split_at(length);
    bytes.move_to(after.get(1..).unwrap_or(&[]));
    bytes.found_or(str::from_utf8(part).ok(), "")
}

/// Takes all that is left.
pub fn take_rest<'a>(bytes: &mut Cursor<'a, u8>) -> &'a str {
    let rest = bytes.rest();
    bytes.move_to(&[]);
    bytes.found_or(str::from_utf8(rest).ok(), "")
}

/// Takes a byte.
fn take(bytes: &mut Cursor<'_, u8>) -> u8 {
    bytes.next().copied().unwrap_or(0)
}

/// The character whose code these hexadecimal digits are, as in `{e9`.
fn character_of(digits: &str) -> Option<char> {
    let digits = digits.strip_prefix('{')?;
    char::from_u32(u32::from_str_radix(digits, 16).ok()?)
}

/// The character after a backslash.
fn read_escape(bytes: &mut Cursor<'_, u8>) -> char {
    match take(bytes) {
        b't' => '\t',
        b'n' => '\n',
        b'r' => '\r',
        b'0' => '\0',
        b'u' => {
            let character = character_of(take_part(bytes, b'}'));
            bytes.found_or(character, '\0')
        }
        byte @ (b'\\' | b'"' | b'\'') => char::from(byte),
        _ => bytes.found_or(None, '\0'),
    }
}

/// A character, which may be escaped.
fn read_one(bytes: &mut Cursor<'_, u8>) -> char {
    match take(bytes) {
        b'\\' => read_escape(bytes),
        byte => char::from(byte),
    }
}

/// A character and its closing quote.
pub fn read_char(bytes: &mut Cursor<'_, u8>) -> char {
    let character = read_one(bytes);
    if take(bytes) != b'\'' {
        bytes.note(Err(Failure::NoRow));
    }
    character
}

/// A text and its closing quote.
pub fn read_text(bytes: &mut Cursor<'_, u8>) -> String {
    let mut text = String::new(bytes.alloc());
    for _ in bytes.rest() {
        match bytes.rest() {
            [b'"', after @ ..] => {
                bytes.move_to(after);
                return text;
            }
            _ => {
                let character = read_one(bytes);
                bytes.made(text.push(character));
            }
        }
    }
    bytes.note(Err(Failure::NoRow));
    text
}

/// Bytes as numbers parted by commas, and the closing bracket.
pub fn read_bytes(bytes: &mut Cursor<'_, u8>) -> Vec<u8> {
    let mut octets = Vec::new(bytes.alloc());
    let list = take_part(bytes, b']');
    if !list.is_empty() {
        for number in list.split(", ") {
            let octet = bytes.parsed(number);
            bytes.made(octets.push(octet));
        }
    }
    octets
}
