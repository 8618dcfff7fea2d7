//! Texts in bytes that a row may hold.

use crate::answer::Answer;
use crate::cursor::Cursor;
use crate::failure::Failure;
use serde_content::{Error, ErrorKind, Result};
use std::fmt::{Debug, Display};

/// Whether a row may hold this byte: it prints as one character in ASCII.
pub fn is_printable(byte: u8) -> bool {
    (32..=126).contains(&byte)
}

/// Adds the text: `%`, this mark and each byte that a row may not hold as `%` and two hexadecimal
/// digits.
fn write_but(out: &mut Answer, text: &str, mark: u8) {
    for byte in text.bytes() {
        if byte == b'%' || byte == mark || !is_printable(byte) {
            out.print(format_args!("%{byte:02X}"));
        } else {
            out.push(char::from(byte));
        }
    }
}

/// Adds the text of an item in a list that semicolons part.
pub fn write_listed(out: &mut Answer, text: &str) {
    write_but(out, text, b';');
}

/// Adds what is printed.
pub fn write_printed<T: Display + Drop>(out: &mut Answer, printed: T) {
    match format!(in out.alloc(); "{printed}") {
        Ok(text) => write_but(out, text.as_str(), b'%'),
        Err(_) => out.fail(Failure::OutOfMemory),
    }
}

/// Adds a word and why something was refused, unless memory is the cause.
pub fn write_refusal(out: &mut Answer, word: &str, refused: Error) {
    let kind = refused.into_kind();
    if matches!(kind, ErrorKind::OutOfMemory) {
        out.fail(Failure::OutOfMemory);
    }
    out.push_str(word);
    write_printed(out, kind);
}

/// Adds what is printed for a programmer.
pub fn write_debug<T: Debug>(out: &mut Answer, printed: &T) {
    write_printed(out, format_args!("{printed:?}"));
}

/// Adds a datum that the library gave, as it prints for a programmer.
pub fn write_datum<T: Debug + Drop>(out: &mut Answer, datum: Result<T>) {
    if let Some(datum) = out.given(datum) {
        write_debug(out, &datum);
    }
}

/// The byte that two hexadecimal digits are.
pub fn octet(high: u8, low: u8) -> Option<u8> {
    let high = char::from(high).to_digit(16)?;
    let low = char::from(low).to_digit(16)?;
    u8::try_from(high.wrapping_mul(16).wrapping_add(low)).ok()
}

/// Takes a byte, which may be written as `%` and two hexadecimal digits.
fn read_octet(text: &mut Cursor<'_, u8>) -> u8 {
    match text.rest() {
        [b'%', high, low, after @ ..] => {
            text.move_to(after);
            text.found_or(octet(*high, *low), 0)
        }
        [b'%', ..] => text.found_or(None, 0),
        _ => text.next().copied().unwrap_or(0),
    }
}

/// Takes the bytes that a text written so means.
pub fn read_printable(text: &mut Cursor<'_, u8>) -> Vec<u8> {
    let mut octets = Vec::new(text.alloc());
    for _ in text.rest() {
        if !text.rest().is_empty() {
            let octet = read_octet(text);
            text.made(octets.push(octet));
        }
    }
    octets
}
