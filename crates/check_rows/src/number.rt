//! Whole numbers.

use crate::answer::Answer;
use crate::cursor::Cursor;
use serde_content::Number;

/// What is to be done with a number, whichever whole type it has.
macro_rules! with_whole {
    ($number:expr, $whole:ident => $done:expr) => {
        match $number {
            Number::I8($whole) => $done,
            Number::U8($whole) => $done,
            Number::I16($whole) => $done,
            Number::U16($whole) => $done,
            Number::I32($whole) => $done,
            Number::U32($whole) => $done,
            Number::I64($whole) => $done,
            Number::U64($whole) => $done,
            Number::I128($whole) => $done,
            Number::U128($whole) => $done,
        }
    };
}

pub(crate) use with_whole;

/// The number of this kind that the digits spell, for what is read here.
pub fn number_of<T>(from: &mut Cursor<'_, T>, kind: &str, digits: &str) -> Number {
    match kind {
        "i8" => Number::I8(from.parsed(digits)),
        "u8" => Number::U8(from.parsed(digits)),
        "i16" => Number::I16(from.parsed(digits)),
        "u16" => Number::U16(from.parsed(digits)),
        "i32" => Number::I32(from.parsed(digits)),
        "u32" => Number::U32(from.parsed(digits)),
        "i64" => Number::I64(from.parsed(digits)),
        "u64" => Number::U64(from.parsed(digits)),
        "i128" => Number::I128(from.parsed(digits)),
        "u128" => Number::U128(from.parsed(digits)),
        _ => from.found_or(None, Number::U8(0)),
    }
}

/// The number that a word such as `-5i16` is. One without a kind has the widest that it fits in.
pub fn read_number<T>(from: &mut Cursor<'_, T>, word: &str) -> Number {
    let (digits, kind) = match word.find(['i', 'u']) {
        Some(place) => word.split_at(place),
        None if word.starts_with('-') => (word, "i128"),
        None => (word, "u128"),
    };
    number_of(from, kind, digits)
}

/// The word of the number's kind.
pub fn kind_word(number: Number) -> &'static str {
    match number {
        Number::I8(_) => "i8",
        Number::U8(_) => "u8",
        Number::I16(_) => "i16",
        Number::U16(_) => "u16",
        Number::I32(_) => "i32",
        Number::U32(_) => "u32",
        Number::I64(_) => "i64",
        Number::U64(_) => "u64",
        Number::I128(_) => "i128",
        Number::U128(_) => "u128",
    }
}

/// Adds the number's digits.
pub fn write_digits(out: &mut Answer, number: Number) {
    with_whole!(number, n => out.print(n));
}

/// Adds a number and its kind.
pub fn write_number(out: &mut Answer, number: Number) {
    write_digits(out, number);
    out.push_str(kind_word(number));
}
