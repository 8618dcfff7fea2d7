//! Bytes as pairs of hexadecimal digits.

ghost use Rattle.std.specs.Prelude.{◌≡◌, ◌<◌, ◌++◌, IfOk, IsOk, OnOk, MatchOption, true, false};
ghost use Rattle.std.specs.List.{list_all};
ghost use Rattle.std.specs.String.{string_bytes};
ghost use Rattle.content_lines.specs.Numerals.{is_lower_hex_digit, is_hex_digit, hex_value};
ghost use Rattle.content_lines.specs.Numerals.{is_lower_hex, is_hex, unhex, hex_digit, hex_of};

use std::alloc::{AllocError, Global};

fn is_lower_digit(byte: u8) -> bool
    ensures { result ≡ is_lower_hex_digit byte }
{
    matches!(byte, b'0'..=b'9' | b'a'..=b'f')
}

fn is_digit(byte: u8) -> bool
    ensures { result ≡ is_hex_digit byte }
{
    matches!(byte, b'0'..=b'9' | b'a'..=b'f' | b'A'..=b'F')
}

/// The value of a digit, and 0 for any other byte.
fn value(byte: u8) -> u8
    ensures { result ≡ hex_value byte }
{
    match byte {
        b'0'..=b'9' => byte - b'0',
        b'a'..=b'f' => byte - b'a' + 10,
        b'A'..=b'F' => byte - b'A' + 10,
        _ => 0,
    }
}

fn are_lower_digits(text: &[u8]) -> bool
    ensures { result ≡ list_all is_lower_hex_digit text.now }
{
    text.iter().all(|b| is_lower_digit(*b))
}

fn are_digits(text: &[u8]) -> bool
    ensures { result ≡ list_all is_hex_digit text.now }
{
    text.iter().all(|b| is_digit(*b))
}

/// Whether it is pairs of lower-case hexadecimal digits.
pub fn is_lower_paired(text: &[u8]) -> bool
    ensures { result ≡ is_lower_hex text.now }
{
    text.len() % 2 == 0 && are_lower_digits(text)
}

/// Whether it is pairs of hexadecimal digits of either case.
fn is_paired(text: &[u8]) -> bool
    ensures { result ≡ is_hex text.now }
{
    text.len() % 2 == 0 && are_digits(text)
}

/// The bytes that pairs of digits spell.
pub fn decode(alloc: Global, text: &[u8]) -> Result<Vec<u8>, AllocError>
    ensures { IfOk result (λ v. v.items ≡ unhex text.now) }
{
    let mut bytes = Vec::new(alloc);
    let mut rest = text;
    'pairs: while let [high, low, after @ ..] = rest {
        bytes.push(16 * value(*high) + value(*low))?;
        rest = after;
    }
    Ok(bytes)
}

/// Reads the bytes that a text spells, if it is pairs of hexadecimal digits of either case. Only
/// the bytes take memory.
///
/// # Errors
///
/// `AllocError`, for pairs of digits alone.
///
/// ```rust
/// match read_hex(alloc, b"9fF6")? {
///     Some(bytes) => assert!(rt; bytes.as_slice() == [0x9f, 0xf6].as_slice()),
///     None => assert!(rt; false),
/// }
/// ```
pub fn read_hex(alloc: Global, text: &[u8]) -> Result<Option<Vec<u8>>, AllocError>
    ensures value { IfOk result (λ read. MatchOption read (is_hex text.now ≡ false)
        (λ bytes. (is_hex text.now ≡ true) × (bytes.items ≡ unhex text.now))) }
    ensures succeeds { is_hex text.now ≡ false → IsOk result }
{
    if is_paired(text) {
        Ok(Some(decode(alloc, text)?))
    } else {
        Ok(None)
    }
}

/// The lower-case digit of a number.
fn digit_of(number: u8) -> char
    requires { number < 16 }
    ensures { result ≡ hex_digit number }
{
    if number < 10 {
        char::from(b'0' + number)
    } else {
        char::from(b'a' + (number - 10))
    }
}

/// Adds the lower-case digits of bytes to a text.
///
/// # Errors
///
/// `AllocError`, with any part of them added.
///
/// ```rust
/// let mut text = String::new(alloc);
/// write_hex(&mut text, &[0x9f, 0xf6])?;
/// assert!(rt; text.as_str() == "9ff6");
/// ```
pub fn write_hex(out: &mut String, bytes: &[u8]) -> Result<(), AllocError>
    ensures { OnOk result (string_bytes out.new ≡ string_bytes out.old ++ hex_of bytes.now) }
{
    let mut rest = bytes;
    'bytes: while let [byte, after @ ..] = rest {
        out.push(digit_of(*byte / 16))?;
        out.push(digit_of(*byte % 16))?;
        rest = after;
    }
    Ok(())
}
