//! Texts in quotes that are read.

ghost use Rattle.std.specs.Prelude.{◌≡◌, ◌<◌, IfOk, IfSome, IfNone, drop, length, position, string_bytes, true, false};
ghost use Rattle.std.specs.Char.{InScalarRange};
ghost use Rattle.content_tree.specs.Values.Text.{text_of};
ghost use Rattle.content_json.specs.Codes.{begins_with, hex_value, short_escape};
ghost use Rattle.content_json.specs.Strings.{has_escape};
ghost use Rattle.content_json.specs.Inner.Steps.{Finds, Gives};
ghost use Rattle.content_json.specs.Inner.Strings.{bad_first, bad_second, byte_at};
ghost use Rattle.content_json.specs.Inner.Strings.{escape_at, hex_at, rest_at, run_at};
ghost use Rattle.content_json.specs.Inner.Strings.{run_length, string_at, unicode_at};
ghost use Rattle.content_json.specs.Inner.Strings.{IsUnit, unit_at};

use crate::decode_error::Fault;
use crate::stop::{Refusal, Stop, stop_at};
use crate::strings::has_escape;
use crate::utf8::stop_in_text;
use content_tree::CowStr;
use std::alloc::Global;
use std::str;

/// Where the first quote, escape or control character is.
fn first_escape(bytes: &[u8]) -> Option<usize>
    ensures { result ≡ position has_escape bytes.now }
{
    bytes.iter().position(|byte| has_escape(*byte))
}

/// How many bytes come before a quote, an escape or a control character.
fn run_length(bytes: &[u8]) -> usize
    ensures { result ≡ run_length bytes.now }
{
    match first_escape(bytes) {
        Some(at) => at,
        None => bytes.len(),
    }
}

/// The characters before a quote, an escape or a control character, and the bytes after them.
#[tactic(auto, unfolding(crate::specs::Inner::Strings::run_at))]
fn read_run(bytes: &[u8]) -> Result<(&str, &[u8]), Refusal>
    ensures { Finds (λ x. (x.0.now, x.1.now)) result (run_at bytes.now) }
{
    let (run, rest) = bytes.split_at(run_length(bytes));
    match str::from_utf8(run) {
        Ok(text) => Ok((text, rest)),
        Err(_) => Err(stop_in_text(bytes)),
    }
}

/// The value of a hexadecimal digit.
fn hex_value(byte: u8) -> Option<u32>
    ensures { result ≡ hex_value byte }
{
    match byte {
        b'0'..=b'9' => Some(u32::from(byte - b'0')),
        b'a'..=b'f' => Some(u32::from(byte - 87)),
        b'A'..=b'F' => Some(u32::from(byte - 55)),
        _ => None,
    }
}

/// A hexadecimal digit.
#[tactic(auto, unfolding(crate::specs::Inner::Strings::hex_at))]
fn read_hex(bytes: &[u8]) -> Result<(u32, &[u8]), Refusal>
    ensures value { Finds (λ x. (x.0, x.1.now)) result (hex_at bytes.now) }
    ensures range { IfOk result (λ x. x.0 < 16) }
{
    let [byte, rest @ ..] = bytes else {
        return Err(stop_at(Fault::Escape, bytes));
    };
    match hex_value(*byte) {
        Some(digit) => Ok((digit, rest)),
        None => Err(stop_at(Fault::Escape, bytes)),
    }
}

/// Four digits: of the second half of a surrogate pair, or of any other unit.
#[tactic(auto, unfolding(crate::specs::Inner::Strings::unit_at))]
fn read_unit(is_second: bool, bytes: &[u8]) -> Result<(u32, &[u8]), Refusal>
    ensures value { Finds (λ x. (x.0, x.1.now)) result (unit_at is_second bytes.now) }
    ensures kind { IfOk result (λ x. IsUnit is_second x.0) }
{
    let (first, after_first) = read_hex(bytes)?;
    if is_second && first != 13 {
        return Err(stop_at(Fault::Surrogate, bytes));
    }
    let (second, after_second) = read_hex(after_first)?;
    if first == 13 && (12 <= second) != is_second {
        return Err(stop_at(Fault::Surrogate, after_first));
    }
    let (third, after_third) = read_hex(after_second)?;
    let (fourth, rest) = read_hex(after_third)?;
    Ok((first * 4096 + second * 256 + third * 16 + fourth, rest))
}

/// The bytes after this one, which must come next.
#[tactic(auto, unfolding(crate::specs::Inner::Strings::byte_at))]
pub(crate) fn expect(fault: Fault, due: u8, bytes: &[u8]) -> Result<&[u8], Refusal>
    ensures { Finds (λ x. x.now) result (byte_at «fault» due bytes.now) }
{
    match bytes {
        [byte, rest @ ..] if *byte == due => Ok(rest),
        _ => Err(stop_at(fault, bytes)),
    }
}

/// The bytes after this one, if it comes next.
pub(crate) fn after(due: u8, bytes: &[u8]) -> Option<&[u8]>
    ensures some { IfSome result (λ r. (begins_with due bytes.now ≡ true)
        × (r.now ≡ drop 1 bytes.now)) }
    ensures none { IfNone result (begins_with due bytes.now ≡ false) }
{
    match bytes {
        [byte, rest @ ..] if *byte == due => Some(rest),
        _ => None,
    }
}

/// The character of this code.
fn character_of(code: u32) -> char
    requires { InScalarRange code }
    ensures { result ≡ code }
{
    match char::from_u32(code) {
        Some(character) => character,
        None => char::REPLACEMENT_CHARACTER,
    }
}

/// A character by its digits, in one unit or two.
#[tactic(auto, unfolding(crate::specs::Inner::Strings::unicode_at))]
fn read_unicode(bytes: &[u8]) -> Result<(char, &[u8]), Refusal>
    ensures { Finds (λ x. (x.0, x.1.now)) result (unicode_at bytes.now) }
{
    let (first, rest) = read_unit(false, bytes)?;
    if first < 0xd800 || 0xdbff < first {
        return Ok((character_of(first), rest));
    }
    let rest = expect(Fault::Surrogate, b'\\', rest)?;
    let rest = expect(Fault::Surrogate, b'u', rest)?;
    let (second, rest) = read_unit(true, rest)?;
    let code = 0x10000 + ((first - 0xd800) * 1024 + (second - 0xdc00));
    Ok((character_of(code), rest))
}

/// The character of a letter after a backslash.
fn short_escape(byte: u8) -> Option<char>
    ensures { result ≡ short_escape byte }
{
    match byte {
        b'"' => Some('"'),
        b'\\' => Some('\\'),
        b'/' => Some('/'),
        b'b' => Some('\u{8}'),
        b'f' => Some('\u{c}'),
        b'n' => Some('\n'),
        b'r' => Some('\r'),
        b't' => Some('\t'),
        _ => None,
    }
}

/// An escape after its backslash.
#[tactic(auto, unfolding(crate::specs::Inner::Strings::escape_at))]
fn read_escape(bytes: &[u8]) -> Result<(char, &[u8]), Refusal>
    ensures { Finds (λ x. (x.0, x.1.now)) result (escape_at bytes.now) }
{
    let [letter, rest @ ..] = bytes else {
        return Err(stop_at(Fault::Escape, bytes));
    };
    if *letter == b'u' {
        return read_unicode(rest);
    }
    match short_escape(*letter) {
        Some(character) => Ok((character, rest)),
        None => Err(stop_at(Fault::Escape, bytes)),
    }
}

/// The characters up to a quote, after some.
#[inline(never)]
fn read_rest<'de>(alloc: Global, first: &str, bytes: &'de [u8]) -> Result<(String, &'de [u8]), Stop>
    ensures { Gives (λ x. (string_bytes x.0, x.1.now)) result
        (rest_at (length bytes.now) first.now bytes.now) }
{
    let mut text = String::new(alloc);
    text.push_str(first)?;
    let mut rest = bytes;
    // Each escape takes a byte at least.
    for _ in bytes {
        if let Some(behind) = after(b'"', rest) {
            return Ok((text, behind));
        }
        let Some(escape) = after(b'\\', rest) else {
            return Err(Stop::Refused(stop_at(Fault::Control, rest)));
        };
        let (character, after_escape) = read_escape(escape)?;
        text.push(character)?;
        let (plain, after_plain) = read_run(after_escape)?;
        text.push_str(plain)?;
        rest = after_plain;
    }
    Err(Stop::Refused(stop_at(Fault::Ended, &[])))
}

/// A text after its quote: borrowed if it has no escape.
#[tactic(auto, unfolding(crate::specs::Inner::Strings::string_at))]
pub(crate) fn read_string<'de>(
    alloc: Global,
    bytes: &'de [u8],
) -> Result<(CowStr<'de>, &'de [u8]), Stop>
    ensures { Gives (λ x. (text_of x.0, x.1.now)) result (string_at bytes.now) }
{
    let (run, rest) = read_run(bytes)?;
    match after(b'"', rest) {
        Some(behind) => Ok((CowStr::Borrowed(run), behind)),
        None => {
            let (text, behind) = read_rest(alloc, run, rest)?;
            Ok((CowStr::Owned(text), behind))
        }
    }
}
