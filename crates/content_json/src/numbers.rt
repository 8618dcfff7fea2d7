//! Whole numbers that are read.

ghost use Rattle.std.specs.Prelude.{◌≡◌, ◌+◌, ◌*◌, ◌^◌, ◌<◌, ◌≤◌, pos, negsuc, drop, IfOk, IfSome, IfNone, Some, None};
ghost use Rattle.content_json.specs.Codes.{greatest, number_of, signed};
ghost use Rattle.content_json.specs.Inner.Numbers.{begins_digit, begins_float, digit_at, digits_at};
ghost use Rattle.content_json.specs.Inner.Numbers.{number_at, size_at};
ghost use Rattle.content_json.specs.Inner.Steps.{Finds};

use crate::decode_error::Fault;
use crate::read_strings::after;
use crate::stop::{Refusal, stop_at};
use content_tree::Number;

/// A number from 0, of 64 bits if it has room there.
fn from_unsigned(number: u128) -> Number
    ensures { result ≡ number_of (pos number) }
{
    match u64::try_from(number) {
        Ok(number) => Number::U64(number),
        Err(_) => Number::U128(number),
    }
}

/// The number -1 less this one, of 64 bits if it has room there.
fn from_negative(number: u128) -> Number
    requires { number < 2 ^ 127 }
    ensures { result ≡ number_of (negsuc number) }
{
    let number = -1 - number as i128;
    match i64::try_from(number) {
        Ok(number) => Number::I64(number),
        Err(_) => Number::I128(number),
    }
}

/// The greatest size of a number.
fn greatest(is_negative: bool) -> u128
    ensures { result ≡ greatest is_negative }
{
    if is_negative { 1 << 127 } else { u128::MAX }
}

/// The number of a size.
fn number_of(is_negative: bool, size: u128) -> Number
    requires { size ≤ greatest is_negative }
    ensures { result ≡ number_of (signed is_negative size) }
{
    if is_negative && 0 < size {
        from_negative(size - 1)
    } else {
        from_unsigned(size)
    }
}

/// Whether a digit comes next.
fn begins_digit(bytes: &[u8]) -> bool
    ensures { result ≡ begins_digit bytes.now }
{
    matches!(bytes, [b'0'..=b'9', ..])
}

/// Whether a fraction or an exponent comes next.
fn begins_float(bytes: &[u8]) -> bool
    ensures { result ≡ begins_float bytes.now }
{
    matches!(bytes, [b'.' | b'e' | b'E', ..])
}

/// The digit that comes next, and the bytes after it.
fn split_digit(bytes: &[u8]) -> Option<(u8, &[u8])>
    ensures some { IfSome result (λ x. (digit_at bytes.now ≡ Some x.0)
        × (x.1.now ≡ drop 1 bytes.now)) }
    ensures none { IfNone result (digit_at bytes.now ≡ None) }
    ensures range { IfSome result (λ x. x.0 < 10) }
{
    match bytes {
        [byte @ b'0'..=b'9', rest @ ..] => Some((*byte - b'0', rest)),
        _ => None,
    }
}

/// A size with one digit more, if it is at most so much.
fn with_digit(most: u128, size: u128, digit: u8) -> Option<u128>
    requires { size ≤ most }
    ensures some { IfSome result (λ n. (n ≡ size * 10 + digit) × (n ≤ most)) }
    ensures none { IfNone result (most < size * 10 + digit) }
{
    if most / 10 < size {
        return None;
    }
    let tens = size * 10;
    let digit = u128::from(digit);
    if most - tens < digit {
        None
    } else {
        Some(tens + digit)
    }
}

/// The number whose digits come first, up to so much, and the bytes after them.
fn read_digits(most: u128, bytes: &[u8]) -> Result<(u128, &[u8]), Refusal>
    ensures value { Finds (λ x. (x.0, x.1.now)) result (digits_at most 0 bytes.now) }
    ensures room { IfOk result (λ x. x.0 ≤ most) }
{
    let mut size = 0;
    let mut rest = bytes;
    while let Some((digit, behind)) = split_digit(rest) {
        let Some(longer) = with_digit(most, size, digit) else {
            return Err(stop_at(Fault::TooWide, rest));
        };
        size = longer;
        rest = behind;
    }
    Ok((size, rest))
}

/// A size: zero, or digits without a zero at their front.
#[tactic(auto, unfolding(crate::specs::Inner::Numbers::size_at))]
fn read_size(most: u128, bytes: &[u8]) -> Result<(u128, &[u8]), Refusal>
    ensures value { Finds (λ x. (x.0, x.1.now)) result (size_at most bytes.now) }
    ensures room { IfOk result (λ x. x.0 ≤ most) }
{
    if let Some(rest) = after(b'0', bytes) {
        if begins_digit(rest) {
            return Err(stop_at(Fault::LeadingZero, rest));
        }
        return Ok((0, rest));
    }
    if begins_digit(bytes) {
        read_digits(most, bytes)
    } else {
        Err(stop_at(Fault::Unexpected, bytes))
    }
}

/// A number after its sign.
#[tactic(auto, unfolding(crate::specs::Inner::Numbers::number_at))]
pub(crate) fn read_number(is_negative: bool, bytes: &[u8]) -> Result<(Number, &[u8]), Refusal>
    ensures { Finds (λ x. (x.0, x.1.now)) result (number_at is_negative bytes.now) }
{
    let (size, rest) = read_size(greatest(is_negative), bytes)?;
    if begins_float(rest) {
        Err(stop_at(Fault::Float, rest))
    } else {
        Ok((number_of(is_negative, size), rest))
    }
}
