//! Numbers that are read.

ghost use Rattle.std.specs.Prelude.{◌≡◌, ◌^◌, ◌<◌, ◌≤◌, pos, negsuc, length, IfOk, IfSome};
ghost use Rattle.content_cbor.specs.Codes.{number_of};
ghost use Rattle.content_cbor.specs.declared.decode_error.Fault.TheVariants.{TooWide};
ghost use Rattle.content_cbor.specs.Inner.Steps.{Finds};
ghost use Rattle.content_cbor.specs.Inner.Numbers.{bounds_in};
ghost use Rattle.content_cbor.specs.Inner.Reading.{chunk_bounds, digits_behind, digits_of};
ghost use Rattle.content_cbor.specs.Inner.Reading.{digits_until, greatest, magnitude_at, tag_at};

use crate::decode_error::Fault;
use crate::digits::{Range, leading, read_digits};
use crate::heads::{Major, after_break, read_first, read_head_behind};
use crate::stop::{Refusal, stop_at};
use crate::strings::read_length;
use content_tree::Number;

/// A number from 0, of 64 bits if it has room there.
pub(crate) fn from_unsigned(number: u128) -> Number
    ensures { result ≡ number_of (pos number) }
{
    match u64::try_from(number) {
        Ok(number) => Number::U64(number),
        Err(_) => Number::U128(number),
    }
}

/// The number -1 less this one, of 64 bits if it has room there.
pub(crate) fn from_negative(number: u128) -> Number
    requires { number < 2 ^ 127 }
    ensures { result ≡ number_of (negsuc number) }
{
    let number = -1 - number as i128;
    match i64::try_from(number) {
        Ok(number) => Number::I64(number),
        Err(_) => Number::I128(number),
    }
}

/// The greatest number under tag 2 or 3.
fn greatest(is_negative: bool) -> u128
    ensures { result ≡ greatest is_negative }
{
    if is_negative {
        i128::MAX as u128
    } else {
        u128::MAX
    }
}

/// The numbers that have room under tag 2 or 3.
fn room(is_negative: bool) -> Range
    ensures { result ≡ record { least = 0; most = greatest is_negative; «fault» = TooWide } }
{
    Range {
        least: 0,
        most: greatest(is_negative),
        fault: Fault::TooWide,
    }
}

/// How many digits, 15 at most, can go on from this number where it may grow to another.
fn digits_behind(most: u128, number: u128) -> u64
    ensures { result ≡ digits_behind 15 most number }
{
    let mut due = 15;
    while due > 0 && leading(due, most) < number {
        due -= 1;
    }
    due
}

/// How many digits the next chunk may have, after this number; as many as it likes after 0.
fn lengths_behind(is_negative: bool, number: u128) -> Option<Range>
    ensures bounds { bounds_in result ≡ chunk_bounds is_negative number }
    ensures small { IfSome result (λ r. r.most < 2 ^ 64) }
{
    if number == 0 {
        return None;
    }
    Some(Range {
        least: 0,
        most: u128::from(digits_behind(greatest(is_negative), number)),
        fault: Fault::TooWide,
    })
}

/// The number whose digits are in chunks up to a break.
fn read_chunks_of_digits(is_negative: bool, bytes: &[u8]) -> Result<(u128, &[u8]), Refusal>
    ensures value { Finds (λ x. (x.0, x.1.now)) result
        (digits_until is_negative 0 (length bytes.now) bytes.now) }
    ensures room { IfOk result (λ x. x.0 ≤ greatest is_negative) }
{
    let mut number = 0;
    let mut rest = bytes;
    // Each chunk takes a byte at least.
    for _ in bytes {
        if let Some(behind) = after_break(rest) {
            return Ok((number, behind));
        }
        let (due, behind) = read_length(false, lengths_behind(is_negative, number), rest)?;
        let (longer, behind) = read_digits(room(is_negative), due, number, behind)?;
        number = longer;
        rest = behind;
    }
    Err(stop_at(Fault::Ended, &[]))
}

/// The number whose digits come after the head of bytes.
fn read_digits_behind(
    is_negative: bool,
    length: Option<u64>,
    bytes: &[u8],
) -> Result<(u128, &[u8]), Refusal>
    ensures value { Finds (λ x. (x.0, x.1.now)) result (digits_of is_negative length bytes.now) }
    ensures room { IfOk result (λ x. x.0 ≤ greatest is_negative) }
{
    match length {
        Some(length) => read_digits(room(is_negative), length, 0, bytes),
        None => read_chunks_of_digits(is_negative, bytes),
    }
}

/// The number under tag 2 or 3, from its bytes.
#[tactic(auto, unfolding(crate::specs::Inner::Reading::magnitude_at))]
fn read_magnitude(is_negative: bool, bytes: &[u8]) -> Result<(u128, &[u8]), Refusal>
    ensures value { Finds (λ x. (x.0, x.1.now)) result (magnitude_at is_negative bytes.now) }
    ensures room { IfOk result (λ x. x.0 ≤ greatest is_negative) }
{
    let (first, rest) = read_first(bytes)?;
    match (first.major, first.info) {
        (Major::Bytes, _) => {}
        (Major::Simple, 31) => return Err(stop_at(Fault::Break, bytes)),
        _ => return Err(stop_at(Fault::WrongKind, bytes)),
    }
    let (head, rest) = read_head_behind(first, rest)?;
    read_digits_behind(is_negative, head.number, rest)
}

/// A number under tag 2, and else under tag 3.
#[tactic(auto, unfolding(crate::specs::Inner::Reading::tag_at))]
pub(crate) fn read_tag(tag: u64, bytes: &[u8]) -> Result<(Number, &[u8]), Refusal>
    ensures { Finds (λ x. (x.0, x.1.now)) result (tag_at tag bytes.now) }
{
    if tag == 2 {
        let (number, rest) = read_magnitude(false, bytes)?;
        Ok((from_unsigned(number), rest))
    } else {
        let (number, rest) = read_magnitude(true, bytes)?;
        Ok((from_negative(number), rest))
    }
}
