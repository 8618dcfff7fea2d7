//! The heads of data items.

ghost use Rattle.std.specs.Prelude.{◌≡◌, ◌≤◌, ◌++◌, ◌*◌, OnOk, IfSome, IfNone, drop, true, false};
ghost use Rattle.content_cbor.specs.Heads.{code, head};
ghost use Rattle.std.specs.Io.{StartsWith};
ghost use Rattle.std.specs.Prelude.{◌^◌, ◌<◌};
ghost use Rattle.content_cbor.specs.Inner.Steps.{Finds};
ghost use Rattle.content_cbor.specs.Inner.Numbers.{argument_at, between, bounds_in, digits_at};
ghost use Rattle.content_cbor.specs.Inner.Numbers.{size_of, unbounded};
ghost use Rattle.content_cbor.specs.Inner.Reading.{at_break, bounds_of, first_at, head_at};
ghost use Rattle.content_cbor.specs.Inner.Reading.{head_behind, is_reserved, item_fault, kind_at};
ghost use Rattle.content_cbor.specs.Inner.Reading.{major_of};

use crate::decode_error::Fault;
use crate::digits::{Range, read_digits};
use crate::stop::{Refusal, stop_at, stop_before};
use std::alloc::AllocError;

/// The major types of data items.
#[derive(Clone, Copy, Debug, PartialEq, Eq)]
pub(crate) enum Major {
    /// A whole number from 0.
    Unsigned,
    /// A whole number below 0: -1 less the argument.
    Negative,
    /// Bytes.
    Bytes,
    /// A text.
    Text,
    /// Items by place.
    Array,
    /// Pairs of key and value.
    Map,
    /// A tag before an item.
    Tag,
    /// A simple value or a float.
    Simple,
}

impl Major {
    /// The major type of three bits.
    fn of(bits: u8) -> Major
        ensures { result ≡ major_of bits }
    {
        match bits {
            0 => Major::Unsigned,
            1 => Major::Negative,
            2 => Major::Bytes,
            3 => Major::Text,
            4 => Major::Array,
            5 => Major::Map,
            6 => Major::Tag,
            _ => Major::Simple,
        }
    }

    /// The first byte of its heads, with the five low bits at 0.
    #[inline(always)]
    fn first_byte(self) -> u8
        ensures { result ≡ 32 * code self }
    {
        match self {
            Major::Unsigned => 0x00,
            Major::Negative => 0x20,
            Major::Bytes => 0x40,
            Major::Text => 0x60,
            Major::Array => 0x80,
            Major::Map => 0xa0,
            Major::Tag => 0xc0,
            Major::Simple => 0xe0,
        }
    }
}

/// The first byte of a head: its major type, and what it says of the number.
#[derive(Clone, Copy, Debug, Drop)]
pub(crate) struct First {
    pub(crate) major: Major,
    pub(crate) info: u8,
}

/// A head: its major type, and its number, if it has one.
#[derive(Clone, Copy, Debug, Drop)]
pub(crate) struct Head {
    pub(crate) major: Major,
    pub(crate) number: Option<u64>,
}

/// Appends a head, in as few bytes as can be.
#[inline(always)]
#[tactic(auto, unfolding(crate::specs::Heads::head))]
pub(crate) fn write_head(out: &mut Vec<u8>, major: Major, number: u64) -> Result<(), AllocError>
    ensures value { OnOk result (out.new.items ≡ out.old.items ++ head major number) }
    ensures kept { StartsWith out.new.items out.old.items }
{
    if number < 24 {
        out.push(major.first_byte() + number as u8)?;
        Ok(())
    } else {
        write_long_head(out, major, number)
    }
}

/// Appends a head whose number comes after its first byte.
#[inline(never)]
#[tactic(auto, unfolding(crate::specs::Heads::head))]
fn write_long_head(out: &mut Vec<u8>, major: Major, number: u64) -> Result<(), AllocError>
    requires { 24 ≤ number }
    ensures value { OnOk result (out.new.items ≡ out.old.items ++ head major number) }
    ensures kept { StartsWith out.new.items out.old.items }
{
    let first = major.first_byte();
    if number < 0x100 {
        out.push(first + 24)?;
        out.push(number as u8)?;
    } else if number < 0x1_0000 {
        out.push(first + 25)?;
        out.extend_from_slice(&(number as u16).to_be_bytes())?;
    } else if number < 0x1_0000_0000 {
        out.push(first + 26)?;
        out.extend_from_slice(&(number as u32).to_be_bytes())?;
    } else {
        out.push(first + 27)?;
        out.extend_from_slice(&number.to_be_bytes())?;
    }
    Ok(())
}

/// The number of the byte at the front, and the bytes after it.
fn read_u8(bytes: &[u8]) -> Result<(u8, &[u8]), Refusal>
    ensures { Finds (λ x. (x.0, x.1.now)) result (digits_at unbounded 1 0 bytes.now) }
{
    match bytes {
        [] => Err(stop_at(Fault::Ended, &[])),
        [number, rest @ ..] => Ok((*number, rest)),
    }
}

/// The number of two bytes.
fn read_u16(bytes: &[u8]) -> Result<(u16, &[u8]), Refusal>
    ensures { Finds (λ x. (x.0, x.1.now)) result (digits_at unbounded 2 0 bytes.now) }
{
    if bytes.len() < 2 {
        return Err(stop_at(Fault::Ended, &[]));
    }
    let (front, rest) = bytes.split_at(2);
    Ok((u16::from_be_bytes([front[0], front[1]]), rest))
}

/// The number of four bytes.
fn read_u32(bytes: &[u8]) -> Result<(u32, &[u8]), Refusal>
    ensures { Finds (λ x. (x.0, x.1.now)) result (digits_at unbounded 4 0 bytes.now) }
{
    if bytes.len() < 4 {
        return Err(stop_at(Fault::Ended, &[]));
    }
    let (front, rest) = bytes.split_at(4);
    let number = u32::from_be_bytes([front[0], front[1], front[2], front[3]]);
    Ok((number, rest))
}

/// The number of eight bytes.
fn read_u64(bytes: &[u8]) -> Result<(u64, &[u8]), Refusal>
    ensures { Finds (λ x. (x.0, x.1.now)) result (digits_at unbounded 8 0 bytes.now) }
{
    if bytes.len() < 8 {
        return Err(stop_at(Fault::Ended, &[]));
    }
    let (front, rest) = bytes.split_at(8);
    let number = u64::from_be_bytes([
        front[0], front[1], front[2], front[3], front[4], front[5], front[6], front[7],
    ]);
    Ok((number, rest))
}

/// Whether RFC 8949 gives no meaning to a first byte.
#[inline(always)]
fn is_reserved(major: Major, info: u8) -> bool
    ensures { result ≡ is_reserved major info }
{
    match major {
        Major::Unsigned | Major::Negative | Major::Tag => 27 < info,
        _ => 28 <= info && info <= 30,
    }
}

/// The first byte of a head, and the bytes after it.
#[inline(always)]
#[tactic(auto, unfolding(crate::specs::Inner::Reading::first_at))]
pub(crate) fn read_first(bytes: &[u8]) -> Result<(First, &[u8]), Refusal>
    ensures { Finds (λ x. (x.0, x.1.now)) result (first_at bytes.now) }
{
    let [first, rest @ ..] = bytes else {
        return Err(stop_at(Fault::Ended, bytes));
    };
    let info = *first % 32;
    let major = Major::of(*first / 32);
    if is_reserved(major, info) {
        return Err(stop_at(Fault::Reserved, bytes));
    }
    Ok((First { major, info }, rest))
}

/// What is wrong with an item that begins so, whatever the limit.
#[inline(always)]
fn item_fault(first: First) -> Option<Fault>
    ensures { result ≡ item_fault first.«major» first.info }
{
    match first.major {
        Major::Simple => match first.info {
            31 => Some(Fault::Break),
            25..=27 => Some(Fault::Float),
            20..=22 => None,
            _ => Some(Fault::Simple),
        },
        Major::Tag => match first.info {
            24..=u8::MAX | 2..=3 => None,
            _ => Some(Fault::Tag),
        },
        _ => None,
    }
}

/// The first byte of an item, whatever the limit, and the bytes after it.
#[inline(always)]
#[tactic(auto, unfolding(crate::specs::Inner::Reading::kind_at))]
pub(crate) fn read_kind(bytes: &[u8]) -> Result<(First, &[u8]), Refusal>
    ensures { Finds (λ x. (x.0, x.1.now)) result (kind_at bytes.now) }
{
    let (first, rest) = read_first(bytes)?;
    match item_fault(first) {
        Some(fault) => Err(stop_at(fault, bytes)),
        None => Ok((first, rest)),
    }
}

/// The number of a head, in its first byte or after it.
#[inline(always)]
#[tactic(auto, unfolding(crate::specs::Inner::Numbers::argument_at))]
fn read_any_argument(info: u8, bytes: &[u8]) -> Result<(u64, &[u8]), Refusal>
    ensures { Finds (λ x. (x.0, x.1.now)) result (argument_at unbounded info bytes.now) }
{
    if info < 24 {
        Ok((u64::from(info), bytes))
    } else if info == 24 {
        let (number, rest) = read_u8(bytes)?;
        Ok((u64::from(number), rest))
    } else if info == 25 {
        let (number, rest) = read_u16(bytes)?;
        Ok((u64::from(number), rest))
    } else if info == 26 {
        let (number, rest) = read_u32(bytes)?;
        Ok((u64::from(number), rest))
    } else {
        read_u64(bytes)
    }
}

/// How many bytes come after a first byte that says so.
fn size_of(info: u8) -> u64
    ensures { result ≡ size_of info }
{
    match info {
        24 => 1,
        25 => 2,
        26 => 4,
        _ => 8,
    }
}

/// The same number, where it must be of a range.
#[tactic(auto, unfolding(crate::specs::Inner::Numbers::argument_at))]
fn read_argument_in(range: Range, info: u8, bytes: &[u8]) -> Result<(u64, &[u8]), Refusal>
    requires { range.most < 2 ^ 64 }
    ensures { Finds (λ x. (x.0, x.1.now)) result
        (argument_at (between range.least range.most range.«fault») info bytes.now) }
{
    if info < 24 {
        let number = u128::from(info);
        if number < range.least || range.most < number {
            Err(stop_before(range.fault, bytes))
        } else {
            Ok((u64::from(info), bytes))
        }
    } else {
        let (number, rest) = read_digits(range, size_of(info), 0, bytes)?;
        Ok((number as u64, rest))
    }
}

/// The number of a head, of a range, if one is given.
#[inline(always)]
pub(crate) fn read_argument(
    range: Option<Range>,
    info: u8,
    bytes: &[u8],
) -> Result<(u64, &[u8]), Refusal>
    requires { IfSome range (λ r. r.most < 2 ^ 64) }
    ensures { Finds (λ x. (x.0, x.1.now)) result (argument_at (bounds_in range) info bytes.now) }
{
    match range {
        None => read_any_argument(info, bytes),
        Some(range) => read_argument_in(range, info, bytes),
    }
}

/// A head after its first byte.
#[inline(always)]
pub(crate) fn read_head_behind(first: First, bytes: &[u8]) -> Result<(Head, &[u8]), Refusal>
    ensures { Finds (λ x. (x.0, x.1.now)) result (head_behind unbounded first bytes.now) }
{
    let major = first.major;
    if first.info == 31 {
        let number = None;
        return Ok((Head { major, number }, bytes));
    }
    let (number, rest) = read_any_argument(first.info, bytes)?;
    let number = Some(number);
    Ok((Head { major, number }, rest))
}

/// The same, with a number of a range, if it has one.
fn read_head_in(range: Range, first: First, bytes: &[u8]) -> Result<(Head, &[u8]), Refusal>
    requires { range.most < 2 ^ 64 }
    ensures { Finds (λ x. (x.0, x.1.now)) result
        (head_behind (between range.least range.most range.«fault») first bytes.now) }
{
    if first.info == 31 {
        return read_head_behind(first, bytes);
    }
    let (number, rest) = read_argument_in(range, first.info, bytes)?;
    let head = Head {
        major: first.major,
        number: Some(number),
    };
    Ok((head, rest))
}

/// The same, with what its number must be where items may nest this deep. Few heads need it, so it
/// isn't inlined.
#[inline(never)]
fn read_bounded_head(limit: usize, first: First, bytes: &[u8]) -> Result<(Head, &[u8]), Refusal>
    ensures { Finds (λ x. (x.0, x.1.now)) result
        (head_behind (bounds_of limit first.«major») first bytes.now) }
{
    match first.major {
        Major::Tag => {
            let tags = Range {
                least: 2,
                most: 3,
                fault: Fault::Tag,
            };
            read_head_in(tags, first, bytes)
        }
        Major::Array | Major::Map if limit == 0 => {
            let none = Range {
                least: 0,
                most: 0,
                fault: Fault::TooDeep,
            };
            read_head_in(none, first, bytes)
        }
        _ => read_head_behind(first, bytes),
    }
}

/// The head of an item in which items may nest this deep, and the bytes after it.
#[inline(always)]
#[tactic(auto, unfolding(crate::specs::Inner::Reading::head_at))]
pub(crate) fn read_head(limit: usize, bytes: &[u8]) -> Result<(Head, &[u8]), Refusal>
    ensures { Finds (λ x. (x.0, x.1.now)) result (head_at limit bytes.now) }
{
    let (first, rest) = read_kind(bytes)?;
    if limit == 0 || matches!(first.major, Major::Tag) {
        read_bounded_head(limit, first, rest)
    } else {
        read_head_behind(first, rest)
    }
}

/// The bytes after a break, if one is at the front.
pub(crate) fn after_break(bytes: &[u8]) -> Option<&[u8]>
    ensures some { IfSome result (λ r. (at_break bytes.now ≡ true) × (r.now ≡ drop 1 bytes.now)) }
    ensures none { IfNone result (at_break bytes.now ≡ false) }
{
    match bytes {
        [0xff, rest @ ..] => Some(rest),
        _ => None,
    }
}
