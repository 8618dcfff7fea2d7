//! Texts as values.
//!
//! A level of a deep value passes two functions that aren't inlined, one for a value and one for
//! what holds several, so that it takes little stack.

ghost use Rattle.std.specs.Prelude.{◌≡◌, ◌≤◌, ◌++◌, ℕ, List, length, map, take, true, codes, Ok, Err, IfOk, IfErr};
ghost use Rattle.content_tree.specs.Values.Value.{tree_of, pair_tree};
ghost use Rattle.content_tree.specs.Values.Tree.{Tree};
ghost use Rattle.content_json.specs.Codes.{AreBlanks, Codes, follows, IsValueOf};
ghost use Rattle.content_json.specs.Decoded.{IsReadAs, IsReadFrom, StopsAt};
ghost use Rattle.content_json.specs.Inner.Steps.{Finds, Gives, error_in};
ghost use Rattle.content_json.specs.Inner.Reading.{after_blanks, begins_value, leaf_at, member_at};
ghost use Rattle.content_json.specs.Inner.Reading.{next_at, parts_at, series_at, value_at, whole_at};
ghost use Rattle.content_json.specs.Inner.Reading.{word_at};

use crate::decode_error::{DecodeError, Fault};
use crate::numbers::read_number;
use crate::read_strings::{after, expect, read_string};
use crate::stop::{Refusal, Stop, stop_at};
use content_tree::Value;
use std::alloc::Global;

/// The value that a JSON text is: one value, with blanks around it.
///
/// A number is of 64 bits where it has room there, and else of 128; null is `None`; an array is a
/// sequence, an object a map, with every pair in order. A text without an escape is borrowed from
/// the bytes, any other is owned.
///
/// `depth_limit` bounds how deep values nest, and so the stack that is taken; the text's own depth
/// is 1, and a limit of 0 refuses everything. Memory is taken for what holds parts, as it is read,
/// and for texts with escapes.
///
/// # Errors
///
/// `Refused` for bytes that are no JSON text within the limit, with [what is wrong](Fault) and
/// where: at the first byte that can't come there, or at their end. A fraction or an exponent, a
/// number outside -2^127 .. 2^128-1, a half of a surrogate pair and a text that is no UTF-8 are
/// faults too. `OutOfMemory`.
///
/// ```rust
/// let value = decode(alloc, b"[1, \"a\", null]", 16)?;
/// assert!(rt; encode(alloc, &value)?.as_str() == "[1,\"a\",null]");
/// ```
pub fn decode<'de>(
    alloc: Global,
    bytes: &'de [u8],
    depth_limit: usize,
) -> Result<Value<'de>, DecodeError>
    ensures value { IfOk result (λ v. Codes depth_limit (tree_of v) bytes.now) }
    ensures only { (t : Tree) → Codes depth_limit t bytes.now → IsReadAs t result }
    ensures fault { IfErr result (λ e. StopsAt bytes.now e (whole_at depth_limit bytes.now)) }
{
    match read_whole(alloc, bytes, depth_limit) {
        Ok(value) => Ok(value),
        Err(stop) => Err(error_of(stop, bytes)),
    }
}

/// The value at the front of bytes, with blanks before it, as [`decode`] reads it, and how many
/// bytes that takes: so the values of a stream are read one after another.
///
/// # Errors
///
/// Those of `decode`, but bytes after the value are no fault. Where the bytes end with a number,
/// more of them may bring more digits: a reader of a stream waits for a blank or a comma after it.
///
/// ```rust
/// let (value, length) = decode_prefix(alloc, b" [1] [2]", 16)?;
/// assert!(rt; encode(alloc, &value)?.as_str() == "[1]" && length == 4);
/// ```
pub fn decode_prefix<'de>(
    alloc: Global,
    bytes: &'de [u8],
    depth_limit: usize,
) -> Result<(Value<'de>, usize), DecodeError>
    ensures value { IfOk result (λ x. Codes depth_limit (tree_of x.0) (take x.1 bytes.now)) }
    ensures length { IfOk result (λ x. x.1 ≤ length bytes.now) }
    ensures only { (t : Tree) (before front rest : List ℕ) → AreBlanks before
        → IsValueOf depth_limit t front → follows rest ≡ true
        → bytes.now ≡ before ++ (front ++ rest)
        → IsReadFrom t (length (before ++ front)) result }
    ensures fault { IfErr result (λ e. StopsAt bytes.now e
        (value_at depth_limit (after_blanks bytes.now))) }
{
    let start = skip_blanks(bytes);
    match read_value(alloc, depth_limit, start) {
        Ok((value, rest)) => Ok((value, bytes.len().saturating_sub(rest.len()))),
        Err(stop) => Err(error_of(stop, bytes)),
    }
}

/// The error of a stop in these bytes.
fn error_of(stop: Stop, bytes: &[u8]) -> DecodeError
    ensures { result ≡ error_in bytes.now stop }
{
    match stop {
        Stop::OutOfMemory => DecodeError::OutOfMemory,
        Stop::Refused(Refusal { fault, left }) => DecodeError::Refused {
            at: bytes.len().saturating_sub(left),
            fault,
        },
    }
}

/// One value with blanks around it, and nothing after it.
#[tactic(auto, unfolding(crate::specs::Inner::Reading::whole_at))]
fn read_whole<'de>(alloc: Global, bytes: &'de [u8], limit: usize) -> Result<Value<'de>, Stop>
    ensures { Gives tree_of result (whole_at limit bytes.now) }
{
    let (value, rest) = read_value(alloc, limit, skip_blanks(bytes))?;
    let rest = skip_blanks(rest);
    if rest.len() == 0 {
        Ok(value)
    } else {
        Err(Stop::Refused(stop_at(Fault::Trailing, rest)))
    }
}

/// The bytes after blanks.
#[tactic(auto, unfolding(crate::specs::Inner::Reading::after_blanks))]
fn skip_blanks(bytes: &[u8]) -> &[u8]
    ensures { result.now ≡ after_blanks bytes.now }
{
    let mut rest = bytes;
    while let [b' ' | b'\t' | b'\n' | b'\r', behind @ ..] = rest {
        rest = behind;
    }
    rest
}

/// The bytes after a word, which must come next.
#[tactic(auto, unfolding(crate::specs::Inner::Reading::word_at))]
fn read_word<'de>(word: &[u8], bytes: &'de [u8]) -> Result<&'de [u8], Refusal>
    ensures { Finds (λ x. x.now) result (word_at word.now bytes.now) }
{
    let mut rest = bytes;
    for due in word {
        rest = expect(Fault::Unexpected, *due, rest)?;
    }
    Ok(rest)
}

/// Whether a value can begin with this byte.
fn begins_value(byte: u8) -> bool
    ensures { result ≡ begins_value byte }
{
    matches!(
        byte,
        b'"' | b'-' | b'0'..=b'9' | b'[' | b'{' | b't' | b'f' | b'n'
    )
}

/// A value that holds no other.
#[tactic(auto, unfolding(crate::specs::Inner::Reading::leaf_at))]
fn read_leaf<'de>(
    alloc: Global,
    first: u8,
    bytes: &'de [u8],
) -> Result<(Value<'de>, &'de [u8]), Stop>
    ensures { Gives (λ x. (tree_of x.0, x.1.now)) result (leaf_at first bytes.now) }
{
    match first {
        b'"' => {
            let (text, rest) = read_string(alloc, expect(Fault::Unexpected, b'"', bytes)?)?;
            Ok((Value::String(text), rest))
        }
        b'-' => {
            let (number, rest) = read_number(true, expect(Fault::Unexpected, b'-', bytes)?)?;
            Ok((Value::Number(number), rest))
        }
        b't' => Ok((Value::Bool(true), read_word(b"true", bytes)?)),
        b'f' => Ok((Value::Bool(false), read_word(b"false", bytes)?)),
        b'n' => Ok((Value::Option(None), read_word(b"null", bytes)?)),
        _ => {
            let (number, rest) = read_number(false, bytes)?;
            Ok((Value::Number(number), rest))
        }
    }
}

/// Whether one more part comes after a part, and the bytes from there; or those after this bracket.
#[tactic(auto, unfolding(crate::specs::Inner::Reading::next_at))]
fn read_next(close: u8, bytes: &[u8]) -> Result<(bool, &[u8]), Refusal>
    ensures { Finds (λ x. (x.0, x.1.now)) result (next_at close bytes.now) }
{
    let [byte, rest @ ..] = bytes else {
        return Err(stop_at(Fault::Unexpected, bytes));
    };
    if *byte == close {
        Ok((false, rest))
    } else if *byte == b',' {
        Ok((true, skip_blanks(rest)))
    } else {
        Err(stop_at(Fault::Unexpected, bytes))
    }
}

/// The value at the front, within a limit of depth, and the bytes after it.
#[cycle(decode)]
#[inline(never)]
#[tactic(auto, unfolding(crate::specs::Inner::Reading::value_at))]
fn read_value<'de>(
    alloc: Global,
    limit: usize,
    bytes: &'de [u8],
) -> Result<(Value<'de>, &'de [u8]), Stop>
    ensures { Gives (λ x. (tree_of x.0, x.1.now)) result (value_at limit bytes.now) }
{
    let [first, rest @ ..] = bytes else {
        return Err(Stop::Refused(stop_at(Fault::Unexpected, bytes)));
    };
    if limit == 0 {
        let fault = if begins_value(*first) {
            Fault::TooDeep
        } else {
            Fault::Unexpected
        };
        return Err(Stop::Refused(stop_at(fault, bytes)));
    }
    match *first {
        b'[' => {
            let (items, rest) = read_items(alloc, limit - 1, rest)?;
            Ok((Value::Seq(items), rest))
        }
        b'{' => {
            let (pairs, rest) = read_members(alloc, limit - 1, rest)?;
            Ok((Value::Map(pairs), rest))
        }
        first => read_leaf(alloc, first, bytes),
    }
}

/// The items of an array, after its bracket.
#[cycle(decode)]
#[inline(never)]
fn read_items<'de>(
    alloc: Global,
    limit: usize,
    bytes: &'de [u8],
) -> Result<(Vec<Value<'de>>, &'de [u8]), Stop>
    ensures { Gives (λ x. (map tree_of x.0.items, x.1.now)) result
        (series_at 93 (value_at limit) bytes.now) }
{
    let mut items = Vec::new(alloc);
    let start = skip_blanks(bytes);
    if let Some(behind) = after(b']', start) {
        return Ok((items, behind));
    }
    let mut rest = start;
    // Each item takes a byte at least.
    for _ in bytes {
        let (item, behind) = read_value(alloc, limit, rest)?;
        items.push(item)?;
        let next = skip_blanks(behind);
        let (goes_on, after_next) = read_next(b']', next)?;
        if goes_on {
            rest = after_next;
        } else {
            return Ok((items, after_next));
        }
    }
    Err(Stop::Refused(stop_at(Fault::Ended, &[])))
}

/// A key, a colon and a value.
#[cycle(decode)]
#[inline(always)]
#[tactic(auto, unfolding(crate::specs::Inner::Reading::member_at))]
fn read_member<'de>(
    alloc: Global,
    limit: usize,
    bytes: &'de [u8],
) -> Result<((Value<'de>, Value<'de>), &'de [u8]), Stop>
    ensures { Gives (λ x. (pair_tree x.0, x.1.now)) result (member_at (value_at limit) bytes.now) }
{
    let (key, rest) = read_string(alloc, expect(Fault::Unexpected, b'"', bytes)?)?;
    let rest = expect(Fault::Unexpected, b':', skip_blanks(rest))?;
    let (value, rest) = read_value(alloc, limit, skip_blanks(rest))?;
    Ok(((Value::String(key), value), rest))
}

/// The members of an object, after its bracket.
#[cycle(decode)]
#[inline(never)]
fn read_members<'de>(
    alloc: Global,
    limit: usize,
    bytes: &'de [u8],
) -> Result<(Vec<(Value<'de>, Value<'de>)>, &'de [u8]), Stop>
    ensures { Gives (λ x. (map pair_tree x.0.items, x.1.now)) result
        (series_at 125 (member_at (value_at limit)) bytes.now) }
{
    let mut pairs = Vec::new(alloc);
    let start = skip_blanks(bytes);
    if let Some(behind) = after(b'}', start) {
        return Ok((pairs, behind));
    }
    let mut rest = start;
    // Each member takes a byte at least.
    for _ in bytes {
        let (pair, behind) = read_member(alloc, limit, rest)?;
        pairs.push(pair)?;
        let next = skip_blanks(behind);
        let (goes_on, after_next) = read_next(b'}', next)?;
        if goes_on {
            rest = after_next;
        } else {
            return Ok((pairs, after_next));
        }
    }
    Err(Stop::Refused(stop_at(Fault::Ended, &[])))
}
