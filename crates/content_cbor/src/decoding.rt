//! Bytes as values.
//!
//! A level of a deep value passes two functions that aren't inlined, one for an item and one for
//! what holds several, so that it takes little stack.

ghost use Rattle.std.specs.Prelude.{◌≡◌, ◌≤◌, ◌++◌, ℕ, List, length, map, take, true, false};
ghost use Rattle.std.specs.Prelude.{Ok, Err, None, IfOk, IfErr, IsOk};
ghost use Rattle.content_tree.specs.Values.Tree.{Tree};
ghost use Rattle.content_tree.specs.Values.Value.{tree_of, pair_tree};
ghost use Rattle.content_cbor.specs.Codes.{Codes};
ghost use Rattle.content_cbor.specs.Decoded.{IsPlaced, IsReadAs, IsReadFrom, StopsAt, takes_memory};
ghost use Rattle.content_cbor.specs.declared.stop.Stop.TheVariants.{OutOfMemory};
ghost use Rattle.content_cbor.specs.Inner.Steps.{Finds, Gives, error_in};
ghost use Rattle.content_cbor.specs.Inner.Reading.{each_at, item_at, leaf_at, pair_at, parts_at};
ghost use Rattle.content_cbor.specs.Inner.Reading.{simple_at, until_at, whole_at};

use crate::decode_error::{DecodeError, Fault};
use crate::heads::{Head, Major, after_break, read_head, read_kind};
use crate::numbers::{from_negative, from_unsigned, read_tag};
use crate::stop::{Refusal, Stop, stop_at, stop_before};
use crate::strings::{read_byte_string, read_text_string};
use content_tree::Value;
use std::alloc::Global;

/// The value that bytes of CBOR code: one data item, and nothing after it.
///
/// A number is of 64 bits where it has room there, and else of 128; null is `None`; an array is a
/// sequence, a map a map, with every pair in order. Texts and bytes of a definite length are
/// borrowed from the bytes, others are owned. Heads may be longer than they need be, lengths
/// indefinite.
///
/// `depth_limit` bounds how deep items nest, and so the stack that is taken; the item's own depth
/// is 1, and a limit of 0 refuses everything. Memory is taken for what holds parts, as it is read,
/// and for texts and bytes of indefinite length; numbers under a tag take none, and a length alone
/// reserves none.
///
/// # Errors
///
/// `Refused` for bytes that code no value: at the first byte with which they begin no item within
/// the limit, or at their end, with [what is wrong](Fault) there. Floats, simple values other than
/// false, true and null, tags other than 2 and 3, what is no bytes under these, numbers past 128
/// bits and texts that are no UTF-8 are faults too. `OutOfMemory`.
///
/// ```rust
/// let value = decode(alloc, &[0x82, 0x01, 0x61, b'a'], 16)?;
/// let wanted = Value::Seq(vec![in alloc; Value::from(1u64), Value::from("a")]?);
/// assert!(rt; value == wanted);
/// ```
pub fn decode<'de>(
    alloc: Global,
    bytes: &'de [u8],
    depth_limit: usize,
) -> Result<Value<'de>, DecodeError>
    ensures value { IfOk result (λ v. Codes depth_limit (tree_of v) bytes.now) }
    ensures only { (t : Tree) → Codes depth_limit t bytes.now → IsReadAs t result }
    ensures fault { IfErr result (λ e. StopsAt bytes.now e (whole_at depth_limit bytes.now)) }
    ensures place { IfErr result (λ e. IsPlaced depth_limit bytes.now e) }
    ensures succeeds { (t : Tree) → Codes depth_limit t bytes.now → takes_memory t ≡ false
        → IsOk result }
{
    match read_whole(alloc, bytes, depth_limit) {
        Ok(value) => Ok(value),
        Err(stop) => Err(error_of(stop, bytes)),
    }
}

/// The value that the data item at the front of bytes of CBOR codes, as [`decode`] reads it, and
/// how many bytes that takes: so the items of a sequence (RFC 8742) are read one after another.
///
/// # Errors
///
/// Those of `decode`, but bytes after the item are no fault. A reader of a stream waits for more
/// bytes only at `Ended`, where they can make an item within a limit of at least 1.
///
/// ```rust
/// let (value, length) = decode_prefix(alloc, &[0x61, b'a', 0x01], 16)?;
/// assert!(rt; value == Value::from("a") && length == 2);
/// ```
pub fn decode_prefix<'de>(
    alloc: Global,
    bytes: &'de [u8],
    depth_limit: usize,
) -> Result<(Value<'de>, usize), DecodeError>
    ensures value { IfOk result (λ x. Codes depth_limit (tree_of x.0) (take x.1 bytes.now)) }
    ensures length { IfOk result (λ x. x.1 ≤ length bytes.now) }
    ensures only { (t : Tree) (front rest : List ℕ) → Codes depth_limit t front
        → bytes.now ≡ front ++ rest → IsReadFrom t (length front) result }
    ensures fault { IfErr result (λ e. StopsAt bytes.now e (item_at depth_limit bytes.now)) }
    ensures place { IfErr result (λ e. IsPlaced depth_limit bytes.now e) }
    ensures succeeds { (t : Tree) (front rest : List ℕ) → Codes depth_limit t front
        → bytes.now ≡ front ++ rest → takes_memory t ≡ false → IsOk result }
{
    match read_item(alloc, depth_limit, bytes) {
        Ok((value, rest)) => Ok((value, bytes.len().saturating_sub(rest.len()))),
        Err(stop) => Err(error_of(stop, bytes)),
    }
}

/// The error of a stop in these bytes.
fn error_of(stop: Stop, bytes: &[u8]) -> DecodeError
    ensures { result ≡ error_in bytes.now stop }
{
    match stop {
        Stop::OutOfMemory => DecodeError::OutOfMemory,
        Stop::Refused(Refusal { fault, left }) => DecodeError::Refused {
            at: bytes.len().saturating_sub(left),
            fault,
        },
    }
}

/// One item, and nothing after it.
#[tactic(auto, unfolding(crate::specs::Inner::Reading::whole_at))]
fn read_whole<'de>(alloc: Global, bytes: &'de [u8], limit: usize) -> Result<Value<'de>, Stop>
    ensures value { Gives tree_of result (whole_at limit bytes.now) }
    ensures memory { result ≡ Err OutOfMemory → (t : Tree) → whole_at limit bytes.now ≡ Ok t
        → takes_memory t ≡ true }
{
    let (value, rest) = read_item(alloc, limit, bytes)?;
    if rest.len() == 0 {
        Ok(value)
    } else {
        Err(Stop::Refused(stop_at(Fault::Trailing, rest)))
    }
}

/// A simple value, after its head.
fn read_simple<'de>(number: u64, bytes: &'de [u8]) -> Result<(Value<'de>, &'de [u8]), Refusal>
    ensures { Finds (λ x. (tree_of x.0, x.1.now)) result (simple_at number bytes.now) }
{
    match number {
        20 => Ok((Value::Bool(false), bytes)),
        21 => Ok((Value::Bool(true), bytes)),
        22 => Ok((Value::Option(None), bytes)),
        _ => Err(stop_before(Fault::Simple, bytes)),
    }
}

/// An item that holds no other, after its head.
#[tactic(auto, unfolding(crate::specs::Inner::Reading::leaf_at))]
fn read_leaf<'de>(
    alloc: Global,
    head: Head,
    bytes: &'de [u8],
) -> Result<(Value<'de>, &'de [u8]), Stop>
    ensures value { Gives (λ x. (tree_of x.0, x.1.now)) result
        (leaf_at head.«major» head.number bytes.now) }
    ensures memory { result ≡ Err OutOfMemory → head.number ≡ None }
{
    match (head.major, head.number) {
        (Major::Unsigned, Some(number)) => {
            Ok((Value::Number(from_unsigned(u128::from(number))), bytes))
        }
        (Major::Negative, Some(number)) => {
            Ok((Value::Number(from_negative(u128::from(number))), bytes))
        }
        (Major::Bytes, length) => {
            let (content, rest) = read_byte_string(alloc, length, bytes)?;
            Ok((Value::Bytes(content), rest))
        }
        (Major::Text, length) => {
            let (content, rest) = read_text_string(alloc, length, bytes)?;
            Ok((Value::String(content), rest))
        }
        (Major::Tag, Some(tag)) => {
            let (number, rest) = read_tag(tag, bytes)?;
            Ok((Value::Number(number), rest))
        }
        (Major::Simple, Some(number)) => Ok(read_simple(number, bytes)?),
        // A head that was read is none of these.
        (Major::Simple, None) => Err(Stop::Refused(stop_before(Fault::Break, bytes))),
        _ => Err(Stop::Refused(stop_before(Fault::Reserved, bytes))),
    }
}

/// The item at the front, within a limit of depth, and the bytes after it.
#[cycle(decode)]
#[inline(never)]
#[tactic(auto, unfolding(crate::specs::Inner::Reading::item_at))]
fn read_item<'de>(
    alloc: Global,
    limit: usize,
    bytes: &'de [u8],
) -> Result<(Value<'de>, &'de [u8]), Stop>
    ensures value { Gives (λ x. (tree_of x.0, x.1.now)) result (item_at limit bytes.now) }
    ensures memory { result ≡ Err OutOfMemory → (t : Tree) (rest : List ℕ)
        → item_at limit bytes.now ≡ Ok (t, rest) → takes_memory t ≡ true }
{
    if limit == 0 {
        read_kind(bytes)?;
        return Err(Stop::Refused(stop_at(Fault::TooDeep, bytes)));
    }
    let (head, rest) = read_head(limit - 1, bytes)?;
    match head.major {
        Major::Array => {
            let (items, rest) = read_items(alloc, limit - 1, head.number, rest)?;
            Ok((Value::Seq(items), rest))
        }
        Major::Map => {
            let (pairs, rest) = read_pairs(alloc, limit - 1, head.number, rest)?;
            Ok((Value::Map(pairs), rest))
        }
        _ => read_leaf(alloc, head, rest),
    }
}

/// The items of an array, after its head.
#[cycle(decode)]
#[inline(always)]
#[tactic(auto, unfolding(crate::specs::Inner::Reading::parts_at))]
fn read_items<'de>(
    alloc: Global,
    limit: usize,
    count: Option<u64>,
    bytes: &'de [u8],
) -> Result<(Vec<Value<'de>>, &'de [u8]), Stop>
    ensures { Gives (λ x. (map tree_of x.0.items, x.1.now)) result
        (parts_at (item_at limit) count bytes.now) }
{
    match count {
        None => read_items_until_break(alloc, limit, bytes),
        Some(count) => read_each_item(alloc, limit, count, bytes),
    }
}

/// The pairs of a map, after its head.
#[cycle(decode)]
#[inline(always)]
#[tactic(auto, unfolding(crate::specs::Inner::Reading::parts_at))]
fn read_pairs<'de>(
    alloc: Global,
    limit: usize,
    count: Option<u64>,
    bytes: &'de [u8],
) -> Result<(Vec<(Value<'de>, Value<'de>)>, &'de [u8]), Stop>
    ensures { Gives (λ x. (map pair_tree x.0.items, x.1.now)) result
        (parts_at (pair_at (item_at limit)) count bytes.now) }
{
    match count {
        None => read_pairs_until_break(alloc, limit, bytes),
        Some(count) => read_each_pair(alloc, limit, count, bytes),
    }
}

/// So many items.
#[cycle(decode)]
#[inline(never)]
fn read_each_item<'de>(
    alloc: Global,
    limit: usize,
    count: u64,
    bytes: &'de [u8],
) -> Result<(Vec<Value<'de>>, &'de [u8]), Stop>
    ensures { Gives (λ x. (map tree_of x.0.items, x.1.now)) result
        (each_at (item_at limit) count bytes.now) }
{
    let mut items = Vec::new(alloc);
    let mut rest = bytes;
    for _ in 0..count {
        let (item, behind) = read_item(alloc, limit, rest)?;
        items.push(item)?;
        rest = behind;
    }
    Ok((items, rest))
}

/// Items up to a break.
#[cycle(decode)]
#[inline(never)]
fn read_items_until_break<'de>(
    alloc: Global,
    limit: usize,
    bytes: &'de [u8],
) -> Result<(Vec<Value<'de>>, &'de [u8]), Stop>
    ensures { Gives (λ x. (map tree_of x.0.items, x.1.now)) result
        (until_at (item_at limit) (length bytes.now) bytes.now) }
{
    let mut items = Vec::new(alloc);
    let mut rest = bytes;
    // Each item takes a byte at least.
    for _ in bytes {
        if let Some(behind) = after_break(rest) {
            return Ok((items, behind));
        }
        let (item, behind) = read_item(alloc, limit, rest)?;
        items.push(item)?;
        rest = behind;
    }
    Err(Stop::Refused(stop_at(Fault::Ended, &[])))
}

/// A key and a value.
#[cycle(decode)]
#[inline(always)]
#[tactic(auto, unfolding(crate::specs::Inner::Reading::pair_at))]
fn read_pair<'de>(
    alloc: Global,
    limit: usize,
    bytes: &'de [u8],
) -> Result<((Value<'de>, Value<'de>), &'de [u8]), Stop>
    ensures { Gives (λ x. (pair_tree x.0, x.1.now)) result (pair_at (item_at limit) bytes.now) }
{
    let (key, rest) = read_item(alloc, limit, bytes)?;
    let (value, rest) = read_item(alloc, limit, rest)?;
    Ok(((key, value), rest))
}

/// So many pairs.
#[cycle(decode)]
#[inline(never)]
fn read_each_pair<'de>(
    alloc: Global,
    limit: usize,
    count: u64,
    bytes: &'de [u8],
) -> Result<(Vec<(Value<'de>, Value<'de>)>, &'de [u8]), Stop>
    ensures { Gives (λ x. (map pair_tree x.0.items, x.1.now)) result
        (each_at (pair_at (item_at limit)) count bytes.now) }
{
    let mut pairs = Vec::new(alloc);
    let mut rest = bytes;
    for _ in 0..count {
        let (pair, behind) = read_pair(alloc, limit, rest)?;
        pairs.push(pair)?;
        rest = behind;
    }
    Ok((pairs, rest))
}

/// Pairs up to a break.
#[cycle(decode)]
#[inline(never)]
fn read_pairs_until_break<'de>(
    alloc: Global,
    limit: usize,
    bytes: &'de [u8],
) -> Result<(Vec<(Value<'de>, Value<'de>)>, &'de [u8]), Stop>
    ensures { Gives (λ x. (map pair_tree x.0.items, x.1.now)) result
        (until_at (pair_at (item_at limit)) (length bytes.now) bytes.now) }
{
    let mut pairs = Vec::new(alloc);
    let mut rest = bytes;
    // Each pair takes a byte at least.
    for _ in bytes {
        if let Some(behind) = after_break(rest) {
            return Ok((pairs, behind));
        }
        let (pair, behind) = read_pair(alloc, limit, rest)?;
        pairs.push(pair)?;
        rest = behind;
    }
    Err(Stop::Refused(stop_at(Fault::Ended, &[])))
}
