//! Texts and bytes that are read.

ghost use Rattle.std.specs.Prelude.{◌≡◌, ◌++◌, ◌^◌, ◌<◌, string_bytes, false, true, Err, IfSome};
ghost use Rattle.std.specs.Prelude.{None};
ghost use Rattle.content_tree.specs.Values.Text.{text_of, bytes_of};
ghost use Rattle.content_cbor.specs.Inner.Steps.{Finds, Gives};
ghost use Rattle.content_cbor.specs.Inner.Numbers.{bounds_in};
ghost use Rattle.content_cbor.specs.Inner.Reading.{begins_chunk, bytes_at, chunk_at, chunks_at};
ghost use Rattle.content_cbor.specs.declared.stop.Stop.TheVariants.{OutOfMemory};
ghost use Rattle.content_cbor.specs.Inner.Reading.{content_at, length_at, string_at};

use crate::decode_error::Fault;
use crate::digits::Range;
use crate::heads::{First, Major, after_break, read_argument, read_first};
use crate::stop::{Refusal, Stop, stop_at};
use crate::utf8::stop_in_text;
use content_tree::{CowBytes, CowStr};
use std::alloc::Global;
use std::str;

/// This many bytes, and those after them.
fn read_bytes(length: u64, bytes: &[u8]) -> Result<(&[u8], &[u8]), Refusal>
    ensures { Finds (λ x. (x.0.now, x.1.now)) result (bytes_at length bytes.now) }
{
    if (bytes.len() as u64) < length {
        return Err(stop_at(Fault::Ended, &[]));
    }
    Ok(bytes.split_at(length as usize))
}

/// This many bytes as a text, and those after them.
#[inline(always)]
#[tactic(auto, unfolding(crate::specs::Inner::Reading::content_at))]
fn read_text(length: u64, bytes: &[u8]) -> Result<(&str, &[u8]), Refusal>
    ensures { Finds (λ x. (x.0.now, x.1.now)) result (content_at true length bytes.now) }
{
    if (bytes.len() as u64) < length {
        return Err(stop_in_text(length, bytes));
    }
    let (content, rest) = bytes.split_at(length as usize);
    match str::from_utf8(content) {
        Ok(text) => Ok((text, rest)),
        Err(_) => Err(stop_in_text(length, bytes)),
    }
}

/// Whether a chunk of a text or of bytes begins so: with its length.
fn begins_chunk(is_text: bool, first: First) -> bool
    ensures { result ≡ begins_chunk is_text first.«major» first.info }
{
    match first.major {
        Major::Text => is_text && first.info < 31,
        Major::Bytes => !is_text && first.info < 31,
        _ => false,
    }
}

/// The length of a chunk of a text or of bytes, of a range, if one is given.
#[tactic(auto, unfolding(crate::specs::Inner::Reading::length_at))]
pub(crate) fn read_length(
    is_text: bool,
    range: Option<Range>,
    bytes: &[u8],
) -> Result<(u64, &[u8]), Refusal>
    requires { IfSome range (λ r. r.most < 2 ^ 64) }
    ensures { Finds (λ x. (x.0, x.1.now)) result
        (length_at is_text (bounds_in range) bytes.now) }
{
    let (first, rest) = read_first(bytes)?;
    if begins_chunk(is_text, first) {
        read_argument(range, first.info, rest)
    } else {
        Err(stop_at(Fault::WrongChunk, bytes))
    }
}

/// A chunk of bytes.
#[tactic(auto, unfolding(crate::specs::Inner::Reading::chunk_at, crate::specs::Inner::Reading::content_at))]
fn read_chunk_of_bytes(bytes: &[u8]) -> Result<(&[u8], &[u8]), Refusal>
    ensures { Finds (λ x. (x.0.now, x.1.now)) result (chunk_at false bytes.now) }
{
    let (length, rest) = read_length(false, None, bytes)?;
    read_bytes(length, rest)
}

/// A chunk of a text.
#[tactic(auto, unfolding(crate::specs::Inner::Reading::chunk_at))]
fn read_chunk_of_text(bytes: &[u8]) -> Result<(&str, &[u8]), Refusal>
    ensures { Finds (λ x. (x.0.now, x.1.now)) result (chunk_at true bytes.now) }
{
    let (length, rest) = read_length(true, None, bytes)?;
    read_text(length, rest)
}

/// Bytes after their head: borrowed with a length, and without one their chunks together.
#[tactic(auto, unfolding(crate::specs::Inner::Reading::string_at, crate::specs::Inner::Reading::content_at))]
pub(crate) fn read_byte_string<'de>(
    alloc: Global,
    length: Option<u64>,
    bytes: &'de [u8],
) -> Result<(CowBytes<'de>, &'de [u8]), Stop>
    ensures value { Gives (λ x. (bytes_of x.0, x.1.now)) result (string_at false length bytes.now) }
    ensures memory { result ≡ Err OutOfMemory → length ≡ None }
{
    match length {
        Some(length) => {
            let (content, rest) = read_bytes(length, bytes)?;
            Ok((CowBytes::Borrowed(content), rest))
        }
        None => {
            let (content, rest) = read_chunks_of_bytes(alloc, bytes)?;
            Ok((CowBytes::Owned(content), rest))
        }
    }
}

/// A text after its head: borrowed with a length, and without one its chunks together.
#[tactic(auto, unfolding(crate::specs::Inner::Reading::string_at))]
pub(crate) fn read_text_string<'de>(
    alloc: Global,
    length: Option<u64>,
    bytes: &'de [u8],
) -> Result<(CowStr<'de>, &'de [u8]), Stop>
    ensures value { Gives (λ x. (text_of x.0, x.1.now)) result (string_at true length bytes.now) }
    ensures memory { result ≡ Err OutOfMemory → length ≡ None }
{
    match length {
        Some(length) => {
            let (content, rest) = read_text(length, bytes)?;
            Ok((CowStr::Borrowed(content), rest))
        }
        None => {
            let (content, rest) = read_chunks_of_text(alloc, bytes)?;
            Ok((CowStr::Owned(content), rest))
        }
    }
}

/// The chunks of bytes up to a break, together.
fn read_chunks_of_bytes(alloc: Global, bytes: &[u8]) -> Result<(Vec<u8>, &[u8]), Stop>
    ensures { Gives (λ x. (x.0.items, x.1.now)) result (chunks_at false bytes.now) }
{
    let mut whole = Vec::new(alloc);
    let mut rest = bytes;
    // Each chunk takes a byte at least.
    for _ in bytes {
        if let Some(behind) = after_break(rest) {
            return Ok((whole, behind));
        }
        let (chunk, behind) = read_chunk_of_bytes(rest)?;
        whole.extend_from_slice(chunk)?;
        rest = behind;
    }
    Err(Stop::Refused(stop_at(Fault::Ended, &[])))
}

/// The chunks of a text up to a break, together.
fn read_chunks_of_text(alloc: Global, bytes: &[u8]) -> Result<(String, &[u8]), Stop>
    ensures { Gives (λ x. (string_bytes x.0, x.1.now)) result (chunks_at true bytes.now) }
{
    let mut whole = String::new(alloc);
    let mut rest = bytes;
    // Each chunk takes a byte at least.
    for _ in bytes {
        if let Some(behind) = after_break(rest) {
            return Ok((whole, behind));
        }
        let (chunk, behind) = read_chunk_of_text(rest)?;
        whole.push_str(chunk)?;
        rest = behind;
    }
    Err(Stop::Refused(stop_at(Fault::Ended, &[])))
}
