//! What a line says.

ghost use Rattle.std.specs.Prelude.{◌≡◌, ◌≤◌, ◌+◌, [], ◌∷◌, length, Option, MatchOption};
ghost use Rattle.std.specs.Prelude.{IfOk, IfSome, IsOk, IsSomeAnd, None, Some, true, false};
ghost use Rattle.std.specs.List.{before_first, list_all, position};
ghost use Rattle.content_lines.specs.Lines.{is_bad, is_line_feed, is_foreign, lines_of, first_bad};
ghost use Rattle.content_lines.specs.Forms.{is_printable};
ghost use Rattle.content_lines.specs.Words.{event_in, of_parts, word_of, rest_of};
ghost use Rattle.content_lines.specs.Views.{Reads, Spells, line_event, says_bytes};
ghost use Rattle.serde_content.specs.Names.Words.{Event, event_of};

use crate::hex;
use crate::words::{read_phrase, read_word};
use serde_content::CowBytes;
use serde_content::ser::Call;
use std::alloc::{AllocError, Global};
use std::str;

/// A variant of an enum, as a line names it: `N i V`.
#[derive(Clone, Copy, Debug, PartialEq, Eq)]
pub struct Variant {
    /// The name of the enum.
    pub name: &'static str,
    /// The index of the variant.
    pub index: u32,
    /// The name of the variant.
    pub variant: &'static str,
}

/// What a line says, borrowed from it.
#[derive(Drop)]
pub enum Line<'a> {
    /// A call.
    Call(Call<'a>),
    /// A call of bytes: their digits.
    Bytes(&'a [u8]),
}

impl<'a> Line<'a> {
    /// Makes the call that the line says. Its text is borrowed from the line; bytes take memory.
    ///
    /// # Errors
    ///
    /// `AllocError`, for bytes alone.
    pub fn into_call(self, alloc: Global) -> Result<Call<'a>, AllocError>
        ensures value { IfOk result (λ call. event_of call ≡ line_event self.entry) }
        ensures succeeds { says_bytes self.entry ≡ false → IsOk result }
    {
        match self {
            Line::Call(call) => Ok(call),
            Line::Bytes(digits) => Ok(Call::Bytes(CowBytes::Owned(hex::decode(alloc, digits)?))),
        }
    }
}

/// The line of a call, where there is one.
pub fn line_of<'a>(call: Option<Call<'a>>) -> Option<Line<'a>>
    ensures { (wanted : Option Event) → Spells call.entry wanted → Reads result wanted }
{
    Some(Line::Call(call?))
}

fn is_printable_text(line: &[u8]) -> bool
    ensures { result ≡ list_all is_printable line.now }
{
    line.iter().all(|b| (32..127).contains(b))
}

/// A line of bytes from 32 to 126 as text.
fn as_text(line: &[u8]) -> Option<&str>
    ensures { list_all is_printable line.now ≡ true → IsSomeAnd result (λ t. t.now ≡ line.now) }
{
    str::from_utf8(line).ok()
}

/// The line as text, if its bytes are 32 to 126.
pub fn text_of(line: &[u8]) -> Option<&str>
    ensures { MatchOption result (list_all is_printable line.now ≡ false)
        (λ t. (list_all is_printable line.now ≡ true) × (t.now ≡ line.now)) }
{
    if is_printable_text(line) {
        as_text(line)
    } else {
        None
    }
}

fn read_text(text: &str) -> Option<Line<'_>>
    ensures { Reads result (of_parts (word_of text.now) (rest_of text.now)) }
{
    match text.split_once(' ') {
        None => line_of(read_word(text)),
        Some((word, rest)) => read_phrase(word, rest),
    }
}

/// Reads a line of bytes from 32 to 126, as [`read_line`] does, with one walk less. It takes no
/// memory.
pub fn read_printable(line: &[u8]) -> Option<Line<'_>>
    ensures { list_all is_printable line.now ≡ true → Reads result (event_in line.now) }
{
    read_text(as_text(line)?)
}

/// Reads a line: what it says, if it spells a call. It takes no memory.
///
/// ```rust
/// match read_line(b"u8 7") {
///     Some(line) => builder.call(line.into_call(alloc)?)?,
///     None => println!(rt; "no call")?,
/// }
/// ```
pub fn read_line(line: &[u8]) -> Option<Line<'_>>
    ensures { Reads result (event_in line.now) }
{
    read_text(text_of(line)?)
}

/// Whether the line is neither empty nor a call.
fn is_bad_line(line: &[u8]) -> bool
    ensures { result ≡ is_bad line.now }
{
    !line.is_empty() && read_line(line).is_none()
}

/// Where the first line feed is.
pub fn first_line_feed(text: &[u8]) -> Option<usize>
    ensures { result ≡ position is_line_feed text.now }
{
    text.iter().position(|b| *b == b'\n')
}

/// Where the first byte is that no line may hold.
fn first_foreign(text: &[u8]) -> Option<usize>
    ensures { result ≡ position is_foreign text.now }
{
    text.iter().position(|b| !(32..127).contains(b))
}

/// Splits off the first line, without its line feed: the line, and what comes after it if there is
/// one; or none where the line has a byte that no line may hold. One walk looks for both. It takes
/// no memory.
pub fn split_line(text: &[u8]) -> Option<(&[u8], Option<&[u8]>)>
    ensures foreign { result ≡ None
        → list_all is_printable (before_first is_line_feed text.now) ≡ false }
    // so that line is bad
    ensures bad { result ≡ None → first_bad text.now ≡ Some 0 }
    ensures printable { IfSome result (λ both. list_all is_printable both.0.now ≡ true) }
    ensures lines { IfSome result (λ both. MatchOption both.1 (lines_of text.now ≡ both.0.now ∷ [])
        (λ rest. lines_of text.now ≡ both.0.now ∷ lines_of rest.now)) }
    ensures bytes { IfSome result (λ both. MatchOption both.1 (length text.now ≡ length both.0.now)
        (λ rest. length text.now ≡ length both.0.now + (1 + length rest.now))) }
{
    match first_foreign(text) {
        None => Some((text, None)),
        Some(end) => {
            if text[end] == b'\n' {
                Some((&text[..end], Some(&text[end + 1..])))
            } else {
                None
            }
        }
    }
}

/// Finds the first bad line of these lines of calls, counted from 0 with the empty lines. It takes
/// no memory.
pub fn first_bad_line(input: &[u8]) -> Option<usize>
    ensures place { result ≡ first_bad input.now }
    ensures within { IfSome result (λ place. place ≤ length input.now) }
{
    input
        .split(|b| *b == b'\n')
        .position(|line| is_bad_line(line))
}
