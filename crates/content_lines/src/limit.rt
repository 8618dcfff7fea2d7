//! The line that sets a limit on how deep trees nest.

ghost use Rattle.std.specs.Prelude.{◌≡◌, ◌<◌, ◌∷◌, length, drop};
ghost use Rattle.std.specs.List.{before_first, position_or_len};
ghost use Rattle.serde_content.specs.Names.Words.{IsLimit};
ghost use Rattle.content_lines.specs.Lines.{body_of, each_line, is_line_feed, limit_of};
ghost use Rattle.content_lines.specs.Words.{limit_in, limit_of_parts, positive_of};
ghost use Rattle.content_lines.specs.Words.{rest_of, word_of};

use crate::line::{first_line_feed, text_of};
use crate::numbers::read_usize;

/// A number from 1 on.
fn read_positive(digits: &str) -> Option<usize>
    ensures { result ≡ positive_of digits.now }
{
    match read_usize(digits) {
        Some(0) => None,
        read => read,
    }
}

fn read_limit_text(text: &str) -> Option<usize>
    ensures { result ≡ limit_of_parts (word_of text.now) (rest_of text.now) }
{
    match text.split_once(' ') {
        None => None,
        Some((word, rest)) => match word {
            "limit" => read_positive(rest),
            _ => None,
        },
    }
}

/// The limit that the line sets, if it sets one.
fn read_limit(line: &[u8]) -> Option<usize>
    ensures { result ≡ limit_in line.now }
{
    read_limit_text(text_of(line)?)
}

/// The first line, without its line feed, and the rest from there on.
fn split_first_line(input: &[u8]) -> (&[u8], &[u8])
    ensures line { result.0.now ≡ before_first is_line_feed input.now }
    ensures rest { result.1.now ≡ drop (position_or_len is_line_feed input.now) input.now }
{
    match first_line_feed(input) {
        Some(end) => input.split_at(end),
        None => input.split_at(input.len()),
    }
}

/// Cuts the first line off a text that isn't empty: the line, without its line feed, and what comes
/// after it. It takes no memory.
///
/// ```rust
/// let (line, rest) = cut_line(b"00\nf6\n");
/// assert!(rt; line == b"00".as_slice() && rest == b"f6\n".as_slice());
/// ```
pub fn cut_line(text: &[u8]) -> (&[u8], &[u8])
    ensures lines { 0 < length text.now
        → each_line text.now ≡ result.0.now ∷ each_line result.1.now }
    ensures shorter { 0 < length text.now → length result.1.now < length text.now }
{
    match first_line_feed(text) {
        Some(end) => (&text[..end], &text[end + 1..]),
        None => (text, &[]),
    }
}

/// Splits an input into the limit that its first line sets, if it sets one, and the lines of calls:
/// a first line that sets a limit is emptied. It takes no memory.
pub fn split_limit(input: &[u8]) -> (Option<usize>, &[u8])
    ensures limit { result.0 ≡ limit_of input.now }
    ensures body { result.1.now ≡ body_of input.now }
    ensures positive { IsLimit result.0 }
{
    let (line, rest) = split_first_line(input);
    match read_limit(line) {
        Some(limit) => (Some(limit), rest),
        None => (None, input),
    }
}
