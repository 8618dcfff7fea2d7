//! Texts in quotes.

#![tactic(auto, using(crate::proofs::Printing::two_writes, crate::proofs::Printing::three_writes, crate::proofs::Printing::four_writes))]

ghost use Rattle.std.specs.Prelude.{◌≡◌, ◌<◌, ◌++◌, true, length, flat_map, position};
ghost use Rattle.std.specs.Option.{IfSome, MatchOption};
ghost use Rattle.std.specs.Str.{chars};
ghost use Rattle.std.specs.Fmt.{WritesStyledOnOk};
ghost use Rattle.content_tree.specs.Printed.Images.{quoted, escaped};
ghost use Rattle.content_tree.specs.Printed.Escapes.{has_escape};

use crate::display::write_bare;
use std::fmt;

/// Writes a text as Rust's debug form has it for ASCII; past ASCII a character stays as it is.
pub(crate) fn write_quoted<W: fmt::Write>(text: &str, f: &mut fmt::Formatter<W>) -> fmt::Result
    ensures { WritesStyledOnOk W.write_str_gives f.old result (quoted text.now) f.new }
{
    f.write_str("\"")?;
    write_escaped(text, f)?;
    f.write_str("\"")
}

fn write_escaped<W: fmt::Write>(text: &str, f: &mut fmt::Formatter<W>) -> fmt::Result
    ensures { WritesStyledOnOk W.write_str_gives f.old result
        (flat_map escaped (chars text.now)) f.new }
{
    let mut rest = text;
    while let Some((plain, byte, after)) = split_at_escape(rest) {
        f.write_str(plain)?;
        write_escape(byte, f)?;
        rest = after;
    }
    f.write_str(rest)
}

/// What is printed as it is, the first character that isn't, and what follows it.
fn split_at_escape(text: &str) -> Option<(&str, u8, &str)>
    ensures printed { MatchOption result (flat_map escaped (chars text.now) ≡ text.now)
        (λ cut. flat_map escaped (chars text.now)
        ≡ cut.0.now ++ (escaped cut.1 ++ flat_map escaped (chars cut.2.now))) }
    ensures escape { IfSome result (λ cut. has_escape cut.1 ≡ true) }
    ensures shorter { IfSome result (λ cut. length cut.2.now < length text.now) }
{
    let at = first_escape(text)?;
    Some((&text[..at], text.as_bytes()[at], &text[at + 1..]))
}

fn first_escape(text: &str) -> Option<usize>
    ensures { result ≡ position has_escape text.now }
{
    text.as_bytes().iter().position(|byte| has_escape(*byte))
}

/// A byte that has one is a character of its own, so a text may be cut before it and after it.
fn has_escape(byte: u8) -> bool
    ensures { result ≡ has_escape byte }
{
    byte < b' ' || byte == b'"' || byte == b'\\' || byte == 127
}

fn write_escape<W: fmt::Write>(byte: u8, f: &mut fmt::Formatter<W>) -> fmt::Result
    requires { has_escape byte ≡ true }
    ensures { WritesStyledOnOk W.write_str_gives f.old result (escaped byte) f.new }
{
    match byte {
        b'"' => f.write_str("\\\""),
        b'\\' => f.write_str("\\\\"),
        b'\t' => f.write_str("\\t"),
        b'\n' => f.write_str("\\n"),
        b'\r' => f.write_str("\\r"),
        0 => f.write_str("\\0"),
        _ => write_bare(format_args!("\\u{{{byte:x}}}"), f),
    }
}
