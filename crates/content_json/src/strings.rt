//! Texts in quotes.

ghost use Rattle.std.specs.Prelude.{◌≡◌, ◌<◌, ◌++◌, true, length, flat_map, position, OnOk, encode_utf8};
ghost use Rattle.std.specs.Option.{IfSome, MatchOption};
ghost use Rattle.std.specs.Char.{digit_char};
ghost use Rattle.std.specs.String.{string_bytes};
ghost use Rattle.content_json.specs.Strings.{escaped, has_escape, quoted};

use std::alloc::AllocError;

/// Appends a text in quotes.
pub(crate) fn write_text(text: &str, out: &mut String) -> Result<(), AllocError>
    ensures { OnOk result (string_bytes out.new ≡ string_bytes out.old ++ quoted text.now) }
{
    out.push('"')?;
    write_escaped(text, out)?;
    out.push('"')
}

/// Appends a character in quotes.
pub(crate) fn write_char(character: char, out: &mut String) -> Result<(), AllocError>
    ensures { OnOk result (string_bytes out.new ≡ string_bytes out.old
        ++ quoted (encode_utf8 character)) }
{
    let mut buffer = [0; 4];
    write_text(character.encode_utf8(&mut buffer), out)
}

fn write_escaped(text: &str, out: &mut String) -> Result<(), AllocError>
    ensures { OnOk result (string_bytes out.new ≡ string_bytes out.old
        ++ flat_map escaped text.now) }
{
    let mut rest = text;
    while let Some((plain, byte, after)) = split_at_escape(rest) {
        out.push_str(plain)?;
        write_escape(byte, out)?;
        rest = after;
    }
    out.push_str(rest)
}

/// What is written as it is, the first byte that isn't, and what follows it.
fn split_at_escape(text: &str) -> Option<(&str, u8, &str)>
    ensures written { MatchOption result (flat_map escaped text.now ≡ text.now)
        (λ cut. flat_map escaped text.now
        ≡ cut.0.now ++ (escaped cut.1 ++ flat_map escaped cut.2.now)) }
    ensures escape { IfSome result (λ cut. has_escape cut.1 ≡ true) }
    ensures shorter { IfSome result (λ cut. length cut.2.now < length text.now) }
{
    let at = first_escape(text)?;
    Some((&text[..at], text.as_bytes()[at], &text[at + 1..]))
}

fn first_escape(text: &str) -> Option<usize>
    ensures { result ≡ position has_escape text.now }
{
    text.as_bytes().iter().position(|byte| has_escape(*byte))
}

/// Whether a byte is written as anything but itself. It is a character of its own, so a text may be
/// cut before it and after it.
pub(crate) fn has_escape(byte: u8) -> bool
    ensures { result ≡ has_escape byte }
{
    byte < b' ' || byte == b'"' || byte == b'\\'
}

fn write_escape(byte: u8, out: &mut String) -> Result<(), AllocError>
    requires { has_escape byte ≡ true }
    ensures { OnOk result (string_bytes out.new ≡ string_bytes out.old ++ escaped byte) }
{
    match byte {
        b'"' => out.push_str("\\\""),
        b'\\' => out.push_str("\\\\"),
        0x08 => out.push_str("\\b"),
        b'\t' => out.push_str("\\t"),
        b'\n' => out.push_str("\\n"),
        0x0c => out.push_str("\\f"),
        b'\r' => out.push_str("\\r"),
        _ => {
            out.push_str("\\u00")?;
            out.push(hex_digit(byte / 16))?;
            out.push(hex_digit(byte % 16))
        }
    }
}

fn hex_digit(digit: u8) -> char
    requires { digit < 16 }
    ensures { result ≡ digit_char digit }
{
    if digit < 10 {
        char::from(b'0' + digit)
    } else {
        char::from(b'a' + (digit - 10))
    }
}
