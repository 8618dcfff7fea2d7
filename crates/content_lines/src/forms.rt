//! The arguments after the word of a line.

ghost use Rattle.std.specs.Prelude.{◌≡◌, MatchOption, None, Some, true, false};
ghost use Rattle.content_lines.specs.Forms.{boolean_of, character_of, octets_of, is_name, pair_of};
ghost use Rattle.content_lines.specs.Forms.{variant_start_of, variant_of, named_length_of};
ghost use Rattle.content_lines.specs.Forms.{variant_length_of};
ghost use Rattle.content_lines.specs.Numerals.{unhex};
ghost use Rattle.content_lines.specs.Views.{variant_parts};
ghost use Rattle.serde_content.specs.Names.Event as event;

use crate::line::Variant;
use crate::{hex, numbers};

/// `true` or `false`.
pub fn read_bool(text: &str) -> Option<bool>
    ensures { MatchOption result (boolean_of text.now ≡ None)
        (λ b. boolean_of text.now ≡ Some (event.boolean b)) }
{
    match text {
        "true" => Some(true),
        "false" => Some(false),
        _ => None,
    }
}

/// One printable character of ASCII.
pub fn read_char(text: &str) -> Option<char>
    ensures { MatchOption result (character_of text.now ≡ None)
        (λ c. character_of text.now ≡ Some (event.character c)) }
{
    match text.as_bytes() {
        [c @ 32..=126] => Some(*c as char),
        _ => None,
    }
}

/// Pairs of lower-case hexadecimal digits.
pub fn read_bytes(text: &str) -> Option<&[u8]>
    ensures { MatchOption result (octets_of text.now ≡ None)
        (λ digits. octets_of text.now ≡ Some (event.octets (unhex digits.now))) }
{
    if hex::is_lower_paired(text.as_bytes()) {
        Some(text.as_bytes())
    } else {
        None
    }
}

/// One of the names that a line may cite, for as long as the program runs.
pub fn read_name(text: &str) -> Option<&'static str>
    ensures { MatchOption result (is_name text.now ≡ false)
        (λ n. (is_name text.now ≡ true) × (n.now ≡ text.now)) }
{
    match text {
        "Foo" => Some("Foo"),
        "Bar" => Some("Bar"),
        "Baz" => Some("Baz"),
        "Point" => Some("Point"),
        "bar" => Some("bar"),
        "baz" => Some("baz"),
        "x" => Some("x"),
        "y" => Some("y"),
        _ => None,
    }
}

/// What comes before and after the first space.
fn split_pair(text: &str) -> Option<(&str, &str)>
    ensures { MatchOption result (pair_of text.now ≡ None)
        (λ p. pair_of text.now ≡ Some (p.0.now, p.1.now)) }
{
    text.split_once(' ')
}

/// A name and a length: `N n`.
pub fn read_named_length(text: &str) -> Option<(&'static str, usize)>
    ensures { MatchOption result (named_length_of text.now ≡ None)
        (λ p. named_length_of text.now ≡ Some (p.0.now, p.1)) }
{
    let (name, len) = split_pair(text)?;
    Some((read_name(name)?, numbers::read_usize(len)?))
}

/// A name and an index, with what comes after them: `N i ..`.
fn read_head(text: &str) -> Option<(&'static str, u32, &str)>
    ensures { MatchOption result (variant_start_of text.now ≡ None)
        (λ h. variant_start_of text.now ≡ Some
        (record { name = h.0.now; index = h.1; rest = h.2.now })) }
{
    let (name, rest) = split_pair(text)?;
    let (index, rest) = split_pair(rest)?;
    Some((read_name(name)?, numbers::read_u32(index)?, rest))
}

/// A variant: `N i V`.
pub fn read_variant(text: &str) -> Option<Variant>
    ensures { MatchOption result (variant_of text.now ≡ None)
        (λ v. variant_of text.now ≡ Some (variant_parts v)) }
{
    let (name, index, rest) = read_head(text)?;
    let variant = read_name(rest)?;
    Some(Variant {
        name,
        index,
        variant,
    })
}

/// A variant and a length: `N i V n`.
pub fn read_variant_length(text: &str) -> Option<(Variant, usize)>
    ensures { MatchOption result (variant_length_of text.now ≡ None)
        (λ p. variant_length_of text.now ≡ Some (variant_parts p.0, p.1)) }
{
    let (name, index, rest) = read_head(text)?;
    let (variant, len) = read_named_length(rest)?;
    Some((
        Variant {
            name,
            index,
            variant,
        },
        len,
    ))
}
