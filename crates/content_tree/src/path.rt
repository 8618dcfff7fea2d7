//! Where in a value something was refused: the path of an error, and its text with the path.

#![tactic(auto, using(crate::proofs::Printing::two_writes, crate::proofs::Printing::three_writes, crate::proofs::Printing::four_writes))]

ghost use Rattle.std.specs.Prelude.{◌≡◌, ◌++◌, ◌∷◌, [], ◌<◌, Some, None, option_map, codes, length, true};
ghost use Rattle.std.specs.Prelude.{position};
ghost use Rattle.std.specs.List.{list_all};
ghost use Rattle.std.specs.Option.{IfSome, MatchOption};
ghost use Rattle.std.specs.Fmt.{WritesStyledOnOk};
ghost use Rattle.content_tree.specs.Values.Paths.{escape, escaped};
ghost use Rattle.content_tree.specs.Errors.Kind.{kind_of};
ghost use Rattle.content_tree.specs.Errors.Where.{place_of, places_of, places, path_places};
ghost use Rattle.content_tree.specs.Errors.Where.{located_error, trail_places, IsInside};
ghost use Rattle.content_tree.specs.Errors.Where.{item, under};
ghost use Rattle.content_tree.specs.Printed.Paths.{place_text, path_text, is_word_byte, is_word};
ghost use Rattle.content_tree.specs.Printed.Paths.{written_place, written_path, written_where};
ghost use Rattle.content_tree.specs.Printed.Paths.{short_text, located_text, is_special};

use crate::display::write_bare;
use crate::error::{Error, ErrorKind};
use crate::quote::write_quoted;
use crate::trail::{Step, Trail};
use std::alloc::Global;
use std::fmt;
use std::fmt::Display;

/// The path to what was refused. It prints as a JSON Pointer (RFC 6901), such as `/servers/3/port`;
/// the path of the whole value prints nothing. [`NamedValue::pointer`](crate::NamedValue::pointer)
/// can follow it if each key on it is a text that no later key equals, and it doesn't lead through
/// `Some` or a newtype struct.
#[derive(Drop)]
pub struct Path<'e> {
    trail: &'e Trail,
}

/// An error that prints with its path. [`Error::located`] gives it.
#[derive(Drop)]
pub struct Located<'e> {
    error: &'e Error,
}

impl Error {
    /// The path from the value that was read to what was refused, or to what contains that. It is
    /// `None` if memory ran out while the path was made. This takes no memory.
    ///
    /// `==`, the order and the printed text of an error ignore the path.
    ///
    /// ```rust
    /// let error = Error::custom(alloc, "too many").at_index(alloc, 3).at_name(alloc, "servers");
    /// let path = error.path().unwrap();
    /// assert_eq!(rt; format!(in alloc; "{path}")?.as_str(), "/servers/3");
    /// ```
    pub fn path(&self) -> Option<Path<'_>>
        ensures { option_map path_places result ≡ places self.now }
    {
        match &self.trail {
            Trail::Unknown => None,
            trail => Some(Path { trail }),
        }
    }

    /// The error as it prints with its path: `servers[3].port: expected a string, found true`. This
    /// takes no memory; what it is printed into may.
    pub fn located(&self) -> Located<'_>
        ensures { located_error result ≡ self.now }
    {
        Located { error: self }
    }

    /// The same error, with this index put before its path: for an error of an item of a sequence,
    /// a tuple or the like. The path takes memory; if there is none, the error has no path.
    #[cold]
    #[inline(never)]
    pub fn at_index(self, alloc: Global, index: usize) -> Error
        ensures kind { kind_of result ≡ kind_of self }
        ensures path { IsInside (item index) (places self) (places result) }
    {
        let (kind, trail) = self.into_parts();
        Error::at(kind, trail.in_item(alloc, index))
    }

    /// The same error, with this name put before its path: for an error of a field, of the value of
    /// a key, or of what a variant holds. The path takes memory; if there is none, the error has no
    /// path.
    #[cold]
    #[inline(never)]
    pub fn at_name(self, alloc: Global, name: &str) -> Error
        ensures kind { kind_of result ≡ kind_of self }
        ensures path { IsInside (under name.now) (places self) (places result) }
    {
        let (kind, trail) = self.into_parts();
        Error::at(kind, trail.in_named(alloc, name))
    }

    /// The same error, without a path. It takes no memory.
    #[cold]
    #[inline(never)]
    pub fn at_unknown(self) -> Error
        ensures kind { kind_of result ≡ kind_of self }
        ensures path { places result ≡ None }
    {
        Error::at(self.into_kind(), Trail::Unknown)
    }

    /// The same error, with the path of the whole value. It takes no memory.
    #[cold]
    #[inline(never)]
    pub fn at_whole(self) -> Error
        ensures kind { kind_of result ≡ kind_of self }
        ensures path { places result ≡ Some [] }
    {
        Error::at(self.into_kind(), Trail::Here)
    }
}

impl fmt::Display for Path<'_> {
    ghost output = { λ path. Some (path_text (path_places path)) };

    ghost styled_output = { λ path _options. Some (path_text (path_places path)) };

    fn fmt<W: fmt::Write>(&self, f: &mut fmt::Formatter<W>) -> fmt::Result {
        match self.trail {
            Trail::Steps(steps) => write_path(steps, f),
            _ => Ok(()),
        }
    }
}

impl fmt::Display for Located<'_> {
    ghost output = { λ located. Some (located_text (located_error located)) };

    ghost styled_output = { λ located _options. Some (located_text (located_error located)) };

    fn fmt<W: fmt::Write>(&self, f: &mut fmt::Formatter<W>) -> fmt::Result {
        write_where(&self.error.trail, f)?;
        write_short(self.error.kind(), f)
    }
}

/// Writes steps as a JSON Pointer.
fn write_path<W: fmt::Write>(steps: &Vec<Step>, f: &mut fmt::Formatter<W>) -> fmt::Result
    ensures { WritesStyledOnOk W.write_str_gives f.old result
        (path_text (places_of steps.now.items)) f.new }
{
    let mut left = steps.len();
    while left > 0 {
        left -= 1;
        write_step(&steps[left], f)?;
    }
    Ok(())
}

/// Writes a step of a JSON Pointer.
fn write_step<W: fmt::Write>(step: &Step, f: &mut fmt::Formatter<W>) -> fmt::Result
    ensures { WritesStyledOnOk W.write_str_gives f.old result
        (place_text (place_of step.now)) f.new }
{
    match step {
        Step::Index(index) => write_bare(format_args!("/{index}"), f),
        Step::Name(name) => {
            f.write_str("/")?;
            write_part(name.as_str(), f)
        }
    }
}

/// Writes a name as a part of a JSON Pointer: `~0` for `~`, `~1` for `/`.
fn write_part<W: fmt::Write>(name: &str, f: &mut fmt::Formatter<W>) -> fmt::Result
    ensures { WritesStyledOnOk W.write_str_gives f.old result (escape name.now) f.new }
{
    let mut rest = name;
    while let Some((plain, byte, after)) = split_at_special(rest) {
        f.write_str(plain)?;
        f.write_str(escape(byte))?;
        rest = after;
    }
    f.write_str(rest)
}

/// How a part of a JSON Pointer spells a byte that it escapes.
fn escape(byte: u8) -> &'static str
    requires { is_special byte ≡ true }
    ensures { result.now ≡ escaped byte }
{
    if byte == b'~' { "~0" } else { "~1" }
}

/// The text before the first byte that is escaped, that byte, and the text after it.
fn split_at_special(text: &str) -> Option<(&str, u8, &str)>
    ensures spelt { MatchOption result (escape text.now ≡ text.now)
        (λ cut. escape text.now ≡ cut.0.now ++ (escaped cut.1 ++ escape cut.2.now)) }
    ensures special { IfSome result (λ cut. is_special cut.1 ≡ true) }
    ensures shorter { IfSome result (λ cut. length cut.2.now < length text.now) }
{
    let at = first_special(text)?;
    Some((&text[..at], text.as_bytes()[at], &text[at + 1..]))
}

/// The index of the first byte that is escaped.
fn first_special(text: &str) -> Option<usize>
    ensures { result ≡ position is_special text.now }
{
    text.as_bytes()
        .iter()
        .position(|byte| *byte == b'~' || *byte == b'/')
}

/// Writes the path and a colon, unless the path is unknown or that of the whole value.
#[tactic(auto, using(crate::proofs::Paths::where_inside, crate::proofs::Printing::two_writes))]
fn write_where<W: fmt::Write>(trail: &Trail, f: &mut fmt::Formatter<W>) -> fmt::Result
    ensures { WritesStyledOnOk W.write_str_gives f.old result
        (written_where (trail_places trail.now)) f.new }
{
    match trail {
        Trail::Steps(steps) if !steps.is_empty() => {
            write_readable(steps, f)?;
            f.write_str(": ")
        }
        _ => Ok(()),
    }
}

/// Writes steps as in `servers[3].port`.
fn write_readable<W: fmt::Write>(steps: &Vec<Step>, f: &mut fmt::Formatter<W>) -> fmt::Result
    ensures { WritesStyledOnOk W.write_str_gives f.old result
        (written_path [] (places_of steps.now.items)) f.new }
{
    let mut lead = "";
    let mut left = steps.len();
    while left > 0 {
        left -= 1;
        write_readable_step(lead, &steps[left], f)?;
        lead = ".";
    }
    Ok(())
}

/// Writes a step: a word after this lead, an index or any other name in brackets.
fn write_readable_step<W: fmt::Write>(
    lead: &str,
    step: &Step,
    f: &mut fmt::Formatter<W>,
) -> fmt::Result
    ensures { WritesStyledOnOk W.write_str_gives f.old result
        (written_place lead.now (place_of step.now)) f.new }
{
    match step {
        Step::Index(index) => write_bare(format_args!("[{index}]"), f),
        Step::Name(name) => write_name(lead, name.as_str(), f),
    }
}

/// Writes a name: a word after this lead, any other in quotes and brackets.
fn write_name<W: fmt::Write>(lead: &str, name: &str, f: &mut fmt::Formatter<W>) -> fmt::Result
    ensures { WritesStyledOnOk W.write_str_gives f.old result
        (written_place lead.now (under name.now)) f.new }
{
    if is_word(name) {
        f.write_str(lead)?;
        f.write_str(name)
    } else {
        f.write_str("[")?;
        write_quoted(name, f)?;
        f.write_str("]")
    }
}

/// Whether a name needs no brackets.
fn is_word(name: &str) -> bool
    ensures { result ≡ is_word name.now }
{
    !name.is_empty() && are_word_bytes(name.as_bytes())
}

fn are_word_bytes(bytes: &[u8]) -> bool
    ensures { result ≡ list_all is_word_byte bytes.now }
{
    bytes.iter().all(|byte| is_word_byte(*byte))
}

fn is_word_byte(byte: u8) -> bool
    ensures { result ≡ is_word_byte byte }
{
    byte.is_ascii_alphanumeric() || (byte == b'_' || byte == b'-')
}

/// Writes a kind of error, without the words that it begins with if something else was expected.
fn write_short<W: fmt::Write>(kind: &ErrorKind, f: &mut fmt::Formatter<W>) -> fmt::Result
    ensures { WritesStyledOnOk W.write_str_gives f.old result (short_text kind.now) f.new }
{
    match kind {
        ErrorKind::Unexpected { found, expected } => {
            f.write_str("expected ")?;
            expected.fmt(f)?;
            f.write_str(", found ")?;
            found.fmt(f)
        }
        other => other.fmt(f),
    }
}
