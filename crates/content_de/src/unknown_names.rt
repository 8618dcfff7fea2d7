//! Errors of names that are none of those that are known.

ghost use Rattle.std.specs.Prelude.{◌≡◌, ◌≢◌, ◌++◌, IfOk, map, string_bytes};
ghost use Rattle.content_tree.specs.Errors.Cause.{out_of_memory};
ghost use Rattle.content_de.specs.Outcomes.{cause};
ghost use Rattle.content_de.specs.Reads.Paths.{IsWhole};
ghost use Rattle.content_de.specs.Reads.Names.{joined, opening, quoted, separator, unknown_text};
ghost use Rattle.content_de.specs.Reads.Own.{unknown_variant};

use content_tree::{Error, ErrorKind};
use std::alloc::{AllocError, Global};

/// Makes the error of a tag that is the name of no variant, for an enum of your own that has these:
/// ``unknown variant `NAME`, expected one of `A`, `B`, `C` ``; or out of memory.
#[cold]
#[inline(never)]
pub fn unknown_variant(alloc: Global, name: &str, known: &[&str]) -> Error
    ensures cause { cause result ≢ out_of_memory
        → cause result ≡ unknown_variant name.now (map (λ name. name.now) known.now) }
    ensures path { IsWhole result }
{
    match unknown_text(alloc, "variant", "there are no variants", name, known) {
        Ok(text) => Error::from(ErrorKind::Custom(text)),
        Err(refused) => Error::from(refused),
    }
}

/// The text of such an error, of a name of this sort, and how it tells that there are none.
pub(crate) fn unknown_text(
    alloc: Global,
    sort: &str,
    none: &'static str,
    name: &str,
    known: &[&str],
) -> std::result::Result<String, AllocError>
    ensures { IfOk result (λ text. string_bytes text
        ≡ unknown_text sort.now none.now name.now (map (λ name. name.now) known.now)) }
{
    let begin = opening(none, known.len());
    let mut text = format!(in alloc; "unknown {sort} `{name}`, {begin}")?;
    push_names(&mut text, separator(known.len()), known)?;
    Ok(text)
}

/// How a list of this many names begins, or that there are none.
fn opening(none: &'static str, count: usize) -> &'static str
    ensures { result.now ≡ opening none.now count }
{
    if count == 0 {
        none
    } else if count < 3 {
        "expected "
    } else {
        "expected one of "
    }
}

/// What comes between two of this many names.
fn separator(count: usize) -> &'static str
    ensures { result.now ≡ separator count }
{
    if count == 2 { " or " } else { ", " }
}

/// Writes the names between quotes, with this between them.
fn push_names(
    text: &mut String,
    between: &str,
    names: &[&str],
) -> std::result::Result<(), AllocError>
    ensures { IfOk result (λ u. string_bytes text.new
        ≡ string_bytes text.old ++ joined between.now (map (λ name. name.now) names.now)) }
{
    if let Some((first, others)) = names.split_first() {
        push_quoted(text, first)?;
        for other in others {
            text.push_str(between)?;
            push_quoted(text, other)?;
        }
    }
    Ok(())
}

/// Writes a name between quotes.
fn push_quoted(text: &mut String, name: &str) -> std::result::Result<(), AllocError>
    ensures { IfOk result (λ u. string_bytes text.new ≡ string_bytes text.old ++ quoted name.now) }
{
    text.push_str("`")?;
    text.push_str(name)?;
    text.push_str("`")
}
