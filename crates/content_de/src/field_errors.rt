//! Errors of keys that are left over.

ghost use Rattle.std.specs.Prelude.{◌≡◌, ◌≢◌, map};
ghost use Rattle.std.specs.List.{list_any};
ghost use Rattle.std.specs.Str.{bytes_eq};
ghost use Rattle.content_tree.specs.Errors.Cause.{nameless, out_of_memory};
ghost use Rattle.content_tree.specs.Values.Value.{tree_of};
ghost use Rattle.content_tree.specs.declared.expected.Expected.TheVariants as want;
ghost use Rattle.content_de.specs.Outcomes.{cause, mismatch};
ghost use Rattle.content_de.specs.Sources.Origin.{of_tree};
ghost use Rattle.content_de.specs.Reads.ByName.{duplicate_field, other_key, other_name};
ghost use Rattle.content_de.specs.Reads.ByName.{unknown_field};

use crate::deserializer::Deserializer;
use crate::unknown_names::unknown_text;
use content_tree::{Error, ErrorKind, Expected, NamedValue};
use std::alloc::Global;

/// The error of a key that is left.
pub(crate) fn other_key(alloc: Global, key: NamedValue<'_, '_>, known: &[&str]) -> Error
    ensures { cause result ≢ out_of_memory
        → cause result ≡ other_key (map (λ name. name.now) known.now) (tree_of key.entry) }
{
    match key {
        NamedValue::String(name) => other_name(alloc, name.as_str(), known),
        other => no_name(alloc, other),
    }
}

/// The error of a key that is no text.
#[cold]
#[inline(never)]
pub(crate) fn no_name(alloc: Global, key: NamedValue<'_, '_>) -> Error
    ensures { cause result ≢ out_of_memory
        → cause result ≡ mismatch (of_tree (tree_of key.entry)) (nameless want.String) }
{
    Deserializer::new(key).unexpected(alloc, Expected::String)
}

/// The error of a name that is left.
pub(crate) fn other_name(alloc: Global, name: &str, known: &[&str]) -> Error
    ensures { cause result ≢ out_of_memory
        → cause result ≡ other_name (map (λ name. name.now) known.now) name.now }
{
    if is_among(name, known) {
        duplicate_field(alloc, name)
    } else {
        unknown_field(alloc, name, known)
    }
}

/// Whether the name is one of these.
fn is_among(name: &str, known: &[&str]) -> bool
    ensures { result ≡ list_any (λ one. bytes_eq name.now one) (map (λ one. one.now) known.now) }
{
    for other in known {
        if name == *other {
            return true;
        }
    }
    false
}

/// The error of a name that is none of these.
#[cold]
#[inline(never)]
fn unknown_field(alloc: Global, name: &str, known: &[&str]) -> Error
    ensures { cause result ≢ out_of_memory
        → cause result ≡ unknown_field name.now (map (λ name. name.now) known.now) }
{
    match unknown_text(alloc, "field", "there are no fields", name, known) {
        Ok(text) => Error::from(ErrorKind::Custom(text)),
        Err(refused) => Error::from(refused),
    }
}

/// The error of a second entry of a name.
#[cold]
#[inline(never)]
pub(crate) fn duplicate_field(alloc: Global, name: &str) -> Error
    ensures { cause result ≢ out_of_memory → cause result ≡ duplicate_field name.now }
{
    match format!(in alloc; "duplicate field `{name}`") {
        Ok(text) => Error::from(ErrorKind::Custom(text)),
        Err(refused) => Error::from(refused),
    }
}
