//! Fields read by name, in any order, and the end of fields.

ghost use Rattle.std.specs.Prelude.{◌≡◌, ◌≢◌, Some, None, IfErr, IsOk, ⊤, map};
ghost use Rattle.content_tree.specs.Errors.Cause.{out_of_memory};
ghost use Rattle.content_tree.specs.Errors.Where.{under};
ghost use Rattle.content_tree.specs.Values.Text.{text_of};
ghost use Rattle.content_de.specs.Outcomes.{Answers, cause};
ghost use Rattle.content_de.specs.Sources.Deserializer.{subject};
ghost use Rattle.content_de.specs.Reads.Tagged.{tag_at};
ghost use Rattle.content_de.specs.Accesses.ByName.{field_named, fields_left, without_field};
ghost use Rattle.content_de.specs.Accesses.ByName.{buffered_fields, left_over, ArePairsLeft};
ghost use Rattle.content_de.specs.Reads.Paths.{BeginsWith, IsFoundAt, IsWhole};
ghost use Rattle.content_de.specs.Reads.Read.{Reads};
ghost use Rattle.content_de.specs.Reads.ByName.{found_refusal, FoundGives, FoundMemoryless};
ghost use Rattle.content_de.specs.Reads.ByName.{missing_field};
ghost use Rattle.content_de.specs.Reads.ByName.{no_others, others_skipped};

use crate::by_name::FieldsByName;
use crate::deserialize::Deserialize;
use crate::deserializer::Deserializer;
use crate::field_errors::duplicate_field;
use content_tree::{CowStr, Error, ErrorKind, Result};
use std::alloc::Global;

/// Reads the field of this name, wherever it is, for a type of your own. The entry is taken away
/// also where its reading is refused. Only the type and a refusal take memory.
///
/// # Errors
///
/// That of the type's first refusal; where there is none of that name ``missing field `NAME` ``;
/// out of memory in its place.
pub fn named_field<'de, 'n: 'de, T: Deserialize<'de>>(
    alloc: Global,
    from: &mut FieldsByName<'de, 'n>,
    name: &str,
) -> Result<T>
    ensures value { Reads
        (found_refusal (Some (missing_field name.now)) T.refusal
        (field_named name.now (fields_left from.old)))
        (FoundGives (λ a. ⊥) T.gives (field_named name.now (fields_left from.old))) result }
    ensures succeeds { FoundMemoryless ⊥ T.memoryless (field_named name.now (fields_left from.old))
        → IsOk result }
    ensures path { IfErr result (λ e. IsFoundAt (under name.now)
        (field_named name.now (fields_left from.old)) e) }
    ensures rest { fields_left from.new ≡ without_field name.now (fields_left from.old) }
    ensures pairs { ArePairsLeft from.old → ArePairsLeft from.new }
{
    match from.take_named(name) {
        Some(field) => field.deserialize_field(alloc, name),
        None => Err(missing_field(alloc, name)),
    }
}

/// Reads the field of this name, or gives this value where there is none. Only the type and a
/// refusal take memory.
///
/// # Errors
///
/// That of the type's first refusal; out of memory in its place.
pub fn field_or<'de, 'n: 'de, T: Deserialize<'de>>(
    alloc: Global,
    from: &mut FieldsByName<'de, 'n>,
    name: &str,
    missing: T,
) -> Result<T>
    ensures value { Reads
        (found_refusal None T.refusal (field_named name.now (fields_left from.old)))
        (FoundGives (λ a. a ≡ missing) T.gives
        (field_named name.now (fields_left from.old))) result }
    ensures succeeds { FoundMemoryless ⊤ T.memoryless (field_named name.now (fields_left from.old))
        → IsOk result }
    ensures path { IfErr result (λ e. BeginsWith (under name.now) e) }
    ensures rest { fields_left from.new ≡ without_field name.now (fields_left from.old) }
    ensures pairs { ArePairsLeft from.old → ArePairsLeft from.new }
{
    match from.take_named(name) {
        Some(value) => value.deserialize_field(alloc, name),
        None => Ok(missing),
    }
}

/// Reads the text of the field of this name, for an enum of your own that it tags. Only a refusal
/// takes memory.
///
/// # Errors
///
/// What was found where it is no text; where there is no such field ``missing field `NAME` ``; out
/// of memory in its place.
pub fn tag_field<'de, 'n: 'de>(
    alloc: Global,
    from: &mut FieldsByName<'de, 'n>,
    name: &str,
) -> Result<CowStr<'de>>
    ensures value { Answers text_of (tag_at name.now (fields_left from.old)) result }
    ensures path { IfErr result (λ e. IsFoundAt (under name.now)
        (field_named name.now (fields_left from.old)) e) }
    ensures rest { fields_left from.new ≡ without_field name.now (fields_left from.old) }
    ensures pairs { ArePairsLeft from.old → ArePairsLeft from.new }
{
    match from.take_named(name) {
        Some(value) => match value.deserialize_str(alloc) {
            Ok(tag) => Ok(tag),
            Err(error) => Err(error.at_name(alloc, name)),
        },
        None => Err(missing_field(alloc, name)),
    }
}

/// The same, where the tag is internal, as Serde says: the other fields are then read out of a
/// [buffer](crate::Deserializer::buffered).
///
/// # Errors
///
/// As those of [`tag_field`].
pub fn internal_tag<'de, 'n: 'de>(
    alloc: Global,
    from: &mut FieldsByName<'de, 'n>,
    name: &str,
) -> Result<CowStr<'de>>
    ensures value { Answers text_of (tag_at name.now (fields_left from.old)) result }
    ensures path { IfErr result (λ e. IsFoundAt (under name.now)
        (field_named name.now (fields_left from.old)) e) }
    ensures rest { fields_left from.new
        ≡ buffered_fields (without_field name.now (fields_left from.old)) }
    ensures pairs { ArePairsLeft from.old → ArePairsLeft from.new }
{
    let tag = tag_field(alloc, from, name);
    from.buffer();
    tag
}

/// Ends the reading of fields by name, for a type of your own that ignores others: no entry that is
/// left may have a name of `known` again. Only the text of an error takes memory.
///
/// # Errors
///
/// The first of these names that an entry has: ``duplicate field `NAME` ``; out of memory in its
/// place.
#[inline(always)]
pub fn ignore_unknown_fields(
    alloc: Global,
    from: FieldsByName<'_, '_>,
    known: &[&str],
) -> Result<()>
    ensures value { Reads
        (others_skipped (map (λ name. name.now) known.now) (fields_left from.entry))
        (λ u. ⊤) result }
    ensures succeeds { others_skipped (map (λ name. name.now) known.now) (fields_left from.entry)
        ≡ None → IsOk result }
{
    if from.is_empty() {
        drop(from);
        return Ok(());
    }
    let answer = none_again(alloc, &from, known);
    drop(from);
    answer
}

/// Ends the reading of fields by name, for a type of your own that keeps others: gives what is
/// left, to be read as a map out of a [buffer](Deserializer::buffered), as Serde reads it. No entry
/// that is left may have a name of `known` again. It takes no memory where they are the pairs of a
/// map.
///
/// # Errors
///
/// The first of these names that an entry has: ``duplicate field `NAME` ``; out of memory, where an
/// allocation failed.
pub fn keep_unknown_fields<'de, 'n: 'de>(
    alloc: Global,
    from: FieldsByName<'de, 'n>,
    known: &[&str],
) -> Result<Deserializer<'de, 'n>>
    ensures value { Reads
        (others_skipped (map (λ name. name.now) known.now) (fields_left from.entry))
        (λ d. subject d ≡ left_over (fields_left from.entry)) result }
    ensures succeeds { others_skipped (map (λ name. name.now) known.now) (fields_left from.entry)
        ≡ None → ArePairsLeft from.entry → IsOk result }
{
    match none_again(alloc, &from, known) {
        Ok(()) => Ok(from.rest(alloc)?.buffered()),
        Err(error) => {
            drop(from);
            Err(error)
        }
    }
}

/// The refusal of the first of these names that an entry has.
#[inline(never)]
fn none_again(alloc: Global, from: &FieldsByName<'_, '_>, known: &[&str]) -> Result<()>
    ensures value { Reads
        (others_skipped (map (λ name. name.now) known.now) (fields_left from.now))
        (λ u. ⊤) result }
    ensures succeeds { others_skipped (map (λ name. name.now) known.now) (fields_left from.now)
        ≡ None → IsOk result }
{
    for name in known {
        if from.has(name) {
            return Err(duplicate_field(alloc, name));
        }
    }
    Ok(())
}

/// Ends the reading of fields by name, for a type of your own that refuses others: no entry may be
/// left. Only making an error takes memory.
///
/// # Errors
///
/// That of the first key that is left: ``duplicate field `NAME` `` where it is one of `known`, else
/// ``unknown field `NAME`, expected one of `A`, `B`, `C` ``, and what was found where it is no
/// text; out of memory in its place.
pub fn deny_unknown_fields(alloc: Global, from: FieldsByName<'_, '_>, known: &[&str]) -> Result<()>
    ensures value { Reads (no_others (map (λ name. name.now) known.now) (fields_left from.entry))
        (λ u. ⊤) result }
    ensures succeeds { no_others (map (λ name. name.now) known.now) (fields_left from.entry) ≡ None
        → IsOk result }
{
    from.end(alloc, known)
}

/// The error of a field that isn't there.
#[cold]
#[inline(never)]
fn missing_field(alloc: Global, name: &str) -> Error
    ensures cause { cause result ≢ out_of_memory → cause result ≡ missing_field name.now }
    ensures path { IsWhole result }
{
    match format!(in alloc; "missing field `{name}`") {
        Ok(text) => Error::from(ErrorKind::Custom(text)),
        Err(refused) => Error::from(refused),
    }
}
