//! The parts of what a type reads: of a tuple by place, of a struct by name.

ghost use Rattle.std.specs.Prelude.{◌≡◌, ◌≢◌, ◌≤◌, ◌-◌, None, IfErr, IsOk, ⊤};
ghost use Rattle.content_tree.specs.Errors.Cause.{out_of_memory};
ghost use Rattle.content_tree.specs.Errors.Where.{item};
ghost use Rattle.content_de.specs.Outcomes.{cause};
ghost use Rattle.content_de.specs.Accesses.Seq.{seq_view, first_item, after_item};
ghost use Rattle.content_de.specs.Accesses.Map.{map_view, first_entry, after_entry};
ghost use Rattle.content_de.specs.Reads.Paths.{IsFoundAt, IsWhole};
ghost use Rattle.content_de.specs.Reads.Read.{Reads};
ghost use Rattle.content_de.specs.Reads.Tuples.{too_few, too_many, part_refusal, PartGives};
ghost use Rattle.content_de.specs.Reads.Tuples.{part_then, end_of_parts, PartThen, NoPart};
ghost use Rattle.content_de.specs.Reads.Tuples.{PartMemoryless, MemorylessThen, MayEnd};
ghost use Rattle.content_de.specs.Reads.Tuples.{no_more};
ghost use Rattle.content_de.specs.Reads.Own.{field_refusal, FieldGives, FieldMemoryless};

use crate::deserialize::Deserialize;
use crate::map::Map;
use crate::refusal::custom;
use crate::seq::Seq;
use content_tree::{CowStr, Error, ErrorKind, Result};
use std::alloc::Global;

/// Reads the next part of a tuple of `expected` parts, of which `found` are read, for a type of
/// your own. The item is taken away also where its reading is refused.
///
/// # Errors
///
/// That of the type's first refusal, or at the end `Custom` with the text
/// `too few elements: expected N, found K`; out of memory in its place.
pub fn next_part<'de, 'n: 'de, T: Deserialize<'de>>(
    alloc: Global,
    from: &mut Seq<'de, 'n>,
    expected: usize,
    found: usize,
) -> Result<T>
    ensures value { Reads (part_refusal expected found T.refusal (first_item (seq_view from.old)))
        (PartGives T.gives (first_item (seq_view from.old))) result }
    ensures succeeds { PartMemoryless T.memoryless (first_item (seq_view from.old))
        → IsOk result }
    ensures path { IfErr result (λ e. IsFoundAt (item found) (first_item (seq_view from.old)) e) }
    ensures rest { seq_view from.new ≡ after_item (seq_view from.old) }
{
    match from.next_deserializer() {
        None => Err(too_few(alloc, expected, found)),
        Some(item) => item.deserialize_item(alloc, found),
    }
}

/// Reads both parts of a tuple of two, and its [end](finish_parts), for a type of your own.
///
/// # Errors
///
/// As those of [`next_part`] and [`finish_parts`].
pub fn two_parts<'de, 'n: 'de, A: Deserialize<'de>, B: Deserialize<'de>>(
    alloc: Global,
    from: Seq<'de, 'n>,
) -> Result<(A, B)>
    ensures value { Reads
        (part_then 2 0 A.refusal (part_then 2 1 B.refusal (end_of_parts 2)) (seq_view from.entry))
        (λ p. PartThen A.gives p.0 (PartThen B.gives p.1 NoPart) (seq_view from.entry)) result }
    ensures succeeds { MemorylessThen A.memoryless (MemorylessThen B.memoryless (MayEnd 2))
        (seq_view from.entry) → IsOk result }
{
    last_two(alloc, from, 2)
}

/// The last two parts of a tuple, and its end.
#[inline(always)]
pub(crate) fn last_two<'de, 'n: 'de, A: Deserialize<'de>, B: Deserialize<'de>>(
    alloc: Global,
    mut from: Seq<'de, 'n>,
    expected: usize,
) -> Result<(A, B)>
    requires { 2 ≤ expected }
    ensures value { Reads
        (part_then expected (expected - 2) A.refusal
        (part_then expected (expected - 1) B.refusal (end_of_parts expected)) (seq_view from.entry))
        (λ p. PartThen A.gives p.0 (PartThen B.gives p.1 NoPart) (seq_view from.entry)) result }
    ensures succeeds { MemorylessThen A.memoryless (MemorylessThen B.memoryless (MayEnd expected))
        (seq_view from.entry) → IsOk result }
{
    let first = next_part(alloc, &mut from, expected, expected - 2)?;
    let second = next_part(alloc, &mut from, expected, expected - 1)?;
    finish_parts(alloc, from, expected)?;
    Ok((first, second))
}

/// The last three parts of a tuple, and its end.
#[inline(always)]
pub(crate) fn last_three<
    'de,
    'n: 'de,
    A: Deserialize<'de>,
    B: Deserialize<'de>,
    C: Deserialize<'de>,
>(alloc: Global, mut from: Seq<'de, 'n>, expected: usize) -> Result<(A, B, C)>
    requires { 3 ≤ expected }
    ensures value { Reads
        (part_then expected (expected - 3) A.refusal (part_then expected (expected - 2) B.refusal
        (part_then expected (expected - 1) C.refusal (end_of_parts expected))) (seq_view from.entry))
        (λ p. PartThen A.gives p.0 (PartThen B.gives p.1 (PartThen C.gives p.2 NoPart))
        (seq_view from.entry)) result }
    ensures succeeds { MemorylessThen A.memoryless (MemorylessThen B.memoryless
        (MemorylessThen C.memoryless (MayEnd expected))) (seq_view from.entry) → IsOk result }
{
    let first = next_part(alloc, &mut from, expected, expected - 3)?;
    let (second, third) = last_two(alloc, from, expected)?;
    Ok((first, second, third))
}

/// Ends the reading of a tuple of `expected` parts, for a type of your own, as Serde's derives do:
/// an item that is left over is refused in a [buffer](crate::Deserializer::buffered), and else
/// stays unread.
///
/// # Errors
///
/// As those of [`end_parts`], in a buffer.
pub fn finish_parts<'de, 'n>(alloc: Global, from: Seq<'de, 'n>, expected: usize) -> Result<()>
    ensures value { Reads (end_of_parts expected (seq_view from.entry)) (λ _. ⊤) result }
    ensures succeeds { MayEnd expected (seq_view from.entry) → IsOk result }
{
    if from.is_buffered() {
        return end_parts(alloc, from, expected);
    }
    Ok(())
}

/// Ends the reading of a tuple of `expected` parts, for a type of your own that takes no other
/// length: an item that is left over is refused.
///
/// # Errors
///
/// `Custom` with the text `too many elements: expected N`; out of memory in its place.
pub fn end_parts<'de, 'n>(alloc: Global, mut from: Seq<'de, 'n>, expected: usize) -> Result<()>
    ensures value { Reads (no_more expected (seq_view from.entry)) (λ _. ⊤) result }
    ensures succeeds { no_more expected (seq_view from.entry) ≡ None → IsOk result }
{
    match from.next_deserializer() {
        None => Ok(()),
        Some(item) => {
            drop(item);
            Err(too_many(alloc, expected))
        }
    }
}

/// Reads the next field, which must have this name, for a type of your own. The name is compared
/// once the value is read; the entry is taken away also where it is refused. Only the type and the
/// making of an error take memory.
///
/// # Errors
///
/// That of the key or of the type's first refusal; at the end `Custom` with the text
/// `missing field`, and where the name is another `unexpected field`; out of memory in its place.
pub fn next_field<'de, 'n: 'de, T: Deserialize<'de>>(
    alloc: Global,
    from: &mut Map<'de, 'n>,
    name: &str,
) -> Result<T>
    ensures value { Reads (field_refusal name.now T.refusal (first_entry (map_view from.old)))
        (FieldGives T.gives (first_entry (map_view from.old))) result }
    ensures succeeds { FieldMemoryless name.now T.memoryless (first_entry (map_view from.old))
        → IsOk result }
    ensures rest { map_view from.new ≡ after_entry (map_view from.old) }
{
    if from.next_is_named(name) {
        if let Some(value) = from.take_value() {
            return value.deserialize_field(alloc, name);
        }
    }
    read_field(alloc, from, name)
}

/// The same for any field, also where there is none or its name is another.
#[cold]
#[inline(never)]
fn read_field<'de, 'n: 'de, T: Deserialize<'de>>(
    alloc: Global,
    from: &mut Map<'de, 'n>,
    name: &str,
) -> Result<T>
    ensures value { Reads (field_refusal name.now T.refusal (first_entry (map_view from.old)))
        (FieldGives T.gives (first_entry (map_view from.old))) result }
    ensures succeeds { FieldMemoryless name.now T.memoryless (first_entry (map_view from.old))
        → IsOk result }
    ensures rest { map_view from.new ≡ after_entry (map_view from.old) }
{
    match from.next_entry::<CowStr<'de>, T>(alloc)? {
        None => Err(custom(alloc, "missing field")),
        Some((key, value)) => {
            if key.as_str() == name {
                Ok(value)
            } else {
                Err(custom(alloc, "unexpected field"))
            }
        }
    }
}

/// The error of items that are left over.
#[cold]
#[inline(never)]
fn too_many(alloc: Global, expected: usize) -> Error
    ensures { cause result ≢ out_of_memory → cause result ≡ too_many expected }
{
    match format!(in alloc; "too many elements: expected {expected}") {
        Ok(text) => Error::from(ErrorKind::Custom(text)),
        Err(refused) => Error::from(refused),
    }
}

/// The error of items that ended too early.
#[cold]
#[inline(never)]
fn too_few(alloc: Global, expected: usize, found: usize) -> Error
    ensures cause { cause result ≢ out_of_memory → cause result ≡ too_few expected found }
    ensures path { IsWhole result }
{
    match format!(in alloc; "too few elements: expected {expected}, found {found}") {
        Ok(text) => Error::from(ErrorKind::Custom(text)),
        Err(refused) => Error::from(refused),
    }
}
