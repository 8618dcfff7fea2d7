//! Values that are read by place, some of them level by level. Their rows are those of
//! [`ReadParts`]; the values that are read level by level have rows of their own.

ghost use Rattle.std.specs.Prelude.{◌≡◌, ◌≢◌, IfErr, Option};
ghost use Rattle.content_tree.specs.Errors.Cause.{Cause, out_of_memory};
ghost use Rattle.content_tree.specs.Errors.Where.{item};
ghost use Rattle.content_de.specs.Outcomes.{cause};
ghost use Rattle.content_de.specs.Accesses.Seq.{SeqLeft, seq_view, first_item, after_item};
ghost use Rattle.content_de.specs.Reads.Paths.{IsFoundAt, IsWhole};
ghost use Rattle.content_de.specs.Reads.Read.{Reads};
ghost use Rattle.content_de.specs.Reads.Tuples.{part_refusal, PartGives, part_then, PartThen};
ghost use Rattle.content_de.specs.Reads.Tuples.{too_few};

use crate::reading::{ReadWithin, ReadsWithin};
use content_de::{Deserialize, Seq, next_part};
use content_tree::{Error, ErrorKind, Result};
use serde_content::derive_support::{PartsEnd, ReadPart, ReadParts};
use std::alloc::Global;

/// Values that are read by place, one after another, and the end.
pub trait PartsWithin<'de, L>: Sized {
    /// What is refused of them with these levels.
    ghost refusal: { L → SeqLeft → Option Cause };
    /// What they give with these levels.
    ghost gives: { L → Self → SeqLeft → Type 0 };

    /// Reads them. The error is the first refusal, or out of memory in its place.
    fn read_parts<'n: 'de>(levels: &L, alloc: Global, parts: Seq<'de, 'n>) -> Result<Self>
        ensures { Reads (refusal levels.now (seq_view parts.entry))
            (λ row. gives levels.now row (seq_view parts.entry)) result };
}

/// The value at this place of so many, read on the next level.
#[inline(always)]
fn nested_part<'de, 'n: 'de, T: Drop, L: ReadWithin<'de, T>>(
    levels: &L,
    alloc: Global,
    from: &mut Seq<'de, 'n>,
    expected: usize,
    found: usize,
) -> Result<T>
    ensures value { Reads
        (part_refusal expected found (L.refusal levels.now)
        (first_item (seq_view from.old)))
        (PartGives (L.gives levels.now) (first_item (seq_view from.old))) result }
    ensures path { IfErr result (λ e. IsFoundAt (item found) (first_item (seq_view from.old)) e) }
    ensures rest { seq_view from.new ≡ after_item (seq_view from.old) }
{
    match from.next_deserializer() {
        None => Err(too_few(alloc, expected, found)),
        Some(item) => match levels.read_within(alloc, item) {
            Ok(value) => Ok(value),
            Err(error) => Err(error.at_index(alloc, found)),
        },
    }
}

/// The error of items that ended too early.
#[cold]
#[inline(never)]
fn too_few(alloc: Global, expected: usize, found: usize) -> Error
    ensures cause { cause result ≢ out_of_memory → cause result ≡ too_few expected found }
    ensures path { IsWhole result }
{
    match format!(in alloc; "too few elements: expected {expected}, found {found}") {
        Ok(text) => Error::from(ErrorKind::Custom(text)),
        Err(refused) => Error::from(refused),
    }
}

impl<'de, L, const N: usize, const I: usize, T, R> PartsWithin<'de, L> for ReadPart<N, I, T, R>
where
    T: Deserialize<'de>,
    R: PartsWithin<'de, L>,
{
    ghost refusal = { λ l. part_then N I T.refusal (R.refusal l) };

    ghost gives = { λ l row. PartThen T.gives row.0 (R.gives l row.1) };

    #[inline(always)]
    fn read_parts<'n: 'de>(levels: &L, alloc: Global, mut parts: Seq<'de, 'n>) -> Result<Self> {
        let value = next_part(alloc, &mut parts, N, I)?;
        Ok(ReadPart(value, R::read_parts(levels, alloc, parts)?))
    }
}

/// The value at the place `I` of `N`, read on the next level, and those after it.
#[derive(Drop)]
pub struct NestedPart<const N: usize, const I: usize, T, R>(pub T, pub R);

impl<'de, L: ReadWithin<'de, T>, const N: usize, const I: usize, T: Drop, R> PartsWithin<'de, L>
    for NestedPart<N, I, T, R>
where
    R: PartsWithin<'de, L>,
{
    ghost refusal = { λ l. part_then N I (L.refusal l) (R.refusal l) };

    ghost gives = { λ l row. PartThen (L.gives l) row.0 (R.gives l row.1) };

    #[inline(always)]
    fn read_parts<'n: 'de>(levels: &L, alloc: Global, mut parts: Seq<'de, 'n>) -> Result<Self> {
        let value = nested_part(levels, alloc, &mut parts, N, I)?;
        Ok(NestedPart(value, R::read_parts(levels, alloc, parts)?))
    }
}

impl<'de, L, const N: usize> PartsWithin<'de, L> for PartsEnd<N> {
    ghost refusal = { λ l. ⟦<PartsEnd<N> as ReadParts<'de>>⟧.refusal };

    ghost gives = { λ l. ⟦<PartsEnd<N> as ReadParts<'de>>⟧.gives };

    #[inline(always)]
    fn read_parts<'n: 'de>(_levels: &L, alloc: Global, parts: Seq<'de, 'n>) -> Result<Self> {
        ReadParts::read(alloc, parts)
    }
}
