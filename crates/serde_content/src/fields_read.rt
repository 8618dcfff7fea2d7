//! Fields and parts that are read one after another, each by its type: a row of them is itself a
//! type, such as `ReadField<FieldsOfPoint, 0, i32, ReadField<FieldsOfPoint, 1, i32,
//! OthersSkipped<FieldsOfPoint>>>`, so that one proof serves rows of every length.

ghost use Rattle.std.specs.Prelude.{◌≡◌, ℕ, List, [], Option, None, Some, slice_index_or};
ghost use Rattle.std.specs.Prelude.{IsOk, ⊤};
ghost use Rattle.content_tree.specs.Errors.Cause.{Cause};
ghost use Rattle.content_de.specs.Outcomes.{IsTaken};
ghost use Rattle.content_de.specs.Sources.Deserializer.{subject};
ghost use Rattle.content_de.specs.Accesses.ByName.{FieldsLeft, field_named, fields_left};
ghost use Rattle.content_de.specs.Accesses.ByName.{without_field};
ghost use Rattle.content_de.specs.Accesses.Map.{map_at, struct_at};
ghost use Rattle.content_de.specs.Accesses.Seq.{SeqLeft, seq_view};
ghost use Rattle.content_de.specs.Reads.Read.{Reads};
ghost use Rattle.content_de.specs.Reads.ByName.{found_refusal, FoundGives, FoundMemoryless};
ghost use Rattle.content_de.specs.Reads.ByName.{missing_field};
ghost use Rattle.content_de.specs.Reads.ByName.{NoOthers, no_others, read_by_name, ReadByName};
ghost use Rattle.content_de.specs.Reads.Own.{struct_refusal, StructGives};
ghost use Rattle.content_de.specs.Reads.Tuples.{end_of_parts, NoPart, part_then, PartThen};
ghost use Rattle.content_de.specs.Reads.Tuples.{MayEnd, MemorylessThen};
ghost use Rattle.serde_content.specs.Laws.Flattened.{flattened_refusal, FlattenedGives};
ghost use Rattle.serde_content.specs.Literals.{others_left, row_or_then, row_then};
ghost use Rattle.serde_content.specs.Literals.{RowMemoryless, RowOrMemoryless, RowOrThen, RowThen};

use crate::absent::Absent;
use crate::name_lists::{Names, name_at};
use content_de::{
    Deserialize, Deserializer, FieldsByName, Seq, deny_unknown_fields, field_or, finish_parts,
    ignore_unknown_fields, named_field, next_part,
};
use content_tree::Result;
use std::alloc::Global;
use std::marker::PhantomData;

/// The field whose name has this index among the names `K`, wherever it is.
#[inline(always)]
fn field_at<'de, 'n: 'de, K: Names, T: Deserialize<'de>>(
    alloc: Global,
    fields: &mut FieldsByName<'de, 'n>,
    index: usize,
) -> Result<T>
    ensures value { Reads
        (found_refusal (Some (missing_field (slice_index_or K.names index []))) T.refusal
        (field_named (slice_index_or K.names index []) (fields_left fields.old)))
        (FoundGives (λ a. ⊥) T.gives
        (field_named (slice_index_or K.names index []) (fields_left fields.old))) result }
    ensures succeeds { FoundMemoryless ⊥ T.memoryless
        (field_named (slice_index_or K.names index []) (fields_left fields.old)) → IsOk result }
    ensures rest { fields_left fields.new
        ≡ without_field (slice_index_or K.names index []) (fields_left fields.old) }
{
    named_field(alloc, fields, name_at::<K>(index))
}

/// The same where it may be missing.
#[inline(always)]
fn field_at_or<'de, 'n: 'de, K: Names, T: Deserialize<'de> + Absent>(
    alloc: Global,
    fields: &mut FieldsByName<'de, 'n>,
    index: usize,
) -> Result<T>
    ensures value { Reads
        (found_refusal None T.refusal
        (field_named (slice_index_or K.names index []) (fields_left fields.old)))
        (FoundGives T.is_absent T.gives
        (field_named (slice_index_or K.names index []) (fields_left fields.old))) result }
    ensures succeeds { FoundMemoryless ⊤ T.memoryless
        (field_named (slice_index_or K.names index []) (fields_left fields.old)) → IsOk result }
    ensures rest { fields_left fields.new
        ≡ without_field (slice_index_or K.names index []) (fields_left fields.old) }
{
    field_or(alloc, fields, name_at::<K>(index), T::absent(alloc))
}

/// Fields that are read by name, in this order, and what is left over.
pub trait ReadFields<'de>: Sized {
    /// What is refused of them.
    ghost refusal: { FieldsLeft → Option Cause };
    /// What they give.
    ghost gives: { Self → FieldsLeft → Type 0 };
    /// Where they are read without memory. Where this isn't said, nowhere.
    ghost memoryless: { FieldsLeft → Type 0 } = { λ f. ⊥ };

    /// Reads them. The error is the first refusal, or out of memory in its place.
    fn read<'n: 'de>(alloc: Global, fields: FieldsByName<'de, 'n>) -> Result<Self>
        ensures value { Reads (refusal (fields_left fields.entry))
            (λ row. gives row (fields_left fields.entry)) result }
        ensures succeeds { memoryless (fields_left fields.entry) → IsOk result };
}

/// The field whose name has the index `I` among the names `K`, and those after it.
#[derive(Drop)]
pub struct ReadField<K, const I: usize, T, R>(pub T, pub R, pub PhantomData<K>);

impl<'de, K: Names, const I: usize, T: Deserialize<'de>, R: ReadFields<'de>> ReadFields<'de>
    for ReadField<K, I, T, R> {
    ghost refusal = { row_then (slice_index_or K.names I []) T.refusal R.refusal };

    ghost gives = { λ row. RowThen (slice_index_or K.names I []) T.gives row.0 (R.gives row.1) };

    ghost memoryless = { RowMemoryless (slice_index_or K.names I []) T.memoryless R.memoryless };

    #[tactic(auto, unfolding(crate::specs::Literals::row_then, crate::specs::Literals::RowThen, crate::specs::Literals::RowMemoryless))]
    #[inline(always)]
    fn read<'n: 'de>(alloc: Global, mut fields: FieldsByName<'de, 'n>) -> Result<Self> {
        match field_at::<K, T>(alloc, &mut fields, I) {
            Ok(value) => Ok(ReadField(value, R::read(alloc, fields)?, PhantomData)),
            Err(error) => {
                drop(fields);
                Err(error)
            }
        }
    }
}

/// The same, where the field may be missing: a value that is [`Absent`] is read then.
#[derive(Drop)]
pub struct ReadFieldOr<K, const I: usize, T, R>(pub T, pub R, pub PhantomData<K>);

impl<'de, K: Names, const I: usize, T: Deserialize<'de> + Absent, R: ReadFields<'de>> ReadFields<
    'de,
> for ReadFieldOr<K, I, T, R> {
    ghost refusal = { row_or_then (slice_index_or K.names I []) T.refusal R.refusal };

    ghost gives = { λ row. RowOrThen (slice_index_or K.names I []) T.is_absent T.gives row.0
        (R.gives row.1) };

    ghost memoryless = { RowOrMemoryless (slice_index_or K.names I []) T.memoryless R.memoryless };

    #[tactic(auto, unfolding(crate::specs::Literals::row_or_then, crate::specs::Literals::RowOrThen, crate::specs::Literals::RowOrMemoryless))]
    #[inline(always)]
    fn read<'n: 'de>(alloc: Global, mut fields: FieldsByName<'de, 'n>) -> Result<Self> {
        match field_at_or::<K, T>(alloc, &mut fields, I) {
            Ok(value) => Ok(ReadFieldOr(value, R::read(alloc, fields)?, PhantomData)),
            Err(error) => {
                drop(fields);
                Err(error)
            }
        }
    }
}

/// The end of the fields with the names `K`: others are skipped, and none of these comes again.
#[derive(Drop)]
pub struct OthersSkipped<K>(pub(crate) PhantomData<K>);

impl<'de, K: Names> ReadFields<'de> for OthersSkipped<K> {
    ghost refusal = { others_left K.names };

    ghost gives = { λ row. NoOthers };

    ghost memoryless = { λ f. others_left K.names f ≡ None };

    #[tactic(auto, unfolding(crate::specs::Literals::others_left))]
    #[inline(always)]
    fn read<'n: 'de>(alloc: Global, fields: FieldsByName<'de, 'n>) -> Result<Self> {
        ignore_unknown_fields(alloc, fields, K::names())?;
        Ok(OthersSkipped(PhantomData))
    }
}

/// The end of the fields with the names `K`, where others are refused.
#[derive(Drop)]
pub struct OthersRefused<K>(PhantomData<K>);

impl<'de, K: Names> ReadFields<'de> for OthersRefused<K> {
    ghost refusal = { no_others K.names };

    ghost gives = { λ row. NoOthers };

    ghost memoryless = { λ f. no_others K.names f ≡ None };

    #[inline(always)]
    fn read<'n: 'de>(alloc: Global, fields: FieldsByName<'de, 'n>) -> Result<Self> {
        deny_unknown_fields(alloc, fields, K::names())?;
        Ok(OthersRefused(PhantomData))
    }
}

/// A struct whose fields are read by name.
pub trait ReadStruct<'de>: Sized {
    /// Its name.
    ghost name: { List ℕ };
    /// What is refused of its fields.
    ghost refusal: { FieldsLeft → Option Cause };
    /// What they give.
    ghost gives: { Self → FieldsLeft → Type 0 };
    /// Where they are read without memory. Where this isn't said, nowhere.
    ghost memoryless: { FieldsLeft → Type 0 } = { λ f. ⊥ };

    /// Its name, as code has it.
    fn name() -> &'static str
        ensures { result.now ≡ name };

    /// Reads its fields. The error is the first refusal, or out of memory in its place.
    fn read<'n: 'de>(alloc: Global, fields: FieldsByName<'de, 'n>) -> Result<Self>
        ensures value { Reads (refusal (fields_left fields.entry))
            (λ y. gives y (fields_left fields.entry)) result }
        ensures succeeds { memoryless (fields_left fields.entry) → IsOk result };
}

/// Reads a struct whose fields have the names `K`, in any order. The errors are those of
/// [`Deserializer::deserialize_struct`] and of the fields.
pub fn read_struct<'de, 'n: 'de, K: Names, T: ReadStruct<'de>>(
    alloc: Global,
    from: Deserializer<'de, 'n>,
) -> Result<T>
    ensures value { Reads (struct_refusal T.name (read_by_name T.refusal) (subject from.entry))
        (λ y. StructGives T.name (ReadByName (T.gives y)) (subject from.entry)) result }
    ensures succeeds { IsTaken (struct_at T.name (subject from.entry)) (ReadByName T.memoryless)
        → IsOk result }
{
    let fields = from
        .deserialize_struct(alloc, T::name(), K::names())?
        .by_name();
    T::read(alloc, fields)
}

/// Reads a struct with flattened fields from a map. The errors are those of
/// [`Deserializer::deserialize_map`] and of the fields.
pub fn read_flattened<'de, 'n: 'de, T: ReadFields<'de>>(
    alloc: Global,
    from: Deserializer<'de, 'n>,
) -> Result<T>
    ensures value { Reads (flattened_refusal (read_by_name T.refusal) (subject from.entry))
        (λ y. FlattenedGives (ReadByName (T.gives y)) (subject from.entry)) result }
    ensures succeeds { IsTaken (map_at (subject from.entry)) (ReadByName T.memoryless)
        → IsOk result }
{
    let fields = from.deserialize_map(alloc)?.by_name();
    T::read(alloc, fields)
}

/// Parts that are read by place, one after another, and the end.
pub trait ReadParts<'de>: Sized {
    /// What is refused of them.
    ghost refusal: { SeqLeft → Option Cause };
    /// What they give.
    ghost gives: { Self → SeqLeft → Type 0 };
    /// Where they are read without memory. Where this isn't said, nowhere.
    ghost memoryless: { SeqLeft → Type 0 } = { λ s. ⊥ };

    /// Reads them. The error is the first refusal, or out of memory in its place.
    fn read<'n: 'de>(alloc: Global, parts: Seq<'de, 'n>) -> Result<Self>
        ensures value { Reads (refusal (seq_view parts.entry))
            (λ row. gives row (seq_view parts.entry)) result }
        ensures succeeds { memoryless (seq_view parts.entry) → IsOk result };
}

/// The part at the place `I` of `N`, and those after it.
#[derive(Drop)]
pub struct ReadPart<const N: usize, const I: usize, T, R>(pub T, pub R);

impl<'de, const N: usize, const I: usize, T: Deserialize<'de>, R: ReadParts<'de>> ReadParts<'de>
    for ReadPart<N, I, T, R> {
    ghost refusal = { part_then N I T.refusal R.refusal };

    ghost gives = { λ row. PartThen T.gives row.0 (R.gives row.1) };

    ghost memoryless = { MemorylessThen T.memoryless R.memoryless };

    #[inline(always)]
    fn read<'n: 'de>(alloc: Global, mut parts: Seq<'de, 'n>) -> Result<Self> {
        let value = next_part(alloc, &mut parts, N, I)?;
        Ok(ReadPart(value, R::read(alloc, parts)?))
    }
}

/// The end of `N` parts.
#[derive(Drop)]
pub struct PartsEnd<const N: usize>;

impl<'de, const N: usize> ReadParts<'de> for PartsEnd<N> {
    ghost refusal = { end_of_parts N };

    ghost gives = { λ row. NoPart };

    ghost memoryless = { MayEnd N };

    #[inline(always)]
    fn read<'n: 'de>(alloc: Global, parts: Seq<'de, 'n>) -> Result<Self> {
        finish_parts(alloc, parts, N)?;
        Ok(PartsEnd)
    }
}
