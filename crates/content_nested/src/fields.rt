//! Fields that are read by name, some of them level by level. Their rows are those of
//! [`ReadFields`]; the fields that are read level by level have rows of their own.

ghost use Rattle.std.specs.Prelude.{◌≡◌, ◌≢◌, [], IfErr, Option, None, Some, slice_index_or};
ghost use Rattle.content_tree.specs.Errors.Cause.{Cause, out_of_memory};
ghost use Rattle.content_tree.specs.Errors.Where.{under};
ghost use Rattle.content_de.specs.Outcomes.{cause};
ghost use Rattle.content_de.specs.Accesses.ByName.{FieldsLeft, field_named, fields_left};
ghost use Rattle.content_de.specs.Accesses.ByName.{without_field};
ghost use Rattle.content_de.specs.Reads.Paths.{BeginsWith, IsFoundAt, IsWhole};
ghost use Rattle.content_de.specs.Reads.Read.{Reads};
ghost use Rattle.content_de.specs.Reads.ByName.{found_refusal, FoundGives, missing_field};
ghost use Rattle.serde_content.specs.Literals.{row_or_then, row_then, RowOrThen, RowThen};

use crate::reading::{ReadWithin, ReadsWithin};
use content_de::{Deserialize, FieldsByName, field_or, named_field};
use content_tree::{Error, ErrorKind, Result};
use serde_content::derive_support::{
    Absent, Names, OthersRefused, OthersSkipped, ReadField, ReadFieldOr, ReadFields,
};
use std::alloc::Global;
use std::marker::PhantomData;

/// Fields that are read by name, in this order, and what is left over.
pub trait FieldsWithin<'de, L>: Sized {
    /// What is refused of them with these levels.
    ghost refusal: { L → FieldsLeft → Option Cause };
    /// What they give with these levels.
    ghost gives: { L → Self → FieldsLeft → Type 0 };

    /// Reads them. The error is the first refusal, or out of memory in its place.
    fn read_fields<'n: 'de>(
        levels: &L,
        alloc: Global,
        fields: FieldsByName<'de, 'n>,
    ) -> Result<Self>
        ensures { Reads (refusal levels.now (fields_left fields.entry))
            (λ row. gives levels.now row (fields_left fields.entry)) result };
}

/// The name at an index; the empty text past the end.
#[inline(always)]
pub(crate) fn name_at<K: Names>(index: usize) -> &'static str
    ensures { result.now ≡ slice_index_or K.names index [] }
{
    match K::names().get(index) {
        Some(name) => name,
        None => "",
    }
}

/// The error of a field that isn't there.
#[cold]
#[inline(never)]
fn missing_field(alloc: Global, name: &str) -> Error
    ensures cause { cause result ≢ out_of_memory → cause result ≡ missing_field name.now }
    ensures path { IsWhole result }
{
    match format!(in alloc; "missing field `{name}`") {
        Ok(text) => Error::from(ErrorKind::Custom(text)),
        Err(refused) => Error::from(refused),
    }
}

/// The field whose name has this index among the names `K`, wherever it is.
#[inline(always)]
fn field_at<'de, 'n: 'de, K: Names, T: Deserialize<'de>>(
    alloc: Global,
    fields: &mut FieldsByName<'de, 'n>,
    index: usize,
) -> Result<T>
    ensures value { Reads
        (found_refusal (Some (missing_field (slice_index_or K.names index []))) T.refusal
        (field_named (slice_index_or K.names index []) (fields_left fields.old)))
        (FoundGives (λ a. ⊥) T.gives
        (field_named (slice_index_or K.names index []) (fields_left fields.old))) result }
    ensures rest { fields_left fields.new
        ≡ without_field (slice_index_or K.names index []) (fields_left fields.old) }
{
    named_field(alloc, fields, name_at::<K>(index))
}

/// The same where it may be missing.
#[inline(always)]
fn field_at_or<'de, 'n: 'de, K: Names, T: Deserialize<'de> + Absent>(
    alloc: Global,
    fields: &mut FieldsByName<'de, 'n>,
    index: usize,
) -> Result<T>
    ensures value { Reads
        (found_refusal None T.refusal
        (field_named (slice_index_or K.names index []) (fields_left fields.old)))
        (FoundGives T.is_absent T.gives
        (field_named (slice_index_or K.names index []) (fields_left fields.old))) result }
    ensures rest { fields_left fields.new
        ≡ without_field (slice_index_or K.names index []) (fields_left fields.old) }
{
    field_or(alloc, fields, name_at::<K>(index), T::absent(alloc))
}

/// The field whose name has this index among the names `K`, read on the next level.
#[inline(always)]
fn nested_at<'de, 'n: 'de, K: Names, T: Drop, L: ReadWithin<'de, T>>(
    levels: &L,
    alloc: Global,
    fields: &mut FieldsByName<'de, 'n>,
    index: usize,
) -> Result<T>
    ensures value { Reads
        (found_refusal (Some (missing_field (slice_index_or K.names index [])))
        (L.refusal levels.now)
        (field_named (slice_index_or K.names index []) (fields_left fields.old)))
        (FoundGives (λ a. ⊥) (L.gives levels.now)
        (field_named (slice_index_or K.names index []) (fields_left fields.old))) result }
    ensures path { IfErr result (λ e. IsFoundAt (under (slice_index_or K.names index []))
        (field_named (slice_index_or K.names index []) (fields_left fields.old)) e) }
    ensures rest { fields_left fields.new
        ≡ without_field (slice_index_or K.names index []) (fields_left fields.old) }
{
    match fields.take_named(name_at::<K>(index)) {
        Some(field) => match levels.read_within(alloc, field) {
            Ok(value) => Ok(value),
            Err(error) => Err(error.at_name(alloc, name_at::<K>(index))),
        },
        None => Err(missing_field(alloc, name_at::<K>(index))),
    }
}

/// The same where it may be missing.
#[inline(always)]
fn nested_at_or<'de, 'n: 'de, K: Names, T: Drop + Absent, L: ReadWithin<'de, T>>(
    levels: &L,
    alloc: Global,
    fields: &mut FieldsByName<'de, 'n>,
    index: usize,
) -> Result<T>
    ensures value { Reads
        (found_refusal None (L.refusal levels.now)
        (field_named (slice_index_or K.names index []) (fields_left fields.old)))
        (FoundGives T.is_absent (L.gives levels.now)
        (field_named (slice_index_or K.names index []) (fields_left fields.old))) result }
    ensures path { IfErr result (λ e. BeginsWith (under (slice_index_or K.names index [])) e) }
    ensures rest { fields_left fields.new
        ≡ without_field (slice_index_or K.names index []) (fields_left fields.old) }
{
    match fields.take_named(name_at::<K>(index)) {
        Some(field) => match levels.read_within(alloc, field) {
            Ok(value) => Ok(value),
            Err(error) => Err(error.at_name(alloc, name_at::<K>(index))),
        },
        None => Ok(T::absent(alloc)),
    }
}

impl<'de, L, K: Names, const I: usize, T, R> FieldsWithin<'de, L> for ReadField<K, I, T, R>
where
    T: Deserialize<'de>,
    R: FieldsWithin<'de, L>,
{
    ghost refusal = { λ l. row_then (slice_index_or K.names I []) T.refusal (R.refusal l) };

    ghost gives = { λ l row. RowThen (slice_index_or K.names I []) T.gives row.0
        (R.gives l row.1) };

    #[tactic(auto, unfolding(serde_content::specs::Literals::row_then, serde_content::specs::Literals::RowThen))]
    #[inline(always)]
    fn read_fields<'n: 'de>(
        levels: &L,
        alloc: Global,
        mut fields: FieldsByName<'de, 'n>,
    ) -> Result<Self> {
        let value = field_at::<K, T>(alloc, &mut fields, I)?;
        Ok(ReadField(value, R::read_fields(levels, alloc, fields)?, PhantomData))
    }
}

impl<'de, L, K: Names, const I: usize, T, R> FieldsWithin<'de, L> for ReadFieldOr<K, I, T, R>
where
    T: Deserialize<'de> + Absent,
    R: FieldsWithin<'de, L>,
{
    ghost refusal = { λ l. row_or_then (slice_index_or K.names I []) T.refusal (R.refusal l) };

    ghost gives = { λ l row. RowOrThen (slice_index_or K.names I []) T.is_absent T.gives row.0
        (R.gives l row.1) };

    #[tactic(auto, unfolding(serde_content::specs::Literals::row_or_then, serde_content::specs::Literals::RowOrThen))]
    #[inline(always)]
    fn read_fields<'n: 'de>(
        levels: &L,
        alloc: Global,
        mut fields: FieldsByName<'de, 'n>,
    ) -> Result<Self> {
        let value = field_at_or::<K, T>(alloc, &mut fields, I)?;
        Ok(ReadFieldOr(value, R::read_fields(levels, alloc, fields)?, PhantomData))
    }
}

/// The field whose name has the index `I` among the names `K`, read on the next level, and those
/// after it.
#[derive(Drop)]
pub struct NestedField<K, const I: usize, T, R>(pub T, pub R, pub PhantomData<K>);

impl<'de, L: ReadWithin<'de, T>, K: Names, const I: usize, T: Drop, R> FieldsWithin<'de, L>
    for NestedField<K, I, T, R>
where
    R: FieldsWithin<'de, L>,
{
    ghost refusal = { λ l. row_then (slice_index_or K.names I []) (L.refusal l) (R.refusal l) };

    ghost gives = { λ l row. RowThen (slice_index_or K.names I []) (L.gives l) row.0
        (R.gives l row.1) };

    #[tactic(auto, unfolding(serde_content::specs::Literals::row_then, serde_content::specs::Literals::RowThen))]
    #[inline(always)]
    fn read_fields<'n: 'de>(
        levels: &L,
        alloc: Global,
        mut fields: FieldsByName<'de, 'n>,
    ) -> Result<Self> {
        let value = nested_at::<K, T, L>(levels, alloc, &mut fields, I)?;
        Ok(NestedField(value, R::read_fields(levels, alloc, fields)?, PhantomData))
    }
}

/// The same, where the field may be missing: a value that is [`Absent`] is read then.
#[derive(Drop)]
pub struct NestedFieldOr<K, const I: usize, T, R>(pub T, pub R, pub PhantomData<K>);

impl<'de, L: ReadWithin<'de, T>, K: Names, const I: usize, T: Drop + Absent, R> FieldsWithin<'de, L>
    for NestedFieldOr<K, I, T, R>
where
    R: FieldsWithin<'de, L>,
{
    ghost refusal = { λ l. row_or_then (slice_index_or K.names I []) (L.refusal l) (R.refusal l) };

    ghost gives = { λ l row. RowOrThen (slice_index_or K.names I []) T.is_absent (L.gives l) row.0
        (R.gives l row.1) };

    #[tactic(auto, unfolding(serde_content::specs::Literals::row_or_then, serde_content::specs::Literals::RowOrThen))]
    #[inline(always)]
    fn read_fields<'n: 'de>(
        levels: &L,
        alloc: Global,
        mut fields: FieldsByName<'de, 'n>,
    ) -> Result<Self> {
        let value = nested_at_or::<K, T, L>(levels, alloc, &mut fields, I)?;
        Ok(NestedFieldOr(value, R::read_fields(levels, alloc, fields)?, PhantomData))
    }
}

impl<'de, L, K: Names> FieldsWithin<'de, L> for OthersSkipped<K> {
    ghost refusal = { λ l. ⟦<OthersSkipped<K> as ReadFields<'de>>⟧.refusal };

    ghost gives = { λ l. ⟦<OthersSkipped<K> as ReadFields<'de>>⟧.gives };

    #[inline(always)]
    fn read_fields<'n: 'de>(
        _levels: &L,
        alloc: Global,
        fields: FieldsByName<'de, 'n>,
    ) -> Result<Self> {
        ReadFields::read(alloc, fields)
    }
}

impl<'de, L, K: Names> FieldsWithin<'de, L> for OthersRefused<K> {
    ghost refusal = { λ l. ⟦<OthersRefused<K> as ReadFields<'de>>⟧.refusal };

    ghost gives = { λ l. ⟦<OthersRefused<K> as ReadFields<'de>>⟧.gives };

    #[inline(always)]
    fn read_fields<'n: 'de>(
        _levels: &L,
        alloc: Global,
        fields: FieldsByName<'de, 'n>,
    ) -> Result<Self> {
        ReadFields::read(alloc, fields)
    }
}
