//! Fields that are read by several names, for what `tools/derive` writes.

ghost use Rattle.std.specs.Prelude.{◌≡◌, ◌≢◌, ◌∷◌, ⊤, ℕ, List, [], Some, None};
ghost use Rattle.std.specs.Prelude.{option_map, slice_index_or, IfErr, IfSome, MatchOption};
ghost use Rattle.content_tree.specs.Errors.Cause.{out_of_memory};
ghost use Rattle.content_tree.specs.Errors.Where.{under};
ghost use Rattle.content_de.specs.Outcomes.{cause};
ghost use Rattle.content_de.specs.Sources.Deserializer.{subject};
ghost use Rattle.content_de.specs.Accesses.ByName.{fields_left};
ghost use Rattle.content_de.specs.Reads.Paths.{BeginsWith, IsWhole};
ghost use Rattle.content_de.specs.Reads.Read.{Reads};
ghost use Rattle.content_de.specs.Reads.ByName.{duplicate_field, found_refusal, FoundGives};
ghost use Rattle.content_de.specs.Reads.ByName.{missing_field};
ghost use Rattle.serde_content.specs.Aliases.{aliased_then, AliasedThen, found_by, left_by, name_by};

use crate::absent::Absent;
use crate::fields_read::ReadFields;
use crate::name_lists::{Names, name_at};
use crate::own_functions::DefaultOf;
use content_de::{Deserialize, Deserializer, FieldsByName};
use content_tree::{Error, ErrorKind, Result};
use std::alloc::Global;
use std::marker::PhantomData;

/// The names of one field, in the order in which they are looked for.
pub trait FieldNames {
    /// The names.
    ghost names: { List (List ℕ) };

    /// The value of the first of them that there is, taken away, and that name. It takes no memory.
    fn take<'de, 'n>(
        fields: &mut FieldsByName<'de, 'n>,
    ) -> Option<(Deserializer<'de, 'n>, &'static str)>
        ensures value { option_map (λ found. subject found.0) result
            ≡ found_by names (fields_left fields.old) }
        ensures name { option_map (λ found. found.1.now) result
            ≡ name_by names (fields_left fields.old) }
        ensures rest { fields_left fields.new ≡ left_by names (fields_left fields.old) };
}

/// No name.
#[derive(Drop)]
pub struct NoName;

impl FieldNames for NoName {
    ghost names = { [] };

    fn take<'de, 'n>(
        _fields: &mut FieldsByName<'de, 'n>,
    ) -> Option<(Deserializer<'de, 'n>, &'static str)> {
        None
    }
}

/// The name with the index `I` among the names `K`, and then others.
#[derive(Drop)]
pub struct NameAt<K, const I: usize, N>(PhantomData<(K, N)>);

impl<K: Names, const I: usize, N: FieldNames> FieldNames for NameAt<K, I, N> {
    ghost names = { slice_index_or K.names I [] ∷ N.names };

    fn take<'de, 'n>(
        fields: &mut FieldsByName<'de, 'n>,
    ) -> Option<(Deserializer<'de, 'n>, &'static str)> {
        let name = name_at::<K>(I);
        match fields.take_named(name) {
            Some(found) => Some((found, name)),
            None => N::take(fields),
        }
    }
}

/// The default of a type.
#[derive(Drop)]
pub struct OfType;

impl<T: Absent> DefaultOf<T> for OfType {
    ghost is_default = { λ x. T.is_absent x };

    fn make(alloc: Global) -> Result<T> {
        Ok(T::absent(alloc))
    }
}

/// The error of a field that isn't there.
#[cold]
#[inline(never)]
fn missing(alloc: Global, name: &str) -> Error
    ensures cause { cause result ≢ out_of_memory → cause result ≡ missing_field name.now }
    ensures path { IsWhole result }
{
    match format!(in alloc; "missing field `{name}`") {
        Ok(text) => Error::from(ErrorKind::Custom(text)),
        Err(refused) => Error::from(refused),
    }
}

/// The error of a field that is there twice.
#[cold]
#[inline(never)]
fn duplicate(alloc: Global, name: &str) -> Error
    ensures { cause result ≢ out_of_memory → cause result ≡ duplicate_field name.now }
{
    match format!(in alloc; "duplicate field `{name}`") {
        Ok(text) => Error::from(ErrorKind::Custom(text)),
        Err(refused) => Error::from(refused),
    }
}

/// The field of one of the names `N`, which is told by this name.
fn found<'de, 'n: 'de, N: FieldNames, T: Deserialize<'de>>(
    alloc: Global,
    fields: &mut FieldsByName<'de, 'n>,
    name: &str,
) -> Result<T>
    ensures value { Reads
        (found_refusal (Some (missing_field name.now)) T.refusal
        (found_by N.names (fields_left fields.old)))
        (FoundGives (λ a. ⊥) T.gives (found_by N.names (fields_left fields.old))) result }
    ensures path { IfErr result (λ e. MatchOption (name_by N.names (fields_left fields.old))
        (IsWhole e) (λ own. BeginsWith (under own) e)) }
    ensures rest { fields_left fields.new ≡ left_by N.names (fields_left fields.old) }
{
    match N::take(fields) {
        Some((field, name)) => field.deserialize_field(alloc, name),
        None => Err(missing(alloc, name)),
    }
}

/// The same, or what `D` makes where there is none.
fn found_or_made<'de, 'n: 'de, N: FieldNames, D: DefaultOf<T>, T: Deserialize<'de>>(
    alloc: Global,
    fields: &mut FieldsByName<'de, 'n>,
) -> Result<T>
    ensures value { Reads
        (found_refusal None T.refusal (found_by N.names (fields_left fields.old)))
        (FoundGives D.is_default T.gives (found_by N.names (fields_left fields.old))) result }
    ensures path { IfErr result (λ e. IfSome (name_by N.names (fields_left fields.old))
        (λ own. BeginsWith (under own) e)) }
    ensures rest { fields_left fields.new ≡ left_by N.names (fields_left fields.old) }
{
    match N::take(fields) {
        Some((field, name)) => field.deserialize_field(alloc, name),
        None => D::make(alloc),
    }
}

/// No field is left that has one of the names `N`; one is told by this name.
fn no_more<'de, 'n, N: FieldNames>(
    alloc: Global,
    fields: &mut FieldsByName<'de, 'n>,
    name: &str,
) -> Result<()>
    ensures value { Reads
        (found_refusal None (λ s. Some (duplicate_field name.now))
        (found_by N.names (fields_left fields.old))) (λ u. ⊤) result }
    ensures rest { fields_left fields.new ≡ left_by N.names (fields_left fields.old) }
{
    match N::take(fields) {
        Some(_) => Err(duplicate(alloc, name)),
        None => Ok(()),
    }
}

/// A field that has one of the names `N`, which is told by the one with the index `I` of the names
/// `K`, and those after it.
#[derive(Drop)]
pub struct ReadAliased<K, const I: usize, N, T, R>(pub T, pub R, pub PhantomData<(K, N)>);

impl<
    'de,
    K: Names,
    const I: usize,
    N: FieldNames,
    T: Deserialize<'de>,
    R: ReadFields<'de>,
> ReadFields<'de> for ReadAliased<K, I, N, T, R> {
    ghost refusal = { aliased_then (slice_index_or K.names I []) N.names
        (Some (missing_field (slice_index_or K.names I []))) T.refusal R.refusal };

    ghost gives = { λ row. AliasedThen N.names (λ b. ⊥) T.gives row.0 (R.gives row.1) };

    #[tactic(auto, unfolding(crate::specs::Aliases::aliased_then, crate::specs::Aliases::AliasedThen))]
    #[inline(always)]
    fn read<'n: 'de>(alloc: Global, mut fields: FieldsByName<'de, 'n>) -> Result<Self> {
        let value = found::<N, T>(alloc, &mut fields, name_at::<K>(I))?;
        no_more::<N>(alloc, &mut fields, name_at::<K>(I))?;
        Ok(ReadAliased(value, R::read(alloc, fields)?, PhantomData))
    }
}

/// The same, where the field may be missing: what `D` makes is read then.
#[derive(Drop)]
pub struct ReadAliasedElse<K, const I: usize, N, D, T, R>(
    pub T,
    pub R,
    pub PhantomData<((K, N), D)>,
);

impl<
    'de,
    K: Names,
    const I: usize,
    N: FieldNames,
    D: DefaultOf<T>,
    T: Deserialize<'de>,
    R: ReadFields<'de>,
> ReadFields<'de> for ReadAliasedElse<K, I, N, D, T, R> {
    ghost refusal = { aliased_then (slice_index_or K.names I []) N.names None T.refusal R.refusal };

    ghost gives = { λ row. AliasedThen N.names D.is_default T.gives row.0 (R.gives row.1) };

    #[tactic(auto, unfolding(crate::specs::Aliases::aliased_then, crate::specs::Aliases::AliasedThen))]
    #[inline(always)]
    fn read<'n: 'de>(alloc: Global, mut fields: FieldsByName<'de, 'n>) -> Result<Self> {
        let value = found_or_made::<N, D, T>(alloc, &mut fields)?;
        no_more::<N>(alloc, &mut fields, name_at::<K>(I))?;
        Ok(ReadAliasedElse(value, R::read(alloc, fields)?, PhantomData))
    }
}
