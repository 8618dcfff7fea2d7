//! Structs, some of whose fields are read level by level.

ghost use Rattle.std.specs.Prelude.{◌≡◌, ℕ, List, Option};
ghost use Rattle.content_tree.specs.Errors.Cause.{Cause};
ghost use Rattle.content_de.specs.Sources.Deserializer.{subject};
ghost use Rattle.content_de.specs.Accesses.ByName.{FieldsLeft, fields_left};
ghost use Rattle.content_de.specs.Reads.ByName.{read_by_name, ReadByName};
ghost use Rattle.content_de.specs.Reads.Own.{struct_refusal, StructGives};
ghost use Rattle.content_de.specs.Reads.Read.{Reads};

use content_de::{Deserializer, FieldsByName};
use content_tree::Result;
use serde_content::derive_support::Names;
use std::alloc::Global;

/// A struct whose fields are read by name.
pub trait StructWithin<'de, L>: Sized {
    /// Its name.
    ghost name: { List ℕ };
    /// What is refused of its fields with these levels.
    ghost refusal: { L → FieldsLeft → Option Cause };
    /// What they give with these levels.
    ghost gives: { L → Self → FieldsLeft → Type 0 };

    /// Its name, as code has it.
    fn name() -> &'static str
        ensures { result.now ≡ name };

    /// Reads its fields. The error is the first refusal, or out of memory in its place.
    fn read_fields<'n: 'de>(
        levels: &L,
        alloc: Global,
        fields: FieldsByName<'de, 'n>,
    ) -> Result<Self>
        ensures { Reads (refusal levels.now (fields_left fields.entry))
            (λ y. gives levels.now y (fields_left fields.entry)) result };
}

/// Reads a struct whose fields have the names `K`, in any order, what they hold with these levels.
///
/// # Errors
///
/// As those of [`Deserializer::deserialize_struct`] and of the fields.
pub fn read_struct_within<'de, 'n: 'de, K: Names, L, T: StructWithin<'de, L>>(
    levels: &L,
    alloc: Global,
    from: Deserializer<'de, 'n>,
) -> Result<T>
    ensures { Reads (struct_refusal T.name (read_by_name (T.refusal levels.now))
        (subject from.entry))
        (λ y. StructGives T.name (ReadByName (T.gives levels.now y)) (subject from.entry)) result }
{
    let fields = from
        .deserialize_struct(alloc, T::name(), K::names())?
        .by_name();
    T::read_fields(levels, alloc, fields)
}
