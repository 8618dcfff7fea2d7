//! The variants of an enum, some of which are read level by level.

ghost use Rattle.std.specs.Prelude.{◌≡◌, ℕ, List, Option};
ghost use Rattle.content_tree.specs.Errors.Cause.{Cause};
ghost use Rattle.content_de.specs.Outcomes.{IsTaken};
ghost use Rattle.content_de.specs.Sources.Deserializer.{subject};
ghost use Rattle.content_de.specs.Accesses.ByName.{FieldsLeft, fields_left};
ghost use Rattle.content_de.specs.Accesses.Enum.{VariantLeft, variant_view, newtype_variant_of};
ghost use Rattle.content_de.specs.Reads.Access.{ReadsInside};
ghost use Rattle.content_de.specs.Reads.ByName.{read_by_name, ReadByName};
ghost use Rattle.content_de.specs.Reads.Own.{enum_refusal, EnumGives, struct_refusal, StructGives};
ghost use Rattle.content_de.specs.Reads.Tagged.{tag_then, TagThen, tag_then_buffered};
ghost use Rattle.content_de.specs.Reads.Tagged.{TagThenBuffered};
ghost use Rattle.content_de.specs.Reads.Read.{Reads};
ghost use Rattle.serde_content.specs.Variants.{VariantGives};

use crate::reading::{ReadWithin, ReadsWithin};
use content_de::{Deserializer, FieldsByName, VariantAccess, internal_tag, tag_field};
use content_tree::{CowStr, Result};
use serde_content::derive_support::in_variant;
use std::alloc::Global;

/// An enum that is tagged externally.
pub trait VariantsWithin<'de, L>: Sized {
    /// Its name.
    ghost name: { List ℕ };
    /// What is refused of the variant that a tag names, with these levels.
    ghost refusal: { L → List ℕ → VariantLeft → Option Cause };
    /// The name of a value's variant.
    ghost named: { Self → List ℕ };
    /// What a value's variant gives with these levels, whatever its name.
    ghost held: { L → Self → VariantLeft → Type 0 };

    /// Its name, as code has it.
    fn name() -> &'static str
        ensures { result.now ≡ name };

    /// The names of its variants.
    fn names() -> &'static [&'static str];

    /// The variant that the tag names.
    fn read_variant<'n: 'de>(
        levels: &L,
        alloc: Global,
        tag: &str,
        variant: VariantAccess<'de, 'n>,
    ) -> Result<Self>
        ensures { Reads (refusal levels.now tag.now (variant_view variant.entry))
            (λ y. VariantGives (named y) (held levels.now y) tag.now
            (variant_view variant.entry)) result };
}

/// Reads an enum that is tagged externally: its tag, and then the variant that it names, what that
/// holds with these levels.
///
/// # Errors
///
/// As those of [`Deserializer::deserialize_enum`], of the tag as a text, and of the variant.
pub fn read_enum_within<'de, 'n: 'de, L, T: VariantsWithin<'de, L>>(
    levels: &L,
    alloc: Global,
    from: Deserializer<'de, 'n>,
) -> Result<T>
    ensures { Reads (enum_refusal T.name (T.refusal levels.now) (subject from.entry))
        (λ y. EnumGives T.name (T.named y) (T.held levels.now y) (subject from.entry))
        result }
{
    let access = from.deserialize_enum(alloc, T::name(), T::names())?;
    let (tag, variant) = access.variant::<CowStr<'de>>(alloc)?;
    match T::read_variant(levels, alloc, tag.as_str(), variant) {
        Ok(value) => Ok(value),
        Err(error) => Err(in_variant(alloc, tag.as_str(), tag.as_str(), T::names(), error)),
    }
}

/// Reads the one value of a newtype variant on the next level.
pub fn newtype_within<'de, 'n: 'de, T: Drop, L: ReadWithin<'de, T>>(
    levels: &L,
    alloc: Global,
    variant: VariantAccess<'de, 'n>,
) -> Result<T>
    ensures { ReadsInside (L.refusal levels.now) (L.gives levels.now)
        (newtype_variant_of (variant_view variant.entry)) result }
{
    let value = variant.newtype_deserializer(alloc)?;
    levels.read_within(alloc, value)
}

/// An enum with a field that names the variant, next to others.
pub trait TaggedWithin<'de, L>: Sized {
    /// Its name.
    ghost name: { List ℕ };
    /// The name of the field that names the variant.
    ghost tag_name: { List ℕ };
    /// What is refused of the variant that a tag names, with these levels.
    ghost refusal: { L → List ℕ → FieldsLeft → Option Cause };
    /// The name of a value's variant.
    ghost named: { Self → List ℕ };
    /// What the other fields give for a value with these levels, whatever its variant's name.
    ghost held: { L → Self → FieldsLeft → Type 0 };

    /// Its name, as code has it.
    fn name() -> &'static str
        ensures { result.now ≡ name };

    /// The name of the field that names the variant, as code has it.
    fn tag() -> &'static str
        ensures { result.now ≡ tag_name };

    /// The variant that the tag names, out of the other fields.
    fn read_variant<'n: 'de>(
        levels: &L,
        alloc: Global,
        tag: &str,
        fields: FieldsByName<'de, 'n>,
    ) -> Result<Self>
        ensures { Reads (refusal levels.now tag.now (fields_left fields.entry))
            (λ y. VariantGives (named y) (held levels.now y) tag.now (fields_left fields.entry))
            result };
}

/// The tag of an enum that is tagged internally, wherever it is, and then the variant.
fn read_tagged_by<'de, 'n: 'de, L, T: TaggedWithin<'de, L>>(
    levels: &L,
    alloc: Global,
    mut fields: FieldsByName<'de, 'n>,
    name: &str,
) -> Result<T>
    ensures { Reads
        (tag_then_buffered name.now (T.refusal levels.now) (fields_left fields.entry))
        (λ y. TagThenBuffered name.now (T.named y) (T.held levels.now y)
        (fields_left fields.entry)) result }
{
    let tag = internal_tag(alloc, &mut fields, name)?;
    T::read_variant(levels, alloc, tag.as_str(), fields)
}

/// The same by the name of its tag.
fn read_tagged_fields<'de, 'n: 'de, L, T: TaggedWithin<'de, L>>(
    levels: &L,
    alloc: Global,
    fields: FieldsByName<'de, 'n>,
) -> Result<T>
    ensures { Reads
        (tag_then_buffered T.tag_name (T.refusal levels.now) (fields_left fields.entry))
        (λ y. TagThenBuffered T.tag_name (T.named y) (T.held levels.now y)
        (fields_left fields.entry)) result }
{
    read_tagged_by(levels, alloc, fields, T::tag())
}

/// Reads an enum that is tagged internally: the tag, wherever it is, and then the variant that it
/// names, out of a [buffer](Deserializer::buffered), what that holds with these levels.
///
/// # Errors
///
/// As those of [`Deserializer::deserialize_struct`], of the tag, and of the variant.
pub fn read_tagged_within<'de, 'n: 'de, L, T: TaggedWithin<'de, L>>(
    levels: &L,
    alloc: Global,
    from: Deserializer<'de, 'n>,
) -> Result<T>
    ensures { Reads
        (struct_refusal T.name (read_by_name (tag_then_buffered T.tag_name (T.refusal levels.now)))
        (subject from.entry))
        (λ y. StructGives T.name
        (ReadByName (TagThenBuffered T.tag_name (T.named y) (T.held levels.now y)))
        (subject from.entry)) result }
{
    let fields = from
        .deserialize_struct(alloc, T::name(), &[T::tag()])?
        .by_name();
    read_tagged_fields(levels, alloc, fields)
}

/// The tag of an enum that is tagged adjacently, wherever it is, and then the variant.
fn read_adjacent_by<'de, 'n: 'de, L, T: TaggedWithin<'de, L>>(
    levels: &L,
    alloc: Global,
    mut fields: FieldsByName<'de, 'n>,
    name: &str,
) -> Result<T>
    ensures { Reads (tag_then name.now (T.refusal levels.now) (fields_left fields.entry))
        (λ y. TagThen name.now (T.named y) (T.held levels.now y) (fields_left fields.entry))
        result }
{
    let tag = tag_field(alloc, &mut fields, name)?;
    T::read_variant(levels, alloc, tag.as_str(), fields)
}

/// The same by the name of its tag.
fn read_adjacent_fields<'de, 'n: 'de, L, T: TaggedWithin<'de, L>>(
    levels: &L,
    alloc: Global,
    fields: FieldsByName<'de, 'n>,
) -> Result<T>
    ensures { Reads (tag_then T.tag_name (T.refusal levels.now) (fields_left fields.entry))
        (λ y. TagThen T.tag_name (T.named y) (T.held levels.now y) (fields_left fields.entry))
        result }
{
    read_adjacent_by(levels, alloc, fields, T::tag())
}

/// Reads an enum that is tagged adjacently: the tag, wherever it is, and then the variant that it
/// names, what that holds with these levels.
///
/// # Errors
///
/// As those of [`read_tagged_within`].
pub fn read_adjacent_within<'de, 'n: 'de, L, T: TaggedWithin<'de, L>>(
    levels: &L,
    alloc: Global,
    from: Deserializer<'de, 'n>,
) -> Result<T>
    ensures { Reads
        (struct_refusal T.name (read_by_name (tag_then T.tag_name (T.refusal levels.now)))
        (subject from.entry))
        (λ y. StructGives T.name
        (ReadByName (TagThen T.tag_name (T.named y) (T.held levels.now y)))
        (subject from.entry)) result }
{
    let fields = from
        .deserialize_struct(alloc, T::name(), &[T::tag()])?
        .by_name();
    read_adjacent_fields(levels, alloc, fields)
}
