//! The variants of an enum, for what `tools/derive` writes: an enum tells how it reads the variant
//! that a tag names, and what is around that is read here.

ghost use Rattle.std.specs.Prelude.{◌≡◌, ℕ, List, MatchOption, Option, position};
ghost use Rattle.std.specs.Str.{bytes_eq};
ghost use Rattle.content_tree.specs.Errors.Cause.{Cause};
ghost use Rattle.content_tree.specs.Errors.Where.{places, IsInside, under};
ghost use Rattle.content_de.specs.Outcomes.{cause};
ghost use Rattle.content_de.specs.Sources.Deserializer.{subject};
ghost use Rattle.content_de.specs.Accesses.ByName.{FieldsLeft, fields_left};
ghost use Rattle.content_de.specs.Accesses.Enum.{VariantLeft, variant_view};
ghost use Rattle.content_de.specs.Reads.ByName.{read_by_name, ReadByName};
ghost use Rattle.content_de.specs.Reads.Own.{enum_refusal, EnumGives, struct_refusal, StructGives};
ghost use Rattle.content_de.specs.Reads.Read.{Reads};
ghost use Rattle.content_de.specs.Reads.Tagged.{tag_then, TagThen, tag_then_buffered};
ghost use Rattle.content_de.specs.Reads.Tagged.{TagThenBuffered};
ghost use Rattle.serde_content.specs.Tags.{TagThenBy, TagThenBufferedBy};
ghost use Rattle.serde_content.specs.Variants.{VariantGives};

use crate::name_lists::position_of;
use crate::tags::{OwnNames, Tags};
use content_de::{Deserializer, FieldsByName, VariantAccess, internal_tag, tag_field};
use content_tree::{CowStr, Error, Result};
use std::alloc::Global;

/// An enum that is tagged externally.
pub trait Variants<'de>: Sized {
    /// Its name.
    ghost name: { List ℕ };
    /// What is refused of the variant that a tag names.
    ghost refusal: { List ℕ → VariantLeft → Option Cause };
    /// The name of a value's variant.
    ghost named: { Self → List ℕ };
    /// What a value's variant gives, whatever its name.
    ghost held: { Self → VariantLeft → Type 0 };

    /// Its name, as code has it.
    fn name() -> &'static str
        ensures { result.now ≡ name };

    /// The names of its variants.
    fn names() -> &'static [&'static str];

    /// The variant that the tag names.
    fn read_variant<'n: 'de>(
        alloc: Global,
        tag: &str,
        variant: VariantAccess<'de, 'n>,
    ) -> Result<Self>
        ensures { Reads (refusal tag.now (variant_view variant.entry))
            (λ y. VariantGives (named y) (held y) tag.now (variant_view variant.entry)) result };
}

/// An enum with a field that names the variant, next to others.
pub trait TaggedVariants<'de>: Sized {
    /// Its name.
    ghost name: { List ℕ };
    /// The name of the field that names the variant.
    ghost tag_name: { List ℕ };
    /// What is refused of the variant that a tag names.
    ghost refusal: { List ℕ → FieldsLeft → Option Cause };
    /// The name of a value's variant.
    ghost named: { Self → List ℕ };
    /// What the other fields give for a value, whatever its variant's name.
    ghost held: { Self → FieldsLeft → Type 0 };

    /// Its name, as code has it.
    fn name() -> &'static str
        ensures { result.now ≡ name };

    /// The name of the field that names the variant, as code has it.
    fn tag() -> &'static str
        ensures { result.now ≡ tag_name };

    /// The variant that the tag names, out of the other fields.
    fn read_variant<'n: 'de>(
        alloc: Global,
        tag: &str,
        fields: FieldsByName<'de, 'n>,
    ) -> Result<Self>
        ensures { Reads (refusal tag.now (fields_left fields.entry))
            (λ y. VariantGives (named y) (held y) tag.now (fields_left fields.entry)) result };
}

/// Reads an enum that is tagged externally: its tag, and then the variant that it names.
///
/// # Errors
///
/// As those of [`Deserializer::deserialize_enum`], of the tag as a text, and of the variant.
pub fn read_enum<'de, 'n: 'de, T: Variants<'de>>(
    alloc: Global,
    from: Deserializer<'de, 'n>,
) -> Result<T>
    ensures { Reads (enum_refusal T.name T.refusal (subject from.entry))
        (λ y. EnumGives T.name (T.named y) (T.held y) (subject from.entry)) result }
{
    let access = from.deserialize_enum(alloc, T::name(), T::names())?;
    let (tag, variant) = access.variant::<CowStr<'de>>(alloc)?;
    match T::read_variant(alloc, tag.as_str(), variant) {
        Ok(value) => Ok(value),
        Err(error) => {
            let tag = tag.as_str();
            Err(in_variant(alloc, tag, tag, T::names(), error))
        }
    }
}

/// The error with the tag added to its path, if this name is that of a variant.
#[cold]
#[inline(never)]
pub fn in_variant(alloc: Global, name: &str, tag: &str, names: &[&str], error: Error) -> Error
    ensures cause { cause result ≡ cause error }
    ensures path { MatchOption (position (λ own. bytes_eq name.now own.now) names.now)
        (places result ≡ places error)
        (λ _. IsInside (under tag.now) (places error) (places result)) }
{
    match position_of(name, names) {
        Some(_) => error.at_name(alloc, tag),
        None => error,
    }
}

/// The tag of an enum that is tagged internally, wherever it is, and then the variant that it stands
/// for.
fn tagged_at<'de, 'n: 'de, N: Tags, T: TaggedVariants<'de>>(
    alloc: Global,
    mut fields: FieldsByName<'de, 'n>,
    name: &str,
) -> Result<T>
    ensures { Reads
        (tag_then_buffered name.now (λ tag. T.refusal (N.meant tag)) (fields_left fields.entry))
        (λ y. TagThenBufferedBy N.meant name.now (T.named y) (T.held y) (fields_left fields.entry)) result }
{
    let tag = internal_tag(alloc, &mut fields, name)?;
    T::read_variant(alloc, N::meant(tag.as_str()), fields)
}

/// The same by the name of its tag.
fn tagged_fields<'de, 'n: 'de, N: Tags, T: TaggedVariants<'de>>(
    alloc: Global,
    fields: FieldsByName<'de, 'n>,
) -> Result<T>
    ensures { Reads
        (tag_then_buffered T.tag_name (λ tag. T.refusal (N.meant tag)) (fields_left fields.entry))
        (λ y. TagThenBufferedBy N.meant T.tag_name (T.named y) (T.held y) (fields_left fields.entry))
        result }
{
    tagged_at::<N, T>(alloc, fields, T::tag())
}

/// Reads an enum that is tagged internally: the tag, wherever it is, and then the variant that it
/// names, out of a [buffer](Deserializer::buffered).
///
/// # Errors
///
/// As those of [`Deserializer::deserialize_struct`], of the tag, and of the variant.
pub fn read_tagged<'de, 'n: 'de, T: TaggedVariants<'de>>(
    alloc: Global,
    from: Deserializer<'de, 'n>,
) -> Result<T>
    ensures { Reads (struct_refusal T.name (read_by_name (tag_then_buffered T.tag_name T.refusal))
        (subject from.entry))
        (λ y. StructGives T.name (ReadByName (TagThenBuffered T.tag_name (T.named y) (T.held y)))
        (subject from.entry)) result }
{
    read_tagged_by::<OwnNames, T>(alloc, from)
}

/// The same where the tag stands for the name of a variant.
///
/// # Errors
///
/// As those of [`read_tagged`].
pub fn read_tagged_by<'de, 'n: 'de, N: Tags, T: TaggedVariants<'de>>(
    alloc: Global,
    from: Deserializer<'de, 'n>,
) -> Result<T>
    ensures { Reads (struct_refusal T.name
        (read_by_name (tag_then_buffered T.tag_name (λ tag. T.refusal (N.meant tag))))
        (subject from.entry))
        (λ y. StructGives T.name
        (ReadByName (TagThenBufferedBy N.meant T.tag_name (T.named y) (T.held y)))
        (subject from.entry)) result }
{
    let fields = from
        .deserialize_struct(alloc, T::name(), &[T::tag()])?
        .by_name();
    tagged_fields::<N, T>(alloc, fields)
}

/// The tag of an enum that is tagged adjacently, wherever it is, and then the variant that it stands
/// for.
fn adjacent_at<'de, 'n: 'de, N: Tags, T: TaggedVariants<'de>>(
    alloc: Global,
    mut fields: FieldsByName<'de, 'n>,
    name: &str,
) -> Result<T>
    ensures { Reads
        (tag_then name.now (λ tag. T.refusal (N.meant tag)) (fields_left fields.entry))
        (λ y. TagThenBy N.meant name.now (T.named y) (T.held y) (fields_left fields.entry)) result }
{
    let tag = tag_field(alloc, &mut fields, name)?;
    T::read_variant(alloc, N::meant(tag.as_str()), fields)
}

/// The same by the name of its tag.
fn adjacent_fields<'de, 'n: 'de, N: Tags, T: TaggedVariants<'de>>(
    alloc: Global,
    fields: FieldsByName<'de, 'n>,
) -> Result<T>
    ensures { Reads
        (tag_then T.tag_name (λ tag. T.refusal (N.meant tag)) (fields_left fields.entry))
        (λ y. TagThenBy N.meant T.tag_name (T.named y) (T.held y) (fields_left fields.entry))
        result }
{
    adjacent_at::<N, T>(alloc, fields, T::tag())
}

/// Reads an enum that is tagged adjacently: the tag, wherever it is, and then the variant that it
/// names.
///
/// # Errors
///
/// As those of [`read_tagged`].
pub fn read_adjacent<'de, 'n: 'de, T: TaggedVariants<'de>>(
    alloc: Global,
    from: Deserializer<'de, 'n>,
) -> Result<T>
    ensures { Reads (struct_refusal T.name (read_by_name (tag_then T.tag_name T.refusal))
        (subject from.entry))
        (λ y. StructGives T.name (ReadByName (TagThen T.tag_name (T.named y) (T.held y)))
        (subject from.entry)) result }
{
    read_adjacent_by::<OwnNames, T>(alloc, from)
}

/// The same where the tag stands for the name of a variant.
///
/// # Errors
///
/// As those of [`read_tagged`].
pub fn read_adjacent_by<'de, 'n: 'de, N: Tags, T: TaggedVariants<'de>>(
    alloc: Global,
    from: Deserializer<'de, 'n>,
) -> Result<T>
    ensures { Reads (struct_refusal T.name
        (read_by_name (tag_then T.tag_name (λ tag. T.refusal (N.meant tag))))
        (subject from.entry))
        (λ y. StructGives T.name
        (ReadByName (TagThenBy N.meant T.tag_name (T.named y) (T.held y)))
        (subject from.entry)) result }
{
    let fields = from
        .deserialize_struct(alloc, T::name(), &[T::tag()])?
        .by_name();
    adjacent_fields::<N, T>(alloc, fields)
}
