//! Values that are made of all their fields or parts at once: proofs of reading them don't look
//! into what is read.

ghost use Rattle.std.specs.Prelude.{◌≡◌, IsOk};
ghost use Rattle.content_de.specs.Accesses.ByName.{fields_left};
ghost use Rattle.content_de.specs.Accesses.Enum.{variant_view};
ghost use Rattle.content_de.specs.Accesses.Seq.{seq_view};
ghost use Rattle.content_de.specs.Reads.ByName.{read_by_name, ReadByName};
ghost use Rattle.content_de.specs.Reads.Own.{struct_variant_refusal, StructVariantGives};
ghost use Rattle.content_de.specs.Reads.Own.{tuple_variant_refusal, TupleVariantGives};
ghost use Rattle.content_de.specs.Reads.Read.{Reads};

use crate::fields_read::{ReadFields, ReadParts};
use crate::name_lists::Names;
use content_de::{FieldsByName, Seq, VariantAccess};
use content_tree::Result;
use std::alloc::Global;

/// A struct that is made of a row.
pub trait MadeOf<R>: Sized {
    /// The row that it is made of.
    ghost made_of: { Self → R };

    /// Makes it.
    fn make(row: R) -> Self
        ensures { made_of result ≡ row };
}

/// Reads fields by name, and makes a struct of them. The errors are those of the fields.
pub fn read_made<'de, 'n: 'de, R: ReadFields<'de>, T: MadeOf<R>>(
    alloc: Global,
    fields: FieldsByName<'de, 'n>,
) -> Result<T>
    ensures value { Reads (R.refusal (fields_left fields.entry))
        (λ y. R.gives (T.made_of y) (fields_left fields.entry)) result }
    ensures succeeds { R.memoryless (fields_left fields.entry) → IsOk result }
{
    Ok(T::make(R::read(alloc, fields)?))
}

/// The same of parts, by place.
pub fn read_made_of_parts<'de, 'n: 'de, R: ReadParts<'de>, T: MadeOf<R>>(
    alloc: Global,
    parts: Seq<'de, 'n>,
) -> Result<T>
    ensures value { Reads (R.refusal (seq_view parts.entry))
        (λ y. R.gives (T.made_of y) (seq_view parts.entry)) result }
    ensures succeeds { R.memoryless (seq_view parts.entry) → IsOk result }
{
    Ok(T::make(R::read(alloc, parts)?))
}

/// An enum of which a variant is made of a row.
pub trait MadeFrom<R>: Sized {
    /// The variant of a row.
    ghost made_from: { R → Self };

    /// Makes it.
    fn make(row: R) -> Self
        ensures { result ≡ made_from row };
}

/// Reads fields by name, and makes a variant of them. The errors are those of the fields.
pub fn read_made_from<'de, 'n: 'de, R: ReadFields<'de>, T: MadeFrom<R>>(
    alloc: Global,
    fields: FieldsByName<'de, 'n>,
) -> Result<T>
    ensures { Reads (R.refusal (fields_left fields.entry))
        (λ y. (row : R) × ((y ≡ T.made_from row) × R.gives row (fields_left fields.entry)))
        result }
{
    let row = R::read(alloc, fields)?;
    Ok(T::make(row))
}

/// Reads the fields of a variant that is tagged externally, and makes it of them. The errors are
/// those of [`VariantAccess::struct_variant`] and of the fields.
pub fn read_variant_made_from<'de, 'n: 'de, K: Names, R: ReadFields<'de>, T: MadeFrom<R>>(
    alloc: Global,
    variant: VariantAccess<'de, 'n>,
) -> Result<T>
    ensures { Reads
        (struct_variant_refusal (read_by_name R.refusal) (variant_view variant.entry))
        (λ y. (row : R) × ((y ≡ T.made_from row)
        × StructVariantGives (ReadByName (R.gives row)) (variant_view variant.entry)))
        result }
{
    let fields = variant.struct_variant(alloc, K::names())?.by_name();
    read_made_from(alloc, fields)
}

/// The same of parts, by place.
fn read_parts_made_from<'de, 'n: 'de, R: ReadParts<'de>, T: MadeFrom<R>>(
    alloc: Global,
    parts: Seq<'de, 'n>,
) -> Result<T>
    ensures { Reads (R.refusal (seq_view parts.entry))
        (λ y. (row : R) × ((y ≡ T.made_from row) × R.gives row (seq_view parts.entry)))
        result }
{
    let row = R::read(alloc, parts)?;
    Ok(T::make(row))
}

/// Reads the values of a variant by place, and makes it of them. The errors are those of
/// [`VariantAccess::tuple_variant`] and of the values.
pub fn read_tuple_variant_made_from<'de, 'n: 'de, R: ReadParts<'de>, T: MadeFrom<R>>(
    alloc: Global,
    variant: VariantAccess<'de, 'n>,
    len: usize,
) -> Result<T>
    ensures { Reads (tuple_variant_refusal R.refusal (variant_view variant.entry))
        (λ y. (row : R) × ((y ≡ T.made_from row)
        × TupleVariantGives (R.gives row) (variant_view variant.entry)))
        result }
{
    let parts = variant.tuple_variant(alloc, len)?;
    read_parts_made_from(alloc, parts)
}
