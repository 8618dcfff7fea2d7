//! Names that are known by a type: what `tools/derive` writes reads fields and finds variants by
//! them, since a proof has such names at hand without a step.

ghost use Rattle.std.specs.Prelude.{◌≡◌, ◌≢◌, ℕ, List, [], map, slice_index_or};
ghost use Rattle.std.specs.List.{position};
ghost use Rattle.std.specs.Str.{bytes_eq};
ghost use Rattle.content_tree.specs.Errors.Cause.{out_of_memory};
ghost use Rattle.content_de.specs.Outcomes.{cause};
ghost use Rattle.content_de.specs.Reads.Own.{unknown_variant};
ghost use Rattle.serde_content.specs.Variants.{IsIndexAmong};

use content_de::unknown_variant;
use content_tree::Error;
use std::alloc::Global;

/// A list of names: those of a struct's fields, or of an enum's variants.
pub trait Names {
    /// The names.
    ghost names: { List (List ℕ) };

    /// The names, as code has them.
    fn names() -> &'static [&'static str]
        ensures { map (λ name. name.now) result.now ≡ names };
}

/// The name at an index; the empty text past the end.
#[inline(always)]
pub(crate) fn name_at<K: Names>(index: usize) -> &'static str
    ensures { result.now ≡ slice_index_or K.names index [] }
{
    match K::names().get(index) {
        Some(name) => name,
        None => "",
    }
}

/// The index of the first of these names that is the tag.
pub(crate) fn position_of(tag: &str, names: &[&str]) -> Option<usize>
    ensures { result ≡ position (λ name. bytes_eq tag.now name.now) names.now }
{
    names.iter().position(|name| tag == *name)
}

/// Finds the index of the tag among the names of an enum's variants, which differ; none where it is
/// none of them. It takes no memory.
///
/// ```rust
/// match variant_index(tag, &VariantsOfShape) {
///     Some(0) => Ok(Shape::Dot),
///     Some(1) => Ok(Shape::Ring(variant.newtype_variant(alloc)?)),
///     _ => Err(no_such_variant(alloc, tag, &VariantsOfShape)),
/// }
/// ```
pub fn variant_index<K: Names>(tag: &str, _names: &K) -> Option<usize>
    ensures { IsIndexAmong K.names tag.now result }
{
    index_of::<K>(tag)
}

/// The same by the type of the names alone.
pub(crate) fn index_of<K: Names>(tag: &str) -> Option<usize>
    ensures { IsIndexAmong K.names tag.now result }
{
    position_of(tag, K::names())
}

/// Makes the error of a tag that is none of these names, as [`unknown_variant`] does.
pub fn no_such_variant<K: Names>(alloc: Global, tag: &str, _names: &K) -> Error
    ensures { cause result ≢ out_of_memory → cause result ≡ unknown_variant tag.now K.names }
{
    unknown_variant(alloc, tag, K::names())
}
