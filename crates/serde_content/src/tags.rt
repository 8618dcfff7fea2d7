//! Tags that stand for the names of variants, for what `tools/derive` writes: aliases, and those of
//! a variant that takes every other tag.

ghost use Rattle.std.specs.Prelude.{◌≡◌, ℕ, List, [], slice_index_or};
ghost use Rattle.content_de.specs.Sources.Deserializer.{subject};
ghost use Rattle.content_de.specs.Reads.Own.{enum_refusal};
ghost use Rattle.content_de.specs.Reads.Read.{Reads};
ghost use Rattle.serde_content.specs.Tags.{EnumGivesBy, meant, meant_among};

use crate::name_lists::{Names, index_of, name_at};
use crate::variants::{Variants, in_variant};
use content_de::Deserializer;
use content_tree::{CowStr, Result};
use std::alloc::Global;
use std::marker::PhantomData;

/// What tags stand for.
pub trait Tags {
    /// The name that a tag stands for.
    ghost meant: { List ℕ → List ℕ };

    /// The name that a tag stands for. It takes no memory.
    fn meant(tag: &str) -> &str
        ensures { result.now ≡ meant tag.now };
}

/// Each tag stands for itself.
#[derive(Drop)]
pub struct OwnNames;

impl Tags for OwnNames {
    ghost meant = { λ tag. tag };

    fn meant(tag: &str) -> &str {
        tag
    }
}

/// A tag that is one of the names `A` stands for the name in its place of the names `M`.
#[derive(Drop)]
pub struct Aliases<A, M>(PhantomData<(A, M)>);

impl<A: Names, M: Names> Tags for Aliases<A, M> {
    ghost meant = { λ tag. meant A.names M.names tag };

    fn meant(tag: &str) -> &str {
        match index_of::<A>(tag) {
            Some(index) => name_at::<M>(index),
            None => tag,
        }
    }
}

/// A tag that stands for none of the names `K` stands for the one of the index `I`.
#[derive(Drop)]
pub struct OtherAt<N, K, const I: usize>(PhantomData<(N, K)>);

impl<N: Tags, K: Names, const I: usize> Tags for OtherAt<N, K, I> {
    ghost meant = { λ tag. meant_among K.names (slice_index_or K.names I []) (N.meant tag) };

    fn meant(tag: &str) -> &str {
        let tag = N::meant(tag);
        match index_of::<K>(tag) {
            Some(_) => tag,
            None => name_at::<K>(I),
        }
    }
}

/// Reads an enum that is tagged externally: its tag, and then the variant whose name it stands for.
///
/// # Errors
///
/// As those of [`read_enum`](crate::derive_support::read_enum).
pub fn read_enum_by<'de, 'n: 'de, N: Tags, T: Variants<'de>>(
    alloc: Global,
    from: Deserializer<'de, 'n>,
) -> Result<T>
    ensures { Reads (enum_refusal T.name (λ tag. T.refusal (N.meant tag)) (subject from.entry))
        (λ y. EnumGivesBy N.meant T.name (T.named y) (T.held y) (subject from.entry)) result }
{
    let access = from.deserialize_enum(alloc, T::name(), T::names())?;
    let (tag, variant) = access.variant::<CowStr<'de>>(alloc)?;
    let name = N::meant(tag.as_str());
    match T::read_variant(alloc, name, variant) {
        Ok(value) => Ok(value),
        Err(error) => Err(in_variant(alloc, name, tag.as_str(), T::names(), error)),
    }
}
