//! The request for a variant of an enum.

#![tactic(auto, using(crate::proofs::Values::values))]

ghost use Rattle.std.specs.Prelude.{◌≡◌, ◌≢◌, ◌∷◌, [], length, MatchResult};
ghost use Rattle.content_tree.specs.Values.Tree.{map};
ghost use Rattle.content_tree.specs.Values.Value.{pairs_view};
ghost use Rattle.content_de.specs.Outcomes.{Answers};
ghost use Rattle.content_de.specs.Sources.Origin.{of_tree};
ghost use Rattle.content_de.specs.Sources.Deserializer.{flags_of, subject};
ghost use Rattle.content_de.specs.Accesses.Enum.{enum_view, enum_at, enum_from};

use crate::deserializer::Deserializer;
use crate::enum_access::{EnumAccess, Requested, Tagged};
use crate::source::{Flags, Source};
use content_tree::{NamedValue, Result};
use std::alloc::Global;

/// A pair of a map.
type Pair<'de, 'n> = (NamedValue<'de, 'n>, NamedValue<'de, 'n>);

impl<'de, 'n> Deserializer<'de, 'n> {
    /// Gives a variant of an enum: its own node, a text, or a map of exactly one entry. The name of
    /// the enum is for errors alone, and the variants that were expected aren't compared. Where
    /// what is found fits it takes no memory.
    ///
    /// # Errors
    ///
    /// `Unexpected`, with what was found and the name; out of memory in its place.
    pub fn deserialize_enum(
        self,
        alloc: Global,
        name: &'static str,
        _variants: &[&str],
    ) -> Result<EnumAccess<'de, 'n>>
        ensures { Answers enum_view (enum_at name.entry.now (subject self.entry)) result }
    {
        let Deserializer { source, flags } = self;
        match source {
            Source::Tree(NamedValue::Enum(node)) => Ok(EnumAccess {
                requested: Requested::Named(name),
                tagged: Tagged::Node(node),
                flags,
            }),
            Source::Tree(NamedValue::String(text)) => Ok(EnumAccess {
                requested: Requested::Named(name),
                tagged: Tagged::Text(text),
                flags,
            }),
            Source::Tree(NamedValue::Map(pairs)) => enum_of_pairs(alloc, pairs, name, flags),
            other => Err(other.refuse_enum(alloc, name)),
        }
    }
}

/// The one pair of a map, or the pairs as they were.
fn single<'de, 'n>(
    mut pairs: Vec<Pair<'de, 'n>>,
) -> std::result::Result<Pair<'de, 'n>, Vec<Pair<'de, 'n>>>
    ensures { MatchResult result (λ p. pairs.entry.items ≡ p ∷ [])
        (λ v. (v.items ≡ pairs.entry.items) × (length pairs.entry.items ≢ 1)) }
{
    if pairs.len() == 1 {
        if let Some(pair) = pairs.pop() {
            return Ok(pair);
        }
    }
    Err(pairs)
}

/// The variant that a map of one entry is read as.
#[tactic(auto, using(crate::proofs::Values::values, crate::proofs::Singles::not_single))]
fn enum_of_pairs<'de, 'n>(
    alloc: Global,
    pairs: Vec<Pair<'de, 'n>>,
    name: &'static str,
    flags: Flags,
) -> Result<EnumAccess<'de, 'n>>
    ensures { Answers enum_view (enum_from name.entry.now (flags_of flags)
        (of_tree (map (pairs_view pairs.entry.items)))) result }
{
    match single(pairs) {
        Ok((key, value)) => Ok(EnumAccess {
            requested: Requested::Named(name),
            tagged: Tagged::Entry(key, value),
            flags,
        }),
        Err(pairs) => {
            let other: Source<'de, 'n> = Source::Tree(NamedValue::Map(pairs));
            Err(other.refuse_enum(alloc, name))
        }
    }
}
