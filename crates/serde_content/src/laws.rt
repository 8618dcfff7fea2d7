//! Laws of the definitions, each a call that answers nothing and whose contract is the law; and
//! what the comparisons mean.

#![tactic(auto, using(content_build::proofs::Agreement::one_tree, content_build::proofs::Agreement::unique_cut))]

ghost use Rattle.content_ser.specs.Laws.Lists.{OneTree, UniqueCut};
ghost use Rattle.content_ser.specs.Sending.Canonical.{EqualCalls};
ghost use Rattle.serde_content.specs.Choices.{FirstComesBack, SecondComesBack};
ghost use Rattle.serde_content.specs.Laws.Lookups.{EqualKeys, JoinedPairs, LastPair, MissingKey};

use crate::round::RoundTrip;
pub use content_build::laws::{
    canonical_is_built, canonical_is_missing, compare_serializers, equal_refusals,
    equal_serializers, sent_is_listed, steps_are_exact,
};
pub use content_de::laws::{
    coercion_keeps, compare_deserializers, equal_deserializers, plain_once, plain_variant,
};
pub use content_ser::laws::{
    canonical_once, canonical_or_stops, canonical_spelled, equal_by_contents, loose_once,
    script_spells, static_is_canonical,
};
pub use content_tree::laws::{
    compare_errors, compare_expected, compare_kinds, compare_numbers, compare_types, empty_path,
    equal_bytes, equal_data, equal_enums, equal_errors, equal_expected, equal_found_data,
    equal_images, equal_kinds, equal_numbers, equal_structs, equal_texts, equal_types,
    equal_values, inserted_is_got, inserted_then_removed, joined_paths, named_index,
    removed_is_found, removed_is_gone, set_is_found, spelled_parts, taken_twice,
};

/// No whole list of calls is a proper beginning of another: a stream of trees can be cut in one
/// way only.
pub fn unique_cut()
    ensures { UniqueCut }
{}

/// One list of calls spells one tree.
pub fn one_tree()
    ensures { OneTree }
{}

/// Two trees that have canonical forms are sent by the same calls exactly if those forms are equal,
/// whatever is borrowed in them.
pub fn equal_calls()
    ensures { EqualCalls }
{}

/// Keys that are equal find the same, whatever is borrowed or static in them.
pub fn equal_keys()
    ensures { EqualKeys }
{}

/// Where pairs are put together a key finds what it finds in the later ones, or else in the earlier
/// ones.
pub fn joined_pairs()
    ensures { JoinedPairs }
{}

/// A pair put last is what each key that equals its own finds.
pub fn last_pair()
    ensures { LastPair }
{}

/// A key finds nothing exactly where none equals it.
pub fn missing_key()
    ensures { MissingKey }
{}

/// The law of two types that are tried one after another: what was sent of the first comes back as
/// an equal value of the first, and what was sent of the second as one of the second, where the
/// first refuses it.
pub fn tried_in_order<'de, A: RoundTrip<'de>, B: RoundTrip<'de>>()
    ensures first { FirstComesBack A.exists A.script A.refusal A.gives A.eq B.refusal B.gives }
    ensures second { SecondComesBack A.refusal A.gives B.exists B.script B.refusal B.gives B.eq }
{}
