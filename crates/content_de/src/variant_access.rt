//! What a variant of an enum holds, once its tag is read.

#![tactic(auto, using(crate::proofs::Values::values))]

ghost use Rattle.std.specs.Prelude.{◌≡◌, ◌≢◌, IfOk, IfErr};
ghost use Rattle.content_tree.specs.Errors.Kind.{IsOutOfMemory};
ghost use Rattle.content_tree.specs.Errors.Cause.{expectation_of, out_of_memory};
ghost use Rattle.content_tree.specs.Images.Found.{image_view};
ghost use Rattle.content_de.specs.Outcomes.{Answers, cause};
ghost use Rattle.content_de.specs.Sources.Deserializer.{flags_of, subject};
ghost use Rattle.content_de.specs.Requests.Names.{a_variant};
ghost use Rattle.content_de.specs.Accesses.Seq.{seq_view};
ghost use Rattle.content_de.specs.Accesses.Map.{map_view};
ghost use Rattle.content_de.specs.Accesses.Enum.{variant_view, held_of, held_image, wrong_sort};
ghost use Rattle.content_de.specs.Accesses.Enum.{requested_name, unit_variant_of};
ghost use Rattle.content_de.specs.Accesses.Enum.{newtype_variant_of, tuple_variant_of};
ghost use Rattle.content_de.specs.Accesses.Enum.{struct_variant_of};

use crate::contents::{
    Opened, is_nothing, map_pairs, seq_items, take_fields, take_value, take_values,
};
use crate::deserializer::Deserializer;
use crate::enum_access::Requested;
use crate::map::Map;
use crate::refusal::{a_variant, refusal};
use crate::seq::Seq;
use crate::source::Flags;
use content_tree::{DataType, Error, Expected, Found, NamedEnum, NamedValue, Result};
use std::alloc::Global;

/// What comes after a tag.
#[derive(Drop)]
pub(crate) enum Held<'de, 'n> {
    /// A variant itself.
    Node(Box<NamedEnum<'de, 'n>>),
    /// Nothing: the tag was a text.
    Nothing,
    /// The value of a map's one entry.
    Value(NamedValue<'de, 'n>),
}

/// Gives out what a variant of an enum holds. Where that fits what is asked for, no call takes
/// memory.
#[derive(Drop)]
pub struct VariantAccess<'de, 'n> {
    requested: Requested<'n>,
    held: Held<'de, 'n>,
    flags: Flags,
}

/// # Errors
///
/// `Unexpected`, with what the variant holds (the unit, where the tag was a text) and with the
/// sort of variant that was expected; out of memory in its place.
impl<'de, 'n> VariantAccess<'de, 'n> {
    /// What comes after a tag.
    pub(crate) fn new(
        requested: Requested<'n>,
        held: Held<'de, 'n>,
        flags: Flags,
    ) -> VariantAccess<'de, 'n>
        ensures { variant_view result ≡ record {
          requested = requested_name requested.entry (held_of held.entry);
          held = held_of held.entry;
          flags = flags_of flags;
        } }
    {
        VariantAccess {
            requested,
            held,
            flags,
        }
    }

    /// Reads no data: that of a unit variant, or of a tag that is a text.
    pub fn unit_variant(self, alloc: Global) -> Result<()>
        ensures { Answers (λ u. u) (unit_variant_of (variant_view self.entry)) result }
    {
        if self.held.is_nothing() {
            return Ok(());
        }
        Err(self.refuse(alloc, DataType::Unit))
    }

    /// Gives the one value of a newtype variant, or whatever a map's entry holds.
    pub fn newtype_deserializer(self, alloc: Global) -> Result<Deserializer<'de, 'n>>
        ensures { Answers subject (newtype_variant_of (variant_view self.entry)) result }
    {
        let VariantAccess {
            requested,
            held,
            flags,
        } = self;
        match held.into_value() {
            Ok(value) => Ok(Deserializer::inside(value, flags)),
            Err(held) => Err(VariantAccess::new(requested, held, flags).refuse(
                alloc,
                DataType::NewType,
            )),
        }
    }

    /// Gives the items of a tuple variant, or of a sequence that a map's entry holds. How many were
    /// expected isn't compared.
    pub fn tuple_variant(self, alloc: Global, _len: usize) -> Result<Seq<'de, 'n>>
        ensures { Answers seq_view (tuple_variant_of (variant_view self.entry)) result }
    {
        let VariantAccess {
            requested,
            held,
            flags,
        } = self;
        match held.into_values() {
            Ok(values) => Ok(Seq::new(values, flags)),
            Err(held) => Err(VariantAccess::new(requested, held, flags).refuse(
                alloc,
                DataType::Tuple,
            )),
        }
    }

    /// Gives the entries of an object-like variant, or of a map that a map's entry holds. Which
    /// fields were expected isn't compared.
    pub fn struct_variant(self, alloc: Global, _fields: &[&str]) -> Result<Map<'de, 'n>>
        ensures { Answers map_view (struct_variant_of (variant_view self.entry)) result }
    {
        let VariantAccess {
            requested,
            held,
            flags,
        } = self;
        match held.into_map(flags) {
            Ok(entries) => Ok(entries),
            Err(held) => Err(VariantAccess::new(requested, held, flags).refuse(
                alloc,
                DataType::Struct,
            )),
        }
    }

    /// The error of finding this where a variant of this sort was expected.
    fn refuse(self, alloc: Global, typ: DataType) -> Error
        ensures { cause result ≢ out_of_memory →
            cause result ≡ wrong_sort (variant_view self.entry) typ }
    {
        let expected = self.expected(alloc, typ);
        refusal(self.held.into_found(alloc), expected)
    }

    /// A variant of this sort, of the enum that was asked for.
    fn expected(&self, alloc: Global, typ: DataType) -> Result<Expected>
        ensures value { IfOk result (λ e. expectation_of e
            ≡ a_variant (variant_view self.now).requested typ) }
        ensures memory { IfErr result (λ e. IsOutOfMemory e) }
    {
        match self.requested {
            Requested::Named(name) => a_variant(alloc, name, typ),
            Requested::Own => a_variant(alloc, self.held.own_name(), typ),
        }
    }
}

impl<'de, 'n> Held<'de, 'n> {
    ghost use Rattle.std.specs.Prelude.{Some, None, MatchResult, option_map};
    ghost use Rattle.content_tree.specs.Values.Value.{tree_of, trees_view};
    ghost use Rattle.content_de.specs.Accesses.Map.{entries_under};
    ghost use Rattle.content_de.specs.Accesses.Enum.{own_name, holds_nothing};
    ghost use Rattle.content_de.specs.Accesses.Enum.{one_held, many_held, entries_held};

    /// Whether there is no data.
    fn is_nothing(&self) -> bool
        ensures { result ≡ holds_nothing (held_of self.now) }
    {
        match self {
            Held::Node(node) => is_nothing(&node.data),
            Held::Nothing => true,
            Held::Value(_) => false,
        }
    }

    /// The name of the variant's own enum.
    fn own_name(&self) -> &str
        ensures { result.now ≡ own_name (held_of self.now) }
    {
        match self {
            Held::Node(node) => node.name.as_str(),
            _ => "",
        }
    }

    /// The one value of a newtype variant, or that of a map's entry; else what is held.
    fn into_value(self) -> Opened<NamedValue<'de, 'n>, Held<'de, 'n>>
        ensures { MatchResult result
            (λ v. one_held (held_of self.entry) ≡ Some (tree_of v))
            (λ p. (one_held (held_of self.entry) ≡ None) × (held_of p ≡ held_of self.entry)) }
    {
        match self {
            Held::Node(mut node) => match take_value(&mut node.data) {
                Some(value) => Ok(value),
                None => Err(Held::Node(node)),
            },
            Held::Nothing => Err(Held::Nothing),
            Held::Value(value) => Ok(value),
        }
    }

    /// The items of a tuple variant, or of a sequence in a map's entry; else what is held.
    fn into_values(self) -> Opened<Vec<NamedValue<'de, 'n>>, Held<'de, 'n>>
        ensures { MatchResult result
            (λ vs. many_held (held_of self.entry) ≡ Some (trees_view vs.items))
            (λ p. (many_held (held_of self.entry) ≡ None) × (held_of p ≡ held_of self.entry)) }
    {
        match self {
            Held::Node(mut node) => match take_values(&mut node.data) {
                Some(values) => Ok(values),
                None => Err(Held::Node(node)),
            },
            Held::Nothing => Err(Held::Nothing),
            Held::Value(value) => match seq_items(value) {
                Ok(values) => Ok(values),
                Err(value) => Err(Held::Value(value)),
            },
        }
    }

    /// The entries of an object-like variant, or of a map in a map's entry; else what is held.
    fn into_map(self, flags: Flags) -> Opened<Map<'de, 'n>, Held<'de, 'n>>
        ensures { MatchResult result
            (λ m. option_map (entries_under (flags_of flags)) (entries_held (held_of self.entry))
            ≡ Some (map_view m))
            (λ p. (entries_held (held_of self.entry) ≡ None) × (held_of p ≡ held_of self.entry)) }
    {
        match self {
            Held::Node(mut node) => match take_fields(&mut node.data) {
                Some(fields) => Ok(Map::fields(fields, flags)),
                None => Err(Held::Node(node)),
            },
            Held::Nothing => Err(Held::Nothing),
            Held::Value(value) => match map_pairs(value) {
                Ok(pairs) => Ok(Map::pairs(pairs, flags)),
                Err(value) => Err(Held::Value(value)),
            },
        }
    }

    /// The image of what is held.
    fn into_found(self, alloc: Global) -> Result<Found>
        ensures value { IfOk result (λ f. image_view f ≡ held_image (held_of self.entry)) }
        ensures memory { IfErr result (λ e. IsOutOfMemory e) }
    {
        match self {
            Held::Node(node) => NamedValue::Enum(node).into_found(alloc),
            Held::Nothing => Ok(Found::Unit),
            Held::Value(value) => value.into_found(alloc),
        }
    }
}
