//! Flattened values that are not inlined, and are only sent.
//!
//! Written by `tools/derive` from `spread.rs`: change that file, and write this one anew.

ghost use Rattle.std.specs.Prelude.{◌≡◌, ◌∷◌, [], Option, refl};
ghost use Rattle.content_ser.specs.Scripts.Sends.{Sends};
ghost use Rattle.content_ser.specs.Scripts.Standard.{tuple_script, element_first};
ghost use Rattle.content_ser.specs.Sending.Aside.{answer_of};
ghost use Rattle.content_ser.specs.Scripts.Own.{field_first, end_script, newtype_variant_script};
ghost use Rattle.content_ser.specs.Scripts.Own.{struct_script, struct_variant_script};
ghost use Rattle.content_ser.specs.Laws.StandardScripts.{leaf_lawful, option_lawful, seq_lawful};
ghost use Rattle.content_ser.specs.Laws.StandardScripts.{map_lawful, tuple_lawful, element_fits};
ghost use Rattle.content_ser.specs.Laws.StandardScripts.{end_fits};
ghost use Rattle.content_ser.specs.Laws.OwnScripts.{field_fits, struct_end_fits};
ghost use Rattle.content_ser.specs.Laws.OwnScripts.{newtype_variant_lawful, struct_lawful};
ghost use Rattle.content_ser.specs.Laws.OwnScripts.{struct_variant_lawful};
ghost use Rattle.serde_content.specs.Literals.{name};
ghost use Rattle.serde_content.specs.Skips.{fields_less, field_unless};
ghost use Rattle.serde_content.specs.Entries.{flattened_unless, tag_first};
ghost use Rattle.serde_content.specs.Laws.Skips.{field_unless_fits};
ghost use Rattle.serde_content.specs.Laws.Flattened.{flattened_script, flattened_first};
ghost use Rattle.serde_content.specs.Laws.Flattened.{flattened_fits, flattened_end_fits};
ghost use Rattle.serde_content.specs.Laws.Flattened.{flattened_lawful};
ghost use Rattle.serde_content.specs.Laws.Entries.{flattened_unless_fits, pairs_fit, optional_fit};
ghost use Rattle.serde_content.specs.Laws.Tagged.{tagged_script};
ghost use Rattle.content_tree.specs.Values.Ranges as kind;
ghost use Rattle.check_fields.specs.declared.spread.Sight.TheVariants as sight;
ghost use Rattle.check_fields.specs.declared.spread.Sky.TheVariants as sky;
ghost use Rattle.check_fields.specs.declared.spread.Seer.TheVariants as seer;
ghost use Rattle.check_fields.specs.declared.spread.Record.TheVariants as the_record;

use serde_content::derive_support::{
    Names, SendAll, SendElement, SendEnd, SendEntries, SendEntry, SendEntryInside, SendEntryUnless,
    SendField, SendFieldUnless, SendInside, SendOpen, SendRest, SendTag, SendTagEntry, Skip,
    count_unless, send_row,
};
use serde_content::ser::{Call, Parts, Serialize, Serializer};
use serde_content::{Error, Result};
use std::alloc::Global;
use std::collections::{BTreeMap, HashMap};

/// When and where something was seen.
#[derive(Drop)]
pub struct Seen {
    /// When.
    pub at: u64,
    /// Where, if that is known.
    pub place: Option<String>,
}

/// The names of its fields.
#[derive(Drop)]
struct FieldsOfSeen;

impl Names for FieldsOfSeen {
    ghost names = { name "at" ∷ name "place" ∷ [] };

    #[tactic(auto, unfolding(serde_content::specs::Literals::name))]
    fn names() -> &'static [&'static str] {
        &["at", "place"]
    }
}

impl Serialize for Seen {
    ghost script = { λ p. struct_script (name "Seen")
        (fields_less (⟦<Option<String> as Skip>⟧.is_empty p.place) 2)
        (field_first (name "at") (⟦<u64 as Serialize>⟧.script p.at)
        (field_unless (⟦<Option<String> as Skip>⟧.is_empty p.place) (name "place")
        (⟦<Option<String> as Serialize>⟧.script p.place)
        end_script)) };

    ghost lawful = { λ p readable. struct_lawful
        (field_fits (leaf_lawful refl)
        (field_unless_fits _ _ _ _ (⟦<Option<String> as Skip>⟧.is_empty p.place)
        (option_lawful (λ x h. leaf_lawful refl) p.place readable)
        struct_end_fits)) };

    fn serialize<S: Serializer>(&self, alloc: Global, serializer: &mut S) -> Result<()> {
        let row = SendEnd;
        let row = SendFieldUnless(FieldsOfSeen, 1, &self.place, row);
        let row = SendField(FieldsOfSeen, 0, &self.at, row);
        let row = SendOpen(Call::Struct(name_seen(), count_unless(&self.place, 2)), row);
        send_row(alloc, serializer, &row)
    }
}

impl SendEntries for Seen {
    ghost entries = { λ p rest.
        (flattened_first (name "at") (⟦<u64 as Serialize>⟧.script p.at)
        (flattened_unless (⟦<Option<String> as Skip>⟧.is_empty p.place) (name "place")
        (⟦<Option<String> as Serialize>⟧.script p.place)
        rest)) };

    ghost fit = { λ p rest readable fit.
        (flattened_fits (leaf_lawful refl)
        (flattened_unless_fits _ _ _ _ (⟦<Option<String> as Skip>⟧.is_empty p.place)
        (option_lawful (λ x h. leaf_lawful refl) p.place readable)
        fit)) };

    fn send_entries<Following: serde_content::derive_support::SendRow, S: Serializer>(
        &self,
        rest: &Following,
        alloc: Global,
        serializer: &mut S,
        error: &mut Error,
    ) -> serde_content::ser::Sent {
        let row = SendRest(rest);
        let row = SendEntryUnless(FieldsOfSeen, 1, &self.place, row);
        let row = SendEntry(FieldsOfSeen, 0, &self.at, row);
        serde_content::derive_support::SendRow::send(&row, alloc, serializer, error)
    }
}

/// What was seen, by what is sent of it.
#[derive(Drop)]
pub enum Sight {
    /// So many birds of a kind.
    Birds {
        /// The kind.
        kind: String,
        /// How many.
        count: u32,
    },
    /// A trace of them.
    Trace(Seen),
    /// How many of other kinds.
    Others(HashMap<String, u8>),
    /// Nothing.
    Nothing,
}

/// The names of its fields.
#[derive(Drop)]
struct FieldsOfSightBirds;

impl Names for FieldsOfSightBirds {
    ghost names = { name "kind" ∷ name "count" ∷ [] };

    #[tactic(auto, unfolding(serde_content::specs::Literals::name))]
    fn names() -> &'static [&'static str] {
        &["kind", "count"]
    }
}

/// Sends that variant.
fn send_whole_sight_birds<S: Serializer>(
    alloc: Global,
    serializer: &mut S,
    whole: &Sight,
    kind: &String,
    count: &u32,
) -> Result<()>
    requires { whole.now ≡ sight.Birds kind.now count.now }
    ensures { Sends S.step S.refuses (S.seen serializer.old)
        (⟦<Sight as Serialize>⟧.script whole.now)
        result (S.seen serializer.new) }
{
    let row = SendEnd;
    let row = SendField(FieldsOfSightBirds, 1, count, row);
    let row = SendField(FieldsOfSightBirds, 0, kind, row);
    let row = SendOpen(Call::Struct(name_sight(), 2), row);
    send_row(alloc, serializer, &row)
}

impl Serialize for Sight {
    ghost use Rattle.check_fields.specs.contracts.spread.SeenSerialize.TheImpl.Laws as seen_serialize;

    ghost script = { elim [
      | sight.Birds x1 x2 ↦ struct_script (name "Sight") 2
          (field_first (name "kind") (⟦<String as Serialize>⟧.script x1)
          (field_first (name "count") (⟦<u32 as Serialize>⟧.script x2)
          end_script))
      | sight.Trace x1 ↦ ⟦<Seen as Serialize>⟧.script x1
      | sight.Others x1 ↦ ⟦<HashMap<String, u8> as Serialize>⟧.script x1
      | sight.Nothing ↦ ⟦<() as Serialize>⟧.script tt
    ] };

    ghost lawful = { elim [
      | sight.Birds x1 x2 ↦ λ readable. struct_lawful
          (field_fits (leaf_lawful refl)
          (field_fits (leaf_lawful refl)
          struct_end_fits))
      | sight.Trace x1 ↦ λ readable. seen_serialize.lawful-law x1 readable
      | sight.Others x1 ↦ λ readable. map_lawful (λ x h. leaf_lawful refl)
          (λ x h. leaf_lawful refl) x1.entries readable
      | sight.Nothing ↦ λ readable. leaf_lawful refl
    ] };

    fn serialize<S: Serializer>(&self, alloc: Global, serializer: &mut S) -> Result<()> {
        match self {
            Sight::Birds { kind, count } => {
                send_whole_sight_birds(alloc, serializer, self, kind, count)
            }
            Sight::Trace(x1) => x1.serialize(alloc, serializer),
            Sight::Others(x1) => x1.serialize(alloc, serializer),
            Sight::Nothing => ().serialize(alloc, serializer),
        }
    }
}

/// Sends the entries of that variant, and what follows them.
fn send_entries_of_sight_birds<Following: serde_content::derive_support::SendRow, S: Serializer>(
    whole: &Sight,
    kind: &String,
    count: &u32,
    rest: &Following,
    alloc: Global,
    serializer: &mut S,
    error: &mut Error,
) -> serde_content::ser::Sent
    requires { whole.now ≡ sight.Birds kind.now count.now }
    ensures { Sends S.step S.refuses (S.seen serializer.old)
        (⟦<Sight as SendEntries>⟧.entries whole.now (Following.script rest.now))
        (answer_of result error.new) (S.seen serializer.new) }
{
    let row = SendRest(rest);
    let row = SendEntry(FieldsOfSightBirds, 1, count, row);
    let row = SendEntry(FieldsOfSightBirds, 0, kind, row);
    serde_content::derive_support::SendRow::send(&row, alloc, serializer, error)
}

impl SendEntries for Sight {
    ghost use Rattle.check_fields.specs.contracts.spread.SeenSendEntries.TheImpl.Laws as seen_send_entries;

    ghost entries = { elim [
      | sight.Birds x1 x2 ↦ λ rest.
          (flattened_first (name "kind") (⟦<String as Serialize>⟧.script x1)
          (flattened_first (name "count") (⟦<u32 as Serialize>⟧.script x2)
          rest))
      | sight.Trace x1 ↦ λ rest. ⟦<Seen as SendEntries>⟧.entries x1 rest
      | sight.Others x1 ↦ λ rest. ⟦<HashMap<String, u8> as SendEntries>⟧.entries x1 rest
      | sight.Nothing ↦ λ rest. rest
    ] };

    ghost fit = { elim [
      | sight.Birds x1 x2 ↦ λ rest readable fit.
          (flattened_fits (leaf_lawful refl)
          (flattened_fits (leaf_lawful refl)
          fit))
      | sight.Trace x1 ↦ λ rest readable fit. seen_send_entries.fit-law x1 rest readable
          fit
      | sight.Others x1 ↦ λ rest readable fit. pairs_fit (λ x h. leaf_lawful refl)
          (λ x h. leaf_lawful refl) x1.entries rest readable fit
      | sight.Nothing ↦ λ rest readable fit. fit
    ] };

    fn send_entries<Following: serde_content::derive_support::SendRow, S: Serializer>(
        &self,
        rest: &Following,
        alloc: Global,
        serializer: &mut S,
        error: &mut Error,
    ) -> serde_content::ser::Sent {
        match self {
            Sight::Birds { kind, count } => {
                send_entries_of_sight_birds(self, kind, count, rest, alloc, serializer, error)
            }
            Sight::Trace(x1) => SendEntries::send_entries(x1, rest, alloc, serializer, error),
            Sight::Others(x1) => SendEntries::send_entries(x1, rest, alloc, serializer, error),
            Sight::Nothing => {
                serde_content::derive_support::SendRow::send(rest, alloc, serializer, error)
            }
        }
    }
}

/// The weather, by the field `sky`.
#[derive(Drop)]
pub enum Sky {
    /// No clouds.
    Clear,
    /// Clouds.
    Clouds {
        /// In tenths of the sky.
        tenths: u8,
    },
}

/// The names of its fields.
#[derive(Drop)]
struct FieldsOfSkyClear;

impl Names for FieldsOfSkyClear {
    ghost names = { name "sky" ∷ [] };

    #[tactic(auto, unfolding(serde_content::specs::Literals::name))]
    fn names() -> &'static [&'static str] {
        &["sky"]
    }
}

/// The names of its fields.
#[derive(Drop)]
struct FieldsOfSkyClouds;

impl Names for FieldsOfSkyClouds {
    ghost names = { name "sky" ∷ name "tenths" ∷ [] };

    #[tactic(auto, unfolding(serde_content::specs::Literals::name))]
    fn names() -> &'static [&'static str] {
        &["sky", "tenths"]
    }
}

/// Sends that variant.
fn send_whole_sky_clouds<S: Serializer>(
    alloc: Global,
    serializer: &mut S,
    whole: &Sky,
    tenths: &u8,
) -> Result<()>
    requires { whole.now ≡ sky.Clouds tenths.now }
    ensures { Sends S.step S.refuses (S.seen serializer.old)
        (⟦<Sky as Serialize>⟧.script whole.now)
        result (S.seen serializer.new) }
{
    let row = SendEnd;
    let row = SendField(FieldsOfSkyClouds, 1, tenths, row);
    let row = SendTag(FieldsOfSkyClouds, NamesOfSky, 1, row);
    let row = SendOpen(Call::Struct(name_sky(), 2), row);
    send_row(alloc, serializer, &row)
}

/// The names of its variants.
#[derive(Drop)]
struct NamesOfSky;

impl Names for NamesOfSky {
    ghost names = { name "Clear" ∷ name "Clouds" ∷ [] };

    #[tactic(auto, unfolding(serde_content::specs::Literals::name))]
    fn names() -> &'static [&'static str] {
        &["Clear", "Clouds"]
    }
}

impl Serialize for Sky {
    ghost script = { elim [
      | sky.Clear ↦ tagged_script (name "Sky") 1 (name "sky") (name "Clear")
          end_script
      | sky.Clouds x1 ↦ tagged_script (name "Sky") 2 (name "sky") (name "Clouds")
          (field_first (name "tenths") (⟦<u8 as Serialize>⟧.script x1)
          end_script)
    ] };

    ghost lawful = { elim [
      | sky.Clear ↦ λ readable. struct_lawful
          (field_fits (leaf_lawful refl)
          struct_end_fits)
      | sky.Clouds x1 ↦ λ readable. struct_lawful
          (field_fits (leaf_lawful refl)
          (field_fits (leaf_lawful refl)
          struct_end_fits))
    ] };

    fn serialize<S: Serializer>(&self, alloc: Global, serializer: &mut S) -> Result<()> {
        match self {
            Sky::Clear => {
                let row = SendEnd;
                let row = SendTag(FieldsOfSkyClear, NamesOfSky, 0, row);
                let row = SendOpen(Call::Struct(name_sky(), 1), row);
                send_row(alloc, serializer, &row)
            }
            Sky::Clouds { tenths } => send_whole_sky_clouds(alloc, serializer, self, tenths),
        }
    }
}

/// Sends the entries of that variant, and what follows them.
fn send_entries_of_sky_clouds<Following: serde_content::derive_support::SendRow, S: Serializer>(
    whole: &Sky,
    tenths: &u8,
    rest: &Following,
    alloc: Global,
    serializer: &mut S,
    error: &mut Error,
) -> serde_content::ser::Sent
    requires { whole.now ≡ sky.Clouds tenths.now }
    ensures { Sends S.step S.refuses (S.seen serializer.old)
        (⟦<Sky as SendEntries>⟧.entries whole.now (Following.script rest.now))
        (answer_of result error.new) (S.seen serializer.new) }
{
    let row = SendRest(rest);
    let row = SendEntry(FieldsOfSkyClouds, 1, tenths, row);
    let row = SendTagEntry(FieldsOfSkyClouds, NamesOfSky, 1, row);
    serde_content::derive_support::SendRow::send(&row, alloc, serializer, error)
}

impl SendEntries for Sky {
    ghost entries = { elim [
      | sky.Clear ↦ λ rest.
          (tag_first (name "sky") (name "Clear")
          rest)
      | sky.Clouds x1 ↦ λ rest.
          (tag_first (name "sky") (name "Clouds")
          (flattened_first (name "tenths") (⟦<u8 as Serialize>⟧.script x1)
          rest))
    ] };

    ghost fit = { elim [
      | sky.Clear ↦ λ rest readable fit.
          (flattened_fits (leaf_lawful refl)
          fit)
      | sky.Clouds x1 ↦ λ rest readable fit.
          (flattened_fits (leaf_lawful refl)
          (flattened_fits (leaf_lawful refl)
          fit))
    ] };

    fn send_entries<Following: serde_content::derive_support::SendRow, S: Serializer>(
        &self,
        rest: &Following,
        alloc: Global,
        serializer: &mut S,
        error: &mut Error,
    ) -> serde_content::ser::Sent {
        match self {
            Sky::Clear => {
                let row = SendRest(rest);
                let row = SendTagEntry(FieldsOfSkyClear, NamesOfSky, 0, row);
                serde_content::derive_support::SendRow::send(&row, alloc, serializer, error)
            }
            Sky::Clouds { tenths } => {
                send_entries_of_sky_clouds(self, tenths, rest, alloc, serializer, error)
            }
        }
    }
}

/// Who saw it, by the field `by`.
#[derive(Drop)]
pub enum Seer {
    /// Somebody.
    Unknown,
    /// One.
    One(String),
    /// Two at once.
    Two(String, String),
}

/// The names of its fields.
#[derive(Drop)]
struct FieldsOfSeerUnknown;

impl Names for FieldsOfSeerUnknown {
    ghost names = { name "by" ∷ [] };

    #[tactic(auto, unfolding(serde_content::specs::Literals::name))]
    fn names() -> &'static [&'static str] {
        &["by"]
    }
}

/// The names of its fields.
#[derive(Drop)]
struct FieldsOfSeerOne;

impl Names for FieldsOfSeerOne {
    ghost names = { name "by" ∷ name "who" ∷ [] };

    #[tactic(auto, unfolding(serde_content::specs::Literals::name))]
    fn names() -> &'static [&'static str] {
        &["by", "who"]
    }
}

/// Sends that variant.
fn send_whole_seer_one<S: Serializer>(
    alloc: Global,
    serializer: &mut S,
    whole: &Seer,
    x1: &String,
) -> Result<()>
    requires { whole.now ≡ seer.One x1.now }
    ensures { Sends S.step S.refuses (S.seen serializer.old)
        (⟦<Seer as Serialize>⟧.script whole.now)
        result (S.seen serializer.new) }
{
    let row = SendEnd;
    let row = SendField(FieldsOfSeerOne, 1, x1, row);
    let row = SendTag(FieldsOfSeerOne, NamesOfSeer, 1, row);
    let row = SendOpen(Call::Struct(name_seer(), 2), row);
    send_row(alloc, serializer, &row)
}

/// The names of its fields.
#[derive(Drop)]
struct FieldsOfSeerTwo;

impl Names for FieldsOfSeerTwo {
    ghost names = { name "by" ∷ name "who" ∷ [] };

    #[tactic(auto, unfolding(serde_content::specs::Literals::name))]
    fn names() -> &'static [&'static str] {
        &["by", "who"]
    }
}

/// Sends that variant.
fn send_whole_seer_two<S: Serializer>(
    alloc: Global,
    serializer: &mut S,
    whole: &Seer,
    x1: &String,
    x2: &String,
) -> Result<()>
    requires { whole.now ≡ seer.Two x1.now x2.now }
    ensures { Sends S.step S.refuses (S.seen serializer.old)
        (⟦<Seer as Serialize>⟧.script whole.now)
        result (S.seen serializer.new) }
{
    let row = SendEnd;
    let row = SendElement(x2, row);
    let row = SendElement(x1, row);
    let row = SendOpen(Call::Tuple(2), row);
    let row = SendInside(FieldsOfSeerTwo, 1, row, SendEnd);
    let row = SendTag(FieldsOfSeerTwo, NamesOfSeer, 2, row);
    let row = SendOpen(Call::Struct(name_seer(), 2), row);
    send_row(alloc, serializer, &row)
}

/// The names of its variants.
#[derive(Drop)]
struct NamesOfSeer;

impl Names for NamesOfSeer {
    ghost names = { name "Unknown" ∷ name "One" ∷ name "Two" ∷ [] };

    #[tactic(auto, unfolding(serde_content::specs::Literals::name))]
    fn names() -> &'static [&'static str] {
        &["Unknown", "One", "Two"]
    }
}

impl Serialize for Seer {
    ghost script = { elim [
      | seer.Unknown ↦ tagged_script (name "Seer") 1 (name "by") (name "Unknown")
          end_script
      | seer.One x1 ↦ tagged_script (name "Seer") 2 (name "by") (name "One")
          (field_first (name "who") (⟦<String as Serialize>⟧.script x1)
          end_script)
      | seer.Two x1 x2 ↦ tagged_script (name "Seer") 2 (name "by") (name "Two")
          (field_first (name "who") (tuple_script 2
          (element_first (⟦<String as Serialize>⟧.script x1)
          (element_first (⟦<String as Serialize>⟧.script x2)
          end_script)))
          end_script)
    ] };

    ghost lawful = { elim [
      | seer.Unknown ↦ λ readable. struct_lawful
          (field_fits (leaf_lawful refl)
          struct_end_fits)
      | seer.One x1 ↦ λ readable. struct_lawful
          (field_fits (leaf_lawful refl)
          (field_fits (leaf_lawful refl)
          struct_end_fits))
      | seer.Two x1 x2 ↦ λ readable. struct_lawful
          (field_fits (leaf_lawful refl)
          (field_fits (tuple_lawful
          (element_fits (leaf_lawful refl)
          (element_fits (leaf_lawful refl)
          end_fits)))
          struct_end_fits))
    ] };

    fn serialize<S: Serializer>(&self, alloc: Global, serializer: &mut S) -> Result<()> {
        match self {
            Seer::Unknown => {
                let row = SendEnd;
                let row = SendTag(FieldsOfSeerUnknown, NamesOfSeer, 0, row);
                let row = SendOpen(Call::Struct(name_seer(), 1), row);
                send_row(alloc, serializer, &row)
            }
            Seer::One(x1) => send_whole_seer_one(alloc, serializer, self, x1),
            Seer::Two(x1, x2) => send_whole_seer_two(alloc, serializer, self, x1, x2),
        }
    }
}

/// Sends the entries of that variant, and what follows them.
fn send_entries_of_seer_one<Following: serde_content::derive_support::SendRow, S: Serializer>(
    whole: &Seer,
    x1: &String,
    rest: &Following,
    alloc: Global,
    serializer: &mut S,
    error: &mut Error,
) -> serde_content::ser::Sent
    requires { whole.now ≡ seer.One x1.now }
    ensures { Sends S.step S.refuses (S.seen serializer.old)
        (⟦<Seer as SendEntries>⟧.entries whole.now (Following.script rest.now))
        (answer_of result error.new) (S.seen serializer.new) }
{
    let row = SendRest(rest);
    let row = SendEntry(FieldsOfSeerOne, 1, x1, row);
    let row = SendTagEntry(FieldsOfSeerOne, NamesOfSeer, 1, row);
    serde_content::derive_support::SendRow::send(&row, alloc, serializer, error)
}

/// Sends the entries of that variant, and what follows them.
fn send_entries_of_seer_two<Following: serde_content::derive_support::SendRow, S: Serializer>(
    whole: &Seer,
    x1: &String,
    x2: &String,
    rest: &Following,
    alloc: Global,
    serializer: &mut S,
    error: &mut Error,
) -> serde_content::ser::Sent
    requires { whole.now ≡ seer.Two x1.now x2.now }
    ensures { Sends S.step S.refuses (S.seen serializer.old)
        (⟦<Seer as SendEntries>⟧.entries whole.now (Following.script rest.now))
        (answer_of result error.new) (S.seen serializer.new) }
{
    let row = SendEnd;
    let row = SendElement(x2, row);
    let row = SendElement(x1, row);
    let row = SendOpen(Call::Tuple(2), row);
    let row = SendEntryInside(FieldsOfSeerTwo, 1, row, SendRest(rest));
    let row = SendTagEntry(FieldsOfSeerTwo, NamesOfSeer, 2, row);
    serde_content::derive_support::SendRow::send(&row, alloc, serializer, error)
}

impl SendEntries for Seer {
    ghost entries = { elim [
      | seer.Unknown ↦ λ rest.
          (tag_first (name "by") (name "Unknown")
          rest)
      | seer.One x1 ↦ λ rest.
          (tag_first (name "by") (name "One")
          (flattened_first (name "who") (⟦<String as Serialize>⟧.script x1)
          rest))
      | seer.Two x1 x2 ↦ λ rest.
          (tag_first (name "by") (name "Two")
          (flattened_first (name "who") (tuple_script 2
          (element_first (⟦<String as Serialize>⟧.script x1)
          (element_first (⟦<String as Serialize>⟧.script x2)
          end_script)))
          rest))
    ] };

    ghost fit = { elim [
      | seer.Unknown ↦ λ rest readable fit.
          (flattened_fits (leaf_lawful refl)
          fit)
      | seer.One x1 ↦ λ rest readable fit.
          (flattened_fits (leaf_lawful refl)
          (flattened_fits (leaf_lawful refl)
          fit))
      | seer.Two x1 x2 ↦ λ rest readable fit.
          (flattened_fits (leaf_lawful refl)
          (flattened_fits (tuple_lawful
          (element_fits (leaf_lawful refl)
          (element_fits (leaf_lawful refl)
          end_fits)))
          fit))
    ] };

    fn send_entries<Following: serde_content::derive_support::SendRow, S: Serializer>(
        &self,
        rest: &Following,
        alloc: Global,
        serializer: &mut S,
        error: &mut Error,
    ) -> serde_content::ser::Sent {
        match self {
            Seer::Unknown => {
                let row = SendRest(rest);
                let row = SendTagEntry(FieldsOfSeerUnknown, NamesOfSeer, 0, row);
                serde_content::derive_support::SendRow::send(&row, alloc, serializer, error)
            }
            Seer::One(x1) => send_entries_of_seer_one(self, x1, rest, alloc, serializer, error),
            Seer::Two(x1, x2) => {
                send_entries_of_seer_two(self, x1, x2, rest, alloc, serializer, error)
            }
        }
    }
}

/// What was made of it, by the name of the field.
#[derive(Drop)]
pub enum Record {
    /// A sketch, on this page.
    Sketch(u32),
    /// A film.
    Film {
        /// The file.
        file: String,
        /// How long.
        seconds: u32,
    },
}

/// The names of its fields.
#[derive(Drop)]
struct FieldsOfRecordFilm;

impl Names for FieldsOfRecordFilm {
    ghost names = { name "file" ∷ name "seconds" ∷ [] };

    #[tactic(auto, unfolding(serde_content::specs::Literals::name))]
    fn names() -> &'static [&'static str] {
        &["file", "seconds"]
    }
}

/// Sends that variant.
fn send_whole_record_film<S: Serializer>(
    alloc: Global,
    serializer: &mut S,
    whole: &Record,
    file: &String,
    seconds: &u32,
) -> Result<()>
    requires { whole.now ≡ the_record.Film file.now seconds.now }
    ensures { Sends S.step S.refuses (S.seen serializer.old)
        (⟦<Record as Serialize>⟧.script whole.now)
        result (S.seen serializer.new) }
{
    let row = SendEnd;
    let row = SendField(FieldsOfRecordFilm, 1, seconds, row);
    let row = SendField(FieldsOfRecordFilm, 0, file, row);
    let row = SendOpen(Call::StructVariant(name_record(), 1, name_film(), 2), row);
    send_row(alloc, serializer, &row)
}

/// The names of its variants.
#[derive(Drop)]
struct NamesOfRecord;

impl Names for NamesOfRecord {
    ghost names = { name "Sketch" ∷ name "Film" ∷ [] };

    #[tactic(auto, unfolding(serde_content::specs::Literals::name))]
    fn names() -> &'static [&'static str] {
        &["Sketch", "Film"]
    }
}

impl Serialize for Record {
    ghost script = { elim [
      | the_record.Sketch x1 ↦ newtype_variant_script (name "Record") 0 (name "Sketch")
          (⟦<u32 as Serialize>⟧.script x1)
      | the_record.Film x1 x2 ↦ struct_variant_script (name "Record") 1 (name "Film") 2
          (field_first (name "file") (⟦<String as Serialize>⟧.script x1)
          (field_first (name "seconds") (⟦<u32 as Serialize>⟧.script x2)
          end_script))
    ] };

    ghost lawful = { elim [
      | the_record.Sketch x1 ↦ λ readable. newtype_variant_lawful (leaf_lawful refl)
      | the_record.Film x1 x2 ↦ λ readable. struct_variant_lawful
          (field_fits (leaf_lawful refl)
          (field_fits (leaf_lawful refl)
          struct_end_fits))
    ] };

    fn serialize<S: Serializer>(&self, alloc: Global, serializer: &mut S) -> Result<()> {
        match self {
            Record::Sketch(x1) => {
                Call::NewtypeVariant(name_record(), 0, name_sketch()).around(x1, alloc, serializer)
            }
            Record::Film { file, seconds } => {
                send_whole_record_film(alloc, serializer, self, file, seconds)
            }
        }
    }
}

/// Sends the entries of that variant, and what follows them.
fn send_entries_of_record_film<Following: serde_content::derive_support::SendRow, S: Serializer>(
    whole: &Record,
    file: &String,
    seconds: &u32,
    rest: &Following,
    alloc: Global,
    serializer: &mut S,
    error: &mut Error,
) -> serde_content::ser::Sent
    requires { whole.now ≡ the_record.Film file.now seconds.now }
    ensures { Sends S.step S.refuses (S.seen serializer.old)
        (⟦<Record as SendEntries>⟧.entries whole.now (Following.script rest.now))
        (answer_of result error.new) (S.seen serializer.new) }
{
    let row = SendEnd;
    let row = SendField(FieldsOfRecordFilm, 1, seconds, row);
    let row = SendField(FieldsOfRecordFilm, 0, file, row);
    let row = SendOpen(Call::Struct(name_film(), 2), row);
    let row = SendEntryInside(NamesOfRecord, 1, row, SendRest(rest));
    serde_content::derive_support::SendRow::send(&row, alloc, serializer, error)
}

impl SendEntries for Record {
    ghost entries = { elim [
      | the_record.Sketch x1 ↦ λ rest.
          (flattened_first (name "Sketch") (⟦<u32 as Serialize>⟧.script x1)
          rest)
      | the_record.Film x1 x2 ↦ λ rest.
          (flattened_first (name "Film") (struct_script (name "Film") 2
          (field_first (name "file") (⟦<String as Serialize>⟧.script x1)
          (field_first (name "seconds") (⟦<u32 as Serialize>⟧.script x2)
          end_script)))
          rest)
    ] };

    ghost fit = { elim [
      | the_record.Sketch x1 ↦ λ rest readable fit.
          (flattened_fits (leaf_lawful refl)
          fit)
      | the_record.Film x1 x2 ↦ λ rest readable fit.
          (flattened_fits (struct_lawful
          (field_fits (leaf_lawful refl)
          (field_fits (leaf_lawful refl)
          struct_end_fits)))
          fit)
    ] };

    fn send_entries<Following: serde_content::derive_support::SendRow, S: Serializer>(
        &self,
        rest: &Following,
        alloc: Global,
        serializer: &mut S,
        error: &mut Error,
    ) -> serde_content::ser::Sent {
        match self {
            Record::Sketch(x1) => {
                let row = SendRest(rest);
                let row = SendEntry(NamesOfRecord, 0, x1, row);
                serde_content::derive_support::SendRow::send(&row, alloc, serializer, error)
            }
            Record::Film { file, seconds } => {
                send_entries_of_record_film(self, file, seconds, rest, alloc, serializer, error)
            }
        }
    }
}

/// A page of a diary.
#[derive(Drop)]
pub struct Page {
    /// The day.
    pub day: i32,
    /// What it is filed under.
    pub tags: Vec<String>,
    /// When and where, if something was seen.
    pub seen: Option<Seen>,
    /// What was seen.
    pub sight: Sight,
    /// The weather.
    pub sky: Sky,
    /// Who saw it.
    pub seer: Box<Seer>,
    /// What was made of it.
    pub record: Record,
    /// Anything else.
    pub more: BTreeMap<String, i64>,
    /// What was found where it was read.
    pub unknown: BTreeMap<String, String>,
}

/// The names of its fields.
#[derive(Drop)]
struct FieldsOfPage;

impl Names for FieldsOfPage {
    ghost names = { name "day" ∷ name "tags" ∷ [] };

    #[tactic(auto, unfolding(serde_content::specs::Literals::name))]
    fn names() -> &'static [&'static str] {
        &["day", "tags"]
    }
}

impl Serialize for Page {
    ghost use Rattle.check_fields.specs.contracts.spread.SeenSendEntries.TheImpl.Laws as seen_send_entries;
    ghost use Rattle.check_fields.specs.contracts.spread.SightSendEntries.TheImpl.Laws as sight_send_entries;
    ghost use Rattle.check_fields.specs.contracts.spread.SkySendEntries.TheImpl.Laws as sky_send_entries;
    ghost use Rattle.check_fields.specs.contracts.spread.SeerSendEntries.TheImpl.Laws as seer_send_entries;
    ghost use Rattle.check_fields.specs.contracts.spread.RecordSendEntries.TheImpl.Laws as record_send_entries;

    ghost script = { λ p. flattened_script
        (flattened_first (name "day") (⟦<i32 as Serialize>⟧.script p.day)
        (flattened_unless (⟦<Vec<String> as Skip>⟧.is_empty p.tags) (name "tags")
        (⟦<Vec<String> as Serialize>⟧.script p.tags)
        (⟦<Option<Seen> as SendEntries>⟧.entries p.seen
        (⟦<Sight as SendEntries>⟧.entries p.sight
        (⟦<Sky as SendEntries>⟧.entries p.sky
        (⟦<Box<Seer> as SendEntries>⟧.entries p.seer
        (⟦<Record as SendEntries>⟧.entries p.«record»
        (⟦<BTreeMap<String, i64> as SendEntries>⟧.entries p.more
        end_script)))))))) };

    ghost lawful = { λ p readable. flattened_lawful
        (flattened_fits (leaf_lawful refl)
        (flattened_unless_fits _ _ _ _ (⟦<Vec<String> as Skip>⟧.is_empty p.tags)
        (seq_lawful (λ x h. leaf_lawful refl) p.tags.items readable)
        (optional_fit (λ x. seen_send_entries.fit-law x) p.seen
        (⟦<Sight as SendEntries>⟧.entries p.sight
        (⟦<Sky as SendEntries>⟧.entries p.sky
        (⟦<Box<Seer> as SendEntries>⟧.entries p.seer
        (⟦<Record as SendEntries>⟧.entries p.«record»
        (⟦<BTreeMap<String, i64> as SendEntries>⟧.entries p.more
        end_script))))) readable
        (sight_send_entries.fit-law p.sight (⟦<Sky as SendEntries>⟧.entries p.sky
        (⟦<Box<Seer> as SendEntries>⟧.entries p.seer
        (⟦<Record as SendEntries>⟧.entries p.«record»
        (⟦<BTreeMap<String, i64> as SendEntries>⟧.entries p.more
        end_script)))) readable
        (sky_send_entries.fit-law p.sky (⟦<Box<Seer> as SendEntries>⟧.entries p.seer
        (⟦<Record as SendEntries>⟧.entries p.«record»
        (⟦<BTreeMap<String, i64> as SendEntries>⟧.entries p.more
        end_script))) readable
        (seer_send_entries.fit-law p.seer.value
        (⟦<Record as SendEntries>⟧.entries p.«record»
        (⟦<BTreeMap<String, i64> as SendEntries>⟧.entries p.more
        end_script)) readable
        (record_send_entries.fit-law p.«record»
        (⟦<BTreeMap<String, i64> as SendEntries>⟧.entries p.more
        end_script) readable
        (pairs_fit (λ x h. leaf_lawful refl) (λ x h. leaf_lawful refl) p.more.entries
        end_script readable
        flattened_end_fits)))))))) };

    fn serialize<S: Serializer>(&self, alloc: Global, serializer: &mut S) -> Result<()> {
        let row = SendEnd;
        let row = SendAll(&self.more, row);
        let row = SendAll(&self.record, row);
        let row = SendAll(&self.seer, row);
        let row = SendAll(&self.sky, row);
        let row = SendAll(&self.sight, row);
        let row = SendAll(&self.seen, row);
        let row = SendEntryUnless(FieldsOfPage, 1, &self.tags, row);
        let row = SendEntry(FieldsOfPage, 0, &self.day, row);
        let row = SendOpen(Call::Map(None), row);
        send_row(alloc, serializer, &row)
    }
}

/// The name `Seen`.
#[tactic(auto, unfolding(serde_content::specs::Literals::name))]
fn name_seen() -> &'static str
    ensures { result.now ≡ name "Seen" }
{
    "Seen"
}

/// The name `Sight`.
#[tactic(auto, unfolding(serde_content::specs::Literals::name))]
fn name_sight() -> &'static str
    ensures { result.now ≡ name "Sight" }
{
    "Sight"
}

/// The name `Sky`.
#[tactic(auto, unfolding(serde_content::specs::Literals::name))]
fn name_sky() -> &'static str
    ensures { result.now ≡ name "Sky" }
{
    "Sky"
}

/// The name `Seer`.
#[tactic(auto, unfolding(serde_content::specs::Literals::name))]
fn name_seer() -> &'static str
    ensures { result.now ≡ name "Seer" }
{
    "Seer"
}

/// The name `Record`.
#[tactic(auto, unfolding(serde_content::specs::Literals::name))]
fn name_record() -> &'static str
    ensures { result.now ≡ name "Record" }
{
    "Record"
}

/// The name `Film`.
#[tactic(auto, unfolding(serde_content::specs::Literals::name))]
fn name_film() -> &'static str
    ensures { result.now ≡ name "Film" }
{
    "Film"
}

/// The name `Sketch`.
#[tactic(auto, unfolding(serde_content::specs::Literals::name))]
fn name_sketch() -> &'static str
    ensures { result.now ≡ name "Sketch" }
{
    "Sketch"
}
