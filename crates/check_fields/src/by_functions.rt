//! Fields that functions of another module read and send.
//!
//! Written by `tools/derive` from `by_functions.rs`: change that file, and write this one anew.

ghost use Rattle.std.specs.Prelude.{◌≡◌, ◌∷◌, [], Option, None, refl};
ghost use Rattle.content_ser.specs.Scripts.Own.{field_first, end_script, struct_script};
ghost use Rattle.content_ser.specs.Laws.StandardScripts.{leaf_lawful};
ghost use Rattle.content_ser.specs.Laws.OwnScripts.{field_fits, struct_end_fits, struct_lawful};
ghost use Rattle.content_de.specs.Reads.ByName.{read_by_name, ReadByName, NoOthers};
ghost use Rattle.content_de.specs.Reads.Own.{struct_refusal, StructGives};
ghost use Rattle.serde_content.specs.Literals.{name, row_then, row_or_then, RowThen, RowOrThen};
ghost use Rattle.serde_content.specs.Literals.{others_left};
ghost use Rattle.serde_content.specs.Skips.{fields_less, field_unless};
ghost use Rattle.serde_content.specs.Laws.Skips.{field_unless_fits};
ghost use Rattle.check_fields.specs.Rules as rules_said;

use crate::rules;
use serde_content::de::{Deserialize, FieldsByName};
use serde_content::derive_support::{
    Absent, DefaultOf, Names, OthersSkipped, ReadField, ReadFieldElse, ReadFields, ReadStruct,
    SendEnd, SendField, SendFieldUnless, SendOpen, Skip, count_unless, read_struct, send_row,
};
use serde_content::ser::{Call, Serialize, Serializer};
use serde_content::{Deserializer, Result};
use std::alloc::Global;

/// A switch.
#[derive(Drop)]
pub struct Switch {
    /// Whether it is on: read out of a number, sent as a word.
    pub on: bool,
    /// Its name, if it has one.
    pub name: Option<String>,
    /// How often it was turned.
    pub turns: u32,
}

/// The names of its fields.
#[derive(Drop)]
struct FieldsOfSwitch;

impl Names for FieldsOfSwitch {
    ghost names = { name "on" ∷ name "name" ∷ name "turns" ∷ [] };

    #[tactic(auto, unfolding(serde_content::specs::Literals::name))]
    fn names() -> &'static [&'static str] {
        &["on", "name", "turns"]
    }
}

/// The field `on`, as it is sent.
#[derive(Drop)]
struct Send1OfSwitch<'sent>(&'sent bool);

impl<'sent> Serialize for Send1OfSwitch<'sent> {
    ghost script = { λ r. rules_said.serialize_script r.0.now };

    ghost lawful = { λ r readable. rules_said.serialize_lawful r.0.now readable };

    fn serialize<S: Serializer>(&self, alloc: Global, serializer: &mut S) -> Result<()> {
        rules::serialize(self.0, alloc, serializer)
    }
}

/// The field `name`, as it is sent.
#[derive(Drop)]
struct Send2OfSwitch<'sent>(&'sent Option<String>);

impl<'sent> Serialize for Send2OfSwitch<'sent> {
    ghost script = { λ r. rules_said.send_text_script r.0.now };

    ghost lawful = { λ r readable. rules_said.send_text_lawful r.0.now readable };

    fn serialize<S: Serializer>(&self, alloc: Global, serializer: &mut S) -> Result<()> {
        rules::send_text(self.0, alloc, serializer)
    }
}

impl<'sent> Skip for Send2OfSwitch<'sent> {
    ghost is_empty = { λ r. (⟦<Option<String> as Skip>⟧.is_empty r.0.now) };

    fn is_skipped(&self) -> bool {
        self.0.is_skipped()
    }
}

/// What is read for the field `on`.
#[derive(Drop)]
struct Read1OfSwitch(bool);

impl<'de> Deserialize<'de> for Read1OfSwitch {
    ghost refusal = { rules_said.deserialize_refusal };

    ghost gives = { λ s x. rules_said.DeserializeGives s x.0 };

    fn deserialize<'n: 'de>(alloc: Global, from: Deserializer<'de, 'n>) -> Result<Self> {
        Ok(Read1OfSwitch(rules::deserialize(alloc, from)?))
    }
}

/// What is read for the field `name`.
#[derive(Drop)]
struct Read2OfSwitch(Option<String>);

impl<'de> Deserialize<'de> for Read2OfSwitch {
    ghost refusal = { rules_said.read_text_refusal };

    ghost gives = { λ s x. rules_said.ReadTextGives s x.0 };

    fn deserialize<'n: 'de>(alloc: Global, from: Deserializer<'de, 'n>) -> Result<Self> {
        Ok(Read2OfSwitch(rules::read_text(alloc, from)?))
    }
}

/// What is read where the field `name` is missing.
#[derive(Drop)]
struct Default2OfSwitch;

impl DefaultOf<Read2OfSwitch> for Default2OfSwitch {
    ghost is_default = { λ x. x.0 ≡ None };

    fn make(alloc: Global) -> Result<Read2OfSwitch> {
        Ok(Read2OfSwitch(Absent::absent(alloc)))
    }
}

type Field1OfSwitch = ReadField<FieldsOfSwitch, 0, Read1OfSwitch, Field2OfSwitch>;

type Field2OfSwitch = ReadFieldElse<
    FieldsOfSwitch,
    1,
    Default2OfSwitch,
    Read2OfSwitch,
    Field3OfSwitch,
>;

type Field3OfSwitch = ReadField<FieldsOfSwitch, 2, u32, OthersSkipped<FieldsOfSwitch>>;

impl<'de> ReadStruct<'de> for Switch {
    ghost name = { name "Switch" };

    ghost refusal = { row_then (name "on")
        (⟦<Read1OfSwitch as Deserialize<'de>>⟧.refusal)
        (row_or_then (name "name") (⟦<Read2OfSwitch as Deserialize<'de>>⟧.refusal)
        (row_then (name "turns") (⟦<u32 as Deserialize<'de>>⟧.refusal)
        (others_left (name "on" ∷ name "name" ∷ name "turns" ∷ [])))) };

    ghost gives = { λ z.
        (RowThen (name "on") (⟦<Read1OfSwitch as Deserialize<'de>>⟧.gives)
        (record { 0 = z.on })
        (RowOrThen (name "name") (⟦<Default2OfSwitch as DefaultOf<Read2OfSwitch>>⟧.is_default) (⟦<Read2OfSwitch as Deserialize<'de>>⟧.gives) (record { 0 = z.name })
        (RowThen (name "turns") (⟦<u32 as Deserialize<'de>>⟧.gives) z.turns
        NoOthers))) };

    #[tactic(auto, unfolding(serde_content::specs::Literals::name))]
    fn name() -> &'static str {
        "Switch"
    }

    fn read<'n: 'de>(alloc: Global, fields: FieldsByName<'de, 'n>) -> Result<Switch> {
        let row: Field1OfSwitch = ReadFields::read(alloc, fields)?;
        let ReadField(Read1OfSwitch(on), row, _) = row;
        let ReadFieldElse(Read2OfSwitch(name), row, _) = row;
        let ReadField(turns, _, _) = row;
        Ok(Switch { on, name, turns })
    }
}

impl Serialize for Switch {
    ghost script = { λ p. struct_script (name "Switch")
        (fields_less (⟦<Option<String> as Skip>⟧.is_empty p.name) 3)
        (field_first (name "on") (rules_said.serialize_script p.on)
        (field_unless (⟦<Option<String> as Skip>⟧.is_empty p.name) (name "name")
        (rules_said.send_text_script p.name)
        (field_first (name "turns") (⟦<u32 as Serialize>⟧.script p.turns)
        end_script))) };

    ghost lawful = { λ p readable. struct_lawful
        (field_fits (rules_said.serialize_lawful p.on readable)
        (field_unless_fits _ _ _ _ (⟦<Option<String> as Skip>⟧.is_empty p.name)
        (rules_said.send_text_lawful p.name readable)
        (field_fits (leaf_lawful refl)
        struct_end_fits))) };

    fn serialize<S: Serializer>(&self, alloc: Global, serializer: &mut S) -> Result<()> {
        let sent_1 = Send1OfSwitch(&self.on);
        let sent_2 = Send2OfSwitch(&self.name);
        let row = SendEnd;
        let row = SendField(FieldsOfSwitch, 2, &self.turns, row);
        let row = SendFieldUnless(FieldsOfSwitch, 1, &sent_2, row);
        let row = SendField(FieldsOfSwitch, 0, &sent_1, row);
        let row = SendOpen(
            Call::Struct(name_switch(), count_unless(&self.name, 3)),
            row,
        );
        send_row(alloc, serializer, &row)
    }
}

impl<'de> Deserialize<'de> for Switch {
    ghost refusal = { struct_refusal (name "Switch") (read_by_name
        (row_then (name "on") (⟦<Read1OfSwitch as Deserialize<'de>>⟧.refusal)
        (row_or_then (name "name") (⟦<Read2OfSwitch as Deserialize<'de>>⟧.refusal)
        (row_then (name "turns") (⟦<u32 as Deserialize<'de>>⟧.refusal)
        (others_left (name "on" ∷ name "name" ∷ name "turns" ∷ [])))))) };

    ghost gives = { λ s p. StructGives (name "Switch") (ReadByName
        (RowThen (name "on") (⟦<Read1OfSwitch as Deserialize<'de>>⟧.gives)
        (record { 0 = p.on })
        (RowOrThen (name "name") (⟦<Default2OfSwitch as DefaultOf<Read2OfSwitch>>⟧.is_default) (⟦<Read2OfSwitch as Deserialize<'de>>⟧.gives) (record { 0 = p.name })
        (RowThen (name "turns") (⟦<u32 as Deserialize<'de>>⟧.gives) p.turns
        NoOthers)))) s };

    fn deserialize<'n: 'de>(alloc: Global, from: Deserializer<'de, 'n>) -> Result<Switch> {
        read_struct::<FieldsOfSwitch, Self>(alloc, from)
    }
}

/// The name `Switch`.
#[tactic(auto, unfolding(serde_content::specs::Literals::name))]
fn name_switch() -> &'static str
    ensures { result.now ≡ name "Switch" }
{
    "Switch"
}
