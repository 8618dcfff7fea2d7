//! Types that are read and sent as others, to which conversions of another module lead.
//!
//! Written by `tools/derive` from `converted.rs`: change that file, and write this one anew.

ghost use Rattle.std.specs.Prelude.{◌≡◌, ◌∷◌, [], refl};
ghost use Rattle.content_tree.specs.Errors.Cause.{custom};
ghost use Rattle.content_ser.specs.Scripts.Own.{field_first, end_script, struct_script};
ghost use Rattle.content_ser.specs.Laws.StandardScripts.{leaf_lawful, seq_lawful};
ghost use Rattle.content_ser.specs.Laws.OwnScripts.{field_fits, struct_end_fits, struct_lawful};
ghost use Rattle.content_de.specs.Reads.ByName.{read_by_name, ReadByName, NoOthers};
ghost use Rattle.content_de.specs.Reads.Own.{struct_refusal, StructGives};
ghost use Rattle.serde_content.specs.Literals.{name, row_then, RowThen, others_left};
ghost use Rattle.content_tree.specs.Values.Ranges as kind;
ghost use Rattle.std.specs.Prelude.{Ok, option_map};
ghost use Rattle.content_de.specs.Outcomes.{refusal_then};
ghost use Rattle.content_de.specs.Requests.Numbers.{number_from};
ghost use Rattle.content_de.specs.Reads.Read.{first_of};
ghost use Rattle.check_fields.specs.Converted as converted_said;
ghost use Rattle.content_ser.specs.Scripts.Standard as scripts_standard_said;
ghost use Rattle.content_ser.specs.Calls.Event as calls_event_said;

use serde_content::de::{Deserialize, FieldsByName};
use serde_content::derive_support::{
    Names, OthersSkipped, ReadField, ReadFields, ReadStruct, SendEnd, SendField, SendOpen,
    read_struct, send_row,
};
use serde_content::ser::{Call, Serialize, Serializer};
use serde_content::{Deserializer, Error, Result};
use std::alloc::Global;

/// How urgent a letter is: elsewhere a number.
#[derive(Clone, Copy)]
pub enum Urgency {
    Low,
    Usual,
    High,
}

impl<'de> Deserialize<'de> for Urgency {
    ghost refusal = { ⟦<u8 as Deserialize<'de>>⟧.refusal };

    ghost gives = { λ s p. (u : _) × ⟦<u8 as Deserialize<'de>>⟧.gives s u ×
        ⟦<Urgency as From<u8>>⟧.from_gives u p };

    fn deserialize<'n: 'de>(alloc: Global, from: Deserializer<'de, 'n>) -> Result<Urgency> {
        let read: u8 = Deserialize::deserialize(alloc, from)?;
        Ok(From::from(read))
    }
}

impl Serialize for Urgency {
    ghost script = { λ p. ⟦<u8 as Serialize>⟧.script (converted_said.urgency_into p) };

    ghost lawful = { λ p readable. leaf_lawful refl };

    fn serialize<S: Serializer>(&self, alloc: Global, serializer: &mut S) -> Result<()> {
        let sent: u8 = From::from(*self);
        sent.serialize(alloc, serializer)
    }
}

/// How much of a letter is written: elsewhere a number of up to 100.
#[derive(Clone, Copy)]
pub struct Percent {
    pub of_hundred: u8,
}

impl<'de> Deserialize<'de> for Percent {
    ghost refusal = { λ s. first_of (⟦<u8 as Deserialize<'de>>⟧.refusal s)
        (refusal_then (number_from kind.u8 s)
        (λ v. option_map custom (converted_said.percent_refusal v))) };

    ghost gives = { λ s p. (u : _) × ⟦<u8 as Deserialize<'de>>⟧.gives s u ×
        ⟦<Percent as TryFrom<u8>>⟧.try_from_gives u (Ok p) };

    fn deserialize<'n: 'de>(alloc: Global, from: Deserializer<'de, 'n>) -> Result<Percent> {
        let read: u8 = Deserialize::deserialize(alloc, from)?;
        match Percent::try_from(read) {
            Ok(made) => Ok(made),
            Err(refused) => {
                let text = refused.to_string(alloc)?;
                Err(Error::custom(alloc, text.as_str()))
            }
        }
    }
}

impl Serialize for Percent {
    ghost script = { λ p. ⟦<u8 as Serialize>⟧.script (converted_said.percent_into p) };

    ghost lawful = { λ p readable. leaf_lawful refl };

    fn serialize<S: Serializer>(&self, alloc: Global, serializer: &mut S) -> Result<()> {
        let sent: u8 = From::from(*self);
        sent.serialize(alloc, serializer)
    }
}

/// Whom a letter is for: elsewhere a text.
#[derive(Drop, Clone)]
pub struct Reader {
    pub name: String,
}

impl<'de> Deserialize<'de> for Reader {
    ghost refusal = { ⟦<String as Deserialize<'de>>⟧.refusal };

    ghost gives = { λ s p. (u : _) × ⟦<String as Deserialize<'de>>⟧.gives s u ×
        ⟦<Reader as From<String>>⟧.from_gives u p };

    fn deserialize<'n: 'de>(alloc: Global, from: Deserializer<'de, 'n>) -> Result<Reader> {
        let read: String = Deserialize::deserialize(alloc, from)?;
        Ok(From::from(read))
    }
}

impl Serialize for Reader {
    ghost script = { λ p. scripts_standard_said.only
        (calls_event_said.text (converted_said.reader_into p)) };

    ghost lawful = { λ p readable. leaf_lawful refl };

    #[tactic(auto, using(content_ser::proofs::Sending::sending))]
    fn serialize<S: Serializer>(&self, alloc: Global, serializer: &mut S) -> Result<()> {
        let sent: String = self.to_sent(alloc)?;
        sent.serialize(alloc, serializer)
    }
}

/// A letter.
#[derive(Drop)]
pub struct Letter {
    pub urgency: Urgency,
    pub written: Percent,
    pub readers: Vec<Reader>,
}

/// The names of its fields.
#[derive(Drop)]
struct FieldsOfLetter;

impl Names for FieldsOfLetter {
    ghost names = { name "urgency" ∷ name "written" ∷ name "readers" ∷ [] };

    #[tactic(auto, unfolding(serde_content::specs::Literals::name))]
    fn names() -> &'static [&'static str] {
        &["urgency", "written", "readers"]
    }
}

type Field1OfLetter = ReadField<FieldsOfLetter, 0, Urgency, Field2OfLetter>;

type Field2OfLetter = ReadField<FieldsOfLetter, 1, Percent, Field3OfLetter>;

type Field3OfLetter = ReadField<FieldsOfLetter, 2, Vec<Reader>, OthersSkipped<FieldsOfLetter>>;

impl<'de> ReadStruct<'de> for Letter {
    ghost name = { name "Letter" };

    ghost refusal = { row_then (name "urgency")
        (⟦<Urgency as Deserialize<'de>>⟧.refusal)
        (row_then (name "written") (⟦<Percent as Deserialize<'de>>⟧.refusal)
        (row_then (name "readers") (⟦<Vec<Reader> as Deserialize<'de>>⟧.refusal)
        (others_left (name "urgency" ∷ name "written" ∷ name "readers" ∷ [])))) };

    ghost gives = { λ z.
        (RowThen (name "urgency") (⟦<Urgency as Deserialize<'de>>⟧.gives) z.urgency
        (RowThen (name "written") (⟦<Percent as Deserialize<'de>>⟧.gives) z.written
        (RowThen (name "readers") (⟦<Vec<Reader> as Deserialize<'de>>⟧.gives) z.readers
        NoOthers))) };

    #[tactic(auto, unfolding(serde_content::specs::Literals::name))]
    fn name() -> &'static str {
        "Letter"
    }

    fn read<'n: 'de>(alloc: Global, fields: FieldsByName<'de, 'n>) -> Result<Letter> {
        let row: Field1OfLetter = ReadFields::read(alloc, fields)?;
        let ReadField(urgency, row, _) = row;
        let ReadField(written, row, _) = row;
        let ReadField(readers, _, _) = row;
        Ok(Letter {
            urgency,
            written,
            readers,
        })
    }
}

impl Serialize for Letter {
    ghost use Rattle.check_fields.specs.contracts.converted.UrgencySerialize.TheImpl.Laws as urgency_serialize;
    ghost use Rattle.check_fields.specs.contracts.converted.PercentSerialize.TheImpl.Laws as percent_serialize;
    ghost use Rattle.check_fields.specs.contracts.converted.ReaderSerialize.TheImpl.Laws as reader_serialize;

    ghost script = { λ p. struct_script (name "Letter") 3
        (field_first (name "urgency") (⟦<Urgency as Serialize>⟧.script p.urgency)
        (field_first (name "written") (⟦<Percent as Serialize>⟧.script p.written)
        (field_first (name "readers") (⟦<Vec<Reader> as Serialize>⟧.script p.readers)
        end_script))) };

    ghost lawful = { λ p readable. struct_lawful
        (field_fits (urgency_serialize.lawful-law p.urgency readable)
        (field_fits (percent_serialize.lawful-law p.written readable)
        (field_fits (seq_lawful (λ x h. reader_serialize.lawful-law x h) p.readers.items
        readable)
        struct_end_fits))) };

    fn serialize<S: Serializer>(&self, alloc: Global, serializer: &mut S) -> Result<()> {
        let row = SendEnd;
        let row = SendField(FieldsOfLetter, 2, &self.readers, row);
        let row = SendField(FieldsOfLetter, 1, &self.written, row);
        let row = SendField(FieldsOfLetter, 0, &self.urgency, row);
        let row = SendOpen(Call::Struct(name_letter(), 3), row);
        send_row(alloc, serializer, &row)
    }
}

impl<'de> Deserialize<'de> for Letter {
    ghost refusal = { struct_refusal (name "Letter") (read_by_name
        (row_then (name "urgency") (⟦<Urgency as Deserialize<'de>>⟧.refusal)
        (row_then (name "written") (⟦<Percent as Deserialize<'de>>⟧.refusal)
        (row_then (name "readers") (⟦<Vec<Reader> as Deserialize<'de>>⟧.refusal)
        (others_left (name "urgency" ∷ name "written" ∷ name "readers" ∷ [])))))) };

    ghost gives = { λ s p. StructGives (name "Letter") (ReadByName
        (RowThen (name "urgency") (⟦<Urgency as Deserialize<'de>>⟧.gives) p.urgency
        (RowThen (name "written") (⟦<Percent as Deserialize<'de>>⟧.gives) p.written
        (RowThen (name "readers") (⟦<Vec<Reader> as Deserialize<'de>>⟧.gives) p.readers
        NoOthers)))) s };

    fn deserialize<'n: 'de>(alloc: Global, from: Deserializer<'de, 'n>) -> Result<Letter> {
        read_struct::<FieldsOfLetter, Self>(alloc, from)
    }
}

/// The name `Letter`.
#[tactic(auto, unfolding(serde_content::specs::Literals::name))]
fn name_letter() -> &'static str
    ensures { result.now ≡ name "Letter" }
{
    "Letter"
}
