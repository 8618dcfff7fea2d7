//! Other sorts of structs, a key of one's own, and a tag next to a field for what a variant holds.
//!
//! Written by `tools/derive` from `sorts.rs`: change that file, and write this one anew.

ghost use Rattle.std.specs.Prelude.{◌≡◌, ◌∷◌, [], Bool, Option, string_bytes, refl, ⊤};
ghost use Rattle.content_tree.specs.Values.Text.{static_name};
ghost use Rattle.content_ser.specs.Scripts.Sends.{Sends};
ghost use Rattle.content_ser.specs.Scripts.Own.{field_first, tuple_field_first, end_script};
ghost use Rattle.content_ser.specs.Scripts.Own.{unit_struct_script, newtype_struct_script};
ghost use Rattle.content_ser.specs.Scripts.Own.{tuple_struct_script};
ghost use Rattle.content_ser.specs.Laws.StandardScripts.{leaf_lawful, option_lawful, map_lawful};
ghost use Rattle.content_ser.specs.Laws.OwnScripts.{field_fits, struct_end_fits, tuple_field_fits};
ghost use Rattle.content_ser.specs.Laws.OwnScripts.{tuple_end_fits, unit_struct_lawful};
ghost use Rattle.content_ser.specs.Laws.OwnScripts.{newtype_struct_lawful, tuple_struct_lawful};
ghost use Rattle.content_ser.specs.Laws.OwnScripts.{struct_lawful};
ghost use Rattle.content_de.specs.Outcomes.{refusal_of, taken, IsTaken};
ghost use Rattle.content_de.specs.Requests.Leaves.{bool_from, text_from};
ghost use Rattle.content_de.specs.Reads.Standard.{HasContent};
ghost use Rattle.content_de.specs.Reads.Tuples.{part_then, end_of_parts, PartThen, NoPart};
ghost use Rattle.content_de.specs.Accesses.ByName.{fields_left};
ghost use Rattle.content_de.specs.Reads.Read.{Reads};
ghost use Rattle.content_de.specs.Reads.ByName.{read_by_name, ReadByName, NoOthers};
ghost use Rattle.content_de.specs.Reads.Tagged.{tag_then, TagThen};
ghost use Rattle.content_de.specs.Reads.Own.{unit_struct_refusal, newtype_struct_refusal};
ghost use Rattle.content_de.specs.Reads.Own.{NewtypeStructGives, tuple_struct_refusal};
ghost use Rattle.content_de.specs.Reads.Own.{TupleStructGives, struct_refusal, StructGives};
ghost use Rattle.serde_content.specs.Literals.{name, row_then, RowThen, others_left};
ghost use Rattle.serde_content.specs.Variants.{index_among, variants};
ghost use Rattle.serde_content.specs.RoundTrip.{ComesBack, CoercionKeeps};
ghost use Rattle.serde_content.specs.Laws.Leaves.{heedless_keeps, natural_keeps, integer_keeps};
ghost use Rattle.serde_content.specs.Laws.Leaves.{bool_back, text_back, u8_back, i32_back};
ghost use Rattle.serde_content.specs.Laws.Holders.{seen_back, seen_keeps, option_back};
ghost use Rattle.serde_content.specs.Laws.Holders.{option_keeps};
ghost use Rattle.serde_content.specs.Laws.Maps.{map_back, map_keeps};
ghost use Rattle.serde_content.specs.Laws.Spelled.{leaf_such};
ghost use Rattle.serde_content.specs.Laws.Series.{both_hold, tuple_field_back, tuple_struct_back};
ghost use Rattle.serde_content.specs.Laws.Series.{parts_end, part_keeps, tuple_struct_keeps};
ghost use Rattle.serde_content.specs.Laws.Series.{parts_end_keeps};
ghost use Rattle.serde_content.specs.Laws.Records.{struct_keeps, newtype_struct_back};
ghost use Rattle.serde_content.specs.Laws.Records.{newtype_struct_keeps};
ghost use Rattle.serde_content.specs.Laws.ByName.{named_back, skipped_back, by_name_keeps};
ghost use Rattle.serde_content.specs.Laws.ByName.{named_keeps, skipped_keeps};
ghost use Rattle.serde_content.specs.Laws.Tagged.{tagged_script, tagged_back, tag_keeps};
ghost use Rattle.serde_content.specs.Laws.Variants.{other_variant};
ghost use Rattle.content_cbor.specs.Typed.Kept.{FormComesBack};
ghost use Rattle.content_cbor.specs.Typed.Leaves.{bool_kept, text_kept, u8_kept, i32_kept};
ghost use Rattle.content_cbor.specs.Typed.Holders.{seen_kept, option_kept};
ghost use Rattle.content_cbor.specs.Typed.Maps.{map_kept};
ghost use Rattle.content_cbor.specs.Typed.Series.{tuple_field_kept, tuple_struct_kept};
ghost use Rattle.content_cbor.specs.Typed.Series.{parts_end_kept};
ghost use Rattle.content_cbor.specs.Typed.Records.{newtype_struct_kept};
ghost use Rattle.content_cbor.specs.Typed.ByName.{named_kept, skipped_kept};
ghost use Rattle.content_cbor.specs.Typed.Tagged.{tagged_kept};
ghost use Rattle.std.specs.declared.alloc.Global.{Global};
ghost use Rattle.std.specs.declared.string.String.{String};
ghost use Rattle.content_tree.specs.Values.Ranges as kind;
ghost use Rattle.content_tree.specs.Values.Tree as tree;
ghost use Rattle.check_derive.specs.declared.sorts.Message.TheVariants as message;

use crate::types::Place;
use content_cbor::{CborRoundTrip, NotNull};
use serde_content::de::{Deserialize, FieldsByName};
use serde_content::derive_support::{
    Names, OthersSkipped, PartsEnd, ReadField, ReadFields, ReadPart, ReadParts, SendEnd, SendField,
    SendOpen, SendPart, SendTag, TaggedVariants, no_such_variant, read_adjacent, send_row,
    variant_index,
};
use serde_content::ser::{Call, Parts, Serialize, Serializer};
use serde_content::{Deserializer, Result, RoundTrip};
use std::alloc::Global;
use std::collections::BTreeMap;

/// Nothing.
#[derive(Drop, PartialEq, Eq)]
pub struct Marker;

impl Serialize for Marker {
    ghost script = { λ p. unit_struct_script (name "Marker") };

    ghost lawful = { λ p readable. unit_struct_lawful };

    fn serialize<S: Serializer>(&self, _alloc: Global, serializer: &mut S) -> Result<()> {
        Call::UnitStruct(name_marker()).send(serializer)
    }
}

impl<'de> Deserialize<'de> for Marker {
    ghost refusal = { unit_struct_refusal (name "Marker") };

    ghost gives = { λ s p. ⊤ };

    fn deserialize<'n: 'de>(alloc: Global, from: Deserializer<'de, 'n>) -> Result<Marker> {
        from.deserialize_unit_struct(alloc, name_marker())?;
        Ok(Marker)
    }
}

impl<'de> RoundTrip<'de> for Marker {
    fn known(&self) {}

    ghost comes_back = { record {
      of_value = λ p real f. leaf_such
          (tree.structure (static_name (name "Marker")) tree.no_data) refl
          (record { free = refl; only = λ q h. refl });
    } };

    ghost keeps = { heedless_keeps _ _ };
}

/// Around one value.
#[derive(Drop, PartialEq, Eq, PartialOrd, Ord)]
pub struct Code(pub u8);

impl Serialize for Code {
    ghost script = { λ p. newtype_struct_script (name "Code")
        (⟦<u8 as Serialize>⟧.script p.0) };

    ghost lawful = { λ p readable. newtype_struct_lawful (leaf_lawful refl) };

    fn serialize<S: Serializer>(&self, alloc: Global, serializer: &mut S) -> Result<()> {
        Call::NewtypeStruct(name_code()).around(&self.0, alloc, serializer)
    }
}

impl<'de> Deserialize<'de> for Code {
    ghost refusal = { newtype_struct_refusal (name "Code")
        (⟦<u8 as Deserialize<'de>>⟧.refusal) };

    ghost gives = { λ s p. NewtypeStructGives (name "Code")
        (⟦<u8 as Deserialize<'de>>⟧.gives) p.0 s };

    fn deserialize<'n: 'de>(alloc: Global, from: Deserializer<'de, 'n>) -> Result<Code> {
        let inside = from.deserialize_newtype_struct(alloc, name_code())?;
        Ok(Code(inside.deserialize(alloc)?))
    }
}

impl<'de> RoundTrip<'de> for Code {
    fn known(&self) {}

    ghost comes_back = { record {
      of_value = λ p real f. newtype_struct_back u8_back p.0 tt (λ q. q.0) f (λ q h. h);
    } };

    ghost keeps = { seen_keeps (λ q. q.0)
        (newtype_struct_keeps (name "Code") (natural_keeps kind.u8)) };
}

impl<'de> CborRoundTrip<'de> for Code {
    ghost kept = { record {
      of_value = λ p real. newtype_struct_kept u8_kept p.0 tt (λ q. q.0)
          (λ q h. h);
    } };
}

impl<'de> NotNull<'de> for Code {
    ghost refuses_null = { record { of_null = λ b e. absurd (cc e) } };
}

/// Two values by place, one of a type of another module.
#[derive(Drop, PartialEq, Eq)]
pub struct Stop(pub i32, pub Option<Place>);

type Part1OfStop = ReadPart<2, 0, i32, Part2OfStop>;

type Part2OfStop = ReadPart<2, 1, Option<Place>, PartsEnd<2>>;

impl Serialize for Stop {
    ghost use Rattle.check_derive.specs.contracts.types.PlaceSerialize.TheImpl.Laws as place_serialize;

    ghost script = { λ p. tuple_struct_script (name "Stop") 2
        (tuple_field_first (⟦<i32 as Serialize>⟧.script p.0)
        (tuple_field_first (⟦<Option<Place> as Serialize>⟧.script p.1)
        end_script)) };

    ghost lawful = { λ p readable. tuple_struct_lawful
        (tuple_field_fits (leaf_lawful refl)
        (tuple_field_fits (option_lawful (λ x h. place_serialize.lawful-law x h) p.1
        readable)
        tuple_end_fits)) };

    fn serialize<S: Serializer>(&self, alloc: Global, serializer: &mut S) -> Result<()> {
        let row = SendEnd;
        let row = SendPart(&self.1, row);
        let row = SendPart(&self.0, row);
        let row = SendOpen(Call::TupleStruct(name_stop(), 2), row);
        send_row(alloc, serializer, &row)
    }
}

impl<'de> Deserialize<'de> for Stop {
    ghost refusal = { tuple_struct_refusal (name "Stop")
        (part_then 2 0 (⟦<i32 as Deserialize<'de>>⟧.refusal)
        (part_then 2 1 (⟦<Option<Place> as Deserialize<'de>>⟧.refusal)
        (end_of_parts 2))) };

    ghost gives = { λ s p. TupleStructGives (name "Stop")
        (PartThen (⟦<i32 as Deserialize<'de>>⟧.gives) p.0
        (PartThen (⟦<Option<Place> as Deserialize<'de>>⟧.gives) p.1
        NoPart)) s };

    fn deserialize<'n: 'de>(alloc: Global, from: Deserializer<'de, 'n>) -> Result<Stop> {
        let parts = from.deserialize_tuple_struct(alloc, name_stop(), 2)?;
        let row: Part1OfStop = ReadParts::read(alloc, parts)?;
        let ReadPart(x1, row) = row;
        let ReadPart(x2, _) = row;
        Ok(Stop(x1, x2))
    }
}

impl<'de> RoundTrip<'de> for Stop {
    ghost use Rattle.check_derive.specs.contracts.types.PlaceRoundTrip.TheImpl.Laws as place_round_trip;

    ghost exists = { λ p. ⟦<Option<Place> as RoundTrip<'de>>⟧.exists p.1 };

    fn known(&self) {
        self.1.known();
    }

    ghost comes_back = { record {
      of_value = λ p real f. tuple_struct_back
          (tuple_field_back i32_back p.0 tt (λ q. q.0) 2 0
          (tuple_field_back (let law : ComesBack (⟦<Option<Place> as RoundTrip<'de>>⟧.exists)
          (⟦<Option<Place> as Serialize>⟧.script)
          (⟦<Option<Place> as Deserialize<'de>>⟧.refusal)
          (⟦<Option<Place> as Deserialize<'de>>⟧.gives) (⟦<Option<Place> as PartialEq>⟧.eq) =
          (option_back place_round_trip.comes_back-law) in law) p.1 real (λ q. q.1) 2 1
          (parts_end 2)))
          f (λ q h. both_hold h.0 h.1.0);
    } };

    ghost keeps = { tuple_struct_keeps (name "Stop")
        (part_keeps (λ q. q.0) 2 0 (integer_keeps kind.i32)
        (part_keeps (λ q. q.1) 2 1 (let law : CoercionKeeps
        (⟦<Option<Place> as Deserialize<'de>>⟧.refusal)
        (⟦<Option<Place> as Deserialize<'de>>⟧.gives) =
        (option_keeps place_round_trip.keeps-law) in law)
        (parts_end_keeps 2))) };
}

impl<'de> CborRoundTrip<'de> for Stop {
    ghost use Rattle.check_derive.specs.contracts.types.PlaceCborRoundTrip.TheImpl.Laws as place_cbor_round_trip;
    ghost use Rattle.check_derive.specs.contracts.types.PlaceNotNull.TheImpl.Laws as place_not_null;

    ghost kept = { record {
      of_value = λ p real. tuple_struct_kept
          (tuple_field_kept i32_kept p.0 tt (λ q. q.0) 2 0
          (tuple_field_kept (let law : FormComesBack
          (⟦<Option<Place> as RoundTrip<'de>>⟧.exists) (⟦<Option<Place> as Serialize>⟧.script)
          (⟦<Option<Place> as Deserialize<'de>>⟧.refusal)
          (⟦<Option<Place> as Deserialize<'de>>⟧.gives) (⟦<Option<Place> as PartialEq>⟧.eq) =
          (option_kept place_not_null.refuses_null-law place_cbor_round_trip.kept-law) in law)
          p.1 real (λ q. q.1) 2 1
          (parts_end_kept 2)))
          (λ q h. both_hold h.0 h.1.0);
    } };
}

impl<'de> NotNull<'de> for Stop {
    ghost refuses_null = { record { of_null = λ b e. absurd (cc e) } };
}

/// A map with keys of one's own.
#[derive(Drop, PartialEq, Eq)]
pub struct Ledger(pub BTreeMap<Code, bool>);

impl Serialize for Ledger {
    ghost use Rattle.check_derive.specs.contracts.sorts.CodeSerialize.TheImpl.Laws as code_serialize;

    ghost script = { λ p. newtype_struct_script (name "Ledger")
        (⟦<BTreeMap<Code, bool> as Serialize>⟧.script p.0) };

    ghost lawful = { λ p readable. newtype_struct_lawful
        (map_lawful (λ x h. code_serialize.lawful-law x h) (λ x h. leaf_lawful refl)
        p.0.entries readable) };

    fn serialize<S: Serializer>(&self, alloc: Global, serializer: &mut S) -> Result<()> {
        Call::NewtypeStruct(name_ledger()).around(&self.0, alloc, serializer)
    }
}

impl<'de> Deserialize<'de> for Ledger {
    ghost refusal = { newtype_struct_refusal (name "Ledger")
        (⟦<BTreeMap<Code, bool> as Deserialize<'de>>⟧.refusal) };

    ghost gives = { λ s p. NewtypeStructGives (name "Ledger")
        (⟦<BTreeMap<Code, bool> as Deserialize<'de>>⟧.gives) p.0 s };

    fn deserialize<'n: 'de>(alloc: Global, from: Deserializer<'de, 'n>) -> Result<Ledger> {
        let inside = from.deserialize_newtype_struct(alloc, name_ledger())?;
        Ok(Ledger(inside.deserialize(alloc)?))
    }
}

impl<'de> RoundTrip<'de> for Ledger {
    ghost use Rattle.check_derive.specs.contracts.sorts.CodeRoundTrip.TheImpl.Laws as code_round_trip;
    ghost use Rattle.check_derive.specs.contracts.sorts.CodeOrd.TheImpl.Laws as code_ord;

    ghost exists = { λ p. ⟦<BTreeMap<Code, bool> as RoundTrip<'de>>⟧.exists p.0 };

    fn known(&self) {
        self.0.known();
    }

    ghost comes_back = { record {
      of_value = λ p real f. newtype_struct_back
          (let law : ComesBack (⟦<BTreeMap<Code, bool> as RoundTrip<'de>>⟧.exists)
          (⟦<BTreeMap<Code, bool> as Serialize>⟧.script)
          (⟦<BTreeMap<Code, bool> as Deserialize<'de>>⟧.refusal)
          (⟦<BTreeMap<Code, bool> as Deserialize<'de>>⟧.gives)
          (⟦<BTreeMap<Code, bool> as PartialEq>⟧.eq) =
          (seen_back (λ m. m.entries) (map_back code_ord.total-law code_ord.matches_eq-law
          code_round_trip.comes_back-law bool_back)) in law) p.0 real (λ q. q.0) f (λ q h. h);
    } };

    ghost keeps = { seen_keeps (λ q. q.0)
        (newtype_struct_keeps (name "Ledger")
        (let law : CoercionKeeps (⟦<BTreeMap<Code, bool> as Deserialize<'de>>⟧.refusal)
        (⟦<BTreeMap<Code, bool> as Deserialize<'de>>⟧.gives) =
        (seen_keeps (λ m. m.entries) (map_keeps (⟦<Code as Ord>⟧.cmp)
        code_round_trip.keeps-law (heedless_keeps (λ o. refusal_of (bool_from o))
        (λ o (x : Bool). bool_from o ≡ taken x)))) in law)) };
}

impl<'de> CborRoundTrip<'de> for Ledger {
    ghost use Rattle.check_derive.specs.contracts.sorts.CodeCborRoundTrip.TheImpl.Laws as code_cbor_round_trip;
    ghost use Rattle.check_derive.specs.contracts.sorts.CodeOrd.TheImpl.Laws as code_ord;

    ghost kept = { record {
      of_value = λ p real. newtype_struct_kept
          (let law : FormComesBack (⟦<BTreeMap<Code, bool> as RoundTrip<'de>>⟧.exists)
          (⟦<BTreeMap<Code, bool> as Serialize>⟧.script)
          (⟦<BTreeMap<Code, bool> as Deserialize<'de>>⟧.refusal)
          (⟦<BTreeMap<Code, bool> as Deserialize<'de>>⟧.gives)
          (⟦<BTreeMap<Code, bool> as PartialEq>⟧.eq) =
          (seen_kept (λ m. m.entries) (map_kept code_ord.total-law code_ord.matches_eq-law
          code_cbor_round_trip.kept-law bool_kept)) in law) p.0 real (λ q. q.0)
          (λ q h. h);
    } };
}

impl<'de> NotNull<'de> for Ledger {
    ghost refuses_null = { record { of_null = λ b e. absurd (cc e) } };
}

/// A message, told by the field `t`, what it holds in the field `c`.
#[derive(Drop, PartialEq, Eq)]
pub enum Message {
    /// No value.
    Ping,
    /// One value.
    Text(String),
}

/// The names of its fields.
#[derive(Drop)]
struct FieldsOfMessagePing;

impl Names for FieldsOfMessagePing {
    ghost names = { name "t" ∷ [] };

    #[tactic(auto, unfolding(serde_content::specs::Literals::name))]
    fn names() -> &'static [&'static str] {
        &["t"]
    }
}

/// The names of its fields.
#[derive(Drop)]
struct FieldsOfMessageText;

impl Names for FieldsOfMessageText {
    ghost names = { name "t" ∷ name "c" ∷ [] };

    #[tactic(auto, unfolding(serde_content::specs::Literals::name))]
    fn names() -> &'static [&'static str] {
        &["t", "c"]
    }
}

/// Sends that variant.
fn send_whole_message_text<S: Serializer>(
    alloc: Global,
    serializer: &mut S,
    whole: &Message,
    x1: &String,
) -> Result<()>
    requires { whole.now ≡ message.Text x1.now }
    ensures { Sends S.step S.refuses (S.seen serializer.old)
        (⟦<Message as Serialize>⟧.script whole.now)
        result (S.seen serializer.new) }
{
    let row = SendEnd;
    let row = SendField(FieldsOfMessageText, 1, x1, row);
    let row = SendTag(FieldsOfMessageText, NamesOfMessage, 1, row);
    let row = SendOpen(Call::Struct(name_message(), 2), row);
    send_row(alloc, serializer, &row)
}

type Field1OfMessageText = ReadField<
    FieldsOfMessageText,
    1,
    String,
    OthersSkipped<FieldsOfMessageText>,
>;

/// Reads the fields, in any order.
fn read_message_text<'de, 'n: 'de>(alloc: Global, fields: FieldsByName<'de, 'n>) -> Result<String>
    ensures { Reads (
        (row_then (name "c") (⟦<String as Deserialize<'de>>⟧.refusal)
        (others_left (name "t" ∷ name "c" ∷ [])))
        (fields_left fields.entry))
        (λ z.
        (RowThen (name "c") (⟦<String as Deserialize<'de>>⟧.gives) z
        NoOthers)
        (fields_left fields.entry)) result }
{
    let row: Field1OfMessageText = ReadFields::read(alloc, fields)?;
    let ReadField(x1, _, _) = row;
    Ok(x1)
}

/// The names of its variants.
#[derive(Drop)]
struct NamesOfMessage;

impl Names for NamesOfMessage {
    ghost names = { name "Ping" ∷ name "Text" ∷ [] };

    #[tactic(auto, unfolding(serde_content::specs::Literals::name))]
    fn names() -> &'static [&'static str] {
        &["Ping", "Text"]
    }
}

impl Serialize for Message {
    ghost script = { elim [
      | message.Ping ↦ tagged_script (name "Message") 1 (name "t") (name "Ping")
          end_script
      | message.Text x1 ↦ tagged_script (name "Message") 2 (name "t") (name "Text")
          (field_first (name "c") (⟦<String as Serialize>⟧.script x1)
          end_script)
    ] };

    ghost lawful = { elim [
      | message.Ping ↦ λ readable. struct_lawful
          (field_fits (leaf_lawful refl)
          struct_end_fits)
      | message.Text x1 ↦ λ readable. struct_lawful
          (field_fits (leaf_lawful refl)
          (field_fits (leaf_lawful refl)
          struct_end_fits))
    ] };

    fn serialize<S: Serializer>(&self, alloc: Global, serializer: &mut S) -> Result<()> {
        match self {
            Message::Ping => {
                let row = SendEnd;
                let row = SendTag(FieldsOfMessagePing, NamesOfMessage, 0, row);
                let row = SendOpen(Call::Struct(name_message(), 1), row);
                send_row(alloc, serializer, &row)
            }
            Message::Text(x1) => send_whole_message_text(alloc, serializer, self, x1),
        }
    }
}

impl<'de> TaggedVariants<'de> for Message {
    ghost name = { name "Message" };

    ghost tag_name = { name "t" };

    ghost refusal = { variants (
        (name "Ping", (others_left (name "t" ∷ [])))
        ∷ (
          name "Text",
          (row_then (name "c") (⟦<String as Deserialize<'de>>⟧.refusal)
              (others_left (name "t" ∷ name "c" ∷ []))),
        )
        ∷ []) };

    ghost named = { elim [
      | message.Ping ↦ name "Ping"
      | message.Text x1 ↦ name "Text"
    ] };

    ghost held = { elim [
      | message.Ping ↦ NoOthers
      | message.Text x1 ↦ (RowThen (name "c") (⟦<String as Deserialize<'de>>⟧.gives) x1
          NoOthers)
    ] };

    #[tactic(auto, unfolding(serde_content::specs::Literals::name))]
    fn name() -> &'static str {
        "Message"
    }

    #[tactic(auto, unfolding(serde_content::specs::Literals::name))]
    fn tag() -> &'static str {
        "t"
    }

    fn read_variant<'n: 'de>(
        alloc: Global,
        tag: &str,
        fields: FieldsByName<'de, 'n>,
    ) -> Result<Message> {
        match variant_index(tag, &NamesOfMessage) {
            Some(0) => {
                let _: OthersSkipped<FieldsOfMessagePing> = ReadFields::read(alloc, fields)?;
                Ok(Message::Ping)
            }
            Some(1) => {
                let x1 = read_message_text(alloc, fields)?;
                Ok(Message::Text(x1))
            }
            _ => {
                drop(fields);
                Err(no_such_variant(alloc, tag, &NamesOfMessage))
            }
        }
    }
}

impl<'de> Deserialize<'de> for Message {
    ghost refusal = { struct_refusal (name "Message") (read_by_name (tag_then (name "t")
        ⟦<Message as TaggedVariants<'de>>⟧.refusal)) };

    ghost gives = { λ s y. StructGives (name "Message") (ReadByName
        (TagThen (name "t")
        (⟦<Message as TaggedVariants<'de>>⟧.named y)
        (⟦<Message as TaggedVariants<'de>>⟧.held y))) s };

    fn deserialize<'n: 'de>(alloc: Global, from: Deserializer<'de, 'n>) -> Result<Message> {
        read_adjacent(alloc, from)
    }
}

impl<'de> RoundTrip<'de> for Message {
    fn known(&self) {}

    ghost comes_back = { record {
      of_value = elim [
        | message.Ping ↦ λ real f. tagged_back Self.refusal Self.gives
            (skipped_back {Y = Unit {0}} (name "t" ∷ []))
            f f refl (unfold name index_among in λ fs. refl)
            (unfold name index_among in λ fs only. elim [
              | message.Ping ↦ λ it. refl
              | message.Text y1 ↦ λ it. other_variant it.0 refl
            ])
        | message.Text x1 ↦ λ real f. tagged_back Self.refusal Self.gives
            (named_back (name "c") text_back x1 tt (λ (z : (String Global)). z)
            (skipped_back (name "t" ∷ name "c" ∷ [])))
            f f refl (unfold name index_among in λ fs. refl)
            (unfold name index_among in λ fs only. elim [
              | message.Ping ↦ λ it. other_variant it.0 refl
              | message.Text y1 ↦ λ it. let same = only y1 it.1 in same.0
            ])
      ];
    } };

    ghost keeps = { record {
      of_origin = λ o people. elim [
        | message.Ping ↦ λ p.
            let q = (struct_keeps (name "Message") (by_name_keeps
            (tag_keeps {own =
            (others_left (name "t" ∷ []))} (name "t") (name "Ping")
            ⟦<Message as TaggedVariants<'de>>⟧.refusal
            (unfold name index_among in λ f. refl)
            (skipped_keeps {Y = Unit {0}} (name "t" ∷ []))))).of_origin o people tt
            (record { free = p.free; given = p.given }) in
            record { free = q.free; given = q.given }
        | message.Text x1 ↦ λ p.
            let q = (struct_keeps (name "Message") (by_name_keeps
            (tag_keeps {own =
            (row_then (name "c") (⟦<String as Deserialize<'de>>⟧.refusal)
            (others_left (name "t" ∷ name "c" ∷ [])))} (name "t") (name "Text")
            ⟦<Message as TaggedVariants<'de>>⟧.refusal
            (unfold name index_among in λ f. refl)
            (named_keeps (name "c") (λ (z : (String Global)). z)
            (heedless_keeps (λ o. refusal_of (text_from o))
            (λ o (x : String Global). IsTaken (text_from o) (HasContent (string_bytes x))))
            (skipped_keeps (name "t" ∷ name "c" ∷ [])))))).of_origin o people x1
            (record { free = p.free; given = p.given }) in
            record { free = q.free; given = q.given }
      ];
    } };
}

impl<'de> CborRoundTrip<'de> for Message {
    ghost kept = { record {
      of_value = elim [
        | message.Ping ↦ λ real. tagged_kept Self.refusal Self.gives
            (skipped_kept {Y = Unit {0}} (name "t" ∷ []))
            (λ b. b) (unfold name index_among in λ b fs. refl)
            (unfold name index_among in λ b fs only. elim [
              | message.Ping ↦ λ it. refl
              | message.Text y1 ↦ λ it. other_variant it.0 refl
            ])
        | message.Text x1 ↦ λ real. tagged_kept Self.refusal Self.gives
            (named_kept (name "c") text_kept x1 tt (λ (z : (String Global)). z)
            (skipped_kept (name "t" ∷ name "c" ∷ [])))
            (λ b. b) (unfold name index_among in λ b fs. refl)
            (unfold name index_among in λ b fs only. elim [
              | message.Ping ↦ λ it. other_variant it.0 refl
              | message.Text y1 ↦ λ it. let same = only y1 it.1 in same.0
            ])
      ];
    } };
}

impl<'de> NotNull<'de> for Message {
    ghost refuses_null = { record { of_null = λ b e. absurd (cc e) } };
}

/// The name `Marker`.
#[tactic(auto, unfolding(serde_content::specs::Literals::name))]
fn name_marker() -> &'static str
    ensures { result.now ≡ name "Marker" }
{
    "Marker"
}

/// The name `Code`.
#[tactic(auto, unfolding(serde_content::specs::Literals::name))]
fn name_code() -> &'static str
    ensures { result.now ≡ name "Code" }
{
    "Code"
}

/// The name `Stop`.
#[tactic(auto, unfolding(serde_content::specs::Literals::name))]
fn name_stop() -> &'static str
    ensures { result.now ≡ name "Stop" }
{
    "Stop"
}

/// The name `Ledger`.
#[tactic(auto, unfolding(serde_content::specs::Literals::name))]
fn name_ledger() -> &'static str
    ensures { result.now ≡ name "Ledger" }
{
    "Ledger"
}

/// The name `Message`.
#[tactic(auto, unfolding(serde_content::specs::Literals::name))]
fn name_message() -> &'static str
    ensures { result.now ≡ name "Message" }
{
    "Message"
}
