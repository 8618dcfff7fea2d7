//! What a shop sends.
//!
//! Written by `tools/derive` from `types.rs`: change that file, and write this one anew.

ghost use Rattle.std.specs.Prelude.{◌≡◌, ◌∷◌, [], ℕ, ℤ, Option, None, string_bytes, refl, ⊤};
ghost use Rattle.std.specs.String.{string_eq_equiv};
ghost use Rattle.content_ser.specs.Scripts.Sends.{Sends};
ghost use Rattle.content_ser.specs.Scripts.Own.{field_first, tuple_field_first, end_script};
ghost use Rattle.content_ser.specs.Scripts.Own.{unit_variant_script, newtype_variant_script};
ghost use Rattle.content_ser.specs.Scripts.Own.{tuple_variant_script, struct_script};
ghost use Rattle.content_ser.specs.Scripts.Own.{struct_variant_script};
ghost use Rattle.content_ser.specs.Laws.StandardScripts.{leaf_lawful, option_lawful, seq_lawful};
ghost use Rattle.content_ser.specs.Laws.StandardScripts.{map_lawful, tuple_lawful, element_fits};
ghost use Rattle.content_ser.specs.Laws.StandardScripts.{end_fits};
ghost use Rattle.content_ser.specs.Laws.OwnScripts.{field_fits, struct_end_fits, tuple_field_fits};
ghost use Rattle.content_ser.specs.Laws.OwnScripts.{tuple_end_fits, unit_variant_lawful};
ghost use Rattle.content_ser.specs.Laws.OwnScripts.{newtype_variant_lawful, tuple_variant_lawful};
ghost use Rattle.content_ser.specs.Laws.OwnScripts.{struct_lawful, struct_variant_lawful};
ghost use Rattle.content_de.specs.Outcomes.{refusal_of, IsTaken};
ghost use Rattle.content_de.specs.Requests.Leaves.{text_from};
ghost use Rattle.content_de.specs.Reads.Standard.{HasContent};
ghost use Rattle.content_de.specs.Reads.Tuples.{part_then, end_of_parts, PartThen, NoPart};
ghost use Rattle.content_de.specs.Accesses.ByName.{fields_left};
ghost use Rattle.content_de.specs.Reads.Read.{Reads};
ghost use Rattle.content_de.specs.Reads.ByName.{read_by_name, no_others, ReadByName, NoOthers};
ghost use Rattle.content_de.specs.Reads.Own.{enum_refusal, EnumGives, unit_variant_refusal};
ghost use Rattle.content_de.specs.Reads.Own.{UnitVariantGives, newtype_variant_refusal};
ghost use Rattle.content_de.specs.Reads.Own.{NewtypeVariantGives, tuple_variant_refusal};
ghost use Rattle.content_de.specs.Reads.Own.{TupleVariantGives, struct_refusal, StructGives};
ghost use Rattle.content_de.specs.Reads.Own.{struct_variant_refusal, StructVariantGives};
ghost use Rattle.serde_content.specs.Literals.{name, row_then, row_or_then, RowThen, RowOrThen};
ghost use Rattle.serde_content.specs.Literals.{others_left};
ghost use Rattle.serde_content.specs.Variants.{index_among, variants};
ghost use Rattle.serde_content.specs.RoundTrip.{ComesBack, CoercionKeeps};
ghost use Rattle.serde_content.specs.Laws.Leaves.{heedless_keeps, natural_keeps, integer_keeps};
ghost use Rattle.serde_content.specs.Laws.Leaves.{text_back, u8_back, u16_back, u32_back, u64_back};
ghost use Rattle.serde_content.specs.Laws.Leaves.{i32_back};
ghost use Rattle.serde_content.specs.Laws.Holders.{seen_back, seen_keeps, option_back};
ghost use Rattle.serde_content.specs.Laws.Holders.{option_keeps, seq_back, seq_keeps};
ghost use Rattle.serde_content.specs.Laws.Hashed.{hash_map_back, hash_map_keeps};
ghost use Rattle.serde_content.specs.Laws.Series.{both_hold, element_back, tuple_back};
ghost use Rattle.serde_content.specs.Laws.Series.{tuple_field_back, parts_end, part_keeps};
ghost use Rattle.serde_content.specs.Laws.Series.{tuple_keeps, parts_end_keeps};
ghost use Rattle.serde_content.specs.Laws.Records.{struct_back, struct_keeps};
ghost use Rattle.serde_content.specs.Laws.ByName.{by_name_back, named_back, named_or_back};
ghost use Rattle.serde_content.specs.Laws.ByName.{skipped_back, closed_back, by_name_keeps};
ghost use Rattle.serde_content.specs.Laws.ByName.{named_keeps, named_or_keeps, skipped_keeps};
ghost use Rattle.serde_content.specs.Laws.ByName.{closed_keeps};
ghost use Rattle.serde_content.specs.Laws.Variants.{variant_back, other_variant, variant_kept};
ghost use Rattle.serde_content.specs.Laws.Variants.{unit_variant_back, unit_variant_keeps};
ghost use Rattle.serde_content.specs.Laws.Variants.{newtype_variant_back, newtype_variant_keeps};
ghost use Rattle.serde_content.specs.Laws.Variants.{tuple_variant_back, tuple_variant_keeps};
ghost use Rattle.serde_content.specs.Laws.Variants.{struct_variant_back, struct_variant_keeps};
ghost use Rattle.content_cbor.specs.Typed.Kept.{FormComesBack};
ghost use Rattle.content_cbor.specs.Typed.Leaves.{text_kept, u8_kept, u16_kept, u32_kept, u64_kept};
ghost use Rattle.content_cbor.specs.Typed.Leaves.{i32_kept, number_not_null, text_not_null};
ghost use Rattle.content_cbor.specs.Typed.HashMaps.{hash_map_kept};
ghost use Rattle.content_cbor.specs.Typed.Holders.{seen_kept, option_kept, seq_kept};
ghost use Rattle.content_cbor.specs.Typed.Series.{element_kept, tuple_kept, tuple_field_kept};
ghost use Rattle.content_cbor.specs.Typed.Series.{parts_end_kept};
ghost use Rattle.content_cbor.specs.Typed.Records.{struct_kept};
ghost use Rattle.content_cbor.specs.Typed.ByName.{by_name_kept, named_kept, named_or_kept};
ghost use Rattle.content_cbor.specs.Typed.ByName.{skipped_kept, closed_kept};
ghost use Rattle.content_cbor.specs.Typed.Variants.{variant_comes_back, given_as};
ghost use Rattle.content_cbor.specs.Typed.Variants.{unit_variant_kept, newtype_variant_kept};
ghost use Rattle.content_cbor.specs.Typed.Variants.{tuple_variant_kept, struct_variant_kept};
ghost use Rattle.std.specs.declared.alloc.Global.{Global};
ghost use Rattle.std.specs.declared.string.String.{String};
ghost use Rattle.std.specs.declared.vec.Vec.{Vec};
ghost use Rattle.std.specs.declared.boxed.Box.{Box};
ghost use Rattle.content_tree.specs.Values.Ranges as kind;
ghost use Rattle.check_derive.specs.declared.types.Place.{Place};
ghost use Rattle.check_derive.specs.declared.types.Step.{Step};
ghost use Rattle.check_derive.specs.declared.types.Step.TheVariants as step;

use content_cbor::{CborRoundTrip, NotNull};
use serde_content::de::{Deserialize, FieldsByName, VariantAccess};
use serde_content::derive_support::{
    Names, OthersRefused, OthersSkipped, PartsEnd, ReadField, ReadFieldOr, ReadFields, ReadPart,
    ReadParts, ReadStruct, SendEnd, SendField, SendOpen, SendPart, Variants, no_such_variant,
    read_enum, read_struct, send_row, variant_index,
};
use serde_content::ser::{Call, Parts, Serialize, Serializer};
use serde_content::{Deserializer, Result, RoundTrip};
use std::alloc::Global;
use std::collections::HashMap;

/// Where a parcel goes.
#[derive(Drop, Debug, PartialEq, Eq)]
pub struct Place {
    /// The street, with the number.
    pub street_name: String,
    /// None on the ground.
    pub floor: Option<u8>,
}

/// The names of its fields.
#[derive(Drop)]
struct FieldsOfPlace;

impl Names for FieldsOfPlace {
    ghost names = { name "streetName" ∷ name "floor" ∷ [] };

    #[tactic(auto, unfolding(serde_content::specs::Literals::name))]
    fn names() -> &'static [&'static str] {
        &["streetName", "floor"]
    }
}

type Field1OfPlace = ReadField<FieldsOfPlace, 0, String, Field2OfPlace>;

type Field2OfPlace = ReadFieldOr<FieldsOfPlace, 1, Option<u8>, OthersRefused<FieldsOfPlace>>;

impl<'de> ReadStruct<'de> for Place {
    ghost name = { name "Place" };

    ghost refusal = { row_then (name "streetName")
        (⟦<String as Deserialize<'de>>⟧.refusal)
        (row_or_then (name "floor") (⟦<Option<u8> as Deserialize<'de>>⟧.refusal)
        (no_others (name "streetName" ∷ name "floor" ∷ []))) };

    ghost gives = { λ z.
        (RowThen (name "streetName") (⟦<String as Deserialize<'de>>⟧.gives) z.street_name
        (RowOrThen (name "floor") (λ (x : (Option ℕ)). x ≡ None)
        (⟦<Option<u8> as Deserialize<'de>>⟧.gives) z.floor
        NoOthers)) };

    #[tactic(auto, unfolding(serde_content::specs::Literals::name))]
    fn name() -> &'static str {
        "Place"
    }

    fn read<'n: 'de>(alloc: Global, fields: FieldsByName<'de, 'n>) -> Result<Place> {
        let row: Field1OfPlace = ReadFields::read(alloc, fields)?;
        let ReadField(street_name, row, _) = row;
        let ReadFieldOr(floor, _, _) = row;
        Ok(Place { street_name, floor })
    }
}

impl Serialize for Place {
    ghost script = { λ p. struct_script (name "Place") 2
        (field_first (name "streetName") (⟦<String as Serialize>⟧.script p.street_name)
        (field_first (name "floor") (⟦<Option<u8> as Serialize>⟧.script p.floor)
        end_script)) };

    ghost lawful = { λ p readable. struct_lawful
        (field_fits (leaf_lawful refl)
        (field_fits (option_lawful (λ x h. leaf_lawful refl) p.floor readable)
        struct_end_fits)) };

    fn serialize<S: Serializer>(&self, alloc: Global, serializer: &mut S) -> Result<()> {
        let row = SendEnd;
        let row = SendField(FieldsOfPlace, 1, &self.floor, row);
        let row = SendField(FieldsOfPlace, 0, &self.street_name, row);
        let row = SendOpen(Call::Struct(name_place(), 2), row);
        send_row(alloc, serializer, &row)
    }
}

impl<'de> Deserialize<'de> for Place {
    ghost refusal = { struct_refusal (name "Place") (read_by_name
        (row_then (name "streetName") (⟦<String as Deserialize<'de>>⟧.refusal)
        (row_or_then (name "floor") (⟦<Option<u8> as Deserialize<'de>>⟧.refusal)
        (no_others (name "streetName" ∷ name "floor" ∷ []))))) };

    ghost gives = { λ s p. StructGives (name "Place") (ReadByName
        (RowThen (name "streetName") (⟦<String as Deserialize<'de>>⟧.gives) p.street_name
        (RowOrThen (name "floor") (λ (x : (Option ℕ)). x ≡ None)
        (⟦<Option<u8> as Deserialize<'de>>⟧.gives) p.floor
        NoOthers))) s };

    fn deserialize<'n: 'de>(alloc: Global, from: Deserializer<'de, 'n>) -> Result<Place> {
        read_struct::<FieldsOfPlace, Self>(alloc, from)
    }
}

impl<'de> RoundTrip<'de> for Place {
    ghost exists = { λ p. ⟦<Option<u8> as RoundTrip<'de>>⟧.exists p.floor };

    fn known(&self) {
        self.floor.known();
    }

    ghost comes_back = { record {
      of_value = λ p real f. struct_back (by_name_back
          (named_back (name "streetName") text_back p.street_name tt (λ q. q.street_name)
          (named_or_back (name "floor") (λ (x : (Option ℕ)). x ≡ None)
          (let law : ComesBack (⟦<Option<u8> as RoundTrip<'de>>⟧.exists)
          (⟦<Option<u8> as Serialize>⟧.script) (⟦<Option<u8> as Deserialize<'de>>⟧.refusal)
          (⟦<Option<u8> as Deserialize<'de>>⟧.gives) (⟦<Option<u8> as PartialEq>⟧.eq) =
          (option_back u8_back) in law) p.floor real (λ q. q.floor)
          (closed_back (name "streetName" ∷ name "floor" ∷ [])))))
          f (λ q h. both_hold h.0 h.1.0);
    } };

    ghost keeps = { struct_keeps (name "Place") (by_name_keeps
        (named_keeps (name "streetName") (λ q. q.street_name)
        (heedless_keeps (λ o. refusal_of (text_from o))
        (λ o (x : String Global). IsTaken (text_from o) (HasContent (string_bytes x))))
        (named_or_keeps (name "floor") (λ (x : (Option ℕ)). x ≡ None) (λ q. q.floor)
        (let law : CoercionKeeps (⟦<Option<u8> as Deserialize<'de>>⟧.refusal)
        (⟦<Option<u8> as Deserialize<'de>>⟧.gives) = (option_keeps (natural_keeps kind.u8))
        in law)
        (closed_keeps (name "streetName" ∷ name "floor" ∷ []))))) };
}

impl<'de> CborRoundTrip<'de> for Place {
    ghost kept = { record {
      of_value = λ p real. struct_kept (by_name_kept
          (named_kept (name "streetName") text_kept p.street_name tt (λ q. q.street_name)
          (named_or_kept (name "floor") (λ (x : (Option ℕ)). x ≡ None)
          (let law : FormComesBack (⟦<Option<u8> as RoundTrip<'de>>⟧.exists)
          (⟦<Option<u8> as Serialize>⟧.script) (⟦<Option<u8> as Deserialize<'de>>⟧.refusal)
          (⟦<Option<u8> as Deserialize<'de>>⟧.gives) (⟦<Option<u8> as PartialEq>⟧.eq) =
          (option_kept (number_not_null kind.u8) u8_kept) in law) p.floor real (λ q. q.floor)
          (closed_kept (name "streetName" ∷ name "floor" ∷ [])))))
          (λ q h. both_hold h.0 h.1.0);
    } };
}

impl<'de> NotNull<'de> for Place {
    ghost refuses_null = { record { of_null = λ b e. absurd (cc e) } };
}

/// What becomes of an order.
#[derive(Drop, Debug, PartialEq, Eq)]
pub enum Step {
    /// Nothing yet.
    Open,
    /// Weighed, in grams.
    Weighed(u32),
    /// Moved on a plan, by so much.
    Moved(i32, i32),
    /// Left with somebody.
    Left {
        /// Who took it.
        with: String,
        /// Where they live.
        place: Place,
    },
}

/// Its contract tells proofs what a variant of signed numbers holds.
fn make_step_moved(x1: i32, x2: i32) -> Step
    ensures { result ≡ step.Moved x1 x2 }
{
    Step::Moved(x1, x2)
}

/// Sends that variant.
fn send_whole_step_moved<S: Serializer>(
    alloc: Global,
    serializer: &mut S,
    whole: &Step,
    x1: &i32,
    x2: &i32,
) -> Result<()>
    requires { whole.now ≡ step.Moved x1.now x2.now }
    ensures { Sends S.step S.refuses (S.seen serializer.old)
        (⟦<Step as Serialize>⟧.script whole.now)
        result (S.seen serializer.new) }
{
    let row = SendEnd;
    let row = SendPart(x2, row);
    let row = SendPart(x1, row);
    let row = SendOpen(Call::TupleVariant(name_step(), 2, name_moved_by(), 2), row);
    send_row(alloc, serializer, &row)
}

type Part1OfStepMoved = ReadPart<2, 0, i32, Part2OfStepMoved>;

type Part2OfStepMoved = ReadPart<2, 1, i32, PartsEnd<2>>;

/// The names of its fields.
#[derive(Drop)]
struct FieldsOfStepLeft;

impl Names for FieldsOfStepLeft {
    ghost names = { name "with" ∷ name "at" ∷ [] };

    #[tactic(auto, unfolding(serde_content::specs::Literals::name))]
    fn names() -> &'static [&'static str] {
        &["with", "at"]
    }
}

/// Sends that variant.
fn send_whole_step_left<S: Serializer>(
    alloc: Global,
    serializer: &mut S,
    whole: &Step,
    with: &String,
    place: &Place,
) -> Result<()>
    requires { whole.now ≡ step.Left with.now place.now }
    ensures { Sends S.step S.refuses (S.seen serializer.old)
        (⟦<Step as Serialize>⟧.script whole.now)
        result (S.seen serializer.new) }
{
    let row = SendEnd;
    let row = SendField(FieldsOfStepLeft, 1, place, row);
    let row = SendField(FieldsOfStepLeft, 0, with, row);
    let row = SendOpen(Call::StructVariant(name_step(), 3, name_left(), 2), row);
    send_row(alloc, serializer, &row)
}

type Field1OfStepLeft = ReadField<FieldsOfStepLeft, 0, String, Field2OfStepLeft>;

type Field2OfStepLeft = ReadField<FieldsOfStepLeft, 1, Place, OthersSkipped<FieldsOfStepLeft>>;

/// Reads the fields, in any order.
fn read_step_left<'de, 'n: 'de>(
    alloc: Global,
    fields: FieldsByName<'de, 'n>,
) -> Result<(String, Place)>
    ensures { Reads (
        (row_then (name "with") (⟦<String as Deserialize<'de>>⟧.refusal)
        (row_then (name "at") (⟦<Place as Deserialize<'de>>⟧.refusal)
        (others_left (name "with" ∷ name "at" ∷ []))))
        (fields_left fields.entry))
        (λ z.
        (RowThen (name "with") (⟦<String as Deserialize<'de>>⟧.gives) z.0
        (RowThen (name "at") (⟦<Place as Deserialize<'de>>⟧.gives) z.1
        NoOthers))
        (fields_left fields.entry)) result }
{
    let row: Field1OfStepLeft = ReadFields::read(alloc, fields)?;
    let ReadField(with, row, _) = row;
    let ReadField(place, _, _) = row;
    Ok((with, place))
}

/// The names of its variants.
#[derive(Drop)]
struct NamesOfStep;

impl Names for NamesOfStep {
    ghost names = { name "open" ∷ name "weighed" ∷ name "moved-by" ∷ name "left" ∷ [] };

    #[tactic(auto, unfolding(serde_content::specs::Literals::name))]
    fn names() -> &'static [&'static str] {
        &["open", "weighed", "moved-by", "left"]
    }
}

impl Serialize for Step {
    ghost use Rattle.check_derive.specs.contracts.types.PlaceSerialize.TheImpl.Laws as place_serialize;

    ghost script = { elim [
      | step.Open ↦ unit_variant_script (name "Step") 0 (name "open")
      | step.Weighed x1 ↦ newtype_variant_script (name "Step") 1 (name "weighed")
          (⟦<u32 as Serialize>⟧.script x1)
      | step.Moved x1 x2 ↦ tuple_variant_script (name "Step") 2 (name "moved-by") 2
          (tuple_field_first (⟦<i32 as Serialize>⟧.script x1)
          (tuple_field_first (⟦<i32 as Serialize>⟧.script x2)
          end_script))
      | step.Left x1 x2 ↦ struct_variant_script (name "Step") 3 (name "left") 2
          (field_first (name "with") (⟦<String as Serialize>⟧.script x1)
          (field_first (name "at") (⟦<Place as Serialize>⟧.script x2)
          end_script))
    ] };

    ghost lawful = { elim [
      | step.Open ↦ λ readable. unit_variant_lawful
      | step.Weighed x1 ↦ λ readable. newtype_variant_lawful (leaf_lawful refl)
      | step.Moved x1 x2 ↦ λ readable. tuple_variant_lawful
          (tuple_field_fits (leaf_lawful refl)
          (tuple_field_fits (leaf_lawful refl)
          tuple_end_fits))
      | step.Left x1 x2 ↦ λ readable. struct_variant_lawful
          (field_fits (leaf_lawful refl)
          (field_fits (place_serialize.lawful-law x2 readable)
          struct_end_fits))
    ] };

    fn serialize<S: Serializer>(&self, alloc: Global, serializer: &mut S) -> Result<()> {
        match self {
            Step::Open => Call::UnitVariant(name_step(), 0, name_open()).send(serializer),
            Step::Weighed(x1) => {
                Call::NewtypeVariant(name_step(), 1, name_weighed()).around(x1, alloc, serializer)
            }
            Step::Moved(x1, x2) => send_whole_step_moved(alloc, serializer, self, x1, x2),
            Step::Left { with, place } => {
                send_whole_step_left(alloc, serializer, self, with, place)
            }
        }
    }
}

impl<'de> Variants<'de> for Step {
    ghost name = { name "Step" };

    ghost refusal = { variants (
        (name "open", unit_variant_refusal)
        ∷ (name "weighed", newtype_variant_refusal (⟦<u32 as Deserialize<'de>>⟧.refusal))
        ∷ (
          name "moved-by",
          tuple_variant_refusal
              (part_then 2 0 (⟦<i32 as Deserialize<'de>>⟧.refusal)
              (part_then 2 1 (⟦<i32 as Deserialize<'de>>⟧.refusal)
              (end_of_parts 2))),
        )
        ∷ (
          name "left",
          struct_variant_refusal (read_by_name
              (row_then (name "with") (⟦<String as Deserialize<'de>>⟧.refusal)
              (row_then (name "at") (⟦<Place as Deserialize<'de>>⟧.refusal)
              (others_left (name "with" ∷ name "at" ∷ []))))),
        )
        ∷ []) };

    ghost named = { elim [
      | step.Open ↦ name "open"
      | step.Weighed x1 ↦ name "weighed"
      | step.Moved x1 x2 ↦ name "moved-by"
      | step.Left x1 x2 ↦ name "left"
    ] };

    ghost held = { elim [
      | step.Open ↦ UnitVariantGives
      | step.Weighed x1 ↦ NewtypeVariantGives (⟦<u32 as Deserialize<'de>>⟧.gives) x1
      | step.Moved x1 x2 ↦ TupleVariantGives
          (PartThen (⟦<i32 as Deserialize<'de>>⟧.gives) x1
          (PartThen (⟦<i32 as Deserialize<'de>>⟧.gives) x2
          NoPart))
      | step.Left x1 x2 ↦ StructVariantGives (ReadByName
          (RowThen (name "with") (⟦<String as Deserialize<'de>>⟧.gives) x1
          (RowThen (name "at") (⟦<Place as Deserialize<'de>>⟧.gives) x2
          NoOthers)))
    ] };

    #[tactic(auto, unfolding(serde_content::specs::Literals::name))]
    fn name() -> &'static str {
        "Step"
    }

    fn names() -> &'static [&'static str] {
        NamesOfStep::names()
    }

    fn read_variant<'n: 'de>(
        alloc: Global,
        tag: &str,
        variant: VariantAccess<'de, 'n>,
    ) -> Result<Step> {
        match variant_index(tag, &NamesOfStep) {
            Some(0) => {
                variant.unit_variant(alloc)?;
                Ok(Step::Open)
            }
            Some(1) => Ok(Step::Weighed(variant.newtype_variant(alloc)?)),
            Some(2) => {
                let parts = variant.tuple_variant(alloc, 2)?;
                let row: Part1OfStepMoved = ReadParts::read(alloc, parts)?;
                let ReadPart(x1, row) = row;
                let ReadPart(x2, _) = row;
                Ok(make_step_moved(x1, x2))
            }
            Some(3) => {
                let fields = variant
                    .struct_variant(alloc, FieldsOfStepLeft::names())?
                    .by_name();
                let (with, place) = read_step_left(alloc, fields)?;
                Ok(Step::Left { with, place })
            }
            _ => {
                drop(variant);
                Err(no_such_variant(alloc, tag, &NamesOfStep))
            }
        }
    }
}

impl<'de> Deserialize<'de> for Step {
    ghost refusal = { enum_refusal (name "Step") ⟦<Step as Variants<'de>>⟧.refusal };

    ghost gives = { λ s y. EnumGives (name "Step")
        (⟦<Step as Variants<'de>>⟧.named y)
        (⟦<Step as Variants<'de>>⟧.held y) s };

    fn deserialize<'n: 'de>(alloc: Global, from: Deserializer<'de, 'n>) -> Result<Step> {
        read_enum(alloc, from)
    }
}

impl<'de> RoundTrip<'de> for Step {
    ghost use Rattle.check_derive.specs.contracts.types.PlaceRoundTrip.TheImpl.Laws as place_round_trip;

    ghost exists = { elim [
      | step.Open ↦ ⊤
      | step.Weighed x1 ↦ ⊤
      | step.Moved x1 x2 ↦ ⊤
      | step.Left x1 x2 ↦ ⟦<Place as RoundTrip<'de>>⟧.exists x2
    ] };

    fn known(&self) {
        match self {
            Step::Open => {}
            Step::Weighed(_) => {}
            Step::Moved(_, _) => {}
            Step::Left { with: _, place } => {
                place.known();
            }
        }
    }

    ghost comes_back = { record {
      of_value = elim [
        | step.Open ↦ λ real f. variant_back Self.refusal Self.gives unit_variant_back
            f (unfold name index_among in λ d. refl)
            (unfold name index_among in λ d only. elim [
              | step.Open ↦ λ it. refl
              | step.Weighed y1 ↦ λ it. other_variant it.0 refl
              | step.Moved y1 y2 ↦ λ it. other_variant it.0 refl
              | step.Left y1 y2 ↦ λ it. other_variant it.0 refl
            ])
        | step.Weighed x1 ↦ λ real f. variant_back Self.refusal Self.gives
            (newtype_variant_back u32_back x1 tt)
            f (unfold name index_among in λ d. refl)
            (unfold name index_among in λ d only. elim [
              | step.Open ↦ λ it. other_variant it.0 refl
              | step.Weighed y1 ↦ λ it. only y1 it.1
              | step.Moved y1 y2 ↦ λ it. other_variant it.0 refl
              | step.Left y1 y2 ↦ λ it. other_variant it.0 refl
            ])
        | step.Moved x1 x2 ↦ λ real f. variant_back Self.refusal Self.gives
            (tuple_variant_back
            (tuple_field_back i32_back x1 tt (λ (z : ℤ × ℤ). z.0) 2 0
            (tuple_field_back i32_back x2 tt (λ (z : ℤ × ℤ). z.1) 2 1
            (parts_end 2))))
            f (unfold name index_among in λ d. refl)
            (unfold name index_among in λ d only. elim [
              | step.Open ↦ λ it. other_variant it.0 refl
              | step.Weighed y1 ↦ λ it. other_variant it.0 refl
              | step.Moved y1 y2 ↦ λ it. let same = only (y1, y2) it.1 in both_hold same.0
                  same.1.0
              | step.Left y1 y2 ↦ λ it. other_variant it.0 refl
            ])
        | step.Left x1 x2 ↦ λ real f. variant_back Self.refusal Self.gives
            (struct_variant_back (by_name_back
            (named_back (name "with") text_back x1 tt (λ (z : (String Global) × Place). z.0)
            (named_back (name "at") place_round_trip.comes_back-law x2 real
            (λ (z : (String Global) × Place). z.1)
            (skipped_back (name "with" ∷ name "at" ∷ []))))))
            f (unfold name index_among in λ d. refl)
            (unfold name index_among in λ d only. elim [
              | step.Open ↦ λ it. other_variant it.0 refl
              | step.Weighed y1 ↦ λ it. other_variant it.0 refl
              | step.Moved y1 y2 ↦ λ it. other_variant it.0 refl
              | step.Left y1 y2 ↦ λ it. let same = only (y1, y2) it.1 in both_hold same.0 same.1.0
            ])
      ];
    } };

    ghost keeps = { record {
      of_origin = λ o people. elim [
        | step.Open ↦ λ p.
            let q = variant_kept {own = unit_variant_refusal} (name "Step") (name "open")
            ⟦<Step as Variants<'de>>⟧.refusal (unfold name index_among in λ v. refl)
            unit_variant_keeps
            o people tt p.free p.given in
            record { free = q.0; given = q.1 }
        | step.Weighed x1 ↦ λ p.
            let q = variant_kept {own = (newtype_variant_refusal
            (⟦<u32 as Deserialize<'de>>⟧.refusal))} (name "Step") (name "weighed")
            ⟦<Step as Variants<'de>>⟧.refusal (unfold name index_among in λ v. refl)
            (newtype_variant_keeps (natural_keeps kind.u32))
            o people x1 p.free p.given in
            record { free = q.0; given = q.1 }
        | step.Moved x1 x2 ↦ λ p.
            let q = variant_kept {own = (tuple_variant_refusal
            (part_then 2 0 (⟦<i32 as Deserialize<'de>>⟧.refusal)
            (part_then 2 1 (⟦<i32 as Deserialize<'de>>⟧.refusal)
            (end_of_parts 2))))} (name "Step") (name "moved-by")
            ⟦<Step as Variants<'de>>⟧.refusal (unfold name index_among in λ v. refl)
            (tuple_variant_keeps
            (part_keeps (λ (z : ℤ × ℤ). z.0) 2 0 (integer_keeps kind.i32)
            (part_keeps (λ (z : ℤ × ℤ). z.1) 2 1 (integer_keeps kind.i32)
            (parts_end_keeps 2))))
            o people (x1, x2) p.free p.given in
            record { free = q.0; given = q.1 }
        | step.Left x1 x2 ↦ λ p.
            let q = variant_kept {own = (struct_variant_refusal (read_by_name
            (row_then (name "with") (⟦<String as Deserialize<'de>>⟧.refusal)
            (row_then (name "at") (⟦<Place as Deserialize<'de>>⟧.refusal)
            (others_left (name "with" ∷ name "at" ∷ []))))))} (name "Step") (name "left")
            ⟦<Step as Variants<'de>>⟧.refusal (unfold name index_among in λ v. refl)
            (struct_variant_keeps (by_name_keeps
            (named_keeps (name "with") (λ (z : (String Global) × Place). z.0)
            (heedless_keeps (λ o. refusal_of (text_from o))
            (λ o (x : String Global). IsTaken (text_from o) (HasContent (string_bytes x))))
            (named_keeps (name "at") (λ (z : (String Global) × Place). z.1)
            place_round_trip.keeps-law
            (skipped_keeps (name "with" ∷ name "at" ∷ []))))))
            o people (x1, x2) p.free p.given in
            record { free = q.0; given = q.1 }
      ];
    } };
}

impl<'de> CborRoundTrip<'de> for Step {
    ghost use Rattle.check_derive.specs.contracts.types.PlaceCborRoundTrip.TheImpl.Laws as place_cbor_round_trip;

    ghost kept = { record {
      of_value = elim [
        | step.Open ↦ λ real. variant_comes_back ⟦<Step as Variants<'de>>⟧.refusal
            Self.gives unit_variant_kept
            (unfold name index_among in λ v. refl)
            (unfold name index_among in λ b d only. elim [
              | step.Open ↦ λ it. refl
              | step.Weighed y1 ↦ λ it. other_variant
                  (given_as b (name "Step") (name "open") d it).named refl
              | step.Moved y1 y2 ↦ λ it. other_variant
                  (given_as b (name "Step") (name "open") d it).named refl
              | step.Left y1 y2 ↦ λ it. other_variant
                  (given_as b (name "Step") (name "open") d it).named refl
            ])
        | step.Weighed x1 ↦ λ real. variant_comes_back ⟦<Step as Variants<'de>>⟧.refusal
            Self.gives (newtype_variant_kept u32_kept x1 tt)
            (unfold name index_among in λ v. refl)
            (unfold name index_among in λ b d only. elim [
              | step.Open ↦ λ it. other_variant
                  (given_as b (name "Step") (name "weighed") d it).named refl
              | step.Weighed y1 ↦ λ it. only y1
                  (given_as b (name "Step") (name "weighed") d it).held
              | step.Moved y1 y2 ↦ λ it. other_variant
                  (given_as b (name "Step") (name "weighed") d it).named refl
              | step.Left y1 y2 ↦ λ it. other_variant
                  (given_as b (name "Step") (name "weighed") d it).named refl
            ])
        | step.Moved x1 x2 ↦ λ real. variant_comes_back ⟦<Step as Variants<'de>>⟧.refusal
            Self.gives (tuple_variant_kept
            (tuple_field_kept i32_kept x1 tt (λ (z : ℤ × ℤ). z.0) 2 0
            (tuple_field_kept i32_kept x2 tt (λ (z : ℤ × ℤ). z.1) 2 1
            (parts_end_kept 2))))
            (unfold name index_among in λ v. refl)
            (unfold name index_among in λ b d only. elim [
              | step.Open ↦ λ it. other_variant
                  (given_as b (name "Step") (name "moved-by") d it).named refl
              | step.Weighed y1 ↦ λ it. other_variant
                  (given_as b (name "Step") (name "moved-by") d it).named refl
              | step.Moved y1 y2 ↦ λ it. let same = only (y1, y2)
                  (given_as b (name "Step") (name "moved-by") d it).held in both_hold same.0 same.1.0
              | step.Left y1 y2 ↦ λ it. other_variant
                  (given_as b (name "Step") (name "moved-by") d it).named refl
            ])
        | step.Left x1 x2 ↦ λ real. variant_comes_back ⟦<Step as Variants<'de>>⟧.refusal
            Self.gives (struct_variant_kept (by_name_kept
            (named_kept (name "with") text_kept x1 tt (λ (z : (String Global) × Place). z.0)
            (named_kept (name "at") place_cbor_round_trip.kept-law x2 real
            (λ (z : (String Global) × Place). z.1)
            (skipped_kept (name "with" ∷ name "at" ∷ []))))))
            (unfold name index_among in λ v. refl)
            (unfold name index_among in λ b d only. elim [
              | step.Open ↦ λ it. other_variant
                  (given_as b (name "Step") (name "left") d it).named refl
              | step.Weighed y1 ↦ λ it. other_variant
                  (given_as b (name "Step") (name "left") d it).named refl
              | step.Moved y1 y2 ↦ λ it. other_variant
                  (given_as b (name "Step") (name "left") d it).named refl
              | step.Left y1 y2 ↦ λ it. let same = only (y1, y2)
                  (given_as b (name "Step") (name "left") d it).held in both_hold same.0 same.1.0
            ])
      ];
    } };
}

impl<'de> NotNull<'de> for Step {
    ghost refuses_null = { record { of_null = λ b e. absurd (cc e) } };
}

/// An order.
#[derive(Drop, Debug, PartialEq, Eq)]
pub struct Order {
    /// Its number.
    pub id: u64,
    /// Where it goes.
    pub to: Place,
    /// What became of it.
    pub steps: Vec<Step>,
    /// How many of what.
    pub goods: HashMap<String, u32>,
    /// Width, height and depth.
    pub size: (u16, u16, u16),
    /// A word to the driver.
    pub note: Option<Box<String>>,
}

/// The names of its fields.
#[derive(Drop)]
struct FieldsOfOrder;

impl Names for FieldsOfOrder {
    ghost names = { name "order-id" ∷ name "to" ∷ name "steps" ∷ name "goods" ∷
        name "size" ∷ name "note" ∷ [] };

    #[tactic(auto, unfolding(serde_content::specs::Literals::name))]
    fn names() -> &'static [&'static str] {
        &["order-id", "to", "steps", "goods", "size", "note"]
    }
}

type Field1OfOrder = ReadField<FieldsOfOrder, 0, u64, Field2OfOrder>;

type Field2OfOrder = ReadField<FieldsOfOrder, 1, Place, Field3OfOrder>;

type Field3OfOrder = ReadFieldOr<FieldsOfOrder, 2, Vec<Step>, Field4OfOrder>;

type Field4OfOrder = ReadField<FieldsOfOrder, 3, HashMap<String, u32>, Field5OfOrder>;

type Field5OfOrder = ReadField<FieldsOfOrder, 4, (u16, u16, u16), Field6OfOrder>;

type Field6OfOrder = ReadFieldOr<
    FieldsOfOrder,
    5,
    Option<Box<String>>,
    OthersSkipped<FieldsOfOrder>,
>;

impl<'de> ReadStruct<'de> for Order {
    ghost name = { name "Order" };

    ghost refusal = { row_then (name "order-id") (⟦<u64 as Deserialize<'de>>⟧.refusal)
        (row_then (name "to") (⟦<Place as Deserialize<'de>>⟧.refusal)
        (row_or_then (name "steps") (⟦<Vec<Step> as Deserialize<'de>>⟧.refusal)
        (row_then (name "goods") (⟦<HashMap<String, u32> as Deserialize<'de>>⟧.refusal)
        (row_then (name "size") (⟦<(u16, u16, u16) as Deserialize<'de>>⟧.refusal)
        (row_or_then (name "note") (⟦<Option<Box<String>> as Deserialize<'de>>⟧.refusal)
        (others_left (name "order-id" ∷ name "to" ∷ name "steps" ∷ name "goods" ∷
        name "size" ∷ name "note" ∷ []))))))) };

    ghost gives = { λ z.
        (RowThen (name "order-id") (⟦<u64 as Deserialize<'de>>⟧.gives) z.id
        (RowThen (name "to") (⟦<Place as Deserialize<'de>>⟧.gives) z.to
        (RowOrThen (name "steps") (λ (x : (Vec Step Global)). x.items ≡ [])
        (⟦<Vec<Step> as Deserialize<'de>>⟧.gives) z.steps
        (RowThen (name "goods") (⟦<HashMap<String, u32> as Deserialize<'de>>⟧.gives) z.goods
        (RowThen (name "size") (⟦<(u16, u16, u16) as Deserialize<'de>>⟧.gives) z.size
        (RowOrThen (name "note") (λ (x : (Option (Box (String Global) Global))). x ≡ None)
        (⟦<Option<Box<String>> as Deserialize<'de>>⟧.gives) z.note
        NoOthers)))))) };

    #[tactic(auto, unfolding(serde_content::specs::Literals::name))]
    fn name() -> &'static str {
        "Order"
    }

    fn read<'n: 'de>(alloc: Global, fields: FieldsByName<'de, 'n>) -> Result<Order> {
        let row: Field1OfOrder = ReadFields::read(alloc, fields)?;
        let ReadField(id, row, _) = row;
        let ReadField(to, row, _) = row;
        let ReadFieldOr(steps, row, _) = row;
        let ReadField(goods, row, _) = row;
        let ReadField(size, row, _) = row;
        let ReadFieldOr(note, _, _) = row;
        Ok(Order {
            id,
            to,
            steps,
            goods,
            size,
            note,
        })
    }
}

impl Serialize for Order {
    ghost use Rattle.check_derive.specs.contracts.types.PlaceSerialize.TheImpl.Laws as place_serialize;
    ghost use Rattle.check_derive.specs.contracts.types.StepSerialize.TheImpl.Laws as step_serialize;

    ghost script = { λ p. struct_script (name "Order") 6
        (field_first (name "order-id") (⟦<u64 as Serialize>⟧.script p.id)
        (field_first (name "to") (⟦<Place as Serialize>⟧.script p.to)
        (field_first (name "steps") (⟦<Vec<Step> as Serialize>⟧.script p.steps)
        (field_first (name "goods") (⟦<HashMap<String, u32> as Serialize>⟧.script p.goods)
        (field_first (name "size") (⟦<(u16, u16, u16) as Serialize>⟧.script p.size)
        (field_first (name "note") (⟦<Option<Box<String>> as Serialize>⟧.script p.note)
        end_script)))))) };

    ghost lawful = { λ p readable. struct_lawful
        (field_fits (leaf_lawful refl)
        (field_fits (place_serialize.lawful-law p.to readable)
        (field_fits (seq_lawful (λ x h. step_serialize.lawful-law x h) p.steps.items
        readable)
        (field_fits (map_lawful (λ x h. leaf_lawful refl) (λ x h. leaf_lawful refl)
        p.goods.entries readable)
        (field_fits (tuple_lawful
        (element_fits (leaf_lawful refl)
        (element_fits (leaf_lawful refl)
        (element_fits (leaf_lawful refl)
        end_fits))))
        (field_fits (option_lawful (λ x h. leaf_lawful refl) p.note readable)
        struct_end_fits)))))) };

    fn serialize<S: Serializer>(&self, alloc: Global, serializer: &mut S) -> Result<()> {
        let row = SendEnd;
        let row = SendField(FieldsOfOrder, 5, &self.note, row);
        let row = SendField(FieldsOfOrder, 4, &self.size, row);
        let row = SendField(FieldsOfOrder, 3, &self.goods, row);
        let row = SendField(FieldsOfOrder, 2, &self.steps, row);
        let row = SendField(FieldsOfOrder, 1, &self.to, row);
        let row = SendField(FieldsOfOrder, 0, &self.id, row);
        let row = SendOpen(Call::Struct(name_order(), 6), row);
        send_row(alloc, serializer, &row)
    }
}

impl<'de> Deserialize<'de> for Order {
    ghost refusal = { struct_refusal (name "Order") (read_by_name
        (row_then (name "order-id") (⟦<u64 as Deserialize<'de>>⟧.refusal)
        (row_then (name "to") (⟦<Place as Deserialize<'de>>⟧.refusal)
        (row_or_then (name "steps") (⟦<Vec<Step> as Deserialize<'de>>⟧.refusal)
        (row_then (name "goods") (⟦<HashMap<String, u32> as Deserialize<'de>>⟧.refusal)
        (row_then (name "size") (⟦<(u16, u16, u16) as Deserialize<'de>>⟧.refusal)
        (row_or_then (name "note") (⟦<Option<Box<String>> as Deserialize<'de>>⟧.refusal)
        (others_left (name "order-id" ∷ name "to" ∷ name "steps" ∷ name "goods" ∷
        name "size" ∷ name "note" ∷ []))))))))) };

    ghost gives = { λ s p. StructGives (name "Order") (ReadByName
        (RowThen (name "order-id") (⟦<u64 as Deserialize<'de>>⟧.gives) p.id
        (RowThen (name "to") (⟦<Place as Deserialize<'de>>⟧.gives) p.to
        (RowOrThen (name "steps") (λ (x : (Vec Step Global)). x.items ≡ [])
        (⟦<Vec<Step> as Deserialize<'de>>⟧.gives) p.steps
        (RowThen (name "goods") (⟦<HashMap<String, u32> as Deserialize<'de>>⟧.gives) p.goods
        (RowThen (name "size") (⟦<(u16, u16, u16) as Deserialize<'de>>⟧.gives) p.size
        (RowOrThen (name "note") (λ (x : (Option (Box (String Global) Global))). x ≡ None)
        (⟦<Option<Box<String>> as Deserialize<'de>>⟧.gives) p.note
        NoOthers))))))) s };

    fn deserialize<'n: 'de>(alloc: Global, from: Deserializer<'de, 'n>) -> Result<Order> {
        read_struct::<FieldsOfOrder, Self>(alloc, from)
    }
}

impl<'de> RoundTrip<'de> for Order {
    ghost use Rattle.check_derive.specs.contracts.types.PlaceRoundTrip.TheImpl.Laws as place_round_trip;
    ghost use Rattle.check_derive.specs.contracts.types.StepRoundTrip.TheImpl.Laws as step_round_trip;

    ghost exists = { λ p. ⟦<Place as RoundTrip<'de>>⟧.exists p.to ×
        ⟦<Vec<Step> as RoundTrip<'de>>⟧.exists p.steps ×
        ⟦<HashMap<String, u32> as RoundTrip<'de>>⟧.exists p.goods ×
        ⟦<(u16, u16, u16) as RoundTrip<'de>>⟧.exists p.size ×
        ⟦<Option<Box<String>> as RoundTrip<'de>>⟧.exists p.note };

    fn known(&self) {
        self.to.known();
        self.steps.known();
        self.goods.known();
        self.size.known();
        self.note.known();
    }

    ghost comes_back = { record {
      of_value = λ p real f. struct_back (by_name_back
          (named_back (name "order-id") u64_back p.id tt (λ q. q.id)
          (named_back (name "to") place_round_trip.comes_back-law p.to real.0 (λ q. q.to)
          (named_or_back (name "steps") (λ (x : (Vec Step Global)). x.items ≡ [])
          (let law : ComesBack (⟦<Vec<Step> as RoundTrip<'de>>⟧.exists)
          (⟦<Vec<Step> as Serialize>⟧.script) (⟦<Vec<Step> as Deserialize<'de>>⟧.refusal)
          (⟦<Vec<Step> as Deserialize<'de>>⟧.gives) (⟦<Vec<Step> as PartialEq>⟧.eq) =
          (seen_back (λ v. v.items) (seq_back step_round_trip.comes_back-law)) in law) p.steps
          real.1 (λ q. q.steps)
          (named_back (name "goods") (let law : ComesBack
          (⟦<HashMap<String, u32> as RoundTrip<'de>>⟧.exists)
          (⟦<HashMap<String, u32> as Serialize>⟧.script)
          (⟦<HashMap<String, u32> as Deserialize<'de>>⟧.refusal)
          (⟦<HashMap<String, u32> as Deserialize<'de>>⟧.gives)
          (⟦<HashMap<String, u32> as PartialEq>⟧.eq) =
          (hash_map_back string_eq_equiv text_back u32_back) in law) p.goods real.2
          (λ q. q.goods)
          (named_back (name "size") (let law : ComesBack
          (⟦<(u16, u16, u16) as RoundTrip<'de>>⟧.exists)
          (⟦<(u16, u16, u16) as Serialize>⟧.script)
          (⟦<(u16, u16, u16) as Deserialize<'de>>⟧.refusal)
          (⟦<(u16, u16, u16) as Deserialize<'de>>⟧.gives)
          (⟦<(u16, u16, u16) as PartialEq>⟧.eq) = (record {
            of_value = λ x real f. tuple_back
                (element_back u16_back x.0 real.0 (λ y. y.0) 3 0
                (element_back u16_back x.1 real.1 (λ y. y.1) 3 1
                (element_back u16_back x.2 real.2 (λ y. y.2) 3 2
                (parts_end 3))))
                f (λ y h. both_hold (both_hold h.0 h.1.0) h.1.1.0);
          }) in law) p.size real.3
          (λ q. q.size)
          (named_or_back (name "note") (λ (x : (Option (Box (String Global) Global))). x ≡
          None) (let law : ComesBack (⟦<Option<Box<String>> as RoundTrip<'de>>⟧.exists)
          (⟦<Option<Box<String>> as Serialize>⟧.script)
          (⟦<Option<Box<String>> as Deserialize<'de>>⟧.refusal)
          (⟦<Option<Box<String>> as Deserialize<'de>>⟧.gives)
          (⟦<Option<Box<String>> as PartialEq>⟧.eq) =
          (option_back (seen_back (λ b. b.value) text_back)) in law) p.note real.4
          (λ q. q.note)
          (skipped_back (name "order-id" ∷ name "to" ∷ name "steps" ∷ name "goods" ∷
          name "size" ∷ name "note" ∷ [])))))))))
          f (λ q h. both_hold h.0 (both_hold h.1.0
          (both_hold h.1.1.0 (both_hold h.1.1.1.0 (both_hold h.1.1.1.1.0 h.1.1.1.1.1.0)))));
    } };

    ghost keeps = { struct_keeps (name "Order") (by_name_keeps
        (named_keeps (name "order-id") (λ q. q.id) (natural_keeps kind.u64)
        (named_keeps (name "to") (λ q. q.to) place_round_trip.keeps-law
        (named_or_keeps (name "steps") (λ (x : (Vec Step Global)). x.items ≡ [])
        (λ q. q.steps) (let law : CoercionKeeps (⟦<Vec<Step> as Deserialize<'de>>⟧.refusal)
        (⟦<Vec<Step> as Deserialize<'de>>⟧.gives) =
        (seen_keeps (λ v. v.items) (seq_keeps step_round_trip.keeps-law)) in law)
        (named_keeps (name "goods") (λ q. q.goods)
        (let law : CoercionKeeps (⟦<HashMap<String, u32> as Deserialize<'de>>⟧.refusal)
        (⟦<HashMap<String, u32> as Deserialize<'de>>⟧.gives) =
        (hash_map_keeps (⟦<String as PartialEq>⟧.eq)
        (heedless_keeps (λ o. refusal_of (text_from o))
        (λ o (x : String Global). IsTaken (text_from o) (HasContent (string_bytes x))))
        (natural_keeps kind.u32)) in law)
        (named_keeps (name "size") (λ q. q.size)
        (let law : CoercionKeeps (⟦<(u16, u16, u16) as Deserialize<'de>>⟧.refusal)
        (⟦<(u16, u16, u16) as Deserialize<'de>>⟧.gives) = (tuple_keeps 3
        (part_keeps (λ y. y.0) 3 0 (natural_keeps kind.u16)
        (part_keeps (λ y. y.1) 3 1 (natural_keeps kind.u16)
        (part_keeps (λ y. y.2) 3 2 (natural_keeps kind.u16)
        (parts_end_keeps 3))))) in law)
        (named_or_keeps (name "note")
        (λ (x : (Option (Box (String Global) Global))). x ≡ None) (λ q. q.note)
        (let law : CoercionKeeps (⟦<Option<Box<String>> as Deserialize<'de>>⟧.refusal)
        (⟦<Option<Box<String>> as Deserialize<'de>>⟧.gives) =
        (option_keeps (seen_keeps (λ b. b.value)
        (heedless_keeps (λ o. refusal_of (text_from o))
        (λ o (x : String Global). IsTaken (text_from o) (HasContent (string_bytes x)))))) in
        law)
        (skipped_keeps (name "order-id" ∷ name "to" ∷ name "steps" ∷ name "goods" ∷
        name "size" ∷ name "note" ∷ []))))))))) };
}

impl<'de> CborRoundTrip<'de> for Order {
    ghost use Rattle.check_derive.specs.contracts.types.PlaceCborRoundTrip.TheImpl.Laws as place_cbor_round_trip;
    ghost use Rattle.check_derive.specs.contracts.types.StepCborRoundTrip.TheImpl.Laws as step_cbor_round_trip;

    ghost kept = { record {
      of_value = λ p real. struct_kept (by_name_kept
          (named_kept (name "order-id") u64_kept p.id tt (λ q. q.id)
          (named_kept (name "to") place_cbor_round_trip.kept-law p.to real.0 (λ q. q.to)
          (named_or_kept (name "steps") (λ (x : (Vec Step Global)). x.items ≡ [])
          (let law : FormComesBack (⟦<Vec<Step> as RoundTrip<'de>>⟧.exists)
          (⟦<Vec<Step> as Serialize>⟧.script) (⟦<Vec<Step> as Deserialize<'de>>⟧.refusal)
          (⟦<Vec<Step> as Deserialize<'de>>⟧.gives) (⟦<Vec<Step> as PartialEq>⟧.eq) =
          (seen_kept (λ v. v.items) (seq_kept step_cbor_round_trip.kept-law)) in law) p.steps
          real.1 (λ q. q.steps)
          (named_kept (name "goods") (let law : FormComesBack
          (⟦<HashMap<String, u32> as RoundTrip<'de>>⟧.exists)
          (⟦<HashMap<String, u32> as Serialize>⟧.script)
          (⟦<HashMap<String, u32> as Deserialize<'de>>⟧.refusal)
          (⟦<HashMap<String, u32> as Deserialize<'de>>⟧.gives)
          (⟦<HashMap<String, u32> as PartialEq>⟧.eq) =
          (hash_map_kept string_eq_equiv text_kept u32_kept) in law) p.goods real.2
          (λ q. q.goods)
          (named_kept (name "size") (let law : FormComesBack
          (⟦<(u16, u16, u16) as RoundTrip<'de>>⟧.exists)
          (⟦<(u16, u16, u16) as Serialize>⟧.script)
          (⟦<(u16, u16, u16) as Deserialize<'de>>⟧.refusal)
          (⟦<(u16, u16, u16) as Deserialize<'de>>⟧.gives)
          (⟦<(u16, u16, u16) as PartialEq>⟧.eq) = (record {
            of_value = λ x real. tuple_kept
                (element_kept u16_kept x.0 real.0 (λ y. y.0) 3 0
                (element_kept u16_kept x.1 real.1 (λ y. y.1) 3 1
                (element_kept u16_kept x.2 real.2 (λ y. y.2) 3 2
                (parts_end_kept 3))))
                (λ y h. both_hold (both_hold h.0 h.1.0) h.1.1.0);
          }) in law) p.size real.3
          (λ q. q.size)
          (named_or_kept (name "note") (λ (x : (Option (Box (String Global) Global))). x ≡
          None) (let law : FormComesBack (⟦<Option<Box<String>> as RoundTrip<'de>>⟧.exists)
          (⟦<Option<Box<String>> as Serialize>⟧.script)
          (⟦<Option<Box<String>> as Deserialize<'de>>⟧.refusal)
          (⟦<Option<Box<String>> as Deserialize<'de>>⟧.gives)
          (⟦<Option<Box<String>> as PartialEq>⟧.eq) =
          (option_kept text_not_null (seen_kept (λ b. b.value) text_kept)) in law) p.note
          real.4 (λ q. q.note)
          (skipped_kept (name "order-id" ∷ name "to" ∷ name "steps" ∷ name "goods" ∷
          name "size" ∷ name "note" ∷ [])))))))))
          (λ q h. both_hold h.0 (both_hold h.1.0
          (both_hold h.1.1.0 (both_hold h.1.1.1.0 (both_hold h.1.1.1.1.0 h.1.1.1.1.1.0)))));
    } };
}

impl<'de> NotNull<'de> for Order {
    ghost refuses_null = { record { of_null = λ b e. absurd (cc e) } };
}

/// The name `Place`.
#[tactic(auto, unfolding(serde_content::specs::Literals::name))]
fn name_place() -> &'static str
    ensures { result.now ≡ name "Place" }
{
    "Place"
}

/// The name `Step`.
#[tactic(auto, unfolding(serde_content::specs::Literals::name))]
fn name_step() -> &'static str
    ensures { result.now ≡ name "Step" }
{
    "Step"
}

/// The name `moved-by`.
#[tactic(auto, unfolding(serde_content::specs::Literals::name))]
fn name_moved_by() -> &'static str
    ensures { result.now ≡ name "moved-by" }
{
    "moved-by"
}

/// The name `left`.
#[tactic(auto, unfolding(serde_content::specs::Literals::name))]
fn name_left() -> &'static str
    ensures { result.now ≡ name "left" }
{
    "left"
}

/// The name `open`.
#[tactic(auto, unfolding(serde_content::specs::Literals::name))]
fn name_open() -> &'static str
    ensures { result.now ≡ name "open" }
{
    "open"
}

/// The name `weighed`.
#[tactic(auto, unfolding(serde_content::specs::Literals::name))]
fn name_weighed() -> &'static str
    ensures { result.now ≡ name "weighed" }
{
    "weighed"
}

/// The name `Order`.
#[tactic(auto, unfolding(serde_content::specs::Literals::name))]
fn name_order() -> &'static str
    ensures { result.now ≡ name "Order" }
{
    "Order"
}
