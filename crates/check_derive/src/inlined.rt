//! Structs whose fields are sent among those of what holds them.
//!
//! Written by `tools/derive` from `inlined.rs`: change that file, and write this one anew.

ghost use Rattle.std.specs.Prelude.{◌≡◌, ◌∷◌, [], ℤ, Option, None, true, string_bytes, refl};
ghost use Rattle.content_ser.specs.Scripts.Sends.{Sends};
ghost use Rattle.content_ser.specs.Scripts.Own.{field_first, end_script, struct_script};
ghost use Rattle.content_ser.specs.Laws.StandardScripts.{leaf_lawful, option_lawful};
ghost use Rattle.content_ser.specs.Laws.OwnScripts.{field_fits, struct_end_fits, struct_lawful};
ghost use Rattle.content_de.specs.Outcomes.{refusal_of, IsTaken};
ghost use Rattle.content_de.specs.Requests.Leaves.{text_from};
ghost use Rattle.content_de.specs.Reads.Standard.{HasContent};
ghost use Rattle.content_de.specs.Sources.Origin.{buffering};
ghost use Rattle.content_de.specs.Accesses.ByName.{fields_left};
ghost use Rattle.content_de.specs.Reads.Read.{Reads};
ghost use Rattle.content_de.specs.Reads.ByName.{read_by_name, ReadByName, NoOthers};
ghost use Rattle.content_de.specs.Reads.Tagged.{tag_then_buffered, TagThenBuffered};
ghost use Rattle.content_de.specs.Reads.Own.{struct_refusal, StructGives};
ghost use Rattle.serde_content.specs.Literals.{name, row_then, row_or_then, RowThen, RowOrThen};
ghost use Rattle.serde_content.specs.Literals.{others_left};
ghost use Rattle.serde_content.specs.Variants.{index_among, variants};
ghost use Rattle.serde_content.specs.RoundTrip.{ComesBack, CoercionKeeps};
ghost use Rattle.serde_content.specs.Laws.Leaves.{heedless_keeps, natural_keeps, integer_keeps};
ghost use Rattle.serde_content.specs.Laws.Leaves.{text_back, u64_back, i32_back};
ghost use Rattle.serde_content.specs.Laws.Holders.{option_back, option_keeps};
ghost use Rattle.serde_content.specs.Laws.Series.{both_hold};
ghost use Rattle.serde_content.specs.Laws.Records.{struct_back, struct_keeps};
ghost use Rattle.serde_content.specs.Laws.ByName.{by_name_back, named_back, named_or_back};
ghost use Rattle.serde_content.specs.Laws.ByName.{skipped_back, by_name_keeps, named_keeps};
ghost use Rattle.serde_content.specs.Laws.ByName.{named_or_keeps, skipped_keeps};
ghost use Rattle.serde_content.specs.Laws.Flattened.{flattened_script, flattened_first};
ghost use Rattle.serde_content.specs.Laws.Flattened.{flattened_fits, flattened_end_fits};
ghost use Rattle.serde_content.specs.Laws.Flattened.{flattened_lawful, flattened_refusal};
ghost use Rattle.serde_content.specs.Laws.Flattened.{FlattenedGives, flattened_end_back};
ghost use Rattle.serde_content.specs.Laws.Flattened.{flattened_named_back, flattened_named_or_back};
ghost use Rattle.serde_content.specs.Laws.Flattened.{flattened_back, flattened_keeps};
ghost use Rattle.serde_content.specs.Laws.Tagged.{tagged_script, tagged_back, tag_keeps_buffered};
ghost use Rattle.content_cbor.specs.Typed.Kept.{FormComesBack};
ghost use Rattle.content_cbor.specs.Typed.Leaves.{text_kept, u64_kept, i32_kept, text_not_null};
ghost use Rattle.content_cbor.specs.Typed.Holders.{option_kept};
ghost use Rattle.content_cbor.specs.Typed.Records.{struct_kept};
ghost use Rattle.content_cbor.specs.Typed.ByName.{by_name_kept, named_kept, named_or_kept};
ghost use Rattle.content_cbor.specs.Typed.ByName.{skipped_kept};
ghost use Rattle.content_cbor.specs.Typed.Tagged.{tagged_kept};
ghost use Rattle.content_cbor.specs.Typed.Flattened.{flattened_named_kept, flattened_named_or_kept};
ghost use Rattle.content_cbor.specs.Typed.Flattened.{flattened_end_kept, flattened_kept};
ghost use Rattle.std.specs.declared.alloc.Global.{Global};
ghost use Rattle.std.specs.declared.string.String.{String};
ghost use Rattle.content_tree.specs.Values.Ranges as kind;
ghost use Rattle.check_derive.specs.declared.inlined.Change.TheVariants as change;

use content_cbor::{CborRoundTrip, NotNull};
use serde_content::de::{Deserialize, FieldsByName};
use serde_content::derive_support::{
    Names, OthersSkipped, ReadField, ReadFieldOr, ReadFields, ReadStruct, SendEnd, SendEntry,
    SendField, SendOpen, SendTag, TaggedVariants, no_such_variant, read_flattened, read_struct,
    read_tagged, send_row, variant_index,
};
use serde_content::ser::{Call, Serialize, Serializer};
use serde_content::{Deserializer, Result, RoundTrip};
use std::alloc::Global;

/// How much of something.
#[derive(Drop, PartialEq, Eq)]
pub struct Amount {
    /// The number.
    pub count: i32,
    /// Of which unit, or pieces.
    pub unit: Option<String>,
}

/// The names of its fields.
#[derive(Drop)]
struct FieldsOfAmount;

impl Names for FieldsOfAmount {
    ghost names = { name "count" ∷ name "unit" ∷ [] };

    #[tactic(auto, unfolding(serde_content::specs::Literals::name))]
    fn names() -> &'static [&'static str] {
        &["count", "unit"]
    }
}

type Field1OfAmount = ReadField<FieldsOfAmount, 0, i32, Field2OfAmount>;

type Field2OfAmount = ReadFieldOr<FieldsOfAmount, 1, Option<String>, OthersSkipped<FieldsOfAmount>>;

impl<'de> ReadStruct<'de> for Amount {
    ghost name = { name "Amount" };

    ghost refusal = { row_then (name "count") (⟦<i32 as Deserialize<'de>>⟧.refusal)
        (row_or_then (name "unit") (⟦<Option<String> as Deserialize<'de>>⟧.refusal)
        (others_left (name "count" ∷ name "unit" ∷ []))) };

    ghost gives = { λ z.
        (RowThen (name "count") (⟦<i32 as Deserialize<'de>>⟧.gives) z.count
        (RowOrThen (name "unit") (λ (x : (Option (String Global))). x ≡ None)
        (⟦<Option<String> as Deserialize<'de>>⟧.gives) z.unit
        NoOthers)) };

    #[tactic(auto, unfolding(serde_content::specs::Literals::name))]
    fn name() -> &'static str {
        "Amount"
    }

    fn read<'n: 'de>(alloc: Global, fields: FieldsByName<'de, 'n>) -> Result<Amount> {
        let row: Field1OfAmount = ReadFields::read(alloc, fields)?;
        let ReadField(count, row, _) = row;
        let ReadFieldOr(unit, _, _) = row;
        Ok(Amount { count, unit })
    }
}

impl Serialize for Amount {
    ghost script = { λ p. struct_script (name "Amount") 2
        (field_first (name "count") (⟦<i32 as Serialize>⟧.script p.count)
        (field_first (name "unit") (⟦<Option<String> as Serialize>⟧.script p.unit)
        end_script)) };

    ghost lawful = { λ p readable. struct_lawful
        (field_fits (leaf_lawful refl)
        (field_fits (option_lawful (λ x h. leaf_lawful refl) p.unit readable)
        struct_end_fits)) };

    fn serialize<S: Serializer>(&self, alloc: Global, serializer: &mut S) -> Result<()> {
        let row = SendEnd;
        let row = SendField(FieldsOfAmount, 1, &self.unit, row);
        let row = SendField(FieldsOfAmount, 0, &self.count, row);
        let row = SendOpen(Call::Struct(name_amount(), 2), row);
        send_row(alloc, serializer, &row)
    }
}

impl<'de> Deserialize<'de> for Amount {
    ghost refusal = { struct_refusal (name "Amount") (read_by_name
        (row_then (name "count") (⟦<i32 as Deserialize<'de>>⟧.refusal)
        (row_or_then (name "unit") (⟦<Option<String> as Deserialize<'de>>⟧.refusal)
        (others_left (name "count" ∷ name "unit" ∷ []))))) };

    ghost gives = { λ s p. StructGives (name "Amount") (ReadByName
        (RowThen (name "count") (⟦<i32 as Deserialize<'de>>⟧.gives) p.count
        (RowOrThen (name "unit") (λ (x : (Option (String Global))). x ≡ None)
        (⟦<Option<String> as Deserialize<'de>>⟧.gives) p.unit
        NoOthers))) s };

    fn deserialize<'n: 'de>(alloc: Global, from: Deserializer<'de, 'n>) -> Result<Amount> {
        read_struct::<FieldsOfAmount, Self>(alloc, from)
    }
}

impl<'de> RoundTrip<'de> for Amount {
    ghost exists = { λ p. ⟦<Option<String> as RoundTrip<'de>>⟧.exists p.unit };

    fn known(&self) {
        self.unit.known();
    }

    ghost comes_back = { record {
      of_value = λ p real f. struct_back (by_name_back
          (named_back (name "count") i32_back p.count tt (λ q. q.count)
          (named_or_back (name "unit") (λ (x : (Option (String Global))). x ≡ None)
          (let law : ComesBack (⟦<Option<String> as RoundTrip<'de>>⟧.exists)
          (⟦<Option<String> as Serialize>⟧.script)
          (⟦<Option<String> as Deserialize<'de>>⟧.refusal)
          (⟦<Option<String> as Deserialize<'de>>⟧.gives) (⟦<Option<String> as PartialEq>⟧.eq)
          = (option_back text_back) in law) p.unit real (λ q. q.unit)
          (skipped_back (name "count" ∷ name "unit" ∷ [])))))
          f (λ q h. both_hold h.0 h.1.0);
    } };

    ghost keeps = { struct_keeps (name "Amount") (by_name_keeps
        (named_keeps (name "count") (λ q. q.count) (integer_keeps kind.i32)
        (named_or_keeps (name "unit") (λ (x : (Option (String Global))). x ≡ None)
        (λ q. q.unit) (let law : CoercionKeeps
        (⟦<Option<String> as Deserialize<'de>>⟧.refusal)
        (⟦<Option<String> as Deserialize<'de>>⟧.gives) =
        (option_keeps (heedless_keeps (λ o. refusal_of (text_from o))
        (λ o (x : String Global). IsTaken (text_from o) (HasContent (string_bytes x))))) in
        law)
        (skipped_keeps (name "count" ∷ name "unit" ∷ []))))) };
}

impl<'de> CborRoundTrip<'de> for Amount {
    ghost kept = { record {
      of_value = λ p real. struct_kept (by_name_kept
          (named_kept (name "count") i32_kept p.count tt (λ q. q.count)
          (named_or_kept (name "unit") (λ (x : (Option (String Global))). x ≡ None)
          (let law : FormComesBack (⟦<Option<String> as RoundTrip<'de>>⟧.exists)
          (⟦<Option<String> as Serialize>⟧.script)
          (⟦<Option<String> as Deserialize<'de>>⟧.refusal)
          (⟦<Option<String> as Deserialize<'de>>⟧.gives) (⟦<Option<String> as PartialEq>⟧.eq)
          = (option_kept text_not_null text_kept) in law) p.unit real (λ q. q.unit)
          (skipped_kept (name "count" ∷ name "unit" ∷ [])))))
          (λ q h. both_hold h.0 h.1.0);
    } };
}

impl<'de> NotNull<'de> for Amount {
    ghost refuses_null = { record { of_null = λ b e. absurd (cc e) } };
}

/// A line of a bill.
#[derive(Drop, PartialEq, Eq)]
pub struct Line {
    /// What it is.
    pub goods: String,
    /// How much of it.
    pub amount: Amount,
    /// For how much.
    pub price: u64,
}

/// The names of its fields.
#[derive(Drop)]
struct FieldsOfLine;

impl Names for FieldsOfLine {
    ghost names = { name "goods" ∷ name "count" ∷ name "unit" ∷ name "price" ∷ [] };

    #[tactic(auto, unfolding(serde_content::specs::Literals::name))]
    fn names() -> &'static [&'static str] {
        &["goods", "count", "unit", "price"]
    }
}

type Field1OfLine = ReadField<FieldsOfLine, 0, String, Field2OfLine>;

type Field2OfLine = ReadField<FieldsOfLine, 1, i32, Field3OfLine>;

type Field3OfLine = ReadFieldOr<FieldsOfLine, 2, Option<String>, Field4OfLine>;

type Field4OfLine = ReadField<FieldsOfLine, 3, u64, OthersSkipped<FieldsOfLine>>;

impl<'de> ReadFields<'de> for Line {
    ghost refusal = { row_then (name "goods") (⟦<String as Deserialize<'de>>⟧.refusal)
        (row_then (name "count") (⟦<i32 as Deserialize<'de>>⟧.refusal)
        (row_or_then (name "unit") (⟦<Option<String> as Deserialize<'de>>⟧.refusal)
        (row_then (name "price") (⟦<u64 as Deserialize<'de>>⟧.refusal)
        (others_left (name "goods" ∷ name "count" ∷ name "unit" ∷ name "price" ∷ []))))) };

    ghost gives = { λ z.
        (RowThen (name "goods") (⟦<String as Deserialize<'de>>⟧.gives) z.goods
        (RowThen (name "count") (⟦<i32 as Deserialize<'de>>⟧.gives) z.amount.count
        (RowOrThen (name "unit") (λ (x : (Option (String Global))). x ≡ None)
        (⟦<Option<String> as Deserialize<'de>>⟧.gives) z.amount.unit
        (RowThen (name "price") (⟦<u64 as Deserialize<'de>>⟧.gives) z.price
        NoOthers)))) };

    fn read<'n: 'de>(alloc: Global, fields: FieldsByName<'de, 'n>) -> Result<Line> {
        let row: Field1OfLine = ReadFields::read(alloc, fields)?;
        let ReadField(goods, row, _) = row;
        let ReadField(amount_count, row, _) = row;
        let ReadFieldOr(amount_unit, row, _) = row;
        let ReadField(price, _, _) = row;
        Ok(Line {
            goods,
            amount: Amount {
                count: amount_count,
                unit: amount_unit,
            },
            price,
        })
    }
}

impl Serialize for Line {
    ghost script = { λ p. flattened_script
        (flattened_first (name "goods") (⟦<String as Serialize>⟧.script p.goods)
        (flattened_first (name "count") (⟦<i32 as Serialize>⟧.script p.amount.count)
        (flattened_first (name "unit")
        (⟦<Option<String> as Serialize>⟧.script p.amount.unit)
        (flattened_first (name "price") (⟦<u64 as Serialize>⟧.script p.price)
        end_script)))) };

    ghost lawful = { λ p readable. flattened_lawful
        (flattened_fits (leaf_lawful refl)
        (flattened_fits (leaf_lawful refl)
        (flattened_fits (option_lawful (λ x h. leaf_lawful refl) p.amount.unit readable)
        (flattened_fits (leaf_lawful refl)
        flattened_end_fits)))) };

    fn serialize<S: Serializer>(&self, alloc: Global, serializer: &mut S) -> Result<()> {
        let row = SendEnd;
        let row = SendEntry(FieldsOfLine, 3, &self.price, row);
        let row = SendEntry(FieldsOfLine, 2, &self.amount.unit, row);
        let row = SendEntry(FieldsOfLine, 1, &self.amount.count, row);
        let row = SendEntry(FieldsOfLine, 0, &self.goods, row);
        let row = SendOpen(Call::Map(None), row);
        send_row(alloc, serializer, &row)
    }
}

impl<'de> Deserialize<'de> for Line {
    ghost refusal = { flattened_refusal (read_by_name
        (row_then (name "goods") (⟦<String as Deserialize<'de>>⟧.refusal)
        (row_then (name "count") (⟦<i32 as Deserialize<'de>>⟧.refusal)
        (row_or_then (name "unit") (⟦<Option<String> as Deserialize<'de>>⟧.refusal)
        (row_then (name "price") (⟦<u64 as Deserialize<'de>>⟧.refusal)
        (others_left (name "goods" ∷ name "count" ∷ name "unit" ∷ name "price" ∷ []))))))) };

    ghost gives = { λ s p. FlattenedGives (ReadByName
        (RowThen (name "goods") (⟦<String as Deserialize<'de>>⟧.gives) p.goods
        (RowThen (name "count") (⟦<i32 as Deserialize<'de>>⟧.gives) p.amount.count
        (RowOrThen (name "unit") (λ (x : (Option (String Global))). x ≡ None)
        (⟦<Option<String> as Deserialize<'de>>⟧.gives) p.amount.unit
        (RowThen (name "price") (⟦<u64 as Deserialize<'de>>⟧.gives) p.price
        NoOthers))))) s };

    fn deserialize<'n: 'de>(alloc: Global, from: Deserializer<'de, 'n>) -> Result<Line> {
        read_flattened(alloc, from)
    }
}

impl<'de> RoundTrip<'de> for Line {
    ghost exists = { λ p. ⟦<Option<String> as RoundTrip<'de>>⟧.exists p.amount.unit };

    fn known(&self) {
        self.amount.unit.known();
    }

    ghost comes_back = { record {
      of_value = λ p real f. flattened_back
          (flattened_named_back (name "goods") text_back p.goods tt (λ q. q.goods)
          (flattened_named_back (name "count") i32_back p.amount.count tt
          (λ q. q.amount.count)
          (flattened_named_or_back (name "unit") (λ (x : (Option (String Global))). x ≡ None)
          (let law : ComesBack (⟦<Option<String> as RoundTrip<'de>>⟧.exists)
          (⟦<Option<String> as Serialize>⟧.script)
          (⟦<Option<String> as Deserialize<'de>>⟧.refusal)
          (⟦<Option<String> as Deserialize<'de>>⟧.gives) (⟦<Option<String> as PartialEq>⟧.eq)
          = (option_back text_back) in law) p.amount.unit real (λ q. q.amount.unit)
          (flattened_named_back (name "price") u64_back p.price tt (λ q. q.price)
          (flattened_end_back (name "goods" ∷ name "count" ∷ name "unit" ∷ name "price" ∷
          []))))))
          f (λ q h. both_hold h.0 (both_hold (both_hold h.1.0 h.1.1.0) h.1.1.1.0));
    } };

    ghost keeps = { flattened_keeps (by_name_keeps
        (named_keeps (name "goods") (λ q. q.goods)
        (heedless_keeps (λ o. refusal_of (text_from o))
        (λ o (x : String Global). IsTaken (text_from o) (HasContent (string_bytes x))))
        (named_keeps (name "count") (λ q. q.amount.count) (integer_keeps kind.i32)
        (named_or_keeps (name "unit") (λ (x : (Option (String Global))). x ≡ None)
        (λ q. q.amount.unit) (let law : CoercionKeeps
        (⟦<Option<String> as Deserialize<'de>>⟧.refusal)
        (⟦<Option<String> as Deserialize<'de>>⟧.gives) =
        (option_keeps (heedless_keeps (λ o. refusal_of (text_from o))
        (λ o (x : String Global). IsTaken (text_from o) (HasContent (string_bytes x))))) in
        law)
        (named_keeps (name "price") (λ q. q.price) (natural_keeps kind.u64)
        (skipped_keeps (name "goods" ∷ name "count" ∷ name "unit" ∷ name "price" ∷ []))))))) };
}

impl<'de> CborRoundTrip<'de> for Line {
    ghost kept = { record {
      of_value = λ p real. flattened_kept
          (flattened_named_kept (name "goods") text_kept p.goods tt (λ q. q.goods)
          (flattened_named_kept (name "count") i32_kept p.amount.count tt
          (λ q. q.amount.count)
          (flattened_named_or_kept (name "unit") (λ (x : (Option (String Global))). x ≡ None)
          (let law : FormComesBack (⟦<Option<String> as RoundTrip<'de>>⟧.exists)
          (⟦<Option<String> as Serialize>⟧.script)
          (⟦<Option<String> as Deserialize<'de>>⟧.refusal)
          (⟦<Option<String> as Deserialize<'de>>⟧.gives) (⟦<Option<String> as PartialEq>⟧.eq)
          = (option_kept text_not_null text_kept) in law) p.amount.unit real
          (λ q. q.amount.unit)
          (flattened_named_kept (name "price") u64_kept p.price tt (λ q. q.price)
          (flattened_end_kept (name "goods" ∷ name "count" ∷ name "unit" ∷ name "price" ∷
          []))))))
          (λ q h. both_hold h.0 (both_hold (both_hold h.1.0 h.1.1.0) h.1.1.1.0));
    } };
}

impl<'de> NotNull<'de> for Line {
    ghost refuses_null = { record { of_null = λ b e. absurd (cc e) } };
}

/// What becomes of a bill, told by the field `op`.
#[derive(Drop, PartialEq, Eq)]
pub enum Change {
    /// So much more.
    Add(Amount),
}

/// The names of its fields.
#[derive(Drop)]
struct FieldsOfChangeAdd;

impl Names for FieldsOfChangeAdd {
    ghost names = { name "op" ∷ name "count" ∷ name "unit" ∷ [] };

    #[tactic(auto, unfolding(serde_content::specs::Literals::name))]
    fn names() -> &'static [&'static str] {
        &["op", "count", "unit"]
    }
}

/// Sends that variant.
fn send_whole_change_add<S: Serializer>(
    alloc: Global,
    serializer: &mut S,
    whole: &Change,
    x1: &Amount,
) -> Result<()>
    requires { whole.now ≡ change.Add x1.now }
    ensures { Sends S.step S.refuses (S.seen serializer.old)
        (⟦<Change as Serialize>⟧.script whole.now)
        result (S.seen serializer.new) }
{
    let row = SendEnd;
    let row = SendField(FieldsOfChangeAdd, 2, &x1.unit, row);
    let row = SendField(FieldsOfChangeAdd, 1, &x1.count, row);
    let row = SendTag(FieldsOfChangeAdd, NamesOfChange, 0, row);
    let row = SendOpen(Call::Struct(name_amount(), 3), row);
    send_row(alloc, serializer, &row)
}

type Field1OfChangeAdd = ReadField<FieldsOfChangeAdd, 1, i32, Field2OfChangeAdd>;

type Field2OfChangeAdd = ReadFieldOr<
    FieldsOfChangeAdd,
    2,
    Option<String>,
    OthersSkipped<FieldsOfChangeAdd>,
>;

/// Reads the fields, in any order.
fn read_change_add<'de, 'n: 'de>(alloc: Global, fields: FieldsByName<'de, 'n>) -> Result<Amount>
    ensures { Reads (
        (row_then (name "count") (⟦<i32 as Deserialize<'de>>⟧.refusal)
        (row_or_then (name "unit") (⟦<Option<String> as Deserialize<'de>>⟧.refusal)
        (others_left (name "op" ∷ name "count" ∷ name "unit" ∷ []))))
        (fields_left fields.entry))
        (λ z.
        (RowThen (name "count") (⟦<i32 as Deserialize<'de>>⟧.gives) z.count
        (RowOrThen (name "unit") (λ (x : (Option (String Global))). x ≡ None)
        (⟦<Option<String> as Deserialize<'de>>⟧.gives) z.unit
        NoOthers))
        (fields_left fields.entry)) result }
{
    let row: Field1OfChangeAdd = ReadFields::read(alloc, fields)?;
    let ReadField(count, row, _) = row;
    let ReadFieldOr(unit, _, _) = row;
    Ok(Amount { count, unit })
}

/// The names of its variants.
#[derive(Drop)]
struct NamesOfChange;

impl Names for NamesOfChange {
    ghost names = { name "add" ∷ [] };

    #[tactic(auto, unfolding(serde_content::specs::Literals::name))]
    fn names() -> &'static [&'static str] {
        &["add"]
    }
}

impl Serialize for Change {
    ghost script = { elim [
      | change.Add x1 ↦ tagged_script (name "Amount") 3 (name "op") (name "add")
          (field_first (name "count") (⟦<i32 as Serialize>⟧.script x1.count)
          (field_first (name "unit") (⟦<Option<String> as Serialize>⟧.script x1.unit)
          end_script))
    ] };

    ghost lawful = { elim [
      | change.Add x1 ↦ λ readable. struct_lawful
          (field_fits (leaf_lawful refl)
          (field_fits (leaf_lawful refl)
          (field_fits (option_lawful (λ x h. leaf_lawful refl) x1.unit readable)
          struct_end_fits)))
    ] };

    fn serialize<S: Serializer>(&self, alloc: Global, serializer: &mut S) -> Result<()> {
        match self {
            Change::Add(x1) => send_whole_change_add(alloc, serializer, self, x1),
        }
    }
}

impl<'de> TaggedVariants<'de> for Change {
    ghost name = { name "Change" };

    ghost tag_name = { name "op" };

    ghost refusal = { variants ((
      name "add",
      (row_then (name "count") (⟦<i32 as Deserialize<'de>>⟧.refusal)
          (row_or_then (name "unit") (⟦<Option<String> as Deserialize<'de>>⟧.refusal)
          (others_left (name "op" ∷ name "count" ∷ name "unit" ∷ [])))),
    )
        ∷ []) };

    ghost named = { elim [
      | change.Add x1 ↦ name "add"
    ] };

    ghost held = { elim [
      | change.Add x1 ↦ (RowThen (name "count") (⟦<i32 as Deserialize<'de>>⟧.gives)
          x1.count
          (RowOrThen (name "unit") (λ (x : (Option (String Global))). x ≡ None)
          (⟦<Option<String> as Deserialize<'de>>⟧.gives) x1.unit
          NoOthers))
    ] };

    #[tactic(auto, unfolding(serde_content::specs::Literals::name))]
    fn name() -> &'static str {
        "Change"
    }

    #[tactic(auto, unfolding(serde_content::specs::Literals::name))]
    fn tag() -> &'static str {
        "op"
    }

    fn read_variant<'n: 'de>(
        alloc: Global,
        tag: &str,
        fields: FieldsByName<'de, 'n>,
    ) -> Result<Change> {
        match variant_index(tag, &NamesOfChange) {
            Some(0) => {
                let x1 = read_change_add(alloc, fields)?;
                Ok(Change::Add(x1))
            }
            _ => {
                drop(fields);
                Err(no_such_variant(alloc, tag, &NamesOfChange))
            }
        }
    }
}

impl<'de> Deserialize<'de> for Change {
    ghost refusal = { struct_refusal (name "Change")
        (read_by_name (tag_then_buffered (name "op")
        ⟦<Change as TaggedVariants<'de>>⟧.refusal)) };

    ghost gives = { λ s y. StructGives (name "Change") (ReadByName
        (TagThenBuffered (name "op")
        (⟦<Change as TaggedVariants<'de>>⟧.named y)
        (⟦<Change as TaggedVariants<'de>>⟧.held y))) s };

    fn deserialize<'n: 'de>(alloc: Global, from: Deserializer<'de, 'n>) -> Result<Change> {
        read_tagged(alloc, from)
    }
}

impl<'de> RoundTrip<'de> for Change {
    ghost exists = { elim [
      | change.Add x1 ↦ ⟦<Option<String> as RoundTrip<'de>>⟧.exists x1.unit
    ] };

    fn known(&self) {
        match self {
            Change::Add(x1) => {
                x1.unit.known();
            }
        }
    }

    ghost comes_back = { record {
      of_value = elim [
        | change.Add x1 ↦ λ real f. tagged_back Self.refusal Self.gives
            (named_back (name "count") i32_back x1.count tt
            (λ (z : ℤ × (Option (String Global))). z.0)
            (named_or_back (name "unit") (λ (x : (Option (String Global))). x ≡ None)
            (let law : ComesBack (⟦<Option<String> as RoundTrip<'de>>⟧.exists)
            (⟦<Option<String> as Serialize>⟧.script)
            (⟦<Option<String> as Deserialize<'de>>⟧.refusal)
            (⟦<Option<String> as Deserialize<'de>>⟧.gives) (⟦<Option<String> as PartialEq>⟧.eq)
            = (option_back text_back) in law) x1.unit real
            (λ (z : ℤ × (Option (String Global))). z.1)
            (skipped_back (name "op" ∷ name "count" ∷ name "unit" ∷ []))))
            f (buffering f) refl (unfold name index_among in λ fs. refl)
            (unfold name index_among in λ fs only. elim [
              | change.Add y1 ↦ λ it. let same = only (y1.count, y1.unit) it.1 in both_hold same.0
                  same.1.0
            ])
      ];
    } };

    ghost keeps = { record {
      of_origin = λ o people. elim [
        | change.Add x1 ↦ λ p.
            let q = (struct_keeps (name "Change") (by_name_keeps
            (tag_keeps_buffered (name "op") (name "add")
            ⟦<Change as TaggedVariants<'de>>⟧.refusal
            (λ (z : ℤ × (Option (String Global))).
            (RowThen (name "count") (⟦<i32 as Deserialize<'de>>⟧.gives) z.0
            (RowOrThen (name "unit") (λ (x : (Option (String Global))). x ≡ None)
            (⟦<Option<String> as Deserialize<'de>>⟧.gives) z.1
            NoOthers)))))).of_origin o people (x1.count, x1.unit)
            (record { free = p.free; given = p.given }) in
            record { free = q.free; given = q.given }
      ];
    } };
}

impl<'de> CborRoundTrip<'de> for Change {
    ghost kept = { record {
      of_value = elim [
        | change.Add x1 ↦ λ real. tagged_kept Self.refusal Self.gives
            (named_kept (name "count") i32_kept x1.count tt
            (λ (z : ℤ × (Option (String Global))). z.0)
            (named_or_kept (name "unit") (λ (x : (Option (String Global))). x ≡ None)
            (let law : FormComesBack (⟦<Option<String> as RoundTrip<'de>>⟧.exists)
            (⟦<Option<String> as Serialize>⟧.script)
            (⟦<Option<String> as Deserialize<'de>>⟧.refusal)
            (⟦<Option<String> as Deserialize<'de>>⟧.gives) (⟦<Option<String> as PartialEq>⟧.eq)
            = (option_kept text_not_null text_kept) in law) x1.unit real
            (λ (z : ℤ × (Option (String Global))). z.1)
            (skipped_kept (name "op" ∷ name "count" ∷ name "unit" ∷ []))))
            (λ b. true) (unfold name index_among in λ b fs. refl)
            (unfold name index_among in λ b fs only. elim [
              | change.Add y1 ↦ λ it. let same = only (y1.count, y1.unit) it.1 in both_hold same.0
                  same.1.0
            ])
      ];
    } };
}

impl<'de> NotNull<'de> for Change {
    ghost refuses_null = { record { of_null = λ b e. absurd (cc e) } };
}

/// The name `Amount`.
#[tactic(auto, unfolding(serde_content::specs::Literals::name))]
fn name_amount() -> &'static str
    ensures { result.now ≡ name "Amount" }
{
    "Amount"
}
