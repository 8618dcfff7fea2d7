//! Arrays.
//!
//! Written by `tools/derive` from `arrays.rs`: change that file, and write this one anew.

ghost use Rattle.std.specs.Prelude.{◌≡◌, ◌∷◌, [], ℕ, ℤ, Option, Some, IsSome, true, codes, refl, ⊤};
ghost use Rattle.content_tree.specs.Errors.Cause.{custom};
ghost use Rattle.content_ser.specs.Scripts.Arrays.{ArrayOf};
ghost use Rattle.content_ser.specs.Scripts.Own.{field_first, end_script, unit_variant_script};
ghost use Rattle.content_ser.specs.Scripts.Own.{newtype_struct_script, struct_script};
ghost use Rattle.content_ser.specs.Laws.StandardScripts.{leaf_lawful, option_lawful};
ghost use Rattle.content_ser.specs.Laws.Arrays.{array_lawful};
ghost use Rattle.content_ser.specs.Laws.OwnScripts.{field_fits, struct_end_fits};
ghost use Rattle.content_ser.specs.Laws.OwnScripts.{unit_variant_lawful, newtype_struct_lawful};
ghost use Rattle.content_ser.specs.Laws.OwnScripts.{struct_lawful};
ghost use Rattle.content_de.specs.Outcomes.{refusal_of, taken};
ghost use Rattle.content_de.specs.Requests.Leaves.{char_from};
ghost use Rattle.content_de.specs.Sources.Origin.{tree_under, in_buffer, buffering};
ghost use Rattle.content_de.specs.Reads.Attempts.{IsTakenAs, or_next};
ghost use Rattle.content_de.specs.Reads.ByName.{read_by_name, no_others, ReadByName, NoOthers};
ghost use Rattle.content_de.specs.Reads.Own.{enum_refusal, EnumGives, unit_variant_refusal};
ghost use Rattle.content_de.specs.Reads.Own.{UnitVariantGives, newtype_struct_refusal};
ghost use Rattle.content_de.specs.Reads.Own.{NewtypeStructGives, struct_refusal, StructGives};
ghost use Rattle.serde_content.specs.Literals.{name, row_then, row_or_then, RowThen, RowOrThen};
ghost use Rattle.serde_content.specs.Variants.{index_among, variants};
ghost use Rattle.serde_content.specs.RoundTrip.{ComesBack, CoercionKeeps};
ghost use Rattle.serde_content.specs.Laws.Leaves.{heedless_keeps, natural_keeps, integer_keeps};
ghost use Rattle.serde_content.specs.Laws.Leaves.{char_back, text_back, u8_back, i32_back};
ghost use Rattle.serde_content.specs.Laws.Holders.{seen_keeps, option_back, option_keeps};
ghost use Rattle.serde_content.specs.Laws.Series.{both_hold};
ghost use Rattle.serde_content.specs.Laws.Arrays.{array_back, array_keeps, array_counts};
ghost use Rattle.serde_content.specs.Laws.Records.{struct_back, struct_keeps, newtype_struct_back};
ghost use Rattle.serde_content.specs.Laws.Records.{newtype_struct_keeps};
ghost use Rattle.serde_content.specs.Laws.ByName.{by_name_back, named_back, named_or_back};
ghost use Rattle.serde_content.specs.Laws.ByName.{closed_back, by_name_keeps, named_keeps};
ghost use Rattle.serde_content.specs.Laws.ByName.{named_or_keeps, closed_keeps};
ghost use Rattle.serde_content.specs.Laws.Untagged.{such_seen, first_taken, later_taken};
ghost use Rattle.serde_content.specs.Laws.Untagged.{taken_by_one, not_refused, text_takes};
ghost use Rattle.serde_content.specs.Laws.Untagged.{tuple_takes};
ghost use Rattle.serde_content.specs.Laws.Variants.{variant_back, other_variant, variant_kept};
ghost use Rattle.serde_content.specs.Laws.Variants.{unit_variant_back, unit_variant_keeps};
ghost use Rattle.content_cbor.specs.Decoded.{read_in, flags_in};
ghost use Rattle.content_cbor.specs.Form.{form};
ghost use Rattle.content_cbor.specs.Typed.Kept.{FormComesBack};
ghost use Rattle.content_cbor.specs.Typed.Leaves.{text_kept, u8_kept};
ghost use Rattle.content_cbor.specs.Typed.Arrays.{array_kept};
ghost use Rattle.content_cbor.specs.Typed.Records.{newtype_struct_kept};
ghost use Rattle.content_cbor.specs.Typed.Variants.{variant_comes_back, given_as};
ghost use Rattle.content_cbor.specs.Typed.Variants.{unit_variant_kept};
ghost use Rattle.content_tree.specs.Values.Ranges as kind;
ghost use Rattle.check_fields.specs.declared.arrays.Mark.TheVariants as mark;
ghost use Rattle.check_fields.specs.declared.arrays.Colour.TheVariants as colour;

use content_cbor::{CborRoundTrip, NotNull};
use serde_content::de::{Deserialize, FieldsByName, VariantAccess};
use serde_content::derive_support::{
    Absent, Names, OneOfThree, OthersRefused, ReadField, ReadFieldOr, ReadFields, ReadStruct,
    SendEnd, SendField, SendOpen, Variants, first_of_three, no_such_variant, read_enum,
    read_struct, send_row, variant_index,
};
use serde_content::ser::{Call, Parts, Serialize, Serializer};
use serde_content::{Deserializer, Result, RoundTrip};
use std::alloc::Global;

/// A digest of 32 bytes.
#[derive(Drop, PartialEq, Eq)]
pub struct Digest(pub [u8; 32]);

impl Serialize for Digest {
    ghost script = { λ p. newtype_struct_script (name "Digest")
        (⟦<[u8; 32] as Serialize>⟧.script p.0) };

    ghost lawful = { λ p readable. newtype_struct_lawful
        (array_lawful 32 (λ x h. leaf_lawful refl) p.0 readable) };

    fn serialize<S: Serializer>(&self, alloc: Global, serializer: &mut S) -> Result<()> {
        Call::NewtypeStruct(name_digest()).around(&self.0, alloc, serializer)
    }
}

impl<'de> Deserialize<'de> for Digest {
    ghost refusal = { newtype_struct_refusal (name "Digest")
        (⟦<[u8; 32] as Deserialize<'de>>⟧.refusal) };

    ghost gives = { λ s p. NewtypeStructGives (name "Digest")
        (⟦<[u8; 32] as Deserialize<'de>>⟧.gives) p.0 s };

    fn deserialize<'n: 'de>(alloc: Global, from: Deserializer<'de, 'n>) -> Result<Digest> {
        let inside = from.deserialize_newtype_struct(alloc, name_digest())?;
        Ok(Digest(inside.deserialize(alloc)?))
    }
}

impl<'de> RoundTrip<'de> for Digest {
    ghost exists = { λ p. ⟦<[u8; 32] as RoundTrip<'de>>⟧.exists p.0 };

    fn known(&self) {
        self.0.known();
    }

    ghost comes_back = { record {
      of_value = λ p real f. newtype_struct_back
          (let law : ComesBack (⟦<[u8; 32] as RoundTrip<'de>>⟧.exists)
          (⟦<[u8; 32] as Serialize>⟧.script) (⟦<[u8; 32] as Deserialize<'de>>⟧.refusal)
          (⟦<[u8; 32] as Deserialize<'de>>⟧.gives) (⟦<[u8; 32] as PartialEq>⟧.eq) =
          (array_back 32 u8_back) in law) p.0 real (λ q. q.0) f (λ q h. h);
    } };

    ghost keeps = { seen_keeps (λ q. q.0)
        (newtype_struct_keeps (name "Digest")
        (let law : CoercionKeeps (⟦<[u8; 32] as Deserialize<'de>>⟧.refusal)
        (⟦<[u8; 32] as Deserialize<'de>>⟧.gives) = (array_keeps 32 (natural_keeps kind.u8))
        in law)) };
}

impl<'de> CborRoundTrip<'de> for Digest {
    ghost kept = { record {
      of_value = λ p real. newtype_struct_kept
          (let law : FormComesBack (⟦<[u8; 32] as RoundTrip<'de>>⟧.exists)
          (⟦<[u8; 32] as Serialize>⟧.script) (⟦<[u8; 32] as Deserialize<'de>>⟧.refusal)
          (⟦<[u8; 32] as Deserialize<'de>>⟧.gives) (⟦<[u8; 32] as PartialEq>⟧.eq) =
          (array_kept 32 u8_kept) in law) p.0 real (λ q. q.0)
          (λ q h. h);
    } };
}

impl<'de> NotNull<'de> for Digest {
    ghost refuses_null = { record { of_null = λ b e. absurd (cc e) } };
}

/// The mark in a square.
#[derive(Drop, PartialEq, Eq)]
pub enum Mark {
    /// A cross.
    X,
    /// A circle.
    O,
}

/// The names of its variants.
#[derive(Drop)]
struct NamesOfMark;

impl Names for NamesOfMark {
    ghost names = { name "X" ∷ name "O" ∷ [] };

    #[tactic(auto, unfolding(serde_content::specs::Literals::name))]
    fn names() -> &'static [&'static str] {
        &["X", "O"]
    }
}

impl Serialize for Mark {
    ghost script = { elim [
      | mark.X ↦ unit_variant_script (name "Mark") 0 (name "X")
      | mark.O ↦ unit_variant_script (name "Mark") 1 (name "O")
    ] };

    ghost lawful = { elim [
      | mark.X ↦ λ readable. unit_variant_lawful
      | mark.O ↦ λ readable. unit_variant_lawful
    ] };

    fn serialize<S: Serializer>(&self, _alloc: Global, serializer: &mut S) -> Result<()> {
        match self {
            Mark::X => Call::UnitVariant(name_mark(), 0, name_x()).send(serializer),
            Mark::O => Call::UnitVariant(name_mark(), 1, name_o()).send(serializer),
        }
    }
}

impl<'de> Variants<'de> for Mark {
    ghost name = { name "Mark" };

    ghost refusal = { variants (
        (name "X", unit_variant_refusal)
        ∷ (name "O", unit_variant_refusal)
        ∷ []) };

    ghost named = { elim [
      | mark.X ↦ name "X"
      | mark.O ↦ name "O"
    ] };

    ghost held = { elim [
      | mark.X ↦ UnitVariantGives
      | mark.O ↦ UnitVariantGives
    ] };

    #[tactic(auto, unfolding(serde_content::specs::Literals::name))]
    fn name() -> &'static str {
        "Mark"
    }

    fn names() -> &'static [&'static str] {
        NamesOfMark::names()
    }

    fn read_variant<'n: 'de>(
        alloc: Global,
        tag: &str,
        variant: VariantAccess<'de, 'n>,
    ) -> Result<Mark> {
        match variant_index(tag, &NamesOfMark) {
            Some(0) => {
                variant.unit_variant(alloc)?;
                Ok(Mark::X)
            }
            Some(1) => {
                variant.unit_variant(alloc)?;
                Ok(Mark::O)
            }
            _ => {
                drop(variant);
                Err(no_such_variant(alloc, tag, &NamesOfMark))
            }
        }
    }
}

impl<'de> Deserialize<'de> for Mark {
    ghost refusal = { enum_refusal (name "Mark") ⟦<Mark as Variants<'de>>⟧.refusal };

    ghost gives = { λ s y. EnumGives (name "Mark")
        (⟦<Mark as Variants<'de>>⟧.named y)
        (⟦<Mark as Variants<'de>>⟧.held y) s };

    fn deserialize<'n: 'de>(alloc: Global, from: Deserializer<'de, 'n>) -> Result<Mark> {
        read_enum(alloc, from)
    }
}

impl<'de> RoundTrip<'de> for Mark {
    fn known(&self) {}

    ghost comes_back = { record {
      of_value = elim [
        | mark.X ↦ λ real f. variant_back Self.refusal Self.gives unit_variant_back
            f (unfold name index_among in λ d. refl)
            (unfold name index_among in λ d only. elim [
              | mark.X ↦ λ it. refl
              | mark.O ↦ λ it. other_variant it.0 refl
            ])
        | mark.O ↦ λ real f. variant_back Self.refusal Self.gives unit_variant_back
            f (unfold name index_among in λ d. refl)
            (unfold name index_among in λ d only. elim [
              | mark.X ↦ λ it. other_variant it.0 refl
              | mark.O ↦ λ it. refl
            ])
      ];
    } };

    ghost keeps = { record {
      of_origin = λ o people. elim [
        | mark.X ↦ λ p.
            let q = variant_kept {own = unit_variant_refusal} (name "Mark") (name "X")
            ⟦<Mark as Variants<'de>>⟧.refusal (unfold name index_among in λ v. refl)
            unit_variant_keeps
            o people tt p.free p.given in
            record { free = q.0; given = q.1 }
        | mark.O ↦ λ p.
            let q = variant_kept {own = unit_variant_refusal} (name "Mark") (name "O")
            ⟦<Mark as Variants<'de>>⟧.refusal (unfold name index_among in λ v. refl)
            unit_variant_keeps
            o people tt p.free p.given in
            record { free = q.0; given = q.1 }
      ];
    } };
}

impl<'de> CborRoundTrip<'de> for Mark {
    ghost kept = { record {
      of_value = elim [
        | mark.X ↦ λ real. variant_comes_back ⟦<Mark as Variants<'de>>⟧.refusal Self.gives
            unit_variant_kept
            (unfold name index_among in λ v. refl)
            (unfold name index_among in λ b d only. elim [
              | mark.X ↦ λ it. refl
              | mark.O ↦ λ it. other_variant (given_as b (name "Mark") (name "X") d it).named refl
            ])
        | mark.O ↦ λ real. variant_comes_back ⟦<Mark as Variants<'de>>⟧.refusal Self.gives
            unit_variant_kept
            (unfold name index_among in λ v. refl)
            (unfold name index_among in λ b d only. elim [
              | mark.X ↦ λ it. other_variant (given_as b (name "Mark") (name "O") d it).named refl
              | mark.O ↦ λ it. refl
            ])
      ];
    } };
}

impl<'de> NotNull<'de> for Mark {
    ghost refuses_null = { record { of_null = λ b e. absurd (cc e) } };
}

/// A grid of two rows.
#[derive(Drop, PartialEq, Eq)]
pub struct Grid {
    /// The squares, row by row.
    pub squares: [[Option<Mark>; 3]; 2],
    /// The letters of those who play.
    pub letters: [char; 2],
    /// The score of each.
    pub score: [i32; 2],
}

/// The names of its fields.
#[derive(Drop)]
struct FieldsOfGrid;

impl Names for FieldsOfGrid {
    ghost names = { name "squares" ∷ name "letters" ∷ name "score" ∷ [] };

    #[tactic(auto, unfolding(serde_content::specs::Literals::name))]
    fn names() -> &'static [&'static str] {
        &["squares", "letters", "score"]
    }
}

type Field1OfGrid = ReadField<FieldsOfGrid, 0, [[Option<Mark>; 3]; 2], Field2OfGrid>;

type Field2OfGrid = ReadField<FieldsOfGrid, 1, [char; 2], Field3OfGrid>;

type Field3OfGrid = ReadFieldOr<FieldsOfGrid, 2, [i32; 2], OthersRefused<FieldsOfGrid>>;

impl<'de> ReadStruct<'de> for Grid {
    ghost name = { name "Grid" };

    ghost refusal = { row_then (name "squares")
        (⟦<[[Option<Mark>; 3]; 2] as Deserialize<'de>>⟧.refusal)
        (row_then (name "letters") (⟦<[char; 2] as Deserialize<'de>>⟧.refusal)
        (row_or_then (name "score") (⟦<[i32; 2] as Deserialize<'de>>⟧.refusal)
        (no_others (name "squares" ∷ name "letters" ∷ name "score" ∷ [])))) };

    ghost gives = { λ z.
        (RowThen (name "squares") (⟦<[[Option<Mark>; 3]; 2] as Deserialize<'de>>⟧.gives)
        z.squares
        (RowThen (name "letters") (⟦<[char; 2] as Deserialize<'de>>⟧.gives) z.letters
        (RowOrThen (name "score") (λ (x : (ArrayOf ℤ)). ⟦<[i32; 2] as Absent>⟧.is_absent x)
        (⟦<[i32; 2] as Deserialize<'de>>⟧.gives) z.score
        NoOthers))) };

    #[tactic(auto, unfolding(serde_content::specs::Literals::name))]
    fn name() -> &'static str {
        "Grid"
    }

    fn read<'n: 'de>(alloc: Global, fields: FieldsByName<'de, 'n>) -> Result<Grid> {
        let row: Field1OfGrid = ReadFields::read(alloc, fields)?;
        let ReadField(squares, row, _) = row;
        let ReadField(letters, row, _) = row;
        let ReadFieldOr(score, _, _) = row;
        Ok(Grid {
            squares,
            letters,
            score,
        })
    }
}

impl Serialize for Grid {
    ghost use Rattle.check_fields.specs.contracts.arrays.MarkSerialize.TheImpl.Laws as mark_serialize;

    ghost script = { λ p. struct_script (name "Grid") 3
        (field_first (name "squares")
        (⟦<[[Option<Mark>; 3]; 2] as Serialize>⟧.script p.squares)
        (field_first (name "letters") (⟦<[char; 2] as Serialize>⟧.script p.letters)
        (field_first (name "score") (⟦<[i32; 2] as Serialize>⟧.script p.score)
        end_script))) };

    ghost lawful = { λ p readable. struct_lawful
        (field_fits (array_lawful 2 (λ x h. array_lawful 3
        (λ x h. option_lawful (λ x h. mark_serialize.lawful-law x h) x h) x h) p.squares
        readable)
        (field_fits (array_lawful 2 (λ x h. leaf_lawful refl) p.letters readable)
        (field_fits (array_lawful 2 (λ x h. leaf_lawful refl) p.score readable)
        struct_end_fits))) };

    fn serialize<S: Serializer>(&self, alloc: Global, serializer: &mut S) -> Result<()> {
        let row = SendEnd;
        let row = SendField(FieldsOfGrid, 2, &self.score, row);
        let row = SendField(FieldsOfGrid, 1, &self.letters, row);
        let row = SendField(FieldsOfGrid, 0, &self.squares, row);
        let row = SendOpen(Call::Struct(name_grid(), 3), row);
        send_row(alloc, serializer, &row)
    }
}

impl<'de> Deserialize<'de> for Grid {
    ghost refusal = { struct_refusal (name "Grid") (read_by_name
        (row_then (name "squares") (⟦<[[Option<Mark>; 3]; 2] as Deserialize<'de>>⟧.refusal)
        (row_then (name "letters") (⟦<[char; 2] as Deserialize<'de>>⟧.refusal)
        (row_or_then (name "score") (⟦<[i32; 2] as Deserialize<'de>>⟧.refusal)
        (no_others (name "squares" ∷ name "letters" ∷ name "score" ∷ [])))))) };

    ghost gives = { λ s p. StructGives (name "Grid") (ReadByName
        (RowThen (name "squares") (⟦<[[Option<Mark>; 3]; 2] as Deserialize<'de>>⟧.gives)
        p.squares
        (RowThen (name "letters") (⟦<[char; 2] as Deserialize<'de>>⟧.gives) p.letters
        (RowOrThen (name "score") (λ (x : (ArrayOf ℤ)). ⟦<[i32; 2] as Absent>⟧.is_absent x)
        (⟦<[i32; 2] as Deserialize<'de>>⟧.gives) p.score
        NoOthers)))) s };

    fn deserialize<'n: 'de>(alloc: Global, from: Deserializer<'de, 'n>) -> Result<Grid> {
        read_struct::<FieldsOfGrid, Self>(alloc, from)
    }
}

impl<'de> RoundTrip<'de> for Grid {
    ghost use Rattle.check_fields.specs.contracts.arrays.MarkRoundTrip.TheImpl.Laws as mark_round_trip;

    ghost exists = { λ p. ⟦<[[Option<Mark>; 3]; 2] as RoundTrip<'de>>⟧.exists p.squares
        × ⟦<[char; 2] as RoundTrip<'de>>⟧.exists p.letters ×
        ⟦<[i32; 2] as RoundTrip<'de>>⟧.exists p.score };

    fn known(&self) {
        self.squares.known();
        self.letters.known();
        self.score.known();
    }

    ghost comes_back = { record {
      of_value = λ p real f. struct_back (by_name_back
          (named_back (name "squares") (let law : ComesBack
          (⟦<[[Option<Mark>; 3]; 2] as RoundTrip<'de>>⟧.exists)
          (⟦<[[Option<Mark>; 3]; 2] as Serialize>⟧.script)
          (⟦<[[Option<Mark>; 3]; 2] as Deserialize<'de>>⟧.refusal)
          (⟦<[[Option<Mark>; 3]; 2] as Deserialize<'de>>⟧.gives)
          (⟦<[[Option<Mark>; 3]; 2] as PartialEq>⟧.eq) =
          (array_back 2 (array_back 3 (option_back mark_round_trip.comes_back-law))) in law)
          p.squares real.0 (λ q. q.squares)
          (named_back (name "letters") (let law : ComesBack
          (⟦<[char; 2] as RoundTrip<'de>>⟧.exists) (⟦<[char; 2] as Serialize>⟧.script)
          (⟦<[char; 2] as Deserialize<'de>>⟧.refusal)
          (⟦<[char; 2] as Deserialize<'de>>⟧.gives) (⟦<[char; 2] as PartialEq>⟧.eq) =
          (array_back 2 char_back) in law) p.letters real.1 (λ q. q.letters)
          (named_or_back (name "score")
          (λ (x : (ArrayOf ℤ)). ⟦<[i32; 2] as Absent>⟧.is_absent x)
          (let law : ComesBack (⟦<[i32; 2] as RoundTrip<'de>>⟧.exists)
          (⟦<[i32; 2] as Serialize>⟧.script) (⟦<[i32; 2] as Deserialize<'de>>⟧.refusal)
          (⟦<[i32; 2] as Deserialize<'de>>⟧.gives) (⟦<[i32; 2] as PartialEq>⟧.eq) =
          (array_back 2 i32_back) in law) p.score real.2 (λ q. q.score)
          (closed_back (name "squares" ∷ name "letters" ∷ name "score" ∷ []))))))
          f (λ q h. both_hold h.0 (both_hold h.1.0 h.1.1.0));
    } };

    ghost keeps = { struct_keeps (name "Grid") (by_name_keeps
        (named_keeps (name "squares") (λ q. q.squares)
        (let law : CoercionKeeps (⟦<[[Option<Mark>; 3]; 2] as Deserialize<'de>>⟧.refusal)
        (⟦<[[Option<Mark>; 3]; 2] as Deserialize<'de>>⟧.gives) =
        (array_keeps 2 (array_keeps 3 (option_keeps mark_round_trip.keeps-law))) in law)
        (named_keeps (name "letters") (λ q. q.letters)
        (let law : CoercionKeeps (⟦<[char; 2] as Deserialize<'de>>⟧.refusal)
        (⟦<[char; 2] as Deserialize<'de>>⟧.gives) =
        (array_keeps 2 (heedless_keeps (λ o. refusal_of (char_from o))
        (λ o (x : ℕ). char_from o ≡ taken x))) in law)
        (named_or_keeps (name "score")
        (λ (x : (ArrayOf ℤ)). ⟦<[i32; 2] as Absent>⟧.is_absent x) (λ q. q.score)
        (let law : CoercionKeeps (⟦<[i32; 2] as Deserialize<'de>>⟧.refusal)
        (⟦<[i32; 2] as Deserialize<'de>>⟧.gives) = (array_keeps 2 (integer_keeps kind.i32))
        in law)
        (closed_keeps (name "squares" ∷ name "letters" ∷ name "score" ∷ [])))))) };
}

/// A colour.
#[derive(Drop, PartialEq, Eq)]
pub enum Colour {
    /// By three numbers.
    Opaque([u8; 3]),
    /// By four.
    Clear([u8; 4]),
    /// By its name.
    Named(String),
}

impl Serialize for Colour {
    ghost script = { elim [
      | colour.Opaque x1 ↦ ⟦<[u8; 3] as Serialize>⟧.script x1
      | colour.Clear x1 ↦ ⟦<[u8; 4] as Serialize>⟧.script x1
      | colour.Named x1 ↦ ⟦<String as Serialize>⟧.script x1
    ] };

    ghost lawful = { elim [
      | colour.Opaque x1 ↦ λ readable. array_lawful 3 (λ x h. leaf_lawful refl) x1
          readable
      | colour.Clear x1 ↦ λ readable. array_lawful 4 (λ x h. leaf_lawful refl) x1 readable
      | colour.Named x1 ↦ λ readable. leaf_lawful refl
    ] };

    fn serialize<S: Serializer>(&self, alloc: Global, serializer: &mut S) -> Result<()> {
        match self {
            Colour::Opaque(x1) => x1.serialize(alloc, serializer),
            Colour::Clear(x1) => x1.serialize(alloc, serializer),
            Colour::Named(x1) => x1.serialize(alloc, serializer),
        }
    }
}

impl<'de> Deserialize<'de> for Colour {
    ghost refusal = { λ s.
        (or_next (⟦<[u8; 3] as Deserialize<'de>>⟧.refusal (in_buffer s))
        (or_next (⟦<[u8; 4] as Deserialize<'de>>⟧.refusal (in_buffer s))
        (or_next (⟦<String as Deserialize<'de>>⟧.refusal (in_buffer s))
        (Some (custom (codes "data did not match any variant of untagged enum Colour")))))) };

    ghost gives = { λ s. elim [
      | colour.Opaque x1 ↦ IsTakenAs
          (⟦<[u8; 3] as Deserialize<'de>>⟧.refusal (in_buffer s))
          (⟦<[u8; 3] as Deserialize<'de>>⟧.gives (in_buffer s)) x1
      | colour.Clear x1 ↦ IsSome (⟦<[u8; 3] as Deserialize<'de>>⟧.refusal (in_buffer s)) ×
          IsTakenAs (⟦<[u8; 4] as Deserialize<'de>>⟧.refusal (in_buffer s))
          (⟦<[u8; 4] as Deserialize<'de>>⟧.gives (in_buffer s)) x1
      | colour.Named x1 ↦ IsSome (⟦<[u8; 3] as Deserialize<'de>>⟧.refusal (in_buffer s)) ×
          IsSome (⟦<[u8; 4] as Deserialize<'de>>⟧.refusal (in_buffer s)) ×
          IsTakenAs (⟦<String as Deserialize<'de>>⟧.refusal (in_buffer s))
          (⟦<String as Deserialize<'de>>⟧.gives (in_buffer s)) x1
    ] };

    fn deserialize<'n: 'de>(alloc: Global, from: Deserializer<'de, 'n>) -> Result<Colour> {
        match first_of_three::<[u8; 3], [u8; 4], String>(
            alloc,
            from,
            "data did not match any variant of untagged enum Colour",
        )? {
            OneOfThree::First(x1) => Ok(Colour::Opaque(x1)),
            OneOfThree::Second(x1) => Ok(Colour::Clear(x1)),
            OneOfThree::Third(x1) => Ok(Colour::Named(x1)),
        }
    }
}

impl<'de> RoundTrip<'de> for Colour {
    ghost exists = { elim [
      | colour.Opaque x1 ↦ ⟦<[u8; 3] as RoundTrip<'de>>⟧.exists x1
      | colour.Clear x1 ↦ ⟦<[u8; 4] as RoundTrip<'de>>⟧.exists x1
      | colour.Named x1 ↦ ⊤
    ] };

    fn known(&self) {
        match self {
            Colour::Opaque(x1) => {
                x1.known();
            }
            Colour::Clear(x1) => {
                x1.known();
            }
            Colour::Named(_) => {}
        }
    }

    ghost comes_back = { record {
      of_value = elim [
        | colour.Opaque x1 ↦ λ real f. such_seen (λ t one. record {
          free = first_taken _ _ one.free;
          only = elim [
            | colour.Opaque y1 ↦ λ it. one.only y1 it.1
            | colour.Clear y1 ↦ λ it. not_refused _ one.free it.0
            | colour.Named y1 ↦ λ it. not_refused _ one.free it.0
          ];
        })
            ((let law : ComesBack (⟦<[u8; 3] as RoundTrip<'de>>⟧.exists)
            (⟦<[u8; 3] as Serialize>⟧.script) (⟦<[u8; 3] as Deserialize<'de>>⟧.refusal)
            (⟦<[u8; 3] as Deserialize<'de>>⟧.gives) (⟦<[u8; 3] as PartialEq>⟧.eq) =
            (array_back 3 u8_back) in law).of_value x1 real (buffering f))
        | colour.Clear x1 ↦ λ real f. such_seen (λ t one. record {
          free = later_taken (⟦<[u8; 3] as Deserialize<'de>>⟧.refusal
              (in_buffer (tree_under f t)))
              (first_taken _ _ one.free);
          only = elim [
            | colour.Opaque y1 ↦ λ it. taken_by_one
                (array_counts 3 (⟦<u8 as Deserialize<'de>>⟧.refusal))
                (array_counts 4 (⟦<u8 as Deserialize<'de>>⟧.refusal)) refl f t it.0 one.free
            | colour.Clear y1 ↦ λ it. one.only y1 it.1.1
            | colour.Named y1 ↦ λ it. not_refused _ one.free it.1
          ];
        })
            ((let law : ComesBack (⟦<[u8; 4] as RoundTrip<'de>>⟧.exists)
            (⟦<[u8; 4] as Serialize>⟧.script) (⟦<[u8; 4] as Deserialize<'de>>⟧.refusal)
            (⟦<[u8; 4] as Deserialize<'de>>⟧.gives) (⟦<[u8; 4] as PartialEq>⟧.eq) =
            (array_back 4 u8_back) in law).of_value x1 real (buffering f))
        | colour.Named x1 ↦ λ real f. such_seen (λ t one. record {
          free = later_taken (⟦<[u8; 3] as Deserialize<'de>>⟧.refusal
              (in_buffer (tree_under f t)))
              (later_taken (⟦<[u8; 4] as Deserialize<'de>>⟧.refusal (in_buffer (tree_under f t)))
              (first_taken _ _ one.free));
          only = elim [
            | colour.Opaque y1 ↦ λ it. taken_by_one tuple_takes text_takes refl f t it.0
                one.free
            | colour.Clear y1 ↦ λ it. taken_by_one tuple_takes text_takes refl f t it.1.0
                one.free
            | colour.Named y1 ↦ λ it. one.only y1 it.2.1
          ];
        })
            (text_back.of_value x1 tt (buffering f))
      ];
    } };

    ghost keeps = { record {
      of_origin = λ o people x p. record
          { free = p.free; given = p.given };
    } };
}

impl<'de> CborRoundTrip<'de> for Colour {
    ghost kept = { record {
      of_value = elim [
        | colour.Opaque x1 ↦ λ real. such_seen (λ t one fits b. record {
          free = first_taken _ _ (one fits true).free;
          only = elim [
            | colour.Opaque y1 ↦ λ it. (one fits true).only y1 it.1
            | colour.Clear y1 ↦ λ it. not_refused _ (one fits true).free it.0
            | colour.Named y1 ↦ λ it. not_refused _ (one fits true).free it.0
          ];
        })
            ((let law : FormComesBack (⟦<[u8; 3] as RoundTrip<'de>>⟧.exists)
            (⟦<[u8; 3] as Serialize>⟧.script) (⟦<[u8; 3] as Deserialize<'de>>⟧.refusal)
            (⟦<[u8; 3] as Deserialize<'de>>⟧.gives) (⟦<[u8; 3] as PartialEq>⟧.eq) =
            (array_kept 3 u8_kept) in law).of_value x1 real)
        | colour.Clear x1 ↦ λ real. such_seen (λ t one fits b. record {
          free = later_taken (⟦<[u8; 3] as Deserialize<'de>>⟧.refusal
              (in_buffer (read_in b (form t))))
              (first_taken _ _ (one fits true).free);
          only = elim [
            | colour.Opaque y1 ↦ λ it. taken_by_one
                (array_counts 3 (⟦<u8 as Deserialize<'de>>⟧.refusal))
                (array_counts 4 (⟦<u8 as Deserialize<'de>>⟧.refusal)) refl (flags_in b) (form t)
                it.0 (one fits true).free
            | colour.Clear y1 ↦ λ it. (one fits true).only y1 it.1.1
            | colour.Named y1 ↦ λ it. not_refused _ (one fits true).free it.1
          ];
        })
            ((let law : FormComesBack (⟦<[u8; 4] as RoundTrip<'de>>⟧.exists)
            (⟦<[u8; 4] as Serialize>⟧.script) (⟦<[u8; 4] as Deserialize<'de>>⟧.refusal)
            (⟦<[u8; 4] as Deserialize<'de>>⟧.gives) (⟦<[u8; 4] as PartialEq>⟧.eq) =
            (array_kept 4 u8_kept) in law).of_value x1 real)
        | colour.Named x1 ↦ λ real. such_seen (λ t one fits b. record {
          free = later_taken (⟦<[u8; 3] as Deserialize<'de>>⟧.refusal
              (in_buffer (read_in b (form t))))
              (later_taken (⟦<[u8; 4] as Deserialize<'de>>⟧.refusal
              (in_buffer (read_in b (form t))))
              (first_taken _ _ (one fits true).free));
          only = elim [
            | colour.Opaque y1 ↦ λ it. taken_by_one tuple_takes text_takes refl (flags_in b)
                (form t) it.0 (one fits true).free
            | colour.Clear y1 ↦ λ it. taken_by_one tuple_takes text_takes refl (flags_in b)
                (form t) it.1.0 (one fits true).free
            | colour.Named y1 ↦ λ it. (one fits true).only y1 it.2.1
          ];
        })
            (text_kept.of_value x1 tt)
      ];
    } };
}

impl<'de> NotNull<'de> for Colour {
    ghost refuses_null = { record { of_null = λ b e. absurd (cc e) } };
}

/// The name `Digest`.
#[tactic(auto, unfolding(serde_content::specs::Literals::name))]
fn name_digest() -> &'static str
    ensures { result.now ≡ name "Digest" }
{
    "Digest"
}

/// The name `Mark`.
#[tactic(auto, unfolding(serde_content::specs::Literals::name))]
fn name_mark() -> &'static str
    ensures { result.now ≡ name "Mark" }
{
    "Mark"
}

/// The name `X`.
#[tactic(auto, unfolding(serde_content::specs::Literals::name))]
fn name_x() -> &'static str
    ensures { result.now ≡ name "X" }
{
    "X"
}

/// The name `O`.
#[tactic(auto, unfolding(serde_content::specs::Literals::name))]
fn name_o() -> &'static str
    ensures { result.now ≡ name "O" }
{
    "O"
}

/// The name `Grid`.
#[tactic(auto, unfolding(serde_content::specs::Literals::name))]
fn name_grid() -> &'static str
    ensures { result.now ≡ name "Grid" }
{
    "Grid"
}
