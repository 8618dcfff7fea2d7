//! Fields and variants with values, tests and names of their own.
//!
//! Written by `tools/derive` from `attributes.rs`: change that file, and write this one anew.

ghost use Rattle.std.specs.Prelude.{◌≡◌, ◌∷◌, [], ℕ, ℤ, Bool, Option, None, Some, true, false};
ghost use Rattle.std.specs.Prelude.{negsuc, not, nat_eq, codes, string_bytes, refl};
ghost use Rattle.content_ser.specs.Scripts.Sends.{Sends};
ghost use Rattle.content_ser.specs.Scripts.Own.{field_first, end_script, unit_variant_script};
ghost use Rattle.content_ser.specs.Scripts.Own.{newtype_variant_script, struct_script};
ghost use Rattle.content_ser.specs.Scripts.Own.{struct_variant_script};
ghost use Rattle.content_ser.specs.Laws.StandardScripts.{leaf_lawful, option_lawful, seq_lawful};
ghost use Rattle.content_ser.specs.Laws.OwnScripts.{field_fits, struct_end_fits};
ghost use Rattle.content_ser.specs.Laws.OwnScripts.{unit_variant_lawful, newtype_variant_lawful};
ghost use Rattle.content_ser.specs.Laws.OwnScripts.{struct_lawful, struct_variant_lawful};
ghost use Rattle.content_de.specs.Outcomes.{refusal_of, taken, IsTaken};
ghost use Rattle.content_de.specs.Requests.Leaves.{bool_from, text_from};
ghost use Rattle.content_de.specs.Reads.Standard.{HasContent};
ghost use Rattle.content_de.specs.Accesses.ByName.{fields_left};
ghost use Rattle.content_de.specs.Reads.Read.{Reads};
ghost use Rattle.content_de.specs.Reads.ByName.{read_by_name, missing_field, ReadByName, NoOthers};
ghost use Rattle.content_de.specs.Reads.Tagged.{tag_then_buffered};
ghost use Rattle.content_de.specs.Reads.Own.{enum_refusal, EnumGives, unit_variant_refusal};
ghost use Rattle.content_de.specs.Reads.Own.{UnitVariantGives, newtype_variant_refusal};
ghost use Rattle.content_de.specs.Reads.Own.{NewtypeVariantGives, struct_refusal, StructGives};
ghost use Rattle.content_de.specs.Reads.Own.{struct_variant_refusal, StructVariantGives};
ghost use Rattle.serde_content.specs.Literals.{name, row_then, row_or_then, RowThen, RowOrThen};
ghost use Rattle.serde_content.specs.Literals.{others_left};
ghost use Rattle.serde_content.specs.Skips.{fields_less, field_unless, UnreadThen, unsent_script};
ghost use Rattle.serde_content.specs.Aliases.{aliased_then, AliasedThen};
ghost use Rattle.serde_content.specs.Tags.{meant, meant_among, EnumGivesBy, TagThenBufferedBy};
ghost use Rattle.serde_content.specs.Variants.{index_among, variants};
ghost use Rattle.serde_content.specs.RoundTrip.{ComesBack, CoercionKeeps};
ghost use Rattle.serde_content.specs.Laws.Leaves.{heedless_keeps, natural_keeps, integer_keeps};
ghost use Rattle.serde_content.specs.Laws.Leaves.{bool_back, text_back, u8_back, u16_back};
ghost use Rattle.serde_content.specs.Laws.Leaves.{u32_back, i32_back};
ghost use Rattle.serde_content.specs.Laws.Holders.{option_back, option_keeps};
ghost use Rattle.serde_content.specs.Laws.Series.{both_hold};
ghost use Rattle.serde_content.specs.Laws.Records.{struct_back, struct_keeps};
ghost use Rattle.serde_content.specs.Laws.ByName.{by_name_back, named_back, named_or_back};
ghost use Rattle.serde_content.specs.Laws.ByName.{skipped_back, by_name_keeps, named_keeps};
ghost use Rattle.serde_content.specs.Laws.ByName.{named_or_keeps, skipped_keeps};
ghost use Rattle.serde_content.specs.Laws.Skips.{field_unless_fits, unsent_lawful, keyed_or_back};
ghost use Rattle.serde_content.specs.Laws.Skips.{keyed_unless_back, keyed_skipped_back};
ghost use Rattle.serde_content.specs.Laws.Skips.{keyed_named};
ghost use Rattle.serde_content.specs.Laws.Tags.{meant_variant_kept};
ghost use Rattle.serde_content.specs.Laws.OwnFunctions.{false_alike, true_alike, equal_alike};
ghost use Rattle.serde_content.specs.Laws.Tagged.{tagged_script};
ghost use Rattle.serde_content.specs.Laws.Variants.{variant_back, other_variant, unit_variant_back};
ghost use Rattle.serde_content.specs.Laws.Variants.{unit_variant_keeps, newtype_variant_back};
ghost use Rattle.serde_content.specs.Laws.Variants.{newtype_variant_keeps, struct_variant_back};
ghost use Rattle.serde_content.specs.Laws.Variants.{struct_variant_keeps};
ghost use Rattle.content_cbor.specs.Typed.Kept.{FormComesBack};
ghost use Rattle.content_cbor.specs.Typed.Leaves.{text_kept, u8_kept, u32_kept, number_not_null};
ghost use Rattle.content_cbor.specs.Typed.Holders.{option_kept};
ghost use Rattle.content_cbor.specs.Typed.Records.{struct_kept};
ghost use Rattle.content_cbor.specs.Typed.ByName.{by_name_kept, named_or_kept, skipped_kept};
ghost use Rattle.std.specs.declared.alloc.Global.{Global};
ghost use Rattle.std.specs.declared.string.String.{String};
ghost use Rattle.std.specs.declared.vec.Vec.{Vec};
ghost use Rattle.content_tree.specs.Values.Ranges as kind;
ghost use Rattle.check_fields.specs.declared.attributes.Grade.{Grade};
ghost use Rattle.check_fields.specs.declared.attributes.Grade.TheVariants as grade;
ghost use Rattle.check_fields.specs.declared.attributes.Way.TheVariants as way;
ghost use Rattle.check_fields.specs.declared.attributes.Request.TheVariants as request;

use content_cbor::{CborRoundTrip, NotNull};
use serde_content::de::{Deserialize, FieldsByName, VariantAccess};
use serde_content::derive_support::{
    Absent, Aliases, DefaultOf, NameAt, Names, NoName, OfType, OtherAt, OthersSkipped, ReadAliased,
    ReadAliasedElse, ReadField, ReadFieldElse, ReadFieldOr, ReadFields, ReadStruct, SendEnd,
    SendField, SendFieldIf, SendOpen, SendTag, SkipIf, TaggedVariants, Variants, count_if,
    default_text, no_such_variant, read_enum, read_enum_by, read_struct, read_tagged_by,
    refuse_unsent, send_row, variant_index,
};
use serde_content::ser::{Call, Parts, Serialize, Serializer};
use serde_content::{Deserializer, Result, RoundTrip};
use std::alloc::Global;

/// How much is told.
#[derive(Drop, PartialEq, Eq)]
pub enum Grade {
    /// Little.
    Quiet,
    /// Some, with a limit.
    Warn(u8),
    /// All, from one number to another.
    Full {
        /// The first.
        from: i32,
        /// The last.
        to: u8,
    },
    /// What has another name.
    Other,
}

/// Its contract tells proofs what a variant of signed numbers holds.
fn make_grade_full(from: i32, to: u8) -> Grade
    ensures { result ≡ grade.Full from to }
{
    Grade::Full { from, to }
}

/// The names of its fields.
#[derive(Drop)]
struct FieldsOfGradeFull;

impl Names for FieldsOfGradeFull {
    ghost names = { name "from" ∷ name "to" ∷ [] };

    #[tactic(auto, unfolding(serde_content::specs::Literals::name))]
    fn names() -> &'static [&'static str] {
        &["from", "to"]
    }
}

/// Sends that variant.
fn send_whole_grade_full<S: Serializer>(
    alloc: Global,
    serializer: &mut S,
    whole: &Grade,
    from: &i32,
    to: &u8,
) -> Result<()>
    requires { whole.now ≡ grade.Full from.now to.now }
    ensures { Sends S.step S.refuses (S.seen serializer.old)
        (⟦<Grade as Serialize>⟧.script whole.now)
        result (S.seen serializer.new) }
{
    let row = SendEnd;
    let row = SendField(FieldsOfGradeFull, 1, to, row);
    let row = SendField(FieldsOfGradeFull, 0, from, row);
    let row = SendOpen(Call::StructVariant(name_grade(), 2, name_full(), 2), row);
    send_row(alloc, serializer, &row)
}

type Field1OfGradeFull = ReadField<FieldsOfGradeFull, 0, i32, Field2OfGradeFull>;

type Field2OfGradeFull = ReadField<FieldsOfGradeFull, 1, u8, OthersSkipped<FieldsOfGradeFull>>;

/// Reads the fields, in any order.
fn read_grade_full<'de, 'n: 'de>(alloc: Global, fields: FieldsByName<'de, 'n>) -> Result<(i32, u8)>
    ensures { Reads (
        (row_then (name "from") (⟦<i32 as Deserialize<'de>>⟧.refusal)
        (row_then (name "to") (⟦<u8 as Deserialize<'de>>⟧.refusal)
        (others_left (name "from" ∷ name "to" ∷ []))))
        (fields_left fields.entry))
        (λ z.
        (RowThen (name "from") (⟦<i32 as Deserialize<'de>>⟧.gives) z.0
        (RowThen (name "to") (⟦<u8 as Deserialize<'de>>⟧.gives) z.1
        NoOthers))
        (fields_left fields.entry)) result }
{
    let row: Field1OfGradeFull = ReadFields::read(alloc, fields)?;
    let ReadField(from, row, _) = row;
    let ReadField(to, _, _) = row;
    Ok((from, to))
}

/// The names of its variants.
#[derive(Drop)]
struct NamesOfGrade;

impl Names for NamesOfGrade {
    ghost names = { name "quiet" ∷ name "warn" ∷ name "full" ∷ name "other" ∷ [] };

    #[tactic(auto, unfolding(serde_content::specs::Literals::name))]
    fn names() -> &'static [&'static str] {
        &["quiet", "warn", "full", "other"]
    }
}

/// Further names of its variants.
#[derive(Drop)]
struct AliasesOfGrade;

impl Names for AliasesOfGrade {
    ghost names = { name "warning" ∷ name "w" ∷ name "all" ∷ [] };

    #[tactic(auto, unfolding(serde_content::specs::Literals::name))]
    fn names() -> &'static [&'static str] {
        &["warning", "w", "all"]
    }
}

/// What each of them stands for.
#[derive(Drop)]
struct MeantOfGrade;

impl Names for MeantOfGrade {
    ghost names = { name "warn" ∷ name "warn" ∷ name "full" ∷ [] };

    #[tactic(auto, unfolding(serde_content::specs::Literals::name))]
    fn names() -> &'static [&'static str] {
        &["warn", "warn", "full"]
    }
}

type TagsOfGrade = OtherAt<Aliases<AliasesOfGrade, MeantOfGrade>, NamesOfGrade, 3>;

impl Serialize for Grade {
    ghost script = { elim [
      | grade.Quiet ↦ unit_variant_script (name "Grade") 0 (name "quiet")
      | grade.Warn x1 ↦ newtype_variant_script (name "Grade") 1 (name "warn")
          (⟦<u8 as Serialize>⟧.script x1)
      | grade.Full x1 x2 ↦ struct_variant_script (name "Grade") 2 (name "full") 2
          (field_first (name "from") (⟦<i32 as Serialize>⟧.script x1)
          (field_first (name "to") (⟦<u8 as Serialize>⟧.script x2)
          end_script))
      | grade.Other ↦ unit_variant_script (name "Grade") 3 (name "other")
    ] };

    ghost lawful = { elim [
      | grade.Quiet ↦ λ readable. unit_variant_lawful
      | grade.Warn x1 ↦ λ readable. newtype_variant_lawful (leaf_lawful refl)
      | grade.Full x1 x2 ↦ λ readable. struct_variant_lawful
          (field_fits (leaf_lawful refl)
          (field_fits (leaf_lawful refl)
          struct_end_fits))
      | grade.Other ↦ λ readable. unit_variant_lawful
    ] };

    fn serialize<S: Serializer>(&self, alloc: Global, serializer: &mut S) -> Result<()> {
        match self {
            Grade::Quiet => Call::UnitVariant(name_grade(), 0, name_quiet()).send(serializer),
            Grade::Warn(x1) => {
                Call::NewtypeVariant(name_grade(), 1, name_warn()).around(x1, alloc, serializer)
            }
            Grade::Full { from, to } => send_whole_grade_full(alloc, serializer, self, from, to),
            Grade::Other => Call::UnitVariant(name_grade(), 3, name_other()).send(serializer),
        }
    }
}

impl<'de> Variants<'de> for Grade {
    ghost name = { name "Grade" };

    ghost refusal = { variants (
        (name "quiet", unit_variant_refusal)
        ∷ (name "warn", newtype_variant_refusal (⟦<u8 as Deserialize<'de>>⟧.refusal))
        ∷ (
          name "full",
          struct_variant_refusal (read_by_name
              (row_then (name "from") (⟦<i32 as Deserialize<'de>>⟧.refusal)
              (row_then (name "to") (⟦<u8 as Deserialize<'de>>⟧.refusal)
              (others_left (name "from" ∷ name "to" ∷ []))))),
        )
        ∷ (name "other", unit_variant_refusal)
        ∷ []) };

    ghost named = { elim [
      | grade.Quiet ↦ name "quiet"
      | grade.Warn x1 ↦ name "warn"
      | grade.Full x1 x2 ↦ name "full"
      | grade.Other ↦ name "other"
    ] };

    ghost held = { elim [
      | grade.Quiet ↦ UnitVariantGives
      | grade.Warn x1 ↦ NewtypeVariantGives (⟦<u8 as Deserialize<'de>>⟧.gives) x1
      | grade.Full x1 x2 ↦ StructVariantGives (ReadByName
          (RowThen (name "from") (⟦<i32 as Deserialize<'de>>⟧.gives) x1
          (RowThen (name "to") (⟦<u8 as Deserialize<'de>>⟧.gives) x2
          NoOthers)))
      | grade.Other ↦ UnitVariantGives
    ] };

    #[tactic(auto, unfolding(serde_content::specs::Literals::name))]
    fn name() -> &'static str {
        "Grade"
    }

    fn names() -> &'static [&'static str] {
        NamesOfGrade::names()
    }

    fn read_variant<'n: 'de>(
        alloc: Global,
        tag: &str,
        variant: VariantAccess<'de, 'n>,
    ) -> Result<Grade> {
        match variant_index(tag, &NamesOfGrade) {
            Some(0) => {
                variant.unit_variant(alloc)?;
                Ok(Grade::Quiet)
            }
            Some(1) => Ok(Grade::Warn(variant.newtype_variant(alloc)?)),
            Some(2) => {
                let fields = variant
                    .struct_variant(alloc, FieldsOfGradeFull::names())?
                    .by_name();
                let (from, to) = read_grade_full(alloc, fields)?;
                Ok(make_grade_full(from, to))
            }
            Some(3) => {
                variant.unit_variant(alloc)?;
                Ok(Grade::Other)
            }
            _ => {
                drop(variant);
                Err(no_such_variant(alloc, tag, &NamesOfGrade))
            }
        }
    }
}

impl<'de> Deserialize<'de> for Grade {
    ghost refusal = { enum_refusal (name "Grade")
        (λ tag. ⟦<Grade as Variants<'de>>⟧.refusal
        (meant_among (name "quiet" ∷ name "warn" ∷ name "full" ∷ name "other" ∷ [])
        (name "other") (meant (name "warning" ∷ name "w" ∷ name "all" ∷ [])
        (name "warn" ∷ name "warn" ∷ name "full" ∷ []) tag))) };

    ghost gives = { λ s y. EnumGivesBy
        (λ tag. (meant_among (name "quiet" ∷ name "warn" ∷ name "full" ∷ name "other" ∷ [])
        (name "other") (meant (name "warning" ∷ name "w" ∷ name "all" ∷ [])
        (name "warn" ∷ name "warn" ∷ name "full" ∷ []) tag))) (name "Grade")
        (⟦<Grade as Variants<'de>>⟧.named y)
        (⟦<Grade as Variants<'de>>⟧.held y) s };

    fn deserialize<'n: 'de>(alloc: Global, from: Deserializer<'de, 'n>) -> Result<Grade> {
        read_enum_by::<TagsOfGrade, Self>(alloc, from)
    }
}

impl<'de> RoundTrip<'de> for Grade {
    fn known(&self) {}

    ghost comes_back = { record {
      of_value = elim [
        | grade.Quiet ↦ λ real f. variant_back Self.refusal Self.gives unit_variant_back
            f (unfold name index_among in λ d. refl)
            (unfold name index_among in λ d only. elim [
              | grade.Quiet ↦ λ it. refl
              | grade.Warn y1 ↦ λ it. other_variant it.0 refl
              | grade.Full y1 y2 ↦ λ it. other_variant it.0 refl
              | grade.Other ↦ λ it. other_variant it.0 refl
            ])
        | grade.Warn x1 ↦ λ real f. variant_back Self.refusal Self.gives
            (newtype_variant_back u8_back x1 tt)
            f (unfold name index_among in λ d. refl)
            (unfold name index_among in λ d only. elim [
              | grade.Quiet ↦ λ it. other_variant it.0 refl
              | grade.Warn y1 ↦ λ it. only y1 it.1
              | grade.Full y1 y2 ↦ λ it. other_variant it.0 refl
              | grade.Other ↦ λ it. other_variant it.0 refl
            ])
        | grade.Full x1 x2 ↦ λ real f. variant_back Self.refusal Self.gives
            (struct_variant_back (by_name_back
            (named_back (name "from") i32_back x1 tt (λ (z : ℤ × ℕ). z.0)
            (named_back (name "to") u8_back x2 tt (λ (z : ℤ × ℕ). z.1)
            (skipped_back (name "from" ∷ name "to" ∷ []))))))
            f (unfold name index_among in λ d. refl)
            (unfold name index_among in λ d only. elim [
              | grade.Quiet ↦ λ it. other_variant it.0 refl
              | grade.Warn y1 ↦ λ it. other_variant it.0 refl
              | grade.Full y1 y2 ↦ λ it. let same = only (y1, y2) it.1 in both_hold same.0
                  same.1.0
              | grade.Other ↦ λ it. other_variant it.0 refl
            ])
        | grade.Other ↦ λ real f. variant_back Self.refusal Self.gives unit_variant_back
            f (unfold name index_among in λ d. refl)
            (unfold name index_among in λ d only. elim [
              | grade.Quiet ↦ λ it. other_variant it.0 refl
              | grade.Warn y1 ↦ λ it. other_variant it.0 refl
              | grade.Full y1 y2 ↦ λ it. other_variant it.0 refl
              | grade.Other ↦ λ it. refl
            ])
      ];
    } };

    ghost keeps = { record {
      of_origin = λ o people. elim [
        | grade.Quiet ↦ λ p.
            let q = meant_variant_kept {own = unit_variant_refusal}
            (λ tag. (meant_among (name "quiet" ∷ name "warn" ∷ name "full" ∷ name "other" ∷ [])
            (name "other") (meant (name "warning" ∷ name "w" ∷ name "all" ∷ [])
            (name "warn" ∷ name "warn" ∷ name "full" ∷ []) tag))) (name "Grade") (name "quiet")
            ⟦<Grade as Variants<'de>>⟧.refusal (unfold name index_among in λ v. refl)
            unit_variant_keeps
            o people tt p.free p.given in
            record { free = q.0; given = q.1 }
        | grade.Warn x1 ↦ λ p.
            let q = meant_variant_kept {own =
            (newtype_variant_refusal (⟦<u8 as Deserialize<'de>>⟧.refusal))}
            (λ tag. (meant_among (name "quiet" ∷ name "warn" ∷ name "full" ∷ name "other" ∷ [])
            (name "other") (meant (name "warning" ∷ name "w" ∷ name "all" ∷ [])
            (name "warn" ∷ name "warn" ∷ name "full" ∷ []) tag))) (name "Grade") (name "warn")
            ⟦<Grade as Variants<'de>>⟧.refusal (unfold name index_among in λ v. refl)
            (newtype_variant_keeps (natural_keeps kind.u8))
            o people x1 p.free p.given in
            record { free = q.0; given = q.1 }
        | grade.Full x1 x2 ↦ λ p.
            let q = meant_variant_kept {own = (struct_variant_refusal (read_by_name
            (row_then (name "from") (⟦<i32 as Deserialize<'de>>⟧.refusal)
            (row_then (name "to") (⟦<u8 as Deserialize<'de>>⟧.refusal)
            (others_left (name "from" ∷ name "to" ∷ []))))))}
            (λ tag. (meant_among (name "quiet" ∷ name "warn" ∷ name "full" ∷ name "other" ∷ [])
            (name "other") (meant (name "warning" ∷ name "w" ∷ name "all" ∷ [])
            (name "warn" ∷ name "warn" ∷ name "full" ∷ []) tag))) (name "Grade") (name "full")
            ⟦<Grade as Variants<'de>>⟧.refusal (unfold name index_among in λ v. refl)
            (struct_variant_keeps (by_name_keeps
            (named_keeps (name "from") (λ (z : ℤ × ℕ). z.0) (integer_keeps kind.i32)
            (named_keeps (name "to") (λ (z : ℤ × ℕ). z.1) (natural_keeps kind.u8)
            (skipped_keeps (name "from" ∷ name "to" ∷ []))))))
            o people (x1, x2) p.free p.given in
            record { free = q.0; given = q.1 }
        | grade.Other ↦ λ p.
            let q = meant_variant_kept {own = unit_variant_refusal}
            (λ tag. (meant_among (name "quiet" ∷ name "warn" ∷ name "full" ∷ name "other" ∷ [])
            (name "other") (meant (name "warning" ∷ name "w" ∷ name "all" ∷ [])
            (name "warn" ∷ name "warn" ∷ name "full" ∷ []) tag))) (name "Grade") (name "other")
            ⟦<Grade as Variants<'de>>⟧.refusal (unfold name index_among in λ v. refl)
            unit_variant_keeps
            o people tt p.free p.given in
            record { free = q.0; given = q.1 }
      ];
    } };
}

/// How a server runs.
#[derive(Drop, PartialEq, Eq)]
pub struct Server {
    /// The name of its host.
    pub host_name: String,
    /// Its port.
    pub port: u16,
    /// By how much it is moved.
    pub offset: i32,
    /// Whether it is open.
    pub open: bool,
    /// Whether it is quiet.
    pub quiet: bool,
    /// What it tells.
    pub type_: Grade,
}

/// The names of its fields.
#[derive(Drop)]
struct FieldsOfServer;

impl Names for FieldsOfServer {
    ghost names = { name "host-name" ∷ name "port" ∷ name "offset" ∷ name "open" ∷
        name "quiet" ∷ name "type" ∷ [] };

    #[tactic(auto, unfolding(serde_content::specs::Literals::name))]
    fn names() -> &'static [&'static str] {
        &["host-name", "port", "offset", "open", "quiet", "type"]
    }
}

/// When the field `port` is left out.
#[derive(Drop)]
struct Unless2OfServer;

impl SkipIf<u16> for Unless2OfServer {
    ghost is_skipped = { λ x. (nat_eq x (8080)) };

    fn is_skipped(value: &u16) -> bool {
        *value == 8080
    }
}

/// When the field `open` is left out.
#[derive(Drop)]
struct Unless4OfServer;

impl SkipIf<bool> for Unless4OfServer {
    ghost is_skipped = { λ x. x };

    fn is_skipped(value: &bool) -> bool {
        *value
    }
}

/// When the field `quiet` is left out.
#[derive(Drop)]
struct Unless5OfServer;

impl SkipIf<bool> for Unless5OfServer {
    ghost is_skipped = { λ x. (not x) };

    fn is_skipped(value: &bool) -> bool {
        !*value
    }
}

/// What is read where the field `host-name` is missing.
#[derive(Drop)]
struct Default1OfServer;

impl DefaultOf<String> for Default1OfServer {
    ghost is_default = { λ x. string_bytes x ≡ (name "local") };

    fn make(alloc: Global) -> Result<String> {
        default_text(alloc, name_local())
    }
}

/// What is read where the field `port` is missing.
#[derive(Drop)]
struct Default2OfServer;

impl DefaultOf<u16> for Default2OfServer {
    ghost is_default = { λ x. x ≡ 8080 };

    fn make(_alloc: Global) -> Result<u16> {
        Ok(8080)
    }
}

/// What is read where the field `offset` is missing.
#[derive(Drop)]
struct Default3OfServer;

impl DefaultOf<i32> for Default3OfServer {
    ghost is_default = { λ x. x ≡ negsuc 4 };

    fn make(_alloc: Global) -> Result<i32> {
        Ok(-5)
    }
}

/// What is read where the field `open` is missing.
#[derive(Drop)]
struct Default4OfServer;

impl DefaultOf<bool> for Default4OfServer {
    ghost is_default = { λ x. x ≡ true };

    fn make(_alloc: Global) -> Result<bool> {
        Ok(true)
    }
}

/// What is read where the field `type` is missing.
#[derive(Drop)]
struct Default6OfServer;

impl DefaultOf<Grade> for Default6OfServer {
    ghost is_default = { λ x. x ≡ grade.Quiet };

    fn make(_alloc: Global) -> Result<Grade> {
        Ok(Grade::Quiet)
    }
}

type Field1OfServer = ReadFieldElse<FieldsOfServer, 0, Default1OfServer, String, Field2OfServer>;

type Field2OfServer = ReadFieldElse<FieldsOfServer, 1, Default2OfServer, u16, Field3OfServer>;

type Field3OfServer = ReadFieldElse<FieldsOfServer, 2, Default3OfServer, i32, Field4OfServer>;

type Field4OfServer = ReadFieldElse<FieldsOfServer, 3, Default4OfServer, bool, Field5OfServer>;

type Field5OfServer = ReadFieldOr<FieldsOfServer, 4, bool, Field6OfServer>;

type Field6OfServer = ReadFieldElse<
    FieldsOfServer,
    5,
    Default6OfServer,
    Grade,
    OthersSkipped<FieldsOfServer>,
>;

impl<'de> ReadStruct<'de> for Server {
    ghost name = { name "Server" };

    ghost refusal = { row_or_then (name "host-name")
        (⟦<String as Deserialize<'de>>⟧.refusal)
        (row_or_then (name "port") (⟦<u16 as Deserialize<'de>>⟧.refusal)
        (row_or_then (name "offset") (⟦<i32 as Deserialize<'de>>⟧.refusal)
        (row_or_then (name "open") (⟦<bool as Deserialize<'de>>⟧.refusal)
        (row_or_then (name "quiet") (⟦<bool as Deserialize<'de>>⟧.refusal)
        (row_or_then (name "type") (⟦<Grade as Deserialize<'de>>⟧.refusal)
        (others_left (name "host-name" ∷ name "port" ∷ name "offset" ∷ name "open" ∷
        name "quiet" ∷ name "type" ∷ []))))))) };

    ghost gives = { λ z.
        (RowOrThen (name "host-name")
        (λ (x : (String Global)). string_bytes x ≡ (name "local"))
        (⟦<String as Deserialize<'de>>⟧.gives) z.host_name
        (RowOrThen (name "port") (λ (x : ℕ). x ≡ 8080) (⟦<u16 as Deserialize<'de>>⟧.gives)
        z.port
        (RowOrThen (name "offset") (λ (x : ℤ). x ≡ negsuc 4)
        (⟦<i32 as Deserialize<'de>>⟧.gives) z.offset
        (RowOrThen (name "open") (λ (x : Bool). x ≡ true)
        (⟦<bool as Deserialize<'de>>⟧.gives) z.«open»
        (RowOrThen (name "quiet") (λ (x : Bool). x ≡ false)
        (⟦<bool as Deserialize<'de>>⟧.gives) z.quiet
        (RowOrThen (name "type") (λ (x : Grade). x ≡ grade.Quiet)
        (⟦<Grade as Deserialize<'de>>⟧.gives) z.type_
        NoOthers)))))) };

    #[tactic(auto, unfolding(serde_content::specs::Literals::name))]
    fn name() -> &'static str {
        "Server"
    }

    fn read<'n: 'de>(alloc: Global, fields: FieldsByName<'de, 'n>) -> Result<Server> {
        let row: Field1OfServer = ReadFields::read(alloc, fields)?;
        let ReadFieldElse(host_name, row, _) = row;
        let ReadFieldElse(port, row, _) = row;
        let ReadFieldElse(offset, row, _) = row;
        let ReadFieldElse(open_field, row, _) = row;
        let ReadFieldOr(quiet, row, _) = row;
        let ReadFieldElse(type_, _, _) = row;
        Ok(Server {
            host_name,
            port,
            offset,
            open: open_field,
            quiet,
            type_,
        })
    }
}

impl Serialize for Server {
    ghost use Rattle.check_fields.specs.contracts.attributes.GradeSerialize.TheImpl.Laws as grade_serialize;

    ghost script = { λ p. struct_script (name "Server")
        (fields_less (not p.quiet) (fields_less p.«open»
        (fields_less (nat_eq p.port (8080)) 6)))
        (field_first (name "host-name") (⟦<String as Serialize>⟧.script p.host_name)
        (field_unless (nat_eq p.port (8080)) (name "port")
        (⟦<u16 as Serialize>⟧.script p.port)
        (field_first (name "offset") (⟦<i32 as Serialize>⟧.script p.offset)
        (field_unless p.«open» (name "open") (⟦<bool as Serialize>⟧.script p.«open»)
        (field_unless (not p.quiet) (name "quiet") (⟦<bool as Serialize>⟧.script p.quiet)
        (field_first (name "type") (⟦<Grade as Serialize>⟧.script p.type_)
        end_script)))))) };

    ghost lawful = { λ p readable. struct_lawful
        (field_fits (leaf_lawful refl)
        (field_unless_fits _ _ _ _ (nat_eq p.port (8080)) (leaf_lawful refl)
        (field_fits (leaf_lawful refl)
        (field_unless_fits _ _ _ _ p.«open» (leaf_lawful refl)
        (field_unless_fits _ _ _ _ (not p.quiet) (leaf_lawful refl)
        (field_fits (grade_serialize.lawful-law p.type_ readable)
        struct_end_fits)))))) };

    fn serialize<S: Serializer>(&self, alloc: Global, serializer: &mut S) -> Result<()> {
        let row = SendEnd;
        let row = SendField(FieldsOfServer, 5, &self.type_, row);
        let row = SendFieldIf(FieldsOfServer, Unless5OfServer, 4, &self.quiet, row);
        let row = SendFieldIf(FieldsOfServer, Unless4OfServer, 3, &self.open, row);
        let row = SendField(FieldsOfServer, 2, &self.offset, row);
        let row = SendFieldIf(FieldsOfServer, Unless2OfServer, 1, &self.port, row);
        let row = SendField(FieldsOfServer, 0, &self.host_name, row);
        let row = SendOpen(
            Call::Struct(
                name_server(),
                count_if(
                    &Unless5OfServer,
                    &self.quiet,
                    count_if(
                        &Unless4OfServer,
                        &self.open,
                        count_if(&Unless2OfServer, &self.port, 6),
                    ),
                ),
            ),
            row,
        );
        send_row(alloc, serializer, &row)
    }
}

impl<'de> Deserialize<'de> for Server {
    ghost refusal = { struct_refusal (name "Server") (read_by_name
        (row_or_then (name "host-name") (⟦<String as Deserialize<'de>>⟧.refusal)
        (row_or_then (name "port") (⟦<u16 as Deserialize<'de>>⟧.refusal)
        (row_or_then (name "offset") (⟦<i32 as Deserialize<'de>>⟧.refusal)
        (row_or_then (name "open") (⟦<bool as Deserialize<'de>>⟧.refusal)
        (row_or_then (name "quiet") (⟦<bool as Deserialize<'de>>⟧.refusal)
        (row_or_then (name "type") (⟦<Grade as Deserialize<'de>>⟧.refusal)
        (others_left (name "host-name" ∷ name "port" ∷ name "offset" ∷ name "open" ∷
        name "quiet" ∷ name "type" ∷ []))))))))) };

    ghost gives = { λ s p. StructGives (name "Server") (ReadByName
        (RowOrThen (name "host-name")
        (λ (x : (String Global)). string_bytes x ≡ (name "local"))
        (⟦<String as Deserialize<'de>>⟧.gives) p.host_name
        (RowOrThen (name "port") (λ (x : ℕ). x ≡ 8080) (⟦<u16 as Deserialize<'de>>⟧.gives)
        p.port
        (RowOrThen (name "offset") (λ (x : ℤ). x ≡ negsuc 4)
        (⟦<i32 as Deserialize<'de>>⟧.gives) p.offset
        (RowOrThen (name "open") (λ (x : Bool). x ≡ true)
        (⟦<bool as Deserialize<'de>>⟧.gives) p.«open»
        (RowOrThen (name "quiet") (λ (x : Bool). x ≡ false)
        (⟦<bool as Deserialize<'de>>⟧.gives) p.quiet
        (RowOrThen (name "type") (λ (x : Grade). x ≡ grade.Quiet)
        (⟦<Grade as Deserialize<'de>>⟧.gives) p.type_
        NoOthers))))))) s };

    fn deserialize<'n: 'de>(alloc: Global, from: Deserializer<'de, 'n>) -> Result<Server> {
        read_struct::<FieldsOfServer, Self>(alloc, from)
    }
}

impl<'de> RoundTrip<'de> for Server {
    ghost use Rattle.check_fields.specs.contracts.attributes.GradeRoundTrip.TheImpl.Laws as grade_round_trip;

    fn known(&self) {}

    ghost comes_back = { record {
      of_value = λ p real f. struct_back (by_name_back (keyed_named
          (keyed_or_back (name "host-name")
          (λ (x : (String Global)). string_bytes x ≡ (name "local")) text_back p.host_name tt
          (λ q. q.host_name)
          (keyed_unless_back {names = (name "offset" ∷ name "open" ∷ name "quiet" ∷
          name "type" ∷ [])} (name "port") (λ (x : ℕ). x ≡ 8080) (nat_eq p.port (8080))
          u16_back p.port tt
          (λ e y a. equal_alike nat_eq p.port (8080) e y a)
          (unfold name in (refl, (refl, (refl, (refl, tt))))) (λ q. q.port)
          (keyed_or_back (name "offset") (λ (x : ℤ). x ≡ negsuc 4) i32_back p.offset tt
          (λ q. q.offset)
          (keyed_unless_back {names = (name "quiet" ∷ name "type" ∷ [])} (name "open")
          (λ (x : Bool). x ≡ true) p.«open» bool_back p.«open» tt
          (λ e y a. true_alike p.«open» e y a) (unfold name in (refl, (refl, tt)))
          (λ q. q.«open»)
          (keyed_unless_back {names = (name "type" ∷ [])} (name "quiet")
          (λ (x : Bool). x ≡ false) (not p.quiet) bool_back p.quiet tt
          (λ e y a. false_alike p.quiet e y a) (unfold name in (refl, tt)) (λ q. q.quiet)
          (keyed_or_back (name "type") (λ (x : Grade). x ≡ grade.Quiet)
          grade_round_trip.comes_back-law p.type_ tt (λ q. q.type_)
          (keyed_skipped_back (name "host-name" ∷ name "port" ∷ name "offset" ∷ name "open" ∷
          name "quiet" ∷ name "type" ∷ []))))))))))
          f (λ q h. both_hold h.0 (both_hold h.1.0
          (both_hold h.1.1.0 (both_hold h.1.1.1.0 (both_hold h.1.1.1.1.0 h.1.1.1.1.1.0)))));
    } };

    ghost keeps = { struct_keeps (name "Server") (by_name_keeps
        (named_or_keeps (name "host-name")
        (λ (x : (String Global)). string_bytes x ≡ (name "local")) (λ q. q.host_name)
        (heedless_keeps (λ o. refusal_of (text_from o))
        (λ o (x : String Global). IsTaken (text_from o) (HasContent (string_bytes x))))
        (named_or_keeps (name "port") (λ (x : ℕ). x ≡ 8080) (λ q. q.port)
        (natural_keeps kind.u16)
        (named_or_keeps (name "offset") (λ (x : ℤ). x ≡ negsuc 4) (λ q. q.offset)
        (integer_keeps kind.i32)
        (named_or_keeps (name "open") (λ (x : Bool). x ≡ true) (λ q. q.«open»)
        (heedless_keeps (λ o. refusal_of (bool_from o))
        (λ o (x : Bool). bool_from o ≡ taken x))
        (named_or_keeps (name "quiet") (λ (x : Bool). x ≡ false) (λ q. q.quiet)
        (heedless_keeps (λ o. refusal_of (bool_from o))
        (λ o (x : Bool). bool_from o ≡ taken x))
        (named_or_keeps (name "type") (λ (x : Grade). x ≡ grade.Quiet) (λ q. q.type_)
        grade_round_trip.keeps-law
        (skipped_keeps (name "host-name" ∷ name "port" ∷ name "offset" ∷ name "open" ∷
        name "quiet" ∷ name "type" ∷ []))))))))) };
}

/// A size, with a default of its own.
#[derive(Drop, PartialEq, Eq)]
pub struct Extent {
    /// How wide.
    pub width: u32,
    /// How it is called.
    pub name: String,
    /// Its weight, if known.
    pub weight: Option<u8>,
}

/// The names of its fields.
#[derive(Drop)]
struct FieldsOfExtent;

impl Names for FieldsOfExtent {
    ghost names = { name "width" ∷ name "name" ∷ name "weight" ∷ [] };

    #[tactic(auto, unfolding(serde_content::specs::Literals::name))]
    fn names() -> &'static [&'static str] {
        &["width", "name", "weight"]
    }
}

/// What is read where the field `width` is missing.
#[derive(Drop)]
struct Default1OfExtent;

impl DefaultOf<u32> for Default1OfExtent {
    ghost is_default = { λ x. x ≡ 80 };

    fn make(_alloc: Global) -> Result<u32> {
        Ok(80)
    }
}

/// What is read where the field `name` is missing.
#[derive(Drop)]
struct Default2OfExtent;

impl DefaultOf<String> for Default2OfExtent {
    ghost is_default = { λ x. string_bytes x ≡ (name "plain") };

    fn make(alloc: Global) -> Result<String> {
        default_text(alloc, name_plain())
    }
}

type Field1OfExtent = ReadFieldElse<FieldsOfExtent, 0, Default1OfExtent, u32, Field2OfExtent>;

type Field2OfExtent = ReadFieldElse<FieldsOfExtent, 1, Default2OfExtent, String, Field3OfExtent>;

type Field3OfExtent = ReadFieldOr<FieldsOfExtent, 2, Option<u8>, OthersSkipped<FieldsOfExtent>>;

impl<'de> ReadStruct<'de> for Extent {
    ghost name = { name "Extent" };

    ghost refusal = { row_or_then (name "width") (⟦<u32 as Deserialize<'de>>⟧.refusal)
        (row_or_then (name "name") (⟦<String as Deserialize<'de>>⟧.refusal)
        (row_or_then (name "weight") (⟦<Option<u8> as Deserialize<'de>>⟧.refusal)
        (others_left (name "width" ∷ name "name" ∷ name "weight" ∷ [])))) };

    ghost gives = { λ z.
        (RowOrThen (name "width") (λ (x : ℕ). x ≡ 80) (⟦<u32 as Deserialize<'de>>⟧.gives)
        z.width
        (RowOrThen (name "name") (λ (x : (String Global)). string_bytes x ≡ (name "plain"))
        (⟦<String as Deserialize<'de>>⟧.gives) z.name
        (RowOrThen (name "weight") (λ (x : (Option ℕ)). x ≡ None)
        (⟦<Option<u8> as Deserialize<'de>>⟧.gives) z.weight
        NoOthers))) };

    #[tactic(auto, unfolding(serde_content::specs::Literals::name))]
    fn name() -> &'static str {
        "Extent"
    }

    fn read<'n: 'de>(alloc: Global, fields: FieldsByName<'de, 'n>) -> Result<Extent> {
        let row: Field1OfExtent = ReadFields::read(alloc, fields)?;
        let ReadFieldElse(width, row, _) = row;
        let ReadFieldElse(name, row, _) = row;
        let ReadFieldOr(weight, _, _) = row;
        Ok(Extent {
            width,
            name,
            weight,
        })
    }
}

impl Serialize for Extent {
    ghost script = { λ p. struct_script (name "Extent") 3
        (field_first (name "width") (⟦<u32 as Serialize>⟧.script p.width)
        (field_first (name "name") (⟦<String as Serialize>⟧.script p.name)
        (field_first (name "weight") (⟦<Option<u8> as Serialize>⟧.script p.weight)
        end_script))) };

    ghost lawful = { λ p readable. struct_lawful
        (field_fits (leaf_lawful refl)
        (field_fits (leaf_lawful refl)
        (field_fits (option_lawful (λ x h. leaf_lawful refl) p.weight readable)
        struct_end_fits))) };

    fn serialize<S: Serializer>(&self, alloc: Global, serializer: &mut S) -> Result<()> {
        let row = SendEnd;
        let row = SendField(FieldsOfExtent, 2, &self.weight, row);
        let row = SendField(FieldsOfExtent, 1, &self.name, row);
        let row = SendField(FieldsOfExtent, 0, &self.width, row);
        let row = SendOpen(Call::Struct(name_extent(), 3), row);
        send_row(alloc, serializer, &row)
    }
}

impl<'de> Deserialize<'de> for Extent {
    ghost refusal = { struct_refusal (name "Extent") (read_by_name
        (row_or_then (name "width") (⟦<u32 as Deserialize<'de>>⟧.refusal)
        (row_or_then (name "name") (⟦<String as Deserialize<'de>>⟧.refusal)
        (row_or_then (name "weight") (⟦<Option<u8> as Deserialize<'de>>⟧.refusal)
        (others_left (name "width" ∷ name "name" ∷ name "weight" ∷ [])))))) };

    ghost gives = { λ s p. StructGives (name "Extent") (ReadByName
        (RowOrThen (name "width") (λ (x : ℕ). x ≡ 80) (⟦<u32 as Deserialize<'de>>⟧.gives)
        p.width
        (RowOrThen (name "name") (λ (x : (String Global)). string_bytes x ≡ (name "plain"))
        (⟦<String as Deserialize<'de>>⟧.gives) p.name
        (RowOrThen (name "weight") (λ (x : (Option ℕ)). x ≡ None)
        (⟦<Option<u8> as Deserialize<'de>>⟧.gives) p.weight
        NoOthers)))) s };

    fn deserialize<'n: 'de>(alloc: Global, from: Deserializer<'de, 'n>) -> Result<Extent> {
        read_struct::<FieldsOfExtent, Self>(alloc, from)
    }
}

impl<'de> RoundTrip<'de> for Extent {
    ghost exists = { λ p. ⟦<Option<u8> as RoundTrip<'de>>⟧.exists p.weight };

    fn known(&self) {
        self.weight.known();
    }

    ghost comes_back = { record {
      of_value = λ p real f. struct_back (by_name_back
          (named_or_back (name "width") (λ (x : ℕ). x ≡ 80) u32_back p.width tt (λ q. q.width)
          (named_or_back (name "name") (λ (x : (String Global)). string_bytes x ≡
          (name "plain")) text_back p.name tt (λ q. q.name)
          (named_or_back (name "weight") (λ (x : (Option ℕ)). x ≡ None)
          (let law : ComesBack (⟦<Option<u8> as RoundTrip<'de>>⟧.exists)
          (⟦<Option<u8> as Serialize>⟧.script) (⟦<Option<u8> as Deserialize<'de>>⟧.refusal)
          (⟦<Option<u8> as Deserialize<'de>>⟧.gives) (⟦<Option<u8> as PartialEq>⟧.eq) =
          (option_back u8_back) in law) p.weight real (λ q. q.weight)
          (skipped_back (name "width" ∷ name "name" ∷ name "weight" ∷ []))))))
          f (λ q h. both_hold h.0 (both_hold h.1.0 h.1.1.0));
    } };

    ghost keeps = { struct_keeps (name "Extent") (by_name_keeps
        (named_or_keeps (name "width") (λ (x : ℕ). x ≡ 80) (λ q. q.width)
        (natural_keeps kind.u32)
        (named_or_keeps (name "name")
        (λ (x : (String Global)). string_bytes x ≡ (name "plain")) (λ q. q.name)
        (heedless_keeps (λ o. refusal_of (text_from o))
        (λ o (x : String Global). IsTaken (text_from o) (HasContent (string_bytes x))))
        (named_or_keeps (name "weight") (λ (x : (Option ℕ)). x ≡ None) (λ q. q.weight)
        (let law : CoercionKeeps (⟦<Option<u8> as Deserialize<'de>>⟧.refusal)
        (⟦<Option<u8> as Deserialize<'de>>⟧.gives) = (option_keeps (natural_keeps kind.u8))
        in law)
        (skipped_keeps (name "width" ∷ name "name" ∷ name "weight" ∷ [])))))) };
}

impl<'de> CborRoundTrip<'de> for Extent {
    ghost kept = { record {
      of_value = λ p real. struct_kept (by_name_kept
          (named_or_kept (name "width") (λ (x : ℕ). x ≡ 80) u32_kept p.width tt (λ q. q.width)
          (named_or_kept (name "name") (λ (x : (String Global)). string_bytes x ≡
          (name "plain")) text_kept p.name tt (λ q. q.name)
          (named_or_kept (name "weight") (λ (x : (Option ℕ)). x ≡ None)
          (let law : FormComesBack (⟦<Option<u8> as RoundTrip<'de>>⟧.exists)
          (⟦<Option<u8> as Serialize>⟧.script) (⟦<Option<u8> as Deserialize<'de>>⟧.refusal)
          (⟦<Option<u8> as Deserialize<'de>>⟧.gives) (⟦<Option<u8> as PartialEq>⟧.eq) =
          (option_kept (number_not_null kind.u8) u8_kept) in law) p.weight real
          (λ q. q.weight)
          (skipped_kept (name "width" ∷ name "name" ∷ name "weight" ∷ []))))))
          (λ q h. both_hold h.0 (both_hold h.1.0 h.1.1.0));
    } };
}

impl<'de> NotNull<'de> for Extent {
    ghost refuses_null = { record { of_null = λ b e. absurd (cc e) } };
}

/// A task, of which some fields have further names, and others are sent alone, read alone, or neither.
#[derive(Drop, PartialEq, Eq)]
pub struct Task {
    /// What is done first.
    pub setup: String,
    /// Its marks.
    pub tags: Vec<u8>,
    /// How often it is done.
    pub times: u8,
    /// What it says inside.
    pub notes: Vec<u8>,
    /// Who may see it.
    pub secret: String,
    /// How often it was done.
    pub done: u8,
}

/// The names of its fields.
#[derive(Drop)]
struct FieldsOfTask;

impl Names for FieldsOfTask {
    ghost names = { name "setup" ∷ name "tags" ∷ name "times" ∷ name "secret" ∷ [] };

    #[tactic(auto, unfolding(serde_content::specs::Literals::name))]
    fn names() -> &'static [&'static str] {
        &["setup", "tags", "times", "secret"]
    }
}

/// Further names of its fields.
#[derive(Drop)]
struct AliasesOfTask;

impl Names for AliasesOfTask {
    ghost names = { name "before-all" ∷ name "before" ∷ name "marks" ∷ name "count" ∷ [] };

    #[tactic(auto, unfolding(serde_content::specs::Literals::name))]
    fn names() -> &'static [&'static str] {
        &["before-all", "before", "marks", "count"]
    }
}

/// The names of the fields that are sent.
#[derive(Drop)]
struct SentOfTask;

impl Names for SentOfTask {
    ghost names = { name "setup" ∷ name "tags" ∷ name "times" ∷ name "done" ∷ [] };

    #[tactic(auto, unfolding(serde_content::specs::Literals::name))]
    fn names() -> &'static [&'static str] {
        &["setup", "tags", "times", "done"]
    }
}

/// What is read where the field `times` is missing.
#[derive(Drop)]
struct Default3OfTask;

impl DefaultOf<u8> for Default3OfTask {
    ghost is_default = { λ x. x ≡ 1 };

    fn make(_alloc: Global) -> Result<u8> {
        Ok(1)
    }
}

type Field1OfTask = ReadAliased<
    FieldsOfTask,
    0,
    NameAt<FieldsOfTask, 0, NameAt<AliasesOfTask, 0, NameAt<AliasesOfTask, 1, NoName>>>,
    String,
    Field2OfTask,
>;

type Field2OfTask = ReadAliasedElse<
    FieldsOfTask,
    1,
    NameAt<FieldsOfTask, 1, NameAt<AliasesOfTask, 2, NoName>>,
    OfType,
    Vec<u8>,
    Field3OfTask,
>;

type Field3OfTask = ReadAliasedElse<
    FieldsOfTask,
    2,
    NameAt<FieldsOfTask, 2, NameAt<AliasesOfTask, 3, NoName>>,
    Default3OfTask,
    u8,
    Field4OfTask,
>;

type Field4OfTask = ReadField<FieldsOfTask, 3, String, OthersSkipped<FieldsOfTask>>;

impl<'de> ReadStruct<'de> for Task {
    ghost name = { name "Task" };

    ghost refusal = { aliased_then (name "setup")
        (name "setup" ∷ name "before-all" ∷ name "before" ∷ [])
        (Some (missing_field (name "setup"))) (⟦<String as Deserialize<'de>>⟧.refusal)
        (aliased_then (name "tags") (name "tags" ∷ name "marks" ∷ []) None
        (⟦<Vec<u8> as Deserialize<'de>>⟧.refusal)
        (aliased_then (name "times") (name "times" ∷ name "count" ∷ []) None
        (⟦<u8 as Deserialize<'de>>⟧.refusal)
        (row_then (name "secret") (⟦<String as Deserialize<'de>>⟧.refusal)
        (others_left (name "setup" ∷ name "tags" ∷ name "times" ∷ name "secret" ∷ []))))) };

    ghost gives = { λ z.
        (UnreadThen (λ (x : (Vec ℕ Global)). x.items ≡ []) z.notes
        (UnreadThen (λ (x : ℕ). x ≡ 1) z.done
        (AliasedThen (name "setup" ∷ name "before-all" ∷ name "before" ∷ []) (λ b. ⊥)
        (⟦<String as Deserialize<'de>>⟧.gives) z.setup
        (AliasedThen (name "tags" ∷ name "marks" ∷ [])
        (λ (x : (Vec ℕ Global)). x.items ≡ []) (⟦<Vec<u8> as Deserialize<'de>>⟧.gives)
        z.tags
        (AliasedThen (name "times" ∷ name "count" ∷ []) (λ (x : ℕ). x ≡ 1)
        (⟦<u8 as Deserialize<'de>>⟧.gives) z.times
        (RowThen (name "secret") (⟦<String as Deserialize<'de>>⟧.gives) z.secret
        NoOthers)))))) };

    #[tactic(auto, unfolding(serde_content::specs::Literals::name))]
    fn name() -> &'static str {
        "Task"
    }

    fn read<'n: 'de>(alloc: Global, fields: FieldsByName<'de, 'n>) -> Result<Task> {
        let row: Field1OfTask = ReadFields::read(alloc, fields)?;
        let ReadAliased(setup, row, _) = row;
        let ReadAliasedElse(tags, row, _) = row;
        let ReadAliasedElse(times, row, _) = row;
        let ReadField(secret, _, _) = row;
        let notes: Vec<u8> = Absent::absent(alloc);
        let done: u8 = 1;
        Ok(Task {
            setup,
            tags,
            times,
            notes,
            secret,
            done,
        })
    }
}

impl Serialize for Task {
    ghost script = { λ p. struct_script (name "Task") 4
        (field_first (name "setup") (⟦<String as Serialize>⟧.script p.setup)
        (field_first (name "tags") (⟦<Vec<u8> as Serialize>⟧.script p.tags)
        (field_first (name "times") (⟦<u8 as Serialize>⟧.script p.times)
        (field_first (name "done") (⟦<u8 as Serialize>⟧.script p.done)
        end_script)))) };

    ghost lawful = { λ p readable. struct_lawful
        (field_fits (leaf_lawful refl)
        (field_fits (seq_lawful (λ x h. leaf_lawful refl) p.tags.items readable)
        (field_fits (leaf_lawful refl)
        (field_fits (leaf_lawful refl)
        struct_end_fits)))) };

    fn serialize<S: Serializer>(&self, alloc: Global, serializer: &mut S) -> Result<()> {
        let row = SendEnd;
        let row = SendField(SentOfTask, 3, &self.done, row);
        let row = SendField(SentOfTask, 2, &self.times, row);
        let row = SendField(SentOfTask, 1, &self.tags, row);
        let row = SendField(SentOfTask, 0, &self.setup, row);
        let row = SendOpen(Call::Struct(name_task(), 4), row);
        send_row(alloc, serializer, &row)
    }
}

impl<'de> Deserialize<'de> for Task {
    ghost refusal = { struct_refusal (name "Task") (read_by_name
        (aliased_then (name "setup") (name "setup" ∷ name "before-all" ∷ name "before" ∷ [])
        (Some (missing_field (name "setup"))) (⟦<String as Deserialize<'de>>⟧.refusal)
        (aliased_then (name "tags") (name "tags" ∷ name "marks" ∷ []) None
        (⟦<Vec<u8> as Deserialize<'de>>⟧.refusal)
        (aliased_then (name "times") (name "times" ∷ name "count" ∷ []) None
        (⟦<u8 as Deserialize<'de>>⟧.refusal)
        (row_then (name "secret") (⟦<String as Deserialize<'de>>⟧.refusal)
        (others_left (name "setup" ∷ name "tags" ∷ name "times" ∷ name "secret" ∷ []))))))) };

    ghost gives = { λ s p. StructGives (name "Task") (ReadByName
        (UnreadThen (λ (x : (Vec ℕ Global)). x.items ≡ []) p.notes
        (UnreadThen (λ (x : ℕ). x ≡ 1) p.done
        (AliasedThen (name "setup" ∷ name "before-all" ∷ name "before" ∷ []) (λ b. ⊥)
        (⟦<String as Deserialize<'de>>⟧.gives) p.setup
        (AliasedThen (name "tags" ∷ name "marks" ∷ [])
        (λ (x : (Vec ℕ Global)). x.items ≡ []) (⟦<Vec<u8> as Deserialize<'de>>⟧.gives)
        p.tags
        (AliasedThen (name "times" ∷ name "count" ∷ []) (λ (x : ℕ). x ≡ 1)
        (⟦<u8 as Deserialize<'de>>⟧.gives) p.times
        (RowThen (name "secret") (⟦<String as Deserialize<'de>>⟧.gives) p.secret
        NoOthers))))))) s };

    fn deserialize<'n: 'de>(alloc: Global, from: Deserializer<'de, 'n>) -> Result<Task> {
        read_struct::<FieldsOfTask, Self>(alloc, from)
    }
}

/// A label, which is sent by other names than it is read by.
#[derive(Drop, PartialEq, Eq)]
pub struct Sticker {
    /// The first line.
    pub first_line: String,
    /// Its sort.
    pub sort_of: u8,
    /// Where it goes.
    pub way: Way,
}

/// The names of its fields.
#[derive(Drop)]
struct FieldsOfSticker;

impl Names for FieldsOfSticker {
    ghost names = { name "first-line" ∷ name "kind" ∷ name "to" ∷ [] };

    #[tactic(auto, unfolding(serde_content::specs::Literals::name))]
    fn names() -> &'static [&'static str] {
        &["first-line", "kind", "to"]
    }
}

/// The names of the fields that are sent.
#[derive(Drop)]
struct SentOfSticker;

impl Names for SentOfSticker {
    ghost names = { name "firstLine" ∷ name "sortOf" ∷ name "to" ∷ [] };

    #[tactic(auto, unfolding(serde_content::specs::Literals::name))]
    fn names() -> &'static [&'static str] {
        &["firstLine", "sortOf", "to"]
    }
}

type Field1OfSticker = ReadField<FieldsOfSticker, 0, String, Field2OfSticker>;

type Field2OfSticker = ReadField<FieldsOfSticker, 1, u8, Field3OfSticker>;

type Field3OfSticker = ReadField<FieldsOfSticker, 2, Way, OthersSkipped<FieldsOfSticker>>;

impl<'de> ReadStruct<'de> for Sticker {
    ghost name = { name "Sticker" };

    ghost refusal = { row_then (name "first-line")
        (⟦<String as Deserialize<'de>>⟧.refusal)
        (row_then (name "kind") (⟦<u8 as Deserialize<'de>>⟧.refusal)
        (row_then (name "to") (⟦<Way as Deserialize<'de>>⟧.refusal)
        (others_left (name "first-line" ∷ name "kind" ∷ name "to" ∷ [])))) };

    ghost gives = { λ z.
        (RowThen (name "first-line") (⟦<String as Deserialize<'de>>⟧.gives) z.first_line
        (RowThen (name "kind") (⟦<u8 as Deserialize<'de>>⟧.gives) z.sort_of
        (RowThen (name "to") (⟦<Way as Deserialize<'de>>⟧.gives) z.way
        NoOthers))) };

    #[tactic(auto, unfolding(serde_content::specs::Literals::name))]
    fn name() -> &'static str {
        "Sticker"
    }

    fn read<'n: 'de>(alloc: Global, fields: FieldsByName<'de, 'n>) -> Result<Sticker> {
        let row: Field1OfSticker = ReadFields::read(alloc, fields)?;
        let ReadField(first_line, row, _) = row;
        let ReadField(sort_of, row, _) = row;
        let ReadField(way, _, _) = row;
        Ok(Sticker {
            first_line,
            sort_of,
            way,
        })
    }
}

impl Serialize for Sticker {
    ghost use Rattle.check_fields.specs.contracts.attributes.WaySerialize.TheImpl.Laws as way_serialize;

    ghost script = { λ p. struct_script (name "Sticker") 3
        (field_first (name "firstLine") (⟦<String as Serialize>⟧.script p.first_line)
        (field_first (name "sortOf") (⟦<u8 as Serialize>⟧.script p.sort_of)
        (field_first (name "to") (⟦<Way as Serialize>⟧.script p.way)
        end_script))) };

    ghost lawful = { λ p readable. struct_lawful
        (field_fits (leaf_lawful refl)
        (field_fits (leaf_lawful refl)
        (field_fits (way_serialize.lawful-law p.way readable)
        struct_end_fits))) };

    fn serialize<S: Serializer>(&self, alloc: Global, serializer: &mut S) -> Result<()> {
        let row = SendEnd;
        let row = SendField(SentOfSticker, 2, &self.way, row);
        let row = SendField(SentOfSticker, 1, &self.sort_of, row);
        let row = SendField(SentOfSticker, 0, &self.first_line, row);
        let row = SendOpen(Call::Struct(name_sticker(), 3), row);
        send_row(alloc, serializer, &row)
    }
}

impl<'de> Deserialize<'de> for Sticker {
    ghost refusal = { struct_refusal (name "Sticker") (read_by_name
        (row_then (name "first-line") (⟦<String as Deserialize<'de>>⟧.refusal)
        (row_then (name "kind") (⟦<u8 as Deserialize<'de>>⟧.refusal)
        (row_then (name "to") (⟦<Way as Deserialize<'de>>⟧.refusal)
        (others_left (name "first-line" ∷ name "kind" ∷ name "to" ∷ [])))))) };

    ghost gives = { λ s p. StructGives (name "Sticker") (ReadByName
        (RowThen (name "first-line") (⟦<String as Deserialize<'de>>⟧.gives) p.first_line
        (RowThen (name "kind") (⟦<u8 as Deserialize<'de>>⟧.gives) p.sort_of
        (RowThen (name "to") (⟦<Way as Deserialize<'de>>⟧.gives) p.way
        NoOthers)))) s };

    fn deserialize<'n: 'de>(alloc: Global, from: Deserializer<'de, 'n>) -> Result<Sticker> {
        read_struct::<FieldsOfSticker, Self>(alloc, from)
    }
}

/// A way.
#[derive(Drop, PartialEq, Eq)]
pub enum Way {
    /// Upwards.
    Up,
    /// Downwards, so far.
    Down(u8),
    /// Nowhere, which is neither sent nor read.
    Lost(u8),
}

/// The names of its variants.
#[derive(Drop)]
struct NamesOfWay;

impl Names for NamesOfWay {
    ghost names = { name "north" ∷ name "Down" ∷ [] };

    #[tactic(auto, unfolding(serde_content::specs::Literals::name))]
    fn names() -> &'static [&'static str] {
        &["north", "Down"]
    }
}

impl Serialize for Way {
    ghost script = { elim [
      | way.Up ↦ unit_variant_script (name "Way") 0 (name "up")
      | way.Down x1 ↦ newtype_variant_script (name "Way") 1 (name "Down")
          (⟦<u8 as Serialize>⟧.script x1)
      | way.Lost x1 ↦ unsent_script
          (codes "the enum variant Way::Lost cannot be serialized")
    ] };

    ghost lawful = { elim [
      | way.Up ↦ λ readable. unit_variant_lawful
      | way.Down x1 ↦ λ readable. newtype_variant_lawful (leaf_lawful refl)
      | way.Lost x1 ↦ λ readable. unsent_lawful _
    ] };

    fn serialize<S: Serializer>(&self, alloc: Global, serializer: &mut S) -> Result<()> {
        match self {
            Way::Up => Call::UnitVariant(name_way(), 0, name_up()).send(serializer),
            Way::Down(x1) => Call::NewtypeVariant(name_way(), 1, name_down()).around(
                x1, alloc, serializer,
            ),
            Way::Lost(_) => {
                refuse_unsent(
                    alloc,
                    serializer,
                    "the enum variant Way::Lost cannot be serialized",
                )
            }
        }
    }
}

impl<'de> Variants<'de> for Way {
    ghost name = { name "Way" };

    ghost refusal = { variants (
        (name "north", unit_variant_refusal)
        ∷ (name "Down", newtype_variant_refusal (⟦<u8 as Deserialize<'de>>⟧.refusal))
        ∷ []) };

    ghost named = { elim [
      | way.Up ↦ name "north"
      | way.Down x1 ↦ name "Down"
      | way.Lost x1 ↦ name "Lost"
    ] };

    ghost held = { elim [
      | way.Up ↦ UnitVariantGives
      | way.Down x1 ↦ NewtypeVariantGives (⟦<u8 as Deserialize<'de>>⟧.gives) x1
      | way.Lost x1 ↦ λ v. ⊥
    ] };

    #[tactic(auto, unfolding(serde_content::specs::Literals::name))]
    fn name() -> &'static str {
        "Way"
    }

    fn names() -> &'static [&'static str] {
        NamesOfWay::names()
    }

    fn read_variant<'n: 'de>(
        alloc: Global,
        tag: &str,
        variant: VariantAccess<'de, 'n>,
    ) -> Result<Way> {
        match variant_index(tag, &NamesOfWay) {
            Some(0) => {
                variant.unit_variant(alloc)?;
                Ok(Way::Up)
            }
            Some(1) => Ok(Way::Down(variant.newtype_variant(alloc)?)),
            _ => {
                drop(variant);
                Err(no_such_variant(alloc, tag, &NamesOfWay))
            }
        }
    }
}

impl<'de> Deserialize<'de> for Way {
    ghost refusal = { enum_refusal (name "Way") ⟦<Way as Variants<'de>>⟧.refusal };

    ghost gives = { λ s y. EnumGives (name "Way")
        (⟦<Way as Variants<'de>>⟧.named y)
        (⟦<Way as Variants<'de>>⟧.held y) s };

    fn deserialize<'n: 'de>(alloc: Global, from: Deserializer<'de, 'n>) -> Result<Way> {
        read_enum(alloc, from)
    }
}

/// What a client asks for.
#[derive(Drop, PartialEq, Eq)]
pub enum Request {
    /// To hear of a channel.
    Listen {
        /// Its number.
        channel: u16,
    },
    /// To end.
    Quit,
    /// What has another tag.
    Unknown,
}

/// The names of its fields.
#[derive(Drop)]
struct FieldsOfRequestListen;

impl Names for FieldsOfRequestListen {
    ghost names = { name "op" ∷ name "channel" ∷ [] };

    #[tactic(auto, unfolding(serde_content::specs::Literals::name))]
    fn names() -> &'static [&'static str] {
        &["op", "channel"]
    }
}

/// Sends that variant.
fn send_whole_request_listen<S: Serializer>(
    alloc: Global,
    serializer: &mut S,
    whole: &Request,
    channel: &u16,
) -> Result<()>
    requires { whole.now ≡ request.Listen channel.now }
    ensures { Sends S.step S.refuses (S.seen serializer.old)
        (⟦<Request as Serialize>⟧.script whole.now)
        result (S.seen serializer.new) }
{
    let row = SendEnd;
    let row = SendField(FieldsOfRequestListen, 1, channel, row);
    let row = SendTag(FieldsOfRequestListen, NamesOfRequest, 0, row);
    let row = SendOpen(Call::Struct(name_request(), 2), row);
    send_row(alloc, serializer, &row)
}

type Field1OfRequestListen = ReadField<
    FieldsOfRequestListen,
    1,
    u16,
    OthersSkipped<FieldsOfRequestListen>,
>;

/// Reads the fields, in any order.
fn read_request_listen<'de, 'n: 'de>(alloc: Global, fields: FieldsByName<'de, 'n>) -> Result<u16>
    ensures { Reads (
        (row_then (name "channel") (⟦<u16 as Deserialize<'de>>⟧.refusal)
        (others_left (name "op" ∷ name "channel" ∷ [])))
        (fields_left fields.entry))
        (λ z.
        (RowThen (name "channel") (⟦<u16 as Deserialize<'de>>⟧.gives) z
        NoOthers)
        (fields_left fields.entry)) result }
{
    let row: Field1OfRequestListen = ReadFields::read(alloc, fields)?;
    let ReadField(channel, _, _) = row;
    Ok(channel)
}

/// The names of its fields.
#[derive(Drop)]
struct FieldsOfRequestQuit;

impl Names for FieldsOfRequestQuit {
    ghost names = { name "op" ∷ [] };

    #[tactic(auto, unfolding(serde_content::specs::Literals::name))]
    fn names() -> &'static [&'static str] {
        &["op"]
    }
}

/// The names of its fields.
#[derive(Drop)]
struct FieldsOfRequestUnknown;

impl Names for FieldsOfRequestUnknown {
    ghost names = { name "op" ∷ [] };

    #[tactic(auto, unfolding(serde_content::specs::Literals::name))]
    fn names() -> &'static [&'static str] {
        &["op"]
    }
}

/// The names of its variants.
#[derive(Drop)]
struct NamesOfRequest;

impl Names for NamesOfRequest {
    ghost names = { name "listen" ∷ name "quit" ∷ name "unknown" ∷ [] };

    #[tactic(auto, unfolding(serde_content::specs::Literals::name))]
    fn names() -> &'static [&'static str] {
        &["listen", "quit", "unknown"]
    }
}

/// Further names of its variants.
#[derive(Drop)]
struct AliasesOfRequest;

impl Names for AliasesOfRequest {
    ghost names = { name "join" ∷ name "hear" ∷ [] };

    #[tactic(auto, unfolding(serde_content::specs::Literals::name))]
    fn names() -> &'static [&'static str] {
        &["join", "hear"]
    }
}

/// What each of them stands for.
#[derive(Drop)]
struct MeantOfRequest;

impl Names for MeantOfRequest {
    ghost names = { name "listen" ∷ name "listen" ∷ [] };

    #[tactic(auto, unfolding(serde_content::specs::Literals::name))]
    fn names() -> &'static [&'static str] {
        &["listen", "listen"]
    }
}

type TagsOfRequest = OtherAt<Aliases<AliasesOfRequest, MeantOfRequest>, NamesOfRequest, 2>;

impl Serialize for Request {
    ghost script = { elim [
      | request.Listen x1 ↦ tagged_script (name "Request") 2 (name "op") (name "listen")
          (field_first (name "channel") (⟦<u16 as Serialize>⟧.script x1)
          end_script)
      | request.Quit ↦ tagged_script (name "Request") 1 (name "op") (name "quit")
          end_script
      | request.Unknown ↦ tagged_script (name "Request") 1 (name "op") (name "unknown")
          end_script
    ] };

    ghost lawful = { elim [
      | request.Listen x1 ↦ λ readable. struct_lawful
          (field_fits (leaf_lawful refl)
          (field_fits (leaf_lawful refl)
          struct_end_fits))
      | request.Quit ↦ λ readable. struct_lawful
          (field_fits (leaf_lawful refl)
          struct_end_fits)
      | request.Unknown ↦ λ readable. struct_lawful
          (field_fits (leaf_lawful refl)
          struct_end_fits)
    ] };

    fn serialize<S: Serializer>(&self, alloc: Global, serializer: &mut S) -> Result<()> {
        match self {
            Request::Listen { channel } => {
                send_whole_request_listen(alloc, serializer, self, channel)
            }
            Request::Quit => {
                let row = SendEnd;
                let row = SendTag(FieldsOfRequestQuit, NamesOfRequest, 1, row);
                let row = SendOpen(Call::Struct(name_request(), 1), row);
                send_row(alloc, serializer, &row)
            }
            Request::Unknown => {
                let row = SendEnd;
                let row = SendTag(FieldsOfRequestUnknown, NamesOfRequest, 2, row);
                let row = SendOpen(Call::Struct(name_request(), 1), row);
                send_row(alloc, serializer, &row)
            }
        }
    }
}

impl<'de> TaggedVariants<'de> for Request {
    ghost name = { name "Request" };

    ghost tag_name = { name "op" };

    ghost refusal = { variants ((
      name "listen",
      (row_then (name "channel") (⟦<u16 as Deserialize<'de>>⟧.refusal)
          (others_left (name "op" ∷ name "channel" ∷ []))),
    )
        ∷ (name "quit", (others_left (name "op" ∷ [])))
        ∷ (name "unknown", (others_left (name "op" ∷ [])))
        ∷ []) };

    ghost named = { elim [
      | request.Listen x1 ↦ name "listen"
      | request.Quit ↦ name "quit"
      | request.Unknown ↦ name "unknown"
    ] };

    ghost held = { elim [
      | request.Listen x1 ↦ (RowThen (name "channel") (⟦<u16 as Deserialize<'de>>⟧.gives)
          x1
          NoOthers)
      | request.Quit ↦ NoOthers
      | request.Unknown ↦ NoOthers
    ] };

    #[tactic(auto, unfolding(serde_content::specs::Literals::name))]
    fn name() -> &'static str {
        "Request"
    }

    #[tactic(auto, unfolding(serde_content::specs::Literals::name))]
    fn tag() -> &'static str {
        "op"
    }

    fn read_variant<'n: 'de>(
        alloc: Global,
        tag: &str,
        fields: FieldsByName<'de, 'n>,
    ) -> Result<Request> {
        match variant_index(tag, &NamesOfRequest) {
            Some(0) => {
                let channel = read_request_listen(alloc, fields)?;
                Ok(Request::Listen { channel })
            }
            Some(1) => {
                let _: OthersSkipped<FieldsOfRequestQuit> = ReadFields::read(alloc, fields)?;
                Ok(Request::Quit)
            }
            Some(2) => {
                let _: OthersSkipped<FieldsOfRequestUnknown> = ReadFields::read(alloc, fields)?;
                Ok(Request::Unknown)
            }
            _ => {
                drop(fields);
                Err(no_such_variant(alloc, tag, &NamesOfRequest))
            }
        }
    }
}

impl<'de> Deserialize<'de> for Request {
    ghost refusal = { struct_refusal (name "Request")
        (read_by_name (tag_then_buffered (name "op")
        (λ tag. ⟦<Request as TaggedVariants<'de>>⟧.refusal
        (meant_among (name "listen" ∷ name "quit" ∷ name "unknown" ∷ []) (name "unknown")
        (meant (name "join" ∷ name "hear" ∷ []) (name "listen" ∷ name "listen" ∷ [])
        tag))))) };

    ghost gives = { λ s y. StructGives (name "Request") (ReadByName
        (TagThenBufferedBy (λ tag. (meant_among
        (name "listen" ∷ name "quit" ∷ name "unknown" ∷ []) (name "unknown")
        (meant (name "join" ∷ name "hear" ∷ []) (name "listen" ∷ name "listen" ∷ []) tag)))
        (name "op")
        (⟦<Request as TaggedVariants<'de>>⟧.named y)
        (⟦<Request as TaggedVariants<'de>>⟧.held y))) s };

    fn deserialize<'n: 'de>(alloc: Global, from: Deserializer<'de, 'n>) -> Result<Request> {
        read_tagged_by::<TagsOfRequest, Self>(alloc, from)
    }
}

/// The name `Grade`.
#[tactic(auto, unfolding(serde_content::specs::Literals::name))]
fn name_grade() -> &'static str
    ensures { result.now ≡ name "Grade" }
{
    "Grade"
}

/// The name `full`.
#[tactic(auto, unfolding(serde_content::specs::Literals::name))]
fn name_full() -> &'static str
    ensures { result.now ≡ name "full" }
{
    "full"
}

/// The name `quiet`.
#[tactic(auto, unfolding(serde_content::specs::Literals::name))]
fn name_quiet() -> &'static str
    ensures { result.now ≡ name "quiet" }
{
    "quiet"
}

/// The name `warn`.
#[tactic(auto, unfolding(serde_content::specs::Literals::name))]
fn name_warn() -> &'static str
    ensures { result.now ≡ name "warn" }
{
    "warn"
}

/// The name `other`.
#[tactic(auto, unfolding(serde_content::specs::Literals::name))]
fn name_other() -> &'static str
    ensures { result.now ≡ name "other" }
{
    "other"
}

/// The name `local`.
#[tactic(auto, unfolding(serde_content::specs::Literals::name))]
fn name_local() -> &'static str
    ensures { result.now ≡ name "local" }
{
    "local"
}

/// The name `Server`.
#[tactic(auto, unfolding(serde_content::specs::Literals::name))]
fn name_server() -> &'static str
    ensures { result.now ≡ name "Server" }
{
    "Server"
}

/// The name `plain`.
#[tactic(auto, unfolding(serde_content::specs::Literals::name))]
fn name_plain() -> &'static str
    ensures { result.now ≡ name "plain" }
{
    "plain"
}

/// The name `Extent`.
#[tactic(auto, unfolding(serde_content::specs::Literals::name))]
fn name_extent() -> &'static str
    ensures { result.now ≡ name "Extent" }
{
    "Extent"
}

/// The name `Task`.
#[tactic(auto, unfolding(serde_content::specs::Literals::name))]
fn name_task() -> &'static str
    ensures { result.now ≡ name "Task" }
{
    "Task"
}

/// The name `Sticker`.
#[tactic(auto, unfolding(serde_content::specs::Literals::name))]
fn name_sticker() -> &'static str
    ensures { result.now ≡ name "Sticker" }
{
    "Sticker"
}

/// The name `Way`.
#[tactic(auto, unfolding(serde_content::specs::Literals::name))]
fn name_way() -> &'static str
    ensures { result.now ≡ name "Way" }
{
    "Way"
}

/// The name `up`.
#[tactic(auto, unfolding(serde_content::specs::Literals::name))]
fn name_up() -> &'static str
    ensures { result.now ≡ name "up" }
{
    "up"
}

/// The name `Down`.
#[tactic(auto, unfolding(serde_content::specs::Literals::name))]
fn name_down() -> &'static str
    ensures { result.now ≡ name "Down" }
{
    "Down"
}

/// The name `Request`.
#[tactic(auto, unfolding(serde_content::specs::Literals::name))]
fn name_request() -> &'static str
    ensures { result.now ≡ name "Request" }
{
    "Request"
}
