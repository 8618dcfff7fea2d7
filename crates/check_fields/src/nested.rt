//! An expression, which may contain others.
//!
//! Written by `tools/derive` from `nested.rs`: change that file, and write this one anew.

ghost use Rattle.std.specs.Prelude.{◌≡◌, ◌∷◌, [], false, refl};
ghost use Rattle.content_ser.specs.Scripts.Sends.{Sends};
ghost use Rattle.content_ser.specs.Sending.Aside.{answer_of};
ghost use Rattle.content_ser.specs.Scripts.Own.{field_first, end_script, newtype_variant_script};
ghost use Rattle.content_ser.specs.Scripts.Own.{struct_variant_script};
ghost use Rattle.content_ser.specs.Laws.StandardScripts.{leaf_lawful};
ghost use Rattle.content_ser.specs.Laws.OwnScripts.{field_fits, struct_end_fits};
ghost use Rattle.content_ser.specs.Laws.OwnScripts.{newtype_variant_lawful, struct_variant_lawful};
ghost use Rattle.content_de.specs.Outcomes.{IsTaken};
ghost use Rattle.content_de.specs.Accesses.ByName.{fields_left};
ghost use Rattle.content_de.specs.Reads.Read.{Reads};
ghost use Rattle.content_de.specs.Reads.ByName.{read_by_name, ReadByName, NoOthers};
ghost use Rattle.content_de.specs.Reads.Own.{enum_refusal, EnumGives, newtype_variant_refusal};
ghost use Rattle.content_de.specs.Reads.Own.{NewtypeVariantGives, struct_variant_refusal};
ghost use Rattle.content_de.specs.Reads.Own.{StructVariantGives};
ghost use Rattle.serde_content.specs.Literals.{name, row_then, RowThen, others_left};
ghost use Rattle.serde_content.specs.Variants.{variants};
ghost use Rattle.content_de.specs.Outcomes.{refusal_then};
ghost use Rattle.content_de.specs.Accesses.Seq.{seq_at};
ghost use Rattle.content_de.specs.Reads.Read.{Refusal, Gives};
ghost use Rattle.content_de.specs.Reads.Standard.{seq_refusal, SeqGives};
ghost use Rattle.content_nested.specs.Nested.{Nested, seq_nested, told_by};
ghost use Rattle.content_nested.specs.Levels.{levels_of, most_levels};
ghost use Rattle.content_nested.specs.Within.{refuses_all, GivesNothing, refusals_within};
ghost use Rattle.content_nested.specs.Within.{gives_within};
ghost use Rattle.check_fields.specs.declared.nested.Expr.{Expr, fold-Expr, fold_out-Expr, map-Expr, out-Expr};
ghost use Rattle.check_fields.specs.declared.nested.Expr.TheOpen as expr;

use content_nested::{
    FieldsWithin, Inner, Levels, NestedField, Nests, ReadNested, ReadWithin, ReadsLevel,
    ReadsNested, ReadsWithin, SendNested, SendNestedField, Steps, Tells, Told, VariantsWithin,
};
use serde_content::de::{Deserialize, FieldsByName, VariantAccess};
use serde_content::derive_support::{
    Names, OthersSkipped, ReadField, SendEnd, SendField, SendOpen, no_such_variant, variant_index,
};
use serde_content::ser::{Call, Serialize, Serializer};
use serde_content::{Deserializer, Error, Result};
use std::alloc::Global;

/// An expression.
#[derive(Drop, Debug, PartialEq, Eq)]
pub enum Expr {
    /// A number.
    Number(u64),
    /// The opposite of another.
    Not(Box<Expr>),
    /// A call of a function.
    Call {
        /// Its name.
        name: String,
        /// What it is called with.
        with: Vec<Expr>,
    },
}

/// Sends its values.
fn send_whole_expr_number<S: Serializer>(
    alloc: Global,
    serializer: &mut S,
    error: &mut serde_content::Error,
    x1: &u64,
) -> serde_content::ser::Sent
    ensures { Sends S.step S.refuses (S.seen serializer.old)
        (newtype_variant_script (name "Expr") 0 (name "Number")
        (⟦<u64 as Serialize>⟧.script x1.now))
        (answer_of result error.new) (S.seen serializer.new) }
{
    content_nested::send_around(
        Call::NewtypeVariant(name_expr(), 0, name_number()),
        x1,
        alloc,
        serializer,
        error,
    )
}

/// Sends its values.
fn send_whole_expr_not<S: Serializer, Inner1: SendNested>(
    alloc: Global,
    serializer: &mut S,
    error: &mut serde_content::Error,
    x1: &Inner1,
) -> serde_content::ser::Sent
    ensures { Sends S.step S.refuses (S.seen serializer.old)
        (newtype_variant_script (name "Expr") 1 (name "Not")
        (Inner1.nested (Inner1.layer x1.now)).script)
        (answer_of result error.new) (S.seen serializer.new) }
{
    content_nested::send_around(
        Call::NewtypeVariant(name_expr(), 1, name_not()),
        &Inner(x1),
        alloc,
        serializer,
        error,
    )
}

/// The names of its fields.
#[derive(Drop)]
struct FieldsOfExprCall;

impl Names for FieldsOfExprCall {
    ghost names = { name "name" ∷ name "with" ∷ [] };

    #[tactic(auto, unfolding(serde_content::specs::Literals::name))]
    fn names() -> &'static [&'static str] {
        &["name", "with"]
    }
}

/// Sends its values.
fn send_whole_expr_call<S: Serializer, Inner2: SendNested>(
    alloc: Global,
    serializer: &mut S,
    error: &mut serde_content::Error,
    x1: &String,
    x2: &Inner2,
) -> serde_content::ser::Sent
    ensures { Sends S.step S.refuses (S.seen serializer.old)
        (struct_variant_script (name "Expr") 2 (name "Call") 2
        (field_first (name "name") (⟦<String as Serialize>⟧.script x1.now)
        (field_first (name "with") (Inner2.nested (Inner2.layer x2.now)).script
        end_script)))
        (answer_of result error.new) (S.seen serializer.new) }
{
    let row = SendEnd;
    let row = SendNestedField(FieldsOfExprCall, 1, x2, row);
    let row = SendField(FieldsOfExprCall, 0, x1, row);
    let row = SendOpen(Call::StructVariant(name_expr(), 2, name_call(), 2), row);
    content_nested::send_row_aside(&row, alloc, serializer, error)
}

type Field1OfExprCall = ReadField<FieldsOfExprCall, 0, String, Field2OfExprCall>;

type Field2OfExprCall = NestedField<
    FieldsOfExprCall,
    1,
    Vec<Expr>,
    OthersSkipped<FieldsOfExprCall>,
>;

/// Reads the fields, in any order.
fn read_expr_call<'de, 'n: 'de, Below>(
    levels: &Box<Below>,
    alloc: Global,
    fields: FieldsByName<'de, 'n>,
) -> Result<(String, Vec<Expr>)>
where
    Box<Below>: ReadWithin<'de, Expr>,
    ensures { Reads (
        (row_then (name "name") (⟦<String as Deserialize<'de>>⟧.refusal)
        (row_then (name "with") (⟦<Box<Below> as ReadsWithin<'de, Vec<Expr>>>⟧.refusal
        levels.now)
        (others_left (name "name" ∷ name "with" ∷ []))))
        (fields_left fields.entry))
        (λ z.
        (RowThen (name "name") (⟦<String as Deserialize<'de>>⟧.gives) z.0
        (RowThen (name "with") (⟦<Box<Below> as ReadsWithin<'de, Vec<Expr>>>⟧.gives
        levels.now) z.1
        NoOthers))
        (fields_left fields.entry)) result }
{
    let row: Field1OfExprCall = FieldsWithin::read_fields(levels, alloc, fields)?;
    let ReadField(x1, row, _) = row;
    let NestedField(x2, _, _) = row;
    Ok((x1, x2))
}

/// The names of its variants.
#[derive(Drop)]
struct NamesOfExpr;

impl Names for NamesOfExpr {
    ghost names = { name "Number" ∷ name "Not" ∷ name "Call" ∷ [] };

    #[tactic(auto, unfolding(serde_content::specs::Literals::name))]
    fn names() -> &'static [&'static str] {
        &["Number", "Not", "Call"]
    }
}

impl Steps for Expr {
    ghost Filled = { expr.Expr-F Nested };

    ghost step = { λ l. elim l [
      | expr.Number x1 ↦ record {
        script = newtype_variant_script (name "Expr") 0 (name "Number")
            (⟦<u64 as Serialize>⟧.script x1);
        lawful = λ readable. newtype_variant_lawful (leaf_lawful refl);
      }
      | expr.Not x1 ↦ record {
        script = newtype_variant_script (name "Expr") 1 (name "Not") x1.value.script;
        lawful = λ readable. newtype_variant_lawful (x1.value.lawful readable);
      }
      | expr.Call x1 x2 ↦ record {
        script = struct_variant_script (name "Expr") 2 (name "Call") 2
            (field_first (name "name") (⟦<String as Serialize>⟧.script x1)
            (field_first (name "with") (seq_nested (λ y. y) x2.items).script
            end_script));
        lawful = λ readable. struct_variant_lawful
            (field_fits (leaf_lawful refl)
            (field_fits ((seq_nested (λ y. y) x2.items).lawful readable)
            struct_end_fits));
      }
    ] };
}

impl Nests for Expr {
    ghost Layer = { Nested };

    ghost layer = { λ y. fold-Expr Nested ⟦<Expr as Steps>⟧.step y };

    ghost nested = { λ n. n };

    ghost is_empty = { λ n. false };
}

impl Told for Expr {
    ghost Level = { expr.Expr-F Expr };

    ghost level = { λ y. out-Expr y };

    ghost told = { λ l. elim l [
      | expr.Number x1 ↦ newtype_variant_script (name "Expr") 0 (name "Number")
          (⟦<u64 as Serialize>⟧.script x1)
      | expr.Not x1 ↦ newtype_variant_script (name "Expr") 1 (name "Not")
          (⟦<Box<Expr> as Nests>⟧.nested (⟦<Box<Expr> as Nests>⟧.layer x1)).script
      | expr.Call x1 x2 ↦ struct_variant_script (name "Expr") 2 (name "Call") 2
          (field_first (name "name") (⟦<String as Serialize>⟧.script x1)
          (field_first (name "with") (⟦<Vec<Expr> as Nests>⟧.nested
          (⟦<Vec<Expr> as Nests>⟧.layer x2)).script
          end_script))
    ] };
}

impl Tells for Expr {
    ghost is_told = { λ y. told_by (fold_out-Expr Nested ⟦<Expr as Steps>⟧.step y)
        (elim (out-Expr y) as (λ l. (⟦<Expr as Steps>⟧.step
        (map-Expr Expr Nested (fold-Expr Nested ⟦<Expr as Steps>⟧.step) l)).script ≡
        ⟦<Expr as Told>⟧.told l) [
          | expr.Number x1 ↦ refl
          | expr.Not x1 ↦ refl
          | expr.Call x1 x2 ↦ refl
        ]) };
}

impl SendNested for Expr {
    fn send_nested<S: Serializer>(
        &self,
        alloc: Global,
        serializer: &mut S,
        error: &mut serde_content::Error,
    ) -> serde_content::ser::Sent {
        content_nested::tell(self);
        match self {
            Expr::Number(x1) => send_whole_expr_number(alloc, serializer, error, x1),
            Expr::Not(x1) => send_whole_expr_not(alloc, serializer, error, x1),
            Expr::Call { name: x1, with: x2 } => {
                send_whole_expr_call(alloc, serializer, error, x1, x2)
            }
        }
    }
}

impl Serialize for Expr {
    ghost script = { λ y. (⟦<Expr as Nests>⟧.layer y).script };

    ghost lawful = { λ y readable. (⟦<Expr as Nests>⟧.layer y).lawful readable };

    fn serialize<S: Serializer>(&self, alloc: Global, serializer: &mut S) -> Result<()> {
        content_nested::send_nested(self, alloc, serializer)
    }

    fn serialize_aside<S: Serializer>(
        &self,
        alloc: Global,
        serializer: &mut S,
        error: &mut serde_content::Error,
    ) -> serde_content::ser::Sent {
        self.send_nested(alloc, serializer, error)
    }
}

impl<'de> ReadsLevel<'de> for Expr {
    ghost level_refusal = { λ r. enum_refusal (name "Expr") (variants (
        (name "Number", newtype_variant_refusal (⟦<u64 as Deserialize<'de>>⟧.refusal))
        ∷ (name "Not", newtype_variant_refusal r)
        ∷ (
          name "Call",
          struct_variant_refusal (read_by_name
              (row_then (name "name") (⟦<String as Deserialize<'de>>⟧.refusal)
              (row_then (name "with") (λ s. refusal_then (seq_at s) (seq_refusal r))
              (others_left (name "name" ∷ name "with" ∷ []))))),
        )
        ∷ [])) };

    ghost level_gives = { λ g. λ s y. EnumGives (name "Expr")
        (elim (out-Expr y) [
          | expr.Number x1 ↦ name "Number"
          | expr.Not x1 ↦ name "Not"
          | expr.Call x1 x2 ↦ name "Call"
        ])
        (elim (out-Expr y) [
          | expr.Number x1 ↦ NewtypeVariantGives (⟦<u64 as Deserialize<'de>>⟧.gives) x1
          | expr.Not x1 ↦ NewtypeVariantGives (λ s b. g s b.value) x1
          | expr.Call x1 x2 ↦ StructVariantGives (ReadByName
              (RowThen (name "name") (⟦<String as Deserialize<'de>>⟧.gives) x1
              (RowThen (name "with") (λ s v. IsTaken (seq_at s) (λ left. SeqGives g left v.items))
              x2
              NoOthers)))
        ]) s };
}

impl<'de> ReadsNested<'de> for Expr {
    ghost refusal_in = { λ n. refusals_within {R = Refusal} refuses_all
        ⟦<Expr as ReadsLevel<'de>>⟧.level_refusal n };

    ghost gives_in = { λ n. gives_within {G = Gives Expr} GivesNothing
        ⟦<Expr as ReadsLevel<'de>>⟧.level_gives n };
}

impl<'de> ReadsWithin<'de, Expr> for Levels {
    ghost refusal = { λ l. ⟦<Expr as ReadsNested<'de>>⟧.refusal_in (levels_of l) };

    ghost gives = { λ l. ⟦<Expr as ReadsNested<'de>>⟧.gives_in (levels_of l) };
}

impl<'de, Below: ReadsWithin<'de, Expr>> ReadsWithin<'de, Expr> for Box<Below> {
    ghost refusal = { λ l. Below.refusal l.value };

    ghost gives = { λ l. Below.gives l.value };
}

impl<'de, Below: ReadWithin<'de, Expr>> ReadWithin<'de, Expr> for Box<Below> {
    fn read_within<'n: 'de>(&self, alloc: Global, from: Deserializer<'de, 'n>) -> Result<Expr> {
        Below::read_within(&**self, alloc, from)
    }
}

impl<'de, Below> VariantsWithin<'de, Box<Below>> for Expr
where
    Box<Below>: ReadWithin<'de, Expr>,
{
    ghost name = { name "Expr" };

    ghost refusal = { λ l. variants (
        (name "Number", newtype_variant_refusal (⟦<u64 as Deserialize<'de>>⟧.refusal))
        ∷ (
          name "Not",
          newtype_variant_refusal
              (⟦<Box<Below> as ReadsWithin<'de, Box<Expr>>>⟧.refusal l),
        )
        ∷ (
          name "Call",
          struct_variant_refusal (read_by_name
              (row_then (name "name") (⟦<String as Deserialize<'de>>⟧.refusal)
              (row_then (name "with") (⟦<Box<Below> as ReadsWithin<'de, Vec<Expr>>>⟧.refusal l)
              (others_left (name "name" ∷ name "with" ∷ []))))),
        )
        ∷ []) };

    ghost named = { λ y. elim (out-Expr y) [
      | expr.Number x1 ↦ name "Number"
      | expr.Not x1 ↦ name "Not"
      | expr.Call x1 x2 ↦ name "Call"
    ] };

    ghost held = { λ l y. elim (out-Expr y) [
      | expr.Number x1 ↦ NewtypeVariantGives (⟦<u64 as Deserialize<'de>>⟧.gives) x1
      | expr.Not x1 ↦ NewtypeVariantGives
          (⟦<Box<Below> as ReadsWithin<'de, Box<Expr>>>⟧.gives l) x1
      | expr.Call x1 x2 ↦ StructVariantGives (ReadByName
          (RowThen (name "name") (⟦<String as Deserialize<'de>>⟧.gives) x1
          (RowThen (name "with") (⟦<Box<Below> as ReadsWithin<'de, Vec<Expr>>>⟧.gives l) x2
          NoOthers)))
    ] };

    #[tactic(auto, unfolding(serde_content::specs::Literals::name))]
    fn name() -> &'static str {
        "Expr"
    }

    fn names() -> &'static [&'static str] {
        NamesOfExpr::names()
    }

    fn read_variant<'n: 'de>(
        levels: &Box<Below>,
        alloc: Global,
        tag: &str,
        variant: VariantAccess<'de, 'n>,
    ) -> Result<Expr> {
        match variant_index(tag, &NamesOfExpr) {
            Some(0) => Ok(Expr::Number(variant.newtype_variant(alloc)?)),
            Some(1) => {
                Ok(Expr::Not(content_nested::newtype_within::<Box<Expr>, Box<Below>>(
                    levels, alloc, variant,
                )?))
            }
            Some(2) => {
                let fields = variant
                    .struct_variant(alloc, FieldsOfExprCall::names())?
                    .by_name();
                let (x1, x2) = read_expr_call(levels, alloc, fields)?;
                Ok(Expr::Call { name: x1, with: x2 })
            }
            _ => {
                drop(variant);
                Err(no_such_variant(alloc, tag, &NamesOfExpr))
            }
        }
    }
}

impl<'de> ReadWithin<'de, Expr> for Levels {
    fn read_within<'n: 'de>(&self, alloc: Global, from: Deserializer<'de, 'n>) -> Result<Expr> {
        match self {
            Levels::Out => Err(content_nested::too_deep(alloc)),
            Levels::More(levels) => content_nested::read_enum_within(levels, alloc, from),
        }
    }
}

impl<'de> ReadNested<'de> for Expr {
    fn read_levels<'n: 'de>(
        levels: &Levels,
        alloc: Global,
        from: Deserializer<'de, 'n>,
    ) -> Result<Expr> {
        levels.read_within(alloc, from)
    }
}

impl<'de> Deserialize<'de> for Expr {
    ghost refusal = { ⟦<Expr as ReadsNested<'de>>⟧.refusal_in most_levels };

    ghost gives = { ⟦<Expr as ReadsNested<'de>>⟧.gives_in most_levels };

    fn deserialize<'n: 'de>(alloc: Global, from: Deserializer<'de, 'n>) -> Result<Expr> {
        content_nested::read_nested(alloc, from)
    }
}

/// The name `Expr`.
#[tactic(auto, unfolding(serde_content::specs::Literals::name))]
fn name_expr() -> &'static str
    ensures { result.now ≡ name "Expr" }
{
    "Expr"
}

/// The name `Number`.
#[tactic(auto, unfolding(serde_content::specs::Literals::name))]
fn name_number() -> &'static str
    ensures { result.now ≡ name "Number" }
{
    "Number"
}

/// The name `Not`.
#[tactic(auto, unfolding(serde_content::specs::Literals::name))]
fn name_not() -> &'static str
    ensures { result.now ≡ name "Not" }
{
    "Not"
}

/// The name `Call`.
#[tactic(auto, unfolding(serde_content::specs::Literals::name))]
fn name_call() -> &'static str
    ensures { result.now ≡ name "Call" }
{
    "Call"
}
