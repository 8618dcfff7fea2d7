//! What tells variants apart otherwise: a field, or what they hold.
//!
//! Written by `tools/derive` from `choices.rs`: change that file, and write this one anew.

ghost use Rattle.std.specs.Prelude.{◌≡◌, ◌∷◌, [], ℕ, ℤ, Option, None, Some, IsSome, true, codes};
ghost use Rattle.std.specs.Prelude.{refl, ⊤};
ghost use Rattle.content_tree.specs.Errors.Cause.{custom};
ghost use Rattle.content_ser.specs.Scripts.Sends.{Sends};
ghost use Rattle.content_ser.specs.Scripts.Standard.{tuple_script, element_first};
ghost use Rattle.content_ser.specs.Scripts.Own.{field_first, end_script};
ghost use Rattle.content_ser.specs.Laws.StandardScripts.{leaf_lawful, option_lawful, seq_lawful};
ghost use Rattle.content_ser.specs.Laws.StandardScripts.{tuple_lawful, element_fits, end_fits};
ghost use Rattle.content_ser.specs.Laws.OwnScripts.{field_fits, struct_end_fits, struct_lawful};
ghost use Rattle.content_de.specs.Sources.Origin.{tree_under, in_buffer, buffering};
ghost use Rattle.content_de.specs.Accesses.ByName.{fields_left};
ghost use Rattle.content_de.specs.Reads.Read.{Reads};
ghost use Rattle.content_de.specs.Reads.Attempts.{IsTakenAs, or_next};
ghost use Rattle.content_de.specs.Reads.ByName.{read_by_name, ReadByName, NoOthers};
ghost use Rattle.content_de.specs.Reads.Tagged.{tag_then_buffered, TagThenBuffered};
ghost use Rattle.content_de.specs.Reads.Own.{struct_refusal, StructGives};
ghost use Rattle.serde_content.specs.Literals.{name, row_then, row_or_then, RowThen, RowOrThen};
ghost use Rattle.serde_content.specs.Literals.{others_left};
ghost use Rattle.serde_content.specs.Variants.{index_among, variants};
ghost use Rattle.serde_content.specs.RoundTrip.{ComesBack};
ghost use Rattle.serde_content.specs.Laws.Leaves.{bool_back, text_back, u8_back, i32_back};
ghost use Rattle.serde_content.specs.Laws.Holders.{option_back};
ghost use Rattle.serde_content.specs.Laws.Series.{both_hold, element_back, tuple_back, parts_end};
ghost use Rattle.serde_content.specs.Laws.Records.{struct_keeps};
ghost use Rattle.serde_content.specs.Laws.ByName.{named_back, named_or_back, skipped_back};
ghost use Rattle.serde_content.specs.Laws.ByName.{by_name_keeps};
ghost use Rattle.serde_content.specs.Laws.Tagged.{tagged_script, tagged_back, tag_keeps_buffered};
ghost use Rattle.serde_content.specs.Laws.Untagged.{such_seen, first_taken, later_taken};
ghost use Rattle.serde_content.specs.Laws.Untagged.{taken_by_one, not_refused, bool_takes};
ghost use Rattle.serde_content.specs.Laws.Untagged.{number_takes, text_takes, tuple_takes};
ghost use Rattle.serde_content.specs.Laws.Untagged.{tuple_counts, part_counts, parts_end_counts};
ghost use Rattle.serde_content.specs.Laws.Variants.{other_variant};
ghost use Rattle.content_cbor.specs.Decoded.{read_in, flags_in};
ghost use Rattle.content_cbor.specs.Form.{form};
ghost use Rattle.content_cbor.specs.Typed.Kept.{FormComesBack};
ghost use Rattle.content_cbor.specs.Typed.Leaves.{bool_kept, text_kept, u8_kept, i32_kept};
ghost use Rattle.content_cbor.specs.Typed.Leaves.{number_not_null};
ghost use Rattle.content_cbor.specs.Typed.Holders.{option_kept};
ghost use Rattle.content_cbor.specs.Typed.Series.{element_kept, tuple_kept, parts_end_kept};
ghost use Rattle.content_cbor.specs.Typed.ByName.{named_kept, named_or_kept, skipped_kept};
ghost use Rattle.content_cbor.specs.Typed.Tagged.{tagged_kept};
ghost use Rattle.content_tree.specs.Values.Ranges as kind;
ghost use Rattle.check_derive.specs.declared.choices.Command.TheVariants as command;
ghost use Rattle.check_derive.specs.declared.choices.Setting.TheVariants as setting;
ghost use Rattle.check_derive.specs.declared.choices.Steps.TheVariants as steps;
ghost use Rattle.check_derive.specs.declared.choices.Color.TheVariants as color;

use content_cbor::{CborRoundTrip, NotNull};
use serde_content::de::{Deserialize, FieldsByName};
use serde_content::derive_support::{
    Names, OneOfFour, OneOfTwo, OthersSkipped, ReadField, ReadFieldOr, ReadFields, SendElement,
    SendEnd, SendField, SendOpen, SendTag, TaggedVariants, first_of_four, first_of_two,
    no_such_variant, read_tagged, send_row, variant_index,
};
use serde_content::ser::{Call, Serialize, Serializer};
use serde_content::{Deserializer, Result, RoundTrip};
use std::alloc::Global;

/// A command, told by the field `kind`.
#[derive(Drop, PartialEq, Eq)]
pub enum Command {
    /// No data.
    Stop,
    /// There.
    Move {
        /// To the right.
        x: i32,
        /// Upwards, or not at all.
        y: Option<i32>,
    },
}

/// The names of its fields.
#[derive(Drop)]
struct FieldsOfCommandStop;

impl Names for FieldsOfCommandStop {
    ghost names = { name "kind" ∷ [] };

    #[tactic(auto, unfolding(serde_content::specs::Literals::name))]
    fn names() -> &'static [&'static str] {
        &["kind"]
    }
}

/// Its contract tells proofs what a variant of signed numbers holds.
fn make_command_move(x: i32, y: Option<i32>) -> Command
    ensures { result ≡ command.Move x y }
{
    Command::Move { x, y }
}

/// The names of its fields.
#[derive(Drop)]
struct FieldsOfCommandMove;

impl Names for FieldsOfCommandMove {
    ghost names = { name "kind" ∷ name "x" ∷ name "y" ∷ [] };

    #[tactic(auto, unfolding(serde_content::specs::Literals::name))]
    fn names() -> &'static [&'static str] {
        &["kind", "x", "y"]
    }
}

/// Sends that variant.
fn send_whole_command_move<S: Serializer>(
    alloc: Global,
    serializer: &mut S,
    whole: &Command,
    x: &i32,
    y: &Option<i32>,
) -> Result<()>
    requires { whole.now ≡ command.Move x.now y.now }
    ensures { Sends S.step S.refuses (S.seen serializer.old)
        (⟦<Command as Serialize>⟧.script whole.now)
        result (S.seen serializer.new) }
{
    let row = SendEnd;
    let row = SendField(FieldsOfCommandMove, 2, y, row);
    let row = SendField(FieldsOfCommandMove, 1, x, row);
    let row = SendTag(FieldsOfCommandMove, NamesOfCommand, 1, row);
    let row = SendOpen(Call::Struct(name_command(), 3), row);
    send_row(alloc, serializer, &row)
}

type Field1OfCommandMove = ReadField<FieldsOfCommandMove, 1, i32, Field2OfCommandMove>;

type Field2OfCommandMove = ReadFieldOr<
    FieldsOfCommandMove,
    2,
    Option<i32>,
    OthersSkipped<FieldsOfCommandMove>,
>;

/// Reads the fields, in any order.
fn read_command_move<'de, 'n: 'de>(
    alloc: Global,
    fields: FieldsByName<'de, 'n>,
) -> Result<(i32, Option<i32>)>
    ensures { Reads (
        (row_then (name "x") (⟦<i32 as Deserialize<'de>>⟧.refusal)
        (row_or_then (name "y") (⟦<Option<i32> as Deserialize<'de>>⟧.refusal)
        (others_left (name "kind" ∷ name "x" ∷ name "y" ∷ []))))
        (fields_left fields.entry))
        (λ z.
        (RowThen (name "x") (⟦<i32 as Deserialize<'de>>⟧.gives) z.0
        (RowOrThen (name "y") (λ (x : (Option ℤ)). x ≡ None)
        (⟦<Option<i32> as Deserialize<'de>>⟧.gives) z.1
        NoOthers))
        (fields_left fields.entry)) result }
{
    let row: Field1OfCommandMove = ReadFields::read(alloc, fields)?;
    let ReadField(x, row, _) = row;
    let ReadFieldOr(y, _, _) = row;
    Ok((x, y))
}

/// The names of its variants.
#[derive(Drop)]
struct NamesOfCommand;

impl Names for NamesOfCommand {
    ghost names = { name "stop" ∷ name "move" ∷ [] };

    #[tactic(auto, unfolding(serde_content::specs::Literals::name))]
    fn names() -> &'static [&'static str] {
        &["stop", "move"]
    }
}

impl Serialize for Command {
    ghost script = { elim [
      | command.Stop ↦ tagged_script (name "Command") 1 (name "kind") (name "stop")
          end_script
      | command.Move x1 x2 ↦ tagged_script (name "Command") 3 (name "kind") (name "move")
          (field_first (name "x") (⟦<i32 as Serialize>⟧.script x1)
          (field_first (name "y") (⟦<Option<i32> as Serialize>⟧.script x2)
          end_script))
    ] };

    ghost lawful = { elim [
      | command.Stop ↦ λ readable. struct_lawful
          (field_fits (leaf_lawful refl)
          struct_end_fits)
      | command.Move x1 x2 ↦ λ readable. struct_lawful
          (field_fits (leaf_lawful refl)
          (field_fits (leaf_lawful refl)
          (field_fits (option_lawful (λ x h. leaf_lawful refl) x2 readable)
          struct_end_fits)))
    ] };

    fn serialize<S: Serializer>(&self, alloc: Global, serializer: &mut S) -> Result<()> {
        match self {
            Command::Stop => {
                let row = SendEnd;
                let row = SendTag(FieldsOfCommandStop, NamesOfCommand, 0, row);
                let row = SendOpen(Call::Struct(name_command(), 1), row);
                send_row(alloc, serializer, &row)
            }
            Command::Move { x, y } => send_whole_command_move(alloc, serializer, self, x, y),
        }
    }
}

impl<'de> TaggedVariants<'de> for Command {
    ghost name = { name "Command" };

    ghost tag_name = { name "kind" };

    ghost refusal = { variants (
        (name "stop", (others_left (name "kind" ∷ [])))
        ∷ (
          name "move",
          (row_then (name "x") (⟦<i32 as Deserialize<'de>>⟧.refusal)
              (row_or_then (name "y") (⟦<Option<i32> as Deserialize<'de>>⟧.refusal)
              (others_left (name "kind" ∷ name "x" ∷ name "y" ∷ [])))),
        )
        ∷ []) };

    ghost named = { elim [
      | command.Stop ↦ name "stop"
      | command.Move x1 x2 ↦ name "move"
    ] };

    ghost held = { elim [
      | command.Stop ↦ NoOthers
      | command.Move x1 x2 ↦ (RowThen (name "x") (⟦<i32 as Deserialize<'de>>⟧.gives) x1
          (RowOrThen (name "y") (λ (x : (Option ℤ)). x ≡ None)
          (⟦<Option<i32> as Deserialize<'de>>⟧.gives) x2
          NoOthers))
    ] };

    #[tactic(auto, unfolding(serde_content::specs::Literals::name))]
    fn name() -> &'static str {
        "Command"
    }

    #[tactic(auto, unfolding(serde_content::specs::Literals::name))]
    fn tag() -> &'static str {
        "kind"
    }

    #[tactic(auto, unfolding(serde_content::specs::Literals::row_then, serde_content::specs::Literals::RowThen, serde_content::specs::Literals::row_or_then, serde_content::specs::Literals::RowOrThen))]
    fn read_variant<'n: 'de>(
        alloc: Global,
        tag: &str,
        fields: FieldsByName<'de, 'n>,
    ) -> Result<Command> {
        match variant_index(tag, &NamesOfCommand) {
            Some(0) => {
                let _: OthersSkipped<FieldsOfCommandStop> = ReadFields::read(alloc, fields)?;
                Ok(Command::Stop)
            }
            Some(1) => {
                let (x, y) = read_command_move(alloc, fields)?;
                Ok(make_command_move(x, y))
            }
            _ => {
                drop(fields);
                Err(no_such_variant(alloc, tag, &NamesOfCommand))
            }
        }
    }
}

impl<'de> Deserialize<'de> for Command {
    ghost refusal = { struct_refusal (name "Command")
        (read_by_name (tag_then_buffered (name "kind")
        ⟦<Command as TaggedVariants<'de>>⟧.refusal)) };

    ghost gives = { λ s y. StructGives (name "Command") (ReadByName
        (TagThenBuffered (name "kind")
        (⟦<Command as TaggedVariants<'de>>⟧.named y)
        (⟦<Command as TaggedVariants<'de>>⟧.held y))) s };

    fn deserialize<'n: 'de>(alloc: Global, from: Deserializer<'de, 'n>) -> Result<Command> {
        read_tagged(alloc, from)
    }
}

impl<'de> RoundTrip<'de> for Command {
    ghost exists = { elim [
      | command.Stop ↦ ⊤
      | command.Move x1 x2 ↦ ⟦<Option<i32> as RoundTrip<'de>>⟧.exists x2
    ] };

    fn known(&self) {
        match self {
            Command::Stop => {}
            Command::Move { x: _, y } => {
                y.known();
            }
        }
    }

    ghost comes_back = { record {
      of_value = elim [
        | command.Stop ↦ λ real f. tagged_back Self.refusal Self.gives
            (skipped_back {Y = Unit {0}} (name "kind" ∷ []))
            f (buffering f) refl (unfold name index_among in λ fs. refl)
            (unfold name index_among in λ fs only. elim [
              | command.Stop ↦ λ it. refl
              | command.Move y1 y2 ↦ λ it. other_variant it.0 refl
            ])
        | command.Move x1 x2 ↦ λ real f. tagged_back Self.refusal Self.gives
            (named_back (name "x") i32_back x1 tt (λ (z : ℤ × (Option ℤ)). z.0)
            (named_or_back (name "y") (λ (x : (Option ℤ)). x ≡ None)
            (let law : ComesBack (⟦<Option<i32> as RoundTrip<'de>>⟧.exists)
            (⟦<Option<i32> as Serialize>⟧.script) (⟦<Option<i32> as Deserialize<'de>>⟧.refusal)
            (⟦<Option<i32> as Deserialize<'de>>⟧.gives) (⟦<Option<i32> as PartialEq>⟧.eq) =
            (option_back i32_back) in law) x2 real (λ (z : ℤ × (Option ℤ)). z.1)
            (skipped_back (name "kind" ∷ name "x" ∷ name "y" ∷ []))))
            f (buffering f) refl (unfold name index_among in λ fs. refl)
            (unfold name index_among in λ fs only. elim [
              | command.Stop ↦ λ it. other_variant it.0 refl
              | command.Move y1 y2 ↦ λ it. let same = only (y1, y2) it.1 in both_hold same.0
                  same.1.0
            ])
      ];
    } };

    ghost keeps = { record {
      of_origin = λ o people. elim [
        | command.Stop ↦ λ p.
            let q = (struct_keeps (name "Command") (by_name_keeps
            (tag_keeps_buffered (name "kind") (name "stop")
            ⟦<Command as TaggedVariants<'de>>⟧.refusal
            (λ (z : Unit {0}).
            NoOthers)))).of_origin o people tt
            (record { free = p.free; given = p.given }) in
            record { free = q.free; given = q.given }
        | command.Move x1 x2 ↦ λ p.
            let q = (struct_keeps (name "Command") (by_name_keeps
            (tag_keeps_buffered (name "kind") (name "move")
            ⟦<Command as TaggedVariants<'de>>⟧.refusal
            (λ (z : ℤ × (Option ℤ)).
            (RowThen (name "x") (⟦<i32 as Deserialize<'de>>⟧.gives) z.0
            (RowOrThen (name "y") (λ (x : (Option ℤ)). x ≡ None)
            (⟦<Option<i32> as Deserialize<'de>>⟧.gives) z.1
            NoOthers)))))).of_origin o people (x1, x2)
            (record { free = p.free; given = p.given }) in
            record { free = q.free; given = q.given }
      ];
    } };
}

impl<'de> CborRoundTrip<'de> for Command {
    ghost kept = { record {
      of_value = elim [
        | command.Stop ↦ λ real. tagged_kept Self.refusal Self.gives
            (skipped_kept {Y = Unit {0}} (name "kind" ∷ []))
            (λ b. true) (unfold name index_among in λ b fs. refl)
            (unfold name index_among in λ b fs only. elim [
              | command.Stop ↦ λ it. refl
              | command.Move y1 y2 ↦ λ it. other_variant it.0 refl
            ])
        | command.Move x1 x2 ↦ λ real. tagged_kept Self.refusal Self.gives
            (named_kept (name "x") i32_kept x1 tt (λ (z : ℤ × (Option ℤ)). z.0)
            (named_or_kept (name "y") (λ (x : (Option ℤ)). x ≡ None)
            (let law : FormComesBack (⟦<Option<i32> as RoundTrip<'de>>⟧.exists)
            (⟦<Option<i32> as Serialize>⟧.script) (⟦<Option<i32> as Deserialize<'de>>⟧.refusal)
            (⟦<Option<i32> as Deserialize<'de>>⟧.gives) (⟦<Option<i32> as PartialEq>⟧.eq) =
            (option_kept (number_not_null kind.i32) i32_kept) in law) x2 real
            (λ (z : ℤ × (Option ℤ)). z.1)
            (skipped_kept (name "kind" ∷ name "x" ∷ name "y" ∷ []))))
            (λ b. true) (unfold name index_among in λ b fs. refl)
            (unfold name index_among in λ b fs only. elim [
              | command.Stop ↦ λ it. other_variant it.0 refl
              | command.Move y1 y2 ↦ λ it. let same = only (y1, y2) it.1 in both_hold same.0
                  same.1.0
            ])
      ];
    } };
}

impl<'de> NotNull<'de> for Command {
    ghost refuses_null = { record { of_null = λ b e. absurd (cc e) } };
}

/// A setting, told by what it is.
#[derive(Drop, PartialEq, Eq)]
pub enum Setting {
    /// On or off.
    Flag(bool),
    /// How much.
    Level(i32),
    /// From and to.
    Range(u8, u8),
    /// What it is called.
    Name(String),
}

/// Its contract tells proofs what a variant of signed numbers holds.
fn make_setting_level(x1: i32) -> Setting
    ensures { result ≡ setting.Level x1 }
{
    Setting::Level(x1)
}

/// Sends that variant.
fn send_whole_setting_range<S: Serializer>(
    alloc: Global,
    serializer: &mut S,
    whole: &Setting,
    x1: &u8,
    x2: &u8,
) -> Result<()>
    requires { whole.now ≡ setting.Range x1.now x2.now }
    ensures { Sends S.step S.refuses (S.seen serializer.old)
        (⟦<Setting as Serialize>⟧.script whole.now)
        result (S.seen serializer.new) }
{
    let row = SendEnd;
    let row = SendElement(x2, row);
    let row = SendElement(x1, row);
    let row = SendOpen(Call::Tuple(2), row);
    send_row(alloc, serializer, &row)
}

impl Serialize for Setting {
    ghost script = { elim [
      | setting.Flag x1 ↦ ⟦<bool as Serialize>⟧.script x1
      | setting.Level x1 ↦ ⟦<i32 as Serialize>⟧.script x1
      | setting.Range x1 x2 ↦ tuple_script 2
          (element_first (⟦<u8 as Serialize>⟧.script x1)
          (element_first (⟦<u8 as Serialize>⟧.script x2)
          end_script))
      | setting.Name x1 ↦ ⟦<String as Serialize>⟧.script x1
    ] };

    ghost lawful = { elim [
      | setting.Flag x1 ↦ λ readable. leaf_lawful refl
      | setting.Level x1 ↦ λ readable. leaf_lawful refl
      | setting.Range x1 x2 ↦ λ readable. tuple_lawful
          (element_fits (leaf_lawful refl)
          (element_fits (leaf_lawful refl)
          end_fits))
      | setting.Name x1 ↦ λ readable. leaf_lawful refl
    ] };

    fn serialize<S: Serializer>(&self, alloc: Global, serializer: &mut S) -> Result<()> {
        match self {
            Setting::Flag(x1) => x1.serialize(alloc, serializer),
            Setting::Level(x1) => x1.serialize(alloc, serializer),
            Setting::Range(x1, x2) => send_whole_setting_range(alloc, serializer, self, x1, x2),
            Setting::Name(x1) => x1.serialize(alloc, serializer),
        }
    }
}

impl<'de> Deserialize<'de> for Setting {
    ghost refusal = { λ s.
        (or_next (⟦<bool as Deserialize<'de>>⟧.refusal (in_buffer s))
        (or_next (⟦<i32 as Deserialize<'de>>⟧.refusal (in_buffer s))
        (or_next (⟦<(u8, u8) as Deserialize<'de>>⟧.refusal (in_buffer s))
        (or_next (⟦<String as Deserialize<'de>>⟧.refusal (in_buffer s))
        (Some (custom (codes "data did not match any variant of untagged enum Setting"))))))) };

    ghost gives = { λ s. elim [
      | setting.Flag x1 ↦ IsTakenAs (⟦<bool as Deserialize<'de>>⟧.refusal (in_buffer s))
          (⟦<bool as Deserialize<'de>>⟧.gives (in_buffer s)) x1
      | setting.Level x1 ↦ IsSome (⟦<bool as Deserialize<'de>>⟧.refusal (in_buffer s)) ×
          IsTakenAs (⟦<i32 as Deserialize<'de>>⟧.refusal (in_buffer s))
          (⟦<i32 as Deserialize<'de>>⟧.gives (in_buffer s)) x1
      | setting.Range x1 x2 ↦ IsSome (⟦<bool as Deserialize<'de>>⟧.refusal (in_buffer s))
          ×
          IsSome (⟦<i32 as Deserialize<'de>>⟧.refusal (in_buffer s)) ×
          IsTakenAs (⟦<(u8, u8) as Deserialize<'de>>⟧.refusal (in_buffer s))
          (⟦<(u8, u8) as Deserialize<'de>>⟧.gives (in_buffer s)) (x1, x2)
      | setting.Name x1 ↦ IsSome (⟦<bool as Deserialize<'de>>⟧.refusal (in_buffer s)) ×
          IsSome (⟦<i32 as Deserialize<'de>>⟧.refusal (in_buffer s)) ×
          IsSome (⟦<(u8, u8) as Deserialize<'de>>⟧.refusal (in_buffer s)) ×
          IsTakenAs (⟦<String as Deserialize<'de>>⟧.refusal (in_buffer s))
          (⟦<String as Deserialize<'de>>⟧.gives (in_buffer s)) x1
    ] };

    fn deserialize<'n: 'de>(alloc: Global, from: Deserializer<'de, 'n>) -> Result<Setting> {
        match first_of_four::<bool, i32, (u8, u8), String>(
            alloc,
            from,
            "data did not match any variant of untagged enum Setting",
        )? {
            OneOfFour::First(x1) => Ok(Setting::Flag(x1)),
            OneOfFour::Second(x1) => Ok(make_setting_level(x1)),
            OneOfFour::Third((x1, x2)) => Ok(Setting::Range(x1, x2)),
            OneOfFour::Fourth(x1) => Ok(Setting::Name(x1)),
        }
    }
}

impl<'de> RoundTrip<'de> for Setting {
    fn known(&self) {}

    ghost comes_back = { record {
      of_value = elim [
        | setting.Flag x1 ↦ λ real f. such_seen (λ t one. record {
          free = first_taken _ _ one.free;
          only = elim [
            | setting.Flag y1 ↦ λ it. one.only y1 it.1
            | setting.Level y1 ↦ λ it. not_refused _ one.free it.0
            | setting.Range y1 y2 ↦ λ it. not_refused _ one.free it.0
            | setting.Name y1 ↦ λ it. not_refused _ one.free it.0
          ];
        })
            (bool_back.of_value x1 tt (buffering f))
        | setting.Level x1 ↦ λ real f. such_seen (λ t one. record {
          free = later_taken (⟦<bool as Deserialize<'de>>⟧.refusal
              (in_buffer (tree_under f t)))
              (first_taken _ _ one.free);
          only = elim [
            | setting.Flag y1 ↦ λ it. taken_by_one bool_takes (number_takes kind.i32) refl f t
                it.0 one.free
            | setting.Level y1 ↦ λ it. one.only y1 it.1.1
            | setting.Range y1 y2 ↦ λ it. not_refused _ one.free it.1
            | setting.Name y1 ↦ λ it. not_refused _ one.free it.1
          ];
        })
            (i32_back.of_value x1 tt (buffering f))
        | setting.Range x1 x2 ↦ λ real f. such_seen (λ t one. record {
          free = later_taken (⟦<bool as Deserialize<'de>>⟧.refusal
              (in_buffer (tree_under f t)))
              (later_taken (⟦<i32 as Deserialize<'de>>⟧.refusal (in_buffer (tree_under f t)))
              (first_taken _ _ one.free));
          only = elim [
            | setting.Flag y1 ↦ λ it. taken_by_one bool_takes tuple_takes refl f t it.0 one.free
            | setting.Level y1 ↦ λ it. taken_by_one (number_takes kind.i32) tuple_takes refl f t
                it.1.0 one.free
            | setting.Range y1 y2 ↦ λ it. let same = one.only (y1, y2) it.2.1 in both_hold
                same.0 same.1.0
            | setting.Name y1 ↦ λ it. not_refused _ one.free it.2
          ];
        })
            (tuple_back
            (element_back u8_back x1 tt (λ (z : ℕ × ℕ). z.0) 2 0
            (element_back u8_back x2 tt (λ (z : ℕ × ℕ). z.1) 2 1
            (parts_end 2)))
            (buffering f) (λ y h. h))
        | setting.Name x1 ↦ λ real f. such_seen (λ t one. record {
          free = later_taken (⟦<bool as Deserialize<'de>>⟧.refusal
              (in_buffer (tree_under f t)))
              (later_taken (⟦<i32 as Deserialize<'de>>⟧.refusal (in_buffer (tree_under f t)))
              (later_taken (⟦<(u8, u8) as Deserialize<'de>>⟧.refusal (in_buffer (tree_under f t)))
              (first_taken _ _ one.free)));
          only = elim [
            | setting.Flag y1 ↦ λ it. taken_by_one bool_takes text_takes refl f t it.0 one.free
            | setting.Level y1 ↦ λ it. taken_by_one (number_takes kind.i32) text_takes refl f t
                it.1.0 one.free
            | setting.Range y1 y2 ↦ λ it. taken_by_one tuple_takes text_takes refl f t it.2.0
                one.free
            | setting.Name y1 ↦ λ it. one.only y1 it.3.1
          ];
        })
            (text_back.of_value x1 tt (buffering f))
      ];
    } };

    ghost keeps = { record {
      of_origin = λ o people x p. record
          { free = p.free; given = p.given };
    } };
}

impl<'de> CborRoundTrip<'de> for Setting {
    ghost kept = { record {
      of_value = elim [
        | setting.Flag x1 ↦ λ real. such_seen (λ t one fits b. record {
          free = first_taken _ _ (one fits true).free;
          only = elim [
            | setting.Flag y1 ↦ λ it. (one fits true).only y1 it.1
            | setting.Level y1 ↦ λ it. not_refused _ (one fits true).free it.0
            | setting.Range y1 y2 ↦ λ it. not_refused _ (one fits true).free it.0
            | setting.Name y1 ↦ λ it. not_refused _ (one fits true).free it.0
          ];
        })
            (bool_kept.of_value x1 tt)
        | setting.Level x1 ↦ λ real. such_seen (λ t one fits b. record {
          free = later_taken (⟦<bool as Deserialize<'de>>⟧.refusal
              (in_buffer (read_in b (form t))))
              (first_taken _ _ (one fits true).free);
          only = elim [
            | setting.Flag y1 ↦ λ it. taken_by_one bool_takes (number_takes kind.i32) refl
                (flags_in b) (form t) it.0 (one fits true).free
            | setting.Level y1 ↦ λ it. (one fits true).only y1 it.1.1
            | setting.Range y1 y2 ↦ λ it. not_refused _ (one fits true).free it.1
            | setting.Name y1 ↦ λ it. not_refused _ (one fits true).free it.1
          ];
        })
            (i32_kept.of_value x1 tt)
        | setting.Range x1 x2 ↦ λ real. such_seen (λ t one fits b. record {
          free = later_taken (⟦<bool as Deserialize<'de>>⟧.refusal
              (in_buffer (read_in b (form t))))
              (later_taken (⟦<i32 as Deserialize<'de>>⟧.refusal (in_buffer (read_in b (form t))))
              (first_taken _ _ (one fits true).free));
          only = elim [
            | setting.Flag y1 ↦ λ it. taken_by_one bool_takes tuple_takes refl (flags_in b)
                (form t) it.0 (one fits true).free
            | setting.Level y1 ↦ λ it. taken_by_one (number_takes kind.i32) tuple_takes refl
                (flags_in b) (form t) it.1.0 (one fits true).free
            | setting.Range y1 y2 ↦ λ it. let same = (one fits true).only (y1, y2) it.2.1 in
                both_hold same.0 same.1.0
            | setting.Name y1 ↦ λ it. not_refused _ (one fits true).free it.2
          ];
        })
            (tuple_kept
            (element_kept u8_kept x1 tt (λ (z : ℕ × ℕ). z.0) 2 0
            (element_kept u8_kept x2 tt (λ (z : ℕ × ℕ). z.1) 2 1
            (parts_end_kept 2)))
            (λ y h. h))
        | setting.Name x1 ↦ λ real. such_seen (λ t one fits b. record {
          free = later_taken (⟦<bool as Deserialize<'de>>⟧.refusal
              (in_buffer (read_in b (form t))))
              (later_taken (⟦<i32 as Deserialize<'de>>⟧.refusal (in_buffer (read_in b (form t))))
              (later_taken (⟦<(u8, u8) as Deserialize<'de>>⟧.refusal
              (in_buffer (read_in b (form t))))
              (first_taken _ _ (one fits true).free)));
          only = elim [
            | setting.Flag y1 ↦ λ it. taken_by_one bool_takes text_takes refl (flags_in b)
                (form t) it.0 (one fits true).free
            | setting.Level y1 ↦ λ it. taken_by_one (number_takes kind.i32) text_takes refl
                (flags_in b) (form t) it.1.0 (one fits true).free
            | setting.Range y1 y2 ↦ λ it. taken_by_one tuple_takes text_takes refl (flags_in b)
                (form t) it.2.0 (one fits true).free
            | setting.Name y1 ↦ λ it. (one fits true).only y1 it.3.1
          ];
        })
            (text_kept.of_value x1 tt)
      ];
    } };
}

impl<'de> NotNull<'de> for Setting {
    ghost refuses_null = { record { of_null = λ b e. absurd (cc e) } };
}

/// Steps, told by how many they are: two are read as a pair, since that is tried first.
#[derive(Drop)]
pub enum Steps {
    /// The first and the second.
    Pair(u8, u8),
    /// Any others.
    List(Vec<u8>),
}

/// Sends that variant.
fn send_whole_steps_pair<S: Serializer>(
    alloc: Global,
    serializer: &mut S,
    whole: &Steps,
    x1: &u8,
    x2: &u8,
) -> Result<()>
    requires { whole.now ≡ steps.Pair x1.now x2.now }
    ensures { Sends S.step S.refuses (S.seen serializer.old)
        (⟦<Steps as Serialize>⟧.script whole.now)
        result (S.seen serializer.new) }
{
    let row = SendEnd;
    let row = SendElement(x2, row);
    let row = SendElement(x1, row);
    let row = SendOpen(Call::Tuple(2), row);
    send_row(alloc, serializer, &row)
}

impl Serialize for Steps {
    ghost script = { elim [
      | steps.Pair x1 x2 ↦ tuple_script 2
          (element_first (⟦<u8 as Serialize>⟧.script x1)
          (element_first (⟦<u8 as Serialize>⟧.script x2)
          end_script))
      | steps.List x1 ↦ ⟦<Vec<u8> as Serialize>⟧.script x1
    ] };

    ghost lawful = { elim [
      | steps.Pair x1 x2 ↦ λ readable. tuple_lawful
          (element_fits (leaf_lawful refl)
          (element_fits (leaf_lawful refl)
          end_fits))
      | steps.List x1 ↦ λ readable. seq_lawful (λ x h. leaf_lawful refl) x1.items readable
    ] };

    fn serialize<S: Serializer>(&self, alloc: Global, serializer: &mut S) -> Result<()> {
        match self {
            Steps::Pair(x1, x2) => send_whole_steps_pair(alloc, serializer, self, x1, x2),
            Steps::List(x1) => x1.serialize(alloc, serializer),
        }
    }
}

impl<'de> Deserialize<'de> for Steps {
    ghost refusal = { λ s.
        (or_next (⟦<(u8, u8) as Deserialize<'de>>⟧.refusal (in_buffer s))
        (or_next (⟦<Vec<u8> as Deserialize<'de>>⟧.refusal (in_buffer s))
        (Some (custom (codes "data did not match any variant of untagged enum Steps"))))) };

    ghost gives = { λ s. elim [
      | steps.Pair x1 x2 ↦ IsTakenAs
          (⟦<(u8, u8) as Deserialize<'de>>⟧.refusal (in_buffer s))
          (⟦<(u8, u8) as Deserialize<'de>>⟧.gives (in_buffer s)) (x1, x2)
      | steps.List x1 ↦ IsSome (⟦<(u8, u8) as Deserialize<'de>>⟧.refusal (in_buffer s)) ×
          IsTakenAs (⟦<Vec<u8> as Deserialize<'de>>⟧.refusal (in_buffer s))
          (⟦<Vec<u8> as Deserialize<'de>>⟧.gives (in_buffer s)) x1
    ] };

    fn deserialize<'n: 'de>(alloc: Global, from: Deserializer<'de, 'n>) -> Result<Steps> {
        match first_of_two::<(u8, u8), Vec<u8>>(
            alloc,
            from,
            "data did not match any variant of untagged enum Steps",
        )? {
            OneOfTwo::First((x1, x2)) => Ok(Steps::Pair(x1, x2)),
            OneOfTwo::Second(x1) => Ok(Steps::List(x1)),
        }
    }
}

/// A colour, told by how many numbers it has.
#[derive(Drop, PartialEq, Eq)]
pub enum Color {
    /// Red, green and blue.
    Rgb(u8, u8, u8),
    /// With how opaque it is.
    Rgba(u8, u8, u8, u8),
}

/// Sends that variant.
fn send_whole_color_rgb<S: Serializer>(
    alloc: Global,
    serializer: &mut S,
    whole: &Color,
    x1: &u8,
    x2: &u8,
    x3: &u8,
) -> Result<()>
    requires { whole.now ≡ color.Rgb x1.now x2.now x3.now }
    ensures { Sends S.step S.refuses (S.seen serializer.old)
        (⟦<Color as Serialize>⟧.script whole.now)
        result (S.seen serializer.new) }
{
    let row = SendEnd;
    let row = SendElement(x3, row);
    let row = SendElement(x2, row);
    let row = SendElement(x1, row);
    let row = SendOpen(Call::Tuple(3), row);
    send_row(alloc, serializer, &row)
}

/// Sends that variant.
fn send_whole_color_rgba<S: Serializer>(
    alloc: Global,
    serializer: &mut S,
    whole: &Color,
    x1: &u8,
    x2: &u8,
    x3: &u8,
    x4: &u8,
) -> Result<()>
    requires { whole.now ≡ color.Rgba x1.now x2.now x3.now x4.now }
    ensures { Sends S.step S.refuses (S.seen serializer.old)
        (⟦<Color as Serialize>⟧.script whole.now)
        result (S.seen serializer.new) }
{
    let row = SendEnd;
    let row = SendElement(x4, row);
    let row = SendElement(x3, row);
    let row = SendElement(x2, row);
    let row = SendElement(x1, row);
    let row = SendOpen(Call::Tuple(4), row);
    send_row(alloc, serializer, &row)
}

impl Serialize for Color {
    ghost script = { elim [
      | color.Rgb x1 x2 x3 ↦ tuple_script 3
          (element_first (⟦<u8 as Serialize>⟧.script x1)
          (element_first (⟦<u8 as Serialize>⟧.script x2)
          (element_first (⟦<u8 as Serialize>⟧.script x3)
          end_script)))
      | color.Rgba x1 x2 x3 x4 ↦ tuple_script 4
          (element_first (⟦<u8 as Serialize>⟧.script x1)
          (element_first (⟦<u8 as Serialize>⟧.script x2)
          (element_first (⟦<u8 as Serialize>⟧.script x3)
          (element_first (⟦<u8 as Serialize>⟧.script x4)
          end_script))))
    ] };

    ghost lawful = { elim [
      | color.Rgb x1 x2 x3 ↦ λ readable. tuple_lawful
          (element_fits (leaf_lawful refl)
          (element_fits (leaf_lawful refl)
          (element_fits (leaf_lawful refl)
          end_fits)))
      | color.Rgba x1 x2 x3 x4 ↦ λ readable. tuple_lawful
          (element_fits (leaf_lawful refl)
          (element_fits (leaf_lawful refl)
          (element_fits (leaf_lawful refl)
          (element_fits (leaf_lawful refl)
          end_fits))))
    ] };

    fn serialize<S: Serializer>(&self, alloc: Global, serializer: &mut S) -> Result<()> {
        match self {
            Color::Rgb(x1, x2, x3) => send_whole_color_rgb(alloc, serializer, self, x1, x2, x3),
            Color::Rgba(x1, x2, x3, x4) => {
                send_whole_color_rgba(alloc, serializer, self, x1, x2, x3, x4)
            }
        }
    }
}

impl<'de> Deserialize<'de> for Color {
    ghost refusal = { λ s.
        (or_next (⟦<(u8, u8, u8) as Deserialize<'de>>⟧.refusal (in_buffer s))
        (or_next (⟦<(u8, u8, u8, u8) as Deserialize<'de>>⟧.refusal (in_buffer s))
        (Some (custom (codes "data did not match any variant of untagged enum Color"))))) };

    ghost gives = { λ s. elim [
      | color.Rgb x1 x2 x3 ↦ IsTakenAs
          (⟦<(u8, u8, u8) as Deserialize<'de>>⟧.refusal (in_buffer s))
          (⟦<(u8, u8, u8) as Deserialize<'de>>⟧.gives (in_buffer s)) (x1, x2, x3)
      | color.Rgba x1 x2 x3 x4 ↦ IsSome
          (⟦<(u8, u8, u8) as Deserialize<'de>>⟧.refusal (in_buffer s)) ×
          IsTakenAs (⟦<(u8, u8, u8, u8) as Deserialize<'de>>⟧.refusal (in_buffer s))
          (⟦<(u8, u8, u8, u8) as Deserialize<'de>>⟧.gives (in_buffer s)) (x1, x2, x3, x4)
    ] };

    fn deserialize<'n: 'de>(alloc: Global, from: Deserializer<'de, 'n>) -> Result<Color> {
        match first_of_two::<(u8, u8, u8), (u8, u8, u8, u8)>(
            alloc,
            from,
            "data did not match any variant of untagged enum Color",
        )? {
            OneOfTwo::First((x1, x2, x3)) => Ok(Color::Rgb(x1, x2, x3)),
            OneOfTwo::Second((x1, x2, x3, x4)) => Ok(Color::Rgba(x1, x2, x3, x4)),
        }
    }
}

impl<'de> RoundTrip<'de> for Color {
    fn known(&self) {}

    ghost comes_back = { record {
      of_value = elim [
        | color.Rgb x1 x2 x3 ↦ λ real f. such_seen (λ t one. record {
          free = first_taken _ _ one.free;
          only = elim [
            | color.Rgb y1 y2 y3 ↦ λ it. let same = one.only (y1, y2, y3) it.1 in both_hold
                same.0 (both_hold same.1.0 same.1.1.0)
            | color.Rgba y1 y2 y3 y4 ↦ λ it. not_refused _ one.free it.0
          ];
        })
            (tuple_back
            (element_back u8_back x1 tt (λ (z : ℕ × ℕ × ℕ). z.0) 3 0
            (element_back u8_back x2 tt (λ (z : ℕ × ℕ × ℕ). z.1) 3 1
            (element_back u8_back x3 tt (λ (z : ℕ × ℕ × ℕ). z.2) 3 2
            (parts_end 3))))
            (buffering f) (λ y h. h))
        | color.Rgba x1 x2 x3 x4 ↦ λ real f. such_seen (λ t one. record {
          free = later_taken (⟦<(u8, u8, u8) as Deserialize<'de>>⟧.refusal
              (in_buffer (tree_under f t)))
              (first_taken _ _ one.free);
          only = elim [
            | color.Rgb y1 y2 y3 ↦ λ it. taken_by_one
                (tuple_counts (part_counts _ 3 0
                (part_counts _ 3 1 (part_counts _ 3 2 (parts_end_counts 3)))))
                (tuple_counts (part_counts _ 4 0
                (part_counts _ 4 1 (part_counts _ 4 2 (part_counts _ 4 3 (parts_end_counts 4))))))
                refl f t it.0 one.free
            | color.Rgba y1 y2 y3 y4 ↦ λ it. let same = one.only (y1, y2, y3, y4) it.1.1 in
                both_hold same.0 (both_hold same.1.0 (both_hold same.1.1.0 same.1.1.1.0))
          ];
        })
            (tuple_back
            (element_back u8_back x1 tt (λ (z : ℕ × ℕ × ℕ × ℕ). z.0) 4 0
            (element_back u8_back x2 tt (λ (z : ℕ × ℕ × ℕ × ℕ). z.1) 4 1
            (element_back u8_back x3 tt (λ (z : ℕ × ℕ × ℕ × ℕ). z.2) 4 2
            (element_back u8_back x4 tt (λ (z : ℕ × ℕ × ℕ × ℕ). z.3) 4 3
            (parts_end 4)))))
            (buffering f) (λ y h. h))
      ];
    } };

    ghost keeps = { record {
      of_origin = λ o people x p. record
          { free = p.free; given = p.given };
    } };
}

impl<'de> CborRoundTrip<'de> for Color {
    ghost kept = { record {
      of_value = elim [
        | color.Rgb x1 x2 x3 ↦ λ real. such_seen (λ t one fits b. record {
          free = first_taken _ _ (one fits true).free;
          only = elim [
            | color.Rgb y1 y2 y3 ↦ λ it. let same = (one fits true).only (y1, y2, y3) it.1 in
                both_hold same.0 (both_hold same.1.0 same.1.1.0)
            | color.Rgba y1 y2 y3 y4 ↦ λ it. not_refused _ (one fits true).free it.0
          ];
        })
            (tuple_kept
            (element_kept u8_kept x1 tt (λ (z : ℕ × ℕ × ℕ). z.0) 3 0
            (element_kept u8_kept x2 tt (λ (z : ℕ × ℕ × ℕ). z.1) 3 1
            (element_kept u8_kept x3 tt (λ (z : ℕ × ℕ × ℕ). z.2) 3 2
            (parts_end_kept 3))))
            (λ y h. h))
        | color.Rgba x1 x2 x3 x4 ↦ λ real. such_seen (λ t one fits b. record {
          free = later_taken (⟦<(u8, u8, u8) as Deserialize<'de>>⟧.refusal
              (in_buffer (read_in b (form t))))
              (first_taken _ _ (one fits true).free);
          only = elim [
            | color.Rgb y1 y2 y3 ↦ λ it. taken_by_one
                (tuple_counts (part_counts _ 3 0
                (part_counts _ 3 1 (part_counts _ 3 2 (parts_end_counts 3)))))
                (tuple_counts (part_counts _ 4 0
                (part_counts _ 4 1 (part_counts _ 4 2 (part_counts _ 4 3 (parts_end_counts 4))))))
                refl (flags_in b) (form t) it.0 (one fits true).free
            | color.Rgba y1 y2 y3 y4 ↦ λ it. let same = (one fits true).only (y1, y2, y3, y4)
                it.1.1 in both_hold same.0 (both_hold same.1.0 (both_hold same.1.1.0 same.1.1.1.0))
          ];
        })
            (tuple_kept
            (element_kept u8_kept x1 tt (λ (z : ℕ × ℕ × ℕ × ℕ). z.0) 4 0
            (element_kept u8_kept x2 tt (λ (z : ℕ × ℕ × ℕ × ℕ). z.1) 4 1
            (element_kept u8_kept x3 tt (λ (z : ℕ × ℕ × ℕ × ℕ). z.2) 4 2
            (element_kept u8_kept x4 tt (λ (z : ℕ × ℕ × ℕ × ℕ). z.3) 4 3
            (parts_end_kept 4)))))
            (λ y h. h))
      ];
    } };
}

impl<'de> NotNull<'de> for Color {
    ghost refuses_null = { record { of_null = λ b e. absurd (cc e) } };
}

/// The name `Command`.
#[tactic(auto, unfolding(serde_content::specs::Literals::name))]
fn name_command() -> &'static str
    ensures { result.now ≡ name "Command" }
{
    "Command"
}
