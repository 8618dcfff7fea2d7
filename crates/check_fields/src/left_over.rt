//! Structs of which one field takes what no other field does.
//!
//! Written by `tools/derive` from `left_over.rs`: change that file, and write this one anew.

ghost use Rattle.std.specs.Prelude.{◌≡◌, ◌∷◌, [], ℕ, Option, None, Some, IsSome, codes};
ghost use Rattle.content_tree.specs.Errors.Cause.{custom};
ghost use Rattle.content_de.specs.Sources.Origin.{in_buffer};
ghost use Rattle.content_de.specs.Accesses.ByName.{fields_left};
ghost use Rattle.content_de.specs.Reads.Read.{Reads};
ghost use Rattle.content_de.specs.Reads.Attempts.{IsTakenAs, or_next};
ghost use Rattle.content_de.specs.Reads.ByName.{read_by_name, ReadByName, NoOthers};
ghost use Rattle.content_de.specs.Reads.Tagged.{tag_then_buffered, TagThenBuffered};
ghost use Rattle.content_de.specs.Reads.Own.{struct_refusal, StructGives};
ghost use Rattle.serde_content.specs.Literals.{name, row_then, row_or_then, RowThen, RowOrThen};
ghost use Rattle.serde_content.specs.Literals.{others_left};
ghost use Rattle.serde_content.specs.Rests.{rest_then, RestThen, RestTried};
ghost use Rattle.serde_content.specs.Variants.{variants};
ghost use Rattle.serde_content.specs.Laws.Flattened.{flattened_refusal, FlattenedGives};
ghost use Rattle.std.specs.declared.alloc.Global.{Global};
ghost use Rattle.std.specs.declared.string.String.{String};
ghost use Rattle.check_fields.specs.declared.left_over.Algorithm.TheVariants as algorithm;
ghost use Rattle.check_fields.specs.declared.left_over.Chat.TheVariants as chat;

use serde_content::de::{Deserialize, FieldsByName};
use serde_content::derive_support::{
    Names, OneOfThree, OthersSkipped, ReadField, ReadFieldOr, ReadFields, ReadRest, ReadStruct,
    TaggedVariants, TryRest, first_of_three, no_such_variant, read_flattened, read_struct,
    read_tagged, variant_index,
};
use serde_content::{Deserializer, Result};
use std::alloc::Global;
use std::collections::BTreeMap;

/// A package, as a file describes it.
#[derive(Drop, PartialEq, Eq)]
pub struct Package {
    /// What it is called.
    pub name: String,
    /// What stands under other names.
    pub other_keys: BTreeMap<String, String>,
    /// Since when it is there.
    pub first_year: Option<u16>,
}

/// The names of its fields.
#[derive(Drop)]
struct FieldsOfPackage;

impl Names for FieldsOfPackage {
    ghost names = { name "name" ∷ name "first-year" ∷ [] };

    #[tactic(auto, unfolding(serde_content::specs::Literals::name))]
    fn names() -> &'static [&'static str] {
        &["name", "first-year"]
    }
}

type Field1OfPackage = ReadField<FieldsOfPackage, 0, String, Field2OfPackage>;

type Field2OfPackage = ReadFieldOr<FieldsOfPackage, 1, Option<u16>, Field3OfPackage>;

type Field3OfPackage = ReadRest<BTreeMap<String, String>, OthersSkipped<FieldsOfPackage>>;

impl<'de> ReadFields<'de> for Package {
    ghost refusal = { row_then (name "name") (⟦<String as Deserialize<'de>>⟧.refusal)
        (row_or_then (name "first-year") (⟦<Option<u16> as Deserialize<'de>>⟧.refusal)
        (rest_then (⟦<BTreeMap<String, String> as Deserialize<'de>>⟧.refusal)
        (others_left (name "name" ∷ name "first-year" ∷ [])))) };

    ghost gives = { λ z.
        (RowThen (name "name") (⟦<String as Deserialize<'de>>⟧.gives) z.name
        (RowOrThen (name "first-year") (λ (x : (Option ℕ)). x ≡ None)
        (⟦<Option<u16> as Deserialize<'de>>⟧.gives) z.first_year
        (RestThen (⟦<BTreeMap<String, String> as Deserialize<'de>>⟧.gives) z.other_keys
        NoOthers))) };

    fn read<'n: 'de>(alloc: Global, fields: FieldsByName<'de, 'n>) -> Result<Package> {
        let row: Field1OfPackage = ReadFields::read(alloc, fields)?;
        let ReadField(name, row, _) = row;
        let ReadFieldOr(first_year, row, _) = row;
        let ReadRest(other_keys, _) = row;
        Ok(Package {
            name,
            other_keys,
            first_year,
        })
    }
}

impl<'de> Deserialize<'de> for Package {
    ghost refusal = { flattened_refusal (read_by_name
        (row_then (name "name") (⟦<String as Deserialize<'de>>⟧.refusal)
        (row_or_then (name "first-year") (⟦<Option<u16> as Deserialize<'de>>⟧.refusal)
        (rest_then (⟦<BTreeMap<String, String> as Deserialize<'de>>⟧.refusal)
        (others_left (name "name" ∷ name "first-year" ∷ [])))))) };

    ghost gives = { λ s p. FlattenedGives (ReadByName
        (RowThen (name "name") (⟦<String as Deserialize<'de>>⟧.gives) p.name
        (RowOrThen (name "first-year") (λ (x : (Option ℕ)). x ≡ None)
        (⟦<Option<u16> as Deserialize<'de>>⟧.gives) p.first_year
        (RestThen (⟦<BTreeMap<String, String> as Deserialize<'de>>⟧.gives) p.other_keys
        NoOthers)))) s };

    fn deserialize<'n: 'de>(alloc: Global, from: Deserializer<'de, 'n>) -> Result<Package> {
        read_flattened(alloc, from)
    }
}

/// What is the same of every key.
#[derive(Drop, PartialEq, Eq)]
pub struct Common {
    /// What it is for.
    pub usage: Option<String>,
    /// Its number.
    pub id: u32,
}

/// The names of its fields.
#[derive(Drop)]
struct FieldsOfCommon;

impl Names for FieldsOfCommon {
    ghost names = { name "usage" ∷ name "id" ∷ [] };

    #[tactic(auto, unfolding(serde_content::specs::Literals::name))]
    fn names() -> &'static [&'static str] {
        &["usage", "id"]
    }
}

type Field1OfCommon = ReadFieldOr<FieldsOfCommon, 0, Option<String>, Field2OfCommon>;

type Field2OfCommon = ReadField<FieldsOfCommon, 1, u32, OthersSkipped<FieldsOfCommon>>;

impl<'de> ReadStruct<'de> for Common {
    ghost name = { name "Common" };

    ghost refusal = { row_or_then (name "usage")
        (⟦<Option<String> as Deserialize<'de>>⟧.refusal)
        (row_then (name "id") (⟦<u32 as Deserialize<'de>>⟧.refusal)
        (others_left (name "usage" ∷ name "id" ∷ []))) };

    ghost gives = { λ z.
        (RowOrThen (name "usage") (λ (x : (Option (String Global))). x ≡ None)
        (⟦<Option<String> as Deserialize<'de>>⟧.gives) z.usage
        (RowThen (name "id") (⟦<u32 as Deserialize<'de>>⟧.gives) z.id
        NoOthers)) };

    #[tactic(auto, unfolding(serde_content::specs::Literals::name))]
    fn name() -> &'static str {
        "Common"
    }

    fn read<'n: 'de>(alloc: Global, fields: FieldsByName<'de, 'n>) -> Result<Common> {
        let row: Field1OfCommon = ReadFields::read(alloc, fields)?;
        let ReadFieldOr(usage, row, _) = row;
        let ReadField(id, _, _) = row;
        Ok(Common { usage, id })
    }
}

impl<'de> Deserialize<'de> for Common {
    ghost refusal = { struct_refusal (name "Common") (read_by_name
        (row_or_then (name "usage") (⟦<Option<String> as Deserialize<'de>>⟧.refusal)
        (row_then (name "id") (⟦<u32 as Deserialize<'de>>⟧.refusal)
        (others_left (name "usage" ∷ name "id" ∷ []))))) };

    ghost gives = { λ s p. StructGives (name "Common") (ReadByName
        (RowOrThen (name "usage") (λ (x : (Option (String Global))). x ≡ None)
        (⟦<Option<String> as Deserialize<'de>>⟧.gives) p.usage
        (RowThen (name "id") (⟦<u32 as Deserialize<'de>>⟧.gives) p.id
        NoOthers))) s };

    fn deserialize<'n: 'de>(alloc: Global, from: Deserializer<'de, 'n>) -> Result<Common> {
        read_struct::<FieldsOfCommon, Self>(alloc, from)
    }
}

/// A sort of key, told by the field `kty`.
#[derive(Drop, PartialEq, Eq)]
pub enum Algorithm {
    /// A number of bits.
    Rsa {
        /// How many.
        bits: u32,
    },
    /// A curve.
    Curve(Curve),
}

/// The names of its fields.
#[derive(Drop)]
struct FieldsOfAlgorithmRsa;

impl Names for FieldsOfAlgorithmRsa {
    ghost names = { name "kty" ∷ name "bits" ∷ [] };

    #[tactic(auto, unfolding(serde_content::specs::Literals::name))]
    fn names() -> &'static [&'static str] {
        &["kty", "bits"]
    }
}

type Field1OfAlgorithmRsa = ReadField<
    FieldsOfAlgorithmRsa,
    1,
    u32,
    OthersSkipped<FieldsOfAlgorithmRsa>,
>;

/// Reads the fields, in any order.
fn read_algorithm_rsa<'de, 'n: 'de>(alloc: Global, fields: FieldsByName<'de, 'n>) -> Result<u32>
    ensures { Reads (
        (row_then (name "bits") (⟦<u32 as Deserialize<'de>>⟧.refusal)
        (others_left (name "kty" ∷ name "bits" ∷ [])))
        (fields_left fields.entry))
        (λ z.
        (RowThen (name "bits") (⟦<u32 as Deserialize<'de>>⟧.gives) z
        NoOthers)
        (fields_left fields.entry)) result }
{
    let row: Field1OfAlgorithmRsa = ReadFields::read(alloc, fields)?;
    let ReadField(bits, _, _) = row;
    Ok(bits)
}

/// The names of its fields.
#[derive(Drop)]
struct FieldsOfAlgorithmCurve;

impl Names for FieldsOfAlgorithmCurve {
    ghost names = { name "kty" ∷ name "crv" ∷ [] };

    #[tactic(auto, unfolding(serde_content::specs::Literals::name))]
    fn names() -> &'static [&'static str] {
        &["kty", "crv"]
    }
}

type Field1OfAlgorithmCurve = ReadField<
    FieldsOfAlgorithmCurve,
    1,
    String,
    OthersSkipped<FieldsOfAlgorithmCurve>,
>;

/// Reads the fields, in any order.
fn read_algorithm_curve<'de, 'n: 'de>(alloc: Global, fields: FieldsByName<'de, 'n>) -> Result<Curve>
    ensures { Reads (
        (row_then (name "crv") (⟦<String as Deserialize<'de>>⟧.refusal)
        (others_left (name "kty" ∷ name "crv" ∷ [])))
        (fields_left fields.entry))
        (λ z.
        (RowThen (name "crv") (⟦<String as Deserialize<'de>>⟧.gives) z.crv
        NoOthers)
        (fields_left fields.entry)) result }
{
    let row: Field1OfAlgorithmCurve = ReadFields::read(alloc, fields)?;
    let ReadField(crv, _, _) = row;
    Ok(Curve { crv })
}

/// The names of its variants.
#[derive(Drop)]
struct NamesOfAlgorithm;

impl Names for NamesOfAlgorithm {
    ghost names = { name "Rsa" ∷ name "Curve" ∷ [] };

    #[tactic(auto, unfolding(serde_content::specs::Literals::name))]
    fn names() -> &'static [&'static str] {
        &["Rsa", "Curve"]
    }
}

impl<'de> TaggedVariants<'de> for Algorithm {
    ghost name = { name "Algorithm" };

    ghost tag_name = { name "kty" };

    ghost refusal = { variants ((
      name "Rsa",
      (row_then (name "bits") (⟦<u32 as Deserialize<'de>>⟧.refusal)
          (others_left (name "kty" ∷ name "bits" ∷ []))),
    )
        ∷ (
          name "Curve",
          (row_then (name "crv") (⟦<String as Deserialize<'de>>⟧.refusal)
              (others_left (name "kty" ∷ name "crv" ∷ []))),
        )
        ∷ []) };

    ghost named = { elim [
      | algorithm.Rsa x1 ↦ name "Rsa"
      | algorithm.Curve x1 ↦ name "Curve"
    ] };

    ghost held = { elim [
      | algorithm.Rsa x1 ↦ (RowThen (name "bits") (⟦<u32 as Deserialize<'de>>⟧.gives) x1
          NoOthers)
      | algorithm.Curve x1 ↦ (RowThen (name "crv") (⟦<String as Deserialize<'de>>⟧.gives)
          x1.crv
          NoOthers)
    ] };

    #[tactic(auto, unfolding(serde_content::specs::Literals::name))]
    fn name() -> &'static str {
        "Algorithm"
    }

    #[tactic(auto, unfolding(serde_content::specs::Literals::name))]
    fn tag() -> &'static str {
        "kty"
    }

    fn read_variant<'n: 'de>(
        alloc: Global,
        tag: &str,
        fields: FieldsByName<'de, 'n>,
    ) -> Result<Algorithm> {
        match variant_index(tag, &NamesOfAlgorithm) {
            Some(0) => {
                let bits = read_algorithm_rsa(alloc, fields)?;
                Ok(Algorithm::Rsa { bits })
            }
            Some(1) => {
                let x1 = read_algorithm_curve(alloc, fields)?;
                Ok(Algorithm::Curve(x1))
            }
            _ => {
                drop(fields);
                Err(no_such_variant(alloc, tag, &NamesOfAlgorithm))
            }
        }
    }
}

impl<'de> Deserialize<'de> for Algorithm {
    ghost refusal = { struct_refusal (name "Algorithm")
        (read_by_name (tag_then_buffered (name "kty")
        ⟦<Algorithm as TaggedVariants<'de>>⟧.refusal)) };

    ghost gives = { λ s y. StructGives (name "Algorithm") (ReadByName
        (TagThenBuffered (name "kty")
        (⟦<Algorithm as TaggedVariants<'de>>⟧.named y)
        (⟦<Algorithm as TaggedVariants<'de>>⟧.held y))) s };

    fn deserialize<'n: 'de>(alloc: Global, from: Deserializer<'de, 'n>) -> Result<Algorithm> {
        read_tagged(alloc, from)
    }
}

/// A curve.
#[derive(Drop, PartialEq, Eq)]
pub struct Curve {
    /// Its name.
    pub crv: String,
}

/// The names of its fields.
#[derive(Drop)]
struct FieldsOfCurve;

impl Names for FieldsOfCurve {
    ghost names = { name "crv" ∷ [] };

    #[tactic(auto, unfolding(serde_content::specs::Literals::name))]
    fn names() -> &'static [&'static str] {
        &["crv"]
    }
}

type Field1OfCurve = ReadField<FieldsOfCurve, 0, String, OthersSkipped<FieldsOfCurve>>;

impl<'de> ReadStruct<'de> for Curve {
    ghost name = { name "Curve" };

    ghost refusal = { row_then (name "crv") (⟦<String as Deserialize<'de>>⟧.refusal)
        (others_left (name "crv" ∷ [])) };

    ghost gives = { λ z.
        (RowThen (name "crv") (⟦<String as Deserialize<'de>>⟧.gives) z.crv
        NoOthers) };

    #[tactic(auto, unfolding(serde_content::specs::Literals::name))]
    fn name() -> &'static str {
        "Curve"
    }

    fn read<'n: 'de>(alloc: Global, fields: FieldsByName<'de, 'n>) -> Result<Curve> {
        let row: Field1OfCurve = ReadFields::read(alloc, fields)?;
        let ReadField(crv, _, _) = row;
        Ok(Curve { crv })
    }
}

impl<'de> Deserialize<'de> for Curve {
    ghost refusal = { struct_refusal (name "Curve") (read_by_name
        (row_then (name "crv") (⟦<String as Deserialize<'de>>⟧.refusal)
        (others_left (name "crv" ∷ [])))) };

    ghost gives = { λ s p. StructGives (name "Curve") (ReadByName
        (RowThen (name "crv") (⟦<String as Deserialize<'de>>⟧.gives) p.crv
        NoOthers)) s };

    fn deserialize<'n: 'de>(alloc: Global, from: Deserializer<'de, 'n>) -> Result<Curve> {
        read_struct::<FieldsOfCurve, Self>(alloc, from)
    }
}

/// A key: its own fields among those of its sort.
#[derive(Drop, PartialEq, Eq)]
pub struct Key {
    /// The same of every key.
    pub common: Common,
    /// Its sort.
    pub algorithm: Algorithm,
}

/// The names of its fields.
#[derive(Drop)]
struct FieldsOfKey;

impl Names for FieldsOfKey {
    ghost names = { name "usage" ∷ name "id" ∷ [] };

    #[tactic(auto, unfolding(serde_content::specs::Literals::name))]
    fn names() -> &'static [&'static str] {
        &["usage", "id"]
    }
}

type Field1OfKey = ReadFieldOr<FieldsOfKey, 0, Option<String>, Field2OfKey>;

type Field2OfKey = ReadField<FieldsOfKey, 1, u32, Field3OfKey>;

type Field3OfKey = ReadRest<Algorithm, OthersSkipped<FieldsOfKey>>;

impl<'de> ReadFields<'de> for Key {
    ghost refusal = { row_or_then (name "usage")
        (⟦<Option<String> as Deserialize<'de>>⟧.refusal)
        (row_then (name "id") (⟦<u32 as Deserialize<'de>>⟧.refusal)
        (rest_then (⟦<Algorithm as Deserialize<'de>>⟧.refusal)
        (others_left (name "usage" ∷ name "id" ∷ [])))) };

    ghost gives = { λ z.
        (RowOrThen (name "usage") (λ (x : (Option (String Global))). x ≡ None)
        (⟦<Option<String> as Deserialize<'de>>⟧.gives) z.common.usage
        (RowThen (name "id") (⟦<u32 as Deserialize<'de>>⟧.gives) z.common.id
        (RestThen (⟦<Algorithm as Deserialize<'de>>⟧.gives) z.algorithm
        NoOthers))) };

    fn read<'n: 'de>(alloc: Global, fields: FieldsByName<'de, 'n>) -> Result<Key> {
        let row: Field1OfKey = ReadFields::read(alloc, fields)?;
        let ReadFieldOr(common_usage, row, _) = row;
        let ReadField(common_id, row, _) = row;
        let ReadRest(algorithm, _) = row;
        Ok(Key {
            common: Common {
                usage: common_usage,
                id: common_id,
            },
            algorithm,
        })
    }
}

impl<'de> Deserialize<'de> for Key {
    ghost refusal = { flattened_refusal (read_by_name
        (row_or_then (name "usage") (⟦<Option<String> as Deserialize<'de>>⟧.refusal)
        (row_then (name "id") (⟦<u32 as Deserialize<'de>>⟧.refusal)
        (rest_then (⟦<Algorithm as Deserialize<'de>>⟧.refusal)
        (others_left (name "usage" ∷ name "id" ∷ [])))))) };

    ghost gives = { λ s p. FlattenedGives (ReadByName
        (RowOrThen (name "usage") (λ (x : (Option (String Global))). x ≡ None)
        (⟦<Option<String> as Deserialize<'de>>⟧.gives) p.common.usage
        (RowThen (name "id") (⟦<u32 as Deserialize<'de>>⟧.gives) p.common.id
        (RestThen (⟦<Algorithm as Deserialize<'de>>⟧.gives) p.algorithm
        NoOthers)))) s };

    fn deserialize<'n: 'de>(alloc: Global, from: Deserializer<'de, 'n>) -> Result<Key> {
        read_flattened(alloc, from)
    }
}

/// A chat, told by what it has.
#[derive(Drop, PartialEq, Eq)]
pub enum Chat {
    /// With many.
    Public {
        /// What it is called.
        title: String,
    },
    /// With one.
    Private(Curve),
    /// Any other.
    Other(BTreeMap<String, u8>),
}

/// What the variant `Public` holds.
#[derive(Drop)]
struct ChatPublic {
    /// What it is called.
    title: String,
}

/// The names of its fields.
#[derive(Drop)]
struct FieldsOfChatPublic;

impl Names for FieldsOfChatPublic {
    ghost names = { name "title" ∷ [] };

    #[tactic(auto, unfolding(serde_content::specs::Literals::name))]
    fn names() -> &'static [&'static str] {
        &["title"]
    }
}

type Field1OfChatPublic = ReadField<
    FieldsOfChatPublic,
    0,
    String,
    OthersSkipped<FieldsOfChatPublic>,
>;

impl<'de> ReadStruct<'de> for ChatPublic {
    ghost name = { name "Chat" };

    ghost refusal = { row_then (name "title") (⟦<String as Deserialize<'de>>⟧.refusal)
        (others_left (name "title" ∷ [])) };

    ghost gives = { λ z.
        (RowThen (name "title") (⟦<String as Deserialize<'de>>⟧.gives) z.title
        NoOthers) };

    #[tactic(auto, unfolding(serde_content::specs::Literals::name))]
    fn name() -> &'static str {
        "Chat"
    }

    fn read<'n: 'de>(alloc: Global, fields: FieldsByName<'de, 'n>) -> Result<ChatPublic> {
        let row: Field1OfChatPublic = ReadFields::read(alloc, fields)?;
        let ReadField(title, _, _) = row;
        Ok(ChatPublic { title })
    }
}

impl<'de> Deserialize<'de> for ChatPublic {
    ghost refusal = { struct_refusal (name "Chat") (read_by_name
        (row_then (name "title") (⟦<String as Deserialize<'de>>⟧.refusal)
        (others_left (name "title" ∷ [])))) };

    ghost gives = { λ s p. StructGives (name "Chat") (ReadByName
        (RowThen (name "title") (⟦<String as Deserialize<'de>>⟧.gives) p.title
        NoOthers)) s };

    fn deserialize<'n: 'de>(alloc: Global, from: Deserializer<'de, 'n>) -> Result<ChatPublic> {
        read_struct::<FieldsOfChatPublic, Self>(alloc, from)
    }
}

impl<'de> Deserialize<'de> for Chat {
    ghost refusal = { λ s.
        (or_next (⟦<ChatPublic as Deserialize<'de>>⟧.refusal (in_buffer s))
        (or_next (⟦<Curve as Deserialize<'de>>⟧.refusal (in_buffer s))
        (or_next (⟦<BTreeMap<String, u8> as Deserialize<'de>>⟧.refusal (in_buffer s))
        (Some (custom (codes "data did not match any variant of untagged enum Chat")))))) };

    ghost gives = { λ s. elim [
      | chat.Public x1 ↦ IsTakenAs (⟦<ChatPublic as Deserialize<'de>>⟧.refusal
          (in_buffer s)) (⟦<ChatPublic as Deserialize<'de>>⟧.gives (in_buffer s)) (record {
            title = x1;
          })
      | chat.Private x1 ↦ IsSome (⟦<ChatPublic as Deserialize<'de>>⟧.refusal
          (in_buffer s)) ×
          IsTakenAs (⟦<Curve as Deserialize<'de>>⟧.refusal (in_buffer s))
          (⟦<Curve as Deserialize<'de>>⟧.gives (in_buffer s)) x1
      | chat.Other x1 ↦ IsSome (⟦<ChatPublic as Deserialize<'de>>⟧.refusal (in_buffer s))
          ×
          IsSome (⟦<Curve as Deserialize<'de>>⟧.refusal (in_buffer s)) ×
          IsTakenAs (⟦<BTreeMap<String, u8> as Deserialize<'de>>⟧.refusal (in_buffer s))
          (⟦<BTreeMap<String, u8> as Deserialize<'de>>⟧.gives (in_buffer s)) x1
    ] };

    fn deserialize<'n: 'de>(alloc: Global, from: Deserializer<'de, 'n>) -> Result<Chat> {
        match first_of_three::<ChatPublic, Curve, BTreeMap<String, u8>>(
            alloc,
            from,
            "data did not match any variant of untagged enum Chat",
        )? {
            OneOfThree::First(ChatPublic { title }) => Ok(Chat::Public { title }),
            OneOfThree::Second(x1) => Ok(Chat::Private(x1)),
            OneOfThree::Third(x1) => Ok(Chat::Other(x1)),
        }
    }
}

/// A message, with the fields of its chat.
#[derive(Drop, PartialEq, Eq)]
pub struct Post {
    /// Its number.
    pub id: u32,
    /// Where it was written.
    pub chat: Chat,
}

/// The names of its fields.
#[derive(Drop)]
struct FieldsOfPost;

impl Names for FieldsOfPost {
    ghost names = { name "id" ∷ [] };

    #[tactic(auto, unfolding(serde_content::specs::Literals::name))]
    fn names() -> &'static [&'static str] {
        &["id"]
    }
}

type Field1OfPost = ReadField<FieldsOfPost, 0, u32, Field2OfPost>;

type Field2OfPost = ReadRest<Chat, OthersSkipped<FieldsOfPost>>;

impl<'de> ReadFields<'de> for Post {
    ghost refusal = { row_then (name "id") (⟦<u32 as Deserialize<'de>>⟧.refusal)
        (rest_then (⟦<Chat as Deserialize<'de>>⟧.refusal)
        (others_left (name "id" ∷ []))) };

    ghost gives = { λ z.
        (RowThen (name "id") (⟦<u32 as Deserialize<'de>>⟧.gives) z.id
        (RestThen (⟦<Chat as Deserialize<'de>>⟧.gives) z.chat
        NoOthers)) };

    fn read<'n: 'de>(alloc: Global, fields: FieldsByName<'de, 'n>) -> Result<Post> {
        let row: Field1OfPost = ReadFields::read(alloc, fields)?;
        let ReadField(id, row, _) = row;
        let ReadRest(chat, _) = row;
        Ok(Post { id, chat })
    }
}

impl<'de> Deserialize<'de> for Post {
    ghost refusal = { flattened_refusal (read_by_name
        (row_then (name "id") (⟦<u32 as Deserialize<'de>>⟧.refusal)
        (rest_then (⟦<Chat as Deserialize<'de>>⟧.refusal)
        (others_left (name "id" ∷ []))))) };

    ghost gives = { λ s p. FlattenedGives (ReadByName
        (RowThen (name "id") (⟦<u32 as Deserialize<'de>>⟧.gives) p.id
        (RestThen (⟦<Chat as Deserialize<'de>>⟧.gives) p.chat
        NoOthers))) s };

    fn deserialize<'n: 'de>(alloc: Global, from: Deserializer<'de, 'n>) -> Result<Post> {
        read_flattened(alloc, from)
    }
}

/// A lock, which may say how it is opened.
#[derive(Drop, PartialEq, Eq)]
pub struct Lock {
    /// Its number.
    pub id: u32,
    /// By what it is opened.
    pub algorithm: Option<Algorithm>,
}

/// The names of its fields.
#[derive(Drop)]
struct FieldsOfLock;

impl Names for FieldsOfLock {
    ghost names = { name "id" ∷ [] };

    #[tactic(auto, unfolding(serde_content::specs::Literals::name))]
    fn names() -> &'static [&'static str] {
        &["id"]
    }
}

type Field1OfLock = ReadField<FieldsOfLock, 0, u32, Field2OfLock>;

type Field2OfLock = TryRest<Algorithm, OthersSkipped<FieldsOfLock>>;

impl<'de> ReadFields<'de> for Lock {
    ghost refusal = { row_then (name "id") (⟦<u32 as Deserialize<'de>>⟧.refusal)
        (others_left (name "id" ∷ [])) };

    ghost gives = { λ z.
        (RowThen (name "id") (⟦<u32 as Deserialize<'de>>⟧.gives) z.id
        (RestTried (⟦<Algorithm as Deserialize<'de>>⟧.refusal)
        (⟦<Algorithm as Deserialize<'de>>⟧.gives) z.algorithm
        NoOthers)) };

    fn read<'n: 'de>(alloc: Global, fields: FieldsByName<'de, 'n>) -> Result<Lock> {
        let row: Field1OfLock = ReadFields::read(alloc, fields)?;
        let ReadField(id, row, _) = row;
        let TryRest(algorithm, _) = row;
        Ok(Lock { id, algorithm })
    }
}

impl<'de> Deserialize<'de> for Lock {
    ghost refusal = { flattened_refusal (read_by_name
        (row_then (name "id") (⟦<u32 as Deserialize<'de>>⟧.refusal)
        (others_left (name "id" ∷ [])))) };

    ghost gives = { λ s p. FlattenedGives (ReadByName
        (RowThen (name "id") (⟦<u32 as Deserialize<'de>>⟧.gives) p.id
        (RestTried (⟦<Algorithm as Deserialize<'de>>⟧.refusal)
        (⟦<Algorithm as Deserialize<'de>>⟧.gives) p.algorithm
        NoOthers))) s };

    fn deserialize<'n: 'de>(alloc: Global, from: Deserializer<'de, 'n>) -> Result<Lock> {
        read_flattened(alloc, from)
    }
}
