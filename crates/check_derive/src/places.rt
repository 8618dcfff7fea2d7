//! Values of every sort inside others, four levels deep and more.
//!
//! Written by `tools/derive` from `places.rs`: change that file, and write this one anew.

ghost use Rattle.std.specs.Prelude.{◌≡◌, ◌∷◌, [], Option, None, codes};
ghost use Rattle.content_de.specs.Reads.Tuples.{part_then, end_of_parts, PartThen, NoPart};
ghost use Rattle.content_de.specs.Accesses.ByName.{fields_left};
ghost use Rattle.content_de.specs.Reads.Read.{Reads};
ghost use Rattle.content_de.specs.Reads.ByName.{read_by_name, ReadByName, NoOthers};
ghost use Rattle.content_de.specs.Reads.Tagged.{tag_then, TagThen, tag_then_buffered};
ghost use Rattle.content_de.specs.Reads.Tagged.{TagThenBuffered};
ghost use Rattle.content_de.specs.Reads.Own.{enum_refusal, EnumGives, unit_variant_refusal};
ghost use Rattle.content_de.specs.Reads.Own.{UnitVariantGives, newtype_variant_refusal};
ghost use Rattle.content_de.specs.Reads.Own.{NewtypeVariantGives, tuple_variant_refusal};
ghost use Rattle.content_de.specs.Reads.Own.{TupleVariantGives, struct_refusal, StructGives};
ghost use Rattle.content_de.specs.Reads.Own.{struct_variant_refusal, StructVariantGives};
ghost use Rattle.serde_content.specs.Literals.{name, row_then, row_or_then, RowThen, RowOrThen};
ghost use Rattle.serde_content.specs.Literals.{others_left};
ghost use Rattle.serde_content.specs.Variants.{variants};
ghost use Rattle.serde_content.specs.Laws.Flattened.{flattened_refusal, FlattenedGives};
ghost use Rattle.std.specs.declared.alloc.Global.{Global};
ghost use Rattle.std.specs.declared.vec.Vec.{Vec};
ghost use Rattle.std.specs.declared.boxed.Box.{Box};
ghost use Rattle.check_derive.specs.declared.places.Van.{Van};
ghost use Rattle.check_derive.specs.declared.sorts.Stop.{Stop};
ghost use Rattle.check_derive.specs.declared.sorts.Code.{Code};
ghost use Rattle.check_derive.specs.declared.places.Job.{Job};
ghost use Rattle.check_derive.specs.declared.places.Event.{Event};
ghost use Rattle.check_derive.specs.declared.places.Load.TheVariants as load;
ghost use Rattle.check_derive.specs.declared.places.Job.TheVariants as job;
ghost use Rattle.check_derive.specs.declared.places.Event.TheVariants as event;

use crate::choices::Setting;
use crate::inlined::Line;
use crate::sorts::{Code, Ledger, Stop};
use crate::types::{Place, Step};
use serde_content::de::{Deserialize, FieldsByName, VariantAccess};
use serde_content::derive_support::{
    Names, OthersSkipped, PartsEnd, ReadField, ReadFieldOr, ReadFields, ReadPart, ReadParts,
    ReadStruct, TaggedVariants, Variants, no_such_variant, read_adjacent, read_enum,
    read_flattened, read_struct, read_tagged, variant_index,
};
use serde_content::{Deserializer, Result};
use std::alloc::Global;
use std::collections::BTreeMap;

/// A depot.
#[derive(Drop)]
pub struct Depot {
    /// Its name.
    pub name: String,
    /// Who keeps it.
    pub keeper: Keeper,
    /// What drives from it.
    pub vans: Vec<Van>,
    /// How it runs.
    pub settings: BTreeMap<String, Setting>,
    /// What is on which floor.
    pub floors: BTreeMap<u8, Vec<Place>>,
    /// Where the signs point to.
    pub signs: BTreeMap<char, Stop>,
    /// Which codes are in use.
    pub ledger: Ledger,
    /// What drives in need.
    pub spare: Option<Box<Van>>,
}

/// The names of its fields.
#[derive(Drop)]
struct FieldsOfDepot;

impl Names for FieldsOfDepot {
    ghost names = { name "name" ∷ name "home" ∷ name "codes" ∷ name "vans" ∷
        name "settings" ∷ name "floors" ∷ name "signs" ∷ name "ledger" ∷ name "spare" ∷ [] };

    #[tactic(auto, unfolding(serde_content::specs::Literals::name))]
    fn names() -> &'static [&'static str] {
        &[
            "name", "home", "codes", "vans", "settings", "floors", "signs", "ledger", "spare",
        ]
    }
}

type Field1OfDepot = ReadField<FieldsOfDepot, 0, String, Field2OfDepot>;

type Field2OfDepot = ReadField<FieldsOfDepot, 1, Place, Field3OfDepot>;

type Field3OfDepot = ReadField<FieldsOfDepot, 2, (Code, (Code, Vec<u8>)), Field4OfDepot>;

type Field4OfDepot = ReadField<FieldsOfDepot, 3, Vec<Van>, Field5OfDepot>;

type Field5OfDepot = ReadField<FieldsOfDepot, 4, BTreeMap<String, Setting>, Field6OfDepot>;

type Field6OfDepot = ReadField<FieldsOfDepot, 5, BTreeMap<u8, Vec<Place>>, Field7OfDepot>;

type Field7OfDepot = ReadField<FieldsOfDepot, 6, BTreeMap<char, Stop>, Field8OfDepot>;

type Field8OfDepot = ReadField<FieldsOfDepot, 7, Ledger, From9OfDepot>;

type Field9OfDepot = ReadFieldOr<FieldsOfDepot, 8, Option<Box<Van>>, OthersSkipped<FieldsOfDepot>>;

/// The values from place 1 on.
#[derive(Drop)]
struct From1OfDepot(
    String,
    Place,
    (Code, (Code, Vec<u8>)),
    Vec<Van>,
    BTreeMap<String, Setting>,
    BTreeMap<u8, Vec<Place>>,
    BTreeMap<char, Stop>,
    Ledger,
    From9OfDepot,
);

impl<'de> ReadFields<'de> for From1OfDepot {
    ghost refusal = { λ f. ⟦<Field1OfDepot as ReadFields<'de>>⟧.refusal f };

    ghost gives = { λ z f.
        (RowThen (name "name") (⟦<String as Deserialize<'de>>⟧.gives) z.0
        (RowThen (name "home") (⟦<Place as Deserialize<'de>>⟧.gives) z.1
        (RowThen (name "codes") (⟦<(Code, (Code, Vec<u8>)) as Deserialize<'de>>⟧.gives) z.2
        (RowThen (name "vans") (⟦<Vec<Van> as Deserialize<'de>>⟧.gives) z.3
        (RowThen (name "settings") (⟦<BTreeMap<String, Setting> as Deserialize<'de>>⟧.gives)
        z.4
        (RowThen (name "floors") (⟦<BTreeMap<u8, Vec<Place>> as Deserialize<'de>>⟧.gives)
        z.5
        (RowThen (name "signs") (⟦<BTreeMap<char, Stop> as Deserialize<'de>>⟧.gives) z.6
        (RowThen (name "ledger") (⟦<Ledger as Deserialize<'de>>⟧.gives) z.7
        (⟦<From9OfDepot as ReadFields<'de>>⟧.gives z.8)))))))))
        f };

    fn read<'n: 'de>(alloc: Global, fields: FieldsByName<'de, 'n>) -> Result<Self> {
        let row: Field1OfDepot = ReadFields::read(alloc, fields)?;
        let ReadField(name, row, _) = row;
        let ReadField(keeper_home, row, _) = row;
        let ReadField(keeper_codes, row, _) = row;
        let ReadField(vans, row, _) = row;
        let ReadField(settings, row, _) = row;
        let ReadField(floors, row, _) = row;
        let ReadField(signs, row, _) = row;
        let ReadField(ledger, row, _) = row;
        Ok(From1OfDepot(
            name,
            keeper_home,
            keeper_codes,
            vans,
            settings,
            floors,
            signs,
            ledger,
            row,
        ))
    }
}

/// The values from place 9 on.
#[derive(Drop)]
struct From9OfDepot(Option<Box<Van>>);

impl<'de> ReadFields<'de> for From9OfDepot {
    ghost refusal = { λ f. ⟦<Field9OfDepot as ReadFields<'de>>⟧.refusal f };

    ghost gives = { λ z f.
        (RowOrThen (name "spare") (λ (x : (Option (Box Van Global))). x ≡ None)
        (⟦<Option<Box<Van>> as Deserialize<'de>>⟧.gives) z.0
        NoOthers)
        f };

    fn read<'n: 'de>(alloc: Global, fields: FieldsByName<'de, 'n>) -> Result<Self> {
        let row: Field9OfDepot = ReadFields::read(alloc, fields)?;
        let ReadFieldOr(spare, _, _) = row;
        Ok(From9OfDepot(spare))
    }
}

/// Its contract tells proofs what is made of the values.
fn make_depot(row: From1OfDepot) -> Depot
    ensures { result ≡ record {
      name = row.0;
      keeper = record {
        home = row.1;
        codes = row.2;
      };
      vans = row.3;
      settings = row.4;
      floors = row.5;
      signs = row.6;
      ledger = row.7;
      spare = row.8.0;
    } }
{
    let From1OfDepot(name, keeper_home, keeper_codes, vans, settings, floors, signs, ledger, row) =
        row;
    let From9OfDepot(spare) = row;
    Depot {
        name,
        keeper: Keeper {
            home: keeper_home,
            codes: keeper_codes,
        },
        vans,
        settings,
        floors,
        signs,
        ledger,
        spare,
    }
}

impl<'de> ReadFields<'de> for Depot {
    ghost refusal = { ⟦<From1OfDepot as ReadFields<'de>>⟧.refusal };

    ghost gives = { λ z.
        (⟦<From1OfDepot as ReadFields<'de>>⟧.gives
        (record {
          0 = z.name;
          1 = z.keeper.home;
          2 = z.keeper.codes;
          3 = z.vans;
          4 = z.settings;
          5 = z.floors;
          6 = z.signs;
          7 = z.ledger;
          8 = (record {
            0 = z.spare;
          });
        })) };

    fn read<'n: 'de>(alloc: Global, fields: FieldsByName<'de, 'n>) -> Result<Depot> {
        let row: From1OfDepot = ReadFields::read(alloc, fields)?;
        Ok(make_depot(row))
    }
}

impl<'de> Deserialize<'de> for Depot {
    ghost refusal = { flattened_refusal (read_by_name
        (⟦<From1OfDepot as ReadFields<'de>>⟧.refusal)) };

    ghost gives = { λ s p. FlattenedGives (ReadByName
        (⟦<From1OfDepot as ReadFields<'de>>⟧.gives
        (record {
          0 = p.name;
          1 = p.keeper.home;
          2 = p.keeper.codes;
          3 = p.vans;
          4 = p.settings;
          5 = p.floors;
          6 = p.signs;
          7 = p.ledger;
          8 = (record {
            0 = p.spare;
          });
        }))) s };

    fn deserialize<'n: 'de>(alloc: Global, from: Deserializer<'de, 'n>) -> Result<Depot> {
        read_flattened(alloc, from)
    }
}

/// Who keeps a depot.
#[derive(Drop)]
pub struct Keeper {
    /// Where the keeper lives.
    pub home: Place,
    /// A code, and another with numbers.
    pub codes: (Code, (Code, Vec<u8>)),
}

/// The names of its fields.
#[derive(Drop)]
struct FieldsOfKeeper;

impl Names for FieldsOfKeeper {
    ghost names = { name "home" ∷ name "codes" ∷ [] };

    #[tactic(auto, unfolding(serde_content::specs::Literals::name))]
    fn names() -> &'static [&'static str] {
        &["home", "codes"]
    }
}

type Field1OfKeeper = ReadField<FieldsOfKeeper, 0, Place, Field2OfKeeper>;

type Field2OfKeeper = ReadField<
    FieldsOfKeeper,
    1,
    (Code, (Code, Vec<u8>)),
    OthersSkipped<FieldsOfKeeper>,
>;

impl<'de> ReadStruct<'de> for Keeper {
    ghost name = { name "Keeper" };

    ghost refusal = { row_then (name "home") (⟦<Place as Deserialize<'de>>⟧.refusal)
        (row_then (name "codes") (⟦<(Code, (Code, Vec<u8>)) as Deserialize<'de>>⟧.refusal)
        (others_left (name "home" ∷ name "codes" ∷ []))) };

    ghost gives = { λ z.
        (RowThen (name "home") (⟦<Place as Deserialize<'de>>⟧.gives) z.home
        (RowThen (name "codes") (⟦<(Code, (Code, Vec<u8>)) as Deserialize<'de>>⟧.gives)
        z.codes
        NoOthers)) };

    #[tactic(auto, unfolding(serde_content::specs::Literals::name))]
    fn name() -> &'static str {
        "Keeper"
    }

    fn read<'n: 'de>(alloc: Global, fields: FieldsByName<'de, 'n>) -> Result<Keeper> {
        let row: Field1OfKeeper = ReadFields::read(alloc, fields)?;
        let ReadField(home, row, _) = row;
        let ReadField(codes, _, _) = row;
        Ok(Keeper { home, codes })
    }
}

impl<'de> Deserialize<'de> for Keeper {
    ghost refusal = { struct_refusal (name "Keeper") (read_by_name
        (row_then (name "home") (⟦<Place as Deserialize<'de>>⟧.refusal)
        (row_then (name "codes") (⟦<(Code, (Code, Vec<u8>)) as Deserialize<'de>>⟧.refusal)
        (others_left (name "home" ∷ name "codes" ∷ []))))) };

    ghost gives = { λ s p. StructGives (name "Keeper") (ReadByName
        (RowThen (name "home") (⟦<Place as Deserialize<'de>>⟧.gives) p.home
        (RowThen (name "codes") (⟦<(Code, (Code, Vec<u8>)) as Deserialize<'de>>⟧.gives)
        p.codes
        NoOthers))) s };

    fn deserialize<'n: 'de>(alloc: Global, from: Deserializer<'de, 'n>) -> Result<Keeper> {
        read_struct::<FieldsOfKeeper, Self>(alloc, from)
    }
}

/// What drives.
#[derive(Drop)]
pub struct Van {
    /// What is in it.
    pub load: Load,
    /// What it does.
    pub job: Option<Job>,
    /// What was seen of it.
    pub event: Option<Event>,
    /// Where it stops.
    pub route: Vec<Stop>,
}

/// The names of its fields.
#[derive(Drop)]
struct FieldsOfVan;

impl Names for FieldsOfVan {
    ghost names = { name "load" ∷ name "job" ∷ name "event" ∷ name "route" ∷ [] };

    #[tactic(auto, unfolding(serde_content::specs::Literals::name))]
    fn names() -> &'static [&'static str] {
        &["load", "job", "event", "route"]
    }
}

type Field1OfVan = ReadField<FieldsOfVan, 0, Load, Field2OfVan>;

type Field2OfVan = ReadFieldOr<FieldsOfVan, 1, Option<Job>, Field3OfVan>;

type Field3OfVan = ReadFieldOr<FieldsOfVan, 2, Option<Event>, Field4OfVan>;

type Field4OfVan = ReadFieldOr<FieldsOfVan, 3, Vec<Stop>, OthersSkipped<FieldsOfVan>>;

impl<'de> ReadStruct<'de> for Van {
    ghost name = { name "Van" };

    ghost refusal = { row_then (name "load") (⟦<Load as Deserialize<'de>>⟧.refusal)
        (row_or_then (name "job") (⟦<Option<Job> as Deserialize<'de>>⟧.refusal)
        (row_or_then (name "event") (⟦<Option<Event> as Deserialize<'de>>⟧.refusal)
        (row_or_then (name "route") (⟦<Vec<Stop> as Deserialize<'de>>⟧.refusal)
        (others_left (name "load" ∷ name "job" ∷ name "event" ∷ name "route" ∷ []))))) };

    ghost gives = { λ z.
        (RowThen (name "load") (⟦<Load as Deserialize<'de>>⟧.gives) z.load
        (RowOrThen (name "job") (λ (x : (Option Job)). x ≡ None)
        (⟦<Option<Job> as Deserialize<'de>>⟧.gives) z.job
        (RowOrThen (name "event") (λ (x : (Option Event)). x ≡ None)
        (⟦<Option<Event> as Deserialize<'de>>⟧.gives) z.event
        (RowOrThen (name "route") (λ (x : (Vec Stop Global)). x.items ≡ [])
        (⟦<Vec<Stop> as Deserialize<'de>>⟧.gives) z.route
        NoOthers)))) };

    #[tactic(auto, unfolding(serde_content::specs::Literals::name))]
    fn name() -> &'static str {
        "Van"
    }

    fn read<'n: 'de>(alloc: Global, fields: FieldsByName<'de, 'n>) -> Result<Van> {
        let row: Field1OfVan = ReadFields::read(alloc, fields)?;
        let ReadField(load, row, _) = row;
        let ReadFieldOr(job, row, _) = row;
        let ReadFieldOr(event, row, _) = row;
        let ReadFieldOr(route, _, _) = row;
        Ok(Van {
            load,
            job,
            event,
            route,
        })
    }
}

impl<'de> Deserialize<'de> for Van {
    ghost refusal = { struct_refusal (name "Van") (read_by_name
        (row_then (name "load") (⟦<Load as Deserialize<'de>>⟧.refusal)
        (row_or_then (name "job") (⟦<Option<Job> as Deserialize<'de>>⟧.refusal)
        (row_or_then (name "event") (⟦<Option<Event> as Deserialize<'de>>⟧.refusal)
        (row_or_then (name "route") (⟦<Vec<Stop> as Deserialize<'de>>⟧.refusal)
        (others_left (name "load" ∷ name "job" ∷ name "event" ∷ name "route" ∷ []))))))) };

    ghost gives = { λ s p. StructGives (name "Van") (ReadByName
        (RowThen (name "load") (⟦<Load as Deserialize<'de>>⟧.gives) p.load
        (RowOrThen (name "job") (λ (x : (Option Job)). x ≡ None)
        (⟦<Option<Job> as Deserialize<'de>>⟧.gives) p.job
        (RowOrThen (name "event") (λ (x : (Option Event)). x ≡ None)
        (⟦<Option<Event> as Deserialize<'de>>⟧.gives) p.event
        (RowOrThen (name "route") (λ (x : (Vec Stop Global)). x.items ≡ [])
        (⟦<Vec<Stop> as Deserialize<'de>>⟧.gives) p.route
        NoOthers))))) s };

    fn deserialize<'n: 'de>(alloc: Global, from: Deserializer<'de, 'n>) -> Result<Van> {
        read_struct::<FieldsOfVan, Self>(alloc, from)
    }
}

/// What is in a van.
#[derive(Drop)]
pub enum Load {
    /// Nothing.
    Empty,
    /// What goes to one place.
    One(Box<Place>),
    /// What goes from one stop to another.
    Two(Stop, Stop),
    /// What goes to many.
    Many {
        /// What it is.
        lines: Vec<Line>,
        /// The seal.
        seal: Option<Code>,
    },
}

type Part1OfLoadTwo = ReadPart<2, 0, Stop, Part2OfLoadTwo>;

type Part2OfLoadTwo = ReadPart<2, 1, Stop, PartsEnd<2>>;

/// The names of its fields.
#[derive(Drop)]
struct FieldsOfLoadMany;

impl Names for FieldsOfLoadMany {
    ghost names = { name "lines" ∷ name "seal-of" ∷ [] };

    #[tactic(auto, unfolding(serde_content::specs::Literals::name))]
    fn names() -> &'static [&'static str] {
        &["lines", "seal-of"]
    }
}

type Field1OfLoadMany = ReadField<FieldsOfLoadMany, 0, Vec<Line>, Field2OfLoadMany>;

type Field2OfLoadMany = ReadFieldOr<
    FieldsOfLoadMany,
    1,
    Option<Code>,
    OthersSkipped<FieldsOfLoadMany>,
>;

/// Reads the fields, in any order.
fn read_load_many<'de, 'n: 'de>(
    alloc: Global,
    fields: FieldsByName<'de, 'n>,
) -> Result<(Vec<Line>, Option<Code>)>
    ensures { Reads (
        (row_then (name "lines") (⟦<Vec<Line> as Deserialize<'de>>⟧.refusal)
        (row_or_then (name "seal-of") (⟦<Option<Code> as Deserialize<'de>>⟧.refusal)
        (others_left (name "lines" ∷ name "seal-of" ∷ []))))
        (fields_left fields.entry))
        (λ z.
        (RowThen (name "lines") (⟦<Vec<Line> as Deserialize<'de>>⟧.gives) z.0
        (RowOrThen (name "seal-of") (λ (x : (Option Code)). x ≡ None)
        (⟦<Option<Code> as Deserialize<'de>>⟧.gives) z.1
        NoOthers))
        (fields_left fields.entry)) result }
{
    let row: Field1OfLoadMany = ReadFields::read(alloc, fields)?;
    let ReadField(lines, row, _) = row;
    let ReadFieldOr(seal, _, _) = row;
    Ok((lines, seal))
}

/// The names of its variants.
#[derive(Drop)]
struct NamesOfLoad;

impl Names for NamesOfLoad {
    ghost names = { name "empty" ∷ name "one" ∷ name "two" ∷ name "many" ∷ [] };

    #[tactic(auto, unfolding(serde_content::specs::Literals::name))]
    fn names() -> &'static [&'static str] {
        &["empty", "one", "two", "many"]
    }
}

impl<'de> Variants<'de> for Load {
    ghost name = { name "Load" };

    ghost refusal = { variants (
        (name "empty", unit_variant_refusal)
        ∷ (name "one", newtype_variant_refusal (⟦<Box<Place> as Deserialize<'de>>⟧.refusal))
        ∷ (
          name "two",
          tuple_variant_refusal
              (part_then 2 0 (⟦<Stop as Deserialize<'de>>⟧.refusal)
              (part_then 2 1 (⟦<Stop as Deserialize<'de>>⟧.refusal)
              (end_of_parts 2))),
        )
        ∷ (
          name "many",
          struct_variant_refusal (read_by_name
              (row_then (name "lines") (⟦<Vec<Line> as Deserialize<'de>>⟧.refusal)
              (row_or_then (name "seal-of") (⟦<Option<Code> as Deserialize<'de>>⟧.refusal)
              (others_left (name "lines" ∷ name "seal-of" ∷ []))))),
        )
        ∷ []) };

    ghost named = { elim [
      | load.Empty ↦ name "empty"
      | load.One x1 ↦ name "one"
      | load.Two x1 x2 ↦ name "two"
      | load.Many x1 x2 ↦ name "many"
    ] };

    ghost held = { elim [
      | load.Empty ↦ UnitVariantGives
      | load.One x1 ↦ NewtypeVariantGives (⟦<Box<Place> as Deserialize<'de>>⟧.gives) x1
      | load.Two x1 x2 ↦ TupleVariantGives
          (PartThen (⟦<Stop as Deserialize<'de>>⟧.gives) x1
          (PartThen (⟦<Stop as Deserialize<'de>>⟧.gives) x2
          NoPart))
      | load.Many x1 x2 ↦ StructVariantGives (ReadByName
          (RowThen (name "lines") (⟦<Vec<Line> as Deserialize<'de>>⟧.gives) x1
          (RowOrThen (name "seal-of") (λ (x : (Option Code)). x ≡ None)
          (⟦<Option<Code> as Deserialize<'de>>⟧.gives) x2
          NoOthers)))
    ] };

    #[tactic(auto, unfolding(serde_content::specs::Literals::name))]
    fn name() -> &'static str {
        "Load"
    }

    fn names() -> &'static [&'static str] {
        NamesOfLoad::names()
    }

    fn read_variant<'n: 'de>(
        alloc: Global,
        tag: &str,
        variant: VariantAccess<'de, 'n>,
    ) -> Result<Load> {
        match variant_index(tag, &NamesOfLoad) {
            Some(0) => {
                variant.unit_variant(alloc)?;
                Ok(Load::Empty)
            }
            Some(1) => Ok(Load::One(variant.newtype_variant(alloc)?)),
            Some(2) => {
                let parts = variant.tuple_variant(alloc, 2)?;
                let row: Part1OfLoadTwo = ReadParts::read(alloc, parts)?;
                let ReadPart(x1, row) = row;
                let ReadPart(x2, _) = row;
                Ok(Load::Two(x1, x2))
            }
            Some(3) => {
                let fields = variant
                    .struct_variant(alloc, FieldsOfLoadMany::names())?
                    .by_name();
                let (lines, seal) = read_load_many(alloc, fields)?;
                Ok(Load::Many { lines, seal })
            }
            _ => {
                drop(variant);
                Err(no_such_variant(alloc, tag, &NamesOfLoad))
            }
        }
    }
}

impl<'de> Deserialize<'de> for Load {
    ghost refusal = { enum_refusal (name "Load") ⟦<Load as Variants<'de>>⟧.refusal };

    ghost gives = { λ s y. EnumGives (name "Load")
        (⟦<Load as Variants<'de>>⟧.named y)
        (⟦<Load as Variants<'de>>⟧.held y) s };

    fn deserialize<'n: 'de>(alloc: Global, from: Deserializer<'de, 'n>) -> Result<Load> {
        read_enum(alloc, from)
    }
}

/// What a van does, told by the field `do`.
#[derive(Drop)]
pub enum Job {
    /// Nothing.
    Rest,
    /// It drives.
    Drive {
        /// To where.
        to: Stop,
        /// By which places.
        by: Vec<Place>,
    },
}

/// The names of its fields.
#[derive(Drop)]
struct FieldsOfJobRest;

impl Names for FieldsOfJobRest {
    ghost names = { name "do" ∷ [] };

    #[tactic(auto, unfolding(serde_content::specs::Literals::name))]
    fn names() -> &'static [&'static str] {
        &["do"]
    }
}

/// The names of its fields.
#[derive(Drop)]
struct FieldsOfJobDrive;

impl Names for FieldsOfJobDrive {
    ghost names = { name "do" ∷ name "to" ∷ name "by" ∷ [] };

    #[tactic(auto, unfolding(serde_content::specs::Literals::name))]
    fn names() -> &'static [&'static str] {
        &["do", "to", "by"]
    }
}

type Field1OfJobDrive = ReadField<FieldsOfJobDrive, 1, Stop, Field2OfJobDrive>;

type Field2OfJobDrive = ReadField<FieldsOfJobDrive, 2, Vec<Place>, OthersSkipped<FieldsOfJobDrive>>;

/// Reads the fields, in any order.
fn read_job_drive<'de, 'n: 'de>(
    alloc: Global,
    fields: FieldsByName<'de, 'n>,
) -> Result<(Stop, Vec<Place>)>
    ensures { Reads (
        (row_then (name "to") (⟦<Stop as Deserialize<'de>>⟧.refusal)
        (row_then (name "by") (⟦<Vec<Place> as Deserialize<'de>>⟧.refusal)
        (others_left (name "do" ∷ name "to" ∷ name "by" ∷ []))))
        (fields_left fields.entry))
        (λ z.
        (RowThen (name "to") (⟦<Stop as Deserialize<'de>>⟧.gives) z.0
        (RowThen (name "by") (⟦<Vec<Place> as Deserialize<'de>>⟧.gives) z.1
        NoOthers))
        (fields_left fields.entry)) result }
{
    let row: Field1OfJobDrive = ReadFields::read(alloc, fields)?;
    let ReadField(to, row, _) = row;
    let ReadField(by, _, _) = row;
    Ok((to, by))
}

/// The names of its variants.
#[derive(Drop)]
struct NamesOfJob;

impl Names for NamesOfJob {
    ghost names = { name "rest" ∷ name "drive" ∷ [] };

    #[tactic(auto, unfolding(serde_content::specs::Literals::name))]
    fn names() -> &'static [&'static str] {
        &["rest", "drive"]
    }
}

impl<'de> TaggedVariants<'de> for Job {
    ghost name = { name "Job" };

    ghost tag_name = { name "do" };

    ghost refusal = { variants (
        (name "rest", (others_left (name "do" ∷ [])))
        ∷ (
          name "drive",
          (row_then (name "to") (⟦<Stop as Deserialize<'de>>⟧.refusal)
              (row_then (name "by") (⟦<Vec<Place> as Deserialize<'de>>⟧.refusal)
              (others_left (name "do" ∷ name "to" ∷ name "by" ∷ [])))),
        )
        ∷ []) };

    ghost named = { elim [
      | job.Rest ↦ name "rest"
      | job.Drive x1 x2 ↦ name "drive"
    ] };

    ghost held = { elim [
      | job.Rest ↦ NoOthers
      | job.Drive x1 x2 ↦ (RowThen (name "to") (⟦<Stop as Deserialize<'de>>⟧.gives) x1
          (RowThen (name "by") (⟦<Vec<Place> as Deserialize<'de>>⟧.gives) x2
          NoOthers))
    ] };

    #[tactic(auto, unfolding(serde_content::specs::Literals::name))]
    fn name() -> &'static str {
        "Job"
    }

    #[tactic(auto, unfolding(serde_content::specs::Literals::name))]
    fn tag() -> &'static str {
        "do"
    }

    fn read_variant<'n: 'de>(
        alloc: Global,
        tag: &str,
        fields: FieldsByName<'de, 'n>,
    ) -> Result<Job> {
        match variant_index(tag, &NamesOfJob) {
            Some(0) => {
                let _: OthersSkipped<FieldsOfJobRest> = ReadFields::read(alloc, fields)?;
                Ok(Job::Rest)
            }
            Some(1) => {
                let (to, by) = read_job_drive(alloc, fields)?;
                Ok(Job::Drive { to, by })
            }
            _ => {
                drop(fields);
                Err(no_such_variant(alloc, tag, &NamesOfJob))
            }
        }
    }
}

impl<'de> Deserialize<'de> for Job {
    ghost refusal = { struct_refusal (name "Job")
        (read_by_name (tag_then_buffered (name "do")
        ⟦<Job as TaggedVariants<'de>>⟧.refusal)) };

    ghost gives = { λ s y. StructGives (name "Job") (ReadByName
        (TagThenBuffered (name "do")
        (⟦<Job as TaggedVariants<'de>>⟧.named y)
        (⟦<Job as TaggedVariants<'de>>⟧.held y))) s };

    fn deserialize<'n: 'de>(alloc: Global, from: Deserializer<'de, 'n>) -> Result<Job> {
        read_tagged(alloc, from)
    }
}

/// What was seen of a van, told by the field `t`, with more in the field `c`.
#[derive(Drop)]
pub enum Event {
    /// Nothing.
    Idle,
    /// What became of orders.
    Steps(Vec<Step>),
}

/// The names of its fields.
#[derive(Drop)]
struct FieldsOfEventIdle;

impl Names for FieldsOfEventIdle {
    ghost names = { name "t" ∷ [] };

    #[tactic(auto, unfolding(serde_content::specs::Literals::name))]
    fn names() -> &'static [&'static str] {
        &["t"]
    }
}

/// The names of its fields.
#[derive(Drop)]
struct FieldsOfEventSteps;

impl Names for FieldsOfEventSteps {
    ghost names = { name "t" ∷ name "c" ∷ [] };

    #[tactic(auto, unfolding(serde_content::specs::Literals::name))]
    fn names() -> &'static [&'static str] {
        &["t", "c"]
    }
}

type Field1OfEventSteps = ReadField<
    FieldsOfEventSteps,
    1,
    Vec<Step>,
    OthersSkipped<FieldsOfEventSteps>,
>;

/// Reads the fields, in any order.
fn read_event_steps<'de, 'n: 'de>(alloc: Global, fields: FieldsByName<'de, 'n>) -> Result<Vec<Step>>
    ensures { Reads (
        (row_then (name "c") (⟦<Vec<Step> as Deserialize<'de>>⟧.refusal)
        (others_left (name "t" ∷ name "c" ∷ [])))
        (fields_left fields.entry))
        (λ z.
        (RowThen (name "c") (⟦<Vec<Step> as Deserialize<'de>>⟧.gives) z
        NoOthers)
        (fields_left fields.entry)) result }
{
    let row: Field1OfEventSteps = ReadFields::read(alloc, fields)?;
    let ReadField(x1, _, _) = row;
    Ok(x1)
}

/// The names of its variants.
#[derive(Drop)]
struct NamesOfEvent;

impl Names for NamesOfEvent {
    ghost names = { name "idle" ∷ name "steps" ∷ [] };

    #[tactic(auto, unfolding(serde_content::specs::Literals::name))]
    fn names() -> &'static [&'static str] {
        &["idle", "steps"]
    }
}

impl<'de> TaggedVariants<'de> for Event {
    ghost name = { name "Event" };

    ghost tag_name = { name "t" };

    ghost refusal = { variants (
        (name "idle", (others_left (name "t" ∷ [])))
        ∷ (
          name "steps",
          (row_then (name "c") (⟦<Vec<Step> as Deserialize<'de>>⟧.refusal)
              (others_left (name "t" ∷ name "c" ∷ []))),
        )
        ∷ []) };

    ghost named = { elim [
      | event.Idle ↦ name "idle"
      | event.Steps x1 ↦ name "steps"
    ] };

    ghost held = { elim [
      | event.Idle ↦ NoOthers
      | event.Steps x1 ↦ (RowThen (name "c") (⟦<Vec<Step> as Deserialize<'de>>⟧.gives) x1
          NoOthers)
    ] };

    #[tactic(auto, unfolding(serde_content::specs::Literals::name))]
    fn name() -> &'static str {
        "Event"
    }

    #[tactic(auto, unfolding(serde_content::specs::Literals::name))]
    fn tag() -> &'static str {
        "t"
    }

    fn read_variant<'n: 'de>(
        alloc: Global,
        tag: &str,
        fields: FieldsByName<'de, 'n>,
    ) -> Result<Event> {
        match variant_index(tag, &NamesOfEvent) {
            Some(0) => {
                let _: OthersSkipped<FieldsOfEventIdle> = ReadFields::read(alloc, fields)?;
                Ok(Event::Idle)
            }
            Some(1) => {
                let x1 = read_event_steps(alloc, fields)?;
                Ok(Event::Steps(x1))
            }
            _ => {
                drop(fields);
                Err(no_such_variant(alloc, tag, &NamesOfEvent))
            }
        }
    }
}

impl<'de> Deserialize<'de> for Event {
    ghost refusal = { struct_refusal (name "Event") (read_by_name (tag_then (name "t")
        ⟦<Event as TaggedVariants<'de>>⟧.refusal)) };

    ghost gives = { λ s y. StructGives (name "Event") (ReadByName
        (TagThen (name "t")
        (⟦<Event as TaggedVariants<'de>>⟧.named y)
        (⟦<Event as TaggedVariants<'de>>⟧.held y))) s };

    fn deserialize<'n: 'de>(alloc: Global, from: Deserializer<'de, 'n>) -> Result<Event> {
        read_adjacent(alloc, from)
    }
}
