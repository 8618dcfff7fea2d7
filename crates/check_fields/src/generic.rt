//! Types with parameters: what they hold is read at once.
//!
//! Written by `tools/derive` from `generic.rs`: change that file, and write this one anew.

ghost use Rattle.std.specs.Prelude.{◌≡◌, ◌∷◌, [], Bool, Option, None, false, refl};
ghost use Rattle.content_ser.specs.Scripts.Sends.{Sends};
ghost use Rattle.content_ser.specs.Scripts.Own.{field_first, tuple_field_first, end_script};
ghost use Rattle.content_ser.specs.Scripts.Own.{unit_variant_script, tuple_struct_script};
ghost use Rattle.content_ser.specs.Scripts.Own.{tuple_variant_script, struct_script};
ghost use Rattle.content_ser.specs.Scripts.Own.{struct_variant_script};
ghost use Rattle.content_ser.specs.Laws.StandardScripts.{leaf_lawful, option_lawful, seq_lawful};
ghost use Rattle.content_ser.specs.Laws.StandardScripts.{map_lawful};
ghost use Rattle.content_ser.specs.Laws.OwnScripts.{field_fits, struct_end_fits, tuple_field_fits};
ghost use Rattle.content_ser.specs.Laws.OwnScripts.{tuple_end_fits, unit_variant_lawful};
ghost use Rattle.content_ser.specs.Laws.OwnScripts.{tuple_struct_lawful, tuple_variant_lawful};
ghost use Rattle.content_ser.specs.Laws.OwnScripts.{struct_lawful, struct_variant_lawful};
ghost use Rattle.content_de.specs.Reads.Tuples.{PartThen, NoPart};
ghost use Rattle.content_de.specs.Reads.ByName.{read_by_name, ReadByName, NoOthers};
ghost use Rattle.content_de.specs.Reads.Tagged.{tag_then_buffered, TagThenBuffered};
ghost use Rattle.content_de.specs.Reads.Own.{enum_refusal, EnumGives, unit_variant_refusal};
ghost use Rattle.content_de.specs.Reads.Own.{UnitVariantGives, tuple_struct_refusal};
ghost use Rattle.content_de.specs.Reads.Own.{TupleStructGives, tuple_variant_refusal};
ghost use Rattle.content_de.specs.Reads.Own.{TupleVariantGives, struct_refusal, StructGives};
ghost use Rattle.content_de.specs.Reads.Own.{struct_variant_refusal, StructVariantGives};
ghost use Rattle.serde_content.specs.Literals.{name, RowThen, RowOrThen, others_left};
ghost use Rattle.serde_content.specs.Skips.{UnreadThen};
ghost use Rattle.serde_content.specs.Variants.{variants};
ghost use Rattle.serde_content.specs.Laws.Tagged.{tagged_script};
ghost use Rattle.std.specs.declared.alloc.Global.{Global};
ghost use Rattle.std.specs.declared.boxed.Box.{Box};
ghost use Rattle.check_fields.specs.declared.generic.Event.TheVariants as event;
ghost use Rattle.check_fields.specs.declared.generic.Notice.TheVariants as notice;

use serde_content::de::{Deserialize, FieldsByName, VariantAccess};
use serde_content::derive_support::{
    Absent, Names, OthersSkipped, PartsEnd, ReadField, ReadFieldOr, ReadFields, ReadPart,
    ReadParts, ReadStruct, SendEnd, SendField, SendOpen, SendPart, SendTag, TaggedVariants,
    Variants, no_such_variant, read_enum, read_struct, read_tagged, send_row, variant_index,
};
use serde_content::ser::{Call, Serialize, Serializer};
use serde_content::{Deserializer, Error, Result};
use std::alloc::Global;
use std::collections::HashMap;

/// A page of what a search found.
#[derive(Drop)]
pub struct Hits<T> {
    pub query: String,
    pub items: Vec<T>,
    pub by_name: HashMap<String, T>,
    pub best: Option<Box<T>>,
    pub page: u16,
    pub pages: u16,
    pub exact: bool,
    pub took: u32,
    pub left: u8,
}

/// The names of its fields.
#[derive(Drop)]
struct FieldsOfHits;

impl Names for FieldsOfHits {
    ghost names = { name "query" ∷ name "items" ∷ name "by_name" ∷ name "best" ∷
        name "page" ∷ name "pages" ∷ name "exact" ∷ name "took" ∷ name "left" ∷ [] };

    #[tactic(auto, unfolding(serde_content::specs::Literals::name))]
    fn names() -> &'static [&'static str] {
        &[
            "query", "items", "by_name", "best", "page", "pages", "exact", "took", "left",
        ]
    }
}

/// The values from place 6 on, as they are sent.
#[derive(Drop)]
struct Sent6OfHits<'sent>(&'sent u16, &'sent bool, &'sent u32, &'sent u8);

impl<'sent> serde_content::derive_support::SendRow for Sent6OfHits<'sent> {
    ghost script = { λ row. field_first (name "pages")
        (⟦<u16 as Serialize>⟧.script row.0.now)
        (field_first (name "exact") (⟦<bool as Serialize>⟧.script row.1.now)
        (field_first (name "took") (⟦<u32 as Serialize>⟧.script row.2.now)
        (field_first (name "left") (⟦<u8 as Serialize>⟧.script row.3.now)
        end_script))) };

    fn send<S: Serializer>(
        &self,
        alloc: Global,
        serializer: &mut S,
        error: &mut serde_content::Error,
    ) -> serde_content::ser::Sent {
        let row = SendEnd;
        let row = SendField(FieldsOfHits, 8, self.3, row);
        let row = SendField(FieldsOfHits, 7, self.2, row);
        let row = SendField(FieldsOfHits, 6, self.1, row);
        let row = SendField(FieldsOfHits, 5, self.0, row);
        serde_content::derive_support::SendRow::send(&row, alloc, serializer, error)
    }
}

type Field1OfHits<T> = ReadField<FieldsOfHits, 0, String, Field2OfHits<T>>;

type Field2OfHits<T> = ReadField<FieldsOfHits, 1, Vec<T>, Field3OfHits<T>>;

type Field3OfHits<T> = ReadField<FieldsOfHits, 2, HashMap<String, T>, Field4OfHits<T>>;

type Field4OfHits<T> = ReadFieldOr<FieldsOfHits, 3, Option<Box<T>>, Field5OfHits>;

type Field5OfHits = ReadField<FieldsOfHits, 4, u16, Field6OfHits>;

type Field6OfHits = ReadField<FieldsOfHits, 5, u16, Field7OfHits>;

type Field7OfHits = ReadField<FieldsOfHits, 6, bool, Field8OfHits>;

type Field8OfHits = ReadField<FieldsOfHits, 7, u32, From9OfHits>;

type Field9OfHits = ReadField<FieldsOfHits, 8, u8, OthersSkipped<FieldsOfHits>>;

/// The values from place 1 on.
#[derive(Drop)]
struct From1OfHits<T>(
    String,
    Vec<T>,
    HashMap<String, T>,
    Option<Box<T>>,
    u16,
    u16,
    bool,
    u32,
    From9OfHits,
);

impl<'de, T: Deserialize<'de>> ReadFields<'de> for From1OfHits<T> {
    ghost refusal = { λ f. ⟦<Field1OfHits<T> as ReadFields<'de>>⟧.refusal f };

    ghost gives = { λ z f.
        (RowThen (name "query") (⟦<String as Deserialize<'de>>⟧.gives) z.0
        (RowThen (name "items") (⟦<Vec<T> as Deserialize<'de>>⟧.gives) z.1
        (RowThen (name "by_name") (⟦<HashMap<String, T> as Deserialize<'de>>⟧.gives) z.2
        (RowOrThen (name "best") (λ (x : (Option (Box T Global))). x ≡ None)
        (⟦<Option<Box<T>> as Deserialize<'de>>⟧.gives) z.3
        (RowThen (name "page") (⟦<u16 as Deserialize<'de>>⟧.gives) z.4
        (RowThen (name "pages") (⟦<u16 as Deserialize<'de>>⟧.gives) z.5
        (RowThen (name "exact") (⟦<bool as Deserialize<'de>>⟧.gives) z.6
        (RowThen (name "took") (⟦<u32 as Deserialize<'de>>⟧.gives) z.7
        (⟦<From9OfHits as ReadFields<'de>>⟧.gives z.8)))))))))
        f };

    fn read<'n: 'de>(alloc: Global, fields: FieldsByName<'de, 'n>) -> Result<Self> {
        let row: Field1OfHits<T> = ReadFields::read(alloc, fields)?;
        let ReadField(query, row, _) = row;
        let ReadField(items, row, _) = row;
        let ReadField(by_name, row, _) = row;
        let ReadFieldOr(best, row, _) = row;
        let ReadField(page, row, _) = row;
        let ReadField(pages, row, _) = row;
        let ReadField(exact, row, _) = row;
        let ReadField(took, row, _) = row;
        Ok(From1OfHits(query, items, by_name, best, page, pages, exact, took, row))
    }
}

/// The values from place 9 on.
#[derive(Drop)]
struct From9OfHits(u8);

impl<'de> ReadFields<'de> for From9OfHits {
    ghost refusal = { λ f. ⟦<Field9OfHits as ReadFields<'de>>⟧.refusal f };

    ghost gives = { λ z f.
        (RowThen (name "left") (⟦<u8 as Deserialize<'de>>⟧.gives) z.0
        NoOthers)
        f };

    fn read<'n: 'de>(alloc: Global, fields: FieldsByName<'de, 'n>) -> Result<Self> {
        let row: Field9OfHits = ReadFields::read(alloc, fields)?;
        let ReadField(left, _, _) = row;
        Ok(From9OfHits(left))
    }
}

impl<T> serde_content::derive_support::MadeOf<From1OfHits<T>> for Hits<T> {
    ghost made_of = { λ z. (record {
      0 = z.query;
      1 = z.items;
      2 = z.by_name;
      3 = z.best;
      4 = z.page;
      5 = z.pages;
      6 = z.exact;
      7 = z.took;
      8 = (record {
        0 = z.left;
      });
    }) };

    fn make(row: From1OfHits<T>) -> Hits<T> {
        let From1OfHits(query, items, by_name, best, page, pages, exact, took, row) = row;
        let From9OfHits(left) = row;
        Hits {
            query,
            items,
            by_name,
            best,
            page,
            pages,
            exact,
            took,
            left,
        }
    }
}

impl<'de, T: Deserialize<'de>> ReadStruct<'de> for Hits<T> {
    ghost name = { name "Hits" };

    ghost refusal = { ⟦<From1OfHits<T> as ReadFields<'de>>⟧.refusal };

    ghost gives = { λ z.
        (⟦<From1OfHits<T> as ReadFields<'de>>⟧.gives
        (record {
          0 = z.query;
          1 = z.items;
          2 = z.by_name;
          3 = z.best;
          4 = z.page;
          5 = z.pages;
          6 = z.exact;
          7 = z.took;
          8 = (record {
            0 = z.left;
          });
        })) };

    #[tactic(auto, unfolding(serde_content::specs::Literals::name))]
    fn name() -> &'static str {
        "Hits"
    }

    fn read<'n: 'de>(alloc: Global, fields: FieldsByName<'de, 'n>) -> Result<Hits<T>> {
        serde_content::derive_support::read_made::<From1OfHits<T>, Self>(alloc, fields)
    }
}

impl<T: Serialize> Serialize for Hits<T> {
    ghost script = { λ p. struct_script (name "Hits") 9
        (field_first (name "query") (⟦<String as Serialize>⟧.script p.query)
        (field_first (name "items") (⟦<Vec<T> as Serialize>⟧.script p.items)
        (field_first (name "by_name") (⟦<HashMap<String, T> as Serialize>⟧.script p.by_name)
        (field_first (name "best") (⟦<Option<Box<T>> as Serialize>⟧.script p.best)
        (field_first (name "page") (⟦<u16 as Serialize>⟧.script p.page)
        (field_first (name "pages") (⟦<u16 as Serialize>⟧.script p.pages)
        (field_first (name "exact") (⟦<bool as Serialize>⟧.script p.exact)
        (field_first (name "took") (⟦<u32 as Serialize>⟧.script p.took)
        (field_first (name "left") (⟦<u8 as Serialize>⟧.script p.left)
        end_script))))))))) };

    ghost lawful = { λ p readable. struct_lawful
        (field_fits (leaf_lawful refl)
        (field_fits (seq_lawful (λ x h. T.lawful x h) p.items.items readable)
        (field_fits (map_lawful (λ x h. leaf_lawful refl) (λ x h. T.lawful x h)
        p.by_name.entries readable)
        (field_fits (option_lawful (λ x h. T.lawful x.value h) p.best readable)
        (field_fits (leaf_lawful refl)
        (field_fits (leaf_lawful refl)
        (field_fits (leaf_lawful refl)
        (field_fits (leaf_lawful refl)
        (field_fits (leaf_lawful refl)
        struct_end_fits))))))))) };

    fn serialize<S: Serializer>(&self, alloc: Global, serializer: &mut S) -> Result<()> {
        let row = Sent6OfHits(&self.pages, &self.exact, &self.took, &self.left);
        let row = SendField(FieldsOfHits, 4, &self.page, row);
        let row = SendField(FieldsOfHits, 3, &self.best, row);
        let row = SendField(FieldsOfHits, 2, &self.by_name, row);
        let row = SendField(FieldsOfHits, 1, &self.items, row);
        let row = SendField(FieldsOfHits, 0, &self.query, row);
        let row = SendOpen(Call::Struct(name_hits(), 9), row);
        send_row(alloc, serializer, &row)
    }
}

impl<'de, T: Deserialize<'de>> Deserialize<'de> for Hits<T> {
    ghost refusal = { struct_refusal (name "Hits") (read_by_name
        (⟦<From1OfHits<T> as ReadFields<'de>>⟧.refusal)) };

    ghost gives = { λ s p. StructGives (name "Hits") (ReadByName
        (⟦<From1OfHits<T> as ReadFields<'de>>⟧.gives
        (record {
          0 = p.query;
          1 = p.items;
          2 = p.by_name;
          3 = p.best;
          4 = p.page;
          5 = p.pages;
          6 = p.exact;
          7 = p.took;
          8 = (record {
            0 = p.left;
          });
        }))) s };

    fn deserialize<'n: 'de>(alloc: Global, from: Deserializer<'de, 'n>) -> Result<Hits<T>> {
        read_struct::<FieldsOfHits, Self>(alloc, from)
    }
}

/// A row of a table: its cells, seven counts, and whether it is hidden.
#[derive(Drop)]
pub struct Row<T>(
    pub Vec<T>,
    pub u8,
    pub u8,
    pub u8,
    pub u8,
    pub u8,
    pub u8,
    pub u8,
    pub bool,
);

/// The values from place 6 on, as they are sent.
#[derive(Drop)]
struct Sent6OfRow<'sent>(&'sent u8, &'sent u8, &'sent u8, &'sent bool);

impl<'sent> serde_content::derive_support::SendRow for Sent6OfRow<'sent> {
    ghost script = { λ row. tuple_field_first (⟦<u8 as Serialize>⟧.script row.0.now)
        (tuple_field_first (⟦<u8 as Serialize>⟧.script row.1.now)
        (tuple_field_first (⟦<u8 as Serialize>⟧.script row.2.now)
        (tuple_field_first (⟦<bool as Serialize>⟧.script row.3.now)
        end_script))) };

    fn send<S: Serializer>(
        &self,
        alloc: Global,
        serializer: &mut S,
        error: &mut serde_content::Error,
    ) -> serde_content::ser::Sent {
        let row = SendEnd;
        let row = SendPart(self.3, row);
        let row = SendPart(self.2, row);
        let row = SendPart(self.1, row);
        let row = SendPart(self.0, row);
        serde_content::derive_support::SendRow::send(&row, alloc, serializer, error)
    }
}

type Part1OfRow<T> = ReadPart<9, 0, Vec<T>, Part2OfRow>;

type Part2OfRow = ReadPart<9, 1, u8, Part3OfRow>;

type Part3OfRow = ReadPart<9, 2, u8, Part4OfRow>;

type Part4OfRow = ReadPart<9, 3, u8, Part5OfRow>;

type Part5OfRow = ReadPart<9, 4, u8, Part6OfRow>;

type Part6OfRow = ReadPart<9, 5, u8, Part7OfRow>;

type Part7OfRow = ReadPart<9, 6, u8, Part8OfRow>;

type Part8OfRow = ReadPart<9, 7, u8, From9OfRow>;

type Part9OfRow = ReadPart<9, 8, bool, PartsEnd<9>>;

/// The values from place 1 on.
#[derive(Drop)]
struct From1OfRow<T>(Vec<T>, u8, u8, u8, u8, u8, u8, u8, From9OfRow);

impl<'de, T: Deserialize<'de>> ReadParts<'de> for From1OfRow<T> {
    ghost refusal = { λ f. ⟦<Part1OfRow<T> as ReadParts<'de>>⟧.refusal f };

    ghost gives = { λ z f.
        (PartThen (⟦<Vec<T> as Deserialize<'de>>⟧.gives) z.0
        (PartThen (⟦<u8 as Deserialize<'de>>⟧.gives) z.1
        (PartThen (⟦<u8 as Deserialize<'de>>⟧.gives) z.2
        (PartThen (⟦<u8 as Deserialize<'de>>⟧.gives) z.3
        (PartThen (⟦<u8 as Deserialize<'de>>⟧.gives) z.4
        (PartThen (⟦<u8 as Deserialize<'de>>⟧.gives) z.5
        (PartThen (⟦<u8 as Deserialize<'de>>⟧.gives) z.6
        (PartThen (⟦<u8 as Deserialize<'de>>⟧.gives) z.7
        (⟦<From9OfRow as ReadParts<'de>>⟧.gives z.8)))))))))
        f };

    fn read<'n: 'de>(alloc: Global, parts: serde_content::de::Seq<'de, 'n>) -> Result<Self> {
        let row: Part1OfRow<T> = ReadParts::read(alloc, parts)?;
        let ReadPart(x1, row) = row;
        let ReadPart(x2, row) = row;
        let ReadPart(x3, row) = row;
        let ReadPart(x4, row) = row;
        let ReadPart(x5, row) = row;
        let ReadPart(x6, row) = row;
        let ReadPart(x7, row) = row;
        let ReadPart(x8, row) = row;
        Ok(From1OfRow(x1, x2, x3, x4, x5, x6, x7, x8, row))
    }
}

/// The values from place 9 on.
#[derive(Drop)]
struct From9OfRow(bool);

impl<'de> ReadParts<'de> for From9OfRow {
    ghost refusal = { λ f. ⟦<Part9OfRow as ReadParts<'de>>⟧.refusal f };

    ghost gives = { λ z f.
        (PartThen (⟦<bool as Deserialize<'de>>⟧.gives) z.0
        NoPart)
        f };

    fn read<'n: 'de>(alloc: Global, parts: serde_content::de::Seq<'de, 'n>) -> Result<Self> {
        let row: Part9OfRow = ReadParts::read(alloc, parts)?;
        let ReadPart(x9, _) = row;
        Ok(From9OfRow(x9))
    }
}

impl<T> serde_content::derive_support::MadeOf<From1OfRow<T>> for Row<T> {
    ghost made_of = { λ z. (record {
      0 = z.0;
      1 = z.1;
      2 = z.2;
      3 = z.3;
      4 = z.4;
      5 = z.5;
      6 = z.6;
      7 = z.7;
      8 = (record {
        0 = z.8;
      });
    }) };

    fn make(row: From1OfRow<T>) -> Row<T> {
        let From1OfRow(x1, x2, x3, x4, x5, x6, x7, x8, row) = row;
        let From9OfRow(x9) = row;
        Row(x1, x2, x3, x4, x5, x6, x7, x8, x9)
    }
}

impl<T: Serialize> Serialize for Row<T> {
    ghost script = { λ p. tuple_struct_script (name "Row") 9
        (tuple_field_first (⟦<Vec<T> as Serialize>⟧.script p.0)
        (tuple_field_first (⟦<u8 as Serialize>⟧.script p.1)
        (tuple_field_first (⟦<u8 as Serialize>⟧.script p.2)
        (tuple_field_first (⟦<u8 as Serialize>⟧.script p.3)
        (tuple_field_first (⟦<u8 as Serialize>⟧.script p.4)
        (tuple_field_first (⟦<u8 as Serialize>⟧.script p.5)
        (tuple_field_first (⟦<u8 as Serialize>⟧.script p.6)
        (tuple_field_first (⟦<u8 as Serialize>⟧.script p.7)
        (tuple_field_first (⟦<bool as Serialize>⟧.script p.8)
        end_script))))))))) };

    ghost lawful = { λ p readable. tuple_struct_lawful
        (tuple_field_fits (seq_lawful (λ x h. T.lawful x h) p.0.items readable)
        (tuple_field_fits (leaf_lawful refl)
        (tuple_field_fits (leaf_lawful refl)
        (tuple_field_fits (leaf_lawful refl)
        (tuple_field_fits (leaf_lawful refl)
        (tuple_field_fits (leaf_lawful refl)
        (tuple_field_fits (leaf_lawful refl)
        (tuple_field_fits (leaf_lawful refl)
        (tuple_field_fits (leaf_lawful refl)
        tuple_end_fits))))))))) };

    fn serialize<S: Serializer>(&self, alloc: Global, serializer: &mut S) -> Result<()> {
        let row = Sent6OfRow(&self.5, &self.6, &self.7, &self.8);
        let row = SendPart(&self.4, row);
        let row = SendPart(&self.3, row);
        let row = SendPart(&self.2, row);
        let row = SendPart(&self.1, row);
        let row = SendPart(&self.0, row);
        let row = SendOpen(Call::TupleStruct(name_row(), 9), row);
        send_row(alloc, serializer, &row)
    }
}

impl<'de, T: Deserialize<'de>> Deserialize<'de> for Row<T> {
    ghost refusal = { tuple_struct_refusal (name "Row")
        (⟦<From1OfRow<T> as ReadParts<'de>>⟧.refusal) };

    ghost gives = { λ s p. TupleStructGives (name "Row")
        (⟦<From1OfRow<T> as ReadParts<'de>>⟧.gives
        (record {
          0 = p.0;
          1 = p.1;
          2 = p.2;
          3 = p.3;
          4 = p.4;
          5 = p.5;
          6 = p.6;
          7 = p.7;
          8 = (record {
            0 = p.8;
          });
        })) s };

    fn deserialize<'n: 'de>(alloc: Global, from: Deserializer<'de, 'n>) -> Result<Row<T>> {
        let parts = from.deserialize_tuple_struct(alloc, name_row(), 9)?;
        serde_content::derive_support::read_made_of_parts::<From1OfRow<T>, Self>(alloc, parts)
    }
}

/// What happened.
#[derive(Drop)]
pub enum Event<T> {
    Made {
        of: HashMap<String, T>,
        count: u8,
        /// Whether somebody has seen it.
        seen: bool,
    },
    Lost,
    Kept(Vec<T>, u16),
}

impl<T> serde_content::derive_support::MadeFrom<From1OfEventMade<T>> for Event<T> {
    ghost made_from = { λ row. event.Made row.0 row.1 row.2 };

    fn make(row: From1OfEventMade<T>) -> Event<T> {
        let From1OfEventMade(of, count, seen) = row;
        Event::Made { of, count, seen }
    }
}

/// The names of its fields.
#[derive(Drop)]
struct FieldsOfEventMade;

impl Names for FieldsOfEventMade {
    ghost names = { name "of" ∷ name "count" ∷ [] };

    #[tactic(auto, unfolding(serde_content::specs::Literals::name))]
    fn names() -> &'static [&'static str] {
        &["of", "count"]
    }
}

/// Sends that variant.
fn send_whole_event_made<S: Serializer, T: Serialize>(
    alloc: Global,
    serializer: &mut S,
    whole: &Event<T>,
    of: &HashMap<String, T>,
    count: &u8,
    seen: &bool,
) -> Result<()>
    requires { whole.now ≡ event.Made of.now count.now seen.now }
    ensures { Sends S.step S.refuses (S.seen serializer.old)
        (⟦<Event<T> as Serialize>⟧.script whole.now)
        result (S.seen serializer.new) }
{
    let row = SendEnd;
    let row = SendField(FieldsOfEventMade, 1, count, row);
    let row = SendField(FieldsOfEventMade, 0, of, row);
    let row = SendOpen(Call::StructVariant(name_event(), 0, name_made(), 2), row);
    send_row(alloc, serializer, &row)
}

type Field1OfEventMade<T> = ReadField<FieldsOfEventMade, 0, HashMap<String, T>, Field2OfEventMade>;

type Field2OfEventMade = ReadField<FieldsOfEventMade, 1, u8, OthersSkipped<FieldsOfEventMade>>;

/// The values from place 1 on.
#[derive(Drop)]
struct From1OfEventMade<T>(HashMap<String, T>, u8, bool);

impl<'de, T: Deserialize<'de>> ReadFields<'de> for From1OfEventMade<T> {
    ghost refusal = { λ f. ⟦<Field1OfEventMade<T> as ReadFields<'de>>⟧.refusal f };

    ghost gives = { λ z f.
        (UnreadThen (λ (x : Bool). x ≡ false) z.2
        (RowThen (name "of") (⟦<HashMap<String, T> as Deserialize<'de>>⟧.gives) z.0
        (RowThen (name "count") (⟦<u8 as Deserialize<'de>>⟧.gives) z.1
        NoOthers)))
        f };

    fn read<'n: 'de>(alloc: Global, fields: FieldsByName<'de, 'n>) -> Result<Self> {
        let row: Field1OfEventMade<T> = ReadFields::read(alloc, fields)?;
        let ReadField(of, row, _) = row;
        let ReadField(count, _, _) = row;
        let seen: bool = Absent::absent(alloc);
        Ok(From1OfEventMade(of, count, seen))
    }
}

impl<T> serde_content::derive_support::MadeFrom<From1OfEventKept<T>> for Event<T> {
    ghost made_from = { λ row. event.Kept row.0 row.1 };

    fn make(row: From1OfEventKept<T>) -> Event<T> {
        let From1OfEventKept(x1, x2) = row;
        Event::Kept(x1, x2)
    }
}

/// Sends that variant.
fn send_whole_event_kept<S: Serializer, T: Serialize>(
    alloc: Global,
    serializer: &mut S,
    whole: &Event<T>,
    x1: &Vec<T>,
    x2: &u16,
) -> Result<()>
    requires { whole.now ≡ event.Kept x1.now x2.now }
    ensures { Sends S.step S.refuses (S.seen serializer.old)
        (⟦<Event<T> as Serialize>⟧.script whole.now)
        result (S.seen serializer.new) }
{
    let row = SendEnd;
    let row = SendPart(x2, row);
    let row = SendPart(x1, row);
    let row = SendOpen(Call::TupleVariant(name_event(), 2, name_kept(), 2), row);
    send_row(alloc, serializer, &row)
}

type Part1OfEventKept<T> = ReadPart<2, 0, Vec<T>, Part2OfEventKept>;

type Part2OfEventKept = ReadPart<2, 1, u16, PartsEnd<2>>;

/// The values from place 1 on.
#[derive(Drop)]
struct From1OfEventKept<T>(Vec<T>, u16);

impl<'de, T: Deserialize<'de>> ReadParts<'de> for From1OfEventKept<T> {
    ghost refusal = { λ f. ⟦<Part1OfEventKept<T> as ReadParts<'de>>⟧.refusal f };

    ghost gives = { λ z f.
        (PartThen (⟦<Vec<T> as Deserialize<'de>>⟧.gives) z.0
        (PartThen (⟦<u16 as Deserialize<'de>>⟧.gives) z.1
        NoPart))
        f };

    fn read<'n: 'de>(alloc: Global, parts: serde_content::de::Seq<'de, 'n>) -> Result<Self> {
        let row: Part1OfEventKept<T> = ReadParts::read(alloc, parts)?;
        let ReadPart(x1, row) = row;
        let ReadPart(x2, _) = row;
        Ok(From1OfEventKept(x1, x2))
    }
}

/// The names of its variants.
#[derive(Drop)]
struct NamesOfEvent;

impl Names for NamesOfEvent {
    ghost names = { name "Made" ∷ name "Lost" ∷ name "Kept" ∷ [] };

    #[tactic(auto, unfolding(serde_content::specs::Literals::name))]
    fn names() -> &'static [&'static str] {
        &["Made", "Lost", "Kept"]
    }
}

impl<T: Serialize> Serialize for Event<T> {
    ghost script = { elim [
      | event.Made x1 x2 x3 ↦ struct_variant_script (name "Event") 0 (name "Made") 2
          (field_first (name "of") (⟦<HashMap<String, T> as Serialize>⟧.script x1)
          (field_first (name "count") (⟦<u8 as Serialize>⟧.script x2)
          end_script))
      | event.Lost ↦ unit_variant_script (name "Event") 1 (name "Lost")
      | event.Kept x1 x2 ↦ tuple_variant_script (name "Event") 2 (name "Kept") 2
          (tuple_field_first (⟦<Vec<T> as Serialize>⟧.script x1)
          (tuple_field_first (⟦<u16 as Serialize>⟧.script x2)
          end_script))
    ] };

    ghost lawful = { elim [
      | event.Made x1 x2 x3 ↦ λ readable. struct_variant_lawful
          (field_fits (map_lawful (λ x h. leaf_lawful refl) (λ x h. T.lawful x h) x1.entries
          readable)
          (field_fits (leaf_lawful refl)
          struct_end_fits))
      | event.Lost ↦ λ readable. unit_variant_lawful
      | event.Kept x1 x2 ↦ λ readable. tuple_variant_lawful
          (tuple_field_fits (seq_lawful (λ x h. T.lawful x h) x1.items readable)
          (tuple_field_fits (leaf_lawful refl)
          tuple_end_fits))
    ] };

    fn serialize<S: Serializer>(&self, alloc: Global, serializer: &mut S) -> Result<()> {
        match self {
            Event::Made { of, count, seen } => {
                send_whole_event_made(alloc, serializer, self, of, count, seen)
            }
            Event::Lost => Call::UnitVariant(name_event(), 1, name_lost()).send(serializer),
            Event::Kept(x1, x2) => send_whole_event_kept(alloc, serializer, self, x1, x2),
        }
    }
}

impl<'de, T: Deserialize<'de>> Variants<'de> for Event<T> {
    ghost name = { name "Event" };

    ghost refusal = { variants ((
      name "Made",
      struct_variant_refusal (read_by_name
          (⟦<From1OfEventMade<T> as ReadFields<'de>>⟧.refusal)),
    )
        ∷ (name "Lost", unit_variant_refusal)
        ∷ (
          name "Kept",
          tuple_variant_refusal
              (⟦<From1OfEventKept<T> as ReadParts<'de>>⟧.refusal),
        )
        ∷ []) };

    ghost named = { elim [
      | event.Made x1 x2 x3 ↦ name "Made"
      | event.Lost ↦ name "Lost"
      | event.Kept x1 x2 ↦ name "Kept"
    ] };

    ghost held = { elim [
      | event.Made x1 x2 x3 ↦ StructVariantGives (ReadByName
          (⟦<From1OfEventMade<T> as ReadFields<'de>>⟧.gives
          (record {
            0 = x1;
            1 = x2;
            2 = x3;
          })))
      | event.Lost ↦ UnitVariantGives
      | event.Kept x1 x2 ↦ TupleVariantGives
          (⟦<From1OfEventKept<T> as ReadParts<'de>>⟧.gives
          (record {
            0 = x1;
            1 = x2;
          }))
    ] };

    #[tactic(auto, unfolding(serde_content::specs::Literals::name))]
    fn name() -> &'static str {
        "Event"
    }

    fn names() -> &'static [&'static str] {
        NamesOfEvent::names()
    }

    fn read_variant<'n: 'de>(
        alloc: Global,
        tag: &str,
        variant: VariantAccess<'de, 'n>,
    ) -> Result<Event<T>> {
        match variant_index(tag, &NamesOfEvent) {
            Some(0) => {
                serde_content::derive_support::read_variant_made_from::<
                    FieldsOfEventMade,
                    From1OfEventMade<T>,
                    Self,
                >(alloc, variant)
            }
            Some(1) => {
                variant.unit_variant(alloc)?;
                Ok(Event::Lost)
            }
            Some(2) => {
                serde_content::derive_support::read_tuple_variant_made_from::<
                    From1OfEventKept<T>,
                    Self,
                >(alloc, variant, 2)
            }
            _ => {
                drop(variant);
                Err(no_such_variant(alloc, tag, &NamesOfEvent))
            }
        }
    }
}

impl<'de, T: Deserialize<'de>> Deserialize<'de> for Event<T> {
    ghost refusal = { enum_refusal (name "Event") ⟦<Event<T> as Variants<'de>>⟧.refusal };

    ghost gives = { λ s y. EnumGives (name "Event")
        (⟦<Event<T> as Variants<'de>>⟧.named y)
        (⟦<Event<T> as Variants<'de>>⟧.held y) s };

    fn deserialize<'n: 'de>(alloc: Global, from: Deserializer<'de, 'n>) -> Result<Event<T>> {
        read_enum(alloc, from)
    }
}

/// A message of some sort.
#[derive(Drop)]
pub enum Notice<T> {
    Text {
        to: Vec<T>,
        copies: HashMap<String, T>,
    },
    Ping,
}

impl<T> serde_content::derive_support::MadeFrom<From1OfNoticeText<T>> for Notice<T> {
    ghost made_from = { λ row. notice.Text row.0 row.1 };

    fn make(row: From1OfNoticeText<T>) -> Notice<T> {
        let From1OfNoticeText(to, copies) = row;
        Notice::Text { to, copies }
    }
}

/// The names of its fields.
#[derive(Drop)]
struct FieldsOfNoticeText;

impl Names for FieldsOfNoticeText {
    ghost names = { name "kind" ∷ name "to" ∷ name "copies" ∷ [] };

    #[tactic(auto, unfolding(serde_content::specs::Literals::name))]
    fn names() -> &'static [&'static str] {
        &["kind", "to", "copies"]
    }
}

/// Sends that variant.
fn send_whole_notice_text<S: Serializer, T: Serialize>(
    alloc: Global,
    serializer: &mut S,
    whole: &Notice<T>,
    to: &Vec<T>,
    copies: &HashMap<String, T>,
) -> Result<()>
    requires { whole.now ≡ notice.Text to.now copies.now }
    ensures { Sends S.step S.refuses (S.seen serializer.old)
        (⟦<Notice<T> as Serialize>⟧.script whole.now)
        result (S.seen serializer.new) }
{
    let row = SendEnd;
    let row = SendField(FieldsOfNoticeText, 2, copies, row);
    let row = SendField(FieldsOfNoticeText, 1, to, row);
    let row = SendTag(FieldsOfNoticeText, NamesOfNotice, 0, row);
    let row = SendOpen(Call::Struct(name_notice(), 3), row);
    send_row(alloc, serializer, &row)
}

type Field1OfNoticeText<T> = ReadField<FieldsOfNoticeText, 1, Vec<T>, Field2OfNoticeText<T>>;

type Field2OfNoticeText<T> = ReadField<
    FieldsOfNoticeText,
    2,
    HashMap<String, T>,
    OthersSkipped<FieldsOfNoticeText>,
>;

/// The values from place 1 on.
#[derive(Drop)]
struct From1OfNoticeText<T>(Vec<T>, HashMap<String, T>);

impl<'de, T: Deserialize<'de>> ReadFields<'de> for From1OfNoticeText<T> {
    ghost refusal = { λ f. ⟦<Field1OfNoticeText<T> as ReadFields<'de>>⟧.refusal f };

    ghost gives = { λ z f.
        (RowThen (name "to") (⟦<Vec<T> as Deserialize<'de>>⟧.gives) z.0
        (RowThen (name "copies") (⟦<HashMap<String, T> as Deserialize<'de>>⟧.gives) z.1
        NoOthers))
        f };

    fn read<'n: 'de>(alloc: Global, fields: FieldsByName<'de, 'n>) -> Result<Self> {
        let row: Field1OfNoticeText<T> = ReadFields::read(alloc, fields)?;
        let ReadField(to, row, _) = row;
        let ReadField(copies, _, _) = row;
        Ok(From1OfNoticeText(to, copies))
    }
}

/// The names of its fields.
#[derive(Drop)]
struct FieldsOfNoticePing;

impl Names for FieldsOfNoticePing {
    ghost names = { name "kind" ∷ [] };

    #[tactic(auto, unfolding(serde_content::specs::Literals::name))]
    fn names() -> &'static [&'static str] {
        &["kind"]
    }
}

/// The names of its variants.
#[derive(Drop)]
struct NamesOfNotice;

impl Names for NamesOfNotice {
    ghost names = { name "Text" ∷ name "Ping" ∷ [] };

    #[tactic(auto, unfolding(serde_content::specs::Literals::name))]
    fn names() -> &'static [&'static str] {
        &["Text", "Ping"]
    }
}

impl<T: Serialize> Serialize for Notice<T> {
    ghost script = { elim [
      | notice.Text x1 x2 ↦ tagged_script (name "Notice") 3 (name "kind") (name "Text")
          (field_first (name "to") (⟦<Vec<T> as Serialize>⟧.script x1)
          (field_first (name "copies") (⟦<HashMap<String, T> as Serialize>⟧.script x2)
          end_script))
      | notice.Ping ↦ tagged_script (name "Notice") 1 (name "kind") (name "Ping")
          end_script
    ] };

    ghost lawful = { elim [
      | notice.Text x1 x2 ↦ λ readable. struct_lawful
          (field_fits (leaf_lawful refl)
          (field_fits (seq_lawful (λ x h. T.lawful x h) x1.items readable)
          (field_fits (map_lawful (λ x h. leaf_lawful refl) (λ x h. T.lawful x h) x2.entries
          readable)
          struct_end_fits)))
      | notice.Ping ↦ λ readable. struct_lawful
          (field_fits (leaf_lawful refl)
          struct_end_fits)
    ] };

    fn serialize<S: Serializer>(&self, alloc: Global, serializer: &mut S) -> Result<()> {
        match self {
            Notice::Text { to, copies } => {
                send_whole_notice_text(alloc, serializer, self, to, copies)
            }
            Notice::Ping => {
                let row = SendEnd;
                let row = SendTag(FieldsOfNoticePing, NamesOfNotice, 1, row);
                let row = SendOpen(Call::Struct(name_notice(), 1), row);
                send_row(alloc, serializer, &row)
            }
        }
    }
}

impl<'de, T: Deserialize<'de>> TaggedVariants<'de> for Notice<T> {
    ghost name = { name "Notice" };

    ghost tag_name = { name "kind" };

    ghost refusal = { variants (
        (name "Text", (⟦<From1OfNoticeText<T> as ReadFields<'de>>⟧.refusal))
        ∷ (name "Ping", (others_left (name "kind" ∷ [])))
        ∷ []) };

    ghost named = { elim [
      | notice.Text x1 x2 ↦ name "Text"
      | notice.Ping ↦ name "Ping"
    ] };

    ghost held = { elim [
      | notice.Text x1 x2 ↦ (⟦<From1OfNoticeText<T> as ReadFields<'de>>⟧.gives
          (record {
            0 = x1;
            1 = x2;
          }))
      | notice.Ping ↦ NoOthers
    ] };

    #[tactic(auto, unfolding(serde_content::specs::Literals::name))]
    fn name() -> &'static str {
        "Notice"
    }

    #[tactic(auto, unfolding(serde_content::specs::Literals::name))]
    fn tag() -> &'static str {
        "kind"
    }

    fn read_variant<'n: 'de>(
        alloc: Global,
        tag: &str,
        fields: FieldsByName<'de, 'n>,
    ) -> Result<Notice<T>> {
        match variant_index(tag, &NamesOfNotice) {
            Some(0) => {
                serde_content::derive_support::read_made_from::<From1OfNoticeText<T>, Self>(
                    alloc, fields,
                )
            }
            Some(1) => {
                let _: OthersSkipped<FieldsOfNoticePing> = ReadFields::read(alloc, fields)?;
                Ok(Notice::Ping)
            }
            _ => {
                drop(fields);
                Err(no_such_variant(alloc, tag, &NamesOfNotice))
            }
        }
    }
}

impl<'de, T: Deserialize<'de>> Deserialize<'de> for Notice<T> {
    ghost refusal = { struct_refusal (name "Notice")
        (read_by_name (tag_then_buffered (name "kind")
        ⟦<Notice<T> as TaggedVariants<'de>>⟧.refusal)) };

    ghost gives = { λ s y. StructGives (name "Notice") (ReadByName
        (TagThenBuffered (name "kind")
        (⟦<Notice<T> as TaggedVariants<'de>>⟧.named y)
        (⟦<Notice<T> as TaggedVariants<'de>>⟧.held y))) s };

    fn deserialize<'n: 'de>(alloc: Global, from: Deserializer<'de, 'n>) -> Result<Notice<T>> {
        read_tagged(alloc, from)
    }
}

/// The name `Hits`.
#[tactic(auto, unfolding(serde_content::specs::Literals::name))]
fn name_hits() -> &'static str
    ensures { result.now ≡ name "Hits" }
{
    "Hits"
}

/// The name `Row`.
#[tactic(auto, unfolding(serde_content::specs::Literals::name))]
fn name_row() -> &'static str
    ensures { result.now ≡ name "Row" }
{
    "Row"
}

/// The name `Event`.
#[tactic(auto, unfolding(serde_content::specs::Literals::name))]
fn name_event() -> &'static str
    ensures { result.now ≡ name "Event" }
{
    "Event"
}

/// The name `Made`.
#[tactic(auto, unfolding(serde_content::specs::Literals::name))]
fn name_made() -> &'static str
    ensures { result.now ≡ name "Made" }
{
    "Made"
}

/// The name `Kept`.
#[tactic(auto, unfolding(serde_content::specs::Literals::name))]
fn name_kept() -> &'static str
    ensures { result.now ≡ name "Kept" }
{
    "Kept"
}

/// The name `Lost`.
#[tactic(auto, unfolding(serde_content::specs::Literals::name))]
fn name_lost() -> &'static str
    ensures { result.now ≡ name "Lost" }
{
    "Lost"
}

/// The name `Notice`.
#[tactic(auto, unfolding(serde_content::specs::Literals::name))]
fn name_notice() -> &'static str
    ensures { result.now ≡ name "Notice" }
{
    "Notice"
}
