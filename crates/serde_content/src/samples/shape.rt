//! An enum that is sent and read, with a variant of each sort.

ghost use Rattle.std.specs.Prelude.{◌≡◌, ℕ, ℤ, codes, refl};
ghost use Rattle.content_ser.specs.Laws.StandardScripts.{leaf_lawful};
ghost use Rattle.content_ser.specs.Laws.OwnScripts.{field_fits, newtype_variant_lawful};
ghost use Rattle.content_ser.specs.Laws.OwnScripts.{struct_end_fits, struct_variant_lawful};
ghost use Rattle.content_ser.specs.Laws.OwnScripts.{tuple_end_fits, tuple_field_fits};
ghost use Rattle.content_ser.specs.Laws.OwnScripts.{tuple_variant_lawful, unit_variant_lawful};
ghost use Rattle.content_ser.specs.Scripts.Own.{end_script, field_first, newtype_variant_script};
ghost use Rattle.content_ser.specs.Scripts.Own.{struct_variant_script, tuple_field_first};
ghost use Rattle.content_ser.specs.Scripts.Own.{tuple_variant_script, unit_variant_script};
ghost use Rattle.content_de.specs.Reads.Tuples.{part_then, end_of_parts, PartThen, NoPart};
ghost use Rattle.content_de.specs.Accesses.Map.{map_view};
ghost use Rattle.content_de.specs.Reads.Read.{Reads};
ghost use Rattle.content_de.specs.Reads.Own.{field_then, no_field, FieldThen, NoField};
ghost use Rattle.content_de.specs.Reads.Own.{enum_refusal, variant_or, no_variant, EnumGives};
ghost use Rattle.content_de.specs.Reads.Own.{unit_variant_refusal, UnitVariantGives};
ghost use Rattle.content_de.specs.Reads.Own.{newtype_variant_refusal, NewtypeVariantGives};
ghost use Rattle.content_de.specs.Reads.Own.{tuple_variant_refusal, TupleVariantGives};
ghost use Rattle.content_de.specs.Reads.Own.{struct_variant_refusal, StructVariantGives};
ghost use Rattle.content_tree.specs.Values.Ranges as kind;
ghost use Rattle.serde_content.specs.declared.samples.shape.Shape.TheVariants as shape;
ghost use Rattle.serde_content.specs.Laws.Leaves.{i32_back, u32_back, integer_keeps, natural_keeps};
ghost use Rattle.serde_content.specs.Laws.Series.{both_hold, tuple_field_back, parts_end};
ghost use Rattle.serde_content.specs.Laws.Series.{part_keeps, parts_end_keeps};
ghost use Rattle.serde_content.specs.Laws.Records.{field_back, fields_end_back};
ghost use Rattle.serde_content.specs.Laws.Records.{field_keeps, fields_end_keeps};
ghost use Rattle.serde_content.specs.Laws.Variants.{variant_back, unit_variant_back};
ghost use Rattle.serde_content.specs.Laws.Variants.{newtype_variant_back, tuple_variant_back};
ghost use Rattle.serde_content.specs.Laws.Variants.{struct_variant_back, other_variant, variant_kept};
ghost use Rattle.serde_content.specs.Laws.Variants.{unit_variant_keeps, newtype_variant_keeps};
ghost use Rattle.serde_content.specs.Laws.Variants.{tuple_variant_keeps, struct_variant_keeps};

use crate::round::RoundTrip;
use content_de::{Deserialize, Deserializer, Map, next_field, two_parts};
use content_ser::{Call, Parts, Serialize, Serializer};
use content_tree::{CowStr, Error, Result};
use std::alloc::Global;

/// An enum of four variants.
#[derive(Drop, PartialEq, Eq)]
pub enum Shape {
    /// No data.
    Dot,
    /// One value: the radius.
    Ring(u32),
    /// Two values by place: from here to there.
    Span(i32, i32),
    /// Two values by name.
    Area {
        /// The width.
        w: u32,
        /// The height.
        h: u32,
    },
}

impl Shape {
    /// Two values by place. Its contract tells proofs what a variant of signed numbers holds.
    fn span(a: i32, b: i32) -> Shape
        ensures { result ≡ shape.Span a b }
    {
        Shape::Span(a, b)
    }
}

impl Serialize for Shape {
    ghost script = { elim [
      | shape.Dot ↦ unit_variant_script (codes "Shape") 0 (codes "Dot")
      | shape.Ring r ↦ newtype_variant_script (codes "Shape") 1 (codes "Ring")
          (⟦<u32 as Serialize>⟧.script r)
      | shape.Span a b ↦ tuple_variant_script (codes "Shape") 2 (codes "Span") 2
          (tuple_field_first (⟦<i32 as Serialize>⟧.script a)
          (tuple_field_first (⟦<i32 as Serialize>⟧.script b)
          end_script))
      | shape.Area w h ↦ struct_variant_script (codes "Shape") 3 (codes "Area") 2
          (field_first (codes "w") (⟦<u32 as Serialize>⟧.script w)
          (field_first (codes "h") (⟦<u32 as Serialize>⟧.script h)
          end_script))
    ] };

    ghost lawful = { elim [
      | shape.Dot ↦ λ readable. unit_variant_lawful
      | shape.Ring r ↦ λ readable. newtype_variant_lawful (leaf_lawful refl)
      | shape.Span a b ↦ λ readable. tuple_variant_lawful
          (tuple_field_fits (leaf_lawful refl) (tuple_field_fits (leaf_lawful refl) tuple_end_fits))
      | shape.Area w h ↦ λ readable. struct_variant_lawful
          (field_fits (leaf_lawful refl) (field_fits (leaf_lawful refl) struct_end_fits))
    ] };

    fn serialize<S: Serializer>(&self, alloc: Global, serializer: &mut S) -> Result<()> {
        match self {
            Shape::Dot => Call::UnitVariant("Shape", 0, "Dot").send(serializer),
            Shape::Ring(r) => {
                Call::NewtypeVariant("Shape", 1, "Ring").around(r, alloc, serializer)
            }
            Shape::Span(a, b) => Call::TupleVariant("Shape", 2, "Span", 2)
                .with(Call::TupleField, a)
                .with(Call::TupleField, b)
                .end(alloc, serializer),
            Shape::Area { w, h } => Call::StructVariant("Shape", 3, "Area", 2)
                .with(Call::Field("w"), w)
                .with(Call::Field("h"), h)
                .end(alloc, serializer),
        }
    }
}

/// The variant that the tag names; further values stay unread, but not where it is buffered.
impl<'de> Deserialize<'de> for Shape {
    ghost refusal = { enum_refusal (codes "Shape")
        (variant_or (codes "Dot") unit_variant_refusal
        (variant_or (codes "Ring") (newtype_variant_refusal (⟦<u32 as Deserialize<'de>>⟧.refusal))
        (variant_or (codes "Span") (tuple_variant_refusal
        (part_then 2 0 (⟦<i32 as Deserialize<'de>>⟧.refusal)
        (part_then 2 1 (⟦<i32 as Deserialize<'de>>⟧.refusal)
        (end_of_parts 2))))
        (variant_or (codes "Area") (struct_variant_refusal
        (field_then (codes "w") (⟦<u32 as Deserialize<'de>>⟧.refusal)
        (field_then (codes "h") (⟦<u32 as Deserialize<'de>>⟧.refusal)
        no_field)))
        no_variant)))) };

    ghost gives = { λ s. elim [
      | shape.Dot ↦ EnumGives (codes "Shape") (codes "Dot") UnitVariantGives s
      | shape.Ring r ↦ EnumGives (codes "Shape") (codes "Ring")
          (NewtypeVariantGives (⟦<u32 as Deserialize<'de>>⟧.gives) r) s
      | shape.Span a b ↦ EnumGives (codes "Shape") (codes "Span") (TupleVariantGives
          (PartThen (⟦<i32 as Deserialize<'de>>⟧.gives) a
          (PartThen (⟦<i32 as Deserialize<'de>>⟧.gives) b
          NoPart))) s
      | shape.Area w h ↦ EnumGives (codes "Shape") (codes "Area") (StructVariantGives
          (FieldThen (⟦<u32 as Deserialize<'de>>⟧.gives) w
          (FieldThen (⟦<u32 as Deserialize<'de>>⟧.gives) h
          NoField))) s
    ] };

    fn deserialize<'n: 'de>(alloc: Global, from: Deserializer<'de, 'n>) -> Result<Shape> {
        let access = from.deserialize_enum(alloc, "Shape", &["Dot", "Ring", "Span", "Area"])?;
        let (tag, variant) = access.variant::<CowStr<'de>>(alloc)?;
        match tag.as_str() {
            "Dot" => {
                variant.unit_variant(alloc)?;
                Ok(Shape::Dot)
            }
            "Ring" => {
                let radius = variant.newtype_deserializer(alloc)?;
                Ok(Shape::Ring(radius.deserialize_field(alloc, "Ring")?))
            }
            "Span" => match two_parts(alloc, variant.tuple_variant(alloc, 2)?) {
                Ok((a, b)) => Ok(Shape::span(a, b)),
                Err(error) => Err(error.at_name(alloc, "Span")),
            },
            "Area" => match read_area(alloc, variant.struct_variant(alloc, &["w", "h"])?) {
                Ok((w, h)) => Ok(Shape::Area { w, h }),
                Err(error) => Err(error.at_name(alloc, "Area")),
            },
            _ => Err(Error::custom(alloc, "unknown variant")),
        }
    }
}

/// The width and the height.
fn read_area<'de, 'n: 'de>(alloc: Global, mut fields: Map<'de, 'n>) -> Result<(u32, u32)>
    ensures { Reads
        (field_then (codes "w") (⟦<u32 as Deserialize<'de>>⟧.refusal)
        (field_then (codes "h") (⟦<u32 as Deserialize<'de>>⟧.refusal)
        no_field) (map_view fields.entry))
        (λ p. FieldThen (⟦<u32 as Deserialize<'de>>⟧.gives) p.0
        (FieldThen (⟦<u32 as Deserialize<'de>>⟧.gives) p.1
        NoField) (map_view fields.entry)) result }
{
    let w = next_field(alloc, &mut fields, "w")?;
    let h = next_field(alloc, &mut fields, "h")?;
    Ok((w, h))
}

impl<'de> RoundTrip<'de> for Shape {
    fn known(&self) {}

    ghost comes_back = { record {
      of_value = elim [
        | shape.Dot ↦ λ real f. variant_back Self.refusal Self.gives unit_variant_back f (λ d. refl)
            (λ d only. elim [
              | shape.Dot ↦ λ it. refl
              | shape.Ring r ↦ λ it. other_variant it.0 refl
              | shape.Span a b ↦ λ it. other_variant it.0 refl
              | shape.Area w h ↦ λ it. other_variant it.0 refl
            ])
        | shape.Ring r ↦ λ real f. variant_back Self.refusal Self.gives
            (newtype_variant_back u32_back r tt) f (λ d. refl)
            (λ d only. elim [
              | shape.Dot ↦ λ it. other_variant it.0 refl
              | shape.Ring s ↦ λ it. only s it.1
              | shape.Span a b ↦ λ it. other_variant it.0 refl
              | shape.Area w h ↦ λ it. other_variant it.0 refl
            ])
        | shape.Span a b ↦ λ real f. variant_back Self.refusal Self.gives
            (tuple_variant_back
            (tuple_field_back i32_back a tt (λ (z : ℤ × ℤ). z.0) 2 0
            (tuple_field_back i32_back b tt (λ (z : ℤ × ℤ). z.1) 2 1
            (parts_end 2))))
            f (λ d. refl)
            (λ d only. elim [
              | shape.Dot ↦ λ it. other_variant it.0 refl
              | shape.Ring r ↦ λ it. other_variant it.0 refl
              | shape.Span c e ↦ λ it. let same = only (c, e) it.1 in both_hold same.0 same.1.0
              | shape.Area w h ↦ λ it. other_variant it.0 refl
            ])
        | shape.Area w h ↦ λ real f. variant_back Self.refusal Self.gives
            (struct_variant_back
            (field_back (codes "w") u32_back w tt (λ (z : ℕ × ℕ). z.0)
            (field_back (codes "h") u32_back h tt (λ (z : ℕ × ℕ). z.1)
            fields_end_back)))
            f (λ d. refl)
            (λ d only. elim [
              | shape.Dot ↦ λ it. other_variant it.0 refl
              | shape.Ring r ↦ λ it. other_variant it.0 refl
              | shape.Span a b ↦ λ it. other_variant it.0 refl
              | shape.Area v k ↦ λ it. let same = only (v, k) it.1 in both_hold same.0 same.1.0
            ])
      ];
    } };

    ghost keeps = { record {
      of_origin = λ o people. elim [
        | shape.Dot ↦ λ p.
            let q = variant_kept (codes "Shape") (codes "Dot") _ (λ v. refl) unit_variant_keeps
            o people tt p.free p.given in
            record { free = q.0; given = q.1 }
        | shape.Ring r ↦ λ p.
            let q = variant_kept (codes "Shape") (codes "Ring") _ (λ v. refl)
            (newtype_variant_keeps (natural_keeps kind.u32)) o people r p.free p.given in
            record { free = q.0; given = q.1 }
        | shape.Span a b ↦ λ p.
            let q = variant_kept (codes "Shape") (codes "Span") _ (λ v. refl)
            (tuple_variant_keeps
            (part_keeps (λ (z : ℤ × ℤ). z.0) 2 0 (integer_keeps kind.i32)
            (part_keeps (λ (z : ℤ × ℤ). z.1) 2 1 (integer_keeps kind.i32)
            (parts_end_keeps 2))))
            o people (a, b) p.free p.given in
            record { free = q.0; given = q.1 }
        | shape.Area w h ↦ λ p.
            let q = variant_kept (codes "Shape") (codes "Area") _ (λ v. refl)
            (struct_variant_keeps
            (field_keeps (codes "w") (λ (z : ℕ × ℕ). z.0) (natural_keeps kind.u32)
            (field_keeps (codes "h") (λ (z : ℕ × ℕ). z.1) (natural_keeps kind.u32)
            fields_end_keeps)))
            o people (w, h) p.free p.given in
            record { free = q.0; given = q.1 }
      ];
    } };
}
