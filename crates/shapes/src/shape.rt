//! An enum.

ghost use Rattle.std.specs.Prelude.{◌∷◌, [], codes, refl};
ghost use Rattle.content_ser.specs.Laws.StandardScripts.{leaf_lawful};
ghost use Rattle.content_ser.specs.Laws.OwnScripts.{newtype_variant_lawful, unit_variant_lawful};
ghost use Rattle.content_ser.specs.Scripts.Own.{newtype_variant_script, unit_variant_script};
ghost use Rattle.content_de.specs.Reads.Own.{enum_refusal, variant_or, no_variant_of, EnumGives};
ghost use Rattle.content_de.specs.Reads.Own.{unit_variant_refusal, UnitVariantGives};
ghost use Rattle.content_de.specs.Reads.Own.{newtype_variant_refusal, NewtypeVariantGives};
ghost use Rattle.shapes.specs.declared.shape.Shape.TheVariants as shape;

use serde_content::de::{Deserialize, unknown_variant};
use serde_content::ser::{Call, Parts, Serialize, Serializer};
use serde_content::{CowStr, Deserializer, Result};
use std::alloc::Global;

/// An enum of two variants.
#[derive(Drop, PartialEq, Eq)]
pub enum Shape {
    /// No data.
    Dot,
    /// One value: the radius.
    Ring(u32),
}

impl Serialize for Shape {
    ghost script = { elim [
      | shape.Dot ↦ unit_variant_script (codes "Shape") 0 (codes "Dot")
      | shape.Ring r ↦ newtype_variant_script (codes "Shape") 1 (codes "Ring")
          (⟦<u32 as Serialize>⟧.script r)
    ] };

    ghost lawful = { elim [
      | shape.Dot ↦ λ readable. unit_variant_lawful
      | shape.Ring r ↦ λ readable. newtype_variant_lawful (leaf_lawful refl)
    ] };

    fn serialize<S: Serializer>(&self, alloc: Global, serializer: &mut S) -> Result<()> {
        match self {
            Shape::Dot => Call::UnitVariant("Shape", 0, "Dot").send(serializer),
            Shape::Ring(r) => {
                Call::NewtypeVariant("Shape", 1, "Ring").around(r, alloc, serializer)
            }
        }
    }
}

/// The variant that the tag names.
impl<'de> Deserialize<'de> for Shape {
    ghost refusal = { enum_refusal (codes "Shape")
        (variant_or (codes "Dot") unit_variant_refusal
        (variant_or (codes "Ring") (newtype_variant_refusal (⟦<u32 as Deserialize<'de>>⟧.refusal))
        (no_variant_of (codes "Dot" ∷ codes "Ring" ∷ [])))) };

    ghost gives = { λ s. elim [
      | shape.Dot ↦ EnumGives (codes "Shape") (codes "Dot") UnitVariantGives s
      | shape.Ring r ↦ EnumGives (codes "Shape") (codes "Ring")
          (NewtypeVariantGives (⟦<u32 as Deserialize<'de>>⟧.gives) r) s
    ] };

    fn deserialize<'n: 'de>(alloc: Global, from: Deserializer<'de, 'n>) -> Result<Shape> {
        let access = from.deserialize_enum(alloc, "Shape", &["Dot", "Ring"])?;
        let (tag, variant) = access.variant::<CowStr<'de>>(alloc)?;
        match tag.as_str() {
            "Dot" => {
                variant.unit_variant(alloc)?;
                Ok(Shape::Dot)
            }
            "Ring" => {
                let radius = variant.newtype_deserializer(alloc)?;
                Ok(Shape::Ring(radius.deserialize_field(alloc, "Ring")?))
            }
            tag => Err(unknown_variant(alloc, tag, &["Dot", "Ring"])),
        }
    }
}
