//! A struct that is sent and read.

ghost use Rattle.std.specs.Prelude.{codes, refl};
ghost use Rattle.content_ser.specs.Laws.StandardScripts.{leaf_lawful};
ghost use Rattle.content_ser.specs.Laws.OwnScripts.{field_fits, struct_end_fits, struct_lawful};
ghost use Rattle.content_ser.specs.Scripts.Own.{end_script, field_first, struct_script};
ghost use Rattle.content_de.specs.Reads.Own.{struct_refusal, field_then, no_field};
ghost use Rattle.content_de.specs.Reads.Own.{StructGives, FieldThen, NoField};
ghost use Rattle.serde_content.specs.Laws.Records.{field_back, fields_end_back, struct_back};
ghost use Rattle.serde_content.specs.Laws.Records.{field_keeps, fields_end_keeps, struct_keeps};
ghost use Rattle.serde_content.specs.Laws.Series.{both_hold};
ghost use Rattle.serde_content.specs.Laws.Leaves.{i32_back, integer_keeps};
ghost use Rattle.content_tree.specs.Values.Ranges as kind;

use crate::round::RoundTrip;
use content_de::{Deserialize, Deserializer, next_field};
use content_ser::{Call, Parts, Serialize, Serializer};
use content_tree::Result;
use std::alloc::Global;

/// A struct of two fields.
#[derive(Drop, PartialEq, Eq)]
pub struct Point {
    /// To the right.
    pub x: i32,
    /// Upwards.
    pub y: i32,
}

impl Serialize for Point {
    ghost script = { λ p. struct_script (codes "Point") 2
        (field_first (codes "x") (⟦<i32 as Serialize>⟧.script p.x)
        (field_first (codes "y") (⟦<i32 as Serialize>⟧.script p.y)
        end_script)) };

    ghost lawful = { λ p readable. struct_lawful
        (field_fits (leaf_lawful refl) (field_fits (leaf_lawful refl) struct_end_fits)) };

    fn serialize<S: Serializer>(&self, alloc: Global, serializer: &mut S) -> Result<()> {
        Call::Struct("Point", 2)
            .with(Call::Field("x"), &self.x)
            .with(Call::Field("y"), &self.y)
            .end(alloc, serializer)
    }
}

/// Its fields in order; further fields stay unread.
impl<'de> Deserialize<'de> for Point {
    ghost refusal = { struct_refusal (codes "Point")
        (field_then (codes "x") (⟦<i32 as Deserialize<'de>>⟧.refusal)
        (field_then (codes "y") (⟦<i32 as Deserialize<'de>>⟧.refusal)
        no_field)) };

    ghost gives = { λ s p. StructGives (codes "Point")
        (FieldThen (⟦<i32 as Deserialize<'de>>⟧.gives) p.x
        (FieldThen (⟦<i32 as Deserialize<'de>>⟧.gives) p.y
        NoField)) s };

    fn deserialize<'n: 'de>(alloc: Global, from: Deserializer<'de, 'n>) -> Result<Point> {
        let mut fields = from.deserialize_struct(alloc, "Point", &["x", "y"])?;
        let x = next_field(alloc, &mut fields, "x")?;
        let y = next_field(alloc, &mut fields, "y")?;
        Ok(Point { x, y })
    }
}

impl<'de> RoundTrip<'de> for Point {
    fn known(&self) {}

    ghost comes_back = { record {
      of_value = λ p real f. struct_back
          (field_back (codes "x") i32_back p.x tt (λ q. q.x)
          (field_back (codes "y") i32_back p.y tt (λ q. q.y)
          fields_end_back))
          f (λ q h. both_hold h.0 h.1.0);
    } };

    ghost keeps = { struct_keeps (codes "Point")
        (field_keeps (codes "x") (λ q. q.x) (integer_keeps kind.i32)
        (field_keeps (codes "y") (λ q. q.y) (integer_keeps kind.i32)
        fields_end_keeps)) };
}
