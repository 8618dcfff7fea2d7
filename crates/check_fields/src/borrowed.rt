//! What is only sent, and borrowed.
//!
//! Written by `tools/derive` from `borrowed.rs`: change that file, and write this one anew.

ghost use Rattle.std.specs.Prelude.{◌≡◌, ◌∷◌, [], refl};
ghost use Rattle.content_ser.specs.Scripts.Own.{field_first, end_script, struct_script};
ghost use Rattle.content_ser.specs.Laws.StandardScripts.{leaf_lawful, seq_lawful};
ghost use Rattle.content_ser.specs.Laws.OwnScripts.{field_fits, struct_end_fits, struct_lawful};
ghost use Rattle.serde_content.specs.Literals.{name};
ghost use Rattle.serde_content.specs.Skips.{fields_less, field_unless};
ghost use Rattle.serde_content.specs.Laws.Skips.{field_unless_fits};

use serde_content::Result;
use serde_content::derive_support::{
    Names, SendEnd, SendField, SendFieldUnless, SendOpen, Skip, count_unless, send_row,
};
use serde_content::ser::{Call, Serialize, Serializer};
use std::alloc::Global;

/// What is shown of switches.
#[derive(Drop)]
pub struct Board<'a> {
    /// Their names.
    pub names: &'a [&'a str],
    /// How often each was turned, if there are any.
    pub turns: &'a [u32],
}

/// The names of its fields.
#[derive(Drop)]
struct FieldsOfBoard;

impl Names for FieldsOfBoard {
    ghost names = { name "names" ∷ name "turns" ∷ [] };

    #[tactic(auto, unfolding(serde_content::specs::Literals::name))]
    fn names() -> &'static [&'static str] {
        &["names", "turns"]
    }
}

impl<'a> Serialize for Board<'a> {
    ghost script = { λ p. struct_script (name "Board")
        (fields_less (⟦<&'a [u32] as Skip>⟧.is_empty p.turns) 2)
        (field_first (name "names") (⟦<&'a [&'a str] as Serialize>⟧.script p.names)
        (field_unless (⟦<&'a [u32] as Skip>⟧.is_empty p.turns) (name "turns")
        (⟦<&'a [u32] as Serialize>⟧.script p.turns)
        end_script)) };

    ghost lawful = { λ p readable. struct_lawful
        (field_fits (seq_lawful (λ x h. leaf_lawful refl) p.names.now readable)
        (field_unless_fits _ _ _ _ (⟦<&'a [u32] as Skip>⟧.is_empty p.turns)
        (seq_lawful (λ x h. leaf_lawful refl) p.turns.now readable)
        struct_end_fits)) };

    fn serialize<S: Serializer>(&self, alloc: Global, serializer: &mut S) -> Result<()> {
        let row = SendEnd;
        let row = SendFieldUnless(FieldsOfBoard, 1, &self.turns, row);
        let row = SendField(FieldsOfBoard, 0, &self.names, row);
        let row = SendOpen(
            Call::Struct(name_board(), count_unless(&self.turns, 2)),
            row,
        );
        send_row(alloc, serializer, &row)
    }
}

/// The name `Board`.
#[tactic(auto, unfolding(serde_content::specs::Literals::name))]
fn name_board() -> &'static str
    ensures { result.now ≡ name "Board" }
{
    "Board"
}
