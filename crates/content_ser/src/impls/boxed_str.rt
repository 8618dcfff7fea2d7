//! Boxed texts, as texts.

#![tactic(auto, using(crate::proofs::Sending::sending, crate::proofs::Making::making))]

ghost use Rattle.std.specs.Prelude.{refl};
ghost use Rattle.std.specs.Box.{boxed_str_bytes};
ghost use Rattle.content_ser.specs.Calls.Event.{text};
ghost use Rattle.content_ser.specs.Scripts.Standard.{only};
ghost use Rattle.content_ser.specs.Laws.StandardScripts.{leaf_lawful};

use crate::aside::Sent;
use crate::call::Call;
use crate::direct::{Made, made_text};
use crate::serialize::Serialize;
use crate::serializer::Serializer;
use content_tree::{CowStr, Error, Result};
use std::alloc::Global;
use std::boxed::BoxedStr;

impl Serialize for BoxedStr {
    ghost script = { λ b. only (text (boxed_str_bytes b)) };

    ghost lawful = { λ x readable. leaf_lawful refl };

    fn serialize<S: Serializer>(&self, _alloc: Global, serializer: &mut S) -> Result<()> {
        serializer.serialize_str(self.as_str())
    }

    #[inline(always)]
    fn serialize_aside<S: Serializer>(
        &self,
        _alloc: Global,
        serializer: &mut S,
        error: &mut Error,
    ) -> Sent {
        serializer.call_aside(Call::Str(CowStr::Borrowed(self.as_str())), error)
    }

    #[inline(always)]
    fn is_direct() -> bool {
        true
    }

    #[inline(always)]
    fn direct<'v, 'n>(&self, alloc: Global, _readable: bool, _room: usize) -> Made<'v, 'n> {
        made_text(alloc, self.as_str())
    }
}
