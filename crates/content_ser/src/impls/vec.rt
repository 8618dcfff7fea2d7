//! Vectors, as sequences.

#![tactic(auto, using(crate::proofs::Sending::sending))]

ghost use Rattle.content_ser.specs.Scripts.Standard.{seq_script};
ghost use Rattle.content_ser.specs.Laws.StandardScripts.{seq_lawful};

use crate::aside::{Sent, answered};
use crate::direct::Made;
use crate::serialize::Serialize;
use crate::serializer::Serializer;
use content_tree::{Error, Result};
use std::alloc::Global;

impl<T: Serialize> Serialize for Vec<T> {
    ghost script = { λ v. seq_script T.script v.items };

    ghost lawful = { λ v. seq_lawful T.lawful v.items };

    fn serialize<S: Serializer>(&self, alloc: Global, serializer: &mut S) -> Result<()> {
        answered!(error => self.serialize_aside(alloc, serializer, &mut error))
    }

    fn serialize_aside<S: Serializer>(
        &self,
        alloc: Global,
        serializer: &mut S,
        error: &mut Error,
    ) -> Sent {
        self.as_slice().serialize_aside(alloc, serializer, error)
    }

    #[inline(always)]
    fn is_direct() -> bool {
        T::is_direct()
    }

    fn direct<'v, 'n>(&self, alloc: Global, readable: bool, room: usize) -> Made<'v, 'n> {
        self.as_slice().direct(alloc, readable, room)
    }
}
