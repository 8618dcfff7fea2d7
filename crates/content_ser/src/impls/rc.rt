//! What several own in one thread, as the value itself.

#![tactic(auto, using(crate::proofs::Sending::sending))]

use crate::aside::Sent;
use crate::direct::Made;
use crate::serialize::Serialize;
use crate::serializer::Serializer;
use content_tree::{Error, Result};
use std::alloc::Global;
use std::rc::Rc;

impl<T: Serialize> Serialize for Rc<T> {
    ghost script = { λ b. T.script b.value };

    ghost lawful = { λ b. T.lawful b.value };

    fn serialize<S: Serializer>(&self, alloc: Global, serializer: &mut S) -> Result<()> {
        Serialize::serialize(&**self, alloc, serializer)
    }

    fn serialize_aside<S: Serializer>(
        &self,
        alloc: Global,
        serializer: &mut S,
        error: &mut Error,
    ) -> Sent {
        Serialize::serialize_aside(&**self, alloc, serializer, error)
    }

    #[inline(always)]
    fn is_direct() -> bool {
        T::is_direct()
    }

    fn direct<'v, 'n>(&self, alloc: Global, readable: bool, room: usize) -> Made<'v, 'n> {
        Serialize::direct(&**self, alloc, readable, room)
    }
}
