//! References, as what they point to.

use crate::aside::Sent;
use crate::direct::Made;
use crate::serialize::Serialize;
use crate::serializer::Serializer;
use content_tree::{Error, Result};
use std::alloc::Global;

impl<'a, T: Serialize> Serialize for &'a T {
    ghost script = { λ r. T.script r.now };

    ghost lawful = { λ r. T.lawful r.now };

    fn serialize<S: Serializer>(&self, alloc: Global, serializer: &mut S) -> Result<()> {
        Serialize::serialize(*self, alloc, serializer)
    }

    fn serialize_aside<S: Serializer>(
        &self,
        alloc: Global,
        serializer: &mut S,
        error: &mut Error,
    ) -> Sent {
        Serialize::serialize_aside(*self, alloc, serializer, error)
    }

    #[inline(always)]
    fn is_direct() -> bool {
        T::is_direct()
    }

    fn direct<'v, 'n>(&self, alloc: Global, readable: bool, room: usize) -> Made<'v, 'n> {
        Serialize::direct(*self, alloc, readable, room)
    }
}
