//! Maps, their pairs in the order of the keys.

#![tactic(auto, using(crate::proofs::Sending::sending, crate::proofs::Making::making))]

ghost use Rattle.content_ser.specs.Scripts.Standard.{map_script};
ghost use Rattle.content_ser.specs.Laws.StandardScripts.{map_lawful};

use crate::aside::{Sent, answered};
use crate::call::Call;
use crate::direct::{Made, inside};
use crate::send::calls::{announce, end, serialize_map};
use crate::serialize::Serialize;
use crate::serializer::Serializer;
use content_tree::{Error, NamedValue, Result};
use std::alloc::Global;
use std::collections::BTreeMap;

impl<K: Serialize + Ord, V: Serialize> Serialize for BTreeMap<K, V> {
    ghost script = { λ m. map_script K.script V.script m.entries };

    ghost lawful = { λ m. map_lawful K.lawful V.lawful m.entries };

    fn serialize<S: Serializer>(&self, alloc: Global, serializer: &mut S) -> Result<()> {
        answered!(error => self.serialize_aside(alloc, serializer, &mut error))
    }

    fn serialize_aside<S: Serializer>(
        &self,
        alloc: Global,
        serializer: &mut S,
        error: &mut Error,
    ) -> Sent {
        serialize_map(self.len(), serializer, error)?;
        for (key, value) in self {
            announce(Call::Entry, key, alloc, serializer, error)?;
            value.serialize_aside(alloc, serializer, error)?;
        }
        end(serializer, error)
    }

    #[inline(always)]
    fn is_direct() -> bool {
        K::is_direct() && V::is_direct()
    }

    fn direct<'v, 'n>(&self, alloc: Global, readable: bool, room: usize) -> Made<'v, 'n> {
        let levels = inside(room)?;
        let mut pairs: Vec<(NamedValue<'v, 'n>, NamedValue<'v, 'n>)> = Vec::with_capacity(
            alloc,
            self.len(),
        )?;
        for (key, value) in self {
            let key = key.direct(alloc, readable, levels)?;
            pairs.push_reserved((key, value.direct(alloc, readable, levels)?));
        }
        Ok(NamedValue::Map(pairs))
    }
}
