//! Hash sets, as sequences of their items in the set's own order.

#![tactic(auto, using(crate::proofs::Sending::sending, crate::proofs::Making::making))]

ghost use Rattle.content_ser.specs.Scripts.Standard.{seq_script};
ghost use Rattle.content_ser.specs.Laws.StandardScripts.{seq_lawful};

use crate::aside::{Sent, answered};
use crate::call::Call;
use crate::direct::{Made, inside};
use crate::send::calls::{announce, end, serialize_seq};
use crate::serialize::Serialize;
use crate::serializer::Serializer;
use content_tree::{Error, NamedValue, Result};
use std::alloc::Global;
use std::collections::HashSet;
use std::hash::Hash;

impl<T: Serialize + Eq + Hash> Serialize for HashSet<T> {
    ghost script = { λ s. seq_script T.script s.keys };

    ghost lawful = { λ s. seq_lawful T.lawful s.keys };

    fn serialize<S: Serializer>(&self, alloc: Global, serializer: &mut S) -> Result<()> {
        answered!(error => self.serialize_aside(alloc, serializer, &mut error))
    }

    fn serialize_aside<S: Serializer>(
        &self,
        alloc: Global,
        serializer: &mut S,
        error: &mut Error,
    ) -> Sent {
        serialize_seq(self.len(), serializer, error)?;
        for item in self {
            announce(Call::Element, item, alloc, serializer, error)?;
        }
        end(serializer, error)
    }

    #[inline(always)]
    fn is_direct() -> bool {
        T::is_direct()
    }

    fn direct<'v, 'n>(&self, alloc: Global, readable: bool, room: usize) -> Made<'v, 'n> {
        let levels = inside(room)?;
        let mut items: Vec<NamedValue<'v, 'n>> = Vec::with_capacity(alloc, self.len())?;
        for item in self {
            items.push_reserved(item.direct(alloc, readable, levels)?);
        }
        Ok(NamedValue::Seq(items))
    }
}
