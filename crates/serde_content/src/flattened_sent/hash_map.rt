//! Hash maps, their pairs in the map's own order.

#![tactic(auto, using(content_ser::proofs::Sending::sending))]

ghost use Rattle.serde_content.specs.Entries.{pairs_first};
ghost use Rattle.serde_content.specs.Laws.Entries.{pairs_fit};

use crate::fields_sent::SendRow;
use crate::flattened_sent::SendEntries;
use content_ser::{Call, Sent, Serialize, Serializer};
use content_tree::Error;
use std::alloc::Global;
use std::collections::HashMap;
use std::hash::Hash;

impl<K: Serialize + Eq + Hash, V: Serialize> SendEntries for HashMap<K, V> {
    ghost entries = { λ m. pairs_first K.script V.script m.entries };

    ghost fit = { λ m. pairs_fit K.lawful V.lawful m.entries };

    fn send_entries<R: SendRow, S: Serializer>(
        &self,
        rest: &R,
        alloc: Global,
        serializer: &mut S,
        error: &mut Error,
    ) -> Sent {
        for (key, value) in self {
            serializer.call_aside(Call::Entry, error)?;
            key.serialize_aside(alloc, serializer, error)?;
            value.serialize_aside(alloc, serializer, error)?;
        }
        rest.send(alloc, serializer, error)
    }
}
