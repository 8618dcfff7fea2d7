//! Hash maps.

ghost use Rattle.std.specs.HashMap.{IsFromIterResult};
ghost use Rattle.std.specs.Prelude.{IfOk};
ghost use Rattle.content_de.specs.Outcomes.{refusal_then};
ghost use Rattle.content_de.specs.Accesses.Map.{map_at};
ghost use Rattle.content_de.specs.Reads.Maps.{map_refusal};
ghost use Rattle.content_de.specs.Reads.Hashed.{HashMapGives};

use crate::deserialize::Deserialize;
use crate::deserializer::Deserializer;
use crate::impls::map::read_entries;
use content_tree::Result;
use std::alloc::{AllocError, Global};
use std::collections::HashMap;
use std::hash::Hash;

/// The entries of a map, to the end; of equal keys the last value wins. Memory for all entries is
/// taken before the first is read.
impl<'de, K: Deserialize<'de> + Eq + Hash, V: Deserialize<'de>> Deserialize<'de> for HashMap<K, V> {
    ghost refusal = { λ s. refusal_then (map_at s) (map_refusal K.refusal V.refusal) };

    ghost gives = { λ s v. HashMapGives K.gives V.gives K.eq s v };

    fn deserialize<'n: 'de>(alloc: Global, from: Deserializer<'de, 'n>) -> Result<HashMap<K, V>> {
        let entries = read_entries(alloc, from.deserialize_map(alloc)?)?;
        Ok(collect(alloc, entries)?)
    }
}

/// The map of these entries; of equal keys the last value wins.
fn collect<K: Eq + Hash + Drop, V: Drop>(
    alloc: Global,
    entries: Vec<(K, V)>,
) -> std::result::Result<HashMap<K, V>, AllocError>
    ensures { IfOk result (IsFromIterResult K.eq entries.items) }
{
    entries.into_iter().collect(alloc)
}
