//! Maps whose values are read level by level.

ghost use Rattle.std.specs.Prelude.{[]};
ghost use Rattle.content_de.specs.Outcomes.{refusal_then, IsTaken};
ghost use Rattle.content_de.specs.Accesses.Map.{map_view, map_at};
ghost use Rattle.content_de.specs.Reads.Read.{Reads};
ghost use Rattle.content_de.specs.Reads.Maps.{map_refusal, MapGives};

use crate::reading::{ReadWithin, ReadsWithin};
use content_de::{Deserialize, Deserializer, Map, refused_value};
use content_tree::Result;
use std::alloc::Global;
use std::collections::BTreeMap;

impl<'de, K: Deserialize<'de> + Ord, T, L> ReadsWithin<'de, BTreeMap<K, T>> for Box<L>
where
    Box<L>: ReadsWithin<'de, T>,
{
    ghost refusal = { λ l s. refusal_then (map_at s)
        (map_refusal K.refusal (⟦<Box<L> as ReadsWithin<'de, T>>⟧.refusal l)) };

    ghost gives = { λ l s v. IsTaken (map_at s)
        (λ left. MapGives K.gives (⟦<Box<L> as ReadsWithin<'de, T>>⟧.gives l) K.cmp left [] v.entries) };
}

impl<'de, K: Deserialize<'de> + Ord, T: Drop, L> ReadWithin<'de, BTreeMap<K, T>> for Box<L>
where
    Box<L>: ReadWithin<'de, T>,
{
    fn read_within<'n: 'de>(
        &self,
        alloc: Global,
        from: Deserializer<'de, 'n>,
    ) -> Result<BTreeMap<K, T>> {
        read_entries(self, alloc, from.deserialize_map(alloc)?)
    }
}

/// The entries that are left, in order; of equal keys the last value wins.
fn read_entries<'de, 'n: 'de, K: Deserialize<'de> + Ord, T: Drop, L: ReadWithin<'de, T>>(
    levels: &L,
    alloc: Global,
    mut from: Map<'de, 'n>,
) -> Result<BTreeMap<K, T>>
    ensures { Reads
        (map_refusal K.refusal (L.refusal levels.now) (map_view from.entry))
        (λ m. MapGives K.gives (L.gives levels.now) K.cmp (map_view from.entry) []
        m.entries) result }
{
    let mut entries = BTreeMap::new(alloc);
    while let Some(entry) = from.next_entry_deserializers(alloc)? {
        // The value is read first: the path of its refusal needs the key.
        match levels.read_within(alloc, entry.1) {
            Ok(value) => {
                let key = entry.0.deserialize_unplaced(alloc)?;
                drop(entries.insert(key, value)?);
            }
            Err(error) => return Err(refused_value::<K>(alloc, entry.0, error)),
        }
    }
    Ok(entries)
}
