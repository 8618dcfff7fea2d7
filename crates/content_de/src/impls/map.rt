//! Maps.

ghost use Rattle.std.specs.Prelude.{◌≡◌, [], IfOk, IsTrue};
ghost use Rattle.std.specs.List.Sorted.{IsStrictlySortedBy};
ghost use Rattle.std.specs.Map.{keys_of};
ghost use Rattle.std.specs.Ordering.{is_lt};
ghost use Rattle.content_de.specs.Outcomes.{refusal_then, IsTaken};
ghost use Rattle.content_de.specs.Accesses.Map.{map_view, map_at};
ghost use Rattle.content_de.specs.Reads.Read.{Reads};
ghost use Rattle.content_de.specs.Reads.Maps.{map_refusal, MapGives, put_in};
ghost use Rattle.content_de.specs.Reads.Pairs.{LeftGives};

use crate::deserialize::Deserialize;
use crate::deserializer::Deserializer;
use crate::map::Map;
use crate::within::refused_value;
use content_tree::Result;
use std::alloc::{AllocError, Global};
use std::cmp::Ordering;
use std::collections::BTreeMap;

/// The entries of a map, to the end; of equal keys the last value wins. Memory for all entries is
/// taken before the first is read.
impl<'de, K: Deserialize<'de> + Ord, V: Deserialize<'de>> Deserialize<'de> for BTreeMap<K, V> {
    ghost refusal = { λ s. refusal_then (map_at s) (map_refusal K.refusal V.refusal) };

    ghost gives = { λ s v. IsTaken (map_at s)
        (λ l. MapGives K.gives V.gives K.cmp l [] v.entries) };

    fn deserialize<'n: 'de>(alloc: Global, from: Deserializer<'de, 'n>) -> Result<BTreeMap<K, V>> {
        let entries = read_entries(alloc, from.deserialize_map(alloc)?)?;
        Ok(collect(alloc, entries)?)
    }
}

/// The entries that are left, in order.
pub(super) fn read_entries<'de, 'n: 'de, K: Deserialize<'de>, V: Deserialize<'de>>(
    alloc: Global,
    mut from: Map<'de, 'n>,
) -> Result<Vec<(K, V)>>
    ensures { Reads (map_refusal K.refusal V.refusal (map_view from.entry))
        (λ v. LeftGives K.gives V.gives (map_view from.entry) v.items) result }
{
    let mut entries = Vec::with_capacity(alloc, from.size_hint().unwrap_or(0))?;
    while let Some(entry) = from.take_entry() {
        // The value is read first: the path of its refusal needs the key.
        match V::deserialize(alloc, entry.1) {
            Ok(value) => entries.push_reserved((entry.0.deserialize_unplaced(alloc)?, value)),
            Err(error) => return Err(refused_value::<K>(alloc, entry.0, error)),
        }
    }
    Ok(entries)
}

/// The map of these entries; of equal keys the last value wins.
fn collect<K: Ord + Drop, V: Drop>(
    alloc: Global,
    entries: Vec<(K, V)>,
) -> std::result::Result<BTreeMap<K, V>, AllocError>
    ensures { IfOk result (λ map. map.entries ≡ put_in K.cmp [] entries.items) }
{
    if ascend(&entries) {
        from_the_back(alloc, entries)
    } else {
        from_the_front(alloc, entries)
    }
}

/// Whether each key is below the next.
fn ascend<K: Ord, V>(entries: &Vec<(K, V)>) -> bool
    ensures { IsTrue result → IsStrictlySortedBy K.cmp (keys_of entries.now.items) }
{
    entries.is_sorted_by(is_below)
}

/// Whether the key of an entry is below that of another.
fn is_below<K: Ord, V>(a: &(K, V), b: &(K, V)) -> bool
    ensures { result ≡ is_lt (K.cmp a.now.0 b.now.0) }
{
    matches!(a.0.cmp(&b.0), Ordering::Less)
}

/// The map of entries whose keys ascend. They are put in from the back: each then comes before all
/// that are there, which the map sees from one key a level.
fn from_the_back<K: Ord + Drop, V: Drop>(
    alloc: Global,
    mut entries: Vec<(K, V)>,
) -> std::result::Result<BTreeMap<K, V>, AllocError>
    requires { IsStrictlySortedBy K.cmp (keys_of entries.items) }
    ensures { IfOk result (λ map. map.entries ≡ entries.items) }
{
    let mut map = BTreeMap::new(alloc);
    while let Some((key, value)) = entries.pop() {
        map.insert(key, value)?;
    }
    Ok(map)
}

/// The map of entries in any order.
fn from_the_front<K: Ord + Drop, V: Drop>(
    alloc: Global,
    entries: Vec<(K, V)>,
) -> std::result::Result<BTreeMap<K, V>, AllocError>
    ensures { IfOk result (λ map. map.entries ≡ put_in K.cmp [] entries.items) }
{
    let mut map = BTreeMap::new(alloc);
    for (key, value) in entries {
        map.insert(key, value)?;
    }
    Ok(map)
}
