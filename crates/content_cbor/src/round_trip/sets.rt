//! Sets and hash maps come back from CBOR.

ghost use Rattle.content_cbor.specs.Typed.HashMaps.{hash_map_kept};
ghost use Rattle.content_cbor.specs.Typed.Holders.{seen_kept, seq_not_null};
ghost use Rattle.content_cbor.specs.Typed.Maps.{map_not_null};
ghost use Rattle.content_cbor.specs.Typed.Sets.{hash_set_kept, set_kept};

use crate::round_trip::{CborRoundTrip, NotNull};
use content_de::Deserialize;
use std::collections::{BTreeSet, HashMap, HashSet};
use std::hash::Hash;

impl<'de, T: CborRoundTrip<'de> + Ord> CborRoundTrip<'de> for BTreeSet<T> {
    ghost kept = { seen_kept (λ s. s.keys) (set_kept T.total T.matches_eq T.kept) };
}

impl<'de, T: Deserialize<'de> + Ord> NotNull<'de> for BTreeSet<T> {
    ghost refuses_null = { seq_not_null T.refusal };
}

impl<'de, T: CborRoundTrip<'de> + Hash> CborRoundTrip<'de> for HashSet<T> {
    ghost kept = { hash_set_kept T.Eq.laws T.kept };
}

impl<'de, T: Deserialize<'de> + Eq + Hash> NotNull<'de> for HashSet<T> {
    ghost refuses_null = { seq_not_null T.refusal };
}

impl<'de, K: CborRoundTrip<'de> + Hash, V: CborRoundTrip<'de>> CborRoundTrip<'de>
    for HashMap<K, V> {
    ghost kept = { hash_map_kept K.Eq.laws K.kept V.kept };
}

impl<'de, K: Deserialize<'de> + Eq + Hash, V: Deserialize<'de>> NotNull<'de> for HashMap<K, V> {
    ghost refuses_null = { map_not_null K.refusal V.refusal };
}
