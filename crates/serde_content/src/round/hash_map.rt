//! Hash maps come back.

ghost use Rattle.serde_content.specs.Laws.Hashed.{TableExists, hash_map_back, hash_map_keeps};

use crate::round::RoundTrip;
use std::collections::HashMap;
use std::hash::Hash;

/// It is equal by what it contains, in whatever order.
impl<'de, K: RoundTrip<'de> + Hash, V: RoundTrip<'de>> RoundTrip<'de> for HashMap<K, V> {
    ghost exists = { λ m. TableExists K.exists V.exists K.eq m };

    fn known(&self) {
        for (key, value) in self {
            key.known();
            value.known();
        }
    }

    ghost comes_back = { hash_map_back K.Eq.laws K.comes_back V.comes_back };

    ghost keeps = { hash_map_keeps K.eq K.keeps V.keeps };
}
