//! Maps come back.

ghost use Rattle.serde_content.specs.RoundTrip.{EntriesExist};
ghost use Rattle.serde_content.specs.Laws.Holders.{seen_back, seen_keeps};
ghost use Rattle.serde_content.specs.Laws.Maps.{map_back, map_keeps};

use crate::round::RoundTrip;
use std::collections::BTreeMap;

impl<'de, K: RoundTrip<'de> + Ord, V: RoundTrip<'de>> RoundTrip<'de> for BTreeMap<K, V> {
    ghost exists = { λ m. EntriesExist K.exists V.exists K.cmp m.entries };

    fn known(&self) {
        for (key, value) in self {
            key.known();
            value.known();
        }
    }

    ghost comes_back = { seen_back (λ m. m.entries)
        (map_back K.total K.matches_eq K.comes_back V.comes_back) };

    ghost keeps = { seen_keeps (λ m. m.entries) (map_keeps K.cmp K.keeps V.keeps) };
}
