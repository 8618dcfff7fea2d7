//! Maps come back from CBOR.

ghost use Rattle.content_cbor.specs.Typed.Holders.{seen_kept};
ghost use Rattle.content_cbor.specs.Typed.Maps.{map_kept, map_not_null};

use crate::round_trip::{CborRoundTrip, NotNull};
use content_de::Deserialize;
use std::collections::BTreeMap;

impl<'de, K: CborRoundTrip<'de> + Ord, V: CborRoundTrip<'de>> CborRoundTrip<'de>
    for BTreeMap<K, V> {
    ghost kept = { seen_kept (λ m. m.entries) (map_kept K.total K.matches_eq K.kept V.kept) };
}

impl<'de, K: Deserialize<'de> + Ord, V: Deserialize<'de>> NotNull<'de> for BTreeMap<K, V> {
    ghost refuses_null = { map_not_null K.refusal V.refusal };
}
