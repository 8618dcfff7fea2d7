//! Sets in order come back.

ghost use Rattle.serde_content.specs.Laws.Holders.{seen_back, seen_keeps};
ghost use Rattle.serde_content.specs.Laws.Sets.{KeysExist, set_back, set_keeps};

use crate::round::RoundTrip;
use std::collections::BTreeSet;

impl<'de, T: RoundTrip<'de> + Ord> RoundTrip<'de> for BTreeSet<T> {
    ghost exists = { λ s. KeysExist T.exists T.cmp s.keys };

    fn known(&self) {
        for item in self {
            item.known();
        }
    }

    ghost comes_back = { seen_back (λ s. s.keys) (set_back T.total T.matches_eq T.comes_back) };

    ghost keeps = { seen_keeps (λ s. s.keys) (set_keeps T.cmp T.keeps) };
}
