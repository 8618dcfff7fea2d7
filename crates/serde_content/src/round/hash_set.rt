//! Hash sets come back.

ghost use Rattle.std.specs.List.{AllByRecursion};
ghost use Rattle.serde_content.specs.Laws.Hashed.{hash_set_back, hash_set_keeps};

use crate::round::RoundTrip;
use std::collections::HashSet;
use std::hash::Hash;

/// It is equal by what it contains, in whatever order.
impl<'de, T: RoundTrip<'de> + Hash> RoundTrip<'de> for HashSet<T> {
    ghost exists = { λ s. AllByRecursion T.exists s.keys };

    fn known(&self) {
        for item in self {
            item.known();
        }
    }

    ghost comes_back = { hash_set_back T.Eq.laws T.comes_back };

    ghost keeps = { hash_set_keeps T.eq T.keeps };
}
