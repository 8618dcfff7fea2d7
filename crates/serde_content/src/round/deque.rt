//! Double-ended queues come back.

ghost use Rattle.std.specs.List.{AllByRecursion};
ghost use Rattle.serde_content.specs.Laws.Holders.{seen_back, seen_keeps, seq_back, seq_keeps};

use crate::round::RoundTrip;
use std::collections::VecDeque;

impl<'de, T: RoundTrip<'de>> RoundTrip<'de> for VecDeque<T> {
    ghost exists = { λ q. AllByRecursion T.exists q.items };

    fn known(&self) {
        for item in self {
            item.known();
        }
    }

    ghost comes_back = { seen_back (λ q. q.items) (seq_back T.comes_back) };

    ghost keeps = { seen_keeps (λ q. q.items) (seq_keeps T.keeps) };
}
