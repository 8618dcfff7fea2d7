//! What several own in many threads comes back.

ghost use Rattle.serde_content.specs.Laws.Holders.{seen_back, seen_keeps};

use crate::round::RoundTrip;
use std::sync::Arc;

impl<'de, T: RoundTrip<'de>> RoundTrip<'de> for Arc<T> {
    ghost exists = { λ b. T.exists b.value };

    fn known(&self) {
        (**self).known();
    }

    ghost comes_back = { seen_back (λ b. b.value) T.comes_back };

    ghost keeps = { seen_keeps (λ b. b.value) T.keeps };
}
