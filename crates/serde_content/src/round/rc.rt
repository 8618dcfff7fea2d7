//! What several own in one thread comes back.

ghost use Rattle.serde_content.specs.Laws.Holders.{seen_back, seen_keeps};

use crate::round::RoundTrip;
use std::rc::Rc;

impl<'de, T: RoundTrip<'de>> RoundTrip<'de> for Rc<T> {
    ghost exists = { λ b. T.exists b.value };

    fn known(&self) {
        (**self).known();
    }

    ghost comes_back = { seen_back (λ b. b.value) T.comes_back };

    ghost keeps = { seen_keeps (λ b. b.value) T.keeps };
}
