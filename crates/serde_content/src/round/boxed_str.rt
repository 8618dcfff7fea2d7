//! Boxed texts come back.

ghost use Rattle.serde_content.specs.Laws.Leaves.{heedless_keeps};
ghost use Rattle.serde_content.specs.Laws.Texts.{boxed_text_back};

use crate::round::RoundTrip;
use std::boxed::BoxedStr;

impl<'de> RoundTrip<'de> for BoxedStr {
    fn known(&self) {}

    ghost comes_back = { boxed_text_back };

    ghost keeps = { heedless_keeps _ _ };
}
