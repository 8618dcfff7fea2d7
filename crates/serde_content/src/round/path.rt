//! Paths come back.

ghost use Rattle.serde_content.specs.Laws.Leaves.{heedless_keeps};
ghost use Rattle.serde_content.specs.Laws.Texts.{path_back};

use crate::round::RoundTrip;
use std::path::PathBuf;

impl<'de> RoundTrip<'de> for PathBuf {
    fn known(&self) {}

    ghost comes_back = { path_back };

    ghost keeps = { heedless_keeps _ _ };
}
