//! Paths.

ghost use Rattle.std.specs.Prelude.{◌≡◌, false};
ghost use Rattle.std.specs.Path.{path_buf_bytes};
ghost use Rattle.content_de.specs.Outcomes.{refusal_of, IsTaken};
ghost use Rattle.content_de.specs.Requests.Leaves.{text_from};
ghost use Rattle.content_de.specs.Reads.Standard.{HasContent};

use crate::deserialize::Deserialize;
use crate::deserializer::Deserializer;
use content_tree::Result;
use std::alloc::Global;
use std::path::PathBuf;

/// The path of a text; an owned one is moved, and a borrowed one copied.
impl<'de> Deserialize<'de> for PathBuf {
    ghost refusal = { λ s. refusal_of (text_from s.origin) };

    ghost gives = { λ s v. IsTaken (text_from s.origin) (HasContent (path_buf_bytes v)) };

    ghost memoryless = { λ s. IsTaken (text_from s.origin) (λ t. t.borrowed ≡ false) };

    fn deserialize<'n: 'de>(alloc: Global, from: Deserializer<'de, 'n>) -> Result<PathBuf> {
        Ok(PathBuf::from(String::deserialize(alloc, from)?))
    }
}
