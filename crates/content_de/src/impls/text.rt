//! Texts and bytes.

ghost use Rattle.std.specs.Prelude.{◌≡◌, None, false, string_bytes};
ghost use Rattle.content_tree.specs.Values.Text.{text_of};
ghost use Rattle.content_de.specs.Outcomes.{refusal_of, taken, IsRefused, IsTaken};
ghost use Rattle.content_de.specs.Requests.Leaves.{text_from, bytes_from};
ghost use Rattle.content_de.specs.Reads.Standard.{HasContent, lent_or, not_borrowed_text};
ghost use Rattle.content_de.specs.Reads.Standard.{not_borrowed_bytes, lent};

use crate::deserialize::Deserialize;
use crate::deserializer::Deserializer;
use crate::refusal::custom;
use content_tree::{CowBytes, CowStr, Result};
use std::alloc::Global;

/// A text; an owned one is moved, and a borrowed one copied.
impl<'de> Deserialize<'de> for String {
    ghost refusal = { λ s. refusal_of (text_from s.origin) };

    ghost gives = { λ s v. IsTaken (text_from s.origin) (HasContent (string_bytes v)) };

    ghost memoryless = { λ s. IsTaken (text_from s.origin) (λ t. t.borrowed ≡ false) };

    fn deserialize<'n: 'de>(alloc: Global, from: Deserializer<'de, 'n>) -> Result<String> {
        from.deserialize_string(alloc)?.into_owned(alloc)
    }
}

/// A text, moved if it is owned, and else borrowed. It takes no memory.
impl<'de> Deserialize<'de> for CowStr<'de> {
    ghost refusal = { λ s. refusal_of (text_from s.origin) };

    ghost gives = { λ s v. text_from s.origin ≡ taken (text_of v) };

    ghost memoryless = { λ s. ¬ IsRefused (text_from s.origin) };

    fn deserialize<'n: 'de>(alloc: Global, from: Deserializer<'de, 'n>) -> Result<CowStr<'de>> {
        from.deserialize_str(alloc)
    }
}

/// A text that is borrowed. An owned one is refused: it can't be borrowed past the reading.
impl<'de> Deserialize<'de> for &'de str {
    ghost refusal = { λ s. lent_or not_borrowed_text (text_from s.origin) };

    ghost gives = { λ s v. text_from s.origin ≡ taken (lent v.now) };

    ghost memoryless = { λ s. lent_or not_borrowed_text (text_from s.origin) ≡ None };

    fn deserialize<'n: 'de>(alloc: Global, from: Deserializer<'de, 'n>) -> Result<&'de str> {
        match from.deserialize_str(alloc)? {
            CowStr::Borrowed(text) => Ok(text),
            CowStr::Owned(_) => Err(custom(alloc, "expected a borrowed string")),
        }
    }
}

/// Bytes that are borrowed. Owned ones are refused: they can't be borrowed past the reading.
impl<'de> Deserialize<'de> for &'de [u8] {
    ghost refusal = { λ s. lent_or not_borrowed_bytes (bytes_from s.origin) };

    ghost gives = { λ s v. bytes_from s.origin ≡ taken (lent v.now) };

    ghost memoryless = { λ s. lent_or not_borrowed_bytes (bytes_from s.origin) ≡ None };

    fn deserialize<'n: 'de>(alloc: Global, from: Deserializer<'de, 'n>) -> Result<&'de [u8]> {
        match from.deserialize_bytes(alloc)? {
            CowBytes::Borrowed(bytes) => Ok(bytes),
            CowBytes::Owned(_) => Err(custom(alloc, "expected borrowed bytes")),
        }
    }
}
