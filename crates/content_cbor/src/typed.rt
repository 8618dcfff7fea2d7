//! Typed data from bytes.

ghost use Rattle.std.specs.Prelude.{◌≡◌, [], Some, IfErr, IsErrAnd};
ghost use Rattle.content_tree.specs.Errors.Where.{places};
ghost use Rattle.content_tree.specs.Values.Tree.{Tree};
ghost use Rattle.content_de.specs.Reads.Read.{Reads};
ghost use Rattle.content_cbor.specs.Codes.{Codes};
ghost use Rattle.content_cbor.specs.Decoded.{IsFaultOf, as_read};

use crate::decode_error::DecodeError;
use crate::decoding::decode;
use content_de::{Deserialize, Deserializer};
use content_tree::{Error, ErrorKind, Result};
use std::alloc::{AllocError, Global};

/// Reads typed data from bytes of CBOR: the value that [`decode`] gives, read as the type, with
/// numbers coerced, since CBOR keeps no kind of a number. The limit is that of `decode`; `&str` and
/// `&[u8]` are read only of what is in one piece.
///
/// Not all that [`to_bytes`](crate::to_bytes) wrote comes back: [`read_back`](crate::read_back) is
/// for the types of which it does. A character, a text by then, is refused, and so are the unit and
/// a unit struct, which are null; `Some` of what is null is read as `None`. A `Number` comes as one
/// of 64 or 128 bits, a `Value` as what CBOR keeps of it.
///
/// Memory is taken for the value, which is dropped, by the type, and for a refusal.
///
/// # Errors
///
/// Of kind `Custom` where the bytes code no value, with the text of the [`DecodeError`]; the type's
/// first refusal; out of memory.
///
/// ```rust
/// let bytes = to_bytes(alloc, &(Some(7u8), "a"))?;
/// let pair: (Option<u8>, &str) = from_bytes(alloc, &bytes, 16)?;
/// assert!(rt; pair == (Some(7), "a"));
/// ```
pub fn from_bytes<'de, T: Deserialize<'de>>(
    alloc: Global,
    bytes: &'de [u8],
    depth_limit: usize,
) -> Result<T>
    ensures value { (t : Tree) → Codes depth_limit t bytes.now
        → Reads (T.refusal (as_read t)) (T.gives (as_read t)) result }
    ensures fault { ((t : Tree) → Codes depth_limit t bytes.now → ⊥)
        → IsErrAnd result (λ e. IsFaultOf depth_limit bytes.now e) }
    ensures path { ((t : Tree) → Codes depth_limit t bytes.now → ⊥)
        → IfErr result (λ e. places e ≡ Some []) }
{
    match decode(alloc, bytes, depth_limit) {
        Ok(value) => Deserializer::new(value).coerce_numbers().deserialize(alloc),
        Err(DecodeError::OutOfMemory) => Err(Error::from(AllocError)),
        Err(DecodeError::Refused { at, fault }) => {
            let refused = DecodeError::Refused { at, fault };
            let text = format!(in alloc; "{refused}")?;
            Err(Error::from(ErrorKind::Custom(text)))
        }
    }
}
