//! Typed data that come back from CBOR.

ghost use Rattle.std.specs.Prelude.{◌≡◌, [], Some, true, false, IfOk, IfErr, IsErrAnd};
ghost use Rattle.content_tree.specs.Errors.Kind.{IsOutOfMemory};
ghost use Rattle.content_tree.specs.Errors.Where.{places};
ghost use Rattle.content_tree.specs.Values.Tree.{Tree};
ghost use Rattle.content_de.specs.Reads.Read.{Reads};
ghost use Rattle.content_cbor.specs.Codes.{Codes};
ghost use Rattle.content_cbor.specs.Decoded.{IsFaultOf, as_read};
ghost use Rattle.content_cbor.specs.Typed.Kept.{FormComesBack, IsKeptOf, RefusesNull};

use crate::typed::from_bytes;
use content_de::Deserialize;
use content_tree::Result;
use serde_content::RoundTrip;
use std::alloc::Global;

mod address;
mod array;
mod holders;
mod map;
mod samples;
mod sets;
mod standard;
mod tuple;

/// A type whose values come back from CBOR: of what [`to_bytes`](crate::to_bytes) wrote of a value,
/// [`read_back`] reads an equal one.
///
/// It holds of booleans, `String`, `BoxedStr`, `PathBuf`, whole numbers of each kind, IP addresses,
/// and where it does of what they hold, of `Box`, `Rc`, `Arc`, `Vec`, `VecDeque`, sets, maps,
/// tuples, arrays, and an `Option` of what is [`NotNull`]. [`from_bytes`] says of what it doesn't.
pub trait CborRoundTrip<'de>: RoundTrip<'de> {
    /// The calls of a value that exists spell a tree. What CBOR keeps of that, where it fits, isn't
    /// refused with numbers coerced, and each value that may be read of it is equal by `==`.
    ghost kept: { FormComesBack Self.exists Self.script Self.refusal Self.gives Self.eq };
}

/// A type that isn't read of null, so that `Some` of its values is told from `None`.
pub trait NotNull<'de>: Deserialize<'de> {
    /// Null is refused.
    ghost refuses_null: { RefusesNull Self.refusal };
}

/// Typed data from bytes, as by [`from_bytes`]; of bytes that [`to_bytes`](crate::to_bytes) wrote
/// of a value of the type, an equal value.
///
/// # Errors
///
/// Those of `from_bytes`; of what was written so, and within the limit, out of memory alone.
///
/// ```rust
/// let bytes = to_bytes(alloc, &(Some(7u8), -1i64))?;
/// let back: (Option<u8>, i64) = read_back(alloc, &bytes, 2)?;
/// assert!(rt; back == (Some(7), -1));
/// ```
pub fn read_back<'de, T: CborRoundTrip<'de>>(
    alloc: Global,
    bytes: &'de [u8],
    depth_limit: usize,
) -> Result<T>
    // where the bytes code what CBOR keeps of x
    ensures value { (x : T) (t : Tree) → T.exists x → IsKeptOf (T.script x false) t
        → Codes depth_limit t bytes.now → IfOk result (λ back. T.eq x back ≡ true) }
    ensures memory { (x : T) (t : Tree) → T.exists x → IsKeptOf (T.script x false) t
        → Codes depth_limit t bytes.now → IfErr result (λ e. IsOutOfMemory e) }
    ensures read { (t : Tree) → Codes depth_limit t bytes.now
        → Reads (T.refusal (as_read t)) (T.gives (as_read t)) result }
    ensures fault { ((t : Tree) → Codes depth_limit t bytes.now → ⊥)
        → IsErrAnd result (λ e. IsFaultOf depth_limit bytes.now e) }
    ensures path { ((t : Tree) → Codes depth_limit t bytes.now → ⊥)
        → IfErr result (λ e. places e ≡ Some []) }
{
    from_bytes(alloc, bytes, depth_limit)
}
