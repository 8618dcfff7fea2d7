//! What CBOR keeps of a value.

ghost use Rattle.std.specs.Prelude.{◌≤◌, ◌<◌, IfErr, IsErr};
ghost use Rattle.content_tree.specs.Values.Tree.{owned};
ghost use Rattle.content_tree.specs.Values.Value.{tree_of};
ghost use Rattle.content_cbor.specs.Decoded.{IsPlaced, IsReadAs, StopsAt};
ghost use Rattle.content_cbor.specs.Form.{depth, form};
ghost use Rattle.content_cbor.specs.Inner.Reading.{whole_at};
ghost use Rattle.content_cbor.specs.Item.{item};

use crate::decode_error::DecodeError;
use crate::decoding::decode;
use crate::encoding::encode;
use content_tree::{NamedValue, Value};
use std::alloc::Global;

/// Encodes a value and decodes the bytes: what CBOR keeps of it, with every text and byte value
/// owned.
///
/// The depth of an array or a map is one more than that of the deepest item in it, of any other
/// item 1. Memory is taken for the bytes, for the value, and for its copy that owns all.
///
/// # Errors
///
/// `Refused`, as [`decode`] refuses the value's item, only where that is deeper than the limit;
/// `OutOfMemory`.
///
/// ```rust
/// let value = Value::Tuple(vec![in alloc; Value::from(7u8), Value::Unit]?);
/// let wanted = Value::Seq(vec![in alloc; Value::from(7u64), Value::Option(None)]?);
/// assert!(rt; through_cbor(alloc, &value, 2)? == wanted);
/// ```
pub fn through_cbor<'a, 'n>(
    alloc: Global,
    value: &NamedValue<'a, 'n>,
    depth_limit: usize,
) -> Result<Value<'static>, DecodeError>
    ensures value { depth (form (tree_of value.now)) ≤ depth_limit
        → IsReadAs (owned (form (tree_of value.now))) result }
    ensures refused { depth_limit < depth (form (tree_of value.now)) → IsErr result }
    // the error of decoding the value's item
    ensures fault { IfErr result (λ e. StopsAt (item (tree_of value.now)) e
        (whole_at depth_limit (item (tree_of value.now)))) }
    ensures place { IfErr result (λ e. IsPlaced depth_limit (item (tree_of value.now)) e) }
{
    let Ok(bytes) = encode(alloc, value) else {
        return Err(DecodeError::OutOfMemory);
    };
    let kept = decode(alloc, &bytes, depth_limit)?;
    match kept.into_owned(alloc) {
        Ok(kept) => Ok(kept),
        Err(_) => Err(DecodeError::OutOfMemory),
    }
}
