//! Values that are sent and read again.

ghost use Rattle.std.specs.Prelude.{◌≡◌, true, IfOk};

use serde_content::laws::one_tree;
use serde_content::samples::Point;
use serde_content::{Deserializer, Result, RoundTrip, Serializer, round_trip};
use std::alloc::Global;
use std::collections::BTreeMap;

/// Any value of a type that comes back, sent and read again: equal to what it was.
pub fn same_value<'de, T: RoundTrip<'de>>(alloc: Global, value: &T) -> Result<bool>
    ensures { IfOk result (λ same. same ≡ true) }
{
    let back = round_trip(alloc, value, false, true)?;
    Ok(*value == back)
}

/// The same at a type: maps come back too, and nothing is asked of them.
pub fn same_map(alloc: Global, map: &BTreeMap<u8, Vec<bool>>) -> Result<bool>
    ensures { IfOk result (λ same. same ≡ true) }
{
    same_value(alloc, map)
}

/// A struct, serialised and read again by two calls: it is the one that was sent. The law
/// `one_tree` says that the tree that came is the one that the struct's calls spell.
pub fn same_point(alloc: Global, point: &Point) -> Result<Point>
    ensures { IfOk result (λ back. back ≡ point.now) }
{
    one_tree();
    let value = Serializer::new().serialize(alloc, point)?;
    Deserializer::new(value).deserialize(alloc)
}
