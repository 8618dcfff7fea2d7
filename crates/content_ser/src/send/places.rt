//! The places of fields in the order of their keys.

#![tactic(auto)]

ghost use Rattle.std.specs.Prelude.{map, IfOk};
ghost use Rattle.content_ser.specs.Sending.Loose.{sorted};
ghost use Rattle.content_ser.specs.Sending.Places.{keyed_tree_of, StandsFor};

use content_tree::{CowStr, Value};
use std::alloc::{AllocError, Global};
use std::collections::BTreeMap;

/// The place of the last field of each key, by key.
pub fn last_places<'a>(
    alloc: Global,
    fields: &'a Vec<(CowStr<'static>, Value<'_>)>,
) -> Result<BTreeMap<&'a str, usize>, AllocError>
    ensures { IfOk result
        (λ places. StandsFor fields.now.items places.entries
        (sorted (map keyed_tree_of fields.now.items))) }
{
    let mut places = BTreeMap::new(alloc);
    for i in 0..fields.len() {
        drop(places.insert(fields[i].0.as_str(), i)?);
    }
    Ok(places)
}
