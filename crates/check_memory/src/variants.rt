//! Variants of enums: the tag, and what they hold.

use crate::nodes::{enumeration, fields, map, one, places};
use crate::reading::{Reader, reads};
use crate::tally::{Made, Tally};
use serde_content::de::VariantAccess;
use serde_content::{Data, Result, Value, ValueVisitor};
use std::alloc::Global;

/// What a variant holds.
type Held = VariantAccess<'static, 'static>;

/// Makes the calls.
pub fn run(tally: &mut Tally, alloc: Global) {
    tally.succeeds("the tag of a text", tag(alloc, Value::from("V")));
    if let Some(entry) = tally.made(map(alloc, "V")) {
        tally.succeeds("the opened entry of a map", open(alloc, entry));
    }
    if let Some(variant) = tally.made(enumeration(alloc, Ok(Data::Unit))) {
        tally.succeeds("the tag of a variant", tag(alloc, variant));
    }
    if let Some(held) = opened(tally, alloc, Ok(Data::Unit)) {
        tally.succeeds("unit_variant", held.unit_variant(alloc));
    }
    if let Some(held) = opened(tally, alloc, Ok(one())) {
        tally.succeeds("newtype_deserializer", held.newtype_deserializer(alloc));
    }
    if let Some(held) = opened(tally, alloc, places(alloc)) {
        tally.succeeds("tuple_variant", held.tuple_variant(alloc, 1));
    }
    if let Some(held) = opened(tally, alloc, fields(alloc)) {
        tally.succeeds("struct_variant", held.struct_variant(alloc, &[]));
    }
}

/// The tag of a value that is read as a variant, and what the variant holds.
fn open(alloc: Global, value: Value<'static>) -> Result<(Reader, Held)> {
    let variant = reads(value).deserialize_enum(alloc, "E", &[])?;
    variant.variant_deserializer(alloc)
}

/// The tag alone, as a value.
fn tag(alloc: Global, value: Value<'static>) -> Result<Value<'static>> {
    let (tag, held) = open(alloc, value)?;
    drop(held);
    ValueVisitor.read(alloc, tag)
}

/// What the variant holds alone.
fn held(alloc: Global, value: Value<'static>) -> Result<Held> {
    let (tag, held) = open(alloc, value)?;
    drop(tag);
    Ok(held)
}

/// What a variant holds that is made of this.
fn opened(tally: &mut Tally, alloc: Global, data: Made<Data<'static>>) -> Option<Held> {
    let variant = tally.made(enumeration(alloc, data))?;
    tally.given("an opened variant", held(alloc, variant))
}
