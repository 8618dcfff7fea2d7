//! The values that are copied, compared and read. What holds something holds the number 7.

use crate::tally::Made;
use serde_content::{CowBytes, CowStr, Data, Enum, Struct, Value};
use std::alloc::Global;

/// A text that is owned.
pub fn text(alloc: Global) -> Made<CowStr<'static>> {
    Ok(CowStr::Owned(String::from_str(alloc, "ab")?))
}

/// The same as a value.
pub fn owned_text(alloc: Global) -> Made<Value<'static>> {
    Ok(Value::String(text(alloc)?))
}

/// Bytes that are owned.
pub fn bytes(alloc: Global) -> Made<CowBytes<'static>> {
    Ok(CowBytes::Owned(vec![in alloc; 1u8, 2]?))
}

/// The same as a value.
pub fn owned_bytes(alloc: Global) -> Made<Value<'static>> {
    Ok(Value::Bytes(bytes(alloc)?))
}

/// One item.
pub fn items(alloc: Global) -> Made<Vec<Value<'static>>> {
    Ok(vec![in alloc; 7u8.into()]?)
}

/// A map of one entry.
pub fn map(alloc: Global, key: &'static str) -> Made<Value<'static>> {
    Ok(Value::Map(vec![in alloc; (Value::from(key), 7u8.into())]?))
}

/// An option that is present.
pub fn some(alloc: Global, value: Made<Value<'static>>) -> Made<Value<'static>> {
    Ok(Value::Option(Some(Box::new(alloc, value?)?)))
}

/// One value.
pub fn one() -> Data<'static> {
    Data::NewType { value: 7u8.into() }
}

/// One value by place.
pub fn places(alloc: Global) -> Made<Data<'static>> {
    let values = items(alloc)?;
    Ok(Data::Tuple { values })
}

/// One value by key.
pub fn fields(alloc: Global) -> Made<Data<'static>> {
    let fields = vec![in alloc; (CowStr::Borrowed("x"), 7u8.into())]?;
    Ok(Data::Struct { fields })
}

/// A struct, with no box.
pub fn holder(data: Data<'static>) -> Struct<'static> {
    let name = CowStr::Borrowed("S");
    Struct { name, data }
}

/// A struct.
pub fn structure(alloc: Global, data: Made<Data<'static>>) -> Made<Value<'static>> {
    Ok(Value::Struct(Box::new(alloc, holder(data?))?))
}

/// A variant, with no box.
pub fn variant(data: Data<'static>) -> Enum<'static> {
    Enum {
        name: CowStr::Borrowed("E"),
        variant_index: 1,
        variant: CowStr::Borrowed("V"),
        data,
    }
}

/// A variant.
pub fn enumeration(alloc: Global, data: Made<Data<'static>>) -> Made<Value<'static>> {
    Ok(Value::Enum(Box::new(alloc, variant(data?))?))
}
