//! Types that contain themselves: what code calls that `tools/derive` writes for them. Call none of
//! it by hand: it changes with that tool.
//!
//! | To | Use |
//! |---|---|
//! | send a value of such a type | [`Steps`], [`Nests`], [`Told`], [`SendNested`], [`send_nested`] |
//! | read one, level by level | [`Levels`], [`ReadWithin`], [`ReadNested`], [`read_nested`] |
//! | read what is in one | [`VariantsWithin`], [`StructWithin`], [`FieldsWithin`], [`PartsWithin`] |

#![tactic(auto)]

mod fields;
mod holders_read;
mod holders_sent;
mod levels;
mod map_read;
mod parts;
mod reading;
mod rows_sent;
mod sending;
mod structs;
mod variants;

pub use fields::{FieldsWithin, NestedField, NestedFieldOr};
pub use levels::Levels;
pub use parts::{NestedPart, PartsWithin};
pub use reading::{
    ReadNested, ReadWithin, ReadsLevel, ReadsNested, ReadsWithin, read_nested, too_deep,
};
pub use rows_sent::{SendNestedField, SendNestedPart};
pub use sending::{
    Inner, Nests, SendNested, SkipNested, Steps, Tells, Told, send_around, send_nested, send_only,
    send_row_aside, tell,
};
pub use structs::{StructWithin, read_struct_within};
pub use variants::{
    TaggedWithin, VariantsWithin, newtype_within, read_adjacent_within, read_enum_within,
    read_tagged_within,
};
