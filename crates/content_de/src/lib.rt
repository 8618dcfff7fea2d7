//! Reads values as typed data. Use it through `serde_content` and its module `de`.
//!
//! ```rust
//! let point: Point = Deserializer::new(value).deserialize(alloc)?;
//! assert!(rt; point == Point { x: 1, y: 2 });
//! ```
//!
//! | To | Use |
//! |---|---|
//! | read a type; the types that can be read | [`Deserializer`]; [`Deserialize`], `impls` |
//! | ask for a number, a text, a struct and so on | `requests` |
//! | go through parts | [`Seq`], [`Map`], [`EnumAccess`], [`VariantAccess`] |
//! | read elements in order | [`next_part`], [`finish_parts`], [`end_parts`] |
//! | read fields in order | [`next_field`] |
//! | read fields by name | [`FieldsByName`], [`named_field`], [`field_or`], [`deny_unknown_fields`] |
//! | read what fields leave over | [`keep_unknown_fields`], [`attempt_last`] |
//! | read enums with a tag field, or untagged | [`tag_field`], [`internal_tag`], [`attempt`] |
//! | read a value in plain form | [`ValueVisitor`] |
//! | add a part to the path of a refusal | [`Deserializer::deserialize_item`], [`Deserializer::deserialize_field`], [`refused_value`] |
//! | prove something of these | [`laws`] |

#![tactic(auto)]

mod attempts;
mod by_name;
mod coerce;
mod contents;
mod deserialize;
mod deserializer;
mod enum_access;
mod field_errors;
mod fits;
mod impls;
mod into;
pub mod laws;
mod left_fields;
mod map;
mod named_fields;
mod node;
mod parts;
mod plain;
mod reading;
mod refusal;
mod requests;
mod seq;
mod source;
mod unknown_names;
mod variant_access;
mod within;

pub use attempts::{attempt, attempt_fitting, attempt_last};
pub use by_name::FieldsByName;
pub use deserialize::Deserialize;
pub use deserializer::Deserializer;
pub use enum_access::EnumAccess;
pub use into::IntoDeserializer;
pub use map::Map;
pub use named_fields::{
    deny_unknown_fields, field_or, ignore_unknown_fields, internal_tag, keep_unknown_fields,
    named_field, tag_field,
};
pub use node::Node;
pub use parts::{end_parts, finish_parts, next_field, next_part, two_parts};
pub use plain::ValueVisitor;
pub use seq::Seq;
pub use unknown_names::unknown_variant;
pub use variant_access::VariantAccess;
pub use within::refused_value;
