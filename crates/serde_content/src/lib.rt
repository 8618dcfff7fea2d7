//! A container for any data of Serde's model except floats. Use it where data arrives before its
//! type is known: make a value, look inside, print it, and read it as typed data. Types and names
//! are those of the crate `serde-content` 0.1.2.
//!
//! ```rust
//! let value = Serializer::new().serialize(alloc, &Point { x: 1, y: 2 })?;
//! let text = format!(in alloc; "{}", value.display())?;
//! assert!(rt; text.as_str() == "Point { x: 1i32, y: 2i32 }");
//! assert!(rt; value.get_str("x").and_then(|x| x.as_i64()) == Some(1));
//! let point: Point = Deserializer::new(value).deserialize(alloc)?;
//! assert!(rt; point == Point { x: 1, y: 2 });
//! ```
//!
//! | To | Use |
//! |---|---|
//! | make a value | [`Serializer`], `value!`, [`ser::Builder`], [`ser::from_calls`] |
//! | look inside, print, compare, copy | [`Value`] |
//! | read typed data; parts of it | [`Deserializer`]; [`de`] |
//! | handle what fails | [`Error`], [`ErrorKind`] |
//! | send and read your own types | [`ser::Serialize`], [`de::Deserialize`]; [`samples`] has two |
//! | write a serialiser | [`ser::Serializer`] |
//! | get back an equal value, proved | [`RoundTrip`], [`round_trip`] |
//! | prove something of what calls these | [`laws`] |

#![tactic(auto)]

pub use content_build::Serializer;
pub use content_de::{Deserializer, ValueVisitor};
pub use content_tree::{
    CowBytes, CowStr, Data, DataType, Enum, Error, ErrorKind, Expected, Found, FoundData,
    InsertError, Located, NamedData, NamedEnum, NamedStruct, NamedValue, Number, Path,
    PrettyDisplay, Result, Struct, Unexpected, Value, ValueDisplay,
};
pub use round::{RoundTrip, round_trip};
pub use values::{from_value, to_value};

mod absent;
mod aliases;
pub mod de;
pub mod derive_support;
mod entries_sent;
mod fields_read;
mod fields_sent;
mod flattened_sent;
pub mod laws;
mod literals;
mod made_of;
mod name_lists;
mod one_of;
mod own_functions;
mod rests;
mod round;
pub mod samples;
pub mod ser;
mod skips;
mod tags;
mod values;
mod variants;
