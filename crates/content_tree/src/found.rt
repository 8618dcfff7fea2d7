//! Images of values, for errors.

use crate::number::Number;

/// What was found, for an error: the image of a value, which owns all that it shows.
#[cycle(found)]
#[derive(Debug, Drop)]
pub enum Found {
    /// The unit, `()`.
    Unit,
    /// A boolean.
    Bool(bool),
    /// A whole number.
    Number(Number),
    /// A character.
    Char(char),
    /// A text.
    String(String),
    /// An array of bytes.
    Bytes(Vec<u8>),
    /// A sequence.
    Seq(Vec<Found>),
    /// A map: its pairs of key and value, in order.
    Map(Vec<(Found, Found)>),
    /// An optional value.
    Option(Option<Box<Found>>),
    /// A struct.
    Struct {
        /// The name of the struct.
        name: String,
        /// What it holds.
        data: Box<FoundData>,
    },
    /// A variant of an enum.
    Enum {
        /// The name of the enum.
        name: String,
        /// The name of the variant.
        variant: String,
        /// What it holds.
        data: Box<FoundData>,
    },
    /// A tuple.
    Tuple(Vec<Found>),
    /// The key of a field or the name of a variant.
    Identifier(String),
}

/// What a struct or a variant was found to hold.
#[cycle(found)]
#[derive(Debug, Drop)]
pub enum FoundData {
    /// Nothing.
    Unit,
    /// One value.
    NewType(Found),
    /// Values by place.
    Tuple(Vec<Found>),
    /// Each key with its value, in order.
    Struct(Vec<(String, Found)>),
}
