//! The tree of a value.

use crate::cow::{CowBytes, CowStr};
use crate::number::Number;

/// Holds any data of Serde's model except floats, with the cases of `serde-content`'s `Value`. Its
/// texts and bytes may be borrowed for `'a`; a name, a variant or a key that is borrowed is static.
///
/// `==` and the order see neither whether a text is borrowed nor whether a name is static. Unlike
/// in `serde-content`, the order is total.
///
/// ```rust
/// let value = Value::Seq(vec![in alloc; Value::from(true), Value::from(255u8)]?);
/// let found = value.into_found(alloc)?;
/// assert_eq!(rt; format!(in alloc; "{found}")?.as_str(), "[true, 255u8]");
/// ```
pub type Value<'a> = NamedValue<'a, 'static>;

/// A struct of Serde's data model: its name and what it holds. As in `serde-content`.
pub type Struct<'a> = NamedStruct<'a, 'static>;

/// A variant of an enum of Serde's data model: the enum's name, the variant's index (from 0) and
/// name, and what it holds. As in `serde-content`.
pub type Enum<'a> = NamedEnum<'a, 'static>;

/// What a struct or a variant holds. As in `serde-content`.
pub type Data<'a> = NamedData<'a, 'static>;

/// A [`Value`] whose borrowed names live for `'n`.
#[cycle(value)]
#[derive(Debug, Drop)]
pub enum NamedValue<'a, 'n> {
    /// The unit, `()`.
    Unit,
    /// A boolean.
    Bool(bool),
    /// A whole number.
    Number(Number),
    /// A character.
    Char(char),
    /// A text.
    String(CowStr<'a>),
    /// An array of bytes.
    Bytes(CowBytes<'a>),
    /// A sequence.
    Seq(Vec<NamedValue<'a, 'n>>),
    /// A map: its pairs of key and value, in order.
    Map(Vec<(NamedValue<'a, 'n>, NamedValue<'a, 'n>)>),
    /// An optional value.
    Option(Option<Box<NamedValue<'a, 'n>>>),
    /// A struct.
    Struct(Box<NamedStruct<'a, 'n>>),
    /// A variant of an enum.
    Enum(Box<NamedEnum<'a, 'n>>),
    /// A tuple.
    Tuple(Vec<NamedValue<'a, 'n>>),
}

/// A [`Struct`] whose borrowed names live for `'n`.
#[cycle(value)]
#[derive(Debug, Drop)]
pub struct NamedStruct<'a, 'n> {
    /// The name of the struct.
    pub name: CowStr<'n>,
    /// What it holds.
    pub data: NamedData<'a, 'n>,
}

/// An [`Enum`] whose borrowed names live for `'n`.
#[cycle(value)]
#[derive(Debug, Drop)]
pub struct NamedEnum<'a, 'n> {
    /// The name of the enum.
    pub name: CowStr<'n>,
    /// The index of the variant.
    pub variant_index: u32,
    /// The name of the variant.
    pub variant: CowStr<'n>,
    /// What it holds.
    pub data: NamedData<'a, 'n>,
}

/// A [`Data`] whose borrowed names live for `'n`.
#[cycle(value)]
#[derive(Debug, Drop)]
pub enum NamedData<'a, 'n> {
    /// Nothing: a unit struct or variant.
    Unit,
    /// One value: a newtype struct or variant.
    NewType {
        /// The value.
        value: NamedValue<'a, 'n>,
    },
    /// Values by place: a tuple struct or variant.
    Tuple {
        /// The values.
        values: Vec<NamedValue<'a, 'n>>,
    },
    /// Values by key: an object-like struct or variant.
    Struct {
        /// Each key with its value, in order.
        fields: Vec<(CowStr<'n>, NamedValue<'a, 'n>)>,
    },
}
