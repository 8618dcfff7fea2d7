//! What `deserialize_any` finds.

use crate::deserializer::Deserializer;
use crate::enum_access::EnumAccess;
use crate::map::Map;
use crate::seq::Seq;
use content_tree::{CowBytes, CowStr, Number};

/// What [`deserialize_any`](Deserializer::deserialize_any) finds: a datum, or its parts under the
/// same flags. (`serde-content` calls one method of a visitor for each.)
#[derive(Drop)]
pub enum Node<'de, 'n> {
    /// The unit, or a unit struct.
    Unit,
    /// A boolean.
    Bool(bool),
    /// A number.
    Number(Number),
    /// A character.
    Char(char),
    /// A text, borrowed or owned as it was.
    Str(CowStr<'de>),
    /// Bytes, borrowed or owned as they were.
    Bytes(CowBytes<'de>),
    /// An absent optional value.
    NoneNode,
    /// A present optional value.
    SomeNode(Deserializer<'de, 'n>),
    /// What a newtype struct holds.
    Newtype(Deserializer<'de, 'n>),
    /// The items of a sequence, a tuple or a tuple struct.
    Seq(Seq<'de, 'n>),
    /// The entries of a map or of an object-like struct.
    Map(Map<'de, 'n>),
    /// A variant, expected under its own enum's name.
    Enum(EnumAccess<'de, 'n>),
}
