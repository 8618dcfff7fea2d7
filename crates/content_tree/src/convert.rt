//! Values from the types that they hold. No conversion takes memory: a reference is borrowed, a
//! text or a vector is owned.

ghost use Rattle.std.specs.Prelude.{◌≡◌, string_bytes};
ghost use Rattle.content_tree.specs.Values.Text.{text_of, owned_text};
ghost use Rattle.content_tree.specs.Values.Cases.{borrowed_text};
ghost use Rattle.content_tree.specs.Values.Tree as tree;
ghost use Rattle.content_tree.specs.Values.Value.{tree_of};
ghost use Rattle.content_tree.specs.declared.number.Number.{Number};

use crate::cow::{CowBytes, CowStr};
use crate::number::Number;
use crate::value::NamedValue;

/// The unit. It takes no memory.
impl<'a, 'n> From<()> for NamedValue<'a, 'n> {
    ghost from_gives = { λ _unit value. tree_of value ≡ tree.unit };

    fn from(_unit: ()) -> NamedValue<'a, 'n> {
        NamedValue::Unit
    }
}

/// A boolean. It takes no memory.
impl<'a, 'n> From<bool> for NamedValue<'a, 'n> {
    ghost from_gives = { λ boolean value. tree_of value ≡ tree.boolean boolean };

    fn from(boolean: bool) -> NamedValue<'a, 'n> {
        NamedValue::Bool(boolean)
    }
}

/// A whole number. It takes no memory.
impl<'a, 'n> From<Number> for NamedValue<'a, 'n> {
    ghost from_gives = { λ number value. tree_of value ≡ tree.number number };

    fn from(number: Number) -> NamedValue<'a, 'n> {
        NamedValue::Number(number)
    }
}

/// A signed number of 8 bits, with that kind. It takes no memory.
impl<'a, 'n> From<i8> for NamedValue<'a, 'n> {
    ghost from_gives = { λ number value. tree_of value ≡ tree.number (Number.I8 number) };

    fn from(number: i8) -> NamedValue<'a, 'n> {
        NamedValue::Number(Number::I8(number))
    }
}

/// An unsigned number of 8 bits, with that kind. It takes no memory.
impl<'a, 'n> From<u8> for NamedValue<'a, 'n> {
    ghost from_gives = { λ number value. tree_of value ≡ tree.number (Number.U8 number) };

    fn from(number: u8) -> NamedValue<'a, 'n> {
        NamedValue::Number(Number::U8(number))
    }
}

/// A signed number of 16 bits, with that kind. It takes no memory.
impl<'a, 'n> From<i16> for NamedValue<'a, 'n> {
    ghost from_gives = { λ number value. tree_of value ≡ tree.number (Number.I16 number) };

    fn from(number: i16) -> NamedValue<'a, 'n> {
        NamedValue::Number(Number::I16(number))
    }
}

/// An unsigned number of 16 bits, with that kind. It takes no memory.
impl<'a, 'n> From<u16> for NamedValue<'a, 'n> {
    ghost from_gives = { λ number value. tree_of value ≡ tree.number (Number.U16 number) };

    fn from(number: u16) -> NamedValue<'a, 'n> {
        NamedValue::Number(Number::U16(number))
    }
}

/// A signed number of 32 bits, with that kind. It takes no memory.
impl<'a, 'n> From<i32> for NamedValue<'a, 'n> {
    ghost from_gives = { λ number value. tree_of value ≡ tree.number (Number.I32 number) };

    fn from(number: i32) -> NamedValue<'a, 'n> {
        NamedValue::Number(Number::I32(number))
    }
}

/// An unsigned number of 32 bits, with that kind. It takes no memory.
impl<'a, 'n> From<u32> for NamedValue<'a, 'n> {
    ghost from_gives = { λ number value. tree_of value ≡ tree.number (Number.U32 number) };

    fn from(number: u32) -> NamedValue<'a, 'n> {
        NamedValue::Number(Number::U32(number))
    }
}

/// A signed number of 64 bits, with that kind. It takes no memory.
impl<'a, 'n> From<i64> for NamedValue<'a, 'n> {
    ghost from_gives = { λ number value. tree_of value ≡ tree.number (Number.I64 number) };

    fn from(number: i64) -> NamedValue<'a, 'n> {
        NamedValue::Number(Number::I64(number))
    }
}

/// An unsigned number of 64 bits, with that kind. It takes no memory.
impl<'a, 'n> From<u64> for NamedValue<'a, 'n> {
    ghost from_gives = { λ number value. tree_of value ≡ tree.number (Number.U64 number) };

    fn from(number: u64) -> NamedValue<'a, 'n> {
        NamedValue::Number(Number::U64(number))
    }
}

/// A signed number of 128 bits, with that kind. It takes no memory.
impl<'a, 'n> From<i128> for NamedValue<'a, 'n> {
    ghost from_gives = { λ number value. tree_of value ≡ tree.number (Number.I128 number) };

    fn from(number: i128) -> NamedValue<'a, 'n> {
        NamedValue::Number(Number::I128(number))
    }
}

/// An unsigned number of 128 bits, with that kind. It takes no memory.
impl<'a, 'n> From<u128> for NamedValue<'a, 'n> {
    ghost from_gives = { λ number value. tree_of value ≡ tree.number (Number.U128 number) };

    fn from(number: u128) -> NamedValue<'a, 'n> {
        NamedValue::Number(Number::U128(number))
    }
}

/// A character. It takes no memory.
impl<'a, 'n> From<char> for NamedValue<'a, 'n> {
    ghost from_gives = { λ character value. tree_of value ≡ tree.character character };

    fn from(character: char) -> NamedValue<'a, 'n> {
        NamedValue::Char(character)
    }
}

/// A text, borrowed or owned as it was. It takes no memory.
impl<'a, 'n> From<CowStr<'a>> for NamedValue<'a, 'n> {
    ghost from_gives = { λ text value. tree_of value ≡ tree.text (text_of text) };

    fn from(text: CowStr<'a>) -> NamedValue<'a, 'n> {
        NamedValue::String(text)
    }
}

/// A text, borrowed. It takes no memory.
impl<'a, 'n> From<&'a str> for NamedValue<'a, 'n> {
    ghost from_gives = { λ text value. tree_of value ≡ tree.text (borrowed_text text.now) };

    fn from(text: &'a str) -> NamedValue<'a, 'n> {
        NamedValue::String(CowStr::Borrowed(text))
    }
}

/// A text, borrowed. It takes no memory.
impl<'a, 'n> From<&'a String> for NamedValue<'a, 'n> {
    ghost from_gives = { λ text value. tree_of value ≡ tree.text
        (borrowed_text (string_bytes text.now)) };

    fn from(text: &'a String) -> NamedValue<'a, 'n> {
        NamedValue::String(CowStr::Borrowed(text.as_str()))
    }
}

/// A text, owned. It takes no memory.
impl<'a, 'n> From<String> for NamedValue<'a, 'n> {
    ghost from_gives = { λ text value. tree_of value ≡ tree.text (owned_text (string_bytes text)) };

    fn from(text: String) -> NamedValue<'a, 'n> {
        NamedValue::String(CowStr::Owned(text))
    }
}

/// An array of bytes, borrowed; no sequence of numbers. It takes no memory.
impl<'a, 'n> From<&'a [u8]> for NamedValue<'a, 'n> {
    ghost from_gives = { λ bytes value. tree_of value ≡ tree.octets (borrowed_text bytes.now) };

    fn from(bytes: &'a [u8]) -> NamedValue<'a, 'n> {
        NamedValue::Bytes(CowBytes::Borrowed(bytes))
    }
}

/// An array of bytes, borrowed; no sequence of numbers. It takes no memory.
impl<'a, 'n> From<&'a Vec<u8>> for NamedValue<'a, 'n> {
    ghost from_gives = { λ bytes value. tree_of value ≡ tree.octets
        (borrowed_text bytes.now.items) };

    fn from(bytes: &'a Vec<u8>) -> NamedValue<'a, 'n> {
        NamedValue::Bytes(CowBytes::Borrowed(bytes.as_slice()))
    }
}

/// An array of bytes, owned; no sequence of numbers. It takes no memory.
impl<'a, 'n> From<Vec<u8>> for NamedValue<'a, 'n> {
    ghost from_gives = { λ bytes value. tree_of value ≡ tree.octets (owned_text bytes.items) };

    fn from(bytes: Vec<u8>) -> NamedValue<'a, 'n> {
        NamedValue::Bytes(CowBytes::Owned(bytes))
    }
}
