//! Whole numbers out of values. None of this takes memory.

ghost use Rattle.std.specs.Prelude.{◌≡◌, pos, option_map};
ghost use Rattle.content_tree.specs.Values.Lookups.{value_as, value_in};
ghost use Rattle.content_tree.specs.Values.Parts.{GivesPart};
ghost use Rattle.content_tree.specs.Values.Ranges.{i8, u8, i16, u16, i32, u32, i64, u64};
ghost use Rattle.content_tree.specs.Values.Ranges.{i128, u128};
ghost use Rattle.content_tree.specs.Values.Value.{tree_of};

use crate::number::Number;
use crate::value::NamedValue;

/// The value of a number of any kind, where it lies in the range of `i8`; else the value itself.
impl<'a, 'n> TryFrom<NamedValue<'a, 'n>> for i8 {
    type Error = NamedValue<'a, 'n>;

    ghost try_from_gives = { λ value given. GivesPart (λ own. own)
        (value_in i8 (tree_of value)) value given };

    fn try_from(value: NamedValue<'a, 'n>) -> Result<i8, NamedValue<'a, 'n>> {
        match value {
            NamedValue::Number(number) => match as_i8(number) {
                Some(found) => Ok(found),
                None => Err(NamedValue::Number(number)),
            },
            value => Err(value),
        }
    }
}

/// The value of a number of any kind, where it lies in the range of `u8`; else the value itself.
impl<'a, 'n> TryFrom<NamedValue<'a, 'n>> for u8 {
    type Error = NamedValue<'a, 'n>;

    ghost try_from_gives = { λ value given. GivesPart (λ own. pos own)
        (value_in u8 (tree_of value)) value given };

    fn try_from(value: NamedValue<'a, 'n>) -> Result<u8, NamedValue<'a, 'n>> {
        match value {
            NamedValue::Number(number) => match as_u8(number) {
                Some(found) => Ok(found),
                None => Err(NamedValue::Number(number)),
            },
            value => Err(value),
        }
    }
}

/// The value of a number of any kind, where it lies in the range of `i16`; else the value itself.
impl<'a, 'n> TryFrom<NamedValue<'a, 'n>> for i16 {
    type Error = NamedValue<'a, 'n>;

    ghost try_from_gives = { λ value given. GivesPart (λ own. own)
        (value_in i16 (tree_of value)) value given };

    fn try_from(value: NamedValue<'a, 'n>) -> Result<i16, NamedValue<'a, 'n>> {
        match value {
            NamedValue::Number(number) => match as_i16(number) {
                Some(found) => Ok(found),
                None => Err(NamedValue::Number(number)),
            },
            value => Err(value),
        }
    }
}

/// The value of a number of any kind, where it lies in the range of `u16`; else the value itself.
impl<'a, 'n> TryFrom<NamedValue<'a, 'n>> for u16 {
    type Error = NamedValue<'a, 'n>;

    ghost try_from_gives = { λ value given. GivesPart (λ own. pos own)
        (value_in u16 (tree_of value)) value given };

    fn try_from(value: NamedValue<'a, 'n>) -> Result<u16, NamedValue<'a, 'n>> {
        match value {
            NamedValue::Number(number) => match as_u16(number) {
                Some(found) => Ok(found),
                None => Err(NamedValue::Number(number)),
            },
            value => Err(value),
        }
    }
}

/// The value of a number of any kind, where it lies in the range of `i32`; else the value itself.
impl<'a, 'n> TryFrom<NamedValue<'a, 'n>> for i32 {
    type Error = NamedValue<'a, 'n>;

    ghost try_from_gives = { λ value given. GivesPart (λ own. own)
        (value_in i32 (tree_of value)) value given };

    fn try_from(value: NamedValue<'a, 'n>) -> Result<i32, NamedValue<'a, 'n>> {
        match value {
            NamedValue::Number(number) => match as_i32(number) {
                Some(found) => Ok(found),
                None => Err(NamedValue::Number(number)),
            },
            value => Err(value),
        }
    }
}

/// The value of a number of any kind, where it lies in the range of `u32`; else the value itself.
impl<'a, 'n> TryFrom<NamedValue<'a, 'n>> for u32 {
    type Error = NamedValue<'a, 'n>;

    ghost try_from_gives = { λ value given. GivesPart (λ own. pos own)
        (value_in u32 (tree_of value)) value given };

    fn try_from(value: NamedValue<'a, 'n>) -> Result<u32, NamedValue<'a, 'n>> {
        match value {
            NamedValue::Number(number) => match as_u32(number) {
                Some(found) => Ok(found),
                None => Err(NamedValue::Number(number)),
            },
            value => Err(value),
        }
    }
}

/// The value of a number of any kind, where it lies in the range of `i64`; else the value itself.
impl<'a, 'n> TryFrom<NamedValue<'a, 'n>> for i64 {
    type Error = NamedValue<'a, 'n>;

    ghost try_from_gives = { λ value given. GivesPart (λ own. own)
        (value_in i64 (tree_of value)) value given };

    fn try_from(value: NamedValue<'a, 'n>) -> Result<i64, NamedValue<'a, 'n>> {
        match value {
            NamedValue::Number(number) => match number.as_i64() {
                Some(found) => Ok(found),
                None => Err(NamedValue::Number(number)),
            },
            value => Err(value),
        }
    }
}

/// The value of a number of any kind, where it lies in the range of `u64`; else the value itself.
impl<'a, 'n> TryFrom<NamedValue<'a, 'n>> for u64 {
    type Error = NamedValue<'a, 'n>;

    ghost try_from_gives = { λ value given. GivesPart (λ own. pos own)
        (value_in u64 (tree_of value)) value given };

    fn try_from(value: NamedValue<'a, 'n>) -> Result<u64, NamedValue<'a, 'n>> {
        match value {
            NamedValue::Number(number) => match number.as_u64() {
                Some(found) => Ok(found),
                None => Err(NamedValue::Number(number)),
            },
            value => Err(value),
        }
    }
}

/// The value of a number of any kind, where it lies in the range of `i128`; else the value itself.
impl<'a, 'n> TryFrom<NamedValue<'a, 'n>> for i128 {
    type Error = NamedValue<'a, 'n>;

    ghost try_from_gives = { λ value given. GivesPart (λ own. own)
        (value_in i128 (tree_of value)) value given };

    fn try_from(value: NamedValue<'a, 'n>) -> Result<i128, NamedValue<'a, 'n>> {
        match value {
            NamedValue::Number(number) => match number.as_i128() {
                Some(found) => Ok(found),
                None => Err(NamedValue::Number(number)),
            },
            value => Err(value),
        }
    }
}

/// The value of a number of any kind, where it lies in the range of `u128`; else the value itself.
impl<'a, 'n> TryFrom<NamedValue<'a, 'n>> for u128 {
    type Error = NamedValue<'a, 'n>;

    ghost try_from_gives = { λ value given. GivesPart (λ own. pos own)
        (value_in u128 (tree_of value)) value given };

    fn try_from(value: NamedValue<'a, 'n>) -> Result<u128, NamedValue<'a, 'n>> {
        match value {
            NamedValue::Number(number) => match number.as_u128() {
                Some(found) => Ok(found),
                None => Err(NamedValue::Number(number)),
            },
            value => Err(value),
        }
    }
}

/// The value, where it lies in the range of `i8`.
fn as_i8(number: Number) -> Option<i8>
    ensures { result ≡ value_as i8 number }
{
    match number.as_i128() {
        Some(value) => i8::try_from(value).ok(),
        None => None,
    }
}

/// The value, where it lies in the range of `u8`.
fn as_u8(number: Number) -> Option<u8>
    ensures { option_map pos result ≡ value_as u8 number }
{
    match number.as_u128() {
        Some(value) => u8::try_from(value).ok(),
        None => None,
    }
}

/// The value, where it lies in the range of `i16`.
fn as_i16(number: Number) -> Option<i16>
    ensures { result ≡ value_as i16 number }
{
    match number.as_i128() {
        Some(value) => i16::try_from(value).ok(),
        None => None,
    }
}

/// The value, where it lies in the range of `u16`.
fn as_u16(number: Number) -> Option<u16>
    ensures { option_map pos result ≡ value_as u16 number }
{
    match number.as_u128() {
        Some(value) => u16::try_from(value).ok(),
        None => None,
    }
}

/// The value, where it lies in the range of `i32`.
fn as_i32(number: Number) -> Option<i32>
    ensures { result ≡ value_as i32 number }
{
    match number.as_i128() {
        Some(value) => i32::try_from(value).ok(),
        None => None,
    }
}

/// The value, where it lies in the range of `u32`.
fn as_u32(number: Number) -> Option<u32>
    ensures { option_map pos result ≡ value_as u32 number }
{
    match number.as_u128() {
        Some(value) => u32::try_from(value).ok(),
        None => None,
    }
}
