//! Numbers as numbers of another kind.

ghost use Rattle.std.specs.Prelude.{◌≡◌, pos, option_map};
ghost use Rattle.content_tree.specs.Values.Ranges.{i8, u8, i16, u16, i32, u32, i64, u64, i128};
ghost use Rattle.content_tree.specs.Values.Ranges.{u128};
ghost use Rattle.content_de.specs.Requests.Numbers.{number_as};

use content_tree::Number;

/// The number as one of kind `i8`: one of that kind, or a coerced one within its range.
pub(crate) fn as_i8(number: Number, coerces: bool) -> Option<i8>
    ensures { result ≡ number_as i8 coerces number }
{
    match number {
        Number::I8(value) => Some(value),
        _ if coerces => match number.as_i128() {
            Some(value) => i8::try_from(value).ok(),
            None => None,
        },
        _ => None,
    }
}

/// The number as one of kind `u8`: one of that kind, or a coerced one within its range.
pub(crate) fn as_u8(number: Number, coerces: bool) -> Option<u8>
    ensures { option_map pos result ≡ number_as u8 coerces number }
{
    match number {
        Number::U8(value) => Some(value),
        _ if coerces => match number.as_u128() {
            Some(value) => u8::try_from(value).ok(),
            None => None,
        },
        _ => None,
    }
}

/// The number as one of kind `i16`: one of that kind, or a coerced one within its range.
pub(crate) fn as_i16(number: Number, coerces: bool) -> Option<i16>
    ensures { result ≡ number_as i16 coerces number }
{
    match number {
        Number::I16(value) => Some(value),
        _ if coerces => match number.as_i128() {
            Some(value) => i16::try_from(value).ok(),
            None => None,
        },
        _ => None,
    }
}

/// The number as one of kind `u16`: one of that kind, or a coerced one within its range.
pub(crate) fn as_u16(number: Number, coerces: bool) -> Option<u16>
    ensures { option_map pos result ≡ number_as u16 coerces number }
{
    match number {
        Number::U16(value) => Some(value),
        _ if coerces => match number.as_u128() {
            Some(value) => u16::try_from(value).ok(),
            None => None,
        },
        _ => None,
    }
}

/// The number as one of kind `i32`: one of that kind, or a coerced one within its range.
pub(crate) fn as_i32(number: Number, coerces: bool) -> Option<i32>
    ensures { result ≡ number_as i32 coerces number }
{
    match number {
        Number::I32(value) => Some(value),
        _ if coerces => match number.as_i128() {
            Some(value) => i32::try_from(value).ok(),
            None => None,
        },
        _ => None,
    }
}

/// The number as one of kind `u32`: one of that kind, or a coerced one within its range.
pub(crate) fn as_u32(number: Number, coerces: bool) -> Option<u32>
    ensures { option_map pos result ≡ number_as u32 coerces number }
{
    match number {
        Number::U32(value) => Some(value),
        _ if coerces => match number.as_u128() {
            Some(value) => u32::try_from(value).ok(),
            None => None,
        },
        _ => None,
    }
}

/// The number as one of kind `i64`: one of that kind, or a coerced one within its range.
pub(crate) fn as_i64(number: Number, coerces: bool) -> Option<i64>
    ensures { result ≡ number_as i64 coerces number }
{
    match number {
        Number::I64(value) => Some(value),
        _ if coerces => number.as_i64(),
        _ => None,
    }
}

/// The number as one of kind `u64`: one of that kind, or a coerced one within its range.
pub(crate) fn as_u64(number: Number, coerces: bool) -> Option<u64>
    ensures { option_map pos result ≡ number_as u64 coerces number }
{
    match number {
        Number::U64(value) => Some(value),
        _ if coerces => number.as_u64(),
        _ => None,
    }
}

/// The number as one of kind `i128`: one of that kind, or a coerced one within its range.
pub(crate) fn as_i128(number: Number, coerces: bool) -> Option<i128>
    ensures { result ≡ number_as i128 coerces number }
{
    match number {
        Number::I128(value) => Some(value),
        _ if coerces => number.as_i128(),
        _ => None,
    }
}

/// The number as one of kind `u128`: one of that kind, or a coerced one within its range.
pub(crate) fn as_u128(number: Number, coerces: bool) -> Option<u128>
    ensures { option_map pos result ≡ number_as u128 coerces number }
{
    match number {
        Number::U128(value) => Some(value),
        _ if coerces => number.as_u128(),
        _ => None,
    }
}
