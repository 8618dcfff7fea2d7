//! Numbers of ten kinds.

ghost use Rattle.std.specs.Prelude.{◌≡◌, pos, option_map};
ghost use Rattle.content_tree.specs.Values.Lookups.{value_as};
ghost use Rattle.content_tree.specs.Values.Ranges.{i64, u64, i128, u128};
ghost use Rattle.content_tree.specs.declared.number.Number.{Number};

/// A whole number of one of ten kinds. As `serde-content`'s, without floats.
#[derive(Clone, Copy, Debug, PartialEq, Eq, PartialOrd, Ord)]
pub enum Number {
    /// A signed number of 8 bits.
    I8(i8),
    /// An unsigned number of 8 bits.
    U8(u8),
    /// A signed number of 16 bits.
    I16(i16),
    /// An unsigned number of 16 bits.
    U16(u16),
    /// A signed number of 32 bits.
    I32(i32),
    /// An unsigned number of 32 bits.
    U32(u32),
    /// A signed number of 64 bits.
    I64(i64),
    /// An unsigned number of 64 bits.
    U64(u64),
    /// A signed number of 128 bits.
    I128(i128),
    /// An unsigned number of 128 bits.
    U128(u128),
}

/// The number's value, whatever its kind, where it lies in a range. None takes memory.
impl Number {
    /// The value, where it lies in the range of `i128`.
    pub fn as_i128(self) -> Option<i128>
        ensures { result ≡ value_as i128 self }
    {
        match self {
            Number::I8(value) => Some(i128::from(value)),
            Number::U8(value) => Some(i128::from(value)),
            Number::I16(value) => Some(i128::from(value)),
            Number::U16(value) => Some(i128::from(value)),
            Number::I32(value) => Some(i128::from(value)),
            Number::U32(value) => Some(i128::from(value)),
            Number::I64(value) => Some(i128::from(value)),
            Number::U64(value) => Some(i128::from(value)),
            Number::I128(value) => Some(value),
            Number::U128(value) => i128::try_from(value).ok(),
        }
    }

    /// The value, where it lies in the range of `u128`.
    pub fn as_u128(self) -> Option<u128>
        ensures { option_map pos result ≡ value_as u128 self }
    {
        match self {
            Number::I8(value) => u128::try_from(value).ok(),
            Number::U8(value) => Some(u128::from(value)),
            Number::I16(value) => u128::try_from(value).ok(),
            Number::U16(value) => Some(u128::from(value)),
            Number::I32(value) => u128::try_from(value).ok(),
            Number::U32(value) => Some(u128::from(value)),
            Number::I64(value) => u128::try_from(value).ok(),
            Number::U64(value) => Some(u128::from(value)),
            Number::I128(value) => u128::try_from(value).ok(),
            Number::U128(value) => Some(value),
        }
    }

    /// The value, where it lies in the range of `i64`.
    pub fn as_i64(self) -> Option<i64>
        ensures { result ≡ value_as i64 self }
    {
        match self.as_i128() {
            Some(value) => i64::try_from(value).ok(),
            None => None,
        }
    }

    /// The value, where it lies in the range of `u64`.
    pub fn as_u64(self) -> Option<u64>
        ensures { option_map pos result ≡ value_as u64 self }
    {
        match self.as_u128() {
            Some(value) => u64::try_from(value).ok(),
            None => None,
        }
    }
}

/// A signed number of 8 bits, with that kind. It takes no memory.
impl From<i8> for Number {
    ghost from_gives = { λ from number. number ≡ Number.I8 from };

    fn from(from: i8) -> Number {
        Number::I8(from)
    }
}

/// An unsigned number of 8 bits, with that kind. It takes no memory.
impl From<u8> for Number {
    ghost from_gives = { λ from number. number ≡ Number.U8 from };

    fn from(from: u8) -> Number {
        Number::U8(from)
    }
}

/// A signed number of 16 bits, with that kind. It takes no memory.
impl From<i16> for Number {
    ghost from_gives = { λ from number. number ≡ Number.I16 from };

    fn from(from: i16) -> Number {
        Number::I16(from)
    }
}

/// An unsigned number of 16 bits, with that kind. It takes no memory.
impl From<u16> for Number {
    ghost from_gives = { λ from number. number ≡ Number.U16 from };

    fn from(from: u16) -> Number {
        Number::U16(from)
    }
}

/// A signed number of 32 bits, with that kind. It takes no memory.
impl From<i32> for Number {
    ghost from_gives = { λ from number. number ≡ Number.I32 from };

    fn from(from: i32) -> Number {
        Number::I32(from)
    }
}

/// An unsigned number of 32 bits, with that kind. It takes no memory.
impl From<u32> for Number {
    ghost from_gives = { λ from number. number ≡ Number.U32 from };

    fn from(from: u32) -> Number {
        Number::U32(from)
    }
}

/// A signed number of 64 bits, with that kind. It takes no memory.
impl From<i64> for Number {
    ghost from_gives = { λ from number. number ≡ Number.I64 from };

    fn from(from: i64) -> Number {
        Number::I64(from)
    }
}

/// An unsigned number of 64 bits, with that kind. It takes no memory.
impl From<u64> for Number {
    ghost from_gives = { λ from number. number ≡ Number.U64 from };

    fn from(from: u64) -> Number {
        Number::U64(from)
    }
}

/// A signed number of 128 bits, with that kind. It takes no memory.
impl From<i128> for Number {
    ghost from_gives = { λ from number. number ≡ Number.I128 from };

    fn from(from: i128) -> Number {
        Number::I128(from)
    }
}

/// An unsigned number of 128 bits, with that kind. It takes no memory.
impl From<u128> for Number {
    ghost from_gives = { λ from number. number ≡ Number.U128 from };

    fn from(from: u128) -> Number {
        Number::U128(from)
    }
}
