//! Requests for numbers: a pair for each kind, as no trait leads from a type to its case of
//! `Number`, and methods that a macro writes have no contracts.

#![tactic(auto, using(crate::proofs::Values::values))]

ghost use Rattle.std.specs.Prelude.{pos};
ghost use Rattle.content_tree.specs.Values.Ranges.{i8, u8, i16, u16, i32, u32, i64, u64, i128};
ghost use Rattle.content_tree.specs.Values.Ranges.{u128};
ghost use Rattle.content_de.specs.Outcomes.{Answers};
ghost use Rattle.content_de.specs.Requests.Numbers.{number_from};
ghost use Rattle.content_de.specs.Sources.Deserializer.{subject};

use crate::coerce::{
    as_i8, as_i16, as_i32, as_i64, as_i128, as_u8, as_u16, as_u32, as_u64, as_u128,
};
use crate::deserializer::Deserializer;
use crate::refusal::custom;
use crate::source::Source;
use content_tree::{Error, Expected, Found, NamedValue, Number, Result};
use std::alloc::Global;

/// A number of a kind is taken from a [`Number`] of that kind, and where numbers are coerced from
/// any [`Number`] whose value lies in the kind's range. Where the number fits it takes no memory.
///
/// # Errors
///
/// `Unexpected`, with what was found and the kind that was expected; out of memory in its place.
impl<'de, 'n> Deserializer<'de, 'n> {
    /// Reads a signed number of 8 bits.
    pub fn deserialize_i8(self, alloc: Global) -> Result<i8>
        ensures { Answers (λ z. z) (number_from i8 (subject self.entry)) result }
    {
        match self.source {
            Source::Tree(NamedValue::Number(Number::I8(value))) => Ok(value),
            source => Deserializer {
                source,
                flags: self.flags,
            }
            .coerced_i8(alloc),
        }
    }

    /// The same for what isn't plainly of that kind. It isn't inlined, so that no error lies in the
    /// frame of a request for what is.
    #[inline(never)]
    fn coerced_i8(self, alloc: Global) -> Result<i8>
        ensures { Answers (λ z. z) (number_from i8 (subject self.entry)) result }
    {
        match self.source {
            Source::Tree(NamedValue::Number(number)) => match as_i8(number, self.flags.coerces) {
                Some(value) => Ok(value),
                None => Err(Error::unexpected(Found::Number(number), Expected::I8)),
            },
            other => Err(other.refuse(alloc, Expected::I8)),
        }
    }

    /// Reads an unsigned number of 8 bits.
    pub fn deserialize_u8(self, alloc: Global) -> Result<u8>
        ensures { Answers pos (number_from u8 (subject self.entry)) result }
    {
        match self.source {
            Source::Tree(NamedValue::Number(Number::U8(value))) => Ok(value),
            source => Deserializer {
                source,
                flags: self.flags,
            }
            .coerced_u8(alloc),
        }
    }

    /// The same for what isn't plainly of that kind. It isn't inlined, so that no error lies in the
    /// frame of a request for what is.
    #[inline(never)]
    fn coerced_u8(self, alloc: Global) -> Result<u8>
        ensures { Answers pos (number_from u8 (subject self.entry)) result }
    {
        match self.source {
            Source::Tree(NamedValue::Number(number)) => match as_u8(number, self.flags.coerces) {
                Some(value) => Ok(value),
                None => Err(Error::unexpected(Found::Number(number), Expected::U8)),
            },
            other => Err(other.refuse(alloc, Expected::U8)),
        }
    }

    /// Reads a signed number of 16 bits.
    pub fn deserialize_i16(self, alloc: Global) -> Result<i16>
        ensures { Answers (λ z. z) (number_from i16 (subject self.entry)) result }
    {
        match self.source {
            Source::Tree(NamedValue::Number(Number::I16(value))) => Ok(value),
            source => Deserializer {
                source,
                flags: self.flags,
            }
            .coerced_i16(alloc),
        }
    }

    /// The same for what isn't plainly of that kind. It isn't inlined, so that no error lies in the
    /// frame of a request for what is.
    #[inline(never)]
    fn coerced_i16(self, alloc: Global) -> Result<i16>
        ensures { Answers (λ z. z) (number_from i16 (subject self.entry)) result }
    {
        match self.source {
            Source::Tree(NamedValue::Number(number)) => match as_i16(number, self.flags.coerces) {
                Some(value) => Ok(value),
                None => Err(Error::unexpected(Found::Number(number), Expected::I16)),
            },
            other => Err(other.refuse(alloc, Expected::I16)),
        }
    }

    /// Reads an unsigned number of 16 bits.
    pub fn deserialize_u16(self, alloc: Global) -> Result<u16>
        ensures { Answers pos (number_from u16 (subject self.entry)) result }
    {
        match self.source {
            Source::Tree(NamedValue::Number(Number::U16(value))) => Ok(value),
            source => Deserializer {
                source,
                flags: self.flags,
            }
            .coerced_u16(alloc),
        }
    }

    /// The same for what isn't plainly of that kind. It isn't inlined, so that no error lies in the
    /// frame of a request for what is.
    #[inline(never)]
    fn coerced_u16(self, alloc: Global) -> Result<u16>
        ensures { Answers pos (number_from u16 (subject self.entry)) result }
    {
        match self.source {
            Source::Tree(NamedValue::Number(number)) => match as_u16(number, self.flags.coerces) {
                Some(value) => Ok(value),
                None => Err(Error::unexpected(Found::Number(number), Expected::U16)),
            },
            other => Err(other.refuse(alloc, Expected::U16)),
        }
    }

    /// Reads a signed number of 32 bits.
    pub fn deserialize_i32(self, alloc: Global) -> Result<i32>
        ensures { Answers (λ z. z) (number_from i32 (subject self.entry)) result }
    {
        match self.source {
            Source::Tree(NamedValue::Number(Number::I32(value))) => Ok(value),
            source => Deserializer {
                source,
                flags: self.flags,
            }
            .coerced_i32(alloc),
        }
    }

    /// The same for what isn't plainly of that kind. It isn't inlined, so that no error lies in the
    /// frame of a request for what is.
    #[inline(never)]
    fn coerced_i32(self, alloc: Global) -> Result<i32>
        ensures { Answers (λ z. z) (number_from i32 (subject self.entry)) result }
    {
        match self.source {
            Source::Tree(NamedValue::Number(number)) => match as_i32(number, self.flags.coerces) {
                Some(value) => Ok(value),
                None => Err(Error::unexpected(Found::Number(number), Expected::I32)),
            },
            other => Err(other.refuse(alloc, Expected::I32)),
        }
    }

    /// Reads an unsigned number of 32 bits.
    pub fn deserialize_u32(self, alloc: Global) -> Result<u32>
        ensures { Answers pos (number_from u32 (subject self.entry)) result }
    {
        match self.source {
            Source::Tree(NamedValue::Number(Number::U32(value))) => Ok(value),
            source => Deserializer {
                source,
                flags: self.flags,
            }
            .coerced_u32(alloc),
        }
    }

    /// The same for what isn't plainly of that kind. It isn't inlined, so that no error lies in the
    /// frame of a request for what is.
    #[inline(never)]
    fn coerced_u32(self, alloc: Global) -> Result<u32>
        ensures { Answers pos (number_from u32 (subject self.entry)) result }
    {
        match self.source {
            Source::Tree(NamedValue::Number(number)) => match as_u32(number, self.flags.coerces) {
                Some(value) => Ok(value),
                None => Err(Error::unexpected(Found::Number(number), Expected::U32)),
            },
            other => Err(other.refuse(alloc, Expected::U32)),
        }
    }

    /// Reads a signed number of 64 bits.
    pub fn deserialize_i64(self, alloc: Global) -> Result<i64>
        ensures { Answers (λ z. z) (number_from i64 (subject self.entry)) result }
    {
        match self.source {
            Source::Tree(NamedValue::Number(Number::I64(value))) => Ok(value),
            source => Deserializer {
                source,
                flags: self.flags,
            }
            .coerced_i64(alloc),
        }
    }

    /// The same for what isn't plainly of that kind. It isn't inlined, so that no error lies in the
    /// frame of a request for what is.
    #[inline(never)]
    fn coerced_i64(self, alloc: Global) -> Result<i64>
        ensures { Answers (λ z. z) (number_from i64 (subject self.entry)) result }
    {
        match self.source {
            Source::Tree(NamedValue::Number(number)) => match as_i64(number, self.flags.coerces) {
                Some(value) => Ok(value),
                None => Err(Error::unexpected(Found::Number(number), Expected::I64)),
            },
            other => Err(other.refuse(alloc, Expected::I64)),
        }
    }

    /// Reads an unsigned number of 64 bits. The name of a field is its place, and that of a variant
    /// its index.
    pub fn deserialize_u64(self, alloc: Global) -> Result<u64>
        ensures { Answers pos (number_from u64 (subject self.entry)) result }
    {
        match self.source {
            Source::Tree(NamedValue::Number(Number::U64(value))) => Ok(value),
            source => Deserializer {
                source,
                flags: self.flags,
            }
            .coerced_u64(alloc),
        }
    }

    /// The same for what isn't plainly of that kind. It isn't inlined, so that no error lies in the
    /// frame of a request for what is.
    #[inline(never)]
    fn coerced_u64(self, alloc: Global) -> Result<u64>
        ensures { Answers pos (number_from u64 (subject self.entry)) result }
    {
        match self.source {
            Source::Tree(NamedValue::Number(number)) => match as_u64(number, self.flags.coerces) {
                Some(value) => Ok(value),
                None => Err(Error::unexpected(Found::Number(number), Expected::U64)),
            },
            Source::Identifier { name: _, index } => Ok(index),
            other => Err(other.refuse(alloc, Expected::U64)),
        }
    }

    /// Reads a signed number of 128 bits. A name is refused by the text `i128 is not supported`.
    pub fn deserialize_i128(self, alloc: Global) -> Result<i128>
        ensures { Answers (λ z. z) (number_from i128 (subject self.entry)) result }
    {
        match self.source {
            Source::Tree(NamedValue::Number(Number::I128(value))) => Ok(value),
            source => Deserializer {
                source,
                flags: self.flags,
            }
            .coerced_i128(alloc),
        }
    }

    /// The same for what isn't plainly of that kind. It isn't inlined, so that no error lies in the
    /// frame of a request for what is.
    #[inline(never)]
    fn coerced_i128(self, alloc: Global) -> Result<i128>
        ensures { Answers (λ z. z) (number_from i128 (subject self.entry)) result }
    {
        match self.source {
            Source::Tree(NamedValue::Number(number)) => match as_i128(number, self.flags.coerces) {
                Some(value) => Ok(value),
                None => Err(Error::unexpected(Found::Number(number), Expected::I128)),
            },
            Source::Identifier { name: _, index: _ } => Err(custom(alloc, "i128 is not supported")),
            other => Err(other.refuse(alloc, Expected::I128)),
        }
    }

    /// Reads an unsigned number of 128 bits. A name is refused by the text `u128 is not supported`.
    pub fn deserialize_u128(self, alloc: Global) -> Result<u128>
        ensures { Answers pos (number_from u128 (subject self.entry)) result }
    {
        match self.source {
            Source::Tree(NamedValue::Number(Number::U128(value))) => Ok(value),
            source => Deserializer {
                source,
                flags: self.flags,
            }
            .coerced_u128(alloc),
        }
    }

    /// The same for what isn't plainly of that kind. It isn't inlined, so that no error lies in the
    /// frame of a request for what is.
    #[inline(never)]
    fn coerced_u128(self, alloc: Global) -> Result<u128>
        ensures { Answers pos (number_from u128 (subject self.entry)) result }
    {
        match self.source {
            Source::Tree(NamedValue::Number(number)) => match as_u128(number, self.flags.coerces) {
                Some(value) => Ok(value),
                None => Err(Error::unexpected(Found::Number(number), Expected::U128)),
            },
            Source::Identifier { name: _, index: _ } => Err(custom(alloc, "u128 is not supported")),
            other => Err(other.refuse(alloc, Expected::U128)),
        }
    }
}
