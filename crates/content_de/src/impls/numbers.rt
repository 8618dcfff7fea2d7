//! Numbers, booleans, characters and the unit.

ghost use Rattle.std.specs.Prelude.{◌≡◌, Some, None, pos};
ghost use Rattle.content_tree.specs.Values.Ranges.{i8, u8, i16, u16, i32, u32, i64, u64, i128};
ghost use Rattle.content_tree.specs.Values.Ranges.{u128};
ghost use Rattle.content_de.specs.Outcomes.{refusal_of, taken, IsRefused};
ghost use Rattle.content_de.specs.Sources.Deserializer.{subject};
ghost use Rattle.content_de.specs.Accesses.Node.{shape_at};
ghost use Rattle.content_de.specs.Requests.Leaves.{bool_from, char_from, unit_from};
ghost use Rattle.content_de.specs.Requests.Numbers.{number_from};
ghost use Rattle.content_de.specs.Reads.Standard.{number_in, number_refusal};

use crate::deserialize::Deserialize;
use crate::deserializer::Deserializer;
use crate::refusal::custom;
use crate::source::Source;
use content_tree::{NamedValue, Number, Result};
use std::alloc::Global;

/// A boolean.
impl<'de> Deserialize<'de> for bool {
    ghost refusal = { λ s. refusal_of (bool_from s.origin) };

    ghost gives = { λ s v. bool_from s.origin ≡ taken v };

    ghost memoryless = { λ s. ¬ IsRefused (bool_from s.origin) };

    fn deserialize<'n: 'de>(alloc: Global, from: Deserializer<'de, 'n>) -> Result<bool> {
        from.deserialize_bool(alloc)
    }
}

/// A character.
impl<'de> Deserialize<'de> for char {
    ghost refusal = { λ s. refusal_of (char_from s.origin) };

    ghost gives = { λ s v. char_from s.origin ≡ taken v };

    ghost memoryless = { λ s. ¬ IsRefused (char_from s.origin) };

    fn deserialize<'n: 'de>(alloc: Global, from: Deserializer<'de, 'n>) -> Result<char> {
        from.deserialize_char(alloc)
    }
}

/// The unit.
impl<'de> Deserialize<'de> for () {
    ghost refusal = { λ s. refusal_of (unit_from s.origin) };

    ghost gives = { λ s v. unit_from s.origin ≡ taken v };

    ghost memoryless = { λ s. ¬ IsRefused (unit_from s.origin) };

    fn deserialize<'n: 'de>(alloc: Global, from: Deserializer<'de, 'n>) -> Result<()> {
        from.deserialize_unit(alloc)
    }
}

/// A number of 8 bits with a sign.
impl<'de> Deserialize<'de> for i8 {
    ghost refusal = { λ s. refusal_of (number_from i8 s) };

    ghost gives = { λ s v. number_from i8 s ≡ taken v };

    ghost memoryless = { λ s. ¬ IsRefused (number_from i8 s) };

    fn deserialize<'n: 'de>(alloc: Global, from: Deserializer<'de, 'n>) -> Result<i8> {
        from.deserialize_i8(alloc)
    }
}

/// A number of 8 bits without a sign.
impl<'de> Deserialize<'de> for u8 {
    ghost refusal = { λ s. refusal_of (number_from u8 s) };

    ghost gives = { λ s v. number_from u8 s ≡ taken (pos v) };

    ghost memoryless = { λ s. ¬ IsRefused (number_from u8 s) };

    fn deserialize<'n: 'de>(alloc: Global, from: Deserializer<'de, 'n>) -> Result<u8> {
        from.deserialize_u8(alloc)
    }
}

/// A number of 16 bits with a sign.
impl<'de> Deserialize<'de> for i16 {
    ghost refusal = { λ s. refusal_of (number_from i16 s) };

    ghost gives = { λ s v. number_from i16 s ≡ taken v };

    ghost memoryless = { λ s. ¬ IsRefused (number_from i16 s) };

    fn deserialize<'n: 'de>(alloc: Global, from: Deserializer<'de, 'n>) -> Result<i16> {
        from.deserialize_i16(alloc)
    }
}

/// A number of 16 bits without a sign.
impl<'de> Deserialize<'de> for u16 {
    ghost refusal = { λ s. refusal_of (number_from u16 s) };

    ghost gives = { λ s v. number_from u16 s ≡ taken (pos v) };

    ghost memoryless = { λ s. ¬ IsRefused (number_from u16 s) };

    fn deserialize<'n: 'de>(alloc: Global, from: Deserializer<'de, 'n>) -> Result<u16> {
        from.deserialize_u16(alloc)
    }
}

/// A number of 32 bits with a sign.
impl<'de> Deserialize<'de> for i32 {
    ghost refusal = { λ s. refusal_of (number_from i32 s) };

    ghost gives = { λ s v. number_from i32 s ≡ taken v };

    ghost memoryless = { λ s. ¬ IsRefused (number_from i32 s) };

    fn deserialize<'n: 'de>(alloc: Global, from: Deserializer<'de, 'n>) -> Result<i32> {
        from.deserialize_i32(alloc)
    }
}

/// A number of 32 bits without a sign.
impl<'de> Deserialize<'de> for u32 {
    ghost refusal = { λ s. refusal_of (number_from u32 s) };

    ghost gives = { λ s v. number_from u32 s ≡ taken (pos v) };

    ghost memoryless = { λ s. ¬ IsRefused (number_from u32 s) };

    fn deserialize<'n: 'de>(alloc: Global, from: Deserializer<'de, 'n>) -> Result<u32> {
        from.deserialize_u32(alloc)
    }
}

/// A number of 64 bits with a sign.
impl<'de> Deserialize<'de> for i64 {
    ghost refusal = { λ s. refusal_of (number_from i64 s) };

    ghost gives = { λ s v. number_from i64 s ≡ taken v };

    ghost memoryless = { λ s. ¬ IsRefused (number_from i64 s) };

    fn deserialize<'n: 'de>(alloc: Global, from: Deserializer<'de, 'n>) -> Result<i64> {
        from.deserialize_i64(alloc)
    }
}

/// A number of 64 bits without a sign.
impl<'de> Deserialize<'de> for u64 {
    ghost refusal = { λ s. refusal_of (number_from u64 s) };

    ghost gives = { λ s v. number_from u64 s ≡ taken (pos v) };

    ghost memoryless = { λ s. ¬ IsRefused (number_from u64 s) };

    fn deserialize<'n: 'de>(alloc: Global, from: Deserializer<'de, 'n>) -> Result<u64> {
        from.deserialize_u64(alloc)
    }
}

/// A number of 128 bits with a sign.
impl<'de> Deserialize<'de> for i128 {
    ghost refusal = { λ s. refusal_of (number_from i128 s) };

    ghost gives = { λ s v. number_from i128 s ≡ taken v };

    ghost memoryless = { λ s. ¬ IsRefused (number_from i128 s) };

    fn deserialize<'n: 'de>(alloc: Global, from: Deserializer<'de, 'n>) -> Result<i128> {
        from.deserialize_i128(alloc)
    }
}

/// A number of 128 bits without a sign.
impl<'de> Deserialize<'de> for u128 {
    ghost refusal = { λ s. refusal_of (number_from u128 s) };

    ghost gives = { λ s v. number_from u128 s ≡ taken (pos v) };

    ghost memoryless = { λ s. ¬ IsRefused (number_from u128 s) };

    fn deserialize<'n: 'de>(alloc: Global, from: Deserializer<'de, 'n>) -> Result<u128> {
        from.deserialize_u128(alloc)
    }
}

/// As `u64`, which has as many bits.
impl<'de> Deserialize<'de> for usize {
    ghost refusal = { λ s. refusal_of (number_from u64 s) };

    ghost gives = { λ s v. number_from u64 s ≡ taken (pos v) };

    ghost memoryless = { λ s. ¬ IsRefused (number_from u64 s) };

    fn deserialize<'n: 'de>(alloc: Global, from: Deserializer<'de, 'n>) -> Result<usize> {
        Ok(from.deserialize_u64(alloc)? as usize)
    }
}

/// As `i64`, which has as many bits.
impl<'de> Deserialize<'de> for isize {
    ghost refusal = { λ s. refusal_of (number_from i64 s) };

    ghost gives = { λ s v. number_from i64 s ≡ taken v };

    ghost memoryless = { λ s. ¬ IsRefused (number_from i64 s) };

    fn deserialize<'n: 'de>(alloc: Global, from: Deserializer<'de, 'n>) -> Result<isize> {
        Ok(from.deserialize_i64(alloc)? as isize)
    }
}

/// A number of any kind, as it is.
impl<'de> Deserialize<'de> for Number {
    ghost refusal = { λ s. number_refusal (number_in (shape_at s)) };

    ghost gives = { λ s v. number_in (shape_at s) ≡ Some v };

    ghost memoryless = { λ s. number_refusal (number_in (shape_at s)) ≡ None };

    fn deserialize<'n: 'de>(alloc: Global, from: Deserializer<'de, 'n>) -> Result<Number> {
        match number_at(&from) {
            Some(number) => Ok(number),
            None => Err(custom(alloc, "expected a number")),
        }
    }
}

/// The number that is read, if it is one.
#[tactic(auto, using(crate::proofs::Values::values))]
fn number_at<'de, 'n>(from: &Deserializer<'de, 'n>) -> Option<Number>
    ensures { result ≡ number_in (shape_at (subject from.now)) }
{
    match &from.source {
        Source::Tree(NamedValue::Number(number)) => Some(*number),
        _ => None,
    }
}
