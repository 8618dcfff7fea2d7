//! Whether what is read fits an expectation, before it is read.

#![tactic(auto, using(crate::proofs::Values::values))]

ghost use Rattle.std.specs.Prelude.{◌≡◌, is_some, not};
ghost use Rattle.content_tree.specs.Values.Ranges.{i8, u8, i16, u16, i32, u32, i64, u64, i128};
ghost use Rattle.content_tree.specs.Values.Ranges.{u128};
ghost use Rattle.content_de.specs.Outcomes.{refusal_of};
ghost use Rattle.content_de.specs.Requests.Compounds.{items_from, tuple_from, entries_from};
ghost use Rattle.content_de.specs.Requests.Leaves.{bool_from, char_from, unit_from, text_from};
ghost use Rattle.content_de.specs.Requests.Leaves.{bytes_from, name_from};
ghost use Rattle.content_de.specs.Requests.Numbers.{number_at};
ghost use Rattle.content_de.specs.Reads.Attempts.{refusal_by};
ghost use Rattle.content_de.specs.Sources.Deserializer.{flags_of, subject};
ghost use Rattle.content_de.specs.Sources.Origin.{in_buffer, under};

use crate::coerce::{
    as_i8, as_i16, as_i32, as_i64, as_i128, as_u8, as_u16, as_u32, as_u64, as_u128,
};
use crate::deserializer::Deserializer;
use crate::source::{Flags, Source};
use content_tree::{Expected, NamedValue};

impl<'de, 'n> Deserializer<'de, 'n> {
    /// Whether the request that expects this would accept what is read. It takes no memory.
    /// Anything fits a struct, a variant or a static text.
    pub fn fits(&self, expected: &Expected) -> bool
        ensures { is_some (refusal_by expected.now (subject self.now)) ≡ not result }
    {
        self.fits_under(expected, self.flags)
    }

    /// The same in a buffer.
    pub(crate) fn fits_in_buffer(&self, expected: &Expected) -> bool
        ensures { is_some (refusal_by expected.now (in_buffer (subject self.now))) ≡ not result }
    {
        self.fits_under(expected, self.flags.buffering())
    }

    /// The same under these flags.
    fn fits_under(&self, expected: &Expected, flags: Flags) -> bool
        ensures { is_some (refusal_by expected.now (under (flags_of flags)
            (subject self.now).origin)) ≡ not result }
    {
        match expected {
            Expected::Unit => self.is_unit(),
            Expected::Bool => self.is_bool(),
            Expected::Char => self.is_char(),
            Expected::String => self.is_text(),
            Expected::Bytes => self.is_bytes(),
            Expected::Identifier => self.is_name(),
            Expected::Seq => self.is_seq(),
            Expected::Tuple(len) => self.is_tuple(*len),
            Expected::Map => self.is_map(),
            Expected::I8 => self.is_i8(flags.coerces),
            Expected::U8 => self.is_u8(flags.coerces),
            Expected::I16 => self.is_i16(flags.coerces),
            Expected::U16 => self.is_u16(flags.coerces),
            Expected::I32 => self.is_i32(flags.coerces),
            Expected::U32 => self.is_u32(flags.coerces),
            Expected::I64 => self.is_i64(flags.coerces),
            Expected::U64 => self.is_u64(flags.coerces),
            Expected::I128 => self.is_i128(flags.coerces),
            Expected::U128 => self.is_u128(flags.coerces),
            Expected::StaticStr
            | Expected::Struct { name: _, typ: _ }
            | Expected::Enum { name: _, typ: _ } => true,
        }
    }

    /// The unit, or a name.
    fn is_unit(&self) -> bool
        ensures { is_some (refusal_of (unit_from (subject self.now).origin)) ≡ not result }
    {
        matches!(
            &self.source,
            Source::Tree(NamedValue::Unit) | Source::Identifier { name: _, index: _ }
        )
    }

    /// A boolean.
    fn is_bool(&self) -> bool
        ensures { is_some (refusal_of (bool_from (subject self.now).origin)) ≡ not result }
    {
        matches!(&self.source, Source::Tree(NamedValue::Bool(_)))
    }

    /// A character.
    fn is_char(&self) -> bool
        ensures { is_some (refusal_of (char_from (subject self.now).origin)) ≡ not result }
    {
        matches!(&self.source, Source::Tree(NamedValue::Char(_)))
    }

    /// A text, or a name.
    fn is_text(&self) -> bool
        ensures { is_some (refusal_of (text_from (subject self.now).origin)) ≡ not result }
    {
        matches!(
            &self.source,
            Source::Tree(NamedValue::String(_)) | Source::Identifier { name: _, index: _ }
        )
    }

    /// Bytes, or a name.
    fn is_bytes(&self) -> bool
        ensures { is_some (refusal_of (bytes_from (subject self.now).origin)) ≡ not result }
    {
        matches!(
            &self.source,
            Source::Tree(NamedValue::Bytes(_)) | Source::Identifier { name: _, index: _ }
        )
    }

    /// A text, a variant, or a name.
    fn is_name(&self) -> bool
        ensures { is_some (refusal_of (name_from (subject self.now).origin)) ≡ not result }
    {
        matches!(
            &self.source,
            Source::Tree(NamedValue::String(_) | NamedValue::Enum(_))
                | Source::Identifier { name: _, index: _ }
        )
    }

    /// A sequence.
    fn is_seq(&self) -> bool
        ensures { is_some (refusal_of (items_from (subject self.now).origin)) ≡ not result }
    {
        matches!(&self.source, Source::Tree(NamedValue::Seq(_)))
    }

    /// A tuple, or a sequence.
    fn is_tuple(&self, len: usize) -> bool
        ensures { is_some (refusal_of (tuple_from len (subject self.now).origin)) ≡ not result }
    {
        matches!(
            &self.source,
            Source::Tree(NamedValue::Seq(_) | NamedValue::Tuple(_))
        )
    }

    /// A map.
    fn is_map(&self) -> bool
        ensures { is_some (refusal_of (entries_from (subject self.now).origin)) ≡ not result }
    {
        matches!(&self.source, Source::Tree(NamedValue::Map(_)))
    }

    /// A number of 8 bits with a sign, or one coerced to it.
    fn is_i8(&self, coerces: bool) -> bool
        ensures { is_some (refusal_of (number_at i8 coerces (subject self.now).origin)) ≡ not result }
    {
        match &self.source {
            Source::Tree(NamedValue::Number(number)) => as_i8(*number, coerces).is_some(),
            _ => false,
        }
    }

    /// A number of 8 bits without a sign, or one coerced to it.
    fn is_u8(&self, coerces: bool) -> bool
        ensures { is_some (refusal_of (number_at u8 coerces (subject self.now).origin)) ≡ not result }
    {
        match &self.source {
            Source::Tree(NamedValue::Number(number)) => as_u8(*number, coerces).is_some(),
            _ => false,
        }
    }

    /// A number of 16 bits with a sign, or one coerced to it.
    fn is_i16(&self, coerces: bool) -> bool
        ensures { is_some (refusal_of (number_at i16 coerces (subject self.now).origin)) ≡ not result }
    {
        match &self.source {
            Source::Tree(NamedValue::Number(number)) => as_i16(*number, coerces).is_some(),
            _ => false,
        }
    }

    /// A number of 16 bits without a sign, or one coerced to it.
    fn is_u16(&self, coerces: bool) -> bool
        ensures { is_some (refusal_of (number_at u16 coerces (subject self.now).origin)) ≡ not result }
    {
        match &self.source {
            Source::Tree(NamedValue::Number(number)) => as_u16(*number, coerces).is_some(),
            _ => false,
        }
    }

    /// A number of 32 bits with a sign, or one coerced to it.
    fn is_i32(&self, coerces: bool) -> bool
        ensures { is_some (refusal_of (number_at i32 coerces (subject self.now).origin)) ≡ not result }
    {
        match &self.source {
            Source::Tree(NamedValue::Number(number)) => as_i32(*number, coerces).is_some(),
            _ => false,
        }
    }

    /// A number of 32 bits without a sign, or one coerced to it.
    fn is_u32(&self, coerces: bool) -> bool
        ensures { is_some (refusal_of (number_at u32 coerces (subject self.now).origin)) ≡ not result }
    {
        match &self.source {
            Source::Tree(NamedValue::Number(number)) => as_u32(*number, coerces).is_some(),
            _ => false,
        }
    }

    /// A number of 64 bits with a sign, or one coerced to it.
    fn is_i64(&self, coerces: bool) -> bool
        ensures { is_some (refusal_of (number_at i64 coerces (subject self.now).origin)) ≡ not result }
    {
        match &self.source {
            Source::Tree(NamedValue::Number(number)) => as_i64(*number, coerces).is_some(),
            _ => false,
        }
    }

    /// A number of 64 bits without a sign, or one coerced to it, or the place of a name.
    fn is_u64(&self, coerces: bool) -> bool
        ensures { is_some (refusal_of (number_at u64 coerces (subject self.now).origin)) ≡ not result }
    {
        match &self.source {
            Source::Tree(NamedValue::Number(number)) => as_u64(*number, coerces).is_some(),
            Source::Tree(_) => false,
            Source::Identifier { name: _, index: _ } => true,
        }
    }

    /// A number of 128 bits with a sign, or one coerced to it.
    fn is_i128(&self, coerces: bool) -> bool
        ensures { is_some (refusal_of (number_at i128 coerces (subject self.now).origin)) ≡ not result }
    {
        match &self.source {
            Source::Tree(NamedValue::Number(number)) => as_i128(*number, coerces).is_some(),
            _ => false,
        }
    }

    /// A number of 128 bits without a sign, or one coerced to it.
    fn is_u128(&self, coerces: bool) -> bool
        ensures { is_some (refusal_of (number_at u128 coerces (subject self.now).origin)) ≡ not result }
    {
        match &self.source {
            Source::Tree(NamedValue::Number(number)) => as_u128(*number, coerces).is_some(),
            _ => false,
        }
    }
}
