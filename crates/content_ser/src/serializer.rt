//! The trait of serialisers.

ghost use Rattle.std.specs.Prelude.{◌≡◌, Some};
ghost use Rattle.content_tree.specs.declared.number.Number.TheVariants as num;
ghost use Rattle.content_ser.specs.Calls.Event.{boolean, number, character, text, octets, unit};
ghost use Rattle.content_ser.specs.Calls.Event.{none, some, unit_struct, unit_variant};
ghost use Rattle.content_ser.specs.Calls.Event.{newtype_struct, newtype_variant, seq, tuple};
ghost use Rattle.content_ser.specs.Calls.Event.{tuple_struct, tuple_variant, map, structure};
ghost use Rattle.content_ser.specs.Calls.Event.{struct_variant, element, tuple_field, field, key};
ghost use Rattle.content_ser.specs.Calls.Event.{value, entry, end as end_};
ghost use Rattle.content_ser.specs.Calls.Call.{event_of};
ghost use Rattle.content_ser.specs.Sending.Aside.{answer_of};
ghost use Rattle.content_ser.specs.Serializers.Step.{Collects, RefusalRule, Seen, Step, Takes};

use crate::aside::{Sent, put_aside};
use crate::call::Call;
use content_tree::{CowBytes, CowStr, Error, Number, Result};
use std::alloc::Global;
use std::fmt::Display;

/// A serialiser: it takes calls, one after another.
///
/// An implementation names its state as plain data, which no code has to make, and the step that
/// each call takes in it. A call that answers `Ok` takes that step and leaves the serialiser not
/// failed. A call other than `collect_str` that answers `Err` leaves it failed: the step is none,
/// or an allocation failed. A failed serialiser refuses every call and stays failed. No call
/// changes whether it is human readable.
///
/// Names live as long as the program. `variant_index` is the variant's place in its enum, from 0. A
/// length counts items; that of a sequence or a map is a hint, which may be left out. Errors are
/// those that `refuses` names; whether a call takes memory is the implementation's. The calls are
/// Serde's, but that items are announced and that `end` is one call.
pub trait Serializer {
    /// What the calls so far have come to.
    ghost State: { Type 0 };

    /// The serialiser, as contracts see it.
    ghost seen: { Self → Seen State };

    /// The state after a call, or none where the call is out of place.
    ghost step: { Step State };

    /// With which error a call is refused, and what state is kept.
    ghost refuses: { RefusalRule State };

    /// Makes this call. Each named method below makes one.
    fn call(&mut self, call: Call<'_>) -> Result<()>
        ensures { Takes step refuses (seen self.old) (event_of call.entry) result (seen self.new) };

    /// Makes this call with its error put aside: the answer is a byte, and where it is an `Err`,
    /// the error is in `error`, whatever was there before. Where it is `Ok`, `error` says nothing.
    /// An implementation need not give it; one that does spares its callers the moving of a large
    /// answer. Not in `serde-content`.
    // Inlined, it would cost each level of a walk the room of an answer on the stack.
    #[inline(never)]
    fn call_aside(&mut self, call: Call<'_>, error: &mut Error) -> Sent
        ensures { Takes step refuses (seen self.old) (event_of call.entry)
            (answer_of result error.new) (seen self.new) }
    {
        put_aside(self.call(call), error)
    }

    /// A boolean.
    final fn serialize_bool(&mut self, v: bool) -> Result<()>
        ensures { Takes step refuses (seen self.old) (boolean v) result (seen self.new) }
    {
        self.call(Call::Bool(v))
    }

    /// A signed number of 8 bits.
    final fn serialize_i8(&mut self, v: i8) -> Result<()>
        ensures { Takes step refuses (seen self.old) (number (num.I8 v)) result (seen self.new) }
    {
        self.call(Call::Number(Number::I8(v)))
    }

    /// An unsigned number of 8 bits.
    final fn serialize_u8(&mut self, v: u8) -> Result<()>
        ensures { Takes step refuses (seen self.old) (number (num.U8 v)) result (seen self.new) }
    {
        self.call(Call::Number(Number::U8(v)))
    }

    /// A signed number of 16 bits.
    final fn serialize_i16(&mut self, v: i16) -> Result<()>
        ensures { Takes step refuses (seen self.old) (number (num.I16 v)) result (seen self.new) }
    {
        self.call(Call::Number(Number::I16(v)))
    }

    /// An unsigned number of 16 bits.
    final fn serialize_u16(&mut self, v: u16) -> Result<()>
        ensures { Takes step refuses (seen self.old) (number (num.U16 v)) result (seen self.new) }
    {
        self.call(Call::Number(Number::U16(v)))
    }

    /// A signed number of 32 bits.
    final fn serialize_i32(&mut self, v: i32) -> Result<()>
        ensures { Takes step refuses (seen self.old) (number (num.I32 v)) result (seen self.new) }
    {
        self.call(Call::Number(Number::I32(v)))
    }

    /// An unsigned number of 32 bits.
    final fn serialize_u32(&mut self, v: u32) -> Result<()>
        ensures { Takes step refuses (seen self.old) (number (num.U32 v)) result (seen self.new) }
    {
        self.call(Call::Number(Number::U32(v)))
    }

    /// A signed number of 64 bits.
    final fn serialize_i64(&mut self, v: i64) -> Result<()>
        ensures { Takes step refuses (seen self.old) (number (num.I64 v)) result (seen self.new) }
    {
        self.call(Call::Number(Number::I64(v)))
    }

    /// An unsigned number of 64 bits.
    final fn serialize_u64(&mut self, v: u64) -> Result<()>
        ensures { Takes step refuses (seen self.old) (number (num.U64 v)) result (seen self.new) }
    {
        self.call(Call::Number(Number::U64(v)))
    }

    /// A signed number of 128 bits.
    final fn serialize_i128(&mut self, v: i128) -> Result<()>
        ensures { Takes step refuses (seen self.old) (number (num.I128 v)) result (seen self.new) }
    {
        self.call(Call::Number(Number::I128(v)))
    }

    /// An unsigned number of 128 bits.
    final fn serialize_u128(&mut self, v: u128) -> Result<()>
        ensures { Takes step refuses (seen self.old) (number (num.U128 v)) result (seen self.new) }
    {
        self.call(Call::Number(Number::U128(v)))
    }

    /// A character.
    final fn serialize_char(&mut self, v: char) -> Result<()>
        ensures { Takes step refuses (seen self.old) (character v) result (seen self.new) }
    {
        self.call(Call::Char(v))
    }

    /// A text.
    final fn serialize_str(&mut self, v: &str) -> Result<()>
        ensures { Takes step refuses (seen self.old) (text v.now) result (seen self.new) }
    {
        self.call(Call::Str(CowStr::Borrowed(v)))
    }

    /// An array of bytes.
    final fn serialize_bytes(&mut self, v: &[u8]) -> Result<()>
        ensures { Takes step refuses (seen self.old) (octets v.now) result (seen self.new) }
    {
        self.call(Call::Bytes(CowBytes::Borrowed(v)))
    }

    /// The unit, `()`.
    final fn serialize_unit(&mut self) -> Result<()>
        ensures { Takes step refuses (seen self.old) unit result (seen self.new) }
    {
        self.call(Call::Unit)
    }

    /// An absent optional value.
    final fn serialize_none(&mut self) -> Result<()>
        ensures { Takes step refuses (seen self.old) none result (seen self.new) }
    {
        self.call(Call::NoneCall)
    }

    /// A present optional value, whose calls follow.
    final fn serialize_some(&mut self) -> Result<()>
        ensures { Takes step refuses (seen self.old) some result (seen self.new) }
    {
        self.call(Call::SomeCall)
    }

    /// A struct that holds nothing.
    final fn serialize_unit_struct(&mut self, name: &'static str) -> Result<()>
        ensures { Takes step refuses (seen self.old) (unit_struct name.now) result (seen self.new) }
    {
        self.call(Call::UnitStruct(name))
    }

    /// A variant that holds nothing.
    final fn serialize_unit_variant(
        &mut self,
        name: &'static str,
        variant_index: u32,
        variant: &'static str,
    ) -> Result<()>
        ensures { Takes step refuses (seen self.old)
            (unit_variant name.now variant_index variant.now) result (seen self.new) }
    {
        self.call(Call::UnitVariant(name, variant_index, variant))
    }

    /// A struct around one value, whose calls follow.
    final fn serialize_newtype_struct(&mut self, name: &'static str) -> Result<()>
        ensures { Takes step refuses (seen self.old) (newtype_struct name.now)
            result (seen self.new) }
    {
        self.call(Call::NewtypeStruct(name))
    }

    /// A variant around one value, whose calls follow.
    final fn serialize_newtype_variant(
        &mut self,
        name: &'static str,
        variant_index: u32,
        variant: &'static str,
    ) -> Result<()>
        ensures { Takes step refuses (seen self.old)
            (newtype_variant name.now variant_index variant.now) result (seen self.new) }
    {
        self.call(Call::NewtypeVariant(name, variant_index, variant))
    }

    /// Opens a sequence, with a hint of its length.
    final fn serialize_seq(&mut self, len: Option<usize>) -> Result<()>
        ensures { Takes step refuses (seen self.old) (seq len) result (seen self.new) }
    {
        self.call(Call::Seq(len))
    }

    /// Opens a tuple, with its length.
    final fn serialize_tuple(&mut self, len: usize) -> Result<()>
        ensures { Takes step refuses (seen self.old) (tuple len) result (seen self.new) }
    {
        self.call(Call::Tuple(len))
    }

    /// Opens a struct of values by place.
    final fn serialize_tuple_struct(&mut self, name: &'static str, len: usize) -> Result<()>
        ensures { Takes step refuses (seen self.old) (tuple_struct name.now len)
            result (seen self.new) }
    {
        self.call(Call::TupleStruct(name, len))
    }

    /// Opens a variant of values by place.
    final fn serialize_tuple_variant(
        &mut self,
        name: &'static str,
        variant_index: u32,
        variant: &'static str,
        len: usize,
    ) -> Result<()>
        ensures { Takes step refuses (seen self.old)
            (tuple_variant name.now variant_index variant.now len) result (seen self.new) }
    {
        self.call(Call::TupleVariant(name, variant_index, variant, len))
    }

    /// Opens a map, with a hint of its length.
    final fn serialize_map(&mut self, len: Option<usize>) -> Result<()>
        ensures { Takes step refuses (seen self.old) (map len) result (seen self.new) }
    {
        self.call(Call::Map(len))
    }

    /// Opens a struct of values by key.
    final fn serialize_struct(&mut self, name: &'static str, len: usize) -> Result<()>
        ensures { Takes step refuses (seen self.old) (structure name.now len)
            result (seen self.new) }
    {
        self.call(Call::Struct(name, len))
    }

    /// Opens a variant of values by key.
    final fn serialize_struct_variant(
        &mut self,
        name: &'static str,
        variant_index: u32,
        variant: &'static str,
        len: usize,
    ) -> Result<()>
        ensures { Takes step refuses (seen self.old)
            (struct_variant name.now variant_index variant.now len) result (seen self.new) }
    {
        self.call(Call::StructVariant(name, variant_index, variant, len))
    }

    /// Announces an item of a sequence or a tuple.
    final fn serialize_element(&mut self) -> Result<()>
        ensures { Takes step refuses (seen self.old) element result (seen self.new) }
    {
        self.call(Call::Element)
    }

    /// Announces an item of a tuple struct or a tuple variant.
    final fn serialize_tuple_field(&mut self) -> Result<()>
        ensures { Takes step refuses (seen self.old) tuple_field result (seen self.new) }
    {
        self.call(Call::TupleField)
    }

    /// Announces a field of a struct or a struct variant.
    final fn serialize_field(&mut self, key: &'static str) -> Result<()>
        ensures { Takes step refuses (seen self.old) (field key.now) result (seen self.new) }
    {
        self.call(Call::Field(key))
    }

    /// Announces a key of a map.
    final fn serialize_key(&mut self) -> Result<()>
        ensures { Takes step refuses (seen self.old) key result (seen self.new) }
    {
        self.call(Call::Key)
    }

    /// Announces a value of a map.
    final fn serialize_value(&mut self) -> Result<()>
        ensures { Takes step refuses (seen self.old) value result (seen self.new) }
    {
        self.call(Call::Value)
    }

    /// Announces a pair of a map: its key and then its value.
    final fn serialize_entry(&mut self) -> Result<()>
        ensures { Takes step refuses (seen self.old) entry result (seen self.new) }
    {
        self.call(Call::Entry)
    }

    /// Closes what was opened last.
    final fn end(&mut self) -> Result<()>
        ensures { Takes step refuses (seen self.old) end_ result (seen self.new) }
    {
        self.call(Call::End)
    }

    /// Sends the text that the value prints, as [`serialize_str`](Serializer::serialize_str) does.
    ///
    /// It prints first: where an allocation for that fails it makes no call, answers `OutOfMemory`
    /// and changes nothing, whatever the state.
    final fn collect_str<T: Display>(&mut self, alloc: Global, value: &T) -> Result<()>
        ensures { Collects step refuses (seen self.old) (T.output value.now)
            result (seen self.new) }
    {
        let text = format!(in alloc; "{value}")?;
        self.call(Call::Str(CowStr::Owned(text)))
    }

    /// Whether the serialiser is human readable; a type may send itself in another form then.
    fn is_human_readable(&self) -> bool
        ensures { result ≡ (seen self.now).readable };

    /// Whether it has failed: every call is refused from then on.
    fn is_failed(&self) -> bool
        ensures { result ≡ (seen self.now).failed };
}
