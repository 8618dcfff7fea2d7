//! The calls of the walk and of the standard library's types, with their errors put aside: the
//! named methods of `Serializer` answer an `Error`, and would clear room for one at each level.
//!
//! Those that open or close something, and the leaves, are functions of their own that aren't
//! inlined: what they need takes stack while the call runs, and none at the levels of the walk
//! above it. Those that announce an item are inlined, since they need little.

#![tactic(auto, using(crate::proofs::Sending::sending))]

ghost use Rattle.std.specs.Prelude.{map as each, IfErr, IfOk, Some};
ghost use Rattle.content_tree.specs.Errors.Kind.{IsOutOfMemory};
ghost use Rattle.content_tree.specs.Values.Text.{text_of};
ghost use Rattle.content_ser.specs.Calls.Call.{event_of};
ghost use Rattle.content_ser.specs.Calls.Event.{boolean, character, text, octets, unit, none};
ghost use Rattle.content_ser.specs.Calls.Event.{some, seq, map, tuple, element, entry};
ghost use Rattle.content_ser.specs.Calls.Event.{tuple_field, number, end as end_};
ghost use Rattle.content_ser.specs.Scripts.Sends.{Sends};
ghost use Rattle.content_ser.specs.Scripts.Standard.{call_first, only};
ghost use Rattle.content_ser.specs.Sending.Aside.{answer_of};
ghost use Rattle.content_ser.specs.Sending.Loose.{sorted};
ghost use Rattle.content_ser.specs.Sending.Places.{keyed_tree_of, StandsFor};
ghost use Rattle.content_ser.specs.Sending.TreeScript.{key_script};
ghost use Rattle.content_ser.specs.Serializers.Step.{Takes};

use crate::aside::{Aside, Sent, put_aside};
use crate::call::Call;
use crate::send::{key, places};
use crate::serialize::Serialize;
use crate::serializer::Serializer;
use content_tree::{CowBytes, CowStr, Error, Number, Value};
use std::alloc::Global;
use std::collections::BTreeMap;

/// The unit.
#[inline(never)]
pub fn serialize_unit<S: Serializer>(serializer: &mut S, error: &mut Error) -> Sent
    ensures { Takes S.step S.refuses (S.seen serializer.old) unit
        (answer_of result error.new) (S.seen serializer.new) }
{
    serializer.call_aside(Call::Unit, error)
}

/// A boolean.
#[inline(never)]
pub fn serialize_bool<S: Serializer>(v: bool, serializer: &mut S, error: &mut Error) -> Sent
    ensures { Takes S.step S.refuses (S.seen serializer.old) (boolean v)
        (answer_of result error.new) (S.seen serializer.new) }
{
    serializer.call_aside(Call::Bool(v), error)
}

/// A character.
#[inline(never)]
pub fn serialize_char<S: Serializer>(v: char, serializer: &mut S, error: &mut Error) -> Sent
    ensures { Takes S.step S.refuses (S.seen serializer.old) (character v)
        (answer_of result error.new) (S.seen serializer.new) }
{
    serializer.call_aside(Call::Char(v), error)
}

/// A text.
#[inline(never)]
pub fn serialize_str<S: Serializer>(v: &str, serializer: &mut S, error: &mut Error) -> Sent
    ensures { Takes S.step S.refuses (S.seen serializer.old) (text v.now)
        (answer_of result error.new) (S.seen serializer.new) }
{
    serializer.call_aside(Call::Str(CowStr::Borrowed(v)), error)
}

/// An array of bytes.
#[inline(never)]
pub fn serialize_bytes<S: Serializer>(v: &[u8], serializer: &mut S, error: &mut Error) -> Sent
    ensures { Takes S.step S.refuses (S.seen serializer.old) (octets v.now)
        (answer_of result error.new) (S.seen serializer.new) }
{
    serializer.call_aside(Call::Bytes(CowBytes::Borrowed(v)), error)
}

/// An absent optional value.
#[inline(never)]
pub fn serialize_none<S: Serializer>(serializer: &mut S, error: &mut Error) -> Sent
    ensures { Takes S.step S.refuses (S.seen serializer.old) none
        (answer_of result error.new) (S.seen serializer.new) }
{
    serializer.call_aside(Call::NoneCall, error)
}

/// A present optional value.
#[inline(never)]
pub fn serialize_some<S: Serializer>(serializer: &mut S, error: &mut Error) -> Sent
    ensures { Takes S.step S.refuses (S.seen serializer.old) some
        (answer_of result error.new) (S.seen serializer.new) }
{
    serializer.call_aside(Call::SomeCall, error)
}

/// Opens a sequence of known length.
#[inline(never)]
pub fn serialize_seq<S: Serializer>(len: usize, serializer: &mut S, error: &mut Error) -> Sent
    ensures { Takes S.step S.refuses (S.seen serializer.old) (seq (Some len))
        (answer_of result error.new) (S.seen serializer.new) }
{
    serializer.call_aside(Call::Seq(Some(len)), error)
}

/// Opens a map of known length.
#[inline(never)]
pub fn serialize_map<S: Serializer>(len: usize, serializer: &mut S, error: &mut Error) -> Sent
    ensures { Takes S.step S.refuses (S.seen serializer.old) (map (Some len))
        (answer_of result error.new) (S.seen serializer.new) }
{
    serializer.call_aside(Call::Map(Some(len)), error)
}

/// Opens a tuple.
#[inline(never)]
pub fn serialize_tuple<S: Serializer>(len: usize, serializer: &mut S, error: &mut Error) -> Sent
    ensures { Takes S.step S.refuses (S.seen serializer.old) (tuple len)
        (answer_of result error.new) (S.seen serializer.new) }
{
    serializer.call_aside(Call::Tuple(len), error)
}

/// Announces an item of a sequence or a tuple.
#[inline(always)]
pub fn serialize_element<S: Serializer>(serializer: &mut S, error: &mut Error) -> Sent
    ensures { Takes S.step S.refuses (S.seen serializer.old) element
        (answer_of result error.new) (S.seen serializer.new) }
{
    serializer.call_aside(Call::Element, error)
}

/// Announces a pair of a map.
#[inline(always)]
pub fn serialize_entry<S: Serializer>(serializer: &mut S, error: &mut Error) -> Sent
    ensures { Takes S.step S.refuses (S.seen serializer.old) entry
        (answer_of result error.new) (S.seen serializer.new) }
{
    serializer.call_aside(Call::Entry, error)
}

/// Announces an item of a tuple struct or a tuple variant.
#[inline(always)]
pub fn serialize_tuple_field<S: Serializer>(serializer: &mut S, error: &mut Error) -> Sent
    ensures { Takes S.step S.refuses (S.seen serializer.old) tuple_field
        (answer_of result error.new) (S.seen serializer.new) }
{
    serializer.call_aside(Call::TupleField, error)
}

/// Closes what was opened last.
#[inline(never)]
pub fn end<S: Serializer>(serializer: &mut S, error: &mut Error) -> Sent
    ensures { Takes S.step S.refuses (S.seen serializer.old) end_
        (answer_of result error.new) (S.seen serializer.new) }
{
    serializer.call_aside(Call::End, error)
}

/// A call that announces an item, and then the item's own calls.
#[inline(always)]
pub fn announce<T: Serialize, S: Serializer>(
    item_call: Call<'_>,
    item: &T,
    alloc: Global,
    serializer: &mut S,
    error: &mut Error,
) -> Sent
    ensures { Sends S.step S.refuses (S.seen serializer.old)
        (call_first (event_of item_call.entry) (T.script item.now))
        (answer_of result error.new) (S.seen serializer.new) }
{
    serializer.call_aside(item_call, error)?;
    item.serialize_aside(alloc, serializer, error)
}

/// A number, by a function of its kind.
#[inline(always)]
pub fn serialize_number<S: Serializer>(
    v: &Number,
    alloc: Global,
    serializer: &mut S,
    error: &mut Error,
) -> Sent
    ensures { Sends S.step S.refuses (S.seen serializer.old) (only (number v.now))
        (answer_of result error.new) (S.seen serializer.new) }
{
    match v {
        Number::I8(v) => serialize_kind(v, alloc, serializer, error),
        Number::U8(v) => serialize_kind(v, alloc, serializer, error),
        Number::I16(v) => serialize_kind(v, alloc, serializer, error),
        Number::U16(v) => serialize_kind(v, alloc, serializer, error),
        Number::I32(v) => serialize_kind(v, alloc, serializer, error),
        Number::U32(v) => serialize_kind(v, alloc, serializer, error),
        Number::I64(v) => serialize_kind(v, alloc, serializer, error),
        Number::U64(v) => serialize_kind(v, alloc, serializer, error),
        Number::I128(v) => serialize_kind(v, alloc, serializer, error),
        Number::U128(v) => serialize_kind(v, alloc, serializer, error),
    }
}

/// A number of one kind.
#[inline(never)]
fn serialize_kind<T: Serialize, S: Serializer>(
    v: &T,
    alloc: Global,
    serializer: &mut S,
    error: &mut Error,
) -> Sent
    ensures { Sends S.step S.refuses (S.seen serializer.old) (T.script v.now)
        (answer_of result error.new) (S.seen serializer.new) }
{
    v.serialize_aside(alloc, serializer, error)
}

/// The key of a field, where it is static; where it is owned it makes no call and says so.
#[inline(never)]
pub fn send_key<S: Serializer>(
    v: &CowStr<'static>,
    alloc: Global,
    serializer: &mut S,
    error: &mut Error,
) -> Sent
    ensures { Sends S.step S.refuses (S.seen serializer.old)
        (λ readable. key_script (text_of v.now))
        (answer_of result error.new) (S.seen serializer.new) }
{
    put_aside(key::send_key(v, alloc, serializer), error)
}

/// The place of the last field of each key, by key; its error is out of memory.
#[inline(never)]
pub fn last_places<'a>(
    alloc: Global,
    fields: &'a Vec<(CowStr<'static>, Value<'_>)>,
    error: &mut Error,
) -> Result<BTreeMap<&'a str, usize>, Aside>
    ensures value { IfOk result
        (λ places. StandsFor fields.now.items places.entries
        (sorted (each keyed_tree_of fields.now.items))) }
    ensures memory { IfErr result (λ _. IsOutOfMemory error.new) }
{
    match places::last_places(alloc, fields) {
        Ok(places) => Ok(places),
        Err(refused) => {
            *error = Error::from(refused);
            Err(Aside)
        }
    }
}
