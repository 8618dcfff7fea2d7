//! Boxes, optional values, vectors and maps of values that may contain others of their own type.

#![tactic(auto, using(content_ser::proofs::Sending::sending))]

ghost use Rattle.std.specs.Prelude.{List, Option, Some, false, map as each, option_map};
ghost use Rattle.std.specs.Option.{is_none};
ghost use Rattle.std.specs.declared.alloc.Global.{Global};
ghost use Rattle.std.specs.declared.boxed.Box.{Box};
ghost use Rattle.std.specs.declared.string.String.{String};
ghost use Rattle.std.specs.declared.vec.Vec.{Vec};
ghost use Rattle.std.below.std_alloc.specs.formers.vec.Vec.{mapped};
ghost use Rattle.content_ser.specs.Calls.Event.{element, entry, map, seq, end as end_};
ghost use Rattle.content_ser.specs.Sending.Aside.{answer_of};
ghost use Rattle.content_ser.specs.Serializers.Step.{Takes};
ghost use Rattle.serde_content.specs.Skips.{has_none};
ghost use Rattle.content_nested.specs.Nested.{option_nested, seq_nested, map_nested};

use crate::sending::{Nests, SendNested, SkipNested};
use content_ser::{Call, Sent, Serialize, Serializer};
use content_tree::Error;
use std::alloc::Global;
use std::collections::BTreeMap;

/// Opens a sequence of this length.
#[inline(always)]
fn open_seq<S: Serializer>(len: usize, serializer: &mut S, error: &mut Error) -> Sent
    ensures { Takes S.step S.refuses (S.seen serializer.old) (seq (Some len))
        (answer_of result error.new) (S.seen serializer.new) }
{
    serializer.call_aside(Call::Seq(Some(len)), error)
}

/// Opens a map of this length.
#[inline(always)]
fn open_map<S: Serializer>(len: usize, serializer: &mut S, error: &mut Error) -> Sent
    ensures { Takes S.step S.refuses (S.seen serializer.old) (map (Some len))
        (answer_of result error.new) (S.seen serializer.new) }
{
    serializer.call_aside(Call::Map(Some(len)), error)
}

/// Announces an item.
#[inline(always)]
fn announce_item<S: Serializer>(serializer: &mut S, error: &mut Error) -> Sent
    ensures { Takes S.step S.refuses (S.seen serializer.old) element
        (answer_of result error.new) (S.seen serializer.new) }
{
    serializer.call_aside(Call::Element, error)
}

/// Announces a pair.
#[inline(always)]
fn announce_pair<S: Serializer>(serializer: &mut S, error: &mut Error) -> Sent
    ensures { Takes S.step S.refuses (S.seen serializer.old) entry
        (answer_of result error.new) (S.seen serializer.new) }
{
    serializer.call_aside(Call::Entry, error)
}

/// Closes what was opened last.
#[inline(always)]
fn close<S: Serializer>(serializer: &mut S, error: &mut Error) -> Sent
    ensures { Takes S.step S.refuses (S.seen serializer.old) end_
        (answer_of result error.new) (S.seen serializer.new) }
{
    serializer.call_aside(Call::End, error)
}

impl<T: Nests> Nests for Box<T> {
    ghost Layer = { Box T.Layer Global };

    ghost layer = { λ b. record { ptr = b.ptr; alloc = b.alloc; value = T.layer b.value } };

    ghost nested = { λ b. T.nested b.value };

    ghost is_empty = { λ b. false };
}

impl<T: SendNested> SendNested for Box<T> {
    fn send_nested<S: Serializer>(
        &self,
        alloc: Global,
        serializer: &mut S,
        error: &mut Error,
    ) -> Sent {
        SendNested::send_nested(&**self, alloc, serializer, error)
    }
}

impl<T: Nests> Nests for Option<T> {
    ghost Layer = { Option T.Layer };

    ghost layer = { option_map (λ y. T.layer y) };

    ghost nested = { option_nested (λ y. T.nested y) };

    ghost is_empty = { λ o. is_none o };
}

impl<T: SendNested> SendNested for Option<T> {
    fn send_nested<S: Serializer>(
        &self,
        alloc: Global,
        serializer: &mut S,
        error: &mut Error,
    ) -> Sent {
        match self {
            None => serializer.call_aside(Call::NoneCall, error),
            Some(value) => {
                serializer.call_aside(Call::SomeCall, error)?;
                value.send_nested(alloc, serializer, error)
            }
        }
    }
}

impl<T: Nests> Nests for Vec<T> {
    ghost Layer = { Vec T.Layer Global };

    ghost layer = { mapped (λ y. T.layer y) };

    ghost nested = { λ v. seq_nested (λ y. T.nested y) v.items };

    ghost is_empty = { λ v. has_none v.items };
}

impl<T: SendNested> SendNested for Vec<T> {
    fn send_nested<S: Serializer>(
        &self,
        alloc: Global,
        serializer: &mut S,
        error: &mut Error,
    ) -> Sent {
        open_seq(self.len(), serializer, error)?;
        for item in self {
            announce_item(serializer, error)?;
            item.send_nested(alloc, serializer, error)?;
        }
        close(serializer, error)
    }
}

impl<T: Nests> Nests for BTreeMap<String, T> {
    ghost Layer = { List (String Global × T.Layer) };

    ghost layer = { λ m. each (λ e. (e.0, T.layer e.1)) m.entries };

    ghost nested = { map_nested (λ y. T.nested y) };

    ghost is_empty = { has_none };
}

impl<T: SendNested> SendNested for BTreeMap<String, T> {
    fn send_nested<S: Serializer>(
        &self,
        alloc: Global,
        serializer: &mut S,
        error: &mut Error,
    ) -> Sent {
        open_map(self.len(), serializer, error)?;
        for (key, value) in self {
            announce_pair(serializer, error)?;
            key.serialize_aside(alloc, serializer, error)?;
            value.send_nested(alloc, serializer, error)?;
        }
        close(serializer, error)
    }
}

impl<T: Nests> SkipNested for Option<T> {
    fn is_empty(&self) -> bool {
        self.is_none()
    }
}

impl<T: Nests> SkipNested for Vec<T> {
    fn is_empty(&self) -> bool {
        matches!(self.as_slice(), [])
    }
}

impl<T: Nests> SkipNested for BTreeMap<String, T> {
    fn is_empty(&self) -> bool {
        BTreeMap::is_empty(self)
    }
}
