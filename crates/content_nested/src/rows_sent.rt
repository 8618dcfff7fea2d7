//! Values that may contain others of their type, as rows have them that are sent.

#![tactic(auto, using(content_ser::proofs::Sending::sending))]

ghost use Rattle.std.specs.Prelude.{◌≡◌, [], slice_index_or};
ghost use Rattle.content_ser.specs.Calls.Event as event;
ghost use Rattle.content_ser.specs.Scripts.Sends.{Sends};
ghost use Rattle.content_ser.specs.Scripts.Own.{field_first, tuple_field_first};
ghost use Rattle.content_ser.specs.Sending.Aside.{answer_of};
ghost use Rattle.content_ser.specs.Serializers.Step.{Takes};

use crate::fields::name_at;
use crate::sending::SendNested;
use content_ser::{Call, Sent, Serializer};
use content_tree::Error;
use serde_content::derive_support::{Names, SendRow};
use std::alloc::Global;

/// The call that announces the field whose name has this index among the names `K`.
#[inline(always)]
fn announce_field<K: Names, S: Serializer>(
    index: usize,
    serializer: &mut S,
    error: &mut Error,
) -> Sent
    ensures { Takes S.step S.refuses (S.seen serializer.old)
        (event.field (slice_index_or K.names index []))
        (answer_of result error.new) (S.seen serializer.new) }
{
    serializer.call_aside(Call::Field(name_at::<K>(index)), error)
}

/// The field whose name has this index among the names `K`, and those after it.
#[inline(always)]
fn send_field<K: Names, T: SendNested, R: SendRow, S: Serializer>(
    index: usize,
    value: &T,
    rest: &R,
    alloc: Global,
    serializer: &mut S,
    error: &mut Error,
) -> Sent
    ensures { Sends S.step S.refuses (S.seen serializer.old)
        (field_first (slice_index_or K.names index []) (T.nested (T.layer value.now)).script
        (R.script rest.now))
        (answer_of result error.new) (S.seen serializer.new) }
{
    announce_field::<K, S>(index, serializer, error)?;
    value.send_nested(alloc, serializer, error)?;
    rest.send(alloc, serializer, error)
}

/// A field whose name has this index among the names `K` and whose value may contain others of its
/// type, and those after it.
#[derive(Drop)]
pub struct SendNestedField<'a, K, T, R>(pub K, pub usize, pub &'a T, pub R);

impl<'a, K: Names, T: SendNested, R: SendRow> SendRow for SendNestedField<'a, K, T, R> {
    ghost script = { λ row. field_first (slice_index_or K.names row.1 [])
        (T.nested (T.layer row.2.now)).script (R.script row.3) };

    #[inline(always)]
    fn send<S: Serializer>(&self, alloc: Global, serializer: &mut S, error: &mut Error) -> Sent {
        send_field::<K, T, R, S>(self.1, self.2, &self.3, alloc, serializer, error)
    }
}

/// The same of a value by place in a struct or variant.
#[derive(Drop)]
pub struct SendNestedPart<'a, T, R>(pub &'a T, pub R);

impl<'a, T: SendNested, R: SendRow> SendRow for SendNestedPart<'a, T, R> {
    ghost script = { λ row. tuple_field_first (T.nested (T.layer row.0.now)).script
        (R.script row.1) };

    #[inline(always)]
    fn send<S: Serializer>(&self, alloc: Global, serializer: &mut S, error: &mut Error) -> Sent {
        serializer.call_aside(Call::TupleField, error)?;
        self.0.send_nested(alloc, serializer, error)?;
        self.1.send(alloc, serializer, error)
    }
}
