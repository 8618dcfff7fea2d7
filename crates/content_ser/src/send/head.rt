//! The calls of a head, with their errors put aside.

#![tactic(auto)]

ghost use Rattle.content_ser.specs.Calls.Head.{head_of};
ghost use Rattle.content_ser.specs.Serializers.Step.{Takes};
ghost use Rattle.content_ser.specs.Sending.Aside.{answer_of};
ghost use Rattle.content_ser.specs.Sending.TreeScript.{newtype_call, struct_call, tuple_call};
ghost use Rattle.content_ser.specs.Sending.TreeScript.{unit_call};

use crate::aside::Sent;
use crate::call::Call;
use crate::head::Head;
use crate::serializer::Serializer;
use content_tree::Error;

/// The call of a head that holds nothing.
#[inline(never)]
pub fn call_unit<S: Serializer>(head: &Head, serializer: &mut S, error: &mut Error) -> Sent
    ensures { Takes S.step S.refuses (S.seen serializer.old) (unit_call (head_of head.now))
        (answer_of result error.new) (S.seen serializer.new) }
{
    match head {
        Head::Struct(name) => serializer.call_aside(Call::UnitStruct(name), error),
        Head::Variant(name, index, variant) => {
            serializer.call_aside(Call::UnitVariant(name, *index, variant), error)
        }
    }
}

/// The call of a head that holds one value.
#[inline(never)]
pub fn call_newtype<S: Serializer>(head: &Head, serializer: &mut S, error: &mut Error) -> Sent
    ensures { Takes S.step S.refuses (S.seen serializer.old) (newtype_call (head_of head.now))
        (answer_of result error.new) (S.seen serializer.new) }
{
    match head {
        Head::Struct(name) => serializer.call_aside(Call::NewtypeStruct(name), error),
        Head::Variant(name, index, variant) => {
            serializer.call_aside(Call::NewtypeVariant(name, *index, variant), error)
        }
    }
}

/// The call of a head that holds values by place.
#[inline(never)]
pub fn call_tuple<S: Serializer>(
    head: &Head,
    len: usize,
    serializer: &mut S,
    error: &mut Error,
) -> Sent
    ensures { Takes S.step S.refuses (S.seen serializer.old) (tuple_call (head_of head.now) len)
        (answer_of result error.new) (S.seen serializer.new) }
{
    match head {
        Head::Struct(name) => serializer.call_aside(Call::TupleStruct(name, len), error),
        Head::Variant(name, index, variant) => {
            serializer.call_aside(Call::TupleVariant(name, *index, variant, len), error)
        }
    }
}

/// The call of a head that holds values by key.
#[inline(never)]
pub fn call_struct<S: Serializer>(
    head: &Head,
    len: usize,
    serializer: &mut S,
    error: &mut Error,
) -> Sent
    ensures { Takes S.step S.refuses (S.seen serializer.old) (struct_call (head_of head.now) len)
        (answer_of result error.new) (S.seen serializer.new) }
{
    match head {
        Head::Struct(name) => serializer.call_aside(Call::Struct(name, len), error),
        Head::Variant(name, index, variant) => {
            serializer.call_aside(Call::StructVariant(name, *index, variant, len), error)
        }
    }
}
