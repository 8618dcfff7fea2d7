//! How a value is sent, level by level.

#![tactic(auto, using(crate::proofs::Sending::sending))]

ghost use Rattle.content_tree.specs.Values.Text.{text_of};
ghost use Rattle.content_tree.specs.Values.Tree.{map, seq};
ghost use Rattle.content_tree.specs.Values.Value.{enum_tree, fields_view, held_view, pairs_view};
ghost use Rattle.content_tree.specs.Values.Value.{tree_data_of, struct_tree, tree_of, trees_view};
ghost use Rattle.content_ser.specs.Calls.Event.{element, tuple_field};
ghost use Rattle.content_ser.specs.Calls.Head.{head_of};
ghost use Rattle.content_ser.specs.Scripts.Sends.{Sends};
ghost use Rattle.content_ser.specs.Sending.Loose.{keyed, loose_each, loose_field_pairs};
ghost use Rattle.content_ser.specs.Sending.Loose.{loose_fields, loose_pairs, loose_data};
ghost use Rattle.content_ser.specs.Sending.Loose.{loose_struct, loose_variant, sorted, text_pairs};
ghost use Rattle.content_ser.specs.Sending.Aside.{answer_of};
ghost use Rattle.content_ser.specs.Sending.TreeScript.{script_of, script_of_each, script_of_fields};
ghost use Rattle.content_ser.specs.Sending.TreeScript.{script_of_pairs, script_of_data};
ghost use Rattle.content_ser.specs.Sending.TreeScript.{loose_script, single_head};

use crate::aside::Sent;
use crate::head::Head;
use crate::send::calls::{
    end, last_places, send_key, serialize_bool, serialize_bytes, serialize_char, serialize_element,
    serialize_entry, serialize_map, serialize_none, serialize_number, serialize_seq,
    serialize_some, serialize_str, serialize_tuple, serialize_tuple_field, serialize_unit,
};
use crate::send::head::{call_newtype, call_struct, call_tuple, call_unit};
use crate::serializer::Serializer;
use content_tree::{CowStr, Data, Enum, Error, Struct, Value};
use std::alloc::Global;

/// Sends a value: each node by its call, its children in order, structs and variants by their
/// names.
#[cycle(send)]
pub fn send<S: Serializer>(
    value: &Value<'_>,
    alloc: Global,
    serializer: &mut S,
    error: &mut Error,
) -> Sent
    ensures { Sends S.step S.refuses (S.seen serializer.old)
        (loose_script (tree_of value.now)) (answer_of result error.new) (S.seen serializer.new) }
{
    match value {
        Value::Unit => serialize_unit(serializer, error),
        Value::Bool(flag) => serialize_bool(*flag, serializer, error),
        Value::Number(number) => serialize_number(number, alloc, serializer, error),
        Value::Char(character) => serialize_char(*character, serializer, error),
        Value::String(text) => serialize_str(text.as_str(), serializer, error),
        Value::Bytes(bytes) => serialize_bytes(bytes.as_bytes(), serializer, error),
        Value::Seq(items) => send_seq(items, alloc, serializer, error),
        Value::Map(pairs) => {
            serialize_map(pairs.len(), serializer, error)?;
            send_pairs(pairs, alloc, serializer, error)
        }
        Value::Option(held) => send_held(held, alloc, serializer, error),
        Value::Struct(node) => send_struct(node, alloc, serializer, error),
        Value::Enum(node) => send_enum(node, alloc, serializer, error),
        Value::Tuple(items) => {
            serialize_tuple(items.len(), serializer, error)?;
            send_items(items, alloc, serializer, error)
        }
    }
}

/// An optional value.
#[cycle(send)]
fn send_held<S: Serializer>(
    held: &Option<Box<Value<'_>>>,
    alloc: Global,
    serializer: &mut S,
    error: &mut Error,
) -> Sent
    ensures { Sends S.step S.refuses (S.seen serializer.old)
        (loose_script (held_view held.now)) (answer_of result error.new) (S.seen serializer.new) }
{
    match held {
        None => serialize_none(serializer, error),
        Some(value) => {
            serialize_some(serializer, error)?;
            send(value, alloc, serializer, error)
        }
    }
}

/// A sequence.
#[cycle(send)]
fn send_seq<S: Serializer>(
    items: &Vec<Value<'_>>,
    alloc: Global,
    serializer: &mut S,
    error: &mut Error,
) -> Sent
    ensures { Sends S.step S.refuses (S.seen serializer.old)
        (λ readable. script_of (seq (loose_each (trees_view items.now.items))))
        (answer_of result error.new) (S.seen serializer.new) }
{
    serialize_seq(items.len(), serializer, error)?;
    send_items(items, alloc, serializer, error)
}

/// A value of a sequence. A number, the commonest leaf, takes one call less.
#[cycle(send)]
#[inline(always)]
fn send_item<S: Serializer>(
    item: &Value<'_>,
    alloc: Global,
    serializer: &mut S,
    error: &mut Error,
) -> Sent
    ensures { Sends S.step S.refuses (S.seen serializer.old) (loose_script (tree_of item.now))
        (answer_of result error.new) (S.seen serializer.new) }
{
    match item {
        Value::Number(number) => serialize_number(number, alloc, serializer, error),
        other => send(other, alloc, serializer, error),
    }
}

/// The items of a sequence or a tuple, and its end.
#[cycle(send)]
fn send_items<S: Serializer>(
    items: &Vec<Value<'_>>,
    alloc: Global,
    serializer: &mut S,
    error: &mut Error,
) -> Sent
    ensures { Sends S.step S.refuses (S.seen serializer.old)
        (λ readable. script_of_each element (loose_each (trees_view items.now.items)))
        (answer_of result error.new) (S.seen serializer.new) }
{
    for item in items {
        serialize_element(serializer, error)?;
        send_item(item, alloc, serializer, error)?;
    }
    end(serializer, error)
}

/// The pairs of a map, and its end.
#[cycle(send)]
fn send_pairs<S: Serializer>(
    pairs: &Vec<(Value<'_>, Value<'_>)>,
    alloc: Global,
    serializer: &mut S,
    error: &mut Error,
) -> Sent
    ensures { Sends S.step S.refuses (S.seen serializer.old)
        (λ readable. script_of_pairs (loose_pairs (pairs_view pairs.now.items)))
        (answer_of result error.new) (S.seen serializer.new) }
{
    for (key, value) in pairs {
        serialize_entry(serializer, error)?;
        send(key, alloc, serializer, error)?;
        send(value, alloc, serializer, error)?;
    }
    end(serializer, error)
}

/// Sends a struct: under its name where that is static, else what it holds alone.
#[cycle(send)]
pub fn send_struct<S: Serializer>(
    node: &Struct<'_>,
    alloc: Global,
    serializer: &mut S,
    error: &mut Error,
) -> Sent
    ensures { Sends S.step S.refuses (S.seen serializer.old)
        (loose_script (struct_tree node.now))
        (answer_of result error.new) (S.seen serializer.new) }
{
    match &node.name {
        CowStr::Borrowed(name) => send_named(
            &node.data,
            &Head::Struct(name),
            alloc,
            serializer,
            error,
        ),
        CowStr::Owned(_) => send_unnamed(&node.data, alloc, serializer, error),
    }
}

/// Sends a variant: under its names where both are static, else as a text or a map of one entry.
#[cycle(send)]
pub fn send_enum<S: Serializer>(
    node: &Enum<'_>,
    alloc: Global,
    serializer: &mut S,
    error: &mut Error,
) -> Sent
    ensures { Sends S.step S.refuses (S.seen serializer.old)
        (loose_script (enum_tree node.now)) (answer_of result error.new) (S.seen serializer.new) }
{
    match &node.name {
        CowStr::Borrowed(name) => match &node.variant {
            CowStr::Borrowed(variant) => {
                let head = Head::Variant(name, node.variant_index, variant);
                send_named(&node.data, &head, alloc, serializer, error)
            }
            CowStr::Owned(_) => send_variant(&node.data, &node.variant, alloc, serializer, error),
        },
        CowStr::Owned(_) => send_variant(&node.data, &node.variant, alloc, serializer, error),
    }
}

/// What a struct or a variant with static names holds, with its head.
#[cycle(send)]
fn send_named<S: Serializer>(
    held: &Data<'_>,
    head: &Head,
    alloc: Global,
    serializer: &mut S,
    error: &mut Error,
) -> Sent
    ensures { Sends S.step S.refuses (S.seen serializer.old)
        (λ readable. script_of_data (head_of head.now) (loose_data (tree_data_of held.now)))
        (answer_of result error.new) (S.seen serializer.new) }
{
    match held {
        Data::Unit => call_unit(head, serializer, error),
        Data::NewType { value } => {
            call_newtype(head, serializer, error)?;
            send(value, alloc, serializer, error)
        }
        Data::Tuple { values } => {
            call_tuple(head, values.len(), serializer, error)?;
            send_tuple_fields(values, alloc, serializer, error)
        }
        Data::Struct { fields } => {
            call_struct(head, fields.len(), serializer, error)?;
            send_fields(fields, alloc, serializer, error)
        }
    }
}

/// What a struct with an owned name holds.
#[cycle(send)]
fn send_unnamed<S: Serializer>(
    held: &Data<'_>,
    alloc: Global,
    serializer: &mut S,
    error: &mut Error,
) -> Sent
    ensures { Sends S.step S.refuses (S.seen serializer.old)
        (λ readable. script_of (loose_struct (tree_data_of held.now)))
        (answer_of result error.new) (S.seen serializer.new) }
{
    match held {
        Data::Unit => serialize_unit(serializer, error),
        Data::NewType { value } => send(value, alloc, serializer, error),
        Data::Tuple { values } => send_seq(values, alloc, serializer, error),
        Data::Struct { fields } => {
            serialize_map(fields.len(), serializer, error)?;
            send_entries(fields, alloc, serializer, error)
        }
    }
}

/// A variant that isn't sent under static names.
#[cycle(send)]
fn send_variant<S: Serializer>(
    held: &Data<'_>,
    variant: &CowStr<'static>,
    alloc: Global,
    serializer: &mut S,
    error: &mut Error,
) -> Sent
    ensures { Sends S.step S.refuses (S.seen serializer.old)
        (λ readable. script_of (loose_variant (text_of variant.now) (tree_data_of held.now)))
        (answer_of result error.new) (S.seen serializer.new) }
{
    match held {
        Data::Unit => serialize_str(variant.as_str(), serializer, error),
        Data::NewType { value } => {
            open_single(variant, serializer, error)?;
            send(value, alloc, serializer, error)?;
            end(serializer, error)
        }
        Data::Tuple { values } => {
            open_single(variant, serializer, error)?;
            send_seq(values, alloc, serializer, error)?;
            end(serializer, error)
        }
        Data::Struct { fields } => {
            open_single(variant, serializer, error)?;
            send_sorted(fields, alloc, serializer, error)?;
            end(serializer, error)
        }
    }
}

/// A map of one entry, up to its key.
fn open_single<S: Serializer>(
    variant: &CowStr<'static>,
    serializer: &mut S,
    error: &mut Error,
) -> Sent
    ensures { Sends S.step S.refuses (S.seen serializer.old)
        (λ readable. single_head (text_of variant.now))
        (answer_of result error.new) (S.seen serializer.new) }
{
    serialize_map(1, serializer, error)?;
    serialize_entry(serializer, error)?;
    serialize_str(variant.as_str(), serializer, error)
}

/// The items of a tuple struct or a tuple variant, and its end.
#[cycle(send)]
fn send_tuple_fields<S: Serializer>(
    items: &Vec<Value<'_>>,
    alloc: Global,
    serializer: &mut S,
    error: &mut Error,
) -> Sent
    ensures { Sends S.step S.refuses (S.seen serializer.old)
        (λ readable. script_of_each tuple_field (loose_each (trees_view items.now.items)))
        (answer_of result error.new) (S.seen serializer.new) }
{
    for item in items {
        serialize_tuple_field(serializer, error)?;
        send(item, alloc, serializer, error)?;
    }
    end(serializer, error)
}

/// The fields of a struct or a struct variant, and its end.
#[cycle(send)]
fn send_fields<S: Serializer>(
    fields: &Vec<(CowStr<'static>, Value<'_>)>,
    alloc: Global,
    serializer: &mut S,
    error: &mut Error,
) -> Sent
    ensures { Sends S.step S.refuses (S.seen serializer.old)
        (λ readable. script_of_fields (loose_fields (fields_view fields.now.items)))
        (answer_of result error.new) (S.seen serializer.new) }
{
    for (key, value) in fields {
        send_key(key, alloc, serializer, error)?;
        send(value, alloc, serializer, error)?;
    }
    end(serializer, error)
}

/// Fields as the pairs of a map, in their order, and its end.
#[cycle(send)]
fn send_entries<S: Serializer>(
    fields: &Vec<(CowStr<'static>, Value<'_>)>,
    alloc: Global,
    serializer: &mut S,
    error: &mut Error,
) -> Sent
    ensures { Sends S.step S.refuses (S.seen serializer.old)
        (λ readable. script_of_pairs (loose_field_pairs (fields_view fields.now.items)))
        (answer_of result error.new) (S.seen serializer.new) }
{
    for (key, value) in fields {
        serialize_entry(serializer, error)?;
        serialize_str(key.as_str(), serializer, error)?;
        send(value, alloc, serializer, error)?;
    }
    end(serializer, error)
}

/// Fields as a map, in the order of their keys, of equal keys the last alone.
#[cycle(send)]
fn send_sorted<S: Serializer>(
    fields: &Vec<(CowStr<'static>, Value<'_>)>,
    alloc: Global,
    serializer: &mut S,
    error: &mut Error,
) -> Sent
    ensures { Sends S.step S.refuses (S.seen serializer.old)
        (λ readable. script_of (map (text_pairs (sorted (keyed (fields_view fields.now.items))))))
        (answer_of result error.new) (S.seen serializer.new) }
{
    let places = last_places(alloc, fields, error)?;
    serialize_map(places.len(), serializer, error)?;
    for (key, place) in &places {
        serialize_entry(serializer, error)?;
        serialize_str(key, serializer, error)?;
        send(&fields[*place].1, alloc, serializer, error)?;
    }
    end(serializer, error)
}
