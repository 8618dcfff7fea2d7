//! Values as bytes.
//!
//! What holds parts is written by functions of their own that aren't inlined, so that a level of a
//! deep value takes little stack.

ghost use Rattle.std.specs.Prelude.{◌≡◌, ◌++◌, OnOk, IfOk, IfErr, false};
ghost use Rattle.std.specs.Io.{StartsWith};
ghost use Rattle.content_tree.specs.Errors.Kind.{IsOutOfMemory};
ghost use Rattle.content_tree.specs.Values.Tree as tree;
ghost use Rattle.content_tree.specs.Values.Value.{tree_of, tree_data_of, enum_tree, held_view};
ghost use Rattle.content_tree.specs.Values.Value.{trees_view, pairs_view, fields_view};
ghost use Rattle.content_cbor.specs.Encoded.{Encoded};
ghost use Rattle.content_cbor.specs.Form.{CodesForm, Fits, DataFits, EachFits, PairsFit};
ghost use Rattle.content_cbor.specs.Form.{FieldsFit, IsLength, IsText};
ghost use Rattle.content_cbor.specs.Heads.{head};
ghost use Rattle.content_cbor.specs.Item.{item, text_item, data_item, each_item, pair_items};
ghost use Rattle.content_cbor.specs.Item.{field_items};
ghost use Rattle.content_tree.specs.Values.Tree.{count};
ghost use Rattle.content_ser.specs.Sending.TreeScript.{count_pairs, count_fields};

use crate::encoder::Encoder;
use crate::heads::{Major, write_head};
use crate::leaves::{write_bool, write_bytes, write_char, write_null, write_number, write_text};
use content_build::Serializer;
use content_ser::{Aside, Serialize};
use content_tree::{CowStr, Error, ErrorKind, NamedData, NamedEnum, NamedValue, Result};
use std::alloc::{AllocError, Global};
use std::result::Result as StdResult;

/// Encodes a value as one data item, with definite lengths and each head in as few bytes as can be.
///
/// A struct's fields and a map are a map; a sequence, a tuple and what is held by place an array; a
/// character is a text; the unit, `None` and a unit struct are null; `Some` and a newtype struct
/// are what they hold. A unit variant is its name, and any other a map from its name to what it
/// holds. A number is an integer; outside -2^64 .. 2^64-1 it is a bignum, bytes under tag 3 or 2.
///
/// It takes memory for the bytes alone, and stack as deep as the value nests.
///
/// # Errors
///
/// `OutOfMemory`.
///
/// ```rust
/// let value = Value::Seq(vec![in alloc; Value::from(1u8), Value::from("a")]?);
/// assert!(rt; encode(alloc, &value)?.as_slice() == [0x82, 0x01, 0x61, b'a'].as_slice());
/// ```
pub fn encode<'a, 'n>(alloc: Global, value: &NamedValue<'a, 'n>) -> Result<Vec<u8>>
    ensures value { IfOk result (λ bytes. bytes.items ≡ item (tree_of value.now)) }
    // so within each limit that it keeps it is decoded as its form
    ensures form { IfOk result (λ bytes. CodesForm (tree_of value.now) bytes.items) }
    ensures fits { OnOk result (Fits (tree_of value.now)) }
    ensures memory { IfErr result (λ e. IsOutOfMemory e) }
{
    let mut out = Vec::new(alloc);
    write_value(value, &mut out)?;
    Ok(out)
}

/// Encodes values as one data item, an array of their items. It takes memory for the bytes alone,
/// and stack as deep as the values nest.
///
/// # Errors
///
/// `OutOfMemory`.
///
/// ```rust
/// let bytes = encode_array(alloc, &[Value::from(1u8), Value::from("a")])?;
/// assert!(rt; bytes.as_slice() == [0x82, 0x01, 0x61, b'a'].as_slice());
/// ```
pub fn encode_array<'a, 'n>(alloc: Global, items: &[NamedValue<'a, 'n>]) -> Result<Vec<u8>>
    ensures value { IfOk result (λ bytes. bytes.items ≡ item (tree.seq (trees_view items.now))) }
    ensures form { IfOk result (λ bytes. CodesForm (tree.seq (trees_view items.now)) bytes.items) }
    ensures fits { OnOk result (EachFits (trees_view items.now)) }
    ensures memory { IfErr result (λ e. IsOutOfMemory e) }
{
    let mut out = Vec::new(alloc);
    write_array(items, &mut out)?;
    Ok(out)
}

/// Encodes anything that can be serialised, as one data item: that of the tree which its calls
/// spell.
///
/// Its calls are written as they come, by an [`Encoder`]; where one can't be, they are made again,
/// into a tree. Memory is taken for the bytes, a number for each open array or map, and the tree.
///
/// # Errors
///
/// The error with which its calls stop; `OutOfMemory`.
///
/// ```rust
/// assert!(rt; to_bytes(alloc, &Some(7u8))?.as_slice() == [0x07].as_slice());
/// ```
pub fn to_bytes<T: Serialize>(alloc: Global, value: &T) -> Result<Vec<u8>>
    ensures { Encoded (T.script value.now false) result }
{
    let mut encoder = Encoder::new(alloc);
    // In the place of an error before there is one; no answer shows it.
    let mut error = Error::from(ErrorKind::OutOfMemory);
    match value.serialize_aside(alloc, &mut encoder, &mut error) {
        Ok(()) => Ok(encoder.into_bytes()),
        Err(Aside) => {
            if matches!(error.kind(), ErrorKind::Misplaced) {
                through_a_tree(alloc, value)
            } else {
                Err(error)
            }
        }
    }
}

/// The same by way of the tree.
fn through_a_tree<T: Serialize>(alloc: Global, value: &T) -> Result<Vec<u8>>
    ensures { Encoded (T.script value.now false) result }
{
    let tree = Serializer::new().serialize(alloc, value)?;
    encode(alloc, &tree)
}

#[cycle(encode)]
#[inline(never)]
fn write_value<'a, 'n>(value: &NamedValue<'a, 'n>, out: &mut Vec<u8>) -> StdResult<(), AllocError>
    ensures value { OnOk result (out.new.items ≡ out.old.items ++ item (tree_of value.now)) }
    ensures fits { OnOk result (Fits (tree_of value.now)) }
{
    match value {
        NamedValue::Unit => write_null(out),
        NamedValue::Bool(boolean) => write_bool(*boolean, out),
        NamedValue::Number(number) => write_number(*number, out),
        NamedValue::Char(character) => write_char(*character, out),
        NamedValue::String(text) => write_text(text.as_str(), out),
        NamedValue::Bytes(bytes) => write_bytes(bytes.as_bytes(), out),
        NamedValue::Seq(items) => write_array(items, out),
        NamedValue::Map(pairs) => write_map(pairs, out),
        NamedValue::Option(held) => write_held(held, out),
        NamedValue::Struct(node) => write_data(&node.data, out),
        NamedValue::Enum(node) => write_variant(node, out),
        NamedValue::Tuple(items) => write_array(items, out),
    }
}

#[cycle(encode)]
#[inline(never)]
fn write_held<'a, 'n>(
    held: &Option<Box<NamedValue<'a, 'n>>>,
    out: &mut Vec<u8>,
) -> StdResult<(), AllocError>
    ensures value { OnOk result (out.new.items ≡ out.old.items ++ item (held_view held.now)) }
    ensures fits { OnOk result (Fits (held_view held.now)) }
{
    match held {
        None => write_null(out),
        Some(value) => write_value(value, out),
    }
}

/// Appends what a struct holds.
#[cycle(encode)]
#[inline(never)]
fn write_data<'a, 'n>(inside: &NamedData<'a, 'n>, out: &mut Vec<u8>) -> StdResult<(), AllocError>
    ensures value { OnOk result (out.new.items ≡ out.old.items
        ++ data_item (tree_data_of inside.now)) }
    ensures fits { OnOk result (DataFits (tree_data_of inside.now)) }
{
    match inside {
        NamedData::Unit => write_null(out),
        NamedData::NewType { value } => write_value(value, out),
        NamedData::Tuple { values } => write_array(values, out),
        NamedData::Struct { fields } => write_fields(fields, out),
    }
}

/// Appends a variant: its name, or a map from its name to what it holds.
#[cycle(encode)]
#[inline(never)]
fn write_variant<'a, 'n>(node: &NamedEnum<'a, 'n>, out: &mut Vec<u8>) -> StdResult<(), AllocError>
    ensures value { OnOk result (out.new.items ≡ out.old.items ++ item (enum_tree node.now)) }
    ensures fits { OnOk result (Fits (enum_tree node.now)) }
{
    let name = node.variant.as_str();
    match &node.data {
        NamedData::Unit => write_text(name, out),
        NamedData::NewType { value } => {
            write_entry_of(name, out)?;
            write_value(value, out)
        }
        NamedData::Tuple { values } => {
            write_entry_of(name, out)?;
            write_array(values, out)
        }
        NamedData::Struct { fields } => {
            write_entry_of(name, out)?;
            write_fields(fields, out)
        }
    }
}

/// Appends the head of a map of one pair, and its key.
pub(crate) fn write_entry_of(name: &str, out: &mut Vec<u8>) -> StdResult<(), AllocError>
    ensures value { OnOk result (out.new.items ≡ out.old.items
        ++ (head Major.Map 1 ++ text_item name.now)) }
    ensures fits { OnOk result (IsText name.now) }
    ensures kept { StartsWith out.new.items out.old.items }
{
    write_head(out, Major::Map, 1)?;
    write_text(name, out)
}

/// Appends an array.
#[cycle(encode)]
#[inline(never)]
fn write_array<'a, 'n>(items: &[NamedValue<'a, 'n>], out: &mut Vec<u8>) -> StdResult<(), AllocError>
    ensures value { OnOk result (out.new.items ≡ out.old.items
        ++ (head Major.Array (count (trees_view items.now))
        ++ each_item (trees_view items.now))) }
    ensures fits { OnOk result (IsLength (count (trees_view items.now))
        × EachFits (trees_view items.now)) }
{
    write_head(out, Major::Array, items.len() as u64)?;
    for item in items {
        write_value(item, out)?;
    }
    Ok(())
}

/// Appends a map.
#[cycle(encode)]
#[inline(never)]
fn write_map<'a, 'n>(
    pairs: &Vec<(NamedValue<'a, 'n>, NamedValue<'a, 'n>)>,
    out: &mut Vec<u8>,
) -> StdResult<(), AllocError>
    ensures value { OnOk result (out.new.items ≡ out.old.items
        ++ (head Major.Map (count_pairs (pairs_view pairs.now.items))
        ++ pair_items (pairs_view pairs.now.items))) }
    ensures fits { OnOk result (IsLength (count_pairs (pairs_view pairs.now.items))
        × PairsFit (pairs_view pairs.now.items)) }
{
    write_head(out, Major::Map, pairs.len() as u64)?;
    for (key, value) in pairs {
        write_value(key, out)?;
        write_value(value, out)?;
    }
    Ok(())
}

/// Appends fields, as a map with their names as texts.
#[cycle(encode)]
#[inline(never)]
fn write_fields<'a, 'n>(
    fields: &Vec<(CowStr<'n>, NamedValue<'a, 'n>)>,
    out: &mut Vec<u8>,
) -> StdResult<(), AllocError>
    ensures value { OnOk result (out.new.items ≡ out.old.items
        ++ (head Major.Map (count_fields (fields_view fields.now.items))
        ++ field_items (fields_view fields.now.items))) }
    ensures fits { OnOk result (IsLength (count_fields (fields_view fields.now.items))
        × FieldsFit (fields_view fields.now.items)) }
{
    write_head(out, Major::Map, fields.len() as u64)?;
    for (key, value) in fields {
        write_text(key.as_str(), out)?;
        write_value(value, out)?;
    }
    Ok(())
}
