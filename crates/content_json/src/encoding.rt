//! Values as JSON texts.
//!
//! What holds parts is written by functions of their own that aren't inlined, so that a level of a
//! deep value takes little stack.

ghost use Rattle.std.specs.Prelude.{◌≡◌, ◌++◌, OnOk, IfOk, IfErr, None, map};
ghost use Rattle.std.specs.Fmt.{decimal};
ghost use Rattle.std.specs.String.{string_bytes};
ghost use Rattle.content_tree.specs.Values.Value.{tree_of, tree_data_of, enum_tree, held_view};
ghost use Rattle.content_tree.specs.Values.Value.{trees_view, pairs_view, fields_view};
ghost use Rattle.content_json.specs.Encoded.{IsRefusal};
ghost use Rattle.content_json.specs.Json.{data_json, each_json, field_members, json};
ghost use Rattle.content_json.specs.Json.{pair_members};
ghost use Rattle.content_json.specs.Keys.{first_bad, first_bad_data, first_bad_each};
ghost use Rattle.content_json.specs.Keys.{first_bad_field, first_bad_pair};
ghost use Rattle.content_json.specs.Layout.{array, colon, deeper, line, object};
ghost use Rattle.content_json.specs.Strings.{quoted};
ghost use Rattle.content_json.specs.declared.layout.Layout.TheVariants.{Compact, Pretty};

use crate::encode_error::EncodeError;
use crate::keys::write_key;
use crate::layout::Layout;
use crate::leaves::{write_bool, write_null, write_number};
use crate::strings::{write_char, write_text};
use content_tree::{CowStr, NamedData, NamedEnum, NamedValue};
use std::alloc::{AllocError, Global};

/// Encodes a value as a JSON text on one line, without blanks.
///
/// A struct's fields and a map are an object; a sequence, a tuple, what is held by place and bytes
/// an array; a character is a text; the unit, `None` and a unit struct are null; `Some` and a
/// newtype struct are what they hold. A unit variant is its name, and any other an object from its
/// name to what it holds. A number is its decimal digits, also past 64 bits.
///
/// A key of a map is a text, or a character, a boolean or a number in quotes; `Some` and a newtype
/// struct are the key that they hold, and a unit variant its name.
///
/// It takes memory for the text alone, and stack as deep as the value nests.
///
/// # Errors
///
/// `Key`, at the first key of a map that is none of these; `OutOfMemory`.
///
/// ```rust
/// let value = Value::Map(vec![in alloc; (Value::from(1u8), Value::Option(None))]?);
/// assert!(rt; encode(alloc, &value)?.as_str() == "{\"1\":null}");
/// ```
pub fn encode<'a, 'n>(alloc: Global, value: &NamedValue<'a, 'n>) -> Result<String, EncodeError>
    ensures value { IfOk result (λ text. string_bytes text ≡ json Compact (tree_of value.now)) }
    ensures keys { OnOk result (first_bad (tree_of value.now) ≡ None) }
    ensures refused { IfErr result (λ e. IsRefusal (first_bad (tree_of value.now)) e) }
{
    let mut out = String::new(alloc);
    write_value(value, Layout::Compact, &mut out)?;
    Ok(out)
}

/// Encodes a value as [`encode`] does, but on several lines: each part of an array or an object on a
/// line of its own, two spaces a level, and a space after the colon of a key. An array or an object
/// without parts stays on its line.
///
/// It takes memory for the text alone, and stack as deep as the value nests.
///
/// # Errors
///
/// `Key`, at the first key of a map that can't be one; `OutOfMemory`.
///
/// ```rust
/// let value = Value::Seq(vec![in alloc; Value::from(1u8), Value::from("a")]?);
/// assert!(rt; encode_pretty(alloc, &value)?.as_str() == "[\n  1,\n  \"a\"\n]");
/// ```
pub fn encode_pretty<'a, 'n>(
    alloc: Global,
    value: &NamedValue<'a, 'n>,
) -> Result<String, EncodeError>
    ensures value { IfOk result (λ text. string_bytes text ≡ json (Pretty 0) (tree_of value.now)) }
    ensures keys { OnOk result (first_bad (tree_of value.now) ≡ None) }
    ensures refused { IfErr result (λ e. IsRefusal (first_bad (tree_of value.now)) e) }
{
    let mut out = String::new(alloc);
    write_value(value, Layout::Pretty { level: 0 }, &mut out)?;
    Ok(out)
}

#[cycle(encode)]
#[inline(never)]
fn write_value<'a, 'n>(
    value: &NamedValue<'a, 'n>,
    layout: Layout,
    out: &mut String,
) -> Result<(), EncodeError>
    ensures value { OnOk result (string_bytes out.new ≡ string_bytes out.old
        ++ json layout (tree_of value.now)) }
    ensures keys { OnOk result (first_bad (tree_of value.now) ≡ None) }
    ensures refused { IfErr result (λ e. IsRefusal (first_bad (tree_of value.now)) e) }
{
    match value {
        NamedValue::Unit => Ok(write_null(out)?),
        NamedValue::Bool(boolean) => Ok(write_bool(*boolean, out)?),
        NamedValue::Number(number) => Ok(write_number(*number, out)?),
        NamedValue::Char(character) => Ok(write_char(*character, out)?),
        NamedValue::String(text) => Ok(write_text(text.as_str(), out)?),
        NamedValue::Bytes(bytes) => write_bytes(bytes.as_bytes(), layout, out),
        NamedValue::Seq(items) => write_array(items, layout, out),
        NamedValue::Map(pairs) => write_map(pairs, layout, out),
        NamedValue::Option(held) => write_held(held, layout, out),
        NamedValue::Struct(node) => write_data(&node.data, layout, out),
        NamedValue::Enum(node) => write_variant(node, layout, out),
        NamedValue::Tuple(items) => write_array(items, layout, out),
    }
}

#[cycle(encode)]
#[inline(never)]
fn write_held<'a, 'n>(
    held: &Option<Box<NamedValue<'a, 'n>>>,
    layout: Layout,
    out: &mut String,
) -> Result<(), EncodeError>
    ensures value { OnOk result (string_bytes out.new ≡ string_bytes out.old
        ++ json layout (held_view held.now)) }
    ensures keys { OnOk result (first_bad (held_view held.now) ≡ None) }
    ensures refused { IfErr result (λ e. IsRefusal (first_bad (held_view held.now)) e) }
{
    match held {
        None => Ok(write_null(out)?),
        Some(value) => write_value(value, layout, out),
    }
}

/// Appends what a struct holds.
#[cycle(encode)]
#[inline(never)]
fn write_data<'a, 'n>(
    inside: &NamedData<'a, 'n>,
    layout: Layout,
    out: &mut String,
) -> Result<(), EncodeError>
    ensures value { OnOk result (string_bytes out.new ≡ string_bytes out.old
        ++ data_json layout (tree_data_of inside.now)) }
    ensures keys { OnOk result (first_bad_data (tree_data_of inside.now) ≡ None) }
    ensures refused { IfErr result (λ e. IsRefusal (first_bad_data (tree_data_of inside.now)) e) }
{
    match inside {
        NamedData::Unit => Ok(write_null(out)?),
        NamedData::NewType { value } => write_value(value, layout, out),
        NamedData::Tuple { values } => write_array(values, layout, out),
        NamedData::Struct { fields } => write_fields(fields, layout, out),
    }
}

/// Appends a variant: its name, or an object of its name with what it holds.
#[cycle(encode)]
#[inline(never)]
fn write_variant<'a, 'n>(
    node: &NamedEnum<'a, 'n>,
    layout: Layout,
    out: &mut String,
) -> Result<(), EncodeError>
    ensures value { OnOk result (string_bytes out.new ≡ string_bytes out.old
        ++ json layout (enum_tree node.now)) }
    ensures keys { OnOk result (first_bad (enum_tree node.now) ≡ None) }
    ensures refused { IfErr result (λ e. IsRefusal (first_bad (enum_tree node.now)) e) }
{
    let name = node.variant.as_str();
    if matches!(node.data, NamedData::Unit) {
        return Ok(write_text(name, out)?);
    }
    let inner = layout.deeper()?;
    write_name("{", name, inner, out)?;
    write_data(&node.data, inner, out)?;
    Ok(write_end("}", layout, out)?)
}

/// Appends an array of bytes.
fn write_bytes(bytes: &[u8], layout: Layout, out: &mut String) -> Result<(), EncodeError>
    ensures value { OnOk result (string_bytes out.new ≡ string_bytes out.old
        ++ array layout (map decimal bytes.now)) }
    ensures memory { IfErr result (λ e. IsRefusal None e) }
{
    if bytes.is_empty() {
        return Ok(out.push_str("[]")?);
    }
    let inner = layout.deeper()?;
    let mut lead = "[";
    for byte in bytes {
        write_start(lead, inner, out)?;
        write!(out, "{byte}")?;
        lead = ",";
    }
    Ok(write_end("]", layout, out)?)
}

/// Appends an array.
#[cycle(encode)]
#[inline(never)]
fn write_array<'a, 'n>(
    items: &[NamedValue<'a, 'n>],
    layout: Layout,
    out: &mut String,
) -> Result<(), EncodeError>
    ensures value { OnOk result (string_bytes out.new ≡ string_bytes out.old
        ++ array layout (each_json (deeper layout) (trees_view items.now))) }
    ensures keys { OnOk result (first_bad_each (trees_view items.now) ≡ None) }
    ensures refused { IfErr result (λ e. IsRefusal (first_bad_each (trees_view items.now)) e) }
{
    if items.is_empty() {
        return Ok(out.push_str("[]")?);
    }
    let inner = layout.deeper()?;
    let mut lead = "[";
    for item in items {
        write_start(lead, inner, out)?;
        write_value(item, inner, out)?;
        lead = ",";
    }
    Ok(write_end("]", layout, out)?)
}

/// Appends a map.
#[cycle(encode)]
#[inline(never)]
fn write_map<'a, 'n>(
    pairs: &Vec<(NamedValue<'a, 'n>, NamedValue<'a, 'n>)>,
    layout: Layout,
    out: &mut String,
) -> Result<(), EncodeError>
    ensures value { OnOk result (string_bytes out.new ≡ string_bytes out.old
        ++ object layout (pair_members (deeper layout) (pairs_view pairs.now.items))) }
    ensures keys { OnOk result (first_bad_pair (pairs_view pairs.now.items) ≡ None) }
    ensures refused { IfErr result (λ e. IsRefusal (first_bad_pair (pairs_view pairs.now.items)) e) }
{
    if pairs.is_empty() {
        return Ok(out.push_str("{}")?);
    }
    let inner = layout.deeper()?;
    let mut lead = "{";
    for (key, value) in pairs {
        write_start(lead, inner, out)?;
        write_key(key, out)?;
        inner.write_colon(out)?;
        write_value(value, inner, out)?;
        lead = ",";
    }
    Ok(write_end("}", layout, out)?)
}

/// Appends fields, as an object.
#[cycle(encode)]
#[inline(never)]
fn write_fields<'a, 'n>(
    fields: &Vec<(CowStr<'n>, NamedValue<'a, 'n>)>,
    layout: Layout,
    out: &mut String,
) -> Result<(), EncodeError>
    ensures value { OnOk result (string_bytes out.new ≡ string_bytes out.old
        ++ object layout (field_members (deeper layout) (fields_view fields.now.items))) }
    ensures keys { OnOk result (first_bad_field (fields_view fields.now.items) ≡ None) }
    ensures refused { IfErr result (λ e. IsRefusal (first_bad_field (fields_view fields.now.items))
        e) }
{
    if fields.is_empty() {
        return Ok(out.push_str("{}")?);
    }
    let inner = layout.deeper()?;
    let mut lead = "{";
    for (key, value) in fields {
        write_name(lead, key.as_str(), inner, out)?;
        write_value(value, inner, out)?;
        lead = ",";
    }
    Ok(write_end("}", layout, out)?)
}

/// Appends what leads to a part: a bracket or a comma, and its line.
fn write_start(lead: &str, inner: Layout, out: &mut String) -> Result<(), AllocError>
    ensures { OnOk result (string_bytes out.new ≡ string_bytes out.old ++ (lead.now ++ line inner)) }
{
    out.push_str(lead)?;
    inner.write_line(out)
}

/// Appends the same and the name of a field or a variant.
fn write_name(lead: &str, name: &str, inner: Layout, out: &mut String) -> Result<(), AllocError>
    ensures { OnOk result (string_bytes out.new ≡ string_bytes out.old
        ++ ((lead.now ++ line inner) ++ (quoted name.now ++ colon inner))) }
{
    write_start(lead, inner, out)?;
    write_text(name, out)?;
    inner.write_colon(out)
}

/// Appends a line and a bracket.
fn write_end(close: &str, layout: Layout, out: &mut String) -> Result<(), AllocError>
    ensures { OnOk result (string_bytes out.new ≡ string_bytes out.old
        ++ (line layout ++ close.now)) }
{
    layout.write_line(out)?;
    out.push_str(close)
}
