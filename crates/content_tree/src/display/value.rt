//! The printed text of values: that of their images, with no image made.
//!
//! What holds parts is written by functions of their own that aren't inlined, so that a level of a
//! deep value takes little stack.

#![tactic(auto, using(crate::proofs::Printing::two_writes, crate::proofs::Printing::three_writes, crate::proofs::Printing::four_writes))]

ghost use Rattle.std.specs.Prelude.{◌≡◌, Some, codes, ◌++◌, []};
ghost use Rattle.std.specs.Fmt.{WritesStyledOnOk};
ghost use Rattle.content_tree.specs.Values.Text.{text_content};
ghost use Rattle.content_tree.specs.Values.Value.{tree_of, tree_data_of, struct_tree, enum_tree};
ghost use Rattle.content_tree.specs.Values.Value.{held_view, trees_view, pairs_view, fields_view};
ghost use Rattle.content_tree.specs.Images.Image.{image, image_data, image_each, image_pairs};
ghost use Rattle.content_tree.specs.Images.Image.{image_fields};
ghost use Rattle.content_tree.specs.Printed.Images.{printed, printed_data, printed_list};
ghost use Rattle.content_tree.specs.Printed.Images.{printed_pairs, printed_fields};
ghost use Rattle.content_tree.specs.Printed.Values.{displayed};

use crate::cow::CowStr;
use crate::display::{write_bytes, write_character, write_number};
use crate::quote::write_quoted;
use crate::value::{NamedData, NamedEnum, NamedStruct, NamedValue};
use std::fmt;

/// Prints a value: what [`NamedValue::display`] gives.
#[derive(Drop)]
pub struct ValueDisplay<'v, 'a, 'n> {
    value: &'v NamedValue<'a, 'n>,
}

impl<'a, 'n> NamedValue<'a, 'n> {
    /// Prints the value: the text of the image that [`into_found`](NamedValue::into_found) would
    /// give, with no image made. It takes no memory; what it is printed into may. Not in
    /// `serde-content`.
    ///
    /// ```rust
    /// let value = Value::Seq(vec![in alloc; Value::from(true), Value::from(255u8)]?);
    /// let text = format!(in alloc; "{}", value.display())?;
    /// assert_eq!(rt; text.as_str(), "[true, 255u8]");
    /// ```
    pub fn display(&self) -> ValueDisplay<'_, 'a, 'n>
        ensures { displayed result ≡ self.now }
    {
        ValueDisplay { value: self }
    }
}

/// The text of the value's image, as [`Found`](crate::Found) prints it. Options of the formatter
/// change nothing in it.
impl<'v, 'a, 'n> fmt::Display for ValueDisplay<'v, 'a, 'n> {
    ghost output = { λ d. Some (printed (image (tree_of (displayed d)))) };

    ghost styled_output = { λ d _options. Some (printed (image (tree_of (displayed d)))) };

    fn fmt<W: fmt::Write>(&self, f: &mut fmt::Formatter<W>) -> fmt::Result {
        write_value(self.value, f)
    }
}

#[cycle(print_value)]
#[inline(never)]
pub(super) fn write_value<'a, 'n, W: fmt::Write>(
    value: &NamedValue<'a, 'n>,
    f: &mut fmt::Formatter<W>,
) -> fmt::Result
    ensures { WritesStyledOnOk W.write_str_gives f.old result
        (printed (image (tree_of value.now))) f.new }
{
    match value {
        NamedValue::Unit => f.write_str("()"),
        NamedValue::Bool(boolean) => f.write_str(if *boolean { "true" } else { "false" }),
        NamedValue::Number(number) => write_number(number, f),
        NamedValue::Char(character) => write_character(*character, f),
        NamedValue::String(text) => write_quoted(text.as_str(), f),
        NamedValue::Bytes(bytes) => write_bytes(bytes.as_bytes(), f),
        NamedValue::Seq(items) => write_list("[", items, "]", f),
        NamedValue::Map(pairs) => write_map(pairs, f),
        NamedValue::Option(held) => write_held(held, f),
        NamedValue::Struct(node) => write_struct(node, f),
        NamedValue::Enum(node) => write_enum(node, f),
        NamedValue::Tuple(items) => write_list("(", items, ")", f),
    }
}

#[cycle(print_value)]
#[inline(never)]
fn write_held<'a, 'n, W: fmt::Write>(
    held: &Option<Box<NamedValue<'a, 'n>>>,
    f: &mut fmt::Formatter<W>,
) -> fmt::Result
    ensures { WritesStyledOnOk W.write_str_gives f.old result
        (printed (image (held_view held.now))) f.new }
{
    match held {
        None => f.write_str("None"),
        Some(value) => {
            f.write_str("Some(")?;
            write_value(value, f)?;
            f.write_str(")")
        }
    }
}

#[cycle(print_value)]
#[inline(never)]
pub(super) fn write_list<'a, 'n, W: fmt::Write>(
    before: &str,
    items: &Vec<NamedValue<'a, 'n>>,
    after: &str,
    f: &mut fmt::Formatter<W>,
) -> fmt::Result
    ensures { WritesStyledOnOk W.write_str_gives f.old result
        (before.now ++ (printed_list [] (image_each (trees_view items.now.items))
        ++ after.now)) f.new }
{
    f.write_str(before)?;
    write_items(items, f)?;
    f.write_str(after)
}

#[cycle(print_value)]
#[inline(never)]
pub(super) fn write_map<'a, 'n, W: fmt::Write>(
    pairs: &Vec<(NamedValue<'a, 'n>, NamedValue<'a, 'n>)>,
    f: &mut fmt::Formatter<W>,
) -> fmt::Result
    ensures { WritesStyledOnOk W.write_str_gives f.old result
        (codes "{ " ++ (printed_pairs [] (image_pairs (pairs_view pairs.now.items))
        ++ codes " }")) f.new }
{
    f.write_str("{ ")?;
    write_pairs(pairs, f)?;
    f.write_str(" }")
}

#[cycle(print_value)]
#[inline(never)]
fn write_struct<'a, 'n, W: fmt::Write>(
    node: &NamedStruct<'a, 'n>,
    f: &mut fmt::Formatter<W>,
) -> fmt::Result
    ensures { WritesStyledOnOk W.write_str_gives f.old result
        (printed (image (struct_tree node.now))) f.new }
{
    f.write_str(node.name.as_str())?;
    write_data(&node.data, f)
}

#[cycle(print_value)]
#[inline(never)]
fn write_enum<'a, 'n, W: fmt::Write>(
    node: &NamedEnum<'a, 'n>,
    f: &mut fmt::Formatter<W>,
) -> fmt::Result
    ensures { WritesStyledOnOk W.write_str_gives f.old result
        (printed (image (enum_tree node.now))) f.new }
{
    f.write_str(node.name.as_str())?;
    f.write_str("::")?;
    f.write_str(node.variant.as_str())?;
    write_data(&node.data, f)
}

/// Writes what follows the name of a struct or a variant.
#[cycle(print_value)]
#[inline(always)]
fn write_data<'a, 'n, W: fmt::Write>(
    inside: &NamedData<'a, 'n>,
    f: &mut fmt::Formatter<W>,
) -> fmt::Result
    ensures { WritesStyledOnOk W.write_str_gives f.old result
        (printed_data (image_data (tree_data_of inside.now))) f.new }
{
    match inside {
        NamedData::Unit => Ok(()),
        NamedData::NewType { value } => write_newtype(value, f),
        NamedData::Tuple { values } => write_list("(", values, ")", f),
        NamedData::Struct { fields } => write_named(fields, f),
    }
}

#[cycle(print_value)]
#[inline(never)]
fn write_newtype<'a, 'n, W: fmt::Write>(
    value: &NamedValue<'a, 'n>,
    f: &mut fmt::Formatter<W>,
) -> fmt::Result
    ensures { WritesStyledOnOk W.write_str_gives f.old result
        (codes "(" ++ (printed (image (tree_of value.now)) ++ codes ")")) f.new }
{
    f.write_str("(")?;
    write_value(value, f)?;
    f.write_str(")")
}

#[cycle(print_value)]
#[inline(never)]
pub(super) fn write_named<'a, 'n, W: fmt::Write>(
    fields: &Vec<(CowStr<'n>, NamedValue<'a, 'n>)>,
    f: &mut fmt::Formatter<W>,
) -> fmt::Result
    ensures { WritesStyledOnOk W.write_str_gives f.old result
        (codes " { " ++ (printed_fields [] (image_fields (fields_view fields.now.items))
        ++ codes " }")) f.new }
{
    f.write_str(" { ")?;
    write_fields(fields, f)?;
    f.write_str(" }")
}

/// Writes what leads to an item, nothing or a comma, and the item.
#[cycle(print_value)]
fn write_item<'a, 'n, W: fmt::Write>(
    lead: &str,
    item: &NamedValue<'a, 'n>,
    f: &mut fmt::Formatter<W>,
) -> fmt::Result
    ensures { WritesStyledOnOk W.write_str_gives f.old result
        (lead.now ++ printed (image (tree_of item.now))) f.new }
{
    f.write_str(lead)?;
    write_value(item, f)
}

/// Writes what leads to a field, its key as it is, and its value.
#[cycle(print_value)]
fn write_field<'a, 'n, W: fmt::Write>(
    lead: &str,
    key: &CowStr<'n>,
    value: &NamedValue<'a, 'n>,
    f: &mut fmt::Formatter<W>,
) -> fmt::Result
    ensures { WritesStyledOnOk W.write_str_gives f.old result
        (lead.now ++ (text_content key.now ++ (codes ": " ++ printed
        (image (tree_of value.now))))) f.new }
{
    f.write_str(lead)?;
    f.write_str(key.as_str())?;
    f.write_str(": ")?;
    write_value(value, f)
}

#[cycle(print_value)]
fn write_items<'a, 'n, W: fmt::Write>(
    items: &Vec<NamedValue<'a, 'n>>,
    f: &mut fmt::Formatter<W>,
) -> fmt::Result
    ensures { WritesStyledOnOk W.write_str_gives f.old result
        (printed_list [] (image_each (trees_view items.now.items))) f.new }
{
    let mut lead = "";
    for item in items {
        write_item(lead, item, f)?;
        lead = ", ";
    }
    Ok(())
}

#[cycle(print_value)]
fn write_pairs<'a, 'n, W: fmt::Write>(
    pairs: &Vec<(NamedValue<'a, 'n>, NamedValue<'a, 'n>)>,
    f: &mut fmt::Formatter<W>,
) -> fmt::Result
    ensures { WritesStyledOnOk W.write_str_gives f.old result
        (printed_pairs [] (image_pairs (pairs_view pairs.now.items))) f.new }
{
    let mut lead = "";
    for (key, value) in pairs {
        write_item(lead, key, f)?;
        write_item(": ", value, f)?;
        lead = ", ";
    }
    Ok(())
}

#[cycle(print_value)]
fn write_fields<'a, 'n, W: fmt::Write>(
    fields: &Vec<(CowStr<'n>, NamedValue<'a, 'n>)>,
    f: &mut fmt::Formatter<W>,
) -> fmt::Result
    ensures { WritesStyledOnOk W.write_str_gives f.old result
        (printed_fields [] (image_fields (fields_view fields.now.items))) f.new }
{
    let mut lead = "";
    for (key, value) in fields {
        write_field(lead, key, value, f)?;
        lead = ", ";
    }
    Ok(())
}
