//! The printed text of values on several lines.
//!
//! As in `value.rt`, what holds parts is written by functions of their own that aren't inlined.

#![tactic(auto, using(crate::proofs::Printing::two_writes, crate::proofs::Printing::three_writes, crate::proofs::Printing::four_writes))]

ghost use Rattle.std.specs.Prelude.{◌≡◌, Some, codes, ◌++◌, [], if◌then◌else◌};
ghost use Rattle.std.specs.Fmt.{WritesStyledOnOk};
ghost use Rattle.content_tree.specs.Values.Text.{text_content};
ghost use Rattle.content_tree.specs.Values.Value.{tree_of, tree_data_of, struct_tree, enum_tree};
ghost use Rattle.content_tree.specs.Values.Value.{trees_view, pairs_view, fields_view};
ghost use Rattle.content_tree.specs.Images.Image.{image, image_data, image_each, image_pairs};
ghost use Rattle.content_tree.specs.Images.Image.{image_fields, map, named};
ghost use Rattle.content_tree.specs.Printed.Images.{printed_list};
ghost use Rattle.content_tree.specs.Printed.Pretty.{pretty_value, line, indent, deeper, is_leaf};
ghost use Rattle.content_tree.specs.Printed.Pretty.{holds_nothing, is_short, are_short_pairs};
ghost use Rattle.content_tree.specs.Printed.Pretty.{are_short_fields, pretty, pretty_data};
ghost use Rattle.content_tree.specs.Printed.Pretty.{pretty_list, pretty_pairs, pretty_fields};

use crate::cow::CowStr;
use crate::display::value;
use crate::value::{NamedData, NamedEnum, NamedStruct, NamedValue};
use std::fmt;

/// Prints a value on several lines: what [`NamedValue::pretty`] gives.
#[derive(Drop)]
pub struct PrettyDisplay<'v, 'a, 'n> {
    value: &'v NamedValue<'a, 'n>,
}

impl<'a, 'n> NamedValue<'a, 'n> {
    /// Prints the value as [`display`](NamedValue::display) does, but each part of a sequence, a
    /// map, a tuple, a struct or a variant on a line of its own, two spaces a level, unless it has
    /// none, or only one with nothing inside. It takes no memory; what it is printed into may.
    ///
    /// ```rust
    /// let value = Value::Seq(vec![in alloc; Value::from(true), Value::from(255u8)]?);
    /// let text = format!(in alloc; "{}", value.pretty())?;
    /// assert_eq!(rt; text.as_str(), "[\n  true,\n  255u8\n]");
    /// ```
    pub fn pretty(&self) -> PrettyDisplay<'_, 'a, 'n>
        ensures { pretty_value result ≡ self.now }
    {
        PrettyDisplay { value: self }
    }
}

/// Options of the formatter change nothing in the text.
impl<'v, 'a, 'n> fmt::Display for PrettyDisplay<'v, 'a, 'n> {
    ghost output = { λ d. Some (pretty 0 (image (tree_of (pretty_value d)))) };

    ghost styled_output = { λ d _options. Some (pretty 0 (image (tree_of (pretty_value d)))) };

    fn fmt<W: fmt::Write>(&self, f: &mut fmt::Formatter<W>) -> fmt::Result {
        write_value(self.value, 0, f)
    }
}

#[cycle(print_pretty)]
#[inline(never)]
fn write_value<'a, 'n, W: fmt::Write>(
    value: &NamedValue<'a, 'n>,
    level: usize,
    f: &mut fmt::Formatter<W>,
) -> fmt::Result
    ensures { WritesStyledOnOk W.write_str_gives f.old result
        (pretty level (image (tree_of value.now))) f.new }
{
    match value {
        NamedValue::Seq(items) => write_list("[", items, "]", level, f),
        NamedValue::Map(pairs) => write_map(pairs, level, f),
        NamedValue::Option(Some(held)) => write_held("Some(", held, level, f),
        NamedValue::Struct(node) => write_struct(node, level, f),
        NamedValue::Enum(node) => write_enum(node, level, f),
        NamedValue::Tuple(items) => write_list("(", items, ")", level, f),
        leaf => value::write_value(leaf, f),
    }
}

/// Writes a value between brackets.
#[cycle(print_pretty)]
#[inline(never)]
fn write_held<'a, 'n, W: fmt::Write>(
    before: &str,
    value: &NamedValue<'a, 'n>,
    level: usize,
    f: &mut fmt::Formatter<W>,
) -> fmt::Result
    ensures { WritesStyledOnOk W.write_str_gives f.old result
        (before.now ++ (pretty level (image (tree_of value.now)) ++ codes ")")) f.new }
{
    f.write_str(before)?;
    write_value(value, level, f)?;
    f.write_str(")")
}

#[cycle(print_pretty)]
#[inline(never)]
fn write_list<'a, 'n, W: fmt::Write>(
    before: &str,
    items: &Vec<NamedValue<'a, 'n>>,
    after: &str,
    level: usize,
    f: &mut fmt::Formatter<W>,
) -> fmt::Result
    ensures { let images = image_each (trees_view items.now.items) in
        WritesStyledOnOk W.write_str_gives f.old result
        (if is_short images then before.now ++ (printed_list [] images ++ after.now)
        else before.now ++ (pretty_list (deeper level) [] images
        ++ (line level ++ after.now))) f.new }
{
    if is_short(items) {
        return value::write_list(before, items, after, f);
    }
    f.write_str(before)?;
    write_items(items, level.saturating_add(1), f)?;
    write_line(level, f)?;
    f.write_str(after)
}

#[cycle(print_pretty)]
#[inline(never)]
fn write_map<'a, 'n, W: fmt::Write>(
    pairs: &Vec<(NamedValue<'a, 'n>, NamedValue<'a, 'n>)>,
    level: usize,
    f: &mut fmt::Formatter<W>,
) -> fmt::Result
    ensures { let images = image_pairs (pairs_view pairs.now.items) in
        WritesStyledOnOk W.write_str_gives f.old result (pretty level (map images)) f.new }
{
    if are_short_pairs(pairs) {
        return value::write_map(pairs, f);
    }
    f.write_str("{")?;
    write_pairs(pairs, level.saturating_add(1), f)?;
    write_line(level, f)?;
    f.write_str("}")
}

#[cycle(print_pretty)]
#[inline(never)]
fn write_struct<'a, 'n, W: fmt::Write>(
    node: &NamedStruct<'a, 'n>,
    level: usize,
    f: &mut fmt::Formatter<W>,
) -> fmt::Result
    ensures { WritesStyledOnOk W.write_str_gives f.old result
        (pretty level (image (struct_tree node.now))) f.new }
{
    f.write_str(node.name.as_str())?;
    write_data(&node.data, level, f)
}

#[cycle(print_pretty)]
#[inline(never)]
fn write_enum<'a, 'n, W: fmt::Write>(
    node: &NamedEnum<'a, 'n>,
    level: usize,
    f: &mut fmt::Formatter<W>,
) -> fmt::Result
    ensures { WritesStyledOnOk W.write_str_gives f.old result
        (pretty level (image (enum_tree node.now))) f.new }
{
    f.write_str(node.name.as_str())?;
    f.write_str("::")?;
    f.write_str(node.variant.as_str())?;
    write_data(&node.data, level, f)
}

/// Writes what follows the name of a struct or a variant.
#[cycle(print_pretty)]
#[inline(always)]
fn write_data<'a, 'n, W: fmt::Write>(
    inside: &NamedData<'a, 'n>,
    level: usize,
    f: &mut fmt::Formatter<W>,
) -> fmt::Result
    ensures { WritesStyledOnOk W.write_str_gives f.old result
        (pretty_data level (image_data (tree_data_of inside.now))) f.new }
{
    match inside {
        NamedData::Unit => Ok(()),
        NamedData::NewType { value } => write_held("(", value, level, f),
        NamedData::Tuple { values } => write_list("(", values, ")", level, f),
        NamedData::Struct { fields } => write_named(fields, level, f),
    }
}

#[cycle(print_pretty)]
#[inline(never)]
fn write_named<'a, 'n, W: fmt::Write>(
    fields: &Vec<(CowStr<'n>, NamedValue<'a, 'n>)>,
    level: usize,
    f: &mut fmt::Formatter<W>,
) -> fmt::Result
    ensures { let images = image_fields (fields_view fields.now.items) in
        WritesStyledOnOk W.write_str_gives f.old result (pretty_data level (named images)) f.new }
{
    if are_short_fields(fields) {
        return value::write_named(fields, f);
    }
    f.write_str(" {")?;
    write_fields(fields, level.saturating_add(1), f)?;
    write_line(level, f)?;
    f.write_str("}")
}

/// Writes what leads to an item, nothing or a comma, a new line, and the item.
#[cycle(print_pretty)]
fn write_item<'a, 'n, W: fmt::Write>(
    lead: &str,
    item: &NamedValue<'a, 'n>,
    level: usize,
    f: &mut fmt::Formatter<W>,
) -> fmt::Result
    ensures { WritesStyledOnOk W.write_str_gives f.old result
        (lead.now ++ (line level ++ pretty level (image (tree_of item.now)))) f.new }
{
    f.write_str(lead)?;
    write_line(level, f)?;
    write_value(item, level, f)
}

#[cycle(print_pretty)]
fn write_items<'a, 'n, W: fmt::Write>(
    items: &Vec<NamedValue<'a, 'n>>,
    level: usize,
    f: &mut fmt::Formatter<W>,
) -> fmt::Result
    ensures { WritesStyledOnOk W.write_str_gives f.old result
        (pretty_list level [] (image_each (trees_view items.now.items))) f.new }
{
    let mut lead = "";
    for item in items {
        write_item(lead, item, level, f)?;
        lead = ",";
    }
    Ok(())
}

/// Writes the value of a pair.
#[cycle(print_pretty)]
fn write_paired<'a, 'n, W: fmt::Write>(
    value: &NamedValue<'a, 'n>,
    level: usize,
    f: &mut fmt::Formatter<W>,
) -> fmt::Result
    ensures { WritesStyledOnOk W.write_str_gives f.old result
        (codes ": " ++ pretty level (image (tree_of value.now))) f.new }
{
    f.write_str(": ")?;
    write_value(value, level, f)
}

#[cycle(print_pretty)]
fn write_pairs<'a, 'n, W: fmt::Write>(
    pairs: &Vec<(NamedValue<'a, 'n>, NamedValue<'a, 'n>)>,
    level: usize,
    f: &mut fmt::Formatter<W>,
) -> fmt::Result
    ensures { WritesStyledOnOk W.write_str_gives f.old result
        (pretty_pairs level [] (image_pairs (pairs_view pairs.now.items))) f.new }
{
    let mut lead = "";
    for (key, value) in pairs {
        write_item(lead, key, level, f)?;
        write_paired(value, level, f)?;
        lead = ",";
    }
    Ok(())
}

/// Writes a field: what leads to it, a new line, the key as it is and the value.
#[cycle(print_pretty)]
fn write_field<'a, 'n, W: fmt::Write>(
    lead: &str,
    key: &CowStr<'n>,
    value: &NamedValue<'a, 'n>,
    level: usize,
    f: &mut fmt::Formatter<W>,
) -> fmt::Result
    ensures { WritesStyledOnOk W.write_str_gives f.old result
        ((lead.now ++ (line level ++ (text_content key.now ++ codes ": ")))
        ++ pretty level (image (tree_of value.now))) f.new }
{
    write_key(lead, key, level, f)?;
    write_value(value, level, f)
}

/// Writes what leads to a field, a new line, and its key.
fn write_key<'n, W: fmt::Write>(
    lead: &str,
    key: &CowStr<'n>,
    level: usize,
    f: &mut fmt::Formatter<W>,
) -> fmt::Result
    ensures { WritesStyledOnOk W.write_str_gives f.old result
        (lead.now ++ (line level ++ (text_content key.now ++ codes ": "))) f.new }
{
    f.write_str(lead)?;
    write_line(level, f)?;
    f.write_str(key.as_str())?;
    f.write_str(": ")
}

#[cycle(print_pretty)]
fn write_fields<'a, 'n, W: fmt::Write>(
    fields: &Vec<(CowStr<'n>, NamedValue<'a, 'n>)>,
    level: usize,
    f: &mut fmt::Formatter<W>,
) -> fmt::Result
    ensures { WritesStyledOnOk W.write_str_gives f.old result
        (pretty_fields level [] (image_fields (fields_view fields.now.items))) f.new }
{
    let mut lead = "";
    for (key, value) in fields {
        write_field(lead, key, value, level, f)?;
        lead = ",";
    }
    Ok(())
}

/// Writes a new line, and two spaces a level.
fn write_line<W: fmt::Write>(level: usize, f: &mut fmt::Formatter<W>) -> fmt::Result
    ensures { WritesStyledOnOk W.write_str_gives f.old result (line level) f.new }
{
    f.write_str("\n")?;
    write_indent(level, f)
}

fn write_indent<W: fmt::Write>(level: usize, f: &mut fmt::Formatter<W>) -> fmt::Result
    ensures { WritesStyledOnOk W.write_str_gives f.old result (indent level) f.new }
{
    let mut left = level;
    while left > 0 {
        f.write_str("  ")?;
        left -= 1;
    }
    Ok(())
}

/// Whether nothing is inside the value.
fn is_leaf(value: &NamedValue<'_, '_>) -> bool
    ensures { result ≡ is_leaf (image (tree_of value.now)) }
{
    match value {
        NamedValue::Seq(_) | NamedValue::Map(_) | NamedValue::Tuple(_) => false,
        NamedValue::Option(held) => held.is_none(),
        NamedValue::Struct(node) => holds_nothing(&node.data),
        NamedValue::Enum(node) => holds_nothing(&node.data),
        _ => true,
    }
}

/// Whether a struct or a variant holds nothing.
fn holds_nothing(inside: &NamedData<'_, '_>) -> bool
    ensures { result ≡ holds_nothing (image_data (tree_data_of inside.now)) }
{
    matches!(inside, NamedData::Unit)
}

/// Whether there is no item, or one with nothing inside.
fn is_short(items: &[NamedValue<'_, '_>]) -> bool
    ensures { result ≡ is_short (image_each (trees_view items.now)) }
{
    match items {
        [] => true,
        [item] => is_leaf(item),
        _ => false,
    }
}

/// Whether there is no pair, or one with nothing inside.
fn are_short_pairs<'a, 'n>(pairs: &[(NamedValue<'a, 'n>, NamedValue<'a, 'n>)]) -> bool
    ensures { result ≡ are_short_pairs (image_pairs (pairs_view pairs.now)) }
{
    match pairs {
        [] => true,
        [(key, value)] => is_leaf(key) && is_leaf(value),
        _ => false,
    }
}

/// Whether there is no field, or one with nothing inside.
fn are_short_fields<'a, 'n>(fields: &[(CowStr<'n>, NamedValue<'a, 'n>)]) -> bool
    ensures { result ≡ are_short_fields (image_fields (fields_view fields.now)) }
{
    match fields {
        [] => true,
        [(_key, value)] => is_leaf(value),
        _ => false,
    }
}
