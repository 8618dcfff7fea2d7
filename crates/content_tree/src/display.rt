//! The printed text of images. That of values is a walk of its own, `display/value.rt`, over
//! another type; both print leaves by the functions here.

#![tactic(auto, using(crate::proofs::Printing::two_writes, crate::proofs::Printing::three_writes, crate::proofs::Printing::four_writes))]

ghost use Rattle.std.specs.Prelude.{Some, string_bytes, codes, encode_utf8, ◌++◌, []};
ghost use Rattle.std.specs.Fmt.{WritesStyledOnOk, DisplaysStyledOnOk, decimal};
ghost use Rattle.content_tree.specs.Printed.Images.{printed, printed_data, printed_list};
ghost use Rattle.content_tree.specs.Printed.Images.{printed_pairs, printed_fields, byte_list};
ghost use Rattle.content_tree.specs.Printed.Images.{number_text};
ghost use Rattle.content_tree.specs.Images.Image.{named};
ghost use Rattle.content_tree.specs.Images.Found.{image_view, image_data_view, images_view};
ghost use Rattle.content_tree.specs.Images.Found.{image_pairs_view, image_fields_view, held_image};

use crate::found::{Found, FoundData};
use crate::number::Number;
use crate::quote::write_quoted;
use std::fmt;
use std::fmt::Write;

mod pretty;
mod value;

pub use pretty::PrettyDisplay;
pub use value::ValueDisplay;

/// Prints an image as `serde-content` does: `Foo::Bar(true, 'a')`, `{ "k": 1u8 }`. Names, field
/// names and characters aren't escaped.
impl fmt::Display for Found {
    ghost output = { λ f. Some (printed (image_view f)) };

    ghost styled_output = { λ f _options. Some (printed (image_view f)) };

    fn fmt<W: fmt::Write>(&self, f: &mut fmt::Formatter<W>) -> fmt::Result {
        write_found(self, f)
    }
}

#[cycle(print)]
fn write_found<W: fmt::Write>(found: &Found, f: &mut fmt::Formatter<W>) -> fmt::Result
    ensures { WritesStyledOnOk W.write_str_gives f.old result
        (printed (image_view found.now)) f.new }
{
    match found {
        Found::Unit => f.write_str("()"),
        Found::Bool(boolean) => f.write_str(if *boolean { "true" } else { "false" }),
        Found::Number(n) => write_number(n, f),
        Found::Char(character) => write_character(*character, f),
        Found::String(text) => write_quoted(text.as_str(), f),
        Found::Bytes(bytes) => write_bytes(bytes.as_slice(), f),
        Found::Seq(items) => write_list("[", items, "]", f),
        Found::Map(pairs) => write_map(pairs, f),
        Found::Option(held) => write_held(held, f),
        Found::Struct { name, data } => write_struct(name, data, f),
        Found::Enum {
            name,
            variant,
            data,
        } => write_enum(name, variant, data, f),
        Found::Tuple(items) => write_list("(", items, ")", f),
        Found::Identifier(text) => f.write_str(text.as_str()),
    }
}

#[cycle(print)]
fn write_held<W: fmt::Write>(held: &Option<Box<Found>>, f: &mut fmt::Formatter<W>) -> fmt::Result
    ensures { WritesStyledOnOk W.write_str_gives f.old result
        (printed (held_image held.now)) f.new }
{
    match held {
        None => f.write_str("None"),
        Some(found) => {
            f.write_str("Some(")?;
            write_found(found, f)?;
            f.write_str(")")
        }
    }
}

#[cycle(print)]
fn write_list<W: fmt::Write>(
    before: &str,
    items: &Vec<Found>,
    after: &str,
    f: &mut fmt::Formatter<W>,
) -> fmt::Result
    ensures { WritesStyledOnOk W.write_str_gives f.old result
        (before.now ++ (printed_list [] (images_view items.now.items) ++ after.now)) f.new }
{
    f.write_str(before)?;
    write_items(items, f)?;
    f.write_str(after)
}

#[cycle(print)]
fn write_map<W: fmt::Write>(pairs: &Vec<(Found, Found)>, f: &mut fmt::Formatter<W>) -> fmt::Result
    ensures { WritesStyledOnOk W.write_str_gives f.old result
        (codes "{ " ++ (printed_pairs [] (image_pairs_view pairs.now.items) ++ codes " }")) f.new }
{
    f.write_str("{ ")?;
    write_pairs(pairs, f)?;
    f.write_str(" }")
}

#[cycle(print)]
fn write_newtype<W: fmt::Write>(value: &Found, f: &mut fmt::Formatter<W>) -> fmt::Result
    ensures { WritesStyledOnOk W.write_str_gives f.old result
        (codes "(" ++ (printed (image_view value.now) ++ codes ")")) f.new }
{
    f.write_str("(")?;
    write_found(value, f)?;
    f.write_str(")")
}

#[cycle(print)]
fn write_struct<W: fmt::Write>(
    name: &String,
    inside: &FoundData,
    f: &mut fmt::Formatter<W>,
) -> fmt::Result
    ensures { WritesStyledOnOk W.write_str_gives f.old result
        (string_bytes name.now ++ printed_data (image_data_view inside.now)) f.new }
{
    f.write_str(name.as_str())?;
    write_data(inside, f)
}

#[cycle(print)]
fn write_enum<W: fmt::Write>(
    name: &String,
    variant: &String,
    inside: &FoundData,
    f: &mut fmt::Formatter<W>,
) -> fmt::Result
    ensures { WritesStyledOnOk W.write_str_gives f.old result
        (string_bytes name.now ++ (codes "::"
        ++ (string_bytes variant.now ++ printed_data (image_data_view inside.now)))) f.new }
{
    f.write_str(name.as_str())?;
    f.write_str("::")?;
    write_struct(variant, inside, f)
}

/// Writes what follows the name of a struct or a variant.
#[cycle(print)]
fn write_data<W: fmt::Write>(inside: &FoundData, f: &mut fmt::Formatter<W>) -> fmt::Result
    ensures { WritesStyledOnOk W.write_str_gives f.old result
        (printed_data (image_data_view inside.now)) f.new }
{
    match inside {
        FoundData::Unit => Ok(()),
        FoundData::NewType(value) => write_newtype(value, f),
        FoundData::Tuple(items) => write_list("(", items, ")", f),
        FoundData::Struct(fields) => write_named(fields, f),
    }
}

#[cycle(print)]
fn write_named<W: fmt::Write>(
    fields: &Vec<(String, Found)>,
    f: &mut fmt::Formatter<W>,
) -> fmt::Result
    ensures { WritesStyledOnOk W.write_str_gives f.old result
        (printed_data (named (image_fields_view fields.now.items))) f.new }
{
    f.write_str(" { ")?;
    write_fields(fields, f)?;
    f.write_str(" }")
}

/// Writes what leads to an item, nothing or a comma, and the item.
#[cycle(print)]
fn write_item<W: fmt::Write>(lead: &str, item: &Found, f: &mut fmt::Formatter<W>) -> fmt::Result
    ensures { WritesStyledOnOk W.write_str_gives f.old result
        (lead.now ++ printed (image_view item.now)) f.new }
{
    f.write_str(lead)?;
    write_found(item, f)
}

/// Writes what leads to a field, its key as it is, and its value.
#[cycle(print)]
fn write_field<W: fmt::Write>(
    lead: &str,
    key: &String,
    value: &Found,
    f: &mut fmt::Formatter<W>,
) -> fmt::Result
    ensures { WritesStyledOnOk W.write_str_gives f.old result
        (lead.now ++ (string_bytes key.now ++ (codes ": " ++ printed
        (image_view value.now)))) f.new }
{
    f.write_str(lead)?;
    f.write_str(key.as_str())?;
    f.write_str(": ")?;
    write_found(value, f)
}

fn write_byte<W: fmt::Write>(lead: &str, byte: u8, f: &mut fmt::Formatter<W>) -> fmt::Result
    ensures { WritesStyledOnOk W.write_str_gives f.old result (lead.now ++ decimal byte) f.new }
{
    f.write_str(lead)?;
    write_bare(byte, f)
}

#[cycle(print)]
fn write_items<W: fmt::Write>(items: &Vec<Found>, f: &mut fmt::Formatter<W>) -> fmt::Result
    ensures { WritesStyledOnOk W.write_str_gives f.old result
        (printed_list [] (images_view items.now.items)) f.new }
{
    let mut lead = "";
    for item in items {
        write_item(lead, item, f)?;
        lead = ", ";
    }
    Ok(())
}

#[cycle(print)]
fn write_pairs<W: fmt::Write>(pairs: &Vec<(Found, Found)>, f: &mut fmt::Formatter<W>) -> fmt::Result
    ensures { WritesStyledOnOk W.write_str_gives f.old result
        (printed_pairs [] (image_pairs_view pairs.now.items)) f.new }
{
    let mut lead = "";
    for (key, value) in pairs {
        write_item(lead, key, f)?;
        write_item(": ", value, f)?;
        lead = ", ";
    }
    Ok(())
}

#[cycle(print)]
fn write_fields<W: fmt::Write>(
    fields: &Vec<(String, Found)>,
    f: &mut fmt::Formatter<W>,
) -> fmt::Result
    ensures { WritesStyledOnOk W.write_str_gives f.old result
        (printed_fields [] (image_fields_view fields.now.items)) f.new }
{
    let mut lead = "";
    for (key, value) in fields {
        write_field(lead, key, value, f)?;
        lead = ", ";
    }
    Ok(())
}

pub(crate) fn write_bytes<W: fmt::Write>(bytes: &[u8], f: &mut fmt::Formatter<W>) -> fmt::Result
    ensures { WritesStyledOnOk W.write_str_gives f.old result
        (codes "&[" ++ (byte_list [] bytes.now ++ codes "]")) f.new }
{
    f.write_str("&[")?;
    write_byte_list(bytes, f)?;
    f.write_str("]")
}

fn write_byte_list<W: fmt::Write>(bytes: &[u8], f: &mut fmt::Formatter<W>) -> fmt::Result
    ensures { WritesStyledOnOk W.write_str_gives f.old result (byte_list [] bytes.now) f.new }
{
    let mut lead = "";
    for byte in bytes {
        write_byte(lead, *byte, f)?;
        lead = ", ";
    }
    Ok(())
}

pub(crate) fn write_character<W: fmt::Write>(
    character: char,
    f: &mut fmt::Formatter<W>,
) -> fmt::Result
    ensures { WritesStyledOnOk W.write_str_gives f.old result
        (codes "'" ++ (encode_utf8 character ++ codes "'")) f.new }
{
    f.write_str("'")?;
    f.write_char(character)?;
    f.write_str("'")
}

/// Writes a short text of at most 64 bytes as `{}` does, whatever the options of the formatter.
pub(crate) fn write_bare<W: fmt::Write, T: fmt::Display + Drop>(
    shown: T,
    f: &mut fmt::Formatter<W>,
) -> fmt::Result
    ensures { DisplaysStyledOnOk W.write_str_gives f.old result (T.output shown) f.new }
{
    let mut text = fmt::InlineText::<64>::new();
    text.write(shown)?;
    f.write_str(text.as_str())
}

/// Writes a number in decimal, with its kind at once.
pub(crate) fn write_number<W: fmt::Write>(number: &Number, f: &mut fmt::Formatter<W>) -> fmt::Result
    ensures { WritesStyledOnOk W.write_str_gives f.old result (number_text number.now) f.new }
{
    match number {
        Number::I8(n) => write_bare(format_args!("{n}i8"), f),
        Number::U8(n) => write_bare(format_args!("{n}u8"), f),
        Number::I16(n) => write_bare(format_args!("{n}i16"), f),
        Number::U16(n) => write_bare(format_args!("{n}u16"), f),
        Number::I32(n) => write_bare(format_args!("{n}i32"), f),
        Number::U32(n) => write_bare(format_args!("{n}u32"), f),
        Number::I64(n) => write_bare(format_args!("{n}i64"), f),
        Number::U64(n) => write_bare(format_args!("{n}u64"), f),
        Number::I128(n) => write_bare(format_args!("{n}i128"), f),
        Number::U128(n) => write_bare(format_args!("{n}u128"), f),
    }
}
