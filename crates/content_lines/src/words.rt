//! The words of lines.

ghost use Rattle.std.specs.Option.{option_map};
ghost use Rattle.serde_content.specs.Names.Event as event;
ghost use Rattle.content_lines.specs.Forms.{named_length_of, variant_of, variant_length_of};
ghost use Rattle.content_lines.specs.Words.{of_named, of_number, of_phrase, of_word};
ghost use Rattle.content_lines.specs.Views.{Reads, Spells};

use crate::forms::{
    read_bool, read_bytes, read_char, read_name, read_named_length, read_variant,
    read_variant_length,
};
use crate::line::{Line, Variant, line_of};
use crate::numbers;
use serde_content::ser::Call;
use serde_content::{CowStr, Number};

/// The call of a line of one word.
pub fn read_word<'a>(word: &str) -> Option<Call<'a>>
    ensures { Spells result (of_word word.now) }
{
    match word {
        "unit" => Some(Call::Unit),
        "none" => Some(Call::NoneCall),
        "some" => Some(Call::SomeCall),
        "seq" => Some(Call::Seq(None)),
        "map" => Some(Call::Map(None)),
        "element" => Some(Call::Element),
        "tuple_field" => Some(Call::TupleField),
        "key" => Some(Call::Key),
        "value" => Some(Call::Value),
        "entry" => Some(Call::Entry),
        "end" => Some(Call::End),
        _ => None,
    }
}

/// A line of a word, a space and its arguments.
pub fn read_phrase<'a>(word: &str, rest: &'a str) -> Option<Line<'a>>
    ensures { Reads result (of_phrase word.now rest.now) }
{
    match word {
        "bool" => Some(Line::Call(Call::Bool(read_bool(rest)?))),
        "char" => Some(Line::Call(Call::Char(read_char(rest)?))),
        "str" => Some(Line::Call(Call::Str(CowStr::Borrowed(rest)))),
        "bytes" => Some(Line::Bytes(read_bytes(rest)?)),
        _ => line_of(read_number(word, rest)),
    }
}

/// The call of a line of a kind of numbers, a space and a number, or else a named one.
fn read_number<'a>(word: &str, rest: &str) -> Option<Call<'a>>
    ensures { Spells result (of_number word.now rest.now) }
{
    match word {
        "i8" => Some(Call::Number(Number::I8(numbers::read_i8(rest)?))),
        "u8" => Some(Call::Number(Number::U8(numbers::read_u8(rest)?))),
        "i16" => Some(Call::Number(Number::I16(numbers::read_i16(rest)?))),
        "u16" => Some(Call::Number(Number::U16(numbers::read_u16(rest)?))),
        "i32" => Some(Call::Number(Number::I32(numbers::read_i32(rest)?))),
        "u32" => Some(Call::Number(Number::U32(numbers::read_u32(rest)?))),
        "i64" => Some(Call::Number(Number::I64(numbers::read_i64(rest)?))),
        "u64" => Some(Call::Number(Number::U64(numbers::read_u64(rest)?))),
        "i128" => Some(Call::Number(Number::I128(numbers::read_i128(rest)?))),
        "u128" => Some(Call::Number(Number::U128(numbers::read_u128(rest)?))),
        _ => read_named(word, rest),
    }
}

/// The call of a line of a word that opens, names or announces, a space and its arguments.
fn read_named<'a>(word: &str, rest: &str) -> Option<Call<'a>>
    ensures { Spells result (of_named word.now rest.now) }
{
    match word {
        "unit_struct" => Some(Call::UnitStruct(read_name(rest)?)),
        "newtype_struct" => Some(Call::NewtypeStruct(read_name(rest)?)),
        "unit_variant" => read_unit_variant(rest),
        "newtype_variant" => read_newtype_variant(rest),
        "seq" => Some(Call::Seq(Some(numbers::read_usize(rest)?))),
        "map" => Some(Call::Map(Some(numbers::read_usize(rest)?))),
        "tuple" => Some(Call::Tuple(numbers::read_usize(rest)?)),
        "tuple_struct" => read_tuple_struct(rest),
        "tuple_variant" => read_tuple_variant(rest),
        "struct" => read_struct(rest),
        "struct_variant" => read_struct_variant(rest),
        "field" => Some(Call::Field(read_name(rest)?)),
        _ => None,
    }
}

fn read_unit_variant<'a>(text: &str) -> Option<Call<'a>>
    ensures { Spells result (option_map (λ v. event.unit_variant v.name v.index v.variant)
        (variant_of text.now)) }
{
    let Variant {
        name,
        index,
        variant,
    } = read_variant(text)?;
    Some(Call::UnitVariant(name, index, variant))
}

fn read_newtype_variant<'a>(text: &str) -> Option<Call<'a>>
    ensures { Spells result (option_map (λ v. event.newtype_variant v.name v.index v.variant)
        (variant_of text.now)) }
{
    let Variant {
        name,
        index,
        variant,
    } = read_variant(text)?;
    Some(Call::NewtypeVariant(name, index, variant))
}

fn read_tuple_struct<'a>(text: &str) -> Option<Call<'a>>
    ensures { Spells result (option_map (λ p. event.tuple_struct p.0 p.1)
        (named_length_of text.now)) }
{
    let (name, len) = read_named_length(text)?;
    Some(Call::TupleStruct(name, len))
}

fn read_tuple_variant<'a>(text: &str) -> Option<Call<'a>>
    ensures { Spells result (option_map (λ p. event.tuple_variant p.0.name p.0.index p.0.variant
        p.1) (variant_length_of text.now)) }
{
    let (
        Variant {
            name,
            index,
            variant,
        },
        len,
    ) = read_variant_length(text)?;
    Some(Call::TupleVariant(name, index, variant, len))
}

fn read_struct<'a>(text: &str) -> Option<Call<'a>>
    ensures { Spells result (option_map (λ p. event.structure p.0 p.1) (named_length_of text.now)) }
{
    let (name, len) = read_named_length(text)?;
    Some(Call::Struct(name, len))
}

fn read_struct_variant<'a>(text: &str) -> Option<Call<'a>>
    ensures { Spells result (option_map (λ p. event.struct_variant p.0.name p.0.index p.0.variant
        p.1) (variant_length_of text.now)) }
{
    let (
        Variant {
            name,
            index,
            variant,
        },
        len,
    ) = read_variant_length(text)?;
    Some(Call::StructVariant(name, index, variant, len))
}
