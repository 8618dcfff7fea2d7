//! Values written in rows.

use crate::run::Row;
use content_lines::read_line;
use serde_content::ser::{Builder, Call, Serializer as _};
use serde_content::{CowStr, ErrorKind, Number, Result, Value};
use std::alloc::Global;

/// The names that calls may have.
static NAMES: [&'static str; 13] = [
    "Code",
    "Place",
    "Point",
    "Step",
    "Stop",
    "left",
    "moved-by",
    "open",
    "streetName",
    "weighed",
    "with",
    "x",
    "y",
];

/// What a token says that is no key and closes nothing.
fn call_of(token: &str) -> Call<'_> {
    if let Ok(number) = token.parse::<u64>() {
        return Call::Number(Number::U64(number));
    }
    if let Ok(number) = token.parse::<i64>() {
        return Call::Number(Number::I64(number));
    }
    if let Some(text) = token.strip_prefix('\'') {
        return Call::Char(text.chars().next().unwrap_or('?'));
    }
    match token {
        "{" => Call::Map(None),
        "[" => Call::Seq(None),
        "null" => Call::NoneCall,
        "true" => Call::Bool(true),
        "false" => Call::Bool(false),
        text => Call::Str(CowStr::Borrowed(text)),
    }
}

/// Makes the calls of a token. A value is an item of a sequence where it follows no key; says
/// whether the next one would be.
fn put(builder: &mut Builder<'_>, token: &str, is_item: bool) -> Result<bool> {
    if let Some(key) = token.strip_suffix(':') {
        builder.serialize_entry()?;
        builder.call(call_of(key))?;
        return Ok(false);
    }
    if token == "}" || token == "]" {
        builder.end()?;
        return Ok(true);
    }
    if is_item {
        builder.serialize_element()?;
    }
    builder.call(call_of(token))?;
    Ok(true)
}

/// Makes the calls of a text, with the other tokens in place of each token that is this one.
fn put_text(builder: &mut Builder<'_>, text: &str, token: &str, others: &str) -> Result<()> {
    let mut is_item = false;
    for word in text.split_whitespace() {
        let word = word.strip_suffix(',').unwrap_or(word);
        let words = if word == token { others } else { word };
        for word in words.split_whitespace() {
            let word = word.strip_suffix(',').unwrap_or(word);
            is_item = put(builder, word, is_item)?;
        }
    }
    Ok(())
}

/// The same name, for as long as the program runs, where calls may have it.
fn static_name(name: &str) -> Option<&'static str> {
    NAMES.iter().copied().find(|known| *known == name)
}

/// The call with a name that a line spells, if it does.
fn named_call(line: &str) -> Option<Call<'static>> {
    let mut words = line.split(' ');
    let word = words.next()?;
    let name = static_name(words.next()?)?;
    match (word, words.next(), words.next(), words.next()) {
        ("field", None, _, _) => Some(Call::Field(name)),
        ("newtype_struct", None, _, _) => Some(Call::NewtypeStruct(name)),
        ("tuple_struct", Some(len), None, _) => Some(Call::TupleStruct(name, len.parse().ok()?)),
        ("struct", Some(len), None, _) => Some(Call::Struct(name, len.parse().ok()?)),
        ("unit_variant", Some(index), Some(variant), None) => {
            Some(Call::UnitVariant(name, index.parse().ok()?, static_name(variant)?))
        }
        ("newtype_variant", Some(index), Some(variant), None) => {
            Some(Call::NewtypeVariant(name, index.parse().ok()?, static_name(variant)?))
        }
        ("tuple_variant", Some(index), Some(variant), Some(len)) => Some(Call::TupleVariant(
            name,
            index.parse().ok()?,
            static_name(variant)?,
            len.parse().ok()?,
        )),
        ("struct_variant", Some(index), Some(variant), Some(len)) => Some(Call::StructVariant(
            name,
            index.parse().ok()?,
            static_name(variant)?,
            len.parse().ok()?,
        )),
        _ => None,
    }
}

/// Makes the calls of lines.
fn put_calls(builder: &mut Builder<'_>, alloc: Global, lines: &str) -> Result<()> {
    for line in lines.split("; ") {
        match named_call(line) {
            Some(call) => builder.call(call)?,
            None => {
                let line = read_line(line.as_bytes()).ok_or(ErrorKind::Unfinished)?;
                builder.call(line.into_call(alloc)?)?;
            }
        }
    }
    Ok(())
}

/// The value of a row.
pub fn value_of<'v>(alloc: Global, row: Row<'_>) -> Result<Value<'v>> {
    let mut builder = Builder::new(alloc, false);
    let put = match row.operation {
        "calls" | "coerced_calls" | "merge" => put_calls(&mut builder, alloc, row.source),
        "back" | "cbor" | "read" | "with" => {
            put_text(&mut builder, row.source, row.token, row.others)
        }
        _ => Err(ErrorKind::Unfinished.into()),
    };
    put?;
    builder.finish()
}
