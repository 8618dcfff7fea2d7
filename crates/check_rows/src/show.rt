//! Trees as rows have them, with the case of each text, byte value and name.

use crate::answer::Answer;
use crate::number::write_number;
use serde_content::{
    CowBytes, CowStr, NamedData, NamedEnum, NamedStruct, NamedValue, Result, Value,
};

/// Adds a character as in quotes: one outside 32 to 126, a backslash and this quote are escaped.
fn write_escaped(out: &mut Answer, character: char, quote: char) {
    let escape = match character {
        '\\' => "\\\\",
        '\t' => "\\t",
        '\n' => "\\n",
        '\r' => "\\r",
        '\0' => "\\0",
        '"' if quote == '"' => "\\\"",
        ' '..='~' => return out.push(character),
        _ => {
            let code = u32::from(character);
            return out.print(format_args!("\\u{{{code:x}}}"));
        }
    };
    out.push_str(escape);
}

/// Adds a text in quotes, after the letter of its case.
pub fn write_quoted(out: &mut Answer, case: char, text: &str) {
    out.push(case);
    out.push('"');
    for character in text.chars() {
        write_escaped(out, character, '"');
    }
    out.push('"');
}

/// Adds a text and its case, of which the borrowed one has this letter.
pub fn write_text(out: &mut Answer, borrowed: char, text: &CowStr<'_>) {
    let case = if text.is_borrowed() { borrowed } else { 'o' };
    write_quoted(out, case, text.as_str());
}

/// Adds bytes and their case.
pub fn write_bytes(out: &mut Answer, bytes: &CowBytes<'_>) {
    out.push_str(if bytes.is_borrowed() { "b[" } else { "o[" });
    for (place, byte) in bytes.as_bytes().iter().enumerate() {
        write_comma(out, place);
        out.print(*byte);
    }
    out.push(']');
}

/// Adds what parts the item at this place from the one before it.
pub fn write_comma(out: &mut Answer, place: usize) {
    if place > 0 {
        out.push_str(", ");
    }
}

/// Adds a tree, which is then dropped.
pub fn write_whole(out: &mut Answer, value: NamedValue<'_, '_>) {
    write_tree(out, &value);
}

/// Adds a tree, or what becomes one, that the library gave.
pub fn write_given<'a, T: Into<Value<'a>>>(out: &mut Answer, given: Result<T>) {
    if let Some(given) = out.given(given) {
        write_whole(out, given.into());
    }
}

/// Adds a tree.
#[cycle(show)]
pub fn write_tree(out: &mut Answer, value: &NamedValue<'_, '_>) {
    match value {
        NamedValue::Unit => out.push_str("()"),
        NamedValue::Bool(true) => out.push_str("true"),
        NamedValue::Bool(false) => out.push_str("false"),
        NamedValue::Number(number) => write_number(out, *number),
        NamedValue::Char(character) => {
            out.push('\'');
            write_escaped(out, *character, '\'');
            out.push('\'');
        }
        NamedValue::String(text) => write_text(out, 'b', text),
        NamedValue::Bytes(bytes) => write_bytes(out, bytes),
        NamedValue::Seq(items) => write_items(out, "Seq[", items.as_slice()),
        NamedValue::Tuple(items) => write_items(out, "Tuple[", items.as_slice()),
        NamedValue::Map(pairs) => write_pairs(out, "Map{", pairs.as_slice()),
        NamedValue::Option(None) => out.push_str("None"),
        NamedValue::Option(Some(held)) => write_held(out, "Some(", held),
        NamedValue::Struct(inner) => write_struct(out, inner),
        NamedValue::Enum(inner) => write_enum(out, inner),
    }
}

#[cycle(show)]
fn write_held(out: &mut Answer, opening: &str, held: &NamedValue<'_, '_>) {
    out.push_str(opening);
    write_tree(out, held);
    out.push(')');
}

/// Adds trees, after this opening.
#[cycle(show)]
pub fn write_items(out: &mut Answer, opening: &str, items: &[NamedValue<'_, '_>]) {
    out.push_str(opening);
    for (place, item) in items.iter().enumerate() {
        write_comma(out, place);
        write_tree(out, item);
    }
    out.push(']');
}

/// Adds pairs of trees, after this opening.
#[cycle(show)]
pub fn write_pairs(
    out: &mut Answer,
    opening: &str,
    pairs: &[(NamedValue<'_, '_>, NamedValue<'_, '_>)],
) {
    out.push_str(opening);
    for (place, (key, value)) in pairs.iter().enumerate() {
        write_comma(out, place);
        write_tree(out, key);
        out.push_str(" => ");
        write_tree(out, value);
    }
    out.push('}');
}

#[cycle(show)]
fn write_fields(out: &mut Answer, fields: &Vec<(CowStr<'_>, NamedValue<'_, '_>)>) {
    out.push_str("Fields{");
    for (place, (key, value)) in fields.iter().enumerate() {
        write_comma(out, place);
        write_text(out, 's', key);
        out.push_str(": ");
        write_tree(out, value);
    }
    out.push('}');
}

/// Adds a struct.
#[cycle(show)]
pub fn write_struct(out: &mut Answer, inner: &NamedStruct<'_, '_>) {
    out.push_str("Struct(");
    write_text(out, 's', &inner.name);
    out.push_str(", ");
    write_data(out, &inner.data);
    out.push(')');
}

/// Adds a variant of an enum.
#[cycle(show)]
pub fn write_enum(out: &mut Answer, inner: &NamedEnum<'_, '_>) {
    out.push_str("Enum(");
    write_text(out, 's', &inner.name);
    out.push_str(", ");
    out.print(inner.variant_index);
    out.push_str(", ");
    write_text(out, 's', &inner.variant);
    out.push_str(", ");
    write_data(out, &inner.data);
    out.push(')');
}

/// Adds what a struct or a variant holds.
#[cycle(show)]
pub fn write_data(out: &mut Answer, data: &NamedData<'_, '_>) {
    match data {
        NamedData::Unit => out.push_str("Unit"),
        NamedData::NewType { value } => write_held(out, "NewType(", value),
        NamedData::Tuple { values } => write_items(out, "Tuple[", values.as_slice()),
        NamedData::Struct { fields } => write_fields(out, fields),
    }
}
