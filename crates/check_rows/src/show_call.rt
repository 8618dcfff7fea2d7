//! Lists of calls as rows have them.

use crate::answer::Answer;
use crate::number::{kind_word, write_digits};
use crate::printable::write_listed;
use serde_content::ser::Call;

/// Adds the calls, parted by a semicolon and a space.
pub fn write_calls(out: &mut Answer, calls: &[Call<'_>]) {
    for (place, call) in calls.iter().enumerate() {
        if place > 0 {
            out.push_str("; ");
        }
        write_call(out, call);
    }
}

/// Adds a call.
pub fn write_call(out: &mut Answer, call: &Call<'_>) {
    match call {
        Call::Bool(flag) => out.push_str(if *flag { "bool true" } else { "bool false" }),
        Call::Number(number) => {
            out.push_str(kind_word(*number));
            out.push(' ');
            write_digits(out, *number);
        }
        Call::Char(character) => write_char(out, *character),
        Call::Str(text) => {
            out.push_str("str ");
            write_listed(out, text.as_str());
        }
        Call::Bytes(bytes) => write_bytes(out, bytes.as_bytes()),
        Call::Seq(hint) => write_hint(out, "seq", *hint),
        Call::Map(hint) => write_hint(out, "map", *hint),
        Call::Tuple(length) => write_hint(out, "tuple", Some(*length)),
        Call::Field(key) => out.print(format_args!("field {key}")),
        Call::UnitStruct(name) => out.print(format_args!("unit_struct {name}")),
        Call::NewtypeStruct(name) => out.print(format_args!("newtype_struct {name}")),
        Call::TupleStruct(name, n) => out.print(format_args!("tuple_struct {name} {n}")),
        Call::Struct(name, n) => out.print(format_args!("struct {name} {n}")),
        Call::UnitVariant(name, i, variant) => write_variant(out, "unit", name, *i, variant),
        Call::NewtypeVariant(name, i, variant) => write_variant(out, "newtype", name, *i, variant),
        Call::TupleVariant(name, i, variant, n) => {
            write_variant(out, "tuple", name, *i, variant);
            out.print(format_args!(" {n}"));
        }
        Call::StructVariant(name, i, variant, n) => {
            write_variant(out, "struct", name, *i, variant);
            out.print(format_args!(" {n}"));
        }
        _ => out.push_str(word_of(call)),
    }
}

/// The word of a call that tells nothing more.
fn word_of(call: &Call<'_>) -> &'static str {
    match call {
        Call::Unit => "unit",
        Call::NoneCall => "none",
        Call::SomeCall => "some",
        Call::Element => "element",
        Call::TupleField => "tuple_field",
        Call::Key => "key",
        Call::Value => "value",
        Call::Entry => "entry",
        Call::End => "end",
        _ => "",
    }
}

/// Adds the call of a variant of this sort, but for its length.
fn write_variant(out: &mut Answer, sort: &str, name: &str, index: u32, variant: &str) {
    out.print(format_args!("{sort}_variant {name} {index} {variant}"));
}

/// Adds the call of a character.
fn write_char(out: &mut Answer, character: char) {
    out.push_str("char ");
    write_listed(out, character.encode_utf8(&mut [0; 4]));
}

/// Adds the call of bytes.
fn write_bytes(out: &mut Answer, bytes: &[u8]) {
    out.push_str("bytes ");
    for byte in bytes {
        out.print(format_args!("{byte:02x}"));
    }
}

/// Adds a word, and a length where there is one.
fn write_hint(out: &mut Answer, word: &str, hint: Option<usize>) {
    out.push_str(word);
    if let Some(length) = hint {
        out.print(format_args!(" {length}"));
    }
}
