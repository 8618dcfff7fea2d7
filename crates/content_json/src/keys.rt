//! Keys of maps.

ghost use Rattle.std.specs.Prelude.{◌≡◌, ◌++◌, OnOk, IfErr, None};
ghost use Rattle.std.specs.String.{string_bytes};
ghost use Rattle.content_tree.specs.Values.Value.{tree_of, tree_data_of};
ghost use Rattle.content_json.specs.Encoded.{IsRefusal};
ghost use Rattle.content_json.specs.Keys.{bad_key, bad_struct, key_text, struct_key};
ghost use Rattle.content_json.specs.Leaves.{boolean_text, number_text};
ghost use Rattle.content_json.specs.Strings.{in_quotes};

use crate::encode_error::{BadKey, EncodeError};
use crate::leaves::{write_bool, write_number};
use crate::strings::{write_char, write_text};
use content_tree::{NamedData, NamedValue, Number};
use std::alloc::AllocError;

/// Appends a key.
#[cycle(key)]
#[inline(never)]
pub(crate) fn write_key<'a, 'n>(
    key: &NamedValue<'a, 'n>,
    out: &mut String,
) -> Result<(), EncodeError>
    ensures value { OnOk result (string_bytes out.new ≡ string_bytes out.old
        ++ key_text (tree_of key.now)) }
    ensures fits { OnOk result (bad_key (tree_of key.now) ≡ None) }
    ensures refused { IfErr result (λ e. IsRefusal (bad_key (tree_of key.now)) e) }
{
    match key {
        NamedValue::String(text) => Ok(write_text(text.as_str(), out)?),
        NamedValue::Char(character) => Ok(write_char(*character, out)?),
        NamedValue::Bool(boolean) => Ok(write_bool_key(*boolean, out)?),
        NamedValue::Number(number) => Ok(write_number_key(*number, out)?),
        NamedValue::Option(Some(held)) => write_key(held, out),
        NamedValue::Struct(node) => write_struct_key(&node.data, out),
        NamedValue::Enum(node) => match &node.data {
            NamedData::Unit => Ok(write_text(node.variant.as_str(), out)?),
            _ => Err(EncodeError::Key(BadKey::Variant)),
        },
        NamedValue::Unit => Err(EncodeError::Key(BadKey::Unit)),
        NamedValue::Bytes(_) => Err(EncodeError::Key(BadKey::Bytes)),
        NamedValue::Seq(_) => Err(EncodeError::Key(BadKey::Seq)),
        NamedValue::Map(_) => Err(EncodeError::Key(BadKey::Map)),
        NamedValue::Option(None) => Err(EncodeError::Key(BadKey::None)),
        NamedValue::Tuple(_) => Err(EncodeError::Key(BadKey::Tuple)),
    }
}

/// Appends what a newtype struct holds, as a key.
#[cycle(key)]
#[inline(never)]
fn write_struct_key<'a, 'n>(inside: &NamedData<'a, 'n>, out: &mut String) -> Result<(), EncodeError>
    ensures value { OnOk result (string_bytes out.new ≡ string_bytes out.old
        ++ struct_key (tree_data_of inside.now)) }
    ensures fits { OnOk result (bad_struct (tree_data_of inside.now) ≡ None) }
    ensures refused { IfErr result (λ e. IsRefusal (bad_struct (tree_data_of inside.now)) e) }
{
    match inside {
        NamedData::NewType { value } => write_key(value, out),
        _ => Err(EncodeError::Key(BadKey::Struct)),
    }
}

/// Appends a boolean in quotes.
fn write_bool_key(boolean: bool, out: &mut String) -> Result<(), AllocError>
    ensures { OnOk result (string_bytes out.new ≡ string_bytes out.old
        ++ in_quotes (boolean_text boolean)) }
{
    out.push('"')?;
    write_bool(boolean, out)?;
    out.push('"')
}

/// Appends a number in quotes.
fn write_number_key(number: Number, out: &mut String) -> Result<(), AllocError>
    ensures { OnOk result (string_bytes out.new ≡ string_bytes out.old
        ++ in_quotes (number_text number)) }
{
    out.push('"')?;
    write_number(number, out)?;
    out.push('"')
}
