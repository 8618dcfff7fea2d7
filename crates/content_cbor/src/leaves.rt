//! The items that contain no item.

ghost use Rattle.std.specs.Prelude.{◌≡◌, ◌++◌, OnOk, pos, negsuc, true, encode_utf8, length};
ghost use Rattle.std.specs.Io.{StartsWith};
ghost use Rattle.content_tree.specs.Values.Ranges.{number_value};
ghost use Rattle.content_cbor.specs.Item.{bytes_item, text_item, boolean_item, null_item};
ghost use Rattle.content_cbor.specs.Item.{number_item, shortest, without_zeros};
ghost use Rattle.content_cbor.specs.Form.{IsLength, IsText, in_own_range};

use crate::heads::{Major, write_head};
use content_tree::Number;
use std::alloc::AllocError;

/// Appends null.
pub(crate) fn write_null(out: &mut Vec<u8>) -> Result<(), AllocError>
    ensures value { OnOk result (out.new.items ≡ out.old.items ++ null_item) }
    ensures kept { StartsWith out.new.items out.old.items }
{
    write_head(out, Major::Simple, 22)
}

/// Appends a boolean.
pub(crate) fn write_bool(boolean: bool, out: &mut Vec<u8>) -> Result<(), AllocError>
    ensures value { OnOk result (out.new.items ≡ out.old.items ++ boolean_item boolean) }
    ensures kept { StartsWith out.new.items out.old.items }
{
    write_head(out, Major::Simple, if boolean { 21 } else { 20 })
}

/// Appends a list of bytes.
pub(crate) fn write_bytes(bytes: &[u8], out: &mut Vec<u8>) -> Result<(), AllocError>
    ensures value { OnOk result (out.new.items ≡ out.old.items ++ bytes_item bytes.now) }
    ensures fits { IsLength (length bytes.now) }
    ensures kept { StartsWith out.new.items out.old.items }
{
    write_head(out, Major::Bytes, bytes.len() as u64)?;
    out.extend_from_slice(bytes)
}

/// Appends a text.
pub(crate) fn write_text(text: &str, out: &mut Vec<u8>) -> Result<(), AllocError>
    ensures value { OnOk result (out.new.items ≡ out.old.items ++ text_item text.now) }
    ensures fits { IsText text.now }
    ensures kept { StartsWith out.new.items out.old.items }
{
    write_head(out, Major::Text, text.len() as u64)?;
    out.extend_from_slice(text.as_bytes())
}

/// Appends a character, as a text.
pub(crate) fn write_char(character: char, out: &mut Vec<u8>) -> Result<(), AllocError>
    ensures value { OnOk result (out.new.items ≡ out.old.items
        ++ text_item (encode_utf8 character)) }
    ensures fits { IsText (encode_utf8 character) }
    ensures kept { StartsWith out.new.items out.old.items }
{
    let mut buffer = [0; 4];
    write_text(character.encode_utf8(&mut buffer), out)
}

/// Appends a number, whatever its kind.
#[inline(always)]
pub(crate) fn write_number(number: Number, out: &mut Vec<u8>) -> Result<(), AllocError>
    ensures value { OnOk result (out.new.items ≡ out.old.items
        ++ number_item (number_value number)) }
    ensures fits { in_own_range number ≡ true }
    ensures kept { StartsWith out.new.items out.old.items }
{
    match &number {
        Number::U8(number) => write_unsigned(u128::from(*number), out),
        Number::U16(number) => write_unsigned(u128::from(*number), out),
        Number::U32(number) => write_unsigned(u128::from(*number), out),
        Number::U64(number) => write_unsigned(u128::from(*number), out),
        Number::U128(number) => write_unsigned(*number, out),
        Number::I8(number) => write_signed(i128::from(*number), out),
        Number::I16(number) => write_signed(i128::from(*number), out),
        Number::I32(number) => write_signed(i128::from(*number), out),
        Number::I64(number) => write_signed(i128::from(*number), out),
        Number::I128(number) => write_signed(*number, out),
    }
}

/// Appends a signed number.
#[inline(always)]
fn write_signed(number: i128, out: &mut Vec<u8>) -> Result<(), AllocError>
    ensures value { OnOk result (out.new.items ≡ out.old.items ++ number_item number) }
    ensures kept { StartsWith out.new.items out.old.items }
{
    let size = number.unsigned_abs();
    if number < 0 {
        write_negative(size - 1, out)
    } else {
        write_unsigned(size, out)
    }
}

/// Appends a number from 0.
#[inline(always)]
fn write_unsigned(number: u128, out: &mut Vec<u8>) -> Result<(), AllocError>
    ensures value { OnOk result (out.new.items ≡ out.old.items ++ number_item (pos number)) }
    ensures kept { StartsWith out.new.items out.old.items }
{
    match u64::try_from(number) {
        Ok(number) => write_head(out, Major::Unsigned, number),
        Err(_) => {
            write_head(out, Major::Tag, 2)?;
            write_shortest(number, out)
        }
    }
}

/// Appends -1 less this number.
#[inline(always)]
fn write_negative(number: u128, out: &mut Vec<u8>) -> Result<(), AllocError>
    ensures value { OnOk result (out.new.items ≡ out.old.items ++ number_item (negsuc number)) }
    ensures kept { StartsWith out.new.items out.old.items }
{
    match u64::try_from(number) {
        Ok(number) => write_head(out, Major::Negative, number),
        Err(_) => {
            write_head(out, Major::Tag, 3)?;
            write_shortest(number, out)
        }
    }
}

/// Appends the bytes of a number, as few as can be.
fn write_shortest(number: u128, out: &mut Vec<u8>) -> Result<(), AllocError>
    ensures value { OnOk result (out.new.items ≡ out.old.items ++ bytes_item (shortest number)) }
    ensures kept { StartsWith out.new.items out.old.items }
{
    write_bytes(without_zeros(&number.to_be_bytes()), out)
}

/// The bytes after the zeros at the front.
#[tactic(auto, unfolding(crate::specs::Item::without_zeros))]
fn without_zeros(bytes: &[u8]) -> &[u8]
    ensures { result.now ≡ without_zeros bytes.now }
{
    let mut rest = bytes;
    while let [0, behind @ ..] = rest {
        rest = behind;
    }
    rest
}
