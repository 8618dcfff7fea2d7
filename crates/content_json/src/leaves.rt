//! The texts of what contains no value but bytes.

ghost use Rattle.std.specs.Prelude.{◌≡◌, ◌++◌, OnOk, codes};
ghost use Rattle.std.specs.String.{string_bytes};
ghost use Rattle.content_json.specs.Leaves.{boolean_text, number_text};

use content_tree::Number;
use std::alloc::AllocError;

/// Appends null.
pub(crate) fn write_null(out: &mut String) -> Result<(), AllocError>
    ensures { OnOk result (string_bytes out.new ≡ string_bytes out.old ++ codes "null") }
{
    out.push_str("null")
}

/// Appends a boolean.
pub(crate) fn write_bool(boolean: bool, out: &mut String) -> Result<(), AllocError>
    ensures { OnOk result (string_bytes out.new ≡ string_bytes out.old ++ boolean_text boolean) }
{
    out.push_str(if boolean { "true" } else { "false" })
}

/// Appends a number, whatever its kind.
pub(crate) fn write_number(number: Number, out: &mut String) -> Result<(), AllocError>
    ensures { OnOk result (string_bytes out.new ≡ string_bytes out.old ++ number_text number) }
{
    match number {
        Number::U8(number) => write!(out, "{number}"),
        Number::U16(number) => write!(out, "{number}"),
        Number::U32(number) => write!(out, "{number}"),
        Number::U64(number) => write!(out, "{number}"),
        Number::U128(number) => write!(out, "{number}"),
        Number::I8(number) => write!(out, "{number}"),
        Number::I16(number) => write!(out, "{number}"),
        Number::I32(number) => write!(out, "{number}"),
        Number::I64(number) => write!(out, "{number}"),
        Number::I128(number) => write!(out, "{number}"),
    }
}
