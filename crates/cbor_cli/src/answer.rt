//! What is answered to a value, and to a line that is no call.

ghost use Rattle.std.specs.Prelude.{◌≡◌, ◌≢◌, ◌++◌, OnOk};
ghost use Rattle.std.specs.String.{string_bytes};
ghost use Rattle.serde_content.specs.Names.Words.{image, tree_of};
ghost use Rattle.content_cbor.specs.PrintedFault.{error_text};
ghost use Rattle.content_cbor.specs.declared.decode_error.DecodeError.TheVariants.{OutOfMemory};
ghost use Rattle.content_tree.specs.Printed.Pretty.{pretty};
ghost use Rattle.cbor_cli.specs.Answers.{Adds, AnswersBytes, AnswersOther, ended, shown, written};

use crate::form::Form;
use content_cbor::{DecodeError, decode, encode};
use content_lines::{read_hex, write_hex};
use content_tree::Value;
use std::alloc::{AllocError, Global};

/// How deep items may nest.
const DEPTH_LIMIT: usize = 128;

/// Adds a value as it prints and, after a tab, the bytes that are written of it.
fn write_plain(alloc: Global, out: &mut String, value: &Value<'_>) -> Result<(), AllocError>
    ensures { OnOk result (string_bytes out.new ≡ string_bytes out.old
        ++ ended (written (tree_of value.now))) }
{
    // Encoding fails only when memory runs out.
    let bytes = encode(alloc, value).ok().ok_or(AllocError)?;
    write!(out, "{}\t", value.display())?;
    write_hex(out, bytes.as_slice())?;
    out.push('\n')
}

/// Adds a value as it prints on several lines.
fn write_pretty(out: &mut String, value: &Value<'_>) -> Result<(), AllocError>
    ensures { OnOk result (string_bytes out.new ≡ string_bytes out.old
        ++ ended (pretty 0 (image (tree_of value.now)))) }
{
    write!(out, "{}\n", value.pretty())
}

/// Adds a value in this form.
pub fn write_value(
    alloc: Global,
    form: Form,
    out: &mut String,
    value: &Value<'_>,
) -> Result<(), AllocError>
    ensures { OnOk result (string_bytes out.new ≡ string_bytes out.old
        ++ ended (shown form (tree_of value.now))) }
{
    match form {
        Form::Plain => write_plain(alloc, out, value),
        Form::Pretty => write_pretty(out, value),
    }
}

/// Adds where and why bytes are refused, unless memory is the cause.
fn write_fault(out: &mut String, refusal: DecodeError) -> Result<(), AllocError>
    ensures cause { OnOk result (refusal ≢ OutOfMemory) }
    ensures line { OnOk result (string_bytes out.new ≡ string_bytes out.old
        ++ ended (error_text refusal)) }
{
    match refusal {
        DecodeError::OutOfMemory => Err(AllocError),
        _ => write!(out, "{refusal}\n"),
    }
}

/// Adds the value that the bytes code, or why they are refused.
fn write_decoded(
    alloc: Global,
    form: Form,
    out: &mut String,
    bytes: &[u8],
) -> Result<(), AllocError>
    ensures { OnOk result (Adds (AnswersBytes form bytes.now) (string_bytes out.old)
        (string_bytes out.new)) }
{
    match decode(alloc, bytes, DEPTH_LIMIT) {
        Ok(value) => write_value(alloc, form, out, &value),
        Err(refusal) => write_fault(out, refusal),
    }
}

/// The same of a line that is no call, if it is digits; or that it is neither.
pub fn write_answer(
    alloc: Global,
    form: Form,
    out: &mut String,
    line: &[u8],
) -> Result<(), AllocError>
    ensures { OnOk result (Adds (AnswersOther form line.now) (string_bytes out.old)
        (string_bytes out.new)) }
{
    match read_hex(alloc, line)? {
        Some(bytes) => write_decoded(alloc, form, out, bytes.as_slice()),
        None => out.push_str("neither hexadecimal digits nor a call\n"),
    }
}
