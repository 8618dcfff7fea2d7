//! What is answered to calls that come together.

ghost use Rattle.std.specs.Prelude.{◌≡◌, ◌≢◌, ◌<◌, ◌≤◌, ◌++◌, length, OnOk, IfOk, IfSome};
ghost use Rattle.std.specs.String.{string_bytes};
ghost use Rattle.serde_content.specs.Names.Words.{events_of, kind_of, tree_of};
ghost use Rattle.serde_content.specs.Names.ErrorKind.{OutOfMemory};
ghost use Rattle.cbor_cli.specs.Answers.{AddsAll, AddsFirst, AnswersCalls, ended, refused_line};
ghost use Rattle.cbor_cli.specs.Answers.{shown};

use crate::answer::write_value;
use crate::form::Form;
use content_tree::Value;
use serde_content::ErrorKind;
use serde_content::ser::{Call, CallsError, from_calls_prefix};
use std::alloc::{AllocError, Global};

/// Adds where and why calls are refused, the place counted from the first call of their tree,
/// unless memory is the cause.
fn write_refusal(out: &mut String, refusal: &CallsError) -> Result<(), AllocError>
    ensures cause { OnOk result (kind_of refusal.now.error ≢ OutOfMemory) }
    ensures line { OnOk result (string_bytes out.new ≡ string_bytes out.old
        ++ ended (refused_line refusal.now.at (kind_of refusal.now.error))) }
{
    match refusal.error.kind() {
        ErrorKind::OutOfMemory => Err(AllocError),
        _ => write!(out, "{refusal}\n"),
    }
}

/// Adds a value, which it drops.
fn write_tree(
    alloc: Global,
    form: Form,
    out: &mut String,
    value: Value<'_>,
) -> Result<(), AllocError>
    ensures { OnOk result (string_bytes out.new ≡ string_bytes out.old
        ++ ended (shown form (tree_of value.entry))) }
{
    write_value(alloc, form, out, &value)
}

/// Adds the first tree that the calls spell, and answers how many calls spell it; or why they are
/// refused.
fn write_first(
    alloc: Global,
    form: Form,
    out: &mut String,
    calls: &[Call<'_>],
) -> Result<Option<usize>, AllocError>
    ensures told { IfOk result (λ told. AddsFirst form (events_of calls.now) told
        (string_bytes out.old) (string_bytes out.new)) }
    ensures some { IfOk result (λ told. IfSome told (λ count. 0 < count)) }
    ensures within { IfOk result (λ told. IfSome told (λ count. count ≤ length calls.now)) }
{
    match from_calls_prefix(alloc, calls) {
        Ok((value, count)) => {
            write_tree(alloc, form, out, value)?;
            Ok(Some(count))
        }
        Err(refusal) => {
            write_refusal(out, &refusal)?;
            Ok(None)
        }
    }
}

/// Adds each tree that the calls spell, one after another, up to one that is refused.
pub fn write_trees(
    alloc: Global,
    form: Form,
    out: &mut String,
    calls: &[Call<'_>],
) -> Result<(), AllocError>
    ensures { OnOk result (AddsAll (AnswersCalls form (events_of calls.now)) (string_bytes out.old)
        (string_bytes out.new)) }
{
    let mut start = 0usize;
    'trees: while start < calls.len() {
        let (_, rest) = calls.split_at(start);
        match write_first(alloc, form, out, rest)? {
            Some(count) => start += count,
            None => return Ok(()),
        }
    }
    Ok(())
}
