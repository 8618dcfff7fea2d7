//! The line and the status that an input earns.

ghost use Rattle.std.specs.Prelude.{ℕ, ◌≡◌, ◌≢◌, ◌≤◌, ◌+◌, ◌++◌, List, length, codes, None};
ghost use Rattle.std.specs.Prelude.{IfOk, OnOk};
ghost use Rattle.std.specs.String.{string_bytes};
ghost use Rattle.std.specs.Fmt.{decimal};
ghost use Rattle.serde_content.specs.Names.Words.{image, kind_of, printed, error_text, tree_of};
ghost use Rattle.serde_content.specs.Names.Words.{seen_of, HasTaken};
ghost use Rattle.serde_content.specs.Names.ErrorKind.{OutOfMemory};
ghost use Rattle.content_cli.specs.Answers.{Earns, EarnsStatus};
ghost use Rattle.content_lines.specs.Lines.{limit_of, body_of, first_bad, calls_of};
ghost use Rattle.content_cli.specs.Verdicts.{IsVerdict};

use crate::calls::{Verdict, read_calls};
use content_lines::{Answer, split_limit};
use serde_content::ser::{Builder, CallsError};
use serde_content::{ErrorKind, Value};
use std::alloc::{AllocError, Global};

/// The line that names a bad line, whose place is counted from 0 and named from 1.
fn bad_line(alloc: Global, place: usize) -> Result<Answer, AllocError>
    ensures line { IfOk result (λ a. string_bytes a.text ≡ codes "bad line " ++
        (decimal (place + 1) ++ codes "\n")) }
    ensures status { IfOk result (λ a. a.status ≡ 2) }
{
    let number = place as u128 + 1;
    Ok(Answer {
        text: format!(in alloc; "bad line {number}\n")?,
        status: 2,
    })
}

/// The line that prints the image of a value.
fn taken(alloc: Global, value: Value<'_>) -> Result<Answer, AllocError>
    ensures line { IfOk result (λ a. string_bytes a.text ≡ codes "ok " ++
        (printed (image (tree_of value.entry)) ++ codes "\n")) }
    ensures status { IfOk result (λ a. a.status ≡ 0) }
{
    Ok(Answer {
        text: format!(in alloc; "ok {}\n", value.display())?,
        status: 0,
    })
}

/// The line that names the place and the cause of a refusal, unless memory is the cause.
fn refused(alloc: Global, refusal: &CallsError) -> Result<Answer, AllocError>
    ensures cause { OnOk result (kind_of refusal.now.error ≢ OutOfMemory) }
    ensures line { IfOk result (λ a. string_bytes a.text ≡ codes "refused at " ++
        (decimal refusal.now.at ++ (codes ": " ++ (error_text refusal.now.error ++ codes "\n")))) }
    ensures status { IfOk result (λ a. a.status ≡ 1) }
{
    let CallsError { at, error } = refusal;
    if matches!(error.kind(), ErrorKind::OutOfMemory) {
        return Err(AllocError);
    }
    Ok(Answer {
        text: format!(in alloc; "refused at {at}: {error}\n")?,
        status: 1,
    })
}

/// What the input comes to, which is freed.
fn read_input<'v>(alloc: Global, input: Vec<u8>) -> Verdict<'v>
    ensures { IsVerdict (limit_of input.items) (body_of input.items) result }
{
    let (limit, body) = split_limit(input.as_slice());
    read_calls(alloc, body, limit)
}

/// The line and the status of calls that were all taken, this many.
fn finished(alloc: Global, builder: Builder<'_>, count: usize) -> Result<Answer, AllocError>
    ensures { (input : List ℕ) → first_bad (body_of input) ≡ None
        → HasTaken (limit_of input) (calls_of (body_of input)) (seen_of builder.entry)
        → count ≡ length (calls_of (body_of input))
        → IfOk result (λ a. Earns input (string_bytes a.text) a.status) }
{
    match builder.finish() {
        Ok(value) => taken(alloc, value),
        Err(error) => refused(alloc, &CallsError { at: count, error }),
    }
}

/// The line and the status that the input earns, or an error where an allocation fails. The input
/// is freed before the tree is made.
pub fn make_answer(alloc: Global, input: Vec<u8>) -> Result<Answer, AllocError>
    ensures value { IfOk result (λ a. Earns input.items (string_bytes a.text) a.status) }
    ensures fits { IfOk result (λ a. EarnsStatus input.items a.status) }
    ensures low { IfOk result (λ a. a.status ≤ 2) }
{
    match read_input(alloc, input) {
        Verdict::BadLine(place) => bad_line(alloc, place),
        Verdict::Taken(builder, count) => finished(alloc, builder, count),
        Verdict::Refused(refusal) => refused(alloc, &refusal),
    }
}
