//! The answers to all input, over any reader and writer.

ghost use Rattle.std.specs.Prelude.{◌≡◌, ◌≢◌, ◌≤◌, ◌⊎◌, ◌↔◌, true, false, codes, IfSome, IfOk};
ghost use Rattle.std.specs.Prelude.{OnOk, Err};
ghost use Rattle.std.specs.Io.KnownBytes.{Appends, IsAtEnd};
ghost use Rattle.std.specs.String.{string_bytes};
ghost use Rattle.cbor_cli.specs.Answers.{Earns, Tells};
ghost use Rattle.content_lines.specs.declared.failure.Failure.TheVariants.{ReadFailed};

use crate::form::Form;
use crate::lines::answer_lines;
use content_lines::{Answer, Failure, Input, Output, read_all, tell};
use std::alloc::Global;

/// Reads all input, and makes the answers that its lines earn in this form.
fn answer_input<R: Input>(alloc: Global, form: Form, reader: &mut R) -> Result<Answer, Failure>
    ensures value { IfOk result (λ a. IfSome (R.left reader.old)
        (λ input. Earns form input (string_bytes a.text))) }
    ensures status { IfOk result (λ a. a.status ≡ 0) }
    ensures whole { OnOk result (IsAtEnd (R.left reader.new)) }
    ensures fault { result ≡ Err ReadFailed → R.has_failed reader.new ≡ true }
    ensures kept { (result ≢ Err ReadFailed) → R.has_failed reader.new ≡ R.has_failed reader.old }
{
    let input = read_all(alloc, reader)?;
    Ok(Answer {
        text: answer_lines(alloc, form, input.as_slice())?,
        status: 0,
    })
}

/// Reads all input, and writes what its lines earn, with values in this form, and a line feed after
/// each answer.
///
/// Calls that come together, as `content_cli` reads them, are answered once a line comes that is no
/// call, or the end: each tree that they spell, one after another, up to one that is refused. Any
/// other line is answered by itself, and in the order of the lines: the value that its bytes code,
/// or why they are refused.
///
/// | Status | Text | When |
/// |---|---|---|
/// | 0 | the answers | in any case but those below |
/// | 3 | `out of memory` | an allocation failed before the answers were made |
/// | 4 | `read failed` | the reader answered a fault |
/// | 5 | any part of a text | the writer answered a fault |
///
/// Neither the reader nor the writer may have failed before. The answers are made whole before any
/// of them is written. A reader that never ends brings the run to out of memory.
///
/// ```rust
/// let mut input = Port::new(rt.stdin());
/// let mut output = Port::new(rt.stdout());
/// let status = run(rt.alloc(), Form::Plain, &mut input, &mut output);
/// ```
pub fn run<R: Input, W: Output>(alloc: Global, form: Form, reader: &mut R, writer: &mut W) -> u8
    requires reader_works { R.has_failed reader.old ≡ false }
    requires writer_works { W.has_failed writer.old ≡ false }
    // the answers, where memory is there and no port failed
    ensures told { result ≡ 0 → IfSome (R.left reader.old)
        (λ input. Tells form input (W.written writer.old) (W.written writer.new)) }
    ensures whole { result ≡ 0 → IsAtEnd (R.left reader.new) }
    // out of memory, and failures
    ensures memory { result ≡ 3 → Appends (W.written writer.old) (W.written writer.new)
        (codes "out of memory\n") }
    ensures fault { result ≡ 4 → Appends (W.written writer.old) (W.written writer.new)
        (codes "read failed\n") }
    ensures only_failed { result ≡ 4 → R.has_failed reader.new ≡ true }
    ensures read_failed { R.has_failed reader.new ≡ true → (result ≡ 4) ⊎ (result ≡ 5) }
    ensures write_failed { (W.has_failed writer.new ≡ true) ↔ (result ≡ 5) }
    ensures range { (result ≡ 0) ⊎ ((3 ≤ result) × (result ≤ 5)) }
{
    let answer = answer_input(alloc, form, reader);
    tell(writer, answer)
}
