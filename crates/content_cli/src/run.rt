//! The whole program, over any reader and writer.

ghost use Rattle.std.specs.Prelude.{◌≡◌, ◌≢◌, ◌<◌, ◌≤◌, ◌⊎◌, ◌↔◌, true, false, codes, IfSome, IfOk};
ghost use Rattle.std.specs.Prelude.{OnOk, Err};
ghost use Rattle.std.specs.Io.KnownBytes.{Appends, IsAtEnd};
ghost use Rattle.std.specs.String.{string_bytes};
ghost use Rattle.content_cli.specs.Answers.{Earns, Tells, EarnsStatus};
ghost use Rattle.content_lines.specs.declared.failure.Failure.TheVariants.{ReadFailed};

use crate::answer::make_answer;
use content_lines::{Answer, Failure, Input, Output, read_all, tell};
use std::alloc::Global;

/// Reads all input, and makes the answer that it earns.
fn answer_input<R: Input>(alloc: Global, reader: &mut R) -> Result<Answer, Failure>
    ensures value { IfOk result (λ a. IfSome (R.left reader.old)
        (λ input. Earns input (string_bytes a.text) a.status)) }
    ensures fits { IfOk result (λ a. IfSome (R.left reader.old)
        (λ input. EarnsStatus input a.status)) }
    ensures low { IfOk result (λ a. a.status ≤ 2) }
    ensures whole { OnOk result (IsAtEnd (R.left reader.new)) }
    ensures fault { result ≡ Err ReadFailed → R.has_failed reader.new ≡ true }
    ensures kept { (result ≢ Err ReadFailed) → R.has_failed reader.new ≡ R.has_failed reader.old }
{
    let input = read_all(alloc, reader)?;
    Ok(make_answer(alloc, input)?)
}

/// Reads all input, makes the call of each line, builds a tree of the calls and writes one line. A
/// first line `limit N`, N from 1 to 18446744073709551615, is no call: it sets a limit on how deep
/// trees nest.
///
/// | Status | Line | When |
/// |---|---|---|
/// | 0 | `ok ` and the printed image of the tree | the calls spell a tree, within the limit |
/// | 1 | `refused at N: ` and the error's text, N the call's place from 0 | they spell none |
/// | 2 | `bad line N`, N counted from 1 | a line is no call, nor a first one that sets a limit |
/// | 3 | `out of memory` | an allocation failed before the line was made |
/// | 4 | `read failed` | the reader answered a fault |
/// | 5 | any part of a line | the writer answered a fault |
///
/// Neither the reader nor the writer may have failed before. The line is made whole before any of
/// it is written. A reader that never ends brings the run to out of memory. None of this is in
/// `serde-content`.
///
/// ```rust
/// let mut input = Port::new(rt.stdin());
/// let mut output = Port::new(rt.stdout());
/// let status = run(rt.alloc(), &mut input, &mut output);
/// ```
pub fn run<R: Input, W: Output>(alloc: Global, reader: &mut R, writer: &mut W) -> u8
    requires reader_works { R.has_failed reader.old ≡ false }
    requires writer_works { W.has_failed writer.old ≡ false }
    // the answer, where memory is there and no port failed
    ensures told { result < 3 → IfSome (R.left reader.old)
        (λ input. Tells input result (W.written writer.old) (W.written writer.new)) }
    ensures fits { result < 3 → IfSome (R.left reader.old) (λ input. EarnsStatus input result) }
    ensures whole { result < 3 → IsAtEnd (R.left reader.new) }
    // out of memory, and failures
    ensures memory { result ≡ 3 → Appends (W.written writer.old) (W.written writer.new)
        (codes "out of memory\n") }
    ensures fault { result ≡ 4 → Appends (W.written writer.old) (W.written writer.new)
        (codes "read failed\n") }
    ensures only_failed { result ≡ 4 → R.has_failed reader.new ≡ true }
    ensures read_failed { R.has_failed reader.new ≡ true → (result ≡ 4) ⊎ (result ≡ 5) }
    ensures write_failed { (W.has_failed writer.new ≡ true) ↔ (result ≡ 5) }
    ensures range { result ≤ 5 }
{
    let answer = answer_input(alloc, reader);
    tell(writer, answer)
}
