//! Writes what a program answers.

ghost use Rattle.std.specs.Prelude.{◌≡◌, OnOk, OnErr, true, false};
ghost use Rattle.std.specs.Io.KnownBytes.{Appends};
ghost use Rattle.content_lines.specs.Told.{Tells};

use crate::failure::Failure;
use crate::ports::{Fault, Output};

/// What a program answers to its input.
#[derive(Debug, Drop)]
pub struct Answer {
    /// The text, with the line feed of each line.
    pub text: String,
    /// The status.
    pub status: u8,
}

/// Writes all the bytes, by as many writes as the writer needs.
fn write_out<W: Output>(writer: &mut W, bytes: &[u8]) -> Result<(), Fault>
    ensures all { OnOk result (Appends (W.written writer.old) (W.written writer.new) bytes.now) }
    ensures kept { OnOk result (W.has_failed writer.new ≡ W.has_failed writer.old) }
    ensures fault { OnErr result (W.has_failed writer.new ≡ true) }
{
    let mut rest = bytes;
    'writes: while !rest.is_empty() {
        let n = writer.put(rest)?;
        rest = &rest[n..];
    }
    Ok(())
}

/// Writes the text, and answers the status; or 5 where the writer failed, after any part of it. The
/// writer mustn't have failed before. It takes no memory.
///
/// ```rust
/// let status = tell_text(&mut output, "ok ()\n", 0);
/// ```
pub fn tell_text<W: Output>(writer: &mut W, text: &str, status: u8) -> u8
    requires writer_works { W.has_failed writer.old ≡ false }
    ensures failed { W.has_failed writer.new ≡ true → result ≡ 5 }
    ensures told { W.has_failed writer.new ≡ false → (result ≡ status) × Appends
        (W.written writer.old) (W.written writer.new) text.now }
{
    match write_out(writer, text.as_bytes()) {
        Ok(()) => status,
        Err(_) => 5,
    }
}

/// Writes the answer's text, or the line that names why there is none, and answers the status: the
/// answer's, 3 after `out of memory`, 4 after `read failed`; or 5 where the writer failed, after any
/// part of the text. The writer mustn't have failed before.
///
/// ```rust
/// let answer = answer_input(alloc, reader);
/// tell(writer, answer)
/// ```
pub fn tell<W: Output>(writer: &mut W, answer: Result<Answer, Failure>) -> u8
    requires writer_works { W.has_failed writer.old ≡ false }
    ensures told { W.has_failed writer.new ≡ false → Tells answer result (W.written writer.old)
        (W.written writer.new) }
    ensures failed { W.has_failed writer.new ≡ true → result ≡ 5 }
{
    match answer {
        Ok(answer) => tell_text(writer, answer.text.as_str(), answer.status),
        Err(failure) => tell_text(writer, failure.line(), failure.status()),
    }
}
