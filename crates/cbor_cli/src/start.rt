//! The program as its arguments ask for it, over any reader and writers.

ghost use Rattle.std.specs.Prelude.{◌≡◌, ◌≤◌, ◌⊎◌, true, false, codes};
ghost use Rattle.std.specs.Io.KnownBytes.{Appends};
ghost use Rattle.cbor_cli.specs.Arguments.{IsStatus, Writes, TellsMistake, ReadsFor};

use crate::arguments::{HELP, Request, UNKNOWN};
use crate::run::run;
use content_lines::{Input, Output, tell_text};
use std::alloc::Global;

/// Does what is asked for: answers the input, as [`run`] does; or writes the help, status 0; or
/// writes to `errors` that an argument isn't known, status 2. For these two nothing is read, and no
/// memory is taken; the status is 5 where the writer failed.
///
/// ```rust
/// let status = start(rt.alloc(), request, &mut input, &mut output, &mut errors);
/// ```
pub fn start<R: Input, W: Output, E: Output>(
    alloc: Global,
    request: Request,
    reader: &mut R,
    writer: &mut W,
    errors: &mut E,
) -> u8
    requires reader_works { R.has_failed reader.old ≡ false }
    requires writer_works { W.has_failed writer.old ≡ false }
    requires errors_work { E.has_failed errors.old ≡ false }
    ensures status { IsStatus request result }
    // where it was done
    ensures written { result ≤ 2 → Writes HELP.now request (R.left reader.old)
        (W.written writer.old) (W.written writer.new) }
    ensures mistake { result ≤ 2 → TellsMistake UNKNOWN.now request (E.written errors.old)
        (E.written errors.new) }
    ensures read { result ≤ 2 → ReadsFor request (R.left reader.old) (R.left reader.new) }
    // out of memory, and failures
    ensures memory { result ≡ 3 → Appends (W.written writer.old) (W.written writer.new)
        (codes "out of memory\n") }
    ensures fault { result ≡ 4 → Appends (W.written writer.old) (W.written writer.new)
        (codes "read failed\n") }
    ensures only_failed { result ≡ 4 → R.has_failed reader.new ≡ true }
    ensures write_failed { result ≡ 5 → (W.has_failed writer.new ≡ true)
        ⊎ (E.has_failed errors.new ≡ true) }
{
    match request {
        Request::Answers(form) => run(alloc, form, reader, writer),
        Request::Help => tell_text(writer, HELP, 0),
        Request::Unknown => tell_text(errors, UNKNOWN, 2),
    }
}
