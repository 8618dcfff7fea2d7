//! From lines to calls.

ghost use Rattle.std.specs.Prelude.{ℕ, ◌≡◌, ◌≤◌, ◌+◌, ◌^◌, ◌-◌, List, [], length, Option};
ghost use Rattle.std.specs.Prelude.{MatchOption};
ghost use Rattle.serde_content.specs.Names.Words.{Event, seen_of, HasTaken, IsLimit};
ghost use Rattle.serde_content.specs.Names.Aside.{answer_of};
ghost use Rattle.content_lines.specs.Lines.{first_bad};
ghost use Rattle.content_cli.specs.Verdicts.{AnswersLine, IsVerdict};
ghost use Rattle.content_lines.specs.Views.{line_event};
ghost use Rattle.content_cli.specs.declared.calls.Verdict.TheVariants.{BadLine, Refused};

use content_lines::{Line, first_bad_line, read_printable, split_line};
use serde_content::laws::steps_are_exact;
use serde_content::ser::{Aside, Builder, CallsError, Sent, Serializer};
use serde_content::{Error, ErrorKind};
use std::alloc::Global;

/// What lines of calls come to.
#[derive(Drop)]
pub enum Verdict<'v> {
    /// A line is neither empty nor a call: the place of the first, counted from 0 with the empty
    /// lines.
    BadLine(usize),
    /// All calls were taken: the builder that took them, and how many they are.
    Taken(Builder<'v>, usize),
    /// No line is bad, and a call was refused.
    Refused(CallsError),
}

/// A builder that took no call, within the limit where there is one.
fn start<'v>(alloc: Global, limit: Option<usize>) -> Builder<'v>
    requires { IsLimit limit }
    ensures { HasTaken limit [] (seen_of result) }
{
    match limit {
        None => Builder::new(alloc, false),
        Some(limit) => Builder::with_limit(alloc, false, limit),
    }
}

/// Makes the call that a line says, with its error put aside. The law `steps_are_exact` says that
/// what the step says of it is exact.
fn take_line(alloc: Global, builder: &mut Builder<'_>, line: Line<'_>, error: &mut Error) -> Sent
    ensures { (limit : Option ℕ) → (calls : List Event)
        → HasTaken limit calls (seen_of builder.old)
        → AnswersLine limit calls (line_event line.entry) (answer_of result error.new)
        builder.new }
{
    steps_are_exact();
    match line.into_call(alloc) {
        Ok(call) => builder.call_aside(call, error),
        Err(refused) => {
            *error = Error::from(refused);
            Err(Aside)
        }
    }
}

/// What lines come to of which one was refused, where these come after it, the first of them at
/// this place: a bad line goes before a refusal.
fn after_refusal<'v>(refusal: CallsError, place: usize, lines: &[u8]) -> Verdict<'v>
    requires { place + length lines.now ≤ 2 ^ 64 - 1 }
    ensures { MatchOption (first_bad lines.now) (result ≡ Refused refusal)
        (λ further. result ≡ BadLine (place + further)) }
{
    match first_bad_line(lines) {
        Some(further) => Verdict::BadLine(place + further),
        None => Verdict::Refused(refusal),
    }
}

/// What the lines of calls come to within the limit. Each line is read once and its call made at
/// once; after a refusal lines are only read. No call is kept.
pub fn read_calls<'v>(alloc: Global, body: &[u8], limit: Option<usize>) -> Verdict<'v>
    requires positive { IsLimit limit }
    ensures { IsVerdict limit body.now result }
{
    let mut builder = start(alloc, limit);
    let mut error = Error::from(ErrorKind::OutOfMemory);
    let mut count = 0;
    let mut place = 0;
    let mut text = body;
    'lines: loop {
        let Some((line, rest)) = split_line(text) else {
            return Verdict::BadLine(place);
        };
        if !line.is_empty() {
            let Some(said) = read_printable(line) else {
                return Verdict::BadLine(place);
            };
            if let Err(Aside) = take_line(alloc, &mut builder, said, &mut error) {
                let refusal = CallsError { at: count, error };
                return match rest {
                    Some(after) => after_refusal(refusal, place + 1, after),
                    None => Verdict::Refused(refusal),
                };
            }
            count += 1;
        }
        let Some(after) = rest else {
            return Verdict::Taken(builder, count);
        };
        place += 1;
        text = after;
    }
}
