//! The tree that a beginning of a list of calls spells.

ghost use Rattle.std.specs.Prelude.{ℕ, length};
ghost use Rattle.content_tree.specs.Values.Tree.{Tree};
ghost use Rattle.content_tree.specs.declared.error.ErrorKind.TheVariants.{Misplaced, Unfinished};
ghost use Rattle.content_ser.specs.Calls.Call.{events_of};
ghost use Rattle.content_ser.specs.Grammar.Spells.{IsViable};
ghost use Rattle.content_build.specs.Answers.{IsRefusal, IfRefused};
ghost use Rattle.content_build.specs.Cuts.{IsCut, IfCut, NoCut, SpellsFirst};

use crate::builder::Builder;
use crate::calls_error::CallsError;
use content_ser::{Call, Serializer};
use content_tree::{ErrorKind, Value};
use std::alloc::Global;

/// The tree that a beginning of the calls spells, with its length, or the place of a refusal.
fn cut<'v>(alloc: Global, calls: &[Call<'_>]) -> Result<(Value<'v>, usize), CallsError>
    ensures { IsCut (events_of calls.now) result }
{
    let mut builder = Builder::new(alloc, false);
    for (at, call) in calls.iter().enumerate() {
        match builder.call(call.lend()) {
            Ok(()) => {}
            Err(error) => return Err(CallsError { at, error }),
        }
        // A call was taken, so no tree is open only where the whole one is done.
        if builder.open_count() == 0 {
            return match builder.finish() {
                Ok(value) => Ok((value, at + 1)),
                Err(error) => Err(CallsError { at: at + 1, error }),
            };
        }
    }
    Err(CallsError {
        at: calls.len(),
        error: ErrorKind::Unfinished.into(),
    })
}

/// Cuts the first tree off a list of calls: the tree that a beginning of the list spells, and that
/// beginning's length. At most one beginning spells a tree, so a stream is cut in one way only.
/// Texts and bytes are owned, names static. What comes after doesn't matter. Not in
/// `serde-content`.
///
/// Where no beginning spells a tree, the refusal is that of [`from_calls`](crate::from_calls):
/// `Misplaced` at the first call after which nothing that follows can make the list spell one, or
/// `Unfinished` at the list's length. Where an allocation failed: `OutOfMemory`, at the call that
/// needed it (that it is no other is only tested) or at the length of the beginning that spells a
/// tree.
///
/// ```rust
/// let calls = [Call::Seq(None), Call::End, Call::Unit];
/// let (value, length) = from_calls_prefix(alloc, &calls)?;
/// assert!(rt; value == Value::Seq(Vec::new(alloc)));
/// assert_eq!(rt; length, 2);
/// ```
#[tactic(auto, using(crate::proofs::Cutting::only))]
pub fn from_calls_prefix<'v>(
    alloc: Global,
    calls: &[Call<'_>],
) -> Result<(Value<'v>, usize), CallsError>
    // a tree and the length of the one beginning that spells it, or a refusal at the right place
    // for the right cause
    ensures answer { IsCut (events_of calls.now) result }
    // a beginning that spells a tree is taken
    ensures whole { (n : ℕ) (t : Tree) → SpellsFirst (events_of calls.now) n t
        → IfCut result n t }
    // where none spells one, the first call with which they begin no whole list is out of place
    ensures misplaced { (at : ℕ) → NoCut (events_of calls.now)
        → IsRefusal (events_of calls.now) at Misplaced → IfRefused result Misplaced at }
    // where none spells one, what could go on to spell one is unfinished
    ensures unfinished { NoCut (events_of calls.now) → IsViable (events_of calls.now)
        → IfRefused result Unfinished (length calls.now) }
{
    cut(alloc, calls)
}
