//! The tree that a list of calls spells.

ghost use Rattle.std.specs.Prelude.{ℕ, ◌≤◌, length, Some};
ghost use Rattle.content_tree.specs.Values.Tree.{Tree};
ghost use Rattle.content_tree.specs.declared.error.ErrorKind.TheVariants.{Misplaced, Unfinished};
ghost use Rattle.content_ser.specs.Calls.Call.{events_of};
ghost use Rattle.content_ser.specs.Grammar.Depth.{IsLimit, SpellsWithin, IsWholeWithin};
ghost use Rattle.content_ser.specs.Grammar.Depth.{IsViableWithin};
ghost use Rattle.content_ser.specs.Grammar.Spells.{SpellsWhole, IsWhole, IsViable};
ghost use Rattle.content_build.specs.Answers.{IsAnswer, IsAnswerWithin, IsRefusal, IsRefusalWithin};
ghost use Rattle.content_build.specs.Answers.{IfTaken, IfRefused};

use crate::builder::Builder;
use crate::calls_error::CallsError;
use content_ser::{Call, Serializer};
use content_tree::Value;
use std::alloc::Global;

/// The tree that the calls spell within the limit, or the place of the first call that is refused.
fn build<'v>(
    alloc: Global,
    calls: &[Call<'_>],
    limit: Option<usize>,
) -> Result<Value<'v>, CallsError>
    requires { IsLimit limit }
    ensures { IsAnswerWithin limit (events_of calls.now) result }
{
    let mut builder = Builder::within(alloc, false, limit);
    for (at, call) in calls.iter().enumerate() {
        match builder.call(call.lend()) {
            Ok(()) => {}
            Err(error) => return Err(CallsError { at, error }),
        }
    }
    match builder.finish() {
        Ok(value) => Ok(value),
        Err(error) => Err(CallsError {
            at: calls.len(),
            error,
        }),
    }
}

/// Makes the tree that a list of calls spells, its texts and bytes owned and its names static. Not
/// in `serde-content`, which has no lists of calls.
///
/// Where it spells none, the error names the place of the first call after which nothing that
/// follows can make it spell one, `Misplaced`; or the list's length where it only ended too early,
/// `Unfinished`. Where an allocation failed: `OutOfMemory`, at the call that needed it (that it is
/// no other is only tested) or at the list's length. Hints and lengths reserve nothing. Texts and
/// bytes are copied once, names are not.
///
/// ```rust
/// let calls = [Call::Seq(None), Call::Unit];
/// match from_calls(alloc, &calls) {
///     Ok(_) => assert!(rt; false),
///     Err(refusal) => assert_eq!(rt; refusal.at, 1),
/// }
/// ```
pub fn from_calls<'v>(alloc: Global, calls: &[Call<'_>]) -> Result<Value<'v>, CallsError>
    // a tree that the calls spell, or a refusal at the right place for the right cause
    ensures answer { IsAnswer (events_of calls.now) result }
    // what spells a tree is taken
    ensures whole { (t : Tree) → SpellsWhole (events_of calls.now) t → IfTaken result t }
    // the first call with which they begin no whole list is out of place
    ensures misplaced { (at : ℕ) → IsRefusal (events_of calls.now) at Misplaced
        → IfRefused result Misplaced at }
    // what could go on to spell a tree, and spells none, is unfinished
    ensures unfinished { IsViable (events_of calls.now) → ¬ IsWhole (events_of calls.now)
        → IfRefused result Unfinished (length calls.now) }
{
    build(alloc, calls, None)
}

/// Makes the tree that a list of calls spells within a limit on how deep trees nest, which is at
/// least 1: [`from_calls`] for lists from strangers. Not in `serde-content`.
///
/// The tree of the whole list has depth 1, and a tree inside another that one's depth plus 1; the
/// trees of values that are dropped count too. A list in which some depth passes the limit spells
/// none, and is refused as `Misplaced` at the first call after which each list that spells a tree
/// passes it: a `Some`, a newtype call, or a call that announces an item.
///
/// ```rust
/// let calls = [Call::Seq(None), Call::Element, Call::Unit, Call::End];
/// assert!(rt; from_calls_within(alloc, &calls, 2).is_ok());
/// match from_calls_within(alloc, &calls, 1) {
///     Ok(_) => assert!(rt; false),
///     Err(refusal) => assert_eq!(rt; refusal.at, 1),
/// }
/// ```
pub fn from_calls_within<'v>(
    alloc: Global,
    calls: &[Call<'_>],
    limit: usize,
) -> Result<Value<'v>, CallsError>
    requires positive { 1 ≤ limit }
    // a tree that the calls spell within the limit, or a refusal at the right place for the right
    // cause
    ensures answer { IsAnswerWithin (Some limit) (events_of calls.now) result }
    // what spells a tree within the limit is taken
    ensures whole { (t : Tree) → SpellsWithin (Some limit) (events_of calls.now) t
        → IfTaken result t }
    // the first call with which they begin no list that is whole within the limit is out of place
    ensures misplaced { (at : ℕ) → IsRefusalWithin (Some limit) (events_of calls.now) at Misplaced
        → IfRefused result Misplaced at }
    // what could go on to spell a tree within the limit, and spells none, is unfinished
    ensures unfinished { IsViableWithin (Some limit) (events_of calls.now)
        → ¬ IsWholeWithin (Some limit) (events_of calls.now)
        → IfRefused result Unfinished (length calls.now) }
{
    build(alloc, calls, Some(limit))
}
