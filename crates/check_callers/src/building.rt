//! Values made of calls, and copies of values.

ghost use Rattle.std.specs.Prelude.{◌≡◌, IfOk, IfErr};
ghost use Rattle.content_tree.specs.Errors.Kind.{IsOutOfMemory};
ghost use Rattle.content_tree.specs.Values.Tree as tree;
ghost use Rattle.content_tree.specs.Values.Cases.{borrowed_text};
ghost use Rattle.content_tree.specs.Values.Value.{tree_of};
ghost use Rattle.content_tree.specs.declared.error.ErrorKind.TheVariants.{Misplaced};
ghost use Rattle.content_tree.specs.declared.number.Number.TheVariants as number;
ghost use Rattle.content_build.specs.Answers.{IfRefused, IfTaken};

use serde_content::ser::{Call, CallsError, from_calls};
use serde_content::{Number, Value, value};
use std::alloc::Global;

/// A sequence of two bytes. What its calls spell is shown by hand; that `from_calls` gives it is
/// its clause `whole`.
pub fn two_bytes<'v>(alloc: Global, first: u8, second: u8) -> Result<Value<'v>, CallsError>
    ensures { IfTaken result (tree.seq
        (tree.tree_then (tree.number (number.U8 first))
        (tree.tree_then (tree.number (number.U8 second))
        tree.no_trees))) }
{
    let calls = [
        Call::Seq(Some(2)),
        Call::Element,
        Call::Number(Number::U8(first)),
        Call::Element,
        Call::Number(Number::U8(second)),
        Call::End,
    ];
    from_calls(alloc, &calls)
}

/// A unit where a sequence waits for an element: the second call, at the place 1, is refused. That
/// nothing can follow is shown by hand; the place and the cause are the clause `misplaced`.
pub fn unit_in_a_sequence<'v>(alloc: Global) -> Result<Value<'v>, CallsError>
    ensures { IfRefused result Misplaced 1 }
{
    let calls = [Call::Seq(None), Call::Unit];
    from_calls(alloc, &calls)
}

/// A value and a copy of it: both have one tree, each text borrowed or owned as it was.
pub fn copied<'a>(alloc: Global, value: Value<'a>) -> serde_content::Result<(Value<'a>, Value<'a>)>
    ensures same { IfOk result (λ pair. tree_of pair.1 ≡ tree_of pair.0) }
    ensures kept { IfOk result (λ pair. tree_of pair.0 ≡ tree_of value.entry) }
    ensures memory { IfErr result (λ e. IsOutOfMemory e) }
{
    let copy = value.try_clone(alloc)?;
    Ok((value, copy))
}

/// A map of one list, written as a literal: what it makes needs no proof.
pub fn labelled<'a>(alloc: Global, name: &'a str) -> serde_content::Result<Value<'a>>
    ensures { IfOk result (λ value. tree_of value ≡ tree.map
        (tree.pair_then (tree.text (borrowed_text name.now))
        (tree.seq (tree.tree_then (tree.number (number.U8 7))
        (tree.tree_then (tree.text (borrowed_text name.now)) tree.no_trees)))
        tree.no_pairs)) }
{
    value!(in alloc; { name: [7u8, name] })
}
