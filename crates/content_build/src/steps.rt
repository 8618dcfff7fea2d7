//! Calls on the frames and the openings of a tape.

ghost use Rattle.std.specs.Prelude.{◌≡◌, ◌↔◌, ◌∷◌, [], IsTrue, IsFalse, IfOk, Some};
ghost use Rattle.content_ser.specs.Calls.Head.{head_of};
ghost use Rattle.content_ser.specs.Grammar.Token as token;
ghost use Rattle.content_build.specs.Partial.{step_token};
ghost use Rattle.content_build.specs.Inner.Cells.{cell, flat};
ghost use Rattle.content_build.specs.Inner.Frames.{label_view, wait_view};
ghost use Rattle.content_build.specs.Inner.Sound.{meaning, IsSound};
ghost use Rattle.content_build.specs.Inner.Steps.{Fills, IsDue, IsIdle, Opens};
ghost use Rattle.content_build.specs.Inner.Taken.{TakenTo};
ghost use Rattle.content_build.specs.Inner.Tokens.{item_call_view, leaf_tree, token_view};

use crate::frame::{Frame, Label, Leaf, Opening, Sort, Waits, headed, number_leaf};
use crate::parts::{Series, Wrap};
use crate::refusal::{Refusal, Taken};
use crate::room::push_one;
use crate::settle::{close, settle};
use crate::token::{ItemCall, LeafCall, Token};
use std::alloc::{AllocError, Global};

/// Whether a tree is due.
#[inline(always)]
fn is_due(frames: &Vec<Frame>, openings: &Vec<Opening>) -> bool
    requires { IsSound frames.now.items openings.now.items }
    ensures { IsTrue result ↔ IsDue (meaning frames.now.items openings.now.items) }
{
    let count = openings.len();
    if count == 0 {
        return frames.len() == 0;
    }
    !is_idle(openings[count - 1].waits)
}

/// The label of a call whose tree is whole: its text and bytes are copied, its names are not.
#[inline(always)]
fn whole_label(alloc: Global, leaf: LeafCall<'_>) -> Result<Label, AllocError>
    ensures { IfOk result (λ label. cell (label_view label) 1 ∷ [] ≡ flat (leaf_tree leaf.entry)) }
{
    match leaf {
        LeafCall::Unit => Ok(Label::Leaf(Leaf::Unit)),
        LeafCall::Bool(v) => Ok(Label::Leaf(Leaf::Bool(v))),
        LeafCall::Number(v) => Ok(Label::Leaf(number_leaf(alloc, v)?)),
        LeafCall::Char(v) => Ok(Label::Leaf(Leaf::Char(v))),
        LeafCall::Text(text) => Ok(Label::Leaf(Leaf::Text(String::from_str(alloc, text)?))),
        LeafCall::Bytes(bytes) => Ok(Label::Leaf(Leaf::Bytes(bytes.to_vec(alloc)?))),
        LeafCall::Absent => Ok(Label::Leaf(Leaf::Absent)),
        LeafCall::Head(head) => Ok(headed(Sort::Nothing, head)),
    }
}

/// Where an item waits for a tree, which is what most trees come to, its opening is changed before
/// the tree is there. It says whether one did: if not, nothing is changed.
#[inline(always)]
fn fill_item(frames: &Vec<Frame>, openings: &mut Vec<Opening>) -> bool
    requires { IsSound frames.now.items openings.old.items }
    ensures filled { IsTrue result
        → Fills frames.now.items openings.old.items openings.new.items }
    ensures unfilled { IsFalse result → openings.new.items ≡ openings.old.items }
{
    let count = openings.len();
    if count == 0 {
        return false;
    }
    let opening = &mut openings[count - 1];
    match opening.waits {
        Waits::Element => {
            opening.waits = Waits::InElements;
            true
        }
        Waits::TupleField => {
            opening.waits = Waits::InTupleFields;
            true
        }
        Waits::Field => {
            opening.waits = Waits::InRecord;
            true
        }
        Waits::EntryKey => {
            opening.last = frames.len() + 1;
            opening.waits = Waits::EntryValue;
            true
        }
        Waits::EntryValue => {
            opening.waits = Waits::InMap;
            true
        }
        _ => false,
    }
}

/// A call whose tree is whole.
#[inline(always)]
fn put(
    alloc: Global,
    frames: &mut Vec<Frame>,
    openings: &mut Vec<Opening>,
    leaf: LeafCall<'_>,
) -> Taken
    requires { IsSound frames.old.items openings.old.items }
    ensures { TakenTo
        (step_token (meaning frames.old.items openings.old.items)
        (token.leaf (leaf_tree leaf.entry)))
        result frames.new.items openings.new.items }
{
    if !fill_item(frames, openings) {
        return put_anywhere(alloc, frames, openings, leaf);
    }
    let label = whole_label(alloc, leaf)?;
    push_one(frames, Frame { label, size: 1 })?;
    Ok(())
}

/// The same whatever the innermost opening waits for. It is less often done, and so isn't inlined.
#[inline(never)]
fn put_anywhere(
    alloc: Global,
    frames: &mut Vec<Frame>,
    openings: &mut Vec<Opening>,
    leaf: LeafCall<'_>,
) -> Taken
    requires { IsSound frames.old.items openings.old.items }
    ensures { TakenTo
        (step_token (meaning frames.old.items openings.old.items)
        (token.leaf (leaf_tree leaf.entry)))
        result frames.new.items openings.new.items }
{
    if !is_due(frames, openings) {
        return Err(Refusal::Misplaced);
    }
    let label = whole_label(alloc, leaf)?;
    push_one(frames, Frame { label, size: 1 })?;
    settle(frames, openings)
}

/// A call that opens a node.
#[inline(always)]
fn open(frames: &mut Vec<Frame>, openings: &mut Vec<Opening>, label: Label, waits: Waits) -> Taken
    requires { IsSound frames.old.items openings.old.items }
    ensures { (call : token.Token) → Opens call (label_view label) (wait_view waits)
        → TakenTo (step_token (meaning frames.old.items openings.old.items) call)
        result frames.new.items openings.new.items }
{
    if !is_due(frames, openings) {
        return Err(Refusal::Misplaced);
    }
    let at = frames.len();
    push_one(frames, Frame { label, size: 0 })?;
    push_one(openings, Opening { at, last: 0, waits })?;
    Ok(())
}

/// A call that announces an item.
#[inline(always)]
fn announce(frames: &mut Vec<Frame>, openings: &mut Vec<Opening>, item: ItemCall) -> Taken
    requires { IsSound frames.old.items openings.old.items }
    ensures { TakenTo
        (step_token (meaning frames.old.items openings.old.items) (item_call_view item))
        result frames.new.items openings.new.items }
{
    let count = openings.len();
    if count == 0 {
        return Err(Refusal::Misplaced);
    }
    let opening = &mut openings[count - 1];
    match item {
        ItemCall::Element => match opening.waits {
            Waits::InElements => {
                opening.waits = Waits::Element;
                Ok(())
            }
            _ => Err(Refusal::Misplaced),
        },
        ItemCall::TupleField => match opening.waits {
            Waits::InTupleFields => {
                opening.waits = Waits::TupleField;
                Ok(())
            }
            _ => Err(Refusal::Misplaced),
        },
        ItemCall::Field(key) => match opening.waits {
            Waits::InRecord => {
                opening.waits = Waits::Field;
                let label = Label::Key(key);
                push_one(frames, Frame { label, size: 1 })?;
                Ok(())
            }
            _ => Err(Refusal::Misplaced),
        },
        ItemCall::Key => match opening.waits {
            Waits::InMap => {
                opening.waits = Waits::Key;
                Ok(())
            }
            _ => Err(Refusal::Misplaced),
        },
        ItemCall::Value => match opening.waits {
            Waits::InMap => {
                opening.waits = Waits::Value;
                Ok(())
            }
            _ => Err(Refusal::Misplaced),
        },
        ItemCall::Entry => match opening.waits {
            Waits::InMap => {
                opening.waits = Waits::EntryKey;
                Ok(())
            }
            _ => Err(Refusal::Misplaced),
        },
    }
}

/// Whether an opening waits for no tree.
#[inline(always)]
fn is_idle(waits: Waits) -> bool
    ensures { IsTrue result ↔ IsIdle (wait_view waits) }
{
    match waits {
        Waits::Child => false,
        Waits::Element => false,
        Waits::TupleField => false,
        Waits::Key => false,
        Waits::Value => false,
        Waits::EntryKey => false,
        Waits::EntryValue => false,
        Waits::Field => false,
        Waits::InElements => true,
        Waits::InTupleFields => true,
        Waits::InMap => true,
        Waits::InRecord => true,
    }
}

/// The end of the innermost compound.
#[inline(always)]
fn end(frames: &mut Vec<Frame>, openings: &mut Vec<Opening>) -> Taken
    requires { IsSound frames.old.items openings.old.items }
    ensures { TakenTo (step_token (meaning frames.old.items openings.old.items) token.finish)
        result frames.new.items openings.new.items }
{
    let count = openings.len();
    if count == 0 {
        return Err(Refusal::Misplaced);
    }
    let opening = &openings[count - 1];
    if !is_idle(opening.waits) {
        return Err(Refusal::Misplaced);
    }
    let at = opening.at;
    openings.truncate(count - 1);
    close(frames, at);
    settle(frames, openings)
}

/// A call.
#[inline(always)]
pub(crate) fn step(
    alloc: Global,
    frames: &mut Vec<Frame>,
    openings: &mut Vec<Opening>,
    call: Token<'_>,
) -> Taken
    requires { IsSound frames.old.items openings.old.items }
    ensures { TakenTo
        (step_token (meaning frames.old.items openings.old.items) (token_view call.entry))
        result frames.new.items openings.new.items }
{
    let (label, waits) = match call {
        Token::Leaf(leaf) => return put(alloc, frames, openings, leaf),
        Token::Item(item) => return announce(frames, openings, item),
        Token::End => return end(frames, openings),
        Token::Wrap(wrap) => match wrap {
            Wrap::Present => (Label::Present, Waits::Child),
            Wrap::Head(head) => (headed(Sort::One, head), Waits::Child),
        },
        Token::Series(series) => match series {
            Series::Seq => (Label::Seq, Waits::InElements),
            Series::Tuple => (Label::Tuple, Waits::InElements),
            Series::Head(head) => (headed(Sort::Many, head), Waits::InTupleFields),
        },
        Token::Map => (Label::Map, Waits::InMap),
        Token::Record(head) => (headed(Sort::Fields, head), Waits::InRecord),
    };
    open(frames, openings, label, waits)
}
