//! Values of leaves at the end of the tape.

#![tactic(auto, using(crate::proofs::Pushes::pushes))]

ghost use Rattle.std.specs.Prelude.{◌≡◌, ◌<◌, ◌≤◌, ◌+◌, [], IfOk, IsTrue};
ghost use Rattle.std.specs.Prelude.{drop, take};
ghost use Rattle.std.specs.Prelude.{vec_len, vec_capacity};
ghost use Rattle.content_tree.specs.Values.Text.{static_name};
ghost use Rattle.content_tree.specs.Values.Tree as tree;
ghost use Rattle.content_tree.specs.Values.Value.{tree_of};
ghost use Rattle.content_tree.specs.Values.Value.{trees_view, pairs_view, fields_view};
ghost use Rattle.content_build.specs.Partial.{push_tree, push_pair, push_field};
ghost use Rattle.content_build.specs.Inner.Decoding.{all_trees, all_fields, all_pairs};
ghost use Rattle.content_build.specs.Inner.Forest.{read};
ghost use Rattle.content_build.specs.Inner.Frames.{cells_of, frame_view};
ghost use Rattle.content_build.specs.Inner.Leaves.{AreFields, AreLeaves, IsKey, IsLeaf};
ghost use Rattle.content_build.specs.Inner.Leaves.{key_of, tree_at};

use crate::frame::{Frame, Label, Leaf};
use content_tree::{CowBytes, CowStr, NamedValue, Number};
use std::alloc::{AllocError, Global};
use std::mem;

/// Whether a frame is a leaf.
#[inline(always)]
fn is_leaf(frame: &Frame) -> bool
    ensures { IsTrue result → IsLeaf (frame_view frame.now) }
{
    match &frame.label {
        Label::Leaf(_) => frame.size == 1,
        _ => false,
    }
}

/// Whether a frame is a key.
#[inline(always)]
fn is_key(frame: &Frame) -> bool
    ensures { IsTrue result → IsKey (frame_view frame.now) }
{
    match &frame.label {
        Label::Key(_) => true,
        _ => false,
    }
}

/// Whether all frames from this place on are leaves.
#[inline(always)]
pub(crate) fn are_leaves(frames: &Vec<Frame>, from: usize) -> bool
    requires { from ≤ vec_len frames.now }
    ensures { IsTrue result → AreLeaves (drop from (cells_of frames.now.items)) }
{
    let mut at = frames.len();
    while at > from {
        at -= 1;
        if !is_leaf(&frames[at]) {
            return false;
        }
    }
    true
}

/// Whether all frames from this place on are keys, each with a leaf after it.
#[inline(always)]
pub(crate) fn are_fields(frames: &Vec<Frame>, from: usize) -> bool
    requires { from ≤ vec_len frames.now }
    ensures { IsTrue result → AreFields (drop from (cells_of frames.now.items)) }
{
    let mut at = frames.len();
    while at > from {
        if at - from < 2 {
            return false;
        }
        at -= 2;
        if !is_key(&frames[at]) {
            return false;
        }
        if !is_leaf(&frames[at + 1]) {
            return false;
        }
    }
    true
}

/// The key of a frame.
#[inline(always)]
fn key(frame: &Frame) -> &'static str
    ensures { static_name result.now ≡ key_of (frame_view frame.now) }
{
    match &frame.label {
        Label::Key(key) => *key,
        _ => "",
    }
}

/// The value of a leaf, moved out of its frame. Any other frame gives the unit; no caller has one.
#[inline(always)]
fn take_leaf<'v, 'n>(alloc: Global, frame: &mut Frame) -> NamedValue<'v, 'n>
    ensures { tree_of result ≡ tree_at (frame_view frame.old) }
{
    match &mut frame.label {
        Label::Leaf(Leaf::Unit) => NamedValue::Unit,
        Label::Leaf(Leaf::Absent) => NamedValue::Option(None),
        Label::Leaf(Leaf::Bool(v)) => NamedValue::Bool(*v),
        Label::Leaf(Leaf::Char(v)) => NamedValue::Char(*v),
        Label::Leaf(Leaf::I8(v)) => NamedValue::Number(Number::I8(*v)),
        Label::Leaf(Leaf::U8(v)) => NamedValue::Number(Number::U8(*v)),
        Label::Leaf(Leaf::I16(v)) => NamedValue::Number(Number::I16(*v)),
        Label::Leaf(Leaf::U16(v)) => NamedValue::Number(Number::U16(*v)),
        Label::Leaf(Leaf::I32(v)) => NamedValue::Number(Number::I32(*v)),
        Label::Leaf(Leaf::U32(v)) => NamedValue::Number(Number::U32(*v)),
        Label::Leaf(Leaf::I64(v)) => NamedValue::Number(Number::I64(*v)),
        Label::Leaf(Leaf::U64(v)) => NamedValue::Number(Number::U64(*v)),
        Label::Leaf(Leaf::Wide(v)) => NamedValue::Number(**v),
        Label::Leaf(Leaf::Text(text)) => {
            let text = mem::replace(text, String::new(alloc));
            NamedValue::String(CowStr::Owned(text))
        }
        Label::Leaf(Leaf::Bytes(bytes)) => {
            let bytes = mem::replace(bytes, Vec::new(alloc));
            NamedValue::Bytes(CowBytes::Owned(bytes))
        }
        _ => NamedValue::Unit,
    }
}

/// One number more.
#[inline(always)]
fn push_number<'v, 'n>(items: &mut Vec<NamedValue<'v, 'n>>, number: Number)
    requires { vec_len items.old < vec_capacity items.old }
    ensures items { trees_view items.new.items
        ≡ push_tree (trees_view items.old.items) (tree.number number) }
    ensures len { vec_len items.new ≡ vec_len items.old + 1 }
    ensures capacity { vec_capacity items.new ≡ vec_capacity items.old }
{
    items.push_reserved(NamedValue::Number(number));
}

/// One item more. Each kind of number is pushed by itself, so that it is written to its place.
#[inline(always)]
fn push_item<'v, 'n>(alloc: Global, items: &mut Vec<NamedValue<'v, 'n>>, frame: &mut Frame)
    requires { vec_len items.old < vec_capacity items.old }
    ensures items { trees_view items.new.items
        ≡ push_tree (trees_view items.old.items) (tree_at (frame_view frame.old)) }
    ensures len { vec_len items.new ≡ vec_len items.old + 1 }
    ensures capacity { vec_capacity items.new ≡ vec_capacity items.old }
{
    match &frame.label {
        Label::Leaf(Leaf::I8(v)) => push_number(items, Number::I8(*v)),
        Label::Leaf(Leaf::U8(v)) => push_number(items, Number::U8(*v)),
        Label::Leaf(Leaf::I16(v)) => push_number(items, Number::I16(*v)),
        Label::Leaf(Leaf::U16(v)) => push_number(items, Number::U16(*v)),
        Label::Leaf(Leaf::I32(v)) => push_number(items, Number::I32(*v)),
        Label::Leaf(Leaf::U32(v)) => push_number(items, Number::U32(*v)),
        Label::Leaf(Leaf::I64(v)) => push_number(items, Number::I64(*v)),
        Label::Leaf(Leaf::U64(v)) => push_number(items, Number::U64(*v)),
        _ => items.push_reserved(take_leaf(alloc, frame)),
    }
}

/// One field more that is a number.
#[inline(always)]
fn push_number_field<'v, 'n>(
    fields: &mut Vec<(CowStr<'n>, NamedValue<'v, 'n>)>,
    key: &'static str,
    number: Number,
)
    requires { vec_len fields.old < vec_capacity fields.old }
    ensures fields { fields_view fields.new.items
        ≡ push_field (fields_view fields.old.items) (static_name key.now) (tree.number number) }
    ensures len { vec_len fields.new ≡ vec_len fields.old + 1 }
    ensures capacity { vec_capacity fields.new ≡ vec_capacity fields.old }
{
    fields.push_reserved((CowStr::Borrowed(key), NamedValue::Number(number)));
}

/// One field more.
#[inline(always)]
fn push_leaf_field<'v, 'n>(
    alloc: Global,
    fields: &mut Vec<(CowStr<'n>, NamedValue<'v, 'n>)>,
    key: &'static str,
    frame: &mut Frame,
)
    requires { vec_len fields.old < vec_capacity fields.old }
    ensures fields { fields_view fields.new.items
        ≡ push_field (fields_view fields.old.items) (static_name key.now)
        (tree_at (frame_view frame.old)) }
    ensures len { vec_len fields.new ≡ vec_len fields.old + 1 }
    ensures capacity { vec_capacity fields.new ≡ vec_capacity fields.old }
{
    match &frame.label {
        Label::Leaf(Leaf::I8(v)) => push_number_field(fields, key, Number::I8(*v)),
        Label::Leaf(Leaf::U8(v)) => push_number_field(fields, key, Number::U8(*v)),
        Label::Leaf(Leaf::I16(v)) => push_number_field(fields, key, Number::I16(*v)),
        Label::Leaf(Leaf::U16(v)) => push_number_field(fields, key, Number::U16(*v)),
        Label::Leaf(Leaf::I32(v)) => push_number_field(fields, key, Number::I32(*v)),
        Label::Leaf(Leaf::U32(v)) => push_number_field(fields, key, Number::U32(*v)),
        Label::Leaf(Leaf::I64(v)) => push_number_field(fields, key, Number::I64(*v)),
        Label::Leaf(Leaf::U64(v)) => push_number_field(fields, key, Number::U64(*v)),
        _ => fields.push_reserved((CowStr::Borrowed(key), take_leaf(alloc, frame))),
    }
}

/// One pair more whose value is a number.
#[inline(always)]
fn push_number_pair<'v, 'n>(
    pairs: &mut Vec<(NamedValue<'v, 'n>, NamedValue<'v, 'n>)>,
    key: NamedValue<'v, 'n>,
    number: Number,
)
    requires { vec_len pairs.old < vec_capacity pairs.old }
    ensures pairs { pairs_view pairs.new.items
        ≡ push_pair (pairs_view pairs.old.items) (tree_of key.entry) (tree.number number) }
    ensures len { vec_len pairs.new ≡ vec_len pairs.old + 1 }
    ensures capacity { vec_capacity pairs.new ≡ vec_capacity pairs.old }
{
    pairs.push_reserved((key, NamedValue::Number(number)));
}

/// One pair more.
#[inline(always)]
fn push_leaf_pair<'v, 'n>(
    alloc: Global,
    pairs: &mut Vec<(NamedValue<'v, 'n>, NamedValue<'v, 'n>)>,
    key: NamedValue<'v, 'n>,
    frame: &mut Frame,
)
    requires { vec_len pairs.old < vec_capacity pairs.old }
    ensures pairs { pairs_view pairs.new.items
        ≡ push_pair (pairs_view pairs.old.items) (tree_of key.entry)
        (tree_at (frame_view frame.old)) }
    ensures len { vec_len pairs.new ≡ vec_len pairs.old + 1 }
    ensures capacity { vec_capacity pairs.new ≡ vec_capacity pairs.old }
{
    match &frame.label {
        Label::Leaf(Leaf::I8(v)) => push_number_pair(pairs, key, Number::I8(*v)),
        Label::Leaf(Leaf::U8(v)) => push_number_pair(pairs, key, Number::U8(*v)),
        Label::Leaf(Leaf::I16(v)) => push_number_pair(pairs, key, Number::I16(*v)),
        Label::Leaf(Leaf::U16(v)) => push_number_pair(pairs, key, Number::U16(*v)),
        Label::Leaf(Leaf::I32(v)) => push_number_pair(pairs, key, Number::I32(*v)),
        Label::Leaf(Leaf::U32(v)) => push_number_pair(pairs, key, Number::U32(*v)),
        Label::Leaf(Leaf::I64(v)) => push_number_pair(pairs, key, Number::I64(*v)),
        Label::Leaf(Leaf::U64(v)) => push_number_pair(pairs, key, Number::U64(*v)),
        _ => pairs.push_reserved((key, take_leaf(alloc, frame))),
    }
}

/// The values of the leaves from this place on, moved out of their frames.
#[inline(always)]
pub(crate) fn leaf_items<'v, 'n>(
    alloc: Global,
    frames: &mut Vec<Frame>,
    from: usize,
) -> Result<Vec<NamedValue<'v, 'n>>, AllocError>
    requires inside { from ≤ vec_len frames.old }
    requires leaves { AreLeaves (drop from (cells_of frames.old.items)) }
    ensures { IfOk result (λ items.
        (trees_view items.items ≡ all_trees (read (drop from (cells_of frames.old.items)) []))
        × (take from frames.new.items ≡ take from frames.old.items)) }
{
    let mut items = Vec::with_capacity(alloc, frames.len() - from)?;
    for at in from..frames.len() {
        push_item(alloc, &mut items, &mut frames[at]);
    }
    Ok(items)
}

/// The fields from this place on, with their values moved out of the frames.
#[inline(always)]
pub(crate) fn leaf_fields<'v, 'n>(
    alloc: Global,
    frames: &mut Vec<Frame>,
    from: usize,
) -> Result<Vec<(CowStr<'n>, NamedValue<'v, 'n>)>, AllocError>
    requires inside { from ≤ vec_len frames.old }
    requires fields { AreFields (drop from (cells_of frames.old.items)) }
    ensures { IfOk result (λ fields.
        (fields_view fields.items ≡ all_fields (read (drop from (cells_of frames.old.items)) []))
        × (take from frames.new.items ≡ take from frames.old.items)) }
{
    let mut fields = Vec::with_capacity(alloc, (frames.len() - from) / 2)?;
    let mut at = from;
    while frames.len() - at > 1 {
        let name = key(&frames[at]);
        push_leaf_field(alloc, &mut fields, name, &mut frames[at + 1]);
        at += 2;
    }
    Ok(fields)
}

/// The leaves from this place on as keys and values in turn, moved out of their frames.
#[inline(always)]
pub(crate) fn leaf_pairs<'v, 'n>(
    alloc: Global,
    frames: &mut Vec<Frame>,
    from: usize,
) -> Result<Vec<(NamedValue<'v, 'n>, NamedValue<'v, 'n>)>, AllocError>
    requires inside { from ≤ vec_len frames.old }
    requires leaves { AreLeaves (drop from (cells_of frames.old.items)) }
    ensures { IfOk result (λ pairs.
        (pairs_view pairs.items ≡ all_pairs (read (drop from (cells_of frames.old.items)) []))
        × (take from frames.new.items ≡ take from frames.old.items)) }
{
    let mut pairs = Vec::with_capacity(alloc, (frames.len() - from) / 2)?;
    let mut at = from;
    while frames.len() - at > 1 {
        let key = take_leaf(alloc, &mut frames[at]);
        push_leaf_pair(alloc, &mut pairs, key, &mut frames[at + 1]);
        at += 2;
    }
    Ok(pairs)
}
