//! Nodes that hold leaves alone: their values are made at once.

ghost use Rattle.std.specs.Prelude.{◌≡◌, ◌<◌, ◌≤◌, ◌+◌, IfOk, MatchOption};
ghost use Rattle.std.specs.Prelude.{drop, take, vec_len};
ghost use Rattle.content_tree.specs.Values.Text.{static_name};
ghost use Rattle.content_tree.specs.Values.Value.{tree_data_of};
ghost use Rattle.content_build.specs.Inner.Cells as cells;
ghost use Rattle.content_build.specs.Inner.Cells.{enclose};
ghost use Rattle.content_build.specs.Inner.Frames.{cells_of, sort_view};
ghost use Rattle.content_build.specs.Inner.Leaves.{HoldsAs};
ghost use Rattle.content_build.specs.Inner.Values.{MakesLast};

use crate::frame::{Frame, Label, Sort};
use crate::grow::{Grown, add};
use crate::leaves::{are_fields, are_leaves, leaf_fields, leaf_items, leaf_pairs};
use crate::parts::with_head;
use content_ser::Head;
use content_tree::{NamedData, NamedValue};
use std::alloc::{AllocError, Global};

/// What a struct or a variant holds, if its frames, from this place on, are leaves alone. Their
/// values are moved out of the frames.
#[inline(always)]
fn flat_data<'v, 'n>(
    alloc: Global,
    frames: &mut Vec<Frame>,
    sort: Sort,
    from: usize,
) -> Result<Option<NamedData<'v, 'n>>, AllocError>
    requires { from ≤ vec_len frames.old }
    ensures { IfOk result (λ flat. MatchOption flat (frames.new.items ≡ frames.old.items) (λ held.
        (take from frames.new.items ≡ take from frames.old.items)
        × HoldsAs (sort_view sort) (drop from (cells_of frames.old.items)) (tree_data_of held))) }
{
    match sort {
        Sort::Nothing => Ok(None),
        Sort::One => Ok(None),
        Sort::Many => {
            if !are_leaves(frames, from) {
                return Ok(None);
            }
            let values = leaf_items(alloc, frames, from)?;
            Ok(Some(NamedData::Tuple { values }))
        }
        Sort::Fields => {
            if !are_fields(frames, from) {
                return Ok(None);
            }
            let fields = leaf_fields(alloc, frames, from)?;
            Ok(Some(NamedData::Struct { fields }))
        }
    }
}

/// Makes the value of the sequence at this place, the last node of the tape, if it holds leaves
/// alone. It says whether it did.
#[inline(never)]
fn flat_seq<'v, 'n>(
    alloc: Global,
    frames: &mut Vec<Frame>,
    grown: &mut Vec<Grown<'v, 'n>>,
    at: usize,
) -> Result<bool, AllocError>
    requires inside { at < vec_len frames.old }
    requires last { drop at (cells_of frames.old.items)
        ≡ enclose cells.seq (drop (at + 1) (cells_of frames.old.items)) }
    ensures { IfOk result
        (MakesLast at frames.old.items grown.old.items frames.new.items grown.new.items) }
{
    if !are_leaves(frames, at + 1) {
        return Ok(false);
    }
    let size = frames.len() - at;
    let items = leaf_items(alloc, frames, at + 1)?;
    frames.truncate(at);
    add(grown, NamedValue::Seq(items), size)?;
    Ok(true)
}

/// The same for a tuple.
#[inline(never)]
fn flat_tuple<'v, 'n>(
    alloc: Global,
    frames: &mut Vec<Frame>,
    grown: &mut Vec<Grown<'v, 'n>>,
    at: usize,
) -> Result<bool, AllocError>
    requires inside { at < vec_len frames.old }
    requires last { drop at (cells_of frames.old.items)
        ≡ enclose cells.tuple (drop (at + 1) (cells_of frames.old.items)) }
    ensures { IfOk result
        (MakesLast at frames.old.items grown.old.items frames.new.items grown.new.items) }
{
    if !are_leaves(frames, at + 1) {
        return Ok(false);
    }
    let size = frames.len() - at;
    let items = leaf_items(alloc, frames, at + 1)?;
    frames.truncate(at);
    add(grown, NamedValue::Tuple(items), size)?;
    Ok(true)
}

/// The same for a map.
#[inline(never)]
fn flat_map<'v, 'n>(
    alloc: Global,
    frames: &mut Vec<Frame>,
    grown: &mut Vec<Grown<'v, 'n>>,
    at: usize,
) -> Result<bool, AllocError>
    requires inside { at < vec_len frames.old }
    requires last { drop at (cells_of frames.old.items)
        ≡ enclose cells.map (drop (at + 1) (cells_of frames.old.items)) }
    ensures { IfOk result
        (MakesLast at frames.old.items grown.old.items frames.new.items grown.new.items) }
{
    if !are_leaves(frames, at + 1) {
        return Ok(false);
    }
    let size = frames.len() - at;
    let pairs = leaf_pairs(alloc, frames, at + 1)?;
    frames.truncate(at);
    add(grown, NamedValue::Map(pairs), size)?;
    Ok(true)
}

/// The same for a struct.
#[inline(never)]
fn flat_struct<'v, 'n>(
    alloc: Global,
    frames: &mut Vec<Frame>,
    grown: &mut Vec<Grown<'v, 'n>>,
    sort: Sort,
    name: &'static str,
    at: usize,
) -> Result<bool, AllocError>
    requires inside { at < vec_len frames.old }
    requires last { drop at (cells_of frames.old.items)
        ≡ enclose (cells.headed (sort_view sort) (cells.of_struct (static_name name.now)))
        (drop (at + 1) (cells_of frames.old.items)) }
    ensures { IfOk result
        (MakesLast at frames.old.items grown.old.items frames.new.items grown.new.items) }
{
    let size = frames.len() - at;
    match flat_data(alloc, frames, sort, at + 1)? {
        None => Ok(false),
        Some(held) => {
            frames.truncate(at);
            let value = with_head(alloc, Head::Struct(name), held)?;
            add(grown, value, size)?;
            Ok(true)
        }
    }
}

/// The same for a variant.
#[inline(never)]
fn flat_variant<'v, 'n>(
    alloc: Global,
    frames: &mut Vec<Frame>,
    grown: &mut Vec<Grown<'v, 'n>>,
    sort: Sort,
    index: u32,
    name: &'static str,
    variant: &'static str,
    at: usize,
) -> Result<bool, AllocError>
    requires inside { at < vec_len frames.old }
    requires last { drop at (cells_of frames.old.items)
        ≡ enclose (cells.headed (sort_view sort)
        (cells.of_variant (static_name name.now) index (static_name variant.now)))
        (drop (at + 1) (cells_of frames.old.items)) }
    ensures { IfOk result
        (MakesLast at frames.old.items grown.old.items frames.new.items grown.new.items) }
{
    let size = frames.len() - at;
    match flat_data(alloc, frames, sort, at + 1)? {
        None => Ok(false),
        Some(held) => {
            frames.truncate(at);
            let value = with_head(alloc, Head::Variant(name, index, variant), held)?;
            add(grown, value, size)?;
            Ok(true)
        }
    }
}

/// Makes the value of the node at this place, if it is the last of the tape and holds leaves alone.
/// It says whether it did.
#[inline(always)]
pub(crate) fn flat_node<'v, 'n>(
    alloc: Global,
    frames: &mut Vec<Frame>,
    grown: &mut Vec<Grown<'v, 'n>>,
    at: usize,
) -> Result<bool, AllocError>
    requires { at < vec_len frames.old }
    ensures { IfOk result
        (MakesLast at frames.old.items grown.old.items frames.new.items grown.new.items) }
{
    let frame = &frames[at];
    if frame.size != frames.len() - at {
        return Ok(false);
    }
    match &frame.label {
        Label::Seq => flat_seq(alloc, frames, grown, at),
        Label::Tuple => flat_tuple(alloc, frames, grown, at),
        Label::Map => flat_map(alloc, frames, grown, at),
        Label::Struct(sort, name) => {
            let sort = *sort;
            let name = *name;
            flat_struct(alloc, frames, grown, sort, name, at)
        }
        Label::Variant(sort, index, name, variant) => {
            let sort = *sort;
            let index = *index;
            let name = *name;
            let variant = *variant;
            flat_variant(alloc, frames, grown, sort, index, name, variant, at)
        }
        _ => Ok(false),
    }
}
