//! From the tape to the value.

#![tactic(auto, using(crate::proofs::Pushes::pushes))]

ghost use Rattle.std.specs.Prelude.{◌≡◌, ◌-◌, ◌<◌, ◌∷◌, [], IfOk, MatchOption};
ghost use Rattle.std.specs.Prelude.{take, vec_len};
ghost use Rattle.content_tree.specs.Values.Text.{static_name};
ghost use Rattle.content_tree.specs.Values.Tree.{Tree};
ghost use Rattle.content_tree.specs.Values.Value.{tree_of, tree_data_of, trees_view, pairs_view};
ghost use Rattle.content_tree.specs.Values.Value.{fields_view};
ghost use Rattle.content_ser.specs.Calls.Head.{head_of};
ghost use Rattle.content_build.specs.Inner.Cells as cells;
ghost use Rattle.content_build.specs.Inner.Cells.{cell, flat, names_of};
ghost use Rattle.content_build.specs.Inner.Frames.{cells_of, frame_view, sort_view};
ghost use Rattle.content_build.specs.Inner.Forest as forest;
ghost use Rattle.content_build.specs.Inner.Forest.{data_near, fields_near, no_key, pairs_near};
ghost use Rattle.content_build.specs.Inner.Forest.{past, read};
ghost use Rattle.content_build.specs.Inner.Forest.{past_data, past_fields, plant, plant_key};
ghost use Rattle.content_build.specs.Inner.Forest.{trees_near};
ghost use Rattle.content_build.specs.Inner.Values.{grown_trees};

use crate::flat::flat_node;
use crate::frame::{Frame, Label, Sort, leaf_value};
use crate::parts::with_head;
use crate::room::push_one;
use content_ser::Head;
use content_tree::{CowStr, NamedData, NamedValue};
use std::alloc::{AllocError, Global};

/// A value with its key, which is empty where it is no field, and the number of its frames.
#[derive(Drop)]
pub(crate) struct Grown<'v, 'n> {
    value: NamedValue<'v, 'n>,
    key: &'static str,
    size: usize,
}

/// How many of the last values have this many frames together, each with this many for its key.
#[inline(always)]
fn count<'v, 'n>(grown: &Vec<Grown<'v, 'n>>, size: usize, keys: usize) -> usize {
    let mut left = size;
    let mut at = grown.len();
    while left > 0 && at > 0 {
        at -= 1;
        left = left.saturating_sub(grown[at].size).saturating_sub(keys);
    }
    grown.len() - at
}

/// The last values, the last first, that have this many frames.
fn take_items<'v, 'n>(
    alloc: Global,
    grown: &mut Vec<Grown<'v, 'n>>,
    size: usize,
) -> Result<Vec<NamedValue<'v, 'n>>, AllocError>
    ensures { IfOk result (λ items.
        (trees_view items.items ≡ trees_near size (grown_trees grown.old.items))
        × (grown_trees grown.new.items ≡ past size (grown_trees grown.old.items))) }
{
    let mut left = size;
    let mut items = Vec::with_capacity(alloc, count(grown, size, 0))?;
    while left > 0 {
        match grown.pop() {
            None => return Ok(items),
            Some(Grown { value, size, .. }) => {
                left = left.saturating_sub(size);
                push_one(&mut items, value)?;
            }
        }
    }
    Ok(items)
}

/// The last values, the last first, that have this many frames with their keys.
fn take_fields<'v, 'n>(
    alloc: Global,
    grown: &mut Vec<Grown<'v, 'n>>,
    size: usize,
) -> Result<Vec<(CowStr<'n>, NamedValue<'v, 'n>)>, AllocError>
    ensures { IfOk result (λ fields.
        (fields_view fields.items ≡ fields_near size (grown_trees grown.old.items))
        × (grown_trees grown.new.items ≡ past_fields size (grown_trees grown.old.items))) }
{
    let mut left = size;
    let mut fields = Vec::with_capacity(alloc, count(grown, size, 1))?;
    while left > 0 {
        match grown.pop() {
            None => return Ok(fields),
            Some(Grown { value, key, size }) => {
                left = left.saturating_sub(size).saturating_sub(1);
                push_one(&mut fields, (CowStr::Borrowed(key), value))?;
            }
        }
    }
    Ok(fields)
}

/// The last values, the last first, in pairs that have this many frames.
fn take_pairs<'v, 'n>(
    alloc: Global,
    grown: &mut Vec<Grown<'v, 'n>>,
    size: usize,
) -> Result<Vec<(NamedValue<'v, 'n>, NamedValue<'v, 'n>)>, AllocError>
    ensures { IfOk result (λ pairs.
        (pairs_view pairs.items ≡ pairs_near size (grown_trees grown.old.items))
        × (grown_trees grown.new.items ≡ past size (grown_trees grown.old.items))) }
{
    let mut left = size;
    let mut pairs = Vec::with_capacity(alloc, count(grown, size, 0) / 2)?;
    while left > 0 {
        match grown.pop() {
            None => return Ok(pairs),
            Some(
                Grown {
                    value: key,
                    size,
                    ..
                },
            ) => {
                left = left.saturating_sub(size);
                if left == 0 {
                    return Ok(pairs);
                }
                match grown.pop() {
                    None => return Ok(pairs),
                    Some(Grown { value, size, .. }) => {
                        left = left.saturating_sub(size);
                        push_one(&mut pairs, (key, value))?;
                    }
                }
            }
        }
    }
    Ok(pairs)
}

/// One value more, with no key.
#[inline(always)]
pub(crate) fn add<'v, 'n>(
    grown: &mut Vec<Grown<'v, 'n>>,
    value: NamedValue<'v, 'n>,
    size: usize,
) -> Result<(), AllocError>
    ensures { IfOk result (λ _. grown_trees grown.new.items
        ≡ forest.grown no_key (tree_of value.entry) size ∷ grown_trees grown.old.items) }
{
    let one = Grown {
        value,
        key: "",
        size,
    };
    push_one(grown, one)?;
    Ok(())
}

/// What a struct or a variant of this sort holds, in this many frames.
#[inline(always)]
fn held<'v, 'n>(
    alloc: Global,
    grown: &mut Vec<Grown<'v, 'n>>,
    sort: Sort,
    size: usize,
) -> Result<NamedData<'v, 'n>, AllocError>
    ensures { IfOk result (λ held.
        (tree_data_of held ≡ data_near (sort_view sort) size (grown_trees grown.old.items))
        × (grown_trees grown.new.items
        ≡ past_data (sort_view sort) size (grown_trees grown.old.items))) }
{
    match sort {
        Sort::Nothing => Ok(NamedData::Unit),
        Sort::One => match grown.pop() {
            None => Ok(NamedData::Unit),
            Some(Grown { value, .. }) => Ok(NamedData::NewType { value }),
        },
        Sort::Many => {
            let values = take_items(alloc, grown, size)?;
            Ok(NamedData::Tuple { values })
        }
        Sort::Fields => {
            let fields = take_fields(alloc, grown, size)?;
            Ok(NamedData::Struct { fields })
        }
    }
}

/// The last value becomes present.
#[inline(never)]
fn grow_present<'v, 'n>(
    alloc: Global,
    grown: &mut Vec<Grown<'v, 'n>>,
    size: usize,
) -> Result<(), AllocError>
    ensures { IfOk result (λ _. grown_trees grown.new.items
        ≡ plant (cell cells.present size) (grown_trees grown.old.items)) }
{
    match grown.pop() {
        None => Ok(()),
        Some(Grown { value, .. }) => {
            let child = Box::new(alloc, value)?;
            add(grown, NamedValue::Option(Some(child)), size)
        }
    }
}

/// A sequence of the last values.
#[inline(never)]
fn grow_seq<'v, 'n>(
    alloc: Global,
    grown: &mut Vec<Grown<'v, 'n>>,
    size: usize,
) -> Result<(), AllocError>
    ensures { IfOk result (λ _. grown_trees grown.new.items
        ≡ plant (cell cells.seq size) (grown_trees grown.old.items)) }
{
    let items = take_items(alloc, grown, size.saturating_sub(1))?;
    add(grown, NamedValue::Seq(items), size)
}

/// A tuple of the last values.
#[inline(never)]
fn grow_tuple<'v, 'n>(
    alloc: Global,
    grown: &mut Vec<Grown<'v, 'n>>,
    size: usize,
) -> Result<(), AllocError>
    ensures { IfOk result (λ _. grown_trees grown.new.items
        ≡ plant (cell cells.tuple size) (grown_trees grown.old.items)) }
{
    let items = take_items(alloc, grown, size.saturating_sub(1))?;
    add(grown, NamedValue::Tuple(items), size)
}

/// A map of the last values.
#[inline(never)]
fn grow_map<'v, 'n>(
    alloc: Global,
    grown: &mut Vec<Grown<'v, 'n>>,
    size: usize,
) -> Result<(), AllocError>
    ensures { IfOk result (λ _. grown_trees grown.new.items
        ≡ plant (cell cells.map size) (grown_trees grown.old.items)) }
{
    let pairs = take_pairs(alloc, grown, size.saturating_sub(1))?;
    add(grown, NamedValue::Map(pairs), size)
}

/// A struct or a variant that holds the last values.
#[inline(never)]
fn grow_headed<'v, 'n>(
    alloc: Global,
    grown: &mut Vec<Grown<'v, 'n>>,
    sort: Sort,
    head: Head,
    size: usize,
) -> Result<(), AllocError>
    ensures { IfOk result (λ _. grown_trees grown.new.items
        ≡ plant (cell (cells.headed (sort_view sort) (names_of (head_of head))) size)
        (grown_trees grown.old.items)) }
{
    let data = held(alloc, grown, sort, size.saturating_sub(1))?;
    let value = with_head(alloc, head, data)?;
    add(grown, value, size)
}

/// The last value gets this key.
#[inline(always)]
fn give_key<'v, 'n>(grown: &mut Vec<Grown<'v, 'n>>, key: &'static str)
    ensures { grown_trees grown.new.items
        ≡ plant_key (static_name key.now) (grown_trees grown.old.items) }
{
    let count = grown.len();
    if count > 0 {
        let last = &mut grown[count - 1];
        last.key = key;
    }
}

/// One frame more, whose children are the last values.
#[inline(always)]
fn grow_one<'v, 'n>(
    alloc: Global,
    grown: &mut Vec<Grown<'v, 'n>>,
    next: Frame,
) -> Result<(), AllocError>
    ensures { IfOk result (λ _. grown_trees grown.new.items
        ≡ plant (frame_view next) (grown_trees grown.old.items)) }
{
    let Frame { label, size } = next;
    match label {
        Label::Leaf(leaf) => add(grown, leaf_value(leaf), size),
        Label::Present => grow_present(alloc, grown, size),
        Label::Seq => grow_seq(alloc, grown, size),
        Label::Tuple => grow_tuple(alloc, grown, size),
        Label::Map => grow_map(alloc, grown, size),
        Label::Struct(sort, name) => { grow_headed(alloc, grown, sort, Head::Struct(name), size) }
        Label::Variant(sort, index, name, variant) => {
            grow_headed(
                alloc,
                grown,
                sort,
                Head::Variant(name, index, variant),
                size,
            )
        }
        Label::Key(key) => {
            give_key(grown, key);
            Ok(())
        }
    }
}

/// Gives back the room of the frames that are gone. It is seldom done, and so isn't inlined.
#[cold]
#[inline(never)]
fn shrink(frames: &mut Vec<Frame>)
    ensures items { frames.new.items ≡ frames.old.items }
    ensures len { vec_len frames.new ≡ vec_len frames.old }
{
    frames.shrink_to_fit();
}

/// Gives back the room of the frames that are gone once these are the half.
#[inline(always)]
fn trim(frames: &mut Vec<Frame>)
    ensures items { frames.new.items ≡ frames.old.items }
    ensures len { vec_len frames.new ≡ vec_len frames.old }
{
    if frames.len() < frames.capacity() / 2 {
        shrink(frames);
    }
}

/// How many values there are at once when the first leaf has become one: it, and each node that
/// comes after it but is in none of these; keys of fields are counted too. It is only how much room
/// to begin with.
fn count_at_first(frames: &Vec<Frame>) -> usize {
    let mut at = 0;
    while at < frames.len() && frames[at].size > 1 {
        at += 1;
    }
    let mut count = 0;
    while at < frames.len() {
        at = at.saturating_add(frames[at].size.max(1));
        count += 1;
    }
    count
}

/// The place of the last node that isn't a leaf, or of the first.
fn last_node(frames: &Vec<Frame>) -> usize
    requires { 0 < vec_len frames.now }
    ensures { result < vec_len frames.now }
{
    let mut at = frames.len();
    while at > 0 {
        at -= 1;
        if frames[at].size != 1 {
            return at;
        }
    }
    0
}

/// Makes the values of the frames from this place on, one by one.
fn grow_each<'v, 'n>(
    alloc: Global,
    frames: &mut Vec<Frame>,
    grown: &mut Vec<Grown<'v, 'n>>,
    to: usize,
) -> Result<(), AllocError>
    ensures { IfOk result (λ _. (frames.new.items ≡ take to frames.old.items)
        × (read (cells_of frames.new.items) (grown_trees grown.new.items)
        ≡ read (cells_of frames.old.items) (grown_trees grown.old.items))) }
{
    while frames.len() > to {
        match frames.pop() {
            None => return Ok(()),
            Some(next) => grow_one(alloc, grown, next)?,
        }
    }
    Ok(())
}

/// Makes the values of the frames from this node on. A node that holds leaves alone is made at once.
#[inline(always)]
fn grow_node<'v, 'n>(
    alloc: Global,
    frames: &mut Vec<Frame>,
    grown: &mut Vec<Grown<'v, 'n>>,
    at: usize,
) -> Result<(), AllocError>
    requires { at < vec_len frames.old }
    ensures { IfOk result (λ _. (frames.new.items ≡ take at frames.old.items)
        × (read (cells_of frames.new.items) (grown_trees grown.new.items)
        ≡ read (cells_of frames.old.items) (grown_trees grown.old.items))) }
{
    let end = at.saturating_add(frames[at].size.max(1));
    if end < frames.len() {
        grow_each(alloc, frames, grown, end)?;
    }
    if flat_node(alloc, frames, grown, at)? {
        return Ok(());
    }
    grow_each(alloc, frames, grown, at)
}

/// The value of a whole tape.
pub(crate) fn grow<'v, 'n>(
    alloc: Global,
    frames: Vec<Frame>,
) -> Result<Option<NamedValue<'v, 'n>>, AllocError>
    ensures { (t : Tree) → cells_of frames.items ≡ flat t
        → IfOk result (λ value. MatchOption value ⊥ (λ v. tree_of v ≡ t)) }
{
    let mut frames = frames;
    let mut grown = Vec::with_capacity(alloc, count_at_first(&frames))?;
    while frames.len() > 0 {
        let at = last_node(&frames);
        grow_node(alloc, &mut frames, &mut grown, at)?;
        trim(&mut frames);
    }
    match grown.pop() {
        None => Ok(None),
        Some(Grown { value, .. }) => Ok(Some(value)),
    }
}
