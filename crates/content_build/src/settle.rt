//! What a finished tree does at the end of the tape.

ghost use Rattle.std.specs.Prelude.{◌≡◌, ◌<◌, ◌≤◌, ◌-◌, ◌++◌, ◌∷◌, List, length, take, drop};
ghost use Rattle.std.specs.Prelude.{vec_len, Some};
ghost use Rattle.content_tree.specs.Values.Tree.{Tree};
ghost use Rattle.content_build.specs.Partial.{Slot, fill};
ghost use Rattle.content_build.specs.Inner.Cells as cells;
ghost use Rattle.content_build.specs.Inner.Cells.{Open, opened, with_size, Waiting, Stood};
ghost use Rattle.content_build.specs.Inner.Frames.{cells_of};
ghost use Rattle.content_build.specs.Inner.Sound.{IsWaiting};
ghost use Rattle.content_build.specs.Inner.Taken.{TakenTo};

use crate::frame::{Frame, Label, Leaf, Opening, Waits};
use crate::refusal::Taken;
use crate::room::push_one;

/// The node at this place has all its frames.
#[inline(always)]
pub(crate) fn close(frames: &mut Vec<Frame>, at: usize)
    requires { at < vec_len frames.old }
    ensures { cells_of frames.new.items
        ≡ with_size (cells_of frames.old.items) at (length (cells_of frames.old.items) - at) }
{
    let size = frames.len() - at;
    let frame = &mut frames[at];
    frame.size = size;
}

/// Takes these frames out.
fn take_out(frames: &mut Vec<Frame>, from: usize, to: usize)
    requires order { from ≤ to }
    requires inside { to ≤ vec_len frames.old }
    ensures { frames.new.items ≡ take from frames.old.items ++ drop to frames.old.items }
{
    drop(frames.drain(from..to));
}

/// The tree at the end takes the place of the last value, where there is one.
#[inline(never)]
fn replace(frames: &mut Vec<Frame>, at: usize, last: usize)
    requires { (ps : List Slot) × (t : Tree) × (os : List Open)
        × Waiting (cells_of frames.old.items) (opened at last cells.a_value ∷ os) ps t }
    ensures { (ps : List Slot) (t : Tree) (os : List Open)
        → Waiting (cells_of frames.old.items) (opened at last cells.a_value ∷ os) ps t
        → Stood (cells_of frames.new.items) (opened at last cells.in_map ∷ os) (fill ps t) }
{
    if last == 0 {
        frames.truncate(at + 1);
    } else {
        let size = frames[last].size;
        take_out(frames, last, last + size);
    }
}

/// Fills the innermost slot with the finished tree at the end of the tape.
#[inline(always)]
pub(crate) fn settle(frames: &mut Vec<Frame>, openings: &mut Vec<Opening>) -> Taken
    requires { (ps : List Slot) × (t : Tree)
        × IsWaiting frames.old.items openings.old.items ps t }
    ensures { (ps : List Slot) (t : Tree)
        → IsWaiting frames.old.items openings.old.items ps t
        → TakenTo (Some (fill ps t)) result frames.new.items openings.new.items }
{
    let mut count = openings.len();
    while count > 0 {
        count -= 1;
        let opening = &mut openings[count];
        match opening.waits {
            Waits::Child => {
                let at = opening.at;
                openings.truncate(count);
                close(frames, at);
            }
            Waits::Element => {
                opening.waits = Waits::InElements;
                return Ok(());
            }
            Waits::TupleField => {
                opening.waits = Waits::InTupleFields;
                return Ok(());
            }
            Waits::Key => {
                opening.last = frames.len();
                opening.waits = Waits::InMap;
                let placeholder = Frame {
                    label: Label::Leaf(Leaf::Unit),
                    size: 1,
                };
                push_one(frames, placeholder)?;
                return Ok(());
            }
            Waits::Value => {
                opening.waits = Waits::InMap;
                let at = opening.at;
                let last = opening.last;
                replace(frames, at, last);
                return Ok(());
            }
            Waits::EntryKey => {
                opening.last = frames.len();
                opening.waits = Waits::EntryValue;
                return Ok(());
            }
            Waits::EntryValue => {
                opening.waits = Waits::InMap;
                return Ok(());
            }
            Waits::Field => {
                opening.waits = Waits::InRecord;
                return Ok(());
            }
            Waits::InElements => return Ok(()),
            Waits::InTupleFields => return Ok(()),
            Waits::InMap => return Ok(()),
            Waits::InRecord => return Ok(()),
        }
    }
    Ok(())
}
