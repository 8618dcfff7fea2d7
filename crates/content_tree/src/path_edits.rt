//! Changes a value at the place that a path leads to, by JSON Pointer (RFC 6901).
//!
//! A part is removed or added in three steps: what holds it is taken out, changed and put back.

#![tactic(auto, using(crate::proofs::PathEditing::path_editing))]

ghost use Rattle.std.specs.Prelude.{◌≡◌, ◌∷◌, false, Some, None, IfErr, IfOk, IsOk, IsSome, OnErr};
ghost use Rattle.std.specs.Prelude.{MatchOption, MatchResult, option_map, is_some, string_bytes};
ghost use Rattle.content_tree.specs.Values.Edits.{IsRefused};
ghost use Rattle.content_tree.specs.Values.PathEdits.{removed_at, set_at, names_end, IsTakenOut};
ghost use Rattle.content_tree.specs.Values.Paths.{unescape};
ghost use Rattle.content_tree.specs.Values.Pointers.{pointer};
ghost use Rattle.content_tree.specs.Values.Trades.{IsAdded, HasNoSlash, IsCut, piece_removed};
ghost use Rattle.content_tree.specs.Values.Trades.{piece_added, added_at};
ghost use Rattle.content_tree.specs.Values.Tree.{seq, map};
ghost use Rattle.content_tree.specs.Values.Value.{tree_of, trees_view, pairs_view};

use crate::cow::CowStr;
use crate::edits::{InsertError, remove_pair};
use crate::pointer::index_of;
use crate::trades::{index_within, last_spelled_index, trade};
use crate::value::NamedValue;
use std::alloc::{AllocError, AllocFailed, Global};
use std::mem;
use std::result::Result as StdResult;

impl<'a, 'n> NamedValue<'a, 'n> {
    /// Removes what a path leads to, as [`pointer`](NamedValue::pointer) follows it, and gives it:
    /// an item of a sequence, or the value of the last entry of a map whose key is the path's last
    /// part. A tuple, a struct and a variant keep their parts, so nothing is removed from them. The
    /// empty path removes nothing either: [`take`](NamedValue::take) gives the whole value. This
    /// takes no memory.
    pub fn remove_pointer(&mut self, path: &str) -> Option<NamedValue<'a, 'n>>
        ensures { IsTakenOut (removed_at path.now (tree_of self.old)) (tree_of self.old)
            result (tree_of self.new) }
    {
        let (parents, piece) = path.rsplit_once('/')?;
        match trade(self, parents, NamedValue::Unit) {
            Ok(mut parent) => {
                let removed = remove_part(&mut parent, piece);
                let _unit = trade(self, parents, parent);
                removed
            }
            Err(_unit) => None,
        }
    }

    /// Puts a value where a path leads, as [`pointer`](NamedValue::pointer) follows it: in place of
    /// what it leads to, which it gives back. Where only the last part finds nothing, the value is
    /// added: to a map as its last entry, under the part as an owned text; to a sequence as its
    /// last item, if the part is `-` or the number of items. It takes memory only to add.
    ///
    /// # Errors
    ///
    /// The value, where the path leads nowhere else or an allocation failed. Then nothing changed.
    pub fn set_pointer(
        &mut self,
        alloc: Global,
        path: &str,
        value: NamedValue<'a, 'n>,
    ) -> StdResult<Option<NamedValue<'a, 'n>>, InsertError<NamedValue<'a, 'n>>>
        ensures tree { IfOk result (λ before. set_at path.now (tree_of value.entry)
            (tree_of self.old) ≡ Some (option_map tree_of before, tree_of self.new)) }
        ensures replaced { IfOk result (λ before. option_map tree_of before
            ≡ pointer path.now (tree_of self.old)) }
        ensures in_place { IsSome (pointer path.now (tree_of self.old)) → IsOk result }
        ensures refused { IfErr result (λ e. IsRefused (is_some (set_at path.now
            (tree_of value.entry) (tree_of self.old))) value.entry e) }
        ensures kept { OnErr result (tree_of self.new ≡ tree_of self.old) }
    {
        match trade(self, path, value) {
            Ok(before) => Ok(Some(before)),
            Err(value) => match add_at(self, alloc, path, value) {
                Ok(()) => Ok(None),
                Err(error) => Err(error),
            },
        }
    }
}

/// Removes the part of a value that a piece of a path spells, and gives it.
fn remove_part<'a, 'n>(parent: &mut NamedValue<'a, 'n>, piece: &str) -> Option<NamedValue<'a, 'n>>
    ensures { IsTakenOut (piece_removed piece.now (tree_of parent.old)) (tree_of parent.old)
        result (tree_of parent.new) }
{
    match mem::replace(parent, NamedValue::Unit) {
        NamedValue::Seq(mut items) => {
            let removed = remove_item(&mut items, piece);
            *parent = NamedValue::Seq(items);
            removed
        }
        NamedValue::Map(mut pairs) => {
            let removed = remove_entry(&mut pairs, piece);
            *parent = NamedValue::Map(pairs);
            removed
        }
        other => {
            *parent = other;
            None
        }
    }
}

/// Removes the item of the index that a piece of a path names.
fn remove_item<'a, 'n>(
    items: &mut Vec<NamedValue<'a, 'n>>,
    piece: &str,
) -> Option<NamedValue<'a, 'n>>
    ensures { IsTakenOut (piece_removed piece.now (seq (trees_view items.old.items)))
        (seq (trees_view items.old.items)) result (seq (trees_view items.new.items)) }
{
    match index_within(items.len(), piece) {
        Some(index) => Some(items.remove(index)),
        None => None,
    }
}

/// Removes the last entry whose key a piece of a path spells.
fn remove_entry<'a, 'n>(
    pairs: &mut Vec<(NamedValue<'a, 'n>, NamedValue<'a, 'n>)>,
    piece: &str,
) -> Option<NamedValue<'a, 'n>>
    ensures { IsTakenOut (piece_removed piece.now (map (pairs_view pairs.old.items)))
        (map (pairs_view pairs.old.items)) result (map (pairs_view pairs.new.items)) }
{
    match last_spelled_index(pairs, piece) {
        Some(index) => Some(remove_pair(pairs, index)),
        None => None,
    }
}

/// Adds a value at the last part of a path, which finds nothing.
fn add_at<'a, 'n>(
    place: &mut NamedValue<'a, 'n>,
    alloc: Global,
    path: &str,
    value: NamedValue<'a, 'n>,
) -> StdResult<(), InsertError<NamedValue<'a, 'n>>>
    ensures { IsAdded (added_at path.now (tree_of value.entry) (tree_of place.old))
        (tree_of place.old) value.entry (tree_of place.new) result }
{
    match path.rsplit_once('/') {
        Some((parents, piece)) => match trade(place, parents, NamedValue::Unit) {
            Ok(mut parent) => {
                let added = add_part(&mut parent, alloc, piece, value);
                let _unit = trade(place, parents, parent);
                added
            }
            Err(_unit) => Err(InsertError::NoPlace(value)),
        },
        None => Err(InsertError::NoPlace(value)),
    }
}

/// Adds a value to a sequence or a map, where a piece of a path says.
fn add_part<'a, 'n>(
    parent: &mut NamedValue<'a, 'n>,
    alloc: Global,
    piece: &str,
    value: NamedValue<'a, 'n>,
) -> StdResult<(), InsertError<NamedValue<'a, 'n>>>
    requires { HasNoSlash piece.now }
    ensures { IsAdded (piece_added piece.now (tree_of value.entry) (tree_of parent.old))
        (tree_of parent.old) value.entry (tree_of parent.new) result }
{
    match mem::replace(parent, NamedValue::Unit) {
        NamedValue::Seq(mut items) => {
            let added = add_item(&mut items, piece, value);
            *parent = NamedValue::Seq(items);
            added
        }
        NamedValue::Map(mut pairs) => {
            let added = add_entry(&mut pairs, alloc, piece, value);
            *parent = NamedValue::Map(pairs);
            added
        }
        other => {
            *parent = other;
            Err(InsertError::NoPlace(value))
        }
    }
}

/// Adds an item after the last, if a piece of a path says so.
fn add_item<'a, 'n>(
    items: &mut Vec<NamedValue<'a, 'n>>,
    piece: &str,
    value: NamedValue<'a, 'n>,
) -> StdResult<(), InsertError<NamedValue<'a, 'n>>>
    ensures { IsAdded (piece_added piece.now (tree_of value.entry)
        (seq (trees_view items.old.items))) (seq (trees_view items.old.items)) value.entry
        (seq (trees_view items.new.items)) result }
{
    if !names_end(items, piece) {
        return Err(InsertError::NoPlace(value));
    }
    match items.push(value) {
        Ok(()) => Ok(()),
        Err(failed) => Err(InsertError::from(failed)),
    }
}

/// Whether a piece of a path names the end of these items.
fn names_end<'a, 'n>(items: &[NamedValue<'a, 'n>], piece: &str) -> bool
    ensures { MatchOption (unescape piece.now) (result ≡ false)
        (λ part. result ≡ names_end part (trees_view items.now)) }
{
    if piece == "-" {
        return true;
    }
    match index_of(piece) {
        Some(index) => index == items.len(),
        None => false,
    }
}

/// Adds an entry after the last, under the text that a piece of a path spells.
fn add_entry<'a, 'n>(
    pairs: &mut Vec<(NamedValue<'a, 'n>, NamedValue<'a, 'n>)>,
    alloc: Global,
    piece: &str,
    value: NamedValue<'a, 'n>,
) -> StdResult<(), InsertError<NamedValue<'a, 'n>>>
    requires { HasNoSlash piece.now }
    ensures { IsAdded (piece_added piece.now (tree_of value.entry)
        (map (pairs_view pairs.old.items))) (map (pairs_view pairs.old.items)) value.entry
        (map (pairs_view pairs.new.items)) result }
{
    match spelled_text(alloc, piece) {
        Ok(Some(text)) => {
            match pairs.push((NamedValue::String(CowStr::Owned(text)), value)) {
                Ok(()) => Ok(()),
                Err(failed) => {
                    let AllocFailed { value: pair } = failed;
                    let (_key, value) = pair;
                    Err(InsertError::OutOfMemory(value))
                }
            }
        }
        Ok(None) => Err(InsertError::NoPlace(value)),
        Err(_failed) => Err(InsertError::OutOfMemory(value)),
    }
}

/// The text that a piece of a path spells, if it spells one: owned.
fn spelled_text(alloc: Global, piece: &str) -> StdResult<Option<String>, AllocError>
    requires { HasNoSlash piece.now }
    ensures { MatchResult result (λ text. option_map string_bytes text ≡ unescape piece.now)
        (λ failed. IsSome (unescape piece.now)) }
{
    if !spells_some(piece) {
        return Ok(None);
    }
    let mut text = String::new(alloc);
    let mut left = piece;
    while let Some((before, after)) = left.split_once('~') {
        match after_tilde(after) {
            Some((character, rest)) => {
                text.push_str(before)?;
                text.push(character)?;
                left = rest;
            }
            None => return Ok(None),
        }
    }
    text.push_str(left)?;
    Ok(Some(text))
}

/// Whether a piece of a path spells a text: `0` or `1` follows each `~`.
fn spells_some(piece: &str) -> bool
    requires { HasNoSlash piece.now }
    ensures { result ≡ is_some (unescape piece.now) }
{
    let mut left = piece;
    while let Some((_before, after)) = left.split_once('~') {
        match after_tilde(after) {
            Some((_character, rest)) => left = rest,
            None => return false,
        }
    }
    true
}

/// The character that `~` and the first byte after it spell, and what follows.
fn after_tilde(after: &str) -> Option<(char, &str)>
    ensures { MatchOption result (unescape (126 ∷ after.now) ≡ None)
        (λ cut. IsCut after.now cut.0 cut.1.now) }
{
    if let Some(rest) = after.strip_prefix('0') {
        return Some(('~', rest));
    }
    let rest = after.strip_prefix('1')?;
    Some(('/', rest))
}
