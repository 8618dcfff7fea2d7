//! Follows a path into a value, by JSON Pointer (RFC 6901): borrowed, and without memory.

#![tactic(auto, using(crate::proofs::Pointing::pointing))]

ghost use Rattle.std.specs.Prelude.{◌≡◌, ◌≢◌, ◌≤◌, ◌++◌, ◌^◌, ℕ, List, MatchOption, IfSome};
ghost use Rattle.std.specs.Prelude.{option_map};
ghost use Rattle.content_tree.specs.Values.Paths.{escaped, unescape, index_of};
ghost use Rattle.content_tree.specs.Values.Lookups.{last_value};
ghost use Rattle.content_tree.specs.Values.Places.{place_view, is_part, is_key, found_item};
ghost use Rattle.content_tree.specs.Values.Places.{found_field, found_in, found_step_in, found_step};
ghost use Rattle.content_tree.specs.Values.Pointers.{pointer, entered, value_at};
ghost use Rattle.content_tree.specs.Values.Value.{tree_of, tree_data_of, trees_view, pairs_view};
ghost use Rattle.content_tree.specs.Values.Value.{fields_view};

use crate::cow::CowStr;
use crate::lookup::item_of;
use crate::value::{NamedData, NamedValue};

impl<'a, 'n> NamedValue<'a, 'n> {
    /// Finds the value that a JSON Pointer (RFC 6901) leads to. The empty path leads to this value.
    /// Any other is a list of parts, each after a `/`, with `~1` for `/` and `~0` for `~`.
    ///
    /// | In | A part finds |
    /// |---|---|
    /// | a sequence, a tuple, a tuple struct | the item of this index: `0`, or digits that begin with no `0` |
    /// | a map | the value of the last key that is this text; other keys, also numbers, aren't found |
    /// | a struct with fields | the last field of this name |
    /// | a variant of this name | what it holds: its one value, or what the next part finds in its items or fields |
    ///
    /// So a path that ends at the name of a variant finds a value only if the variant holds one. As
    /// for [`get`](NamedValue::get), nothing is found in any other value: not under `Some`, nor in
    /// a newtype struct. It takes no memory.
    pub fn pointer(&self, path: &str) -> Option<&NamedValue<'a, 'n>>
        ensures { option_map (λ value. tree_of value.now) result
            ≡ pointer path.now (tree_of self.now) }
    {
        if path.is_empty() {
            return Some(self);
        }
        let pieces = path.strip_prefix('/')?;
        let mut place = Place::Value(self);
        for piece in pieces.split('/') {
            place = step(place, piece)?;
        }
        value_at(place)
    }
}

/// Where a path has come.
#[derive(Clone, Copy)]
enum Place<'v, 'a, 'n> {
    /// At a value.
    Value(&'v NamedValue<'a, 'n>),
    /// Inside a variant, at what it holds.
    Variant(&'v NamedData<'a, 'n>),
}

/// The value at a place: none inside a variant.
fn value_at<'v, 'a, 'n>(place: Place<'v, 'a, 'n>) -> Option<&'v NamedValue<'a, 'n>>
    ensures { option_map (λ value. tree_of value.now) result ≡ value_at (place_view place.entry) }
{
    match place {
        Place::Value(value) => Some(value),
        Place::Variant(_) => None,
    }
}

/// Where a piece of a path leads from a place.
fn step<'v, 'a, 'n>(place: Place<'v, 'a, 'n>, piece: &str) -> Option<Place<'v, 'a, 'n>>
    ensures { option_map place_view result
        ≡ found_step (unescape piece.now) (place_view place.entry) }
{
    match place {
        Place::Value(value) => step_in(value, piece),
        Place::Variant(inside) => Some(Place::Value(part_in(inside, piece)?)),
    }
}

/// Where a piece of a path leads from a value.
fn step_in<'v, 'a, 'n>(value: &'v NamedValue<'a, 'n>, piece: &str) -> Option<Place<'v, 'a, 'n>>
    ensures { option_map place_view result
        ≡ found_step_in (unescape piece.now) (tree_of value.now) }
{
    match value {
        NamedValue::Seq(items) => Some(Place::Value(part_of(items, piece)?)),
        NamedValue::Tuple(items) => Some(Place::Value(part_of(items, piece)?)),
        NamedValue::Map(pairs) => Some(Place::Value(last_spelled_key(pairs, piece)?)),
        NamedValue::Struct(node) => Some(Place::Value(part_in(&node.data, piece)?)),
        NamedValue::Enum(node) if spells(piece, node.variant.as_str()) => Some(entered(&node.data)),
        _ => None,
    }
}

/// The place where a variant is entered: its one value, or what else it holds.
fn entered<'v, 'a, 'n>(inside: &'v NamedData<'a, 'n>) -> Place<'v, 'a, 'n>
    ensures { place_view result ≡ entered (tree_data_of inside.now) }
{
    match inside {
        NamedData::NewType { value } => Place::Value(value),
        _ => Place::Variant(inside),
    }
}

/// What a piece of a path finds in what a struct or a variant holds.
fn part_in<'v, 'a, 'n>(inside: &'v NamedData<'a, 'n>, piece: &str) -> Option<&'v NamedValue<'a, 'n>>
    ensures { option_map (λ value. tree_of value.now) result
        ≡ found_in (unescape piece.now) (tree_data_of inside.now) }
{
    match inside {
        NamedData::Tuple { values } => part_of(values, piece),
        NamedData::Struct { fields } => last_spelled_field(fields, piece),
        _ => None,
    }
}

/// The item of the index that a piece of a path names.
fn part_of<'v, 'a, 'n>(
    items: &'v [NamedValue<'a, 'n>],
    piece: &str,
) -> Option<&'v NamedValue<'a, 'n>>
    ensures { option_map (λ value. tree_of value.now) result
        ≡ found_item (unescape piece.now) (trees_view items.now) }
{
    item_of(items, index_of(piece)?)
}

/// The value of the last key that a piece of a path spells.
fn last_spelled_key<'v, 'a, 'n>(
    pairs: &'v [(NamedValue<'a, 'n>, NamedValue<'a, 'n>)],
    piece: &str,
) -> Option<&'v NamedValue<'a, 'n>>
    ensures { option_map (λ value. tree_of value.now) result
        ≡ last_value (is_key (unescape piece.now)) (pairs_view pairs.now) }
{
    let mut left = pairs.len();
    while left > 0 {
        left -= 1;
        if spells_key(piece, &pairs[left].0) {
            return Some(&pairs[left].1);
        }
    }
    None
}

/// Whether a piece of a path spells the text that this key is.
pub(crate) fn spells_key(piece: &str, key: &NamedValue<'_, '_>) -> bool
    ensures { result ≡ is_key (unescape piece.now) (tree_of key.now) }
{
    match key {
        NamedValue::String(text) => spells(piece, text.as_str()),
        _ => false,
    }
}

/// The value of the last field whose name a piece of a path spells.
fn last_spelled_field<'v, 'a, 'n>(
    fields: &'v [(CowStr<'n>, NamedValue<'a, 'n>)],
    piece: &str,
) -> Option<&'v NamedValue<'a, 'n>>
    ensures { option_map (λ value. tree_of value.now) result
        ≡ found_field (unescape piece.now) (fields_view fields.now) }
{
    let mut left = fields.len();
    while left > 0 {
        left -= 1;
        if spells(piece, fields[left].0.as_str()) {
            return Some(&fields[left].1);
        }
    }
    None
}

/// Whether a piece of a path spells this text.
pub(crate) fn spells(piece: &str, text: &str) -> bool
    ensures { result ≡ is_part (unescape piece.now) text.now }
{
    let mut left = piece.as_bytes();
    for byte in text.as_bytes() {
        match strip_escaped(left, *byte) {
            Some(rest) => left = rest,
            None => return false,
        }
    }
    left.is_empty()
}

/// What a piece of a path has after this byte, where it begins with it: with `~0` for `~`, with `~1`
/// for `/`.
fn strip_escaped(piece: &[u8], byte: u8) -> Option<&[u8]>
    ensures { MatchOption result ((rest : List ℕ) → piece.now ≢ escaped byte ++ rest)
        (λ rest. piece.now ≡ escaped byte ++ rest.now) }
{
    match byte {
        b'~' => piece.strip_prefix(b"~0"),
        b'/' => piece.strip_prefix(b"~1"),
        _ => piece.strip_prefix(&[byte]),
    }
}

/// The index that a piece of a path names, if it is within `usize`.
pub(crate) fn index_of(piece: &str) -> Option<usize>
    ensures { MatchOption result (IfSome (index_of piece.now) (λ index. 2 ^ 64 ≤ index))
        (λ index. index_of piece.now ≡ Some index) }
{
    let bytes = piece.as_bytes();
    // A number that is parsed may have a sign and zeros before its digits; an index may not.
    if bytes.is_empty() || bytes[0] == b'+' || (bytes[0] == b'0' && bytes.len() > 1) {
        return None;
    }
    piece.parse().ok()
}
