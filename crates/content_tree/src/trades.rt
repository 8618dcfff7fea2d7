//! Puts a value in place of the one that a path leads to, by JSON Pointer (RFC 6901).
//!
//! It goes down by recursion, as `==` and `drop` do: it takes stack for each part of the path that
//! finds anything, and no other memory.

#![tactic(auto, using(crate::proofs::Trading::trading))]

ghost use Rattle.std.specs.Prelude.{◌≡◌, ◌<◌, ◌≤◌, false, Some, None, IfSome, MatchOption, length};
ghost use Rattle.content_tree.specs.Values.Edits.{IsLastKey};
ghost use Rattle.content_tree.specs.Values.Paths.{unescape, parts_of, index_of};
ghost use Rattle.content_tree.specs.Values.Places.{is_key};
ghost use Rattle.content_tree.specs.Values.Trades.{IsTraded, traded, traded_in, traded_inside};
ghost use Rattle.content_tree.specs.Values.Trades.{traded_part, traded_item, traded_entry};
ghost use Rattle.content_tree.specs.Values.Trades.{traded_field, first_parts, is_one, IsLastField};
ghost use Rattle.content_tree.specs.Values.Value.{tree_of, tree_data_of, struct_tree, enum_tree};
ghost use Rattle.content_tree.specs.Values.Value.{trees_view, pairs_view, fields_view};

use crate::cow::CowStr;
use crate::pointer::{index_of, spells, spells_key};
use crate::value::{NamedData, NamedEnum, NamedStruct, NamedValue};
use std::mem;
use std::result::Result as StdResult;

/// Puts a value in place of the one that a path leads to, and gives that; or else gives it back.
#[cycle(trade)]
pub(crate) fn trade<'a, 'n>(
    place: &mut NamedValue<'a, 'n>,
    path: &str,
    value: NamedValue<'a, 'n>,
) -> StdResult<NamedValue<'a, 'n>, NamedValue<'a, 'n>>
    ensures { IsTraded (traded path.now (tree_of value.entry) (tree_of place.old))
        (tree_of place.old) value.entry (tree_of place.new) result }
{
    if path.is_empty() {
        return Ok(mem::replace(place, value));
    }
    match first_piece(path) {
        Some((piece, rest)) => trade_in(place, piece, rest, value),
        None => Err(value),
    }
}

/// The same by a piece of a path and the rest of the path.
#[cycle(trade)]
fn trade_in<'a, 'n>(
    place: &mut NamedValue<'a, 'n>,
    piece: &str,
    rest: &str,
    value: NamedValue<'a, 'n>,
) -> StdResult<NamedValue<'a, 'n>, NamedValue<'a, 'n>>
    ensures { IsTraded (traded_in piece.now rest.now (tree_of value.entry) (tree_of place.old))
        (tree_of place.old) value.entry (tree_of place.new) result }
{
    match mem::replace(place, NamedValue::Unit) {
        NamedValue::Seq(mut items) => {
            let traded = trade_item(&mut items, piece, rest, value);
            *place = NamedValue::Seq(items);
            traded
        }
        NamedValue::Tuple(mut items) => {
            let traded = trade_item(&mut items, piece, rest, value);
            *place = NamedValue::Tuple(items);
            traded
        }
        NamedValue::Map(mut pairs) => {
            let traded = trade_entry(&mut pairs, piece, rest, value);
            *place = NamedValue::Map(pairs);
            traded
        }
        NamedValue::Struct(mut node) => {
            let traded = trade_struct(&mut node, piece, rest, value);
            *place = NamedValue::Struct(node);
            traded
        }
        NamedValue::Enum(mut node) => {
            let traded = trade_variant(&mut node, piece, rest, value);
            *place = NamedValue::Enum(node);
            traded
        }
        other => {
            *place = other;
            Err(value)
        }
    }
}

/// The same in a struct.
#[cycle(trade)]
fn trade_struct<'a, 'n>(
    node: &mut NamedStruct<'a, 'n>,
    piece: &str,
    rest: &str,
    value: NamedValue<'a, 'n>,
) -> StdResult<NamedValue<'a, 'n>, NamedValue<'a, 'n>>
    ensures { IsTraded (traded_in piece.now rest.now (tree_of value.entry) (struct_tree node.old))
        (struct_tree node.old) value.entry (struct_tree node.new) result }
{
    trade_part(&mut node.data, piece, rest, value)
}

/// The same in a variant of an enum: it is entered by its name.
#[cycle(trade)]
fn trade_variant<'a, 'n>(
    node: &mut NamedEnum<'a, 'n>,
    piece: &str,
    rest: &str,
    value: NamedValue<'a, 'n>,
) -> StdResult<NamedValue<'a, 'n>, NamedValue<'a, 'n>>
    ensures { IsTraded (traded_in piece.now rest.now (tree_of value.entry) (enum_tree node.old))
        (enum_tree node.old) value.entry (enum_tree node.new) result }
{
    if spells(piece, node.variant.as_str()) {
        trade_inside(&mut node.data, rest, value)
    } else {
        Err(value)
    }
}

/// The same in a variant that is entered: its one value, or a part of what else it holds.
#[cycle(trade)]
fn trade_inside<'a, 'n>(
    inside: &mut NamedData<'a, 'n>,
    path: &str,
    value: NamedValue<'a, 'n>,
) -> StdResult<NamedValue<'a, 'n>, NamedValue<'a, 'n>>
    ensures { IsTraded (traded_inside path.now (tree_of value.entry) (tree_data_of inside.old))
        (tree_data_of inside.old) value.entry (tree_data_of inside.new) result }
{
    match mem::replace(inside, NamedData::Unit) {
        NamedData::NewType { value: mut held } => {
            let traded = trade(&mut held, path, value);
            *inside = NamedData::NewType { value: held };
            traded
        }
        other => {
            *inside = other;
            trade_further(inside, path, value)
        }
    }
}

/// The same in a variant that doesn't hold one value.
#[cycle(trade)]
fn trade_further<'a, 'n>(
    inside: &mut NamedData<'a, 'n>,
    path: &str,
    value: NamedValue<'a, 'n>,
) -> StdResult<NamedValue<'a, 'n>, NamedValue<'a, 'n>>
    requires { is_one (tree_data_of inside.old) ≡ false }
    ensures { IsTraded (traded_inside path.now (tree_of value.entry) (tree_data_of inside.old))
        (tree_data_of inside.old) value.entry (tree_data_of inside.new) result }
{
    match first_piece(path) {
        Some((piece, rest)) => trade_part(inside, piece, rest, value),
        None => Err(value),
    }
}

/// The same in what a struct or a variant holds.
#[cycle(trade)]
fn trade_part<'a, 'n>(
    inside: &mut NamedData<'a, 'n>,
    piece: &str,
    rest: &str,
    value: NamedValue<'a, 'n>,
) -> StdResult<NamedValue<'a, 'n>, NamedValue<'a, 'n>>
    ensures { IsTraded (traded_part piece.now rest.now (tree_of value.entry)
        (tree_data_of inside.old)) (tree_data_of inside.old) value.entry (tree_data_of inside.new)
        result }
{
    match mem::replace(inside, NamedData::Unit) {
        NamedData::Tuple { mut values } => {
            let traded = trade_item(&mut values, piece, rest, value);
            *inside = NamedData::Tuple { values };
            traded
        }
        NamedData::Struct { mut fields } => {
            let traded = trade_field(&mut fields, piece, rest, value);
            *inside = NamedData::Struct { fields };
            traded
        }
        other => {
            *inside = other;
            Err(value)
        }
    }
}

/// The same among items.
#[cycle(trade)]
fn trade_item<'a, 'n>(
    items: &mut Vec<NamedValue<'a, 'n>>,
    piece: &str,
    rest: &str,
    value: NamedValue<'a, 'n>,
) -> StdResult<NamedValue<'a, 'n>, NamedValue<'a, 'n>>
    ensures { IsTraded (traded_item piece.now rest.now (tree_of value.entry)
        (trees_view items.old.items)) (trees_view items.old.items) value.entry
        (trees_view items.new.items) result }
{
    match index_within(items.len(), piece) {
        Some(index) => trade(&mut items[index], rest, value),
        None => Err(value),
    }
}

/// The same among the entries of a map.
#[cycle(trade)]
fn trade_entry<'a, 'n>(
    pairs: &mut Vec<(NamedValue<'a, 'n>, NamedValue<'a, 'n>)>,
    piece: &str,
    rest: &str,
    value: NamedValue<'a, 'n>,
) -> StdResult<NamedValue<'a, 'n>, NamedValue<'a, 'n>>
    ensures { IsTraded (traded_entry piece.now rest.now (tree_of value.entry)
        (pairs_view pairs.old.items)) (pairs_view pairs.old.items) value.entry
        (pairs_view pairs.new.items) result }
{
    match last_spelled_index(pairs, piece) {
        Some(index) => trade(&mut pairs[index].1, rest, value),
        None => Err(value),
    }
}

/// The same among fields.
#[cycle(trade)]
fn trade_field<'a, 'n>(
    fields: &mut Vec<(CowStr<'n>, NamedValue<'a, 'n>)>,
    piece: &str,
    rest: &str,
    value: NamedValue<'a, 'n>,
) -> StdResult<NamedValue<'a, 'n>, NamedValue<'a, 'n>>
    ensures { IsTraded (traded_field piece.now rest.now (tree_of value.entry)
        (fields_view fields.old.items)) (fields_view fields.old.items) value.entry
        (fields_view fields.new.items) result }
{
    match last_spelled_field_index(fields, piece) {
        Some(index) => trade(&mut fields[index].1, rest, value),
        None => Err(value),
    }
}

/// The first piece of a path, which is after a `/`, and the rest.
fn first_piece(path: &str) -> Option<(&str, &str)>
    ensures parts { MatchOption result (0 < length path.now → parts_of path.now ≡ None)
        (λ cut. parts_of path.now ≡ first_parts (unescape cut.0.now) (parts_of cut.1.now)) }
    ensures shorter { IfSome result (λ cut. length cut.1.now < length path.now) }
{
    let pieces = path.strip_prefix('/')?;
    match pieces.find('/') {
        Some(end) => Some(pieces.split_at(end)),
        None => Some((pieces, "")),
    }
}

/// The index that a piece of a path names, if there are more items.
pub(crate) fn index_within(len: usize, piece: &str) -> Option<usize>
    ensures { MatchOption result (IfSome (index_of piece.now) (λ index. len ≤ index))
        (λ index. (index_of piece.now ≡ Some index) × (index < len)) }
{
    match index_of(piece) {
        Some(index) => { if index < len { Some(index) } else { None } }
        None => None,
    }
}

/// The index of the last key that a piece of a path spells.
pub(crate) fn last_spelled_index<'a, 'n>(
    pairs: &[(NamedValue<'a, 'n>, NamedValue<'a, 'n>)],
    piece: &str,
) -> Option<usize>
    ensures { IsLastKey (is_key (unescape piece.now)) pairs.now result }
{
    let mut left = pairs.len();
    while left > 0 {
        left -= 1;
        if spells_key(piece, &pairs[left].0) {
            return Some(left);
        }
    }
    None
}

/// The index of the last field whose name a piece of a path spells.
fn last_spelled_field_index<'a, 'n>(
    fields: &[(CowStr<'n>, NamedValue<'a, 'n>)],
    piece: &str,
) -> Option<usize>
    ensures { IsLastField (unescape piece.now) fields.now result }
{
    let mut left = fields.len();
    while left > 0 {
        left -= 1;
        if spells(piece, fields[left].0.as_str()) {
            return Some(left);
        }
    }
    None
}
