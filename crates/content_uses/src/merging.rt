//! Merges configurations: puts one over another.

ghost use Rattle.std.specs.Prelude.{◌≡◌, ◌<◌, Some, false, refl, IfOk, IfErr, IsOk, length};
ghost use Rattle.content_tree.specs.Values.Cases.{struct_name};
ghost use Rattle.content_tree.specs.Values.Value.{struct_tree};
ghost use Rattle.serde_content.specs.Names.Words.{IsNew, Tree, tree_of, text_of, tree_cmp};
ghost use Rattle.serde_content.specs.Names.ErrorKind.{OutOfMemory};
ghost use Rattle.serde_content.specs.Names.Words.{pairs_view, fields_view};
ghost use Rattle.serde_content.specs.Names.Tree as tree;
ghost use Rattle.content_uses.specs.Merged.{parts, same_sort, merged, merged_pairs};
ghost use Rattle.content_uses.specs.Places.{places as places_of, value_at, with_value};
ghost use Rattle.content_uses.specs.Places.{keyed, field_key};

use serde_content::{CowStr, NamedData, NamedStruct, NamedValue, Result};
use std::alloc::{AllocError, Global};
use std::collections::BTreeMap;
use std::mem;
use std::result::Result as StdResult;

/// A key with its value.
type Pair<'a, 'n> = (NamedValue<'a, 'n>, NamedValue<'a, 'n>);

/// The name of a field with its value.
type Field<'a, 'n> = (CowStr<'n>, NamedValue<'a, 'n>);

/// A key of a map, or the name of a field.
trait Key: Ord + Drop {
    /// Its tree.
    ghost tree: { Self → Tree };

    /// Keys go as their trees do.
    ghost as_trees: { (a b : Self) → Self.cmp a b ≡ tree_cmp (tree a) (tree b) };
}

impl<'a, 'n> Key for NamedValue<'a, 'n> {
    ghost tree = { tree_of };

    ghost as_trees = { λ a b. refl };
}

impl<'n> Key for CowStr<'n> {
    ghost tree = { field_key };

    ghost as_trees = { λ a b. refl };
}

/// Merges `over` into `base`: maps key by key, and structs of one name that have a list of fields
/// field by field, deeply; anything else is replaced whole, a variant too. The base's keys stay in
/// their order, and new ones follow in that of `over`. Of equal keys in the base the last takes the
/// value, which is the one that [`get`](NamedValue::get) finds; equal keys in `over` are put there
/// in turn. It is the same with fields.
///
/// It makes n log n comparisons of keys, and copies none. Where `over` replaces `base` whole, it
/// takes no memory.
///
/// # Errors
///
/// Out of memory.
///
/// ```rust
/// let user = value!(in alloc; { "colour": true, "limits": { "size": 200u8 } })?;
/// let merged = merge(alloc, common, user)?;
/// ```
pub fn merge<'a, 'n>(
    alloc: Global,
    base: NamedValue<'a, 'n>,
    over: NamedValue<'a, 'n>,
) -> Result<NamedValue<'a, 'n>>
    ensures value { IfOk result (λ whole. tree_of whole ≡ merged (tree_of over.entry)
        (tree_of base.entry)) }
    ensures memory { IfErr result (λ e. IsNew OutOfMemory e) }
    // what is of another sort wins whole, and never lacks memory
    ensures other { same_sort (tree_of over.entry) (tree_of base.entry) ≡ false → IsOk result }
{
    Ok(put_over(alloc, over, base)?)
}

/// The same. Its error is small, and so is the stack that a level takes.
#[cycle(put_over)]
fn put_over<'a, 'n>(
    alloc: Global,
    over: NamedValue<'a, 'n>,
    base: NamedValue<'a, 'n>,
) -> StdResult<NamedValue<'a, 'n>, AllocError>
    ensures value { IfOk result (λ whole. tree_of whole ≡ merged (tree_of over.entry)
        (tree_of base.entry)) }
    ensures other { same_sort (tree_of over.entry) (tree_of base.entry) ≡ false → IsOk result }
{
    match over {
        NamedValue::Map(over) => merge_map(alloc, over, base),
        NamedValue::Struct(over) => merge_struct(alloc, over, base),
        other => Ok(other),
    }
}

/// A map put over a value. (It isn't a part of `put_over`, nor is `merge_struct`: so a level of one
/// takes no stack for the other.)
#[cycle(put_over)]
#[inline(never)]
fn merge_map<'a, 'n>(
    alloc: Global,
    over: Vec<Pair<'a, 'n>>,
    base: NamedValue<'a, 'n>,
) -> StdResult<NamedValue<'a, 'n>, AllocError>
    ensures value { IfOk result (λ whole. tree_of whole
        ≡ merged (tree.map (pairs_view over.entry.items)) (tree_of base.entry)) }
    ensures other { same_sort (tree.map (pairs_view over.entry.items)) (tree_of base.entry) ≡ false
        → IsOk result }
{
    match base {
        NamedValue::Map(base) => Ok(NamedValue::Map(merge_pairs(alloc, over, base)?)),
        _ => Ok(NamedValue::Map(over)),
    }
}

/// A struct put over a value.
#[cycle(put_over)]
#[inline(never)]
fn merge_struct<'a, 'n>(
    alloc: Global,
    over: Box<NamedStruct<'a, 'n>>,
    base: NamedValue<'a, 'n>,
) -> StdResult<NamedValue<'a, 'n>, AllocError>
    ensures value { IfOk result (λ whole. tree_of whole
        ≡ merged (struct_tree over.entry.value) (tree_of base.entry)) }
    ensures other { same_sort (struct_tree over.entry.value) (tree_of base.entry) ≡ false
        → IsOk result }
{
    match base {
        NamedValue::Struct(base) => Ok(NamedValue::Struct(merge_structs(alloc, over, base)?)),
        _ => Ok(NamedValue::Struct(over)),
    }
}

/// One struct put over another.
#[cycle(put_over)]
fn merge_structs<'a, 'n>(
    alloc: Global,
    over: Box<NamedStruct<'a, 'n>>,
    base: Box<NamedStruct<'a, 'n>>,
) -> StdResult<Box<NamedStruct<'a, 'n>>, AllocError>
    ensures value { IfOk result (λ whole. struct_tree whole.value
        ≡ merged (struct_tree over.entry.value) (struct_tree base.entry.value)) }
    ensures other { same_sort (struct_tree over.entry.value) (struct_tree base.entry.value) ≡ false
        → IsOk result }
{
    if !is_same_sort(&over, &base) {
        return Ok(over);
    }
    let mut base = base;
    let NamedStruct { name: _, data } = Box::into_inner(over);
    match data {
        NamedData::Struct { fields } => {
            let among = take_fields(alloc, &mut base);
            let fields = merge_fields(alloc, fields, among)?;
            set_fields(&mut base, fields);
            Ok(base)
        }
        // it has fields
        _ => Ok(base),
    }
}

/// The pairs of one map put over those of another.
#[cycle(put_over)]
fn merge_pairs<'a, 'n>(
    alloc: Global,
    over: Vec<Pair<'a, 'n>>,
    base: Vec<Pair<'a, 'n>>,
) -> StdResult<Vec<Pair<'a, 'n>>, AllocError>
    ensures { IfOk result (λ pairs. pairs_view pairs.items
        ≡ merged_pairs (pairs_view over.entry.items) (pairs_view base.entry.items)) }
{
    let places = places(alloc, &over, &base)?;
    let mut pairs = base;
    for (place, (key, value)) in places.into_iter().zip(over) {
        if place < pairs.len() {
            let old = replace_value(&mut pairs, place, NamedValue::Unit);
            let merged = put_over(alloc, value, old)?;
            set_value(&mut pairs, place, key, merged);
        } else {
            pairs.push((key, value))?;
        }
    }
    Ok(pairs)
}

/// The fields of one struct put over those of another. (The functions of a cycle have the same type
/// parameters: so the loop of `merge_pairs` is here again.)
#[cycle(put_over)]
fn merge_fields<'a, 'n>(
    alloc: Global,
    over: Vec<Field<'a, 'n>>,
    base: Vec<Field<'a, 'n>>,
) -> StdResult<Vec<Field<'a, 'n>>, AllocError>
    ensures { IfOk result (λ fields. keyed field_key fields.items
        ≡ merged_pairs (keyed field_key over.entry.items) (keyed field_key base.entry.items)) }
{
    let places = places(alloc, &over, &base)?;
    let mut fields = base;
    for (place, (name, value)) in places.into_iter().zip(over) {
        if place < fields.len() {
            let old = replace_value(&mut fields, place, NamedValue::Unit);
            let whole = put_over(alloc, value, old)?;
            set_value(&mut fields, place, name, whole);
        } else {
            fields.push((name, value))?;
        }
    }
    Ok(fields)
}

/// Whether both are structs of one name with fields.
fn is_same_sort<'a, 'n>(over: &NamedStruct<'a, 'n>, base: &NamedStruct<'a, 'n>) -> bool
    ensures { result ≡ same_sort (struct_tree over.now) (struct_tree base.now) }
{
    match over.data {
        NamedData::Struct { .. } => match base.data {
            NamedData::Struct { .. } => over.name == base.name,
            _ => false,
        },
        _ => false,
    }
}

/// Takes the fields out of a struct, whose name stays.
fn take_fields<'a, 'n>(alloc: Global, whole: &mut NamedStruct<'a, 'n>) -> Vec<Field<'a, 'n>>
    ensures fields { keyed field_key result.items ≡ parts (struct_tree whole.old) }
    ensures name { struct_name whole.new ≡ struct_name whole.old }
{
    match mem::replace(&mut whole.data, NamedData::Unit) {
        NamedData::Struct { fields } => fields,
        _ => Vec::new(alloc),
    }
}

/// Gives a struct these fields; its name stays.
fn set_fields<'a, 'n>(whole: &mut NamedStruct<'a, 'n>, fields: Vec<Field<'a, 'n>>)
    ensures { struct_tree whole.new ≡ tree.structure (text_of (struct_name whole.old))
        (tree.named (fields_view fields.entry.items)) }
{
    whole.data = NamedData::Struct { fields };
}

/// Where each pair of `over` goes among those of `base`: the place of the last pair of its key, or
/// that after the last where no pair before it has its key.
#[inline(never)]
fn places<'a, 'n, K: Key>(
    alloc: Global,
    over: &[(K, NamedValue<'a, 'n>)],
    base: &[(K, NamedValue<'a, 'n>)],
) -> StdResult<Vec<usize>, AllocError>
    ensures { IfOk result (λ places. places.items
        ≡ places_of (keyed K.tree over.now) (keyed K.tree base.now)) }
{
    let mut index = BTreeMap::new(alloc);
    for (place, pair) in base.iter().enumerate() {
        index.insert(&pair.0, place)?;
    }
    let mut next = base.len();
    let mut places = Vec::new(alloc);
    for pair in over {
        match index.get(&&pair.0) {
            Some(place) => places.push(*place)?,
            None => {
                index.insert(&pair.0, next)?;
                places.push(next)?;
                next += 1;
            }
        }
    }
    Ok(places)
}

/// Puts this value at this place, whose key stays; gives what was there.
#[inline(never)]
fn replace_value<'a, 'n, K: Key>(
    pairs: &mut Vec<(K, NamedValue<'a, 'n>)>,
    place: usize,
    value: NamedValue<'a, 'n>,
) -> NamedValue<'a, 'n>
    requires { place < length pairs.old.items }
    ensures value { Some (tree_of result) ≡ value_at place (keyed K.tree pairs.old.items) }
    ensures placed { keyed K.tree pairs.new.items ≡ with_value place (tree_of value.entry)
        (keyed K.tree pairs.old.items) }
    ensures len { length pairs.new.items ≡ length pairs.old.items }
{
    let pair = &mut pairs[place];
    mem::replace(&mut pair.1, value)
}

/// Puts this value at this place, whose key stays; the other key is dropped.
#[inline(never)]
fn set_value<'a, 'n, K: Key>(
    pairs: &mut Vec<(K, NamedValue<'a, 'n>)>,
    place: usize,
    _key: K,
    value: NamedValue<'a, 'n>,
)
    requires { place < length pairs.old.items }
    ensures { keyed K.tree pairs.new.items ≡ with_value place (tree_of value.entry)
        (keyed K.tree pairs.old.items) }
{
    let pair = &mut pairs[place];
    pair.1 = value;
}
