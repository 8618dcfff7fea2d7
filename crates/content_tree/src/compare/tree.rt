//! The comparison of two trees, case by case; it stops at the first difference.

ghost use Rattle.std.specs.Prelude.{◌≡◌};
ghost use Rattle.content_tree.specs.Orders.Trees.{number_cmp, tree_rank, tree_data_rank, tree_cmp};
ghost use Rattle.content_tree.specs.Orders.Trees.{tree_data_cmp, trees_cmp, pairs_cmp, fields_cmp};
ghost use Rattle.content_tree.specs.Values.Value.{tree_of, tree_data_of, struct_tree, enum_tree};
ghost use Rattle.content_tree.specs.Values.Value.{held_view, trees_view, pairs_view, fields_view};

use crate::cow::CowStr;
use crate::number::Number;
use crate::value::{NamedData, NamedEnum, NamedStruct, NamedValue};
use std::cmp::Ordering;

/// Two numbers: by value where they are of one kind, and else by kind.
pub(crate) fn compare_numbers(a: &Number, b: &Number) -> Ordering
    ensures { result ≡ number_cmp a.now b.now }
{
    a.cmp(b)
}

/// The place of a value's case.
fn rank<'a, 'n>(value: &NamedValue<'a, 'n>) -> u8
    ensures { result ≡ tree_rank (tree_of value.now) }
{
    match value {
        NamedValue::Unit => 0,
        NamedValue::Bool(_) => 1,
        NamedValue::Number(_) => 2,
        NamedValue::Char(_) => 3,
        NamedValue::String(_) => 4,
        NamedValue::Bytes(_) => 5,
        NamedValue::Seq(_) => 6,
        NamedValue::Map(_) => 7,
        NamedValue::Option(_) => 8,
        NamedValue::Struct(_) => 9,
        NamedValue::Enum(_) => 10,
        NamedValue::Tuple(_) => 11,
    }
}

/// The place of the data's case.
fn rank_of_data<'a, 'n>(inside: &NamedData<'a, 'n>) -> u8
    ensures { result ≡ tree_data_rank (tree_data_of inside.now) }
{
    match inside {
        NamedData::Unit => 0,
        NamedData::NewType { value: _ } => 1,
        NamedData::Tuple { values: _ } => 2,
        NamedData::Struct { fields: _ } => 3,
    }
}

/// Two values: by case, and within one case by contents.
#[cycle(compare)]
pub(crate) fn compare<'a, 'n>(a: &NamedValue<'a, 'n>, b: &NamedValue<'a, 'n>) -> Ordering
    ensures { result ≡ tree_cmp (tree_of a.now) (tree_of b.now) }
{
    match (a, b) {
        (NamedValue::Unit, NamedValue::Unit) => Ordering::Equal,
        (NamedValue::Bool(x), NamedValue::Bool(y)) => x.cmp(y),
        (NamedValue::Number(x), NamedValue::Number(y)) => compare_numbers(x, y),
        (NamedValue::Char(x), NamedValue::Char(y)) => x.cmp(y),
        (NamedValue::String(x), NamedValue::String(y)) => x.cmp(y),
        (NamedValue::Bytes(x), NamedValue::Bytes(y)) => x.cmp(y),
        (NamedValue::Seq(xs), NamedValue::Seq(ys)) => compare_items(xs, ys),
        (NamedValue::Map(xs), NamedValue::Map(ys)) => compare_pairs(xs, ys),
        (NamedValue::Option(x), NamedValue::Option(y)) => compare_held(x, y),
        (NamedValue::Struct(x), NamedValue::Struct(y)) => compare_struct(x, y),
        (NamedValue::Enum(x), NamedValue::Enum(y)) => compare_enum(x, y),
        (NamedValue::Tuple(xs), NamedValue::Tuple(ys)) => compare_items(xs, ys),
        _ => rank(a).cmp(&rank(b)),
    }
}

/// Two optional values: none before some.
#[cycle(compare)]
fn compare_held<'a, 'n>(
    a: &Option<Box<NamedValue<'a, 'n>>>,
    b: &Option<Box<NamedValue<'a, 'n>>>,
) -> Ordering
    ensures { result ≡ tree_cmp (held_view a.now) (held_view b.now) }
{
    match (a, b) {
        (None, None) => Ordering::Equal,
        (None, Some(_)) => Ordering::Less,
        (Some(_), None) => Ordering::Greater,
        (Some(x), Some(y)) => compare(x, y),
    }
}

/// Two structs: by name, then by what they hold.
#[cycle(compare)]
pub(crate) fn compare_struct<'a, 'n>(a: &NamedStruct<'a, 'n>, b: &NamedStruct<'a, 'n>) -> Ordering
    ensures { result ≡ tree_cmp (struct_tree a.now) (struct_tree b.now) }
{
    match a.name.cmp(&b.name) {
        Ordering::Equal => compare_data(&a.data, &b.data),
        unequal => unequal,
    }
}

/// Two variants: by name, index and variant, then by what they hold.
#[cycle(compare)]
pub(crate) fn compare_enum<'a, 'n>(a: &NamedEnum<'a, 'n>, b: &NamedEnum<'a, 'n>) -> Ordering
    ensures { result ≡ tree_cmp (enum_tree a.now) (enum_tree b.now) }
{
    match a
        .name
        .cmp(&b.name)
        .then(a.variant_index.cmp(&b.variant_index))
    {
        Ordering::Equal => match a.variant.cmp(&b.variant) {
            Ordering::Equal => compare_data(&a.data, &b.data),
            unequal => unequal,
        },
        unequal => unequal,
    }
}

/// What two structs or variants hold: by case, then by contents.
#[cycle(compare)]
pub(crate) fn compare_data<'a, 'n>(a: &NamedData<'a, 'n>, b: &NamedData<'a, 'n>) -> Ordering
    ensures { result ≡ tree_data_cmp (tree_data_of a.now) (tree_data_of b.now) }
{
    match (a, b) {
        (NamedData::Unit, NamedData::Unit) => Ordering::Equal,
        (NamedData::NewType { value: x }, NamedData::NewType { value: y }) => compare(x, y),
        (NamedData::Tuple { values: xs }, NamedData::Tuple { values: ys }) => compare_items(xs, ys),
        (NamedData::Struct { fields: xs }, NamedData::Struct { fields: ys }) => compare_fields(
            xs, ys,
        ),
        _ => rank_of_data(a).cmp(&rank_of_data(b)),
    }
}

/// Two lists of values: item by item, a proper beginning first.
#[cycle(compare)]
fn compare_items<'a, 'n>(xs: &Vec<NamedValue<'a, 'n>>, ys: &Vec<NamedValue<'a, 'n>>) -> Ordering
    ensures { result ≡ trees_cmp (trees_view xs.now.items) (trees_view ys.now.items) }
{
    for i in 0..xs.len().min(ys.len()) {
        match compare(&xs[i], &ys[i]) {
            Ordering::Equal => {}
            unequal => return unequal,
        }
    }
    xs.len().cmp(&ys.len())
}

/// Two lists of pairs: pair by pair, of each the key and then the value.
#[cycle(compare)]
fn compare_pairs<'a, 'n>(
    xs: &Vec<(NamedValue<'a, 'n>, NamedValue<'a, 'n>)>,
    ys: &Vec<(NamedValue<'a, 'n>, NamedValue<'a, 'n>)>,
) -> Ordering
    ensures { result ≡ pairs_cmp (pairs_view xs.now.items) (pairs_view ys.now.items) }
{
    for i in 0..xs.len().min(ys.len()) {
        match compare(&xs[i].0, &ys[i].0) {
            Ordering::Equal => {}
            unequal => return unequal,
        }
        match compare(&xs[i].1, &ys[i].1) {
            Ordering::Equal => {}
            unequal => return unequal,
        }
    }
    xs.len().cmp(&ys.len())
}

/// Two lists of fields: field by field, of each the key and then the value.
#[cycle(compare)]
fn compare_fields<'a, 'n>(
    xs: &Vec<(CowStr<'n>, NamedValue<'a, 'n>)>,
    ys: &Vec<(CowStr<'n>, NamedValue<'a, 'n>)>,
) -> Ordering
    ensures { result ≡ fields_cmp (fields_view xs.now.items) (fields_view ys.now.items) }
{
    for i in 0..xs.len().min(ys.len()) {
        match xs[i].0.cmp(&ys[i].0) {
            Ordering::Equal => {}
            unequal => return unequal,
        }
        match compare(&xs[i].1, &ys[i].1) {
            Ordering::Equal => {}
            unequal => return unequal,
        }
    }
    xs.len().cmp(&ys.len())
}
