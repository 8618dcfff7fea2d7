//! The comparison of two images, case by case; it stops at the first difference. It is the one of
//! values over another type: to make either out of the other would take memory.

ghost use Rattle.std.specs.Prelude.{◌≡◌};
ghost use Rattle.std.specs.Ordering.{ordering_then};
ghost use Rattle.content_tree.specs.Images.Found.{image_view, image_data_view, held_image};
ghost use Rattle.content_tree.specs.Images.Found.{images_view, image_pairs_view, image_fields_view};
ghost use Rattle.content_tree.specs.Orders.Images.{string_cmp, image_rank, image_data_rank};
ghost use Rattle.content_tree.specs.Orders.Images.{image_cmp, image_data_cmp, images_cmp};
ghost use Rattle.content_tree.specs.Orders.Images.{image_pairs_cmp, image_fields_cmp};

use crate::compare::tree::compare_numbers;
use crate::found::{Found, FoundData};
use std::cmp::Ordering;

/// The place of an image's case.
fn rank(found: &Found) -> u8
    ensures { result ≡ image_rank (image_view found.now) }
{
    match found {
        Found::Unit => 0,
        Found::Bool(_) => 1,
        Found::Number(_) => 2,
        Found::Char(_) => 3,
        Found::String(_) => 4,
        Found::Bytes(_) => 5,
        Found::Seq(_) => 6,
        Found::Map(_) => 7,
        Found::Option(_) => 8,
        Found::Struct { name: _, data: _ } => 9,
        Found::Enum {
            name: _,
            variant: _,
            data: _,
        } => 10,
        Found::Tuple(_) => 11,
        Found::Identifier(_) => 12,
    }
}

/// The place of a content's case.
fn rank_of_data(content: &FoundData) -> u8
    ensures { result ≡ image_data_rank (image_data_view content.now) }
{
    match content {
        FoundData::Unit => 0,
        FoundData::NewType(_) => 1,
        FoundData::Tuple(_) => 2,
        FoundData::Struct(_) => 3,
    }
}

/// Two images: by case, and within one case by contents.
#[cycle(compare)]
pub(crate) fn compare(a: &Found, b: &Found) -> Ordering
    ensures { result ≡ image_cmp (image_view a.now) (image_view b.now) }
{
    match (a, b) {
        (Found::Unit, Found::Unit) => Ordering::Equal,
        (Found::Bool(x), Found::Bool(y)) => x.cmp(y),
        (Found::Number(x), Found::Number(y)) => compare_numbers(x, y),
        (Found::Char(x), Found::Char(y)) => x.cmp(y),
        (Found::String(x), Found::String(y)) => x.cmp(y),
        (Found::Bytes(x), Found::Bytes(y)) => x.cmp(y),
        (Found::Seq(xs), Found::Seq(ys)) => compare_items(xs, ys),
        (Found::Map(xs), Found::Map(ys)) => compare_pairs(xs, ys),
        (Found::Option(x), Found::Option(y)) => compare_held(x, y),
        (Found::Struct { name: n, data: x }, Found::Struct { name: m, data: y }) => {
            compare_named(n, x, m, y)
        }
        (
            Found::Enum {
                name: n,
                variant: v,
                data: x,
            },
            Found::Enum {
                name: m,
                variant: w,
                data: y,
            },
        ) => match n.cmp(m) {
            Ordering::Equal => compare_named(v, x, w, y),
            unequal => unequal,
        },
        (Found::Tuple(xs), Found::Tuple(ys)) => compare_items(xs, ys),
        (Found::Identifier(x), Found::Identifier(y)) => x.cmp(y),
        _ => rank(a).cmp(&rank(b)),
    }
}

/// Two optional images: none before some.
#[cycle(compare)]
fn compare_held(a: &Option<Box<Found>>, b: &Option<Box<Found>>) -> Ordering
    ensures { result ≡ image_cmp (held_image a.now) (held_image b.now) }
{
    match (a, b) {
        (None, None) => Ordering::Equal,
        (None, Some(_)) => Ordering::Less,
        (Some(_), None) => Ordering::Greater,
        (Some(x), Some(y)) => compare(x, y),
    }
}

/// Two structs or variants: by name, then by contents.
#[cycle(compare)]
fn compare_named(
    name: &String,
    content: &FoundData,
    other_name: &String,
    other: &FoundData,
) -> Ordering
    ensures { result ≡ ordering_then (string_cmp name.now other_name.now)
        (image_data_cmp (image_data_view content.now) (image_data_view other.now)) }
{
    match name.cmp(other_name) {
        Ordering::Equal => compare_data(content, other),
        unequal => unequal,
    }
}

/// What two structs or variants were found to hold: by case, then by contents.
#[cycle(compare)]
pub(crate) fn compare_data(a: &FoundData, b: &FoundData) -> Ordering
    ensures { result ≡ image_data_cmp (image_data_view a.now) (image_data_view b.now) }
{
    match (a, b) {
        (FoundData::Unit, FoundData::Unit) => Ordering::Equal,
        (FoundData::NewType(x), FoundData::NewType(y)) => compare(x, y),
        (FoundData::Tuple(xs), FoundData::Tuple(ys)) => compare_items(xs, ys),
        (FoundData::Struct(xs), FoundData::Struct(ys)) => compare_fields(xs, ys),
        _ => rank_of_data(a).cmp(&rank_of_data(b)),
    }
}

/// Two lists of images: item by item, a proper beginning first.
#[cycle(compare)]
fn compare_items(xs: &Vec<Found>, ys: &Vec<Found>) -> Ordering
    ensures { result ≡ images_cmp (images_view xs.now.items) (images_view ys.now.items) }
{
    for i in 0..xs.len().min(ys.len()) {
        match compare(&xs[i], &ys[i]) {
            Ordering::Equal => {}
            unequal => return unequal,
        }
    }
    xs.len().cmp(&ys.len())
}

/// Two lists of pairs: pair by pair, of each the key and then the value.
#[cycle(compare)]
fn compare_pairs(xs: &Vec<(Found, Found)>, ys: &Vec<(Found, Found)>) -> Ordering
    ensures { result ≡ image_pairs_cmp (image_pairs_view xs.now.items)
        (image_pairs_view ys.now.items) }
{
    for i in 0..xs.len().min(ys.len()) {
        match compare(&xs[i].0, &ys[i].0) {
            Ordering::Equal => {}
            unequal => return unequal,
        }
        match compare(&xs[i].1, &ys[i].1) {
            Ordering::Equal => {}
            unequal => return unequal,
        }
    }
    xs.len().cmp(&ys.len())
}

/// Two lists of fields: field by field, of each the key and then the value.
#[cycle(compare)]
fn compare_fields(xs: &Vec<(String, Found)>, ys: &Vec<(String, Found)>) -> Ordering
    ensures { result ≡ image_fields_cmp (image_fields_view xs.now.items)
        (image_fields_view ys.now.items) }
{
    for i in 0..xs.len().min(ys.len()) {
        match xs[i].0.cmp(&ys[i].0) {
            Ordering::Equal => {}
            unequal => return unequal,
        }
        match compare(&xs[i].1, &ys[i].1) {
            Ordering::Equal => {}
            unequal => return unequal,
        }
    }
    xs.len().cmp(&ys.len())
}
