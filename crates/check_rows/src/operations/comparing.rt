//! The order of two things.

use crate::answer::Answer;
use crate::call::read_calls;
use crate::cursor::Cursor;
use crate::deserializer::read_deserializer;
use crate::expectation::read_expected;
use crate::failure::Failure;
use crate::flags::read_flags;
use crate::kind::read_kind;
use crate::operations::building::read_serializer;
use crate::order::{if_lawful, order, write_order};
use crate::piece::Pieces;
use crate::tree::{read_image, read_tree};
use serde_content::laws::{
    compare_deserializers, equal_by_contents, equal_deserializers, equal_images, equal_values,
};
use serde_content::ser::Call;
use serde_content::{Deserializer, Error, Found, Value};
use std::cmp::Ordering;

/// Adds an order that two comparisons agree on.
fn write_agreed(out: &mut Answer, order: Option<Ordering>, other: Option<Ordering>) {
    write_order(out, if order == other { order } else { None });
}

/// Adds the order of two things of one type that were read.
fn compare_read<T: Ord + Drop>(out: &mut Answer, left: T, right: T) {
    write_order(out, order(&left, &right));
}

/// Of two trees, and of the texts, bytes, structs or enums in them.
pub fn values(out: &mut Answer, pieces: &mut Pieces<'_>) {
    let (left, right) = (read_tree(pieces), read_tree(pieces));
    let whole = if_lawful(order(&left, &right), equal_values(&left, &right));
    write_agreed(out, whole, order_of_parts(&left, &right));
    drop((left, right));
}

/// The order of what two trees hold, or of others that of the trees.
fn order_of_parts<'a>(left: &Value<'a>, right: &Value<'a>) -> Option<Ordering> {
    match (left, right) {
        (Value::String(left), Value::String(right)) => order(left, right),
        (Value::Bytes(left), Value::Bytes(right)) => order(left, right),
        (Value::Struct(left), Value::Struct(right)) => order(&**left, &**right),
        (Value::Enum(left), Value::Enum(right)) => order(&**left, &**right),
        (left, right) => order(left, right),
    }
}

/// Of what two structs or two enums hold, and of what their images hold.
pub fn data(out: &mut Answer, pieces: &mut Pieces<'_>) {
    let start = pieces.rest();
    let (left, right) = (read_tree(pieces), read_tree(pieces));
    let of_trees = order_of_data(&left, &right);
    drop((left, right));
    pieces.move_to(start);
    let (left, right) = (read_image(pieces), read_image(pieces));
    write_agreed(out, of_trees, order_of_image_data(&left, &right));
    drop((left, right));
}

/// The order of what two structs or two enums hold; of others none.
fn order_of_data<'a>(left: &Value<'a>, right: &Value<'a>) -> Option<Ordering> {
    match (left, right) {
        (Value::Struct(left), Value::Struct(right)) => order(&left.data, &right.data),
        (Value::Enum(left), Value::Enum(right)) => order(&left.data, &right.data),
        _ => None,
    }
}

/// The same of what their images hold.
fn order_of_image_data(left: &Found, right: &Found) -> Option<Ordering> {
    match (left, right) {
        (Found::Struct { data: left, .. }, Found::Struct { data: right, .. })
        | (Found::Enum { data: left, .. }, Found::Enum { data: right, .. }) => {
            order(&**left, &**right)
        }
        _ => None,
    }
}

/// Of two images.
pub fn images(out: &mut Answer, pieces: &mut Pieces<'_>) {
    let (left, right) = (read_image(pieces), read_image(pieces));
    write_order(
        out,
        if_lawful(order(&left, &right), equal_images(&left, &right)),
    );
    drop((left, right));
}

/// Of two expectations.
pub fn expected(out: &mut Answer, pieces: &mut Pieces<'_>) {
    compare_read(out, read_expected(pieces), read_expected(pieces));
}

/// Of two kinds of errors, and of errors of these kinds.
pub fn kinds(out: &mut Answer, pieces: &mut Pieces<'_>) {
    let (left, right) = (read_kind(pieces), read_kind(pieces));
    let of_kinds = order(&left, &right);
    let (left, right) = (Error::from(left), Error::from(right));
    write_agreed(out, of_kinds, order(&left, &right));
    drop((left, right));
}

/// Of two serialisers.
pub fn serializers(out: &mut Answer, pieces: &mut Pieces<'_>) {
    compare_read(out, read_serializer(pieces), read_serializer(pieces));
}

/// Of two deserializers, each under its own flags.
pub fn deserializers(out: &mut Answer, pieces: &mut Pieces<'_>) {
    let (left, right) = (read_flagged(pieces), read_flagged(pieces));
    let lawful = if_lawful(order(&left, &right), equal_deserializers(&left, &right));
    write_agreed(out, lawful, Some(compare_deserializers(&left, &right)));
    drop((left, right));
}

/// A deserializer under its flags.
fn read_flagged<'a>(pieces: &mut Pieces<'a>) -> Deserializer<'a, 'static> {
    let flags = read_flags(pieces);
    read_deserializer(pieces, flags)
}

/// Of two calls.
pub fn calls(out: &mut Answer, columns: &mut Cursor<'_, u8>) {
    let left = read_calls(columns);
    let right = read_calls(columns);
    match (left.as_slice(), right.as_slice()) {
        ([left], [right]) => compare_calls(out, left, right),
        _ => out.fail(Failure::NoRow),
    }
}

/// Adds whether two calls are equal, of which the second is also borrowed: `true`, `false`, or that
/// `==` and the law contradict each other.
fn compare_calls(out: &mut Answer, left: &Call<'_>, right: &Call<'_>) {
    let lent = right.lend();
    out.push_str(
        match (left == right, *left == lent, equal_by_contents(left, &lent)) {
            (true, true, true) => "true",
            (false, false, false) => "false",
            _ => "contradiction",
        },
    );
}
