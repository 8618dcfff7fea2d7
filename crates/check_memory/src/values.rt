//! Values, texts, images and errors.

use crate::nodes::{bytes, holder, one, owned_text, text, variant};
use crate::tally::Tally;
use serde_content::{
    CowBytes, CowStr, Data, Error, ErrorKind, Expected, Found, FoundData, Number, Unexpected, Value,
};
use std::alloc::{AllocFailed, Global};
use std::cmp::Ordering;

/// Makes the calls.
pub fn run(tally: &mut Tally, alloc: Global) {
    copies(tally, alloc);
    copies_of_errors(tally, alloc);
    moves(tally, alloc);
    comparisons(tally, alloc);
}

/// What a number is found to be where a boolean is expected.
pub fn error() -> Error {
    Error::unexpected(Found::Number(Number::U8(7)), Expected::Bool)
}

/// Whether two are the same.
pub fn same<T: PartialEq + Drop>(left: T, right: T) -> bool {
    let is_same = left == right;
    drop(left);
    drop(right);
    is_same
}

/// Whether two differ, and the first is less.
pub fn ascend<T: Ord + Drop>(left: T, right: T) -> bool {
    let is_less = left != right && left.cmp(&right) == Ordering::Less;
    drop(left);
    drop(right);
    is_less
}

fn copies(tally: &mut Tally, alloc: Global) {
    let text: CowStr<'static> = CowStr::Borrowed("ab");
    tally.succeeds("CowStr::try_clone", text.try_clone(alloc));
    drop(text);
    let bytes: CowBytes<'static> = CowBytes::Borrowed(&[1, 2]);
    tally.succeeds("CowBytes::try_clone", bytes.try_clone(alloc));
    drop(bytes);
    let value: Value<'static> = Value::from("ab");
    tally.succeeds("Value::try_clone", value.try_clone(alloc));
    drop(value);
    let node = holder(one());
    tally.succeeds("Struct::try_clone", node.try_clone(alloc));
    drop(node);
    let node = variant(one());
    tally.succeeds("Enum::try_clone", node.try_clone(alloc));
    drop(node);
    let data = one();
    tally.succeeds("Data::try_clone", data.try_clone(alloc));
    drop(data);
}

fn copies_of_errors(tally: &mut Tally, alloc: Global) {
    let image = Found::Unit;
    tally.succeeds("Found::try_clone", image.try_clone(alloc));
    drop(image);
    let held = FoundData::NewType(Found::Number(Number::U128(7)));
    tally.succeeds("FoundData::try_clone", held.try_clone(alloc));
    drop(held);
    let expected = Expected::Bool;
    tally.succeeds("Expected::try_clone", expected.try_clone(alloc));
    drop(expected);
    let error = error();
    tally.succeeds("ErrorKind::try_clone", error.kind().try_clone(alloc));
    tally.succeeds("Error::try_clone", error.try_clone(alloc));
    drop(error);
}

fn moves(tally: &mut Tally, alloc: Global) {
    if let Some(text) = tally.made(text(alloc)) {
        tally.promised("CowStr::as_str", text.as_str() == "ab");
        tally.succeeds("CowStr::into_owned", text.into_owned(alloc));
    }
    if let Some(bytes) = tally.made(bytes(alloc)) {
        tally.promised("CowBytes::as_bytes", bytes.as_bytes().len() == 2);
        tally.succeeds("CowBytes::into_owned", bytes.into_owned(alloc));
    }
    tally.succeeds("Struct::into_owned", holder(one()).into_owned(alloc));
    tally.succeeds("Enum::into_owned", variant(one()).into_owned(alloc));
    tally.succeeds("Data::into_owned", one().into_owned(alloc));
    if let Some(value) = tally.made(owned_text(alloc)) {
        tally.succeeds("Value::into_owned", value.into_owned(alloc));
    }
    if let Some(value) = tally.made(owned_text(alloc)) {
        tally.succeeds("Value::into_found", value.into_found(alloc));
    }
}

fn comparisons(tally: &mut Tally, alloc: Global) {
    let refused = Error::from(AllocFailed { value: 7u8 });
    let is_short = same(refused.into_kind(), ErrorKind::OutOfMemory);
    tally.promised("Error::from an allocation", is_short);
    let misfit = Number::from(7u8).unexpected(alloc, Expected::Bool);
    tally.promised("Number::unexpected", same(misfit, error()));
    let is_less = ascend(Value::Unit, Value::from("ab"));
    tally.promised("the order of values", is_less);
    tally.promised("the order of data", ascend(Data::Unit, one()));
    let is_less = ascend(Found::Unit, Found::Bool(true));
    tally.promised("the order of images", is_less);
    let is_less = ascend(error(), Error::from(ErrorKind::Failed));
    tally.promised("the order of errors", is_less);
}
