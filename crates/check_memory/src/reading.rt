//! Requests for what fits them, and what they hand out.

use crate::nodes::{
    enumeration, fields, items, map, one, owned_bytes, owned_text, places, some, structure,
};
use crate::tally::Tally;
use crate::values::{ascend, same};
use serde_content::de::{IntoDeserializer, Map, Seq, attempt_fitting};
use serde_content::{CowStr, Data, Deserializer, Expected, Number, Result, Value, ValueVisitor};
use std::alloc::Global;

/// What reads a value.
pub type Reader = Deserializer<'static, 'static>;

/// Makes the calls.
pub fn run(tally: &mut Tally, alloc: Global) {
    readers(tally, alloc);
    leaves(tally, alloc);
    texts(tally, alloc);
    typed(tally, alloc);
    tries(tally, alloc);
    structs(tally, alloc);
    sequences(tally, alloc);
    maps(tally, alloc);
}

/// Reads a value.
pub fn reads<T: Into<Value<'static>>>(from: T) -> Reader {
    Deserializer::new(from.into())
}

fn readers(tally: &mut Tally, alloc: Global) {
    let number = Number::U8(7);
    let flagged = reads(7u8).human_readable().coerce_numbers();
    tally.promised("the flags of a reader", ascend(reads(7u8), flagged));
    tally.promised("the order of readers", ascend(reads(()), reads('a')));
    let value = reads(7u8).coerce_numbers().into_value();
    tally.promised(
        "Deserializer::into_value",
        same(value.ok(), Some(7u8.into())),
    );
    let value = Value::Number(number);
    tally.succeeds("a reader of a value", value.into_deserializer(alloc));
    tally.succeeds("a reader of a number", number.into_deserializer(alloc));
    tally.succeeds("a reader of itself", reads(7u8).into_deserializer(alloc));
}

fn leaves(tally: &mut Tally, alloc: Global) {
    tally.succeeds("deserialize_bool", reads(true).deserialize_bool(alloc));
    tally.succeeds("deserialize_char", reads('a').deserialize_char(alloc));
    tally.succeeds("deserialize_unit", reads(()).deserialize_unit(alloc));
    tally.succeeds("deserialize_any", reads("ab").deserialize_any(alloc));
    tally.succeeds("deserialize_u8", reads(7u8).deserialize_u8(alloc));
    let wide = reads(7u8).coerce_numbers().deserialize_i128(alloc);
    tally.succeeds("a coerced number", wide);
    let option = reads(7u8).deserialize_option(alloc);
    tally.succeeds("deserialize_option of no option", option);
    let newtype = reads(7u8).deserialize_newtype_struct(alloc, "S");
    tally.succeeds("deserialize_newtype_struct of no struct", newtype);
}

fn texts(tally: &mut Tally, alloc: Global) {
    if let Some(text) = tally.reader(owned_text(alloc)) {
        tally.succeeds("deserialize_str", text.deserialize_str(alloc));
    }
    if let Some(text) = tally.reader(owned_text(alloc)) {
        tally.succeeds("deserialize_string", text.deserialize_string(alloc));
    }
    if let Some(text) = tally.reader(owned_text(alloc)) {
        tally.succeeds("deserialize_identifier", text.deserialize_identifier(alloc));
    }
    if let Some(text) = tally.reader(owned_text(alloc)) {
        tally.succeeds("a visited text", ValueVisitor.read(alloc, text));
    }
    if let Some(bytes) = tally.reader(owned_bytes(alloc)) {
        tally.succeeds("deserialize_bytes", bytes.deserialize_bytes(alloc));
    }
    if let Some(bytes) = tally.reader(owned_bytes(alloc)) {
        tally.succeeds("deserialize_byte_buf", bytes.deserialize_byte_buf(alloc));
    }
    if let Some(bytes) = tally.reader(owned_bytes(alloc)) {
        tally.succeeds("visited bytes", ValueVisitor.read(alloc, bytes));
    }
}

fn typed(tally: &mut Tally, alloc: Global) {
    let flag: Result<bool> = reads(true).deserialize(alloc);
    tally.succeeds("bool::deserialize", flag);
    if let Some(text) = tally.reader(owned_text(alloc)) {
        let text: Result<CowStr<'static>> = text.deserialize(alloc);
        tally.succeeds("CowStr::deserialize", text);
    }
    if let Some(text) = tally.reader(owned_text(alloc)) {
        let text: Result<String> = text.deserialize(alloc);
        tally.succeeds("String::deserialize", text);
    }
    if let Some(option) = tally.reader(some(alloc, owned_text(alloc))) {
        let option: Result<Option<String>> = option.deserialize(alloc);
        tally.succeeds("Option::deserialize", option);
    }
    if let Some(text) = tally.made(owned_text(alloc)) {
        if let Some(items) = tally.made(vec![in alloc; Value::from(true), text]) {
            let pair: Result<(bool, String)> = reads(Value::Tuple(items)).deserialize(alloc);
            tally.succeeds("the read of a tuple", pair);
        }
    }
}

fn tries(tally: &mut Tally, alloc: Global) {
    if let Some(text) = tally.reader(owned_text(alloc)) {
        refused_tries(tally, alloc, &text);
        drop(text);
    }
}

/// Tries to read a text as something else.
fn refused_tries(tally: &mut Tally, alloc: Global, text: &Reader) {
    let expected = Expected::Bool;
    let flag: Result<Option<bool>> = attempt_fitting(alloc, text, &expected);
    tally.promised("a refused try of a boolean", same(flag, Ok(None)));
    drop(expected);
    let expected = Expected::U8;
    let number: Result<Option<u8>> = attempt_fitting(alloc, text, &expected);
    tally.promised("a refused try of a number", same(number, Ok(None)));
    drop(expected);
    let expected = Expected::Tuple(2);
    let pair: Result<Option<(u8, u8)>> = attempt_fitting(alloc, text, &expected);
    tally.promised("a refused try of a tuple", same(pair, Ok(None)));
    drop(expected);
}

fn structs(tally: &mut Tally, alloc: Global) {
    if let Some(unit) = tally.reader(structure(alloc, Ok(Data::Unit))) {
        let unit = unit.deserialize_unit_struct(alloc, "S");
        tally.succeeds("deserialize_unit_struct", unit);
    }
    if let Some(newtype) = tally.reader(structure(alloc, Ok(one()))) {
        let held = newtype.deserialize_newtype_struct(alloc, "S");
        tally.succeeds("deserialize_newtype_struct", held);
    }
    if let Some(newtype) = tally.reader(structure(alloc, Ok(one()))) {
        let ignored = newtype.deserialize_ignored_any(alloc);
        tally.succeeds("deserialize_ignored_any", ignored);
    }
    if let Some(option) = tally.reader(some(alloc, Ok(7u8.into()))) {
        tally.succeeds("deserialize_option", option.deserialize_option(alloc));
    }
    if let Some(by_key) = tally.reader(structure(alloc, fields(alloc))) {
        let entries = by_key.deserialize_any(alloc);
        tally.succeeds("deserialize_any of a struct", entries);
    }
    if let Some(variant) = tally.reader(enumeration(alloc, Ok(Data::Unit))) {
        let variant = variant.deserialize_any(alloc);
        tally.succeeds("deserialize_any of a variant", variant);
    }
}

/// Counts a request for a sequence of one item, which is handed out.
fn hands_out_item(tally: &mut Tally, name: &str, items: Result<Seq<'static, 'static>>) {
    if let Some(mut items) = tally.given(name, items) {
        tally.promised("Seq::size_hint", items.size_hint() == Some(1));
        let item = items.next_deserializer();
        tally.promised("Seq::next_deserializer", same(item, Some(reads(7u8))));
        drop(items);
    }
}

fn sequences(tally: &mut Tally, alloc: Global) {
    if let Some(items) = tally.made(items(alloc)) {
        let seq = reads(Value::Seq(items)).deserialize_seq(alloc);
        hands_out_item(tally, "deserialize_seq", seq);
    }
    if let Some(items) = tally.made(items(alloc)) {
        let tuple = reads(Value::Tuple(items)).deserialize_tuple(alloc, 1);
        hands_out_item(tally, "deserialize_tuple", tuple);
    }
    if let Some(by_place) = tally.reader(structure(alloc, places(alloc))) {
        let items = by_place.deserialize_tuple_struct(alloc, "S", 1);
        hands_out_item(tally, "deserialize_tuple_struct", items);
    }
}

/// Counts a request for a map of one entry, of which the key and then the value is handed out.
fn hands_out_entry(
    tally: &mut Tally,
    alloc: Global,
    name: &str,
    entries: Result<Map<'static, 'static>>,
) {
    if let Some(mut entries) = tally.given(name, entries) {
        tally.promised("Map::size_hint", entries.size_hint() == Some(1));
        let key = entries.next_key_deserializer(alloc);
        tally.succeeds("Map::next_key_deserializer", key);
        let value = entries.next_value_deserializer(alloc);
        tally.succeeds("Map::next_value_deserializer", value);
        let end = entries.next_entry_deserializers(alloc);
        tally.succeeds("Map::next_entry_deserializers", end);
        drop(entries);
    }
}

fn maps(tally: &mut Tally, alloc: Global) {
    if let Some(pairs) = tally.reader(map(alloc, "x")) {
        let entries = pairs.deserialize_map(alloc);
        hands_out_entry(tally, alloc, "deserialize_map", entries);
    }
    if let Some(by_key) = tally.reader(structure(alloc, fields(alloc))) {
        let entries = by_key.deserialize_struct(alloc, "S", &[]);
        hands_out_entry(tally, alloc, "deserialize_struct", entries);
    }
}
