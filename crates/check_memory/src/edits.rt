//! Edits of values.

use crate::tally::Tally;
use crate::values::same;
use serde_content::{InsertError, Value};
use std::alloc::Global;

/// A key and its value.
type Entry = (Value<'static>, Value<'static>);

/// Makes the calls.
pub fn run(tally: &mut Tally, alloc: Global) {
    let entry = (Value::from("a"), Value::from(1u8));
    if let Some(entries) = tally.made(vec![in alloc; entry]) {
        entry_edits(tally, Value::Map(entries));
    }
    let mut map = Value::Map(Vec::new(alloc));
    tally.promised("Value::insert of a new key", is_inserted(&mut map));
    drop(map);
    let mut items = Value::Seq(Vec::new(alloc));
    tally.promised("Value::push", is_pushed(&mut items));
    drop(items);
}

/// Edits of a map whose only key is `a`.
fn entry_edits(tally: &mut Tally, mut map: Value<'static>) {
    let key: Value<'static> = Value::from("a");
    let replaced = map.insert(Value::from("a"), Value::from(2u8));
    tally.promised("Value::insert", is_before(replaced));
    let removed = map.remove(&key);
    tally.promised("Value::remove", same(removed, Some(Value::from(2u8))));
    drop(key);
    tally.promised("Value::remove_str", same(map.remove_str("a"), None));
    let taken = map.take();
    tally.promised("Value::take", taken.as_map().is_some());
    drop(taken);
    drop(map);
}

/// Whether the value of the key was replaced.
fn is_before(replaced: Result<Option<Value<'static>>, InsertError<Entry>>) -> bool {
    match replaced {
        Ok(before) => same(before, Some(Value::from(1u8))),
        Err(refused) => {
            drop(refused);
            false
        }
    }
}

/// Whether an entry is in the map after it was inserted, or else comes back.
fn is_inserted(map: &mut Value<'static>) -> bool {
    match map.insert(Value::from("a"), Value::from(1u8)) {
        Ok(before) => same(before, None) && map.get_str("a").is_some(),
        Err(refused) => {
            let entry = (Value::from("a"), Value::from(1u8));
            is_given_back(refused, entry) && map.get_str("a").is_none()
        }
    }
}

/// Whether an item is in the sequence after it was pushed, or else comes back.
fn is_pushed(items: &mut Value<'static>) -> bool {
    match items.push(Value::from(1u8)) {
        Ok(()) => items.get_index(0).is_some(),
        Err(refused) => { is_given_back(refused, Value::from(1u8)) && items.get_index(0).is_none() }
    }
}

/// Whether there was no memory for this, which comes back.
fn is_given_back<T: PartialEq + Drop>(refused: InsertError<T>, given: T) -> bool {
    match refused {
        InsertError::OutOfMemory(back) => same(back, given),
        InsertError::NoPlace(back) => {
            drop(back);
            drop(given);
            false
        }
    }
}
