//! CBOR, merging and records: each call gives its answer, or memory ran out.

use crate::nodes::map;
use crate::tally::Tally;
use content_cbor::laws::write_and_read_back;
use content_cbor::{decode_prefix, encode_array, from_bytes, through_cbor};
use content_uses::laws::{put_and_get, put_and_reload, save_twice};
use content_uses::{LoadError, Store, merge};
use serde_content::{ErrorKind, Result, Value};
use std::alloc::Global;
use std::result::Result as StdResult;

/// Makes the calls.
pub fn run(tally: &mut Tally, alloc: Global) {
    coded(tally, alloc);
    array(tally, alloc);
    decoded(tally, alloc);
    records(tally, alloc);
    saved(tally, alloc);
}

fn coded(tally: &mut Tally, alloc: Global) {
    let mut bytes = Vec::new(alloc);
    let back = write_and_read_back(alloc, &(Some(7u8), -1i64), &mut bytes, 2);
    tally.gives("write_and_read_back", back, (Some(7), -1));
    drop(bytes);
    let text = Value::from("ab");
    let kept = through_cbor(alloc, &text, 1);
    tally.gives("through_cbor", kept, Value::from("ab"));
    drop(text);
}

fn array(tally: &mut Tally, alloc: Global) {
    let items = [Value::from("ab"), Value::from(true)];
    let bytes = tally.kept("encode_array", encode_array(alloc, &items));
    drop(items);
    if let Some(bytes) = bytes {
        reads_array(tally, alloc, &bytes);
        drop(bytes);
    }
}

/// Counts the read of an array of a text and a boolean.
fn reads_array(tally: &mut Tally, alloc: Global, bytes: &[u8]) {
    if let Some(text) = tally.made(String::from_str(alloc, "ab")) {
        let pair: Result<(String, bool)> = from_bytes(alloc, bytes, 2);
        tally.gives("from_bytes", pair, (text, true));
    }
}

fn decoded(tally: &mut Tally, alloc: Global) {
    // The array at the front, which holds one text.
    if let Some(items) = tally.made(vec![in alloc; Value::from("a")]) {
        let first = decode_prefix(alloc, &[0x9f, 0x61, b'a', 0xff, 0x01], 2);
        tally.gives("decode_prefix", first, (Value::Seq(items), 4));
    }
    tally.gives("from_bytes of a float", is_float_refused(alloc), true);
    let (x, y) = (Value::from("x"), Value::from("y"));
    if let Some(pairs) = tally.made(vec![in alloc; (x, Value::from(7u8)), (y, Value::from(7u8))]) {
        tally.gives("merge", merged(alloc), Value::Map(pairs));
    }
}

/// Whether a float is refused with a text.
fn is_float_refused(alloc: Global) -> Result<bool> {
    let read: Result<bool> = from_bytes(alloc, &[0xf9, 0x00, 0x00], 1);
    match read {
        Ok(_) => Ok(false),
        Err(error) => match matches!(error.kind(), ErrorKind::Custom(_)) {
            true => {
                drop(error);
                Ok(true)
            }
            false => Err(error),
        },
    }
}

/// Two maps merged that have no key in common.
fn merged(alloc: Global) -> Result<Value<'static>> {
    merge(alloc, map(alloc, "x")?, map(alloc, "y")?)
}

fn records(tally: &mut Tally, alloc: Global) {
    let mut store = Store::new(alloc);
    tally.gives(
        "put_and_get and Store::get",
        is_got(alloc, &mut store),
        true,
    );
    drop(store);
    let mut store = Store::new(alloc);
    let mut bytes = Vec::new(alloc);
    let back = put_and_reload(alloc, &mut store, &Some(7u8), &mut bytes, 2);
    tally.gives("put_and_reload", back, Some(7));
    drop(bytes);
    drop(store);
}

/// Whether the first record is got twice.
fn is_got(alloc: Global, store: &mut Store<'static, 'static>) -> Result<bool> {
    let back = put_and_get(alloc, store, &Some(7u8))?;
    let view: Option<u8> = store.get(alloc, 0)?;
    Ok(back == Some(7) && view == back)
}

fn saved(tally: &mut Tally, alloc: Global) {
    let mut store: Store<'static, 'static> = Store::new(alloc);
    if tally.kept("Store::put", store.put(alloc, &7u8)) == Some(0) {
        let saved = is_saved(save_twice(alloc, &store, 2));
        tally.gives("save_twice", saved, true);
    }
    drop(store);
}

/// Whether one record was saved, both times as the same bytes.
fn is_saved(saved: StdResult<(Vec<u8>, Vec<u8>), LoadError>) -> StdResult<bool, LoadError> {
    let (first, second) = saved?;
    let is_saved = first.as_slice() == [0x81, 0x07].as_slice() && first == second;
    drop(first);
    drop(second);
    Ok(is_saved)
}
