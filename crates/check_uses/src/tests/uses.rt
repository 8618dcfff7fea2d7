//! Records and configurations: the examples of the pages, and cases that they don't show.

use super::answers::{fails, fails_as, fails_with, gives};
use content_cbor::{DecodeError, Fault};
use content_uses::laws::{put_and_get, put_and_reload, save_twice};
use content_uses::{Store, merge};
use serde_content::samples::Point;
use serde_content::{
    CowStr, Data, Deserializer, Error, Result as Answer, Serializer, Struct, Value, value,
};
use std::alloc::Global;
use std::test::Fail;

#[test]
fn records_are_kept(rt: HostRuntime) -> Result<(), Fail> {
    let alloc = rt.alloc();

    // Records of two types.
    let mut store = Store::new(alloc);
    let first = store.put(alloc, &Point { x: 1, y: 2 })?;
    let second = store.put(alloc, &Some(7u8))?;
    let point: Point = store.get(alloc, first)?;
    assert!(rt; point == Point { x: 1, y: 2 });
    assert!(rt; gives(store.get(alloc, second), Some(7u8)));

    // What the type doesn't take is refused.
    let other: Answer<bool> = store.get(alloc, first);
    let wanted = "failed to deserialize; expected a boolean, found Point { x: 1i32, y: 2i32 }";
    assert!(rt; fails_as(alloc, other, wanted));
    Ok(())
}

/// A struct of one field, whose name is owned.
fn with_owned_key(alloc: Global) -> Answer<Struct<'static>> {
    let key = CowStr::Owned(String::from_str(alloc, "k")?);
    let fields = vec![in alloc; (key, Value::Unit)]?;
    Ok(Struct {
        name: CowStr::Borrowed("S"),
        data: Data::Struct { fields },
    })
}

#[test]
fn what_is_put_is_got(rt: HostRuntime) -> Result<(), Fail> {
    let alloc = rt.alloc();
    let owned = with_owned_key(alloc)?;
    let mut store = Store::new(alloc);
    assert!(rt; gives(put_and_get(alloc, &mut store, &'c'), 'c'));
    assert!(rt; store.len() == 1);
    let none: Answer<bool> = store.get(alloc, 1);
    assert!(rt; fails_with(none, Error::custom(alloc, "no such record")));

    // What a record itself refuses.
    let refused = store.put(alloc, &owned);
    let text = r#"failed to deserialize; expected a static string slice, found "k""#;
    assert!(rt; fails_with(refused, Error::custom(alloc, text)));
    assert!(rt; store.len() == 1);
    Ok(())
}

#[test]
fn records_are_saved(rt: HostRuntime) -> Result<(), Fail> {
    let alloc = rt.alloc();
    let mut store = Store::new(alloc);
    let first = store.put(alloc, &Point { x: 1, y: 2 })?;
    store.put(alloc, &Some(7u8))?;

    // One array of CBOR, and the records from it.
    let bytes = store.save(alloc)?;
    let wanted = [0x82, 0xa2, 0x61, b'x', 0x01, 0x61, b'y', 0x02, 0x07];
    assert!(rt; bytes.as_slice() == wanted.as_slice());
    let loaded = Store::load(alloc, &bytes, 64)?;
    let point: Point = loaded.get_coerced(alloc, first)?;
    assert!(rt; point == Point { x: 1, y: 2 });
    assert!(rt; fails(loaded.get_coerced::<Point>(alloc, 2)));
    Ok(())
}

/// Whether a store is saved as these bytes, and what is loaded from them too.
fn is_saved_twice_as<'v, 'n: 'v>(alloc: Global, store: &Store<'v, 'n>, wanted: &[u8]) -> bool {
    match save_twice(alloc, store, 2) {
        Ok((first, second)) => first.as_slice() == wanted && second.as_slice() == wanted,
        Err(_) => false,
    }
}

#[test]
fn loaded_records_are_read_and_joined(rt: HostRuntime) -> Result<(), Fail> {
    let alloc = rt.alloc();
    let mut loaded = Store::load(alloc, &[0x81, 0x07], 2)?;
    assert!(rt; gives(loaded.get_coerced(alloc, 0), Some(7u64)));
    assert!(rt; gives(loaded.put(alloc, &Some(9u16)), 1));
    assert!(rt; gives(loaded.get_coerced(alloc, 1), Some(9u16)));
    assert!(rt; is_saved_twice_as(alloc, &loaded, &[0x82, 0x07, 0x09]));
    Ok(())
}

#[test]
fn what_is_put_is_reloaded(rt: HostRuntime) {
    let alloc = rt.alloc();
    let mut store = Store::new(alloc);
    let mut room = Vec::new(alloc);
    let point = Point { x: -3, y: 4 };
    let reloaded = put_and_reload(alloc, &mut store, &point, &mut room, 3);
    assert!(rt; gives(reloaded, Point { x: -3, y: 4 }));
    assert!(rt; store.len() == 1);

    // Now the room is taken.
    let refused = put_and_reload(alloc, &mut store, &point, &mut room, 2);
    let fault = Fault::TooDeep;
    let wanted = content_uses::LoadError::Decode(DecodeError::Refused { at: 1, fault });
    assert!(rt; fails_with(refused, wanted));
    assert!(rt; store.len() == 2);
}

#[test]
fn other_bytes_are_no_records(rt: HostRuntime) {
    let alloc = rt.alloc();
    let cases = [
        ([0x07, 0xf6], "refused at byte 1: bytes after the item"),
        ([0x61, b'a'], "no array of records"),
        (
            [0x82, 0x07],
            "refused at byte 2: the bytes end inside an item",
        ),
    ];
    for (bytes, wanted) in &cases {
        assert!(rt;
            fails_as(alloc, Store::load(alloc, bytes, 64), wanted),
            "{wanted}"
        );
    }
}

#[test]
fn configurations_are_merged(rt: HostRuntime) -> Result<(), Fail> {
    let alloc = rt.alloc();

    // A user's settings over the common ones.
    let common = value!(in alloc; { "name": "serve", "limits": { "depth": 8u8, "size": 100u8 } })?;
    let user = value!(in alloc; { "colour": true, "limits": { "size": 200u8 } })?;
    let merged = merge(alloc, common, user)?;
    let text = format!(in alloc; "{}", merged.display())?;
    let wanted =
        r#"{ "name": "serve", "limits": { "depth": 8u8, "size": 200u8 }, "colour": true }"#;
    assert!(rt; text.as_str() == wanted);
    Ok(())
}

/// Reads a struct of one field, put over typed defaults.
fn read_over_defaults(alloc: Global) -> Answer<Point> {
    let fields = vec![in alloc; (CowStr::Borrowed("y"), Value::from(7i32))]?;
    let user = Struct {
        name: CowStr::Borrowed("Point"),
        data: Data::Struct { fields },
    };
    let user = Value::Struct(Box::new(alloc, user)?);
    let defaults = Serializer::new().serialize(alloc, &Point { x: 1, y: 2 })?;
    Deserializer::new(merge(alloc, defaults, user)?).deserialize(alloc)
}

#[test]
fn defaults_are_put_under_fields(rt: HostRuntime) {
    assert!(rt; gives(read_over_defaults(rt.alloc()), Point { x: 1, y: 7 }));
}

#[test]
fn maps_are_put_over_plain_structs(rt: HostRuntime) -> Result<(), Fail> {
    let alloc = rt.alloc();
    let defaults = Serializer::new().serialize(alloc, &Point { x: 1, y: 2 })?;
    let defaults: Value = Deserializer::new(defaults).deserialize(alloc)?;
    let merged = merge(alloc, defaults, value!(in alloc; { "y": 7i32 })?)?;
    let point: Point = Deserializer::new(merged).deserialize(alloc)?;
    assert!(rt; point == Point { x: 1, y: 7 });
    Ok(())
}
