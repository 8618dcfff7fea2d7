//! What no row of `cbor_cli` says: values that come back, several as one item, what can be
//! serialised, and characters past ASCII, whose bytes RFC 8949 gives in its appendix A.

use super::answers::{fails, fails_as, fails_with, gives, gives_bytes};
use super::written::spelled;
use content_cbor::laws::write_and_read_back;
use content_cbor::{
    DecodeError, decode, decode_prefix, encode, encode_array, from_bytes, read_back, through_cbor,
    to_bytes,
};
use serde_content::{Error, Result as Answer, Value};
use std::alloc::Global;
use std::collections::BTreeMap;
use std::test::Fail;

/// A map of a number and a list, as lines of calls.
const MAP: &str = "map 2; key; str a; value; u8 1; key; str b; \
    value; seq 2; element; u8 2; element; u16 300; end; end";

/// The bytes of a value that lines of calls spell.
fn bytes_of(alloc: Global, calls: &str) -> Answer<Vec<u8>> {
    encode(alloc, &spelled(alloc, calls)?)
}

#[test]
fn bytes_of_values(rt: HostRuntime) {
    let alloc = rt.alloc();
    let wanted = [
        0xa2, 0x61, b'a', 0x01, 0x61, b'b', 0x82, 0x02, 0x19, 0x01, 0x2c,
    ];
    assert!(rt; gives_bytes(bytes_of(alloc, MAP), &wanted));

    // Several values are one array.
    let bytes = encode_array(alloc, &[Value::from(1u8), Value::from("a")]);
    assert!(rt; gives_bytes(bytes, &[0x82, 0x01, 0x61, b'a']));
}

#[test]
fn values_of_bytes(rt: HostRuntime) -> Result<(), Fail> {
    let alloc = rt.alloc();
    let wanted = spelled(alloc, "seq 2; element; u64 1; element; str a; end")?;
    assert!(rt; gives(decode(alloc, &[0x82, 0x01, 0x61, b'a'], 16), wanted));

    // One item after another.
    let (value, length) = decode_prefix(alloc, &[0x61, b'a', 0x01], 16)?;
    assert!(rt; value == Value::from("a") && length == 2);
    Ok(())
}

#[test]
fn bytes_of_typed_data(rt: HostRuntime) -> Result<(), Fail> {
    let alloc = rt.alloc();

    // What can be serialised, and is read again as typed data.
    let bytes = to_bytes(alloc, &(Some(7u8), "a", false))?;
    assert!(rt; bytes.as_slice() == [0x83, 0x07, 0x61, b'a', 0xf4].as_slice());
    let three: (Option<u8>, &str, bool) = from_bytes(alloc, &bytes, 16)?;
    assert!(rt; three == (Some(7), "a", false));

    // Characters past ASCII, which no line of calls names.
    let bytes = to_bytes(alloc, &('\u{fc}', '\u{6c34}', '\u{10151}'));
    let wanted = [
        0x83, 0x62, 0xc3, 0xbc, 0x63, 0xe6, 0xb0, 0xb4, 0x64, 0xf0, 0x90, 0x85, 0x91,
    ];
    assert!(rt; gives_bytes(bytes, &wanted));
    Ok(())
}

#[test]
fn what_is_kept_of_values(rt: HostRuntime) -> Result<(), Fail> {
    let alloc = rt.alloc();
    let wanted = spelled(alloc, "seq 2; element; u64 7; element; none; end")?;
    let value = spelled(alloc, "tuple 2; element; u8 7; element; unit; end")?;
    assert!(rt; gives(through_cbor(alloc, &value, 2), wanted));

    // The array is deeper than its items.
    let refused = through_cbor(alloc, &value, 1);
    assert!(rt; fails_as(alloc, refused, "refused at byte 0: items nest too deep"));
    Ok(())
}

#[test]
fn other_bytes_are_no_typed_data(rt: HostRuntime) {
    let alloc = rt.alloc();
    let refused: Answer<u8> = from_bytes(alloc, &[0xf9, 0, 0], 16);
    assert!(rt; fails_as(alloc, refused, "refused at byte 0: a float"));

    // Numbers of another kind that have no room, and bytes that code nothing.
    assert!(rt; fails(read_back::<u8>(alloc, &[0x19, 1, 0], 1)));
    assert!(rt; fails(read_back::<u8>(alloc, &[0x19, 1], 1)));
}

/// Whether the fault is malformed with which bytes are refused within the limit 1, if they are.
fn malformed(alloc: Global, bytes: &[u8]) -> Option<bool> {
    match decode(alloc, bytes, 1).err() {
        Some(DecodeError::Refused { fault, .. }) => Some(fault.is_malformed()),
        _ => None,
    }
}

/// A first byte without meaning, a break alone, an item that is no chunk, a second item.
static MALFORMED: [&[u8]; 4] = [&[0x1c], &[0xff], &[0x5f, 0x00], &[0x00, 0x00]];

/// What can still become an item; a float, a simple value, tags, depth, a large number, a text.
static NOT_MALFORMED: [&[u8]; 8] = [
    &[0x18],
    &[0xf9],
    &[0xf8, 0x20],
    &[0xc1, 0x00],
    &[0xc2, 0x00],
    &[0x81, 0x00],
    &[0xc2, 0x51, 0x01],
    &[0x61, 0xff],
];

#[test]
fn malformed_bytes_are_told_apart(rt: HostRuntime) {
    for bytes in &MALFORMED {
        assert!(rt; malformed(rt.alloc(), bytes) == Some(true), "{bytes:?}");
    }
    for bytes in &NOT_MALFORMED {
        assert!(rt; malformed(rt.alloc(), bytes) == Some(false), "{bytes:?}");
    }
}

#[test]
fn typed_data_come_back(rt: HostRuntime) -> Result<(), Fail> {
    let alloc = rt.alloc();

    // What is written of typed data is read back equal.
    let bytes = to_bytes(alloc, &(Some(7u8), -1i64))?;
    let back: (Option<u8>, i64) = read_back(alloc, &bytes, 2)?;
    assert!(rt; back == (Some(7), -1));
    Ok(())
}

#[test]
fn numbers_and_lists_come_back(rt: HostRuntime) -> Result<(), Fail> {
    let alloc = rt.alloc();
    let list = vec![in alloc; Some(true), None]?;
    let mut room = Vec::new(alloc);
    let far = (u64::MAX, i64::MIN, u128::MAX, i128::MIN);
    assert!(rt; gives(write_and_read_back(alloc, &far, &mut room, 2), far));

    // Now the room is taken.
    let refused = write_and_read_back(alloc, &list, &mut room, 1);
    let too_deep = Error::custom(alloc, "refused at byte 0: items nest too deep");
    assert!(rt; fails_with(refused, too_deep));
    assert!(rt; gives(write_and_read_back(alloc, &list, &mut room, 2), list));
    Ok(())
}

/// A map of two numbers, in boxes.
fn boxes(alloc: Global) -> Result<BTreeMap<String, Box<u128>>, Fail> {
    let mut map = BTreeMap::new(alloc);
    for (key, number) in [("a", 1u128 << 100), ("b", 0)] {
        map.insert(String::from_str(alloc, key)?, Box::new(alloc, number)?)?;
    }
    Ok(map)
}

#[test]
fn maps_come_back(rt: HostRuntime) -> Result<(), Fail> {
    let alloc = rt.alloc();
    let map = boxes(alloc)?;
    let mut room = Vec::new(alloc);
    assert!(rt; gives(write_and_read_back(alloc, &map, &mut room, 2), map));
    Ok(())
}
