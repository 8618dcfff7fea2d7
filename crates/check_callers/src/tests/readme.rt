//! The first example of the readme, and that of the page on calls.

use serde_content::samples::Point;
use serde_content::ser::{Call, from_calls};
use serde_content::{Deserializer, Number, Serializer, value};
use std::test::Fail;

#[test]
fn a_value_prints_and_is_read_again(rt: HostRuntime) -> Result<(), Fail> {
    let alloc = rt.alloc();

    // What can be serialised becomes a value, which prints, can be looked into, and is read again
    // as typed data.
    let value = Serializer::new().serialize(alloc, &Point { x: 1, y: 2 })?;
    let text = format!(in alloc; "{}", value.display())?;
    assert!(rt; text.as_str() == "Point { x: 1i32, y: 2i32 }");
    assert!(rt; value.get_str("x").and_then(|x| x.as_i64()) == Some(1));
    let point: Point = Deserializer::new(value).deserialize(alloc)?;
    assert!(rt; point == Point { x: 1, y: 2 });
    Ok(())
}

#[test]
fn calls_become_a_value(rt: HostRuntime) -> Result<(), Fail> {
    let alloc = rt.alloc();

    // The calls that a serialiser takes are data; a list of them becomes the value that it spells.
    let calls = [
        Call::Seq(None),
        Call::Element,
        Call::Number(Number::U8(7)),
        Call::End,
    ];
    assert!(rt; from_calls(alloc, &calls)? == value!(in alloc; [7u8])?);
    Ok(())
}

#[test]
fn a_call_out_of_place_is_refused(rt: HostRuntime) -> Result<(), Fail> {
    let alloc = rt.alloc();

    // A call out of place is refused at its place, counted from 0.
    match from_calls(alloc, &[Call::Seq(None), Call::Unit]) {
        Ok(_) => assert!(rt; false),
        Err(refusal) => assert!(rt; refusal.at == 1),
    }
    Ok(())
}
