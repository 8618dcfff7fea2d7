//! Examples of the pages, a test for each.

use serde_content::de::{FieldsByName, field_or, named_field, tag_field};
use serde_content::samples::Point;
use serde_content::ser::{Call, Recorder, Serialize};
use serde_content::{CowStr, Deserializer, Number, Result as Answer, Value, value};
use std::alloc::Global;
use std::test::Fail;

#[test]
fn a_path_says_what_is_edited(rt: HostRuntime) -> Result<(), Fail> {
    let alloc = rt.alloc();
    let mut value = value!(in alloc; { "ports": [80u16] })?;
    value.set_pointer(alloc, "/ports/-", Value::from(443u16))?;
    value.remove_pointer("/ports/0");
    assert!(rt; value == value!(in alloc; { "ports": [443u16] })?);
    Ok(())
}

/// `{ "b": 2u8, "a": 1u8, "kind": "k" }`, to be taken by name.
fn three_fields(alloc: Global) -> Answer<FieldsByName<'static, 'static>> {
    let pairs = vec![in alloc;
        (Value::from("b"), Value::from(2u8)),
        (Value::from("a"), Value::from(1u8)),
        (Value::from("kind"), Value::from("k")),
    ]?;
    Ok(
        Deserializer::new(Value::Map(pairs))
            .deserialize_map(alloc)?
            .by_name(),
    )
}

/// A field, one that isn't there, and the tag.
fn two_and_tag(alloc: Global) -> Answer<(u8, u8, CowStr<'static>)> {
    let mut fields = three_fields(alloc)?;
    let a: u8 = named_field(alloc, &mut fields, "a")?;
    let c: u8 = field_or(alloc, &mut fields, "c", 7)?;
    let kind = tag_field(alloc, &mut fields, "kind")?;
    drop(fields);
    Ok((a, c, kind))
}

#[test]
fn fields_are_taken_in_any_order(rt: HostRuntime) -> Result<(), Fail> {
    let (a, c, kind) = two_and_tag(rt.alloc())?;
    assert!(rt; a == 1 && c == 7 && kind.as_str() == "k");
    Ok(())
}

#[test]
fn a_point_is_sent_by_its_fields(rt: HostRuntime) -> Result<(), Fail> {
    let alloc = rt.alloc();
    let point = Point { x: 1, y: 2 };
    let mut recorder = Recorder::new(alloc, false);
    point.serialize(alloc, &mut recorder)?;
    let calls = [
        Call::Struct("Point", 2),
        Call::Field("x"),
        Call::Number(Number::I32(1)),
        Call::Field("y"),
        Call::Number(Number::I32(2)),
        Call::End,
    ];
    assert!(rt; recorder.calls().iter().eq(calls.iter()));
    Ok(())
}
