//! A builder that a caller uses badly: a text after a refusal, and a stop that it swallows.

use serde_content::ser::{Builder, Serialize, Serializer};
use serde_content::{CowStr, Data, ErrorKind, Result as Answer, Struct, Value};
use std::alloc::Global;
use std::test::Fail;

/// Whether a call is refused for this cause.
fn is_refused(answer: Answer<()>, cause: &ErrorKind) -> bool {
    match answer {
        Ok(()) => false,
        Err(error) => error.kind() == cause,
    }
}

#[test]
fn a_failed_builder_collects_nothing(rt: HostRuntime) -> Result<(), Fail> {
    let alloc = rt.alloc();
    let mut builder: Builder<'static> = Builder::new(alloc, false);
    builder.serialize_seq(None)?;
    assert!(rt; is_refused(builder.serialize_unit(), &ErrorKind::Misplaced));
    assert!(rt; is_refused(builder.collect_str(alloc, &7u8), &ErrorKind::Failed));
    assert!(rt; builder.is_failed());
    Ok(())
}

/// A struct of the static name Foo with one field, whose key is owned.
fn with_owned_key(alloc: Global) -> Answer<Struct<'static>> {
    let key = CowStr::Owned(String::from_str(alloc, "b")?);
    Ok(Struct {
        name: CowStr::Borrowed("Foo"),
        data: Data::Struct {
            fields: vec![in alloc; (key, Value::Unit)]?,
        },
    })
}

/// Whether a value's own words stopped it.
fn is_stopped(answer: Answer<()>) -> bool {
    match answer {
        Ok(()) => false,
        Err(error) => matches!(error.kind(), ErrorKind::Custom(_)),
    }
}

/// Sends a sequence up to its first item, which is stopped; whether it was.
fn swallow(builder: &mut Builder<'static>, alloc: Global) -> Answer<bool> {
    builder.serialize_seq(None)?;
    builder.serialize_element()?;
    let value = with_owned_key(alloc)?;
    Ok(is_stopped(value.serialize(alloc, builder)))
}

#[test]
fn a_swallowed_stop_has_made_its_calls(rt: HostRuntime) -> Result<(), Fail> {
    let alloc = rt.alloc();
    let mut builder: Builder<'static> = Builder::new(alloc, false);
    assert!(rt; swallow(&mut builder, alloc)?);
    assert!(rt; !builder.is_failed());
    assert!(rt; is_refused(builder.serialize_element(), &ErrorKind::Misplaced));
    Ok(())
}

/// A sequence of a struct without fields.
fn of_empty_struct(alloc: Global) -> Answer<Value<'static>> {
    let data = Data::Struct {
        fields: Vec::new(alloc),
    };
    let name = CowStr::Borrowed("Foo");
    let node = Box::new(alloc, Struct { name, data })?;
    Ok(Value::Seq(vec![in alloc; Value::Struct(node)]?))
}

#[test]
fn after_a_swallowed_stop_the_open_nodes_end(rt: HostRuntime) -> Result<(), Fail> {
    let alloc = rt.alloc();
    let mut builder: Builder<'static> = Builder::new(alloc, false);
    assert!(rt; swallow(&mut builder, alloc)?);
    builder.end()?;
    builder.end()?;
    let wanted = of_empty_struct(alloc)?;
    assert!(rt; builder.finish()? == wanted);
    Ok(())
}
