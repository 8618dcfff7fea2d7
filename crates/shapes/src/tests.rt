//! A place as a value, printed and read back; and a step.

use crate::types::{Place, Step};
use serde_content::{Deserializer, Serializer, round_trip};
use std::test::Fail;

#[test]
fn a_place_is_sent_and_read(rt: HostRuntime) -> Result<(), Fail> {
    let alloc = rt.alloc();
    let place = Place {
        street_name: String::from_str(alloc, "Mill Lane 3")?,
        floor: None,
    };
    let value = Serializer::new().serialize(alloc, &place)?;
    let text = format!(in alloc; "{}", value.display())?;
    assert!(rt; text.as_str() == "Place { streetName: \"Mill Lane 3\", floor: None }");
    let read: Place = Deserializer::new(value).deserialize(alloc)?;
    assert!(rt; read == place);
    Ok(())
}

#[test]
fn a_step_comes_back(rt: HostRuntime) -> Result<(), Fail> {
    let alloc = rt.alloc();
    let place = Place {
        street_name: String::from_str(alloc, "Mill Lane 4")?,
        floor: Some(2),
    };
    let with = String::from_str(alloc, "Ann")?;
    let step = Step::Left { with, place };
    assert!(rt; round_trip(alloc, &step, false, false)? == step);
    Ok(())
}
