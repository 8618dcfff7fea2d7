//! The types written by hand: as trees, read back, and written as a Lisp reads them.

use crate::lisp::Lisp;
use crate::point::Point;
use crate::shape::Shape;
use serde_content::ser::{Serialize, Serializer as _};
use serde_content::{Deserializer, Error, Serializer, round_trip};
use std::test::Fail;

#[test]
fn a_point_comes_back(rt: HostRuntime) -> Result<(), Fail> {
    let alloc = rt.alloc();
    let point = Point { x: 1, y: 2 };
    let value = Serializer::new().serialize(alloc, &point)?;
    let text = format!(in alloc; "{}", value.display())?;
    assert!(rt; text.as_str() == "Point { x: 1i32, y: 2i32 }");
    assert!(rt; round_trip(alloc, &point, false, false)? == point);
    Ok(())
}

#[test]
fn a_shape_is_read(rt: HostRuntime) -> Result<(), Fail> {
    let alloc = rt.alloc();
    let value = Serializer::new().serialize(alloc, &Shape::Ring(3))?;
    let read: Shape = Deserializer::new(value).deserialize(alloc)?;
    assert!(rt; read == Shape::Ring(3));
    Ok(())
}

#[test]
fn a_point_is_written(rt: HostRuntime) -> Result<(), Fail> {
    let alloc = rt.alloc();
    let mut lisp = Lisp::new(alloc);
    Point { x: 1, y: -2 }.serialize(alloc, &mut lisp)?;
    assert!(rt; lisp.as_str() == "(Point :x 1 :y -2)");
    let refused = Shape::Dot.serialize(alloc, &mut lisp);
    assert!(rt; refused == Err(Error::custom(alloc, "no form in Lisp")));
    assert!(rt; lisp.is_failed());
    Ok(())
}
