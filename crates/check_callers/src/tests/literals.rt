//! Values written as literals.

use serde_content::{Value, value};
use std::test::Fail;

#[test]
fn a_literal_is_the_tree_made_by_hand(rt: HostRuntime) -> Result<(), Fail> {
    let alloc = rt.alloc();
    let made = value!(in alloc; { "a": 1u8, "b": [true, ()], "c": {}, 2u8: [], })?;
    let items = vec![in alloc; Value::Bool(true), Value::Unit]?;
    let entries = vec![in alloc;
        (Value::from("a"), Value::from(1u8)),
        (Value::from("b"), Value::Seq(items)),
        (Value::from("c"), Value::Map(Vec::new(alloc))),
        (Value::from(2u8), Value::Seq(Vec::new(alloc))),
    ]?;
    assert!(rt; made == Value::Map(entries));
    Ok(())
}

#[test]
fn keys_and_items_may_be_any_expression(rt: HostRuntime) -> Result<(), Fail> {
    let alloc = rt.alloc();
    let inner = value!(in alloc; 'c')?;
    let made = value!(in alloc; [-1i8, { u8::from(true): -2i16, "b": inner, -3i8: [1u8 + 1,] }])?;
    let text = format!(in alloc; "{}", made.display())?;
    assert!(rt; text.as_str() == "[-1i8, { 1u8: -2i16, \"b\": 'c', -3i8: [2u8] }]");
    Ok(())
}
