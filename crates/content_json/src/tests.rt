//! What texts look like, with expected texts as `serde_json` prints them.

use crate::{
    BadKey, DecodeError, EncodeError, Fault, decode, decode_prefix, encode, encode_pretty,
};
use content_tree::Value;
use std::alloc::{AllocError, Global};
use std::test::Fail;

/// A configuration: a text, a number and a list.
fn server(alloc: Global) -> Result<Value<'static>, AllocError> {
    let hosts = Value::Seq(vec![in alloc; Value::from("a.example"), Value::from("b.example")]?);
    let pairs = vec![in alloc;
        (Value::from("name"), Value::from("web \"1\"")),
        (Value::from("port"), Value::from(8443u16)),
        (Value::from("hosts"), hosts),
        (Value::from("limit"), Value::Option(None)),
    ]?;
    Ok(Value::Map(pairs))
}

#[test]
fn one_line(rt: HostRuntime) -> Result<(), Fail> {
    let alloc = rt.alloc();
    let value = Value::Seq(vec![in alloc; Value::from(7u8), Value::from("a\n"), Value::Unit]?);
    assert!(rt; encode(alloc, &value)?.as_str() == "[7,\"a\\n\",null]");

    let value = server(alloc)?;
    let text = encode(alloc, &value)?;
    let wanted = "{\"name\":\"web \\\"1\\\"\",\"port\":8443,\
        \"hosts\":[\"a.example\",\"b.example\"],\"limit\":null}";
    assert!(rt; text.as_str() == wanted);
    Ok(())
}

#[test]
fn several_lines(rt: HostRuntime) -> Result<(), Fail> {
    let alloc = rt.alloc();
    let value = Value::Seq(vec![in alloc; Value::from(1u8), Value::from("a")]?);
    assert!(rt; encode_pretty(alloc, &value)?.as_str() == "[\n  1,\n  \"a\"\n]");
    Ok(())
}

#[test]
fn refused_keys(rt: HostRuntime) -> Result<(), Fail> {
    let alloc = rt.alloc();
    let key = Value::Tuple(vec![in alloc; Value::from(1u8), Value::from(2u8)]?);
    let value = Value::Map(vec![in alloc; (key, Value::from("a"))]?);
    let answer = encode(alloc, &value);
    assert!(rt; answer == Err(EncodeError::Key(BadKey::Tuple)));
    Ok(())
}

#[test]
fn texts_as_values(rt: HostRuntime) -> Result<(), Fail> {
    let alloc = rt.alloc();
    let value = decode(alloc, b"[1, \"a\", null]", 16)?;
    assert!(rt; encode(alloc, &value)?.as_str() == "[1,\"a\",null]");

    // A number below zero, escapes, and keys that are equal.
    let value = decode(alloc, b"{\"a\": -7, \"a\": \"\\ud83d\\ude00\\/\"}", 2)?;
    let pairs = vec![in alloc;
        (Value::from("a"), Value::from(-7i64)),
        (Value::from("a"), Value::from("\u{1f600}/")),
    ]?;
    assert!(rt; value == Value::Map(pairs));

    // One value after another.
    let (value, length) = decode_prefix(alloc, b" [1] [2]", 16)?;
    assert!(rt; encode(alloc, &value)?.as_str() == "[1]" && length == 4);
    Ok(())
}

/// Whether a text is refused for this fault, and where.
fn refuses(alloc: Global, text: &[u8], at: usize, fault: Fault) -> bool {
    decode(alloc, text, 2) == Err(DecodeError::Refused { at, fault })
}

#[test]
fn refused_texts(rt: HostRuntime) {
    let alloc = rt.alloc();
    assert!(rt; refuses(alloc, b"{\"a\": 1.5}", 7, Fault::Float));
    assert!(rt; refuses(alloc, b"[1", 2, Fault::Ended));
    assert!(rt; refuses(alloc, b"[1]]", 3, Fault::Trailing));
    assert!(rt; refuses(alloc, b"[[1]]", 2, Fault::TooDeep));
    assert!(rt; refuses(alloc, b"[1,]", 3, Fault::Unexpected));
    assert!(rt; refuses(alloc, b"01", 1, Fault::LeadingZero));
    assert!(rt;
        refuses(
            alloc,
            b"340282366920938463463374607431768211456",
            38,
            Fault::TooWide
        )
    );
    assert!(rt; refuses(alloc, b"\"\\x\"", 2, Fault::Escape));
    assert!(rt; refuses(alloc, b"\"\\ud800\"", 7, Fault::Surrogate));
    assert!(rt; refuses(alloc, b"\"\n\"", 1, Fault::Control));
    assert!(rt; refuses(alloc, b"\"\xe2(\"", 2, Fault::NotUtf8));
}
