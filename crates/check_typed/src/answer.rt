//! What a row answers.

use crate::run::Row;
use crate::source::value_of;
use crate::types::answer_as;
use content_cbor::laws::write_and_read_back;
use content_cbor::{CborRoundTrip, to_bytes};
use content_lines::write_hex;
use content_uses::merge;
use serde_content::de::Deserialize;
use serde_content::ser::{Builder, Serialize};
use serde_content::{Deserializer, Error, ErrorKind, Result, Serializer, Value, round_trip};
use std::alloc::Global;

/// The answer of a row. An error other than `OutOfMemory` says that the line is no row.
pub fn answer(alloc: Global, row: Row<'_>) -> Result<String> {
    if row.operation == "merge" {
        return merged(alloc, row);
    }
    let from = Deserializer::new(value_of(alloc, row)?);
    let from = match row.operation {
        "calls" => from,
        _ => from.coerce_numbers(),
    };
    let mut room = Vec::new(alloc);
    let text = answer_as(alloc, row.operation, row.typ, from, &mut room);
    drop(room);
    text
}

/// What the first calls of a row spell, put over what the others spell.
fn merged(alloc: Global, row: Row<'_>) -> Result<String> {
    let over = value_of(
        alloc,
        Row {
            source: row.typ,
            ..row
        },
    )?;
    match value_of(alloc, row) {
        Ok(base) => printed(alloc, merge(alloc, base, over)),
        Err(error) => {
            drop(over);
            Err(error)
        }
    }
}

/// What a value prints.
fn printed(alloc: Global, value: Result<Value<'_>>) -> Result<String> {
    let value = value?;
    let text = format!(in alloc; "{}", value.display());
    drop(value);
    Ok(text?)
}

/// The value that the calls of something build.
fn built<T: Serialize>(alloc: Global, sent: &T) -> Result<Value<'static>> {
    let mut builder = Builder::new(alloc, false);
    sent.serialize(alloc, &mut builder)?;
    builder.finish()
}

/// What the value prints that something becomes, if its calls build the same value.
pub fn shown<T: Serialize>(alloc: Global, sent: &T) -> Result<String> {
    let made = Serializer::new().serialize(alloc, sent)?;
    match built(alloc, sent) {
        Ok(other) => {
            let is_same = made == other;
            drop(other);
            if is_same {
                return printed(alloc, Ok(made));
            }
            drop(made);
            Ok(String::from_str(alloc, "another value by calls")?)
        }
        Err(error) => {
            drop(made);
            Err(error)
        }
    }
}

/// The answer about what is no row.
pub fn no_row<T: Drop>(other: T) -> Result<String> {
    drop(other);
    Err(ErrorKind::Unfinished.into())
}

/// Where something was refused and why, unless memory ran out.
pub fn refusal(alloc: Global, error: &Error) -> Result<String> {
    if matches!(error.kind(), ErrorKind::OutOfMemory) {
        return Err(ErrorKind::OutOfMemory.into());
    }
    let text = match error.path() {
        Some(path) => format!(in alloc; "refused at \"{path}\": {}", error.located()),
        None => format!(in alloc; "refused at no path: {}", error.located()),
    };
    Ok(text?)
}

/// The bytes of something in CBOR, in hexadecimal digits.
fn encoded<T: Serialize>(alloc: Global, sent: &T) -> Result<String> {
    let bytes = to_bytes(alloc, sent)?;
    let mut text = String::new(alloc);
    let written = write_hex(&mut text, bytes.as_slice());
    drop(bytes);
    written?;
    Ok(text)
}

/// What something is sent as, if it comes back equal.
fn shown_back<'de, T: CborRoundTrip<'de>>(
    alloc: Global,
    sent: &T,
    room: &'de mut Vec<u8>,
) -> Result<String> {
    let back = round_trip(alloc, sent, false, false)?;
    let is_equal = back == *sent;
    drop(back);
    let back = write_and_read_back(alloc, sent, room, 16)?;
    let is_equal = is_equal && back == *sent;
    drop(back);
    if is_equal {
        shown(alloc, sent)
    } else {
        Ok(String::from_str(alloc, "another value")?)
    }
}

/// The answer about a type whose values come back.
pub fn come_back<'de, 'n: 'de, T: CborRoundTrip<'de>>(
    alloc: Global,
    operation: &str,
    from: Deserializer<'de, 'n>,
    room: &'de mut Vec<u8>,
) -> Result<String> {
    if operation != "back" {
        return send::<T>(alloc, operation, from);
    }
    let read = from.deserialize::<T>(alloc);
    let text = match &read {
        Ok(value) => shown_back(alloc, value, room),
        Err(error) => refusal(alloc, error),
    };
    drop(read);
    text
}

/// The answer about a type that is read and sent.
pub fn send<'de, 'n: 'de, T: Serialize + Deserialize<'de>>(
    alloc: Global,
    operation: &str,
    from: Deserializer<'de, 'n>,
) -> Result<String> {
    let read = from.deserialize::<T>(alloc);
    let text = match (&read, operation) {
        (_, "back") => Err(ErrorKind::Unfinished.into()),
        (Err(error), _) => refusal(alloc, error),
        (Ok(value), "cbor") => encoded(alloc, value),
        (Ok(value), _) => shown(alloc, value),
    };
    drop(read);
    text
}
