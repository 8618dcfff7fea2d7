//! Values of types: read, sent and read again, and the calls by which they are sent.

use crate::answer::Answer;
use crate::deserializer::read_deserializer;
use crate::failure::Failure;
use crate::flags::{Flags, read_flags};
use crate::named::with_type;
use crate::operations::sending::{write_sent, write_sent_held};
use crate::piece::{Pieces, take_word};
use crate::printable::write_debug;
use crate::show::{write_given, write_whole};
use crate::tree::read_tree;
use serde_content::de::Deserialize;
use serde_content::samples::{Point, Shape};
use serde_content::ser::Serialize;
use serde_content::{
    CowStr, Deserializer, Number, Result, RoundTrip, Value, ValueVisitor, from_value, to_value,
};
use std::alloc::Global;
use std::boxed::BoxedStr;
use std::collections::{BTreeMap, BTreeSet, HashMap, VecDeque};
use std::fmt::Debug;
use std::net::{IpAddr, Ipv4Addr, Ipv6Addr};
use std::path::PathBuf;
use std::rc::Rc;
use std::time::Duration;

/// What is done with a value that was read.
#[derive(Clone, Copy)]
enum Then {
    /// It is shown.
    Show,
    /// What comes back of it under these flags is shown.
    Return(Flags),
    /// It is sent, human readable or not.
    Send(bool),
}

/// The value of a type; read out of a buffer, where that is asked.
pub fn read(out: &mut Answer, pieces: &mut Pieces<'_>, is_buffered: bool) {
    let flags = read_flags(pieces);
    let typ = take_word(pieces);
    let mut from = read_deserializer(pieces, flags);
    if is_buffered {
        from = from.buffered();
    }
    let alloc = out.alloc();
    out.push_str("ok ");
    match typ {
        "CowStr" => write_given(out, from.deserialize::<CowStr>(alloc)),
        "Value" => write_given(out, from.deserialize::<Value<'static>>(alloc)),
        "ValueVisitor" => write_given(out, ValueVisitor.read(alloc, from)),
        "Option<Value>" => write_optional(out, from.deserialize(alloc)),
        _ => write_typed(out, Then::Show, typ, from),
    }
}

/// Adds a value in an option as a tree.
fn write_optional(out: &mut Answer, given: Result<Option<Value<'static>>>) {
    match out.given(given).flatten() {
        None => out.push_str("None"),
        Some(value) => {
            out.push_str("Some(");
            write_whole(out, value);
            out.push(')');
        }
    }
}

/// The value of a type, as it comes back. A number that tells no kind is one of any.
pub fn round_trip(out: &mut Answer, pieces: &mut Pieces<'_>) {
    let flags = read_flags(pieces);
    let typ = take_word(pieces);
    let from = Deserializer::new(read_tree(pieces)).coerce_numbers();
    write_typed(out, Then::Return(flags), typ, from);
}

/// The calls of the value of a type, which a tree holds or which is read from it.
pub fn send_as(out: &mut Answer, pieces: &mut Pieces<'_>, human_readable: bool) {
    let typ = take_word(pieces);
    let tree = read_tree(pieces);
    match typ {
        "BTreeMap" | "Box" | "Option" | "Vec" | "tuple" => write_sent_held(out, typ, tree),
        _ => {
            let from = Deserializer::new(tree);
            write_typed(out, Then::Send(human_readable), typ, from);
        }
    }
}

/// Does this with the value of the type that is named.
fn write_typed(out: &mut Answer, then: Then, typ: &str, from: Deserializer<'_, 'static>) {
    with_type!(typ, write_as(out, then, from), [
        (), bool, i8, u8, i16, u16, i32, u32, i64, u64, i128, u128, isize, usize, char, String,
        Number, Box<u8>, Option<()>, Option<i16>, Option<String>, Option<Option<()>>, Vec<()>,
        Vec<bool>, Vec<u8>, Vec<i16>, IpAddr, Ipv4Addr, Ipv6Addr,
    ], write_compound(out, then, typ, from))
}

/// The same of a compound, and of types that don't come back or don't print.
fn write_compound(out: &mut Answer, then: Then, typ: &str, from: Deserializer<'_, 'static>) {
    with_type!(typ, write_as(out, then, from), [
        (bool,), (u8,), (bool, bool), (bool, usize), (u8, u8), (u8, bool), (bool, (), u8),
        (bool, char, String), (u8, u8, u8, u8), (String, char, bool, Number),
        (Vec<Option<u8>>, isize), (Ipv4Addr, Ipv6Addr, [IpAddr; 2]), [u8; 2], [(u8, char); 2],
        [[(u8, char); 2]; 2], BTreeMap<String, u8>, BTreeMap<String, Vec<u8>>, BTreeMap<u8, bool>,
        BTreeMap<u8, u8>, BTreeMap<i8, i8>, BTreeMap<char, bool>, BTreeSet<u8>, HashMap<u8, char>,
        (BTreeSet<char>, HashMap<PathBuf, VecDeque<u8>>, Rc<BoxedStr>),
    ], with_type!(
        typ,
        write_lent_as(out, then, from),
        [&str, &[u8], Option<&str>, Duration],
        with_type!(typ, write_sample_as(out, then, from), [Point, Shape], out.unfit(from))
    ))
}

/// Does this with a value of a type.
fn write_as<'de, 'n: 'de, T: RoundTrip<'de> + Debug>(
    out: &mut Answer,
    then: Then,
    from: Deserializer<'de, 'n>,
) {
    let value = read_as::<T>(out.alloc(), then, from);
    write_value(out, then, value);
}

/// The same of a type that doesn't come back.
fn write_lent_as<'de, 'n: 'de, T: Deserialize<'de> + Serialize + Debug>(
    out: &mut Answer,
    then: Then,
    from: Deserializer<'de, 'n>,
) {
    if matches!(then, Then::Return(_)) {
        out.fail(Failure::NoRow);
    }
    let value = from.deserialize::<T>(out.alloc());
    write_value(out, then, value);
}

/// Adds a value, or the calls by which it is sent.
fn write_value<T: Serialize + Debug + Drop>(out: &mut Answer, then: Then, value: Result<T>) {
    if let Some(value) = out.given(value) {
        match then {
            Then::Send(human_readable) => write_sent(out, &value, human_readable),
            _ => write_debug(out, &value),
        }
    }
}

/// The same of a type that doesn't print: its value is shown by the calls.
fn write_sample_as<'de, 'n: 'de, T: RoundTrip<'de>>(
    out: &mut Answer,
    then: Then,
    from: Deserializer<'de, 'n>,
) {
    let value = read_as::<T>(out.alloc(), then, from);
    if let Some(value) = out.given(value) {
        write_sent(out, &value, matches!(then, Then::Send(true)));
    }
}

/// The value of a type, or what comes back of it.
fn read_as<'de, 'n: 'de, T: RoundTrip<'de>>(
    alloc: Global,
    then: Then,
    from: Deserializer<'de, 'n>,
) -> Result<T> {
    let value = from.deserialize::<T>(alloc)?;
    match then {
        Then::Return(flags) => sent_back(alloc, &value, flags),
        _ => Ok(value),
    }
}

/// What comes back of a value, by its tree and then by `round_trip`. It is equal to the value, by
/// their contracts.
fn sent_back<'de, T: RoundTrip<'de>>(alloc: Global, value: &T, flags: Flags) -> Result<T> {
    let tree = to_value(alloc, value, flags.human_readable)?;
    let back: T = from_value(alloc, tree, flags.human_readable)?;
    serde_content::round_trip(alloc, &back, flags.human_readable, flags.coerces)
}
