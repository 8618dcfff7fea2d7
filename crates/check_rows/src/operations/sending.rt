//! The calls by which something is sent.

use crate::answer::Answer;
use crate::call::read_calls;
use crate::cursor::Cursor;
use crate::failure::Failure;
use crate::methods::make_call;
use crate::piece::Pieces;
use crate::printable::write_refusal;
use crate::show::write_whole;
use crate::show_call::write_calls;
use crate::tree::read_tree;
use serde_content::ser::{Call, Recorder, Serialize, from_calls};
use serde_content::{Result, Serializer, Value};
use std::alloc::{AllocError, Global};
use std::collections::BTreeMap;

/// Entries in the order of their keys.
type Sorted<'a> = BTreeMap<Value<'a>, Value<'a>>;

/// The calls that a recorder holds, each made by its own method.
pub fn record(out: &mut Answer, columns: &mut Cursor<'_, u8>) {
    let calls = read_calls(columns);
    let mut recorder = Recorder::new(out.alloc(), false);
    for call in &calls {
        out.given(make_call(&mut recorder, call));
    }
    write_calls(out, recorder.into_calls().as_slice());
}

/// A tree as rows have it.
fn shown(alloc: Global, value: Value<'_>) -> Result<String> {
    let mut out = Answer::new(alloc);
    write_whole(&mut out, value);
    Ok(out.finish().ok().ok_or(AllocError)?)
}

/// Whether the tree that a `Serializer` makes of it is the one that the calls spell.
fn is_built<T: Serialize>(
    alloc: Global,
    value: &T,
    human_readable: bool,
    calls: &[Call<'_>],
) -> Result<bool> {
    let mut serializer = Serializer::new();
    if human_readable {
        serializer = serializer.human_readable();
    }
    let built = shown(alloc, serializer.serialize(alloc, value)?)?;
    match from_calls(alloc, calls) {
        Ok(spelled) => Ok(built == shown(alloc, spelled)?),
        Err(refusal) => Err(refusal.error),
    }
}

/// Adds the calls by which it is sent, human readable or not, and where it stops the text of that.
pub fn write_sent<T: Serialize>(out: &mut Answer, value: &T, human_readable: bool) {
    let mut recorder = Recorder::new(out.alloc(), human_readable);
    let ended = value.serialize(out.alloc(), &mut recorder);
    write_calls(out, recorder.calls());
    match ended {
        Ok(()) => {
            let same = is_built(out.alloc(), value, human_readable, recorder.calls());
            if out.given(same) == Some(false) {
                out.push_str("; another tree");
            }
        }
        Err(error) => write_refusal(out, "; stop ", error),
    }
}

/// Of a tree.
pub fn send(out: &mut Answer, pieces: &mut Pieces<'_>) {
    let value = read_tree(pieces);
    write_sent(out, &value, false);
    drop(value);
}

/// Adds the calls of what a tree holds, as the named type.
pub fn write_sent_held(out: &mut Answer, named: &str, tree: Value<'_>) {
    match (named, tree) {
        ("BTreeMap", Value::Map(pairs)) => write_sent_map(out, pairs),
        (_, value) => {
            write_sent_part(out, named, &value);
            drop(value);
        }
    }
}

/// The same of what isn't a map.
fn write_sent_part(out: &mut Answer, named: &str, value: &Value<'_>) {
    match (named, value) {
        ("Option", Value::Option(held)) => write_sent(out, held, false),
        ("Box", Value::Struct(node)) => write_sent(out, node, false),
        ("Box", Value::Enum(node)) => write_sent(out, node, false),
        ("Vec", Value::Seq(items)) => write_sent(out, items, false),
        ("tuple", Value::Tuple(items)) => write_sent_tuple(out, items.as_slice()),
        _ => out.fail(Failure::NoRow),
    }
}

/// Of one to four trees, as a tuple.
fn write_sent_tuple(out: &mut Answer, items: &[Value<'_>]) {
    match items {
        [a] => write_sent(out, &(a,), false),
        [a, b] => write_sent(out, &(a, b), false),
        [a, b, c] => write_sent(out, &(a, b, c), false),
        [a, b, c, d] => write_sent(out, &(a, b, c, d), false),
        _ => out.fail(Failure::NoRow),
    }
}

/// Pairs, put into a `BTreeMap` in turn.
fn map_of<'a>(alloc: Global, pairs: Vec<(Value<'a>, Value<'a>)>) -> Result<Sorted<'a>> {
    let mut map = BTreeMap::new(alloc);
    for (key, value) in pairs {
        drop(map.insert(key, value)?);
    }
    Ok(map)
}

/// Of pairs, as a `BTreeMap`.
fn write_sent_map<'a>(out: &mut Answer, pairs: Vec<(Value<'a>, Value<'a>)>) {
    if let Some(map) = out.given(map_of(out.alloc(), pairs)) {
        write_sent(out, &map, false);
    }
}
