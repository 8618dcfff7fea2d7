//! The types of rows, by their names.

use crate::answer::{come_back, no_row, send};
use crate::parts::tell;
use check_derive::choices::{Color, Command, Setting};
use check_derive::inlined::{Change, Line};
use check_derive::places::Depot;
use check_derive::sorts::{Code, Ledger, Message, Stop};
use check_derive::types::{Order, Step};
use check_fields::attributes::{Grade, Task};
use check_fields::generic::{Event, Hits, Notice, Row};
use check_fields::left_over::{Key, Lock, Package, Post};
use check_fields::nested::Expr;
use serde_content::samples::{Point, Shape};
use serde_content::{Deserializer, Result};
use std::alloc::Global;
use std::collections::BTreeMap;
use std::net::IpAddr;

/// What is done with the type among these that has this name, or else the last.
macro_rules! with_type {
    ($name:expr, $done:ident $given:tt, [$($known:ty),* $(,)?], $other:expr) => {
        match $name {
            $(stringify!($known) => $done::<$known> $given,)*
            _ => $other,
        }
    };
}

/// The answer about the type of this name, with room for bytes in CBOR.
pub fn answer_as<'de, 'n: 'de>(
    alloc: Global,
    operation: &str,
    typ: &str,
    from: Deserializer<'de, 'n>,
    room: &'de mut Vec<u8>,
) -> Result<String> {
    with_type!(typ, come_back(alloc, operation, from, room), [
        u8, (u8, bool), Vec<Option<Box<u8>>>, BTreeMap<bool, u8>, BTreeMap<i8, u8>, Change, Color,
        Command, Ledger, Line, Message, Option<Code>, Order, Point, Setting, Step, Stop,
        [[Option<u8>; 2]; 2], (Option<IpAddr>, IpAddr),
    ], answer_without(alloc, operation, typ, from))
}

/// The same of a type whose values don't come back.
fn answer_without<'de, 'n: 'de>(
    alloc: Global,
    operation: &str,
    typ: &str,
    from: Deserializer<'de, 'n>,
) -> Result<String> {
    with_type!(typ, send(alloc, operation, from), [
        Event<u8>, Expr, Grade, Hits<u8>, Notice<u64>, Row<i16>, Task, Vec<Shape>,
    ], match operation {
        "back" | "cbor" => no_row(from),
        _ => with_type!(typ, tell(alloc, from), [Depot, Key, Lock, Package, Post], no_row(from)),
    })
}
