//! Accesses, step by step.

use crate::answer::Answer;
use crate::deserializer::{read_deserializer, write_handed};
use crate::failure::Failure;
use crate::flags::read_flags;
use crate::piece::{Pieces, take_word};
use crate::printable::{write_debug, write_refusal};
use crate::request::read_request;
use serde_content::Result;
use serde_content::de::{Map, Seq};
use std::fmt::Debug;

/// What an access answers to each step.
pub fn access(out: &mut Answer, pieces: &mut Pieces<'_>) {
    let flags = read_flags(pieces);
    let request = read_request(pieces);
    let steps = take_word(pieces);
    let from = read_deserializer(pieces, flags);
    let alloc = out.alloc();
    match request.word {
        "seq" => write_seq_steps(out, steps, from.deserialize_seq(alloc)),
        "map" => write_map_steps(out, steps, from.deserialize_map(alloc)),
        "struct" => {
            let entries = from.deserialize_struct(alloc, request.name, &[]);
            write_map_steps(out, steps, entries);
        }
        _ => out.unfit(from),
    }
}

/// Adds the answer of a step, as it prints for a programmer.
pub fn write_step<T: Debug + Drop>(out: &mut Answer, answer: Result<T>) {
    match answer {
        Ok(given) => {
            out.push_str("ok ");
            write_debug(out, &given);
        }
        Err(error) => write_refusal(out, "refused ", error),
    }
}

/// Adds what a sequence answers to each step.
fn write_seq_steps(out: &mut Answer, steps: &str, items: Result<Seq<'_, 'static>>) {
    if let Some(mut items) = out.given(items) {
        for (place, step) in steps.split("; ").enumerate() {
            out.push_str(if place == 0 { "" } else { "; " });
            write_seq_step(out, &mut items, step);
        }
    }
}

/// Adds what a sequence answers to a step.
fn write_seq_step(out: &mut Answer, items: &mut Seq<'_, 'static>, step: &str) {
    let alloc = out.alloc();
    match step {
        "size_hint" => write_step(out, Ok(items.size_hint())),
        "next_element<u8>" => write_step(out, items.next_element::<u8>(alloc)),
        _ => out.fail(Failure::NoRow),
    }
}

/// Adds what a map answers to each step.
fn write_map_steps(out: &mut Answer, steps: &str, entries: Result<Map<'_, 'static>>) {
    if let Some(mut entries) = out.given(entries) {
        for (place, step) in steps.split("; ").enumerate() {
            out.push_str(if place == 0 { "" } else { "; " });
            write_map_step(out, &mut entries, step);
        }
    }
}

/// Adds what a map answers to a step.
fn write_map_step(out: &mut Answer, entries: &mut Map<'_, 'static>, step: &str) {
    let alloc = out.alloc();
    match step {
        "size_hint" => write_step(out, Ok(entries.size_hint())),
        "next_key<()>" => write_step(out, entries.next_key::<()>(alloc)),
        "next_key<bool>" => write_step(out, entries.next_key::<bool>(alloc)),
        "next_key<u64>" => write_step(out, entries.next_key::<u64>(alloc)),
        "next_key<i128>" => write_step(out, entries.next_key::<i128>(alloc)),
        "next_key<String>" => write_step(out, entries.next_key::<String>(alloc)),
        "next_value<bool>" => write_step(out, entries.next_value::<bool>(alloc)),
        "next_value<u8>" => write_step(out, entries.next_value::<u8>(alloc)),
        "next_entry<(), u8>" => write_step(out, entries.next_entry::<(), u8>(alloc)),
        "next_entry<bool, u8>" => write_step(out, entries.next_entry::<bool, u8>(alloc)),
        "next_entry<String, bool>" => write_step(out, entries.next_entry::<String, bool>(alloc)),
        "next_entry<String, u8>" => write_step(out, entries.next_entry::<String, u8>(alloc)),
        "next_entry_deserializers" => write_entry(out, entries),
        _ => out.fail(Failure::NoRow),
    }
}

/// Adds the next entry as what reads its key and what reads its value.
fn write_entry(out: &mut Answer, entries: &mut Map<'_, 'static>) {
    match entries.next_entry_deserializers(out.alloc()) {
        Ok(None) => out.push_str("ok None"),
        Ok(Some((key, value))) => {
            out.push_str("ok Some(");
            write_handed(out, key);
            out.push_str(" => ");
            write_handed(out, value);
            out.push(')');
        }
        Err(error) => write_refusal(out, "refused ", error),
    }
}
