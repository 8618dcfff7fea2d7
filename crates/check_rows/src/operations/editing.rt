//! A value that is edited: what the edit gives, and the value after it.

use crate::answer::Answer;
use crate::failure::Failure;
use crate::piece::Pieces;
use crate::show::write_whole;
use crate::tree::{read_text, read_tree};
use serde_content::{InsertError, Value};

/// A value that is taken, and what is left.
pub fn take(out: &mut Answer, pieces: &mut Pieces<'_>) {
    let mut value = read_tree(pieces);
    let taken = value.take();
    write_edited(out, Some(taken), value);
}

/// A sequence with an item after its last.
pub fn push(out: &mut Answer, pieces: &mut Pieces<'_>) {
    let item = read_tree(pieces);
    let mut value = read_tree(pieces);
    match value.push(item) {
        Ok(()) => write_edited(out, None, value),
        Err(refused) => write_unedited(out, refused, value),
    }
}

/// A map with a value at a key.
pub fn insert(out: &mut Answer, pieces: &mut Pieces<'_>) {
    let key = read_tree(pieces);
    let item = read_tree(pieces);
    let mut value = read_tree(pieces);
    match value.insert(key, item) {
        Ok(before) => write_edited(out, before, value),
        Err(refused) => {
            let (key, item) = given_back(out, refused);
            write_whole(out, key);
            out.push_str(" => ");
            write_edited(out, Some(item), value);
        }
    }
}

/// A map without the last entry of a key.
pub fn remove(out: &mut Answer, pieces: &mut Pieces<'_>) {
    let key = read_tree(pieces);
    let mut value = read_tree(pieces);
    let removed = value.remove(&key);
    drop(key);
    write_edited(out, removed, value);
}

/// A map without the last entry of a text as key.
pub fn remove_str(out: &mut Answer, pieces: &mut Pieces<'_>) {
    let key = read_text(pieces);
    let mut value = read_tree(pieces);
    let removed = value.remove_str(key.as_str());
    write_edited(out, removed, value);
}

/// A value without what a path leads to.
pub fn remove_pointer(out: &mut Answer, pieces: &mut Pieces<'_>) {
    let path = read_text(pieces);
    let mut value = read_tree(pieces);
    let removed = value.remove_pointer(path.as_str());
    write_edited(out, removed, value);
}

/// A value with another where a path leads.
pub fn set_pointer(out: &mut Answer, pieces: &mut Pieces<'_>) {
    let path = read_text(pieces);
    let item = read_tree(pieces);
    let mut value = read_tree(pieces);
    match value.set_pointer(pieces.alloc(), path.as_str(), item) {
        Ok(before) => write_edited(out, before, value),
        Err(refused) => write_unedited(out, refused, value),
    }
}

/// What an edit that was refused gives back; the answer begins with that, unless memory is the
/// cause.
fn given_back<T>(out: &mut Answer, refused: InsertError<T>) -> T {
    match refused {
        InsertError::NoPlace(given) => {
            out.push_str("wrong kind ");
            given
        }
        InsertError::OutOfMemory(given) => {
            out.fail(Failure::OutOfMemory);
            given
        }
    }
}

/// Adds what an edit that was refused gives back, and the value after it.
fn write_unedited<'a>(out: &mut Answer, refused: InsertError<Value<'a>>, value: Value<'a>) {
    let item = given_back(out, refused);
    write_edited(out, Some(item), value);
}

/// Adds what an edit gives, or that it gives nothing, and the value after it.
fn write_edited<'a>(out: &mut Answer, given: Option<Value<'a>>, value: Value<'a>) {
    match given {
        Some(given) => write_whole(out, given),
        None => out.push_str("none"),
    }
    out.push_str("; ");
    write_whole(out, value);
}
