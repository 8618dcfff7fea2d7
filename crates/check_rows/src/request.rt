//! Requests of a row.

use crate::piece::{Pieces, take_word};

/// A request.
#[derive(Clone, Copy)]
pub struct Request<'a> {
    /// What is asked for.
    pub word: &'a str,
    /// The name that is told, if any.
    pub name: &'static str,
    /// The length that is told, if any.
    pub length: usize,
}

/// Takes a word, after which a name, a length or both may follow in brackets.
pub fn read_request<'a>(pieces: &mut Pieces<'a>) -> Request<'a> {
    let text = take_word(pieces);
    let (word, rest) = text.split_once('(').unwrap_or((text, ")"));
    let inside = pieces.found_or(rest.strip_suffix(')'), "");
    let (name, length) = match (word, inside.split_once(", ")) {
        (_, None) if inside.is_empty() => ("", 0),
        (_, Some((name, length))) => (pieces.name(name), pieces.parsed(length)),
        ("tuple" | "tuple_variant", None) => ("", pieces.parsed(inside)),
        (_, None) => (pieces.name(inside), 0),
    };
    Request { word, name, length }
}
