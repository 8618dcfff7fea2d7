//! The words, marks and texts of a tree.

use crate::cursor::Cursor;
use crate::failure::{Failure, Result};
use crate::quoted::{read_bytes, read_char, read_text};
use serde_content::CowStr;
use std::str;
use std::str::FromStr;

/// How a text or bytes are held.
#[derive(Clone, Copy)]
pub enum Case {
    /// Static: a name alone.
    Static,
    /// Borrowed from the row.
    Borrowed,
    /// Owned.
    Owned,
}

/// A part of a tree. What parts the items of a list is none: spaces, commas, colons and arrows.
#[derive(Drop)]
pub enum Piece {
    /// A bracket.
    Mark(u8),
    /// Letters, digits, `_`, `-` and `&`.
    Word(String),
    /// A character in quotes.
    Char(char),
    /// A text in quotes.
    Text(Case, String),
    /// Bytes in brackets.
    Bytes(Case, Vec<u8>),
}

/// The pieces that are left.
pub type Pieces<'a> = Cursor<'a, Piece>;

/// The case that this letter tells.
fn case_of(bytes: &mut Cursor<'_, u8>, letter: u8) -> Case {
    match letter {
        b's' => Case::Static,
        b'b' => Case::Borrowed,
        b'o' => Case::Owned,
        _ => bytes.found_or(None, Case::Static),
    }
}

fn is_word(byte: u8) -> bool {
    byte.is_ascii_alphanumeric() || matches!(byte, b'_' | b'-' | b'&')
}

/// Takes a word of at least one byte.
fn read_word(bytes: &mut Cursor<'_, u8>) -> String {
    let rest = bytes.rest();
    let length = rest.iter().position(|b| !is_word(*b)).unwrap_or(rest.len());
    let (word, after) = rest.split_at(length);
    bytes.move_to(after);
    let word = bytes.found_or(str::from_utf8(word).ok(), "");
    if word.is_empty() {
        bytes.note(Err(Failure::NoRow));
    }
    bytes.copied(word)
}

/// Takes a piece.
fn read_piece(bytes: &mut Cursor<'_, u8>) -> Piece {
    match bytes.rest() {
        [mark @ (b'(' | b')' | b'[' | b']' | b'{' | b'}'), after @ ..] => {
            bytes.move_to(after);
            Piece::Mark(*mark)
        }
        [b'\'', after @ ..] => {
            bytes.move_to(after);
            Piece::Char(read_char(bytes))
        }
        [b'"', after @ ..] => {
            bytes.move_to(after);
            Piece::Text(Case::Owned, read_text(bytes))
        }
        [letter, b'"', after @ ..] => {
            bytes.move_to(after);
            Piece::Text(case_of(bytes, *letter), read_text(bytes))
        }
        [letter @ (b'b' | b'o'), b'[', after @ ..] => {
            bytes.move_to(after);
            Piece::Bytes(case_of(bytes, *letter), read_bytes(bytes))
        }
        _ => Piece::Word(read_word(bytes)),
    }
}

/// Adds the pieces of a text, in order.
pub fn add_pieces(pieces: &mut Vec<Piece>, text: &str) -> Result<()> {
    let mut bytes = Cursor::new(*pieces.allocator(), text.as_bytes());
    // Each step takes a byte at least.
    for _ in text.as_bytes() {
        match bytes.rest() {
            [] => break,
            [b' ' | b',' | b':' | b'=' | b'>' | b'\t', after @ ..] => bytes.move_to(after),
            _ => {
                let piece = read_piece(&mut bytes);
                bytes.made(pieces.push(piece));
            }
        }
    }
    bytes.end()
}

/// Whether this bracket is next; it is then taken.
pub fn take_if_mark(pieces: &mut Pieces<'_>, mark: u8) -> bool {
    match pieces.rest() {
        [Piece::Mark(found), after @ ..] if *found == mark => {
            pieces.move_to(after);
            true
        }
        _ => false,
    }
}

/// Whether this word is next; it is then taken.
pub fn take_if_word(pieces: &mut Pieces<'_>, word: &str) -> bool {
    match pieces.rest() {
        [Piece::Word(found), after @ ..] if found.as_str() == word => {
            pieces.move_to(after);
            true
        }
        _ => false,
    }
}

/// Takes this bracket.
pub fn take_mark(pieces: &mut Pieces<'_>, mark: u8) {
    if !take_if_mark(pieces, mark) {
        pieces.note(Err(Failure::NoRow));
    }
}

/// Takes a word.
pub fn take_word<'a>(pieces: &mut Pieces<'a>) -> &'a str {
    match pieces.next() {
        Some(Piece::Word(word)) => word.as_str(),
        _ => pieces.found_or(None, ""),
    }
}

/// Takes a word as what it spells.
pub fn take_parsed<T: FromStr + Default + Drop>(pieces: &mut Pieces<'_>) -> T
where
    T::Err: Drop,
{
    let word = take_word(pieces);
    pieces.parsed(word)
}

/// Takes an owned text, as a copy.
pub fn take_text(pieces: &mut Pieces<'_>) -> String {
    match pieces.next() {
        Some(Piece::Text(Case::Owned, text)) => pieces.copied(text.as_str()),
        _ => pieces.found_or(None, String::new(pieces.alloc())),
    }
}

/// Takes a name, static or owned.
pub fn take_name(pieces: &mut Pieces<'_>) -> CowStr<'static> {
    match pieces.next() {
        Some(Piece::Text(Case::Static, name)) => { CowStr::Borrowed(pieces.name(name.as_str())) }
        Some(Piece::Text(Case::Owned, name)) => CowStr::Owned(pieces.copied(name.as_str())),
        _ => pieces.found_or(None, CowStr::Borrowed("")),
    }
}
