//! Kinds of errors of a row.

use crate::expectation::read_expected;
use crate::failure::Failure;
use crate::piece::{Pieces, take_mark, take_text, take_word};
use crate::tree::read_image;
use serde_content::{Error, ErrorKind};
use std::alloc::{AllocError, AllocFailed};

/// The kind of an error.
pub fn read_kind(pieces: &mut Pieces<'_>) -> ErrorKind {
    match take_word(pieces) {
        "OutOfMemory" => ErrorKind::OutOfMemory,
        "AllocError" => Error::from(AllocError).into_kind(),
        "AllocFailed" => Error::from(AllocFailed { value: 0u8 }).into_kind(),
        "Misplaced" => ErrorKind::Misplaced,
        "Failed" => ErrorKind::Failed,
        "Unfinished" => ErrorKind::Unfinished,
        "Custom" => read_custom(pieces),
        "Unexpected" => read_unexpected(pieces),
        _ => pieces.found_or(None, ErrorKind::Failed),
    }
}

/// The kind of the error that the library makes of a text in brackets.
fn read_custom(pieces: &mut Pieces<'_>) -> ErrorKind {
    take_mark(pieces, b'(');
    let error = Error::custom(pieces.alloc(), take_text(pieces).as_str());
    take_mark(pieces, b')');
    if matches!(error.kind(), ErrorKind::OutOfMemory) {
        pieces.note(Err(Failure::OutOfMemory));
    }
    error.into_kind()
}

/// The kind of the error that the library makes of an image and an expectation in brackets.
fn read_unexpected(pieces: &mut Pieces<'_>) -> ErrorKind {
    take_mark(pieces, b'(');
    let error = Error::unexpected(read_image(pieces), read_expected(pieces));
    take_mark(pieces, b')');
    error.into_kind()
}
