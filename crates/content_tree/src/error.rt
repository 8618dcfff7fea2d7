//! Errors.

#![tactic(auto, using(crate::proofs::Printing::two_writes, crate::proofs::Printing::three_writes, crate::proofs::Printing::four_writes))]

ghost use Rattle.std.specs.Prelude.{◌≡◌, [], Some};
ghost use Rattle.content_tree.specs.Errors.Kind.{kind_of, IsCustomOrMemory};
ghost use Rattle.content_tree.specs.Errors.Where.{places, IsNew};
ghost use Rattle.content_tree.specs.declared.error.ErrorKind.TheVariants.{Unexpected, OutOfMemory};
ghost use Rattle.content_tree.specs.Printed.Errors.{kind_text, error_text};

use crate::expected::Expected;
use crate::found::Found;
use crate::trail::Trail;
use std::alloc::{AllocError, AllocFailed, Global};
use std::fmt;
use std::fmt::Display;

/// The answer of a call that can fail.
pub type Result<T> = std::result::Result<T, Error>;

/// Why a call failed.
#[derive(Debug, Drop, PartialEq, Eq, PartialOrd, Ord)]
pub enum ErrorKind {
    /// Something else was found than what was expected.
    Unexpected {
        /// The image of what was found.
        found: Found,
        /// What was expected.
        expected: Expected,
    },
    /// A text of the caller's or the library's own.
    Custom(String),
    /// An allocation failed.
    OutOfMemory,
    /// A call after which no list of calls can spell a tree.
    Misplaced,
    /// A call on a serialiser that has failed before.
    Failed,
    /// The calls so far spell no tree yet.
    Unfinished,
}

/// An error: one [`ErrorKind`], with no box, and the [path](Error::path) to what was refused, which
/// takes memory once it has a step.
/// `Unexpected` and `Custom` are `serde-content`'s kinds; the other four are not in it.
///
/// ```rust
/// let error = Error::unexpected(Found::Bool(true), Expected::Unit);
/// assert_eq!(rt;
///     format!(in alloc; "{error}")?.as_str(),
///     "failed to deserialize; expected a unit, found true"
/// );
/// assert!(rt; matches!(error.kind(), ErrorKind::Unexpected { .. }));
/// ```
#[derive(Drop)]
#[derive_where(Debug, PartialEq, Eq, PartialOrd, Ord)]
pub struct Error {
    kind: ErrorKind,
    #[derive_where(skip)]
    pub(crate) trail: Trail,
}

impl From<ErrorKind> for Error {
    ghost from_gives = { λ kind e. IsNew kind e };

    fn from(kind: ErrorKind) -> Error {
        Error {
            kind,
            trail: Trail::Here,
        }
    }
}

impl From<AllocError> for Error {
    ghost from_gives = { λ _ e. IsNew OutOfMemory e };

    fn from(_refused: AllocError) -> Error {
        Error::from(ErrorKind::OutOfMemory)
    }
}

impl<T: Drop> From<AllocFailed<T>> for Error {
    ghost from_gives = { λ _ e. IsNew OutOfMemory e };

    fn from(_refused: AllocFailed<T>) -> Error {
        Error {
            kind: ErrorKind::OutOfMemory,
            trail: Trail::Here,
        }
    }
}

impl Error {
    /// Makes the error that something else was found than expected, of kind
    /// [`ErrorKind::Unexpected`]. It takes no memory.
    pub fn unexpected(found: Found, expected: Expected) -> Error
        ensures { IsNew (Unexpected found expected) result }
    {
        Error::from(ErrorKind::Unexpected { found, expected })
    }

    /// Makes an error of a text: of kind [`ErrorKind::Custom`] with a copy of the text, or of kind
    /// [`ErrorKind::OutOfMemory`] where the allocation failed.
    pub fn custom(alloc: Global, text: &str) -> Error
        ensures kind { IsCustomOrMemory text.now (kind_of result) }
        ensures path { places result ≡ Some [] }
    {
        match String::from_str(alloc, text) {
            Ok(text) => Error::from(ErrorKind::Custom(text)),
            Err(refused) => Error::from(refused),
        }
    }

    /// The kind of the error. It takes no memory.
    pub fn kind(&self) -> &ErrorKind
        ensures { result.now ≡ kind_of self.now }
    {
        &self.kind
    }

    /// The kind of the error, moved out of it. It takes no memory.
    pub fn into_kind(self) -> ErrorKind
        ensures { result ≡ kind_of self }
    {
        let Error { kind, trail: _ } = self;
        kind
    }

    /// An error of this kind, met after these steps.
    pub(crate) fn at(kind: ErrorKind, trail: Trail) -> Error
        ensures kind { kind_of result ≡ kind }
        ensures trail { result.trail ≡ trail }
    {
        Error { kind, trail }
    }

    /// The kind and the steps.
    pub(crate) fn into_parts(self) -> (ErrorKind, Trail)
        ensures kind { result.0 ≡ kind_of self }
        ensures trail { result.1 ≡ self.trail }
    {
        let Error { kind, trail } = self;
        (kind, trail)
    }
}

impl fmt::Display for ErrorKind {
    ghost output = { λ e. Some (kind_text e) };

    ghost styled_output = { λ e _options. Some (kind_text e) };

    fn fmt<W: fmt::Write>(&self, f: &mut fmt::Formatter<W>) -> fmt::Result {
        match self {
            ErrorKind::Unexpected { found, expected } => {
                f.write_str("failed to deserialize; expected ")?;
                expected.fmt(f)?;
                f.write_str(", found ")?;
                found.fmt(f)
            }
            ErrorKind::Custom(text) => f.write_str(text.as_str()),
            ErrorKind::OutOfMemory => f.write_str("out of memory"),
            ErrorKind::Misplaced => f.write_str("call out of place"),
            ErrorKind::Failed => f.write_str("serializer has failed"),
            ErrorKind::Unfinished => f.write_str("call list is unfinished"),
        }
    }
}

impl fmt::Display for Error {
    ghost output = { λ e. Some (error_text e) };

    ghost styled_output = { λ e _options. Some (error_text e) };

    fn fmt<W: fmt::Write>(&self, f: &mut fmt::Formatter<W>) -> fmt::Result {
        self.kind.fmt(f)
    }
}

impl std::error::Error for Error {}
