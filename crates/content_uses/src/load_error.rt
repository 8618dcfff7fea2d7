//! Why bytes are no records.

ghost use Rattle.std.specs.Prelude.{◌≡◌, Some};
ghost use Rattle.content_uses.specs.LoadText.{load_text};
ghost use Rattle.content_uses.specs.declared.load_error.LoadError.TheVariants.{Decode};

use content_cbor::DecodeError;
use std::fmt;

/// Why bytes are no records. It prints as `refused at byte 1: a float` or `no array of records`.
#[derive(Clone, Copy, Debug, PartialEq, Eq)]
pub enum LoadError {
    /// They can't be decoded, or memory ran out.
    Decode(DecodeError),
    /// They code something that is no array.
    NotArray,
}

impl From<DecodeError> for LoadError {
    ghost from_gives = { λ error e. e ≡ Decode error };

    fn from(error: DecodeError) -> LoadError {
        LoadError::Decode(error)
    }
}

impl fmt::Display for LoadError {
    ghost output = { λ e. Some (load_text e) };

    fn fmt<W: fmt::Write>(&self, f: &mut fmt::Formatter<W>) -> fmt::Result {
        match self {
            LoadError::Decode(error) => write!(f, "{error}"),
            LoadError::NotArray => f.write_str("no array of records"),
        }
    }
}

impl std::error::Error for LoadError {}
