//! Why a value has no JSON text.

ghost use Rattle.std.specs.Prelude.{◌≡◌, Some};
ghost use Rattle.content_json.specs.PrintedError.{error_text, kind_text};
ghost use Rattle.content_json.specs.declared.encode_error.EncodeError.TheVariants.{OutOfMemory};

use std::alloc::AllocError;
use std::fmt;

/// What a key of a map is that can't be a key in JSON.
#[derive(Clone, Copy, Debug, PartialEq, Eq)]
pub enum BadKey {
    /// The unit, `()`.
    Unit,
    /// Bytes.
    Bytes,
    /// A sequence.
    Seq,
    /// A map.
    Map,
    /// `None`.
    None,
    /// A struct other than a newtype.
    Struct,
    /// A variant other than a unit.
    Variant,
    /// A tuple.
    Tuple,
}

impl fmt::Display for BadKey {
    ghost output = { λ k. Some (kind_text k) };

    fn fmt<W: fmt::Write>(&self, f: &mut fmt::Formatter<W>) -> fmt::Result {
        f.write_str(match self {
            BadKey::Unit => "a unit",
            BadKey::Bytes => "bytes",
            BadKey::Seq => "a sequence",
            BadKey::Map => "a map",
            BadKey::None => "none",
            BadKey::Struct => "a struct",
            BadKey::Variant => "a variant with data",
            BadKey::Tuple => "a tuple",
        })
    }
}

/// Why a value can't be encoded. It prints as `a key of a map is a tuple`.
#[derive(Clone, Copy, Debug, PartialEq, Eq)]
pub enum EncodeError {
    /// Memory ran out.
    OutOfMemory,
    /// A key of a map is no text, number, boolean or character.
    Key(BadKey),
}

impl From<AllocError> for EncodeError {
    ghost from_gives = { λ _ e. e ≡ OutOfMemory };

    fn from(_error: AllocError) -> EncodeError {
        EncodeError::OutOfMemory
    }
}

impl fmt::Display for EncodeError {
    ghost output = { λ e. Some (error_text e) };

    fn fmt<W: fmt::Write>(&self, f: &mut fmt::Formatter<W>) -> fmt::Result {
        match self {
            EncodeError::OutOfMemory => f.write_str("out of memory"),
            EncodeError::Key(kind) => write!(f, "a key of a map is {kind}"),
        }
    }
}

impl std::error::Error for EncodeError {}
