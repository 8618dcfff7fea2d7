//! Why bytes are refused, and where.

ghost use Rattle.std.specs.Prelude.{◌≡◌, Some};
ghost use Rattle.content_cbor.specs.Malformed.{is_malformed};
ghost use Rattle.content_cbor.specs.PrintedFault.{fault_text, error_text};

use std::fmt;

/// What is wrong with bytes.
///
/// A byte with several faults has the first of them, in the order below. What RFC 8949 calls not
/// well-formed comes before what is only not supported
/// ([proved](crate::laws::others_begin_items)), and the kind of an item before its depth:
/// a greater limit helps at `TooDeep` ([proved](crate::laws::deeper_goes_further)) and at no other
/// fault ([proved](crate::laws::only_depth_is_limited)). Each fault fits the byte, and those before
/// it ([proved](crate::laws::faults_fit_bytes)).
#[derive(Clone, Copy, Debug, PartialEq, Eq)]
pub enum Fault {
    /// They end inside an item.
    Ended,
    /// Bytes come after the item.
    Trailing,
    /// A first byte that RFC 8949 gives no meaning.
    Reserved,
    /// A break where an item is due.
    Break,
    /// Inside a text or bytes of indefinite length, what is no chunk of it: an item of another
    /// major type, or of indefinite length.
    WrongChunk,
    /// Under tag 2 or 3, an item other than bytes.
    WrongKind,
    /// A float.
    Float,
    /// A simple value other than false, true and null.
    Simple,
    /// A tag other than 2 and 3.
    Tag,
    /// Items nest deeper than the limit.
    TooDeep,
    /// A number past 128 bits.
    TooWide,
    /// A text that is no UTF-8.
    NotUtf8,
}

impl Fault {
    /// Whether the bytes up to and with the place begin no well-formed item of RFC 8949, so that no
    /// decoder takes them: at `Trailing`, `Reserved`, `Break` and `WrongChunk`
    /// ([proved](crate::laws::malformed_begins_nothing)). At every other fault they begin one
    /// ([proved](crate::laws::others_begin_items)): at `Ended` more bytes may complete it, at
    /// `WrongKind` and `NotUtf8` it isn't valid, else it isn't supported here.
    pub fn is_malformed(self) -> bool
        ensures { result ≡ is_malformed self }
    {
        matches!(
            self,
            Fault::Trailing | Fault::Reserved | Fault::Break | Fault::WrongChunk
        )
    }
}

impl fmt::Display for Fault {
    ghost output = { λ f. Some (fault_text f) };

    fn fmt<W: fmt::Write>(&self, f: &mut fmt::Formatter<W>) -> fmt::Result {
        f.write_str(match self {
            Fault::Ended => "the bytes end inside an item",
            Fault::Trailing => "bytes after the item",
            Fault::Reserved => "no first byte of an item",
            Fault::Break => "a break out of place",
            Fault::WrongChunk => "an item that is no chunk",
            Fault::WrongKind => "an item of a wrong kind",
            Fault::Float => "a float",
            Fault::Simple => "an unknown simple value",
            Fault::Tag => "an unknown tag",
            Fault::TooDeep => "items nest too deep",
            Fault::TooWide => "a number past 128 bits",
            Fault::NotUtf8 => "a text that is no UTF-8",
        })
    }
}

/// Why bytes can't be decoded. It prints as `refused at byte 1: a float`.
#[derive(Clone, Copy, Debug, PartialEq, Eq)]
pub enum DecodeError {
    /// Memory ran out.
    OutOfMemory,
    /// What is wrong with the bytes, and where.
    Refused {
        /// The place, counted from 0: of the first byte with which they begin no item within the
        /// limit; the length, where they begin one, but end inside it.
        at: usize,
        /// What is wrong.
        fault: Fault,
    },
}

impl fmt::Display for DecodeError {
    ghost output = { λ e. Some (error_text e) };

    fn fmt<W: fmt::Write>(&self, f: &mut fmt::Formatter<W>) -> fmt::Result {
        match self {
            DecodeError::OutOfMemory => f.write_str("out of memory"),
            DecodeError::Refused { at, fault } => write!(f, "refused at byte {at}: {fault}"),
        }
    }
}

impl std::error::Error for DecodeError {}
