//! Why a text is refused, and where.

ghost use Rattle.std.specs.Prelude.{Some};
ghost use Rattle.content_json.specs.PrintedFault.{decode_error_text, fault_text};

use std::fmt;

/// What is wrong with a text.
#[derive(Clone, Copy, Debug, PartialEq, Eq)]
pub enum Fault {
    /// It ends inside a value.
    Ended,
    /// More than blanks comes after the value.
    Trailing,
    /// Arrays and objects nest deeper than the limit.
    TooDeep,
    /// A byte that can't come here.
    Unexpected,
    /// A digit after a zero at the front of a number.
    LeadingZero,
    /// A fraction or an exponent.
    Float,
    /// A number outside -2^127 .. 2^128-1.
    TooWide,
    /// An unknown escape, or one with fewer than four digits.
    Escape,
    /// A half of a surrogate pair without the other.
    Surrogate,
    /// A control character in a text.
    Control,
    /// What is no UTF-8.
    NotUtf8,
}

impl fmt::Display for Fault {
    ghost output = { λ f. Some (fault_text f) };

    fn fmt<W: fmt::Write>(&self, f: &mut fmt::Formatter<W>) -> fmt::Result {
        f.write_str(match self {
            Fault::Ended => "the text ends inside a value",
            Fault::Trailing => "more after the value",
            Fault::TooDeep => "values nest too deep",
            Fault::Unexpected => "a byte out of place",
            Fault::LeadingZero => "a digit after a leading zero",
            Fault::Float => "a float",
            Fault::TooWide => "a number past 128 bits",
            Fault::Escape => "an unknown escape",
            Fault::Surrogate => "half of a surrogate pair",
            Fault::Control => "a control character",
            Fault::NotUtf8 => "no UTF-8",
        })
    }
}

/// Why a text can't be decoded. It prints as `refused at byte 1: a float`.
#[derive(Clone, Copy, Debug, PartialEq, Eq)]
pub enum DecodeError {
    /// Memory ran out.
    OutOfMemory,
    /// What is wrong with the text, and where.
    Refused {
        /// The place, counted from 0.
        at: usize,
        /// What is wrong.
        fault: Fault,
    },
}

impl fmt::Display for DecodeError {
    ghost output = { λ e. Some (decode_error_text e) };

    fn fmt<W: fmt::Write>(&self, f: &mut fmt::Formatter<W>) -> fmt::Result {
        match self {
            DecodeError::OutOfMemory => f.write_str("out of memory"),
            DecodeError::Refused { at, fault } => write!(f, "refused at byte {at}: {fault}"),
        }
    }
}

impl std::error::Error for DecodeError {}
