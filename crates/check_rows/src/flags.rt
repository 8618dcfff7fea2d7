//! Flags of a deserializer.

use crate::answer::Answer;
use crate::order::equals;
use crate::piece::{Pieces, take_word};
use serde_content::Deserializer;

/// Flags of a deserializer.
#[derive(Clone, Copy, PartialEq, Eq)]
pub struct Flags {
    /// What is read is human readable.
    pub human_readable: bool,
    /// Numbers are coerced.
    pub coerces: bool,
}

/// Takes flags.
pub fn read_flags(pieces: &mut Pieces<'_>) -> Flags {
    let (human_readable, coerces) = match take_word(pieces) {
        "-" => (false, false),
        "h" => (true, false),
        "c" => (false, true),
        "hc" => (true, true),
        _ => pieces.found_or(None, (false, false)),
    };
    Flags {
        human_readable,
        coerces,
    }
}

/// The word of these flags.
pub fn flags_word(flags: Flags) -> &'static str {
    match (flags.human_readable, flags.coerces) {
        (false, false) => "-",
        (true, false) => "h",
        (false, true) => "c",
        (true, true) => "hc",
    }
}

/// The deserializer with these flags set.
pub fn with_flags<'de, 'n>(mut from: Deserializer<'de, 'n>, flags: Flags) -> Deserializer<'de, 'n> {
    if flags.human_readable {
        from = from.human_readable();
    }
    if flags.coerces {
        from = from.coerce_numbers();
    }
    from
}

/// The flags of a deserializer: numbers are coerced where it equals itself with numbers coerced.
pub fn flags_of(out: &mut Answer, from: &Deserializer<'_, '_>) -> Flags {
    let coerces = match out.given(from.try_clone(out.alloc())) {
        Some(copy) => equals(copy.coerce_numbers(), from),
        None => false,
    };
    Flags {
        human_readable: from.is_human_readable(),
        coerces,
    }
}
