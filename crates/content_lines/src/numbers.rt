//! Numbers as a line writes them. There is a function for each type: of a type that is a parameter
//! `parse` says nothing of the number.

#![tactic(auto, using(crate::proofs::Parsed::natural_parsed, crate::proofs::Parsed::integer_parsed, crate::proofs::Parsed::integer_none))]

ghost use Rattle.std.specs.Prelude.{◌≡◌, ◌||◌};
ghost use Rattle.std.specs.Str.{all_ascii_digits};
ghost use Rattle.content_lines.specs.Numerals.{is_numeral, is_negative, natural_of, integer_of};

fn are_digits(bytes: &[u8]) -> bool
    ensures { result ≡ all_ascii_digits bytes.now }
{
    bytes.iter().all(|b| b.is_ascii_digit())
}

/// Whether it is `0`, or a digit 1 to 9 followed by digits.
fn is_numeral(digits: &[u8]) -> bool
    ensures { result ≡ is_numeral digits.now }
{
    are_digits(digits) && !digits.is_empty() && (digits[0] != b'0' || digits.len() == 1)
}

/// Whether it is a `-` and a numeral other than `0`.
fn is_negative_numeral(text: &[u8]) -> bool
    ensures { result ≡ is_negative text.now }
{
    match text {
        [b'-', digits @ ..] => is_numeral(digits) && digits[0] != b'0',
        _ => false,
    }
}

/// Whether a number of a signed kind is a numeral.
fn is_integer_numeral(text: &[u8]) -> bool
    ensures { result ≡ (is_negative text.now || is_numeral text.now) }
{
    is_negative_numeral(text) || is_numeral(text)
}

/// An unsigned number of 8 bits.
pub fn read_u8(text: &str) -> Option<u8>
    ensures { result ≡ natural_of 8 text.now }
{
    if is_numeral(text.as_bytes()) {
        text.parse::<u8>().ok()
    } else {
        None
    }
}

/// An unsigned number of 16 bits.
pub fn read_u16(text: &str) -> Option<u16>
    ensures { result ≡ natural_of 16 text.now }
{
    if is_numeral(text.as_bytes()) {
        text.parse::<u16>().ok()
    } else {
        None
    }
}

/// An unsigned number of 32 bits.
pub fn read_u32(text: &str) -> Option<u32>
    ensures { result ≡ natural_of 32 text.now }
{
    if is_numeral(text.as_bytes()) {
        text.parse::<u32>().ok()
    } else {
        None
    }
}

/// An unsigned number of 64 bits.
pub fn read_u64(text: &str) -> Option<u64>
    ensures { result ≡ natural_of 64 text.now }
{
    if is_numeral(text.as_bytes()) {
        text.parse::<u64>().ok()
    } else {
        None
    }
}

/// An unsigned number of 128 bits.
pub fn read_u128(text: &str) -> Option<u128>
    ensures { result ≡ natural_of 128 text.now }
{
    if is_numeral(text.as_bytes()) {
        text.parse::<u128>().ok()
    } else {
        None
    }
}

/// A length.
pub fn read_usize(text: &str) -> Option<usize>
    ensures { result ≡ natural_of 64 text.now }
{
    if is_numeral(text.as_bytes()) {
        text.parse::<usize>().ok()
    } else {
        None
    }
}

/// A signed number of 8 bits.
pub fn read_i8(text: &str) -> Option<i8>
    ensures { result ≡ integer_of 7 text.now }
{
    if is_integer_numeral(text.as_bytes()) {
        text.parse::<i8>().ok()
    } else {
        None
    }
}

/// A signed number of 16 bits.
pub fn read_i16(text: &str) -> Option<i16>
    ensures { result ≡ integer_of 15 text.now }
{
    if is_integer_numeral(text.as_bytes()) {
        text.parse::<i16>().ok()
    } else {
        None
    }
}

/// A signed number of 32 bits.
pub fn read_i32(text: &str) -> Option<i32>
    ensures { result ≡ integer_of 31 text.now }
{
    if is_integer_numeral(text.as_bytes()) {
        text.parse::<i32>().ok()
    } else {
        None
    }
}

/// A signed number of 64 bits.
pub fn read_i64(text: &str) -> Option<i64>
    ensures { result ≡ integer_of 63 text.now }
{
    if is_integer_numeral(text.as_bytes()) {
        text.parse::<i64>().ok()
    } else {
        None
    }
}

/// A signed number of 128 bits.
pub fn read_i128(text: &str) -> Option<i128>
    ensures { result ≡ integer_of 127 text.now }
{
    if is_integer_numeral(text.as_bytes()) {
        text.parse::<i128>().ok()
    } else {
        None
    }
}
