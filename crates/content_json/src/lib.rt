//! Encodes values as JSON (RFC 8259), as `serde_json` prints them, and decodes JSON without floats.
//!
//! ```rust
//! let value = decode(alloc, b"[1, \"a\", null]", 16)?;
//! assert!(rt; encode(alloc, &value)?.as_str() == "[1,\"a\",null]");
//! ```
//!
//! | To | Use |
//! |---|---|
//! | encode a value on one line; on several | [`encode`]; [`encode_pretty`] |
//! | decode a value; the first of several | [`decode`]; [`decode_prefix`] |
//! | handle a value that has no JSON text | [`EncodeError`], [`BadKey`] |
//! | handle a text that is refused | [`DecodeError`], [`Fault`] |

#![tactic(auto)]

mod decode_error;
mod decoding;
mod encode_error;
mod encoding;
mod keys;
mod layout;
mod leaves;
mod numbers;
mod read_strings;
mod stop;
mod strings;
#[cfg(test)]
mod tests;
mod utf8;

pub use decode_error::{DecodeError, Fault};
pub use decoding::{decode, decode_prefix};
pub use encode_error::{BadKey, EncodeError};
pub use encoding::{encode, encode_pretty};
