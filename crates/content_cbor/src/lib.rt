//! Encodes values, and anything that can be serialised, as CBOR (RFC 8949), and decodes it.
//!
//! ```rust
//! let bytes = to_bytes(alloc, &(Some(7u8), "a", false))?;
//! assert!(rt; bytes.as_slice() == [0x83, 0x07, 0x61, b'a', 0xf4].as_slice());
//! let three: (Option<u8>, &str, bool) = from_bytes(alloc, &bytes, 16)?;
//! assert!(rt; three == (Some(7), "a", false));
//! ```
//!
//! | To | Use |
//! |---|---|
//! | encode what can be serialised | [`to_bytes`], or as a serialiser [`Encoder`] |
//! | decode typed data | [`from_bytes`] |
//! | decode types whose values are proved to come back equal | [`read_back`], [`CborRoundTrip`] |
//! | encode a value; several as one array | [`encode`]; [`encode_array`] |
//! | decode a value; the first of several | [`decode`]; [`decode_prefix`] |
//! | get what CBOR keeps of a value | [`through_cbor`] |
//! | handle bytes that are refused | [`DecodeError`], [`Fault`] |
//! | prove something of these | [`laws`] |

#![tactic(auto)]

mod decode_error;
mod decoding;
mod digits;
mod encoder;
mod encoding;
mod form;
mod heads;
pub mod laws;
mod leaves;
mod numbers;
mod round_trip;
mod stop;
mod strings;
mod typed;
mod utf8;

pub use decode_error::{DecodeError, Fault};
pub use decoding::{decode, decode_prefix};
pub use encoder::Encoder;
pub use encoding::{encode, encode_array, to_bytes};
pub use form::through_cbor;
pub use round_trip::{CborRoundTrip, NotNull, read_back};
pub use typed::from_bytes;
