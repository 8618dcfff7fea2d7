//! Builds values from serialiser calls. Use it through `serde_content` and its module `ser`.
//!
//! ```rust
//! let calls = [
//!     Call::Seq(None),
//!     Call::Element,
//!     Call::Number(Number::U8(7)),
//!     Call::End,
//! ];
//! assert!(rt; from_calls(alloc, &calls)? == value!(in alloc; [7u8])?);
//! ```
//!
//! | To | Use |
//! |---|---|
//! | make a value of anything that can be serialised | [`Serializer`] |
//! | make one from a list of calls, or from its beginning | [`from_calls`], [`from_calls_prefix`] |
//! | do so from untrusted calls | [`from_calls_within`], [`Builder::with_limit`] |
//! | make one call by call | [`Builder`] |
//! | record calls | [`Recorder`] |
//! | prove something of these | [`laws`] |
//!
//! Inside, a builder keeps its partial tree as a `tape` of frames; `steps` and `settle` change it
//! by a call, and `grow` makes the value.

#![tactic(auto)]

mod builder;
mod calls;
mod calls_error;
mod flat;
mod frame;
mod grow;
pub mod laws;
mod leaves;
mod limit;
mod parts;
mod prefix;
mod recorder;
mod refusal;
mod room;
mod serializer;
mod settle;
mod steps;
mod tape;
mod token;

pub use builder::Builder;
pub use calls::{from_calls, from_calls_within};
pub use calls_error::CallsError;
pub use prefix::from_calls_prefix;
pub use recorder::Recorder;
pub use serializer::Serializer;
