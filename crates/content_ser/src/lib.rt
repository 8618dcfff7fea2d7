//! Serialiser calls as data, and the traits of serialisers and of what they take. Use it through
//! `serde_content::ser`.
//!
//! ```rust
//! let mut recorder = Recorder::new(alloc, false);
//! point.serialize(alloc, &mut recorder)?;
//! let calls = [
//!     Call::Struct("Point", 2),
//!     Call::Field("x"),
//!     Call::Number(Number::I32(1)),
//!     Call::Field("y"),
//!     Call::Number(Number::I32(2)),
//!     Call::End,
//! ];
//! assert!(rt; recorder.calls().iter().eq(calls.iter()));
//! ```
//!
//! | What | Where |
//! |---|---|
//! | the 26 calls; a list of them, sent | [`Call`]; [`replay`] |
//! | which lists spell a tree | `specs/Grammar/Spells.antt` |
//! | a serialiser | [`Serializer`] |
//! | what can be sent; a type of your own | [`Serialize`]; [`Parts`] |
//! | how values and the standard library's types are sent | `send`, `impls` |
//! | values made with no calls | [`Serialize::direct`], [`Made`], [`Unmade`] |
//! | errors that are put aside, to save stack | [`Aside`], [`Sent`] |
//! | laws | [`laws`] |

#![tactic(auto)]

mod aside;
mod call;
mod direct;
mod head;
mod impls;
pub mod laws;
mod parts;
mod replaying;
mod send;
mod serialize;
mod serializer;

pub use aside::{Aside, Sent};
pub use call::Call;
pub use direct::{Made, Unmade, inside, made_of, made_text};
pub use head::Head;
pub use parts::{Announced, Parts};
pub use replaying::replay;
pub use serialize::Serialize;
pub use serializer::Serializer;
