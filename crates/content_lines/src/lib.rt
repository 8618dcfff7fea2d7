//! Reads serialiser calls from lines, one call a line: `seq 2`, `u8 7`, `str some text`, `end`. A
//! line's bytes are 32 to 126, its words separated by one space.
//!
//! ```rust
//! let (line, after) = cut_line(text);
//! match read_line(line) {
//!     Some(said) => calls.push(said.into_call(alloc)?)?,
//!     None => {
//!         write_trees(alloc, form, &mut out, calls.as_slice())?;
//!         calls.clear();
//!         write_answer(alloc, form, &mut out, line)?;
//!     }
//! }
//! text = after;
//! ```
//!
//! | To | Use |
//! |---|---|
//! | read a line | [`read_line`], [`Line`] |
//! | read lines | [`cut_line`], [`split_line`], [`read_printable`], [`first_bad_line`] |
//! | read the limit on nesting that the first line may set | [`split_limit`] |
//! | read and write bytes as hexadecimal digits | [`read_hex`], [`write_hex`] |
//! | read all input and write one answer | [`read_all`], [`tell`], [`tell_text`], [`Port`] |
//!
//! Inside, `words` has the calls by name, `forms` and `numbers` their arguments.

#![tactic(auto)]

mod answer;
mod failure;
mod forms;
mod hex;
mod input;
mod limit;
mod line;
mod numbers;
mod port;
mod ports;
mod words;

pub use answer::{Answer, tell, tell_text};
pub use failure::Failure;
pub use hex::{read_hex, write_hex};
pub use input::read_all;
pub use limit::{cut_line, split_limit};
pub use line::{Line, first_bad_line, read_line, read_printable, split_line};
pub use port::Port;
pub use ports::{Fault, Input, Output};
