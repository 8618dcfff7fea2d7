//! What a caller can prove of the library by its contracts alone: each function makes some public
//! calls, and its own contract is a fact that rests on theirs. Its tests are those of the library
//! that need more than a row.
#![tactic(auto)]

mod building;
mod reading;
mod returning;
#[cfg(test)]
mod tests;

pub use building::{copied, labelled, two_bytes, unit_in_a_sequence};
pub use reading::{as_byte, boolean_as_unit};
pub use returning::{same_map, same_point, same_value};
