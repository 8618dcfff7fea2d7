//! Types that are sent and read.
#![tactic(auto)]

#[cfg(test)]
mod hand_tests;
pub mod lisp;
pub mod point;
pub mod shape;
#[cfg(test)]
mod tests;
pub mod types;
