//! What needs a type or a serialiser of its own, or several calls in turn, and the examples of the
//! pages, with expected values written by hand.
//! All else is rows, which `check_rows` runs.

mod for_people;
mod hostile;
mod literals;
mod own_structs;
mod pages;
mod readme;
mod rows;
