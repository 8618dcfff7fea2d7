//! The tests, by what they show, what calls answer, and the lines in which they write values.

mod answers;
mod cbor;
mod located;
mod spread;
mod uses;
mod values;
mod written;
