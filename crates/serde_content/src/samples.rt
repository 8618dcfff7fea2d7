//! A struct and an enum that are sent and read, as examples for types of your own. Nothing else in
//! the library uses them.

mod point;
mod shape;

pub use point::Point;
pub use shape::Shape;
