//! The requests of a [`Deserializer`](crate::Deserializer), by what they ask for.

mod any;
mod compounds;
mod leaves;
mod numbers;
mod variants;
