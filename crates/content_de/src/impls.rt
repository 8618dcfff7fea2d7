//! What the standard library's types read.

mod address;
mod array;
mod boxed_str;
mod deque;
mod duration;
mod hash_map;
mod hash_set;
mod holders;
mod map;
mod numbers;
mod path;
mod set;
mod shared;
mod text;
mod tuple;
