//! What the standard library's types send.

mod address;
mod arc;
mod array;
mod borrowed;
mod boxed_str;
mod deque;
mod duration;
mod hash_map;
mod hash_set;
mod holders;
mod map;
mod numbers;
mod path;
mod rc;
mod set;
mod slice;
mod text;
mod tuple;
mod vec;
