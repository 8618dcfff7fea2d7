//! Equality and order, which see neither the case of a text nor a static mark.

mod cow;
mod found;
mod image;
mod tree;
mod value;
