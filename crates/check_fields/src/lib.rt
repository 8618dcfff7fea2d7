//! Types that `tools/derive` wrote: arrays, fields with attributes, flattened ones, those that
//! functions of another module read and send, types that are converted, types with parameters, and a
//! type that contains itself.
#![tactic(auto)]

pub mod arrays;
pub mod attributes;
pub mod borrowed;
pub mod by_functions;
pub mod conversions;
pub mod converted;
pub mod generic;
pub mod left_over;
pub mod nested;
pub mod rules;
pub mod spread;
