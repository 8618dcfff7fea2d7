//! Types that `tools/derive` wrote: structs and enums of every sort.
#![tactic(auto)]

pub mod choices;
pub mod inlined;
pub mod places;
pub mod sorts;
pub mod types;
