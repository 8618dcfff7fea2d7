//! Tests of CBOR, of records, of merging and of types that `tools/derive` wrote that need more than a
//! row, with expected values written by hand.
#![tactic(auto)]

#[cfg(test)]
mod tests;
