//! Makes each call that is promised to take no memory, calls that say where it ran out, and those
//! of CBOR and its uses: a probe is wrong where the answer is another, whichever allocations are
//! refused.
#![tactic(auto)]

mod edits;
mod lists;
mod nodes;
mod paths;
mod reading;
mod shortage;
mod tally;
mod uses;
mod values;
mod variants;
mod writing;

use std::alloc::Global;
use std::process::ExitCode;
use tally::Tally;

/// Makes every call for which there is memory.
fn make_calls(tally: &mut Tally, alloc: Global) {
    values::run(tally, alloc);
    edits::run(tally, alloc);
    reading::run(tally, alloc);
    variants::run(tally, alloc);
    paths::run(tally, alloc);
    writing::run(tally, alloc);
    lists::run(tally, alloc);
    uses::run(tally, alloc);
}

/// The status: that of [`Tally::end`], or 4 where its write failed.
fn main(rt: HostRuntime) -> ExitCode {
    let alloc = rt.alloc();
    let mut tally = Tally::new(rt);
    make_calls(&mut tally, alloc);
    let status = tally.end().unwrap_or(4);
    drop(tally);
    ExitCode::from(status)
}
