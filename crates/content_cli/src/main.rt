//! Reads lines that spell serialiser calls, and prints what they build.

#![tactic(auto)]

mod answer;
mod calls;
mod run;

use content_lines::Port;
use run::run;
use std::process::ExitCode;

fn main(rt: HostRuntime) -> ExitCode {
    let mut input = Port::new(rt.stdin());
    let mut output = Port::new(rt.stdout());
    ExitCode::from(run(rt.alloc(), &mut input, &mut output))
}
