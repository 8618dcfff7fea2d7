//! Asks the libraries for the answer of each worked case of the standard input, and tells which
//! differ.
#![tactic(auto)]

mod access;
mod answer;
mod call;
mod cursor;
mod deserializer;
mod expectation;
mod failure;
mod flags;
mod kind;
mod methods;
mod named;
mod names;
mod number;
mod operations;
mod order;
mod piece;
mod printable;
mod quoted;
mod request;
mod run;
mod show;
mod show_call;
mod tree;
mod unfold;

use std::process::ExitCode;

fn main(rt: HostRuntime) -> ExitCode {
    ExitCode::from(run::run(&rt))
}
