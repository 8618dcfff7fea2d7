//! Prints what CBOR codes and what codes it. Of each line of hexadecimal digits: the value that its
//! bytes code and, after a tab, the bytes that are written of it; or why they are refused. Lines
//! that spell serialiser calls, as `content_cli` reads them, are taken together where nothing comes
//! between them: each tree that they spell, one after another, is answered so. With `--pretty` each
//! value is printed on several lines, without its bytes.

#![tactic(auto)]

mod answer;
mod arguments;
mod calls;
mod form;
mod lines;
mod run;
mod start;

use arguments::read_arguments;
use content_lines::Port;
use start::start;
use std::process::ExitCode;

fn main(rt: HostRuntime) -> ExitCode {
    let mut input = Port::new(rt.stdin());
    let mut output = Port::new(rt.stdout());
    let mut errors = Port::new(rt.stderr());
    let request = read_arguments(&rt);
    ExitCode::from(start(rt.alloc(), request, &mut input, &mut output, &mut errors))
}
