//! Asks the libraries for the answer of each row of the standard input, and tells which differ. Rows
//! are about types that `tools/derive` wrote, a few others, and merges. It reports as `check_rows`
//! does.
//!
//! A row is a line of four columns, with tabs between; the last is the wanted answer. Empty lines and
//! lines that begin with `#` are skipped.
//!
//! | First columns | Answer |
//! |---|---|
//! | `read`, type, text | the value that is read, as it prints when it is sent |
//! | `with`, token, tokens | the same of the type and text above, with the tokens in place of the token |
//! | `calls`, type, calls | the same of what the calls spell; only here numbers aren't coerced |
//! | `coerced_calls`, type, calls | the same, with numbers coerced |
//! | `back`, type, text | as `read`, if equal values come back from a `Value` and from CBOR; else `another value` |
//! | `cbor`, type, text | the bytes in CBOR, as hexadecimal digits |
//! | `merge`, calls, calls | what the first calls spell, put over what the others spell, as it prints |
//!
//! A value that is refused answers `refused at "PATH": TEXT`, the error's path and located text. Of
//! a type that isn't sent `parts.rt` tells parts.
//!
//! A text is JSON without double quotes, with a space between tokens: `{ a: 1, b: [ x, null ] }`. A
//! number or a character, in single quotes, may be a key; `null` is an absent option. Calls are lines
//! of `content_lines`, with `; ` between; `source.rt` has further names. `types.rt` has the types.
#![tactic(auto)]

mod answer;
mod parts;
mod run;
mod source;
mod types;

use std::process::ExitCode;

fn main(rt: HostRuntime) -> ExitCode {
    ExitCode::from(run::run(&rt))
}
