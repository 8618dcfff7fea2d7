//! What the program is asked for.

ghost use Rattle.std.specs.Prelude.{◌≡◌};
ghost use Rattle.cbor_cli.specs.Arguments.{asked_by};

use crate::form::Form;
use std::env::{Env, FillError};

/// What `--help` prints.
pub const HELP: &str = "\
Usage: cbor_cli [--pretty | --help]

Reads lines from standard input. For a line of hexadecimal digits it prints the
value that these bytes of CBOR code, a tab and the value's own bytes; or why they
are refused. For lines of serialiser calls it prints the same of each value that
they build.

  --pretty  print each value on several lines, two spaces a level, without its
            bytes; no empty line comes between two values
  --help    print this text
";

/// What is told of an argument that isn't known.
pub const UNKNOWN: &str = "unknown argument; usage: cbor_cli [--pretty | --help]\n";

/// The longest argument that is known has fewer bytes.
const ARGUMENT_SIZE: usize = 16;

/// What the program is asked for.
#[derive(Clone, Copy, Debug, PartialEq, Eq)]
pub enum Request {
    /// The answers to its input, with values in this form.
    Answers(Form),
    /// The text of its help.
    Help,
    /// What it doesn't know.
    Unknown,
}

/// What an argument asks for.
fn read_argument(word: &[u8]) -> Request
    ensures { result ≡ asked_by word.now }
{
    if word == b"--pretty".as_slice() {
        Request::Answers(Form::Pretty)
    } else if word == b"--help".as_slice() {
        Request::Help
    } else {
        Request::Unknown
    }
}

/// What the program's arguments ask for: the first that doesn't ask for answers decides. It takes
/// no memory.
pub fn read_arguments<E: Env>(env: &E) -> Request {
    let mut word = [0u8; ARGUMENT_SIZE];
    let mut request = Request::Answers(Form::Plain);
    for place in 1..usize::MAX {
        request = match env.arg(place, &mut word) {
            Ok(size) => read_argument(&word[..size]),
            Err(FillError::TooLong) => Request::Unknown,
            Err(FillError::NotPresent) => return request,
        };
        if !matches!(request, Request::Answers(_)) {
            return request;
        }
    }
    request
}
