//! What is answered to all lines of an input.

ghost use Rattle.std.specs.Prelude.{IfOk};
ghost use Rattle.std.specs.String.{string_bytes};
ghost use Rattle.cbor_cli.specs.Answers.{Earns};

use crate::answer::write_answer;
use crate::calls::write_trees;
use crate::form::Form;
use content_lines::{cut_line, read_line};
use std::alloc::{AllocError, Global};

/// The answers to calls that come together, and that to each other line, with values in this form.
pub fn answer_lines(alloc: Global, form: Form, input: &[u8]) -> Result<String, AllocError>
    ensures { IfOk result (λ text. Earns form input.now (string_bytes text)) }
{
    let mut out = String::new(alloc);
    let mut calls = Vec::new(alloc);
    let mut text = input;
    'lines: while !text.is_empty() {
        let (line, after) = cut_line(text);
        match read_line(line) {
            Some(said) => calls.push(said.into_call(alloc)?)?,
            None => {
                write_trees(alloc, form, &mut out, calls.as_slice())?;
                calls.clear();
                write_answer(alloc, form, &mut out, line)?;
            }
        }
        text = after;
    }
    write_trees(alloc, form, &mut out, calls.as_slice())?;
    Ok(out)
}
