//! Fields by name, step by step.
//!
//! The steps: `named_field<u8>(NAME)`, `field_or_7(NAME)`, which gives 7 where there is none,
//! `tag_field(NAME)`, `take_named(NAME)`; and at the end one of `rest`, `attempt<bool>`,
//! `ignore_unknown(NAMES)`, `deny_unknown(NAMES)`, `keep_unknown(NAMES)`, with commas between names.

use crate::answer::Answer;
use crate::deserializer::write_handed;
use crate::failure::Failure;
use crate::operations::stepping::write_step;
use crate::piece::{Pieces, take_word};
use crate::printable::write_refusal;
use crate::tree::read_tree;
use serde_content::de::{
    FieldsByName, attempt, attempt_last, deny_unknown_fields, field_or, ignore_unknown_fields,
    keep_unknown_fields, named_field, tag_field,
};
use serde_content::{Deserializer, Result};
use std::alloc::Global;
use std::collections::BTreeMap;

/// The numbers that fields may be kept as.
type Numbers = BTreeMap<String, u64>;

/// What the fields of a tree answer to each step.
pub fn fields(out: &mut Answer, pieces: &mut Pieces<'_>) {
    let steps = take_word(pieces);
    let from = Deserializer::new(read_tree(pieces));
    if let Some(entries) = out.given(from.deserialize_map(out.alloc())) {
        write_field_steps(out, steps, entries.by_name());
    }
}

/// Adds what fields answer to each step, of which the last uses them up.
fn write_field_steps(out: &mut Answer, steps: &str, mut fields: FieldsByName<'_, 'static>) {
    let (steps, last) = steps.rsplit_once("; ").unwrap_or(("", steps));
    for step in steps.split_terminator("; ") {
        write_field_step(out, &mut fields, step);
        out.push_str("; ");
    }
    write_last(out, fields, last);
}

/// The word of a step, and what its brackets contain.
fn parts_of(step: &str) -> (&str, &str) {
    let (word, rest) = step.split_once('(').unwrap_or((step, ")"));
    (word, rest.strip_suffix(')').unwrap_or(""))
}

/// Adds what fields answer to a step.
fn write_field_step(out: &mut Answer, fields: &mut FieldsByName<'_, 'static>, step: &str) {
    let alloc = out.alloc();
    let (word, name) = parts_of(step);
    match word {
        "named_field<u8>" => write_step::<u8>(out, named_field(alloc, fields, name)),
        "field_or_7" => write_step::<u8>(out, field_or(alloc, fields, name, 7)),
        "tag_field" => write_step(out, tag_field(alloc, fields, name)),
        "take_named" => match fields.take_named(name) {
            Some(field) => write_field(out, Ok(field)),
            None => out.push_str("ok none"),
        },
        _ => out.fail(Failure::NoRow),
    }
}

/// Adds what the library handed out.
fn write_field(out: &mut Answer, field: Result<Deserializer<'_, 'static>>) {
    match field {
        Ok(field) => {
            out.push_str("ok ");
            write_handed(out, field);
        }
        Err(error) => write_refusal(out, "refused ", error),
    }
}

/// The names in a list with commas between.
fn names_of(alloc: Global, list: &str) -> Result<Vec<&str>> {
    let mut names = Vec::new(alloc);
    for name in list.split_terminator(", ") {
        names.push(name)?;
    }
    Ok(names)
}

/// Adds what fields answer to the last step.
fn write_last(out: &mut Answer, fields: FieldsByName<'_, 'static>, step: &str) {
    let (word, names) = parts_of(step);
    let names = names_of(out.alloc(), names);
    match out.given(names) {
        Some(names) => write_end(out, fields, word, names.as_slice()),
        None => drop(fields),
    }
}

/// The same of the step of this word, with these names.
fn write_end(out: &mut Answer, fields: FieldsByName<'_, 'static>, word: &str, known: &[&str]) {
    let alloc = out.alloc();
    match word {
        "rest" => write_field(out, fields.rest(alloc)),
        "attempt<bool>" => write_step(out, attempted(alloc, fields)),
        "ignore_unknown" => write_step(out, ignore_unknown_fields(alloc, fields, known)),
        "deny_unknown" => write_step(out, deny_unknown_fields(alloc, fields, known)),
        "keep_unknown" => write_step(out, kept(alloc, fields, known)),
        _ => out.unfit(fields),
    }
}

/// The fields that are left, if they can be read as a boolean.
fn attempted(alloc: Global, fields: FieldsByName<'_, 'static>) -> Result<Option<bool>> {
    let rest = fields.rest(alloc)?;
    attempt(alloc, &rest)
}

/// The fields that are kept, if all are numbers.
fn kept(
    alloc: Global,
    fields: FieldsByName<'_, 'static>,
    known: &[&str],
) -> Result<Option<Numbers>> {
    attempt_last(alloc, keep_unknown_fields(alloc, fields, known)?)
}
