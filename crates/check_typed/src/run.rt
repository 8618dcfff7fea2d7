//! Every row of the input, one after another.

use crate::answer::answer;
use serde_content::{ErrorKind, Result};
use std::alloc::AllocError;
use std::io;

/// A row, and what it changes of the text.
#[derive(Clone, Copy)]
pub struct Row<'a> {
    /// What is done.
    pub operation: &'a str,
    /// The type.
    pub typ: &'a str,
    /// The text or the calls.
    pub source: &'a str,
    /// The token of the text that others replace, or nothing.
    pub token: &'a str,
    /// The tokens in its place.
    pub others: &'a str,
    /// The wanted answer.
    pub wanted: &'a str,
}

/// What is no row.
pub const NO_ROW: Row<'static> = Row {
    operation: "",
    typ: "",
    source: "",
    token: "",
    others: "",
    wanted: "",
};

/// The row that the line is, if it is one, below another row.
fn row_of<'a>(line: &'a str, above: Row<'a>) -> Option<Row<'a>> {
    let (operation, rest) = line.split_once('\t')?;
    let (second, rest) = rest.split_once('\t')?;
    let (third, wanted) = rest.split_once('\t')?;
    Some(if operation == "with" {
        Row {
            operation,
            token: second,
            others: third,
            wanted,
            ..above
        }
    } else {
        Row {
            operation,
            typ: second,
            source: third,
            wanted,
            ..NO_ROW
        }
    })
}

/// Says whether a row has the wanted answer, and prints what is wrong where it hasn't.
fn report<R: Print>(rt: &R, number: usize, row: Row<'_>, got: &Result<String>) -> io::Result<bool> {
    match got {
        Ok(got) if got.as_str() == row.wanted => return Ok(true),
        Ok(got) => {
            println!(rt;
                "line {number}: {}: got {got}, wanted {}",
                row.operation, row.wanted
            )?
        }
        Err(error) if matches!(error.kind(), ErrorKind::OutOfMemory) => Err(AllocError)?,
        Err(_) => println!(rt; "line {number}: no row")?,
    }
    Ok(false)
}

/// Whether a row has the wanted answer; prints what is wrong where it hasn't.
fn agrees<R: Print + AllocGlobal>(rt: &R, number: usize, row: Row<'_>) -> io::Result<bool> {
    let got = answer(rt.alloc(), row);
    let agrees = report(rt, number, row, &got);
    drop(got);
    agrees
}

/// Compares each line, and says which differ and how many: whether none does.
fn compare<R: Print + AllocGlobal>(rt: &R, lines: &str) -> io::Result<bool> {
    let mut row = NO_ROW;
    let mut agree = 0usize;
    let mut differ = 0usize;
    for (index, line) in lines.lines().enumerate() {
        if line.is_empty() || line.starts_with('#') {
            continue;
        }
        row = row_of(line, row).unwrap_or(NO_ROW);
        if agrees(rt, index.saturating_add(1), row)? {
            agree = agree.saturating_add(1);
        } else {
            differ = differ.saturating_add(1);
        }
    }
    println!(rt; "{agree} rows agree, {differ} differ")?;
    Ok(differ == 0)
}

/// Compares the standard input.
fn compare_input<R: Input + Print + AllocGlobal>(rt: &R) -> io::Result<bool> {
    let lines = io::read_to_string(rt.alloc(), rt.reader())?;
    let agree = compare(rt, lines.as_str());
    drop(lines);
    agree
}

/// Compares each row of the standard input, writes a line for each that differs and then the count.
///
/// The status: 0 where all agree, 1 where one differs or is no row, 3 where an allocation failed, 4
/// where a read or a write failed.
pub fn run<R: Input + Print + AllocGlobal>(rt: &R) -> u8 {
    match compare_input(rt) {
        Ok(true) => 0,
        Ok(false) => 1,
        Err(error) if matches!(error.kind(), io::ErrorKind::OutOfMemory) => {
            let _ = rt.println("out of memory");
            3
        }
        Err(_) => {
            let _ = rt.println("a read or a write failed");
            4
        }
    }
}
