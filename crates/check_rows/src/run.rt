//! Every row of the input, one after another.

use crate::failure::{Failure, Result};
use crate::operations::answer;
use crate::printable::is_printable;
use crate::unfold::unfold;
use std::alloc::{AllocError, Global};
use std::io;

/// The operation, the arguments and the wanted answer of the row that the line is, if it is one.
fn parts_of(line: &str) -> Option<(&str, &str, &str)> {
    if !line.bytes().all(|byte| byte == b'\t' || is_printable(byte)) {
        return None;
    }
    let (operation, rest) = line.split_once('\t')?;
    let (arguments, wanted) = rest.rsplit_once('\t')?;
    Some((operation, arguments, wanted))
}

/// What is to be said of a line, or nothing where its answer is the wanted one.
fn finding(alloc: Global, line: &str) -> Result<Option<String>> {
    let (operation, arguments, wanted) = parts_of(line).ok_or(Failure::NoRow)?;
    let got = unfolded_answer(alloc, operation, arguments)?;
    if is_wanted(alloc, got.as_str(), wanted)? {
        Ok(None)
    } else {
        format!(in alloc; "{operation}: got {got}, wanted {wanted}")
            .map(Some)
            .map_err(|_| Failure::OutOfMemory)
    }
}

/// The answer of an operation to its arguments, written out.
fn unfolded_answer(alloc: Global, operation: &str, arguments: &str) -> Result<String> {
    let arguments = unfold(alloc, arguments)?;
    answer(alloc, operation, arguments.as_str())
}

/// Whether an answer is the wanted one, written out.
fn is_wanted(alloc: Global, got: &str, wanted: &str) -> Result<bool> {
    let wanted = unfold(alloc, wanted)?;
    Ok(got == wanted.as_str())
}

/// The same, where a line that is no row is said to be none.
fn told(alloc: Global, line: &str) -> std::result::Result<Option<String>, AllocError> {
    match finding(alloc, line) {
        Ok(finding) => Ok(finding),
        Err(Failure::OutOfMemory) => Err(AllocError),
        Err(Failure::NoRow) => Ok(Some(String::from_str(alloc, "no row")?)),
    }
}

/// Compares each line of the standard input, and says which differ and how many: whether none does.
fn compare_lines<R: Input + Print + AllocGlobal>(rt: &R) -> io::Result<bool> {
    let alloc = rt.alloc();
    let input = io::read_to_string(alloc, rt.reader())?;
    let mut agree = 0usize;
    let mut differ = 0usize;
    for (index, line) in input.as_str().lines().enumerate() {
        match told(alloc, line)? {
            None => agree = agree.saturating_add(1),
            Some(finding) => {
                let number = index.saturating_add(1);
                println!(rt; "line {number}: {finding}")?;
                differ = differ.saturating_add(1);
            }
        }
    }
    println!(rt; "{agree} rows agree, {differ} differ")?;
    Ok(differ == 0)
}

/// Compares each line of the standard input, writes a line for each that differs and then the
/// count.
///
/// The status: 0 where all agree, 1 where one differs or is no row, 3 where an allocation failed, 4
/// where a read or a write failed.
pub fn run<R: Input + Print + AllocGlobal>(rt: &R) -> u8 {
    match compare_lines(rt) {
        Ok(true) => 0,
        Ok(false) => 1,
        Err(error) if matches!(error.kind(), io::ErrorKind::OutOfMemory) => {
            let _ = rt.println("out of memory");
            3
        }
        Err(_) => {
            let _ = rt.println("a read or a write failed");
            4
        }
    }
}
