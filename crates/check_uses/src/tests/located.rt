//! Where a value was refused: the path of the error, and its text with the path.

use serde_content::{CowStr, Deserializer, Error, Result as Answer, value};
use std::alloc::Global;
use std::process::Abort;
use std::test::Fail;

/// Where something was refused, and why.
fn told(alloc: Global, error: &Error) -> Answer<String> {
    match error.path() {
        Some(path) => Ok(format!(in alloc; "{path}; {}", error.located())?),
        None => Ok(format!(in alloc; "no path; {}", error.located())?),
    }
}

/// The same of what should be an error.
fn told_if_refused(alloc: Global, error: Option<Error>) -> Answer<String> {
    let text = match &error {
        Some(error) => told(alloc, error),
        None => Ok(String::new(alloc)),
    };
    drop(error);
    text
}

/// There must be an error, with this path and text.
fn check(
    rt: &impl Abort,
    alloc: Global,
    error: Option<Error>,
    path: &str,
    text: &str,
) -> Result<(), Fail> {
    let told = told_if_refused(alloc, error)?;
    let wanted = format!(in alloc; "{path}; {text}")?;
    assert_eq!(rt; told.as_str(), wanted.as_str());
    Ok(())
}

#[test]
fn calls_add_their_steps(rt: HostRuntime) -> Result<(), Fail> {
    let alloc = rt.alloc();
    let mut items = Deserializer::new(value!(in alloc; [1u64, "x"])?).deserialize_seq(alloc)?;
    assert!(rt; items.next_element::<u64>(alloc)?.is_some());
    let error = items.next_element::<u64>(alloc).err();
    drop(items);
    let wanted = "[1]: expected a 64-bit unsigned integer, found \"x\"";
    check(&rt, alloc, error, "/1", wanted)?;

    let mut entries = Deserializer::new(
        value!(in alloc; { "a": 1u64, "b": "x", "c": "y" })?,
    ).deserialize_map(alloc)?;
    assert!(rt; entries.next_entry::<CowStr<'_>, u64>(alloc)?.is_some());
    let error = entries.next_entry::<CowStr<'_>, u64>(alloc).err();
    let wanted = "b: expected a 64-bit unsigned integer, found \"x\"";
    check(&rt, alloc, error, "/b", wanted)?;
    assert!(rt; entries.next_key::<CowStr<'_>>(alloc)?.is_some());
    let error = entries.next_value::<u64>(alloc).err();
    drop(entries);
    let wanted = "expected a 64-bit unsigned integer, found \"y\"";
    check(&rt, alloc, error, "", wanted)
}

#[test]
fn a_path_is_kept_and_not_compared(rt: HostRuntime) -> Result<(), Fail> {
    let alloc = rt.alloc();
    let read = Deserializer::new(value!(in alloc; [1u64])?).deserialize::<Vec<u8>>(alloc);
    let error = read.err().ok_or("no error")?;
    assert!(rt; error == Error::from(error.kind().try_clone(alloc)?));
    let copy = error.try_clone(alloc)?;
    drop(error);
    let wanted = "[0]: expected an 8-bit unsigned integer, found 1u64";
    check(&rt, alloc, Some(copy), "/0", wanted)
}
