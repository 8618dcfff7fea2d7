//! Copies of expectations and errors.

ghost use Rattle.std.specs.Prelude.{◌≡◌, [], None, Some, IsTrue, IsOk, IfOk, IfErr};
ghost use Rattle.content_tree.specs.Errors.Cause.{expectation_of, cause_of, name_view};
ghost use Rattle.content_tree.specs.Errors.Kind.{kind_of, IsOutOfMemory};
ghost use Rattle.content_tree.specs.Errors.Where.{places, IsKept};
ghost use Rattle.content_tree.specs.Memory.{is_free_expectation, is_free_cause};

use crate::error::{Error, ErrorKind, Result};
use crate::expected::Expected;
use std::alloc::Global;

impl Expected {
    /// Copies the expectation.
    ///
    /// It takes memory for owned texts, vectors and boxes, and nothing for the rest; where that
    /// fails: an error of kind `OutOfMemory`.
    pub fn try_clone(&self, alloc: Global) -> Result<Expected>
        ensures value { IfOk result (λ copy. expectation_of copy ≡ expectation_of self.now) }
        ensures succeeds { IsTrue (is_free_expectation (expectation_of self.now)) → IsOk result }
        ensures memory { IfErr result (λ e. IsOutOfMemory e) }
    {
        match self {
            Expected::Unit => Ok(Expected::Unit),
            Expected::Bool => Ok(Expected::Bool),
            Expected::Char => Ok(Expected::Char),
            Expected::String => Ok(Expected::String),
            Expected::StaticStr => Ok(Expected::StaticStr),
            Expected::Bytes => Ok(Expected::Bytes),
            Expected::Seq => Ok(Expected::Seq),
            Expected::Map => Ok(Expected::Map),
            Expected::Struct { name, typ } => Ok(Expected::Struct {
                name: clone_name(alloc, name)?,
                typ: *typ,
            }),
            Expected::Enum { name, typ } => Ok(Expected::Enum {
                name: clone_name(alloc, name)?,
                typ: *typ,
            }),
            Expected::Tuple(len) => Ok(Expected::Tuple(*len)),
            Expected::Identifier => Ok(Expected::Identifier),
            Expected::I8 => Ok(Expected::I8),
            Expected::U8 => Ok(Expected::U8),
            Expected::I16 => Ok(Expected::I16),
            Expected::U16 => Ok(Expected::U16),
            Expected::I32 => Ok(Expected::I32),
            Expected::U32 => Ok(Expected::U32),
            Expected::I64 => Ok(Expected::I64),
            Expected::U64 => Ok(Expected::U64),
            Expected::I128 => Ok(Expected::I128),
            Expected::U128 => Ok(Expected::U128),
        }
    }
}

fn clone_name(alloc: Global, name: &Option<String>) -> Result<Option<String>>
    ensures value { IfOk result (λ copy. name_view copy ≡ name_view name.now) }
    ensures succeeds { name.now ≡ None → IsOk result }
    ensures memory { IfErr result (λ e. IsOutOfMemory e) }
{
    match name {
        None => Ok(None),
        Some(name) => Ok(Some(String::from_str(alloc, name.as_str())?)),
    }
}

impl ErrorKind {
    /// Copies the kind, with its image, expectation or text.
    ///
    /// It takes memory for owned texts, vectors and boxes, and nothing for the rest; where that
    /// fails: an error of kind `OutOfMemory`.
    pub fn try_clone(&self, alloc: Global) -> Result<ErrorKind>
        ensures value { IfOk result (λ copy. cause_of copy ≡ cause_of self.now) }
        ensures succeeds { IsTrue (is_free_cause (cause_of self.now)) → IsOk result }
        ensures memory { IfErr result (λ e. IsOutOfMemory e) }
    {
        match self {
            ErrorKind::Unexpected { found, expected } => Ok(ErrorKind::Unexpected {
                found: found.try_clone(alloc)?,
                expected: expected.try_clone(alloc)?,
            }),
            ErrorKind::Custom(text) => {
                let text = String::from_str(alloc, text.as_str())?;
                Ok(ErrorKind::Custom(text))
            }
            ErrorKind::OutOfMemory => Ok(ErrorKind::OutOfMemory),
            ErrorKind::Misplaced => Ok(ErrorKind::Misplaced),
            ErrorKind::Failed => Ok(ErrorKind::Failed),
            ErrorKind::Unfinished => Ok(ErrorKind::Unfinished),
        }
    }
}

impl Error {
    /// Copies the error: the same kind, with its image, expectation or text, and the same path.
    ///
    /// It takes memory for the path, and for owned texts, vectors and boxes, and nothing for the
    /// rest; where that fails: no path, or an error of kind `OutOfMemory`.
    pub fn try_clone(&self, alloc: Global) -> Result<Error>
        ensures value { IfOk result
            (λ copy. cause_of (kind_of copy) ≡ cause_of (kind_of self.now)) }
        ensures path { IfOk result (λ copy. IsKept (places self.now) (places copy)) }
        ensures whole { places self.now ≡ Some [] → IfOk result (λ copy. places copy ≡ Some []) }
        ensures succeeds { IsTrue (is_free_cause (cause_of (kind_of self.now))) → IsOk result }
        ensures memory { IfErr result (λ e. IsOutOfMemory e) }
    {
        let kind = self.kind().try_clone(alloc)?;
        Ok(Error::at(kind, self.trail.try_clone(alloc)))
    }
}
