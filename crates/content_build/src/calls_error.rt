//! Where and why a list of calls was refused.

ghost use Rattle.std.specs.Prelude.{Some};
ghost use Rattle.content_build.specs.PrintedRefusal.{refusal_text};

use content_tree::Error;
use std::fmt;

/// Why a list of calls was refused, and where. It prints as `refused at 1: call out of place`.
#[derive(Debug, Drop, PartialEq, Eq)]
pub struct CallsError {
    /// The place, counted from 0, of the call that was refused, or the length of the list where
    /// the list ended too early or the tree could not be finished.
    pub at: usize,
    /// Why it was refused.
    pub error: Error,
}

impl fmt::Display for CallsError {
    ghost output = { λ e. Some (refusal_text e) };

    fn fmt<W: fmt::Write>(&self, f: &mut fmt::Formatter<W>) -> fmt::Result {
        write!(f, "refused at {}: {}", self.at, self.error)
    }
}

impl std::error::Error for CallsError {}
