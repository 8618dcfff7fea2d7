//! The text of an answer, as it grows.

use crate::failure::{Failure, Result};
use crate::printable::write_refusal;
use serde_content::Error;
use std::alloc::Global;
use std::fmt::Display;

/// A text that grows. The first failure is remembered, and told at the end. The first refusal is
/// the whole answer: what comes after it changes nothing.
#[derive(Drop)]
pub struct Answer {
    text: String,
    outcome: Result<()>,
    is_refused: bool,
}

impl Answer {
    /// No text yet.
    pub fn new(alloc: Global) -> Answer {
        Answer {
            text: String::new(alloc),
            outcome: Ok(()),
            is_refused: false,
        }
    }

    /// The memory.
    pub fn alloc(&self) -> Global {
        *self.text.allocator()
    }

    /// Fails for this cause, unless it has failed before.
    pub fn fail(&mut self, failure: Failure) {
        if !self.is_refused {
            self.outcome = self.outcome.and(Err(failure));
        }
    }

    /// Fails since no row has this there.
    pub fn unfit<T: Drop>(&mut self, other: T) {
        drop(other);
        self.fail(Failure::NoRow);
    }

    /// Adds a text.
    pub fn push_str(&mut self, text: &str) {
        if !self.is_refused && self.text.push_str(text).is_err() {
            self.fail(Failure::OutOfMemory);
        }
    }

    /// Adds a character.
    pub fn push(&mut self, character: char) {
        if !self.is_refused && self.text.push(character).is_err() {
            self.fail(Failure::OutOfMemory);
        }
    }

    /// Adds what is printed.
    pub fn print<T: Display + Drop>(&mut self, shown: T) {
        if !self.is_refused && write!(self.text, "{shown}").is_err() {
            self.fail(Failure::OutOfMemory);
        }
    }

    /// What the library gave. Where it refused, the answer is `refused ` and why.
    pub fn given<T>(&mut self, given: serde_content::Result<T>) -> Option<T> {
        match given {
            Ok(given) => Some(given),
            Err(error) => {
                self.refuse(error);
                None
            }
        }
    }

    /// Becomes the answer that tells this refusal, unless there was one before.
    fn refuse(&mut self, refused: Error) {
        if !self.is_refused {
            self.text.clear();
        }
        write_refusal(self, "refused ", refused);
        self.is_refused = true;
    }

    /// The whole text.
    pub fn finish(self) -> Result<String> {
        let Answer {
            text,
            outcome,
            is_refused: _,
        } = self;
        outcome.map(|()| text)
    }
}
