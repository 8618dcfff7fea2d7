//! What is left of a list that is read from the left.

use crate::failure::{Failure, Result};
use crate::names::static_name;
use std::alloc::Global;
use std::str::FromStr;

/// What is left of a list, and the memory for what is made of it. The first failure is remembered,
/// and told at the end; after it nothing is left.
#[derive(Drop)]
pub struct Cursor<'a, T> {
    alloc: Global,
    rest: &'a [T],
    outcome: Result<()>,
}

impl<'a, T> Cursor<'a, T> {
    /// Before the first item of the list.
    pub fn new(alloc: Global, rest: &'a [T]) -> Cursor<'a, T> {
        Cursor {
            alloc,
            rest,
            outcome: Ok(()),
        }
    }

    /// The memory.
    pub fn alloc(&self) -> Global {
        self.alloc
    }

    /// What is left.
    pub fn rest(&self) -> &'a [T] {
        self.rest
    }

    /// Goes on before these items.
    pub fn move_to(&mut self, rest: &'a [T]) {
        self.rest = rest;
    }

    /// Fails where this failed, unless it has failed before.
    pub fn note(&mut self, outcome: Result<()>) {
        self.outcome = self.outcome.and(outcome);
        if self.outcome.is_err() {
            self.rest = &[];
        }
    }

    /// Takes the next item. Where none is left: no row.
    pub fn next(&mut self) -> Option<&'a T> {
        match self.rest {
            [first, rest @ ..] => {
                self.rest = rest;
                Some(first)
            }
            [] => {
                self.note(Err(Failure::NoRow));
                None
            }
        }
    }

    /// What was found. Where nothing was: no row, and this in its place.
    pub fn found_or<U: Drop>(&mut self, found: Option<U>, other: U) -> U {
        match found {
            Some(found) => found,
            None => {
                self.note(Err(Failure::NoRow));
                other
            }
        }
    }

    /// This in place of something else, which no row has there.
    pub fn instead<U: Drop, V>(&mut self, other: U, instead: V) -> V {
        drop(other);
        self.note(Err(Failure::NoRow));
        instead
    }

    /// What the text spells.
    pub fn parsed<U: FromStr + Default + Drop>(&mut self, text: &str) -> U
    where
        U::Err: Drop,
    {
        self.found_or(text.parse::<U>().ok(), U::default())
    }

    /// The name that the text is, for as long as the program runs.
    pub fn name(&mut self, text: &str) -> &'static str {
        self.found_or(static_name(text), "")
    }

    /// What was made, unless memory ran out for it.
    pub fn made<U: Drop, E: Drop>(&mut self, made: std::result::Result<U, E>) -> Option<U> {
        if made.is_err() {
            self.note(Err(Failure::OutOfMemory));
        }
        made.ok()
    }

    /// A copy of the text.
    pub fn copied(&mut self, text: &str) -> String {
        let copy = String::from_str(self.alloc, text);
        self.made(copy).unwrap_or(String::new(self.alloc))
    }

    /// How the reading ended. Where something is left: no row.
    pub fn end(&self) -> Result<()> {
        match self.rest {
            [] => self.outcome,
            _ => Err(Failure::NoRow),
        }
    }
}
