//! What the probes come to, and how it is told.

use crate::reading::Reader;
use crate::shortage::Shortage;
use crate::values::same;
use serde_content::{Deserializer, Result, Value};
use std::alloc::AllocError;
use std::io;
use std::result::Result as StdResult;

/// What is made, unless memory runs out where it may.
pub type Made<T> = StdResult<T, AllocError>;

/// How many probes there were, how many were wrong, which are told at once, and whether memory ran
/// out where it may.
#[derive(Drop)]
pub struct Tally {
    rt: HostRuntime,
    probes: usize,
    wrong: usize,
    ran_out: bool,
}

impl Tally {
    /// No probe yet.
    pub fn new(rt: HostRuntime) -> Tally {
        Tally {
            rt,
            probes: 0,
            wrong: 0,
            ran_out: false,
        }
    }

    /// Counts a probe, and whether it was right.
    pub fn promised(&mut self, name: &str, is_right: bool) {
        self.probes = self.probes.saturating_add(1);
        if !is_right {
            self.wrong = self.wrong.saturating_add(1);
            let _ = println!(self.rt; "wrong: {name}");
        }
    }

    /// Counts a call that takes no memory, which is right where it isn't refused.
    pub fn succeeds<T: Drop>(&mut self, name: &str, answer: Result<T>) {
        let given = self.given(name, answer);
        drop(given);
    }

    /// Counts such a call, and gives what it gave.
    pub fn given<T>(&mut self, name: &str, answer: Result<T>) -> Option<T> {
        self.promised(name, answer.is_ok());
        answer.ok()
    }

    /// What an allocation made for a probe, which isn't made where that failed.
    pub fn made<T, E: Drop>(&mut self, made: StdResult<T, E>) -> Option<T> {
        self.ran_out |= made.is_err();
        made.ok()
    }

    /// What reads a value that is made for a probe.
    pub fn reader(&mut self, made: Made<Value<'static>>) -> Option<Reader> {
        Some(Deserializer::new(self.made(made)?))
    }

    /// Counts a probe whose answer takes memory, and whether it was right.
    pub fn answered(&mut self, name: &str, is_right: Made<bool>) {
        if let Some(is_right) = self.made(is_right) {
            self.promised(name, is_right);
        }
    }

    /// Counts a call that takes memory, which is right where it is refused for memory alone, and
    /// gives what it gave.
    pub fn kept<T, E: Shortage + Drop>(
        &mut self,
        name: &str,
        answer: StdResult<T, E>,
    ) -> Option<T> {
        match answer {
            Ok(given) => {
                self.promised(name, true);
                Some(given)
            }
            Err(error) => {
                self.answered(name, unless_short(error));
                None
            }
        }
    }

    /// The same where it must give this.
    pub fn gives<T: PartialEq + Drop, E: Shortage + Drop>(
        &mut self,
        name: &str,
        answer: StdResult<T, E>,
        wanted: T,
    ) {
        self.answered(name, agrees(answer, wanted));
    }

    /// Tells how many probes there were and how many were wrong; where none was but memory ran out,
    /// only that.
    ///
    /// The status: 0 where every probe was right, 1 where one was wrong, 3 where none was but
    /// memory ran out.
    pub fn end(&self) -> io::Result<u8> {
        let (probes, wrong) = (self.probes, self.wrong);
        if wrong == 0 && self.ran_out {
            self.rt.println("out of memory")?;
            return Ok(3);
        }
        println!(self.rt; "{probes} probes, {wrong} wrong")?;
        Ok(if wrong == 0 { 0 } else { 1 })
    }
}

/// Whether a call gave this, unless memory ran out.
fn agrees<T: PartialEq + Drop, E: Shortage + Drop>(
    answer: StdResult<T, E>,
    wanted: T,
) -> Made<bool> {
    match answer {
        Ok(given) => Ok(same(given, wanted)),
        Err(error) => {
            drop(wanted);
            unless_short(error)
        }
    }
}

/// That an answer is wrong, unless memory ran out.
fn unless_short<E: Shortage + Drop>(error: E) -> Made<bool> {
    let is_short = error.is_short();
    drop(error);
    match is_short {
        true => Err(AllocError),
        false => Ok(false),
    }
}
