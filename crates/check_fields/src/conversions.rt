//! How types of `converted` are converted.

ghost use Rattle.std.specs.Prelude.{◌≡◌, None, Some, pos, IsSomeAnd, MatchResult, IfOk};
ghost use Rattle.std.specs.Prelude.{string_bytes};
ghost use Rattle.check_fields.specs.Converted.{percent_refusal, percent_into, reader_into};
ghost use Rattle.check_fields.specs.Converted.{urgency_into};

use crate::converted::{Percent, Reader, Urgency};
use std::alloc::{AllocError, Global};
use std::fmt::Display;

impl From<u8> for Urgency {
    fn from(number: u8) -> Urgency {
        match number {
            0 => Urgency::Low,
            1 => Urgency::Usual,
            _ => Urgency::High,
        }
    }
}

impl From<Urgency> for u8 {
    ghost from_gives = { λ x y. y ≡ urgency_into x };

    fn from(urgency: Urgency) -> u8 {
        match urgency {
            Urgency::Low => 0,
            Urgency::Usual => 1,
            Urgency::High => 2,
        }
    }
}

impl TryFrom<u8> for Percent {
    type Error = &'static str;

    ghost try_from_gives = { λ x r. MatchResult r (λ y. percent_refusal (pos x) ≡ None)
        (λ e. IsSomeAnd (⟦<&'static str as Display>⟧.output e)
        (λ t. percent_refusal (pos x) ≡ Some t)) };

    fn try_from(number: u8) -> Result<Percent, &'static str> {
        if number > 100 {
            return Err("more than 100");
        }
        Ok(Percent { of_hundred: number })
    }
}

impl From<Percent> for u8 {
    ghost from_gives = { λ x y. y ≡ percent_into x };

    fn from(percent: Percent) -> u8 {
        percent.of_hundred
    }
}

impl From<String> for Reader {
    fn from(name: String) -> Reader {
        Reader { name }
    }
}

impl Reader {
    /// What it is sent as.
    pub fn to_sent(&self, _alloc: Global) -> Result<String, AllocError>
        ensures { IfOk result (λ y. string_bytes y ≡ reader_into self.now) }
    {
        self.name.clone()
    }
}
