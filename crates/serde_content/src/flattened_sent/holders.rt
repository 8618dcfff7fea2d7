//! Optional values and boxes.

#![tactic(auto, using(content_ser::proofs::Sending::sending))]

ghost use Rattle.serde_content.specs.Entries.{optional_first};
ghost use Rattle.serde_content.specs.Laws.Entries.{optional_fit};

use crate::fields_sent::SendRow;
use crate::flattened_sent::SendEntries;
use content_ser::{Sent, Serializer};
use content_tree::Error;
use std::alloc::Global;

impl<T: SendEntries> SendEntries for Option<T> {
    ghost entries = { λ x. optional_first T.entries x };

    ghost fit = { λ x. optional_fit T.fit x };

    fn send_entries<R: SendRow, S: Serializer>(
        &self,
        rest: &R,
        alloc: Global,
        serializer: &mut S,
        error: &mut Error,
    ) -> Sent {
        match self {
            None => rest.send(alloc, serializer, error),
            Some(value) => value.send_entries(rest, alloc, serializer, error),
        }
    }
}

impl<T: SendEntries> SendEntries for Box<T> {
    ghost entries = { λ b. T.entries b.value };

    ghost fit = { λ b. T.fit b.value };

    fn send_entries<R: SendRow, S: Serializer>(
        &self,
        rest: &R,
        alloc: Global,
        serializer: &mut S,
        error: &mut Error,
    ) -> Sent {
        SendEntries::send_entries(&**self, rest, alloc, serializer, error)
    }
}
