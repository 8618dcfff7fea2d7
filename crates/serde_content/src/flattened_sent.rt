//! What flattened values send: entries of the map that they stand in.

#![tactic(auto, using(content_ser::proofs::Sending::sending))]

ghost use Rattle.content_ser.specs.Scripts.Begins.{Start};
ghost use Rattle.content_ser.specs.Scripts.Sends.{Sends};
ghost use Rattle.content_ser.specs.Sending.Aside.{answer_of};
ghost use Rattle.serde_content.specs.Laws.Entries.{BeginsEntries};

use crate::fields_sent::SendRow;
use content_ser::{Sent, Serializer};
use content_tree::Error;
use std::alloc::Global;

mod hash_map;
mod holders;
mod map;

/// A type that can be flattened: its values send entries of the map that they stand in.
pub trait SendEntries {
    /// The calls that send them, by what follows.
    ghost entries: { Self → Start };

    /// Makes these calls, and those of the rest of the map, with the error put aside, as
    /// [`serialize_aside`](Serialize::serialize_aside) does.
    fn send_entries<R: SendRow, S: Serializer>(
        &self,
        rest: &R,
        alloc: Global,
        serializer: &mut S,
        error: &mut Error,
    ) -> Sent
        ensures { Sends S.step S.refuses (S.seen serializer.old)
            (entries self.now (R.script rest.now)) (answer_of result error.new)
            (S.seen serializer.new) };

    /// Before entries and the end of a map they are such.
    ghost fit: { (x : Self) → BeginsEntries (entries x) };
}

/// The entries of a flattened value, and what follows them.
#[derive(Drop)]
pub struct SendAll<'a, T, R>(pub &'a T, pub R);

impl<'a, T: SendEntries, R: SendRow> SendRow for SendAll<'a, T, R> {
    ghost script = { λ row. T.entries row.0.now (R.script row.1) };

    #[inline(always)]
    fn send<S: Serializer>(&self, alloc: Global, serializer: &mut S, error: &mut Error) -> Sent {
        self.0.send_entries(&self.1, alloc, serializer, error)
    }
}

/// What follows the entries of a flattened value.
#[derive(Drop)]
pub struct SendRest<'a, R>(pub &'a R);

impl<'a, R: SendRow> SendRow for SendRest<'a, R> {
    ghost script = { λ row. R.script row.0.now };

    #[inline(always)]
    fn send<S: Serializer>(&self, alloc: Global, serializer: &mut S, error: &mut Error) -> Sent {
        self.0.send(alloc, serializer, error)
    }
}
