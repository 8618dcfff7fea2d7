//! The trait of what serialisers take.

ghost use Rattle.std.specs.Prelude.{Bool};
ghost use Rattle.content_ser.specs.Scripts.Direct.{Spelled};
ghost use Rattle.content_ser.specs.Scripts.Script.{IsLawful, Script};
ghost use Rattle.content_ser.specs.Scripts.Sends.{Sends};
ghost use Rattle.content_ser.specs.Sending.Aside.{answer_of};

use crate::aside::{Sent, put_aside};
use crate::direct::{Made, Unmade};
use crate::serializer::Serializer;
use content_tree::{Error, Result};
use std::alloc::Global;

/// A type whose values can be sent to any serialiser.
///
/// Its script says by which calls: a list of them, which may depend on the value and on whether the
/// serialiser is human readable, and perhaps a text with which it stops.
pub trait Serialize {
    /// The calls by which a value is sent, where the serialiser is human readable or not.
    ghost script: { Self → Bool → Script };

    /// Sends the value: makes the calls of the script, one after another.
    ///
    /// `Ok` says that all of them were made and that the script has no stop. `Err` says that the
    /// serialiser refused one of them, with its own error, and that no other was made after it; or
    /// that all were made and the script stops (`Custom` with its text); or that an allocation
    /// failed. A serialiser that has failed before refuses the first, as it refuses any call.
    fn serialize<S: Serializer>(&self, alloc: Global, serializer: &mut S) -> Result<()>
        ensures { Sends S.step S.refuses (S.seen serializer.old)
            (script self.now) result (S.seen serializer.new) };

    /// Makes the calls of the script as [`serialize`](Serialize::serialize) does, with the error
    /// put aside: the answer is a byte, and where it is an `Err`, the error is in `error`, whatever
    /// was there before. Where it is `Ok`, `error` says nothing. A type need not give it. Not in
    /// `serde-content`.
    fn serialize_aside<S: Serializer>(
        &self,
        alloc: Global,
        serializer: &mut S,
        error: &mut Error,
    ) -> Sent
        ensures { Sends S.step S.refuses (S.seen serializer.old) (script self.now)
            (answer_of result error.new) (S.seen serializer.new) }
    {
        put_aside(self.serialize(alloc, serializer), error)
    }

    /// Whether [`direct`](Serialize::direct) makes the values of this type. Not in `serde-content`.
    #[inline(always)]
    fn is_direct() -> bool {
        false
    }

    /// Makes the value that the calls of the script spell, for a serialiser that is human readable
    /// or not, without making them: all its texts are owned, and each part gets the memory that it
    /// needs. There may be so many levels inside the value: `room`. A type need not give it. Not in
    /// `serde-content`.
    ///
    /// # Errors
    ///
    /// `OutOfMemory`, where an allocation failed. `ByCalls`, where the type doesn't give this, or
    /// the value nests deeper: the calls say then what it is, or why there is none.
    #[tactic(auto, using(crate::proofs::Making::making))]
    fn direct<'v, 'n>(&self, alloc: Global, readable: bool, room: usize) -> Made<'v, 'n>
        ensures { Spelled room (script self.now readable) result }
    {
        let _unused = (alloc, readable, room);
        Err(Unmade::ByCalls)
    }

    /// Without a stop the calls spell a tree; with a stop some calls can follow that make them
    /// spell one.
    ghost lawful: { (x : Self) (readable : Bool) → IsLawful (script x readable) };
}
