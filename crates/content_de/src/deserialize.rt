//! The trait of types that can be read.

ghost use Rattle.std.specs.Prelude.{IsOk};

use crate::deserializer::Deserializer;
use content_tree::Result;
use std::alloc::Global;

/// A type whose values are read from a [`Deserializer`], as `serde::Deserialize`.
///
/// An implementation says, for each source and its flags, what the first refusal is in the order of
/// reading, or that there is none, and which values may be given then.
pub trait Deserialize<'de>: Sized + Drop {
    ghost use Rattle.content_de.specs.Sources.Deserializer.{subject};
    ghost use Rattle.content_de.specs.Reads.Read.{Refusal, Gives, Memoryless, Reads};

    /// The cause of the first refusal in reading order, or none.
    ghost refusal: { Refusal };

    /// The values that may be given where there is no refusal.
    ghost gives: { Gives Self };

    /// Sources that are read without memory, none of which is refused. Where this isn't said, none
    /// are promised.
    ghost memoryless: { Memoryless } = { λ s. ⊥ };

    /// Reads a value that may be given, or answers the error of the first refusal; out of memory in
    /// the place of either, but where it is read without memory.
    fn deserialize<'n: 'de>(alloc: Global, from: Deserializer<'de, 'n>) -> Result<Self>
        ensures value { Reads (refusal (subject from.entry)) (gives (subject from.entry)) result }
        ensures succeeds { memoryless (subject from.entry) → IsOk result };
}
