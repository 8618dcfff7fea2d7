//! Tries to read a type from what is there, which stays, as Serde does from its buffer.

ghost use Rattle.std.specs.Prelude.{◌≡◌, IsOk, IsSome, Ok, None};
ghost use Rattle.content_de.specs.Sources.Deserializer.{subject};
ghost use Rattle.content_de.specs.Sources.Origin.{in_buffer};
ghost use Rattle.content_de.specs.Reads.Attempts.{SourceCopyTakesNoMemory, Tries, refusal_by};

use crate::deserialize::Deserialize;
use crate::deserializer::Deserializer;
use content_tree::{ErrorKind, Expected, Result};
use std::alloc::Global;

/// Tries to read a type from a [buffered](Deserializer::buffered) copy of what is there: a value,
/// or none where that is refused. It is for an untagged enum of your own, which tries one type
/// after another. Only the copy and the type take memory.
///
/// # Errors
///
/// Out of memory, where an allocation failed.
pub fn attempt<'de, 'n: 'de, T: Deserialize<'de>>(
    alloc: Global,
    from: &Deserializer<'de, 'n>,
) -> Result<Option<T>>
    ensures value { Tries (T.refusal (in_buffer (subject from.now)))
        (T.gives (in_buffer (subject from.now))) result }
    ensures succeeds { SourceCopyTakesNoMemory (subject from.now).origin
        → T.memoryless (in_buffer (subject from.now)) → IsOk result }
{
    attempt_last(alloc, from.try_clone(alloc)?.buffered())
}

/// Tries to read a type from what is there, which is used up: a value, or none where that is
/// refused. It is for an option that has no sign of its own. Only the type takes memory.
///
/// # Errors
///
/// Out of memory, where an allocation failed.
#[inline(always)]
pub fn attempt_last<'de, 'n: 'de, T: Deserialize<'de>>(
    alloc: Global,
    from: Deserializer<'de, 'n>,
) -> Result<Option<T>>
    ensures value { Tries (T.refusal (subject from.entry)) (T.gives (subject from.entry)) result }
    ensures succeeds { T.memoryless (subject from.entry) → IsOk result }
{
    match T::deserialize(alloc, from) {
        Ok(value) => Ok(Some(value)),
        Err(error) => {
            if matches!(error.kind(), ErrorKind::OutOfMemory) {
                return Err(error);
            }
            drop(error);
            Ok(None)
        }
    }
}

/// The same for a type that refuses what doesn't [fit](Deserializer::fits) this expectation in a
/// buffer: that isn't copied then, and takes no memory.
///
/// # Errors
///
/// Out of memory, where an allocation failed.
pub fn attempt_fitting<'de, 'n: 'de, T: Deserialize<'de>>(
    alloc: Global,
    from: &Deserializer<'de, 'n>,
    expected: &Expected,
) -> Result<Option<T>>
    requires refused { IsSome (refusal_by expected.now (in_buffer (subject from.now)))
        → IsSome (T.refusal (in_buffer (subject from.now))) }
    ensures value { Tries (T.refusal (in_buffer (subject from.now)))
        (T.gives (in_buffer (subject from.now))) result }
    ensures succeeds { SourceCopyTakesNoMemory (subject from.now).origin
        → T.memoryless (in_buffer (subject from.now)) → IsOk result }
    ensures unfit { IsSome (refusal_by expected.now (in_buffer (subject from.now)))
        → result ≡ Ok None }
{
    if !from.fits_in_buffer(expected) {
        return Ok(None);
    }
    attempt(alloc, from)
}
