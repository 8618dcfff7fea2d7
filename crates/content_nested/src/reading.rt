//! How values are read that may contain others of their own type: level by level, so that no
//! source, however deep, takes more stack than the levels need.

ghost use Rattle.std.specs.Prelude.{◌≡◌, ◌≢◌, ℕ};
ghost use Rattle.content_tree.specs.Errors.Cause.{out_of_memory};
ghost use Rattle.content_de.specs.Outcomes.{cause};
ghost use Rattle.content_de.specs.Reads.Read.{Refusal, Gives, Reads};
ghost use Rattle.content_de.specs.Sources.Deserializer.{subject};
ghost use Rattle.content_nested.specs.Levels.{levels_of, most_levels};
ghost use Rattle.content_nested.specs.Within.{too_deep};

use crate::levels::{Levels, all_levels};
use content_de::{Deserialize, Deserializer};
use content_tree::{Error, Result};
use std::alloc::Global;

/// What is read as a `T` with these levels.
pub trait ReadsWithin<'de, T> {
    /// The cause of the first refusal in reading order, or none.
    ghost refusal: { Self → Refusal };

    /// The values that may be given where there is no refusal.
    ghost gives: { Self → Gives T };
}

/// Reads that.
pub trait ReadWithin<'de, T>: ReadsWithin<'de, T> {
    /// Reads a value that may be given, or answers the error of the first refusal; out of memory in
    /// the place of either.
    fn read_within<'n: 'de>(&self, alloc: Global, from: Deserializer<'de, 'n>) -> Result<T>
        ensures { Reads (Self.refusal self.now (subject from.entry))
            (Self.gives self.now (subject from.entry)) result };
}

/// What a type that contains itself reads on one level, by what is read on the next.
pub trait ReadsLevel<'de>: Sized {
    /// The cause of the first refusal in reading order, or none.
    ghost level_refusal: { Refusal → Refusal };

    /// The values that may be given where there is no refusal.
    ghost level_gives: { Gives Self → Gives Self };
}

/// What a type that contains itself reads with so many levels.
pub trait ReadsNested<'de>: Sized {
    /// The cause of the first refusal in reading order, or none.
    ghost refusal_in: { ℕ → Refusal };

    /// The values that may be given where there is no refusal.
    ghost gives_in: { ℕ → Gives Self };
}

/// Reads that.
pub trait ReadNested<'de>: ReadsNested<'de> {
    /// Reads a value that may be given with the levels that are left, or answers the error of the
    /// first refusal; out of memory in the place of either.
    fn read_levels<'n: 'de>(
        levels: &Levels,
        alloc: Global,
        from: Deserializer<'de, 'n>,
    ) -> Result<Self>
        ensures { Reads (Self.refusal_in (levels_of levels.now) (subject from.entry))
            (Self.gives_in (levels_of levels.now) (subject from.entry)) result };
}

/// Reads a value of a type that contains itself, with all levels, as its
/// [`deserialize`](Deserialize::deserialize) does.
///
/// # Errors
///
/// That of the type's first refusal, in reading order; `Custom` with the text
/// `recursion limit exceeded` where a value is deeper than 128 levels; out of memory in their
/// place.
pub fn read_nested<'de, 'n: 'de, T: ReadNested<'de>>(
    alloc: Global,
    from: Deserializer<'de, 'n>,
) -> Result<T>
    ensures { Reads (T.refusal_in most_levels (subject from.entry))
        (T.gives_in most_levels (subject from.entry)) result }
{
    let levels = all_levels(alloc)?;
    T::read_levels(&levels, alloc, from)
}

/// The error of a value that no level is left for.
#[cold]
#[inline(never)]
pub fn too_deep(alloc: Global) -> Error
    ensures { cause result ≢ out_of_memory → cause result ≡ too_deep }
{
    Error::custom(alloc, "recursion limit exceeded")
}
