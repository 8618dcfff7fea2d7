//! How many levels of values in values of their own type are read.

ghost use Rattle.std.specs.Prelude.{◌≡◌, IfOk, IfErr};
ghost use Rattle.content_tree.specs.Errors.Kind.{IsOutOfMemory};
ghost use Rattle.content_nested.specs.Levels.{levels_of, most_levels};

use content_tree::Result;
use std::alloc::Global;

/// The levels that are left: a value of a type that contains itself is read on one of them, and
/// the values in it on the next.
#[derive(Drop)]
pub enum Levels {
    /// None.
    Out,
    /// One, and those after it.
    More(Box<Levels>),
}

/// How many levels there are at first.
const MOST_LEVELS: usize = 128;

/// All levels.
#[tactic(auto, unfolding(crate::specs::Levels::most_levels))]
pub(crate) fn all_levels(alloc: Global) -> Result<Levels>
    ensures value { IfOk result (λ levels. levels_of levels ≡ most_levels) }
    ensures memory { IfErr result (λ e. IsOutOfMemory e) }
{
    let mut levels = Levels::Out;
    for made in 0..MOST_LEVELS {
        levels = Levels::More(Box::new(alloc, levels)?);
    }
    Ok(levels)
}
