//! A partial tree as a flat tape.

ghost use Rattle.content_build.specs.Inner.Sound.{IsKept, IsKept-prop};

use crate::frame::{Frame, Opening};
use crate::grow::grow;
use crate::limit::fits;
use crate::refusal::{Refusal, Taken};
use crate::steps::step;
use crate::token::Token;
use content_tree::{ErrorKind, NamedValue, Result};
use std::alloc::Global;

/// A partial tree: a frame for each node, in the order in which nodes begin, and the openings that
/// are open, from the outermost to the innermost; and the limit on how many they may be, if there
/// is one.
#[derive(Drop)]
pub(crate) struct Tape {
    alloc: Global,
    frames: Vec<Frame>,
    openings: Vec<Opening>,
    limit: Option<usize>,
    failed: bool,
    ghost kept: { IsKept failed frames.items openings.items } by { IsKept-prop failed frames.items openings.items },
}

impl Tape {
    ghost use Rattle.std.specs.Prelude.{◌≡◌, Some, IfSome};
    ghost use Rattle.content_build.specs.Partial.{fresh, open_count as partial_open_count};
    ghost use Rattle.content_build.specs.Builder.{has_failed, or_fresh, Finishes};
    ghost use Rattle.content_build.specs.Inner.Tape.{partial_tree};
    ghost use Rattle.content_build.specs.Inner.Taken.{TakesToken};
    ghost use Rattle.content_build.specs.Inner.Tokens.{token_view};
    ghost use Rattle.content_build.specs.Limit as limits;

    /// No call yet.
    pub(crate) fn new(alloc: Global, limit: Option<usize>) -> Tape
        ensures tree { partial_tree result ≡ Some fresh }
        ensures limit { result.limit ≡ limit }
    {
        Tape {
            alloc,
            frames: Vec::new(alloc),
            openings: Vec::new(alloc),
            limit,
            failed: false,
        }
    }

    /// Whether the call keeps the limit.
    fn fits(&self, call: &Token<'_>) -> bool
        ensures { IfSome (partial_tree self.now) (λ partial.
            result ≡ limits.fits self.now.limit (partial_open_count partial)
            (token_view call.now)) }
    {
        match self.limit {
            None => true,
            Some(limit) => fits(limit, self.open_count(), call),
        }
    }

    /// A call.
    #[inline(always)]
    pub(crate) fn take(&mut self, call: Token<'_>) -> Taken
        ensures taken { TakesToken self.old.limit (partial_tree self.old) (token_view call.entry)
            result (partial_tree self.new) }
        ensures limit { self.new.limit ≡ self.old.limit }
    {
        if self.failed {
            return Err(Refusal::Failed);
        }
        if !self.fits(&call) {
            self.failed = true;
            return Err(Refusal::Misplaced);
        }
        match step(self.alloc, &mut self.frames, &mut self.openings, call) {
            Ok(()) => Ok(()),
            Err(refusal) => {
                self.failed = true;
                Err(refusal)
            }
        }
    }

    /// Whether a call was refused.
    pub(crate) fn is_failed(&self) -> bool
        ensures { result ≡ has_failed (partial_tree self.now) }
    {
        self.failed
    }

    /// How many openings there are, unless a call was refused.
    pub(crate) fn open_count(&self) -> usize
        ensures { IfSome (partial_tree self.now) (λ partial. result ≡ partial_open_count partial) }
    {
        self.openings.len()
    }

    /// The whole tree.
    pub(crate) fn finish<'v, 'n>(self) -> Result<NamedValue<'v, 'n>>
        ensures value { Finishes (has_failed (partial_tree self)) (or_fresh (partial_tree self))
            result }
    {
        let Tape {
            alloc,
            frames,
            openings,
            limit: _,
            failed,
        } = self;
        if failed {
            return Err(ErrorKind::Failed.into());
        }
        if openings.len() > 0 {
            return Err(ErrorKind::Unfinished.into());
        }
        if frames.len() == 0 {
            return Err(ErrorKind::Unfinished.into());
        }
        match grow(alloc, frames)? {
            Some(value) => Ok(value),
            None => Err(ErrorKind::Unfinished.into()),
        }
    }
}
