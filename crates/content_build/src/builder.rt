//! The serialiser that builds a tree.

ghost use Rattle.std.specs.Prelude.{◌≡◌, ◌≤◌, ℕ, List, [], Option, None, Some, false};
ghost use Rattle.content_ser.specs.Calls.Call.{event_of};
ghost use Rattle.content_ser.specs.Calls.Event.{Event};
ghost use Rattle.content_ser.specs.Serializers.Step.{Takes};
ghost use Rattle.content_build.specs.Limit.{Limited, fresh, fresh_within, step};
ghost use Rattle.content_build.specs.Partial.{open_count};
ghost use Rattle.content_build.specs.Builder.{seen_of, refuses, Finishes};
ghost use Rattle.content_build.specs.Builder.{HasTaken, AnswersNext, AnswersEnd};

use crate::refusal::{answered, put_aside};
use crate::tape::Tape;
use crate::token::Token;
use content_ser::{Call, Sent, Serializer};
use content_tree::{Error, NamedValue, Result, Value};
use std::alloc::Global;
use std::marker::PhantomData;

/// A serialiser that builds a value: the tree that its calls spell.
///
/// Its state is a partial tree: fresh, open, or done; and the limit on nesting, if it was made with
/// one ([`with_limit`](Builder::with_limit)). A call after which no list of calls can spell a tree,
/// within the limit, answers `Misplaced`, before any memory is taken for it. A call for which an
/// allocation failed answers `OutOfMemory`. Every call after either answers `Failed`; `collect_str`
/// alone prints first, and where an allocation for that failed it answers `OutOfMemory` and changes
/// nothing. Hints and lengths reserve nothing. Texts and bytes are copied, names never. The calls
/// are Serde's; the error for one out of place isn't in `serde-content`.
///
/// Nothing in the tree is borrowed, so the lifetime is free: [`from_calls`](crate::from_calls)
/// gives a value at any.
///
/// ```rust
/// let mut builder = Builder::new(alloc, false);
/// builder.serialize_seq(None)?;
/// builder.serialize_element()?;
/// builder.serialize_bool(true)?;
/// builder.end()?;
/// assert!(rt; builder.finish()? == Value::Seq(vec![in alloc; Value::Bool(true)]?));
/// ```
#[derive(Drop)]
pub struct Builder<'v> {
    tape: Tape,
    human_readable: bool,
    values: PhantomData<Value<'v>>,
}

impl<'v> Builder<'v> {
    /// Makes a builder to which no call was made; it takes no memory. The flag is what
    /// [`is_human_readable`](Serializer::is_human_readable) answers; nothing else depends on it.
    pub fn new(alloc: Global, human_readable: bool) -> Builder<'v>
        ensures value { seen_of result
            ≡ record { state = fresh; failed = false; readable = human_readable } }
        ensures taken { HasTaken None [] (seen_of result) }
    {
        Builder::within(alloc, human_readable, None)
    }

    /// Makes a builder to which no call was made, within a limit on how deep trees nest, at least
    /// 1. It takes no memory. Not in `serde-content`.
    ///
    /// The tree of the whole list has depth 1, and a tree inside another that one's depth plus 1;
    /// the trees of values that are dropped count too. A call that would pass the limit answers
    /// `Misplaced`: at the limit a leaf and an opening call are taken, and a `Some`, a newtype
    /// call and a call that announces an item are refused.
    ///
    /// ```rust
    /// let mut builder = Builder::with_limit(alloc, false, 1);
    /// builder.serialize_seq(None)?;
    /// assert!(rt; builder.serialize_element().is_err());
    /// ```
    pub fn with_limit(alloc: Global, human_readable: bool, limit: usize) -> Builder<'v>
        requires positive { 1 ≤ limit }
        ensures value { seen_of result ≡ record {
          state = fresh_within (Some limit);
          failed = false;
          readable = human_readable;
        } }
        ensures taken { HasTaken (Some limit) [] (seen_of result) }
    {
        Builder::within(alloc, human_readable, Some(limit))
    }

    /// A builder to which no call was made, with a limit or none.
    #[tactic(auto, unfolding(crate::specs::Builder::seen_of))]
    pub(crate) fn within(alloc: Global, human_readable: bool, limit: Option<usize>) -> Builder<'v>
        ensures { seen_of result
            ≡ record { state = fresh_within limit; failed = false; readable = human_readable } }
    {
        Builder {
            tape: Tape::new(alloc, limit),
            human_readable,
            values: PhantomData,
        }
    }

    /// How many trees are open, where the builder has not failed.
    #[tactic(auto, unfolding(crate::specs::Builder::seen_of))]
    pub(crate) fn open_count(&self) -> usize
        ensures { (seen_of self.now).failed ≡ false
            → result ≡ open_count (seen_of self.now).state.tree }
    {
        self.tape.open_count()
    }

    /// Makes the tree that the calls spell. Its texts and bytes are owned and its names static.
    ///
    /// It answers `Failed` where the builder has failed, and `Unfinished` where the calls spell no
    /// tree yet. Memory is taken for the tree's vectors, each for the number of its items, and for
    /// its boxes; where an allocation failed: `OutOfMemory`. It doesn't call itself.
    #[tactic(auto, unfolding(crate::specs::Builder::seen_of))]
    pub fn finish(self) -> Result<Value<'v>>
        ensures value { Finishes (seen_of self.entry).failed
            (seen_of self.entry).state.tree result }
        // the tree that the calls spell, or why they spell none
        ensures exact { (limit : Option ℕ) → (calls : List Event)
            → HasTaken limit calls (seen_of self.entry) → AnswersEnd limit calls result }
    {
        self.finish_named()
    }

    /// The same at any lifetime of names too, for a generic function that keeps the tree.
    #[tactic(auto, unfolding(crate::specs::Builder::seen_of))]
    pub fn finish_named<'n>(self) -> Result<NamedValue<'v, 'n>>
        ensures { Finishes (seen_of self.entry).failed (seen_of self.entry).state.tree result }
    {
        self.tape.finish()
    }
}

impl<'v> Serializer for Builder<'v> {
    ghost State = { Limited };

    ghost seen = { seen_of };

    ghost step = { step };

    ghost refuses = { refuses };

    /// Errors: `Misplaced` where no whole list, within the limit, begins with the calls so far and
    /// this one, `OutOfMemory` where an allocation failed, `Failed` after either. Memory is taken
    /// for the tape, for texts and bytes, and for a number of 128 bits. No depth takes stack.
    #[inline(always)]
    fn call(&mut self, call: Call<'_>) -> Result<()>
        // one step of the partial tree, within its limit
        ensures taken { Takes step refuses (seen_of self.old)
            (event_of call.entry) result (seen_of self.new) }
        // it follows the calls so far, or is refused whatever comes after it
        ensures exact { (limit : Option ℕ) → (calls : List Event)
            → HasTaken limit calls (seen_of self.old)
            → AnswersNext limit calls (event_of call.entry) result (seen_of self.new) }
    {
        answered(self.tape.take(Token::of(&call)))
    }

    #[inline(always)]
    fn call_aside(&mut self, call: Call<'_>, error: &mut Error) -> Sent {
        put_aside(self.tape.take(Token::of(&call)), error)
    }

    #[tactic(auto, unfolding(crate::specs::Builder::seen_of))]
    fn is_human_readable(&self) -> bool {
        self.human_readable
    }

    #[tactic(auto, unfolding(crate::specs::Builder::seen_of))]
    fn is_failed(&self) -> bool {
        self.tape.is_failed()
    }
}
