//! The tree of anything that can be serialised.

ghost use Rattle.std.specs.Prelude.{◌≡◌, ◌≤◌, ℕ, suc, true, false, None, Some};
ghost use Rattle.content_build.specs.Serializer.{is_readable, limit_of, Serialized};
ghost use Rattle.content_build.specs.Serializer.{SerializedWithin};

use crate::builder::Builder;
use content_ser::{Aside, Serialize, Unmade};
use content_tree::{Error, ErrorKind, NamedValue, Result, Value};
use std::alloc::Global;

/// Makes a value of anything that can be serialised. The name and the flag are `serde-content`'s.
///
/// It has a flag, whether it is human readable, off at first; and perhaps a limit on how deep trees
/// nest, at first none, which isn't in `serde-content`. Serialisers go by the flag and then by the
/// limit in `==` and in the order, none before any.
///
/// ```rust
/// let held = Box::new(alloc, Value::from(7u8))?;
/// assert!(rt; Serializer::new().serialize(alloc, &Some(7u8))? == Value::Option(Some(held)));
/// ```
#[derive(Clone, Copy, Debug, PartialEq, Eq, PartialOrd, Ord)]
pub struct Serializer {
    human_readable: bool,
    limit: Option<usize>,
}

impl Serializer {
    /// A serialiser with the flag off and no limit. It takes no memory.
    pub fn new() -> Serializer
        ensures readable { is_readable result ≡ false }
        ensures limit { limit_of result ≡ None }
    {
        Serializer {
            human_readable: false,
            limit: None,
        }
    }

    /// The same with the flag on. It takes no memory.
    pub fn human_readable(self) -> Serializer
        ensures readable { is_readable result ≡ true }
        ensures limit { limit_of result ≡ limit_of self }
    {
        Serializer {
            human_readable: true,
            limit: self.limit,
        }
    }

    /// The same within this limit on how deep trees nest, which is at least 1, in the place of any
    /// before. It takes no memory. Not in `serde-content`.
    ///
    /// A leaf and an empty compound have depth 1, and what holds others has one more than the
    /// deepest of them; the trees of values that are dropped count too.
    ///
    /// ```rust
    /// assert!(rt; Serializer::new().depth_limit(2).serialize(alloc, &Some(7u8)).is_ok());
    /// assert!(rt; Serializer::new().depth_limit(1).serialize(alloc, &Some(7u8)).is_err());
    /// ```
    pub fn depth_limit(self, limit: usize) -> Serializer
        requires positive { 1 ≤ limit }
        ensures readable { is_readable result ≡ is_readable self }
        ensures limit { limit_of result ≡ Some limit }
    {
        Serializer {
            human_readable: self.human_readable,
            limit: Some(limit),
        }
    }

    /// Makes the tree that the value's calls spell, with every text and byte value owned.
    ///
    /// Where the value's script stops, the error is of kind `Custom` with the stop's text. It is of
    /// kind `OutOfMemory` where an allocation failed, and of kind `Misplaced` exactly where there
    /// is a limit that the calls don't keep. No other error comes.
    pub fn serialize<T: Serialize>(self, alloc: Global, value: &T) -> Result<Value<'static>>
        // without a limit: the tree, the stop's error, or out of memory
        ensures unlimited { limit_of self ≡ None
            → Serialized (T.script value.now (is_readable self)) result }
        // with one the same where the calls keep it, and where they don't a call out of place
        ensures within { (limit : ℕ) → limit_of self ≡ Some limit → 1 ≤ limit
            → SerializedWithin (Some limit) (T.script value.now (is_readable self)) result }
    {
        self.serialize_named(alloc, value)
    }

    /// The same, at any lifetimes: what a generic function needs that reads what it sends, since
    /// `Value<'static>` isn't shortened. Not in `serde-content`.
    pub fn serialize_named<'v, 'n, T: Serialize>(
        self,
        alloc: Global,
        value: &T,
    ) -> Result<NamedValue<'v, 'n>>
        ensures unlimited { limit_of self ≡ None
            → Serialized (T.script value.now (is_readable self)) result }
        ensures within { (limit : ℕ) → limit_of self ≡ Some limit → 1 ≤ limit
            → SerializedWithin (Some limit) (T.script value.now (is_readable self)) result }
    {
        if T::is_direct() {
            match value.direct(alloc, self.human_readable, self.room()) {
                Ok(made) => return Ok(made),
                Err(Unmade::OutOfMemory) => return Err(Error::from(ErrorKind::OutOfMemory)),
                Err(Unmade::ByCalls) => {}
            }
        }
        self.build(alloc, value)
    }

    /// How many levels there may be inside the tree.
    fn room(self) -> usize
        ensures { (limit : ℕ) → limit_of self ≡ Some limit → 1 ≤ limit → suc result ≡ limit }
    {
        match self.limit {
            None => usize::MAX,
            Some(limit) => limit.saturating_sub(1),
        }
    }

    /// Makes the tree by the value's calls.
    fn build<'v, 'n, T: Serialize>(self, alloc: Global, value: &T) -> Result<NamedValue<'v, 'n>>
        ensures unlimited { limit_of self ≡ None
            → Serialized (T.script value.now (is_readable self)) result }
        ensures within { (limit : ℕ) → limit_of self ≡ Some limit → 1 ≤ limit
            → SerializedWithin (Some limit) (T.script value.now (is_readable self)) result }
    {
        let mut builder: Builder<'v> = Builder::within(alloc, self.human_readable, self.limit);
        // In the place of an error before there is one; no answer shows it.
        let mut error = Error::from(ErrorKind::OutOfMemory);
        match value.serialize_aside(alloc, &mut builder, &mut error) {
            Ok(()) => builder.finish_named(),
            Err(Aside) => Err(error),
        }
    }
}

/// As [`Serializer::new`].
impl Default for Serializer {
    ghost is_default = { λ serializer.
        (is_readable serializer ≡ false) × (limit_of serializer ≡ None) };

    fn default() -> Serializer {
        Serializer::new()
    }
}
