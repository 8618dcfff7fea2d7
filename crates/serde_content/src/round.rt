//! Values that come back: what is sent is read again as an equal value.

ghost use Rattle.std.specs.Prelude.{◌≡◌, true, IfOk, IfErr, ⊤};
ghost use Rattle.content_tree.specs.Errors.Kind.{IsOutOfMemory};
ghost use Rattle.content_tree.specs.Values.Tree.{Tree};
ghost use Rattle.content_tree.specs.Values.Value.{tree_of};
ghost use Rattle.content_ser.specs.Grammar.Spells.{SpellsWhole};
ghost use Rattle.content_ser.specs.Scripts.Script.{calls_of};
ghost use Rattle.content_de.specs.Sources.Deserializer.{subject};
ghost use Rattle.content_de.specs.Sources.Origin.{tree_under};
ghost use Rattle.serde_content.specs.RoundTrip.{ComesBack, CoercionKeeps, flags};

use crate::values::to_value;
use content_de::{Deserialize, Deserializer};
use content_ser::Serialize;
use content_tree::{NamedValue, Result, Value};
use std::alloc::Global;

mod address;
mod arc;
mod array;
mod boxed_str;
mod deque;
mod hash_map;
mod hash_set;
mod map;
mod path;
mod rc;
mod set;
mod standard;
mod tuple;

/// A type whose values come back equal: each is sent without a stop, and what it is sent as is read
/// again as an equal value.
///
/// The tree that a value's calls spell has owned texts and bytes and static names. It is read as
/// human readable where it was sent so, with numbers coerced or not. [`round_trip`] does both.
pub trait RoundTrip<'de>: Eq + Serialize + Deserialize<'de> {
    /// Holds of each value of the type. Of most types all that contracts can name are values. What
    /// they see of a `BTreeMap` is a list of entries, and a map is one whose keys ascend.
    ghost exists: { Self → Type 0 } = { λ value. ⊤ };

    /// Tells proofs that this value exists. It answers nothing and takes no memory; what holds
    /// others looks at each of them.
    fn known(&self)
        ensures { exists self.now };

    /// The script of a value that exists has no stop. The tree that its calls spell isn't refused,
    /// and every value that reading it may answer is equal to the value by the type's `==`.
    ghost comes_back: { ComesBack exists Self.script Self.refusal Self.gives Self.eq };

    /// Each value that a source may give without coercion it may give with it.
    ghost keeps: { CoercionKeeps Self.refusal Self.gives };
}

/// Sends a value and reads it again: what comes is equal to it. Both are human readable where the
/// first flag says so; numbers are coerced where the last does.
///
/// # Errors
///
/// Out of memory, where an allocation failed.
///
/// ```rust
/// let there = vec![in alloc; Some(1u8), None]?;
/// assert!(rt; round_trip(alloc, &there, false, false)? == there);
/// ```
pub fn round_trip<'de, T: RoundTrip<'de>>(
    alloc: Global,
    value: &T,
    human_readable: bool,
    coerce: bool,
) -> Result<T>
    ensures value { IfOk result (λ back. T.eq value.now back ≡ true) }
    // it is read under these flags, from the tree that the value's calls spell
    ensures given { (t : Tree) → SpellsWhole (calls_of (T.script value.now human_readable)) t
        → IfOk result (λ back. T.gives (tree_under (flags human_readable coerce) t) back) }
    ensures memory { IfErr result (λ e. IsOutOfMemory e) }
{
    value.known();
    let sent = to_value(alloc, value, human_readable)?;
    T::deserialize(alloc, under(sent, human_readable, coerce))
}

/// Reads this value under these flags.
pub(crate) fn under<'de, 'n>(
    value: NamedValue<'de, 'n>,
    human_readable: bool,
    coerce: bool,
) -> Deserializer<'de, 'n>
    ensures { subject result ≡ tree_under (flags human_readable coerce) (tree_of value.entry) }
{
    let from = Deserializer::new(value);
    let from = if human_readable {
        from.human_readable()
    } else {
        from
    };
    if coerce { from.coerce_numbers() } else { from }
}
