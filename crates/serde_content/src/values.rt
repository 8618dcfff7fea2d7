//! Values of what can be serialised, at any lifetime, and what they are values of.

ghost use Rattle.std.specs.Prelude.{◌≡◌, true, false, IfOk, IfErr};
ghost use Rattle.content_tree.specs.Errors.Kind.{IsOutOfMemory};
ghost use Rattle.content_tree.specs.Values.Value.{tree_of};
ghost use Rattle.content_ser.specs.Grammar.Spells.{SpellsWhole};
ghost use Rattle.content_ser.specs.Scripts.Script.{calls_of};
ghost use Rattle.content_build.specs.Serializer.{Serialized};
ghost use Rattle.content_de.specs.Sources.Origin.{tree_under};
ghost use Rattle.content_de.specs.Reads.Read.{Reads};
ghost use Rattle.serde_content.specs.RoundTrip.{flags};

use crate::round::{RoundTrip, under};
use content_build::Serializer;
use content_ser::Serialize;
use content_tree::{NamedValue, Result};
use std::alloc::Global;

/// Makes the tree that the value's calls spell, human readable or not, at any lifetimes: what
/// [`Serializer::serialize`](crate::Serializer::serialize) answers without a limit. A generic
/// function that reads what it sends needs that, as `Value<'static>` isn't shortened, and one that
/// keeps it needs both.
///
/// # Errors
///
/// Those of `Serializer::serialize`.
pub fn to_value<'v, 'n, T: Serialize>(
    alloc: Global,
    value: &T,
    human_readable: bool,
) -> Result<NamedValue<'v, 'n>>
    ensures { Serialized (T.script value.now human_readable) result }
{
    let serializer = Serializer::new();
    if human_readable {
        serializer.human_readable().serialize_named(alloc, value)
    } else {
        serializer.serialize_named(alloc, value)
    }
}

/// Reads the value as a type, human readable or not. Where it was made of a value of the type, an
/// equal one comes back.
///
/// # Errors
///
/// That of the type's first refusal, which what was made of it hasn't; out of memory.
///
/// ```rust
/// let value = to_value(alloc, &Some(7u8), false)?;
/// let back: Option<u8> = from_value(alloc, value, false)?;
/// assert!(rt; back == Some(7));
/// ```
pub fn from_value<'de, 'n: 'de, T: RoundTrip<'de>>(
    alloc: Global,
    value: NamedValue<'de, 'n>,
    human_readable: bool,
) -> Result<T>
    ensures read { Reads (T.refusal (tree_under (flags human_readable false) (tree_of value.entry)))
        (T.gives (tree_under (flags human_readable false) (tree_of value.entry))) result }
    // where the value's tree is what the calls of x spell
    ensures value { (x : T) → T.exists x
        → SpellsWhole (calls_of (T.script x human_readable)) (tree_of value.entry)
        → IfOk result (λ back. T.eq x back ≡ true) }
    ensures memory { (x : T) → T.exists x
        → SpellsWhole (calls_of (T.script x human_readable)) (tree_of value.entry)
        → IfErr result (λ e. IsOutOfMemory e) }
{
    T::deserialize(alloc, under(value, human_readable, false))
}
