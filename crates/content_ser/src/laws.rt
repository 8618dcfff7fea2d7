//! Laws of calls, and of what is sent for a tree.

ghost use Rattle.std.specs.Prelude.{◌≡◌};
ghost use Rattle.std.specs.Bool.{Decides};
ghost use Rattle.content_ser.specs.Calls.Call.{event_of};
ghost use Rattle.content_ser.specs.Sending.Canonical.{CanonicalOnce, CanonicalOrStops};
ghost use Rattle.content_ser.specs.Sending.Canonical.{CanonicalSpelled, LooseOnce, ScriptSpells};
ghost use Rattle.content_ser.specs.Sending.Canonical.{StaticIsCanonical};

use crate::call::Call;

/// What `==` answers: whether two calls are the same by contents. It takes no memory.
pub fn equal_by_contents(a: &Call<'_>, b: &Call<'_>) -> bool
    ensures { Decides result (event_of a.now ≡ event_of b.now) }
{
    *a == *b
}

/// Where a tree has a canonical form, its script has no stop, and its calls spell that form, its
/// texts and byte values owned.
pub fn canonical_spelled()
    ensures { CanonicalSpelled }
{}

/// A tree has a canonical form, or it has none and its script stops.
pub fn canonical_or_stops()
    ensures { CanonicalOrStops }
{}

/// Where the script of a tree has no stop, its calls spell the tree, its texts owned and its names
/// static.
pub fn script_spells()
    ensures { ScriptSpells }
{}

/// The loose form of a loose form is itself.
pub fn loose_once()
    ensures { LooseOnce }
{}

/// The canonical form of a canonical form is itself.
pub fn canonical_once()
    ensures { CanonicalOnce }
{}

/// A tree whose names, variants and keys are all static is its own canonical form.
pub fn static_is_canonical()
    ensures { StaticIsCanonical }
{}
