//! Values that are made with no calls.

#![tactic(auto, using(crate::proofs::Making::making))]

ghost use Rattle.std.specs.Prelude.{◌≡◌, ℕ, IfOk, List, Some, suc};
ghost use Rattle.content_tree.specs.Values.Value.{tree_data_of, tree_of};
ghost use Rattle.content_ser.specs.Calls.Call.{event_of};
ghost use Rattle.content_ser.specs.Calls.Event as event;
ghost use Rattle.content_ser.specs.Calls.Event.{Event};
ghost use Rattle.content_ser.specs.Calls.Head.{head_of, headed};
ghost use Rattle.content_ser.specs.Grammar.Token.{in_head, token_of, wrap};
ghost use Rattle.content_ser.specs.Scripts.Direct.{Spelled};
ghost use Rattle.content_ser.specs.Scripts.Script.{call_then, done};
ghost use Rattle.content_ser.specs.Scripts.Standard.{call_first, only};

use crate::call::Call;
use crate::head::Head;
use crate::serialize::Serialize;
use content_tree::{CowStr, NamedData, NamedEnum, NamedStruct, NamedValue, Number};
use std::alloc::{AllocError, AllocFailed, Global};
use std::fmt::Display;
use std::result::Result as StdResult;

/// Why a value wasn't made directly.
#[derive(Drop)]
pub enum Unmade {
    /// The type doesn't make its values directly, or this one nests deeper than there is room. Its
    /// calls say what it is.
    ByCalls,
    /// An allocation failed.
    OutOfMemory,
}

impl From<AllocError> for Unmade {
    fn from(_failed: AllocError) -> Unmade {
        Unmade::OutOfMemory
    }
}

impl<T: Drop> From<AllocFailed<T>> for Unmade {
    fn from(_failed: AllocFailed<T>) -> Unmade {
        Unmade::OutOfMemory
    }
}

/// What a type answers that makes its values directly.
pub type Made<'v, 'n> = StdResult<NamedValue<'v, 'n>, Unmade>;

/// How many levels there may be inside a part, where there may be so many inside the whole.
#[inline(always)]
pub fn inside(room: usize) -> StdResult<usize, Unmade>
    ensures { IfOk result (λ levels. suc levels ≡ room) }
{
    room.checked_sub(1).ok_or(Unmade::ByCalls)
}

/// A number.
#[inline(always)]
pub(crate) fn made_number<'v, 'n>(number: Number) -> Made<'v, 'n>
    ensures { (room : ℕ) → Spelled room (call_then (event.number number) done) result }
{
    Ok(NamedValue::Number(number))
}

/// A text, of which a copy is made.
#[inline(always)]
pub fn made_text<'v, 'n>(alloc: Global, content: &str) -> Made<'v, 'n>
    ensures { (room : ℕ) → Spelled room (call_then (event.text content.now) done) result }
{
    Ok(NamedValue::String(CowStr::Owned(String::from_str(alloc, content)?)))
}

/// The text that the value prints.
pub(crate) fn made_printed<'v, 'n, T: Display>(alloc: Global, value: &T) -> Made<'v, 'n>
    ensures { (room : ℕ) (text : List ℕ) → T.output value.now ≡ Some text
        → Spelled room (call_then (event.text text) done) result }
{
    Ok(NamedValue::String(CowStr::Owned(format!(in alloc; "{value}")?)))
}

/// The struct or the variant of these names that holds this.
#[inline(always)]
pub fn made_of<'v, 'n>(alloc: Global, head: Head, inside: NamedData<'v, 'n>) -> Made<'v, 'n>
    ensures { IfOk result
        (λ made. tree_of made ≡ headed (head_of head) (tree_data_of inside.entry)) }
{
    match head {
        Head::Struct(name) => {
            let made = NamedStruct {
                name: CowStr::Borrowed(name),
                data: inside,
            };
            Ok(NamedValue::Struct(Box::new(alloc, made)?))
        }
        Head::Variant(name, variant_index, variant) => {
            let made = NamedEnum {
                name: CowStr::Borrowed(name),
                variant_index,
                variant: CowStr::Borrowed(variant),
                data: inside,
            };
            Ok(NamedValue::Enum(Box::new(alloc, made)?))
        }
    }
}

impl<'a> Call<'a> {
    /// The value that this call alone spells, made without it: a struct or a variant that holds
    /// nothing. Of other calls: `ByCalls`.
    ///
    /// # Errors
    ///
    /// `OutOfMemory`, where an allocation failed.
    #[inline(always)]
    pub fn direct<'v, 'n>(&self, alloc: Global, readable: bool, room: usize) -> Made<'v, 'n>
        ensures { Spelled room (only (event_of self.now) readable) result }
    {
        let _unused = (readable, room);
        match self {
            Call::UnitStruct(name) => made_of(alloc, Head::Struct(name), NamedData::Unit),
            Call::UnitVariant(name, index, variant) => {
                made_of(alloc, Head::Variant(name, *index, variant), NamedData::Unit)
            }
            _ => Err(Unmade::ByCalls),
        }
    }

    /// The value that this call and those of the value spell, made without them: a struct or a
    /// variant around one value. Of other calls: `ByCalls`.
    ///
    /// # Errors
    ///
    /// `OutOfMemory`, where an allocation failed. `ByCalls`, where the value says so, or there is
    /// no room for it.
    #[inline(always)]
    pub fn direct_around<'v, 'n, T: Serialize>(
        &self,
        value: &T,
        alloc: Global,
        readable: bool,
        room: usize,
    ) -> Made<'v, 'n>
        ensures { Spelled room (call_first (event_of self.now) (T.script value.now) readable) result }
    {
        match self {
            Call::NewtypeStruct(name) => {
                made_around(alloc, Head::Struct(name), value, readable, room)
            }
            Call::NewtypeVariant(name, index, variant) => {
                made_around(
                    alloc,
                    Head::Variant(name, *index, variant),
                    value,
                    readable,
                    room,
                )
            }
            _ => Err(Unmade::ByCalls),
        }
    }
}

/// The struct or the variant of these names around one value.
#[inline(always)]
fn made_around<'v, 'n, T: Serialize>(
    alloc: Global,
    head: Head,
    value: &T,
    readable: bool,
    room: usize,
) -> Made<'v, 'n>
    ensures { (c : Event) → token_of c ≡ wrap (in_head (head_of head))
        → Spelled room (call_first c (T.script value.now) readable) result }
{
    let held = value.direct(alloc, readable, inside(room)?)?;
    made_of(alloc, head, NamedData::NewType { value: held })
}
