//! What holds of all data items, for those who prove something of what they encode and decode, and
//! what is written and read back.

ghost use Rattle.std.specs.Prelude.{◌≡◌, ◌≤◌, ◌<◌, true, false, IfOk, IfErr, IsErrAnd};
ghost use Rattle.content_tree.specs.Errors.Kind.{IsOutOfMemory};
ghost use Rattle.content_tree.specs.Values.Tree.{Tree};
ghost use Rattle.content_ser.specs.Grammar.Spells.{SpellsWhole};
ghost use Rattle.content_ser.specs.Scripts.Script.{calls_of};
ghost use Rattle.content_cbor.specs.Decoded.{IsFaultOf};
ghost use Rattle.content_cbor.specs.Form.{depth, form};
ghost use Rattle.content_cbor.specs.Item.{item};
ghost use Rattle.content_cbor.specs.Laws.{DeeperFrontGoesFurther, DeeperGoesFurther};
ghost use Rattle.content_cbor.specs.Laws.{FaultsFitBytes, FaultsFitFronts, FittingTreesAreTaken};
ghost use Rattle.content_cbor.specs.Laws.{FormsHaveItems, FormsKeepLimits, FormsStay};
ghost use Rattle.content_cbor.specs.Laws.{FrontFaultsFitBytes, FrontFaultsFitFronts};
ghost use Rattle.content_cbor.specs.Laws.{HeadsAreShort, ItemsCodeForms, LimitsAreKept};
ghost use Rattle.content_cbor.specs.Laws.{LimitsWiden, MalformedBeginsNothing};
ghost use Rattle.content_cbor.specs.Laws.{MalformedFrontBeginsNothing, OneTree};
ghost use Rattle.content_cbor.specs.Laws.{OnlyDepthIsLimited, OnlyFrontDepthIsLimited};
ghost use Rattle.content_cbor.specs.Laws.{OtherFrontsBeginItems, OthersBeginItems};
ghost use Rattle.content_cbor.specs.Laws.{WholeTreesAreEncoded};

use crate::encoding::to_bytes;
use crate::round_trip::{CborRoundTrip, read_back};
use content_tree::Result;
use std::alloc::Global;

/// No bytes code two trees.
pub fn one_tree()
    ensures { OneTree }
{}

/// The item of a tree codes the tree's form, within each limit that the form keeps, where texts are
/// UTF-8, lengths have room in 64 bits and numbers lie in the ranges of their kinds, as those of any
/// value do: so [`encode`](crate::encode) says it without that premise.
pub fn items_code_forms()
    ensures { ItemsCodeForms }
{}

/// Bytes code a tree only within limits that it keeps, so what is deeper is refused; and what they
/// code within a limit they code within each greater one. The form of what they code keeps the
/// limit too: so what was decoded and is encoded again is decoded within the same limit.
pub fn limits_are_kept()
    ensures kept { LimitsAreKept }
    ensures form { FormsKeepLimits }
    ensures widened { LimitsWiden }
{}

/// Where [`decode`](crate::decode) or [`decode_prefix`](crate::decode_prefix) refuses bytes with a
/// fault that [`is_malformed`](crate::Fault::is_malformed), no bytes after those up to and with the
/// place make them a well-formed item: of any kind, with any tag, however deep.
pub fn malformed_begins_nothing()
    ensures whole { MalformedBeginsNothing }
    ensures front { MalformedFrontBeginsNothing }
{}

/// Where `decode` or `decode_prefix` refuses bytes with another fault, some bytes after those up to
/// and with the place make them a well-formed item: they were cut off, or the item isn't valid or
/// isn't supported. So the fault of `5f f9` is `WrongChunk` and not `Float`: no bytes after these
/// make a well-formed item.
pub fn others_begin_items()
    ensures whole { OthersBeginItems }
    ensures front { OtherFrontsBeginItems }
{}

/// The fault with which `decode` or `decode_prefix` refuses bytes fits the byte at the place,
/// whatever was read before it: `Reserved` a first byte without a meaning, `Break` `ff`, `Float`
/// `f9` to `fb`, `Simple` `e0` to `f3`, `f7` and `f8`, `WrongChunk` and `WrongKind` one that begins
/// an item. It is `Ended` exactly where no byte is there.
///
/// The bytes up to that byte, and with it, fit too. At `Tag` they end in the head of a tag, at
/// `WrongKind` with the first byte under tag 2 or 3, at `TooWide` in the bytes under one, at
/// `TooDeep` with the first byte of an item or in the head of an array or a map, at `NotUtf8` in a
/// text, after its head.
pub fn faults_fit_bytes()
    ensures whole { FaultsFitBytes }
    ensures front { FrontFaultsFitBytes }
    ensures whole_before { FaultsFitFronts }
    ensures front_before { FrontFaultsFitFronts }
{}

/// Within a greater limit `decode` and `decode_prefix` refuse bytes with the same fault at the same
/// place, unless it was `TooDeep`: so a greater limit helps at no other fault.
pub fn only_depth_is_limited()
    ensures whole { OnlyDepthIsLimited }
    ensures front { OnlyFrontDepthIsLimited }
{}

/// At `TooDeep` a limit greater by 2 or more goes further: `decode` and `decode_prefix` take the
/// bytes within it, or refuse them at a later place. One level more may not be enough: `81 00`, an
/// array of one item, is refused at its first byte within 0, as too deep itself, and within 1, as
/// its item would be.
pub fn deeper_goes_further()
    ensures whole { DeeperGoesFurther }
    ensures front { DeeperFrontGoesFurther }
{}

/// No head is shorter than the one that is written.
pub fn heads_are_short()
    ensures { HeadsAreShort }
{}

/// A form is its own form, and has the item of its tree: so a form that is encoded is decoded as
/// itself, and what was decoded is encoded as the same bytes each time.
pub fn forms_stay()
    ensures form { FormsStay }
    ensures item { FormsHaveItems }
{}

/// The calls of a whole tree, all taken by an [`Encoder`](crate::Encoder), leave the tree's item,
/// which codes the tree's form.
pub fn whole_trees_are_encoded()
    ensures { WholeTreesAreEncoded }
{}

/// An [`Encoder`](crate::Encoder) takes all calls of a tree, if they tell the true lengths, come
/// with one entry for each pair, and the tree fits as that of any value does. They leave its item.
pub fn fitting_trees_are_taken()
    ensures { FittingTreesAreTaken }
{}

/// Writes a value, reads it back, and answers an equal one. `bytes` is room for what is written; no
/// clause says what it holds afterwards.
///
/// # Errors
///
/// Where the value's item is deeper than the limit, that of [`from_bytes`](crate::from_bytes); out
/// of memory.
///
/// ```rust
/// let mut room = Vec::new(alloc);
/// let list = vec![in alloc; Some(true), None]?;
/// assert!(rt; write_and_read_back(alloc, &list, &mut room, 2)? == list);
/// ```
pub fn write_and_read_back<'de, T: CborRoundTrip<'de>>(
    alloc: Global,
    value: &T,
    bytes: &'de mut Vec<u8>,
    depth_limit: usize,
) -> Result<T>
    ensures value { (t : Tree) → SpellsWhole (calls_of (T.script value.now false)) t
        → depth (form t) ≤ depth_limit → IfOk result (λ back. T.eq value.now back ≡ true) }
    ensures memory { (t : Tree) → SpellsWhole (calls_of (T.script value.now false)) t
        → depth (form t) ≤ depth_limit → IfErr result (λ e. IsOutOfMemory e) }
    ensures refused { (t : Tree) → SpellsWhole (calls_of (T.script value.now false)) t
        → depth_limit < depth (form t)
        → IsErrAnd result (λ e. IsFaultOf depth_limit (item t) e) }
{
    value.known();
    *bytes = to_bytes(alloc, value)?;
    read_back(alloc, bytes, depth_limit)
}
