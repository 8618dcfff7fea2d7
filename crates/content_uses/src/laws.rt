//! What is put, saved and loaded comes back, and what holds of every merge.

ghost use Rattle.std.specs.Prelude.{◌≡◌, ◌≤◌, ◌<◌, true, false, Some, None, slice_get};
ghost use Rattle.std.specs.Prelude.{IfOk, IfErr, IsErr};
ghost use Rattle.serde_content.specs.Names.Words.{Tree, IsOutOfMemory, SpellsWhole, calls_of};
ghost use Rattle.serde_content.specs.Names.Words.{Reads, no_flags, tree_under};
ghost use Rattle.content_cbor.specs.Decoded.{as_read};
ghost use Rattle.content_cbor.specs.Form.{depth, form};
ghost use Rattle.content_cbor.specs.Item as cbor;
ghost use Rattle.content_uses.specs.MergingLaws.{EmptyChangesNothing, OtherSortWins, KeysFind};
ghost use Rattle.content_uses.specs.MergingLaws.{EitherWay, OrderMatters, NameMatters};
ghost use Rattle.content_uses.specs.MergingLaws.{TwiceBetweenMatters, TwiceMatters};
ghost use Rattle.content_uses.specs.Records.{records_of, IsLast, IsUnknown, MayBeLast};
ghost use Rattle.content_uses.specs.Saved.{array_of, IsLoadedOf, IsNoMemory, SavedAgain};
ghost use Rattle.content_uses.specs.Saved.{StopsLoading};

use crate::load_error::LoadError;
use crate::store::Store;
use content_cbor::laws::forms_stay;
use content_cbor::{CborRoundTrip, DecodeError};
use serde_content::{Result, RoundTrip};
use std::alloc::Global;
use std::result::Result as StdResult;

/// What [`get`](Store::get) gives of a record that was put as this type: an equal value.
///
/// # Errors
///
/// Those of `get`; where it was put as this type out of memory alone.
pub fn put_is_got<'v, 'n: 'v, T: RoundTrip<'v>>(
    alloc: Global,
    store: &Store<'v, 'n>,
    number: usize,
) -> Result<T>
    ensures read { (t : Tree) → slice_get (records_of store.now) number ≡ Some t
        → Reads (T.refusal (tree_under no_flags t)) (T.gives (tree_under no_flags t)) result }
    // where it is what was put as x
    ensures value { (x : T) (t : Tree) → T.exists x
        → slice_get (records_of store.now) number ≡ Some t
        → SpellsWhole (calls_of (T.script x false)) t → IfOk result (λ y. T.eq x y ≡ true) }
    ensures memory { (x : T) (t : Tree) → T.exists x
        → slice_get (records_of store.now) number ≡ Some t
        → SpellsWhole (calls_of (T.script x false)) t → IfErr result (λ e. IsOutOfMemory e) }
    ensures unknown { slice_get (records_of store.now) number ≡ None → IsUnknown result }
{
    store.get(alloc, number)
}

/// Puts a value and gets it: what comes is equal to what was put, at any type whose values come
/// back. Where it fails it may have been put.
///
/// # Errors
///
/// Out of memory.
pub fn put_and_get<'v, 'n: 'v, T: RoundTrip<'v>>(
    alloc: Global,
    store: &mut Store<'v, 'n>,
    item: &T,
) -> Result<T>
    ensures value { IfOk result (λ back. T.eq item.now back ≡ true) }
    ensures memory { IfErr result (λ e. IsOutOfMemory e) }
    ensures put { IfOk result (λ back. IsLast (T.script item.now false) (records_of store.old)
        (records_of store.new)) }
    ensures kept { IfErr result (λ e. MayBeLast (T.script item.now false) (records_of store.old)
        (records_of store.new)) }
{
    item.known();
    let number = store.put(alloc, item)?;
    put_is_got(alloc, store, number)
}

/// What [`get_coerced`](Store::get_coerced) gives of a record that was put as this type, before the
/// store was saved or since it was loaded: an equal value.
///
/// # Errors
///
/// Those of `get_coerced`; where it was put as this type out of memory alone.
pub fn loaded_is_got<'v, 'n: 'v, T: CborRoundTrip<'v>>(
    alloc: Global,
    store: &Store<'v, 'n>,
    number: usize,
) -> Result<T>
    ensures read { (t : Tree) → slice_get (records_of store.now) number ≡ Some t
        → Reads (T.refusal (as_read t)) (T.gives (as_read t)) result }
    // where it is what was put as x, or what CBOR keeps of that
    ensures value { (x : T) (t : Tree) → T.exists x
        → slice_get (records_of store.now) number ≡ Some t
        → IsLoadedOf (T.script x false) t → IfOk result (λ y. T.eq x y ≡ true) }
    ensures memory { (x : T) (t : Tree) → T.exists x
        → slice_get (records_of store.now) number ≡ Some t
        → IsLoadedOf (T.script x false) t → IfErr result (λ e. IsOutOfMemory e) }
    ensures unknown { slice_get (records_of store.now) number ≡ None → IsUnknown result }
{
    store.get_coerced(alloc, number)
}

/// Puts a value, saves and loads its store, and gets it: what comes is equal to what was put, at
/// any type whose values come back from CBOR. `bytes` is room for what is saved; no clause
/// says what it holds afterwards. Where it fails it may have been put.
///
/// # Errors
///
/// Where an item is deeper than the limit; out of memory.
pub fn put_and_reload<'v, 'a, 'n: 'a, T: CborRoundTrip<'v>>(
    alloc: Global,
    store: &mut Store<'a, 'n>,
    item: &T,
    bytes: &'v mut Vec<u8>,
    depth_limit: usize,
) -> StdResult<T, LoadError>
    ensures value { depth (form (array_of (records_of store.new))) ≤ depth_limit
        → IfOk result (λ back. T.eq item.now back ≡ true) }
    ensures memory { depth (form (array_of (records_of store.new))) ≤ depth_limit
        → IfErr result (λ e. IsNoMemory e) }
    ensures refused { depth_limit < depth (form (array_of (records_of store.new))) → IsErr result }
    ensures fault { IfErr result (λ e. StopsLoading depth_limit
        (cbor.item (array_of (records_of store.new))) e) }
    ensures put { IfOk result (λ back. IsLast (T.script item.now false) (records_of store.old)
        (records_of store.new)) }
    ensures kept { IfErr result (λ e. MayBeLast (T.script item.now false) (records_of store.old)
        (records_of store.new)) }
{
    item.known();
    let Ok(number) = store.put(alloc, item) else {
        return Err(LoadError::Decode(DecodeError::OutOfMemory));
    };
    let Ok(saved) = store.save(alloc) else {
        return Err(LoadError::Decode(DecodeError::OutOfMemory));
    };
    *bytes = saved;
    let loaded = Store::load(alloc, bytes, depth_limit)?;
    match loaded_is_got(alloc, &loaded, number) {
        Ok(back) => Ok(back),
        Err(_) => Err(LoadError::Decode(DecodeError::OutOfMemory)),
    }
}

/// What CBOR keeps of records is saved as the same bytes as they are.
pub fn saved_again()
    ensures { SavedAgain }
{
    forms_stay();
}

/// Saves a store, loads it and saves that: both times the same bytes.
///
/// # Errors
///
/// Where an item is deeper than the limit; out of memory.
pub fn save_twice<'v, 'n: 'v>(
    alloc: Global,
    store: &Store<'v, 'n>,
    depth_limit: usize,
) -> StdResult<(Vec<u8>, Vec<u8>), LoadError>
    ensures first { IfOk result (λ saved. saved.0.items
        ≡ cbor.item (array_of (records_of store.now))) }
    ensures same { depth (form (array_of (records_of store.now))) ≤ depth_limit
        → IfOk result (λ saved. saved.1.items ≡ saved.0.items) }
    ensures memory { depth (form (array_of (records_of store.now))) ≤ depth_limit
        → IfErr result (λ e. IsNoMemory e) }
    ensures refused { depth_limit < depth (form (array_of (records_of store.now)))
        → IsErr result }
    ensures fault { IfErr result (λ e. StopsLoading depth_limit
        (cbor.item (array_of (records_of store.now))) e) }
{
    saved_again();
    let Ok(first) = store.save(alloc) else {
        return Err(LoadError::Decode(DecodeError::OutOfMemory));
    };
    let loaded = Store::load(alloc, &first, depth_limit)?;
    let second = loaded.save(alloc);
    drop(loaded);
    match second {
        Ok(second) => Ok((first, second)),
        Err(_) => Err(LoadError::Decode(DecodeError::OutOfMemory)),
    }
}

/// The laws of merging. Two values are of one sort where both are maps, or structs of one name that
/// have a list of fields, be it empty. What has no keys changes nothing of its sort that it is put
/// over; what is of another sort wins whole; each key finds what its values, put over one another,
/// come to.
///
/// Of three values it doesn't matter which two are merged first, under two premises: no map or
/// struct in the two that are put over, however deep, has a key twice, and where both outer ones
/// are of one sort along a path of keys, the middle one is too, or has nothing there. Otherwise it
/// may matter, as an example of each shows: something that is no map between two maps; a struct of
/// another name between two of one; a key that is there twice, in what is put over or in the
/// middle.
pub fn merging_laws()
    ensures empty { EmptyChangesNothing }
    ensures whole { OtherSortWins }
    ensures found { KeysFind }
    ensures either_way { EitherWay }
    ensures order { OrderMatters }
    ensures name { NameMatters }
    ensures twice { TwiceMatters }
    ensures twice_between { TwiceBetweenMatters }
{}
