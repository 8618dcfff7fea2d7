//! Records of any type, kept as values and read as types.

ghost use Rattle.std.specs.Prelude.{◌≡◌, ◌≤◌, [], false, Some, None, length, slice_get};
ghost use Rattle.std.specs.Prelude.{IfOk, IfErr, OnOk, List, option_map};
ghost use Rattle.serde_content.specs.Names.Words.{items_in, trees_of, trees_view};
ghost use Rattle.serde_content.specs.Names.Words.{Tree, IsOutOfMemory};
ghost use Rattle.serde_content.specs.Names.Words.{stop_of, tree_of, Reads, no_flags, tree_under};
ghost use Rattle.content_uses.specs.Records.{records_of, IsPut, IsRefusalOf, IsUnknown};

use crate::load_error::LoadError;
use content_cbor::{decode, encode_array};
use serde_content::de::Deserialize;
use serde_content::ser::Serialize;
use serde_content::{Deserializer, Error, NamedValue, Result, to_value};
use std::alloc::Global;
use std::result::Result as StdResult;

/// Keeps records of any type, numbered from 0 in the order in which they were put.
///
/// ```rust
/// let mut store = Store::new(alloc);
/// let number = store.put(alloc, &Point { x: 1, y: 2 })?;
/// let point: Point = store.get(alloc, number)?;
/// assert!(rt; point == Point { x: 1, y: 2 });
/// ```
///
/// They are saved as CBOR, which keeps no kind of a number: [`get_coerced`](Store::get_coerced)
/// reads what was loaded. What else CBOR didn't keep is then refused, or another value.
///
/// ```rust
/// let bytes = store.save(alloc)?;
/// let loaded = Store::load(alloc, &bytes, 64)?;
/// let point: Point = loaded.get_coerced(alloc, number)?;
/// ```
#[derive(Drop)]
pub struct Store<'v, 'n> {
    records: Vec<NamedValue<'v, 'n>>,
}

impl<'v, 'n: 'v> Store<'v, 'n> {
    ghost use Rattle.content_uses.specs.Saved.{array_of};
    ghost use Rattle.content_cbor.specs.Decoded.{as_read};
    ghost use Rattle.content_cbor.specs.Form.{CodesForm, EachFits};
    ghost use Rattle.content_cbor.specs.Item.{item};

    /// A store of no records. It takes no memory.
    pub fn new(alloc: Global) -> Store<'v, 'n>
        ensures { records_of result ≡ [] }
    {
        Store {
            records: Vec::new(alloc),
        }
    }

    /// How many records there are.
    pub fn len(&self) -> usize
        ensures { result ≡ length (records_of self.now) }
    {
        self.records.len()
    }

    /// Puts a record at the end, and gives its number. Where it fails the store is unchanged.
    ///
    /// # Errors
    ///
    /// Those of [`to_value`]: the record's own, or out of memory.
    pub fn put<T: Serialize>(&mut self, alloc: Global, item: &T) -> Result<usize>
        ensures put { IfOk result (λ number. IsPut (T.script item.now false)
            (records_of self.old) (records_of self.new) number) }
        ensures refused { IfErr result (λ e. IsRefusalOf (T.script item.now false) e) }
        ensures memory { stop_of (T.script item.now false) ≡ None
            → IfErr result (λ e. IsOutOfMemory e) }
        ensures kept { IfErr result (λ e. records_of self.new ≡ records_of self.old) }
    {
        let value = to_value(alloc, item, false)?;
        let number = self.records.len();
        self.records.push(value)?;
        Ok(number)
    }

    /// Reads a copy of the record of this number as a type. What the type doesn't take is refused
    /// as the type refuses it; no request compares names of types. Of a record that was put as this
    /// type it gives an equal value, if the type is [`RoundTrip`](serde_content::RoundTrip)
    /// ([proved](crate::laws::put_is_got)).
    ///
    /// # Errors
    ///
    /// The type's refusal; `no such record`; out of memory.
    pub fn get<T: Deserialize<'v>>(&self, alloc: Global, number: usize) -> Result<T>
        ensures value { (t : Tree) → slice_get (records_of self.now) number ≡ Some t
            → Reads (T.refusal (tree_under no_flags t)) (T.gives (tree_under no_flags t))
            result }
        ensures unknown { slice_get (records_of self.now) number ≡ None → IsUnknown result }
    {
        let copy = self.copy(alloc, number)?;
        Deserializer::new(copy).deserialize(alloc)
    }

    /// Reads the record as [`get`](Store::get) does, and takes numbers of another kind too if they
    /// are in range: so records are read that were loaded, since CBOR keeps no kind of a number. Of
    /// a record that was put as this type, before the store was saved or since it was loaded, it
    /// gives an equal value, if the type is [`CborRoundTrip`](content_cbor::CborRoundTrip)
    /// ([proved](crate::laws::loaded_is_got)).
    ///
    /// # Errors
    ///
    /// Those of [`get`](Store::get).
    pub fn get_coerced<T: Deserialize<'v>>(&self, alloc: Global, number: usize) -> Result<T>
        ensures value { (t : Tree) → slice_get (records_of self.now) number ≡ Some t
            → Reads (T.refusal (as_read t)) (T.gives (as_read t)) result }
        ensures unknown { slice_get (records_of self.now) number ≡ None → IsUnknown result }
    {
        let copy = self.copy(alloc, number)?;
        Deserializer::new(copy).coerce_numbers().deserialize(alloc)
    }

    /// Encodes the records as one array of CBOR, in order. It takes memory for the bytes alone.
    ///
    /// # Errors
    ///
    /// Out of memory.
    pub fn save(&self, alloc: Global) -> Result<Vec<u8>>
        ensures value { IfOk result (λ bytes. bytes.items
            ≡ item (array_of (records_of self.now))) }
        // so they are loaded as what CBOR keeps of them
        ensures form { IfOk result (λ bytes. CodesForm (array_of (records_of self.now))
            bytes.items) }
        ensures fits { OnOk result (EachFits (trees_of (records_of self.now))) }
        ensures memory { IfErr result (λ e. IsOutOfMemory e) }
    {
        encode_array(alloc, &self.records)
    }

    /// A copy of the value of this number.
    fn copy(&self, alloc: Global, number: usize) -> Result<NamedValue<'v, 'n>>
        ensures value { (t : Tree) → slice_get (records_of self.now) number ≡ Some t
            → IfOk result (λ copy. tree_of copy ≡ t) }
        ensures memory { (t : Tree) → slice_get (records_of self.now) number ≡ Some t
            → IfErr result (λ e. IsOutOfMemory e) }
        ensures unknown { slice_get (records_of self.now) number ≡ None → IsUnknown result }
    {
        match self.records.get(number) {
            Some(record) => record.try_clone(alloc),
            None => Err(Error::custom(alloc, "no such record")),
        }
    }
}

impl<'v> Store<'v, 'static> {
    ghost use Rattle.content_cbor.specs.Codes.{Codes};
    ghost use Rattle.content_cbor.specs.Form.{CodesForm, depth, form};
    ghost use Rattle.content_uses.specs.Saved.{array_of, forms, IsLoadedAs, StopsLoading};

    /// Makes a store of the records that one array of CBOR codes, in order, as [`decode`] reads
    /// each.
    ///
    /// `depth_limit` bounds how deep items nest, and so the stack that is taken; the array's own
    /// depth is 1. Texts and bytes of a known length are borrowed from the bytes.
    ///
    /// # Errors
    ///
    /// Where the bytes can't be decoded, with the place; where they code no array; out of memory.
    pub fn load(
        alloc: Global,
        bytes: &'v [u8],
        depth_limit: usize,
    ) -> StdResult<Store<'v, 'static>, LoadError>
        ensures value { IfOk result (λ store. Codes depth_limit (array_of (records_of store))
            bytes.now) }
        ensures only { (ts : List Tree) → Codes depth_limit (array_of ts) bytes.now
            → IsLoadedAs ts result }
        // where a store of these records saved the bytes: what CBOR keeps of each
        ensures saved { (ts : List Tree) → depth (form (array_of ts)) ≤ depth_limit
            → CodesForm (array_of ts) bytes.now → IsLoadedAs (forms ts) result }
        ensures refused { IfErr result (λ e. StopsLoading depth_limit bytes.now e) }
    {
        let value = decode(alloc, bytes, depth_limit)?;
        match into_items(value) {
            Some(records) => Ok(Store { records }),
            None => Err(LoadError::NotArray),
        }
    }
}

/// The items of a sequence, moved out of it.
fn into_items<'v, 'n>(value: NamedValue<'v, 'n>) -> Option<Vec<NamedValue<'v, 'n>>>
    ensures { option_map (λ items. trees_view items.items) result ≡ items_in (tree_of value.entry) }
{
    match value {
        NamedValue::Seq(items) => Some(items),
        _ => None,
    }
}
