//! Entries taken by name, in any order.

ghost use Rattle.std.specs.Prelude.{◌≡◌, ◌<◌, ◌++◌, ⊤, ℕ, Bool, List, [], Some, None, IsTrue};
ghost use Rattle.std.specs.Prelude.{IfOk, IfErr, IfSome, IfNone, IsOk, is_some, option_map};
ghost use Rattle.std.specs.Prelude.{length, map, slice_index_or};
ghost use Rattle.std.specs.List.{remove};
ghost use Rattle.std.specs.Map.{lookup, remove_entry};
ghost use Rattle.content_tree.specs.Errors.Kind.{IsOutOfMemory};
ghost use Rattle.content_tree.specs.Values.Text.{text_of};
ghost use Rattle.content_tree.specs.Values.Tree as tree;
ghost use Rattle.content_tree.specs.Values.Value.{tree_of, pair_tree};
ghost use Rattle.content_tree.specs.Values.Lookups.{is_text};
ghost use Rattle.content_de.specs.declared.map.Entries.TheVariants as entries;
ghost use Rattle.content_de.specs.Sources.Deserializer.{flags_of, subject};
ghost use Rattle.content_de.specs.Accesses.Map.{map_view, entries_under, entries_view, ArePairs};
ghost use Rattle.content_de.specs.Accesses.ByName.{by_name, entries_of, field_named, fields_left};
ghost use Rattle.content_de.specs.Accesses.ByName.{buffered_fields, ArePairsLeft, HoldsPairs};
ghost use Rattle.content_de.specs.Accesses.ByName.{without_field, rest_of, PassesFirst};
ghost use Rattle.content_de.specs.Accesses.ByName.{keyless_entry, field_entry};
ghost use Rattle.content_de.specs.Reads.Read.{Reads};
ghost use Rattle.content_de.specs.Reads.ByName.{first_other, no_others};

use crate::deserializer::Deserializer;
use crate::field_errors::{no_name, other_key, other_name};
use crate::left_fields::Fields;
use crate::map::{Entries, Map};
use crate::source::Flags;
use content_tree::{CowStr, NamedValue, Result};
use std::alloc::Global;
use std::collections::VecDeque;

/// The pairs of a map, or the fields of a struct or a variant.
#[derive(Drop)]
pub(crate) enum Left<'de, 'n> {
    /// The pairs of a map.
    Pairs(VecDeque<(NamedValue<'de, 'n>, NamedValue<'de, 'n>)>),
    /// The fields of a struct or a variant.
    Fields(VecDeque<(CowStr<'n>, NamedValue<'de, 'n>)>),
}

/// Gives out the entries of a map, a struct or a variant by name, in any order.
///
/// ```rust
/// let mut fields = Deserializer::new(value).deserialize_map(alloc)?.by_name();
/// let port: u16 = named_field(alloc, &mut fields, "port")?;
/// let host: Option<String> = field_or(alloc, &mut fields, "host", None)?;
/// deny_unknown_fields(alloc, fields, &["port", "host"])?;
/// ```
#[derive(Drop)]
pub struct FieldsByName<'de, 'n> {
    pub(crate) keyless: Option<NamedValue<'de, 'n>>,
    pub(crate) left: Left<'de, 'n>,
    pub(crate) flags: Flags,
}

impl<'de, 'n> Left<'de, 'n> {
    /// The value of the first entry of this name, taken away.
    #[inline(always)]
    fn take_first(&mut self, name: &str) -> Option<NamedValue<'de, 'n>>
        ensures value { option_map tree_of result
            ≡ lookup (is_text name.now) (entries_of self.old) }
        ensures rest { entries_of self.new ≡ remove_entry (is_text name.now) (entries_of self.old) }
        ensures pairs { HoldsPairs self.old → HoldsPairs self.new }
    {
        match self {
            Left::Pairs(pairs) => take_named(pairs, name),
            Left::Fields(fields) => take_named(fields, name),
        }
    }

    /// Whether an entry has this name.
    fn has(&self, name: &str) -> bool
        ensures { result ≡ is_some (lookup (is_text name.now) (entries_of self.now)) }
    {
        match self {
            Left::Pairs(pairs) => place_of(pairs, name).is_some(),
            Left::Fields(fields) => place_of(fields, name).is_some(),
        }
    }

    /// Whether no entry is left.
    #[inline(always)]
    fn is_empty(&self) -> bool
        ensures { IsTrue result → entries_of self.now ≡ [] }
    {
        match self {
            Left::Pairs(pairs) => pairs.is_empty(),
            Left::Fields(fields) => fields.is_empty(),
        }
    }

    /// All as pairs, after the value whose key was handed out, where there is one.
    fn into_pairs(
        self,
        alloc: Global,
        keyless: Option<NamedValue<'de, 'n>>,
    ) -> Result<Vec<(NamedValue<'de, 'n>, NamedValue<'de, 'n>)>>
    where
        'n: 'de,
        ensures value { IfOk result (λ ps. map pair_tree ps.items
            ≡ keyless_entry keyless.entry ++ entries_of self.entry) }
        ensures memory { IfErr result (λ e. IsOutOfMemory e) }
        ensures succeeds { keyless.entry ≡ None → HoldsPairs self.entry → IsOk result }
    {
        match self {
            Left::Pairs(pairs) => pairs_behind(keyless, pairs),
            Left::Fields(fields) => fields_behind(alloc, keyless, fields),
        }
    }

    /// The refusal of the first key that is left, which is taken away.
    fn end(&mut self, alloc: Global, known: &[&str]) -> Result<()>
        ensures value { Reads
            (first_other (map (λ name. name.now) known.now) (entries_of self.old))
            (λ u. ⊤) result }
        ensures succeeds { first_other (map (λ name. name.now) known.now) (entries_of self.old)
            ≡ None → IsOk result }
    {
        match self {
            Left::Pairs(pairs) => match pairs.pop_front() {
                Some((key, value)) => {
                    drop(value);
                    Err(other_key(alloc, key, known))
                }
                None => Ok(()),
            },
            Left::Fields(fields) => match fields.pop_front() {
                Some((name, value)) => {
                    drop(value);
                    Err(other_name(alloc, name.as_str(), known))
                }
                None => Ok(()),
            },
        }
    }
}

impl<'de, 'n> Map<'de, 'n> {
    /// Gives the entries that are left, to be taken by name: a pair whose key is a text has that
    /// name. It takes no memory.
    #[inline(always)]
    pub fn by_name(self) -> FieldsByName<'de, 'n>
        ensures value { fields_left result ≡ by_name (map_view self.entry) }
        ensures pairs { ArePairs self.entry.entries → ArePairsLeft result }
    {
        let Map {
            entries,
            key_taken,
            flags,
        } = self;
        match entries {
            Entries::Pairs(pairs) => FieldsByName {
                keyless: None,
                left: Left::Pairs(pairs),
                flags,
            },
            Entries::Fields(fields) => FieldsByName::of_fields(fields, key_taken, flags),
        }
    }
}

impl<'de, 'n> FieldsByName<'de, 'n> {
    /// Fields, of which the first key may have been handed out.
    #[inline(always)]
    fn of_fields(fields: Fields<'de, 'n>, key_taken: bool, flags: Flags) -> FieldsByName<'de, 'n>
        ensures { fields_left result ≡ by_name (entries_under (flags_of flags)
            (entries_view (entries.Fields fields.entry) key_taken)) }
    {
        let Fields { mut left, place: _ } = fields;
        if !key_taken {
            return FieldsByName {
                keyless: None,
                left: Left::Fields(left),
                flags,
            };
        }
        match left.pop_front() {
            Some((_name, value)) => FieldsByName {
                keyless: Some(value),
                left: Left::Fields(left),
                flags,
            },
            None => FieldsByName {
                keyless: None,
                left: Left::Fields(left),
                flags,
            },
        }
    }

    /// From here on the entries are read out of a [buffer](crate::Deserializer::buffered). It takes
    /// no memory.
    #[inline(always)]
    pub(crate) fn buffer(&mut self)
        ensures value { fields_left self.new ≡ buffered_fields (fields_left self.old) }
        ensures pairs { ArePairsLeft self.old → ArePairsLeft self.new }
    {
        self.flags = self.flags.buffering();
    }

    /// Whether an entry has this name.
    pub(crate) fn has(&self, name: &str) -> bool
        ensures { result ≡ is_some (field_named name.now (fields_left self.now)) }
    {
        self.left.has(name)
    }

    /// Whether no entry is left.
    #[inline(always)]
    pub(crate) fn is_empty(&self) -> bool
        ensures { IsTrue result → (fields_left self.now).entries ≡ [] }
    {
        self.keyless.is_none() && self.left.is_empty()
    }

    /// Gives the value of the first entry of this name, which is taken away, or none; the others
    /// stay in order. It takes no memory, and constant time where the entry is the first.
    #[inline(always)]
    pub fn take_named(&mut self, name: &str) -> Option<Deserializer<'de, 'n>>
        ensures value { option_map subject result ≡ field_named name.now (fields_left self.old) }
        ensures rest { fields_left self.new ≡ without_field name.now (fields_left self.old) }
        ensures pairs { ArePairsLeft self.old → ArePairsLeft self.new }
    {
        match self.left.take_first(name) {
            Some(value) => Some(Deserializer::inside(value, self.flags)),
            None => None,
        }
    }

    /// Gives what is left, to be read as a map: a field's name is a text there. It takes no memory
    /// where they are the pairs of a map.
    ///
    /// # Errors
    ///
    /// Out of memory, where an allocation failed.
    pub fn rest(self, alloc: Global) -> Result<Deserializer<'de, 'n>>
    where
        'n: 'de,
        ensures value { IfOk result (λ d. subject d ≡ rest_of (fields_left self.entry)) }
        ensures memory { IfErr result (λ e. IsOutOfMemory e) }
        ensures succeeds { ArePairsLeft self.entry → IsOk result }
    {
        let FieldsByName {
            keyless,
            left,
            flags,
        } = self;
        let pairs = left.into_pairs(alloc, keyless)?;
        Ok(Deserializer::inside(NamedValue::Map(pairs), flags))
    }

    /// The refusal of the first key that is left.
    pub(crate) fn end(self, alloc: Global, known: &[&str]) -> Result<()>
        ensures value { Reads
            (no_others (map (λ name. name.now) known.now) (fields_left self.entry))
            (λ u. ⊤) result }
        ensures succeeds { no_others (map (λ name. name.now) known.now) (fields_left self.entry)
            ≡ None → IsOk result }
    {
        let FieldsByName {
            keyless,
            mut left,
            flags: _,
        } = self;
        let answer = match keyless {
            Some(value) => {
                drop(value);
                Err(no_name(alloc, NamedValue::Unit))
            }
            None => left.end(alloc, known),
        };
        drop(left);
        answer
    }
}

/// A key that may be a text.
trait Key: Drop {
    /// Whether the key is this text.
    ghost is_text: { List ℕ → Self → Bool };

    /// Whether the key is this text.
    fn is(&self, name: &str) -> bool
        ensures { result ≡ is_text name.now self.now };
}

impl Key for CowStr<'_> {
    ghost is_text = { λ name key. is_text name (tree.text (text_of key)) };

    #[inline(always)]
    fn is(&self, name: &str) -> bool {
        self.as_str() == name
    }
}

impl Key for NamedValue<'_, '_> {
    ghost is_text = { λ name key. is_text name (tree_of key) };

    #[inline(always)]
    fn is(&self, name: &str) -> bool {
        match self {
            NamedValue::String(text) => text.as_str() == name,
            _ => false,
        }
    }
}

/// The value of the first entry whose key is this text, taken away.
#[inline(always)]
fn take_named<K: Key, V: Drop>(entries: &mut VecDeque<(K, V)>, name: &str) -> Option<V>
    ensures value { result ≡ lookup (K.is_text name.now) entries.old.items }
    ensures rest { entries.new.items ≡ remove_entry (K.is_text name.now) entries.old.items }
{
    match take_front(entries, name) {
        Some(value) => Some(value),
        None => take_later(entries, name),
    }
}

/// The value of the first entry, taken away where its key is this text.
#[inline(always)]
fn take_front<K: Key, V: Drop>(entries: &mut VecDeque<(K, V)>, name: &str) -> Option<V>
    ensures value { IfSome result (λ v. lookup (K.is_text name.now) entries.old.items ≡ Some v) }
    ensures others { IfSome result (λ v. entries.new.items
        ≡ remove_entry (K.is_text name.now) entries.old.items) }
    ensures kept { IfNone result (entries.new.items ≡ entries.old.items) }
{
    if !is_front(entries, name) {
        return None;
    }
    match entries.pop_front() {
        Some((_key, value)) => Some(value),
        None => None,
    }
}

/// Whether the key of the first entry is this text.
#[inline(always)]
fn is_front<K: Key, V>(entries: &VecDeque<(K, V)>, name: &str) -> bool
    ensures { IsTrue result → PassesFirst (K.is_text name.now) entries.now.items }
{
    match entries.front() {
        Some(entry) => entry.0.is(name),
        None => false,
    }
}

/// The value of the first entry whose key is this text, wherever it is, taken away.
#[tactic(auto, using(crate::proofs::Named::all_stay))]
fn take_later<K: Key, V: Drop>(entries: &mut VecDeque<(K, V)>, name: &str) -> Option<V>
    ensures value { result ≡ lookup (K.is_text name.now) entries.old.items }
    ensures rest { entries.new.items ≡ remove_entry (K.is_text name.now) entries.old.items }
{
    match place_of(entries, name) {
        Some(place) => second(entries.remove(place)),
        None => None,
    }
}

/// The place of the first entry whose key is this text.
#[tactic(auto, using(crate::proofs::Named::named))]
fn place_of<K: Key, V>(entries: &VecDeque<(K, V)>, name: &str) -> Option<usize>
    ensures there { is_some (lookup (K.is_text name.now) entries.now.items) ≡ is_some result }
    ensures none { IfNone result (lookup (K.is_text name.now) entries.now.items ≡ None) }
    ensures place { IfSome result (λ i. i < length entries.now.items) }
    ensures value { IfSome result (λ i. (d : K × V) → lookup (K.is_text name.now) entries.now.items
        ≡ Some (slice_index_or entries.now.items i d).1) }
    ensures others { IfSome result (λ i. remove_entry (K.is_text name.now) entries.now.items
        ≡ remove entries.now.items i) }
{
    let mut place = 0;
    while place < entries.len() {
        if entries[place].0.is(name) {
            return Some(place);
        }
        place += 1;
    }
    None
}

/// These pairs, after the value whose key was handed out, where there is one.
fn pairs_behind<'de, 'n>(
    keyless: Option<NamedValue<'de, 'n>>,
    pairs: VecDeque<(NamedValue<'de, 'n>, NamedValue<'de, 'n>)>,
) -> Result<Vec<(NamedValue<'de, 'n>, NamedValue<'de, 'n>)>>
    ensures value { IfOk result (λ ps. map pair_tree ps.items
        ≡ keyless_entry keyless.entry ++ map pair_tree pairs.entry.items) }
    ensures memory { IfErr result (λ e. IsOutOfMemory e) }
    ensures succeeds { keyless.entry ≡ None → IsOk result }
{
    let mut pairs = pairs;
    if let Some(value) = keyless {
        pairs.push_front((NamedValue::Unit, value))?;
    }
    Ok(pairs.into_vec())
}

/// These fields as pairs, each name a text, after that value.
fn fields_behind<'de, 'n: 'de>(
    alloc: Global,
    keyless: Option<NamedValue<'de, 'n>>,
    fields: VecDeque<(CowStr<'n>, NamedValue<'de, 'n>)>,
) -> Result<Vec<(NamedValue<'de, 'n>, NamedValue<'de, 'n>)>>
    ensures value { IfOk result (λ ps. map pair_tree ps.items
        ≡ keyless_entry keyless.entry ++ map field_entry fields.entry.items) }
    ensures memory { IfErr result (λ e. IsOutOfMemory e) }
{
    let mut fields = fields;
    let mut pairs = Vec::new(alloc);
    if let Some(value) = keyless {
        pairs.push((NamedValue::Unit, value))?;
    }
    while let Some((name, value)) = fields.pop_front() {
        pairs.push((NamedValue::String(name), value))?;
    }
    Ok(pairs)
}

/// The second of the two.
fn second<A: Drop, B: Drop>(both: Option<(A, B)>) -> Option<B>
    ensures { result ≡ option_map (λ b. b.1) both }
{
    match both {
        Some((_first, second)) => Some(second),
        None => None,
    }
}
