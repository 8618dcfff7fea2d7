//! The entries of a map, one after another.

ghost use Rattle.std.specs.Prelude.{◌≡◌, Some, IfErr, option_map, length, MatchResult, IsTrue};
ghost use Rattle.content_tree.specs.Values.Value.{pairs_view, fields_view};
ghost use Rattle.content_de.specs.Outcomes.{Answers};
ghost use Rattle.content_de.specs.Sources.Deserializer.{flags_of, subject};
ghost use Rattle.content_de.specs.Requests.Compounds.{entries_of_pairs, entries_of_fields};
ghost use Rattle.content_de.specs.Accesses.Map.{map_view, entries_under, first_key, first_value};
ghost use Rattle.content_de.specs.Accesses.Map.{first_entry, after_key, after_entry, ArePairs};
ghost use Rattle.content_de.specs.Reads.Own.{IsNamed};
ghost use Rattle.content_de.specs.Reads.Paths.{IsWhole};

use crate::deserializer::Deserializer;
use crate::left_fields::Fields;
use crate::refusal::custom;
use crate::source::Flags;
use content_tree::{CowStr, NamedValue, Result};
use std::alloc::Global;
use std::collections::VecDeque;
use std::mem;

/// The pairs of a map, or the fields of a struct or a variant.
#[derive(Drop)]
pub(crate) enum Entries<'de, 'n> {
    /// The pairs of a map.
    Pairs(VecDeque<(NamedValue<'de, 'n>, NamedValue<'de, 'n>)>),
    /// The fields of a struct or a variant.
    Fields(Fields<'de, 'n>),
}

/// Gives out the entries of a map, a struct or a variant, each a key and a value. They are moved
/// out one by one, each in constant time and without memory.
///
/// The key of a pair is any value. The key of a field is its name, which as a number is the field's
/// place.
#[derive(Drop)]
pub struct Map<'de, 'n> {
    pub(crate) entries: Entries<'de, 'n>,
    pub(crate) key_taken: bool,
    pub(crate) flags: Flags,
}

impl<'de, 'n> Map<'de, 'n> {
    /// The pairs of a map.
    pub(crate) fn pairs(
        pairs: Vec<(NamedValue<'de, 'n>, NamedValue<'de, 'n>)>,
        flags: Flags,
    ) -> Map<'de, 'n>
        ensures value { map_view result ≡ entries_under (flags_of flags)
            (entries_of_pairs (pairs_view pairs.entry.items)) }
        ensures pairs { ArePairs result.entries }
    {
        Map {
            entries: Entries::Pairs(VecDeque::from_vec(pairs)),
            key_taken: false,
            flags,
        }
    }

    /// The fields of a struct or a variant.
    pub(crate) fn fields(
        fields: Vec<(CowStr<'n>, NamedValue<'de, 'n>)>,
        flags: Flags,
    ) -> Map<'de, 'n>
        ensures { map_view result ≡ entries_under (flags_of flags)
            (entries_of_fields 0 (fields_view fields.entry.items)) }
    {
        Map {
            entries: Entries::Fields(Fields {
                left: VecDeque::from_vec(fields),
                place: 0,
            }),
            key_taken: false,
            flags,
        }
    }

    /// How many entries are left, exactly; one whose key was read counts. It takes no memory.
    #[tactic(auto, using(crate::proofs::Counts::count_pairs, crate::proofs::Counts::count_fields, crate::proofs::Counts::keyless))]
    pub fn size_hint(&self) -> Option<usize>
        ensures { result ≡ Some (length (map_view self.now).entries) }
    {
        match &self.entries {
            Entries::Pairs(pairs) => Some(pairs.len()),
            Entries::Fields(fields) => Some(fields.left.len()),
        }
    }

    /// Gives the key of the next entry, or none at the end. The entry stays, with the unit as its
    /// key. It takes no memory.
    pub fn next_key_deserializer(&mut self, _alloc: Global) -> Result<Option<Deserializer<'de, 'n>>>
        ensures value { MatchResult result
            (λ key. option_map subject key ≡ first_key (map_view self.old)) (λ e. ⊥) }
        ensures rest { map_view self.new ≡ after_key (map_view self.old) }
    {
        Ok(self.take_key())
    }

    /// The key of the next entry.
    pub(crate) fn take_key(&mut self) -> Option<Deserializer<'de, 'n>>
        ensures value { option_map subject result ≡ first_key (map_view self.old) }
        ensures rest { map_view self.new ≡ after_key (map_view self.old) }
    {
        match &mut self.entries {
            Entries::Pairs(pairs) => match pairs.front_mut() {
                Some(pair) => {
                    let key = mem::replace(&mut pair.0, NamedValue::Unit);
                    Some(Deserializer::inside(key, self.flags))
                }
                None => None,
            },
            Entries::Fields(fields) => match fields.left.front_mut() {
                Some(field) => {
                    if self.key_taken {
                        return Some(Deserializer::inside(NamedValue::Unit, self.flags));
                    }
                    self.key_taken = true;
                    let name = mem::replace(&mut field.0, CowStr::Borrowed(""));
                    Some(Deserializer::identifier(name, fields.place, self.flags))
                }
                None => None,
            },
        }
    }

    /// Whether the key of the next entry is a text, and this one. A key that was handed out is
    /// none.
    pub(crate) fn next_is_named(&self, name: &str) -> bool
        ensures { IsTrue result → IsNamed name.now (first_entry (map_view self.now)) }
    {
        match &self.entries {
            Entries::Fields(fields) => match fields.left.front() {
                Some(field) => !self.key_taken && field.0.as_str() == name,
                None => false,
            },
            Entries::Pairs(pairs) => match pairs.front() {
                Some((NamedValue::String(text), _)) => text.as_str() == name,
                _ => false,
            },
        }
    }

    /// The value of the next entry.
    #[inline(always)]
    pub(crate) fn take_value(&mut self) -> Option<Deserializer<'de, 'n>>
        ensures value { option_map subject result
            ≡ option_map (λ e. e.1) (first_entry (map_view self.old)) }
        ensures rest { map_view self.new ≡ after_entry (map_view self.old) }
    {
        let value = match &mut self.entries {
            Entries::Pairs(pairs) => match pairs.pop_front() {
                Some((_, value)) => value,
                None => return None,
            },
            Entries::Fields(fields) => match fields.left.pop_front() {
                Some((_, value)) => {
                    fields.place += 1;
                    value
                }
                None => return None,
            },
        };
        self.key_taken = false;
        Some(Deserializer::inside(value, self.flags))
    }

    /// The key and the value of the next entry.
    #[inline(always)]
    pub(crate) fn take_entry(&mut self) -> Option<(Deserializer<'de, 'n>, Deserializer<'de, 'n>)>
        ensures value { option_map (λ e. (subject e.0, subject e.1)) result
            ≡ first_entry (map_view self.old) }
        ensures rest { map_view self.new ≡ after_entry (map_view self.old) }
    {
        let (key, value) = match &mut self.entries {
            Entries::Pairs(pairs) => match pairs.pop_front() {
                Some((key, value)) => (Deserializer::inside(key, self.flags), value),
                None => return None,
            },
            Entries::Fields(fields) => match fields.left.pop_front() {
                Some((name, value)) => {
                    let place = fields.place;
                    fields.place += 1;
                    if self.key_taken {
                        (Deserializer::inside(NamedValue::Unit, self.flags), value)
                    } else {
                        (Deserializer::identifier(name, place, self.flags), value)
                    }
                }
                None => return None,
            },
        };
        self.key_taken = false;
        Some((key, Deserializer::inside(value, self.flags)))
    }

    /// Gives the value of the next entry, which is taken away whether or not its key was read. It
    /// takes no memory.
    ///
    /// # Errors
    ///
    /// At the end: `Custom` with the text `[BUG] value is missing`; out of memory in its place.
    pub fn next_value_deserializer(&mut self, alloc: Global) -> Result<Deserializer<'de, 'n>>
        ensures value { Answers subject (first_value (map_view self.old)) result }
        ensures path { IfErr result (λ e. IsWhole e) }
        ensures rest { map_view self.new ≡ after_entry (map_view self.old) }
    {
        match self.take_value() {
            Some(value) => Ok(value),
            None => Err(custom(alloc, "[BUG] value is missing")),
        }
    }

    /// Gives the key and the value of the next entry, which is taken away, or none at the end. It
    /// takes no memory.
    pub fn next_entry_deserializers(
        &mut self,
        _alloc: Global,
    ) -> Result<Option<(Deserializer<'de, 'n>, Deserializer<'de, 'n>)>>
        ensures value { MatchResult result
            (λ entry. option_map (λ e. (subject e.0, subject e.1)) entry
            ≡ first_entry (map_view self.old)) (λ e. ⊥) }
        ensures rest { map_view self.new ≡ after_entry (map_view self.old) }
    {
        Ok(self.take_entry())
    }
}
