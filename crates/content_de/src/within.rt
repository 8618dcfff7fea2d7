//! Reads what something contains, and adds its place to the path of a refusal.

ghost use Rattle.std.specs.Prelude.{◌≡◌, ◌≢◌, List, None, Option, Some, IfErr, IfOk, IsErrAnd, IsOk, MatchResult, string_bytes};
ghost use Rattle.std.specs.Fmt.{signed_decimal};
ghost use Rattle.content_tree.specs.Errors.Where.{places, IsInside, item, under, Place};
ghost use Rattle.content_tree.specs.Values.Ranges.{number_value};
ghost use Rattle.content_tree.specs.Errors.Cause.{out_of_memory};
ghost use Rattle.content_de.specs.Outcomes.{cause};
ghost use Rattle.content_de.specs.Sources.Deserializer.{subject};
ghost use Rattle.content_de.specs.Reads.Access.{entry_refusal, EntryGives, EntryMemoryless};
ghost use Rattle.content_de.specs.Reads.Paths.{BeginsWith, IsAtEntry, IsUnderKey, IsWhole};
ghost use Rattle.content_de.specs.Reads.Read.{Reads, first_of};

use crate::deserialize::Deserialize;
use crate::deserializer::Deserializer;
use crate::source::Source;
use content_tree::{Error, NamedValue, Number, Result};
use std::alloc::{AllocError, Global};

impl<'de, 'n> Deserializer<'de, 'n> {
    /// Reads a value of this type, which is the item of this index of a sequence, a tuple or the
    /// like: the [path](Error::path) of a refusal begins with the index. Only the type and a
    /// refusal take memory.
    ///
    /// # Errors
    ///
    /// That of the type's first refusal, in reading order; out of memory in its place.
    #[inline(always)]
    pub fn deserialize_item<T: Deserialize<'de>>(self, alloc: Global, index: usize) -> Result<T>
    where
        'n: 'de,
        ensures value { Reads (T.refusal (subject self.entry)) (T.gives (subject self.entry))
            result }
        ensures succeeds { T.memoryless (subject self.entry) → IsOk result }
        ensures path { IfErr result (λ e. BeginsWith (item index) e) }
    {
        match T::deserialize(alloc, self) {
            Ok(value) => Ok(value),
            Err(error) => refused_at(alloc, error, index),
        }
    }

    /// Reads a value of this type, which is the field of this name, or what the variant of this
    /// name holds: the [path](Error::path) of a refusal begins with the name. Only the type and a
    /// refusal take memory.
    ///
    /// # Errors
    ///
    /// That of the type's first refusal, in reading order; out of memory in its place.
    #[inline(always)]
    pub fn deserialize_field<T: Deserialize<'de>>(self, alloc: Global, name: &str) -> Result<T>
    where
        'n: 'de,
        ensures value { Reads (T.refusal (subject self.entry)) (T.gives (subject self.entry))
            result }
        ensures succeeds { T.memoryless (subject self.entry) → IsOk result }
        ensures path { IfErr result (λ e. BeginsWith (under name.now) e) }
    {
        match T::deserialize(alloc, self) {
            Ok(value) => Ok(value),
            Err(error) => refused_under(alloc, error, name),
        }
    }

    /// Reads a value of this type that a path can't name, such as a key: the path of a refusal is
    /// that of what contains the value. Only the type takes memory.
    ///
    /// # Errors
    ///
    /// That of the type's first refusal, in reading order; out of memory in its place.
    #[inline(always)]
    pub fn deserialize_unplaced<K: Deserialize<'de>>(self, alloc: Global) -> Result<K>
    where
        'n: 'de,
        ensures value { Reads (K.refusal (subject self.entry)) (K.gives (subject self.entry))
            result }
        ensures succeeds { K.memoryless (subject self.entry) → IsOk result }
        ensures path { IfErr result (λ e. IsWhole e) }
    {
        match K::deserialize(alloc, self) {
            Ok(key) => Ok(key),
            Err(error) => Err(error.at_whole()),
        }
    }

    /// The error of the value of this key, with the key put before its path.
    fn error_under(&self, alloc: Global, error: Error) -> Error
        ensures cause { cause result ≡ cause error }
        ensures path { IsUnderKey (subject self.now).origin (places error) (places result) }
    {
        match &self.source {
            Source::Identifier { name, index: _ } => error.at_name(alloc, name.as_str()),
            Source::Tree(NamedValue::String(text)) => error.at_name(alloc, text.as_str()),
            Source::Tree(NamedValue::Char(character)) => {
                at_text(alloc, error, format!(in alloc; "{character}"))
            }
            Source::Tree(NamedValue::Number(number)) => {
                at_text(alloc, error, decimal(alloc, *number))
            }
            _ => error.at_whole(),
        }
    }
}

// Refusals are answered by functions that aren't inlined: a function that also makes or moves an
// error takes more instructions to give a value.

/// The refusal, with this index in its path.
#[cold]
#[inline(never)]
pub(crate) fn refused_at<R>(alloc: Global, error: Error, index: usize) -> Result<R>
    ensures cause { IsErrAnd result (λ e. cause e ≡ cause error) }
    ensures path { IsErrAnd result (λ e. IsInside (item index) (places error) (places e)) }
{
    Err(error.at_index(alloc, index))
}

/// The refusal, with this name in its path.
#[cold]
#[inline(never)]
fn refused_under<R>(alloc: Global, error: Error, name: &str) -> Result<R>
    ensures cause { IsErrAnd result (λ e. cause e ≡ cause error) }
    ensures path { IsErrAnd result (λ e. IsInside (under name.now) (places error) (places e)) }
{
    Err(error.at_name(alloc, name))
}

/// Reads the key and the value of an entry. The value is read first: the path of its refusal needs
/// the key.
#[inline(always)]
pub(crate) fn read_entry<'de, 'n: 'de, K: Deserialize<'de>, V: Deserialize<'de>>(
    alloc: Global,
    key: Deserializer<'de, 'n>,
    value: Deserializer<'de, 'n>,
) -> Result<(K, V)>
    ensures value { Reads
        (entry_refusal K.refusal V.refusal (subject key.entry, subject value.entry))
        (EntryGives K.gives V.gives (subject key.entry, subject value.entry)) result }
    ensures succeeds { EntryMemoryless K.memoryless V.memoryless
        (subject key.entry, subject value.entry) → IsOk result }
    ensures path { IfErr result (λ e. (inner : Option (List Place))
        × IsAtEntry K.refusal (subject key.entry) inner e) }
{
    match V::deserialize(alloc, value) {
        Ok(value) => {
            let key = key.deserialize_unplaced(alloc)?;
            Ok((key, value))
        }
        Err(error) => Err(refused_value::<K>(alloc, key, error)),
    }
}

/// The error of an entry whose value was refused with this one, for a type of your own that reads
/// entries one by one. Where the key is refused too, it is that error, which goes first, and its
/// path is that of the map. Else the path begins with the key, if that is a text, a character, a
/// number or a name, and is that of the map if the key is anything else. The key's type and the
/// path take memory.
#[cold]
#[inline(never)]
pub fn refused_value<'de, 'n: 'de, K: Deserialize<'de>>(
    alloc: Global,
    key: Deserializer<'de, 'n>,
    error: Error,
) -> Error
    ensures cause { cause result ≢ out_of_memory
        → first_of (K.refusal (subject key.entry)) (Some (cause error)) ≡ Some (cause result) }
    ensures path { IsAtEntry K.refusal (subject key.entry) (places error) result }
{
    let error = key.error_under(alloc, error);
    match key.deserialize_unplaced::<K>(alloc) {
        Ok(_key) => error,
        Err(of_key) => of_key,
    }
}

/// The error with this name put before its path; without a path if the name got no memory.
fn at_text(alloc: Global, error: Error, name: std::result::Result<String, AllocError>) -> Error
    ensures cause { cause result ≡ cause error }
    ensures path { MatchResult name
        (λ text. IsInside (under (string_bytes text)) (places error) (places result))
        (λ _. places result ≡ None) }
{
    match name {
        Ok(name) => error.at_name(alloc, name.as_str()),
        Err(_) => error.at_unknown(),
    }
}

/// A number in decimal.
fn decimal(alloc: Global, number: Number) -> std::result::Result<String, AllocError>
    ensures { IfOk result (λ text. string_bytes text ≡ signed_decimal (number_value number)) }
{
    match number.as_i128() {
        Some(small) => format!(in alloc; "{small}"),
        None => format!(in alloc; "{}", number.as_u128().unwrap_or(u128::MAX)),
    }
}
