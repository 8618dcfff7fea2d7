//! Changes a value in its place: takes it, adds an item or an entry, removes an entry.
//!
//! What is changed is moved out and back, since a contract can't see a case changed in its place.

#![tactic(auto, using(crate::proofs::Editing::editing))]

ghost use Rattle.std.specs.Prelude.{◌≡◌, ◌<◌, Some, IfErr, IfOk, IsOk, IsSome, OnErr, OnOk, length};
ghost use Rattle.std.specs.Prelude.{option_map};
ghost use Rattle.std.specs.List.{HoldsAt, remove};
ghost use Rattle.content_tree.specs.Values.Edits.{pushed, inserted, removed, entry_value, is_seq};
ghost use Rattle.content_tree.specs.Values.Edits.{is_map, refused_item, IsRefused, IsLastKey};
ghost use Rattle.content_tree.specs.Values.Edits.{IsTaken};
ghost use Rattle.content_tree.specs.Values.Edits.{value_put, insert_text};
ghost use Rattle.content_tree.specs.Values.Lookups.{is_text, last_value, or_else};
ghost use Rattle.content_tree.specs.Values.Tree.{unit};
ghost use Rattle.content_tree.specs.Values.Value.{tree_of, pairs_view};
ghost use Rattle.content_tree.specs.Orders.Trees.{same_tree};
ghost use Rattle.content_tree.specs.declared.edits.InsertError.TheVariants.{OutOfMemory};

use crate::lookup::is_text;
use crate::value::NamedValue;
use std::alloc::AllocFailed;
use std::fmt::Debug;
use std::result::Result as StdResult;
use std::{fmt, mem};

/// Why something wasn't put into a value, with what was to be put: none of it is lost.
#[derive(Debug, Drop)]
pub enum InsertError<T> {
    /// The value has no place for it: its kind takes none, or the path leads nowhere.
    NoPlace(T),
    /// An allocation failed.
    OutOfMemory(T),
}

impl<T> InsertError<T> {
    /// What was to be put. It takes no memory.
    pub fn into_inner(self) -> T
        ensures { result ≡ refused_item self }
    {
        match self {
            InsertError::NoPlace(item) => item,
            InsertError::OutOfMemory(item) => item,
        }
    }
}

impl<T> From<AllocFailed<T>> for InsertError<T> {
    ghost from_gives = { λ failed e. e ≡ OutOfMemory failed.value };

    fn from(failed: AllocFailed<T>) -> InsertError<T> {
        let AllocFailed { value } = failed;
        InsertError::OutOfMemory(value)
    }
}

impl<T> fmt::Display for InsertError<T> {
    ghost output = { λ e. Some (insert_text e) };

    fn fmt<W: fmt::Write>(&self, f: &mut fmt::Formatter<W>) -> fmt::Result {
        f.write_str(match self {
            InsertError::NoPlace(_) => "no place for it in the value",
            InsertError::OutOfMemory(_) => "out of memory",
        })
    }
}

impl<T: Debug + Drop> std::error::Error for InsertError<T> {}

impl<'a, 'n> NamedValue<'a, 'n> {
    /// Takes the value, and leaves the unit in its place. It takes no memory.
    pub fn take(&mut self) -> NamedValue<'a, 'n>
        ensures value { result ≡ self.old }
        ensures left { tree_of self.new ≡ unit }
    {
        mem::replace(self, NamedValue::Unit)
    }

    /// Adds an item after the last one of a sequence. It takes memory where the vector is full.
    ///
    /// # Errors
    ///
    /// The item, where this is no sequence, a tuple too, or an allocation failed. Then nothing
    /// changed.
    pub fn push(
        &mut self,
        item: NamedValue<'a, 'n>,
    ) -> StdResult<(), InsertError<NamedValue<'a, 'n>>>
        ensures tree { OnOk result (pushed (tree_of item.entry) (tree_of self.old)
            ≡ Some (tree_of self.new)) }
        ensures refused { IfErr result (λ e. IsRefused (is_seq (tree_of self.old))
            item.entry e) }
        ensures kept { OnErr result (tree_of self.new ≡ tree_of self.old) }
    {
        match mem::replace(self, NamedValue::Unit) {
            NamedValue::Seq(mut items) => {
                let pushed = items.push(item);
                *self = NamedValue::Seq(items);
                Ok(pushed?)
            }
            other => {
                *self = other;
                Err(InsertError::NoPlace(item))
            }
        }
    }

    /// Puts a value into a map: in place of that of the last key that equals this one, whose value
    /// it gives back, or else after the last entry. It takes memory only to add an entry.
    ///
    /// # Errors
    ///
    /// The key and the value, where this is no map or an allocation failed. Then nothing changed.
    pub fn insert(
        &mut self,
        key: NamedValue<'a, 'n>,
        value: NamedValue<'a, 'n>,
    ) -> StdResult<
        Option<NamedValue<'a, 'n>>,
        InsertError<(NamedValue<'a, 'n>, NamedValue<'a, 'n>)>,
    >
        ensures tree { OnOk result (inserted (tree_of key.entry) (tree_of value.entry)
            (tree_of self.old) ≡ Some (tree_of self.new)) }
        ensures replaced { IfOk result (λ before. option_map tree_of before
            ≡ entry_value (λ k. same_tree k (tree_of key.entry)) (tree_of self.old)) }
        ensures in_place { IsSome (entry_value (λ k. same_tree k (tree_of key.entry))
            (tree_of self.old)) → IsOk result }
        ensures refused { IfErr result (λ e. IsRefused (is_map (tree_of self.old))
            (key.entry, value.entry) e) }
        ensures kept { OnErr result (tree_of self.new ≡ tree_of self.old) }
    {
        match mem::replace(self, NamedValue::Unit) {
            NamedValue::Map(mut pairs) => {
                let put = put_pair(&mut pairs, key, value);
                *self = NamedValue::Map(pairs);
                Ok(put?)
            }
            other => {
                *self = other;
                Err(InsertError::NoPlace((key, value)))
            }
        }
    }

    /// Removes the last entry of a map whose key equals this one, and gives its value. Any other
    /// value has none. It takes no memory.
    pub fn remove(&mut self, key: &NamedValue<'a, 'n>) -> Option<NamedValue<'a, 'n>>
        ensures value { option_map tree_of result
            ≡ entry_value (λ k. same_tree k (tree_of key.now)) (tree_of self.old) }
        ensures tree { tree_of self.new
            ≡ removed (λ k. same_tree k (tree_of key.now)) (tree_of self.old) }
    {
        match mem::replace(self, NamedValue::Unit) {
            NamedValue::Map(mut pairs) => {
                let removed = remove_equal(&mut pairs, key);
                *self = NamedValue::Map(pairs);
                removed
            }
            other => {
                *self = other;
                None
            }
        }
    }

    /// Removes the last entry of a map whose key is this text, and gives its value. Any other value
    /// has none. It takes no memory.
    pub fn remove_str(&mut self, key: &str) -> Option<NamedValue<'a, 'n>>
        ensures value { option_map tree_of result
            ≡ entry_value (is_text key.now) (tree_of self.old) }
        ensures tree { tree_of self.new ≡ removed (is_text key.now) (tree_of self.old) }
    {
        match mem::replace(self, NamedValue::Unit) {
            NamedValue::Map(mut pairs) => {
                let removed = remove_text(&mut pairs, key);
                *self = NamedValue::Map(pairs);
                removed
            }
            other => {
                *self = other;
                None
            }
        }
    }
}

/// Puts a value at the last key that equals this one, or the pair after the last.
fn put_pair<'a, 'n>(
    pairs: &mut Vec<(NamedValue<'a, 'n>, NamedValue<'a, 'n>)>,
    key: NamedValue<'a, 'n>,
    value: NamedValue<'a, 'n>,
) -> StdResult<Option<NamedValue<'a, 'n>>, AllocFailed<(NamedValue<'a, 'n>, NamedValue<'a, 'n>)>>
    ensures pairs { OnOk result (pairs_view pairs.new.items ≡ value_put (tree_of key.entry)
        (tree_of value.entry) (pairs_view pairs.old.items)) }
    ensures replaced { IfOk result (λ before. option_map tree_of before
        ≡ last_value (λ k. same_tree k (tree_of key.entry)) (pairs_view pairs.old.items)) }
    ensures in_place { IsSome (last_value (λ k. same_tree k (tree_of key.entry))
        (pairs_view pairs.old.items)) → IsOk result }
    ensures failed { IfErr result (λ e. e.value ≡ (key.entry, value.entry)) }
    ensures kept { OnErr result (pairs.new.items ≡ pairs.old.items) }
{
    match last_equal_index(pairs, &key) {
        Some(index) => Ok(Some(mem::replace(&mut pairs[index].1, value))),
        None => {
            pairs.push((key, value))?;
            Ok(None)
        }
    }
}

/// Removes the last pair whose key equals this one, and gives its value.
fn remove_equal<'a, 'n>(
    pairs: &mut Vec<(NamedValue<'a, 'n>, NamedValue<'a, 'n>)>,
    key: &NamedValue<'a, 'n>,
) -> Option<NamedValue<'a, 'n>>
    ensures { IsTaken (λ k. same_tree k (tree_of key.now)) pairs.old.items result
        pairs.new.items }
{
    let index = last_equal_index(pairs, key)?;
    Some(remove_pair(pairs, index))
}

/// Removes the last pair whose key is this text, and gives its value.
fn remove_text<'a, 'n>(
    pairs: &mut Vec<(NamedValue<'a, 'n>, NamedValue<'a, 'n>)>,
    key: &str,
) -> Option<NamedValue<'a, 'n>>
    ensures { IsTaken (is_text key.now) pairs.old.items result pairs.new.items }
{
    let index = last_text_index(pairs, key)?;
    Some(remove_pair(pairs, index))
}

/// Removes the pair of this index, and gives its value.
pub(crate) fn remove_pair<'a, 'n>(
    pairs: &mut Vec<(NamedValue<'a, 'n>, NamedValue<'a, 'n>)>,
    index: usize,
) -> NamedValue<'a, 'n>
    requires { index < length pairs.old.items }
    ensures value { HoldsAt (λ pair. result ≡ pair.1) pairs.old.items index }
    ensures pairs { pairs.new.items ≡ remove pairs.old.items index }
{
    let (_key, value) = pairs.remove(index);
    value
}

/// The index of the last key that equals this one.
fn last_equal_index<'a, 'n>(
    pairs: &[(NamedValue<'a, 'n>, NamedValue<'a, 'n>)],
    key: &NamedValue<'a, 'n>,
) -> Option<usize>
    ensures { IsLastKey (λ k. same_tree k (tree_of key.now)) pairs.now result }
{
    let mut left = pairs.len();
    while left > 0 {
        left -= 1;
        if pairs[left].0 == *key {
            return Some(left);
        }
    }
    None
}

/// The index of the last key that is this text.
fn last_text_index<'a, 'n>(
    pairs: &[(NamedValue<'a, 'n>, NamedValue<'a, 'n>)],
    key: &str,
) -> Option<usize>
    ensures { IsLastKey (is_text key.now) pairs.now result }
{
    let mut left = pairs.len();
    while left > 0 {
        left -= 1;
        if is_text(&pairs[left].0, key) {
            return Some(left);
        }
    }
    None
}
