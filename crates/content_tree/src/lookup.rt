//! Looks inside a value: its content, or the value of a key or of an index, borrowed and without
//! memory.

#![tactic(auto, using(crate::proofs::Looking::looking))]

ghost use Rattle.std.specs.Prelude.{◌≡◌, pos, option_map};
ghost use Rattle.content_tree.specs.Values.Lookups.{boolean_in, number_in, value_in, character_in};
ghost use Rattle.content_tree.specs.Values.Lookups.{text_in, bytes_in, items_in, pairs_in};
ghost use Rattle.content_tree.specs.Values.Lookups.{field_in, is_text, last_field, last_value, lookup};
ghost use Rattle.content_tree.specs.Values.Lookups.{lookup_text};
ghost use Rattle.content_tree.specs.Values.Pointers.{item_in, item_of, lookup_index};
ghost use Rattle.content_tree.specs.Values.Ranges.{i64, u64, i128, u128};
ghost use Rattle.content_tree.specs.Values.Value.{tree_of, tree_data_of, trees_view, pairs_view};
ghost use Rattle.content_tree.specs.Values.Value.{fields_view};
ghost use Rattle.content_tree.specs.Orders.Trees.{same_tree};

use crate::cow::CowStr;
use crate::number::Number;
use crate::value::{NamedData, NamedValue};

/// What the value contains, or none where it is of another kind. None of these takes memory.
impl<'a, 'n> NamedValue<'a, 'n> {
    /// The boolean.
    pub fn as_bool(&self) -> Option<bool>
        ensures { result ≡ boolean_in (tree_of self.now) }
    {
        match self {
            NamedValue::Bool(value) => Some(*value),
            _ => None,
        }
    }

    /// The number, of any kind.
    pub fn as_number(&self) -> Option<Number>
        ensures { result ≡ number_in (tree_of self.now) }
    {
        match self {
            NamedValue::Number(number) => Some(*number),
            _ => None,
        }
    }

    /// The value of a number of any kind, where it lies in the range of `i64`.
    pub fn as_i64(&self) -> Option<i64>
        ensures { result ≡ value_in i64 (tree_of self.now) }
    {
        self.as_number()?.as_i64()
    }

    /// The value of a number of any kind, where it lies in the range of `u64`.
    pub fn as_u64(&self) -> Option<u64>
        ensures { option_map pos result ≡ value_in u64 (tree_of self.now) }
    {
        self.as_number()?.as_u64()
    }

    /// The value of a number of any kind, where it lies in the range of `i128`.
    pub fn as_i128(&self) -> Option<i128>
        ensures { result ≡ value_in i128 (tree_of self.now) }
    {
        self.as_number()?.as_i128()
    }

    /// The value of a number of any kind, where it lies in the range of `u128`.
    pub fn as_u128(&self) -> Option<u128>
        ensures { option_map pos result ≡ value_in u128 (tree_of self.now) }
    {
        self.as_number()?.as_u128()
    }

    /// The character.
    pub fn as_char(&self) -> Option<char>
        ensures { result ≡ character_in (tree_of self.now) }
    {
        match self {
            NamedValue::Char(value) => Some(*value),
            _ => None,
        }
    }

    /// The text, borrowed or owned.
    pub fn as_str(&self) -> Option<&str>
        ensures { option_map (λ text. text.now) result ≡ text_in (tree_of self.now) }
    {
        match self {
            NamedValue::String(text) => Some(text.as_str()),
            _ => None,
        }
    }

    /// The bytes, borrowed or owned.
    pub fn as_bytes(&self) -> Option<&[u8]>
        ensures { option_map (λ bytes. bytes.now) result ≡ bytes_in (tree_of self.now) }
    {
        match self {
            NamedValue::Bytes(bytes) => Some(bytes.as_bytes()),
            _ => None,
        }
    }

    /// The items of a sequence.
    pub fn as_seq(&self) -> Option<&[NamedValue<'a, 'n>]>
        ensures { option_map (λ items. trees_view items.now) result ≡ items_in (tree_of self.now) }
    {
        match self {
            NamedValue::Seq(items) => Some(items.as_slice()),
            _ => None,
        }
    }

    /// The pairs of a map: each key with its value, in order.
    pub fn as_map(&self) -> Option<&[(NamedValue<'a, 'n>, NamedValue<'a, 'n>)]>
        ensures { option_map (λ pairs. pairs_view pairs.now) result ≡ pairs_in (tree_of self.now) }
    {
        match self {
            NamedValue::Map(pairs) => Some(pairs.as_slice()),
            _ => None,
        }
    }

    /// Finds the value of this key: in a map that of the last key that equals it; in a struct or a
    /// variant with fields, where the key is a text, that of the last field of this name. It
    /// compares keys from the last to the first.
    pub fn get(&self, key: &NamedValue<'a, 'n>) -> Option<&NamedValue<'a, 'n>>
        ensures { option_map (λ value. tree_of value.now) result
            ≡ lookup (tree_of key.now) (tree_of self.now) }
    {
        match self {
            NamedValue::Map(pairs) => last_equal(pairs, key),
            NamedValue::Struct(node) => last_named(&node.data, key.as_str()?),
            NamedValue::Enum(node) => last_named(&node.data, key.as_str()?),
            _ => None,
        }
    }

    /// Finds the value of this text, as [`get`](NamedValue::get) does with a text as key.
    pub fn get_str(&self, key: &str) -> Option<&NamedValue<'a, 'n>>
        ensures { option_map (λ value. tree_of value.now) result
            ≡ lookup_text key.now (tree_of self.now) }
    {
        match self {
            NamedValue::Map(pairs) => last_text(pairs, key),
            NamedValue::Struct(node) => last_named(&node.data, key),
            NamedValue::Enum(node) => last_named(&node.data, key),
            _ => None,
        }
    }

    /// Finds the item of this index, counted from 0, in a sequence, a tuple, or a struct or a
    /// variant that holds values by place.
    pub fn get_index(&self, index: usize) -> Option<&NamedValue<'a, 'n>>
        ensures { option_map (λ value. tree_of value.now) result
            ≡ lookup_index index (tree_of self.now) }
    {
        match self {
            NamedValue::Seq(items) => item_of(items, index),
            NamedValue::Tuple(items) => item_of(items, index),
            NamedValue::Struct(node) => item_in(&node.data, index),
            NamedValue::Enum(node) => item_in(&node.data, index),
            _ => None,
        }
    }
}

/// The item of this index in what a struct or a variant holds.
fn item_in<'v, 'a, 'n>(
    inside: &'v NamedData<'a, 'n>,
    index: usize,
) -> Option<&'v NamedValue<'a, 'n>>
    ensures { option_map (λ value. tree_of value.now) result
        ≡ item_in index (tree_data_of inside.now) }
{
    match inside {
        NamedData::Tuple { values } => item_of(values, index),
        _ => None,
    }
}

/// The item of this index.
pub(crate) fn item_of<'v, 'a, 'n>(
    items: &'v [NamedValue<'a, 'n>],
    index: usize,
) -> Option<&'v NamedValue<'a, 'n>>
    ensures { option_map (λ value. tree_of value.now) result
        ≡ item_of index (trees_view items.now) }
{
    items.get(index)
}

/// The value of the last key that equals this one.
fn last_equal<'v, 'a, 'n>(
    pairs: &'v [(NamedValue<'a, 'n>, NamedValue<'a, 'n>)],
    key: &NamedValue<'a, 'n>,
) -> Option<&'v NamedValue<'a, 'n>>
    ensures { option_map (λ value. tree_of value.now) result
        ≡ last_value (λ k. same_tree k (tree_of key.now)) (pairs_view pairs.now) }
{
    let mut left = pairs.len();
    while left > 0 {
        left -= 1;
        if pairs[left].0 == *key {
            return Some(&pairs[left].1);
        }
    }
    None
}

/// The value of the last key that is this text.
fn last_text<'v, 'a, 'n>(
    pairs: &'v [(NamedValue<'a, 'n>, NamedValue<'a, 'n>)],
    key: &str,
) -> Option<&'v NamedValue<'a, 'n>>
    ensures { option_map (λ value. tree_of value.now) result
        ≡ last_value (is_text key.now) (pairs_view pairs.now) }
{
    let mut left = pairs.len();
    while left > 0 {
        left -= 1;
        if is_text(&pairs[left].0, key) {
            return Some(&pairs[left].1);
        }
    }
    None
}

/// Whether the value is this text.
pub(crate) fn is_text(value: &NamedValue<'_, '_>, key: &str) -> bool
    ensures { result ≡ is_text key.now (tree_of value.now) }
{
    match value {
        NamedValue::String(text) => text.as_str() == key,
        _ => false,
    }
}

/// The value of the last field of this name.
fn last_named<'v, 'a, 'n>(
    inside: &'v NamedData<'a, 'n>,
    key: &str,
) -> Option<&'v NamedValue<'a, 'n>>
    ensures { option_map (λ value. tree_of value.now) result
        ≡ field_in key.now (tree_data_of inside.now) }
{
    match inside {
        NamedData::Struct { fields } => last_field(fields, key),
        _ => None,
    }
}

/// The value of the last of these fields that has this name.
fn last_field<'v, 'a, 'n>(
    fields: &'v [(CowStr<'n>, NamedValue<'a, 'n>)],
    key: &str,
) -> Option<&'v NamedValue<'a, 'n>>
    ensures { option_map (λ value. tree_of value.now) result
        ≡ last_field key.now (fields_view fields.now) }
{
    let mut left = fields.len();
    while left > 0 {
        left -= 1;
        if fields[left].0.as_str() == key {
            return Some(&fields[left].1);
        }
    }
    None
}
