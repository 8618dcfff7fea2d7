//! Values from vectors and boxes, and back: what is owned is moved. None of this takes memory.

ghost use Rattle.std.specs.Prelude.{◌≡◌};
ghost use Rattle.content_tree.specs.Values.Parts.{GivesPart, whole_text, whole_bytes, optional};
ghost use Rattle.content_tree.specs.Values.Parts.{items_of, items_inside, entries_of, fields_in};
ghost use Rattle.content_tree.specs.Values.Parts.{fields_inside};
ghost use Rattle.content_tree.specs.Values.Lookups.{boolean_in, number_in, character_in};
ghost use Rattle.content_tree.specs.Values.Lookups.{items_in, pairs_in};
ghost use Rattle.content_tree.specs.Values.Text.{text_of, bytes_of};
ghost use Rattle.content_tree.specs.Values.Tree as tree;
ghost use Rattle.content_tree.specs.Values.Value.{tree_of, tree_data_of, struct_tree, enum_tree};
ghost use Rattle.content_tree.specs.Values.Value.{held_view, trees_view, pairs_view, fields_view};

use crate::cow::{CowBytes, CowStr};
use crate::number::Number;
use crate::value::{NamedData, NamedEnum, NamedStruct, NamedValue};

/// An array of bytes, borrowed or owned as it was.
impl<'a, 'n> From<CowBytes<'a>> for NamedValue<'a, 'n> {
    ghost from_gives = { λ bytes value. tree_of value ≡ tree.octets (bytes_of bytes) };

    fn from(bytes: CowBytes<'a>) -> NamedValue<'a, 'n> {
        NamedValue::Bytes(bytes)
    }
}

/// A sequence of these items.
impl<'a, 'n> From<Vec<NamedValue<'a, 'n>>> for NamedValue<'a, 'n> {
    ghost from_gives = { λ items value. tree_of value ≡ tree.seq (trees_view items.items) };

    fn from(items: Vec<NamedValue<'a, 'n>>) -> NamedValue<'a, 'n> {
        NamedValue::Seq(items)
    }
}

/// A map of these entries, in their order.
impl<'a, 'n> From<Vec<(NamedValue<'a, 'n>, NamedValue<'a, 'n>)>> for NamedValue<'a, 'n> {
    ghost from_gives = { λ pairs value. tree_of value ≡ tree.map (pairs_view pairs.items) };

    fn from(pairs: Vec<(NamedValue<'a, 'n>, NamedValue<'a, 'n>)>) -> NamedValue<'a, 'n> {
        NamedValue::Map(pairs)
    }
}

/// An optional value.
impl<'a, 'n> From<Option<Box<NamedValue<'a, 'n>>>> for NamedValue<'a, 'n> {
    ghost from_gives = { λ held value. tree_of value ≡ held_view held };

    fn from(held: Option<Box<NamedValue<'a, 'n>>>) -> NamedValue<'a, 'n> {
        NamedValue::Option(held)
    }
}

/// A struct.
impl<'a, 'n> From<Box<NamedStruct<'a, 'n>>> for NamedValue<'a, 'n> {
    ghost from_gives = { λ node value. tree_of value ≡ struct_tree node.value };

    fn from(node: Box<NamedStruct<'a, 'n>>) -> NamedValue<'a, 'n> {
        NamedValue::Struct(node)
    }
}

/// A variant of an enum.
impl<'a, 'n> From<Box<NamedEnum<'a, 'n>>> for NamedValue<'a, 'n> {
    ghost from_gives = { λ node value. tree_of value ≡ enum_tree node.value };

    fn from(node: Box<NamedEnum<'a, 'n>>) -> NamedValue<'a, 'n> {
        NamedValue::Enum(node)
    }
}

/// The boolean, or the value itself where it is none.
impl<'a, 'n> TryFrom<NamedValue<'a, 'n>> for bool {
    type Error = NamedValue<'a, 'n>;

    ghost try_from_gives = { λ value given. GivesPart (λ own. own) (boolean_in (tree_of value)) value given };

    fn try_from(value: NamedValue<'a, 'n>) -> Result<bool, NamedValue<'a, 'n>> {
        match value {
            NamedValue::Bool(boolean) => Ok(boolean),
            value => Err(value),
        }
    }
}

/// The number, or the value itself where it is none.
impl<'a, 'n> TryFrom<NamedValue<'a, 'n>> for Number {
    type Error = NamedValue<'a, 'n>;

    ghost try_from_gives = { λ value given. GivesPart (λ own. own) (number_in (tree_of value)) value given };

    fn try_from(value: NamedValue<'a, 'n>) -> Result<Number, NamedValue<'a, 'n>> {
        match value {
            NamedValue::Number(number) => Ok(number),
            value => Err(value),
        }
    }
}

/// The character, or the value itself where it is none.
impl<'a, 'n> TryFrom<NamedValue<'a, 'n>> for char {
    type Error = NamedValue<'a, 'n>;

    ghost try_from_gives = { λ value given. GivesPart (λ own. own) (character_in (tree_of value)) value given };

    fn try_from(value: NamedValue<'a, 'n>) -> Result<char, NamedValue<'a, 'n>> {
        match value {
            NamedValue::Char(character) => Ok(character),
            value => Err(value),
        }
    }
}

/// The text, borrowed or owned as it was, or the value itself where it is none.
impl<'a, 'n> TryFrom<NamedValue<'a, 'n>> for CowStr<'a> {
    type Error = NamedValue<'a, 'n>;

    ghost try_from_gives = { λ value given. GivesPart text_of (whole_text (tree_of value)) value given };

    fn try_from(value: NamedValue<'a, 'n>) -> Result<CowStr<'a>, NamedValue<'a, 'n>> {
        match value {
            NamedValue::String(text) => Ok(text),
            value => Err(value),
        }
    }
}

/// The bytes, borrowed or owned as they were, or the value itself where it has none.
impl<'a, 'n> TryFrom<NamedValue<'a, 'n>> for CowBytes<'a> {
    type Error = NamedValue<'a, 'n>;

    ghost try_from_gives = { λ value given. GivesPart bytes_of (whole_bytes (tree_of value)) value given };

    fn try_from(value: NamedValue<'a, 'n>) -> Result<CowBytes<'a>, NamedValue<'a, 'n>> {
        match value {
            NamedValue::Bytes(bytes) => Ok(bytes),
            value => Err(value),
        }
    }
}

/// The items of a sequence, or the value itself where it is none.
impl<'a, 'n> TryFrom<NamedValue<'a, 'n>> for Vec<NamedValue<'a, 'n>> {
    type Error = NamedValue<'a, 'n>;

    ghost try_from_gives = { λ value given. GivesPart (λ own. trees_view own.items) (items_in (tree_of value)) value given };

    fn try_from(value: NamedValue<'a, 'n>) -> Result<Vec<NamedValue<'a, 'n>>, NamedValue<'a, 'n>> {
        match value {
            NamedValue::Seq(items) => Ok(items),
            value => Err(value),
        }
    }
}

/// The entries of a map, or the value itself where it is none.
impl<'a, 'n> TryFrom<NamedValue<'a, 'n>> for Vec<(NamedValue<'a, 'n>, NamedValue<'a, 'n>)> {
    type Error = NamedValue<'a, 'n>;

    ghost try_from_gives = { λ value given. GivesPart (λ own. pairs_view own.items) (pairs_in (tree_of value)) value given };

    fn try_from(
        value: NamedValue<'a, 'n>,
    ) -> Result<Vec<(NamedValue<'a, 'n>, NamedValue<'a, 'n>)>, NamedValue<'a, 'n>> {
        match value {
            NamedValue::Map(pairs) => Ok(pairs),
            value => Err(value),
        }
    }
}

/// The optional value, or the value itself where it is none.
impl<'a, 'n> TryFrom<NamedValue<'a, 'n>> for Option<Box<NamedValue<'a, 'n>>> {
    type Error = NamedValue<'a, 'n>;

    ghost try_from_gives = { λ value given. GivesPart held_view (optional (tree_of value)) value given };

    fn try_from(
        value: NamedValue<'a, 'n>,
    ) -> Result<Option<Box<NamedValue<'a, 'n>>>, NamedValue<'a, 'n>> {
        match value {
            NamedValue::Option(held) => Ok(held),
            value => Err(value),
        }
    }
}

/// What a value is made of, borrowed, in order: empty where it has no such parts.
impl<'a, 'n> NamedValue<'a, 'n> {
    /// The items of a sequence, a tuple, or a struct or a variant that holds values by place.
    pub fn items(&self) -> &[NamedValue<'a, 'n>]
        ensures { trees_view result.now ≡ items_of (tree_of self.now) }
    {
        match self {
            NamedValue::Seq(items) => items.as_slice(),
            NamedValue::Tuple(items) => items.as_slice(),
            NamedValue::Struct(node) => items_inside(&node.data),
            NamedValue::Enum(node) => items_inside(&node.data),
            _ => &[],
        }
    }

    /// The entries of a map: each key with its value.
    pub fn entries(&self) -> &[(NamedValue<'a, 'n>, NamedValue<'a, 'n>)]
        ensures { pairs_view result.now ≡ entries_of (tree_of self.now) }
    {
        match self {
            NamedValue::Map(pairs) => pairs.as_slice(),
            _ => &[],
        }
    }

    /// The fields of a struct or a variant: each name with its value.
    pub fn fields(&self) -> &[(CowStr<'n>, NamedValue<'a, 'n>)]
        ensures { fields_view result.now ≡ fields_in (tree_of self.now) }
    {
        match self {
            NamedValue::Struct(node) => fields_inside(&node.data),
            NamedValue::Enum(node) => fields_inside(&node.data),
            _ => &[],
        }
    }
}

/// The items of what a struct or a variant holds by place.
fn items_inside<'v, 'a, 'n>(inside: &'v NamedData<'a, 'n>) -> &'v [NamedValue<'a, 'n>]
    ensures { trees_view result.now ≡ items_inside (tree_data_of inside.now) }
{
    match inside {
        NamedData::Tuple { values } => values.as_slice(),
        _ => &[],
    }
}

/// The fields of what a struct or a variant holds.
#[tactic(auto, using(crate::proofs::Looking::looking))]
fn fields_inside<'v, 'a, 'n>(
    inside: &'v NamedData<'a, 'n>,
) -> &'v [(CowStr<'n>, NamedValue<'a, 'n>)]
    ensures { fields_view result.now ≡ fields_inside (tree_data_of inside.now) }
{
    match inside {
        NamedData::Struct { fields } => fields.as_slice(),
        _ => &[],
    }
}
