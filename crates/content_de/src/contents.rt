//! What a struct or a variant holds, moved out of it.

#![tactic(auto, using(crate::proofs::Values::values))]

ghost use Rattle.std.specs.Prelude.{◌≡◌, Some, None, MatchOption, MatchResult};
ghost use Rattle.content_tree.specs.Values.Text.{text_of};
ghost use Rattle.content_tree.specs.Values.Tree as tree;
ghost use Rattle.content_tree.specs.Values.Value.{tree_of, enum_tree, tree_data_of};
ghost use Rattle.content_tree.specs.Values.Value.{trees_view, pairs_view, fields_view};
ghost use Rattle.content_de.specs.Requests.Data.{is_nothing, one_in, many_in, named_in};
ghost use Rattle.content_de.specs.Requests.Data.{seq_in, map_in, variant_in};

use content_tree::{CowStr, NamedData, NamedEnum, NamedValue};
use std::mem;

/// What was moved out, or the node as it was.
pub(crate) type Opened<T, N> = std::result::Result<T, N>;

/// The items of a sequence.
pub(crate) fn seq_items<'de, 'n>(
    value: NamedValue<'de, 'n>,
) -> Opened<Vec<NamedValue<'de, 'n>>, NamedValue<'de, 'n>>
    ensures { MatchResult result
        (λ vs. seq_in (tree_of value.entry) ≡ Some (trees_view vs.items))
        (λ v. (seq_in (tree_of value.entry) ≡ None) × (v ≡ value.entry)) }
{
    match value {
        NamedValue::Seq(items) => Ok(items),
        other => Err(other),
    }
}

/// The pairs of a map.
pub(crate) fn map_pairs<'de, 'n>(
    value: NamedValue<'de, 'n>,
) -> Opened<Vec<(NamedValue<'de, 'n>, NamedValue<'de, 'n>)>, NamedValue<'de, 'n>>
    ensures { MatchResult result
        (λ ps. map_in (tree_of value.entry) ≡ Some (pairs_view ps.items))
        (λ v. (map_in (tree_of value.entry) ≡ None) × (v ≡ value.entry)) }
{
    match value {
        NamedValue::Map(pairs) => Ok(pairs),
        other => Err(other),
    }
}

/// The name of a variant.
pub(crate) fn variant_name<'de, 'n>(node: Box<NamedEnum<'de, 'n>>) -> CowStr<'n>
    ensures { text_of result ≡ variant_in (enum_tree node.entry.value) }
{
    let NamedEnum {
        name: _,
        variant_index: _,
        variant,
        data: _,
    } = Box::into_inner(node);
    variant
}

/// Whether there is nothing.
pub(crate) fn is_nothing<'de, 'n>(held: &NamedData<'de, 'n>) -> bool
    ensures { result ≡ is_nothing (tree_data_of held.now) }
{
    matches!(held, NamedData::Unit)
}

/// The one value, moved out, where there is one; else what is held stays.
pub(crate) fn take_value<'de, 'n>(held: &mut NamedData<'de, 'n>) -> Option<NamedValue<'de, 'n>>
    ensures { MatchOption result
        ((one_in (tree_data_of held.old) ≡ None) × (held.new ≡ held.old))
        (λ v. one_in (tree_data_of held.old) ≡ Some (tree_of v)) }
{
    match mem::replace(held, NamedData::Unit) {
        NamedData::NewType { value } => Some(value),
        other => {
            *held = other;
            None
        }
    }
}

/// The values of a tuple, moved out, where it is one; else what is held stays.
pub(crate) fn take_values<'de, 'n>(
    held: &mut NamedData<'de, 'n>,
) -> Option<Vec<NamedValue<'de, 'n>>>
    ensures { MatchOption result
        ((many_in (tree_data_of held.old) ≡ None) × (held.new ≡ held.old))
        (λ vs. many_in (tree_data_of held.old) ≡ Some (trees_view vs.items)) }
{
    match mem::replace(held, NamedData::Unit) {
        NamedData::Tuple { values } => Some(values),
        other => {
            *held = other;
            None
        }
    }
}

/// The fields, moved out, where there are such; else what is held stays.
pub(crate) fn take_fields<'de, 'n>(
    held: &mut NamedData<'de, 'n>,
) -> Option<Vec<(CowStr<'n>, NamedValue<'de, 'n>)>>
    ensures { MatchOption result
        ((named_in (tree_data_of held.old) ≡ None) × (held.new ≡ held.old))
        (λ fs. named_in (tree_data_of held.old) ≡ Some (fields_view fs.items)) }
{
    match mem::replace(held, NamedData::Unit) {
        NamedData::Struct { fields } => Some(fields),
        other => {
            *held = other;
            None
        }
    }
}
