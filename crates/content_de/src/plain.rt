//! Values read as plain ones.
//!
//! Inside, reading answers `AllocError` alone, so that a level of a deep value takes less stack.

#![tactic(auto, using(crate::proofs::Values::values))]

ghost use Rattle.std.specs.Prelude.{◌≡◌, None, IsOk, IfOk, IfErr};
ghost use Rattle.content_tree.specs.Errors.Kind.{IsOutOfMemory};
ghost use Rattle.content_tree.specs.Values.Text.{text_of, bytes_of, to_owned};
ghost use Rattle.content_tree.specs.Values.Tree.{octets};
ghost use Rattle.content_tree.specs.Values.Value.{tree_of, tree_data_of, struct_tree, enum_tree};
ghost use Rattle.content_tree.specs.Values.Value.{held_view, trees_view, pairs_view, fields_view};
ghost use Rattle.content_de.specs.Sources.Deserializer.{subject};
ghost use Rattle.content_de.specs.Plain.{plain, plain_data, plain_each, plain_pairs, plain_fields};
ghost use Rattle.content_de.specs.Plain.{name_text, plain_of, plain_kept, KeepsCase};

use crate::deserialize::Deserialize;
use crate::deserializer::Deserializer;
use crate::source::Source;
use content_tree::{
    CowBytes, CowStr, NamedData, NamedEnum, NamedStruct, NamedValue, Result, Value,
};
use std::alloc::{AllocError, Global};
use std::result::Result as StdResult;

/// The plain form of what is there: a tuple is a sequence, a struct is what it holds, with its
/// fields as a map, and a variant is the text of its name, or a map of one entry from that text to
/// what it holds. Every text is owned: an owned one is moved, and a borrowed one copied. It fails
/// only when memory runs out.
impl<'de> Deserialize<'de> for Value<'static> {
    ghost refusal = { λ s. None };

    ghost gives = { λ s v. tree_of v ≡ plain_of s.origin };

    fn deserialize<'n: 'de>(alloc: Global, from: Deserializer<'de, 'n>) -> Result<Value<'static>> {
        let Deserializer { source, flags: _ } = from;
        match source {
            Source::Tree(value) => Ok(make_plain(alloc, value)?),
            Source::Identifier { name, index: _ } => Ok(make_owned(alloc, name)?),
        }
    }
}

/// Reads plain values, as the type [`Value`] does, but without a copy where it can: what is itself
/// a text or bytes, or the name of an identifier, stays borrowed or owned as it was.
pub struct ValueVisitor;

impl ValueVisitor {
    /// Reads the plain form of what is there. A text, bytes and the name of an identifier stay
    /// borrowed or owned as they were, and take no memory; every text inside something is owned.
    ///
    /// # Errors
    ///
    /// Out of memory, where an allocation failed.
    pub fn read<'de, 'n: 'de>(
        self,
        alloc: Global,
        from: Deserializer<'de, 'n>,
    ) -> Result<Value<'de>>
        ensures value { IfOk result (λ v. tree_of v ≡ plain_kept (subject from.entry).origin) }
        ensures succeeds { KeepsCase (subject from.entry).origin → IsOk result }
        ensures memory { IfErr result (λ e. IsOutOfMemory e) }
    {
        let ValueVisitor = self;
        let Deserializer { source, flags: _ } = from;
        match source {
            Source::Tree(NamedValue::String(text)) => Ok(NamedValue::String(text)),
            Source::Tree(NamedValue::Bytes(bytes)) => Ok(NamedValue::Bytes(bytes)),
            Source::Tree(value) => Ok(make_plain(alloc, value)?),
            Source::Identifier { name, index: _ } => Ok(NamedValue::String(name)),
        }
    }
}

/// A text, owned.
#[inline(never)]
fn make_owned<'a, 'p>(alloc: Global, text: CowStr<'a>) -> StdResult<Value<'p>, AllocError>
    ensures { IfOk result (λ v. tree_of v ≡ name_text (text_of text.entry)) }
{
    Ok(NamedValue::String(CowStr::Owned(text.into_owned(alloc).ok().ok_or(AllocError)?)))
}

/// Bytes, owned.
#[inline(never)]
fn make_owned_bytes<'a, 'p>(alloc: Global, bytes: CowBytes<'a>) -> StdResult<Value<'p>, AllocError>
    ensures { IfOk result (λ v. tree_of v ≡ octets (to_owned (bytes_of bytes.entry))) }
{
    Ok(NamedValue::Bytes(CowBytes::Owned(bytes.into_owned(alloc).ok().ok_or(AllocError)?)))
}

/// The plain form of a tree.
#[cycle(plain)]
#[inline(never)]
fn make_plain<'a, 'n, 'p>(
    alloc: Global,
    value: NamedValue<'a, 'n>,
) -> StdResult<Value<'p>, AllocError>
    ensures { IfOk result (λ v. tree_of v ≡ plain (tree_of value.entry)) }
{
    match value {
        NamedValue::Unit => Ok(NamedValue::Unit),
        NamedValue::Bool(flag) => Ok(NamedValue::Bool(flag)),
        NamedValue::Number(number) => Ok(NamedValue::Number(number)),
        NamedValue::Char(character) => Ok(NamedValue::Char(character)),
        NamedValue::String(text) => make_owned(alloc, text),
        NamedValue::Bytes(bytes) => make_owned_bytes(alloc, bytes),
        NamedValue::Seq(items) => Ok(NamedValue::Seq(make_items_plain(alloc, items)?)),
        NamedValue::Map(pairs) => Ok(NamedValue::Map(make_pairs_plain(alloc, pairs)?)),
        NamedValue::Option(held) => Ok(NamedValue::Option(make_held_plain(alloc, held)?)),
        NamedValue::Struct(node) => make_struct_plain(alloc, Box::into_inner(node)),
        NamedValue::Enum(node) => make_variant_plain(alloc, Box::into_inner(node)),
        NamedValue::Tuple(items) => Ok(NamedValue::Seq(make_items_plain(alloc, items)?)),
    }
}

/// That of an optional value, which keeps its shape.
#[cycle(plain)]
#[inline(never)]
fn make_held_plain<'a, 'n, 'p>(
    alloc: Global,
    held: Option<Box<NamedValue<'a, 'n>>>,
) -> StdResult<Option<Box<Value<'p>>>, AllocError>
    ensures { IfOk result (λ v. held_view v ≡ plain (held_view held.entry)) }
{
    match held {
        None => Ok(None),
        Some(inner) => {
            let inner = make_plain(alloc, Box::into_inner(inner))?;
            Ok(Some(Box::new(alloc, inner)?))
        }
    }
}

/// That of a struct: what it holds.
#[cycle(plain)]
#[inline(never)]
fn make_struct_plain<'a, 'n, 'p>(
    alloc: Global,
    node: NamedStruct<'a, 'n>,
) -> StdResult<Value<'p>, AllocError>
    ensures { IfOk result (λ v. tree_of v ≡ plain (struct_tree node.entry)) }
{
    let NamedStruct { name: _, data } = node;
    make_data_plain(alloc, data)
}

/// That of a variant: its name, and under it what it holds, if anything.
#[cycle(plain)]
#[inline(never)]
fn make_variant_plain<'a, 'n, 'p>(
    alloc: Global,
    node: NamedEnum<'a, 'n>,
) -> StdResult<Value<'p>, AllocError>
    ensures { IfOk result (λ v. tree_of v ≡ plain (enum_tree node.entry)) }
{
    let NamedEnum {
        name: _,
        variant_index: _,
        variant,
        data,
    } = node;
    let name = make_owned(alloc, variant)?;
    match data {
        NamedData::Unit => Ok(name),
        data => {
            let held = make_data_plain(alloc, data)?;
            Ok(NamedValue::Map(vec![in alloc; (name, held)]?))
        }
    }
}

/// That of what a struct or a variant holds.
#[cycle(plain)]
#[inline(never)]
fn make_data_plain<'a, 'n, 'p>(
    alloc: Global,
    held: NamedData<'a, 'n>,
) -> StdResult<Value<'p>, AllocError>
    ensures { IfOk result (λ v. tree_of v ≡ plain_data (tree_data_of held.entry)) }
{
    match held {
        NamedData::Unit => Ok(NamedValue::Unit),
        NamedData::NewType { value } => make_plain(alloc, value),
        NamedData::Tuple { values } => Ok(NamedValue::Seq(make_items_plain(alloc, values)?)),
        NamedData::Struct { fields } => Ok(NamedValue::Map(make_fields_plain(alloc, fields)?)),
    }
}

/// That of each item.
#[cycle(plain)]
#[inline(never)]
fn make_items_plain<'a, 'n, 'p>(
    alloc: Global,
    items: Vec<NamedValue<'a, 'n>>,
) -> StdResult<Vec<Value<'p>>, AllocError>
    ensures { IfOk result (λ made. trees_view made.items ≡
        plain_each (trees_view items.entry.items)) }
{
    let mut made = Vec::with_capacity(alloc, items.len())?;
    for item in items {
        made.push(make_plain(alloc, item)?)?;
    }
    Ok(made)
}

/// That of each pair, of the key too.
#[cycle(plain)]
#[inline(never)]
fn make_pairs_plain<'a, 'n, 'p>(
    alloc: Global,
    pairs: Vec<(NamedValue<'a, 'n>, NamedValue<'a, 'n>)>,
) -> StdResult<Vec<(Value<'p>, Value<'p>)>, AllocError>
    ensures { IfOk result (λ made. pairs_view made.items ≡
        plain_pairs (pairs_view pairs.entry.items)) }
{
    let mut made = Vec::with_capacity(alloc, pairs.len())?;
    for (key, value) in pairs {
        let key = make_plain(alloc, key)?;
        let value = make_plain(alloc, value)?;
        made.push((key, value))?;
    }
    Ok(made)
}

/// A pair of each field, the key as a text.
#[cycle(plain)]
#[inline(never)]
fn make_fields_plain<'a, 'n, 'p>(
    alloc: Global,
    fields: Vec<(CowStr<'n>, NamedValue<'a, 'n>)>,
) -> StdResult<Vec<(Value<'p>, Value<'p>)>, AllocError>
    ensures { IfOk result (λ made. pairs_view made.items ≡
        plain_fields (fields_view fields.entry.items)) }
{
    let mut made = Vec::with_capacity(alloc, fields.len())?;
    for (key, value) in fields {
        let key = make_owned(alloc, key)?;
        let value = make_plain(alloc, value)?;
        made.push((key, value))?;
    }
    Ok(made)
}
