//! Values that own their texts and bytes.
//!
//! Inside, an `AllocError` alone is answered, and what holds parts is made anew by a function of
//! its own, so that a level of a deep value takes little stack.

ghost use Rattle.std.specs.Prelude.{◌≡◌, None, Ok, IsOk, IfOk, IfErr, IfSome};
ghost use Rattle.content_tree.specs.Errors.Kind.{IsOutOfMemory};
ghost use Rattle.content_tree.specs.Memory.{OwningTakesNoMemory, StructOwningTakesNoMemory};
ghost use Rattle.content_tree.specs.Memory.{DataOwningTakesNoMemory};
ghost use Rattle.content_tree.specs.Values.Cases.{string_at, vec_at, struct_name, enum_names};
ghost use Rattle.content_tree.specs.declared.cow.CowStr.TheVariants as text;
ghost use Rattle.content_tree.specs.declared.cow.CowBytes.TheVariants as bytes;
ghost use Rattle.content_tree.specs.declared.value.NamedValue as kind;
ghost use Rattle.content_tree.specs.Values.Text.{to_owned};
ghost use Rattle.content_tree.specs.Values.Tree.{owned, owned_data, at_texts_each, at_texts_pairs};
ghost use Rattle.content_tree.specs.Values.Tree.{at_texts_fields};
ghost use Rattle.content_tree.specs.Values.Value.{tree_of, tree_data_of, struct_tree, enum_tree};
ghost use Rattle.content_tree.specs.Values.Value.{held_view, trees_view, pairs_view, fields_view};

use crate::cow::{CowBytes, CowStr};
use crate::error::Result;
use crate::value::{NamedData, NamedEnum, NamedStruct, NamedValue};
use std::alloc::{AllocError, Global};
use std::result::Result as StdResult;

impl<'a, 'n> NamedValue<'a, 'n> {
    /// Makes every text and byte value in it owned, also in keys of maps; names stay as they were.
    /// Owned texts and bytes are moved, borrowed ones copied; vectors and boxes are made anew.
    /// Where an allocation fails: an error of kind `OutOfMemory`.
    pub fn into_owned(self, alloc: Global) -> Result<NamedValue<'static, 'n>>
        ensures value { IfOk result (λ own. tree_of own ≡ owned (tree_of self.entry)) }
        ensures succeeds { OwningTakesNoMemory (tree_of self.entry) → IsOk result }
        ensures text { IfSome (string_at self.entry)
            (λ own. result ≡ Ok (kind.String (text.Owned own))) }
        ensures bytes { IfSome (vec_at self.entry)
            (λ own. result ≡ Ok (kind.Bytes (bytes.Owned own))) }
        ensures memory { IfErr result (λ e. IsOutOfMemory e) }
    {
        Ok(own_value(alloc, self)?)
    }
}

impl<'a, 'n> NamedStruct<'a, 'n> {
    /// Makes every text and byte value in it owned, also in keys of maps; names stay as they were.
    /// Owned texts and bytes are moved, borrowed ones copied; vectors and boxes are made anew.
    /// Where an allocation fails: an error of kind `OutOfMemory`.
    pub fn into_owned(self, alloc: Global) -> Result<NamedStruct<'static, 'n>>
        ensures value { IfOk result (λ own. struct_tree own ≡ owned (struct_tree self.entry)) }
        ensures succeeds { StructOwningTakesNoMemory (struct_tree self.entry) → IsOk result }
        ensures name { IfOk result (λ own. struct_name own ≡ struct_name self.entry) }
        ensures memory { IfErr result (λ e. IsOutOfMemory e) }
    {
        let NamedStruct { name, data } = self;
        let data = own_data(alloc, data)?;
        Ok(NamedStruct { name, data })
    }
}

impl<'a, 'n> NamedEnum<'a, 'n> {
    /// Makes every text and byte value in it owned, also in keys of maps; names stay as they were.
    /// Owned texts and bytes are moved, borrowed ones copied; vectors and boxes are made anew.
    /// Where an allocation fails: an error of kind `OutOfMemory`.
    pub fn into_owned(self, alloc: Global) -> Result<NamedEnum<'static, 'n>>
        ensures value { IfOk result (λ own. enum_tree own ≡ owned (enum_tree self.entry)) }
        ensures succeeds { StructOwningTakesNoMemory (enum_tree self.entry) → IsOk result }
        ensures names { IfOk result (λ own. enum_names own ≡ enum_names self.entry) }
        ensures memory { IfErr result (λ e. IsOutOfMemory e) }
    {
        let NamedEnum {
            name,
            variant_index,
            variant,
            data,
        } = self;
        let data = own_data(alloc, data)?;
        Ok(NamedEnum {
            name,
            variant_index,
            variant,
            data,
        })
    }
}

impl<'a, 'n> NamedData<'a, 'n> {
    /// Makes every text and byte value in it owned, also in keys of maps; names stay as they were.
    /// Owned texts and bytes are moved, borrowed ones copied; vectors and boxes are made anew.
    /// Where an allocation fails: an error of kind `OutOfMemory`.
    pub fn into_owned(self, alloc: Global) -> Result<NamedData<'static, 'n>>
        ensures value { IfOk result (λ own. tree_data_of own ≡ owned_data
            (tree_data_of self.entry)) }
        ensures succeeds { DataOwningTakesNoMemory (tree_data_of self.entry) → IsOk result }
        ensures memory { IfErr result (λ e. IsOutOfMemory e) }
    {
        Ok(own_data(alloc, self)?)
    }
}

#[cycle(own_value)]
#[inline(always)]
fn own_value<'a, 'n>(
    alloc: Global,
    value: NamedValue<'a, 'n>,
) -> StdResult<NamedValue<'static, 'n>, AllocError>
    ensures value { IfOk result (λ own. tree_of own ≡ owned (tree_of value.entry)) }
    ensures succeeds { OwningTakesNoMemory (tree_of value.entry) → IsOk result }
    ensures text { IfSome (string_at value.entry)
        (λ own. result ≡ Ok (kind.String (text.Owned own))) }
    ensures bytes { IfSome (vec_at value.entry)
        (λ own. result ≡ Ok (kind.Bytes (bytes.Owned own))) }
{
    match value {
        NamedValue::Unit => Ok(NamedValue::Unit),
        NamedValue::Bool(boolean) => Ok(NamedValue::Bool(boolean)),
        NamedValue::Number(number) => Ok(NamedValue::Number(number)),
        NamedValue::Char(character) => Ok(NamedValue::Char(character)),
        NamedValue::String(text) => Ok(NamedValue::String(CowStr::Owned(text.own(alloc)?))),
        NamedValue::Bytes(bytes) => Ok(NamedValue::Bytes(CowBytes::Owned(bytes.own(alloc)?))),
        NamedValue::Seq(items) => Ok(NamedValue::Seq(own_items(alloc, items)?)),
        NamedValue::Map(pairs) => Ok(NamedValue::Map(own_pairs(alloc, pairs)?)),
        NamedValue::Option(held) => Ok(NamedValue::Option(own_held(alloc, held)?)),
        NamedValue::Struct(node) => Ok(NamedValue::Struct(own_struct(alloc, node)?)),
        NamedValue::Enum(node) => Ok(NamedValue::Enum(own_enum(alloc, node)?)),
        NamedValue::Tuple(items) => Ok(NamedValue::Tuple(own_items(alloc, items)?)),
    }
}

#[cycle(own_value)]
#[inline(never)]
fn own_struct<'a, 'n>(
    alloc: Global,
    node: Box<NamedStruct<'a, 'n>>,
) -> StdResult<Box<NamedStruct<'static, 'n>>, AllocError>
    ensures { IfOk result (λ own. struct_tree own.value ≡ owned
        (struct_tree node.entry.value)) }
{
    let NamedStruct { name, data } = Box::into_inner(node);
    let data = own_data(alloc, data)?;
    Ok(Box::new(alloc, NamedStruct { name, data })?)
}

#[cycle(own_value)]
#[inline(never)]
fn own_enum<'a, 'n>(
    alloc: Global,
    node: Box<NamedEnum<'a, 'n>>,
) -> StdResult<Box<NamedEnum<'static, 'n>>, AllocError>
    ensures { IfOk result (λ own. enum_tree own.value ≡ owned (enum_tree node.entry.value)) }
{
    let NamedEnum {
        name,
        variant_index,
        variant,
        data,
    } = Box::into_inner(node);
    let data = own_data(alloc, data)?;
    let owned = NamedEnum {
        name,
        variant_index,
        variant,
        data,
    };
    Ok(Box::new(alloc, owned)?)
}

#[cycle(own_value)]
#[inline(always)]
fn own_data<'a, 'n>(
    alloc: Global,
    inside: NamedData<'a, 'n>,
) -> StdResult<NamedData<'static, 'n>, AllocError>
    ensures value { IfOk result (λ own. tree_data_of own ≡ owned_data
        (tree_data_of inside.entry)) }
    ensures succeeds { DataOwningTakesNoMemory (tree_data_of inside.entry) → IsOk result }
{
    match inside {
        NamedData::Unit => Ok(NamedData::Unit),
        NamedData::NewType { value } => Ok(NamedData::NewType {
            value: own_value(alloc, value)?,
        }),
        NamedData::Tuple { values } => Ok(NamedData::Tuple {
            values: own_items(alloc, values)?,
        }),
        NamedData::Struct { fields } => Ok(NamedData::Struct {
            fields: own_fields(alloc, fields)?,
        }),
    }
}

#[cycle(own_value)]
#[inline(never)]
fn own_held<'a, 'n>(
    alloc: Global,
    held: Option<Box<NamedValue<'a, 'n>>>,
) -> StdResult<Option<Box<NamedValue<'static, 'n>>>, AllocError>
    ensures value { IfOk result (λ own. held_view own ≡ owned (held_view held.entry)) }
    ensures succeeds { held.entry ≡ None → IsOk result }
{
    match held {
        None => Ok(None),
        Some(value) => {
            let value = own_value(alloc, Box::into_inner(value))?;
            Ok(Some(Box::new(alloc, value)?))
        }
    }
}

#[cycle(own_value)]
#[inline(never)]
fn own_items<'a, 'n>(
    alloc: Global,
    items: Vec<NamedValue<'a, 'n>>,
) -> StdResult<Vec<NamedValue<'static, 'n>>, AllocError>
    ensures { IfOk result (λ own. trees_view own.items ≡ at_texts_each to_owned (λ n. n)
        (trees_view items.entry.items)) }
{
    let mut owned = Vec::with_capacity(alloc, items.len())?;
    for item in items {
        match item {
            // The commonest leaf is moved with no answer on the way.
            NamedValue::Number(number) => owned.push_reserved(NamedValue::Number(number)),
            item => owned.push_reserved(own_value(alloc, item)?),
        }
    }
    Ok(owned)
}

#[cycle(own_value)]
#[inline(never)]
fn own_pairs<'a, 'n>(
    alloc: Global,
    pairs: Vec<(NamedValue<'a, 'n>, NamedValue<'a, 'n>)>,
) -> StdResult<Vec<(NamedValue<'static, 'n>, NamedValue<'static, 'n>)>, AllocError>
    ensures { IfOk result (λ own. pairs_view own.items ≡ at_texts_pairs to_owned (λ n. n)
        (pairs_view pairs.entry.items)) }
{
    let mut owned = Vec::with_capacity(alloc, pairs.len())?;
    for (key, value) in pairs {
        let key = own_value(alloc, key)?;
        match value {
            NamedValue::Number(number) => owned.push_reserved((key, NamedValue::Number(number))),
            value => owned.push_reserved((key, own_value(alloc, value)?)),
        }
    }
    Ok(owned)
}

#[cycle(own_value)]
#[inline(never)]
fn own_fields<'a, 'n>(
    alloc: Global,
    fields: Vec<(CowStr<'n>, NamedValue<'a, 'n>)>,
) -> StdResult<Vec<(CowStr<'n>, NamedValue<'static, 'n>)>, AllocError>
    ensures { IfOk result (λ own. fields_view own.items ≡ at_texts_fields to_owned (λ n. n)
        (fields_view fields.entry.items)) }
{
    let mut owned = Vec::with_capacity(alloc, fields.len())?;
    for (key, value) in fields {
        match value {
            NamedValue::Number(number) => owned.push_reserved((key, NamedValue::Number(number))),
            value => owned.push_reserved((key, own_value(alloc, value)?)),
        }
    }
    Ok(owned)
}
