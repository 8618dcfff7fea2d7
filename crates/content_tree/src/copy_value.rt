//! Copies of values: the same tree, each text and name borrowed or owned as before.
//!
//! Inside, a copy answers `AllocError` alone, and what holds parts is copied by a function of its
//! own, so that a level of a deep value takes little stack.

ghost use Rattle.std.specs.Prelude.{◌≡◌, None, IsOk, IfOk, IfErr};
ghost use Rattle.content_tree.specs.Errors.Kind.{IsOutOfMemory};
ghost use Rattle.content_tree.specs.Memory.{CopyTakesNoMemory, StructCopyTakesNoMemory};
ghost use Rattle.content_tree.specs.Memory.{DataCopyTakesNoMemory};
ghost use Rattle.content_tree.specs.Values.Text.{text_of};
ghost use Rattle.content_tree.specs.Values.Tree.{structure, enumeration};
ghost use Rattle.content_tree.specs.Values.Value.{tree_of, tree_data_of, struct_tree, enum_tree};
ghost use Rattle.content_tree.specs.Values.Value.{held_view, trees_view, pairs_view, fields_view};

use crate::cow::CowStr;
use crate::error::Result;
use crate::value::{NamedData, NamedEnum, NamedStruct, NamedValue};
use std::alloc::{AllocError, Global};
use std::result::Result as StdResult;

impl<'a, 'n> NamedValue<'a, 'n> {
    /// Makes a copy: the same tree, with each text, byte value and name borrowed or owned as here.
    ///
    /// It takes memory for owned texts, vectors and boxes, and nothing for the rest; where that
    /// fails: an error of kind `OutOfMemory`.
    pub fn try_clone(&self, alloc: Global) -> Result<NamedValue<'a, 'n>>
        ensures value { IfOk result (λ copy. tree_of copy ≡ tree_of self.now) }
        ensures succeeds { CopyTakesNoMemory (tree_of self.now) → IsOk result }
        ensures memory { IfErr result (λ e. IsOutOfMemory e) }
    {
        Ok(clone_value(alloc, self)?)
    }
}

impl<'a, 'n> NamedStruct<'a, 'n> {
    /// Makes a copy: the same tree, with each text, byte value and name borrowed or owned as here.
    ///
    /// It takes memory for owned texts, vectors and boxes, and nothing for the rest; where that
    /// fails: an error of kind `OutOfMemory`.
    pub fn try_clone(&self, alloc: Global) -> Result<NamedStruct<'a, 'n>>
        ensures value { IfOk result (λ copy. struct_tree copy ≡ struct_tree self.now) }
        ensures succeeds { StructCopyTakesNoMemory (struct_tree self.now) → IsOk result }
        ensures memory { IfErr result (λ e. IsOutOfMemory e) }
    {
        let name = self.name.copy(alloc)?;
        let data = clone_data(alloc, &self.data)?;
        Ok(NamedStruct { name, data })
    }
}

impl<'a, 'n> NamedEnum<'a, 'n> {
    /// Makes a copy: the same tree, with each text, byte value and name borrowed or owned as here.
    ///
    /// It takes memory for owned texts, vectors and boxes, and nothing for the rest; where that
    /// fails: an error of kind `OutOfMemory`.
    pub fn try_clone(&self, alloc: Global) -> Result<NamedEnum<'a, 'n>>
        ensures value { IfOk result (λ copy. enum_tree copy ≡ enum_tree self.now) }
        ensures succeeds { StructCopyTakesNoMemory (enum_tree self.now) → IsOk result }
        ensures memory { IfErr result (λ e. IsOutOfMemory e) }
    {
        let name = self.name.copy(alloc)?;
        let variant = self.variant.copy(alloc)?;
        let data = clone_data(alloc, &self.data)?;
        Ok(NamedEnum {
            name,
            variant_index: self.variant_index,
            variant,
            data,
        })
    }
}

impl<'a, 'n> NamedData<'a, 'n> {
    /// Makes a copy: the same tree, with each text, byte value and name borrowed or owned as here.
    ///
    /// It takes memory for owned texts, vectors and boxes, and nothing for the rest; where that
    /// fails: an error of kind `OutOfMemory`.
    pub fn try_clone(&self, alloc: Global) -> Result<NamedData<'a, 'n>>
        ensures value { IfOk result (λ copy. tree_data_of copy ≡ tree_data_of self.now) }
        ensures succeeds { DataCopyTakesNoMemory (tree_data_of self.now) → IsOk result }
        ensures memory { IfErr result (λ e. IsOutOfMemory e) }
    {
        Ok(clone_data(alloc, self)?)
    }
}

#[cycle(copy_value)]
#[inline(always)]
fn clone_value<'a, 'n>(
    alloc: Global,
    value: &NamedValue<'a, 'n>,
) -> StdResult<NamedValue<'a, 'n>, AllocError>
    ensures value { IfOk result (λ copy. tree_of copy ≡ tree_of value.now) }
    ensures succeeds { CopyTakesNoMemory (tree_of value.now) → IsOk result }
{
    match value {
        NamedValue::Unit => Ok(NamedValue::Unit),
        NamedValue::Bool(boolean) => Ok(NamedValue::Bool(*boolean)),
        NamedValue::Number(number) => Ok(NamedValue::Number(*number)),
        NamedValue::Char(character) => Ok(NamedValue::Char(*character)),
        NamedValue::String(text) => Ok(NamedValue::String(text.copy(alloc)?)),
        NamedValue::Bytes(bytes) => Ok(NamedValue::Bytes(bytes.copy(alloc)?)),
        NamedValue::Seq(items) => Ok(NamedValue::Seq(clone_items(alloc, items)?)),
        NamedValue::Map(pairs) => Ok(NamedValue::Map(clone_pairs(alloc, pairs)?)),
        NamedValue::Option(held) => Ok(NamedValue::Option(clone_held(alloc, held)?)),
        NamedValue::Struct(node) => Ok(NamedValue::Struct(clone_boxed_struct(alloc, node)?)),
        NamedValue::Enum(node) => Ok(NamedValue::Enum(clone_boxed_enum(alloc, node)?)),
        NamedValue::Tuple(items) => Ok(NamedValue::Tuple(clone_items(alloc, items)?)),
    }
}

/// A boxed struct: what it holds is copied first, and its name and its box are made by a function
/// of their own.
#[cycle(copy_value)]
#[inline(never)]
fn clone_boxed_struct<'a, 'n>(
    alloc: Global,
    node: &NamedStruct<'a, 'n>,
) -> StdResult<Box<NamedStruct<'a, 'n>>, AllocError>
    ensures value { IfOk result (λ copy. struct_tree copy.value ≡ struct_tree node.now) }
{
    let data = clone_data(alloc, &node.data)?;
    box_struct(alloc, &node.name, data)
}

/// A box of a struct with a copy of this name.
#[inline(never)]
fn box_struct<'a, 'n>(
    alloc: Global,
    name: &CowStr<'n>,
    inside: NamedData<'a, 'n>,
) -> StdResult<Box<NamedStruct<'a, 'n>>, AllocError>
    ensures { IfOk result (λ own. struct_tree own.value ≡ structure (text_of name.now)
        (tree_data_of inside.entry)) }
{
    let name = name.copy(alloc)?;
    Ok(Box::new(alloc, NamedStruct { name, data: inside })?)
}

/// The same of a variant.
#[cycle(copy_value)]
#[inline(never)]
fn clone_boxed_enum<'a, 'n>(
    alloc: Global,
    node: &NamedEnum<'a, 'n>,
) -> StdResult<Box<NamedEnum<'a, 'n>>, AllocError>
    ensures value { IfOk result (λ copy. enum_tree copy.value ≡ enum_tree node.now) }
{
    let data = clone_data(alloc, &node.data)?;
    box_enum(alloc, &node.name, node.variant_index, &node.variant, data)
}

/// A box of a variant with copies of these names.
#[inline(never)]
fn box_enum<'a, 'n>(
    alloc: Global,
    name: &CowStr<'n>,
    variant_index: u32,
    variant: &CowStr<'n>,
    inside: NamedData<'a, 'n>,
) -> StdResult<Box<NamedEnum<'a, 'n>>, AllocError>
    ensures { IfOk result (λ own. enum_tree own.value ≡ enumeration (text_of name.now)
        variant_index (text_of variant.now) (tree_data_of inside.entry)) }
{
    let name = name.copy(alloc)?;
    let variant = variant.copy(alloc)?;
    let node = NamedEnum {
        name,
        variant_index,
        variant,
        data: inside,
    };
    Ok(Box::new(alloc, node)?)
}

#[cycle(copy_value)]
#[inline(always)]
fn clone_data<'a, 'n>(
    alloc: Global,
    inside: &NamedData<'a, 'n>,
) -> StdResult<NamedData<'a, 'n>, AllocError>
    ensures value { IfOk result (λ copy. tree_data_of copy ≡ tree_data_of inside.now) }
    ensures succeeds { DataCopyTakesNoMemory (tree_data_of inside.now) → IsOk result }
{
    match inside {
        NamedData::Unit => Ok(NamedData::Unit),
        NamedData::NewType { value } => Ok(NamedData::NewType {
            value: clone_value(alloc, value)?,
        }),
        NamedData::Tuple { values } => Ok(NamedData::Tuple {
            values: clone_items(alloc, values)?,
        }),
        NamedData::Struct { fields } => Ok(NamedData::Struct {
            fields: clone_fields(alloc, fields)?,
        }),
    }
}

#[cycle(copy_value)]
#[inline(never)]
fn clone_held<'a, 'n>(
    alloc: Global,
    held: &Option<Box<NamedValue<'a, 'n>>>,
) -> StdResult<Option<Box<NamedValue<'a, 'n>>>, AllocError>
    ensures value { IfOk result (λ copy. held_view copy ≡ held_view held.now) }
    ensures succeeds { held.now ≡ None → IsOk result }
{
    match held {
        None => Ok(None),
        Some(value) => {
            let copy = clone_value(alloc, value)?;
            Ok(Some(Box::new(alloc, copy)?))
        }
    }
}

#[cycle(copy_value)]
#[inline(never)]
fn clone_items<'a, 'n>(
    alloc: Global,
    items: &Vec<NamedValue<'a, 'n>>,
) -> StdResult<Vec<NamedValue<'a, 'n>>, AllocError>
    ensures value { IfOk result (λ copies. trees_view copies.items ≡ trees_view items.now.items) }
{
    let mut copies = Vec::with_capacity(alloc, items.len())?;
    for item in items {
        copies.push_reserved(clone_value(alloc, item)?);
    }
    Ok(copies)
}

#[cycle(copy_value)]
#[inline(never)]
fn clone_pairs<'a, 'n>(
    alloc: Global,
    pairs: &Vec<(NamedValue<'a, 'n>, NamedValue<'a, 'n>)>,
) -> StdResult<Vec<(NamedValue<'a, 'n>, NamedValue<'a, 'n>)>, AllocError>
    ensures value { IfOk result (λ copies. pairs_view copies.items ≡ pairs_view pairs.now.items) }
{
    let mut copies = Vec::with_capacity(alloc, pairs.len())?;
    for (key, value) in pairs {
        let key = clone_value(alloc, key)?;
        let value = clone_value(alloc, value)?;
        copies.push_reserved((key, value));
    }
    Ok(copies)
}

#[cycle(copy_value)]
#[inline(never)]
fn clone_fields<'a, 'n>(
    alloc: Global,
    fields: &Vec<(CowStr<'n>, NamedValue<'a, 'n>)>,
) -> StdResult<Vec<(CowStr<'n>, NamedValue<'a, 'n>)>, AllocError>
    ensures value { IfOk result (λ copies. fields_view copies.items ≡ fields_view
        fields.now.items) }
{
    let mut copies = Vec::with_capacity(alloc, fields.len())?;
    for (key, value) in fields {
        let key = key.copy(alloc)?;
        let value = clone_value(alloc, value)?;
        copies.push_reserved((key, value));
    }
    Ok(copies)
}
