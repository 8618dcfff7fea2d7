//! The image of a value.
//!
//! Inside, an `AllocError` alone is answered, and a value is read in its place: its owned texts and
//! bytes are moved out of it, and the rest of it is dropped at the end. So the frame of a level
//! contains no item, and what holds parts has a function of its own.

ghost use Rattle.std.specs.Prelude.{◌≡◌, None, Ok, IsOk, IfOk, IfErr, IfSome};
ghost use Rattle.content_tree.specs.Values.Value.{tree_of, tree_data_of, struct_tree, enum_tree};
ghost use Rattle.content_tree.specs.Values.Value.{held_view, trees_view, pairs_view, fields_view};
ghost use Rattle.content_tree.specs.Images.Image.{image, image_data, image_each, image_pairs};
ghost use Rattle.content_tree.specs.Images.Image.{image_fields, structure, enumeration};
ghost use Rattle.content_tree.specs.Images.Image.{one, many, named};
ghost use Rattle.content_tree.specs.Values.Text.{text_of};
ghost use Rattle.content_tree.specs.Images.Found.{image_view, image_data_view, images_view};
ghost use Rattle.content_tree.specs.Images.Found.{image_pairs_view, image_fields_view, held_image};
ghost use Rattle.content_tree.specs.Errors.Kind.{IsOutOfMemory};
ghost use Rattle.content_tree.specs.Memory.{OwningTakesNoMemory};
ghost use Rattle.content_tree.specs.Values.Cases.{string_at, vec_at};
ghost use Rattle.content_tree.specs.declared.found.Found as found;

use crate::cow::CowStr;
use crate::error::Result;
use crate::found::{Found, FoundData};
use crate::value::{NamedData, NamedEnum, NamedStruct, NamedValue};
use std::alloc::{AllocError, Global};
use std::result::Result as StdResult;

impl<'a, 'n> NamedValue<'a, 'n> {
    /// Makes the image of the value, for an error: the same shape without the indices of variants.
    /// Owned texts, bytes and names are moved, borrowed ones copied.
    ///
    /// # Errors
    ///
    /// Out of memory, where an allocation failed.
    pub fn into_found(self, alloc: Global) -> Result<Found>
        ensures value { IfOk result (λ f. image_view f ≡ image (tree_of self.entry)) }
        ensures succeeds { OwningTakesNoMemory (tree_of self.entry) → IsOk result }
        ensures text { IfSome (string_at self.entry) (λ own. result ≡ Ok (found.String own)) }
        ensures bytes { IfSome (vec_at self.entry) (λ own. result ≡ Ok (found.Bytes own)) }
        ensures memory { IfErr result (λ e. IsOutOfMemory e) }
    {
        let mut value = self;
        Ok(found_value(alloc, &mut value)?)
    }
}

/// The image of a value, whose owned texts and bytes are taken.
#[cycle(image)]
#[inline(always)]
pub(crate) fn found_value<'a, 'n>(
    alloc: Global,
    value: &mut NamedValue<'a, 'n>,
) -> StdResult<Found, AllocError>
    ensures value { IfOk result (λ f. image_view f ≡ image (tree_of value.old)) }
    ensures succeeds { OwningTakesNoMemory (tree_of value.old) → IsOk result }
    ensures text { IfSome (string_at value.old) (λ own. result ≡ Ok (found.String own)) }
    ensures bytes { IfSome (vec_at value.old) (λ own. result ≡ Ok (found.Bytes own)) }
{
    match value {
        NamedValue::Unit => Ok(Found::Unit),
        NamedValue::Bool(flag) => Ok(Found::Bool(*flag)),
        NamedValue::Number(number) => Ok(Found::Number(*number)),
        NamedValue::Char(character) => Ok(Found::Char(*character)),
        NamedValue::String(text) => Ok(Found::String(text.take(alloc)?)),
        NamedValue::Bytes(bytes) => Ok(Found::Bytes(bytes.take(alloc)?)),
        NamedValue::Seq(items) => Ok(Found::Seq(found_items(alloc, items)?)),
        NamedValue::Map(pairs) => Ok(Found::Map(found_pairs(alloc, pairs)?)),
        NamedValue::Option(held) => Ok(Found::Option(found_option(alloc, held)?)),
        NamedValue::Struct(node) => found_struct(alloc, node),
        NamedValue::Enum(node) => found_enum(alloc, node),
        NamedValue::Tuple(items) => Ok(Found::Tuple(found_items(alloc, items)?)),
    }
}

/// The image of a struct.
#[cycle(image)]
#[inline(never)]
pub(crate) fn found_struct<'a, 'n>(
    alloc: Global,
    node: &mut NamedStruct<'a, 'n>,
) -> StdResult<Found, AllocError>
    ensures { IfOk result (λ f. image_view f ≡ image (struct_tree node.old)) }
{
    let inside = found_data(alloc, &mut node.data)?;
    name_struct(alloc, &mut node.name, inside)
}

/// The image of a variant.
#[cycle(image)]
#[inline(never)]
pub(crate) fn found_enum<'a, 'n>(
    alloc: Global,
    node: &mut NamedEnum<'a, 'n>,
) -> StdResult<Found, AllocError>
    ensures { IfOk result (λ f. image_view f ≡ image (enum_tree node.old)) }
{
    let inside = found_data(alloc, &mut node.data)?;
    name_enum(alloc, &mut node.name, &mut node.variant, inside)
}

/// The image of a struct of this name.
#[inline(never)]
fn name_struct<'n>(
    alloc: Global,
    name: &mut CowStr<'n>,
    inside: Box<FoundData>,
) -> StdResult<Found, AllocError>
    ensures { IfOk result (λ f. image_view f ≡ structure (text_of name.old).content
        (image_data_view inside.value)) }
{
    let name = name.take(alloc)?;
    Ok(Found::Struct { name, data: inside })
}

/// The image of a variant of these names.
#[inline(never)]
fn name_enum<'n>(
    alloc: Global,
    name: &mut CowStr<'n>,
    variant: &mut CowStr<'n>,
    inside: Box<FoundData>,
) -> StdResult<Found, AllocError>
    ensures { IfOk result (λ f. image_view f ≡ enumeration (text_of name.old).content
        (text_of variant.old).content (image_data_view inside.value)) }
{
    let name = name.take(alloc)?;
    let variant = variant.take(alloc)?;
    Ok(Found::Enum {
        name,
        variant,
        data: inside,
    })
}

/// What holds images by place, in a box.
#[inline(never)]
fn box_items(alloc: Global, items: Vec<Found>) -> StdResult<Box<FoundData>, AllocError>
    ensures { IfOk result (λ boxed. image_data_view boxed.value ≡ many
        (images_view items.items)) }
{
    Ok(Box::new(alloc, FoundData::Tuple(items))?)
}

/// What holds images by key, in a box.
#[inline(never)]
fn box_fields(alloc: Global, fields: Vec<(String, Found)>) -> StdResult<Box<FoundData>, AllocError>
    ensures { IfOk result (λ boxed. image_data_view boxed.value ≡ named
        (image_fields_view fields.items)) }
{
    Ok(Box::new(alloc, FoundData::Struct(fields))?)
}

/// What holds one image, in a box.
#[cycle(image)]
#[inline(never)]
fn found_newtype<'a, 'n>(
    alloc: Global,
    value: &mut NamedValue<'a, 'n>,
) -> StdResult<Box<FoundData>, AllocError>
    ensures { IfOk result (λ boxed. image_data_view boxed.value ≡ one
        (image (tree_of value.old))) }
{
    let value = found_value(alloc, value)?;
    Ok(Box::new(alloc, FoundData::NewType(value))?)
}

#[cycle(image)]
#[inline(always)]
fn found_data<'a, 'n>(
    alloc: Global,
    inside: &mut NamedData<'a, 'n>,
) -> StdResult<Box<FoundData>, AllocError>
    ensures { IfOk result (λ boxed. image_data_view boxed.value ≡ image_data
        (tree_data_of inside.old)) }
{
    match inside {
        NamedData::Unit => Ok(Box::new(alloc, FoundData::Unit)?),
        NamedData::NewType { value } => found_newtype(alloc, value),
        NamedData::Tuple { values } => box_items(alloc, found_items(alloc, values)?),
        NamedData::Struct { fields } => Ok(box_fields(alloc, found_fields(alloc, fields)?)?),
    }
}

#[cycle(image)]
#[inline(never)]
fn found_option<'a, 'n>(
    alloc: Global,
    held: &mut Option<Box<NamedValue<'a, 'n>>>,
) -> StdResult<Option<Box<Found>>, AllocError>
    ensures value { IfOk result (λ f. held_image f ≡ image (held_view held.old)) }
    ensures succeeds { held.old ≡ None → IsOk result }
{
    match held {
        None => Ok(None),
        Some(value) => {
            let value = found_value(alloc, value)?;
            Ok(Some(Box::new(alloc, value)?))
        }
    }
}

#[cycle(image)]
#[inline(never)]
fn found_items<'a, 'n>(
    alloc: Global,
    items: &mut Vec<NamedValue<'a, 'n>>,
) -> StdResult<Vec<Found>, AllocError>
    ensures { IfOk result (λ f. images_view f.items ≡ image_each
        (trees_view items.old.items)) }
{
    let mut found = Vec::with_capacity(alloc, items.len())?;
    for item in items.iter_mut() {
        match item {
            // The commonest leaf is copied with no answer on the way.
            NamedValue::Number(number) => found.push_reserved(Found::Number(*number)),
            item => found.push_reserved(found_value(alloc, item)?),
        }
    }
    Ok(found)
}

#[cycle(image)]
#[inline(never)]
fn found_pairs<'a, 'n>(
    alloc: Global,
    pairs: &mut Vec<(NamedValue<'a, 'n>, NamedValue<'a, 'n>)>,
) -> StdResult<Vec<(Found, Found)>, AllocError>
    ensures { IfOk result (λ f. image_pairs_view f.items ≡ image_pairs
        (pairs_view pairs.old.items)) }
{
    let mut found = Vec::with_capacity(alloc, pairs.len())?;
    for (key, value) in pairs.iter_mut() {
        let key = match key {
            NamedValue::String(text) => Found::String(text.take(alloc)?),
            key => found_value(alloc, key)?,
        };
        match value {
            NamedValue::Number(number) => found.push_reserved((key, Found::Number(*number))),
            value => found.push_reserved((key, found_value(alloc, value)?)),
        }
    }
    Ok(found)
}

#[cycle(image)]
#[inline(never)]
fn found_fields<'a, 'n>(
    alloc: Global,
    fields: &mut Vec<(CowStr<'n>, NamedValue<'a, 'n>)>,
) -> StdResult<Vec<(String, Found)>, AllocError>
    ensures { IfOk result (λ f. image_fields_view f.items ≡ image_fields
        (fields_view fields.old.items)) }
{
    let mut found = Vec::with_capacity(alloc, fields.len())?;
    for (key, value) in fields.iter_mut() {
        let key = key.take(alloc)?;
        match value {
            NamedValue::Number(number) => found.push_reserved((key, Found::Number(*number))),
            value => found.push_reserved((key, found_value(alloc, value)?)),
        }
    }
    Ok(found)
}
