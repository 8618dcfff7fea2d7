//! Copies of images.
//!
//! Inside, a copy answers `AllocError` alone, and what holds parts is copied by a function of its
//! own, so that a level of a deep image takes little stack.

ghost use Rattle.std.specs.Prelude.{◌≡◌, None, IsTrue, IsOk, IfOk, IfErr};
ghost use Rattle.content_tree.specs.Images.Found.{image_view, image_data_view, images_view};
ghost use Rattle.content_tree.specs.Images.Found.{image_pairs_view, image_fields_view, held_image};
ghost use Rattle.content_tree.specs.Images.Image.{structure, enumeration};
ghost use Rattle.content_tree.specs.Errors.Kind.{IsOutOfMemory};
ghost use Rattle.content_tree.specs.Memory.{is_free_image, is_free_image_data};

use crate::error::Result;
use crate::found::{Found, FoundData};
use std::alloc::{AllocError, Global};
use std::result::Result as StdResult;

impl Found {
    /// Copies the image.
    ///
    /// It takes memory for owned texts, vectors and boxes, and nothing for the rest; where that
    /// fails: an error of kind `OutOfMemory`.
    pub fn try_clone(&self, alloc: Global) -> Result<Found>
        ensures value { IfOk result (λ copy. image_view copy ≡ image_view self.now) }
        ensures succeeds { IsTrue (is_free_image (image_view self.now)) → IsOk result }
        ensures memory { IfErr result (λ e. IsOutOfMemory e) }
    {
        Ok(clone_found(alloc, self)?)
    }
}

impl FoundData {
    /// Copies the image.
    ///
    /// It takes memory for owned texts, vectors and boxes, and nothing for the rest; where that
    /// fails: an error of kind `OutOfMemory`.
    pub fn try_clone(&self, alloc: Global) -> Result<FoundData>
        ensures value { IfOk result (λ copy. image_data_view copy ≡ image_data_view self.now) }
        ensures succeeds { IsTrue (is_free_image_data (image_data_view self.now)) → IsOk result }
        ensures memory { IfErr result (λ e. IsOutOfMemory e) }
    {
        Ok(clone_data(alloc, self)?)
    }
}

#[cycle(copy_found)]
#[inline(always)]
fn clone_found(alloc: Global, found: &Found) -> StdResult<Found, AllocError>
    ensures value { IfOk result (λ copy. image_view copy ≡ image_view found.now) }
    ensures succeeds { IsTrue (is_free_image (image_view found.now)) → IsOk result }
{
    match found {
        Found::Unit => Ok(Found::Unit),
        Found::Bool(boolean) => Ok(Found::Bool(*boolean)),
        Found::Number(number) => Ok(Found::Number(*number)),
        Found::Char(character) => Ok(Found::Char(*character)),
        Found::String(text) => Ok(Found::String(String::from_str(alloc, text.as_str())?)),
        Found::Bytes(bytes) => Ok(Found::Bytes(bytes.as_slice().to_vec(alloc)?)),
        Found::Seq(items) => Ok(Found::Seq(clone_items(alloc, items)?)),
        Found::Map(pairs) => Ok(Found::Map(clone_pairs(alloc, pairs)?)),
        Found::Option(held) => Ok(Found::Option(clone_held(alloc, held)?)),
        Found::Struct { name, data } => {
            let data = clone_boxed_data(alloc, data)?;
            name_struct(alloc, name.as_str(), data)
        }
        Found::Enum {
            name,
            variant,
            data,
        } => {
            let data = clone_boxed_data(alloc, data)?;
            name_enum(alloc, name.as_str(), variant.as_str(), data)
        }
        Found::Tuple(items) => Ok(Found::Tuple(clone_items(alloc, items)?)),
        Found::Identifier(text) => Ok(Found::Identifier(String::from_str(alloc, text.as_str())?)),
    }
}

/// The image of a struct of this name.
#[inline(never)]
fn name_struct(alloc: Global, name: &str, inside: Box<FoundData>) -> StdResult<Found, AllocError>
    ensures { IfOk result (λ f. image_view f ≡ structure name.now (image_data_view inside.value)) }
{
    let name = String::from_str(alloc, name)?;
    Ok(Found::Struct { name, data: inside })
}

/// The image of a variant of these names.
#[inline(never)]
fn name_enum(
    alloc: Global,
    name: &str,
    variant: &str,
    inside: Box<FoundData>,
) -> StdResult<Found, AllocError>
    ensures { IfOk result (λ f. image_view f ≡ enumeration name.now variant.now
        (image_data_view inside.value)) }
{
    let name = String::from_str(alloc, name)?;
    let variant = String::from_str(alloc, variant)?;
    Ok(Found::Enum {
        name,
        variant,
        data: inside,
    })
}

#[cycle(copy_found)]
#[inline(never)]
fn clone_boxed_data(alloc: Global, inside: &FoundData) -> StdResult<Box<FoundData>, AllocError>
    ensures { IfOk result (λ copy. image_data_view copy.value ≡ image_data_view inside.now) }
{
    let copy = clone_data(alloc, inside)?;
    Ok(Box::new(alloc, copy)?)
}

#[cycle(copy_found)]
#[inline(always)]
fn clone_data(alloc: Global, inside: &FoundData) -> StdResult<FoundData, AllocError>
    ensures value { IfOk result (λ copy. image_data_view copy ≡ image_data_view inside.now) }
    ensures succeeds { IsTrue (is_free_image_data (image_data_view inside.now)) → IsOk result }
{
    match inside {
        FoundData::Unit => Ok(FoundData::Unit),
        FoundData::NewType(found) => Ok(FoundData::NewType(clone_found(alloc, found)?)),
        FoundData::Tuple(items) => Ok(FoundData::Tuple(clone_items(alloc, items)?)),
        FoundData::Struct(fields) => Ok(FoundData::Struct(clone_fields(alloc, fields)?)),
    }
}

#[cycle(copy_found)]
#[inline(never)]
fn clone_held(alloc: Global, held: &Option<Box<Found>>) -> StdResult<Option<Box<Found>>, AllocError>
    ensures value { IfOk result (λ copy. held_image copy ≡ held_image held.now) }
    ensures succeeds { held.now ≡ None → IsOk result }
{
    match held {
        None => Ok(None),
        Some(found) => {
            let copy = clone_found(alloc, found)?;
            Ok(Some(Box::new(alloc, copy)?))
        }
    }
}

#[cycle(copy_found)]
#[inline(never)]
fn clone_items(alloc: Global, items: &Vec<Found>) -> StdResult<Vec<Found>, AllocError>
    ensures value { IfOk result (λ copies. images_view copies.items ≡ images_view items.now.items) }
{
    let mut copies = Vec::with_capacity(alloc, items.len())?;
    for item in items {
        copies.push_reserved(clone_found(alloc, item)?);
    }
    Ok(copies)
}

#[cycle(copy_found)]
#[inline(never)]
fn clone_pairs(
    alloc: Global,
    pairs: &Vec<(Found, Found)>,
) -> StdResult<Vec<(Found, Found)>, AllocError>
    ensures value { IfOk result (λ copies. image_pairs_view copies.items ≡ image_pairs_view
        pairs.now.items) }
{
    let mut copies = Vec::with_capacity(alloc, pairs.len())?;
    for (key, value) in pairs {
        let key = clone_found(alloc, key)?;
        let value = clone_found(alloc, value)?;
        copies.push_reserved((key, value));
    }
    Ok(copies)
}

#[cycle(copy_found)]
#[inline(never)]
fn clone_fields(
    alloc: Global,
    fields: &Vec<(String, Found)>,
) -> StdResult<Vec<(String, Found)>, AllocError>
    ensures value { IfOk result (λ copies. image_fields_view copies.items ≡ image_fields_view
        fields.now.items) }
{
    let mut copies = Vec::with_capacity(alloc, fields.len())?;
    for (key, value) in fields {
        let key = String::from_str(alloc, key.as_str())?;
        let value = clone_found(alloc, value)?;
        copies.push_reserved((key, value));
    }
    Ok(copies)
}
