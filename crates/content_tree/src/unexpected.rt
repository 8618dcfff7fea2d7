//! Errors of finding something else than what was expected.

ghost use Rattle.std.specs.Prelude.{Bool, true, false, ◌≡◌, [], Some, MatchResult};
ghost use Rattle.content_tree.specs.declared.error.ErrorKind.TheVariants as kind;
ghost use Rattle.content_tree.specs.Values.Value.{tree_of, struct_tree, enum_tree};
ghost use Rattle.content_tree.specs.Images.Image.{Image, image, number};
ghost use Rattle.content_tree.specs.Errors.Kind.{kind_of};
ghost use Rattle.content_tree.specs.Errors.Where.{places, IsNew};
ghost use Rattle.content_tree.specs.Errors.Unexpected.{IsUnexpected};

use crate::error::Error;
use crate::expected::Expected;
use crate::found::Found;
use crate::image::{found_enum, found_struct, found_value};
use crate::number::Number;
use crate::value::{NamedEnum, NamedStruct, NamedValue};
use std::alloc::{AllocError, Global};

/// What an error can show as found where something else was expected.
pub trait Unexpected {
    /// The image of what was found.
    ghost seen: { Self → Image };

    /// Whether the error takes memory.
    ghost takes_memory: { Bool };

    /// The error of finding this where `expected` was expected: of kind
    /// [`ErrorKind::Unexpected`](crate::ErrorKind) with the image of this, or of kind `OutOfMemory`
    /// where an allocation failed.
    fn unexpected(self, alloc: Global, expected: Expected) -> Error
        ensures kind { IsUnexpected (seen self) takes_memory expected (kind_of result) }
        ensures path { places result ≡ Some [] };
}

/// It takes no memory.
impl Unexpected for Number {
    ghost seen = { number };

    ghost takes_memory = { false };

    fn unexpected(self, _alloc: Global, expected: Expected) -> Error {
        Error::unexpected(Found::Number(self), expected)
    }
}

impl<'a, 'n> Unexpected for NamedValue<'a, 'n> {
    ghost seen = { λ v. image (tree_of v) };

    ghost takes_memory = { true };

    fn unexpected(self, alloc: Global, expected: Expected) -> Error {
        let mut value = self;
        refusal(found_value(alloc, &mut value), expected)
    }
}

impl<'a, 'n> Unexpected for Box<NamedStruct<'a, 'n>> {
    ghost seen = { λ b. image (struct_tree b.value) };

    ghost takes_memory = { true };

    fn unexpected(self, alloc: Global, expected: Expected) -> Error {
        let mut node = self;
        refusal(found_struct(alloc, &mut node), expected)
    }
}

impl<'a, 'n> Unexpected for Box<NamedEnum<'a, 'n>> {
    ghost seen = { λ b. image (enum_tree b.value) };

    ghost takes_memory = { true };

    fn unexpected(self, alloc: Global, expected: Expected) -> Error {
        let mut node = self;
        refusal(found_enum(alloc, &mut node), expected)
    }
}

/// The error of an image; where there was no memory for the image, that of kind `OutOfMemory`.
fn refusal(found: Result<Found, AllocError>, expected: Expected) -> Error
    ensures { MatchResult found (λ f. IsNew (kind.Unexpected f expected) result)
        (λ _. IsNew kind.OutOfMemory result) }
{
    match found {
        Ok(found) => Error::unexpected(found, expected),
        Err(refused) => Error::from(refused),
    }
}
