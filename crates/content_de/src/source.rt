//! What a deserializer reads from.

ghost use Rattle.std.specs.Prelude.{◌≡◌, ◌≢◌, IfOk, IfErr};
ghost use Rattle.content_tree.specs.Errors.Kind.{IsOutOfMemory};
ghost use Rattle.content_tree.specs.Images.Found.{image_view};
ghost use Rattle.content_de.specs.Outcomes.{cause, mismatch};
ghost use Rattle.content_de.specs.Sources.Origin.{origin_image, buffering};
ghost use Rattle.content_de.specs.Sources.Deserializer.{origin_of, flags_of};
ghost use Rattle.content_tree.specs.Errors.Cause.{expectation_of, out_of_memory};
ghost use Rattle.content_de.specs.Requests.Names.{a_struct, an_enum};

use crate::refusal::{a_struct, an_enum, refusal};
use content_tree::{CowStr, DataType, Error, Expected, Found, NamedValue, Result};
use std::alloc::Global;

/// A tree, or the name of a field or a variant with its index.
#[derive(Debug, Drop, PartialEq, Eq, PartialOrd, Ord)]
pub(crate) enum Source<'de, 'n> {
    /// A tree.
    Tree(NamedValue<'de, 'n>),
    /// A name with its index.
    Identifier {
        /// The name.
        name: CowStr<'n>,
        /// The place of the field, or the index of the variant.
        index: u64,
    },
}

/// The flags.
#[derive(Clone, Copy, Debug, PartialEq, Eq, PartialOrd, Ord)]
pub(crate) struct Flags {
    /// What is read is human readable.
    pub(crate) human_readable: bool,
    /// Numbers are coerced.
    pub(crate) coerces: bool,
    /// It is read as Serde reads out of a buffer.
    pub(crate) buffered: bool,
}

impl Flags {
    /// The flags in a buffer: numbers are coerced there.
    pub(crate) fn buffering(self) -> Flags
        ensures { flags_of result ≡ buffering (flags_of self) }
    {
        Flags {
            human_readable: self.human_readable,
            coerces: true,
            buffered: true,
        }
    }
}

impl<'de, 'n> Source<'de, 'n> {
    /// The image of the source.
    fn into_found(self, alloc: Global) -> Result<Found>
        ensures value { IfOk result (λ f. image_view f ≡ origin_image (origin_of self.entry)) }
        ensures memory { IfErr result (λ e. IsOutOfMemory e) }
    {
        match self {
            Source::Tree(value) => value.into_found(alloc),
            Source::Identifier { name, index: _ } => {
                Ok(Found::Identifier(name.into_owned(alloc)?))
            }
        }
    }

    /// The error of finding this where `expected` was expected.
    pub(crate) fn refuse(self, alloc: Global, expected: Expected) -> Error
        ensures { cause result ≢ out_of_memory →
            cause result ≡ mismatch (origin_of self.entry) (expectation_of expected) }
    {
        refusal(self.into_found(alloc), Ok(expected))
    }

    /// The error of finding this where a struct of this name and type was expected.
    pub(crate) fn refuse_struct(self, alloc: Global, name: &str, typ: DataType) -> Error
        ensures { cause result ≢ out_of_memory →
            cause result ≡ mismatch (origin_of self.entry) (a_struct name.now typ) }
    {
        refusal(self.into_found(alloc), a_struct(alloc, name, typ))
    }

    /// The error of finding this where a variant of the enum of this name was expected.
    pub(crate) fn refuse_enum(self, alloc: Global, name: &str) -> Error
        ensures { cause result ≢ out_of_memory →
            cause result ≡ mismatch (origin_of self.entry) (an_enum name.now) }
    {
        refusal(self.into_found(alloc), an_enum(alloc, name))
    }
}
