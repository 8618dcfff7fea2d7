//! A variant of an enum, before its tag is read.

ghost use Rattle.std.specs.Prelude.{◌≡◌, IsOk, IfOk, IfErr};
ghost use Rattle.content_tree.specs.Errors.Kind.{IsOutOfMemory};
ghost use Rattle.content_de.specs.Sources.Deserializer.{subject};
ghost use Rattle.content_de.specs.Accesses.Enum.{enum_view, variant_view, tag_of};
ghost use Rattle.content_de.specs.Accesses.Enum.{TagTakesNoMemory};

use crate::deserializer::Deserializer;
use crate::source::Flags;
use crate::variant_access::{Held, VariantAccess};
use content_tree::{CowStr, NamedEnum, NamedValue, Result};
use std::alloc::Global;

/// The name of the enum that errors say was expected.
#[derive(Clone, Copy)]
pub(crate) enum Requested<'n> {
    /// The name that was asked for.
    Named(&'n str),
    /// The name of the node itself.
    Own,
}

/// What can be read as a variant.
#[derive(Drop)]
pub(crate) enum Tagged<'de, 'n> {
    /// A variant itself.
    Node(Box<NamedEnum<'de, 'n>>),
    /// A text, which is the tag of a variant without data.
    Text(CowStr<'de>),
    /// The one entry of a map: the tag and what the variant holds.
    Entry(NamedValue<'de, 'n>, NamedValue<'de, 'n>),
}

/// Reads the tag of a variant: of the node of an enum, a text, or a map of one entry.
#[derive(Drop)]
pub struct EnumAccess<'de, 'n> {
    pub(crate) requested: Requested<'n>,
    pub(crate) tagged: Tagged<'de, 'n>,
    pub(crate) flags: Flags,
}

impl<'de, 'n> EnumAccess<'de, 'n> {
    /// Gives the tag, to be read under the flags of the enum, and what the variant holds. The tag
    /// of a variant's own node is its name, which as a number is its index.
    ///
    /// It takes memory for a copy of a name that is owned, and none else.
    ///
    /// # Errors
    ///
    /// Out of memory, where that copy failed.
    pub fn variant_deserializer(
        self,
        alloc: Global,
    ) -> Result<(Deserializer<'de, 'n>, VariantAccess<'de, 'n>)>
        ensures tag { IfOk result (λ p. subject p.0 ≡ tag_of (enum_view self.entry)) }
        ensures variant { IfOk result (λ p. variant_view p.1 ≡ (enum_view self.entry).variant) }
        ensures succeeds { TagTakesNoMemory (enum_view self.entry).tag → IsOk result }
        ensures memory { IfErr result (λ e. IsOutOfMemory e) }
    {
        let EnumAccess {
            requested,
            tagged,
            flags,
        } = self;
        match tagged {
            Tagged::Node(node) => {
                let name = node.variant.try_clone(alloc)?;
                let index = u64::from(node.variant_index);
                let tag = Deserializer::identifier(name, index, flags);
                let held = Held::Node(node);
                Ok((tag, VariantAccess::new(requested, held, flags)))
            }
            Tagged::Text(text) => {
                let tag = Deserializer::inside(NamedValue::String(text), flags);
                Ok((tag, VariantAccess::new(requested, Held::Nothing, flags)))
            }
            Tagged::Entry(key, value) => {
                let tag = Deserializer::inside(key, flags);
                let held = Held::Value(value);
                Ok((tag, VariantAccess::new(requested, held, flags)))
            }
        }
    }
}
