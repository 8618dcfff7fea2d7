//! Requests for data without parts.

#![tactic(auto, using(crate::proofs::Values::values))]

ghost use Rattle.std.specs.Prelude.{◌≡◌, option_map};
ghost use Rattle.content_tree.specs.Values.Text.{text_of, bytes_of};
ghost use Rattle.content_de.specs.Outcomes.{Answers, taken};
ghost use Rattle.content_de.specs.Requests.Leaves.{bool_from, char_from, unit_from, text_from};
ghost use Rattle.content_de.specs.Requests.Leaves.{bytes_from, name_from, held_by};
ghost use Rattle.content_de.specs.Sources.Deserializer.{subject};

use crate::contents::variant_name;
use crate::deserializer::Deserializer;
use crate::source::Source;
use content_tree::{CowBytes, CowStr, Expected, NamedValue, Result};
use std::alloc::Global;

/// Where what is found fits, none of these takes memory.
///
/// # Errors
///
/// `Unexpected`, with what was found and what was expected; out of memory in its place.
impl<'de, 'n> Deserializer<'de, 'n> {
    /// Reads a boolean.
    pub fn deserialize_bool(self, alloc: Global) -> Result<bool>
        ensures { Answers (λ b. b) (bool_from (subject self.entry).origin) result }
    {
        match self.source {
            Source::Tree(NamedValue::Bool(flag)) => Ok(flag),
            other => Err(other.refuse(alloc, Expected::Bool)),
        }
    }

    /// Reads a character.
    pub fn deserialize_char(self, alloc: Global) -> Result<char>
        ensures { Answers (λ c. c) (char_from (subject self.entry).origin) result }
    {
        match self.source {
            Source::Tree(NamedValue::Char(character)) => Ok(character),
            other => Err(other.refuse(alloc, Expected::Char)),
        }
    }

    /// Reads a text, borrowed or owned as it was. The name of a field or a variant is one, borrowed
    /// where it is static.
    pub fn deserialize_str(self, alloc: Global) -> Result<CowStr<'de>>
    where
        'n: 'de,
        ensures { Answers text_of (text_from (subject self.entry).origin) result }
    {
        match self.source {
            Source::Tree(NamedValue::String(text)) => Ok(text),
            Source::Identifier { name, index: _ } => Ok(name),
            other => Err(other.refuse(alloc, Expected::String)),
        }
    }

    /// The same as [`Deserializer::deserialize_str`].
    pub fn deserialize_string(self, alloc: Global) -> Result<CowStr<'de>>
    where
        'n: 'de,
        ensures { Answers text_of (text_from (subject self.entry).origin) result }
    {
        self.deserialize_str(alloc)
    }

    /// Reads bytes, borrowed or owned as they were. Those of the name of a field or a variant are
    /// some.
    pub fn deserialize_bytes(self, alloc: Global) -> Result<CowBytes<'de>>
    where
        'n: 'de,
        ensures { Answers bytes_of (bytes_from (subject self.entry).origin) result }
    {
        match self.source {
            Source::Tree(NamedValue::Bytes(bytes)) => Ok(bytes),
            Source::Identifier { name, index: _ } => Ok(bytes_of_name(name)),
            other => Err(other.refuse(alloc, Expected::Bytes)),
        }
    }

    /// The same as [`Deserializer::deserialize_bytes`].
    pub fn deserialize_byte_buf(self, alloc: Global) -> Result<CowBytes<'de>>
    where
        'n: 'de,
        ensures { Answers bytes_of (bytes_from (subject self.entry).origin) result }
    {
        self.deserialize_bytes(alloc)
    }

    /// Reads the name of a field or a variant, borrowed or owned as it was: a text, the variant of
    /// an enum, or such a name itself.
    pub fn deserialize_identifier(self, alloc: Global) -> Result<CowStr<'de>>
    where
        'n: 'de,
        ensures { Answers text_of (name_from (subject self.entry).origin) result }
    {
        match self.source {
            Source::Tree(NamedValue::String(name)) => Ok(name),
            Source::Tree(NamedValue::Enum(node)) => Ok(variant_name(node)),
            Source::Identifier { name, index: _ } => Ok(name),
            other => Err(other.refuse(alloc, Expected::Identifier)),
        }
    }

    /// Reads the unit. The name of a field or a variant is one too.
    pub fn deserialize_unit(self, alloc: Global) -> Result<()>
        ensures { Answers (λ u. u) (unit_from (subject self.entry).origin) result }
    {
        match self.source {
            Source::Tree(NamedValue::Unit) | Source::Identifier { name: _, index: _ } => Ok(()),
            other => Err(other.refuse(alloc, Expected::Unit)),
        }
    }

    /// Reads whatever is found, and drops it. It is never refused.
    pub fn deserialize_ignored_any(self, _alloc: Global) -> Result<()>
        ensures { Answers (λ u. u) (taken tt) result }
    {
        Ok(())
    }

    /// Reads an option: what it holds, if anything; what is no option counts as held. It is never
    /// refused.
    pub fn deserialize_option(self, _alloc: Global) -> Result<Option<Deserializer<'de, 'n>>>
        ensures { Answers (option_map subject) (taken (held_by (subject self.entry))) result }
    {
        let Deserializer { source, flags } = self;
        match source {
            Source::Tree(NamedValue::Option(None)) => Ok(None),
            Source::Tree(NamedValue::Unit) if flags.buffered => Ok(None),
            Source::Tree(NamedValue::Option(Some(held))) => {
                Ok(Some(Deserializer::inside(Box::into_inner(held), flags)))
            }
            source => Ok(Some(Deserializer { source, flags })),
        }
    }
}

/// The bytes of a name, borrowed or owned as it was.
fn bytes_of_name<'n>(name: CowStr<'n>) -> CowBytes<'n>
    ensures { bytes_of result ≡ text_of name.entry }
{
    match name {
        CowStr::Borrowed(text) => CowBytes::Borrowed(text.as_bytes()),
        CowStr::Owned(text) => CowBytes::Owned(text.into_bytes()),
    }
}
