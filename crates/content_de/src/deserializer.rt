//! Reads a value.

ghost use Rattle.std.specs.Prelude.{◌≡◌, ◌≢◌, true, IsOk, IfOk, IfErr, option_map};
ghost use Rattle.content_tree.specs.Errors.Cause.{expectation_of, out_of_memory};
ghost use Rattle.content_tree.specs.Errors.Kind.{IsOutOfMemory};
ghost use Rattle.content_tree.specs.Values.Text.{text_of};
ghost use Rattle.content_tree.specs.Values.Value.{tree_of};
ghost use Rattle.content_de.specs.Outcomes.{cause, mismatch};
ghost use Rattle.content_de.specs.Sources.Origin.{of_tree, of_identifier, IsIdentifier};
ghost use Rattle.content_de.specs.Sources.Origin.{no_flags, tree_in, tree_under};
ghost use Rattle.content_de.specs.Sources.Origin.{subject_under, in_buffer};
ghost use Rattle.content_de.specs.Sources.Deserializer.{flags_of, subject};
ghost use Rattle.content_de.specs.Reads.Attempts.{SourceCopyTakesNoMemory};

use crate::source::{Flags, Source};
use content_tree::{CowStr, Error, Expected, NamedValue, Result};
use std::alloc::Global;

/// Reads a value, or a key or a tag inside one, as typed data: it has flags and answers one
/// request. The name, the first two flags and the requests are `serde-content`'s.
///
/// Each request takes what is read and answers with its datum or with its parts, or refuses: the
/// error shows what was found and what was expected. Where what is found fits, no request takes
/// memory; a refusal does, and is out of memory where that fails.
///
/// ```rust
/// let items = vec![in alloc; Value::from(1u8), Value::from(2u8)]?;
/// let pair: (u8, u8) = Deserializer::new(Value::Seq(items)).deserialize(alloc)?;
/// assert!(rt; pair == (1, 2));
/// ```
///
/// `==` and the order go by what is read (a tree before a name; names by text, then index), then
/// by whether it is human readable, whether numbers are coerced, and whether it is buffered.
#[derive(Debug, Drop, PartialEq, Eq, PartialOrd, Ord)]
pub struct Deserializer<'de, 'n> {
    pub(crate) source: Source<'de, 'n>,
    pub(crate) flags: Flags,
}

impl<'de, 'n> Deserializer<'de, 'n> {
    /// Reads this value, with all flags off. It takes no memory.
    pub fn new(value: NamedValue<'de, 'n>) -> Deserializer<'de, 'n>
        ensures { subject result ≡ tree_under no_flags (tree_of value.entry) }
    {
        Deserializer {
            source: Source::Tree(value),
            flags: Flags {
                human_readable: false,
                coerces: false,
                buffered: false,
            },
        }
    }

    /// The same, human readable: types may read another form. It takes no memory.
    pub fn human_readable(mut self) -> Deserializer<'de, 'n>
        ensures { subject result ≡ record {
          origin = (subject self.entry).origin;
          flags = record {
            human_readable = true;
            coerces = (subject self.entry).flags.coerces;
            buffered = (subject self.entry).flags.buffered;
          };
        } }
    {
        self.flags.human_readable = true;
        self
    }

    /// The same with numbers coerced: a request for a number of one kind also takes a number of
    /// another whose value lies in the kind's range. It takes no memory.
    pub fn coerce_numbers(mut self) -> Deserializer<'de, 'n>
        ensures { subject result ≡ record {
          origin = (subject self.entry).origin;
          flags = record {
            human_readable = (subject self.entry).flags.human_readable;
            coerces = true;
            buffered = (subject self.entry).flags.buffered;
          };
        } }
    {
        self.flags.coerces = true;
        self
    }

    /// The same, read as Serde reads from its buffer, for instance the variants of an untagged
    /// enum: numbers are coerced, the unit is an empty option, and a tuple refuses elements that
    /// are left over. It takes no memory.
    pub fn buffered(mut self) -> Deserializer<'de, 'n>
        ensures { subject result ≡ in_buffer (subject self.entry) }
    {
        self.flags = self.flags.buffering();
        self
    }

    /// Whether what is read is human readable; a key that is a field's name and a variant's name
    /// always are. It takes no memory.
    pub fn is_human_readable(&self) -> bool
        ensures { result ≡ (subject self.now).flags.human_readable }
    {
        self.flags.human_readable
    }

    /// Makes a copy: the same tree or name, each text and name borrowed or owned as here, and the
    /// same flags. What has no parts takes no memory, unless it is a text, bytes or a name that is
    /// owned.
    ///
    /// # Errors
    ///
    /// Out of memory, where an allocation failed.
    pub fn try_clone(&self, alloc: Global) -> Result<Deserializer<'de, 'n>>
        ensures value { IfOk result (λ copy. subject copy ≡ subject self.now) }
        ensures succeeds { SourceCopyTakesNoMemory (subject self.now).origin → IsOk result }
        ensures memory { IfErr result (λ e. IsOutOfMemory e) }
    {
        let source = match &self.source {
            Source::Tree(value) => Source::Tree(value.try_clone(alloc)?),
            Source::Identifier { name, index } => Source::Identifier {
                name: name.try_clone(alloc)?,
                index: *index,
            },
        };
        Ok(Deserializer {
            source,
            flags: self.flags,
        })
    }

    /// The value that is read, borrowed, so that a type can look at it before it asks; none where a
    /// name is read. It takes no memory.
    pub fn as_value(&self) -> Option<&NamedValue<'de, 'n>>
        ensures { option_map (λ v. tree_of v.now) result ≡ tree_in (subject self.now).origin }
    {
        match &self.source {
            Source::Tree(value) => Some(value),
            Source::Identifier { name: _, index: _ } => None,
        }
    }

    /// The value that is read, without the flags. Where a name is read, the deserializer comes
    /// back as it was: no value is there. It takes no memory.
    pub fn into_value(self) -> std::result::Result<NamedValue<'de, 'n>, Deserializer<'de, 'n>>
        ensures value { IfOk result (λ v. (subject self.entry).origin ≡ of_tree (tree_of v)) }
        ensures name { IfErr result (λ d. IsIdentifier (subject self.entry).origin) }
        ensures rest { IfErr result (λ d. subject d ≡ subject self.entry) }
    {
        let Deserializer { source, flags } = self;
        match source {
            Source::Tree(value) => Ok(value),
            Source::Identifier { name, index } => Err(Deserializer {
                source: Source::Identifier { name, index },
                flags,
            }),
        }
    }

    /// Makes the error for a type of your own that expected this: it shows what was found and what
    /// was expected. Where an allocation fails: out of memory in its place.
    pub fn unexpected(self, alloc: Global, expected: Expected) -> Error
        ensures { cause result ≢ out_of_memory →
            cause result ≡ mismatch (subject self.entry).origin (expectation_of expected) }
    {
        self.source.refuse(alloc, expected)
    }

    /// A value inside another, under its flags.
    pub(crate) fn inside(value: NamedValue<'de, 'n>, flags: Flags) -> Deserializer<'de, 'n>
        ensures { subject result ≡ tree_under (flags_of flags) (tree_of value.entry) }
    {
        Deserializer {
            source: Source::Tree(value),
            flags,
        }
    }

    /// The name of a field or a variant, under the flags of what it is in.
    pub(crate) fn identifier(name: CowStr<'n>, index: u64, flags: Flags) -> Deserializer<'de, 'n>
        ensures { subject result ≡ subject_under (flags_of flags)
            (of_identifier (text_of name.entry) index) }
    {
        Deserializer {
            source: Source::Identifier { name, index },
            flags: Flags {
                human_readable: true,
                coerces: flags.coerces,
                buffered: flags.buffered,
            },
        }
    }
}
