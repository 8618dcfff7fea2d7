//! Requests for what has parts.

#![tactic(auto, using(crate::proofs::Values::values))]

ghost use Rattle.std.specs.Prelude.{IfOk};
ghost use Rattle.content_de.specs.Outcomes.{Answers};
ghost use Rattle.content_de.specs.Requests.Compounds.{unit_struct_from, newtype_from};
ghost use Rattle.content_de.specs.Accesses.Seq.{seq_view, seq_at, tuple_at, tuple_struct_at};
ghost use Rattle.content_de.specs.Accesses.Map.{map_view, map_at, struct_at, ArePairs};
ghost use Rattle.content_de.specs.Sources.Deserializer.{subject};

use crate::contents::{is_nothing, take_fields, take_value, take_values};
use crate::deserializer::Deserializer;
use crate::map::Map;
use crate::seq::Seq;
use crate::source::Source;
use content_tree::{DataType, Expected, NamedValue, Result};
use std::alloc::Global;

/// Names of structs are never compared: they are for errors alone. Where what is found fits, none
/// of these takes memory. The parts are read under the same flags.
///
/// # Errors
///
/// `Unexpected`, with what was found and what was expected; out of memory in its place.
impl<'de, 'n> Deserializer<'de, 'n> {
    /// Reads a unit struct, or the unit.
    pub fn deserialize_unit_struct(self, alloc: Global, name: &'static str) -> Result<()>
        ensures { Answers (λ u. u) (unit_struct_from name.entry.now (subject self.entry).origin)
            result }
    {
        match self.source {
            Source::Tree(NamedValue::Unit) => Ok(()),
            Source::Tree(NamedValue::Struct(node)) => {
                if is_nothing(&node.data) {
                    return Ok(());
                }
                let other: Source<'de, 'n> = Source::Tree(NamedValue::Struct(node));
                Err(other.refuse_struct(alloc, name, DataType::Unit))
            }
            other => Err(other.refuse_struct(alloc, name, DataType::Unit)),
        }
    }

    /// Gives what a newtype struct holds. Any other tree is read as what it would hold; the name of
    /// a field or a variant is refused.
    pub fn deserialize_newtype_struct(
        self,
        alloc: Global,
        name: &'static str,
    ) -> Result<Deserializer<'de, 'n>>
        ensures { Answers subject (newtype_from name.entry.now (subject self.entry)) result }
    {
        let Deserializer { source, flags } = self;
        match source {
            Source::Tree(NamedValue::Struct(mut node)) => match take_value(&mut node.data) {
                Some(value) => Ok(Deserializer::inside(value, flags)),
                None => Ok(Deserializer::inside(NamedValue::Struct(node), flags)),
            },
            Source::Tree(value) => Ok(Deserializer::inside(value, flags)),
            other => Err(other.refuse_struct(alloc, name, DataType::NewType)),
        }
    }

    /// Gives the items of a sequence.
    pub fn deserialize_seq(self, alloc: Global) -> Result<Seq<'de, 'n>>
        ensures { Answers seq_view (seq_at (subject self.entry)) result }
    {
        let Deserializer { source, flags } = self;
        match source {
            Source::Tree(NamedValue::Seq(items)) => Ok(Seq::new(items, flags)),
            other => Err(other.refuse(alloc, Expected::Seq)),
        }
    }

    /// Gives the items of a tuple or a sequence. The length is for errors alone.
    pub fn deserialize_tuple(self, alloc: Global, len: usize) -> Result<Seq<'de, 'n>>
        ensures { Answers seq_view (tuple_at len (subject self.entry)) result }
    {
        let Deserializer { source, flags } = self;
        match source {
            Source::Tree(NamedValue::Seq(items)) => Ok(Seq::new(items, flags)),
            Source::Tree(NamedValue::Tuple(items)) => Ok(Seq::new(items, flags)),
            other => Err(other.refuse(alloc, Expected::Tuple(len))),
        }
    }

    /// Gives the items of a tuple struct or a sequence. The length isn't compared.
    pub fn deserialize_tuple_struct(
        self,
        alloc: Global,
        name: &'static str,
        _len: usize,
    ) -> Result<Seq<'de, 'n>>
        ensures { Answers seq_view (tuple_struct_at name.entry.now (subject self.entry)) result }
    {
        let Deserializer { source, flags } = self;
        match source {
            Source::Tree(NamedValue::Seq(items)) => Ok(Seq::new(items, flags)),
            Source::Tree(NamedValue::Struct(mut node)) => match take_values(&mut node.data) {
                Some(values) => Ok(Seq::new(values, flags)),
                None => {
                    let other: Source<'de, 'n> = Source::Tree(NamedValue::Struct(node));
                    Err(other.refuse_struct(alloc, name, DataType::Tuple))
                }
            },
            other => Err(other.refuse_struct(alloc, name, DataType::Tuple)),
        }
    }

    /// Gives the entries of a map.
    pub fn deserialize_map(self, alloc: Global) -> Result<Map<'de, 'n>>
        ensures value { Answers map_view (map_at (subject self.entry)) result }
        // so what is left of them by name is a map without memory
        ensures pairs { IfOk result (λ map. ArePairs map.entries) }
    {
        let Deserializer { source, flags } = self;
        match source {
            Source::Tree(NamedValue::Map(pairs)) => Ok(Map::pairs(pairs, flags)),
            other => Err(other.refuse(alloc, Expected::Map)),
        }
    }

    /// Gives the fields of an object-like struct, or the entries of a map. Which fields were
    /// expected isn't compared.
    pub fn deserialize_struct(
        self,
        alloc: Global,
        name: &'static str,
        _fields: &[&str],
    ) -> Result<Map<'de, 'n>>
        ensures { Answers map_view (struct_at name.entry.now (subject self.entry)) result }
    {
        let Deserializer { source, flags } = self;
        match source {
            Source::Tree(NamedValue::Map(pairs)) => Ok(Map::pairs(pairs, flags)),
            Source::Tree(NamedValue::Struct(mut node)) => match take_fields(&mut node.data) {
                Some(fields) => Ok(Map::fields(fields, flags)),
                None => {
                    let other: Source<'de, 'n> = Source::Tree(NamedValue::Struct(node));
                    Err(other.refuse_struct(alloc, name, DataType::Struct))
                }
            },
            other => Err(other.refuse_struct(alloc, name, DataType::Struct)),
        }
    }
}
