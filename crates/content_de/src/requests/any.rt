//! The request for whatever is there.

#![tactic(auto, using(crate::proofs::Values::values))]

ghost use Rattle.std.specs.Prelude.{◌≡◌};
ghost use Rattle.content_tree.specs.Values.Value.{tree_of, struct_tree};
ghost use Rattle.content_de.specs.Outcomes.{Answers, taken};
ghost use Rattle.content_de.specs.Sources.Deserializer.{flags_of, subject};
ghost use Rattle.content_de.specs.Accesses.Node.{shape_of, shape_at, tree_shape};

use crate::deserializer::Deserializer;
use crate::enum_access::{EnumAccess, Requested, Tagged};
use crate::map::Map;
use crate::node::Node;
use crate::seq::Seq;
use crate::source::{Flags, Source};
use content_tree::{NamedData, NamedStruct, NamedValue, Result};
use std::alloc::Global;

impl<'de, 'n> Deserializer<'de, 'n> {
    /// Reads whatever is found: a tuple is a sequence, a struct is what it holds, a variant is
    /// expected under its own enum's name, and the name of a field or a variant is a text. It takes
    /// no memory and is never refused.
    pub fn deserialize_any(self, _alloc: Global) -> Result<Node<'de, 'n>>
    where
        'n: 'de,
        ensures { Answers shape_of (taken (shape_at (subject self.entry))) result }
    {
        let Deserializer { source, flags } = self;
        match source {
            Source::Tree(value) => Ok(tree_node(value, flags)),
            Source::Identifier { name, index: _ } => Ok(Node::Str(name)),
        }
    }
}

/// A tree by its case.
fn tree_node<'de, 'n>(value: NamedValue<'de, 'n>, flags: Flags) -> Node<'de, 'n>
    ensures { shape_of result ≡ tree_shape (flags_of flags) (tree_of value.entry) }
{
    match value {
        NamedValue::Unit => Node::Unit,
        NamedValue::Bool(flag) => Node::Bool(flag),
        NamedValue::Number(number) => Node::Number(number),
        NamedValue::Char(character) => Node::Char(character),
        NamedValue::String(text) => Node::Str(text),
        NamedValue::Bytes(bytes) => Node::Bytes(bytes),
        NamedValue::Seq(items) => Node::Seq(Seq::new(items, flags)),
        NamedValue::Map(pairs) => Node::Map(Map::pairs(pairs, flags)),
        NamedValue::Option(None) => Node::NoneNode,
        NamedValue::Option(Some(held)) => {
            Node::SomeNode(Deserializer::inside(Box::into_inner(held), flags))
        }
        NamedValue::Struct(node) => struct_node(Box::into_inner(node), flags),
        NamedValue::Enum(node) => Node::Enum(EnumAccess {
            requested: Requested::Own,
            tagged: Tagged::Node(node),
            flags,
        }),
        NamedValue::Tuple(items) => Node::Seq(Seq::new(items, flags)),
    }
}

/// A struct by what it holds.
fn struct_node<'de, 'n>(node: NamedStruct<'de, 'n>, flags: Flags) -> Node<'de, 'n>
    ensures { shape_of result ≡ tree_shape (flags_of flags) (struct_tree node.entry) }
{
    let NamedStruct { name: _, data } = node;
    match data {
        NamedData::Unit => Node::Unit,
        NamedData::NewType { value } => Node::Newtype(Deserializer::inside(value, flags)),
        NamedData::Tuple { values } => Node::Seq(Seq::new(values, flags)),
        NamedData::Struct { fields } => Node::Map(Map::fields(fields, flags)),
    }
}
