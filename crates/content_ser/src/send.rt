//! Values, structs and variants, sent.

pub(crate) mod calls;
mod head;
mod key;
mod places;
mod walk;

ghost use Rattle.content_tree.specs.Values.Value.{enum_tree, struct_tree, tree_of};
ghost use Rattle.content_ser.specs.Laws.TreeScripts.{tree_lawful};
ghost use Rattle.content_ser.specs.Sending.TreeScript.{loose_script};
ghost use Rattle.content_ser.specs.Sending.Loose.{loose};

use crate::aside::{Sent, answered};
use crate::serialize::Serialize;
use crate::serializer::Serializer;
use content_tree::{Enum, Error, Result, Struct, Value};
use std::alloc::Global;

/// A value is sent node by node, each by its own call and children in order, a struct and a variant
/// as below. The first field with an owned key among what is sent stops it: all calls before are
/// made, and the error is `Custom`.
impl<'a> Serialize for Value<'a> {
    ghost script = { λ v. loose_script (tree_of v) };

    ghost lawful = { λ v readable. tree_lawful (loose (tree_of v)) };

    fn serialize<S: Serializer>(&self, alloc: Global, serializer: &mut S) -> Result<()> {
        answered!(error => walk::send(self, alloc, serializer, &mut error))
    }

    fn serialize_aside<S: Serializer>(
        &self,
        alloc: Global,
        serializer: &mut S,
        error: &mut Error,
    ) -> Sent {
        walk::send(self, alloc, serializer, error)
    }
}

/// A struct is sent under its name where that is static; else as what it holds alone: a unit, a
/// value, a sequence, or a map with text keys in their order.
impl<'a> Serialize for Struct<'a> {
    ghost script = { λ v. loose_script (struct_tree v) };

    ghost lawful = { λ v readable. tree_lawful (loose (struct_tree v)) };

    fn serialize<S: Serializer>(&self, alloc: Global, serializer: &mut S) -> Result<()> {
        answered!(error => walk::send_struct(self, alloc, serializer, &mut error))
    }

    fn serialize_aside<S: Serializer>(
        &self,
        alloc: Global,
        serializer: &mut S,
        error: &mut Error,
    ) -> Sent {
        walk::send_struct(self, alloc, serializer, error)
    }
}

/// A variant is sent under its names where both are static; else as a text, its name, or a map from
/// that to what it holds: a value, a sequence, or a map sorted by the bytes of its text keys, of
/// equal keys the last alone. Memory is taken for that sorting alone.
impl<'a> Serialize for Enum<'a> {
    ghost script = { λ v. loose_script (enum_tree v) };

    ghost lawful = { λ v readable. tree_lawful (loose (enum_tree v)) };

    fn serialize<S: Serializer>(&self, alloc: Global, serializer: &mut S) -> Result<()> {
        answered!(error => walk::send_enum(self, alloc, serializer, &mut error))
    }

    fn serialize_aside<S: Serializer>(
        &self,
        alloc: Global,
        serializer: &mut S,
        error: &mut Error,
    ) -> Sent {
        walk::send_enum(self, alloc, serializer, error)
    }
}
