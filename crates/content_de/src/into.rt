//! What becomes a deserializer.

ghost use Rattle.std.specs.Prelude.{◌≡◌, true, false, IsOk, IfOk, IfErr};
ghost use Rattle.content_tree.specs.Errors.Kind.{IsOutOfMemory};
ghost use Rattle.content_tree.specs.Values.Tree.{number};
ghost use Rattle.content_tree.specs.Values.Value.{tree_of, enum_tree};
ghost use Rattle.content_de.specs.Sources.Origin.{Subject, no_flags, tree_under};
ghost use Rattle.content_de.specs.Sources.Deserializer.{subject};

use crate::deserializer::Deserializer;
use content_tree::{Enum, NamedValue, Number, Result, Value};
use std::alloc::Global;

/// What can be made a [`Deserializer`] of itself. All flags are off, but a deserializer stays as it
/// is. As `serde::de::IntoDeserializer`.
pub trait IntoDeserializer<'de> {
    ghost use Rattle.std.specs.Prelude.{Bool};

    /// What is read.
    ghost read: { Self → Subject };

    /// Whether memory is taken.
    ghost takes_memory: { Bool };

    /// Makes a deserializer of this. Out of memory, where an allocation failed.
    fn into_deserializer(self, alloc: Global) -> Result<Deserializer<'de, 'static>>
        ensures value { IfOk result (λ d. subject d ≡ read self) }
        ensures succeeds { takes_memory ≡ false → IsOk result }
        ensures memory { IfErr result (λ e. IsOutOfMemory e) };
}

/// It takes no memory.
impl<'de> IntoDeserializer<'de> for Value<'de> {
    ghost read = { λ v. tree_under no_flags (tree_of v) };

    ghost takes_memory = { false };

    fn into_deserializer(self, _alloc: Global) -> Result<Deserializer<'de, 'static>>
        ensures value { IfOk result (λ d. subject d ≡ tree_under no_flags (tree_of self.entry)) }
        ensures succeeds { false ≡ false → IsOk result }
        ensures memory { IfErr result (λ e. IsOutOfMemory e) }
    {
        Ok(Deserializer::new(self))
    }
}

/// It takes no memory.
impl<'de> IntoDeserializer<'de> for Number {
    ghost read = { λ n. tree_under no_flags (number n) };

    ghost takes_memory = { false };

    fn into_deserializer(self, _alloc: Global) -> Result<Deserializer<'de, 'static>>
        ensures value { IfOk result (λ d. subject d ≡ tree_under no_flags (number self)) }
        ensures succeeds { false ≡ false → IsOk result }
        ensures memory { IfErr result (λ e. IsOutOfMemory e) }
    {
        Ok(Deserializer::new(NamedValue::Number(self)))
    }
}

/// It takes memory for a box.
impl<'de> IntoDeserializer<'de> for Enum<'de> {
    ghost read = { λ v. tree_under no_flags (enum_tree v) };

    ghost takes_memory = { true };

    fn into_deserializer(self, alloc: Global) -> Result<Deserializer<'de, 'static>>
        ensures value { IfOk result
            (λ d. subject d ≡ tree_under no_flags (enum_tree self.entry)) }
        ensures succeeds { true ≡ false → IsOk result }
        ensures memory { IfErr result (λ e. IsOutOfMemory e) }
    {
        let node = Box::new(alloc, self)?;
        Ok(Deserializer::new(NamedValue::Enum(node)))
    }
}

/// It stays as it is, flags too, and takes no memory.
impl<'de> IntoDeserializer<'de> for Deserializer<'de, 'static> {
    ghost read = { subject };

    ghost takes_memory = { false };

    fn into_deserializer(self, _alloc: Global) -> Result<Deserializer<'de, 'static>>
        ensures value { IfOk result (λ d. subject d ≡ subject self.entry) }
        ensures succeeds { false ≡ false → IsOk result }
        ensures memory { IfErr result (λ e. IsOutOfMemory e) }
    {
        Ok(self)
    }
}
