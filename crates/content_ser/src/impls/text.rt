//! Booleans, characters, texts and the unit, each by its call.

#![tactic(auto, using(crate::proofs::Sending::sending, crate::proofs::Making::making))]

ghost use Rattle.std.specs.Prelude.{refl, string_bytes};
ghost use Rattle.content_ser.specs.Calls.Event.{boolean, character, text, unit};
ghost use Rattle.content_ser.specs.Scripts.Standard.{only};
ghost use Rattle.content_ser.specs.Laws.StandardScripts.{leaf_lawful};

use crate::aside::Sent;
use crate::call::Call;
use crate::direct::{Made, made_text};
use crate::serialize::Serialize;
use crate::serializer::Serializer;
use content_tree::{CowStr, Error, NamedValue, Result};
use std::alloc::Global;

impl Serialize for bool {
    ghost script = { λ b. only (boolean b) };

    ghost lawful = { λ x readable. leaf_lawful refl };

    fn serialize<S: Serializer>(&self, _alloc: Global, serializer: &mut S) -> Result<()> {
        serializer.serialize_bool(*self)
    }

    #[inline(always)]
    fn serialize_aside<S: Serializer>(
        &self,
        _alloc: Global,
        serializer: &mut S,
        error: &mut Error,
    ) -> Sent {
        serializer.call_aside(Call::Bool(*self), error)
    }

    #[inline(always)]
    fn is_direct() -> bool {
        true
    }

    #[inline(always)]
    fn direct<'v, 'n>(&self, _alloc: Global, _readable: bool, _room: usize) -> Made<'v, 'n> {
        Ok(NamedValue::Bool(*self))
    }
}

impl Serialize for char {
    ghost script = { λ c. only (character c) };

    ghost lawful = { λ x readable. leaf_lawful refl };

    fn serialize<S: Serializer>(&self, _alloc: Global, serializer: &mut S) -> Result<()> {
        serializer.serialize_char(*self)
    }

    #[inline(always)]
    fn serialize_aside<S: Serializer>(
        &self,
        _alloc: Global,
        serializer: &mut S,
        error: &mut Error,
    ) -> Sent {
        serializer.call_aside(Call::Char(*self), error)
    }

    #[inline(always)]
    fn is_direct() -> bool {
        true
    }

    #[inline(always)]
    fn direct<'v, 'n>(&self, _alloc: Global, _readable: bool, _room: usize) -> Made<'v, 'n> {
        Ok(NamedValue::Char(*self))
    }
}

impl Serialize for String {
    ghost script = { λ s. only (text (string_bytes s)) };

    ghost lawful = { λ x readable. leaf_lawful refl };

    fn serialize<S: Serializer>(&self, _alloc: Global, serializer: &mut S) -> Result<()> {
        serializer.serialize_str(self.as_str())
    }

    #[inline(always)]
    fn serialize_aside<S: Serializer>(
        &self,
        _alloc: Global,
        serializer: &mut S,
        error: &mut Error,
    ) -> Sent {
        serializer.call_aside(Call::Str(CowStr::Borrowed(self.as_str())), error)
    }

    #[inline(always)]
    fn is_direct() -> bool {
        true
    }

    #[inline(always)]
    fn direct<'v, 'n>(&self, alloc: Global, _readable: bool, _room: usize) -> Made<'v, 'n> {
        made_text(alloc, self.as_str())
    }
}

impl Serialize for &str {
    ghost script = { λ s. only (text s.now) };

    ghost lawful = { λ x readable. leaf_lawful refl };

    fn serialize<S: Serializer>(&self, _alloc: Global, serializer: &mut S) -> Result<()> {
        serializer.serialize_str(self)
    }

    #[inline(always)]
    fn serialize_aside<S: Serializer>(
        &self,
        _alloc: Global,
        serializer: &mut S,
        error: &mut Error,
    ) -> Sent {
        serializer.call_aside(Call::Str(CowStr::Borrowed(self)), error)
    }

    #[inline(always)]
    fn is_direct() -> bool {
        true
    }

    #[inline(always)]
    fn direct<'v, 'n>(&self, alloc: Global, _readable: bool, _room: usize) -> Made<'v, 'n> {
        made_text(alloc, self)
    }
}

impl Serialize for () {
    ghost script = { λ u. only unit };

    ghost lawful = { λ x readable. leaf_lawful refl };

    fn serialize<S: Serializer>(&self, _alloc: Global, serializer: &mut S) -> Result<()> {
        serializer.serialize_unit()
    }

    #[inline(always)]
    fn serialize_aside<S: Serializer>(
        &self,
        _alloc: Global,
        serializer: &mut S,
        error: &mut Error,
    ) -> Sent {
        serializer.call_aside(Call::Unit, error)
    }

    #[inline(always)]
    fn is_direct() -> bool {
        true
    }

    #[inline(always)]
    fn direct<'v, 'n>(&self, _alloc: Global, _readable: bool, _room: usize) -> Made<'v, 'n> {
        Ok(NamedValue::Unit)
    }
}
