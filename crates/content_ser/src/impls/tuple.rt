//! Tuples of one to four values.

#![tactic(auto, using(crate::proofs::Sending::sending, crate::proofs::Making::making))]

ghost use Rattle.content_ser.specs.Calls.Event.{end};
ghost use Rattle.content_ser.specs.Scripts.Standard.{element_first, only, tuple_script};
ghost use Rattle.content_ser.specs.Laws.StandardScripts.{element_fits, end_fits, tuple_lawful};

use crate::aside::{Sent, answered};
use crate::call::Call;
use crate::direct::{Made, inside};
use crate::send::calls::{announce, end, serialize_tuple};
use crate::serialize::Serialize;
use crate::serializer::Serializer;
use content_tree::{Error, NamedValue, Result};
use std::alloc::Global;

impl<A: Serialize> Serialize for (A,) {
    ghost script = { λ t. tuple_script 1 (element_first (A.script t.0) (only end)) };

    ghost lawful = { λ t readable. tuple_lawful (element_fits (A.lawful t.0 readable) end_fits) };

    fn serialize<S: Serializer>(&self, alloc: Global, serializer: &mut S) -> Result<()> {
        answered!(error => self.serialize_aside(alloc, serializer, &mut error))
    }

    fn serialize_aside<S: Serializer>(
        &self,
        alloc: Global,
        serializer: &mut S,
        error: &mut Error,
    ) -> Sent {
        serialize_tuple(1, serializer, error)?;
        announce(Call::Element, &self.0, alloc, serializer, error)?;
        end(serializer, error)
    }

    #[inline(always)]
    fn is_direct() -> bool {
        A::is_direct()
    }

    fn direct<'v, 'n>(&self, alloc: Global, readable: bool, room: usize) -> Made<'v, 'n> {
        let levels = inside(room)?;
        let mut items: Vec<NamedValue<'v, 'n>> = Vec::with_capacity(alloc, 1)?;
        items.push_reserved(self.0.direct(alloc, readable, levels)?);
        Ok(NamedValue::Tuple(items))
    }
}

impl<A: Serialize, B: Serialize> Serialize for (A, B) {
    ghost script = { λ t. tuple_script 2 (element_first (A.script t.0)
        (element_first (B.script t.1) (only end))) };

    ghost lawful = { λ t readable. tuple_lawful
        (element_fits (A.lawful t.0 readable) (element_fits (B.lawful t.1 readable) end_fits)) };

    fn serialize<S: Serializer>(&self, alloc: Global, serializer: &mut S) -> Result<()> {
        answered!(error => self.serialize_aside(alloc, serializer, &mut error))
    }

    fn serialize_aside<S: Serializer>(
        &self,
        alloc: Global,
        serializer: &mut S,
        error: &mut Error,
    ) -> Sent {
        serialize_tuple(2, serializer, error)?;
        announce(Call::Element, &self.0, alloc, serializer, error)?;
        announce(Call::Element, &self.1, alloc, serializer, error)?;
        end(serializer, error)
    }

    #[inline(always)]
    fn is_direct() -> bool {
        A::is_direct() && B::is_direct()
    }

    fn direct<'v, 'n>(&self, alloc: Global, readable: bool, room: usize) -> Made<'v, 'n> {
        let levels = inside(room)?;
        let mut items: Vec<NamedValue<'v, 'n>> = Vec::with_capacity(alloc, 2)?;
        items.push_reserved(self.0.direct(alloc, readable, levels)?);
        items.push_reserved(self.1.direct(alloc, readable, levels)?);
        Ok(NamedValue::Tuple(items))
    }
}

impl<A: Serialize, B: Serialize, C: Serialize> Serialize for (A, B, C) {
    ghost script = { λ t. tuple_script 3 (element_first (A.script t.0)
        (element_first (B.script t.1) (element_first (C.script t.2) (only end)))) };

    ghost lawful = { λ t readable. tuple_lawful
        (element_fits (A.lawful t.0 readable) (element_fits (B.lawful t.1 readable)
        (element_fits (C.lawful t.2 readable) end_fits))) };

    fn serialize<S: Serializer>(&self, alloc: Global, serializer: &mut S) -> Result<()> {
        answered!(error => self.serialize_aside(alloc, serializer, &mut error))
    }

    fn serialize_aside<S: Serializer>(
        &self,
        alloc: Global,
        serializer: &mut S,
        error: &mut Error,
    ) -> Sent {
        serialize_tuple(3, serializer, error)?;
        announce(Call::Element, &self.0, alloc, serializer, error)?;
        announce(Call::Element, &self.1, alloc, serializer, error)?;
        announce(Call::Element, &self.2, alloc, serializer, error)?;
        end(serializer, error)
    }

    #[inline(always)]
    fn is_direct() -> bool {
        A::is_direct() && B::is_direct() && C::is_direct()
    }

    fn direct<'v, 'n>(&self, alloc: Global, readable: bool, room: usize) -> Made<'v, 'n> {
        let levels = inside(room)?;
        let mut items: Vec<NamedValue<'v, 'n>> = Vec::with_capacity(alloc, 3)?;
        items.push_reserved(self.0.direct(alloc, readable, levels)?);
        items.push_reserved(self.1.direct(alloc, readable, levels)?);
        items.push_reserved(self.2.direct(alloc, readable, levels)?);
        Ok(NamedValue::Tuple(items))
    }
}

impl<A: Serialize, B: Serialize, C: Serialize, D: Serialize> Serialize for (A, B, C, D) {
    ghost script = { λ t. tuple_script 4 (element_first (A.script t.0)
        (element_first (B.script t.1) (element_first (C.script t.2)
        (element_first (D.script t.3) (only end))))) };

    ghost lawful = { λ t readable. tuple_lawful
        (element_fits (A.lawful t.0 readable) (element_fits (B.lawful t.1 readable)
        (element_fits (C.lawful t.2 readable)
        (element_fits (D.lawful t.3 readable) end_fits)))) };

    fn serialize<S: Serializer>(&self, alloc: Global, serializer: &mut S) -> Result<()> {
        answered!(error => self.serialize_aside(alloc, serializer, &mut error))
    }

    fn serialize_aside<S: Serializer>(
        &self,
        alloc: Global,
        serializer: &mut S,
        error: &mut Error,
    ) -> Sent {
        serialize_tuple(4, serializer, error)?;
        announce(Call::Element, &self.0, alloc, serializer, error)?;
        announce(Call::Element, &self.1, alloc, serializer, error)?;
        announce(Call::Element, &self.2, alloc, serializer, error)?;
        announce(Call::Element, &self.3, alloc, serializer, error)?;
        end(serializer, error)
    }

    #[inline(always)]
    fn is_direct() -> bool {
        A::is_direct() && B::is_direct() && C::is_direct() && D::is_direct()
    }

    fn direct<'v, 'n>(&self, alloc: Global, readable: bool, room: usize) -> Made<'v, 'n> {
        let levels = inside(room)?;
        let mut items: Vec<NamedValue<'v, 'n>> = Vec::with_capacity(alloc, 4)?;
        items.push_reserved(self.0.direct(alloc, readable, levels)?);
        items.push_reserved(self.1.direct(alloc, readable, levels)?);
        items.push_reserved(self.2.direct(alloc, readable, levels)?);
        items.push_reserved(self.3.direct(alloc, readable, levels)?);
        Ok(NamedValue::Tuple(items))
    }
}
