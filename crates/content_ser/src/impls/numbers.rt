//! Numbers, each by the call of its kind.

#![tactic(auto, using(crate::proofs::Sending::sending))]

ghost use Rattle.content_ser.specs.Calls.Event.{number};
ghost use Rattle.content_ser.specs.Scripts.Standard.{only};
ghost use Rattle.content_tree.specs.declared.number.Number.TheVariants as num;
ghost use Rattle.std.specs.Prelude.{refl};
ghost use Rattle.content_ser.specs.Laws.StandardScripts.{leaf_lawful};

use crate::aside::Sent;
use crate::call::Call;
use crate::direct::{Made, made_number};
use crate::serialize::Serialize;
use crate::serializer::Serializer;
use content_tree::{Error, Number, Result};
use std::alloc::Global;

impl Serialize for i8 {
    ghost script = { λ n. only (number (num.I8 n)) };

    ghost lawful = { λ x readable. leaf_lawful refl };

    fn serialize<S: Serializer>(&self, _alloc: Global, serializer: &mut S) -> Result<()> {
        serializer.serialize_i8(*self)
    }

    #[inline(always)]
    fn serialize_aside<S: Serializer>(
        &self,
        _alloc: Global,
        serializer: &mut S,
        error: &mut Error,
    ) -> Sent {
        serializer.call_aside(Call::Number(Number::I8(*self)), error)
    }

    #[inline(always)]
    fn is_direct() -> bool {
        true
    }

    #[inline(always)]
    fn direct<'v, 'n>(&self, _alloc: Global, _readable: bool, _room: usize) -> Made<'v, 'n> {
        made_number(Number::from(*self))
    }
}

impl Serialize for u8 {
    ghost script = { λ n. only (number (num.U8 n)) };

    ghost lawful = { λ x readable. leaf_lawful refl };

    fn serialize<S: Serializer>(&self, _alloc: Global, serializer: &mut S) -> Result<()> {
        serializer.serialize_u8(*self)
    }

    #[inline(always)]
    fn serialize_aside<S: Serializer>(
        &self,
        _alloc: Global,
        serializer: &mut S,
        error: &mut Error,
    ) -> Sent {
        serializer.call_aside(Call::Number(Number::U8(*self)), error)
    }

    #[inline(always)]
    fn is_direct() -> bool {
        true
    }

    #[inline(always)]
    fn direct<'v, 'n>(&self, _alloc: Global, _readable: bool, _room: usize) -> Made<'v, 'n> {
        made_number(Number::from(*self))
    }
}

impl Serialize for i16 {
    ghost script = { λ n. only (number (num.I16 n)) };

    ghost lawful = { λ x readable. leaf_lawful refl };

    fn serialize<S: Serializer>(&self, _alloc: Global, serializer: &mut S) -> Result<()> {
        serializer.serialize_i16(*self)
    }

    #[inline(always)]
    fn serialize_aside<S: Serializer>(
        &self,
        _alloc: Global,
        serializer: &mut S,
        error: &mut Error,
    ) -> Sent {
        serializer.call_aside(Call::Number(Number::I16(*self)), error)
    }

    #[inline(always)]
    fn is_direct() -> bool {
        true
    }

    #[inline(always)]
    fn direct<'v, 'n>(&self, _alloc: Global, _readable: bool, _room: usize) -> Made<'v, 'n> {
        made_number(Number::from(*self))
    }
}

impl Serialize for u16 {
    ghost script = { λ n. only (number (num.U16 n)) };

    ghost lawful = { λ x readable. leaf_lawful refl };

    fn serialize<S: Serializer>(&self, _alloc: Global, serializer: &mut S) -> Result<()> {
        serializer.serialize_u16(*self)
    }

    #[inline(always)]
    fn serialize_aside<S: Serializer>(
        &self,
        _alloc: Global,
        serializer: &mut S,
        error: &mut Error,
    ) -> Sent {
        serializer.call_aside(Call::Number(Number::U16(*self)), error)
    }

    #[inline(always)]
    fn is_direct() -> bool {
        true
    }

    #[inline(always)]
    fn direct<'v, 'n>(&self, _alloc: Global, _readable: bool, _room: usize) -> Made<'v, 'n> {
        made_number(Number::from(*self))
    }
}

impl Serialize for i32 {
    ghost script = { λ n. only (number (num.I32 n)) };

    ghost lawful = { λ x readable. leaf_lawful refl };

    fn serialize<S: Serializer>(&self, _alloc: Global, serializer: &mut S) -> Result<()> {
        serializer.serialize_i32(*self)
    }

    #[inline(always)]
    fn serialize_aside<S: Serializer>(
        &self,
        _alloc: Global,
        serializer: &mut S,
        error: &mut Error,
    ) -> Sent {
        serializer.call_aside(Call::Number(Number::I32(*self)), error)
    }

    #[inline(always)]
    fn is_direct() -> bool {
        true
    }

    #[inline(always)]
    fn direct<'v, 'n>(&self, _alloc: Global, _readable: bool, _room: usize) -> Made<'v, 'n> {
        made_number(Number::from(*self))
    }
}

impl Serialize for u32 {
    ghost script = { λ n. only (number (num.U32 n)) };

    ghost lawful = { λ x readable. leaf_lawful refl };

    fn serialize<S: Serializer>(&self, _alloc: Global, serializer: &mut S) -> Result<()> {
        serializer.serialize_u32(*self)
    }

    #[inline(always)]
    fn serialize_aside<S: Serializer>(
        &self,
        _alloc: Global,
        serializer: &mut S,
        error: &mut Error,
    ) -> Sent {
        serializer.call_aside(Call::Number(Number::U32(*self)), error)
    }

    #[inline(always)]
    fn is_direct() -> bool {
        true
    }

    #[inline(always)]
    fn direct<'v, 'n>(&self, _alloc: Global, _readable: bool, _room: usize) -> Made<'v, 'n> {
        made_number(Number::from(*self))
    }
}

impl Serialize for i64 {
    ghost script = { λ n. only (number (num.I64 n)) };

    ghost lawful = { λ x readable. leaf_lawful refl };

    fn serialize<S: Serializer>(&self, _alloc: Global, serializer: &mut S) -> Result<()> {
        serializer.serialize_i64(*self)
    }

    #[inline(always)]
    fn serialize_aside<S: Serializer>(
        &self,
        _alloc: Global,
        serializer: &mut S,
        error: &mut Error,
    ) -> Sent {
        serializer.call_aside(Call::Number(Number::I64(*self)), error)
    }

    #[inline(always)]
    fn is_direct() -> bool {
        true
    }

    #[inline(always)]
    fn direct<'v, 'n>(&self, _alloc: Global, _readable: bool, _room: usize) -> Made<'v, 'n> {
        made_number(Number::from(*self))
    }
}

impl Serialize for u64 {
    ghost script = { λ n. only (number (num.U64 n)) };

    ghost lawful = { λ x readable. leaf_lawful refl };

    fn serialize<S: Serializer>(&self, _alloc: Global, serializer: &mut S) -> Result<()> {
        serializer.serialize_u64(*self)
    }

    #[inline(always)]
    fn serialize_aside<S: Serializer>(
        &self,
        _alloc: Global,
        serializer: &mut S,
        error: &mut Error,
    ) -> Sent {
        serializer.call_aside(Call::Number(Number::U64(*self)), error)
    }

    #[inline(always)]
    fn is_direct() -> bool {
        true
    }

    #[inline(always)]
    fn direct<'v, 'n>(&self, _alloc: Global, _readable: bool, _room: usize) -> Made<'v, 'n> {
        made_number(Number::from(*self))
    }
}

impl Serialize for i128 {
    ghost script = { λ n. only (number (num.I128 n)) };

    ghost lawful = { λ x readable. leaf_lawful refl };

    fn serialize<S: Serializer>(&self, _alloc: Global, serializer: &mut S) -> Result<()> {
        serializer.serialize_i128(*self)
    }

    #[inline(always)]
    fn serialize_aside<S: Serializer>(
        &self,
        _alloc: Global,
        serializer: &mut S,
        error: &mut Error,
    ) -> Sent {
        serializer.call_aside(Call::Number(Number::I128(*self)), error)
    }

    #[inline(always)]
    fn is_direct() -> bool {
        true
    }

    #[inline(always)]
    fn direct<'v, 'n>(&self, _alloc: Global, _readable: bool, _room: usize) -> Made<'v, 'n> {
        made_number(Number::from(*self))
    }
}

impl Serialize for u128 {
    ghost script = { λ n. only (number (num.U128 n)) };

    ghost lawful = { λ x readable. leaf_lawful refl };

    fn serialize<S: Serializer>(&self, _alloc: Global, serializer: &mut S) -> Result<()> {
        serializer.serialize_u128(*self)
    }

    #[inline(always)]
    fn serialize_aside<S: Serializer>(
        &self,
        _alloc: Global,
        serializer: &mut S,
        error: &mut Error,
    ) -> Sent {
        serializer.call_aside(Call::Number(Number::U128(*self)), error)
    }

    #[inline(always)]
    fn is_direct() -> bool {
        true
    }

    #[inline(always)]
    fn direct<'v, 'n>(&self, _alloc: Global, _readable: bool, _room: usize) -> Made<'v, 'n> {
        made_number(Number::from(*self))
    }
}

impl Serialize for usize {
    ghost script = { λ n. only (number (num.U64 n)) };

    ghost lawful = { λ x readable. leaf_lawful refl };

    fn serialize<S: Serializer>(&self, _alloc: Global, serializer: &mut S) -> Result<()> {
        serializer.serialize_u64(*self as u64)
    }

    #[inline(always)]
    fn serialize_aside<S: Serializer>(
        &self,
        _alloc: Global,
        serializer: &mut S,
        error: &mut Error,
    ) -> Sent {
        serializer.call_aside(Call::Number(Number::U64(*self as u64)), error)
    }

    #[inline(always)]
    fn is_direct() -> bool {
        true
    }

    #[inline(always)]
    fn direct<'v, 'n>(&self, _alloc: Global, _readable: bool, _room: usize) -> Made<'v, 'n> {
        made_number(Number::from(*self as u64))
    }
}

impl Serialize for isize {
    ghost script = { λ n. only (number (num.I64 n)) };

    ghost lawful = { λ x readable. leaf_lawful refl };

    fn serialize<S: Serializer>(&self, _alloc: Global, serializer: &mut S) -> Result<()> {
        serializer.serialize_i64(*self as i64)
    }

    #[inline(always)]
    fn serialize_aside<S: Serializer>(
        &self,
        _alloc: Global,
        serializer: &mut S,
        error: &mut Error,
    ) -> Sent {
        serializer.call_aside(Call::Number(Number::I64(*self as i64)), error)
    }

    #[inline(always)]
    fn is_direct() -> bool {
        true
    }

    #[inline(always)]
    fn direct<'v, 'n>(&self, _alloc: Global, _readable: bool, _room: usize) -> Made<'v, 'n> {
        made_number(Number::from(*self as i64))
    }
}

impl Serialize for Number {
    ghost script = { λ n. only (number n) };

    ghost lawful = { λ x readable. leaf_lawful refl };

    fn serialize<S: Serializer>(&self, _alloc: Global, serializer: &mut S) -> Result<()> {
        serializer.call(Call::Number(*self))
    }

    #[inline(always)]
    fn serialize_aside<S: Serializer>(
        &self,
        _alloc: Global,
        serializer: &mut S,
        error: &mut Error,
    ) -> Sent {
        serializer.call_aside(Call::Number(*self), error)
    }

    #[inline(always)]
    fn is_direct() -> bool {
        true
    }

    #[inline(always)]
    fn direct<'v, 'n>(&self, _alloc: Global, _readable: bool, _room: usize) -> Made<'v, 'n> {
        made_number(*self)
    }
}
