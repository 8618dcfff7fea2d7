//! Optional values and boxes.

#![tactic(auto, using(crate::proofs::Sending::sending, crate::proofs::Making::making))]

ghost use Rattle.content_ser.specs.Scripts.Standard.{option_script};
ghost use Rattle.content_ser.specs.Laws.StandardScripts.{option_lawful};

use crate::aside::{Sent, answered};
use crate::direct::{Made, inside};
use crate::send::calls::{serialize_none, serialize_some};
use crate::serialize::Serialize;
use crate::serializer::Serializer;
use content_tree::{Error, NamedValue, Result};
use std::alloc::Global;

impl<T: Serialize> Serialize for Option<T> {
    ghost script = { option_script T.script };

    ghost lawful = { option_lawful T.lawful };

    fn serialize<S: Serializer>(&self, alloc: Global, serializer: &mut S) -> Result<()> {
        answered!(error => self.serialize_aside(alloc, serializer, &mut error))
    }

    fn serialize_aside<S: Serializer>(
        &self,
        alloc: Global,
        serializer: &mut S,
        error: &mut Error,
    ) -> Sent {
        match self {
            None => serialize_none(serializer, error),
            Some(value) => {
                serialize_some(serializer, error)?;
                value.serialize_aside(alloc, serializer, error)
            }
        }
    }

    #[inline(always)]
    fn is_direct() -> bool {
        T::is_direct()
    }

    fn direct<'v, 'n>(&self, alloc: Global, readable: bool, room: usize) -> Made<'v, 'n> {
        match self {
            None => Ok(NamedValue::Option(None)),
            Some(value) => {
                let value = value.direct(alloc, readable, inside(room)?)?;
                Ok(NamedValue::Option(Some(Box::new(alloc, value)?)))
            }
        }
    }
}

impl<T: Serialize> Serialize for Box<T> {
    ghost script = { λ b. T.script b.value };

    ghost lawful = { λ b. T.lawful b.value };

    fn serialize<S: Serializer>(&self, alloc: Global, serializer: &mut S) -> Result<()> {
        Serialize::serialize(&**self, alloc, serializer)
    }

    fn serialize_aside<S: Serializer>(
        &self,
        alloc: Global,
        serializer: &mut S,
        error: &mut Error,
    ) -> Sent {
        Serialize::serialize_aside(&**self, alloc, serializer, error)
    }

    #[inline(always)]
    fn is_direct() -> bool {
        T::is_direct()
    }

    fn direct<'v, 'n>(&self, alloc: Global, readable: bool, room: usize) -> Made<'v, 'n> {
        Serialize::direct(&**self, alloc, readable, room)
    }
}
