//! The end of a row that keeps what its fields leave over, as Serde does for a flattened field.

ghost use Rattle.content_de.specs.Reads.ByName.{NoOthers};
ghost use Rattle.serde_content.specs.Literals.{others_left};
ghost use Rattle.serde_content.specs.Rests.{rest_then, RestThen, RestTried};

use crate::fields_read::{OthersSkipped, ReadFields};
use crate::name_lists::Names;
use content_de::{Deserialize, FieldsByName, attempt_last, keep_unknown_fields};
use content_tree::Result;
use std::alloc::Global;
use std::marker::PhantomData;

/// What is left over after fields that end so, read as this type out of a buffer.
#[derive(Drop)]
pub struct ReadRest<T, R>(pub T, pub R);

impl<'de, K: Names, T: Deserialize<'de>> ReadFields<'de> for ReadRest<T, OthersSkipped<K>> {
    ghost refusal = { rest_then T.refusal (others_left K.names) };

    ghost gives = { λ row. RestThen T.gives row.0 NoOthers };

    #[tactic(auto, unfolding(crate::specs::Rests::rest_then, crate::specs::Rests::RestThen, crate::specs::Literals::others_left))]
    #[inline(always)]
    fn read<'n: 'de>(alloc: Global, fields: FieldsByName<'de, 'n>) -> Result<Self> {
        let rest = keep_unknown_fields(alloc, fields, K::names())?;
        Ok(ReadRest(T::deserialize(alloc, rest)?, OthersSkipped(PhantomData)))
    }
}

/// The same of what is read where the type takes it, and else is none.
#[derive(Drop)]
pub struct TryRest<T, R>(pub Option<T>, pub R);

impl<'de, K: Names, T: Deserialize<'de>> ReadFields<'de> for TryRest<T, OthersSkipped<K>> {
    ghost refusal = { others_left K.names };

    ghost gives = { λ row. RestTried T.refusal T.gives row.0 NoOthers };

    #[tactic(auto, unfolding(crate::specs::Rests::RestTried, crate::specs::Literals::others_left))]
    #[inline(always)]
    fn read<'n: 'de>(alloc: Global, fields: FieldsByName<'de, 'n>) -> Result<Self> {
        let rest = keep_unknown_fields(alloc, fields, K::names())?;
        Ok(TryRest(attempt_last(alloc, rest)?, OthersSkipped(PhantomData)))
    }
}
