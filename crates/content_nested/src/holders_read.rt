//! Boxes, optional values and vectors of values that are read level by level.

ghost use Rattle.std.specs.Prelude.{IfErr};
ghost use Rattle.content_de.specs.Outcomes.{refusal_then, IsTaken};
ghost use Rattle.content_de.specs.Requests.Leaves.{held_by};
ghost use Rattle.content_de.specs.Accesses.Seq.{seq_view, seq_at};
ghost use Rattle.content_de.specs.Reads.Paths.{IsItemRefusal};
ghost use Rattle.content_de.specs.Reads.Read.{Reads};
ghost use Rattle.content_de.specs.Reads.Standard.{held_refusal, HeldGives};
ghost use Rattle.content_de.specs.Reads.Standard.{seq_refusal, SeqGives};

use crate::reading::{ReadWithin, ReadsWithin};
use content_de::{Deserializer, Seq};
use content_tree::Result;
use std::alloc::Global;

impl<'de, T, L> ReadsWithin<'de, Box<T>> for Box<L>
where
    Box<L>: ReadsWithin<'de, T>,
{
    ghost refusal = { ⟦<Box<L> as ReadsWithin<'de, T>>⟧.refusal };

    ghost gives = { λ l s v. ⟦<Box<L> as ReadsWithin<'de, T>>⟧.gives l s v.value };
}

impl<'de, T: Drop, L> ReadWithin<'de, Box<T>> for Box<L>
where
    Box<L>: ReadWithin<'de, T>,
{
    fn read_within<'n: 'de>(&self, alloc: Global, from: Deserializer<'de, 'n>) -> Result<Box<T>> {
        let value = ReadWithin::<'de, T>::read_within(self, alloc, from)?;
        Ok(Box::new(alloc, value)?)
    }
}

impl<'de, T, L> ReadsWithin<'de, Option<T>> for Box<L>
where
    Box<L>: ReadsWithin<'de, T>,
{
    ghost refusal = { λ l s. held_refusal (⟦<Box<L> as ReadsWithin<'de, T>>⟧.refusal l)
        (held_by s) };

    ghost gives = { λ l s v. HeldGives (⟦<Box<L> as ReadsWithin<'de, T>>⟧.gives l) (held_by s) v };
}

impl<'de, T: Drop, L> ReadWithin<'de, Option<T>> for Box<L>
where
    Box<L>: ReadWithin<'de, T>,
{
    fn read_within<'n: 'de>(
        &self,
        alloc: Global,
        from: Deserializer<'de, 'n>,
    ) -> Result<Option<T>> {
        match from.deserialize_option(alloc)? {
            None => Ok(None),
            Some(held) => Ok(Some(ReadWithin::<'de, T>::read_within(self, alloc, held)?)),
        }
    }
}

impl<'de, T, L> ReadsWithin<'de, Vec<T>> for Box<L>
where
    Box<L>: ReadsWithin<'de, T>,
{
    ghost refusal = { λ l s. refusal_then (seq_at s)
        (seq_refusal (⟦<Box<L> as ReadsWithin<'de, T>>⟧.refusal l)) };

    ghost gives = { λ l s v. IsTaken (seq_at s)
        (λ left. SeqGives (⟦<Box<L> as ReadsWithin<'de, T>>⟧.gives l) left v.items) };
}

impl<'de, T: Drop, L> ReadWithin<'de, Vec<T>> for Box<L>
where
    Box<L>: ReadWithin<'de, T>,
{
    fn read_within<'n: 'de>(&self, alloc: Global, from: Deserializer<'de, 'n>) -> Result<Vec<T>> {
        read_items(self, alloc, from.deserialize_seq(alloc)?)
    }
}

/// The items that are left, in order.
fn read_items<'de, 'n: 'de, T: Drop, L: ReadWithin<'de, T>>(
    levels: &L,
    alloc: Global,
    mut from: Seq<'de, 'n>,
) -> Result<Vec<T>>
    ensures value { Reads (seq_refusal (L.refusal levels.now) (seq_view from.entry))
        (λ v. SeqGives (L.gives levels.now) (seq_view from.entry) v.items) result }
    ensures path { IfErr result (λ e. IsItemRefusal (L.refusal levels.now) (seq_view from.entry) e) }
{
    let mut items = Vec::with_capacity(alloc, from.size_hint().unwrap_or(0))?;
    while let Some(item) = from.next_deserializer() {
        match levels.read_within(alloc, item) {
            Ok(value) => items.push_reserved(value),
            Err(error) => return Err(error.at_index(alloc, items.len())),
        }
    }
    Ok(items)
}
