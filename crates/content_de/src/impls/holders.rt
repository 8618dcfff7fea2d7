//! Options, boxes and vectors.

ghost use Rattle.std.specs.Prelude.{IfErr};
ghost use Rattle.content_de.specs.Outcomes.{refusal_then, IsTaken};
ghost use Rattle.content_de.specs.Requests.Leaves.{held_by};
ghost use Rattle.content_de.specs.Accesses.Seq.{seq_view, seq_at};
ghost use Rattle.content_de.specs.Reads.Paths.{IsItemRefusal};
ghost use Rattle.content_de.specs.Reads.Read.{Reads};
ghost use Rattle.content_de.specs.Reads.Standard.{held_refusal, HeldGives, HeldMemoryless};
ghost use Rattle.content_de.specs.Reads.Standard.{seq_refusal, SeqGives};

use crate::deserialize::Deserialize;
use crate::deserializer::Deserializer;
use crate::seq::Seq;
use crate::within::refused_at;
use content_tree::Result;
use std::alloc::Global;

/// What an option holds, if anything; what is no option counts as held.
impl<'de, T: Deserialize<'de>> Deserialize<'de> for Option<T> {
    ghost refusal = { λ s. held_refusal T.refusal (held_by s) };

    ghost gives = { λ s v. HeldGives T.gives (held_by s) v };

    ghost memoryless = { λ s. HeldMemoryless T.memoryless (held_by s) };

    fn deserialize<'n: 'de>(alloc: Global, from: Deserializer<'de, 'n>) -> Result<Option<T>> {
        match from.deserialize_option(alloc)? {
            None => Ok(None),
            Some(held) => Ok(Some(T::deserialize(alloc, held)?)),
        }
    }
}

/// What the type in the box reads.
impl<'de, T: Deserialize<'de>> Deserialize<'de> for Box<T> {
    ghost refusal = { T.refusal };

    ghost gives = { λ s v. T.gives s v.value };

    fn deserialize<'n: 'de>(alloc: Global, from: Deserializer<'de, 'n>) -> Result<Box<T>> {
        Ok(Box::new(alloc, T::deserialize(alloc, from)?)?)
    }
}

/// The items of a sequence, to the end. Memory for all of them is taken before the first is read.
impl<'de, T: Deserialize<'de>> Deserialize<'de> for Vec<T> {
    ghost refusal = { λ s. refusal_then (seq_at s) (seq_refusal T.refusal) };

    ghost gives = { λ s v. IsTaken (seq_at s) (λ l. SeqGives T.gives l v.items) };

    fn deserialize<'n: 'de>(alloc: Global, from: Deserializer<'de, 'n>) -> Result<Vec<T>> {
        read_items(alloc, from.deserialize_seq(alloc)?)
    }
}

/// The items that are left, in order.
fn read_items<'de, 'n: 'de, T: Deserialize<'de>>(
    alloc: Global,
    mut from: Seq<'de, 'n>,
) -> Result<Vec<T>>
    ensures value { Reads (seq_refusal T.refusal (seq_view from.entry))
        (λ v. SeqGives T.gives (seq_view from.entry) v.items) result }
    ensures path { IfErr result (λ e. IsItemRefusal T.refusal (seq_view from.entry) e) }
{
    let mut items = Vec::with_capacity(alloc, from.size_hint().unwrap_or(0))?;
    while let Some(item) = from.next_deserializer() {
        match T::deserialize(alloc, item) {
            Ok(value) => items.push_reserved(value),
            Err(error) => return refused_at(alloc, error, items.len()),
        }
    }
    Ok(items)
}
