//! Tuples of one to four.

ghost use Rattle.content_de.specs.Outcomes.{refusal_then, IsTaken};
ghost use Rattle.content_de.specs.Accesses.Seq.{tuple_at};
ghost use Rattle.content_de.specs.Reads.Tuples.{part_then, end_of_parts, PartThen, NoPart};
ghost use Rattle.content_de.specs.Reads.Tuples.{MemorylessThen, MayEnd};

use crate::deserialize::Deserialize;
use crate::deserializer::Deserializer;
use crate::parts::{finish_parts, last_three, next_part, two_parts};
use content_tree::Result;
use std::alloc::Global;

/// One item, and the [end](finish_parts).
impl<'de, A: Deserialize<'de>> Deserialize<'de> for (A,) {
    ghost refusal = { λ s. refusal_then (tuple_at 1 s)
        (part_then 1 0 A.refusal (end_of_parts 1)) };

    ghost gives = { λ s v. IsTaken (tuple_at 1 s)
        (PartThen A.gives v.0 NoPart) };

    ghost memoryless = { λ s. IsTaken (tuple_at 1 s)
        (MemorylessThen A.memoryless (MayEnd 1)) };

    fn deserialize<'n: 'de>(alloc: Global, from: Deserializer<'de, 'n>) -> Result<(A,)> {
        let mut parts = from.deserialize_tuple(alloc, 1)?;
        let first = next_part(alloc, &mut parts, 1, 0)?;
        finish_parts(alloc, parts, 1)?;
        Ok((first,))
    }
}

/// Two items, and the [end](finish_parts).
impl<'de, A: Deserialize<'de>, B: Deserialize<'de>> Deserialize<'de> for (A, B) {
    ghost refusal = { λ s. refusal_then (tuple_at 2 s)
        (part_then 2 0 A.refusal (part_then 2 1 B.refusal (end_of_parts 2))) };

    ghost gives = { λ s v. IsTaken (tuple_at 2 s)
        (PartThen A.gives v.0 (PartThen B.gives v.1 NoPart)) };

    ghost memoryless = { λ s. IsTaken (tuple_at 2 s)
        (MemorylessThen A.memoryless (MemorylessThen B.memoryless (MayEnd 2))) };

    fn deserialize<'n: 'de>(alloc: Global, from: Deserializer<'de, 'n>) -> Result<(A, B)> {
        two_parts(alloc, from.deserialize_tuple(alloc, 2)?)
    }
}

/// Three items, and the [end](finish_parts).
impl<'de, A: Deserialize<'de>, B: Deserialize<'de>, C: Deserialize<'de>> Deserialize<'de>
    for (A, B, C) {
    ghost refusal = { λ s. refusal_then (tuple_at 3 s)
        (part_then 3 0 A.refusal (part_then 3 1 B.refusal (part_then 3 2 C.refusal
        (end_of_parts 3)))) };

    ghost gives = { λ s v. IsTaken (tuple_at 3 s)
        (PartThen A.gives v.0 (PartThen B.gives v.1 (PartThen C.gives v.2 NoPart))) };

    ghost memoryless = { λ s. IsTaken (tuple_at 3 s)
        (MemorylessThen A.memoryless (MemorylessThen B.memoryless
        (MemorylessThen C.memoryless (MayEnd 3)))) };

    fn deserialize<'n: 'de>(alloc: Global, from: Deserializer<'de, 'n>) -> Result<(A, B, C)> {
        last_three(alloc, from.deserialize_tuple(alloc, 3)?, 3)
    }
}

/// Four items, and the [end](finish_parts).
impl<
    'de,
    A: Deserialize<'de>,
    B: Deserialize<'de>,
    C: Deserialize<'de>,
    D: Deserialize<'de>,
> Deserialize<'de> for (A, B, C, D) {
    ghost refusal = { λ s. refusal_then (tuple_at 4 s)
        (part_then 4 0 A.refusal (part_then 4 1 B.refusal
        (part_then 4 2 C.refusal (part_then 4 3 D.refusal (end_of_parts 4))))) };

    ghost gives = { λ s v. IsTaken (tuple_at 4 s)
        (PartThen A.gives v.0 (PartThen B.gives v.1
        (PartThen C.gives v.2 (PartThen D.gives v.3 NoPart)))) };

    ghost memoryless = { λ s. IsTaken (tuple_at 4 s)
        (MemorylessThen A.memoryless (MemorylessThen B.memoryless
        (MemorylessThen C.memoryless (MemorylessThen D.memoryless (MayEnd 4))))) };

    fn deserialize<'n: 'de>(alloc: Global, from: Deserializer<'de, 'n>) -> Result<(A, B, C, D)> {
        let mut parts = from.deserialize_tuple(alloc, 4)?;
        let first = next_part(alloc, &mut parts, 4, 0)?;
        let (second, third, fourth) = last_three(alloc, parts, 4)?;
        Ok((first, second, third, fourth))
    }
}
