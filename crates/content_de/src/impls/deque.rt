//! Double-ended queues.

ghost use Rattle.content_de.specs.Outcomes.{refusal_then, IsTaken};
ghost use Rattle.content_de.specs.Accesses.Seq.{seq_at};
ghost use Rattle.content_de.specs.Reads.Standard.{seq_refusal, SeqGives};

use crate::deserialize::Deserialize;
use crate::deserializer::Deserializer;
use content_tree::Result;
use std::alloc::Global;
use std::collections::VecDeque;

/// The items of a sequence, to the end, as a `Vec` reads them.
impl<'de, T: Deserialize<'de>> Deserialize<'de> for VecDeque<T> {
    ghost refusal = { λ s. refusal_then (seq_at s) (seq_refusal T.refusal) };

    ghost gives = { λ s v. IsTaken (seq_at s) (λ l. SeqGives T.gives l v.items) };

    fn deserialize<'n: 'de>(alloc: Global, from: Deserializer<'de, 'n>) -> Result<VecDeque<T>> {
        Ok(VecDeque::from_vec(Deserialize::deserialize(alloc, from)?))
    }
}
