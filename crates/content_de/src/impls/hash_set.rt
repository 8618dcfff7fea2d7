//! Hash sets.

ghost use Rattle.std.specs.HashSet.{IsFromIterResult};
ghost use Rattle.std.specs.Prelude.{IfOk};
ghost use Rattle.content_de.specs.Outcomes.{refusal_then};
ghost use Rattle.content_de.specs.Accesses.Seq.{seq_at};
ghost use Rattle.content_de.specs.Reads.Standard.{seq_refusal};
ghost use Rattle.content_de.specs.Reads.Hashed.{HashSetGives};

use crate::deserialize::Deserialize;
use crate::deserializer::Deserializer;
use content_tree::Result;
use std::alloc::{AllocError, Global};
use std::collections::HashSet;
use std::hash::Hash;

/// The items of a sequence, to the end; of equal items one stays. Memory for all items is taken
/// before the first is read.
impl<'de, T: Deserialize<'de> + Eq + Hash> Deserialize<'de> for HashSet<T> {
    ghost refusal = { λ s. refusal_then (seq_at s) (seq_refusal T.refusal) };

    ghost gives = { λ s v. HashSetGives T.gives T.eq s v };

    fn deserialize<'n: 'de>(alloc: Global, from: Deserializer<'de, 'n>) -> Result<HashSet<T>> {
        let items = Deserialize::deserialize(alloc, from)?;
        Ok(collect(alloc, items)?)
    }
}

/// The set of these items.
fn collect<T: Eq + Hash + Drop>(
    alloc: Global,
    items: Vec<T>,
) -> std::result::Result<HashSet<T>, AllocError>
    ensures { IfOk result (IsFromIterResult T.eq items.items) }
{
    items.into_iter().collect(alloc)
}
