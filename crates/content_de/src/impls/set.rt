//! Sets in order.

ghost use Rattle.std.specs.Prelude.{◌≡◌, [], IfOk};
ghost use Rattle.content_de.specs.Outcomes.{refusal_then};
ghost use Rattle.content_de.specs.Accesses.Seq.{seq_at};
ghost use Rattle.content_de.specs.Reads.Standard.{seq_refusal};
ghost use Rattle.content_de.specs.Reads.Sets.{put_keys, SetGives};

use crate::deserialize::Deserialize;
use crate::deserializer::Deserializer;
use content_tree::Result;
use std::alloc::{AllocError, Global};
use std::collections::BTreeSet;

/// The items of a sequence, to the end; of equal items the first stays. Memory for all items is
/// taken before the first is read.
impl<'de, T: Deserialize<'de> + Ord> Deserialize<'de> for BTreeSet<T> {
    ghost refusal = { λ s. refusal_then (seq_at s) (seq_refusal T.refusal) };

    ghost gives = { λ s v. SetGives T.gives T.cmp s v.keys };

    fn deserialize<'n: 'de>(alloc: Global, from: Deserializer<'de, 'n>) -> Result<BTreeSet<T>> {
        let items = Deserialize::deserialize(alloc, from)?;
        Ok(collect(alloc, items)?)
    }
}

/// The set of these items; of equal ones the first stays.
fn collect<T: Ord + Drop>(
    alloc: Global,
    items: Vec<T>,
) -> std::result::Result<BTreeSet<T>, AllocError>
    ensures { IfOk result (λ set. set.keys ≡ put_keys T.cmp [] items.items) }
{
    let mut set = BTreeSet::new(alloc);
    for item in items {
        set.insert(item)?;
    }
    Ok(set)
}
