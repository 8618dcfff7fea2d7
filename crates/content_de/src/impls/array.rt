//! Arrays.

ghost use Rattle.std.specs.Prelude.{◌≡◌, vec_len};
ghost use Rattle.content_de.specs.Outcomes.{refusal_then, IsTaken};
ghost use Rattle.content_de.specs.Accesses.Seq.{seq_view, tuple_at};
ghost use Rattle.content_de.specs.Reads.Arrays.{array_refusal, PartsAlike};
ghost use Rattle.content_de.specs.Reads.Read.{Reads};

use crate::deserialize::Deserialize;
use crate::deserializer::Deserializer;
use crate::parts::{finish_parts, next_part};
use crate::seq::Seq;
use content_tree::Result;
use std::alloc::Global;

/// As many items as the array has, and the [end](finish_parts). Memory for them is taken before the
/// first is read, and given back at the end.
impl<'de, T: Deserialize<'de>, const N: usize> Deserialize<'de> for [T; N] {
    ghost refusal = { λ s. refusal_then (tuple_at N s) (array_refusal N T.refusal) };

    ghost gives = { λ s xs. IsTaken (tuple_at N s) (PartsAlike T.gives N xs) };

    fn deserialize<'n: 'de>(alloc: Global, from: Deserializer<'de, 'n>) -> Result<[T; N]> {
        read_parts(alloc, from.deserialize_tuple(alloc, N)?)
    }
}

/// So many items, in order, and the end.
fn read_parts<'de, 'n: 'de, T: Deserialize<'de>, const N: usize>(
    alloc: Global,
    mut from: Seq<'de, 'n>,
) -> Result<[T; N]>
    ensures { Reads (array_refusal N T.refusal (seq_view from.entry))
        (λ xs. PartsAlike T.gives N xs (seq_view from.entry)) result }
{
    let mut items = Vec::with_capacity(alloc, N)?;
    for found in 0..N {
        items.push_reserved(next_part(alloc, &mut from, N, found)?);
    }
    finish_parts(alloc, from, N)?;
    Ok(into_array(items))
}

/// The array of these items, which are as many as it has.
fn into_array<T: Drop, const N: usize>(items: Vec<T>) -> [T; N]
    requires { vec_len items ≡ N }
    ensures { result ≡ items.items }
{
    match <[T; N]>::try_from(items) {
        Ok(array) => array,
        Err(_items) => unreachable!(),
    }
}
