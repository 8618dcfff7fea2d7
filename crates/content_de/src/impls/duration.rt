//! Durations.

ghost use Rattle.std.specs.Prelude.{◌≡◌, ◌+◌, ◌*◌, codes, pos};
ghost use Rattle.std.specs.Duration.{as_nanos};
ghost use Rattle.content_de.specs.Outcomes.{taken};
ghost use Rattle.content_de.specs.Accesses.ByName.{fields_left};
ghost use Rattle.content_de.specs.Reads.ByName.{read_by_name, ReadByName};
ghost use Rattle.content_de.specs.Reads.Durations.{duration_refusal, DurationGives, sum_refusal};
ghost use Rattle.content_de.specs.Reads.Own.{struct_refusal, StructGives};
ghost use Rattle.content_de.specs.Reads.Read.{Reads};

use crate::by_name::FieldsByName;
use crate::deserialize::Deserialize;
use crate::deserializer::Deserializer;
use crate::named_fields::{deny_unknown_fields, named_field};
use crate::refusal::custom;
use content_tree::Result;
use std::alloc::Global;
use std::time::Duration;

/// A struct of `secs` and `nanos`, in any order and of nothing else, as Serde reads it. A second
/// or more of nanoseconds is carried into the seconds.
impl<'de> Deserialize<'de> for Duration {
    ghost refusal = { struct_refusal (codes "Duration") (read_by_name duration_refusal) };

    ghost gives = { λ s d. StructGives (codes "Duration") (ReadByName (DurationGives d)) s };

    fn deserialize<'n: 'de>(alloc: Global, from: Deserializer<'de, 'n>) -> Result<Duration> {
        let fields = from.deserialize_struct(alloc, "Duration", &["secs", "nanos"])?;
        read_fields(alloc, fields.by_name())
    }
}

/// Its fields, by name, and the end.
fn read_fields<'de, 'n: 'de>(alloc: Global, mut fields: FieldsByName<'de, 'n>) -> Result<Duration>
    ensures { Reads (duration_refusal (fields_left fields.entry))
        (λ d. DurationGives d (fields_left fields.entry)) result }
{
    let secs = named_field(alloc, &mut fields, "secs")?;
    let nanos = named_field(alloc, &mut fields, "nanos")?;
    deny_unknown_fields(alloc, fields, &["secs", "nanos"])?;
    sum(alloc, secs, nanos)
}

/// So many seconds and nanoseconds.
fn sum(alloc: Global, secs: u64, nanos: u32) -> Result<Duration>
    ensures { Reads (sum_refusal (taken (pos secs)) (taken (pos nanos)))
        (λ d. as_nanos d ≡ secs * 1_000_000_000 + nanos) result }
{
    match secs.checked_add((nanos / 1_000_000_000) as u64) {
        Some(_) => Ok(Duration::new(secs, nanos)),
        None => Err(custom(alloc, "overflow deserializing Duration")),
    }
}
