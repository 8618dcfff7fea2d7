//! Durations, as structs of their seconds and of the nanoseconds beyond them.

#![tactic(auto, using(crate::proofs::Sending::sending, crate::proofs::Making::making))]

ghost use Rattle.content_ser.specs.Scripts.Durations.{duration_script};
ghost use Rattle.content_ser.specs.Laws.Durations.{duration_lawful};

use crate::call::Call;
use crate::direct::{Made, inside, made_of};
use crate::head::Head;
use crate::parts::Parts;
use crate::serialize::Serialize;
use crate::serializer::Serializer;
use content_tree::{CowStr, NamedData, NamedValue, Result};
use std::alloc::Global;
use std::time::Duration;

impl Serialize for Duration {
    ghost script = { duration_script };

    ghost lawful = { duration_lawful };

    fn serialize<S: Serializer>(&self, alloc: Global, serializer: &mut S) -> Result<()> {
        Call::Struct("Duration", 2)
            .with(Call::Field("secs"), &self.as_secs())
            .with(Call::Field("nanos"), &self.subsec_nanos())
            .end(alloc, serializer)
    }

    #[inline(always)]
    fn is_direct() -> bool {
        true
    }

    fn direct<'v, 'n>(&self, alloc: Global, readable: bool, room: usize) -> Made<'v, 'n> {
        let levels = inside(room)?;
        let secs = self.as_secs().direct(alloc, readable, levels)?;
        let nanos = self.subsec_nanos().direct(alloc, readable, levels)?;
        let mut fields: Vec<(CowStr<'n>, NamedValue<'v, 'n>)> = Vec::with_capacity(alloc, 2)?;
        fields.push_reserved((CowStr::Borrowed("secs"), secs));
        fields.push_reserved((CowStr::Borrowed("nanos"), nanos));
        made_of(
            alloc,
            Head::Struct("Duration"),
            NamedData::Struct { fields },
        )
    }
}
