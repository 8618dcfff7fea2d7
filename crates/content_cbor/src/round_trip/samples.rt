//! A struct comes back from CBOR.

ghost use Rattle.std.specs.Prelude.{codes};
ghost use Rattle.serde_content.specs.Laws.Series.{both_hold};
ghost use Rattle.content_cbor.specs.Typed.Leaves.{i32_kept};
ghost use Rattle.content_cbor.specs.Typed.Records.{field_kept, fields_end_kept, struct_kept};

use crate::round_trip::{CborRoundTrip, NotNull};
use serde_content::samples::Point;

impl<'de> CborRoundTrip<'de> for Point {
    ghost kept = { record {
      of_value = λ p real. struct_kept
          (field_kept (codes "x") i32_kept p.x tt (λ q. q.x)
          (field_kept (codes "y") i32_kept p.y tt (λ q. q.y)
          fields_end_kept))
          (λ q h. both_hold h.0 h.1.0);
    } };
}

impl<'de> NotNull<'de> for Point {
    ghost refuses_null = { record { of_null = λ b e. absurd (cc e) } };
}
