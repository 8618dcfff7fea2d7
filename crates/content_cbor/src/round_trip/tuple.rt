//! Tuples of one to four values come back from CBOR.

ghost use Rattle.serde_content.specs.Laws.Series.{both_hold};
ghost use Rattle.content_cbor.specs.Typed.Series.{element_kept, parts_end_kept, tuple_kept};
ghost use Rattle.content_cbor.specs.Typed.Series.{tuple_not_null};

use crate::round_trip::{CborRoundTrip, NotNull};
use content_de::Deserialize;

impl<'de, A: CborRoundTrip<'de>> CborRoundTrip<'de> for (A,) {
    ghost kept = { record {
      of_value = λ x real. tuple_kept
          (element_kept A.kept x.0 real (λ y. y.0) 1 0 (parts_end_kept 1))
          (λ y h. h.0);
    } };
}

impl<'de, A: Deserialize<'de>> NotNull<'de> for (A,) {
    ghost refuses_null = { tuple_not_null 1 _ };
}

impl<'de, A: CborRoundTrip<'de>, B: CborRoundTrip<'de>> CborRoundTrip<'de> for (A, B) {
    ghost kept = { record {
      of_value = λ x real. tuple_kept
          (element_kept A.kept x.0 real.0 (λ y. y.0) 2 0
          (element_kept B.kept x.1 real.1 (λ y. y.1) 2 1 (parts_end_kept 2)))
          (λ y h. both_hold h.0 h.1.0);
    } };
}

impl<'de, A: Deserialize<'de>, B: Deserialize<'de>> NotNull<'de> for (A, B) {
    ghost refuses_null = { tuple_not_null 2 _ };
}

impl<'de, A: CborRoundTrip<'de>, B: CborRoundTrip<'de>, C: CborRoundTrip<'de>> CborRoundTrip<'de>
    for (A, B, C) {
    ghost kept = { record {
      of_value = λ x real. tuple_kept
          (element_kept A.kept x.0 real.0 (λ y. y.0) 3 0
          (element_kept B.kept x.1 real.1 (λ y. y.1) 3 1
          (element_kept C.kept x.2 real.2 (λ y. y.2) 3 2 (parts_end_kept 3))))
          (λ y h. both_hold (both_hold h.0 h.1.0) h.1.1.0);
    } };
}

impl<'de, A: Deserialize<'de>, B: Deserialize<'de>, C: Deserialize<'de>> NotNull<'de>
    for (A, B, C) {
    ghost refuses_null = { tuple_not_null 3 _ };
}

impl<
    'de,
    A: CborRoundTrip<'de>,
    B: CborRoundTrip<'de>,
    C: CborRoundTrip<'de>,
    D: CborRoundTrip<'de>,
> CborRoundTrip<'de> for (A, B, C, D) {
    ghost kept = { record {
      of_value = λ x real. tuple_kept
          (element_kept A.kept x.0 real.0 (λ y. y.0) 4 0
          (element_kept B.kept x.1 real.1 (λ y. y.1) 4 1
          (element_kept C.kept x.2 real.2 (λ y. y.2) 4 2
          (element_kept D.kept x.3 real.3 (λ y. y.3) 4 3 (parts_end_kept 4)))))
          (λ y h. both_hold (both_hold (both_hold h.0 h.1.0) h.1.1.0) h.1.1.1.0);
    } };
}

impl<
    'de,
    A: Deserialize<'de>,
    B: Deserialize<'de>,
    C: Deserialize<'de>,
    D: Deserialize<'de>,
> NotNull<'de> for (A, B, C, D) {
    ghost refuses_null = { tuple_not_null 4 _ };
}
