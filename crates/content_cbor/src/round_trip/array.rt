//! Arrays come back from CBOR.

ghost use Rattle.content_de.specs.Reads.Arrays.{array_refusal};
ghost use Rattle.content_cbor.specs.Typed.Arrays.{array_kept};
ghost use Rattle.content_cbor.specs.Typed.Series.{tuple_not_null};

use crate::round_trip::{CborRoundTrip, NotNull};
use content_de::Deserialize;

impl<'de, T: CborRoundTrip<'de>, const N: usize> CborRoundTrip<'de> for [T; N] {
    ghost kept = { array_kept N T.kept };
}

impl<'de, T: Deserialize<'de>, const N: usize> NotNull<'de> for [T; N] {
    ghost refuses_null = { tuple_not_null N (array_refusal N T.refusal) };
}
