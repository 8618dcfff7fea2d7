//! Arrays come back.

ghost use Rattle.std.specs.Prelude.{◌≡◌, length};
ghost use Rattle.std.specs.List.{AllByRecursion};
ghost use Rattle.serde_content.specs.Laws.Arrays.{array_back, array_keeps};

use crate::round::RoundTrip;

impl<'de, T: RoundTrip<'de>, const N: usize> RoundTrip<'de> for [T; N] {
    ghost exists = { λ xs. (length xs ≡ N) × AllByRecursion T.exists xs };

    fn known(&self) {
        for item in self {
            item.known();
        }
    }

    ghost comes_back = { array_back N T.comes_back };

    ghost keeps = { array_keeps N T.keeps };
}
