//! The standard library's types come back.

ghost use Rattle.std.specs.Prelude.{IfSome};
ghost use Rattle.std.specs.List.{AllByRecursion};
ghost use Rattle.content_tree.specs.Values.Ranges as kind;
ghost use Rattle.serde_content.specs.Laws.Leaves.{bool_back, char_back, unit_back, text_back};
ghost use Rattle.serde_content.specs.Laws.Leaves.{u8_back, u16_back, u32_back, u64_back, u128_back};
ghost use Rattle.serde_content.specs.Laws.Leaves.{i8_back, i16_back, i32_back, i64_back, i128_back};
ghost use Rattle.serde_content.specs.Laws.Leaves.{number_back, any_number_keeps, heedless_keeps};
ghost use Rattle.serde_content.specs.Laws.Leaves.{natural_keeps, integer_keeps};
ghost use Rattle.serde_content.specs.Laws.Holders.{seen_back, seen_keeps, option_back, option_keeps};
ghost use Rattle.serde_content.specs.Laws.Holders.{seq_back, seq_keeps};

use crate::round::RoundTrip;
use content_tree::Number;

impl<'de> RoundTrip<'de> for bool {
    fn known(&self) {}

    ghost comes_back = { bool_back };

    ghost keeps = { heedless_keeps _ _ };
}

impl<'de> RoundTrip<'de> for char {
    fn known(&self) {}

    ghost comes_back = { char_back };

    ghost keeps = { heedless_keeps _ _ };
}

impl<'de> RoundTrip<'de> for () {
    fn known(&self) {}

    ghost comes_back = { unit_back };

    ghost keeps = { heedless_keeps _ _ };
}

impl<'de> RoundTrip<'de> for String {
    fn known(&self) {}

    ghost comes_back = { text_back };

    ghost keeps = { heedless_keeps _ _ };
}

impl<'de> RoundTrip<'de> for u8 {
    fn known(&self) {}

    ghost comes_back = { u8_back };

    ghost keeps = { natural_keeps kind.u8 };
}

impl<'de> RoundTrip<'de> for u16 {
    fn known(&self) {}

    ghost comes_back = { u16_back };

    ghost keeps = { natural_keeps kind.u16 };
}

impl<'de> RoundTrip<'de> for u32 {
    fn known(&self) {}

    ghost comes_back = { u32_back };

    ghost keeps = { natural_keeps kind.u32 };
}

impl<'de> RoundTrip<'de> for u64 {
    fn known(&self) {}

    ghost comes_back = { u64_back };

    ghost keeps = { natural_keeps kind.u64 };
}

impl<'de> RoundTrip<'de> for u128 {
    fn known(&self) {}

    ghost comes_back = { u128_back };

    ghost keeps = { natural_keeps kind.u128 };
}

impl<'de> RoundTrip<'de> for usize {
    fn known(&self) {}

    ghost comes_back = { u64_back };

    ghost keeps = { natural_keeps kind.u64 };
}

impl<'de> RoundTrip<'de> for i8 {
    fn known(&self) {}

    ghost comes_back = { i8_back };

    ghost keeps = { integer_keeps kind.i8 };
}

impl<'de> RoundTrip<'de> for i16 {
    fn known(&self) {}

    ghost comes_back = { i16_back };

    ghost keeps = { integer_keeps kind.i16 };
}

impl<'de> RoundTrip<'de> for i32 {
    fn known(&self) {}

    ghost comes_back = { i32_back };

    ghost keeps = { integer_keeps kind.i32 };
}

impl<'de> RoundTrip<'de> for i64 {
    fn known(&self) {}

    ghost comes_back = { i64_back };

    ghost keeps = { integer_keeps kind.i64 };
}

impl<'de> RoundTrip<'de> for i128 {
    fn known(&self) {}

    ghost comes_back = { i128_back };

    ghost keeps = { integer_keeps kind.i128 };
}

impl<'de> RoundTrip<'de> for isize {
    fn known(&self) {}

    ghost comes_back = { i64_back };

    ghost keeps = { integer_keeps kind.i64 };
}

impl<'de> RoundTrip<'de> for Number {
    fn known(&self) {}

    ghost comes_back = { number_back };

    ghost keeps = { any_number_keeps };
}

impl<'de, T: RoundTrip<'de>> RoundTrip<'de> for Box<T> {
    ghost exists = { λ b. T.exists b.value };

    fn known(&self) {
        (**self).known();
    }

    ghost comes_back = { seen_back (λ b. b.value) T.comes_back };

    ghost keeps = { seen_keeps (λ b. b.value) T.keeps };
}

impl<'de, T: RoundTrip<'de>> RoundTrip<'de> for Option<T> {
    ghost exists = { λ o. IfSome o T.exists };

    fn known(&self) {
        if let Some(value) = self {
            value.known();
        }
    }

    ghost comes_back = { option_back T.comes_back };

    ghost keeps = { option_keeps T.keeps };
}

impl<'de, T: RoundTrip<'de>> RoundTrip<'de> for Vec<T> {
    ghost exists = { λ v. AllByRecursion T.exists v.items };

    fn known(&self) {
        for item in self {
            item.known();
        }
    }

    ghost comes_back = { seen_back (λ v. v.items) (seq_back T.comes_back) };

    ghost keeps = { seen_keeps (λ v. v.items) (seq_keeps T.keeps) };
}
