//! The standard library's types come back from CBOR.

ghost use Rattle.content_tree.specs.Values.Ranges as kind;
ghost use Rattle.content_cbor.specs.Typed.Leaves.{bool_kept, bool_not_null, number_not_null};
ghost use Rattle.content_cbor.specs.Typed.Leaves.{text_kept, text_not_null};
ghost use Rattle.content_cbor.specs.Typed.Leaves.{u8_kept, u16_kept, u32_kept, u64_kept, u128_kept};
ghost use Rattle.content_cbor.specs.Typed.Leaves.{i8_kept, i16_kept, i32_kept, i64_kept, i128_kept};
ghost use Rattle.content_cbor.specs.Typed.Holders.{option_kept, seen_kept, seq_kept, seq_not_null};

use crate::round_trip::{CborRoundTrip, NotNull};
use content_de::Deserialize;

impl<'de> CborRoundTrip<'de> for bool {
    ghost kept = { bool_kept };
}

impl<'de> NotNull<'de> for bool {
    ghost refuses_null = { bool_not_null };
}

impl<'de> CborRoundTrip<'de> for String {
    ghost kept = { text_kept };
}

impl<'de> NotNull<'de> for String {
    ghost refuses_null = { text_not_null };
}

impl<'de> CborRoundTrip<'de> for u8 {
    ghost kept = { u8_kept };
}

impl<'de> NotNull<'de> for u8 {
    ghost refuses_null = { number_not_null kind.u8 };
}

impl<'de> CborRoundTrip<'de> for u16 {
    ghost kept = { u16_kept };
}

impl<'de> NotNull<'de> for u16 {
    ghost refuses_null = { number_not_null kind.u16 };
}

impl<'de> CborRoundTrip<'de> for u32 {
    ghost kept = { u32_kept };
}

impl<'de> NotNull<'de> for u32 {
    ghost refuses_null = { number_not_null kind.u32 };
}

impl<'de> CborRoundTrip<'de> for u64 {
    ghost kept = { u64_kept };
}

impl<'de> NotNull<'de> for u64 {
    ghost refuses_null = { number_not_null kind.u64 };
}

impl<'de> CborRoundTrip<'de> for u128 {
    ghost kept = { u128_kept };
}

impl<'de> NotNull<'de> for u128 {
    ghost refuses_null = { number_not_null kind.u128 };
}

impl<'de> CborRoundTrip<'de> for usize {
    ghost kept = { u64_kept };
}

impl<'de> NotNull<'de> for usize {
    ghost refuses_null = { number_not_null kind.u64 };
}

impl<'de> CborRoundTrip<'de> for i8 {
    ghost kept = { i8_kept };
}

impl<'de> NotNull<'de> for i8 {
    ghost refuses_null = { number_not_null kind.i8 };
}

impl<'de> CborRoundTrip<'de> for i16 {
    ghost kept = { i16_kept };
}

impl<'de> NotNull<'de> for i16 {
    ghost refuses_null = { number_not_null kind.i16 };
}

impl<'de> CborRoundTrip<'de> for i32 {
    ghost kept = { i32_kept };
}

impl<'de> NotNull<'de> for i32 {
    ghost refuses_null = { number_not_null kind.i32 };
}

impl<'de> CborRoundTrip<'de> for i64 {
    ghost kept = { i64_kept };
}

impl<'de> NotNull<'de> for i64 {
    ghost refuses_null = { number_not_null kind.i64 };
}

impl<'de> CborRoundTrip<'de> for i128 {
    ghost kept = { i128_kept };
}

impl<'de> NotNull<'de> for i128 {
    ghost refuses_null = { number_not_null kind.i128 };
}

impl<'de> CborRoundTrip<'de> for isize {
    ghost kept = { i64_kept };
}

impl<'de> NotNull<'de> for isize {
    ghost refuses_null = { number_not_null kind.i64 };
}

impl<'de, T: CborRoundTrip<'de>> CborRoundTrip<'de> for Box<T> {
    ghost kept = { seen_kept (λ b. b.value) T.kept };
}

impl<'de, T: NotNull<'de>> NotNull<'de> for Box<T> {
    ghost refuses_null = { T.refuses_null };
}

/// `Some` of null would be read as `None`.
impl<'de, T: CborRoundTrip<'de> + NotNull<'de>> CborRoundTrip<'de> for Option<T> {
    ghost kept = { option_kept T.refuses_null T.kept };
}

impl<'de, T: CborRoundTrip<'de>> CborRoundTrip<'de> for Vec<T> {
    ghost kept = { seen_kept (λ v. v.items) (seq_kept T.kept) };
}

impl<'de, T: Deserialize<'de>> NotNull<'de> for Vec<T> {
    ghost refuses_null = { seq_not_null T.refusal };
}
