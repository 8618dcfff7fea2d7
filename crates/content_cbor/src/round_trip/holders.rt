//! Double-ended queues, paths, boxed texts and what several own come back from CBOR.

ghost use Rattle.content_cbor.specs.Typed.Holders.{seen_kept, seq_kept, seq_not_null};
ghost use Rattle.content_cbor.specs.Typed.Leaves.{text_not_null};
ghost use Rattle.content_cbor.specs.Typed.Texts.{boxed_text_kept, path_kept};

use crate::round_trip::{CborRoundTrip, NotNull};
use content_de::Deserialize;
use std::boxed::BoxedStr;
use std::collections::VecDeque;
use std::path::PathBuf;
use std::rc::Rc;
use std::sync::Arc;

impl<'de, T: CborRoundTrip<'de>> CborRoundTrip<'de> for VecDeque<T> {
    ghost kept = { seen_kept (λ q. q.items) (seq_kept T.kept) };
}

impl<'de, T: Deserialize<'de>> NotNull<'de> for VecDeque<T> {
    ghost refuses_null = { seq_not_null T.refusal };
}

impl<'de> CborRoundTrip<'de> for PathBuf {
    ghost kept = { path_kept };
}

impl<'de> NotNull<'de> for PathBuf {
    ghost refuses_null = { text_not_null };
}

impl<'de> CborRoundTrip<'de> for BoxedStr {
    ghost kept = { boxed_text_kept };
}

impl<'de> NotNull<'de> for BoxedStr {
    ghost refuses_null = { text_not_null };
}

impl<'de, T: CborRoundTrip<'de>> CborRoundTrip<'de> for Rc<T> {
    ghost kept = { seen_kept (λ b. b.value) T.kept };
}

impl<'de, T: NotNull<'de>> NotNull<'de> for Rc<T> {
    ghost refuses_null = { T.refuses_null };
}

impl<'de, T: CborRoundTrip<'de>> CborRoundTrip<'de> for Arc<T> {
    ghost kept = { seen_kept (λ b. b.value) T.kept };
}

impl<'de, T: NotNull<'de>> NotNull<'de> for Arc<T> {
    ghost refuses_null = { T.refuses_null };
}
