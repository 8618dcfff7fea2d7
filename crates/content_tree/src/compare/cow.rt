//! Texts and bytes are compared by content.

ghost use Rattle.std.specs.Prelude.{Some, refl, nat_eq};
ghost use Rattle.std.specs.Cmp.{on_equiv, on_total, on_per, on_po, partial_equiv_from_equiv};
ghost use Rattle.std.specs.Cmp.Lexicographic.{pointwise, slice_cmp, nat_list_eq_equiv};
ghost use Rattle.std.specs.Cmp.Lexicographic.{nat_list_cmp_total, texts_ties, texts_po};
ghost use Rattle.std.specs.Ordering.{nat_cmp};
ghost use Rattle.content_tree.specs.Values.Text.{text_content, bytes_content};

use crate::cow::{CowBytes, CowStr};
use std::cmp::Ordering;

impl<'a> PartialEq for CowStr<'a> {
    ghost eq = { λ a b. pointwise nat_eq (text_content a) (text_content b) };

    ghost laws = { on_per text_content (partial_equiv_from_equiv nat_list_eq_equiv) };

    fn eq(&self, other: &CowStr<'a>) -> bool {
        self.as_str() == other.as_str()
    }
}

impl<'a> Eq for CowStr<'a> {
    ghost laws = { on_equiv text_content nat_list_eq_equiv };
}

impl<'a> PartialOrd for CowStr<'a> {
    ghost partial_cmp = { λ a b. Some (slice_cmp nat_cmp (text_content a) (text_content b)) };

    ghost laws = { on_po text_content texts_po };

    fn partial_cmp(&self, other: &CowStr<'a>) -> Option<Ordering> {
        Some(self.cmp(other))
    }
}

impl<'a> Ord for CowStr<'a> {
    ghost cmp = { λ a b. slice_cmp nat_cmp (text_content a) (text_content b) };

    ghost total = { on_total text_content nat_list_cmp_total };

    ghost matches_partial_cmp = { λ a b. refl };

    ghost matches_eq = { λ a b. texts_ties (text_content a) (text_content b) };

    fn cmp(&self, other: &CowStr<'a>) -> Ordering {
        self.as_str().cmp(other.as_str())
    }
}

impl<'a> PartialEq for CowBytes<'a> {
    ghost eq = { λ a b. pointwise nat_eq (bytes_content a) (bytes_content b) };

    ghost laws = { on_per bytes_content (partial_equiv_from_equiv nat_list_eq_equiv) };

    fn eq(&self, other: &CowBytes<'a>) -> bool {
        self.as_bytes() == other.as_bytes()
    }
}

impl<'a> Eq for CowBytes<'a> {
    ghost laws = { on_equiv bytes_content nat_list_eq_equiv };
}

impl<'a> PartialOrd for CowBytes<'a> {
    ghost partial_cmp = { λ a b. Some (slice_cmp nat_cmp (bytes_content a) (bytes_content b)) };

    ghost laws = { on_po bytes_content texts_po };

    fn partial_cmp(&self, other: &CowBytes<'a>) -> Option<Ordering> {
        Some(self.cmp(other))
    }
}

impl<'a> Ord for CowBytes<'a> {
    ghost cmp = { λ a b. slice_cmp nat_cmp (bytes_content a) (bytes_content b) };

    ghost total = { on_total bytes_content nat_list_cmp_total };

    ghost matches_partial_cmp = { λ a b. refl };

    ghost matches_eq = { λ a b. texts_ties (bytes_content a) (bytes_content b) };

    fn cmp(&self, other: &CowBytes<'a>) -> Ordering {
        self.as_bytes().cmp(other.as_bytes())
    }
}
