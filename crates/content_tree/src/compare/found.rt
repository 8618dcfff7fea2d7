//! Images are compared case by case, and then by contents.

// Two are equal exactly if their images are the same: `images_tie` and `contents_tie` of
// `proofs/SameImage.antt`.

ghost use Rattle.std.specs.Prelude.{Some, refl};
ghost use Rattle.std.specs.Cmp.{on_per, on_equiv, on_po, on_total, partial_equiv_from_equiv};
ghost use Rattle.content_tree.specs.Images.Found.{image_view, image_data_view};
ghost use Rattle.content_tree.specs.Orders.Images.{image_cmp, image_data_cmp, same_image};
ghost use Rattle.content_tree.specs.Orders.Images.{same_image_data};
ghost use Rattle.content_tree.specs.Laws.RankedImage.{image_total, image_equiv};
ghost use Rattle.content_tree.specs.Laws.RankedImage.{image_partial_order, image_data_total};
ghost use Rattle.content_tree.specs.Laws.RankedImage.{image_data_equiv, image_data_partial_order};

use crate::compare::image::{compare, compare_data};
use crate::found::{Found, FoundData};
use std::cmp::Ordering;

impl PartialEq for Found {
    ghost eq = { λ a b. same_image (image_view a) (image_view b) };

    ghost laws = { on_per image_view (partial_equiv_from_equiv image_equiv) };

    fn eq(&self, other: &Found) -> bool {
        self.cmp(other).is_eq()
    }
}

impl Eq for Found {
    ghost laws = { on_equiv image_view image_equiv };
}

impl PartialOrd for Found {
    ghost partial_cmp = { λ a b. Some (image_cmp (image_view a) (image_view b)) };

    ghost laws = { on_po image_view image_partial_order };

    fn partial_cmp(&self, other: &Found) -> Option<Ordering> {
        Some(self.cmp(other))
    }
}

impl Ord for Found {
    ghost cmp = { λ a b. image_cmp (image_view a) (image_view b) };

    ghost total = { on_total image_view image_total };

    ghost matches_partial_cmp = { λ a b. refl };

    ghost matches_eq = { λ a b. refl };

    fn cmp(&self, other: &Found) -> Ordering {
        compare(self, other)
    }
}

impl PartialEq for FoundData {
    ghost eq = { λ a b. same_image_data (image_data_view a) (image_data_view b) };

    ghost laws = { on_per image_data_view (partial_equiv_from_equiv image_data_equiv) };

    fn eq(&self, other: &FoundData) -> bool {
        self.cmp(other).is_eq()
    }
}

impl Eq for FoundData {
    ghost laws = { on_equiv image_data_view image_data_equiv };
}

impl PartialOrd for FoundData {
    ghost partial_cmp = { λ a b. Some (image_data_cmp (image_data_view a) (image_data_view b)) };

    ghost laws = { on_po image_data_view image_data_partial_order };

    fn partial_cmp(&self, other: &FoundData) -> Option<Ordering> {
        Some(self.cmp(other))
    }
}

impl Ord for FoundData {
    ghost cmp = { λ a b. image_data_cmp (image_data_view a) (image_data_view b) };

    ghost total = { on_total image_data_view image_data_total };

    ghost matches_partial_cmp = { λ a b. refl };

    ghost matches_eq = { λ a b. refl };

    fn cmp(&self, other: &FoundData) -> Ordering {
        compare_data(self, other)
    }
}
