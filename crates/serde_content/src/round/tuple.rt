//! Tuples of one to four values come back.

ghost use Rattle.serde_content.specs.Laws.Series.{both_hold, element_back, parts_end, tuple_back};
ghost use Rattle.serde_content.specs.Laws.Series.{part_keeps, parts_end_keeps, tuple_keeps};

use crate::round::RoundTrip;

impl<'de, A: RoundTrip<'de>> RoundTrip<'de> for (A,) {
    ghost exists = { λ x. A.exists x.0 };

    fn known(&self) {
        self.0.known();
    }

    ghost comes_back = { record {
      of_value = λ x real f. tuple_back
          (element_back A.comes_back x.0 real (λ y. y.0) 1 0 (parts_end 1))
          f (λ y h. h.0);
    } };

    ghost keeps = { tuple_keeps 1 (part_keeps (λ y. y.0) 1 0 A.keeps (parts_end_keeps 1)) };
}

impl<'de, A: RoundTrip<'de>, B: RoundTrip<'de>> RoundTrip<'de> for (A, B) {
    ghost exists = { λ x. A.exists x.0 × B.exists x.1 };

    fn known(&self) {
        self.0.known();
        self.1.known();
    }

    ghost comes_back = { record {
      of_value = λ x real f. tuple_back
          (element_back A.comes_back x.0 real.0 (λ y. y.0) 2 0
          (element_back B.comes_back x.1 real.1 (λ y. y.1) 2 1 (parts_end 2)))
          f (λ y h. both_hold h.0 h.1.0);
    } };

    ghost keeps = { tuple_keeps 2 (part_keeps (λ y. y.0) 2 0 A.keeps
        (part_keeps (λ y. y.1) 2 1 B.keeps (parts_end_keeps 2))) };
}

impl<'de, A: RoundTrip<'de>, B: RoundTrip<'de>, C: RoundTrip<'de>> RoundTrip<'de> for (A, B, C) {
    ghost exists = { λ x. A.exists x.0 × B.exists x.1 × C.exists x.2 };

    fn known(&self) {
        self.0.known();
        self.1.known();
        self.2.known();
    }

    ghost comes_back = { record {
      of_value = λ x real f. tuple_back
          (element_back A.comes_back x.0 real.0 (λ y. y.0) 3 0
          (element_back B.comes_back x.1 real.1 (λ y. y.1) 3 1
          (element_back C.comes_back x.2 real.2 (λ y. y.2) 3 2 (parts_end 3))))
          f (λ y h. both_hold (both_hold h.0 h.1.0) h.1.1.0);
    } };

    ghost keeps = { tuple_keeps 3 (part_keeps (λ y. y.0) 3 0 A.keeps
        (part_keeps (λ y. y.1) 3 1 B.keeps
        (part_keeps (λ y. y.2) 3 2 C.keeps (parts_end_keeps 3)))) };
}

impl<'de, A: RoundTrip<'de>, B: RoundTrip<'de>, C: RoundTrip<'de>, D: RoundTrip<'de>> RoundTrip<'de>
    for (A, B, C, D) {
    ghost exists = { λ x. A.exists x.0 × B.exists x.1 × C.exists x.2 × D.exists x.3 };

    fn known(&self) {
        self.0.known();
        self.1.known();
        self.2.known();
        self.3.known();
    }

    ghost comes_back = { record {
      of_value = λ x real f. tuple_back
          (element_back A.comes_back x.0 real.0 (λ y. y.0) 4 0
          (element_back B.comes_back x.1 real.1 (λ y. y.1) 4 1
          (element_back C.comes_back x.2 real.2 (λ y. y.2) 4 2
          (element_back D.comes_back x.3 real.3 (λ y. y.3) 4 3 (parts_end 4)))))
          f (λ y h. both_hold (both_hold (both_hold h.0 h.1.0) h.1.1.0) h.1.1.1.0);
    } };

    ghost keeps = { tuple_keeps 4 (part_keeps (λ y. y.0) 4 0 A.keeps
        (part_keeps (λ y. y.1) 4 1 B.keeps
        (part_keeps (λ y. y.2) 4 2 C.keeps
        (part_keeps (λ y. y.3) 4 3 D.keeps (parts_end_keeps 4))))) };
}
