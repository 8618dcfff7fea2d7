//! Values, structs, variants and their data are compared as trees, without marks.

// Two are equal exactly if their trees are equal with the marks taken off: `trees_tie` and
// `tree_data_tie` of `proofs/SameTree.antt`. So the order finds neither less exactly if they are
// equal.

ghost use Rattle.std.specs.Prelude.{◌≡◌, Some, refl};
ghost use Rattle.std.specs.Cmp.{on_per, on_equiv, on_po, on_total, partial_equiv_from_equiv};
ghost use Rattle.content_tree.specs.Orders.Trees.{tree_cmp, tree_data_cmp, same_tree};
ghost use Rattle.content_tree.specs.Orders.Trees.{same_tree_data};
ghost use Rattle.content_tree.specs.Laws.RankedTree.{tree_total, tree_equiv, tree_partial_order};
ghost use Rattle.content_tree.specs.Laws.RankedTree.{tree_data_total, tree_data_equiv};
ghost use Rattle.content_tree.specs.Laws.RankedTree.{tree_data_partial_order};
ghost use Rattle.content_tree.specs.Values.Value.{tree_of, tree_data_of, struct_tree, enum_tree};

use crate::compare::tree::{compare, compare_data, compare_enum, compare_struct};
use crate::value::{NamedData, NamedEnum, NamedStruct, NamedValue};
use std::cmp::Ordering;

impl<'a, 'n> PartialEq for NamedValue<'a, 'n> {
    ghost eq = { λ a b. same_tree (tree_of a) (tree_of b) };

    ghost laws = { on_per tree_of (partial_equiv_from_equiv tree_equiv) };

    fn eq(&self, other: &NamedValue<'a, 'n>) -> bool {
        self.cmp(other).is_eq()
    }
}

impl<'a, 'n> Eq for NamedValue<'a, 'n> {
    ghost laws = { on_equiv tree_of tree_equiv };
}

impl<'a, 'n> PartialOrd for NamedValue<'a, 'n> {
    ghost partial_cmp = { λ a b. Some (tree_cmp (tree_of a) (tree_of b)) };

    ghost laws = { on_po tree_of tree_partial_order };

    fn partial_cmp(&self, other: &NamedValue<'a, 'n>) -> Option<Ordering> {
        Some(self.cmp(other))
    }
}

impl<'a, 'n> Ord for NamedValue<'a, 'n> {
    ghost cmp = { λ a b. tree_cmp (tree_of a) (tree_of b) };

    ghost total = { on_total tree_of tree_total };

    ghost matches_partial_cmp = { λ a b. refl };

    ghost matches_eq = { λ a b. refl };

    fn cmp(&self, other: &NamedValue<'a, 'n>) -> Ordering {
        compare(self, other)
    }
}

impl<'a, 'n> PartialEq for NamedStruct<'a, 'n> {
    ghost eq = { λ a b. same_tree (struct_tree a) (struct_tree b) };

    ghost laws = { on_per struct_tree (partial_equiv_from_equiv tree_equiv) };

    fn eq(&self, other: &NamedStruct<'a, 'n>) -> bool {
        self.cmp(other).is_eq()
    }
}

impl<'a, 'n> Eq for NamedStruct<'a, 'n> {
    ghost laws = { on_equiv struct_tree tree_equiv };
}

impl<'a, 'n> PartialOrd for NamedStruct<'a, 'n> {
    ghost partial_cmp = { λ a b. Some (tree_cmp (struct_tree a) (struct_tree b)) };

    ghost laws = { on_po struct_tree tree_partial_order };

    fn partial_cmp(&self, other: &NamedStruct<'a, 'n>) -> Option<Ordering> {
        Some(self.cmp(other))
    }
}

impl<'a, 'n> Ord for NamedStruct<'a, 'n> {
    ghost cmp = { λ a b. tree_cmp (struct_tree a) (struct_tree b) };

    ghost total = { on_total struct_tree tree_total };

    ghost matches_partial_cmp = { λ a b. refl };

    ghost matches_eq = { λ a b. refl };

    fn cmp(&self, other: &NamedStruct<'a, 'n>) -> Ordering {
        compare_struct(self, other)
    }
}

impl<'a, 'n> PartialEq for NamedEnum<'a, 'n> {
    ghost eq = { λ a b. same_tree (enum_tree a) (enum_tree b) };

    ghost laws = { on_per enum_tree (partial_equiv_from_equiv tree_equiv) };

    fn eq(&self, other: &NamedEnum<'a, 'n>) -> bool {
        self.cmp(other).is_eq()
    }
}

impl<'a, 'n> Eq for NamedEnum<'a, 'n> {
    ghost laws = { on_equiv enum_tree tree_equiv };
}

impl<'a, 'n> PartialOrd for NamedEnum<'a, 'n> {
    ghost partial_cmp = { λ a b. Some (tree_cmp (enum_tree a) (enum_tree b)) };

    ghost laws = { on_po enum_tree tree_partial_order };

    fn partial_cmp(&self, other: &NamedEnum<'a, 'n>) -> Option<Ordering> {
        Some(self.cmp(other))
    }
}

impl<'a, 'n> Ord for NamedEnum<'a, 'n> {
    ghost cmp = { λ a b. tree_cmp (enum_tree a) (enum_tree b) };

    ghost total = { on_total enum_tree tree_total };

    ghost matches_partial_cmp = { λ a b. refl };

    ghost matches_eq = { λ a b. refl };

    fn cmp(&self, other: &NamedEnum<'a, 'n>) -> Ordering {
        compare_enum(self, other)
    }
}

impl<'a, 'n> PartialEq for NamedData<'a, 'n> {
    ghost eq = { λ a b. same_tree_data (tree_data_of a) (tree_data_of b) };

    ghost laws = { on_per tree_data_of (partial_equiv_from_equiv tree_data_equiv) };

    fn eq(&self, other: &NamedData<'a, 'n>) -> bool {
        self.cmp(other).is_eq()
    }
}

impl<'a, 'n> Eq for NamedData<'a, 'n> {
    ghost laws = { on_equiv tree_data_of tree_data_equiv };
}

impl<'a, 'n> PartialOrd for NamedData<'a, 'n> {
    ghost partial_cmp = { λ a b. Some (tree_data_cmp (tree_data_of a) (tree_data_of b)) };

    ghost laws = { on_po tree_data_of tree_data_partial_order };

    fn partial_cmp(&self, other: &NamedData<'a, 'n>) -> Option<Ordering> {
        Some(self.cmp(other))
    }
}

impl<'a, 'n> Ord for NamedData<'a, 'n> {
    ghost cmp = { λ a b. tree_data_cmp (tree_data_of a) (tree_data_of b) };

    ghost total = { on_total tree_data_of tree_data_total };

    ghost matches_partial_cmp = { λ a b. refl };

    ghost matches_eq = { λ a b. refl };

    fn cmp(&self, other: &NamedData<'a, 'n>) -> Ordering {
        compare_data(self, other)
    }
}
