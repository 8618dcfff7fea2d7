//! What the comparisons mean to a caller who knows trees, images and contents; laws of paths and of edits.

ghost use Rattle.std.specs.Prelude.{◌≡◌};
ghost use Rattle.std.specs.Bool.{Decides};
ghost use Rattle.content_tree.specs.Errors.Cause.{expectation_of, cause_of};
ghost use Rattle.content_tree.specs.Images.Found.{image_view, image_data_view};
ghost use Rattle.content_tree.specs.Laws.Paths.{EmptyPath, JoinedPaths, JoinedAtValues, NamedIndex};
ghost use Rattle.content_tree.specs.Laws.Paths.{SpelledParts};
ghost use Rattle.content_tree.specs.Laws.Edits.{InsertedIsGot, OthersStay, RemovedIsGone};
ghost use Rattle.content_tree.specs.Laws.Edits.{LastIsRemoved, OthersRemain, InsertedThenRemoved};
ghost use Rattle.content_tree.specs.Laws.PathEdits.{SetGivesFound, PutIsFound, SetIsFound};
ghost use Rattle.content_tree.specs.Laws.PathEdits.{RemovedIsFound};
ghost use Rattle.content_tree.specs.Errors.Kind.{kind_of};
ghost use Rattle.content_tree.specs.Orders.Trees.{number_cmp};
ghost use Rattle.content_tree.specs.Orders.Errors.{type_cmp, expected_cmp, kind_cmp, error_cmp};
ghost use Rattle.content_tree.specs.Values.Text.{text_content, bytes_content};
ghost use Rattle.content_tree.specs.Values.Tree.{unit, unmarked, unmarked_data};
ghost use Rattle.content_tree.specs.Values.Value.{tree_of, tree_data_of, struct_tree, enum_tree};

use crate::cow::{CowBytes, CowStr};
use crate::error::{Error, ErrorKind};
use crate::expected::{DataType, Expected};
use crate::found::{Found, FoundData};
use crate::number::Number;
use crate::value::{NamedData, NamedEnum, NamedStruct, NamedValue};
use std::cmp::Ordering;

/// What `==` of values answers: whether their trees are equal with every mark taken off. It sees
/// neither whether a text is borrowed nor whether a name is static. It takes no memory.
#[tactic(auto, using(crate::proofs::SameTree::trees_tie))]
pub fn equal_values<'a, 'n>(a: &NamedValue<'a, 'n>, b: &NamedValue<'a, 'n>) -> bool
    ensures { Decides result (unmarked (tree_of a.now) ≡ unmarked (tree_of b.now)) }
{
    *a == *b
}

/// What `==` of structs answers: the same of their trees. It takes no memory.
#[tactic(auto, using(crate::proofs::SameTree::trees_tie))]
pub fn equal_structs<'a, 'n>(
    structure: &NamedStruct<'a, 'n>,
    other_structure: &NamedStruct<'a, 'n>,
) -> bool
    ensures { Decides result
        (unmarked (struct_tree structure.now) ≡ unmarked (struct_tree other_structure.now)) }
{
    *structure == *other_structure
}

/// What `==` of variants answers: the same of their trees. It takes no memory.
#[tactic(auto, using(crate::proofs::SameTree::trees_tie))]
pub fn equal_enums<'a, 'n>(variant: &NamedEnum<'a, 'n>, other_variant: &NamedEnum<'a, 'n>) -> bool
    ensures { Decides result
        (unmarked (enum_tree variant.now) ≡ unmarked (enum_tree other_variant.now)) }
{
    *variant == *other_variant
}

/// What `==` of the data of structs and variants answers: whether they are equal with every mark
/// taken off. It takes no memory.
#[tactic(auto, using(crate::proofs::SameTree::tree_data_tie))]
pub fn equal_data<'a, 'n>(inside: &NamedData<'a, 'n>, other_inside: &NamedData<'a, 'n>) -> bool
    ensures { Decides result
        (unmarked_data (tree_data_of inside.now) ≡ unmarked_data (tree_data_of other_inside.now)) }
{
    *inside == *other_inside
}

/// What `==` of texts answers: whether they have the same bytes. It takes no memory.
pub fn equal_texts<'a>(text: &CowStr<'a>, other_text: &CowStr<'a>) -> bool
    ensures { Decides result (text_content text.now ≡ text_content other_text.now) }
{
    *text == *other_text
}

/// What `==` of bytes answers: whether they are the same. It takes no memory.
pub fn equal_bytes<'a>(bytes: &CowBytes<'a>, other_bytes: &CowBytes<'a>) -> bool
    ensures { Decides result (bytes_content bytes.now ≡ bytes_content other_bytes.now) }
{
    *bytes == *other_bytes
}

/// What `==` of images answers: whether they are the same. It takes no memory.
#[tactic(auto, using(crate::proofs::SameImage::images_tie))]
pub fn equal_images(left: &Found, right: &Found) -> bool
    ensures { Decides result (image_view left.now ≡ image_view right.now) }
{
    *left == *right
}

/// What `==` of the data of images answers: whether they are the same. It takes no memory.
#[tactic(auto, using(crate::proofs::SameImage::image_data_tie))]
pub fn equal_found_data(found: &FoundData, other_found: &FoundData) -> bool
    ensures { Decides result (image_data_view found.now ≡ image_data_view other_found.now) }
{
    *found == *other_found
}

/// What `==` of numbers answers: whether they are the same, of one kind. It takes no memory.
#[tactic(auto, using(crate::proofs::DerivedTies::equal_numbers))]
pub fn equal_numbers(number: &Number, other_number: &Number) -> bool
    ensures { Decides result (number.now ≡ other_number.now) }
{
    *number == *other_number
}

/// What `==` of types answers: whether they are the same. It takes no memory.
#[tactic(auto, using(crate::proofs::DerivedTies::equal_types))]
pub fn equal_types(typ: &DataType, other_typ: &DataType) -> bool
    ensures { Decides result (typ.now ≡ other_typ.now) }
{
    *typ == *other_typ
}

/// What `==` of expectations answers: whether they say the same. It takes no memory.
#[tactic(auto, using(crate::proofs::DerivedTies::equal_expected))]
pub fn equal_expected(expected: &Expected, other_expected: &Expected) -> bool
    ensures { Decides result (expectation_of expected.now ≡ expectation_of other_expected.now) }
{
    *expected == *other_expected
}

/// What `==` of kinds of errors answers: whether they say the same. It takes no memory.
#[tactic(auto, using(crate::proofs::DerivedTies::equal_kinds))]
pub fn equal_kinds(kind: &ErrorKind, other_kind: &ErrorKind) -> bool
    ensures { Decides result (cause_of kind.now ≡ cause_of other_kind.now) }
{
    *kind == *other_kind
}

/// What `==` of errors answers: whether their kinds say the same. It takes no memory.
#[tactic(auto, using(crate::proofs::DerivedTies::equal_errors))]
pub fn equal_errors(error: &Error, other_error: &Error) -> bool
    ensures { Decides result
        (cause_of (kind_of error.now) ≡ cause_of (kind_of other_error.now)) }
{
    *error == *other_error
}

/// How numbers are ordered: by kind, and within one kind by value. It takes no memory.
#[tactic(auto, using(crate::proofs::DerivedOrders::number_order))]
pub fn compare_numbers(number: &Number, other_number: &Number) -> Ordering
    ensures { result ≡ number_cmp number.now other_number.now }
{
    number.cmp(other_number)
}

/// How types are ordered: by place. It takes no memory.
#[tactic(auto, using(crate::proofs::DerivedOrders::type_order))]
pub fn compare_types(typ: &DataType, other_typ: &DataType) -> Ordering
    ensures { result ≡ type_cmp typ.now other_typ.now }
{
    typ.cmp(other_typ)
}

/// How expectations are ordered: by case, and within one case by contents. It takes no memory.
pub fn compare_expected(expected: &Expected, other_expected: &Expected) -> Ordering
    ensures { result ≡ expected_cmp expected.now other_expected.now }
{
    expected.cmp(other_expected)
}

/// How kinds of errors are ordered: by case, and within one case by contents. It takes no memory.
#[tactic(auto, using(crate::proofs::DerivedOrders::kind_order))]
pub fn compare_kinds(kind: &ErrorKind, other_kind: &ErrorKind) -> Ordering
    ensures { result ≡ kind_cmp kind.now other_kind.now }
{
    kind.cmp(other_kind)
}

/// How errors are ordered: as their kinds. It takes no memory.
#[tactic(auto, using(crate::proofs::DerivedOrders::error_order))]
pub fn compare_errors(error: &Error, other_error: &Error) -> Ordering
    ensures { result ≡ error_cmp error.now other_error.now }
{
    error.cmp(other_error)
}

/// The empty path leads to the value itself.
pub fn empty_path()
    ensures { EmptyPath }
{}

/// Joined paths lead where the second leads from where the first does; so from the value that the
/// first finds, if it finds one.
pub fn joined_paths()
    ensures places { JoinedPaths }
    ensures values { JoinedAtValues }
{}

/// A path spells parts exactly if it is `/` and the part, with `~0` for `~` and `~1` for `/`, for
/// each.
pub fn spelled_parts()
    ensures { SpelledParts }
{}

/// A part names an index below 2^64 exactly if it is the index in decimal.
pub fn named_index()
    ensures { NamedIndex }
{}

/// A key finds what was [inserted](NamedValue::insert) at it, and a key that doesn't equal it what
/// it found before.
pub fn inserted_is_got()
    ensures got { InsertedIsGot }
    ensures others { OthersStay }
{}

/// A key that only one entry had finds nothing after its [removal](NamedValue::remove). Of several
/// entries the last is removed, and those before it stay. A key that doesn't equal it finds what it
/// found before.
pub fn removed_is_gone()
    ensures gone { RemovedIsGone }
    ensures last { LastIsRemoved }
    ensures others { OthersRemain }
{}

/// A new key that is inserted and then removed leaves the map as it was.
pub fn inserted_then_removed()
    ensures { InsertedThenRemoved }
{}

/// What [`set_pointer`](NamedValue::set_pointer) gives back is what the path found before, and the
/// path finds what was put in place of that. It finds what was added, too, unless its last part is
/// `-`.
pub fn set_is_found()
    ensures given { SetGivesFound }
    ensures put { PutIsFound }
    ensures found { SetIsFound }
{}

/// What [`remove_pointer`](NamedValue::remove_pointer) gives is what the path found.
pub fn removed_is_found()
    ensures { RemovedIsFound }
{}

/// A value that is [taken](NamedValue::take) twice gives the unit the second time.
pub fn taken_twice<'a, 'n>(value: &mut NamedValue<'a, 'n>) -> NamedValue<'a, 'n>
    ensures { tree_of result ≡ unit }
{
    let _first = value.take();
    value.take()
}
