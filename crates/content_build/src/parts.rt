//! What holds trees, and the trees of openings.

ghost use Rattle.std.specs.Prelude.{◌≡◌, IfOk};
ghost use Rattle.content_tree.specs.Values.Value.{tree_of, tree_data_of};
ghost use Rattle.content_ser.specs.Calls.Head.{head_of, headed};

use content_ser::Head;
use content_tree::{CowStr, NamedData, NamedEnum, NamedStruct, NamedValue};
use std::alloc::{AllocError, Global};

/// What holds one child.
#[derive(Drop)]
pub(crate) enum Wrap {
    Present,
    Head(Head),
}

/// What holds items by place.
#[derive(Drop)]
pub(crate) enum Series {
    Seq,
    Tuple,
    Head(Head),
}

/// The struct or the variant of this head that holds this.
#[inline(always)]
pub(crate) fn with_head<'v, 'n>(
    alloc: Global,
    head: Head,
    inside: NamedData<'v, 'n>,
) -> Result<NamedValue<'v, 'n>, AllocError>
    ensures { IfOk result (λ v. tree_of v ≡ headed (head_of head) (tree_data_of inside.entry)) }
{
    match head {
        Head::Struct(name) => {
            let inner = NamedStruct {
                name: CowStr::Borrowed(name),
                data: inside,
            };
            Ok(NamedValue::Struct(Box::new(alloc, inner)?))
        }
        Head::Variant(name, variant_index, variant) => {
            let inner = NamedEnum {
                name: CowStr::Borrowed(name),
                variant_index,
                variant: CowStr::Borrowed(variant),
                data: inside,
            };
            Ok(NamedValue::Enum(Box::new(alloc, inner)?))
        }
    }
}
