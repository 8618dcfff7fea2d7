//! One item more at the end of a vector; room for it is made outside the calls.

ghost use Rattle.std.specs.Prelude.{◌≡◌, ◌<◌, ◌++◌, ◌∷◌, [], OnOk, vec_len, vec_capacity};

use std::alloc::AllocError;

/// Makes room for one item more. It is seldom done, and so isn't inlined.
#[cold]
#[inline(never)]
fn make_room<T>(items: &mut Vec<T>) -> Result<(), AllocError>
    ensures items { items.new.items ≡ items.old.items }
    ensures room { OnOk result (vec_len items.new < vec_capacity items.new) }
{
    items.reserve(1)
}

/// Sees to it that there is room for one item more.
#[inline(always)]
fn see_to_room<T>(items: &mut Vec<T>) -> Result<(), AllocError>
    ensures items { items.new.items ≡ items.old.items }
    ensures room { OnOk result (vec_len items.new < vec_capacity items.new) }
{
    if items.len() < items.capacity() {
        return Ok(());
    }
    make_room(items)
}

/// One item more.
#[inline(always)]
pub(crate) fn push_one<T: Drop>(items: &mut Vec<T>, item: T) -> Result<(), AllocError>
    ensures { OnOk result (items.new.items ≡ items.old.items ++ item ∷ []) }
{
    see_to_room(items)?;
    items.push_reserved(item);
    Ok(())
}
