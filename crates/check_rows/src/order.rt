//! The order of two things, as a row tells it.

use crate::answer::Answer;
use std::cmp::Ordering;

/// Whether `==`, `<`, `partial_cmp` and `cmp` the other way round say what this order says.
fn is_agreed<T: Ord>(left: &T, right: &T, order: Ordering) -> bool {
    (left == right) == order.is_eq()
        && (left < right) == order.is_lt()
        && left.partial_cmp(right) == Some(order)
        && right.cmp(left) == order.reverse()
}

/// Whether what was made equals this.
pub fn equals<T: PartialEq + Drop>(made: T, other: &T) -> bool {
    made == *other
}

/// The order, or nothing where the comparisons contradict each other.
pub fn order<T: Ord>(left: &T, right: &T) -> Option<Ordering> {
    let order = left.cmp(right);
    is_agreed(left, right, order).then_some(order)
}

/// The order, where it is `Equal` just if a law says so.
pub fn if_lawful(order: Option<Ordering>, equal: bool) -> Option<Ordering> {
    match order {
        Some(order) if order.is_eq() == equal => Some(order),
        _ => None,
    }
}

/// Adds the word of an order.
pub fn write_order(out: &mut Answer, order: Option<Ordering>) {
    out.push_str(match order {
        None => "contradiction",
        Some(Ordering::Less) => "less",
        Some(Ordering::Equal) => "equal",
        Some(Ordering::Greater) => "greater",
    });
}
