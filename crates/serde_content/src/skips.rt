//! Fields that are left out when they are empty, as `skip_serializing_if` says.

ghost use Rattle.std.specs.Prelude.{◌≡◌, ℕ, Bool, string_bytes};
ghost use Rattle.std.specs.Option.{is_none};
ghost use Rattle.serde_content.specs.Skips.{fields_less, has_none};

use std::collections::{BTreeMap, BTreeSet, HashMap, HashSet, VecDeque};
use std::hash::Hash;

/// A type with an empty value, such as `None`: a field may be left out where it has that.
pub trait Skip {
    /// Whether it is empty.
    ghost is_empty: { Self → Bool };

    /// Whether it is empty: what `is_none` or `is_empty` answers.
    fn is_skipped(&self) -> bool
        ensures { result ≡ is_empty self.now };
}

impl<T> Skip for Option<T> {
    ghost is_empty = { λ x. is_none x };

    fn is_skipped(&self) -> bool {
        self.is_none()
    }
}

impl Skip for String {
    ghost is_empty = { λ x. has_none (string_bytes x) };

    fn is_skipped(&self) -> bool {
        matches!(self.as_bytes(), [])
    }
}

impl<T> Skip for Vec<T> {
    ghost is_empty = { λ x. has_none x.items };

    fn is_skipped(&self) -> bool {
        matches!(self.as_slice(), [])
    }
}

impl<K: Ord, V> Skip for BTreeMap<K, V> {
    ghost is_empty = { λ x. has_none x.entries };

    fn is_skipped(&self) -> bool {
        self.is_empty()
    }
}

impl<T: Ord> Skip for BTreeSet<T> {
    ghost is_empty = { λ x. has_none x.keys };

    fn is_skipped(&self) -> bool {
        BTreeSet::is_empty(self)
    }
}

impl<K: Eq + Hash, V> Skip for HashMap<K, V> {
    ghost is_empty = { λ x. has_none x.entries };

    fn is_skipped(&self) -> bool {
        HashMap::is_empty(self)
    }
}

impl<T: Eq + Hash> Skip for HashSet<T> {
    ghost is_empty = { λ x. has_none x.keys };

    fn is_skipped(&self) -> bool {
        HashSet::is_empty(self)
    }
}

impl<T> Skip for VecDeque<T> {
    ghost is_empty = { λ x. has_none x.items };

    fn is_skipped(&self) -> bool {
        VecDeque::is_empty(self)
    }
}

impl<'a, T> Skip for &'a [T] {
    ghost is_empty = { λ x. has_none x.now };

    fn is_skipped(&self) -> bool {
        matches!(*self, [])
    }
}

/// So many fields, less one where this value is left out.
pub fn count_unless<T: Skip>(value: &T, count: usize) -> usize
    ensures { result ≡ fields_less (T.is_empty value.now) count }
{
    if value.is_skipped() {
        count.saturating_sub(1)
    } else {
        count
    }
}
