//! What is read where a field is missing.

ghost use Rattle.std.specs.Duration.{as_nanos};
ghost use Rattle.std.specs.List.{AllByRecursion};
ghost use Rattle.std.specs.Path.{path_buf_bytes};
ghost use Rattle.std.specs.Prelude.{◌≡◌, [], None, false, pos, string_bytes, ⊤};

use std::alloc::Global;
use std::array;
use std::collections::{BTreeMap, BTreeSet, HashMap, HashSet, VecDeque};
use std::hash::Hash;
use std::path::PathBuf;
use std::time::Duration;

/// A type with a value that is read where a field is missing: the one that its `Default` has.
pub trait Absent: Sized {
    /// This is that value.
    ghost is_absent: { Self → Type 0 };

    /// That value. It takes no memory.
    fn absent(alloc: Global) -> Self
        ensures { is_absent result };
}

impl Absent for bool {
    ghost is_absent = { λ x. x ≡ false };

    fn absent(_alloc: Global) -> bool {
        false
    }
}

impl Absent for String {
    ghost is_absent = { λ x. string_bytes x ≡ [] };

    fn absent(alloc: Global) -> String {
        String::new(alloc)
    }
}

impl<T> Absent for Option<T> {
    ghost is_absent = { λ x. x ≡ None };

    fn absent(_alloc: Global) -> Option<T> {
        None
    }
}

impl<T> Absent for Vec<T> {
    ghost is_absent = { λ x. x.items ≡ [] };

    fn absent(alloc: Global) -> Vec<T> {
        Vec::new(alloc)
    }
}

impl<K: Ord, V> Absent for BTreeMap<K, V> {
    ghost is_absent = { λ x. x.entries ≡ [] };

    fn absent(alloc: Global) -> BTreeMap<K, V> {
        BTreeMap::new(alloc)
    }
}

impl<T: Ord> Absent for BTreeSet<T> {
    ghost is_absent = { λ x. x.keys ≡ [] };

    fn absent(alloc: Global) -> BTreeSet<T> {
        BTreeSet::new(alloc)
    }
}

impl<K: Eq + Hash, V> Absent for HashMap<K, V> {
    ghost is_absent = { λ x. x.entries ≡ [] };

    fn absent(alloc: Global) -> HashMap<K, V> {
        HashMap::new(alloc)
    }
}

impl<T: Eq + Hash> Absent for HashSet<T> {
    ghost is_absent = { λ x. x.keys ≡ [] };

    fn absent(alloc: Global) -> HashSet<T> {
        HashSet::new(alloc)
    }
}

impl<T> Absent for VecDeque<T> {
    ghost is_absent = { λ x. x.items ≡ [] };

    fn absent(alloc: Global) -> VecDeque<T> {
        VecDeque::new(alloc)
    }
}

impl Absent for PathBuf {
    ghost is_absent = { λ x. path_buf_bytes x ≡ [] };

    fn absent(alloc: Global) -> PathBuf {
        PathBuf::new(alloc)
    }
}

impl Absent for u8 {
    ghost is_absent = { λ x. x ≡ 0 };

    fn absent(_alloc: Global) -> u8 {
        0
    }
}

impl Absent for u16 {
    ghost is_absent = { λ x. x ≡ 0 };

    fn absent(_alloc: Global) -> u16 {
        0
    }
}

impl Absent for u32 {
    ghost is_absent = { λ x. x ≡ 0 };

    fn absent(_alloc: Global) -> u32 {
        0
    }
}

impl Absent for u64 {
    ghost is_absent = { λ x. x ≡ 0 };

    fn absent(_alloc: Global) -> u64 {
        0
    }
}

impl Absent for u128 {
    ghost is_absent = { λ x. x ≡ 0 };

    fn absent(_alloc: Global) -> u128 {
        0
    }
}

impl Absent for usize {
    ghost is_absent = { λ x. x ≡ 0 };

    fn absent(_alloc: Global) -> usize {
        0
    }
}

impl Absent for i8 {
    ghost is_absent = { λ x. x ≡ pos 0 };

    fn absent(_alloc: Global) -> i8 {
        0
    }
}

impl Absent for i16 {
    ghost is_absent = { λ x. x ≡ pos 0 };

    fn absent(_alloc: Global) -> i16 {
        0
    }
}

impl Absent for i32 {
    ghost is_absent = { λ x. x ≡ pos 0 };

    fn absent(_alloc: Global) -> i32 {
        0
    }
}

impl Absent for i64 {
    ghost is_absent = { λ x. x ≡ pos 0 };

    fn absent(_alloc: Global) -> i64 {
        0
    }
}

impl Absent for i128 {
    ghost is_absent = { λ x. x ≡ pos 0 };

    fn absent(_alloc: Global) -> i128 {
        0
    }
}

impl Absent for isize {
    ghost is_absent = { λ x. x ≡ pos 0 };

    fn absent(_alloc: Global) -> isize {
        0
    }
}

impl Absent for char {
    ghost is_absent = { λ x. x ≡ 0 };

    fn absent(_alloc: Global) -> char {
        '\0'
    }
}

impl Absent for () {
    ghost is_absent = { λ x. ⊤ };

    fn absent(_alloc: Global) {}
}

impl<A: Absent> Absent for (A,) {
    ghost is_absent = { λ x. A.is_absent x.0 };

    fn absent(alloc: Global) -> (A,) {
        (A::absent(alloc),)
    }
}

impl<A: Absent, B: Absent> Absent for (A, B) {
    ghost is_absent = { λ x. A.is_absent x.0 × B.is_absent x.1 };

    fn absent(alloc: Global) -> (A, B) {
        (A::absent(alloc), B::absent(alloc))
    }
}

impl<A: Absent, B: Absent, C: Absent> Absent for (A, B, C) {
    ghost is_absent = { λ x. A.is_absent x.0 × B.is_absent x.1 × C.is_absent x.2 };

    fn absent(alloc: Global) -> (A, B, C) {
        (A::absent(alloc), B::absent(alloc), C::absent(alloc))
    }
}

impl<A: Absent, B: Absent, C: Absent, D: Absent> Absent for (A, B, C, D) {
    ghost is_absent = { λ x. A.is_absent x.0 × B.is_absent x.1 × C.is_absent x.2 × D.is_absent x.3 };

    fn absent(alloc: Global) -> (A, B, C, D) {
        (
            A::absent(alloc),
            B::absent(alloc),
            C::absent(alloc),
            D::absent(alloc),
        )
    }
}

impl<T: Absent, const N: usize> Absent for [T; N] {
    ghost is_absent = { λ x. AllByRecursion T.is_absent x };

    fn absent(alloc: Global) -> [T; N] {
        array::from_fn(|_| T::absent(alloc))
    }
}

impl Absent for Duration {
    ghost is_absent = { λ x. as_nanos x ≡ 0 };

    fn absent(_alloc: Global) -> Duration {
        Duration::ZERO
    }
}
