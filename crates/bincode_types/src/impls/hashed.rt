//! `Wire` for hashed sets and maps (docs/FORMAT.md, section 6).
use crate::by_parts::ByParts;
use crate::hashed::{HashedEntries, HashedKeys};
use crate::laws::Exact;
use std::collections::{HashMap, HashSet};
use std::hash::{BuildHasher, Hash};

impl<K: Eq + Hash, S: BuildHasher> ByParts for HashSet<K, S> {
    type Parts = HashedKeys<K>;

    ghost parts = { λ v. record { keys = v.keys } };
}

impl<K: Exact + Eq + Hash, S: BuildHasher> Exact for HashSet<K, S> {
    fn tell_exact() {
        K::tell_exact();
    }
}

impl<K: Eq + Hash, V, S: BuildHasher> ByParts for HashMap<K, V, S> {
    type Parts = HashedEntries<K, V>;

    ghost parts = { λ v. record { entries = v.entries } };
}

impl<K: Exact + Eq + Hash, V: Exact, S: BuildHasher> Exact for HashMap<K, V, S> {
    fn tell_exact() {
        K::tell_exact();
        V::tell_exact();
    }
}
