//! `Wire` for ordered sets and maps (docs/FORMAT.md, section 6), and for heaps.
ghost use Rattle.std.specs.Prelude.{refl};
ghost use Rattle.std.specs.BinaryHeap.{heap_items};

use crate::bags::Bag;
use crate::by_parts::{ByParts, SameParts};
use crate::laws::Exact;
use crate::ordered::{Entries, Keys};
use std::collections::{BTreeMap, BTreeSet, BinaryHeap};

impl<K: Ord> ByParts for BTreeSet<K> {
    type Parts = Keys<K>;

    ghost parts = { λ v. record { keys = v.keys } };
}

impl<K: Exact + Ord> SameParts<Keys<K>> for BTreeSet<K> {
    ghost same_parts = { λ v w. refl };
}

impl<K: Ord, V> ByParts for BTreeMap<K, V> {
    type Parts = Entries<K, V>;

    ghost parts = { λ v. record { entries = v.entries } };
}

impl<K: Exact + Ord, V: Exact> SameParts<Entries<K, V>> for BTreeMap<K, V> {
    ghost same_parts = { λ v w. refl };
}

impl<T: Ord> ByParts for BinaryHeap<T> {
    type Parts = Bag<T>;

    ghost parts = { λ v. record { items = heap_items v } };
}
