//! Shapes of queues, heaps, sets and maps: those of lists of their items. The items of a map are pairs.
use crate::described::Described;
use crate::lists::list_shape;
use crate::shape::Shape;
use std::alloc::Global;
use std::collections::{BTreeMap, BTreeSet, BinaryHeap, HashMap, HashSet, VecDeque};
use std::hash::{BuildHasher, Hash};

impl<T: Described> Described for VecDeque<T> {
    fn shape(alloc: Global) -> Option<Shape> {
        list_shape::<T>(alloc)
    }
}

impl<T: Described + Ord> Described for BinaryHeap<T> {
    fn shape(alloc: Global) -> Option<Shape> {
        list_shape::<T>(alloc)
    }
}

impl<K: Described + Ord> Described for BTreeSet<K> {
    fn shape(alloc: Global) -> Option<Shape> {
        list_shape::<K>(alloc)
    }
}

impl<K: Described + Ord, V: Described> Described for BTreeMap<K, V> {
    fn shape(alloc: Global) -> Option<Shape> {
        list_shape::<(K, V)>(alloc)
    }
}

impl<K: Described + Eq + Hash, S: BuildHasher> Described for HashSet<K, S> {
    fn shape(alloc: Global) -> Option<Shape> {
        list_shape::<K>(alloc)
    }
}

impl<K: Described + Eq + Hash, V: Described, S: BuildHasher> Described for HashMap<K, V, S> {
    fn shape(alloc: Global) -> Option<Shape> {
        list_shape::<(K, V)>(alloc)
    }
}
