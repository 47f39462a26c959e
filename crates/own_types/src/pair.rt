//! A pair of any two types.

mod words;

/// A key and its value.
#[derive(Drop, PartialEq)]
pub struct Pair<K, V> {
    pub key: K,
    pub value: V,
}
