//! A struct with type parameters in a map and in an option.
use std::collections::BTreeMap;

mod words;

/// A table: its name, its entries, and the key of the last lookup.
#[derive(Drop, PartialEq)]
pub struct Table<K: Ord, V> {
    pub name: String,
    pub entries: BTreeMap<K, V>,
    pub last: Option<K>,
}
