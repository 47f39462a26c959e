//! Hashed sets and maps: keys that come twice, a user-defined hasher, and borrowed keys.

use crate::asserts::rows_hold;
use crate::encodings::is_encoded;
use bincode::config;
use std::alloc::{AllocError, Global};
use std::collections::{HashMap, HashSet};
use std::hash::{BuildHasher, Hasher};
use test_helpers::checks::{borrowed, comes_back, either, read_word};

/// A hasher that gives each key the same hash.
#[derive(Clone, Copy, Default, Drop)]
struct Collides;

impl Hasher for Collides {
    ghost write = { λ h _. h };

    ghost finish = { λ _. 7 };

    fn finish(&self) -> u64 {
        7
    }

    fn write(&mut self, _bytes: &[u8]) {}
}

impl BuildHasher for Collides {
    type Hasher = Collides;

    ghost build_hasher = { λ s. s };

    fn build_hasher(&self) -> Collides {
        *self
    }
}

/// A map of texts, by that hasher.
type Colliding = HashMap<String, u8, Collides>;

/// Three texts, each with a number.
fn three_texts(alloc: Global) -> Result<Colliding, AllocError> {
    let mut map = HashMap::with_hasher(alloc, Collides);
    for (text, number) in [("ab", 1), ("cde", 2), ("", 3)] {
        map.insert(String::from_str(alloc, text)?, number)?;
    }
    Ok(map)
}

/// Whether the map of three texts is decoded of its encoding.
fn keeps_three_texts(alloc: Global) -> bool {
    let Some(map) = either(three_texts(alloc), three_texts(alloc)) else {
        return false;
    };
    match comes_back(alloc, &map) {
        Some(read) => map.len() == 3 && read == map,
        None => false,
    }
}

/// Whether a key that comes twice is kept once, with its last value.
fn keeps_a_key_once(alloc: Global) -> bool {
    match read_word::<HashMap<u8, u8>>(alloc, &[2, 1, 10, 1, 20]) {
        Some(map) => {
            map.len() == 1
                && map.get(&1) == Some(&20)
                && is_encoded(&map, &[1, 1, 20], config::standard())
        }
        None => false,
    }
}

/// Whether an item that comes twice is kept once.
fn keeps_an_item_once(alloc: Global) -> bool {
    match read_word::<HashSet<u8>>(alloc, &[2, 4, 4]) {
        Some(set) => {
            set.len() == 1 && set.contains(&4) && is_encoded(&set, &[1, 4], config::standard())
        }
        None => false,
    }
}

#[test]
fn keeps_each_key_once(rt: HostRuntime) {
    let alloc = rt.alloc();
    rows_hold(
        &rt,
        &[
            ("a key twice in a hashed map", keeps_a_key_once(alloc)),
            ("an item twice in a hashed set", keeps_an_item_once(alloc)),
            ("a map with a hasher of its own", keeps_three_texts(alloc)),
        ],
    );
}

/// One item, ab, and 5 after it.
static SOURCE: [u8; 5] = [1, 2, 97, 98, 5];

#[test]
fn lends_the_keys_of_a_map(rt: HostRuntime) {
    let Ok((map, 5)) = borrowed::<HashMap<&str, u8>>(rt.alloc(), &SOURCE) else {
        assert!(rt; false);
        return;
    };
    assert!(rt; map.len() == 1 && map.get(&"ab") == Some(&5));
}

#[test]
fn lends_the_items_of_a_set(rt: HostRuntime) {
    let Ok((set, 4)) = borrowed::<HashSet<&str>>(rt.alloc(), &SOURCE) else {
        assert!(rt; false);
        return;
    };
    assert!(rt; set.len() == 1 && set.contains(&"ab"));
}
