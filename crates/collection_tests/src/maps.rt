//! Sets and maps: ordered ones, and hashed ones that are large.

use std::alloc::{AllocError, Global};
use std::collections::{BTreeMap, BTreeSet, HashMap, HashSet};
use test_helpers::checks::{either, keeps_value};

/// The numbers from 0, the last put in first.
fn set_of(alloc: Global, count: u32) -> Result<BTreeSet<u32>, AllocError> {
    let mut set = BTreeSet::new(alloc);
    for number in (0..count).rev() {
        set.insert(number)?;
    }
    Ok(set)
}

/// The numbers from 0 as keys, each with the next one.
fn map_of(alloc: Global, count: u32) -> Result<BTreeMap<u32, u32>, AllocError> {
    let mut map = BTreeMap::new(alloc);
    for number in (0..count).rev() {
        map.insert(number, number.wrapping_add(1))?;
    }
    Ok(map)
}

/// The numbers from 0, in no order.
fn hashed_set_of(alloc: Global, count: u32) -> Result<HashSet<u32>, AllocError> {
    let mut set = HashSet::new(alloc);
    for number in 0..count {
        set.insert(number)?;
    }
    Ok(set)
}

/// The numbers from 0 as keys, each with the next one.
fn hashed_map_of(alloc: Global, count: u32) -> Result<HashMap<u32, u32>, AllocError> {
    let mut map = HashMap::new(alloc);
    for number in 0..count {
        map.insert(number, number.wrapping_add(1))?;
    }
    Ok(map)
}

/// Whether an ordered set of `count` keys is kept. Retries once if an allocation is refused.
pub fn keeps_set(alloc: Global, count: u32) -> bool {
    match set_of(alloc, count) {
        Ok(set) => keeps_value(alloc, Some(set)),
        Err(_) => keeps_value(alloc, set_of(alloc, count).ok()),
    }
}

/// Whether an ordered map is kept.
pub fn keeps_map(alloc: Global, count: u32) -> bool {
    match map_of(alloc, count) {
        Ok(map) => keeps_value(alloc, Some(map)),
        Err(_) => keeps_value(alloc, map_of(alloc, count).ok()),
    }
}

/// Whether a hashed set and a hashed map of so many entries are kept.
pub fn keeps_hashed(alloc: Global, count: u32) -> bool {
    let set = either(hashed_set_of(alloc, count), hashed_set_of(alloc, count));
    let map = either(hashed_map_of(alloc, count), hashed_map_of(alloc, count));
    keeps_value(alloc, set) && keeps_value(alloc, map)
}

/// Of the hundreds and thousands of blocks that these ask for only some are refused in turn:
/// `containers::keeps_a_value_of_each_type` has the same calls for fewer entries.
#[test]
fn keeps_large_sets_and_maps(rt: HostRuntime) {
    assert!(rt; keeps_set(rt.alloc(), 12_000) && keeps_map(rt.alloc(), 12_000));
}

#[test]
fn keeps_large_hashed_sets_and_maps(rt: HostRuntime) {
    assert!(rt; keeps_hashed(rt.alloc(), 12_000));
}
