//! What is reserved for a list: the capacity that its length claims, no more, and nothing before the claim.

use crate::asserts::all_true;
use bincode::config;
use bincode::de::Decode;
use bumpalo::Bump;
use own_types::arenas::count_numbers;
use own_types::batch::Batch;
use std::alloc::{AllocError, Global};
use std::collections::{BTreeMap, BinaryHeap, HashMap, HashSet, VecDeque};
use test_helpers::checks::{either, is_passed, read_word, within};
use test_helpers::peak::{is_within, peak};

/// The word of the list of the numbers from 1 to 100, of which each takes a byte.
fn hundred() -> [u8; 101] {
    let mut word = [100; 101];
    for place in 1..101usize {
        word[place] = place as u8;
    }
    word
}

/// The word of the map from the numbers from 0 to 99 to 100 each.
fn hundred_entries() -> [u8; 201] {
    let mut word = [100; 201];
    for key in 0..100usize {
        word[2 * key + 1] = key as u8;
    }
    word
}

#[test]
fn reserves_what_lists_hold(rt: HostRuntime) {
    let alloc = rt.alloc();
    let word = hundred();
    assert!(rt;
        matches!(read_word::<VecDeque<u8>>(alloc, &word), Some(it) if it.capacity() == 100)
            && matches!(read_word::<BinaryHeap<u8>>(alloc, &word), Some(it) if it.capacity() == 100)
            && matches!(
                read_word::<Batch<u8>>(alloc, &word), Some(it) if it.items.capacity() == 100
            )
    );
}

/// Whether a set that was made with room for a hundred has this room.
fn is_room_of_set(alloc: Global, room: usize) -> bool {
    let spare: Result<HashSet<u8>, AllocError> = HashSet::with_capacity(alloc, 100);
    matches!(spare, Ok(set) if set.capacity() == room)
}

/// Whether a map that was made so has this room.
fn is_room_of_map(alloc: Global, room: usize) -> bool {
    let spare: Result<HashMap<u8, u8>, AllocError> = HashMap::with_capacity(alloc, 100);
    matches!(spare, Ok(map) if map.capacity() == room)
}

/// Whether the set of the hundred numbers is read with as much room as such a set.
fn reserves_set(alloc: Global) -> bool {
    match read_word::<HashSet<u8>>(alloc, &hundred()) {
        Some(set) => set.len() == 100 && is_room_of_set(alloc, set.capacity()),
        None => false,
    }
}

/// Whether the map of the hundred entries is read with as much room as such a map.
fn reserves_map(alloc: Global) -> bool {
    match read_word::<HashMap<u8, u8>>(alloc, &hundred_entries()) {
        Some(map) => map.len() == 100 && is_room_of_map(alloc, map.capacity()),
        None => false,
    }
}

/// That is room for more than a hundred. Retries once, since an allocation may be refused.
#[test]
fn reserves_what_hashed_ones_claim(rt: HostRuntime) {
    let alloc = rt.alloc();
    assert!(rt;
        (reserves_set(alloc) || reserves_set(alloc)) && (reserves_map(alloc) || reserves_map(alloc))
    );
}

/// Lengths of 2^24 and of 2^40, after which nothing stands.
const LONG: [u8; 5] = [252, 0, 0, 0, 1];

const LONGER: [u8; 9] = [253, 0, 0, 0, 0, 0, 1, 0, 0];

/// Whether both pass a limit of 1024.
fn pass_limit<T: Decode<()>>(alloc: Global) -> bool {
    is_passed(within::<T, 1024>(alloc, &LONG)) && is_passed(within::<T, 1024>(alloc, &LONGER))
}

/// The room is claimed from the limit before any of it is reserved. For the shorter length a list of bytes would take
/// 16 MiB, and a hashed map more than 285 MB.
#[test]
fn claims_before_it_reserves(rt: HostRuntime) {
    let alloc = rt.alloc();
    let before = peak(&rt);
    all_true(
        &rt,
        &[
            pass_limit::<HashMap<u64, u64>>(alloc),
            pass_limit::<HashSet<u64>>(alloc),
            pass_limit::<Vec<u8>>(alloc),
            pass_limit::<Vec<u64>>(alloc),
            pass_limit::<String>(alloc),
            pass_limit::<BTreeMap<u64, u64>>(alloc),
            pass_limit::<VecDeque<u64>>(alloc),
            pass_limit::<BinaryHeap<u64>>(alloc),
        ],
    );
    assert!(rt; is_within(before, peak(&rt), 4 << 20));
}

/// The numbers 1 to 3.
const THREE: [u8; 4] = [3, 1, 2, 3];

/// An arena is free again after each list that is counted: a thousand of them need no more than the first one did. Nor
/// does a list of a hundred numbers: it is begun with room for 400 bytes, and the first chunk has 448.
#[test]
fn counts_within_one_chunk(rt: HostRuntime) {
    let mut bump = Bump::new(rt.alloc());
    let first = either(
        count_numbers(rt.alloc(), &mut bump, &THREE, config::standard()),
        count_numbers(rt.alloc(), &mut bump, &THREE, config::standard()),
    );
    assert!(&rt; first == Some(3));
    bump.set_allocation_limit(Some(bump.allocated_bytes()));
    for _ in 0..1_000 {
        let count = count_numbers(rt.alloc(), &mut bump, &THREE, config::standard());
        assert!(&rt; matches!(count, Ok(3)));
    }
    let long = count_numbers(rt.alloc(), &mut bump, &hundred(), config::standard());
    assert!(&rt; matches!(long, Ok(100)));
}
