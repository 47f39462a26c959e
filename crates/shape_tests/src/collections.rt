//! The shapes of queues, heaps, sets and maps, and values by their shapes from a reader.

use crate::asserts::all_true;
use crate::shaped::has_shape;
use bincode::config;
use bincode::de::read::{Reader, SliceReader};
use bincode::shape::{Shape, Value, decode_shaped_from_reader};
use shape_text::text::shape_of;
use std::alloc::Global;
use std::collections::{BTreeMap, BTreeSet, BinaryHeap, HashMap, HashSet, VecDeque};

/// The shape of a list of numbers of two bytes.
const NUMBERS: &str = "Seq { claim: 2, element: U16 }";

/// The shape of a list of two of them.
const PAIRS: &str = "Seq { claim: 4, element: Tuple([U16, U16]) }";

#[test]
fn collections_are_lists_of_their_items(rt: HostRuntime) {
    let alloc = rt.alloc();
    all_true(
        &rt,
        &[
            has_shape::<VecDeque<u16>>(alloc, NUMBERS),
            has_shape::<BinaryHeap<u16>>(alloc, NUMBERS),
            has_shape::<BTreeSet<u16>>(alloc, NUMBERS),
            has_shape::<HashSet<u16>>(alloc, NUMBERS),
            has_shape::<BTreeMap<u16, u16>>(alloc, PAIRS),
            has_shape::<HashMap<u16, u16>>(alloc, PAIRS),
        ],
    );
}

/// Whether this number of two bytes is the next value of a reader.
fn is_next<R: Reader>(alloc: Global, reader: &mut R, number: u128) -> bool {
    match decode_shaped_from_reader(alloc, &Shape::U16, reader, config::standard()) {
        Ok(value) => value == Value::Unsigned(number),
        Err(_) => false,
    }
}

#[test]
fn reads_values_in_turn(rt: HostRuntime) {
    let alloc = rt.alloc();
    let mut reader = SliceReader::new(&[7, 251, 44, 1, 251, 2]);
    assert!(rt;
        is_next(alloc, &mut reader, 7)
            && is_next(alloc, &mut reader, 300)
            && reader.bytes_left() == 2
    );
}

/// How many bytes a reader has left after a fault of a shape.
fn left_after(alloc: Global, shape: &str, input: &[u8]) -> Option<usize> {
    let shape = shape_of(alloc, shape).ok()?;
    let mut reader = SliceReader::new(input);
    match decode_shaped_from_reader(alloc, &shape, &mut reader, config::standard()) {
        Ok(_) => None,
        Err(_) => Some(reader.bytes_left()),
    }
}

/// Nothing is read after a tag that an option or an enum has not. Retries once, since an allocation may be refused.
#[test]
fn leaves_what_follows_a_tag(rt: HostRuntime) {
    let alloc = rt.alloc();
    for shape in ["u8?", "u8|bool"] {
        assert!(rt;
            left_after(alloc, shape, &[2, 77, 78]) == Some(2)
                || left_after(alloc, shape, &[2, 77, 78]) == Some(2),
            "{shape}"
        );
    }
}
