//! Writing into slices, and counting; and what too short a slice holds of fixed numbers, of which no clause says
//! how many pieces are written.

use crate::asserts::rows_hold;
use bincode::enc::write::{SizeWriter, SliceWriter, Writer};
use bincode::error::EncodeError;
use bincode::{config, encode_into_slice};
use std::alloc::Global;
use test_helpers::checks::either;

/// What a slice of thirteen 9s holds after fixed pairs that did not fit.
fn left_by_pairs(alloc: Global) -> Option<[u8; 13]> {
    let pairs = either(
        Vec::from_array(alloc, [(1u16, 2u8), (3, 4)]),
        Vec::from_array(alloc, [(1u16, 2u8), (3, 4)]),
    )?;
    let mut slice = [9u8; 13];
    match encode_into_slice(pairs, &mut slice, config::legacy()) {
        Ok(_) => None,
        Err(_) => Some(slice),
    }
}

/// A list asks for the room of each pair, and where it is too small writes the number that has room.
#[test]
fn leaves_a_part_of_an_item(rt: HostRuntime) {
    assert!(rt; left_by_pairs(rt.alloc()) == Some([2, 0, 0, 0, 0, 0, 0, 0, 1, 0, 2, 3, 0]));
}

/// Two numbers and an option take 21 bytes here, and a slice of 20 gets a front.
#[test]
fn leaves_a_front_where_the_most_does_not_fit(rt: HostRuntime) {
    let mut bytes = [9u8; 20];
    let written = encode_into_slice((5u64, 6u64, Some(7u32)), &mut bytes, config::legacy());
    assert!(rt;
        written.is_err() && bytes == [5, 0, 0, 0, 0, 0, 0, 0, 6, 0, 0, 0, 0, 0, 0, 0, 1, 9, 9, 9]
    );
}

/// Whether a counter that is at its end counts no further.
fn counts_no_further() -> bool {
    let mut counter = SizeWriter {
        bytes_written: usize::MAX,
    };
    let outcome = counter.write(&[1]);
    matches!(outcome, Err(EncodeError::UnexpectedEnd)) && counter.bytes_written == usize::MAX
}

/// Whether five bytes are written into the first of a hundred zeros.
fn writes_the_first_of_a_slice() -> bool {
    let mut slice = [0u8; 100];
    let mut writer = SliceWriter::new(&mut slice);
    let is_written = writer.write(&[1, 2, 3, 4, 5]).is_ok() && writer.bytes_written() == 5;
    drop(writer);
    is_written && slice.starts_with(&[1, 2, 3, 4, 5, 0])
}

#[test]
fn counts_what_is_written(rt: HostRuntime) {
    rows_hold(
        &rt,
        &[
            ("a count at its end", counts_no_further()),
            (
                "a writer over a hundred zeros",
                writes_the_first_of_a_slice(),
            ),
        ],
    );
}
