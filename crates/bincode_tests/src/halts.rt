//! What encoding leaves after it fails in the middle, at a cell that is mutably borrowed.

use bincode::error::EncodeError;
use bincode::{config, encode_into_slice, encode_to_vec};
use std::alloc::Global;
use std::cell::RefCell;

/// What a slice of four 9s holds after 7 and a cell, and how many bytes were written if it was not refused.
fn left_by(cell: &RefCell<u8>) -> ([u8; 4], Option<usize>) {
    let mut slice = [9u8; 4];
    match encode_into_slice((7u8, cell), &mut slice, config::standard()) {
        Ok(count) => (slice, Some(count)),
        Err(EncodeError::RefCellAlreadyBorrowed { .. }) => (slice, None),
        Err(_) => ([0; 4], None),
    }
}

/// Whether a vector of 7 and a cell is refused since the cell is borrowed: no memory was asked for until then.
fn is_refused_to_a_vector(alloc: Global, cell: &RefCell<u8>) -> bool {
    let outcome = encode_to_vec(alloc, (7u8, cell), config::standard());
    matches!(outcome, Err(EncodeError::RefCellAlreadyBorrowed { .. }))
}

/// Whether a byte is written before a cell that is borrowed for writing, and the cell after it once it is free.
fn leaves_a_byte(alloc: Global) -> bool {
    let cell = RefCell::new(5u8);
    let Ok(borrowed) = cell.try_borrow_mut() else {
        return false;
    };
    let is_left = left_by(&cell) == ([7, 9, 9, 9], None) && is_refused_to_a_vector(alloc, &cell);
    drop(borrowed);
    is_left && left_by(&cell) == ([7, 5, 9, 9], Some(2))
}

#[test]
fn leaves_what_stands_before_a_borrowed_cell(rt: HostRuntime) {
    assert!(rt; leaves_a_byte(rt.alloc()));
}
