//! Cells, of which no contract says what they hold.

use crate::asserts::rows_hold;
use crate::encodings::is_encoded;
use bincode::error::EncodeError;
use bincode::{config, encode_into_slice};
use std::alloc::Global;
use std::cell::{Cell, RefCell};
use test_helpers::checks::read_front;

/// Row: each byte in a cell.
#[test]
fn keeps_each_byte_in_a_cell(rt: HostRuntime) {
    let alloc = rt.alloc();
    let cell = Cell::new(0u8);
    for byte in 0..=255u8 {
        cell.set(byte);
        let mut slice = [99u8; 2];
        let written = encode_into_slice(&cell, &mut slice, config::standard());
        assert!(rt; matches!(written, Ok(1)) && slice == [byte, 99]);
        let read: Option<Cell<u8>> = read_front(alloc, &slice, 1);
        assert!(rt; matches!(read, Some(cell) if cell.get() == byte));
    }
}

/// Row: each byte in a shared cell.
#[test]
fn keeps_each_byte_in_an_unborrowed_cell(rt: HostRuntime) {
    let alloc = rt.alloc();
    for byte in 0..=255u8 {
        let mut slice = [99u8; 2];
        let written = encode_into_slice(&RefCell::new(byte), &mut slice, config::standard());
        assert!(rt; matches!(written, Ok(1)) && slice == [byte, 99]);
        let read: Option<RefCell<u8>> = read_front(alloc, &slice, 1);
        let Some(cell) = read else {
            assert!(rt; false);
            return;
        };
        assert!(rt; cell.try_borrow_mut().is_ok() && cell.into_inner() == byte);
    }
}

/// The encodings of 5 and of 300.
const FIVE: [u8; 1] = [5];

const THREE_HUNDRED: [u8; 3] = [251, 44, 1];

/// Whether a cell of 5 that is then set to 300 is encoded as the one and then as the other.
fn follows_cell() -> bool {
    let cell = Cell::new(5u32);
    let is_five = is_encoded(&cell, &FIVE, config::standard());
    cell.set(300);
    is_five && is_encoded(&cell, &THREE_HUNDRED, config::standard())
}

/// The same of a cell that is borrowed to be set.
fn follows_shared_cell() -> bool {
    let cell = RefCell::new(5u32);
    let is_five = is_encoded(&cell, &FIVE, config::standard());
    let Ok(mut held) = cell.try_borrow_mut() else {
        return false;
    };
    *held = 300;
    drop(held);
    is_five && is_encoded(&cell, &THREE_HUNDRED, config::standard())
}

/// Whether an encoding is decoded as a cell of this number, and as an unborrowed one.
fn holds(alloc: Global, encoding: &[u8], number: u32) -> bool {
    let cell: Option<Cell<u32>> = read_front(alloc, encoding, encoding.len());
    let shared: Option<RefCell<u32>> = read_front(alloc, encoding, encoding.len());
    match (cell, shared) {
        (Some(cell), Some(shared)) => {
            cell.get() == number && shared.try_borrow_mut().is_ok() && shared.into_inner() == number
        }
        _ => false,
    }
}

/// Whether the cell is refused by its name since it is borrowed, and nothing is written.
fn is_refused(cell: &RefCell<u32>) -> bool {
    let mut slice = [9u8; 3];
    let outcome = encode_into_slice(cell, &mut slice, config::standard());
    matches!(
        outcome,
        Err(EncodeError::RefCellAlreadyBorrowed { type_name }) if type_name.as_str() == "RefCell"
    ) && slice == [9, 9, 9]
}

/// Whether a cell of 300 is refused while it is borrowed for writing, and encoded afterwards.
fn refuses_while_borrowed() -> bool {
    let cell = RefCell::new(300u32);
    let Ok(borrowed) = cell.try_borrow_mut() else {
        return false;
    };
    let is_refused = is_refused(&cell);
    drop(borrowed);
    is_refused && is_encoded(&cell, &THREE_HUNDRED, config::standard())
}

/// Whether a cell of 300 is encoded while it is borrowed for reading, which leaves it so, and afterwards, which leaves
/// it free.
fn writes_while_read() -> bool {
    let cell = RefCell::new(300u32);
    let Ok(borrowed) = cell.try_borrow() else {
        return false;
    };
    let is_written = is_encoded(&cell, &THREE_HUNDRED, config::standard());
    let is_borrowed = cell.try_borrow_mut().is_err();
    drop(borrowed);
    is_written
        && is_borrowed
        && is_encoded(&cell, &THREE_HUNDRED, config::standard())
        && cell.try_borrow_mut().is_ok()
}

#[test]
fn follows_cells(rt: HostRuntime) {
    let alloc = rt.alloc();
    let shared = RefCell::new(300u32);
    rows_hold(
        &rt,
        &[
            (
                "a shared cell of 300",
                is_encoded(&shared, &THREE_HUNDRED, config::standard()),
            ),
            ("a borrowed cell", refuses_while_borrowed()),
            ("a cell that is borrowed for reading", writes_while_read()),
            (
                "cells that are set",
                follows_cell()
                    && follows_shared_cell()
                    && holds(alloc, &FIVE, 5)
                    && holds(alloc, &THREE_HUNDRED, 300),
            ),
        ],
    );
}
