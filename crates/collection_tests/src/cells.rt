//! The error of a cell that is mutably borrowed: it names the cell type.

use bincode::error::EncodeError;
use bincode::{config, encode_into_slice};
use std::cell::RefCell;

#[test]
fn names_the_type_of_a_borrowed_cell(rt: HostRuntime) {
    let cell = RefCell::new(7u8);
    let Ok(_borrowed) = cell.try_borrow_mut() else {
        assert!(&rt; false);
        return;
    };
    let Err(EncodeError::RefCellAlreadyBorrowed { type_name }) = encode_into_slice(
        &cell,
        &mut [9u8; 3],
        config::standard(),
    ) else {
        assert!(&rt; false);
        return;
    };
    assert!(&rt; type_name.as_str() == "RefCell");
}
