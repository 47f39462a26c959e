//! How the cases of borrowed decoding are run.

use crate::case::{Borrowed, Lending};
use bincode::error::DecodeError;
use bincode::{borrow_decode_from_slice, config};
use std::alloc::{AllocError, Global};

/// Whether the texts are borrowed from the input as the case says.
pub(crate) fn borrows(alloc: Global, borrowed: &Borrowed) -> Result<bool, AllocError> {
    match borrowed {
        Borrowed::List(row) => borrows_list(alloc, row.input, row),
        Borrowed::Three(row) => borrows_three(alloc, row.input, row),
    }
}

/// Decodes a list of borrowed texts.
fn list_of(alloc: Global, input: &[u8]) -> Result<(Vec<&str>, usize), DecodeError> {
    borrow_decode_from_slice(alloc, input, config::standard())
}

/// Decodes an array of three borrowed texts.
fn three_of(alloc: Global, input: &[u8]) -> Result<([&str; 3], usize), DecodeError> {
    borrow_decode_from_slice(alloc, input, config::standard())
}

/// Whether the texts are borrowed as a list.
fn borrows_list(alloc: Global, input: &[u8], row: &Lending) -> Result<bool, AllocError> {
    match list_of(alloc, input) {
        Ok((texts, taken)) => Ok(taken == row.length && texts.as_slice() == row.texts),
        Err(DecodeError::Memory) => Err(AllocError),
        Err(_) => Ok(false),
    }
}

/// Whether the texts are borrowed as an array of three.
fn borrows_three(alloc: Global, input: &[u8], row: &Lending) -> Result<bool, AllocError> {
    match three_of(alloc, input) {
        Ok(read) => Ok(read.1 == row.length && read.0.as_slice() == row.texts),
        Err(DecodeError::Memory) => Err(AllocError),
        Err(_) => Ok(false),
    }
}
