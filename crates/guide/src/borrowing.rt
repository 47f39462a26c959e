//! Texts that are borrowed from the bytes that are decoded.

use bincode::error::DecodeError;
use bincode::{borrow_decode_from_slice, config};
use std::alloc::Global;

/// The titles that some bytes hold. No text is copied, and memory is taken for the list alone.
pub fn titles<'a>(alloc: Global, bytes: &'a [u8]) -> Result<Vec<&'a str>, DecodeError> {
    let config = config::standard().with_limit::<65536>();
    let (titles, _size) = borrow_decode_from_slice(alloc, bytes, config)?;
    Ok(titles)
}
