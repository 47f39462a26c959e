//! Input that anybody may have sent.

use crate::settings::Saved;
use bincode::{DecodeExactError, config, decode_exact_from_slice};
use std::alloc::Global;

/// Reads a message that is one value and nothing after it, and needs no more than 4096 bytes.
pub fn read_message(alloc: Global, bytes: &[u8]) -> Result<Saved, DecodeExactError> {
    let config = config::standard().with_limit::<4096>();
    decode_exact_from_slice(alloc, bytes, config)
}
