//! What to do about an error of decoding.

use crate::settings::Saved;
use bincode::error::DecodeError;
use bincode::{config, decode_from_slice};
use std::alloc::Global;

/// What a connection does next.
#[derive(Debug, Drop)]
pub enum Received {
    /// Handle a message, and go on after this many bytes.
    Message(Saved, usize),
    /// Read more bytes and try again: these end within a message.
    ReadMore,
    /// Refuse a message that needs more than the limit, whatever follows.
    TooLarge,
    /// Try the same bytes again when there is more memory.
    TryLater,
    /// Refuse bytes that are no message, whatever follows. The error is the first one in them.
    Malformed(DecodeError),
}

/// Decodes the message at the start of the bytes that were received.
pub fn receive(alloc: Global, bytes: &[u8]) -> Received {
    let config = config::standard().with_limit::<4096>();
    match decode_from_slice(alloc, bytes, config) {
        Ok((message, taken)) => Received::Message(message, taken),
        Err(DecodeError::UnexpectedEnd { .. }) => Received::ReadMore,
        Err(DecodeError::LimitExceeded) => Received::TooLarge,
        Err(DecodeError::Memory) => Received::TryLater,
        Err(error) => Received::Malformed(error),
    }
}
