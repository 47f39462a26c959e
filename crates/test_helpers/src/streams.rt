//! Streams that break.

use bincode::error::DecodeError;
use std::io;
use std::io::{ErrorKind, Read};

/// Gives one byte a call, and fails from a given call on.
#[derive(Drop)]
pub struct Breaking<'s> {
    pub bytes: &'s [u8],
    pub calls: usize,
}

impl Read for Breaking<'_> {
    fn read(&mut self, bytes: &mut [u8]) -> io::Result<usize> {
        if self.calls == 0 {
            return Err(ErrorKind::BrokenPipe.into());
        }
        self.calls -= 1;
        let most = bytes.len().min(1);
        self.bytes.read(&mut bytes[..most])
    }
}

/// Whether the outcome is that the stream broke.
pub fn is_broken<T>(outcome: &Result<T, DecodeError>) -> bool {
    matches!(
        outcome,
        Err(DecodeError::Io { inner, additional: _ }) if inner.kind() == ErrorKind::BrokenPipe
    )
}
