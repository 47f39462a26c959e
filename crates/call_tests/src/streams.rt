//! Streams that take or give little, and break.
use std::io;
use std::io::{ErrorKind, Read, Write};

/// Gives at most so many bytes a call, and fails from a given call on.
#[derive(Drop)]
pub struct Source<'s> {
    pub bytes: &'s [u8],
    pub most: usize,
    pub calls: usize,
}

impl Read for Source<'_> {
    fn read(&mut self, bytes: &mut [u8]) -> io::Result<usize> {
        if self.calls == 0 {
            return Err(ErrorKind::ConnectionReset.into());
        }
        self.calls -= 1;
        let most = bytes.len().min(self.most);
        self.bytes.read(&mut bytes[..most])
    }
}

/// Takes at most so many bytes a call, and fails from a given call on. Flushes are calls, too.
#[derive(Drop)]
pub struct Sink<'s> {
    pub held: &'s mut Vec<u8>,
    pub most: usize,
    pub calls: usize,
}

impl Sink<'_> {
    /// Counts a call, or fails.
    fn call(&mut self) -> io::Result<()> {
        if self.calls == 0 {
            return Err(ErrorKind::BrokenPipe.into());
        }
        self.calls -= 1;
        Ok(())
    }
}

impl Write for Sink<'_> {
    fn write(&mut self, bytes: &[u8]) -> io::Result<usize> {
        self.call()?;
        let most = bytes.len().min(self.most);
        self.held.write(&bytes[..most])
    }

    fn flush(&mut self) -> io::Result<()> {
        self.call()
    }
}

/// A sink that takes all.
pub fn whole(held: &mut Vec<u8>) -> Sink<'_> {
    Sink {
        held,
        most: usize::MAX,
        calls: usize::MAX,
    }
}
