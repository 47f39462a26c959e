//! The stores of the tests, whose bytes another program made, and streams that fail.

use bincode::encode_into_slice;
use std::io;
use std::io::{ErrorKind, Read, Write};
use std::process::Abort;
use stock_files::article::Article;
use stock_files::limit::settings;

/// The word of salt at 40.
pub const SALT: [u8; 8] = [4, 115, 97, 108, 116, 40, 0, 0];

/// The word of tea at 1250, of a weight of 100 and from Assam.
pub static TEA: [u8; 23] = [
    3, 116, 101, 97, 251, 226, 4, 1, 100, 1, 6, 111, 114, 105, 103, 105, 110, 5, 65, 115, 115, 97,
    109,
];

/// The frames of salt at 40, of tea at 1250, of a weight of 100 and from Assam, and of salt again.
pub static FRAMED: [u8; 63] = [
    8, 0, 0, 0, 4, 115, 97, 108, 116, 40, 0, 0, 172, 169, 102, 189, 23, 0, 0, 0, 3, 116, 101, 97,
    251, 226, 4, 1, 100, 1, 6, 111, 114, 105, 103, 105, 110, 5, 65, 115, 115, 97, 109, 144, 206,
    185, 142, 8, 0, 0, 0, 4, 115, 97, 108, 116, 40, 0, 0, 172, 169, 102, 189,
];

/// The frame of the word of salt with a zero after it, and that of its first two bytes.
pub static ODD: [u8; 27] = [
    9, 0, 0, 0, 4, 115, 97, 108, 116, 40, 0, 0, 0, 235, 119, 26, 141, 2, 0, 0, 0, 4, 115, 108, 26,
    228, 160,
];

/// The store with a bit of the name of its tea changed.
pub fn damaged() -> [u8; 63] {
    let mut bytes = FRAMED;
    bytes[21] = 117;
    bytes
}

/// Each answer is true; else the place of the first that is not is told, from 0 on.
pub fn all_true(rt: &impl Abort, answers: &[bool]) {
    assert_eq!(rt; answers.iter().position(|answer| !*answer), None);
}

/// Whether this is the word of an article.
pub fn has_word(article: &Article, word: &[u8]) -> bool {
    let mut slice = [0u8; 32];
    match encode_into_slice(article, &mut slice, settings()) {
        Ok(length) => slice.get(..length) == Some(word),
        Err(_) => false,
    }
}

/// Takes as many bytes as it has room for, and then fails.
#[derive(Drop)]
pub struct Full {
    pub held: Vec<u8>,
    pub room: usize,
}

impl Write for Full {
    fn write(&mut self, bytes: &[u8]) -> io::Result<usize> {
        let count = bytes.len().min(self.room);
        if count == 0 {
            return Err(ErrorKind::StorageFull.into());
        }
        self.held.extend_from_slice(&bytes[..count])?;
        self.room -= count;
        Ok(count)
    }

    fn flush(&mut self) -> io::Result<()> {
        Ok(())
    }
}

/// Takes nothing, like a pipe that nobody reads.
#[derive(Drop)]
pub struct Closed;

impl Write for Closed {
    fn write(&mut self, _bytes: &[u8]) -> io::Result<usize> {
        Err(ErrorKind::BrokenPipe.into())
    }

    fn flush(&mut self) -> io::Result<()> {
        Ok(())
    }
}

/// Gives one byte a call, and is interrupted before each.
#[derive(Drop)]
pub struct Trickle<'b> {
    rest: &'b [u8],
    is_ready: bool,
}

impl<'b> Trickle<'b> {
    /// A stream of these bytes.
    pub fn new(rest: &'b [u8]) -> Trickle<'b> {
        Trickle {
            rest,
            is_ready: false,
        }
    }
}

impl Read for Trickle<'_> {
    fn read(&mut self, bytes: &mut [u8]) -> io::Result<usize> {
        self.is_ready = !self.is_ready;
        if self.is_ready {
            return Err(ErrorKind::Interrupted.into());
        }
        let count = bytes.len().min(1);
        self.rest.read(&mut bytes[..count])
    }
}

/// Gives a line without its end, and then fails.
#[derive(Drop)]
pub struct Broken {
    pub has_failed: bool,
}

impl Read for Broken {
    fn read(&mut self, bytes: &mut [u8]) -> io::Result<usize> {
        if self.has_failed || bytes.is_empty() {
            return Err(ErrorKind::BrokenPipe.into());
        }
        self.has_failed = true;
        bytes[0] = 115;
        Ok(1)
    }
}
