//! Streams that are read from what their buffer shows. Expected values come from docs/FORMAT.md.

use bincode::error::DecodeError;
use bincode::{config, decode_from_buf_read};
use std::alloc::{AllocError, Global};
use std::io;
use std::io::{BufRead, BufReader, ErrorKind, Read};

/// What is read of a word of two numbers and a text through a buffer of this capacity, with the text's length. `None`
/// where it is not read, as where memory is refused, or where the 9 after it is not left.
fn read_through(alloc: Global, capacity: usize) -> Option<(u8, u32, usize)> {
    let bytes = [1, 251, 44, 1, 2, 97, 98, 9];
    let mut stream = BufReader::with_capacity(alloc, capacity, &bytes[..]).ok()?;
    let read: Result<(u8, u32, String), DecodeError> = decode_from_buf_read(
        alloc,
        &mut stream,
        config::standard(),
    );
    let (one, number, text) = read.ok()?;
    let mut after = [0u8; 1];
    stream.read_exact(&mut after).ok()?;
    (after == [9]).then_some((one, number, text.len()))
}

/// A value is read alike whether the buffer shows all of it, a part or nothing.
#[test]
fn reads_what_a_buffer_shows(rt: HostRuntime) -> Result<(), AllocError> {
    let alloc = rt.alloc();
    for capacity in 0..10 {
        let read = read_through(alloc, capacity).or_else(|| read_through(alloc, capacity));
        assert!(rt; read == Some((1, 300, 2)), "{capacity}");
    }
    Ok(())
}

/// The encodings of a text of 2,000 bytes and of a list of 400 times 300, and a 9: 3,207 bytes.
fn long_pair(alloc: Global) -> Result<Vec<u8>, AllocError> {
    let mut bytes = vec![in alloc; 251, 208, 7]?;
    for _ in 0..2000 {
        bytes.push(b'x')?;
    }
    bytes.extend_from_slice(&[251, 144, 1])?;
    for _ in 0..400 {
        bytes.extend_from_slice(&[251, 44, 1])?;
    }
    bytes.push(9)?;
    Ok(bytes)
}

/// Whether that text and that list are read through a buffer of this capacity, and the 9 is left. `None` where they are
/// not read, as where memory is refused.
fn reads_long(alloc: Global, capacity: usize) -> Option<bool> {
    let bytes = long_pair(alloc).ok()?;
    let mut stream = BufReader::with_capacity(alloc, capacity, bytes.as_slice()).ok()?;
    let read: Result<(String, Vec<u16>), DecodeError> = decode_from_buf_read(
        alloc,
        &mut stream,
        config::standard(),
    );
    let (text, list) = read.ok()?;
    let mut after = [0u8; 1];
    stream.read_exact(&mut after).ok()?;
    let is_text = text.len() == 2000 && text.bytes().all(|byte| byte == b'x');
    let is_list = list.len() == 400 && list.iter().all(|item| *item == 300);
    Some(after == [9] && is_text && is_list)
}

/// Both are longer than a window, which ends within a piece, within a number, at its end, or with the buffer.
#[test]
fn reads_a_value_longer_than_a_window(rt: HostRuntime) {
    let alloc = rt.alloc();
    for capacity in [0, 1, 2, 3, 511, 512, 513, 600, 2003, 2004, 3206, 3207, 4096] {
        let is_read = reads_long(alloc, capacity).or_else(|| reads_long(alloc, capacity));
        assert!(rt; is_read == Some(true), "{capacity}");
    }
}

/// A stream that shows its bytes two by two, and counts how often it is asked for one more than it has: there another
/// stream would wait, and this one fails.
#[derive(Drop)]
struct ByTwos<'s> {
    bytes: &'s [u8],
    waits: usize,
}

/// What such a stream answers where it has no byte.
fn would_block(waits: &mut usize) -> io::Error {
    *waits = waits.saturating_add(1);
    io::Error::from(ErrorKind::WouldBlock)
}

impl Read for ByTwos<'_> {
    fn read(&mut self, bytes: &mut [u8]) -> io::Result<usize> {
        if self.bytes.is_empty() {
            return Err(would_block(&mut self.waits));
        }
        self.bytes.read(bytes)
    }
}

impl BufRead for ByTwos<'_> {
    fn fill_buf(&mut self) -> io::Result<&[u8]> {
        if self.bytes.is_empty() {
            return Err(would_block(&mut self.waits));
        }
        Ok(&self.bytes[..self.bytes.len().min(2)])
    }

    fn consume(&mut self, amount: usize) {
        let at = amount.min(self.bytes.len());
        self.bytes = &self.bytes[at..];
    }
}

/// What is read of three numbers from a stream by twos with so many of their bytes, and how often it had to wait.
fn read_by_twos(alloc: Global, count: usize) -> (Result<(u16, u16, u8), DecodeError>, usize) {
    let bytes = [251, 44, 1, 251, 45, 1, 7];
    let mut stream = ByTwos {
        bytes: &bytes[..count.min(7)],
        waits: 0,
    };
    let read = decode_from_buf_read(alloc, &mut stream, config::standard());
    (read, stream.waits)
}

/// How many bytes are missing by an error of a stream that would wait.
fn missing_of(read: &Result<(u16, u16, u8), DecodeError>) -> Option<usize> {
    match read {
        Err(DecodeError::Io { inner, additional }) => {
            (inner.kind() == ErrorKind::WouldBlock).then_some(*additional)
        }
        _ => None,
    }
}

/// A value is read without asking for a byte behind its last one, for which a stream may wait.
#[test]
fn asks_for_no_byte_behind_a_value(rt: HostRuntime) {
    let (whole, waits) = read_by_twos(rt.alloc(), 7);
    assert!(rt; matches!(whole, Ok((300, 301, 7))) && waits == 0);
}

/// Wherever its bytes end, a stream that would wait is asked once, and its error is told at once with the number of
/// bytes that are missing.
#[test]
fn asks_once_where_a_stream_would_wait(rt: HostRuntime) {
    for (count, missing) in [1, 2, 1, 1, 2, 1, 1].into_iter().enumerate() {
        let (cut, waits) = read_by_twos(rt.alloc(), count);
        assert!(rt; missing_of(&cut) == Some(missing) && waits == 1, "{count}");
    }
}

/// A stream that shows all of its bytes, and counts the reads.
#[derive(Drop)]
struct Shown<'s> {
    bytes: &'s [u8],
    reads: usize,
}

impl Read for Shown<'_> {
    fn read(&mut self, bytes: &mut [u8]) -> io::Result<usize> {
        self.reads = self.reads.saturating_add(1);
        self.bytes.read(bytes)
    }
}

impl BufRead for Shown<'_> {
    fn fill_buf(&mut self) -> io::Result<&[u8]> {
        Ok(self.bytes)
    }

    fn consume(&mut self, amount: usize) {
        let at = amount.min(self.bytes.len());
        self.bytes = &self.bytes[at..];
    }
}

/// A value that is shown whole is read without a read of the stream, and one that is not with one where the buffer
/// ends.
#[test]
fn reads_a_shown_value_at_once(rt: HostRuntime) {
    let alloc = rt.alloc();
    let mut stream = Shown {
        bytes: &[251, 44, 1, 251, 44],
        reads: 0,
    };
    let first: Result<u32, DecodeError> = decode_from_buf_read(
        alloc,
        &mut stream,
        config::standard(),
    );
    let (reads, left) = (stream.reads, stream.bytes.len());
    let second: Result<u32, DecodeError> = decode_from_buf_read(
        alloc,
        &mut stream,
        config::standard(),
    );
    assert!(rt; matches!(first, Ok(300)) && reads == 0 && left == 2);
    assert!(rt;
        matches!(
            second,
            Err(DecodeError::Io {
                inner: _,
                additional: 1
            })
        )
    );
    assert!(rt; stream.reads > 0 && stream.bytes.is_empty());
}

/// A fault is told as of any other stream, and the stream is left after it.
#[test]
fn tells_faults_of_what_a_buffer_shows(rt: HostRuntime) {
    let mut stream = &[5u8, 6][..];
    let read: Result<bool, DecodeError> = decode_from_buf_read(
        rt.alloc(),
        &mut stream,
        config::standard(),
    );
    assert!(rt;
        matches!(read, Err(DecodeError::InvalidBooleanValue(5))) && stream == [6].as_slice()
    );
}
