//! Values that go to a stream in blocks of 512 bytes: by how many writes the stream gets them, what a full stream gets
//! of them, and what the writer reports then. Expected bytes and counts come from docs/FORMAT.md and from the length of
//! a block.

use bincode::enc::BlockWriter;
use bincode::error::EncodeError;
use bincode::{config, encode_into_slice, encode_into_writer};
use std::io;
use std::io::{ErrorKind, Write};

/// The greatest number of bytes that a stream takes.
const MOST: usize = 1024;

/// A stream that takes so many bytes, and counts its calls. It takes no memory, nor does what these tests call.
#[derive(Drop)]
struct Sink {
    held: [u8; MOST],
    length: usize,
    room: usize,
    writes: usize,
    flushes: usize,
}

impl Sink {
    /// One that has taken nothing yet.
    fn new(room: usize) -> Sink {
        Sink {
            held: [0; MOST],
            length: 0,
            room: room.min(MOST),
            writes: 0,
            flushes: 0,
        }
    }

    /// The bytes that it took.
    fn bytes(&self) -> &[u8] {
        self.held.get(..self.length).unwrap_or(&[])
    }
}

impl Write for Sink {
    fn write(&mut self, bytes: &[u8]) -> io::Result<usize> {
        self.writes = self.writes.saturating_add(1);
        let count = bytes.len().min(self.room.saturating_sub(self.length));
        let end = self.length.saturating_add(count);
        let (front, _) = bytes.split_at(count);
        match self.held.get_mut(self.length..end) {
            Some(place) => {
                place.copy_from_slice(front);
                self.length = end;
                Ok(count)
            }
            None => Err(ErrorKind::Other.into()),
        }
    }

    fn flush(&mut self) -> io::Result<()> {
        self.flushes = self.flushes.saturating_add(1);
        Ok(())
    }
}

/// What became of sevens that went to a writer one by one.
#[derive(Clone, Copy, Debug, PartialEq)]
enum Gathered {
    /// All were written, and the writer says so.
    All,
    /// All were written, and then they were flushed.
    Flushed,
    /// All were written, the stream failed after so many bytes of whole blocks, and a second flush failed too.
    Lost(usize),
    /// One was refused after the stream had failed so, and the next one too.
    Refused(usize),
    /// Something else.
    Other,
}

/// How a writer stands that refused a seven.
fn refused(writer: &mut BlockWriter<Sink>) -> Gathered {
    match writer.failure() {
        Some(EncodeError::Io { inner, index })
            if inner.kind() == ErrorKind::WriteZero
                && encode_into_writer(7u8, writer, config::standard()).is_err() => {
            Gathered::Refused(index)
        }
        _ => Gathered::Other,
    }
}

/// Writes so many sevens, and flushes them if that is asked.
fn gather(stream: &mut Sink, count: usize, is_flushed: bool) -> Gathered {
    let mut writer = BlockWriter::new(stream);
    for _ in 0..count {
        match encode_into_writer(7u8, &mut writer, config::standard()) {
            Ok(()) => {}
            Err(EncodeError::UnexpectedEnd) => return refused(&mut writer),
            Err(_) => return Gathered::Other,
        }
    }
    if writer.bytes_written() != count || writer.failure().is_some() {
        return Gathered::Other;
    }
    if !is_flushed {
        return Gathered::All;
    }
    match writer.flush() {
        Ok(()) => Gathered::Flushed,
        Err(EncodeError::Io { inner: _, index }) if writer.flush().is_err() => Gathered::Lost(
            index,
        ),
        Err(_) => Gathered::Other,
    }
}

/// Of six hundred bytes the stream has 512 until they are flushed.
#[test]
fn gathers_values_in_a_block(rt: HostRuntime) {
    let mut stream = Sink::new(MOST);
    assert_eq!(rt; gather(&mut stream, 600, false), Gathered::All);
    assert!(rt; stream.bytes() == [7; 512].as_slice() && stream.writes == 1);
    assert_eq!(rt; gather(&mut stream, 88, true), Gathered::Flushed);
    assert!(rt; stream.bytes() == [7; 600].as_slice());
    assert!(rt; stream.writes == 2 && stream.flushes == 1);
}

/// A stream that is full after 520 bytes has these, and what was held then is lost: by a flush, and by a piece for
/// which there is no room.
#[test]
fn tells_that_the_stream_is_full(rt: HostRuntime) {
    let mut stream = Sink::new(520);
    assert_eq!(rt; gather(&mut stream, 1000, true), Gathered::Lost(512));
    assert!(rt; stream.bytes() == [7; 520].as_slice());
    let mut stream = Sink::new(520);
    assert_eq!(rt; gather(&mut stream, 1025, false), Gathered::Refused(512));
    assert!(rt; stream.bytes() == [7; 520].as_slice() && stream.flushes == 0);
}

/// Writes a seven and a list of so many bytes: by how many writes the stream then got how many bytes.
fn writes_of_bytes(count: usize) -> Option<(usize, usize)> {
    let bytes = [116u8; 600];
    let (list, _) = bytes.split_at(count.min(600));
    let mut stream = Sink::new(MOST);
    let mut writer = BlockWriter::new(&mut stream);
    encode_into_writer((7u8, list), &mut writer, config::standard()).ok()?;
    writer.flush().ok()?;
    let written = writer.bytes_written();
    drop(writer);
    (written == stream.bytes().len()).then_some((stream.writes, written))
}

/// Bytes that the block holds go with what was held before or alone, and more of them straight to the stream.
#[test]
fn writes_long_pieces_by_themselves(rt: HostRuntime) {
    assert_eq!(rt; writes_of_bytes(500), Some((1, 504)));
    assert_eq!(rt; writes_of_bytes(512), Some((2, 516)));
    assert_eq!(rt; writes_of_bytes(600), Some((2, 604)));
}

/// Ten records of numbers of all widths.
const RECORDS: [(u32, u16, u64); 10] = [
    (0, 0, 0),
    (250, 250, 250),
    (251, 251, 251),
    (65535, 65535, 65535),
    (65536, 1, 65536),
    (4294967295, 2, 4294967295),
    (3, 300, 4294967296),
    (300, 4, 18446744073709551615),
    (70000, 5, 6),
    (7, 65000, 70000),
];

/// Writes the records so many times, and tells whether the stream got their encodings, by so many writes.
fn writes_records(times: usize, writes: usize) -> Option<bool> {
    let mut room = [0u8; 128];
    let length = encode_into_slice(&RECORDS, &mut room, config::standard()).ok()?;
    let once = room.get(..length)?;
    let mut stream = Sink::new(MOST);
    let mut writer = BlockWriter::new(&mut stream);
    for _ in 0..times {
        for record in &RECORDS {
            encode_into_writer(record, &mut writer, config::standard()).ok()?;
        }
    }
    writer.flush().ok()?;
    drop(writer);
    let mut is_same = stream.writes == writes;
    for words in stream.bytes().chunks(length.max(1)) {
        is_same = is_same && words == once;
    }
    Some(is_same && stream.bytes().len() == length.saturating_mul(times))
}

/// The ten take 88 bytes, so that the sixth time goes beyond a block.
#[test]
fn writes_records_of_all_widths(rt: HostRuntime) {
    assert_eq!(rt; writes_records(1, 1), Some(true));
    assert_eq!(rt; writes_records(6, 2), Some(true));
}
