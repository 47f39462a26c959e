//! What no contract of the library says: that a stream which is interrupted within a window is asked again, how a
//! vector grows that has too little capacity, that a long value is not refused for its length, and that values are
//! counted before they are made. Expected values come from docs/FORMAT.md and from what the calls promise in words.

use crate::pieces::word_of;
use bincode::checked::{encoded_length, round_trip_by_vec};
use bincode::enc::write::{VecWriter, Writer};
use bincode::error::DecodeError;
use bincode::shape::{DecodeWithinError, Described, Shape, decode_shaped_within};
use bincode::std_io::decode_from_buf_read;
use bincode::{config, encode_into_slice};
use std::alloc::Global;
use std::io;
use std::io::{BufRead, ErrorKind, Read};
use std::time::{Duration, Instant};

/// A stream that shows at most so many bytes at once, and of whose calls each of this number is interrupted.
#[derive(Drop)]
struct Halting<'s> {
    bytes: &'s [u8],
    shown: usize,
    every: usize,
    calls: usize,
}

/// Counts a call, and whether it is interrupted.
fn is_interrupted(calls: &mut usize, every: usize) -> bool {
    *calls = calls.saturating_add(1);
    *calls % every.max(1) == 0
}

impl Read for Halting<'_> {
    fn read(&mut self, bytes: &mut [u8]) -> io::Result<usize> {
        if is_interrupted(&mut self.calls, self.every) {
            return Err(ErrorKind::Interrupted.into());
        }
        let most = self.shown.min(bytes.len());
        self.bytes.read(&mut bytes[..most])
    }
}

impl BufRead for Halting<'_> {
    fn fill_buf(&mut self) -> io::Result<&[u8]> {
        if is_interrupted(&mut self.calls, self.every) {
            return Err(ErrorKind::Interrupted.into());
        }
        Ok(&self.bytes[..self.bytes.len().min(self.shown)])
    }

    fn consume(&mut self, amount: usize) {
        let at = amount.min(self.bytes.len());
        self.bytes = &self.bytes[at..];
    }
}

/// Whether two hundred numbers of three bytes are read through a window, and the 9 after them is left.
fn is_read_whole(alloc: Global, shown: usize, every: usize) -> bool {
    let mut bytes = [9u8; 601];
    let written = encode_into_slice([300u16; 200], &mut bytes, config::standard());
    let mut stream = Halting {
        bytes: &bytes,
        shown,
        every,
        calls: 0,
    };
    let read: Result<[u16; 200], DecodeError> = decode_from_buf_read(
        alloc,
        &mut stream,
        config::standard(),
    );
    matches!(written, Ok(600))
        && matches!(read, Ok(numbers) if numbers == [300; 200])
        && stream.bytes == [9].as_slice()
}

/// A signal is no end of the stream, wherever in a window it comes.
#[test]
fn reads_on_after_an_interruption(rt: HostRuntime) {
    let alloc = rt.alloc();
    for shown in [1, 2, 3, 100, 512, 601] {
        for every in [2, 3, 5, 7] {
            assert!(rt; is_read_whole(alloc, shown, every), "{shown} {every}");
        }
    }
}

/// How many bytes are written one by one to a vector without room, and its capacity then: eight at first, and then
/// twice what it was.
static GROWTH: [(usize, usize); 4] = [(1, 8), (8, 8), (9, 16), (1_000, 1_024)];

/// The capacity of a vector to which so many bytes were written.
fn capacity_after(alloc: Global, count: usize) -> Option<usize> {
    let mut writer = VecWriter::with_capacity(alloc, 0).ok()?;
    for _ in 0..count {
        writer.write(&[7]).ok()?;
    }
    Some(writer.collect().capacity())
}

#[test]
fn doubles_a_vector_that_grows(rt: HostRuntime) {
    let alloc = rt.alloc();
    for (count, capacity) in GROWTH {
        let taken = capacity_after(alloc, count).or_else(|| capacity_after(alloc, count));
        assert!(rt; taken == Some(capacity), "{count}");
    }
}

/// Whether a text of 70,001 bytes comes back through a vector, and its length of 70,006 with the prefix is told.
fn keeps_a_long_text(alloc: Global) -> Option<bool> {
    let text = String::from_utf8(word_of(alloc, &[], 70_000).ok()?).ok()?;
    let length = encoded_length(&text, config::standard());
    let trip = round_trip_by_vec(alloc, &text, config::standard()).ok()?;
    let (read, taken) = trip.read.ok()?;
    let is_read = read == text && taken == 70_006 && trip.bytes.len() == 70_006;
    Some(is_read && matches!(length, Ok(70_006)))
}

#[test]
fn refuses_no_value_for_its_length(rt: HostRuntime) {
    let alloc = rt.alloc();
    assert!(rt; keeps_a_long_text(alloc).or_else(|| keeps_a_long_text(alloc)) == Some(true));
}

/// How long it takes to refuse a list of 2^24 units where a thousand values are allowed, if it is refused.
fn time_of_refusal(rt: &HostRuntime, shape: &Shape) -> Option<Duration> {
    let input = [252, 0, 0, 0, 1];
    let start = Instant::now(rt).ok()?;
    let refused = decode_shaped_within(rt.alloc(), shape, &input, config::standard(), 1_000);
    let taken = start.elapsed(rt).ok()?;
    let Err(DecodeWithinError::TooManyValues { values, most }) = refused else {
        return None;
    };
    (values == 16_777_217 && most == 1_000).then_some(taken)
}

/// Five bytes that name 2^24 values are refused before one of them is made: a half gibibyte takes a hundredth of a
/// second and more to fill, and counting a few microseconds. One quick try of ten is enough on a machine that has much
/// else to do.
#[test]
fn counts_values_before_it_makes_them(rt: HostRuntime) {
    let alloc = rt.alloc();
    let Some(shape) = <Vec<()>>::shape(alloc).or_else(|| <Vec<()>>::shape(alloc)) else {
        assert!(rt; false);
        return;
    };
    let is_quick = (0..10).any(|_| {
        matches!(time_of_refusal(&rt, &shape), Some(taken) if taken < Duration::from_millis(10))
    });
    assert!(rt; is_quick);
}
