//! Readers that own a stream or hold a buffer before it: how often they ask it, how they fail, and what a fault leaves.

use crate::pieces::{Failing, KINDS, Share, is_all_a, stream_over, word_of};
use bincode::de::{Decode, IoReader};
use bincode::error::DecodeError;
use bincode::{config, decode_from_reader, decode_from_std_read, decode_next_from_std_read};
use std::alloc::Global;
use std::io;
use std::io::{BufReader, ErrorKind};
use test_helpers::checks::either;

/// The word of `count` letters a, and another byte after it.
fn word(alloc: Global, length: &[u8], count: usize) -> Option<Vec<u8>> {
    either(word_of(alloc, length, count), word_of(alloc, length, count))
}

/// Whether a text of as many letters was read.
fn is_text(outcome: Result<String, DecodeError>, count: usize) -> bool {
    match outcome {
        Ok(text) => is_all_a(text.as_bytes(), count),
        Err(_) => false,
    }
}

/// How many calls it takes to read a text with a reader that owns its stream, which gives halves.
fn owned_calls(alloc: Global, word: &[u8], count: usize) -> Option<usize> {
    let mut stream = stream_over(word, Share::Half, 0);
    let mut reader = IoReader::new(&mut stream);
    let outcome = decode_from_reader(alloc, &mut reader, config::standard());
    drop(reader);
    if is_text(outcome, count) {
        Some(stream.calls)
    } else {
        None
    }
}

/// How many calls it takes to read it through a buffer of 64 bytes.
fn buffered_calls(alloc: Global, word: &[u8], count: usize) -> Option<usize> {
    let stream = stream_over(word, Share::All, 0);
    let mut buffered = BufReader::with_capacity(alloc, 64, stream).ok()?;
    let outcome = decode_from_reader(alloc, &mut buffered, config::standard());
    if is_text(outcome, count) {
        Some(buffered.get_ref().calls)
    } else {
        None
    }
}

/// A length has a piece of one byte and one of two, and the text is one piece. Of halves these are 1, 2 and 10. A
/// buffer is filled once, and what it does not hold is read past it. Where memory is refused it is read once more.
#[test]
fn asks_a_stream_once_for_a_piece_by_each_reader(rt: HostRuntime) {
    let alloc = rt.alloc();
    let Some(text) = word(alloc, &[251, 232, 3], 1_000) else {
        assert!(rt; false);
        return;
    };
    assert!(rt;
        (owned_calls(alloc, &text, 1_000) == Some(13)
            || owned_calls(alloc, &text, 1_000) == Some(13))
            && (buffered_calls(alloc, &text, 1_000) == Some(2)
                || buffered_calls(alloc, &text, 1_000) == Some(2))
    );
}

/// A buffer before a stream that fails by this kind at once.
fn failing_after(alloc: Global, kind: ErrorKind) -> io::Result<BufReader<Failing>> {
    let stream = Failing {
        kind,
        good: 0,
        calls: 0,
    };
    BufReader::with_capacity(alloc, 8, stream)
}

/// Whether the error has this kind, and says that a byte is missing.
fn tells<T: Drop>(outcome: Result<T, DecodeError>, kind: ErrorKind) -> bool {
    match outcome {
        Err(DecodeError::Io { inner, additional }) => inner.kind() == kind && additional == 1,
        _ => false,
    }
}

/// Whether a buffer tells the kind of a failure at once.
fn tells_by_reading(alloc: Global, kind: ErrorKind) -> bool {
    let Ok(mut buffered) = failing_after(alloc, kind) else {
        return false;
    };
    let read: Result<u32, DecodeError> = decode_from_reader(
        alloc,
        &mut buffered,
        config::standard(),
    );
    tells(read, kind) && buffered.get_ref().calls == 1
}

/// Whether the look for the next value does so.
fn tells_by_looking(alloc: Global, kind: ErrorKind) -> bool {
    let Ok(mut buffered) = failing_after(alloc, kind) else {
        return false;
    };
    let next: Result<Option<u32>, DecodeError> = decode_next_from_std_read(
        alloc,
        &mut buffered,
        config::standard(),
    );
    tells(next, kind) && buffered.get_ref().calls == 1
}

/// Where memory is refused it is asked once more.
#[test]
fn keeps_the_kind_of_a_failure_before_a_buffer(rt: HostRuntime) {
    let alloc = rt.alloc();
    for kind in KINDS {
        assert!(rt;
            (tells_by_reading(alloc, kind) || tells_by_reading(alloc, kind))
                && (tells_by_looking(alloc, kind) || tells_by_looking(alloc, kind))
        );
    }
}

/// Whether the look for the next value finds 300 in a stream that is interrupted five times before each call.
fn looks_again(alloc: Global) -> bool {
    let stream = stream_over([251u8, 44, 1].as_slice(), Share::All, 5);
    let Ok(mut buffered) = BufReader::with_capacity(alloc, 8, stream) else {
        return false;
    };
    let next: Result<Option<u32>, DecodeError> = decode_next_from_std_read(
        alloc,
        &mut buffered,
        config::standard(),
    );
    matches!(next, Ok(Some(300))) && buffered.get_ref().calls == 6
}

/// Where memory is refused it is asked once more.
#[test]
fn looks_again_after_interruptions(rt: HostRuntime) {
    assert!(rt; looks_again(rt.alloc()) || looks_again(rt.alloc()));
}

/// How many bytes of a stream are left after a fault.
fn left_of_stream<T: Decode<()>>(alloc: Global, input: &[u8]) -> Option<usize> {
    let mut stream = input;
    let outcome: Result<T, _> = decode_from_std_read(alloc, &mut stream, config::standard());
    match outcome {
        Ok(_) => None,
        Err(_) => Some(stream.len()),
    }
}

/// How many are left of a stream, and of one with a buffer of four bytes.
fn left_after<T: Decode<()>>(alloc: Global, input: &[u8]) -> Option<usize> {
    let mut buffered = BufReader::with_capacity(alloc, 4, input).ok()?;
    let outcome: Result<T, _> = decode_from_reader(alloc, &mut buffered, config::standard());
    match outcome {
        Ok(_) => None,
        Err(_) => Some(
            buffered
                .buffer()
                .len()
                .saturating_add(buffered.get_ref().len()),
        ),
    }
}

/// Whether three bytes are left after a fault of both. Where memory is refused they are read once more.
pub fn leaves_three<T: Decode<()>>(alloc: Global, input: &[u8]) -> bool {
    (left_of_stream::<T>(alloc, input) == Some(3) || left_of_stream::<T>(alloc, input) == Some(3))
        && (left_after::<T>(alloc, input) == Some(3) || left_after::<T>(alloc, input) == Some(3))
}
