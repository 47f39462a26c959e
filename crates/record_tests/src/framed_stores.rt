//! Stores of numbers in frames: whole, cut, damaged, and where a write fails. The checks are Python's.

use crate::stores::{Full, Trickle};
use bincode::config;
use bincode::error::DecodeError;
use framed_store::appending::{AppendError, append};
use framed_store::ending::Ending;
use framed_store::listing::{Listing, Record, list};
use framed_store::records::{Content, Next};
use framed_store::searching::find_frame;
use framed_store::stepping::step_over;
use framed_store::streams::{ReadError, next_from_stream, survey_stream};
use framed_store::surveying::{Survey, survey_frames};
use frames::around;
use std::alloc::{AllocError, Global};

/// The frames of 7, of 300 and of 7 again.
static STORE: [u8; 29] = [
    1, 0, 0, 0, 7, 114, 125, 169, 169, 3, 0, 0, 0, 251, 44, 1, 226, 82, 158, 82, 1, 0, 0, 0, 7,
    114, 125, 169, 169,
];

/// The same with a bit of 300 changed.
static DAMAGED: [u8; 29] = [
    1, 0, 0, 0, 7, 114, 125, 169, 169, 3, 0, 0, 0, 251, 45, 1, 226, 82, 158, 82, 1, 0, 0, 0, 7,
    114, 125, 169, 169,
];

/// The offset and the size of each frame, and its number.
const RECORDS: [(usize, usize, u16); 3] = [(0, 9, 7), (9, 11, 300), (20, 9, 7)];

/// The greatest length of an encoding in these stores.
const MOST: u32 = 1000;

/// What these bytes are listed as.
fn listed(alloc: Global, bytes: &[u8]) -> Result<Listing<u16>, AllocError> {
    list(alloc, bytes, config::standard(), MOST)
}

/// Whether a record is this number, at this offset and of this size.
fn is_number(record: &Record<u16>, (offset, size, number): (usize, usize, u16)) -> bool {
    record.offset == offset
        && record.size == size
        && matches!(&record.content, Content::Value(value) if *value == number)
}

/// Whether a record is a damaged frame there.
fn is_damaged(record: &Record<u16>, offset: usize, size: usize) -> bool {
    record.offset == offset && record.size == size && matches!(&record.content, Content::Damaged)
}

/// Whether these are the first of the numbers.
fn are_first(records: &[Record<u16>]) -> bool {
    for (record, wanted) in records.iter().zip(&RECORDS) {
        if !is_number(record, *wanted) {
            return false;
        }
    }
    records.len() <= 3
}

/// Whether a frame of this size is appended for a number.
fn appends(alloc: Global, store: &mut Vec<u8>, number: u16, size: usize) -> bool {
    matches!(append(alloc, store, &number, config::standard(), MOST), Ok(added) if added == size)
}

/// Whether 300 is too long for a store of words of two bytes.
fn is_too_long(alloc: Global, store: &mut Vec<u8>) -> bool {
    matches!(
        append(alloc, store, &300u16, config::standard(), 2),
        Err(AppendError::TooLong { length: 3, most: 2 })
    )
}

#[test]
fn appends_and_lists(rt: HostRuntime) {
    let alloc = rt.alloc();
    let mut store = Vec::new(alloc);
    assert!(rt;
        appends(alloc, &mut store, 7, 9)
            && appends(alloc, &mut store, 300, 11)
            && appends(alloc, &mut store, 7, 9)
            && is_too_long(alloc, &mut store)
            && store.as_slice() == STORE.as_slice()
    );
}

/// Whether a list of so many sevens is appended as a frame of these bytes, the sevens and this check.
fn frames_sevens(alloc: Global, count: usize, front: [u8; 5], check: [u8; 4]) -> bool {
    let Ok(sevens) = vec![in alloc; 7u8; count] else {
        return false;
    };
    let mut store = Vec::new(alloc);
    let appended = append(alloc, &mut store, &sevens, config::standard(), MOST);
    appended.is_ok()
        && store.len() == count.saturating_add(9)
        && store.starts_with(front.as_slice())
        && store.get(5..count.saturating_add(5)) == Some(sevens.as_slice())
        && store.ends_with(check.as_slice())
}

/// The longest encoding that is framed without memory, and one of a byte more. The checks are Python's.
#[test]
fn frames_short_and_long_values(rt: HostRuntime) {
    let alloc = rt.alloc();
    assert!(rt;
        frames_sevens(alloc, 119, [120, 0, 0, 0, 119], [225, 99, 237, 167])
            && frames_sevens(alloc, 120, [121, 0, 0, 0, 120], [34, 196, 59, 52])
    );
}

/// Whether the first of the numbers are listed, so many, and then this end.
fn lists(alloc: Global, bytes: &[u8], count: usize, ending: Ending) -> bool {
    match listed(alloc, bytes) {
        Ok(listing) => {
            listing.records.len() == count
                && are_first(&listing.records)
                && listing.ending == ending
        }
        Err(_) => false,
    }
}

/// Whether of the first bytes those frames are listed and counted that stand whole, and it is told where the others
/// are cut.
fn tells_front(alloc: Global, length: usize) -> bool {
    let Some(front) = STORE.get(..length) else {
        return false;
    };
    let (whole, end) = match length {
        0..9 => (0, 0),
        9..20 => (1, 9),
        20..29 => (2, 20),
        _ => (3, 29),
    };
    let ending = if length == end {
        Ending::Whole
    } else {
        Ending::Torn { offset: end }
    };
    let counted = Survey {
        whole,
        damaged: 0,
        length: end,
        ending,
    };
    lists(alloc, front, whole, ending)
        && survey_frames(front, MOST) == counted
        && tells_stream(alloc, front, counted)
}

/// Whether the frames of a stream are counted and stepped over so, one byte a call.
fn tells_stream(alloc: Global, bytes: &[u8], counted: Survey) -> bool {
    let mut buffer = Vec::new(alloc);
    let surveyed = survey_stream(&mut Trickle::new(bytes), &mut buffer, MOST);
    let stepped = step_over(&mut Trickle::new(bytes), MOST);
    matches!(surveyed, Ok(found) if found == counted)
        && matches!(stepped, Ok((length, ending))
            if length == counted.length && ending == counted.ending)
}

#[test]
fn tells_each_front(rt: HostRuntime) {
    for length in 0..=STORE.len() {
        assert!(rt; tells_front(rt.alloc(), length), "{length}");
    }
}

/// The next record of a stream.
fn next_of(
    alloc: Global,
    stream: &mut Trickle<'_>,
    buffer: &mut Vec<u8>,
) -> Result<Next<u16>, ReadError> {
    next_from_stream(alloc, stream, buffer, config::standard(), MOST)
}

/// Whether this number is the next of a stream, in a frame of this size.
fn is_next(
    alloc: Global,
    stream: &mut Trickle<'_>,
    buffer: &mut Vec<u8>,
    (size, number): (usize, u16),
) -> bool {
    match next_of(alloc, stream, buffer) {
        Ok(
            Next::Record {
                size: found,
                content: Content::Value(value),
            },
        ) => found == size && value == number,
        _ => false,
    }
}

#[test]
fn reads_records_of_a_stream(rt: HostRuntime) {
    let alloc = rt.alloc();
    let mut buffer = Vec::new(alloc);
    let mut stream = Trickle::new(&STORE[..25]);
    assert!(rt;
        is_next(alloc, &mut stream, &mut buffer, (9, 7))
            && is_next(alloc, &mut stream, &mut buffer, (11, 300))
            && matches!(next_of(alloc, &mut stream, &mut buffer), Ok(Next::Torn))
            && matches!(next_of(alloc, &mut stream, &mut buffer), Ok(Next::End))
    );
}

#[test]
fn finds_whole_frames(rt: HostRuntime) {
    assert!(rt;
        find_frame(&STORE, MOST) == Some(0)
            && find_frame(&STORE[1..], MOST) == Some(8)
            && find_frame(&DAMAGED, MOST) == Some(0)
            && find_frame(&DAMAGED[1..], MOST) == Some(19)
            && find_frame(&STORE[10..19], MOST).is_none()
    );
}

/// The length of the second frame after a change of this bit, if it is one of the length.
fn changed_length(place: usize, bit: u8) -> Option<u32> {
    let mut field = [3, 0, 0, 0];
    if place < 9 || place >= 13 {
        return None;
    }
    field[place - 9] = field[place - 9] ^ bit;
    Some(u32::from_le_bytes(field))
}

/// Whether a change of the second frame is told there; of its length, if that is given. One above the 12 bytes that are
/// there is torn.
fn tells_change(listing: &Listing<u16>, length: Option<u32>) -> bool {
    let ending = listing.ending;
    let [first, others @ ..] = listing.records.as_slice() else {
        return false;
    };
    let is_told = match (length, others) {
        (None, [second, third]) => {
            is_damaged(second, 9, 11) && is_number(third, RECORDS[2]) && ending == Ending::Whole
        }
        (Some(length), []) if length > MOST => ending == Ending::TooLong { offset: 9, length },
        (Some(length), []) => length > 12 && ending == Ending::Torn { offset: 9 },
        (Some(length), [second, ..]) => length <= 12 && is_damaged(second, 9, 8 + length as usize),
        _ => false,
    };
    is_told && is_number(first, RECORDS[0])
}

/// Whether a changed bit of the second frame is told.
fn tells_bit(alloc: Global, place: usize, bit: u8) -> bool {
    let mut bytes = STORE;
    if place >= bytes.len() {
        return false;
    }
    bytes[place] = bytes[place] ^ bit;
    match listed(alloc, &bytes) {
        Ok(listing) => tells_change(&listing, changed_length(place, bit)),
        Err(_) => false,
    }
}

#[test]
fn tells_each_changed_bit(rt: HostRuntime) {
    for place in 9..20 {
        for bit in [1, 2, 4, 8, 16, 32, 64, 128] {
            assert!(rt; tells_bit(rt.alloc(), place, bit), "{place}, {bit}");
        }
    }
}

/// A frame of this word, and that of 7.
fn before_seven(alloc: Global, word: &[u8]) -> Result<Vec<u8>, AllocError> {
    let mut store = Vec::new(alloc);
    if let Some(around) = around(word) {
        store.extend_from_slice(&around.0)?;
        store.extend_from_slice(word)?;
        store.extend_from_slice(&around.1)?;
    }
    store.extend_from_slice(&STORE[..9])?;
    Ok(store)
}

/// What is listed of the frame of a word, and of 7 after it.
fn listed_before_seven(alloc: Global, word: &[u8]) -> Result<Listing<u16>, AllocError> {
    match before_seven(alloc, word) {
        Ok(store) => listed(alloc, &store),
        Err(error) => Err(error),
    }
}

/// Whether the first of two frames has this word, which was cut, and 7 follows.
fn tells_cut_word(alloc: Global, word: &[u8]) -> bool {
    let Ok(listing) = listed_before_seven(alloc, word) else {
        return false;
    };
    let [first, second] = listing.records.as_slice() else {
        return false;
    };
    (first.offset, first.size) == (0, 10)
        && matches!(
            &first.content,
            Content::Undecodable(DecodeError::UnexpectedEnd { .. })
        )
        && is_number(second, (10, 9, 7))
}

/// Whether it has this word, which has a byte after its value, and 7 follows.
fn tells_longer_word(alloc: Global, word: &[u8]) -> bool {
    let Ok(listing) = listed_before_seven(alloc, word) else {
        return false;
    };
    let [first, second] = listing.records.as_slice() else {
        return false;
    };
    (first.offset, first.size) == (0, 10)
        && matches!(&first.content, Content::Longer { taken: 1 })
        && is_number(second, (10, 9, 7))
}

/// The store, and 20 zeros after it.
fn before_zeros() -> [u8; 49] {
    let mut bytes = [0; 49];
    for place in 0..29 {
        bytes[place] = STORE[place];
    }
    bytes
}

/// Whether zeros after whole frames are told as damaged, and the last four of them as torn.
fn tells_zeros(alloc: Global) -> bool {
    let Ok(listing) = listed(alloc, &before_zeros()) else {
        return false;
    };
    let [_, _, _, fourth, fifth] = listing.records.as_slice() else {
        return false;
    };
    is_damaged(fourth, 29, 8)
        && is_damaged(fifth, 37, 8)
        && listing.ending == Ending::Torn { offset: 45 }
}

#[test]
fn tells_frames_that_hold_no_value(rt: HostRuntime) {
    let alloc = rt.alloc();
    assert!(rt;
        tells_cut_word(alloc, &[251, 44]) && tells_longer_word(alloc, &[7, 9]) && tells_zeros(alloc)
    );
}

/// A stream that holds the first frame, with this room for more.
fn full_after_first(alloc: Global, room: usize) -> Result<Full, AllocError> {
    let held = STORE[..9].to_vec(alloc)?;
    Ok(Full { held, room })
}

/// Whether a stream with this room for the second frame holds that much of it, and the failure is told.
fn leaves_front(alloc: Global, room: usize) -> bool {
    let Ok(mut store) = full_after_first(alloc, room) else {
        return false;
    };
    let is_told = match append(alloc, &mut store, &300u16, config::standard(), MOST) {
        Ok(size) => room == 11 && size == 11,
        Err(AppendError::Write(_)) => room < 11,
        Err(_) => false,
    };
    is_told && STORE.starts_with(&store.held) && store.held.len() == room.saturating_add(9)
}

#[test]
fn leaves_a_front_where_a_write_fails(rt: HostRuntime) {
    for room in 0..=11 {
        assert!(rt; leaves_front(rt.alloc(), room), "{room}");
    }
}
