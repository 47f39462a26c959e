//! Borrowed writers, and writers that count: the length of a number is announced once, through each reference.

use bincode::enc::Encode;
use bincode::enc::write::{SizeWriter, VecWriter};
use bincode::error::EncodeError;
use bincode::{config, encode_into_writer, encode_to_vec};
use bincode_io::room_counter::RoomCounter;
use std::alloc::Global;
use test_helpers::checks::either;

/// What a writer without room holds of the longest number, written through a reference to it.
fn held_by_lent(alloc: Global) -> Result<Vec<u8>, EncodeError> {
    let mut writer = VecWriter::with_capacity(alloc, 0)?;
    encode_into_writer(u128::MAX, &mut &mut writer, config::standard())?;
    Ok(writer.collect())
}

/// The number has a tag and 16 bytes, for which room is made by the tag: a writer that grew by the tag alone would have
/// room for 8.
#[test]
fn makes_room_through_a_reference(rt: HostRuntime) {
    let alloc = rt.alloc();
    let Some(held) = either(held_by_lent(alloc), held_by_lent(alloc)) else {
        assert!(rt; false);
        return;
    };
    let mut word = [255u8; 17];
    word[0] = 254;
    assert!(rt; held.as_slice() == word.as_slice());
}

/// What each counter counts of a value, through a reference: the one for lengths and the one for room.
fn counted<T: Encode>(value: &T) -> Option<(usize, usize)> {
    let mut length = SizeWriter::default();
    let mut room = RoomCounter::default();
    encode_into_writer(value, &mut &mut length, config::standard()).ok()?;
    encode_into_writer(value, &mut &mut room, config::standard()).ok()?;
    Some((length.bytes_written, room.bytes_written))
}

#[test]
fn counts_a_number_once(rt: HostRuntime) {
    assert!(rt; counted(&251u16) == Some((3, 3)) && counted(&(1u128 << 64)) == Some((17, 17)));
}

/// How much room the vector of a pair has.
fn room_of_pair(alloc: Global) -> Option<usize> {
    let pair = (251u16, "ab");
    let bytes = either(
        encode_to_vec(alloc, pair, config::standard()),
        encode_to_vec(alloc, pair, config::standard()),
    )?;
    Some(bytes.capacity())
}

/// Room is made once, for what was counted.
#[test]
fn makes_room_for_what_was_counted(rt: HostRuntime) {
    assert!(rt; room_of_pair(rt.alloc()) == Some(3 + 3));
}
