//! Frames: the published checks, worked frames, and bytes that are no frame.

use crate::stores::all_true;
use crc32c::checksum;
use frames::{Frame, OVERHEAD, around, read_frame};

/// The words of the worked frames of docs/STORES.md, and the frames.
static WORKED: [(&[u8], &[u8]); 3] = [
    (&[], &[0, 0, 0, 0, 199, 75, 103, 72]),
    (&[7], &[1, 0, 0, 0, 7, 114, 125, 169, 169]),
    (&[251, 44, 1, 2, 97, 98, 2, 5, 6], &RECORD),
];

/// The frame of the third of them.
const RECORD: [u8; 17] = [
    9, 0, 0, 0, 251, 44, 1, 2, 97, 98, 2, 5, 6, 50, 165, 221, 120,
];

/// Bytes that count up from 0.
fn counted_up() -> [u8; 32] {
    let mut bytes = [0; 32];
    for i in 0..32 {
        bytes[i] = i as u8;
    }
    bytes
}

/// Bytes that count down to 0.
fn counted_down() -> [u8; 32] {
    let mut bytes = [0; 32];
    for i in 0..32 {
        bytes[i] = 31 - i as u8;
    }
    bytes
}

/// RFC 3720, B.4, and the message that catalogues of such checks go by.
#[test]
fn makes_the_published_checks(rt: HostRuntime) {
    all_true(
        &rt,
        &[
            checksum(&[0; 32]) == 0x8A91_36AA,
            checksum(&[255; 32]) == 0x62A8_AB43,
            checksum(&counted_up()) == 0x46DD_794E,
            checksum(&counted_down()) == 0x113F_DB5C,
            checksum(b"123456789") == 0xE306_9283,
        ],
    );
}

/// Whether a word has this frame, and is read from it.
fn is_framed(word: &[u8], framed: &[u8]) -> bool {
    let is_whole =
        matches!(read_frame(framed, 16), Frame::Whole(read, size) if read == word && size == framed.len());
    let Some(around) = around(word) else {
        return false;
    };
    let before = around.0;
    let after = around.1;
    is_whole && framed.starts_with(&before) && framed.ends_with(&after)
}

#[test]
fn frames_words(rt: HostRuntime) {
    for (word, framed) in &WORKED {
        assert!(rt; is_framed(word, framed), "{word:?}");
    }
}

/// The frame of the byte 7, and other bytes after it.
#[test]
fn reads_a_frame_before_other_bytes(rt: HostRuntime) {
    let bytes = [1, 0, 0, 0, 7, 114, 125, 169, 169, 255, 0];
    assert!(rt; matches!(read_frame(&bytes, 16), Frame::Whole(&[7], 9)));
}

/// Whether one changed bit of a frame is told.
fn tells_bit(place: usize, bit: u8) -> bool {
    let mut bytes = RECORD;
    if place >= bytes.len() {
        return false;
    }
    bytes[place] = bytes[place] ^ bit;
    !matches!(read_frame(&bytes, 16), Frame::Whole(..) | Frame::End)
}

#[test]
fn tells_each_changed_bit(rt: HostRuntime) {
    for place in 0..RECORD.len() {
        for bit in [1, 2, 4, 8, 16, 32, 64, 128] {
            assert!(rt; tells_bit(place, bit), "{place}, {bit}");
        }
    }
}

/// How a front of this length is read.
fn reads_front(length: usize) -> bool {
    match RECORD.get(..length) {
        Some(front) if front.is_empty() => matches!(read_frame(front, 16), Frame::End),
        Some(front) if front.len() == RECORD.len() => {
            matches!(read_frame(front, 16), Frame::Whole(_, 17))
        }
        Some(front) => matches!(read_frame(front, 16), Frame::Torn),
        None => false,
    }
}

#[test]
fn tells_each_front(rt: HostRuntime) {
    for length in 0..=RECORD.len() {
        assert!(rt; reads_front(length), "{length}");
    }
}

#[test]
fn tells_what_is_no_frame(rt: HostRuntime) {
    all_true(
        &rt,
        &[
            matches!(read_frame(&[0; 9], 16), Frame::Damaged(OVERHEAD)),
            matches!(read_frame(&[255; 64], 16), Frame::TooLong(u32::MAX)),
            matches!(read_frame(&RECORD, 8), Frame::TooLong(9)),
            matches!(read_frame(&RECORD, 9), Frame::Whole(_, 17)),
        ],
    );
}
