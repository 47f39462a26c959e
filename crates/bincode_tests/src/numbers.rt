//! Numbers, `bool` and characters: types that no test vector writes and reads, of the `NonZero` ones some; fixed
//! numbers whose first byte would be a tag; and numbers that a buffer shows together.

use crate::asserts::{all_true, rows_hold};
use crate::encodings::is_encoded;
use bincode::config::{self, Config};
use bincode::de::Decode;
use bincode::de::read::Reader;
use bincode::enc::Encode;
use bincode::error::DecodeError;
use bincode::{decode_from_reader, decode_from_slice};
use std::alloc::Global;
use std::io::BufReader;
use std::num::{NonZeroI8, NonZeroI32, NonZeroI128, NonZeroU64, NonZeroUsize};
use test_helpers::checks::{decoded, either, fault_of, keeps};

#[test]
fn keeps_numbers(rt: HostRuntime) {
    let alloc = rt.alloc();
    all_true(
        &rt,
        &[
            keeps::<usize>(alloc, &[251, 251, 0]),
            keeps::<isize>(alloc, &[3]),
            keeps::<bool>(alloc, &[1]),
            keeps::<NonZeroU64>(alloc, &[251, 57, 48]),
            keeps::<NonZeroUsize>(alloc, &[251, 251, 0]),
            keeps::<NonZeroI8>(alloc, &[123]),
            keeps::<NonZeroI32>(alloc, &[252, 128, 56, 1, 0]),
            keeps::<NonZeroI128>(alloc, &[251, 114, 96]),
        ],
    );
}

/// 10 in the last of eight and of sixteen bytes, after the tag of so many.
static EIGHT: [u8; 9] = [253, 0, 0, 0, 0, 0, 0, 0, 10];

static SIXTEEN: [u8; 17] = [254, 0, 0, 0, 0, 0, 0, 0, 0, 0, 0, 0, 0, 0, 0, 0, 10];

/// What it is where the lowest byte comes first.
const TEN_AT_56: u64 = 720_575_940_379_279_360;

const TEN_AT_120: u128 = 13_292_279_957_849_158_729_038_070_602_803_445_760;

/// Whether all of these bytes are decoded as this number.
fn reads_number<T: Decode<()> + PartialEq, C: Config>(
    alloc: Global,
    config: C,
    input: &[u8],
    number: &T,
) -> bool {
    let read: Result<(T, usize), DecodeError> = decode_from_slice(alloc, input, config);
    match read {
        Ok((value, taken)) => taken == input.len() && value == *number,
        Err(_) => false,
    }
}

/// Whether so many bytes of a `u16` are missing.
fn misses(alloc: Global, input: &[u8], missing: usize) -> bool {
    matches!(
        fault_of::<u16>(alloc, input),
        Some(DecodeError::UnexpectedEnd { additional }) if additional == missing
    )
}

/// Whether four bytes are decoded after a fixed length.
fn reads_four_bytes(alloc: Global) -> bool {
    let input = [4, 0, 0, 0, 0, 0, 0, 0, 1, 2, 3, 4];
    match decoded::<Vec<u8>, _>(alloc, &input, config::legacy()) {
        Ok((bytes, 12)) => bytes.as_slice() == [1, 2, 3, 4].as_slice(),
        _ => false,
    }
}

#[test]
fn writes_signed_numbers(rt: HostRuntime) {
    let little = config::standard();
    let three = [253, 0, 188, 160, 101, 1, 0, 0, 0];
    rows_hold(
        &rt,
        &[
            (
                "forty thousand",
                is_encoded(&40_000i32, &[252, 128, 56, 1, 0], little)
                    && is_encoded(&40_000i32, &[252, 0, 1, 56, 128], little.with_big_endian()),
            ),
            (
                "three billion",
                is_encoded(&3_000_000_000i64, &three, little),
            ),
            (
                "the greatest i16",
                is_encoded(&i16::MAX, &[251, 254, 255], little),
            ),
        ],
    );
}

#[test]
fn reads_unsigned_numbers(rt: HostRuntime) {
    let alloc = rt.alloc();
    let little = config::standard();
    rows_hold(
        &rt,
        &[
            (
                "ten in eight bytes",
                reads_number(alloc, little, &EIGHT, &TEN_AT_56)
                    && reads_number(alloc, little.with_big_endian(), &EIGHT, &10u64),
            ),
            (
                "ten in sixteen bytes",
                reads_number(alloc, little, &SIXTEEN, &TEN_AT_120),
            ),
            ("a tag alone", misses(alloc, &[251], 2)),
            ("a tag and one byte", misses(alloc, &[251, 0], 1)),
            ("four bytes, legacy", reads_four_bytes(alloc)),
        ],
    );
}

/// Whether these bytes are decoded as a number, and the number encoded as them.
fn keeps_number<T: Encode + Decode<()> + PartialEq, C: Config>(
    alloc: Global,
    config: C,
    number: &T,
    encoding: &[u8],
) -> bool {
    reads_number(alloc, config, encoding, number) && is_encoded(number, encoding, config)
}

#[test]
fn keeps_fixed_numbers_that_begin_above_250(rt: HostRuntime) {
    let alloc = rt.alloc();
    let little = config::legacy();
    let big = config::legacy().with_big_endian();
    let eight = [253, 7, 6, 5, 4, 3, 2, 1];
    assert!(rt;
        keeps_number(alloc, little, &0x0102_03FBu32, &[251, 3, 2, 1])
            && keeps_number(alloc, big, &0xFC03_0201u32, &[252, 3, 2, 1])
            && keeps_number(alloc, little, &0x0102_0304_0506_07FDu64, &eight)
            && keeps_number(alloc, big, &0xFD07_0605_0403_0201u64, &eight)
    );
}

/// Whether the character of `count` bytes whose first two are these is refused, and its bytes are told.
fn refuses_second(alloc: Global, first: u8, second: u8, count: usize) -> bool {
    let input = [first, second, 160, 161];
    let mut told = [0u8; 4];
    for place in 0..count.min(4) {
        told[place] = input[place];
    }
    matches!(
        fault_of::<char>(alloc, &input),
        Some(DecodeError::InvalidCharEncoding(bytes)) if bytes == told
    )
}

#[test]
fn refuses_second_bytes_that_continue_nothing(rt: HostRuntime) {
    for (first, count) in [(195, 2), (226, 3), (240, 4)] {
        assert!(rt; refuses_second(rt.alloc(), first, 192, count));
        for second in 0..128u8 {
            assert!(rt; refuses_second(rt.alloc(), first, second, count));
        }
    }
}

/// The words of numbers of 3, 1, 5, 9 and 17 bytes, and of 8, one after the other.
static STREAM: [u8; 36] = [
    251, 44, 1, 7, 252, 112, 17, 1, 0, 253, 0, 0, 0, 0, 0, 1, 0, 0, 254, 0, 0, 0, 0, 0, 0, 0, 0, 1,
    0, 0, 0, 0, 0, 0, 0, 8,
];

/// The numbers.
const NUMBERS: [u128; 6] = [300, 7, 70_000, 1 << 40, 1 << 64, 8];

/// Whether the next numbers of a reader are these.
fn reads_in_turn<R: Reader>(alloc: Global, reader: &mut R, numbers: &[u128]) -> bool {
    for wanted in numbers {
        let read: Result<u128, DecodeError> = decode_from_reader(alloc, reader, config::standard());
        if !matches!(read, Ok(number) if number == *wanted) {
            return false;
        }
    }
    true
}

/// No more is taken of what a buffer shows than the number that is read.
#[test]
fn reads_numbers_that_are_shown_together(rt: HostRuntime) {
    let alloc = rt.alloc();
    let Some(mut reader) = either(
        BufReader::with_capacity(alloc, 64, STREAM.as_slice()),
        BufReader::with_capacity(alloc, 64, STREAM.as_slice()),
    ) else {
        assert!(rt; false);
        return;
    };
    assert!(rt; reads_in_turn(alloc, &mut reader, &NUMBERS));
}
