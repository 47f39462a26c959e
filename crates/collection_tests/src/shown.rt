//! Numbers, however many bytes a reader shows of what is left.

use self::Told::{Ends, Number, Passed, Wide, Zero};
use bincode::config::Endianness::{Big, Little};
use bincode::config::{self, Config, Endianness};
use bincode::de::Decode;
use bincode::decode_from_reader;
use bincode::error::IntegerType::{I16, I32, I128, Isize, Reserved, U16, U32, U64, U128};
use bincode::error::{DecodeError, IntegerType};
use proved_callers::shows::Shows;
use std::alloc::Global;
use std::num::NonZeroU16;

/// The longest window of a number.
const LONGEST: usize = 17;

/// What comes of an input.
#[derive(Clone, Copy)]
enum Told<T> {
    /// A number, and how many bytes it takes.
    Number(T, usize),
    /// A number of the first type was expected, and the tag is one of the second.
    Wide(IntegerType, IntegerType),
    /// So many bytes are missing.
    Ends(usize),
    /// The limit is passed.
    Passed,
    /// A number that is not zero was expected.
    Zero(IntegerType),
}

/// Whether the error is the one that is told.
fn is_fault<T: Copy>(error: &DecodeError, told: Told<T>) -> bool {
    match (error, told) {
        (DecodeError::InvalidIntegerType { expected, found }, Wide(of_type, of_tag)) => {
            *expected == of_type && *found == of_tag
        }
        (DecodeError::UnexpectedEnd { additional }, Ends(missing)) => *additional == missing,
        (DecodeError::LimitExceeded, Passed) => true,
        (DecodeError::NonZeroTypeIsZero { non_zero_type }, Zero(of_type)) => {
            *non_zero_type == of_type
        }
        _ => false,
    }
}

/// Whether what is told came, after so many bytes.
fn is_told<T: PartialEq + Copy>(
    outcome: Result<T, DecodeError>,
    taken: usize,
    told: Told<T>,
) -> bool {
    match outcome {
        Ok(read) => { matches!(told, Number(number, length) if read == number && taken == length) }
        Err(error) => is_fault(&error, told),
    }
}

/// What comes of an input through a reader that shows at most so many bytes, and how many it takes.
fn read_shown<T: Decode<()>, C: Config>(
    alloc: Global,
    input: &[u8],
    config: C,
    most: usize,
) -> (Result<T, DecodeError>, usize) {
    let mut reader = Shows::new(input, most);
    let outcome = decode_from_reader(alloc, &mut reader, config);
    (outcome, input.len().saturating_sub(reader.bytes_left()))
}

/// Whether the same comes of some bytes, with two 9s after them, through each window.
fn is_told_through_each<T: Decode<()> + PartialEq + Copy, C: Config>(
    alloc: Global,
    bytes: &[u8],
    config: C,
    told: Told<T>,
) -> bool {
    let mut room = [9u8; LONGEST + 2];
    let Some(front) = room.get_mut(..bytes.len()) else {
        return false;
    };
    front.copy_from_slice(bytes);
    let Some(input) = room.get(..bytes.len().saturating_add(2)) else {
        return false;
    };
    for most in 0..=LONGEST {
        let (outcome, taken) = read_shown::<T, C>(alloc, input, config, most);
        if !is_told(outcome, taken, told) {
            return false;
        }
    }
    true
}

/// What a number is read of, in which order of bytes, and what comes of it.
type Row<T> = (&'static str, Endianness, &'static [u8], Told<T>);

/// The first row of a type of which something else comes.
fn first_otherwise<T: Decode<()> + PartialEq + Copy>(
    alloc: Global,
    rows: &[Row<T>],
) -> Option<&'static str> {
    let little = config::standard();
    for (label, order, bytes, told) in rows {
        let holds = match *order {
            Little => is_told_through_each(alloc, bytes, little, *told),
            Big => is_told_through_each(alloc, bytes, little.with_big_endian(), *told),
        };
        if !holds {
            return Some(*label);
        }
    }
    None
}

static BYTES: [Row<u8>; 2] = [
    ("251u8", Little, &[251], Number(251, 1)),
    ("0u8", Little, &[0], Number(0, 1)),
];

static U16S: [Row<u16>; 9] = [
    ("5u16", Little, &[5], Number(5, 1)),
    ("12345u16", Little, &[251, 57, 48], Number(12_345, 3)),
    ("2560u16", Little, &[251, 0, 10], Number(2_560, 3)),
    ("10u16, big endian", Big, &[251, 0, 10], Number(10, 3)),
    ("10u16", Little, &[10], Number(10, 1)),
    (
        "a u16 with the tag of 32 bits",
        Little,
        &[252],
        Wide(U16, U32),
    ),
    ("256u16", Little, &[251, 0, 1], Number(256, 3)),
    (
        "a u16 whose tag is followed by 9, 9",
        Little,
        &[251],
        Number(2_313, 3),
    ),
    (
        "a u16 whose last byte is 9",
        Little,
        &[251, 0],
        Number(2_304, 3),
    ),
];

static U32S: [Row<u32>; 9] = [
    ("5u32", Little, &[5], Number(5, 1)),
    ("10u32", Little, &[10], Number(10, 1)),
    ("300u32", Little, &[251, 44, 1], Number(300, 3)),
    (
        "1000000000u32",
        Little,
        &[252, 0, 202, 154, 59],
        Number(1_000_000_000, 5),
    ),
    (
        "1000000300u32",
        Little,
        &[252, 44, 203, 154, 59],
        Number(1_000_000_300, 5),
    ),
    ("250u32", Little, &[250], Number(250, 1)),
    ("251u32", Little, &[251, 251, 0], Number(251, 3)),
    ("65535u32", Little, &[251, 255, 255], Number(65_535, 3)),
    ("65536u32", Little, &[252, 0, 0, 1, 0], Number(65_536, 5)),
];

/// 10 in the last of eight and of sixteen bytes, after the tag of so many.
const EIGHT: [u8; 9] = [253, 0, 0, 0, 0, 0, 0, 0, 10];

const SIXTEEN: [u8; 17] = [254, 0, 0, 0, 0, 0, 0, 0, 0, 0, 0, 0, 0, 0, 0, 0, 10];

static U64S: [Row<u64>; 10] = [
    ("5u64", Little, &[5], Number(5, 1)),
    ("6u64", Little, &[6], Number(6, 1)),
    (
        "100000u64",
        Little,
        &[252, 160, 134, 1, 0],
        Number(100_000, 5),
    ),
    (
        "4294967295u64",
        Little,
        &[252, 255, 255, 255, 255],
        Number(4_294_967_295, 5),
    ),
    (
        "4294967296u64",
        Little,
        &[253, 0, 0, 0, 0, 1, 0, 0, 0],
        Number(4_294_967_296, 9),
    ),
    (
        "the greatest u64",
        Little,
        &[253, 255, 255, 255, 255, 255, 255, 255, 255],
        Number(u64::MAX, 9),
    ),
    (
        "10u64 times 2^56",
        Little,
        &EIGHT,
        Number(720_575_940_379_279_360, 9),
    ),
    ("10u64, big endian", Big, &EIGHT, Number(10, 9)),
    (
        "a u64 with the tag of 128 bits",
        Little,
        &[254, 0, 0, 0, 0, 0, 0, 0, 0],
        Wide(U64, U128),
    ),
    (
        "a u64 of which five bytes are there",
        Little,
        &[253, 0, 0, 0],
        Ends(3),
    ),
];

static U128S: [Row<u128>; 3] = [
    (
        "10u128 times 2^120",
        Little,
        &SIXTEEN,
        Number(13_292_279_957_849_158_729_038_070_602_803_445_760, 17),
    ),
    (
        "the greatest u128",
        Little,
        &[
            254, 255, 255, 255, 255, 255, 255, 255, 255, 255, 255, 255, 255, 255, 255, 255, 255,
        ],
        Number(u128::MAX, 17),
    ),
    (
        "a u128 with the reserved tag",
        Little,
        &[255, 0, 0, 0, 0, 0, 0, 0, 0, 0, 0, 0, 0, 0, 0, 0, 0],
        Wide(U128, Reserved),
    ),
];

static SIGNED_BYTES: [Row<i8>; 1] = [("-1i8", Little, &[255], Number(-1, 1))];

static I16S: [Row<i16>; 5] = [
    ("-1i16", Little, &[1], Number(-1, 1)),
    ("256i16", Little, &[251, 0, 2], Number(256, 3)),
    ("256i16, big endian", Big, &[251, 2, 0], Number(256, 3)),
    (
        "the greatest i16",
        Little,
        &[251, 254, 255],
        Number(i16::MAX, 3),
    ),
    (
        "an i16 with the tag of 32 bits",
        Little,
        &[252],
        Wide(I16, I32),
    ),
];

static I32S: [Row<i32>; 2] = [
    ("40000i32", Little, &[252, 128, 56, 1, 0], Number(40_000, 5)),
    (
        "40000i32, big endian",
        Big,
        &[252, 0, 1, 56, 128],
        Number(40_000, 5),
    ),
];

static I64S: [Row<i64>; 2] = [
    (
        "3000000000i64",
        Little,
        &[253, 0, 188, 160, 101, 1, 0, 0, 0],
        Number(3_000_000_000, 9),
    ),
    (
        "the least i64",
        Little,
        &[253, 255, 255, 255, 255, 255, 255, 255, 255],
        Number(i64::MIN, 9),
    ),
];

static I128S: [Row<i128>; 2] = [
    ("10000i128", Little, &[251, 32, 78], Number(10_000, 3)),
    (
        "11 times 10^18 as an i128",
        Little,
        &[254, 0, 0, 152, 98, 112, 179, 79, 49, 1, 0, 0, 0, 0, 0, 0, 0],
        Number(11_000_000_000_000_000_000, 17),
    ),
];

static ISIZES: [Row<isize>; 1] = [(
    "an isize with the tag of 128 bits",
    Little,
    &[254],
    Wide(Isize, I128),
)];

/// Whether the numbers that have a setting of their own are told alike: two of four bytes, and three under a limit.
fn tells_other_settings(alloc: Global) -> bool {
    let fixed = config::legacy().with_big_endian();
    let standard = config::standard();
    let zero: Told<NonZeroU16> = Zero(U16);
    is_told_through_each(alloc, &[0, 0, 0, 5], fixed, Number(5u32, 4))
        && is_told_through_each(alloc, &[5, 0, 0, 0], config::legacy(), Number(5u32, 4))
        && is_told_through_each(
            alloc,
            &[251, 0, 1],
            standard.with_limit::<2>(),
            Number(256u16, 3),
        )
        && is_told_through_each::<u64, _>(alloc, &[], standard.with_limit::<7>(), Passed)
        && is_told_through_each(alloc, &[], standard.with_limit::<8>(), Number(9u64, 1))
        && is_told_through_each(alloc, &[0], standard, zero)
}

/// Row: each number through each window.
#[test]
fn tells_each_number_alike_through_each_window(rt: HostRuntime) {
    let alloc = rt.alloc();
    assert_eq!(rt; first_otherwise(alloc, &BYTES), None);
    assert_eq!(rt; first_otherwise(alloc, &U16S), None);
    assert_eq!(rt; first_otherwise(alloc, &U32S), None);
    assert_eq!(rt; first_otherwise(alloc, &U64S), None);
    assert_eq!(rt; first_otherwise(alloc, &U128S), None);
    assert_eq!(rt; first_otherwise(alloc, &SIGNED_BYTES), None);
    assert_eq!(rt; first_otherwise(alloc, &I16S), None);
    assert_eq!(rt; first_otherwise(alloc, &I32S), None);
    assert_eq!(rt; first_otherwise(alloc, &I64S), None);
    assert_eq!(rt; first_otherwise(alloc, &I128S), None);
    assert_eq!(rt; first_otherwise(alloc, &ISIZES), None);
    assert!(rt; tells_other_settings(alloc));
}

/// How many bytes are left of 252, 9, 9 by a reader that shows at most so many.
fn left_of_a_refused_tag(alloc: Global, most: usize) -> Option<usize> {
    let mut reader = Shows::new(&[252, 9, 9], most);
    let outcome: Result<u16, DecodeError> = decode_from_reader(
        alloc,
        &mut reader,
        config::standard(),
    );
    match outcome {
        Err(
            DecodeError::InvalidIntegerType {
                expected: U16,
                found: U32,
            },
        ) => Some(reader.bytes_left()),
        _ => None,
    }
}

/// Row: what a refused tag leaves. It is consumed unless it is shown with what might follow it.
#[test]
fn leaves_a_tag_that_is_shown(rt: HostRuntime) {
    let alloc = rt.alloc();
    assert!(rt;
        left_of_a_refused_tag(alloc, 3) == Some(3) && left_of_a_refused_tag(alloc, 0) == Some(2)
    );
}
