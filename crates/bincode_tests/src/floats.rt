//! Floats: their bits by IEEE 754 in each configuration, every NaN as one, limits, cut inputs, and what holds them.

use crate::asserts::rows_hold;
use crate::encodings::is_encoded;
use bincode::config::Config;
use bincode::de::{BorrowDecode, Decode};
use bincode::enc::Encode;
use bincode::{borrow_decode_from_slice, config, decode_from_std_read, encode_into_std_write};
use std::alloc::Global;
use std::borrow::Cow;
use std::cmp::OrderedFloat;
use std::collections::BTreeMap;
use test_helpers::checks::{
    decoded, each_call_keeps, either, ends_at_each_place, is_passed, is_written_as, read_word,
    within,
};

/// Whether each of these floats is encoded as its bits.
fn are_bits_32<C: Config + Copy>(config: C, rows: &[(f32, [u8; 4])]) -> bool {
    for (value, bits) in rows {
        if !is_encoded(value, bits, config) {
            return false;
        }
    }
    true
}

/// Whether each of these floats is encoded as its bits.
fn are_bits_64<C: Config + Copy>(config: C, rows: &[(f64, [u8; 8])]) -> bool {
    for (value, bits) in rows {
        if !is_encoded(value, bits, config) {
            return false;
        }
    }
    true
}

/// Floats and their bits, lowest byte first: the sign, the exponent with its bias, the digits after the leading one.
static LITTLE_32: [(f32, [u8; 4]); 9] = [
    (0.0, [0, 0, 0, 0]),
    (-0.0, [0, 0, 0, 0x80]),
    (1.0, [0, 0, 0x80, 0x3F]),
    (-2.0, [0, 0, 0, 0xC0]),
    (1.5, [0, 0, 0xC0, 0x3F]),
    (f32::MIN_POSITIVE, [0, 0, 0x80, 0]),
    (f32::MAX, [0xFF, 0xFF, 0x7F, 0x7F]),
    (f32::INFINITY, [0, 0, 0x80, 0x7F]),
    (f32::NEG_INFINITY, [0, 0, 0x80, 0xFF]),
];

static LITTLE_64: [(f64, [u8; 8]); 9] = [
    (0.0, [0, 0, 0, 0, 0, 0, 0, 0]),
    (-0.0, [0, 0, 0, 0, 0, 0, 0, 0x80]),
    (1.0, [0, 0, 0, 0, 0, 0, 0xF0, 0x3F]),
    (-2.0, [0, 0, 0, 0, 0, 0, 0, 0xC0]),
    (1.5, [0, 0, 0, 0, 0, 0, 0xF8, 0x3F]),
    (f64::MIN_POSITIVE, [0, 0, 0, 0, 0, 0, 0x10, 0]),
    (f64::MAX, [0xFF, 0xFF, 0xFF, 0xFF, 0xFF, 0xFF, 0xEF, 0x7F]),
    (f64::INFINITY, [0, 0, 0, 0, 0, 0, 0xF0, 0x7F]),
    (f64::NEG_INFINITY, [0, 0, 0, 0, 0, 0, 0xF0, 0xFF]),
];

static BIG_32: [(f32, [u8; 4]); 2] = [(1.5, [0x3F, 0xC0, 0, 0]), (-0.0, [0x80, 0, 0, 0])];

static BIG_64: [(f64, [u8; 8]); 2] = [
    (1.5, [0x3F, 0xF8, 0, 0, 0, 0, 0, 0]),
    (-2.0, [0xC0, 0, 0, 0, 0, 0, 0, 0]),
];

/// The integer encoding does not change them, the byte order does.
#[test]
fn writes_bits_in_the_byte_order(rt: HostRuntime) {
    let variable = config::standard().with_big_endian();
    let fixed = config::legacy().with_big_endian();
    rows_hold(
        &rt,
        &[
            ("f32, standard", are_bits_32(config::standard(), &LITTLE_32)),
            ("f32, legacy", are_bits_32(config::legacy(), &LITTLE_32)),
            ("f32, big endian", are_bits_32(variable, &BIG_32)),
            ("f32, legacy and big endian", are_bits_32(fixed, &BIG_32)),
            ("f64, standard", are_bits_64(config::standard(), &LITTLE_64)),
            ("f64, legacy", are_bits_64(config::legacy(), &LITTLE_64)),
            ("f64, big endian", are_bits_64(variable, &BIG_64)),
            ("f64, legacy and big endian", are_bits_64(fixed, &BIG_64)),
        ],
    );
}

/// Bits of a subnormal, of a number, of a negative zero and of an infinity come back as they are, by each call.
#[test]
fn keeps_bits_that_are_no_nan(rt: HostRuntime) {
    let alloc = rt.alloc();
    rows_hold(
        &rt,
        &[
            (
                "the least f32",
                each_call_keeps::<f32>(alloc, &[1, 0, 0, 0]),
            ),
            (
                "0.1 as f32",
                each_call_keeps::<f32>(alloc, &[0xCD, 0xCC, 0xCC, 0x3D]),
            ),
            (
                "-0.0 as f32",
                each_call_keeps::<f32>(alloc, &[0, 0, 0, 0x80]),
            ),
            (
                "-inf as f32",
                each_call_keeps::<f32>(alloc, &[0, 0, 0x80, 0xFF]),
            ),
            (
                "the least f64",
                each_call_keeps::<f64>(alloc, &[1, 0, 0, 0, 0, 0, 0, 0]),
            ),
            (
                "0.1 as f64",
                each_call_keeps::<f64>(alloc, &[0x9A, 0x99, 0x99, 0x99, 0x99, 0x99, 0xB9, 0x3F]),
            ),
            (
                "-0.0 as f64",
                each_call_keeps::<f64>(alloc, &[0, 0, 0, 0, 0, 0, 0, 0x80]),
            ),
            (
                "inf as f64",
                each_call_keeps::<f64>(alloc, &[0, 0, 0, 0, 0, 0, 0xF0, 0x7F]),
            ),
            (
                "an ordered f32",
                each_call_keeps::<OrderedFloat<f32>>(alloc, &[0, 0, 0, 0x80]),
            ),
            (
                "an ordered f64",
                each_call_keeps::<OrderedFloat<f64>>(alloc, &[0, 0, 0, 0, 0, 0, 0xF8, 0x3F]),
            ),
        ],
    );
}

/// Patterns of NaNs: the quiet one, a negative one, the least signalling one, and all bits.
static NANS_32: [[u8; 4]; 4] = [
    [0, 0, 0xC0, 0x7F],
    [0, 0, 0xC0, 0xFF],
    [1, 0, 0x80, 0x7F],
    [255; 4],
];

static NANS_64: [[u8; 8]; 4] = [
    [0, 0, 0, 0, 0, 0, 0xF8, 0x7F],
    [0, 0, 0, 0, 0, 0, 0xF8, 0xFF],
    [1, 0, 0, 0, 0, 0, 0xF0, 0x7F],
    [255; 8],
];

/// Whether each pattern is decoded as a NaN, which is encoded as the first one.
fn are_nans_32(alloc: Global) -> bool {
    for bits in &NANS_32 {
        let read: Option<f32> = read_word(alloc, bits);
        let is_nan = matches!(read, Some(value) if value.is_nan());
        if !is_nan || !is_written_as(alloc, read, &NANS_32[0]) {
            return false;
        }
    }
    true
}

/// Whether each pattern is decoded as a NaN, which is encoded as the first one.
fn are_nans_64(alloc: Global) -> bool {
    for bits in &NANS_64 {
        let read: Option<f64> = read_word(alloc, bits);
        let is_nan = matches!(read, Some(value) if value.is_nan());
        if !is_nan || !is_written_as(alloc, read, &NANS_64[0]) {
            return false;
        }
    }
    true
}

#[test]
fn reads_each_nan_and_writes_the_quiet_one(rt: HostRuntime) {
    let alloc = rt.alloc();
    rows_hold(
        &rt,
        &[
            ("f32", are_nans_32(alloc)),
            ("f64", are_nans_64(alloc)),
            (
                "the NaN of f32",
                is_encoded(&f32::NAN, &NANS_32[0], config::standard()),
            ),
            (
                "a negative one",
                is_encoded(&-f64::NAN, &NANS_64[0], config::legacy()),
            ),
        ],
    );
}

/// Whether bytes are read under a limit, and not under the one below. Retries once if an allocation is refused.
fn needs<T: Decode<()>, const N: usize, const LESS: usize>(alloc: Global, input: &[u8]) -> bool {
    let read = either(within::<T, N>(alloc, input), within::<T, N>(alloc, input));
    read.is_some() && is_passed(within::<T, LESS>(alloc, input))
}

/// A float is charged its width; a list claims it for each item.
#[test]
fn needs_its_width(rt: HostRuntime) {
    let alloc = rt.alloc();
    let zeros = [0u8; 16];
    let pair = [2, 0, 0, 0, 0, 0, 0, 0, 0, 0, 0, 0, 0, 0, 0, 0, 0];
    rows_hold(
        &rt,
        &[
            ("f32", needs::<f32, 4, 3>(alloc, &zeros)),
            ("f64", needs::<f64, 8, 7>(alloc, &zeros)),
            ("[f32; 4]", needs::<[f32; 4], 16, 15>(alloc, &zeros)),
            ("(f32, f64)", needs::<(f32, f64), 12, 11>(alloc, &zeros)),
            ("Vec<f64>", needs::<Vec<f64>, 24, 23>(alloc, &pair)),
            (
                "f32, cut",
                ends_at_each_place::<(), f32>(alloc, &zeros[..4], ()),
            ),
            (
                "f64, cut",
                ends_at_each_place::<(), f64>(alloc, &zeros[..8], ()),
            ),
        ],
    );
}

/// Whether an equal value was read, and all the bytes were taken.
fn is_taken_whole<T: PartialEq>(outcome: &Option<(T, usize)>, value: &T, bytes: &[u8]) -> bool {
    match outcome {
        Some((read, taken)) => *read == *value && *taken == bytes.len(),
        None => false,
    }
}

/// Whether bytes are read by borrowing as an equal value, and by owning, and from a stream.
fn is_read_as<'de, T>(alloc: Global, value: &T, bytes: &'de [u8]) -> bool
where
    T: Encode + Decode<()> + BorrowDecode<&'de [u8], ()> + PartialEq,
{
    let lent: Option<(T, usize)> = borrow_decode_from_slice(alloc, bytes, config::standard()).ok();
    let owned: Option<(T, usize)> = decoded(alloc, bytes, config::standard()).ok();
    let mut stream = bytes;
    let streamed: Option<T> = decode_from_std_read(alloc, &mut stream, config::standard()).ok();
    is_taken_whole(&lent, value, bytes)
        && is_taken_whole(&owned, value, bytes)
        && matches!(&streamed, Some(read) if *read == *value)
}

#[test]
fn keeps_what_holds_floats(rt: HostRuntime) {
    let alloc = rt.alloc();
    let row = [0, 0, 0x80, 0x3F, 0, 0, 0, 0xC0];
    rows_hold(
        &rt,
        &[
            ("a float", is_read_as(alloc, &1.0f32, &row[..4])),
            ("an array", is_read_as(alloc, &[1.0f32, -2.0], &row)),
            (
                "a tuple",
                is_read_as(alloc, &(1.0f32, 2u16), &[0, 0, 0x80, 0x3F, 2]),
            ),
            (
                "an option",
                is_read_as(alloc, &Some(-2.0f32), &[1, 0, 0, 0, 0xC0]),
            ),
            ("none", is_read_as(alloc, &None::<f64>, &[0])),
        ],
    );
}

/// The list of these floats. Retries once if an allocation is refused.
fn list_of(alloc: Global, items: [f64; 2]) -> Option<Vec<f64>> {
    match Vec::from_array(alloc, items) {
        Ok(list) => Some(list),
        Err(_) => Vec::from_array(alloc, items).ok(),
    }
}

/// The length, then the bits of each item.
const LIST: [u8; 17] = [2, 0, 0, 0, 0, 0, 0, 0xF8, 0x3F, 0, 0, 0, 0, 0, 0, 0, 0xC0];

/// Two entries, whose keys are 1.5 and -2, in the order of the keys once they were read.
const ENTRIES: [u8; 11] = [2, 0, 0, 0xC0, 0x3F, 7, 0, 0, 0, 0xC0, 8];

const SORTED: [u8; 11] = [2, 0, 0, 0, 0xC0, 8, 0, 0, 0xC0, 0x3F, 7];

/// The two zeros as keys, which are equal: the first one stays, with the last value. So it is for two NaNs.
const ZEROS: [u8; 11] = [2, 0, 0, 0, 0x80, 1, 0, 0, 0, 0, 2];

const ZERO: [u8; 6] = [1, 0, 0, 0, 0x80, 2];

const NANS: [u8; 11] = [2, 1, 0, 0x80, 0x7F, 1, 0, 0, 0xC0, 0xFF, 2];

const NAN: [u8; 6] = [1, 0, 0, 0xC0, 0x7F, 2];

/// Whether these entries are read as a map of one, which is written as this.
fn becomes_one(alloc: Global, entries: &[u8], one: &[u8]) -> bool {
    let map: Option<BTreeMap<OrderedFloat<f32>, u8>> = read_word(alloc, entries);
    is_written_as(alloc, map, one)
}

#[test]
fn keeps_one_of_equal_keys(rt: HostRuntime) {
    let alloc = rt.alloc();
    rows_hold(
        &rt,
        &[
            ("zeros", becomes_one(alloc, &ZEROS, &ZERO)),
            ("NaNs", becomes_one(alloc, &NANS, &NAN)),
            (
                "a float that may be borrowed",
                each_call_keeps::<Cow<'static, OrderedFloat<f32>>>(alloc, &[0, 0, 0x80, 0x3F]),
            ),
        ],
    );
}

#[test]
fn keeps_lists_and_maps_of_floats(rt: HostRuntime) {
    let alloc = rt.alloc();
    let list = list_of(alloc, [1.5, -2.0]);
    assert!(rt; is_written_as(alloc, list, &LIST));
    let read: Option<Vec<f64>> = read_word(alloc, &LIST);
    assert!(rt; matches!(&read, Some(list) if list.as_slice() == [1.5, -2.0].as_slice()));
    let map: Option<BTreeMap<OrderedFloat<f32>, u8>> = read_word(alloc, &ENTRIES);
    assert!(rt; matches!(&map, Some(map) if map.get(&OrderedFloat(-2.0)) == Some(&8)));
    assert!(rt; is_written_as(alloc, map, &SORTED));
}

/// What a vector gets of 1.5 as a stream.
fn streamed(alloc: Global) -> Result<Vec<u8>, bool> {
    let mut bytes = Vec::new(alloc);
    match encode_into_std_write(1.5f64, &mut bytes, config::standard()) {
        Ok(8) => Ok(bytes),
        _ => Err(false),
    }
}

#[test]
fn writes_a_float_to_a_stream(rt: HostRuntime) {
    let alloc = rt.alloc();
    let Some(bytes) = either(streamed(alloc), streamed(alloc)) else {
        assert!(rt; false);
        return;
    };
    assert!(rt; bytes.as_slice() == [0, 0, 0, 0, 0, 0, 0xF8, 0x3F].as_slice());
}
