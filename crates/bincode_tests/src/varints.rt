//! The calls that write and read a number as a variable integer, each type once beside the test vectors.

use bincode::config::Endianness::Little;
use bincode::de::read::{Reader, SliceReader};
use bincode::enc::write::{SliceWriter, Writer};
use bincode::varint::{
    varint_decode_i16, varint_decode_i32, varint_decode_i64, varint_decode_i128,
    varint_decode_isize, varint_decode_u16, varint_decode_u32, varint_decode_u64,
    varint_decode_u128, varint_decode_usize, varint_encode_i32, varint_encode_isize,
    varint_encode_u16, varint_encode_u64, varint_encode_usize,
};

/// 300, 10, 251, 40000 and -2.
const WRITTEN: [u8; 13] = [251, 44, 1, 10, 251, 251, 0, 252, 128, 56, 1, 0, 3];

/// 300, 65536, 10, 7 and 251.
const UNSIGNED: [u8; 13] = [251, 44, 1, 252, 0, 0, 1, 0, 10, 7, 251, 251, 0];

/// -1, 40000, 3000000000, -1 and -2.
const SIGNED: [u8; 17] = [
    1, 252, 128, 56, 1, 0, 253, 0, 188, 160, 101, 1, 0, 0, 0, 1, 3,
];

/// Whether the calls that no worked row makes write their numbers in turn.
fn writes_each<W: Writer>(writer: &mut W) -> bool {
    varint_encode_u16(writer, Little, 300).is_ok()
        && varint_encode_u64(writer, Little, 10).is_ok()
        && varint_encode_usize(writer, Little, 251).is_ok()
        && varint_encode_i32(writer, Little, 40_000).is_ok()
        && varint_encode_isize(writer, Little, -2).is_ok()
}

/// Whether the calls for unsigned numbers read them in turn.
fn reads_each_unsigned<R: Reader>(reader: &mut R) -> bool {
    matches!(varint_decode_u16(reader, Little), Ok(300))
        && matches!(varint_decode_u32(reader, Little), Ok(65_536))
        && matches!(varint_decode_u64(reader, Little), Ok(10))
        && matches!(varint_decode_u128(reader, Little), Ok(7))
        && matches!(varint_decode_usize(reader, Little), Ok(251))
}

/// Whether the calls for signed numbers read them in turn.
fn reads_each_signed<R: Reader>(reader: &mut R) -> bool {
    matches!(varint_decode_i16(reader, Little), Ok(-1))
        && matches!(varint_decode_i32(reader, Little), Ok(40_000))
        && matches!(varint_decode_i64(reader, Little), Ok(3_000_000_000))
        && matches!(varint_decode_i128(reader, Little), Ok(-1))
        && matches!(varint_decode_isize(reader, Little), Ok(-2))
}

#[test]
fn writes_each_type(rt: HostRuntime) {
    let mut slice = [9u8; 13];
    assert!(rt; writes_each(&mut SliceWriter::new(&mut slice)));
    assert!(rt; slice == WRITTEN);
}

#[test]
fn reads_each_type(rt: HostRuntime) {
    let mut reader = SliceReader::new(&UNSIGNED);
    assert!(rt;
        reads_each_unsigned(&mut reader)
            && reader.bytes_left() == 0
            && reads_each_signed(&mut SliceReader::new(&SIGNED))
    );
}
