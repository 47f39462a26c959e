//! Calls that take no memory. `scripts/refuse_each_allocation.py` runs these with every allocation refused.

use crate::asserts::all_hold;
use bincode::config::Endianness::{Big, Little};
use bincode::config::{self, Config, IntEncoding};
use bincode::de::read::{BorrowReader, Reader, SliceReader};
use bincode::de::{BorrowDecode, ClaimContainer, Decode, Decoder, DecoderImpl};
use bincode::enc::write::{SizeWriter, SliceWriter, Writer};
use bincode::error::{DecodeError, EncodeError, IntegerType};
use bincode::time::Duration;
use bincode::varint::{
    varint_decode_i16, varint_decode_i32, varint_decode_i64, varint_decode_i128,
    varint_decode_isize, varint_decode_u16, varint_decode_u32, varint_decode_u64,
    varint_decode_u128, varint_decode_usize, varint_encode_i16, varint_encode_i32,
    varint_encode_i64, varint_encode_i128, varint_encode_isize, varint_encode_u16,
    varint_encode_u32, varint_encode_u64, varint_encode_u128, varint_encode_usize,
};
use bincode::{borrow_decode_from_slice, decode_from_slice, encode_into_slice, encode_into_writer};
use std::alloc::Global;
use std::net::{IpAddr, Ipv4Addr, Ipv6Addr, SocketAddrV4, SocketAddrV6};
use std::num::NonZeroU16;
use std::ops::{Bound, Range, RangeInclusive};

/// Whether a configuration has each part that it was given, and then each other part.
fn builds() -> bool {
    let config = config::legacy()
        .with_big_endian()
        .with_variable_int_encoding()
        .with_limit::<7>();
    let other = config
        .with_little_endian()
        .with_fixed_int_encoding()
        .with_no_limit();
    config.endianness() == Big
        && config.int_encoding() == IntEncoding::Variable
        && config.limit() == Some(7)
        && other.endianness() == Little
        && other.int_encoding() == IntEncoding::Fixed
        && other.limit() == None
}

/// What is written by the calls for unsigned numbers.
fn write_unsigned<W: Writer>(writer: &mut W) -> Result<(), EncodeError> {
    varint_encode_u16(writer, Little, 300)?;
    varint_encode_u32(writer, Big, 300)?;
    varint_encode_u64(writer, Little, 10)?;
    varint_encode_u128(writer, Little, 7)?;
    varint_encode_usize(writer, Little, 251)
}

/// What is written by the calls for signed numbers.
fn write_signed<W: Writer>(writer: &mut W) -> Result<(), EncodeError> {
    varint_encode_i16(writer, Little, -1)?;
    varint_encode_i32(writer, Little, 40_000)?;
    varint_encode_i64(writer, Little, -2)?;
    varint_encode_i128(writer, Little, -1)?;
    varint_encode_isize(writer, Little, -2)
}

/// What is written of these numbers, and of a pair.
fn write_each<W: Writer>(writer: &mut W) -> Result<(), EncodeError> {
    write_unsigned(writer)?;
    write_signed(writer)?;
    encode_into_writer((1u8, 300u32), writer, config::standard())
}

/// The bytes of these.
const WRITTEN: [u8; 24] = [
    251, 44, 1, 251, 1, 44, 10, 7, 251, 251, 0, 1, 252, 128, 56, 1, 0, 3, 1, 3, 1, 251, 44, 1,
];

/// Whether they fill a slice, and are counted.
fn writes() -> bool {
    let mut slice = [9u8; 24];
    let mut writer = SliceWriter::new(&mut slice);
    let written = write_each(&mut writer).is_ok() && writer.bytes_written() == 24;
    drop(writer);
    let mut counter = SizeWriter::default();
    let counted = write_each(&mut counter).is_ok() && counter.bytes_written == 24;
    written && counted && slice == WRITTEN
}

/// Whether a slice of two bytes takes no piece of three, and a count at its end not one byte: both are left as they
/// were.
fn refuses_pieces() -> bool {
    let mut slice = [9u8; 2];
    let mut writer = SliceWriter::new(&mut slice);
    let is_full = matches!(writer.write(&[1, 2, 3]), Err(EncodeError::UnexpectedEnd))
        && writer.bytes_written() == 0;
    drop(writer);
    let mut counter = SizeWriter {
        bytes_written: usize::MAX,
    };
    let is_counted = matches!(counter.write(&[1]), Err(EncodeError::UnexpectedEnd));
    is_full && is_counted && counter.bytes_written == usize::MAX && slice == [9, 9]
}

/// Whether a value without cells is written into a slice that it just fills, and not into a shorter one.
fn encodes() -> bool {
    let mut slice = [9u8; 4];
    let mut short = [9u8; 3];
    matches!(
        encode_into_slice((1u8, 300u32), &mut slice, config::standard()),
        Ok(4)
    ) && slice == [1, 251, 44, 1]
        && matches!(
            encode_into_slice((1u8, 300u32), &mut short, config::standard()),
            Err(EncodeError::UnexpectedEnd)
        )
}

/// Whether the unsigned numbers are read from a reader by the calls for numbers.
fn reads_unsigned<R: Reader>(reader: &mut R) -> bool {
    matches!(varint_decode_u16(reader, Little), Ok(300))
        && matches!(varint_decode_u32(reader, Big), Ok(300))
        && matches!(varint_decode_u64(reader, Little), Ok(10))
        && matches!(varint_decode_u128(reader, Little), Ok(7))
        && matches!(varint_decode_usize(reader, Little), Ok(251))
}

/// Whether the signed numbers are.
fn reads_signed<R: Reader>(reader: &mut R) -> bool {
    matches!(varint_decode_i16(reader, Little), Ok(-1))
        && matches!(varint_decode_i32(reader, Little), Ok(40_000))
        && matches!(varint_decode_i64(reader, Little), Ok(-2))
        && matches!(varint_decode_i128(reader, Little), Ok(-1))
        && matches!(varint_decode_isize(reader, Little), Ok(-2))
}

/// Whether these are read, the byte after them by a plain read, one more number, and nothing after it.
fn reads_in_turn<R: Reader>(reader: &mut R) -> bool {
    let mut next = [0u8; 1];
    reads_unsigned(reader)
        && reads_signed(reader)
        && reader.read(&mut next).is_ok()
        && next == [1]
        && matches!(varint_decode_u16(reader, Big), Ok(11_265))
        && matches!(
            reader.read(&mut next),
            Err(DecodeError::UnexpectedEnd { additional: 1 })
        )
}

/// Whether a reader over a slice shows bytes without consuming them, and lends them, if they are there.
fn shows_and_lends() -> bool {
    let mut reader = SliceReader::new(&[1, 2, 3, 4]);
    matches!(reader.peek_read(4), Some([1, 2, 3, 4]))
        && matches!(reader.take_bytes(3), Ok([1, 2, 3]))
        && reader.peek_read(2).is_none()
        && matches!(
            reader.take_bytes(2),
            Err(DecodeError::UnexpectedEnd { additional: 1 })
        )
        && reader.bytes_left() == 1
}

/// Whether of ten six are claimed and three released, then two items and three are claimed, and no more.
fn claims<D: Decoder<Context = ()>>(decoder: &mut D) -> bool {
    if decoder.claim_bytes_read(6).is_err() {
        return false;
    }
    decoder.unclaim_bytes_read(3);
    decoder.claim_container_read::<u16>(2).is_ok()
        && decoder.claim_bytes_read(3).is_ok()
        && matches!(decoder.claim_bytes_read(1), Err(DecodeError::LimitExceeded))
}

/// What is decoded from a slice at the first call.
fn decode<T: Decode<()>>(alloc: Global, bytes: &[u8]) -> Result<(T, usize), DecodeError> {
    decode_from_slice(alloc, bytes, config::standard())
}

/// What is decoded by borrowing at the first call.
fn borrow<'a, T: BorrowDecode<&'a [u8], ()>>(
    alloc: Global,
    bytes: &'a [u8],
) -> Result<(T, usize), DecodeError> {
    borrow_decode_from_slice(alloc, bytes, config::standard())
}

/// The tuple of the first worked row.
type Five = (u8, u32, i128, char, [u8; 4]);

/// Whether scalars are decoded as parts of one value.
fn decodes_parts(alloc: Global) -> bool {
    let Ok((five, 10)): Result<(Five, usize), DecodeError> = decode(
        alloc,
        &[0, 10, 251, 32, 78, 97, 0, 1, 2, 3],
    ) else {
        return false;
    };
    five == (0, 10, 10_000, 'a', [0, 1, 2, 3])
}

/// The other numbers but `u128`.
type Eight = (u16, u64, usize, i8, i16, i32, i64, isize);

/// Whether these are decoded, and a `u128`.
fn decodes_numbers(alloc: Global) -> bool {
    let Ok((eight, 16)): Result<(Eight, usize), DecodeError> = decode(
        alloc,
        &[
            251, 44, 1, 10, 251, 251, 0, 255, 1, 252, 128, 56, 1, 0, 3, 3,
        ],
    ) else {
        return false;
    };
    eight == (300, 10, 251, -1, -1, 40_000, -2, -2) && matches!(decode(alloc, &[7]), Ok((7u128, 1)))
}

/// Whether spans of time and addresses are decoded.
fn decodes_spans_and_addresses(alloc: Global) -> bool {
    let span = decode::<Duration>(alloc, &[5, 251, 44, 1]);
    let address = decode::<IpAddr>(alloc, &[0, 127, 0, 0, 1]);
    let socket = decode::<SocketAddrV4>(alloc, &[127, 0, 0, 1, 80]);
    matches!(span, Ok((span, 4)) if span.as_secs() == 5 && span.subsec_nanos() == 300)
        && matches!(address, Ok((IpAddr::V4(ip), 5)) if ip.octets() == [127, 0, 0, 1])
        && matches!(socket, Ok((socket, 5)) if socket == SocketAddrV4::new(Ipv4Addr::LOCALHOST, 80))
}

/// The address ::1, and the port 80.
const SOCKET: [u8; 17] = [0, 0, 0, 0, 0, 0, 0, 0, 0, 0, 0, 0, 0, 0, 0, 1, 80];

/// Whether addresses of six are decoded, alone and with a port.
fn decodes_addresses_of_six(alloc: Global) -> bool {
    let localhost = SocketAddrV6::new(Ipv6Addr::LOCALHOST, 80, 0, 0);
    let Ok((socket, 17)): Result<(SocketAddrV6, usize), DecodeError> = decode(alloc, &SOCKET) else {
        return false;
    };
    socket == localhost
        && matches!(decode::<Ipv6Addr>(alloc, &SOCKET), Ok((ip, 16)) if ip == Ipv6Addr::LOCALHOST)
}

/// Whether an input that is cut, one of another tag and one that passes a limit are told as such.
fn tells_faults(alloc: Global) -> bool {
    let limited = config::standard().with_limit::<3>();
    let pair: Result<([u16; 2], usize), DecodeError> = decode_from_slice(alloc, &[5, 6], limited);
    matches!(
        decode::<(u8, u32)>(alloc, &[1, 251, 44]),
        Err(DecodeError::UnexpectedEnd { additional: _ })
    ) && matches!(
        decode::<u64>(alloc, &[254]),
        Err(DecodeError::InvalidIntegerType {
            expected: IntegerType::U64,
            found: IntegerType::U128
        })
    ) && matches!(pair, Err(DecodeError::LimitExceeded))
        && matches!(
            borrow::<&str>(alloc, &[2, 195, 40]),
            Err(DecodeError::Utf8 { inner: _ })
        )
}

/// Whether choices and ranges are decoded.
fn decodes_choices(alloc: Global) -> bool {
    matches!(decode::<Option<bool>>(alloc, &[1, 1]), Ok((Some(true), 2)))
        && matches!(decode::<Result<(), u8>>(alloc, &[1, 7]), Ok((Err(7), 2)))
        && matches!(
            decode::<Bound<u8>>(alloc, &[2, 7]),
            Ok((Bound::Excluded(7), 2))
        )
        && matches!(
            decode(alloc, &[1, 5]),
            Ok((Range { start: 1u8, end: 5 }, 2))
        )
        && matches!(
            decode::<RangeInclusive<u8>>(alloc, &[1, 5]),
            Ok((range, 2)) if range == (1..=5)
        )
        && matches!(decode::<NonZeroU16>(alloc, &[7]), Ok((seven, 1)) if seven.get() == 7)
}

/// calls without memory
#[test]
fn answers_without_memory(rt: HostRuntime) {
    let alloc = rt.alloc();
    let reader = SliceReader::new(&[]);
    let ten = config::standard().with_limit::<10>();
    let mut decoder = DecoderImpl::new(alloc, reader, ten, ());
    all_hold(
        &rt,
        &[
            ("configurations", builds()),
            ("numbers and pairs into writers", writes()),
            ("pieces that do not fit", refuses_pieces()),
            ("a pair into slices", encodes()),
            ("readers", reads_in_turn(&mut SliceReader::new(&WRITTEN))),
            ("what readers show and lend", shows_and_lends()),
            ("claims", claims(&mut decoder)),
            ("parts", decodes_parts(alloc)),
            ("each other number", decodes_numbers(alloc)),
            ("spans and addresses", decodes_spans_and_addresses(alloc)),
            ("addresses of six", decodes_addresses_of_six(alloc)),
            ("faults", tells_faults(alloc)),
            ("choices", decodes_choices(alloc)),
            (
                "a lent text",
                matches!(borrow::<&str>(alloc, &[2, 97, 98]), Ok(("ab", 3))),
            ),
            (
                "lent bytes",
                matches!(borrow::<&[u8]>(alloc, &[2, 97, 98]), Ok(([97, 98], 3))),
            ),
        ],
    );
}
