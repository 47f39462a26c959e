//! Encoding of unsigned varints.
ghost use Rattle.std.specs.Prelude.{[], ◌∷◌, ◌≡◌, length};
ghost use Rattle.bincode_base.specs.declared.config.Endianness.{Endianness};
ghost use Rattle.bincode_spec.specs.Integers.{shortest_word, first_of};
ghost use Rattle.bincode_spec.specs.Layers.Spelling.{shortest_pieces};
ghost use Rattle.bincode_spec.specs.Layers.Pieces.{TakesPieces};

use super::{SINGLE_BYTE_MAX, U16_BYTE, U32_BYTE, U64_BYTE, U128_BYTE};
use crate::bytes::{bytes_of_u16, bytes_of_u32, bytes_of_u64, bytes_of_u128};
use crate::write::Writer;
use bincode_base::config::Endianness;
use bincode_base::error::EncodeError;

/// Writes the shortest varint of a number: the tag byte, then the bytes in this byte order. If the writer refuses a
/// piece, those before it stay written.
#[inline(always)]
pub fn varint_encode_u16<W: Writer>(
    writer: &mut W,
    endian: Endianness,
    val: u16,
) -> Result<(), EncodeError>
    ensures { TakesPieces W.adds W.refuses W.loans (shortest_word endian val) (shortest_pieces endian val)
        result writer.old writer.new }
{
    if W::COUNTS {
        return write_at_once(writer, endian, u64::from(val));
    }
    if val <= u16::from(SINGLE_BYTE_MAX) {
        writer.write_tag(val as u8, 1)
    } else {
        write_tagged(writer, U16_BYTE, &bytes_of_u16(endian, val))
    }
}

/// Writes a `u32`, like `varint_encode_u16`.
#[inline(always)]
pub fn varint_encode_u32<W: Writer>(
    writer: &mut W,
    endian: Endianness,
    val: u32,
) -> Result<(), EncodeError>
    ensures { TakesPieces W.adds W.refuses W.loans (shortest_word endian val) (shortest_pieces endian val)
        result writer.old writer.new }
{
    if W::COUNTS {
        return write_at_once(writer, endian, u64::from(val));
    }
    if val <= u32::from(SINGLE_BYTE_MAX) {
        writer.write_tag(val as u8, 1)
    } else if val <= u32::from(u16::MAX) {
        write_tagged(writer, U16_BYTE, &bytes_of_u16(endian, val as u16))
    } else {
        write_tagged(writer, U32_BYTE, &bytes_of_u32(endian, val))
    }
}

/// Writes a `u64`, like `varint_encode_u16`.
#[inline(always)]
pub fn varint_encode_u64<W: Writer>(
    writer: &mut W,
    endian: Endianness,
    val: u64,
) -> Result<(), EncodeError>
    ensures { TakesPieces W.adds W.refuses W.loans (shortest_word endian val) (shortest_pieces endian val)
        result writer.old writer.new }
{
    if W::COUNTS {
        return write_at_once(writer, endian, val);
    }
    if val <= u64::from(SINGLE_BYTE_MAX) {
        writer.write_tag(val as u8, 1)
    } else if val <= u64::from(u16::MAX) {
        write_tagged(writer, U16_BYTE, &bytes_of_u16(endian, val as u16))
    } else if val <= u64::from(u32::MAX) {
        write_tagged(writer, U32_BYTE, &bytes_of_u32(endian, val as u32))
    } else {
        write_tagged(writer, U64_BYTE, &bytes_of_u64(endian, val))
    }
}

/// Writes a `u128`, like `varint_encode_u16`.
#[inline(always)]
pub fn varint_encode_u128<W: Writer>(
    writer: &mut W,
    endian: Endianness,
    val: u128,
) -> Result<(), EncodeError>
    ensures { TakesPieces W.adds W.refuses W.loans (shortest_word endian val) (shortest_pieces endian val)
        result writer.old writer.new }
{
    if val <= u128::from(SINGLE_BYTE_MAX) {
        writer.write_tag(val as u8, 1)
    } else if val <= u128::from(u16::MAX) {
        write_tagged(writer, U16_BYTE, &bytes_of_u16(endian, val as u16))
    } else if val <= u128::from(u32::MAX) {
        write_tagged(writer, U32_BYTE, &bytes_of_u32(endian, val as u32))
    } else if val <= u128::from(u64::MAX) {
        write_tagged(writer, U64_BYTE, &bytes_of_u64(endian, val as u64))
    } else {
        write_tagged(writer, U128_BYTE, &bytes_of_u128(endian, val))
    }
}

/// Writes a `usize`, like `varint_encode_u16`.
pub fn varint_encode_usize<W: Writer>(
    writer: &mut W,
    endian: Endianness,
    val: usize,
) -> Result<(), EncodeError>
    ensures { TakesPieces W.adds W.refuses W.loans (shortest_word endian val) (shortest_pieces endian val)
        result writer.old writer.new }
{
    varint_encode_u64(writer, endian, val as u64)
}

/// Writes a tag byte, then the bytes after it.
#[inline(always)]
fn write_tagged<W: Writer>(writer: &mut W, tag: u8, bytes: &[u8]) -> Result<(), EncodeError>
    ensures { TakesPieces W.adds W.refuses W.loans (tag ∷ bytes.now) ((tag ∷ []) ∷ bytes.now ∷ [])
        result writer.old writer.new }
{
    writer.write_tag(tag, 1 + bytes.len())?;
    writer.write_payload(bytes)
}

/// Used for counting writers: reports the length before branching on it.
#[inline(always)]
fn write_at_once<W: Writer>(writer: &mut W, endian: Endianness, val: u64) -> Result<(), EncodeError>
    ensures { TakesPieces W.adds W.refuses W.loans (shortest_word endian val) (shortest_pieces endian val)
        result writer.old writer.new }
{
    let (first, all) = front_of(val);
    writer.write_tag(first, all)?;
    if val <= u64::from(SINGLE_BYTE_MAX) {
        Ok(())
    } else if val <= u64::from(u16::MAX) {
        writer.write_payload(&bytes_of_u16(endian, val as u16))
    } else if val <= u64::from(u32::MAX) {
        writer.write_payload(&bytes_of_u32(endian, val as u32))
    } else {
        writer.write_payload(&bytes_of_u64(endian, val))
    }
}

/// The first byte of the shortest varint of a number, and its length in bytes.
#[inline(always)]
fn front_of(val: u64) -> (u8, usize)
    ensures first { (endian : Endianness) → first_of (shortest_word endian val) ≡ result.0 }
    ensures count { (endian : Endianness) → length (shortest_word endian val) ≡ result.1 }
{
    if val <= u64::from(SINGLE_BYTE_MAX) {
        (val as u8, 1)
    } else if val <= u64::from(u16::MAX) {
        (U16_BYTE, 3)
    } else if val <= u64::from(u32::MAX) {
        (U32_BYTE, 5)
    } else {
        (U64_BYTE, 9)
    }
}
