//! Encoding of signed varints, by zigzag.
ghost use Rattle.bincode_spec.specs.Number.{zigzag};
ghost use Rattle.bincode_spec.specs.Integers.{shortest_word};
ghost use Rattle.bincode_spec.specs.Layers.Spelling.{shortest_pieces};
ghost use Rattle.bincode_spec.specs.Layers.Pieces.{TakesPieces};

use super::{varint_encode_u16, varint_encode_u32, varint_encode_u64, varint_encode_u128};
use crate::write::Writer;
use crate::zigzag::zigzag;
use bincode_base::config::Endianness;
use bincode_base::error::EncodeError;

/// Writes the shortest varint of a signed integer. If the writer refuses a piece, those before it stay written.
#[inline(always)]
pub fn varint_encode_i16<W: Writer>(
    writer: &mut W,
    endian: Endianness,
    val: i16,
) -> Result<(), EncodeError>
    ensures { TakesPieces W.adds W.refuses W.loans (shortest_word endian (zigzag val))
        (shortest_pieces endian (zigzag val))
        result writer.old writer.new }
{
    varint_encode_u16(writer, endian, zigzag(i128::from(val)) as u16)
}

/// Writes an `i32`, like `varint_encode_i16`.
#[inline(always)]
pub fn varint_encode_i32<W: Writer>(
    writer: &mut W,
    endian: Endianness,
    val: i32,
) -> Result<(), EncodeError>
    ensures { TakesPieces W.adds W.refuses W.loans (shortest_word endian (zigzag val))
        (shortest_pieces endian (zigzag val))
        result writer.old writer.new }
{
    varint_encode_u32(writer, endian, zigzag(i128::from(val)) as u32)
}

/// Writes an `i64`, like `varint_encode_i16`.
#[inline(always)]
pub fn varint_encode_i64<W: Writer>(
    writer: &mut W,
    endian: Endianness,
    val: i64,
) -> Result<(), EncodeError>
    ensures { TakesPieces W.adds W.refuses W.loans (shortest_word endian (zigzag val))
        (shortest_pieces endian (zigzag val))
        result writer.old writer.new }
{
    varint_encode_u64(writer, endian, zigzag(i128::from(val)) as u64)
}

/// Writes an `i128`, like `varint_encode_i16`.
#[inline(always)]
pub fn varint_encode_i128<W: Writer>(
    writer: &mut W,
    endian: Endianness,
    val: i128,
) -> Result<(), EncodeError>
    ensures { TakesPieces W.adds W.refuses W.loans (shortest_word endian (zigzag val))
        (shortest_pieces endian (zigzag val))
        result writer.old writer.new }
{
    varint_encode_u128(writer, endian, zigzag(val))
}

/// Writes an `isize`, like `varint_encode_i16`.
#[inline(always)]
pub fn varint_encode_isize<W: Writer>(
    writer: &mut W,
    endian: Endianness,
    val: isize,
) -> Result<(), EncodeError>
    ensures { TakesPieces W.adds W.refuses W.loans (shortest_word endian (zigzag val))
        (shortest_pieces endian (zigzag val))
        result writer.old writer.new }
{
    varint_encode_u64(writer, endian, zigzag(val as i128) as u64)
}
