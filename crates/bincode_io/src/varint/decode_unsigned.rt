//! Decoding of unsigned varints.
ghost use Rattle.std.specs.Prelude.{◌≡◌, ◌<◌, ◌≤◌, ◌^◌, IfOk, IfErr, IfSome};
ghost use Rattle.bincode_spec.specs.Integers.{varint, unsigned_tag};
ghost use Rattle.bincode_spec.specs.Layers.Spelling.{tag_types};
ghost use Rattle.bincode_spec.specs.Layers.Reads.{ReadsWord};
ghost use Rattle.bincode_io.specs.Window.{FrontIs, FrontFails};
ghost use Rattle.bincode_base.specs.declared.error.DecodeError.TheVariants.{InvalidIntegerType};
ghost use Rattle.bincode_base.specs.declared.error.IntegerType.TheVariants.{U16, U32, U64, U128, Usize};

use super::{SINGLE_BYTE_MAX, U16_BYTE, U32_BYTE, U64_BYTE, U128_BYTE};
use crate::bytes::{read_byte_plain, read_u16, read_u32, read_u64, read_u128};
use crate::read::{Reader, SliceReader};
use bincode_base::config::Endianness;
use bincode_base::error::{DecodeError, IntegerType};

/// Decodes an unsigned varint. Fails if bytes are missing, or with `InvalidIntegerType` if the tag byte is too wide for
/// the type or reserved. A varint that is longer than the shortest is accepted.
pub fn varint_decode_u16<R: Reader>(read: &mut R, endian: Endianness) -> Result<u16, DecodeError>
    ensures { ReadsWord R.is_known R.remaining R.failures R.loans R.end_error R.device
        (varint unsigned_tag U16 endian 2) (λ v. v) result read.old read.new }
{
    let n = varint_decode(read, endian, IntegerType::U16, 2)?;
    Ok(n as u16)
}

/// Decodes a `u32`, like `varint_decode_u16`.
pub fn varint_decode_u32<R: Reader>(read: &mut R, endian: Endianness) -> Result<u32, DecodeError>
    ensures { ReadsWord R.is_known R.remaining R.failures R.loans R.end_error R.device
        (varint unsigned_tag U32 endian 4) (λ v. v) result read.old read.new }
{
    let n = varint_decode(read, endian, IntegerType::U32, 4)?;
    Ok(n as u32)
}

/// Decodes a `u64`, like `varint_decode_u16`.
pub fn varint_decode_u64<R: Reader>(read: &mut R, endian: Endianness) -> Result<u64, DecodeError>
    ensures { ReadsWord R.is_known R.remaining R.failures R.loans R.end_error R.device
        (varint unsigned_tag U64 endian 8) (λ v. v) result read.old read.new }
{
    let n = varint_decode(read, endian, IntegerType::U64, 8)?;
    Ok(n as u64)
}

/// Decodes a `u128`, like `varint_decode_u16`.
pub fn varint_decode_u128<R: Reader>(read: &mut R, endian: Endianness) -> Result<u128, DecodeError>
    ensures { ReadsWord R.is_known R.remaining R.failures R.loans R.end_error R.device
        (varint unsigned_tag U128 endian 16) (λ v. v) result read.old read.new }
{
    varint_decode(read, endian, IntegerType::U128, 16)
}

/// Decodes a `usize`, like `varint_decode_u16`.
pub fn varint_decode_usize<R: Reader>(
    read: &mut R,
    endian: Endianness,
) -> Result<usize, DecodeError>
    ensures { ReadsWord R.is_known R.remaining R.failures R.loans R.end_error R.device
        (varint unsigned_tag Usize endian 8) (λ v. v) result read.old read.new }
{
    let n = varint_decode(read, endian, IntegerType::Usize, 8)?;
    Ok(n as usize)
}

/// Decodes an unsigned varint of this width; errors name the expected type. If the reader has `PEEKS_FIRST` and buffers
/// the longest encoding, the varint is decoded from a peek: then a refused tag byte is not consumed.
#[inline(always)]
pub(crate) fn varint_decode<R: Reader>(
    read: &mut R,
    endian: Endianness,
    name: IntegerType,
    width: usize,
) -> Result<u128, DecodeError>
    ensures word { ReadsWord R.is_known R.remaining R.failures R.loans R.end_error R.device
        (varint (tag_types name) name endian width) (λ v. v) result read.old read.new }
    ensures fits { 2 ≤ width → IfOk result (λ v. v < 256 ^ width) }
{
    if !R::PEEKS_FIRST {
        return varint_decode_plain(read, endian, name, width);
    }
    if let Some(window) = read.peek_read(width.saturating_add(1)) {
        if let Some((n, taken)) = number_of_window(window, endian, name, width)? {
            read.consume(taken);
            return Ok(n);
        }
    }
    varint_decode_plain(read, endian, name, width)
}

/// The number at the front of a window and the length of its encoding, if the window holds all of it. Fails if the tag
/// byte is too wide for the type or reserved.
#[inline(always)]
fn number_of_window(
    window: &[u8],
    endian: Endianness,
    name: IntegerType,
    width: usize,
) -> Result<Option<(u128, usize)>, DecodeError>
    ensures word { IfOk result (λ found. IfSome found (λ x. FrontIs (varint (tag_types name) name endian width)
        window.now x.0 x.1)) }
    ensures fits { 2 ≤ width → IfOk result (λ found. IfSome found (λ x. x.0 < 256 ^ width)) }
    ensures tag { IfErr result (FrontFails (varint (tag_types name) name endian width) window.now) }
{
    let mut front = SliceReader::new(window);
    match varint_decode_plain(&mut front, endian, name, width) {
        Ok(n) => Ok(Some((n, window.len() - front.bytes_left()))),
        Err(DecodeError::InvalidIntegerType { expected, found }) => {
            Err(DecodeError::InvalidIntegerType { expected, found })
        }
        Err(_) => Ok(None),
    }
}

/// `varint_decode` with `read` alone: the tag byte, then the bytes after it.
#[inline(always)]
fn varint_decode_plain<R: Reader>(
    read: &mut R,
    endian: Endianness,
    name: IntegerType,
    width: usize,
) -> Result<u128, DecodeError>
    ensures word { ReadsWord R.is_known R.remaining R.failures R.loans R.end_error R.device
        (varint (tag_types name) name endian width) (λ v. v) result read.old read.new }
    ensures fits { 2 ≤ width → IfOk result (λ v. v < 256 ^ width) }
{
    let tag = read_byte_plain(read)?;
    if tag <= SINGLE_BYTE_MAX {
        return Ok(u128::from(tag));
    }
    match tag {
        U16_BYTE => Ok(u128::from(read_u16(read, endian)?)),
        U32_BYTE if width >= 4 => Ok(u128::from(read_u32(read, endian)?)),
        U64_BYTE if width >= 8 => Ok(u128::from(read_u64(read, endian)?)),
        U128_BYTE if width >= 16 => read_u128(read, endian),
        _ => Err(invalid_tag(name, tag)),
    }
}

/// The error of a tag byte that is too wide for the type, or reserved.
fn invalid_tag(expected: IntegerType, tag: u8) -> DecodeError
    ensures { result ≡ InvalidIntegerType expected (tag_types expected tag) }
{
    DecodeError::InvalidIntegerType {
        expected,
        found: name_of_tag(expected, tag),
    }
}

/// The type that a tag byte stands for: a signed one if a signed type is decoded.
fn name_of_tag(expected: IntegerType, tag: u8) -> IntegerType
    ensures { result ≡ tag_types expected tag }
{
    let found = match tag {
        U32_BYTE => IntegerType::U32,
        U64_BYTE => IntegerType::U64,
        U128_BYTE => IntegerType::U128,
        _ => IntegerType::Reserved,
    };
    match expected {
        IntegerType::I8
        | IntegerType::I16
        | IntegerType::I32
        | IntegerType::I64
        | IntegerType::I128
        | IntegerType::Isize => found.into_signed(),
        _ => found,
    }
}
