//! Bytes, the bytes of a number in a byte order, and two's complement.
ghost use Rattle.std.specs.Prelude.{◌≡◌};
ghost use Rattle.bincode_spec.specs.Number.{number_of, digits_of, two_complement, from_two_complement};
ghost use Rattle.bincode_spec.specs.Format.{fixed_bytes, map_format};
ghost use Rattle.bincode_spec.specs.Integers.{byte, digits};
ghost use Rattle.bincode_spec.specs.Layers.Reads.{ReadsWord};

use crate::read::Reader;
use bincode_base::config::Endianness;
use bincode_base::error::DecodeError;

/// The two bytes of a number in this byte order.
pub fn bytes_of_u16(endian: Endianness, n: u16) -> [u8; 2]
    ensures { result ≡ digits_of endian 2 n }
{
    match endian {
        Endianness::Little => u16::to_le_bytes(n),
        Endianness::Big => u16::to_be_bytes(n),
    }
}

/// The four bytes of a number.
pub fn bytes_of_u32(endian: Endianness, n: u32) -> [u8; 4]
    ensures { result ≡ digits_of endian 4 n }
{
    match endian {
        Endianness::Little => u32::to_le_bytes(n),
        Endianness::Big => u32::to_be_bytes(n),
    }
}

/// The eight bytes of a number.
pub fn bytes_of_u64(endian: Endianness, n: u64) -> [u8; 8]
    ensures { result ≡ digits_of endian 8 n }
{
    match endian {
        Endianness::Little => u64::to_le_bytes(n),
        Endianness::Big => u64::to_be_bytes(n),
    }
}

/// The sixteen bytes of a number.
pub fn bytes_of_u128(endian: Endianness, n: u128) -> [u8; 16]
    ensures { result ≡ digits_of endian 16 n }
{
    match endian {
        Endianness::Little => u128::to_le_bytes(n),
        Endianness::Big => u128::to_be_bytes(n),
    }
}

/// The two bytes of an integer in two's complement.
#[inline]
pub fn bytes_of_i16(endian: Endianness, n: i16) -> [u8; 2]
    ensures { result ≡ digits_of endian 2 (two_complement 2 n) }
{
    bytes_of_u16(endian, n.cast_unsigned())
}

/// The four bytes of an integer in two's complement.
#[inline]
pub fn bytes_of_i32(endian: Endianness, n: i32) -> [u8; 4]
    ensures { result ≡ digits_of endian 4 (two_complement 4 n) }
{
    bytes_of_u32(endian, n.cast_unsigned())
}

/// The eight bytes of an integer in two's complement.
#[inline]
pub fn bytes_of_i64(endian: Endianness, n: i64) -> [u8; 8]
    ensures { result ≡ digits_of endian 8 (two_complement 8 n) }
{
    bytes_of_u64(endian, n.cast_unsigned())
}

/// The sixteen bytes of an integer in two's complement.
#[inline]
pub fn bytes_of_i128(endian: Endianness, n: i128) -> [u8; 16]
    ensures { result ≡ digits_of endian 16 (two_complement 16 n) }
{
    bytes_of_u128(endian, n.cast_unsigned())
}

/// The number with these two bytes.
pub fn u16_of_bytes(endian: Endianness, bytes: [u8; 2]) -> u16
    ensures { result ≡ number_of endian bytes }
{
    match endian {
        Endianness::Little => u16::from_le_bytes(bytes),
        Endianness::Big => u16::from_be_bytes(bytes),
    }
}

/// The number with these four bytes.
pub fn u32_of_bytes(endian: Endianness, bytes: [u8; 4]) -> u32
    ensures { result ≡ number_of endian bytes }
{
    match endian {
        Endianness::Little => u32::from_le_bytes(bytes),
        Endianness::Big => u32::from_be_bytes(bytes),
    }
}

/// The number with these eight bytes.
pub fn u64_of_bytes(endian: Endianness, bytes: [u8; 8]) -> u64
    ensures { result ≡ number_of endian bytes }
{
    match endian {
        Endianness::Little => u64::from_le_bytes(bytes),
        Endianness::Big => u64::from_be_bytes(bytes),
    }
}

/// The number with these sixteen bytes.
pub fn u128_of_bytes(endian: Endianness, bytes: [u8; 16]) -> u128
    ensures { result ≡ number_of endian bytes }
{
    match endian {
        Endianness::Little => u128::from_le_bytes(bytes),
        Endianness::Big => u128::from_be_bytes(bytes),
    }
}

/// Reads the next `N` bytes.
pub fn read_array<R: Reader, const N: usize>(read: &mut R) -> Result<[u8; N], DecodeError>
    ensures { ReadsWord R.is_known R.remaining R.failures R.loans R.end_error R.device (fixed_bytes N) (λ v. v) result
        read.old read.new }
{
    let mut bytes = [0u8; N];
    read.read(&mut bytes)?;
    Ok(bytes)
}

/// Reads one byte: from a peek, if the reader has `PEEKS_FIRST`.
#[inline(always)]
pub fn read_byte<R: Reader>(read: &mut R) -> Result<u8, DecodeError>
    ensures { ReadsWord R.is_known R.remaining R.failures R.loans R.end_error R.device byte (λ v. v) result read.old
        read.new }
{
    if !R::PEEKS_FIRST {
        return read_byte_plain(read);
    }
    match read.peek_read(1) {
        Some(&[shown]) => {
            read.consume(1);
            Ok(shown)
        }
        _ => read_byte_plain(read),
    }
}

/// `read_byte` with `read` alone.
pub(crate) fn read_byte_plain<R: Reader>(read: &mut R) -> Result<u8, DecodeError>
    ensures { ReadsWord R.is_known R.remaining R.failures R.loans R.end_error R.device byte (λ v. v) result read.old
        read.new }
{
    let bytes = read_array::<R, 1>(read)?;
    Ok(bytes[0])
}

/// Reads the two bytes of a number.
pub fn read_u16<R: Reader>(read: &mut R, endian: Endianness) -> Result<u16, DecodeError>
    ensures { ReadsWord R.is_known R.remaining R.failures R.loans R.end_error R.device (digits endian 2) (λ v. v) result
        read.old read.new }
{
    let bytes = read_array::<R, 2>(read)?;
    Ok(u16_of_bytes(endian, bytes))
}

/// Reads the four bytes of a number.
pub fn read_u32<R: Reader>(read: &mut R, endian: Endianness) -> Result<u32, DecodeError>
    ensures { ReadsWord R.is_known R.remaining R.failures R.loans R.end_error R.device (digits endian 4) (λ v. v) result
        read.old read.new }
{
    let bytes = read_array::<R, 4>(read)?;
    Ok(u32_of_bytes(endian, bytes))
}

/// Reads the eight bytes of a number.
pub fn read_u64<R: Reader>(read: &mut R, endian: Endianness) -> Result<u64, DecodeError>
    ensures { ReadsWord R.is_known R.remaining R.failures R.loans R.end_error R.device (digits endian 8) (λ v. v) result
        read.old read.new }
{
    let bytes = read_array::<R, 8>(read)?;
    Ok(u64_of_bytes(endian, bytes))
}

/// Reads the sixteen bytes of a number.
pub fn read_u128<R: Reader>(read: &mut R, endian: Endianness) -> Result<u128, DecodeError>
    ensures { ReadsWord R.is_known R.remaining R.failures R.loans R.end_error R.device (digits endian 16) (λ v. v)
        result read.old read.new }
{
    let bytes = read_array::<R, 16>(read)?;
    Ok(u128_of_bytes(endian, bytes))
}

/// Reads a signed byte.
pub fn read_i8<R: Reader>(read: &mut R) -> Result<i8, DecodeError>
    ensures { ReadsWord R.is_known R.remaining R.failures R.loans R.end_error R.device
        (map_format (from_two_complement 1) byte) (λ v. v) result read.old read.new }
{
    let n = read_byte(read)?;
    Ok(i8_of_byte(n))
}

/// The byte of a signed byte in two's complement.
pub fn byte_of_i8(val: i8) -> u8
    ensures { result ≡ two_complement 1 val }
{
    val.cast_unsigned()
}

/// The signed byte of a byte in two's complement.
pub fn i8_of_byte(n: u8) -> i8
    ensures { result ≡ from_two_complement 1 n }
{
    n.cast_signed()
}
