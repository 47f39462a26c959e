//! Decoding of signed varints, by zigzag.
ghost use Rattle.std.specs.Prelude.{◌≤◌, IfOk};
ghost use Rattle.bincode_spec.specs.Number.{unzigzag, FitsIn};
ghost use Rattle.bincode_spec.specs.Format.{map_format};
ghost use Rattle.bincode_spec.specs.Integers.{varint, signed_tag};
ghost use Rattle.bincode_spec.specs.Layers.Spelling.{tag_types};
ghost use Rattle.bincode_spec.specs.Layers.Reads.{ReadsWord};
ghost use Rattle.bincode_base.specs.declared.error.IntegerType.TheVariants.{I16, I32, I64, I128, Isize};

use super::varint_decode;
use crate::read::Reader;
use crate::zigzag::unzigzag;
use bincode_base::config::Endianness;
use bincode_base::error::{DecodeError, IntegerType};

/// Decodes a signed varint. Fails if bytes are missing, or with `InvalidIntegerType` if the tag byte is too wide for
/// the type or reserved. A varint that is longer than the shortest is accepted.
pub fn varint_decode_i16<R: Reader>(read: &mut R, endian: Endianness) -> Result<i16, DecodeError>
    ensures { ReadsWord R.is_known R.remaining R.failures R.loans R.end_error R.device
        (map_format unzigzag (varint signed_tag I16 endian 2)) (λ v. v) result read.old read.new }
{
    let z = varint_decode_signed(read, endian, IntegerType::I16, 2)?;
    Ok(z as i16)
}

/// Decodes an `i32`, like `varint_decode_i16`.
pub fn varint_decode_i32<R: Reader>(read: &mut R, endian: Endianness) -> Result<i32, DecodeError>
    ensures { ReadsWord R.is_known R.remaining R.failures R.loans R.end_error R.device
        (map_format unzigzag (varint signed_tag I32 endian 4)) (λ v. v) result read.old read.new }
{
    let z = varint_decode_signed(read, endian, IntegerType::I32, 4)?;
    Ok(z as i32)
}

/// Decodes an `i64`, like `varint_decode_i16`.
pub fn varint_decode_i64<R: Reader>(read: &mut R, endian: Endianness) -> Result<i64, DecodeError>
    ensures { ReadsWord R.is_known R.remaining R.failures R.loans R.end_error R.device
        (map_format unzigzag (varint signed_tag I64 endian 8)) (λ v. v) result read.old read.new }
{
    let z = varint_decode_signed(read, endian, IntegerType::I64, 8)?;
    Ok(z as i64)
}

/// Decodes an `i128`, like `varint_decode_i16`.
pub fn varint_decode_i128<R: Reader>(read: &mut R, endian: Endianness) -> Result<i128, DecodeError>
    ensures { ReadsWord R.is_known R.remaining R.failures R.loans R.end_error R.device
        (map_format unzigzag (varint signed_tag I128 endian 16)) (λ v. v) result read.old read.new }
{
    varint_decode_signed(read, endian, IntegerType::I128, 16)
}

/// Decodes an `isize`, like `varint_decode_i16`.
pub fn varint_decode_isize<R: Reader>(
    read: &mut R,
    endian: Endianness,
) -> Result<isize, DecodeError>
    ensures { ReadsWord R.is_known R.remaining R.failures R.loans R.end_error R.device
        (map_format unzigzag (varint signed_tag Isize endian 8)) (λ v. v) result read.old read.new }
{
    let z = varint_decode_signed(read, endian, IntegerType::Isize, 8)?;
    Ok(z as isize)
}

/// Decodes a signed varint of this width; errors name `expected`.
#[inline]
fn varint_decode_signed<R: Reader>(
    read: &mut R,
    endian: Endianness,
    name: IntegerType,
    width: usize,
) -> Result<i128, DecodeError>
    ensures word { ReadsWord R.is_known R.remaining R.failures R.loans R.end_error R.device
        (map_format unzigzag (varint (tag_types name) name endian width)) (λ v. v) result read.old read.new }
    ensures fits { 2 ≤ width → IfOk result (λ v. FitsIn width v) }
{
    let n = varint_decode(read, endian, name, width)?;
    Ok(unzigzag(n))
}
