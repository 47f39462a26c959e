//! Decoding of floats.
ghost use Rattle.std.specs.Prelude.{◌≡◌};
ghost use Rattle.std.specs.Float.{binary32, binary64};
ghost use Rattle.bincode_base.specs.declared.config.IntEncoding.TheVariants.{Fixed};
ghost use Rattle.bincode_spec.specs.Floats.{float, with_fixed};
ghost use Rattle.bincode_spec.specs.Meaning.{IsReal};
ghost use Rattle.bincode_spec.specs.Layers.Reads.{ReadsUncharged};
ghost use Rattle.bincode_spec.specs.Layers.Values.{ReadsCharged, ReadsInteger};

use crate::decoder::Decoder;
use bincode_base::config::{Config, IntEncoding};
use bincode_base::error::DecodeError;
use bincode_io::number::Integer;
use bincode_types::wire::Wire;
use std::num::{f32_from_bits_with_nan, f64_from_bits_with_nan};

/// Charges the width of an integer, and reads all its bytes in the byte order of the configuration, whatever its
/// integer encoding is.
#[inline(always)]
fn decode_fixed<T: Integer + Wire, D: Decoder>(decoder: &mut D) -> Result<T, DecodeError>
    requires { T.words.claim ≡ T.width }
    ensures { ReadsInteger D.is_known D.remaining D.charge D.failures D.loans D.C.bound D.R.end_error D.R.device
        (T.spelling.words (with_fixed D.C.setting)) T.spelling.integer T.width result decoder.old decoder.new }
{
    decoder.claim_bytes_read(T::claim_size())?;
    read_fixed_from(decoder)
}

#[inline(always)]
fn read_fixed_from<T: Integer, D: Decoder>(decoder: &mut D) -> Result<T, DecodeError>
    ensures { ReadsUncharged D.is_known D.remaining D.charge D.failures D.loans D.R.end_error D.R.device
        (T.spelling.read_by D.C.setting.order Fixed) (λ v. v) result decoder.old decoder.new }
{
    let endian = decoder.config().endianness();
    T::read(decoder.reader(), endian, IntEncoding::Fixed)
}

/// Charges four bytes, and reads them as a float, every pattern of a NaN as a NaN. Fails with `LimitExceeded`, or
/// with the errors of the reader.
#[inline(always)]
pub fn decode_f32<D: Decoder>(decoder: &mut D) -> Result<f32, DecodeError>
    ensures { ReadsCharged D.is_known D.remaining D.charge D.failures D.loans D.C.bound D.R.end_error D.R.device
        (float binary32 D.C.setting) (λ m v. IsReal v m) 4 result decoder.old
        decoder.new }
{
    let bits: u32 = decode_fixed(decoder)?;
    Ok(f32_from_bits_with_nan(bits))
}

/// Charges eight bytes, and reads them as a float, every pattern of a NaN as a NaN. Fails with `LimitExceeded`, or
/// with the errors of the reader.
#[inline(always)]
pub fn decode_f64<D: Decoder>(decoder: &mut D) -> Result<f64, DecodeError>
    ensures { ReadsCharged D.is_known D.remaining D.charge D.failures D.loans D.C.bound D.R.end_error D.R.device
        (float binary64 D.C.setting) (λ m v. IsReal v m) 8 result decoder.old
        decoder.new }
{
    let bits: u64 = decode_fixed(decoder)?;
    Ok(f64_from_bits_with_nan(bits))
}
