//! Decoding of integers and bytes.
ghost use Rattle.std.specs.Prelude.{◌≡◌, pos, ok_or};
ghost use Rattle.bincode_base.specs.declared.error.DecodeError.TheVariants.{NonZeroTypeIsZero};
ghost use Rattle.bincode_spec.specs.Layers.Pieces.{FillsBuffer};
ghost use Rattle.bincode_spec.specs.Format.{map_format};
ghost use Rattle.bincode_spec.specs.Number.{from_two_complement};
ghost use Rattle.bincode_spec.specs.Layers.Reads.{ReadsUncharged};
ghost use Rattle.bincode_spec.specs.Integers.{byte, unsigned_byte, signed_byte};
ghost use Rattle.bincode_spec.specs.Layers.Values.{ReadsInteger};

use crate::decoder::Decoder;
use bincode_base::config::Config;
use bincode_base::error::{DecodeError, IntegerType};
use bincode_io::bytes::{read_byte, read_i8};
use bincode_io::number::Integer;
use bincode_io::read::Reader;
use bincode_types::wire::Wire;

/// Charges the width of an integer, and reads it in the integer encoding and byte order of the configuration. Fails
/// with `LimitExceeded`, or with the errors of `Integer::read`.
#[inline(always)]
pub fn decode_integer<T: Integer + Wire, D: Decoder>(decoder: &mut D) -> Result<T, DecodeError>
    requires { T.words.claim ≡ T.width }
    ensures { ReadsInteger D.is_known D.remaining D.charge D.failures D.loans D.C.bound D.R.end_error D.R.device
        (T.spelling.words D.C.setting) T.spelling.integer T.width result decoder.old decoder.new }
{
    decoder.claim_bytes_read(T::claim_size())?;
    read_integer_from(decoder)
}

#[inline(always)]
fn read_integer_from<T: Integer, D: Decoder>(decoder: &mut D) -> Result<T, DecodeError>
    ensures { ReadsUncharged D.is_known D.remaining D.charge D.failures D.loans D.R.end_error D.R.device
        (T.spelling.read_by D.C.setting.order D.C.setting.encoding) (λ v. v) result decoder.old decoder.new }
{
    let endian = decoder.config().endianness();
    let encoding = decoder.config().int_encoding();
    T::read(decoder.reader(), endian, encoding)
}

/// Charges a byte, and reads it.
pub fn decode_byte<D: Decoder>(decoder: &mut D) -> Result<u8, DecodeError>
    ensures { ReadsInteger D.is_known D.remaining D.charge D.failures D.loans D.C.bound D.R.end_error D.R.device
        unsigned_byte pos 1 result decoder.old decoder.new }
{
    decoder.claim_bytes_read(1)?;
    read_byte_from(decoder)
}

pub fn read_byte_from<D: Decoder>(decoder: &mut D) -> Result<u8, DecodeError>
    ensures { ReadsUncharged D.is_known D.remaining D.charge D.failures D.loans D.R.end_error D.R.device byte (λ v. v)
        result decoder.old decoder.new }
{
    read_byte(decoder.reader())
}

/// Charges a signed byte, and reads it.
pub fn decode_signed_byte<D: Decoder>(decoder: &mut D) -> Result<i8, DecodeError>
    ensures { ReadsInteger D.is_known D.remaining D.charge D.failures D.loans D.C.bound D.R.end_error D.R.device
        signed_byte (λ z. z) 1 result decoder.old decoder.new }
{
    decoder.claim_bytes_read(1)?;
    read_i8_from(decoder)
}

fn read_i8_from<D: Decoder>(decoder: &mut D) -> Result<i8, DecodeError>
    ensures { ReadsUncharged D.is_known D.remaining D.charge D.failures D.loans D.R.end_error D.R.device
        (map_format (from_two_complement 1) byte) (λ v. v) result decoder.old decoder.new }
{
    read_i8(decoder.reader())
}

/// Fills all of `bytes` with the next bytes.
pub fn read_from<D: Decoder>(decoder: &mut D, bytes: &mut [u8]) -> Result<(), DecodeError>
    ensures fills { FillsBuffer D.is_known D.remaining D.failures D.loans D.R.end_error D.R.device bytes.old bytes.new
        result decoder.old decoder.new }
    ensures charge { D.charge decoder.new ≡ D.charge decoder.old }
{
    decoder.reader().read(bytes)
}

/// Unwraps a `NonZero`; `None` (it was 0) is `NonZeroTypeIsZero` with this type's name.
#[inline]
pub fn not_zero<T>(number: Option<T>, name: IntegerType) -> Result<T, DecodeError>
    ensures { result ≡ ok_or number (NonZeroTypeIsZero name) }
{
    match number {
        Some(number) => Ok(number),
        None => Err(DecodeError::NonZeroTypeIsZero {
            non_zero_type: name,
        }),
    }
}
