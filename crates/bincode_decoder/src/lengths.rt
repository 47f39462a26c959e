//! Decoding of length prefixes.
ghost use Rattle.std.specs.Prelude.{◌≡◌};
ghost use Rattle.bincode_spec.specs.Words.{len};
ghost use Rattle.bincode_spec.specs.Layers.Values.{ReadsCharged};

use crate::decoder::Decoder;
use crate::integers::decode_integer;
use bincode_base::error::DecodeError;

/// Charges the 8 bytes of a length prefix, and reads it. Every length fits `usize`, which has 64 bits here. Fails with
/// `LimitExceeded`, or with the errors of `Integer::read`.
#[inline(always)]
pub fn decode_length<D: Decoder>(decoder: &mut D) -> Result<usize, DecodeError>
    ensures { ReadsCharged D.is_known D.remaining D.charge D.failures D.loans D.C.bound D.R.end_error D.R.device
        (len D.C.setting) (λ n v. n ≡ v) 8 result decoder.old decoder.new }
{
    let length: u64 = decode_integer(decoder)?;
    Ok(length as usize)
}
