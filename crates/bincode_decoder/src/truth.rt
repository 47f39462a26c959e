//! Decoding of `bool`.
ghost use Rattle.bincode_spec.specs.Meaning.{IsTruth};
ghost use Rattle.bincode_spec.specs.Words.{truth};
ghost use Rattle.bincode_spec.specs.Layers.Values.{ReadsCharged};

use crate::decoder::Decoder;
use crate::integers::decode_byte;
use bincode_base::error::DecodeError;

/// Charges a byte, and reads it as a `bool`. Fails with `InvalidBooleanValue` if it is neither 0 nor 1.
pub fn decode_truth<D: Decoder>(decoder: &mut D) -> Result<bool, DecodeError>
    ensures { ReadsCharged D.is_known D.remaining D.charge D.failures D.loans D.C.bound D.R.end_error D.R.device truth
        (λ m v. IsTruth v m) 1 result decoder.old decoder.new }
{
    match decode_byte(decoder)? {
        0 => Ok(false),
        1 => Ok(true),
        b => Err(DecodeError::InvalidBooleanValue(b)),
    }
}
