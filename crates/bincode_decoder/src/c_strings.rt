//! Decoding of length-prefixed C strings.
ghost use Rattle.std.specs.Prelude.{◌≡◌, length, vec_capacity};
ghost use Rattle.bincode_spec.specs.Meaning.{IsBytes};
ghost use Rattle.bincode_spec.specs.Words.{without_nul};
ghost use Rattle.bincode_spec.specs.Layers.Values.{Reads};
ghost use Rattle.bincode_decoder.specs.Memory.{RefusedForSome};
ghost use Rattle.bincode_types.specs.CStrings.{c_string_vec, c_string_bytes};

use crate::decoder::Decoder;
use crate::texts::decode_length_prefixed;
use bincode_base::error::DecodeError;
use bincode_types::own::ffi::CString;

/// Decodes a C string into a vector without spare capacity. Fails like `decode_length_prefixed`, or with
/// `CStringNulError` and the index of the first zero byte; the bytes are then consumed.
pub fn decode_c_string<D: Decoder>(decoder: &mut D) -> Result<CString, DecodeError>
    ensures read { Reads D.is_known D.remaining D.charge D.failures D.loans D.C.bound D.R.end_error D.R.device
        (Unit {0}) (without_nul D.C.setting)
        (λ m v. IsBytes (c_string_bytes v) m × (vec_capacity (c_string_vec v) ≡ length (c_string_bytes v)))
        (D.charge decoder.old) result decoder.old decoder.new }
    ensures memory { RefusedForSome D.is_known D.remaining D.C.setting D.R.end_error D.R.device result decoder.old }
{
    let bytes = decode_length_prefixed(decoder)?;
    match CString::new(bytes) {
        Ok(text) => Ok(text),
        Err(fault) => Err(DecodeError::CStringNulError {
            position: fault.nul_position(),
        }),
    }
}
