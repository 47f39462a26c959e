//! Encoding of C strings.
ghost use Rattle.bincode_spec.specs.Meaning.{IsBytes};
ghost use Rattle.bincode_spec.specs.Words.{without_nul};
ghost use Rattle.bincode_spec.specs.Allowed.{AllowedWord};
ghost use Rattle.bincode_spec.specs.Encoding.{Encodes};
ghost use Rattle.bincode_types.specs.CStrings.{c_str_bytes};

use crate::encoder::{Encoder, write_from};
use crate::lists::encode_length;
use bincode_base::error::EncodeError;
use bincode_types::own::ffi::CStr;

/// Writes a C string: its length in bytes, then the bytes in one piece, without a closing zero. Errors are those of the
/// writer.
#[inline]
pub fn encode_c_string<E: Encoder>(encoder: &mut E, val: CStr<'_>) -> Result<(), EncodeError>
    ensures { Encodes E.W.adds E.W.refuses E.writer_of E.loans (Unit {0})
        (AllowedWord (IsBytes (c_str_bytes val.entry)) (without_nul E.C.setting)) (λ _. ⊥) result encoder.old
        encoder.new }
{
    let bytes = val.to_bytes();
    encode_length(encoder, bytes.len())?;
    write_from(encoder, bytes)
}
