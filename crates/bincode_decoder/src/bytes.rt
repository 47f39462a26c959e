//! Bytes that are read at once.
ghost use Rattle.std.specs.Prelude.{◌*◌, pos, length};
ghost use Rattle.bincode_spec.specs.Integers.{unsigned_byte};
ghost use Rattle.bincode_spec.specs.Meaning.{IsNumber};
ghost use Rattle.bincode_spec.specs.Words.{natural_number};
ghost use Rattle.bincode_spec.specs.Answer.{Allows};
ghost use Rattle.bincode_spec.specs.Layers.Releases.{CanRelease};
ghost use Rattle.bincode_spec.specs.Layers.Values.{RunRead};

use crate::decoder::Decoder;
use crate::integers::read_from;
use bincode_base::error::DecodeError;

/// Fills `values` with the next bytes, in one read. `claim_container_read` must have reserved their claims. The result
/// is that of reading one by one with each claim released first. Errors are those of the reader.
#[inline(always)]
pub fn decode_bytes<D: Decoder>(decoder: &mut D, values: &mut [u8]) -> Result<(), DecodeError>
    requires { CanRelease D.C.bound (D.charge decoder.old) (length values.old * 1)
        × Allows D.C.bound (D.charge decoder.old) }
    ensures { RunRead D.is_known D.remaining D.charge D.failures D.loans D.C.bound D.R.end_error D.R.device ⊥ 1
        (natural_number unsigned_byte) (λ m n. IsNumber (pos n) m) (length values.old) (λ _. values.new) result
        decoder.old decoder.new }
{
    read_from(decoder, values)
}
