//! Decoding of the octets of addresses.
ghost use Rattle.bincode_spec.specs.Meaning.{IsBytes};
ghost use Rattle.bincode_spec.specs.Octets.{octets};
ghost use Rattle.bincode_spec.specs.Layers.Values.{Reads};

use crate::decoder::Decoder;
use crate::integers::read_from;
use bincode_base::error::DecodeError;
use bincode_types::octets::Octets;

/// Charges `N` bytes, then reads them as they are. Fails with `LimitExceeded`, or the error of the reader.
#[inline]
pub fn decode_octets<D: Decoder, const N: usize>(decoder: &mut D) -> Result<Octets<N>, DecodeError>
    ensures { Reads D.is_known D.remaining D.charge D.failures D.loans D.C.bound D.R.end_error D.R.device ⊥ (octets N)
        (λ m v. IsBytes v.octets m) (D.charge decoder.old) result decoder.old decoder.new }
{
    decoder.claim_bytes_read(N)?;
    let mut bytes = [0u8; N];
    read_from(decoder, &mut bytes)?;
    Ok(Octets { octets: bytes })
}
