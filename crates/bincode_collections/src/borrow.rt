//! Length-prefixed lists of bytes that are borrowed from the source.
ghost use Rattle.std.specs.Prelude.{pos};
ghost use Rattle.bincode_spec.specs.Integers.{unsigned_byte};
ghost use Rattle.bincode_spec.specs.Meaning.{IsNumber};
ghost use Rattle.bincode_spec.specs.Run.{IsListOf};
ghost use Rattle.bincode_spec.specs.Layers.Values.{Reads};
ghost use Rattle.bincode_spec.specs.Words.{array, list, natural_number};

use bincode_base::error::DecodeError;
use bincode_decoder::decoder::{BorrowDecoder, BorrowedBytes, ClaimContainer};
use bincode_decoder::lengths::decode_length;

/// Claims `len` bytes, then borrows them from the source. Fails with `LimitExceeded`, or the error of the reader.
fn take_claimed<B: BorrowedBytes, D: BorrowDecoder<B>>(
    decoder: &mut D,
    len: usize,
) -> Result<B, DecodeError>
    ensures { Reads D.is_known D.remaining D.charge D.failures D.loans D.C.bound D.R.end_error D.R.device ⊥
        (array len 1 (natural_number unsigned_byte)) (λ m v. IsListOf (λ x n. IsNumber (pos x) n) (B.bytes v) m)
        (D.charge decoder.old) result decoder.old decoder.new }
{
    decoder.claim_container_read::<u8>(len)?;
    decoder.take_bytes(len)
}

/// Reads a length prefix, then borrows that many bytes as a list; they are claimed first. Does not allocate. Fails with
/// the error of the length, `LimitExceeded`, or the error of the reader.
pub fn take_list<B: BorrowedBytes, D: BorrowDecoder<B>>(decoder: &mut D) -> Result<B, DecodeError>
    ensures { Reads D.is_known D.remaining D.charge D.failures D.loans D.C.bound D.R.end_error D.R.device ⊥
        (list D.C.setting 1 (natural_number unsigned_byte)) (λ m v. IsListOf (λ x n. IsNumber (pos x) n) (B.bytes v) m)
        (D.charge decoder.old) result decoder.old decoder.new }
{
    let len = decode_length(decoder)?;
    take_claimed(decoder, len)
}
