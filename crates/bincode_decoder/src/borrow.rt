//! Length-prefixed bytes and texts that are borrowed from the source.
ghost use Rattle.std.specs.Prelude.{◌≡◌};
ghost use Rattle.bincode_spec.specs.Format.{fixed_bytes, without_count, charge_then};
ghost use Rattle.bincode_spec.specs.Meaning.{IsBytes};
ghost use Rattle.bincode_spec.specs.Words.{length_prefixed, text};
ghost use Rattle.bincode_spec.specs.Layers.Values.{Reads};

use crate::decoder::{BorrowDecoder, BorrowedBytes};
use crate::lengths::decode_length;
use bincode_base::error::DecodeError;

/// Charges `count` bytes, then borrows them from the source. Fails with `LimitExceeded`, or the error of the reader.
fn take_claimed<B: BorrowedBytes, D: BorrowDecoder<B>>(
    decoder: &mut D,
    count: usize,
) -> Result<B, DecodeError>
    ensures { Reads D.is_known D.remaining D.charge D.failures D.loans D.C.bound D.R.end_error D.R.device ⊥
        (charge_then count (without_count (fixed_bytes count))) (λ bytes v. bytes ≡ B.bytes v) (D.charge decoder.old)
        result decoder.old decoder.new }
{
    decoder.claim_bytes_read(count)?;
    decoder.take_bytes(count)
}

/// Reads a length prefix, then borrows that many bytes from the source; they are charged first. Does not allocate.
/// Fails with the error of the length, `LimitExceeded`, or the error of the reader.
pub fn take_length_prefixed<B: BorrowedBytes, D: BorrowDecoder<B>>(
    decoder: &mut D,
) -> Result<B, DecodeError>
    ensures { Reads D.is_known D.remaining D.charge D.failures D.loans D.C.bound D.R.end_error D.R.device ⊥
        (length_prefixed D.C.setting) (λ bytes v. bytes ≡ B.bytes v) (D.charge decoder.old) result decoder.old
        decoder.new }
{
    let count = decode_length(decoder)?;
    take_claimed(decoder, count)
}

/// Borrows a length-prefixed text, like `take_length_prefixed`. Fails with `Utf8` if the bytes are not UTF-8; they are
/// then consumed.
pub fn take_text<'de, D: BorrowDecoder<&'de [u8]>>(decoder: &mut D) -> Result<&'de str, DecodeError>
    ensures { Reads D.is_known D.remaining D.charge D.failures D.loans D.C.bound D.R.end_error D.R.device ⊥
        (text D.C.setting) (λ m v. IsBytes v.now m) (D.charge decoder.old) result decoder.old decoder.new }
{
    let bytes = take_length_prefixed(decoder)?;
    match str::from_utf8(bytes) {
        Ok(text) => Ok(text),
        Err(fault) => Err(DecodeError::Utf8 { inner: fault }),
    }
}
