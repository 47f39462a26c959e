//! Decoding of length-prefixed texts.
ghost use Rattle.std.specs.Prelude.{◌≡◌, ◌<◌, length, IfOk, IfErr, vec_len, vec_capacity};
ghost use Rattle.bincode_base.specs.declared.error.DecodeError.TheVariants.{Memory};
ghost use Rattle.std.specs.String.{string_bytes, string_capacity};
ghost use Rattle.bincode_spec.specs.Format.{fixed_bytes, without_count, charge_then};
ghost use Rattle.bincode_spec.specs.Meaning.{IsBytes};
ghost use Rattle.bincode_spec.specs.Words.{length_prefixed, text};
ghost use Rattle.bincode_spec.specs.Layers.Values.{Reads};
ghost use Rattle.bincode_decoder.specs.Memory.{RefusedForSome};

use crate::decoder::Decoder;
use crate::integers::read_from;
use crate::lengths::decode_length;
use bincode_base::error::DecodeError;
use std::alloc::Global;

/// `count` zeros, without spare capacity. Fails with `Memory` if the allocation is refused; never for none.
fn zeros(alloc: Global, count: usize) -> Result<Vec<u8>, DecodeError>
    ensures length { IfOk result (λ v. vec_len v ≡ count) }
    ensures room { IfOk result (λ v. vec_capacity v ≡ count) }
    ensures memory { IfErr result (λ e. (0 < count) × (e ≡ Memory)) }
{
    let Ok(mut bytes) = Vec::with_capacity(alloc, count) else {
        return Err(DecodeError::Memory);
    };
    for _ in 0..count {
        bytes.push_reserved(0);
    }
    Ok(bytes)
}

/// Charges `count` bytes, allocates for them and reads them in one piece. Fails with `LimitExceeded` before it
/// allocates, `Memory` if the allocation is refused (never for no bytes), or the error of the reader.
fn decode_claimed<D: Decoder>(decoder: &mut D, count: usize) -> Result<Vec<u8>, DecodeError>
    ensures room { IfOk result (λ v. vec_capacity v ≡ length v.items) }
    ensures read { Reads D.is_known D.remaining D.charge D.failures D.loans D.C.bound D.R.end_error D.R.device
        (0 < count) (charge_then count (without_count (fixed_bytes count))) (λ bytes v. bytes ≡ v.items)
        (D.charge decoder.old) result decoder.old decoder.new }
{
    decoder.claim_bytes_read(count)?;
    let mut bytes = zeros(decoder.alloc(), count)?;
    read_from(decoder, &mut bytes)?;
    Ok(bytes)
}

/// Reads a length prefix, then that many bytes in one piece into a vector without spare capacity. Fails with the error
/// of the length, `LimitExceeded` before it allocates, `Memory` if the allocation is refused (never for no bytes), or
/// the error of the reader.
pub fn decode_length_prefixed<D: Decoder>(decoder: &mut D) -> Result<Vec<u8>, DecodeError>
    ensures room { IfOk result (λ v. vec_capacity v ≡ length v.items) }
    ensures read { Reads D.is_known D.remaining D.charge D.failures D.loans D.C.bound D.R.end_error D.R.device
        (Unit {0}) (length_prefixed D.C.setting) (λ bytes v. bytes ≡ v.items) (D.charge decoder.old) result decoder.old
        decoder.new }
    ensures memory { RefusedForSome D.is_known D.remaining D.C.setting D.R.end_error D.R.device result decoder.old }
{
    let count = decode_length(decoder)?;
    decode_claimed(decoder, count)
}

/// Decodes a text without spare capacity. Fails like `decode_length_prefixed`, or with `Utf8` if the bytes are not
/// UTF-8; they are then consumed.
pub fn decode_text<D: Decoder>(decoder: &mut D) -> Result<String, DecodeError>
    ensures read { Reads D.is_known D.remaining D.charge D.failures D.loans D.C.bound D.R.end_error D.R.device
        (Unit {0}) (text D.C.setting) (λ m v. IsBytes (string_bytes v) m × (string_capacity v ≡ length
        (string_bytes v))) (D.charge decoder.old) result decoder.old decoder.new }
    ensures memory { RefusedForSome D.is_known D.remaining D.C.setting D.R.end_error D.R.device result decoder.old }
{
    let bytes = decode_length_prefixed(decoder)?;
    match String::from_utf8(bytes) {
        Ok(text) => Ok(text),
        Err(fault) => Err(DecodeError::Utf8 {
            inner: fault.utf8_error(),
        }),
    }
}
