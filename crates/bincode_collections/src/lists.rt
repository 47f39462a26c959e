//! Decoding of length-prefixed lists, in one allocation.
ghost use Rattle.std.specs.Prelude.{◌≡◌, ◌<◌, length, IfOk, vec_capacity};
ghost use Rattle.std.specs.BinaryHeap.{heap_items};
ghost use Rattle.std.specs.Box.{boxed_slice_items};
ghost use Rattle.std.specs.Rc.{rc_slice_items};
ghost use Rattle.bincode_spec.specs.Collections.{IsMadeOf, MakesBag};
ghost use Rattle.bincode_spec.specs.Run.{IsListOf};
ghost use Rattle.bincode_spec.specs.Layers.Values.{Reads};
ghost use Rattle.bincode_spec.specs.Words.{array, list};
ghost use Rattle.bincode_decoder.specs.Memory.{RefusedForSome};

use crate::runs::decode_vec;
use crate::values::ReadValues;
use bincode_base::error::DecodeError;
use bincode_decoder::decoder::{ClaimContainer, Decoder};
use bincode_decoder::lengths::decode_length;
use std::boxed::BoxedSlice;
use std::collections::{BinaryHeap, VecDeque};
use std::rc::RcSlice;

/// Claims `len` values, and decodes them. Fails with `LimitExceeded` before it allocates, or like `decode_vec`.
fn decode_claimed<D: Decoder, V: ReadValues<D>>(
    decoder: &mut D,
    len: usize,
) -> Result<Vec<V::Value>, DecodeError>
    ensures room { IfOk result (λ v. vec_capacity v ≡ length v.items) }
    ensures read { Reads D.is_known D.remaining D.charge D.failures D.loans D.C.bound D.R.end_error D.R.device (0 < len)
        (array len V.Value.words.claim (V.Value.words.format D.C.setting))
        (λ m v. IsListOf (λ x n. V.Value.words.decodes_to n x) v.items m)
        (D.charge decoder.old) result decoder.old decoder.new }
{
    decoder.claim_container_read::<V::Value>(len)?;
    decode_vec::<D, V>(decoder, len)
}

/// Decodes a length prefix and that many values into a vector without spare capacity; they are claimed before it
/// allocates. Fails with the error of the length, `LimitExceeded`, `Memory` if the allocation is refused, or the error
/// of a value.
pub fn decode_list<D: Decoder, V: ReadValues<D>>(
    decoder: &mut D,
) -> Result<Vec<V::Value>, DecodeError>
    ensures read { Reads D.is_known D.remaining D.charge D.failures D.loans D.C.bound D.R.end_error D.R.device
        (Unit {0}) (list D.C.setting V.Value.words.claim (V.Value.words.format D.C.setting))
        (λ m v. IsListOf (λ x n. V.Value.words.decodes_to n x) v.items m × (vec_capacity v ≡ length v.items))
        (D.charge decoder.old) result decoder.old decoder.new }
    ensures memory { RefusedForSome D.is_known D.remaining D.C.setting D.R.end_error D.R.device result decoder.old }
{
    let len = decode_length(decoder)?;
    decode_claimed::<D, V>(decoder, len)
}

/// Decodes like `decode_list`, and makes a heap of the vector.
pub fn decode_heap<D: Decoder, V: ReadValues<D>>(
    decoder: &mut D,
) -> Result<BinaryHeap<V::Value>, DecodeError>
where
    V::Value: Ord,
    ensures read { Reads D.is_known D.remaining D.charge D.failures D.loans D.C.bound D.R.end_error D.R.device
        (Unit {0}) (list D.C.setting V.Value.words.claim (V.Value.words.format D.C.setting))
        (λ m v. IsMadeOf MakesBag (λ x n. V.Value.words.decodes_to n x) (heap_items v) m) (D.charge decoder.old) result
        decoder.old decoder.new }
    ensures memory { RefusedForSome D.is_known D.remaining D.C.setting D.R.end_error D.R.device result decoder.old }
{
    let values = decode_list::<D, V>(decoder)?;
    Ok(BinaryHeap::from(values))
}

/// Decodes like `decode_list`, and makes a queue of the vector.
#[inline]
pub fn decode_queue<D: Decoder, V: ReadValues<D>>(
    decoder: &mut D,
) -> Result<VecDeque<V::Value>, DecodeError>
    ensures read { Reads D.is_known D.remaining D.charge D.failures D.loans D.C.bound D.R.end_error D.R.device
        (Unit {0}) (list D.C.setting V.Value.words.claim (V.Value.words.format D.C.setting))
        (λ m v. IsListOf (λ x n. V.Value.words.decodes_to n x) v.items m) (D.charge decoder.old) result decoder.old
        decoder.new }
    ensures memory { RefusedForSome D.is_known D.remaining D.C.setting D.R.end_error D.R.device result decoder.old }
{
    let list = decode_list::<D, V>(decoder)?;
    Ok(VecDeque::from(list))
}

/// Decodes like `decode_list`, and makes a boxed slice of the vector.
#[inline]
pub fn decode_boxed_slice<D: Decoder, V: ReadValues<D>>(
    decoder: &mut D,
) -> Result<BoxedSlice<V::Value>, DecodeError>
    ensures read { Reads D.is_known D.remaining D.charge D.failures D.loans D.C.bound D.R.end_error D.R.device
        (Unit {0}) (list D.C.setting V.Value.words.claim (V.Value.words.format D.C.setting))
        (λ m v. IsListOf (λ x n. V.Value.words.decodes_to n x) (boxed_slice_items v) m) (D.charge decoder.old) result
        decoder.old decoder.new }
    ensures memory { RefusedForSome D.is_known D.remaining D.C.setting D.R.end_error D.R.device result decoder.old }
{
    let list = decode_list::<D, V>(decoder)?;
    Ok(list.into_boxed_slice())
}

/// Decodes like `decode_list`, and makes a shared slice of the vector. That allocates once more: `Memory` if it is
/// refused.
#[inline]
pub fn decode_rc_slice<D: Decoder, V: ReadValues<D>>(
    decoder: &mut D,
) -> Result<RcSlice<V::Value>, DecodeError>
    ensures { Reads D.is_known D.remaining D.charge D.failures D.loans D.C.bound D.R.end_error D.R.device (Unit {0})
        (list D.C.setting V.Value.words.claim (V.Value.words.format D.C.setting))
        (λ m v. IsListOf (λ x n. V.Value.words.decodes_to n x) (rc_slice_items v) m) (D.charge decoder.old) result
        decoder.old decoder.new }
{
    let list = decode_list::<D, V>(decoder)?;
    let Ok(shared) = RcSlice::from_vec(list) else {
        return Err(DecodeError::Memory);
    };
    Ok(shared)
}
