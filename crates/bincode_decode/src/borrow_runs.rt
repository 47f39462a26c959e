//! Vectors and arrays of values that may borrow bytes of the source, without a length prefix.
ghost use Rattle.std.specs.Prelude.{◌≡◌, ◌*◌, ◌<◌, ◌⊎◌, length, IfOk, vec_capacity};
ghost use Rattle.bincode_spec.specs.Format.{elements};
ghost use Rattle.bincode_base.specs.Slots.{SlotsFit};
ghost use Rattle.bincode_spec.specs.Layers.Releases.{CanRelease, RoomReturned};
ghost use Rattle.bincode_spec.specs.Layers.Values.{RunRead};

use crate::borrow_decode::BorrowDecode;
use crate::strategies::ByBorrowDecode;
use bincode_base::error::DecodeError;
use bincode_collections::{arrays, runs};
use bincode_decoder::decoder::{BorrowDecoder, BorrowedBytes};

/// Decodes `len` values into a vector of that capacity. `claim_container_read` must have reserved their claims; each is
/// released before its value is read. Fails with the error of a value, or with `Memory` if the allocation is refused;
/// never so for no values.
#[inline]
pub fn borrow_decode_vec<T: BorrowDecode<B, D::Context>, D: BorrowDecoder<B>, B: BorrowedBytes>(
    decoder: &mut D,
    len: usize,
) -> Result<Vec<T>, DecodeError>
    requires { CanRelease D.C.bound (D.charge decoder.old) (len * T.words.claim) }
    ensures length { IfOk result (λ v. length v.items ≡ len) }
    ensures room { IfOk result (λ v. vec_capacity v ≡ len) }
    ensures read { RunRead D.is_known D.remaining D.charge D.failures D.loans D.C.bound D.R.end_error D.R.device
        (0 < len) T.words.claim (T.words.format D.C.setting) T.words.decodes_to len (λ v. v.items) result decoder.old
        decoder.new }
{
    runs::decode_vec::<D, ByBorrowDecode<B, T>>(decoder, len)
}

/// Decodes `N` elements into an array. `claim_container_read` must have reserved their claims; each is released before
/// its element is read, so that in the end the elements' own charges stand in place of their claims. Fails with the
/// error of an element, or with `Memory` if `N` slots of `Option<T>` cannot exist (`slots_fit`).
#[inline]
pub fn borrow_decode_array<
    T: BorrowDecode<B, D::Context>,
    D: BorrowDecoder<B>,
    const N: usize,
    B: BorrowedBytes,
>(decoder: &mut D) -> Result<[T; N], DecodeError>
    requires { CanRelease D.C.bound (D.charge decoder.old) (N * T.words.claim) }
    ensures read { RunRead D.is_known D.remaining D.charge D.failures D.loans D.C.bound D.R.end_error D.R.device
        (T.words.may_allocate ⊎ ¬ (SlotsFit T.row N)) T.words.claim (T.words.format D.C.setting) T.words.decodes_to N
        (λ v. v) result decoder.old decoder.new }
    ensures charge { D.is_known decoder.old → IfOk result (λ _. RoomReturned D.C.bound
        (elements N T.words.claim (T.words.format D.C.setting)) (N * T.words.claim) (D.remaining decoder.old)
        (D.remaining decoder.new) (D.charge decoder.old) (D.charge decoder.new)) }
{
    arrays::decode_array::<D, ByBorrowDecode<B, T>, N>(decoder)
}
