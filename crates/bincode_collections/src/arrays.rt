//! Decoding of arrays, after the claim for their elements.
ghost use Rattle.std.specs.Prelude.{◌≡◌, ◌*◌, ◌⊎◌, List, Option, Some, length, map, OnOk, IfOk};
ghost use Rattle.bincode_spec.specs.Format.{elements};
ghost use Rattle.bincode_base.specs.Slots.{SlotsFit};
ghost use Rattle.bincode_spec.specs.Layers.Releases.{CanRelease, RoomReturned};
ghost use Rattle.bincode_spec.specs.Layers.Values.{RunRead};

use crate::runs::{decode_next, decode_run};
use crate::values::{DecodeRun, ReadValues};
use bincode_base::error::DecodeError;
use bincode_base::slots::{empty_slots, slots_fit, unwrap_all};
use bincode_decoder::decoder::Decoder;
use bincode_types::wire::Wire;

/// Fills each slot with an element. Releases the claim of an element before it is read.
fn decode_slots<D: Decoder, V: ReadValues<D>>(
    decoder: &mut D,
    slots: &mut [Option<V::Value>],
) -> Result<(), DecodeError>
    requires { CanRelease D.C.bound (D.charge decoder.old) (length slots.old * V.Value.words.claim) }
    ensures { (vs : List V.Value) × OnOk result (slots.new ≡ map Some vs)
        × RunRead D.is_known D.remaining D.charge D.failures D.loans D.C.bound D.R.end_error D.R.device
        V.Value.words.may_allocate V.Value.words.claim (V.Value.words.format D.C.setting) V.Value.words.decodes_to
        (length slots.old) (λ _. vs) result decoder.old decoder.new }
{
    for index in 0..slots.len() {
        slots[index] = Some(decode_next::<D, V>(decoder)?);
    }
    Ok(())
}

/// Fills the slots and unwraps them into an array.
fn decode_into<D: Decoder, V: ReadValues<D>, const N: usize>(
    decoder: &mut D,
    mut slots: [Option<V::Value>; N],
) -> Result<[V::Value; N], DecodeError>
    requires { CanRelease D.C.bound (D.charge decoder.old) (N * V.Value.words.claim) }
    ensures { RunRead D.is_known D.remaining D.charge D.failures D.loans D.C.bound D.R.end_error D.R.device
        V.Value.words.may_allocate V.Value.words.claim (V.Value.words.format D.C.setting) V.Value.words.decodes_to N
        (λ v. v) result decoder.old decoder.new }
{
    decode_slots::<D, V>(decoder, &mut slots[..])?;
    Ok(unwrap_all(slots))
}

/// Decodes over the elements of an array.
#[inline]
fn decode_over<D: Decoder, V: ReadValues<D>, const N: usize>(
    decoder: &mut D,
    mut values: [V::Value; N],
) -> Result<[V::Value; N], DecodeError>
    requires { CanRelease D.C.bound (D.charge decoder.old) (N * V.Value.words.claim) }
    ensures { RunRead D.is_known D.remaining D.charge D.failures D.loans D.C.bound D.R.end_error D.R.device
        V.Value.words.may_allocate V.Value.words.claim (V.Value.words.format D.C.setting) V.Value.words.decodes_to N
        (λ v. v) result decoder.old decoder.new }
{
    decode_run::<D, V>(decoder, &mut values[..])?;
    Ok(values)
}

/// Decodes `N` elements into an array. `claim_container_read` must have reserved their claims; each is released before
/// its element is read, so that in the end the elements' own charges stand in place of their claims. Fails with the
/// error of an element, or with `Memory` if `N` slots of `Option<V::Value>` cannot exist (`slots_fit`).
pub fn decode_array<D: Decoder, V: ReadValues<D>, const N: usize>(
    decoder: &mut D,
) -> Result<[V::Value; N], DecodeError>
    requires { CanRelease D.C.bound (D.charge decoder.old) (N * V.Value.words.claim) }
    ensures read { RunRead D.is_known D.remaining D.charge D.failures D.loans D.C.bound D.R.end_error D.R.device
        (V.Value.words.may_allocate ⊎ ¬ (SlotsFit V.Value.row N)) V.Value.words.claim (V.Value.words.format D.C.setting)
        V.Value.words.decodes_to N (λ v. v) result decoder.old decoder.new }
    ensures charge { D.is_known decoder.old → IfOk result (λ _. RoomReturned D.C.bound
        (elements N V.Value.words.claim (V.Value.words.format D.C.setting)) (N * V.Value.words.claim)
        (D.remaining decoder.old) (D.remaining decoder.new) (D.charge decoder.old) (D.charge decoder.new)) }
{
    if let Some(values) = V::Run::blank_array::<[V::Value; N]>() {
        return decode_over::<D, V, N>(decoder, values);
    }
    if !slots_fit::<V::Value, N>() {
        return Err(DecodeError::Memory);
    }
    decode_into::<D, V, N>(decoder, empty_slots())
}
