//! Decoding of slices and vectors of values, after the claim for them and without a length prefix.
ghost use Rattle.std.specs.Prelude.{◌≡◌, ◌*◌, ◌<◌, length, IfOk, IfSome, IfErr, vec_capacity};
ghost use Rattle.bincode_base.specs.declared.error.DecodeError.TheVariants.{Memory};
ghost use Rattle.bincode_spec.specs.Answer.{after_release};
ghost use Rattle.bincode_spec.specs.Layers.Releases.{CanRelease};
ghost use Rattle.bincode_spec.specs.Layers.Values.{Reads, RunRead};

use crate::values::{DecodeRun, ReadValues};
use bincode_base::error::DecodeError;
use bincode_decoder::decoder::Decoder;
use bincode_types::wire::Wire;
use std::alloc::Global;

/// Decodes into each element of `values`. `claim_container_read` must have reserved their claims; each is released
/// before its value is read. Errors are those of a value. After an error a prefix of the input is consumed, unless the
/// error is one that the device does not count, no more than the claims is released, and the content of `values` is
/// unspecified. `DecodeRun` may read them in bulk, with the same result.
#[inline]
pub fn decode_run<D: Decoder, V: ReadValues<D>>(
    decoder: &mut D,
    values: &mut [V::Value],
) -> Result<(), DecodeError>
    requires { CanRelease D.C.bound (D.charge decoder.old) (length values.old * V.Value.words.claim) }
    ensures { RunRead D.is_known D.remaining D.charge D.failures D.loans D.C.bound D.R.end_error D.R.device
        (V.Value.words.may_allocate × (0 < length values.old)) V.Value.words.claim (V.Value.words.format D.C.setting)
        V.Value.words.decodes_to (length values.old) (λ _. values.new) result decoder.old decoder.new }
{
    if !decoder.is_within_limit() {
        return decode_each::<D, V>(decoder, values);
    }
    if let Some(outcome) = V::Run::decode_at_once(decoder, values) {
        return outcome;
    }
    decode_each::<D, V>(decoder, values)
}

/// `decode_run` one by one.
#[inline]
fn decode_each<D: Decoder, V: ReadValues<D>>(
    decoder: &mut D,
    values: &mut [V::Value],
) -> Result<(), DecodeError>
    requires { CanRelease D.C.bound (D.charge decoder.old) (length values.old * V.Value.words.claim) }
    ensures { RunRead D.is_known D.remaining D.charge D.failures D.loans D.C.bound D.R.end_error D.R.device
        (V.Value.words.may_allocate × (0 < length values.old)) V.Value.words.claim (V.Value.words.format D.C.setting)
        V.Value.words.decodes_to (length values.old) (λ _. values.new) result decoder.old decoder.new }
{
    for index in 0..values.len() {
        values[index] = decode_next::<D, V>(decoder)?;
    }
    Ok(())
}

/// Releases the claim of one value, and decodes it.
#[inline(always)]
pub(crate) fn decode_next<D: Decoder, V: ReadValues<D>>(
    decoder: &mut D,
) -> Result<V::Value, DecodeError>
    requires { CanRelease D.C.bound (D.charge decoder.old) V.Value.words.claim }
    ensures { Reads D.is_known D.remaining D.charge D.failures D.loans D.C.bound D.R.end_error D.R.device
        V.Value.words.may_allocate (V.Value.words.format D.C.setting) V.Value.words.decodes_to
        (after_release D.C.bound (D.charge decoder.old) V.Value.words.claim) result decoder.old decoder.new }
{
    decoder.unclaim_bytes_read(V::Value::claim_size());
    V::read_value(decoder)
}

/// Decodes `len` values, as `decode_run` does, into a vector of that capacity. Fails with the error of a value, or with
/// `Memory` if the allocation is refused; never so for no values.
pub fn decode_vec<D: Decoder, V: ReadValues<D>>(
    decoder: &mut D,
    len: usize,
) -> Result<Vec<V::Value>, DecodeError>
    requires { CanRelease D.C.bound (D.charge decoder.old) (len * V.Value.words.claim) }
    ensures length { IfOk result (λ v. length v.items ≡ len) }
    ensures room { IfOk result (λ v. vec_capacity v ≡ len) }
    ensures read { RunRead D.is_known D.remaining D.charge D.failures D.loans D.C.bound D.R.end_error D.R.device
        (0 < len) V.Value.words.claim (V.Value.words.format D.C.setting) V.Value.words.decodes_to len (λ v. v.items)
        result decoder.old decoder.new }
{
    let Some(mut values) = blank_values::<D, V>(decoder.alloc(), len)? else {
        return decode_by_pushes::<D, V>(decoder, len);
    };
    decode_run::<D, V>(decoder, &mut values)?;
    Ok(values)
}

/// `decode_vec` for a type without default values to decode over.
fn decode_by_pushes<D: Decoder, V: ReadValues<D>>(
    decoder: &mut D,
    len: usize,
) -> Result<Vec<V::Value>, DecodeError>
    requires { CanRelease D.C.bound (D.charge decoder.old) (len * V.Value.words.claim) }
    ensures length { IfOk result (λ v. length v.items ≡ len) }
    ensures room { IfOk result (λ v. vec_capacity v ≡ len) }
    ensures read { RunRead D.is_known D.remaining D.charge D.failures D.loans D.C.bound D.R.end_error D.R.device
        (0 < len) V.Value.words.claim (V.Value.words.format D.C.setting) V.Value.words.decodes_to len (λ v. v.items)
        result decoder.old decoder.new }
{
    let Ok(mut values) = Vec::with_capacity(decoder.alloc(), len) else {
        return Err(DecodeError::Memory);
    };
    for _ in 0..len {
        values.push_reserved(decode_next::<D, V>(decoder)?);
    }
    Ok(values)
}

/// A vector of `len` default values, if the type has them and claims one byte for each, as types do that are decoded in
/// bulk: others are pushed, which is faster than to write zeros first. Fails with `Memory` if the allocation is
/// refused.
fn blank_values<D: Decoder, V: ReadValues<D>>(
    alloc: Global,
    len: usize,
) -> Result<Option<Vec<V::Value>>, DecodeError>
    ensures length { IfOk result (λ blank. IfSome blank (λ v. length v.items ≡ len)) }
    ensures room { IfOk result (λ blank. IfSome blank (λ v. vec_capacity v ≡ len)) }
    ensures err { IfErr result (λ e. (0 < len) × (e ≡ Memory)) }
{
    if V::Value::claim_size() > 1 || V::Run::blank_array::<[V::Value; 0]>().is_none() {
        return Ok(None);
    }
    let Ok(mut values) = Vec::with_capacity(alloc, len) else {
        return Err(DecodeError::Memory);
    };
    for _ in 0..len {
        let Some([blank]) = V::Run::blank_array::<[V::Value; 1]>() else {
            return Ok(None);
        };
        values.push_reserved(blank);
    }
    Ok(Some(values))
}
