//! Decoding of values that are checked afterwards.
ghost use Rattle.std.specs.Prelude.{◌≡◌, true};
ghost use Rattle.bincode_spec.specs.Validated.{with_test};
ghost use Rattle.bincode_spec.specs.Layers.Values.{Reads};

use crate::values::ReadValues;
use bincode_base::error::DecodeError;
use bincode_decoder::decoder::Decoder;
use bincode_types::validated::{Validate, Validated};

/// Decodes a value, and tests it. Fails with the error of the value, or with the type's own if the test fails.
#[inline]
pub fn decode_validated<D: Decoder, V: ReadValues<D>, T: Validate<Of = V::Value> + Drop>(
    decoder: &mut D,
) -> Result<Validated<T>, DecodeError>
    ensures { Reads D.is_known D.remaining D.charge D.failures D.loans D.C.bound D.R.end_error D.R.device
        V.Value.words.may_allocate (with_test T.passes T.fault (V.Value.words.format D.C.setting))
        (λ m v. V.Value.words.decodes_to m (T.of v.0) × (T.passes m ≡ true)) (D.charge decoder.old) result decoder.old
        decoder.new }
{
    let of = V::read_value(decoder)?;
    let passed = T::validate(of)?;
    Ok(Validated(passed))
}
