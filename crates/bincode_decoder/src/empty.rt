//! Decoding of enums without variants.
ghost use Rattle.bincode_spec.specs.Fault.{EmptyEnum};
ghost use Rattle.bincode_spec.specs.Format.{fail};
ghost use Rattle.bincode_spec.specs.Meaning.{Meaning};
ghost use Rattle.bincode_spec.specs.Layers.Values.{Reads};

use crate::decoder::Decoder;
use crate::tags::Named;
use bincode_base::error::DecodeError;
use bincode_base::short_text::ShortText;

/// Fails with `EmptyEnum` and the name of `Of`. Reads and charges nothing, so neither the input nor the limit matters.
#[inline]
pub fn decode_no_variants<Of: Named, T, D: Decoder>(decoder: &mut D) -> Result<T, DecodeError>
    ensures { Reads D.is_known D.remaining D.charge D.failures D.loans D.C.bound D.R.end_error D.R.device ⊥
        (fail {A = Meaning} EmptyEnum) (λ m v. ⊥) (D.charge decoder.old) result decoder.old decoder.new }
{
    let _ = &*decoder;
    Err(DecodeError::EmptyEnum {
        type_name: ShortText::new(Of::type_name().as_str()),
    })
}
