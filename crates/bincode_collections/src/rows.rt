//! Decoding of rows.
ghost use Rattle.std.specs.Prelude.{◌⊎◌};
ghost use Rattle.bincode_spec.specs.Meaning.{IsThen};
ghost use Rattle.bincode_spec.specs.Words.{first_and};
ghost use Rattle.bincode_spec.specs.Layers.Values.{Reads};

use crate::values::ReadValues;
use bincode_base::error::DecodeError;
use bincode_decoder::decoder::Decoder;
use bincode_types::rows::Cons;

/// Decodes a part, then the tail. Errors are those of the two.
#[inline(always)]
pub fn decode_row<D: Decoder, A: ReadValues<D>, Others: ReadValues<D>>(
    decoder: &mut D,
) -> Result<Cons<A::Value, Others::Value>, DecodeError>
    ensures { Reads D.is_known D.remaining D.charge D.failures D.loans D.C.bound D.R.end_error D.R.device
        (A.Value.words.may_allocate ⊎ Others.Value.words.may_allocate)
        (first_and (A.Value.words.format D.C.setting) (Others.Value.words.format D.C.setting))
        (λ m v. IsThen (λ p. A.Value.words.decodes_to p v.0) (λ p. Others.Value.words.decodes_to p v.1) m)
        (D.charge decoder.old) result decoder.old decoder.new }
{
    let first = A::read_value(decoder)?;
    let others = Others::read_value(decoder)?;
    Ok(Cons(first, others))
}
