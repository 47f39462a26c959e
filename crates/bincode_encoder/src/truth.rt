//! Encoding of `bool`.
ghost use Rattle.bincode_spec.specs.Meaning.{IsTruth};
ghost use Rattle.bincode_spec.specs.Words.{truth};
ghost use Rattle.bincode_spec.specs.Allowed.{AllowedWord};
ghost use Rattle.bincode_spec.specs.Encoding.{Encodes};

use crate::encoder::{Encoder, write_from};
use bincode_base::error::EncodeError;

/// Writes 0 or 1. Errors are those of the writer.
#[inline(always)]
pub fn encode_truth<E: Encoder>(encoder: &mut E, val: bool) -> Result<(), EncodeError>
    ensures { Encodes E.W.adds E.W.refuses E.writer_of E.loans (Unit {0}) (AllowedWord (IsTruth val) truth)
        (λ _. ⊥) result encoder.old encoder.new }
{
    write_from(encoder, &[u8::from(val)])
}
