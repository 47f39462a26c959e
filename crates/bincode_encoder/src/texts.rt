//! Encoding of texts.
ghost use Rattle.bincode_spec.specs.Meaning.{IsBytes};
ghost use Rattle.bincode_spec.specs.Words.{text};
ghost use Rattle.bincode_spec.specs.Allowed.{AllowedWord};
ghost use Rattle.bincode_spec.specs.Encoding.{Encodes};

use crate::encoder::{Encoder, write_from};
use crate::lists::encode_length;
use bincode_base::error::EncodeError;

/// Writes a text: its length in bytes, then the bytes in one piece. Errors are those of the writer.
#[inline(always)]
pub fn encode_text<E: Encoder>(encoder: &mut E, val: &str) -> Result<(), EncodeError>
    ensures { Encodes E.W.adds E.W.refuses E.writer_of E.loans (Unit {0})
        (AllowedWord (IsBytes val.now) (text E.C.setting)) (λ _. ⊥) result encoder.old encoder.new }
{
    let bytes = val.as_bytes();
    encode_length(encoder, bytes.len())?;
    write_from(encoder, bytes)
}
