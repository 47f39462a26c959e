//! Encoding of characters.
ghost use Rattle.std.specs.Prelude.{◌≡◌};
ghost use Rattle.std.specs.Char.{encode_utf8, IsScalar};
ghost use Rattle.bincode_spec.specs.Meaning.{IsCharacter};
ghost use Rattle.bincode_spec.specs.Words.{character};
ghost use Rattle.bincode_spec.specs.Allowed.{AllowedWord};
ghost use Rattle.bincode_spec.specs.Encoding.{Encodes};

use crate::encoder::{Encoder, write_from};
use bincode_base::error::EncodeError;
use bincode_types::chars::{four_bytes_of_char, three_bytes_of_char, two_bytes_of_char};

// Each length has a write of its own: one of a constant length becomes a store.

#[inline(always)]
fn write_char<E: Encoder>(encoder: &mut E, code: u32, bytes: &[u8]) -> Result<(), EncodeError>
    requires scalar { IsScalar code }
    requires bytes { bytes.now ≡ encode_utf8 code }
    ensures { Encodes E.W.adds E.W.refuses E.writer_of E.loans (Unit {0})
        (AllowedWord (IsCharacter code) character) (λ _. ⊥) result encoder.old encoder.new }
{
    write_from(encoder, bytes)
}

/// Writes a character as UTF-8. Errors are those of the writer.
#[inline(always)]
pub fn encode_char<E: Encoder>(encoder: &mut E, val: char) -> Result<(), EncodeError>
    ensures { Encodes E.W.adds E.W.refuses E.writer_of E.loans (Unit {0})
        (AllowedWord (IsCharacter val) character) (λ _. ⊥) result encoder.old encoder.new }
{
    let code = u32::from(val);
    if code < 128 {
        return write_char(encoder, code, &[code as u8]);
    }
    if code < 2048 {
        return write_char(encoder, code, &two_bytes_of_char(code));
    }
    if code < 65536 {
        return write_char(encoder, code, &three_bytes_of_char(code));
    }
    write_char(encoder, code, &four_bytes_of_char(code))
}
