//! Encoding of floats.
ghost use Rattle.std.specs.Float.{binary32, binary64};
ghost use Rattle.bincode_spec.specs.Floats.{float};
ghost use Rattle.bincode_spec.specs.Meaning.{IsReal};
ghost use Rattle.bincode_spec.specs.Allowed.{AllowedWord};
ghost use Rattle.bincode_spec.specs.Encoding.{Encodes};

use crate::encoder::{Encoder, write_from};
use bincode_base::config::Config;
use bincode_base::error::EncodeError;
use bincode_io::bytes::{bytes_of_u32, bytes_of_u64};
use std::num::{f32_to_bits_with_nan, f64_to_bits_with_nan};

/// Writes the bits of a float in the byte order of the configuration, and for every NaN those of the quiet one. Errors
/// are those of the writer.
#[inline(always)]
pub fn encode_f32<E: Encoder>(encoder: &mut E, val: f32) -> Result<(), EncodeError>
    ensures { Encodes E.W.adds E.W.refuses E.writer_of E.loans (Unit {0})
        (AllowedWord (IsReal val) (float binary32 E.C.setting)) (λ _. ⊥) result encoder.old
        encoder.new }
{
    let endian = encoder.config().endianness();
    let bits = f32_to_bits_with_nan(val);
    write_from(encoder, &bytes_of_u32(endian, bits))
}

/// Writes the bits of a float in the byte order of the configuration, and for every NaN those of the quiet one. Errors
/// are those of the writer.
#[inline(always)]
pub fn encode_f64<E: Encoder>(encoder: &mut E, val: f64) -> Result<(), EncodeError>
    ensures { Encodes E.W.adds E.W.refuses E.writer_of E.loans (Unit {0})
        (AllowedWord (IsReal val) (float binary64 E.C.setting)) (λ _. ⊥) result encoder.old
        encoder.new }
{
    let endian = encoder.config().endianness();
    let bits = f64_to_bits_with_nan(val);
    write_from(encoder, &bytes_of_u64(endian, bits))
}
