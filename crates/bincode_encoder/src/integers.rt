//! Encoding of integers and bytes.
ghost use Rattle.std.specs.Prelude.{pos, FitsSigned, length};
ghost use Rattle.std.specs.List.{All};
ghost use Rattle.std.specs.Int.{w8};
ghost use Rattle.bincode_spec.specs.Format.{map_format};
ghost use Rattle.bincode_spec.specs.Integers.{unsigned_byte, signed_byte};
ghost use Rattle.bincode_spec.specs.Meaning.{Number, IsNumber};
ghost use Rattle.bincode_spec.specs.Words.{natural_number, integer_number, array};
ghost use Rattle.bincode_spec.specs.Run.{IsListOf};
ghost use Rattle.bincode_spec.specs.Allowed.{AllowedWord};
ghost use Rattle.bincode_spec.specs.Encoding.{IsReady, Encodes};

use crate::answers::rebuild_result;
use crate::encoder::{Encoder, write_from};
use bincode_base::config::Config;
use bincode_base::error::EncodeError;
use bincode_io::bytes::byte_of_i8;
use bincode_io::number::Integer;

/// Writes an integer in the integer encoding and byte order of the configuration. Errors are those of the writer.
#[inline(always)]
pub fn encode_integer<T: Integer, E: Encoder>(encoder: &mut E, val: T) -> Result<(), EncodeError>
    requires fits { T.spelling.Fits val }
    ensures { Encodes E.W.adds E.W.refuses E.writer_of E.loans (Unit {0})
        (AllowedWord (IsNumber (T.spelling.integer val))
        (map_format (λ k. Number (T.spelling.integer k)) (T.spelling.words E.C.setting)))
        (λ _. ⊥) result encoder.old encoder.new }
{
    let endian = encoder.config().endianness();
    let encoding = encoder.config().int_encoding();
    rebuild_result(val.write(encoder.writer(), endian, encoding))
}

/// Writes a byte as it is. Errors are those of the writer.
#[inline(always)]
pub fn encode_byte<E: Encoder>(encoder: &mut E, val: u8) -> Result<(), EncodeError>
    ensures { Encodes E.W.adds E.W.refuses E.writer_of E.loans (Unit {0})
        (AllowedWord (IsNumber (pos val)) (natural_number unsigned_byte)) (λ _. ⊥) result encoder.old encoder.new }
{
    write_from(encoder, &[val])
}

/// Writes a signed byte in two's complement. Errors are those of the writer.
#[inline(always)]
pub fn encode_signed_byte<E: Encoder>(encoder: &mut E, val: i8) -> Result<(), EncodeError>
    requires { FitsSigned w8 val }
    ensures { Encodes E.W.adds E.W.refuses E.writer_of E.loans (Unit {0})
        (AllowedWord (IsNumber val) (integer_number signed_byte)) (λ _. ⊥) result encoder.old encoder.new }
{
    write_from(encoder, &[byte_of_i8(val)])
}

/// Returns the bytes: they are their own encoding.
#[inline(always)]
pub fn words_of_bytes(values: &[u8]) -> &[u8]
    ensures { IsReady (All (λ _. Unit {0}) values.now) (AllowedWord (IsListOf (λ v. IsNumber (pos v)) values.now)
        (array (length values.now) 1 (natural_number unsigned_byte))) result.now }
{
    values
}
