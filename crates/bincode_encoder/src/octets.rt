//! Encoding of the octets of addresses.
ghost use Rattle.std.specs.Prelude.{pos};
ghost use Rattle.bincode_base.specs.declared.error.IntegerType.TheVariants.{U16};
ghost use Rattle.bincode_spec.specs.Integers.{unsigned_integer};
ghost use Rattle.bincode_spec.specs.Meaning.{IsBytes, IsNumber, IsThen, IsNothing};
ghost use Rattle.bincode_spec.specs.Octets.{octets};
ghost use Rattle.bincode_spec.specs.Words.{natural_number, nothing, first_and};
ghost use Rattle.bincode_spec.specs.Allowed.{AllowedWord};
ghost use Rattle.bincode_spec.specs.Encoding.{Encodes};

use crate::encoder::{Encoder, write_from};
use crate::integers::encode_integer;
use bincode_base::error::EncodeError;

/// Writes octets as they are, in one piece. Errors are those of the writer.
#[inline]
pub fn encode_octets<E: Encoder, const N: usize>(
    encoder: &mut E,
    val: &[u8; N],
) -> Result<(), EncodeError>
    ensures { Encodes E.W.adds E.W.refuses E.writer_of E.loans (Unit {0}) (AllowedWord (IsBytes val.now) (octets N))
        (λ _. ⊥) result encoder.old encoder.new }
{
    write_from(encoder, val)
}

/// Writes the octets of an address in one piece, then the port. Errors are those of the writer.
#[inline]
pub fn encode_socket<E: Encoder, const N: usize>(
    encoder: &mut E,
    address: &[u8; N],
    port: u16,
) -> Result<(), EncodeError>
    ensures { Encodes E.W.adds E.W.refuses E.writer_of E.loans (Unit {0})
        (AllowedWord (IsThen (IsBytes address.now) (IsThen (IsNumber (pos port)) IsNothing))
        (first_and (octets N) (first_and (natural_number (unsigned_integer U16 2 E.C.setting)) nothing)))
        (λ _. ⊥) result encoder.old encoder.new }
{
    encode_octets(encoder, address)?;
    encode_integer(encoder, port)
}
