//! Decoding of characters.
ghost use Rattle.std.specs.Prelude.{◌≡◌, Some};
ghost use Rattle.bincode_spec.specs.Format.{charge_then};
ghost use Rattle.bincode_spec.specs.Layers.Reads.{ReadsUncharged};
ghost use Rattle.bincode_spec.specs.Meaning.{Character, IsCharacter};
ghost use Rattle.bincode_spec.specs.Words.{char_width, character, rest_of_char};
ghost use Rattle.bincode_spec.specs.Layers.Values.{Reads, ReadsCharged};

use crate::decoder::Decoder;
use crate::integers::read_byte_from;
use bincode_base::error::DecodeError;
use bincode_types::chars::{read_rest_of_char, width_of_char};

// All are inlined, as for numbers: a call returns its result through memory, for the error in it.

#[inline(always)]
fn read_rest_of_char_from<D: Decoder>(
    decoder: &mut D,
    first: u8,
    width: usize,
) -> Result<char, DecodeError>
    requires { char_width first ≡ Some width }
    ensures { ReadsUncharged D.is_known D.remaining D.charge D.failures D.loans D.R.end_error D.R.device
        (rest_of_char first width) Character result decoder.old decoder.new }
{
    read_rest_of_char(decoder.reader(), first, width)
}

/// Charges a character of `width` bytes, and reads those after the first one.
#[inline(always)]
pub fn decode_rest_of_char<D: Decoder>(
    decoder: &mut D,
    first: u8,
    width: usize,
) -> Result<char, DecodeError>
    requires { char_width first ≡ Some width }
    ensures { ReadsCharged D.is_known D.remaining D.charge D.failures D.loans D.C.bound D.R.end_error D.R.device
        (charge_then width (rest_of_char first width)) (λ m v. m ≡ Character v) width result decoder.old decoder.new }
{
    decoder.claim_bytes_read(width)?;
    read_rest_of_char_from(decoder, first, width)
}

/// Reads the first byte of a character, charges all its bytes, and reads the others. Fails with `InvalidCharEncoding`,
/// `LimitExceeded`, or the error of the reader.
#[inline(always)]
pub fn decode_char<D: Decoder>(decoder: &mut D) -> Result<char, DecodeError>
    ensures { Reads D.is_known D.remaining D.charge D.failures D.loans D.C.bound D.R.end_error D.R.device ⊥ character
        (λ m v. IsCharacter v m) (D.charge decoder.old) result decoder.old decoder.new }
{
    let first = read_byte_from(decoder)?;
    let Some(width) = width_of_char(first) else {
        return Err(DecodeError::InvalidCharEncoding([first, 0, 0, 0]));
    };
    decode_rest_of_char(decoder, first, width)
}
