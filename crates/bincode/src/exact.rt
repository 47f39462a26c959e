//! Decoding bytes that are one encoding, and nothing more.
ghost use Rattle.std.specs.Prelude.{Result, IfOk, length, ℕ};
ghost use Rattle.bincode_base.specs.declared.error.DecodeError.{DecodeError};
ghost use Rattle.bincode_spec.specs.Slice.{IsDecoded, IsAnswer};
ghost use Rattle.bincode.specs.Exact.{TakesAll, ReadsWhole};

use crate::slice::decode_from_slice;
use bincode_base::config::Config;
use bincode_base::error::DecodeError;
use bincode_decode::decode::Decode;
use std::alloc::Global;
use std::error::Error;
use std::fmt;

/// Why bytes are not one encoding.
#[derive(Debug, Drop)]
pub enum DecodeExactError {
    /// They do not begin with an encoding within the limit, or decoding failed with `Memory`. The error says why.
    Decode(DecodeError),
    /// They begin with an encoding within the limit, and go on after it.
    TrailingBytes {
        /// The number of bytes of the encoding.
        taken: usize,
    },
}

impl fmt::Display for DecodeExactError {
    fn fmt<W: fmt::Write>(&self, f: &mut fmt::Formatter<W>) -> fmt::Result {
        match self {
            DecodeExactError::Decode(why) => write!(f, "{why}"),
            DecodeExactError::TrailingBytes { taken } => {
                write!(f, "bytes follow the {taken} of the encoding")
            }
        }
    }
}

impl Error for DecodeExactError {}

/// Decodes a value from a slice of which its encoding has all bytes: a message, the word of a frame, a file of one
/// value. Fails with `Decode`, which holds the error of `decode_from_slice`, or with `TrailingBytes` if bytes follow
/// the encoding.
pub fn decode_exact_from_slice<D: Decode<()>, C: Config>(
    alloc: Global,
    src: &[u8],
    config: C,
) -> Result<D, DecodeExactError>
    // All of the bytes are an encoding within the limit, and the value is one that it decodes to.
    ensures word { IfOk result (λ v. IsDecoded (D.words.format C.setting) C.bound src.now (λ m. D.words.decodes_to m v)
        (length src.now)) }
    // If all of them are an encoding within the limit, it is decoded, or the error is `Memory` and `D` may allocate.
    ensures found { ReadsWhole (D.words.format C.setting) C.bound D.words.may_allocate src.now result }
    // It is what `decode_from_slice` answers: the value, if all bytes were taken, or else how many were; or the error.
    ensures answer { (answer : Result (D × ℕ) DecodeError)
        × IsAnswer (D.words.format C.setting) C.bound D.words.may_allocate D.words.decodes_to src.now answer
        × TakesAll (length src.now) answer result }
{
    match decode_from_slice(alloc, src, config) {
        Ok((value, taken)) => {
            if taken < src.len() {
                return Err(DecodeExactError::TrailingBytes { taken });
            }
            Ok(value)
        }
        Err(why) => Err(DecodeExactError::Decode(why)),
    }
}
