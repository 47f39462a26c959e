//! Types of your own that are made of all their parts at once.
ghost use Rattle.std.specs.Prelude.{◌≡◌};
ghost use Rattle.bincode_spec.specs.Layers.Values.{Reads};

use crate::decode::Decode;
use bincode_base::error::DecodeError;
use bincode_decoder::decoder::Decoder;
use bincode_types::has_parts::HasParts;

/// A type that is made from its parts.
pub trait FromParts<Parts>: HasParts<Parts> {
    /// The value with these parts.
    fn from_parts(parts: Parts) -> Self
        ensures { Self.parts result ≡ parts };
}

/// Decodes the parts of a value and makes it from them: for a struct of many fields. Errors are those of the parts.
#[inline(always)]
pub fn decode_by_parts<Parts: Decode<D::Context>, T: FromParts<Parts>, D: Decoder>(
    decoder: &mut D,
) -> Result<T, DecodeError>
    ensures { Reads D.is_known D.remaining D.charge D.failures D.loans D.C.bound D.R.end_error D.R.device
        Parts.words.may_allocate (Parts.words.format D.C.setting) (λ m v. Parts.words.decodes_to m (T.parts v))
        (D.charge decoder.old) result decoder.old decoder.new }
{
    let parts = Parts::decode(decoder)?;
    Ok(T::from_parts(parts))
}
