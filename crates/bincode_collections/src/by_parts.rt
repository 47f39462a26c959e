//! Decoding of values that are made from their parts.
ghost use Rattle.std.specs.Prelude.{◌≡◌};
ghost use Rattle.bincode_spec.specs.Layers.Values.{Reads};

use bincode_base::error::DecodeError;
use bincode_decoder::decoder::Decoder;
use bincode_types::by_parts::ByParts;
use bincode_types::wire::Wire;

/// How the parts of a type are read, and a value is made from them.
pub trait MakeWhole<D: Decoder> {
    /// The type of the parts.
    type Parts: Wire;

    /// The type of the values.
    type Whole: ByParts<Parts = Self::Parts> + Drop;

    /// Decodes the parts, like `Decode::decode`.
    fn read_parts(decoder: &mut D) -> Result<Self::Parts, DecodeError>
        ensures { Reads D.is_known D.remaining D.charge D.failures D.loans D.C.bound D.R.end_error D.R.device
            Self.Parts.words.may_allocate (Self.Parts.words.format D.C.setting) Self.Parts.words.decodes_to
            (D.charge decoder.old) result decoder.old decoder.new };

    /// The value with these parts.
    fn make(parts: Self::Parts) -> Self::Whole
        ensures parts { Self.Whole.parts result ≡ parts }
        ensures promise { (Self.Whole.promise result).OfValue };
}

/// Decodes the parts and makes the value. Errors are those of the parts.
#[inline(always)]
pub fn decode_whole<D: Decoder, W: MakeWhole<D>>(decoder: &mut D) -> Result<W::Whole, DecodeError>
where
    W::Parts: Drop,
    ensures { Reads D.is_known D.remaining D.charge D.failures D.loans D.C.bound D.R.end_error D.R.device
        W.Parts.words.may_allocate (W.Parts.words.format D.C.setting)
        (λ m v. (W.Whole.promise v).Promised (W.Parts.words.decodes_to m (W.Whole.parts v))) (D.charge decoder.old)
        result decoder.old decoder.new }
{
    let parts = W::read_parts(decoder)?;
    Ok(W::make(parts))
}
