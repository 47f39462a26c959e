//! Types that are encoded as their parts.
ghost use Rattle.bincode_spec.specs.Allowed.{AllowedWord};
ghost use Rattle.bincode_spec.specs.Encoding.{Encodes};

use crate::encode::Encode;
use bincode_base::error::EncodeError;
use bincode_encoder::answers::rebuild_result;
use bincode_encoder::encoder::Encoder;
use bincode_types::by_parts::ByParts;
use bincode_types::wire::Wire;

/// A type that is encoded as its parts. It gets `Encode` from this, like most types here that are made of others. An
/// enum with type parameters has to use it: `Encode::as_bytes` of the enum itself asks that the sum of its variants
/// takes less than 2^63 bytes, which cannot be known of a parameter.
pub trait EncodeParts: Wire + ByParts + Drop {
    /// The maximum size of a value, as `Encode::MAX_FIXED_SIZE`. To be set for a type with parameters whose size in
    /// memory is not known.
    const MOST_OF_PARTS: Option<usize> = None;

    /// Proves that this value is valid, like `Encode::tell_valid`.
    fn tell_valid_parts(&self)
        ensures { Self.words.valid self.now };

    /// Writes the encoding of this value, like `Encode::encode`.
    fn encode_parts<E: Encoder>(&self, encoder: &mut E) -> Result<(), EncodeError>
        ensures { Encodes E.W.adds E.W.refuses E.writer_of E.loans
            (Self.words.writable E.C.setting self.now)
            (AllowedWord (Self.words.means self.now) (Self.words.format E.C.setting))
            Self.words.own_errors result encoder.old encoder.new };
}

impl<T: EncodeParts> Encode for T {
    const MAX_FIXED_SIZE: Option<usize> = T::MOST_OF_PARTS;

    #[inline]
    fn tell_valid(&self) {
        self.tell_valid_parts();
    }

    #[inline(always)]
    fn encode<E: Encoder>(&self, encoder: &mut E) -> Result<(), EncodeError> {
        rebuild_result(self.encode_parts(encoder))
    }
}
