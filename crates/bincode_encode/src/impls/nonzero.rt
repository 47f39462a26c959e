//! Encoding of `NonZero` integers.
ghost use Rattle.std.specs.Prelude.{◌<◌};
ghost use Rattle.bincode_spec.specs.Format.{map_format};
ghost use Rattle.bincode_spec.specs.Meaning.{Number, IsNumber};
ghost use Rattle.bincode_spec.specs.Words.{not_zero_by};
ghost use Rattle.bincode_spec.specs.Allowed.{AllowedWord};
ghost use Rattle.bincode_spec.specs.Encoding.{Encodes};

use crate::encode::Encode;
use crate::encode_parts::EncodeParts;
use bincode_base::error::EncodeError;
use bincode_encoder::encoder::Encoder;
use bincode_encoder::integers::encode_integer;
use bincode_io::number::Integer;
use std::num::{
    NonZeroI8, NonZeroI16, NonZeroI32, NonZeroI64, NonZeroI128, NonZeroIsize, NonZeroU8,
    NonZeroU16, NonZeroU32, NonZeroU64, NonZeroU128, NonZeroUsize,
};

/// Writes an integer that is not 0.
#[inline]
fn encode_not_zero<T: Integer, E: Encoder>(encoder: &mut E, val: T) -> Result<(), EncodeError>
    requires fits { T.spelling.Fits val }
    requires nonzero { 0 < T.spelling.size val }
    ensures { Encodes E.W.adds E.W.refuses E.writer_of E.loans (Unit {0})
        (AllowedWord (IsNumber (T.spelling.integer val)) (map_format (λ k. Number (T.spelling.integer k))
        (not_zero_by T.spelling.size T.spelling.name (T.spelling.words E.C.setting))))
        (λ _. ⊥) result encoder.old encoder.new }
{
    encode_integer(encoder, val)
}

impl EncodeParts for NonZeroU8 {
    const MOST_OF_PARTS: Option<usize> = Some(1);

    fn tell_valid_parts(&self) {
        let _value = self.get();
    }

    #[inline]
    fn encode_parts<E: Encoder>(&self, encoder: &mut E) -> Result<(), EncodeError> {
        self.get().encode(encoder)
    }
}

impl EncodeParts for NonZeroU16 {
    const MOST_OF_PARTS: Option<usize> = Some(2);

    fn tell_valid_parts(&self) {
        let _value = self.get();
    }

    #[inline]
    fn encode_parts<E: Encoder>(&self, encoder: &mut E) -> Result<(), EncodeError> {
        encode_not_zero(encoder, self.get())
    }
}

impl EncodeParts for NonZeroU32 {
    const MOST_OF_PARTS: Option<usize> = Some(4);

    fn tell_valid_parts(&self) {
        let _value = self.get();
    }

    #[inline]
    fn encode_parts<E: Encoder>(&self, encoder: &mut E) -> Result<(), EncodeError> {
        encode_not_zero(encoder, self.get())
    }
}

impl EncodeParts for NonZeroU64 {
    const MOST_OF_PARTS: Option<usize> = Some(8);

    fn tell_valid_parts(&self) {
        let _value = self.get();
    }

    #[inline]
    fn encode_parts<E: Encoder>(&self, encoder: &mut E) -> Result<(), EncodeError> {
        encode_not_zero(encoder, self.get())
    }
}

impl EncodeParts for NonZeroU128 {
    const MOST_OF_PARTS: Option<usize> = Some(16);

    fn tell_valid_parts(&self) {
        let _value = self.get();
    }

    #[inline]
    fn encode_parts<E: Encoder>(&self, encoder: &mut E) -> Result<(), EncodeError> {
        encode_not_zero(encoder, self.get())
    }
}

impl EncodeParts for NonZeroUsize {
    const MOST_OF_PARTS: Option<usize> = Some(8);

    fn tell_valid_parts(&self) {
        let _value = self.get();
    }

    #[inline]
    fn encode_parts<E: Encoder>(&self, encoder: &mut E) -> Result<(), EncodeError> {
        encode_not_zero(encoder, self.get())
    }
}

impl EncodeParts for NonZeroI8 {
    const MOST_OF_PARTS: Option<usize> = Some(1);

    fn tell_valid_parts(&self) {
        let _value = self.get();
    }

    #[inline]
    fn encode_parts<E: Encoder>(&self, encoder: &mut E) -> Result<(), EncodeError> {
        self.get().encode(encoder)
    }
}

impl EncodeParts for NonZeroI16 {
    const MOST_OF_PARTS: Option<usize> = Some(2);

    fn tell_valid_parts(&self) {
        let _value = self.get();
    }

    #[inline]
    fn encode_parts<E: Encoder>(&self, encoder: &mut E) -> Result<(), EncodeError> {
        encode_not_zero(encoder, self.get())
    }
}

impl EncodeParts for NonZeroI32 {
    const MOST_OF_PARTS: Option<usize> = Some(4);

    fn tell_valid_parts(&self) {
        let _value = self.get();
    }

    #[inline]
    fn encode_parts<E: Encoder>(&self, encoder: &mut E) -> Result<(), EncodeError> {
        encode_not_zero(encoder, self.get())
    }
}

impl EncodeParts for NonZeroI64 {
    const MOST_OF_PARTS: Option<usize> = Some(8);

    fn tell_valid_parts(&self) {
        let _value = self.get();
    }

    #[inline]
    fn encode_parts<E: Encoder>(&self, encoder: &mut E) -> Result<(), EncodeError> {
        encode_not_zero(encoder, self.get())
    }
}

impl EncodeParts for NonZeroI128 {
    const MOST_OF_PARTS: Option<usize> = Some(16);

    fn tell_valid_parts(&self) {
        let _value = self.get();
    }

    #[inline]
    fn encode_parts<E: Encoder>(&self, encoder: &mut E) -> Result<(), EncodeError> {
        encode_not_zero(encoder, self.get())
    }
}

impl EncodeParts for NonZeroIsize {
    const MOST_OF_PARTS: Option<usize> = Some(8);

    fn tell_valid_parts(&self) {
        let _value = self.get();
    }

    #[inline]
    fn encode_parts<E: Encoder>(&self, encoder: &mut E) -> Result<(), EncodeError> {
        encode_not_zero(encoder, self.get())
    }
}
