//! Encoding of wrappers and references.
use crate::encode::Encode;
use crate::encode_parts::EncodeParts;
use bincode_base::error::EncodeError;
use bincode_encoder::encoder::Encoder;
use std::cmp::Reverse;
use std::marker::PhantomData;
use std::num::Wrapping;

impl<T: Encode> EncodeParts for Wrapping<T> {
    const MOST_OF_PARTS: Option<usize> = T::MAX_FIXED_SIZE;

    fn tell_valid_parts(&self) {
        self.0.tell_valid();
    }

    #[inline(always)]
    fn encode_parts<E: Encoder>(&self, encoder: &mut E) -> Result<(), EncodeError> {
        let Wrapping(value) = self;
        value.encode(encoder)
    }
}

impl<T: Encode> EncodeParts for Reverse<T> {
    const MOST_OF_PARTS: Option<usize> = T::MAX_FIXED_SIZE;

    fn tell_valid_parts(&self) {
        self.0.tell_valid();
    }

    #[inline(always)]
    fn encode_parts<E: Encoder>(&self, encoder: &mut E) -> Result<(), EncodeError> {
        let Reverse(value) = self;
        value.encode(encoder)
    }
}

impl<T> EncodeParts for PhantomData<T> {
    fn tell_valid_parts(&self) {}

    #[inline(always)]
    fn encode_parts<E: Encoder>(&self, encoder: &mut E) -> Result<(), EncodeError> {
        ().encode(encoder)
    }
}

impl<T: Encode> EncodeParts for &T {
    const MOST_OF_PARTS: Option<usize> = T::MAX_FIXED_SIZE;

    fn tell_valid_parts(&self) {
        (**self).tell_valid();
    }

    #[inline(always)]
    fn encode_parts<E: Encoder>(&self, encoder: &mut E) -> Result<(), EncodeError> {
        (**self).encode(encoder)
    }
}
