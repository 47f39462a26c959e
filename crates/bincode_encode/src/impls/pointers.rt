//! Encoding of pointers, as their targets.
use crate::encode::Encode;
use crate::encode_parts::EncodeParts;
use bincode_base::error::EncodeError;
use bincode_encoder::answers::rebuild_result;
use bincode_encoder::encoder::Encoder;
use bincode_types::scalars::Scalar;
use std::borrow::Cow;
use std::rc::Rc;
use std::sync::Arc;

impl<T: Encode> Encode for Box<T> {
    const MAX_FIXED_SIZE: Option<usize> = T::MAX_FIXED_SIZE;

    fn tell_valid(&self) {
        (**self).tell_valid();
    }

    #[inline(always)]
    fn encode<E: Encoder>(&self, encoder: &mut E) -> Result<(), EncodeError> {
        rebuild_result((**self).encode(encoder))
    }
}

impl<T: Encode> EncodeParts for Rc<T> {
    const MOST_OF_PARTS: Option<usize> = T::MAX_FIXED_SIZE;

    fn tell_valid_parts(&self) {
        (**self).tell_valid();
    }

    #[inline(always)]
    fn encode_parts<E: Encoder>(&self, encoder: &mut E) -> Result<(), EncodeError> {
        (**self).encode(encoder)
    }
}

impl<T: Encode> EncodeParts for Arc<T> {
    const MOST_OF_PARTS: Option<usize> = T::MAX_FIXED_SIZE;

    fn tell_valid_parts(&self) {
        (**self).tell_valid();
    }

    #[inline(always)]
    fn encode_parts<E: Encoder>(&self, encoder: &mut E) -> Result<(), EncodeError> {
        (**self).encode(encoder)
    }
}

impl<T: Scalar + Encode + Clone> EncodeParts for Cow<'_, T> {
    fn tell_valid_parts(&self) {
        (**self).tell_valid();
    }

    #[inline(always)]
    fn encode_parts<E: Encoder>(&self, encoder: &mut E) -> Result<(), EncodeError> {
        (**self).encode(encoder)
    }
}
