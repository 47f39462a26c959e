//! Encoding of `bool`, `Option`, `Result` and `Bound`.
use crate::encode::Encode;
use crate::encode_parts::EncodeParts;
use crate::variants::encode_variant;
use bincode_base::error::EncodeError;
use bincode_encoder::encoder::Encoder;
use bincode_encoder::room::{most_of_both, most_of_either};
use bincode_encoder::truth::encode_truth;
use std::ops::Bound;

impl Encode for bool {
    const MAX_FIXED_SIZE: Option<usize> = Some(1);

    fn tell_valid(&self) {}

    #[inline(always)]
    fn encode<E: Encoder>(&self, encoder: &mut E) -> Result<(), EncodeError> {
        encode_truth(encoder, *self)
    }
}

impl<T: Encode> EncodeParts for Option<T> {
    const MOST_OF_PARTS: Option<usize> = most_of_both(Some(1), T::MAX_FIXED_SIZE);

    fn tell_valid_parts(&self) {
        if let Some(value) = self {
            value.tell_valid();
        }
    }

    #[inline(always)]
    fn encode_parts<E: Encoder>(&self, encoder: &mut E) -> Result<(), EncodeError> {
        match self {
            None => encode_variant(&None::<&T>, 0, &(), encoder),
            Some(value) => encode_variant(&Some(value), 1, value, encoder),
        }
    }
}

impl<T: Encode, U: Encode> EncodeParts for Result<T, U> {
    const MOST_OF_PARTS: Option<usize> = most_of_both(
        Some(4),
        most_of_either(T::MAX_FIXED_SIZE, U::MAX_FIXED_SIZE),
    );

    fn tell_valid_parts(&self) {
        match self {
            Ok(value) => value.tell_valid(),
            Err(value) => value.tell_valid(),
        }
    }

    #[inline(always)]
    fn encode_parts<E: Encoder>(&self, encoder: &mut E) -> Result<(), EncodeError> {
        match self {
            Ok(value) => encode_variant(&Ok::<&T, &U>(value), 0, value, encoder),
            Err(value) => encode_variant(&Err::<&T, &U>(value), 1, value, encoder),
        }
    }
}

impl<T: Encode> EncodeParts for Bound<T> {
    const MOST_OF_PARTS: Option<usize> = most_of_both(Some(4), T::MAX_FIXED_SIZE);

    fn tell_valid_parts(&self) {
        match self {
            Bound::Unbounded => {}
            Bound::Included(value) => value.tell_valid(),
            Bound::Excluded(value) => value.tell_valid(),
        }
    }

    #[inline(always)]
    fn encode_parts<E: Encoder>(&self, encoder: &mut E) -> Result<(), EncodeError> {
        match self {
            Bound::Unbounded => encode_variant(&Bound::<&T>::Unbounded, 0, &(), encoder),
            Bound::Included(value) => encode_variant(&Bound::Included(value), 1, value, encoder),
            Bound::Excluded(value) => encode_variant(&Bound::Excluded(value), 2, value, encoder),
        }
    }
}
