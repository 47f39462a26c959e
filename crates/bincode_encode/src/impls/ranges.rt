//! Encoding of ranges.
use crate::encode::Encode;
use crate::encode_parts::EncodeParts;
use bincode_base::error::EncodeError;
use bincode_encoder::encoder::Encoder;
use std::ops::{Range, RangeInclusive};

impl<T: Encode> EncodeParts for Range<T> {
    fn tell_valid_parts(&self) {
        (&self.start, &self.end).tell_valid();
    }

    fn encode_parts<E: Encoder>(&self, encoder: &mut E) -> Result<(), EncodeError> {
        (&self.start, &self.end).encode(encoder)
    }
}

impl<T: Encode> EncodeParts for RangeInclusive<T> {
    fn tell_valid_parts(&self) {
        (self.start(), self.end()).tell_valid();
    }

    fn encode_parts<E: Encoder>(&self, encoder: &mut E) -> Result<(), EncodeError> {
        (self.start(), self.end()).encode(encoder)
    }
}
