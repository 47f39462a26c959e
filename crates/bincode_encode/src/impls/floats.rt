//! Encoding of floats.
ghost use Rattle.std.specs.Prelude.{◌≡◌, true};
ghost use Rattle.std.specs.Float.{binary32, binary64};
ghost use Rattle.std.specs.Float.Ieee.{fits};

use crate::encode::Encode;
use crate::encode_parts::EncodeParts;
use bincode_base::error::EncodeError;
use bincode_encoder::encoder::Encoder;
use bincode_encoder::floats::{encode_f32, encode_f64};
use std::cmp::OrderedFloat;

// Of a float behind a reference the prover does not know that it fits its format, and of one by value it does.
#[inline]
fn tell_f32_fits(_val: f32)
    ensures { fits binary32 _val ≡ true }
{}

impl Encode for f32 {
    const MAX_FIXED_SIZE: Option<usize> = Some(4);

    fn tell_valid(&self) {
        tell_f32_fits(*self)
    }

    #[inline(always)]
    fn encode<E: Encoder>(&self, encoder: &mut E) -> Result<(), EncodeError> {
        encode_f32(encoder, *self)
    }
}

// Of a float behind a reference the prover does not know that it fits its format, and of one by value it does.
#[inline]
fn tell_f64_fits(_val: f64)
    ensures { fits binary64 _val ≡ true }
{}

impl Encode for f64 {
    const MAX_FIXED_SIZE: Option<usize> = Some(8);

    fn tell_valid(&self) {
        tell_f64_fits(*self)
    }

    #[inline(always)]
    fn encode<E: Encoder>(&self, encoder: &mut E) -> Result<(), EncodeError> {
        encode_f64(encoder, *self)
    }
}

impl EncodeParts for OrderedFloat<f32> {
    const MOST_OF_PARTS: Option<usize> = Some(4);

    fn tell_valid_parts(&self) {
        tell_f32_fits(self.0)
    }

    #[inline]
    fn encode_parts<E: Encoder>(&self, encoder: &mut E) -> Result<(), EncodeError> {
        encode_f32(encoder, self.0)
    }
}

impl EncodeParts for OrderedFloat<f64> {
    const MOST_OF_PARTS: Option<usize> = Some(8);

    fn tell_valid_parts(&self) {
        tell_f64_fits(self.0)
    }

    #[inline]
    fn encode_parts<E: Encoder>(&self, encoder: &mut E) -> Result<(), EncodeError> {
        encode_f64(encoder, self.0)
    }
}
