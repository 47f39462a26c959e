//! Encoding of arrays.
use crate::encode::Encode;
use crate::runs::{ByEncode, encode_run};
use bincode_base::error::EncodeError;
use bincode_encoder::encoder::Encoder;
use bincode_encoder::runs::tell_each_valid;

impl<T: Encode, const N: usize> Encode for [T; N] {
    const MAX_FIXED_SIZE: Option<usize> = None;

    fn tell_valid(&self) {
        tell_each_valid::<ByEncode<T>>(self);
    }

    fn encode<E: Encoder>(&self, encoder: &mut E) -> Result<(), EncodeError> {
        encode_run(self, encoder)
    }
}
