//! Encoding of characters.
use crate::encode::Encode;
use bincode_base::error::EncodeError;
use bincode_encoder::chars::encode_char;
use bincode_encoder::encoder::Encoder;

impl Encode for char {
    const MAX_FIXED_SIZE: Option<usize> = Some(4);

    fn tell_valid(&self) {
        let _value = *self;
    }

    #[inline(always)]
    fn encode<E: Encoder>(&self, encoder: &mut E) -> Result<(), EncodeError> {
        encode_char(encoder, *self)
    }
}
