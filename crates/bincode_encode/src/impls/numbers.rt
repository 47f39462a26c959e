//! Encoding of integers.
use crate::encode::Encode;
use bincode_base::error::EncodeError;
use bincode_encoder::encoder::Encoder;
use bincode_encoder::integers::{encode_byte, encode_integer, encode_signed_byte, words_of_bytes};

impl Encode for u8 {
    const MAX_FIXED_SIZE: Option<usize> = Some(1);

    fn tell_valid(&self) {
        let _value = *self;
    }

    #[inline(always)]
    fn encode<E: Encoder>(&self, encoder: &mut E) -> Result<(), EncodeError> {
        encode_byte(encoder, *self)
    }

    #[inline]
    fn as_bytes(items: &[u8]) -> Option<&[u8]> {
        Some(words_of_bytes(items))
    }
}

impl Encode for u16 {
    const MAX_FIXED_SIZE: Option<usize> = Some(2);

    fn tell_valid(&self) {
        let _value = *self;
    }

    #[inline(always)]
    fn encode<E: Encoder>(&self, encoder: &mut E) -> Result<(), EncodeError> {
        encode_integer(encoder, *self)
    }
}

impl Encode for u32 {
    const MAX_FIXED_SIZE: Option<usize> = Some(4);

    fn tell_valid(&self) {
        let _value = *self;
    }

    #[inline(always)]
    fn encode<E: Encoder>(&self, encoder: &mut E) -> Result<(), EncodeError> {
        encode_integer(encoder, *self)
    }
}

impl Encode for u64 {
    const MAX_FIXED_SIZE: Option<usize> = Some(8);

    fn tell_valid(&self) {
        let _value = *self;
    }

    #[inline(always)]
    fn encode<E: Encoder>(&self, encoder: &mut E) -> Result<(), EncodeError> {
        encode_integer(encoder, *self)
    }
}

impl Encode for u128 {
    const MAX_FIXED_SIZE: Option<usize> = Some(16);

    fn tell_valid(&self) {
        let _value = *self;
    }

    #[inline(always)]
    fn encode<E: Encoder>(&self, encoder: &mut E) -> Result<(), EncodeError> {
        encode_integer(encoder, *self)
    }
}

impl Encode for usize {
    const MAX_FIXED_SIZE: Option<usize> = Some(8);

    fn tell_valid(&self) {
        let _value = *self;
    }

    #[inline(always)]
    fn encode<E: Encoder>(&self, encoder: &mut E) -> Result<(), EncodeError> {
        encode_integer(encoder, *self)
    }
}

impl Encode for i8 {
    const MAX_FIXED_SIZE: Option<usize> = Some(1);

    fn tell_valid(&self) {
        let _value = *self;
    }

    #[inline(always)]
    fn encode<E: Encoder>(&self, encoder: &mut E) -> Result<(), EncodeError> {
        self.tell_valid();
        encode_signed_byte(encoder, *self)
    }
}

impl Encode for i16 {
    const MAX_FIXED_SIZE: Option<usize> = Some(2);

    fn tell_valid(&self) {
        let _value = *self;
    }

    #[inline(always)]
    fn encode<E: Encoder>(&self, encoder: &mut E) -> Result<(), EncodeError> {
        encode_integer(encoder, *self)
    }
}

impl Encode for i32 {
    const MAX_FIXED_SIZE: Option<usize> = Some(4);

    fn tell_valid(&self) {
        let _value = *self;
    }

    #[inline(always)]
    fn encode<E: Encoder>(&self, encoder: &mut E) -> Result<(), EncodeError> {
        encode_integer(encoder, *self)
    }
}

impl Encode for i64 {
    const MAX_FIXED_SIZE: Option<usize> = Some(8);

    fn tell_valid(&self) {
        let _value = *self;
    }

    #[inline(always)]
    fn encode<E: Encoder>(&self, encoder: &mut E) -> Result<(), EncodeError> {
        encode_integer(encoder, *self)
    }
}

impl Encode for i128 {
    const MAX_FIXED_SIZE: Option<usize> = Some(16);

    fn tell_valid(&self) {
        let _value = *self;
    }

    #[inline(always)]
    fn encode<E: Encoder>(&self, encoder: &mut E) -> Result<(), EncodeError> {
        encode_integer(encoder, *self)
    }
}

impl Encode for isize {
    const MAX_FIXED_SIZE: Option<usize> = Some(8);

    fn tell_valid(&self) {
        let _value = *self;
    }

    #[inline(always)]
    fn encode<E: Encoder>(&self, encoder: &mut E) -> Result<(), EncodeError> {
        encode_integer(encoder, *self)
    }
}
