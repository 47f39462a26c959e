//! Encoding of atomics, as cells of the numbers that are loaded.
use crate::encode::Encode;
use crate::encode_parts::EncodeParts;
use bincode_base::error::EncodeError;
use bincode_encoder::encoder::Encoder;
use std::cell::Cell;
use std::sync::atomic::{
    AtomicBool, AtomicI8, AtomicI16, AtomicI32, AtomicI64, AtomicIsize, AtomicU8, AtomicU16,
    AtomicU32, AtomicU64, AtomicUsize, Ordering,
};

impl EncodeParts for AtomicBool {
    fn tell_valid_parts(&self) {}

    #[inline]
    fn encode_parts<E: Encoder>(&self, encoder: &mut E) -> Result<(), EncodeError> {
        Cell::new(self.load(Ordering::SeqCst)).encode(encoder)
    }
}

impl EncodeParts for AtomicU8 {
    fn tell_valid_parts(&self) {}

    #[inline]
    fn encode_parts<E: Encoder>(&self, encoder: &mut E) -> Result<(), EncodeError> {
        Cell::new(self.load(Ordering::SeqCst)).encode(encoder)
    }
}

impl EncodeParts for AtomicU16 {
    fn tell_valid_parts(&self) {}

    #[inline]
    fn encode_parts<E: Encoder>(&self, encoder: &mut E) -> Result<(), EncodeError> {
        Cell::new(self.load(Ordering::SeqCst)).encode(encoder)
    }
}

impl EncodeParts for AtomicU32 {
    fn tell_valid_parts(&self) {}

    #[inline]
    fn encode_parts<E: Encoder>(&self, encoder: &mut E) -> Result<(), EncodeError> {
        Cell::new(self.load(Ordering::SeqCst)).encode(encoder)
    }
}

impl EncodeParts for AtomicU64 {
    fn tell_valid_parts(&self) {}

    #[inline]
    fn encode_parts<E: Encoder>(&self, encoder: &mut E) -> Result<(), EncodeError> {
        Cell::new(self.load(Ordering::SeqCst)).encode(encoder)
    }
}

impl EncodeParts for AtomicUsize {
    fn tell_valid_parts(&self) {}

    #[inline]
    fn encode_parts<E: Encoder>(&self, encoder: &mut E) -> Result<(), EncodeError> {
        Cell::new(self.load(Ordering::SeqCst)).encode(encoder)
    }
}

impl EncodeParts for AtomicI8 {
    fn tell_valid_parts(&self) {}

    #[inline]
    fn encode_parts<E: Encoder>(&self, encoder: &mut E) -> Result<(), EncodeError> {
        Cell::new(self.load(Ordering::SeqCst)).encode(encoder)
    }
}

impl EncodeParts for AtomicI16 {
    fn tell_valid_parts(&self) {}

    #[inline]
    fn encode_parts<E: Encoder>(&self, encoder: &mut E) -> Result<(), EncodeError> {
        Cell::new(self.load(Ordering::SeqCst)).encode(encoder)
    }
}

impl EncodeParts for AtomicI32 {
    fn tell_valid_parts(&self) {}

    #[inline]
    fn encode_parts<E: Encoder>(&self, encoder: &mut E) -> Result<(), EncodeError> {
        Cell::new(self.load(Ordering::SeqCst)).encode(encoder)
    }
}

impl EncodeParts for AtomicI64 {
    fn tell_valid_parts(&self) {}

    #[inline]
    fn encode_parts<E: Encoder>(&self, encoder: &mut E) -> Result<(), EncodeError> {
        Cell::new(self.load(Ordering::SeqCst)).encode(encoder)
    }
}

impl EncodeParts for AtomicIsize {
    fn tell_valid_parts(&self) {}

    #[inline]
    fn encode_parts<E: Encoder>(&self, encoder: &mut E) -> Result<(), EncodeError> {
        Cell::new(self.load(Ordering::SeqCst)).encode(encoder)
    }
}
