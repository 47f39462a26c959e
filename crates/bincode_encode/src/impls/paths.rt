//! Encoding of paths, as texts.
use super::texts::tell_text_valid;
use crate::encode_parts::EncodeParts;
use bincode_base::error::EncodeError;
use bincode_encoder::encoder::Encoder;
use bincode_encoder::texts::encode_text;
use std::path::{Path, PathBuf};

impl EncodeParts for PathBuf {
    fn tell_valid_parts(&self) {
        tell_text_valid(self.as_str());
    }

    #[inline]
    fn encode_parts<E: Encoder>(&self, encoder: &mut E) -> Result<(), EncodeError> {
        encode_text(encoder, self.as_str())
    }
}

impl EncodeParts for Path<'_> {
    fn tell_valid_parts(&self) {
        tell_text_valid(self.as_str());
    }

    #[inline]
    fn encode_parts<E: Encoder>(&self, encoder: &mut E) -> Result<(), EncodeError> {
        encode_text(encoder, self.as_str())
    }
}
