//! Encoding of texts.
ghost use Rattle.std.specs.Prelude.{◌<◌, ◌^◌, length};
ghost use Rattle.std.specs.Str.{IsUtf8};

use crate::encode_parts::EncodeParts;
use bincode_base::error::EncodeError;
use bincode_encoder::encoder::Encoder;
use bincode_encoder::texts::encode_text;
use std::borrow::CowStr;
use std::boxed::BoxedStr;
use std::rc::RcStr;

/// Proves that the text is UTF-8 and that its length fits 64 bits. Takes constant time.
pub(super) fn tell_text_valid(text: &str)
    ensures { IsUtf8 text.now × (length text.now < 2 ^ 64) }
{
    let _len = text.len();
}

impl EncodeParts for String {
    fn tell_valid_parts(&self) {
        tell_text_valid(self);
    }

    #[inline(always)]
    fn encode_parts<E: Encoder>(&self, encoder: &mut E) -> Result<(), EncodeError> {
        encode_text(encoder, self)
    }
}

impl EncodeParts for &str {
    fn tell_valid_parts(&self) {
        tell_text_valid(self);
    }

    #[inline(always)]
    fn encode_parts<E: Encoder>(&self, encoder: &mut E) -> Result<(), EncodeError> {
        encode_text(encoder, self)
    }
}

impl EncodeParts for BoxedStr {
    fn tell_valid_parts(&self) {
        tell_text_valid(self);
    }

    #[inline(always)]
    fn encode_parts<E: Encoder>(&self, encoder: &mut E) -> Result<(), EncodeError> {
        encode_text(encoder, self)
    }
}

impl EncodeParts for RcStr {
    fn tell_valid_parts(&self) {
        tell_text_valid(self);
    }

    #[inline(always)]
    fn encode_parts<E: Encoder>(&self, encoder: &mut E) -> Result<(), EncodeError> {
        encode_text(encoder, self)
    }
}

impl EncodeParts for CowStr<'_> {
    fn tell_valid_parts(&self) {
        tell_text_valid(self);
    }

    #[inline(always)]
    fn encode_parts<E: Encoder>(&self, encoder: &mut E) -> Result<(), EncodeError> {
        encode_text(encoder, self)
    }
}
