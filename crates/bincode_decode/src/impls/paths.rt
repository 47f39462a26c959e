//! Decoding of paths, as texts.
use crate::borrow_decode::BorrowDecode;
use crate::decode::Decode;
use bincode_base::error::DecodeError;
use bincode_collections::values::Sequential;
use bincode_decoder::borrow::take_text;
use bincode_decoder::decoder::{BorrowDecoder, BorrowedBytes, Decoder};
use bincode_decoder::texts::decode_text;
use std::path::{Path, PathBuf};

impl<Context: Drop> Decode<Context> for PathBuf {
    type Run = Sequential;

    #[inline]
    fn decode<D: Decoder<Context = Context>>(decoder: &mut D) -> Result<PathBuf, DecodeError> {
        let text = decode_text(decoder)?;
        Ok(PathBuf::from(text))
    }
}

impl<B: BorrowedBytes, Context: Drop> BorrowDecode<B, Context> for PathBuf {
    type Run = Sequential;

    #[inline]
    fn borrow_decode<D: BorrowDecoder<B, Context = Context>>(
        decoder: &mut D,
    ) -> Result<PathBuf, DecodeError> {
        PathBuf::decode(decoder)
    }
}

impl<'de, Context: Drop> BorrowDecode<&'de [u8], Context> for Path<'de> {
    type Run = Sequential;

    #[inline]
    fn borrow_decode<D: BorrowDecoder<&'de [u8], Context = Context>>(
        decoder: &mut D,
    ) -> Result<Path<'de>, DecodeError> {
        let text = take_text(decoder)?;
        Ok(Path::new(text))
    }
}
