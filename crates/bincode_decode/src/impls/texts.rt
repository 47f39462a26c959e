//! Decoding of texts. Each allocates its bytes.
use crate::borrow_decode::BorrowDecode;
use crate::decode::Decode;
use bincode_base::error::DecodeError;
use bincode_collections::values::Sequential;
use bincode_decoder::borrow::take_text;
use bincode_decoder::decoder::{BorrowDecoder, BorrowedBytes, Decoder};
use bincode_decoder::texts::decode_text;
use std::borrow::CowStr;
use std::boxed::BoxedStr;
use std::rc::RcStr;

impl<Context: Drop> Decode<Context> for String {
    type Run = Sequential;

    #[inline]
    fn decode<D: Decoder<Context = Context>>(decoder: &mut D) -> Result<String, DecodeError> {
        decode_text(decoder)
    }
}

impl<B: BorrowedBytes, Context: Drop> BorrowDecode<B, Context> for String {
    type Run = Sequential;

    #[inline]
    fn borrow_decode<D: BorrowDecoder<B, Context = Context>>(
        decoder: &mut D,
    ) -> Result<String, DecodeError> {
        String::decode(decoder)
    }
}

impl<Context: Drop> Decode<Context> for BoxedStr {
    type Run = Sequential;

    #[inline]
    fn decode<D: Decoder<Context = Context>>(decoder: &mut D) -> Result<BoxedStr, DecodeError> {
        let text = decode_text(decoder)?;
        Ok(text.into_boxed_str())
    }
}

impl<B: BorrowedBytes, Context: Drop> BorrowDecode<B, Context> for BoxedStr {
    type Run = Sequential;

    #[inline]
    fn borrow_decode<D: BorrowDecoder<B, Context = Context>>(
        decoder: &mut D,
    ) -> Result<BoxedStr, DecodeError> {
        BoxedStr::decode(decoder)
    }
}

impl<Context: Drop> Decode<Context> for RcStr {
    type Run = Sequential;

    #[inline]
    fn decode<D: Decoder<Context = Context>>(decoder: &mut D) -> Result<RcStr, DecodeError> {
        let text = decode_text(decoder)?;
        let Ok(shared) = RcStr::from_string(text) else {
            return Err(DecodeError::Memory);
        };
        Ok(shared)
    }
}

impl<B: BorrowedBytes, Context: Drop> BorrowDecode<B, Context> for RcStr {
    type Run = Sequential;

    #[inline]
    fn borrow_decode<D: BorrowDecoder<B, Context = Context>>(
        decoder: &mut D,
    ) -> Result<RcStr, DecodeError> {
        RcStr::decode(decoder)
    }
}

impl<'a, Context: Drop> Decode<Context> for CowStr<'a> {
    type Run = Sequential;

    #[inline]
    fn decode<D: Decoder<Context = Context>>(decoder: &mut D) -> Result<CowStr<'a>, DecodeError> {
        let text = decode_text(decoder)?;
        Ok(CowStr::Owned(text))
    }
}

impl<'de, Context: Drop> BorrowDecode<&'de [u8], Context> for &'de str {
    type Run = Sequential;

    #[inline]
    fn borrow_decode<D: BorrowDecoder<&'de [u8], Context = Context>>(
        decoder: &mut D,
    ) -> Result<&'de str, DecodeError> {
        take_text(decoder)
    }
}

impl<'de, Context: Drop> BorrowDecode<&'de [u8], Context> for CowStr<'de> {
    type Run = Sequential;

    #[inline]
    fn borrow_decode<D: BorrowDecoder<&'de [u8], Context = Context>>(
        decoder: &mut D,
    ) -> Result<CowStr<'de>, DecodeError> {
        let text = take_text(decoder)?;
        Ok(CowStr::Borrowed(text))
    }
}
