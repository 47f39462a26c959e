//! Decoding of characters.

use crate::borrow_decode::BorrowDecode;
use crate::decode::Decode;
use bincode_base::error::DecodeError;
use bincode_collections::values::OverDefaults;
use bincode_decoder::chars::decode_char;
use bincode_decoder::decoder::{BorrowDecoder, BorrowedBytes, Decoder};

impl<Context: Drop> Decode<Context> for char {
    type Run = OverDefaults;

    #[inline(always)]
    fn decode<D: Decoder<Context = Context>>(decoder: &mut D) -> Result<char, DecodeError> {
        decode_char(decoder)
    }
}

impl<B: BorrowedBytes, Context: Drop> BorrowDecode<B, Context> for char {
    type Run = OverDefaults;

    #[inline(always)]
    fn borrow_decode<D: BorrowDecoder<B, Context = Context>>(
        decoder: &mut D,
    ) -> Result<char, DecodeError> {
        char::decode(decoder)
    }
}
