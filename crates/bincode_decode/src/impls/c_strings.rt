//! Decoding of owned C strings. Each allocates its bytes.
use crate::borrow_decode::BorrowDecode;
use crate::decode::Decode;
use bincode_base::error::DecodeError;
use bincode_collections::values::Sequential;
use bincode_decoder::c_strings::decode_c_string;
use bincode_decoder::decoder::{BorrowDecoder, BorrowedBytes, Decoder};
use bincode_types::own::ffi::CString;

impl<Context: Drop> Decode<Context> for CString {
    type Run = Sequential;

    #[inline]
    fn decode<D: Decoder<Context = Context>>(decoder: &mut D) -> Result<CString, DecodeError> {
        decode_c_string(decoder)
    }
}

impl<B: BorrowedBytes, Context: Drop> BorrowDecode<B, Context> for CString {
    type Run = Sequential;

    #[inline]
    fn borrow_decode<D: BorrowDecoder<B, Context = Context>>(
        decoder: &mut D,
    ) -> Result<CString, DecodeError> {
        CString::decode(decoder)
    }
}
