//! Decoding of `NoVariants`.

use crate::borrow_decode::BorrowDecode;
use crate::decode::Decode;
use bincode_base::error::DecodeError;
use bincode_collections::values::Sequential;
use bincode_decoder::decoder::{BorrowDecoder, BorrowedBytes, Decoder};
use bincode_decoder::empty::decode_no_variants;
use bincode_decoder::tags::Named;
use bincode_types::empty::NoVariants;

impl<Context: Drop, Of: Named> Decode<Context> for NoVariants<Of> {
    type Run = Sequential;

    #[inline]
    fn decode<D: Decoder<Context = Context>>(decoder: &mut D) -> Result<Self, DecodeError> {
        decode_no_variants::<Of, Self, D>(decoder)
    }
}

impl<B: BorrowedBytes, Context: Drop, Of: Named> BorrowDecode<B, Context> for NoVariants<Of> {
    type Run = Sequential;

    #[inline]
    fn borrow_decode<D: BorrowDecoder<B, Context = Context>>(
        decoder: &mut D,
    ) -> Result<Self, DecodeError> {
        Self::decode(decoder)
    }
}
