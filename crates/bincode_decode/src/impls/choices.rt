//! Decoding of `bool`, `Option`, `Result` and `Bound`.

use crate::borrow_decode::BorrowDecode;
use crate::decode::Decode;
use crate::make_by_parts::MakeByParts;
use bincode_base::error::DecodeError;
use bincode_collections::values::OverDefaults;
use bincode_decoder::decoder::{BorrowDecoder, BorrowedBytes, Decoder};
use bincode_decoder::truth::decode_truth;
use bincode_types::ranges_and_bounds::bound_from_parts;
use bincode_types::sums::VariantOf;
use std::ops::Bound;

impl<Context: Drop> Decode<Context> for bool {
    type Run = OverDefaults;

    fn decode<D: Decoder<Context = Context>>(decoder: &mut D) -> Result<bool, DecodeError> {
        decode_truth(decoder)
    }
}

impl<B: BorrowedBytes, Context: Drop> BorrowDecode<B, Context> for bool {
    type Run = OverDefaults;

    #[inline]
    fn borrow_decode<D: BorrowDecoder<B, Context = Context>>(
        decoder: &mut D,
    ) -> Result<bool, DecodeError> {
        bool::decode(decoder)
    }
}

impl<T> MakeByParts for Option<T> {
    fn make_by_parts(parts: Self::Parts) -> Self {
        match parts.0 {
            VariantOf::This(()) => None,
            VariantOf::Other(VariantOf::This(value)) => Some(value),
        }
    }
}

impl<T, U> MakeByParts for Result<T, U> {
    fn make_by_parts(parts: Self::Parts) -> Self {
        match parts.0 {
            VariantOf::This(value) => Ok(value),
            VariantOf::Other(VariantOf::This(value)) => Err(value),
        }
    }
}

impl<T> MakeByParts for Bound<T> {
    fn make_by_parts(parts: Self::Parts) -> Self {
        bound_from_parts(parts)
    }
}
