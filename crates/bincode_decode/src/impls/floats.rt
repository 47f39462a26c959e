//! Decoding of floats.

use crate::borrow_decode::BorrowDecode;
use crate::decode::Decode;
use bincode_base::error::DecodeError;
use bincode_collections::values::{OverDefaults, Sequential};
use bincode_decoder::decoder::{BorrowDecoder, BorrowedBytes, Decoder};
use bincode_decoder::floats::{decode_f32, decode_f64};
use std::cmp::OrderedFloat;

impl<Context: Drop> Decode<Context> for f32 {
    type Run = OverDefaults;

    #[inline(always)]
    fn decode<D: Decoder<Context = Context>>(decoder: &mut D) -> Result<f32, DecodeError> {
        decode_f32(decoder)
    }
}

impl<B: BorrowedBytes, Context: Drop> BorrowDecode<B, Context> for f32 {
    type Run = OverDefaults;

    #[inline(always)]
    fn borrow_decode<D: BorrowDecoder<B, Context = Context>>(
        decoder: &mut D,
    ) -> Result<f32, DecodeError> {
        f32::decode(decoder)
    }
}

impl<Context: Drop> Decode<Context> for f64 {
    type Run = OverDefaults;

    #[inline(always)]
    fn decode<D: Decoder<Context = Context>>(decoder: &mut D) -> Result<f64, DecodeError> {
        decode_f64(decoder)
    }
}

impl<B: BorrowedBytes, Context: Drop> BorrowDecode<B, Context> for f64 {
    type Run = OverDefaults;

    #[inline(always)]
    fn borrow_decode<D: BorrowDecoder<B, Context = Context>>(
        decoder: &mut D,
    ) -> Result<f64, DecodeError> {
        f64::decode(decoder)
    }
}

impl<Context: Drop> Decode<Context> for OrderedFloat<f32> {
    type Run = Sequential;

    #[inline]
    fn decode<D: Decoder<Context = Context>>(
        decoder: &mut D,
    ) -> Result<OrderedFloat<f32>, DecodeError> {
        let value = decode_f32(decoder)?;
        Ok(OrderedFloat(value))
    }
}

impl<B: BorrowedBytes, Context: Drop> BorrowDecode<B, Context> for OrderedFloat<f32> {
    type Run = Sequential;

    #[inline]
    fn borrow_decode<D: BorrowDecoder<B, Context = Context>>(
        decoder: &mut D,
    ) -> Result<OrderedFloat<f32>, DecodeError> {
        OrderedFloat::<f32>::decode(decoder)
    }
}

impl<Context: Drop> Decode<Context> for OrderedFloat<f64> {
    type Run = Sequential;

    #[inline]
    fn decode<D: Decoder<Context = Context>>(
        decoder: &mut D,
    ) -> Result<OrderedFloat<f64>, DecodeError> {
        let value = decode_f64(decoder)?;
        Ok(OrderedFloat(value))
    }
}

impl<B: BorrowedBytes, Context: Drop> BorrowDecode<B, Context> for OrderedFloat<f64> {
    type Run = Sequential;

    #[inline]
    fn borrow_decode<D: BorrowDecoder<B, Context = Context>>(
        decoder: &mut D,
    ) -> Result<OrderedFloat<f64>, DecodeError> {
        OrderedFloat::<f64>::decode(decoder)
    }
}
