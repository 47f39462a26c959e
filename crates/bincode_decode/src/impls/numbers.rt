//! Decoding of integers.

use crate::borrow_decode::BorrowDecode;
use crate::decode::Decode;
use bincode_base::error::DecodeError;
use bincode_collections::values::{Bulk, OverDefaults};
use bincode_decoder::decoder::{BorrowDecoder, BorrowedBytes, Decoder};
use bincode_decoder::integers::{decode_byte, decode_integer, decode_signed_byte};

impl<Context: Drop> Decode<Context> for u8 {
    type Run = Bulk;

    #[inline(always)]
    fn decode<D: Decoder<Context = Context>>(decoder: &mut D) -> Result<u8, DecodeError> {
        decode_byte(decoder)
    }
}

impl<B: BorrowedBytes, Context: Drop> BorrowDecode<B, Context> for u8 {
    type Run = Bulk;

    #[inline(always)]
    fn borrow_decode<D: BorrowDecoder<B, Context = Context>>(
        decoder: &mut D,
    ) -> Result<u8, DecodeError> {
        u8::decode(decoder)
    }
}

impl<Context: Drop> Decode<Context> for u16 {
    type Run = OverDefaults;

    #[inline(always)]
    fn decode<D: Decoder<Context = Context>>(decoder: &mut D) -> Result<u16, DecodeError> {
        decode_integer(decoder)
    }
}

impl<B: BorrowedBytes, Context: Drop> BorrowDecode<B, Context> for u16 {
    type Run = OverDefaults;

    #[inline(always)]
    fn borrow_decode<D: BorrowDecoder<B, Context = Context>>(
        decoder: &mut D,
    ) -> Result<u16, DecodeError> {
        u16::decode(decoder)
    }
}

impl<Context: Drop> Decode<Context> for u32 {
    type Run = OverDefaults;

    #[inline(always)]
    fn decode<D: Decoder<Context = Context>>(decoder: &mut D) -> Result<u32, DecodeError> {
        decode_integer(decoder)
    }
}

impl<B: BorrowedBytes, Context: Drop> BorrowDecode<B, Context> for u32 {
    type Run = OverDefaults;

    #[inline(always)]
    fn borrow_decode<D: BorrowDecoder<B, Context = Context>>(
        decoder: &mut D,
    ) -> Result<u32, DecodeError> {
        u32::decode(decoder)
    }
}

impl<Context: Drop> Decode<Context> for u64 {
    type Run = OverDefaults;

    #[inline(always)]
    fn decode<D: Decoder<Context = Context>>(decoder: &mut D) -> Result<u64, DecodeError> {
        decode_integer(decoder)
    }
}

impl<B: BorrowedBytes, Context: Drop> BorrowDecode<B, Context> for u64 {
    type Run = OverDefaults;

    #[inline(always)]
    fn borrow_decode<D: BorrowDecoder<B, Context = Context>>(
        decoder: &mut D,
    ) -> Result<u64, DecodeError> {
        u64::decode(decoder)
    }
}

impl<Context: Drop> Decode<Context> for u128 {
    type Run = OverDefaults;

    #[inline(always)]
    fn decode<D: Decoder<Context = Context>>(decoder: &mut D) -> Result<u128, DecodeError> {
        decode_integer(decoder)
    }
}

impl<B: BorrowedBytes, Context: Drop> BorrowDecode<B, Context> for u128 {
    type Run = OverDefaults;

    #[inline(always)]
    fn borrow_decode<D: BorrowDecoder<B, Context = Context>>(
        decoder: &mut D,
    ) -> Result<u128, DecodeError> {
        u128::decode(decoder)
    }
}

impl<Context: Drop> Decode<Context> for usize {
    type Run = OverDefaults;

    #[inline(always)]
    fn decode<D: Decoder<Context = Context>>(decoder: &mut D) -> Result<usize, DecodeError> {
        decode_integer(decoder)
    }
}

impl<B: BorrowedBytes, Context: Drop> BorrowDecode<B, Context> for usize {
    type Run = OverDefaults;

    #[inline(always)]
    fn borrow_decode<D: BorrowDecoder<B, Context = Context>>(
        decoder: &mut D,
    ) -> Result<usize, DecodeError> {
        usize::decode(decoder)
    }
}

impl<Context: Drop> Decode<Context> for i8 {
    type Run = OverDefaults;

    #[inline(always)]
    fn decode<D: Decoder<Context = Context>>(decoder: &mut D) -> Result<i8, DecodeError> {
        decode_signed_byte(decoder)
    }
}

impl<B: BorrowedBytes, Context: Drop> BorrowDecode<B, Context> for i8 {
    type Run = OverDefaults;

    #[inline(always)]
    fn borrow_decode<D: BorrowDecoder<B, Context = Context>>(
        decoder: &mut D,
    ) -> Result<i8, DecodeError> {
        i8::decode(decoder)
    }
}

impl<Context: Drop> Decode<Context> for i16 {
    type Run = OverDefaults;

    #[inline(always)]
    fn decode<D: Decoder<Context = Context>>(decoder: &mut D) -> Result<i16, DecodeError> {
        decode_integer(decoder)
    }
}

impl<B: BorrowedBytes, Context: Drop> BorrowDecode<B, Context> for i16 {
    type Run = OverDefaults;

    #[inline(always)]
    fn borrow_decode<D: BorrowDecoder<B, Context = Context>>(
        decoder: &mut D,
    ) -> Result<i16, DecodeError> {
        i16::decode(decoder)
    }
}

impl<Context: Drop> Decode<Context> for i32 {
    type Run = OverDefaults;

    #[inline(always)]
    fn decode<D: Decoder<Context = Context>>(decoder: &mut D) -> Result<i32, DecodeError> {
        decode_integer(decoder)
    }
}

impl<B: BorrowedBytes, Context: Drop> BorrowDecode<B, Context> for i32 {
    type Run = OverDefaults;

    #[inline(always)]
    fn borrow_decode<D: BorrowDecoder<B, Context = Context>>(
        decoder: &mut D,
    ) -> Result<i32, DecodeError> {
        i32::decode(decoder)
    }
}

impl<Context: Drop> Decode<Context> for i64 {
    type Run = OverDefaults;

    #[inline(always)]
    fn decode<D: Decoder<Context = Context>>(decoder: &mut D) -> Result<i64, DecodeError> {
        decode_integer(decoder)
    }
}

impl<B: BorrowedBytes, Context: Drop> BorrowDecode<B, Context> for i64 {
    type Run = OverDefaults;

    #[inline(always)]
    fn borrow_decode<D: BorrowDecoder<B, Context = Context>>(
        decoder: &mut D,
    ) -> Result<i64, DecodeError> {
        i64::decode(decoder)
    }
}

impl<Context: Drop> Decode<Context> for i128 {
    type Run = OverDefaults;

    #[inline(always)]
    fn decode<D: Decoder<Context = Context>>(decoder: &mut D) -> Result<i128, DecodeError> {
        decode_integer(decoder)
    }
}

impl<B: BorrowedBytes, Context: Drop> BorrowDecode<B, Context> for i128 {
    type Run = OverDefaults;

    #[inline(always)]
    fn borrow_decode<D: BorrowDecoder<B, Context = Context>>(
        decoder: &mut D,
    ) -> Result<i128, DecodeError> {
        i128::decode(decoder)
    }
}

impl<Context: Drop> Decode<Context> for isize {
    type Run = OverDefaults;

    #[inline(always)]
    fn decode<D: Decoder<Context = Context>>(decoder: &mut D) -> Result<isize, DecodeError> {
        decode_integer(decoder)
    }
}

impl<B: BorrowedBytes, Context: Drop> BorrowDecode<B, Context> for isize {
    type Run = OverDefaults;

    #[inline(always)]
    fn borrow_decode<D: BorrowDecoder<B, Context = Context>>(
        decoder: &mut D,
    ) -> Result<isize, DecodeError> {
        isize::decode(decoder)
    }
}
