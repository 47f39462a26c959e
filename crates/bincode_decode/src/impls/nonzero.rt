//! Decoding of `NonZero` integers.

use crate::borrow_decode::BorrowDecode;
use crate::decode::Decode;
use bincode_base::error::{DecodeError, IntegerType};
use bincode_collections::values::Sequential;
use bincode_decoder::decoder::{BorrowDecoder, BorrowedBytes, Decoder};
use bincode_decoder::integers::not_zero;
use std::num::{
    NonZeroI8, NonZeroI16, NonZeroI32, NonZeroI64, NonZeroI128, NonZeroIsize, NonZeroU8,
    NonZeroU16, NonZeroU32, NonZeroU64, NonZeroU128, NonZeroUsize,
};

impl<Context: Drop> Decode<Context> for NonZeroU8 {
    type Run = Sequential;

    #[inline]
    fn decode<D: Decoder<Context = Context>>(decoder: &mut D) -> Result<NonZeroU8, DecodeError> {
        let n = u8::decode(decoder)?;
        not_zero(NonZeroU8::new(n), IntegerType::U8)
    }
}

impl<B: BorrowedBytes, Context: Drop> BorrowDecode<B, Context> for NonZeroU8 {
    type Run = Sequential;

    #[inline]
    fn borrow_decode<D: BorrowDecoder<B, Context = Context>>(
        decoder: &mut D,
    ) -> Result<NonZeroU8, DecodeError> {
        NonZeroU8::decode(decoder)
    }
}

impl<Context: Drop> Decode<Context> for NonZeroU16 {
    type Run = Sequential;

    #[inline]
    fn decode<D: Decoder<Context = Context>>(decoder: &mut D) -> Result<NonZeroU16, DecodeError> {
        let n = u16::decode(decoder)?;
        not_zero(NonZeroU16::new(n), IntegerType::U16)
    }
}

impl<B: BorrowedBytes, Context: Drop> BorrowDecode<B, Context> for NonZeroU16 {
    type Run = Sequential;

    #[inline]
    fn borrow_decode<D: BorrowDecoder<B, Context = Context>>(
        decoder: &mut D,
    ) -> Result<NonZeroU16, DecodeError> {
        NonZeroU16::decode(decoder)
    }
}

impl<Context: Drop> Decode<Context> for NonZeroU32 {
    type Run = Sequential;

    #[inline]
    fn decode<D: Decoder<Context = Context>>(decoder: &mut D) -> Result<NonZeroU32, DecodeError> {
        let n = u32::decode(decoder)?;
        not_zero(NonZeroU32::new(n), IntegerType::U32)
    }
}

impl<B: BorrowedBytes, Context: Drop> BorrowDecode<B, Context> for NonZeroU32 {
    type Run = Sequential;

    #[inline]
    fn borrow_decode<D: BorrowDecoder<B, Context = Context>>(
        decoder: &mut D,
    ) -> Result<NonZeroU32, DecodeError> {
        NonZeroU32::decode(decoder)
    }
}

impl<Context: Drop> Decode<Context> for NonZeroU64 {
    type Run = Sequential;

    #[inline]
    fn decode<D: Decoder<Context = Context>>(decoder: &mut D) -> Result<NonZeroU64, DecodeError> {
        let n = u64::decode(decoder)?;
        not_zero(NonZeroU64::new(n), IntegerType::U64)
    }
}

impl<B: BorrowedBytes, Context: Drop> BorrowDecode<B, Context> for NonZeroU64 {
    type Run = Sequential;

    #[inline]
    fn borrow_decode<D: BorrowDecoder<B, Context = Context>>(
        decoder: &mut D,
    ) -> Result<NonZeroU64, DecodeError> {
        NonZeroU64::decode(decoder)
    }
}

impl<Context: Drop> Decode<Context> for NonZeroU128 {
    type Run = Sequential;

    #[inline]
    fn decode<D: Decoder<Context = Context>>(decoder: &mut D) -> Result<NonZeroU128, DecodeError> {
        let n = u128::decode(decoder)?;
        not_zero(NonZeroU128::new(n), IntegerType::U128)
    }
}

impl<B: BorrowedBytes, Context: Drop> BorrowDecode<B, Context> for NonZeroU128 {
    type Run = Sequential;

    #[inline]
    fn borrow_decode<D: BorrowDecoder<B, Context = Context>>(
        decoder: &mut D,
    ) -> Result<NonZeroU128, DecodeError> {
        NonZeroU128::decode(decoder)
    }
}

impl<Context: Drop> Decode<Context> for NonZeroUsize {
    type Run = Sequential;

    #[inline]
    fn decode<D: Decoder<Context = Context>>(decoder: &mut D) -> Result<NonZeroUsize, DecodeError> {
        let n = usize::decode(decoder)?;
        not_zero(NonZeroUsize::new(n), IntegerType::Usize)
    }
}

impl<B: BorrowedBytes, Context: Drop> BorrowDecode<B, Context> for NonZeroUsize {
    type Run = Sequential;

    #[inline]
    fn borrow_decode<D: BorrowDecoder<B, Context = Context>>(
        decoder: &mut D,
    ) -> Result<NonZeroUsize, DecodeError> {
        NonZeroUsize::decode(decoder)
    }
}

impl<Context: Drop> Decode<Context> for NonZeroI8 {
    type Run = Sequential;

    #[inline]
    fn decode<D: Decoder<Context = Context>>(decoder: &mut D) -> Result<NonZeroI8, DecodeError> {
        let n = i8::decode(decoder)?;
        not_zero(NonZeroI8::new(n), IntegerType::I8)
    }
}

impl<B: BorrowedBytes, Context: Drop> BorrowDecode<B, Context> for NonZeroI8 {
    type Run = Sequential;

    #[inline]
    fn borrow_decode<D: BorrowDecoder<B, Context = Context>>(
        decoder: &mut D,
    ) -> Result<NonZeroI8, DecodeError> {
        NonZeroI8::decode(decoder)
    }
}

impl<Context: Drop> Decode<Context> for NonZeroI16 {
    type Run = Sequential;

    #[inline]
    fn decode<D: Decoder<Context = Context>>(decoder: &mut D) -> Result<NonZeroI16, DecodeError> {
        let n = i16::decode(decoder)?;
        not_zero(NonZeroI16::new(n), IntegerType::I16)
    }
}

impl<B: BorrowedBytes, Context: Drop> BorrowDecode<B, Context> for NonZeroI16 {
    type Run = Sequential;

    #[inline]
    fn borrow_decode<D: BorrowDecoder<B, Context = Context>>(
        decoder: &mut D,
    ) -> Result<NonZeroI16, DecodeError> {
        NonZeroI16::decode(decoder)
    }
}

impl<Context: Drop> Decode<Context> for NonZeroI32 {
    type Run = Sequential;

    #[inline]
    fn decode<D: Decoder<Context = Context>>(decoder: &mut D) -> Result<NonZeroI32, DecodeError> {
        let n = i32::decode(decoder)?;
        not_zero(NonZeroI32::new(n), IntegerType::I32)
    }
}

impl<B: BorrowedBytes, Context: Drop> BorrowDecode<B, Context> for NonZeroI32 {
    type Run = Sequential;

    #[inline]
    fn borrow_decode<D: BorrowDecoder<B, Context = Context>>(
        decoder: &mut D,
    ) -> Result<NonZeroI32, DecodeError> {
        NonZeroI32::decode(decoder)
    }
}

impl<Context: Drop> Decode<Context> for NonZeroI64 {
    type Run = Sequential;

    #[inline]
    fn decode<D: Decoder<Context = Context>>(decoder: &mut D) -> Result<NonZeroI64, DecodeError> {
        let n = i64::decode(decoder)?;
        not_zero(NonZeroI64::new(n), IntegerType::I64)
    }
}

impl<B: BorrowedBytes, Context: Drop> BorrowDecode<B, Context> for NonZeroI64 {
    type Run = Sequential;

    #[inline]
    fn borrow_decode<D: BorrowDecoder<B, Context = Context>>(
        decoder: &mut D,
    ) -> Result<NonZeroI64, DecodeError> {
        NonZeroI64::decode(decoder)
    }
}

impl<Context: Drop> Decode<Context> for NonZeroI128 {
    type Run = Sequential;

    #[inline]
    fn decode<D: Decoder<Context = Context>>(decoder: &mut D) -> Result<NonZeroI128, DecodeError> {
        let n = i128::decode(decoder)?;
        not_zero(NonZeroI128::new(n), IntegerType::I128)
    }
}

impl<B: BorrowedBytes, Context: Drop> BorrowDecode<B, Context> for NonZeroI128 {
    type Run = Sequential;

    #[inline]
    fn borrow_decode<D: BorrowDecoder<B, Context = Context>>(
        decoder: &mut D,
    ) -> Result<NonZeroI128, DecodeError> {
        NonZeroI128::decode(decoder)
    }
}

impl<Context: Drop> Decode<Context> for NonZeroIsize {
    type Run = Sequential;

    #[inline]
    fn decode<D: Decoder<Context = Context>>(decoder: &mut D) -> Result<NonZeroIsize, DecodeError> {
        let n = isize::decode(decoder)?;
        not_zero(NonZeroIsize::new(n), IntegerType::Isize)
    }
}

impl<B: BorrowedBytes, Context: Drop> BorrowDecode<B, Context> for NonZeroIsize {
    type Run = Sequential;

    #[inline]
    fn borrow_decode<D: BorrowDecoder<B, Context = Context>>(
        decoder: &mut D,
    ) -> Result<NonZeroIsize, DecodeError> {
        NonZeroIsize::decode(decoder)
    }
}
