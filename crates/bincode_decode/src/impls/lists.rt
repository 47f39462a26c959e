//! Decoding of lists, and of heaps.
use crate::borrow_decode::BorrowDecode;
use crate::decode::Decode;
use crate::strategies::{ByBorrowDecode, ByDecode};
use bincode_base::error::DecodeError;
use bincode_collections::borrow::take_list;
use bincode_collections::lists::{
    decode_boxed_slice, decode_heap, decode_list, decode_queue, decode_rc_slice,
};
use bincode_collections::values::Sequential;
use bincode_decoder::decoder::{BorrowDecoder, BorrowedBytes, Decoder};
use std::borrow::CowSlice;
use std::boxed::BoxedSlice;
use std::collections::{BinaryHeap, VecDeque};
use std::rc::RcSlice;

impl<Context: Drop, T: Decode<Context>> Decode<Context> for Vec<T> {
    type Run = Sequential;

    #[inline]
    fn decode<D: Decoder<Context = Context>>(decoder: &mut D) -> Result<Vec<T>, DecodeError> {
        decode_list::<D, ByDecode<T>>(decoder)
    }
}

impl<B: BorrowedBytes, Context: Drop, T: BorrowDecode<B, Context>> BorrowDecode<B, Context>
    for Vec<T> {
    type Run = Sequential;

    #[inline]
    fn borrow_decode<D: BorrowDecoder<B, Context = Context>>(
        decoder: &mut D,
    ) -> Result<Vec<T>, DecodeError> {
        decode_list::<D, ByBorrowDecode<B, T>>(decoder)
    }
}

impl<Context: Drop, T: Decode<Context>> Decode<Context> for VecDeque<T> {
    type Run = Sequential;

    #[inline]
    fn decode<D: Decoder<Context = Context>>(decoder: &mut D) -> Result<VecDeque<T>, DecodeError> {
        decode_queue::<D, ByDecode<T>>(decoder)
    }
}

impl<B: BorrowedBytes, Context: Drop, T: BorrowDecode<B, Context>> BorrowDecode<B, Context>
    for VecDeque<T> {
    type Run = Sequential;

    #[inline]
    fn borrow_decode<D: BorrowDecoder<B, Context = Context>>(
        decoder: &mut D,
    ) -> Result<VecDeque<T>, DecodeError> {
        decode_queue::<D, ByBorrowDecode<B, T>>(decoder)
    }
}

impl<Context: Drop, T: Decode<Context> + Ord> Decode<Context> for BinaryHeap<T> {
    type Run = Sequential;

    #[inline]
    fn decode<D: Decoder<Context = Context>>(
        decoder: &mut D,
    ) -> Result<BinaryHeap<T>, DecodeError> {
        decode_heap::<D, ByDecode<T>>(decoder)
    }
}

impl<B: BorrowedBytes, Context: Drop, T: BorrowDecode<B, Context> + Ord> BorrowDecode<B, Context>
    for BinaryHeap<T> {
    type Run = Sequential;

    #[inline]
    fn borrow_decode<D: BorrowDecoder<B, Context = Context>>(
        decoder: &mut D,
    ) -> Result<BinaryHeap<T>, DecodeError> {
        decode_heap::<D, ByBorrowDecode<B, T>>(decoder)
    }
}

impl<Context: Drop, T: Decode<Context>> Decode<Context> for BoxedSlice<T> {
    type Run = Sequential;

    #[inline]
    fn decode<D: Decoder<Context = Context>>(
        decoder: &mut D,
    ) -> Result<BoxedSlice<T>, DecodeError> {
        decode_boxed_slice::<D, ByDecode<T>>(decoder)
    }
}

impl<B: BorrowedBytes, Context: Drop, T: BorrowDecode<B, Context>> BorrowDecode<B, Context>
    for BoxedSlice<T> {
    type Run = Sequential;

    #[inline]
    fn borrow_decode<D: BorrowDecoder<B, Context = Context>>(
        decoder: &mut D,
    ) -> Result<BoxedSlice<T>, DecodeError> {
        decode_boxed_slice::<D, ByBorrowDecode<B, T>>(decoder)
    }
}

impl<Context: Drop, T: Decode<Context>> Decode<Context> for RcSlice<T> {
    type Run = Sequential;

    #[inline]
    fn decode<D: Decoder<Context = Context>>(decoder: &mut D) -> Result<RcSlice<T>, DecodeError> {
        decode_rc_slice::<D, ByDecode<T>>(decoder)
    }
}

impl<B: BorrowedBytes, Context: Drop, T: BorrowDecode<B, Context>> BorrowDecode<B, Context>
    for RcSlice<T> {
    type Run = Sequential;

    #[inline]
    fn borrow_decode<D: BorrowDecoder<B, Context = Context>>(
        decoder: &mut D,
    ) -> Result<RcSlice<T>, DecodeError> {
        decode_rc_slice::<D, ByBorrowDecode<B, T>>(decoder)
    }
}

impl<'a, Context: Drop, T: Decode<Context> + 'a> Decode<Context> for CowSlice<'a, T> {
    type Run = Sequential;

    #[inline]
    fn decode<D: Decoder<Context = Context>>(
        decoder: &mut D,
    ) -> Result<CowSlice<'a, T>, DecodeError> {
        let list = decode_list::<D, ByDecode<T>>(decoder)?;
        Ok(CowSlice::Owned(list))
    }
}

impl<'de, Context: Drop> BorrowDecode<&'de [u8], Context> for &'de [u8] {
    type Run = Sequential;

    #[inline]
    fn borrow_decode<D: BorrowDecoder<&'de [u8], Context = Context>>(
        decoder: &mut D,
    ) -> Result<&'de [u8], DecodeError> {
        take_list(decoder)
    }
}

impl<'de, Context: Drop> BorrowDecode<&'de [u8], Context> for CowSlice<'de, u8> {
    type Run = Sequential;

    #[inline]
    fn borrow_decode<D: BorrowDecoder<&'de [u8], Context = Context>>(
        decoder: &mut D,
    ) -> Result<CowSlice<'de, u8>, DecodeError> {
        let list = take_list(decoder)?;
        Ok(CowSlice::Borrowed(list))
    }
}
