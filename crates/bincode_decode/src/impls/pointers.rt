//! Decoding of pointers. Each allocates its target.
use crate::borrow_decode::BorrowDecode;
use crate::decode::Decode;
use crate::make_by_parts::MakeByParts;
use crate::strategies::{ByBorrowDecode, ByDecode};
use bincode_base::error::DecodeError;
use bincode_collections::pointers::{decode_arc, decode_box, decode_rc};
use bincode_collections::values::Sequential;
use bincode_decoder::decoder::{BorrowDecoder, BorrowedBytes, Decoder};
use bincode_types::scalars::Scalar;
use bincode_types::wire::Wire;
use std::borrow::Cow;
use std::rc::Rc;
use std::sync::Arc;

impl<Context: Drop, T: Decode<Context>> Decode<Context> for Box<T> {
    type Run = Sequential;

    #[inline]
    fn decode<D: Decoder<Context = Context>>(decoder: &mut D) -> Result<Box<T>, DecodeError> {
        decode_box::<D, ByDecode<T>>(decoder)
    }
}

impl<B: BorrowedBytes, Context: Drop, T: BorrowDecode<B, Context>> BorrowDecode<B, Context>
    for Box<T> {
    type Run = Sequential;

    #[inline]
    fn borrow_decode<D: BorrowDecoder<B, Context = Context>>(
        decoder: &mut D,
    ) -> Result<Box<T>, DecodeError> {
        decode_box::<D, ByBorrowDecode<B, T>>(decoder)
    }
}

impl<Context: Drop, T: Decode<Context>> Decode<Context> for Rc<T> {
    type Run = Sequential;

    #[inline]
    fn decode<D: Decoder<Context = Context>>(decoder: &mut D) -> Result<Rc<T>, DecodeError> {
        decode_rc::<D, ByDecode<T>>(decoder)
    }
}

impl<B: BorrowedBytes, Context: Drop, T: BorrowDecode<B, Context>> BorrowDecode<B, Context>
    for Rc<T> {
    type Run = Sequential;

    #[inline]
    fn borrow_decode<D: BorrowDecoder<B, Context = Context>>(
        decoder: &mut D,
    ) -> Result<Rc<T>, DecodeError> {
        decode_rc::<D, ByBorrowDecode<B, T>>(decoder)
    }
}

impl<Context: Drop, T: Decode<Context>> Decode<Context> for Arc<T> {
    type Run = Sequential;

    #[inline]
    fn decode<D: Decoder<Context = Context>>(decoder: &mut D) -> Result<Arc<T>, DecodeError> {
        decode_arc::<D, ByDecode<T>>(decoder)
    }
}

impl<B: BorrowedBytes, Context: Drop, T: BorrowDecode<B, Context>> BorrowDecode<B, Context>
    for Arc<T> {
    type Run = Sequential;

    #[inline]
    fn borrow_decode<D: BorrowDecoder<B, Context = Context>>(
        decoder: &mut D,
    ) -> Result<Arc<T>, DecodeError> {
        decode_arc::<D, ByBorrowDecode<B, T>>(decoder)
    }
}

impl<'a, T: Scalar + Wire + Clone> MakeByParts for Cow<'a, T> {
    fn make_by_parts(parts: T) -> Cow<'a, T> {
        Cow::Owned(parts)
    }
}
