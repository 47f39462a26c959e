//! Decoding of cells.
use crate::borrow_decode::BorrowDecode;
use crate::decode::Decode;
use crate::strategies::{ByBorrowDecode, ByDecode};
use bincode_base::error::DecodeError;
use bincode_collections::pointers::{decode_cell, decode_ref_cell};
use bincode_collections::values::Sequential;
use bincode_decoder::decoder::{BorrowDecoder, BorrowedBytes, Decoder};
use std::cell::{Cell, RefCell};

impl<Context: Drop, T: Decode<Context>> Decode<Context> for Cell<T> {
    type Run = Sequential;

    fn decode<D: Decoder<Context = Context>>(decoder: &mut D) -> Result<Cell<T>, DecodeError> {
        decode_cell::<D, ByDecode<T>>(decoder)
    }
}

impl<B: BorrowedBytes, Context: Drop, T: BorrowDecode<B, Context>> BorrowDecode<B, Context>
    for Cell<T> {
    type Run = Sequential;

    fn borrow_decode<D: BorrowDecoder<B, Context = Context>>(
        decoder: &mut D,
    ) -> Result<Cell<T>, DecodeError> {
        decode_cell::<D, ByBorrowDecode<B, T>>(decoder)
    }
}

impl<Context: Drop, T: Decode<Context>> Decode<Context> for RefCell<T> {
    type Run = Sequential;

    fn decode<D: Decoder<Context = Context>>(decoder: &mut D) -> Result<RefCell<T>, DecodeError> {
        decode_ref_cell::<D, ByDecode<T>>(decoder)
    }
}

impl<B: BorrowedBytes, Context: Drop, T: BorrowDecode<B, Context>> BorrowDecode<B, Context>
    for RefCell<T> {
    type Run = Sequential;

    fn borrow_decode<D: BorrowDecoder<B, Context = Context>>(
        decoder: &mut D,
    ) -> Result<RefCell<T>, DecodeError> {
        decode_ref_cell::<D, ByBorrowDecode<B, T>>(decoder)
    }
}
