//! Decoding of arrays.
use crate::borrow_decode::BorrowDecode;
use crate::decode::Decode;
use crate::strategies::{ByBorrowDecode, ByDecode};
use bincode_base::error::DecodeError;
use bincode_collections::arrays::decode_array;
use bincode_collections::values::Sequential;
use bincode_decoder::decoder::{BorrowDecoder, BorrowedBytes, ClaimContainer, Decoder};

impl<Context: Drop, T: Decode<Context>, const N: usize> Decode<Context> for [T; N] {
    type Run = Sequential;

    fn decode<D: Decoder<Context = Context>>(decoder: &mut D) -> Result<[T; N], DecodeError> {
        decoder.claim_container_read::<T>(N)?;
        // Not with `runs::decode_array`: each call that returns a whole array copies it.
        decode_array::<D, ByDecode<T>, N>(decoder)
    }
}

impl<B: BorrowedBytes, Context: Drop, T: BorrowDecode<B, Context>, const N: usize> BorrowDecode<
    B,
    Context,
> for [T; N] {
    type Run = Sequential;

    fn borrow_decode<D: BorrowDecoder<B, Context = Context>>(
        decoder: &mut D,
    ) -> Result<[T; N], DecodeError> {
        decoder.claim_container_read::<T>(N)?;
        decode_array::<D, ByBorrowDecode<B, T>, N>(decoder)
    }
}
