//! Decoding of ordered sets and maps.
use crate::borrow_decode::BorrowDecode;
use crate::decode::Decode;
use crate::strategies::{ByBorrowDecode, ByDecode};
use bincode_base::error::DecodeError;
use bincode_collections::sets_and_maps::decode_keyed;
use bincode_collections::values::Sequential;
use bincode_decoder::decoder::{BorrowDecoder, BorrowedBytes, Decoder};
use std::collections::{BTreeMap, BTreeSet};

impl<Context: Drop, K: Decode<Context> + Ord> Decode<Context> for BTreeSet<K> {
    type Run = Sequential;

    #[inline]
    fn decode<D: Decoder<Context = Context>>(decoder: &mut D) -> Result<BTreeSet<K>, DecodeError> {
        decode_keyed::<D, ByDecode<K>, BTreeSet<K>>(decoder)
    }
}

impl<B: BorrowedBytes, Context: Drop, K: BorrowDecode<B, Context> + Ord> BorrowDecode<B, Context>
    for BTreeSet<K> {
    type Run = Sequential;

    #[inline]
    fn borrow_decode<D: BorrowDecoder<B, Context = Context>>(
        decoder: &mut D,
    ) -> Result<BTreeSet<K>, DecodeError> {
        decode_keyed::<D, ByBorrowDecode<B, K>, BTreeSet<K>>(decoder)
    }
}

impl<Context: Drop, K: Decode<Context> + Ord, V: Decode<Context>> Decode<Context>
    for BTreeMap<K, V> {
    type Run = Sequential;

    #[inline]
    fn decode<D: Decoder<Context = Context>>(
        decoder: &mut D,
    ) -> Result<BTreeMap<K, V>, DecodeError> {
        decode_keyed::<D, ByDecode<(K, V)>, BTreeMap<K, V>>(decoder)
    }
}

impl<
    B: BorrowedBytes,
    Context: Drop,
    K: BorrowDecode<B, Context> + Ord,
    V: BorrowDecode<B, Context>,
> BorrowDecode<B, Context> for BTreeMap<K, V> {
    type Run = Sequential;

    #[inline]
    fn borrow_decode<D: BorrowDecoder<B, Context = Context>>(
        decoder: &mut D,
    ) -> Result<BTreeMap<K, V>, DecodeError> {
        decode_keyed::<D, ByBorrowDecode<B, (K, V)>, BTreeMap<K, V>>(decoder)
    }
}
