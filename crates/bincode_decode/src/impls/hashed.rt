//! Decoding of hashed sets and maps.
use crate::borrow_decode::BorrowDecode;
use crate::decode::Decode;
use crate::strategies::{ByBorrowDecode, ByDecode};
use bincode_base::error::DecodeError;
use bincode_collections::sets_and_maps::decode_keyed;
use bincode_collections::values::Sequential;
use bincode_decoder::decoder::{BorrowDecoder, BorrowedBytes, Decoder};
use std::collections::{HashMap, HashSet};
use std::hash::{BuildHasher, Hash};

impl<Context: Drop, K: Decode<Context> + Eq + Hash, S: BuildHasher + Default + Drop> Decode<Context>
    for HashSet<K, S> {
    type Run = Sequential;

    #[inline]
    fn decode<D: Decoder<Context = Context>>(
        decoder: &mut D,
    ) -> Result<HashSet<K, S>, DecodeError> {
        decode_keyed::<D, ByDecode<K>, HashSet<K, S>>(decoder)
    }
}

impl<
    B: BorrowedBytes,
    Context: Drop,
    K: BorrowDecode<B, Context> + Eq + Hash,
    S: BuildHasher + Default + Drop,
> BorrowDecode<B, Context> for HashSet<K, S> {
    type Run = Sequential;

    #[inline]
    fn borrow_decode<D: BorrowDecoder<B, Context = Context>>(
        decoder: &mut D,
    ) -> Result<HashSet<K, S>, DecodeError> {
        decode_keyed::<D, ByBorrowDecode<B, K>, HashSet<K, S>>(decoder)
    }
}

impl<
    Context: Drop,
    K: Decode<Context> + Eq + Hash,
    V: Decode<Context>,
    S: BuildHasher + Default + Drop,
> Decode<Context> for HashMap<K, V, S> {
    type Run = Sequential;

    #[inline]
    fn decode<D: Decoder<Context = Context>>(
        decoder: &mut D,
    ) -> Result<HashMap<K, V, S>, DecodeError> {
        decode_keyed::<D, ByDecode<(K, V)>, HashMap<K, V, S>>(decoder)
    }
}

impl<
    B: BorrowedBytes,
    Context: Drop,
    K: BorrowDecode<B, Context> + Eq + Hash,
    V: BorrowDecode<B, Context>,
    S: BuildHasher + Default + Drop,
> BorrowDecode<B, Context> for HashMap<K, V, S> {
    type Run = Sequential;

    #[inline]
    fn borrow_decode<D: BorrowDecoder<B, Context = Context>>(
        decoder: &mut D,
    ) -> Result<HashMap<K, V, S>, DecodeError> {
        decode_keyed::<D, ByBorrowDecode<B, (K, V)>, HashMap<K, V, S>>(decoder)
    }
}
