//! Encoding of ordered sets and maps.
use crate::encode::Encode;
use crate::encode_parts::EncodeParts;
use crate::runs::ByEncode;
use bincode_base::error::EncodeError;
use bincode_encoder::encoder::Encoder;
use bincode_encoder::ordered::{encode_map, encode_set, tell_map_valid, tell_set_valid};
use std::collections::{BTreeMap, BTreeSet};

impl<K: Encode + Ord> EncodeParts for BTreeSet<K> {
    fn tell_valid_parts(&self) {
        tell_set_valid::<ByEncode<K>>(self);
    }

    #[inline(always)]
    fn encode_parts<E: Encoder>(&self, encoder: &mut E) -> Result<(), EncodeError> {
        encode_set::<ByEncode<K>, E>(self, encoder)
    }
}

impl<K: Encode + Ord, V: Encode> EncodeParts for BTreeMap<K, V> {
    const MOST_OF_PARTS: Option<usize> = None;

    fn tell_valid_parts(&self) {
        tell_map_valid::<ByEncode<K>, ByEncode<V>>(self);
    }

    #[inline(always)]
    fn encode_parts<E: Encoder>(&self, encoder: &mut E) -> Result<(), EncodeError> {
        encode_map::<ByEncode<K>, ByEncode<V>, E>(self, encoder)
    }
}
