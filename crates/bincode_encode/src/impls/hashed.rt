//! Encoding of hashed sets and maps.
use crate::encode::Encode;
use crate::encode_parts::EncodeParts;
use crate::runs::ByEncode;
use bincode_base::error::EncodeError;
use bincode_encoder::encoder::Encoder;
use bincode_encoder::hashed::{encode_map, encode_set, tell_map_valid, tell_set_valid};
use std::collections::{HashMap, HashSet};
use std::hash::{BuildHasher, Hash};

impl<K: Encode + Eq + Hash, S: BuildHasher + Drop> EncodeParts for HashSet<K, S> {
    fn tell_valid_parts(&self) {
        tell_set_valid::<ByEncode<K>, S>(self);
    }

    #[inline(always)]
    fn encode_parts<E: Encoder>(&self, encoder: &mut E) -> Result<(), EncodeError> {
        encode_set::<ByEncode<K>, S, E>(self, encoder)
    }
}

impl<K: Encode + Eq + Hash, V: Encode, S: BuildHasher + Drop> EncodeParts for HashMap<K, V, S> {
    const MOST_OF_PARTS: Option<usize> = None;

    fn tell_valid_parts(&self) {
        tell_map_valid::<ByEncode<K>, ByEncode<V>, S>(self);
    }

    #[inline(always)]
    fn encode_parts<E: Encoder>(&self, encoder: &mut E) -> Result<(), EncodeError> {
        encode_map::<ByEncode<K>, ByEncode<V>, S, E>(self, encoder)
    }
}
