//! What the types of `pair.rt` are written as. Made from that file by the program `derive`, and not edited: run
//! `derive` on the file again where its types change.

use super::*;
use bincode::de::{Decode, Decoder, Sequential};
use bincode::enc::{Encode, Encoder};
use bincode::error::{DecodeError, EncodeError};
use bincode::laws::{Canonical, Exact, Plain, canonical_by_parts, exact_by_fields, plain_by_parts};
use bincode::{HasParts, Wire};

type PairParts<K, V> = (K, V);

impl<K, V> HasParts<PairParts<K, V>> for Pair<K, V> {
    ghost parts = { λ v. (v.key, v.value) };
}

impl<K: Wire, V: Wire> Wire for Pair<K, V> {
    ghost use Rattle.bincode.specs.TypeWords.{words_by};

    ghost words = { words_by ⟦<PairParts<K, V> as Wire>⟧.words ⟦<Pair<K, V> as HasParts<PairParts<K, V>>>⟧.parts };

    fn claim_size() -> usize {
        <PairParts<K, V>>::claim_size()
    }
}

impl<K: Plain, V: Plain> Plain for Pair<K, V> {
    fn tell_plain() {
        plain_by_parts::<PairParts<K, V>, Pair<K, V>>();
    }
}

impl<K: Exact, V: Exact> Exact for Pair<K, V> {
    fn tell_exact() {
        exact_by_fields::<PairParts<K, V>, Pair<K, V>, _>();
    }
}

impl<K: Canonical, V: Canonical> Canonical for Pair<K, V> {
    fn tell_canonical() {
        canonical_by_parts::<PairParts<K, V>, Pair<K, V>>();
    }
}

impl<K: Encode, V: Encode> Encode for Pair<K, V> {
    fn tell_valid(&self) {
        (&self.key, &self.value).tell_valid();
    }

    fn encode<E: Encoder>(&self, encoder: &mut E) -> Result<(), EncodeError> {
        (&self.key, &self.value).encode(encoder)
    }
}

impl<Context: Drop, K: Decode<Context>, V: Decode<Context>> Decode<Context> for Pair<K, V> {
    type Run = Sequential;

    fn decode<D: Decoder<Context = Context>>(decoder: &mut D) -> Result<Pair<K, V>, DecodeError> {
        let (key, value): PairParts<K, V> = Decode::decode(decoder)?;
        Ok(Pair { key, value })
    }
}
