//! A list in a vector, which is filled item by item.
ghost use Rattle.std.specs.Prelude.{◌≡◌};

use bincode::de::{Decode, Decoder, FillList, Sequential, decode_collection};
use bincode::enc::{Encode, Encoder};
use bincode::error::{DecodeError, EncodeError};
use bincode::laws::{Canonical, Exact, Plain, canonical_by_parts, exact_by_parts, plain_by_parts};
use bincode::{HasParts, Items, Wire};
use std::alloc::Global;

/// A list of items.
#[derive(Drop, PartialEq)]
pub struct Batch<T> {
    pub items: Vec<T>,
}

impl<T: Wire> HasParts<Items<T, 24>> for Batch<T> {
    ghost parts = { λ v. record { items = v.items.items } };
}

impl<T: Wire> Wire for Batch<T> {
    ghost use Rattle.bincode.specs.TypeWords.{words_by};

    ghost words = { words_by ⟦<Items<T, 24> as Wire>⟧.words ⟦<Batch<T> as HasParts<Items<T, 24>>>⟧.parts };

    fn claim_size() -> usize {
        24
    }
}

impl<T: Plain> Plain for Batch<T> {
    fn tell_plain() {
        plain_by_parts::<Items<T, 24>, Batch<T>>();
    }
}

impl<T: Exact> Exact for Batch<T> {
    fn tell_exact() {
        exact_by_parts::<Items<T, 24>, Batch<T>>();
    }
}

impl<T: Canonical> Canonical for Batch<T> {
    fn tell_canonical() {
        canonical_by_parts::<Items<T, 24>, Batch<T>>();
    }
}

impl<T: Encode> Encode for Batch<T> {
    fn tell_valid(&self) {
        self.items.tell_valid();
    }

    fn encode<E: Encoder>(&self, encoder: &mut E) -> Result<(), EncodeError> {
        self.items.encode(encoder)
    }
}

impl<Context: Drop, T: Wire + Drop> FillList<Context> for Batch<T> {
    type Item = T;

    type Filling = Vec<T>;

    ghost items = { λ v. v.items.items };

    ghost held_items = { λ filling. filling.items };

    fn start(alloc: Global, _context: &mut Context, len: usize) -> Result<Vec<T>, DecodeError> {
        match Vec::with_capacity(alloc, len) {
            Ok(items) => Ok(items),
            Err(_) => Err(DecodeError::Memory),
        }
    }

    fn put(filling: &mut Vec<T>, item: T) -> Result<(), DecodeError> {
        match filling.push(item) {
            Ok(()) => Ok(()),
            Err(_) => Err(DecodeError::Memory),
        }
    }

    fn finish(items: Vec<T>) -> Result<Batch<T>, DecodeError> {
        Ok(Batch { items })
    }
}

impl<Context: Drop, T: Decode<Context>> Decode<Context> for Batch<T> {
    type Run = Sequential;

    fn decode<D: Decoder<Context = Context>>(decoder: &mut D) -> Result<Batch<T>, DecodeError> {
        decode_collection(decoder)
    }
}
