//! A list in an arena.
ghost use Rattle.std.specs.Prelude.{◌≡◌};

use bincode::de::{Decode, Decoder, FillList, Sequential, decode_collection};
use bincode::enc::{Encode, Encoder};
use bincode::error::{DecodeError, EncodeError};
use bincode::{HasParts, Items, Wire};
use bumpalo::Bump;
use bumpalo::collections::into_bump_slice;
use std::alloc::Global;

/// A slice of items in an arena, where they stay until it is reset.
#[derive(Clone, Copy)]
pub struct ArenaList<'b, T> {
    pub items: &'b [T],
}

impl<'b, T: Wire> HasParts<Items<T, 16>> for ArenaList<'b, T> {
    ghost parts = { λ v. record { items = v.items.now } };
}

impl<'b, T: Wire> Wire for ArenaList<'b, T> {
    ghost use Rattle.bincode.specs.TypeWords.{words_by};

    ghost words = { words_by ⟦<Items<T, 16> as Wire>⟧.words ⟦<ArenaList<'b, T> as HasParts<Items<T, 16>>>⟧.parts };

    fn claim_size() -> usize {
        16
    }
}

impl<'b, T: Encode> Encode for ArenaList<'b, T> {
    fn tell_valid(&self) {
        self.items.tell_valid();
    }

    fn encode<E: Encoder>(&self, encoder: &mut E) -> Result<(), EncodeError> {
        self.items.encode(encoder)
    }
}

impl<'b, T: Wire + Copy + Drop> FillList<&'b Bump> for ArenaList<'b, T> {
    type Item = T;

    type Filling = Vec<T, &'b Bump>;

    ghost items = { λ v. v.items.now };

    ghost held_items = { λ filling. filling.items };

    fn start(
        _alloc: Global,
        context: &mut &'b Bump,
        len: usize,
    ) -> Result<Vec<T, &'b Bump>, DecodeError> {
        match Vec::with_capacity(*context, len) {
            Ok(items) => Ok(items),
            Err(_) => Err(DecodeError::Memory),
        }
    }

    fn put(filling: &mut Vec<T, &'b Bump>, item: T) -> Result<(), DecodeError> {
        match filling.push(item) {
            Ok(()) => Ok(()),
            Err(_) => Err(DecodeError::Memory),
        }
    }

    fn finish(filling: Vec<T, &'b Bump>) -> Result<ArenaList<'b, T>, DecodeError> {
        Ok(ArenaList {
            items: into_bump_slice(filling),
        })
    }
}

impl<'b, T: Decode<&'b Bump> + Copy + 'b> Decode<&'b Bump> for ArenaList<'b, T> {
    type Run = Sequential;

    fn decode<D: Decoder<Context = &'b Bump>>(
        decoder: &mut D,
    ) -> Result<ArenaList<'b, T>, DecodeError> {
        decode_collection(decoder)
    }
}
