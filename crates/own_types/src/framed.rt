//! A list after a number, in an arena that is part of a larger context.
ghost use Rattle.std.specs.Prelude.{◌≡◌};

use crate::arena::ArenaList;
use bincode::de::{Decode, Decoder, LendInContext, Sequential};
use bincode::enc::{Encode, Encoder};
use bincode::error::{DecodeError, EncodeError};
use bincode::{HasParts, Wire};
use bumpalo::Bump;

/// A decoding context: an arena, and a number that says for whom it is read.
#[derive(Clone, Copy)]
pub struct Env<'b> {
    pub bump: &'b Bump,
    pub id: u32,
}

type Parts<'b> = (u8, ArenaList<'b, u32>);

/// A list after its kind.
#[derive(Clone, Copy)]
pub struct Framed<'b> {
    pub kind: u8,
    pub list: ArenaList<'b, u32>,
}

impl<'b> HasParts<Parts<'b>> for Framed<'b> {
    ghost parts = { λ v. (v.kind, v.list) };
}

impl<'b> Wire for Framed<'b> {
    ghost use Rattle.bincode.specs.TypeWords.{words_by};

    ghost words = { words_by ⟦<Parts<'b> as Wire>⟧.words ⟦<Framed<'b> as HasParts<Parts<'b>>>⟧.parts };

    fn claim_size() -> usize
        ensures { result ≡ ⟦<Parts<'b> as Wire>⟧.words.claim }
    {
        Parts::claim_size()
    }
}

impl<'b> Encode for Framed<'b> {
    fn tell_valid(&self) {
        (&self.kind, &self.list).tell_valid();
    }

    fn encode<E: Encoder>(&self, encoder: &mut E) -> Result<(), EncodeError> {
        (&self.kind, &self.list).encode(encoder)
    }
}

impl<'b> Decode<Env<'b>> for ArenaList<'b, u32> {
    type Run = Sequential;

    fn decode<D: Decoder<Context = Env<'b>>>(
        decoder: &mut D,
    ) -> Result<ArenaList<'b, u32>, DecodeError> {
        let bump = decoder.context().bump;
        ArenaList::decode(&mut decoder.with_context(bump))
    }
}

impl<'b> Decode<Env<'b>> for Framed<'b> {
    type Run = Sequential;

    fn decode<D: Decoder<Context = Env<'b>>>(decoder: &mut D) -> Result<Framed<'b>, DecodeError> {
        let (kind, list): Parts<'b> = Decode::decode(decoder)?;
        Ok(Framed { kind, list })
    }
}
