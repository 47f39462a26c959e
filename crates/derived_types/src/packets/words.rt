//! What the types of `packets.rt` are written as. Made from that file by the program `derive`, and not edited: run
//! `derive` on the file again where its types change.
ghost use Rattle.std.specs.Prelude.{◌≡◌};
ghost use Rattle.bincode.specs.TypeLaws.{CanonicalWords, ExactWords, PlainWords};

use super::*;
use bincode::de::{BorrowDecode, BorrowDecoder, Sequential};
use bincode::enc::{Encode, Encoder};
use bincode::error::{DecodeError, EncodeError};
use bincode::laws::{Canonical, Exact, Plain, canonical_by_parts, exact_by_fields, plain_by_parts};
use bincode::{HasParts, Wire};

type PacketParts<'a> = (u16, Option<&'a [u8]>);

impl<'a> HasParts<PacketParts<'a>> for Packet<'a> {
    ghost parts = { λ v. (v.to, v.payload) };
}

impl<'a> Wire for Packet<'a> {
    ghost use Rattle.bincode.specs.TypeWords.{words_by};

    ghost words = { words_by ⟦<PacketParts<'a> as Wire>⟧.words ⟦<Packet<'a> as HasParts<PacketParts<'a>>>⟧.parts };

    fn claim_size() -> usize
        ensures { result ≡ ⟦<PacketParts<'a> as Wire>⟧.words.claim }
    {
        PacketParts::claim_size()
    }
}

impl<'a> Plain for Packet<'a> {
    fn tell_plain()
        ensures { PlainWords ⟦<Packet<'a> as Wire>⟧.words }
    {
        plain_by_parts::<PacketParts<'a>, Packet<'a>>();
    }
}

impl<'a> Exact for Packet<'a> {
    fn tell_exact()
        ensures { ExactWords ⟦<Packet<'a> as Wire>⟧.words ⟦<Packet<'a> as PartialEq>⟧.eq }
    {
        exact_by_fields::<PacketParts<'a>, Packet<'a>, _>();
    }
}

impl<'a> Canonical for Packet<'a> {
    fn tell_canonical()
        ensures { CanonicalWords ⟦<Packet<'a> as Wire>⟧.words }
    {
        canonical_by_parts::<PacketParts<'a>, Packet<'a>>();
    }
}

impl<'a> Encode for Packet<'a> {
    fn tell_valid(&self) {
        (&self.to, &self.payload).tell_valid();
    }

    fn encode<E: Encoder>(&self, encoder: &mut E) -> Result<(), EncodeError> {
        (&self.to, &self.payload).encode(encoder)
    }
}

impl<'a, Context: Drop> BorrowDecode<&'a [u8], Context> for Packet<'a> {
    type Run = Sequential;

    fn borrow_decode<D: BorrowDecoder<&'a [u8], Context = Context>>(
        decoder: &mut D,
    ) -> Result<Packet<'a>, DecodeError> {
        let (to, payload): PacketParts<'a> = BorrowDecode::borrow_decode(decoder)?;
        Ok(Packet { to, payload })
    }
}
