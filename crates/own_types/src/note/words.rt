//! What the types of `note.rt` are written as. Made from that file by the program `derive`, and not edited: run
//! `derive` on the file again where its types change.
ghost use Rattle.std.specs.Prelude.{◌≡◌};
ghost use Rattle.bincode.specs.TypeLaws.{CanonicalWords, ExactWords, PlainWords};

use super::*;
use bincode::de::{BorrowDecode, BorrowDecoder, Sequential};
use bincode::enc::{Encode, Encoder};
use bincode::error::{DecodeError, EncodeError};
use bincode::laws::{Canonical, Exact, Plain, canonical_by_parts, exact_by_fields, plain_by_parts};
use bincode::{HasParts, Wire};

type NoteParts<'a> = (&'a str, &'a [u8]);

impl<'a> HasParts<NoteParts<'a>> for Note<'a> {
    ghost parts = { λ v. (v.title, v.data) };
}

impl<'a> Wire for Note<'a> {
    ghost use Rattle.bincode.specs.TypeWords.{words_by};

    ghost words = { words_by ⟦<NoteParts<'a> as Wire>⟧.words ⟦<Note<'a> as HasParts<NoteParts<'a>>>⟧.parts };

    fn claim_size() -> usize
        ensures { result ≡ ⟦<NoteParts<'a> as Wire>⟧.words.claim }
    {
        NoteParts::claim_size()
    }
}

impl<'a> Plain for Note<'a> {
    fn tell_plain()
        ensures { PlainWords ⟦<Note<'a> as Wire>⟧.words }
    {
        plain_by_parts::<NoteParts<'a>, Note<'a>>();
    }
}

impl<'a> Exact for Note<'a> {
    fn tell_exact()
        ensures { ExactWords ⟦<Note<'a> as Wire>⟧.words ⟦<Note<'a> as PartialEq>⟧.eq }
    {
        exact_by_fields::<NoteParts<'a>, Note<'a>, _>();
    }
}

impl<'a> Canonical for Note<'a> {
    fn tell_canonical()
        ensures { CanonicalWords ⟦<Note<'a> as Wire>⟧.words }
    {
        canonical_by_parts::<NoteParts<'a>, Note<'a>>();
    }
}

impl<'a> Encode for Note<'a> {
    fn tell_valid(&self) {
        (self.title, self.data).tell_valid();
    }

    fn encode<E: Encoder>(&self, encoder: &mut E) -> Result<(), EncodeError> {
        (self.title, self.data).encode(encoder)
    }
}

impl<'a, Context: Drop> BorrowDecode<&'a [u8], Context> for Note<'a> {
    type Run = Sequential;

    fn borrow_decode<D: BorrowDecoder<&'a [u8], Context = Context>>(
        decoder: &mut D,
    ) -> Result<Note<'a>, DecodeError> {
        let (title, data): NoteParts<'a> = BorrowDecode::borrow_decode(decoder)?;
        Ok(Note { title, data })
    }
}
