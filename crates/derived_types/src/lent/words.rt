//! What the types of `lent.rt` are written as. Made from that file by the program `derive`, and not edited: run
//! `derive` on the file again where its types change.
ghost use Rattle.std.specs.Prelude.{◌≡◌};
ghost use Rattle.bincode.specs.TypeLaws.{CanonicalWords, ExactWords, PlainWords};

use super::*;
use bincode::de::{BorrowDecode, BorrowDecoder, Sequential};
use bincode::enc::{Encode, Encoder};
use bincode::error::{DecodeError, EncodeError};
use bincode::laws::{Canonical, Exact, Plain, canonical_by_parts, exact_by_parts, plain_by_parts};
use bincode::{HasParts, Wire};

type WordParts<'a> = &'a str;

impl<'a> HasParts<WordParts<'a>> for Word<'a> {
    ghost parts = { λ v. v.0 };
}

impl<'a> Wire for Word<'a> {
    ghost use Rattle.bincode.specs.TypeWords.{words_by};

    ghost words = { words_by ⟦<WordParts<'a> as Wire>⟧.words ⟦<Word<'a> as HasParts<WordParts<'a>>>⟧.parts };

    fn claim_size() -> usize
        ensures { result ≡ ⟦<WordParts<'a> as Wire>⟧.words.claim }
    {
        WordParts::claim_size()
    }
}

impl<'a> Plain for Word<'a> {
    fn tell_plain()
        ensures { PlainWords ⟦<Word<'a> as Wire>⟧.words }
    {
        plain_by_parts::<WordParts<'a>, Word<'a>>();
    }
}

impl<'a> Exact for Word<'a> {
    fn tell_exact()
        ensures { ExactWords ⟦<Word<'a> as Wire>⟧.words ⟦<Word<'a> as PartialEq>⟧.eq }
    {
        exact_by_parts::<WordParts<'a>, Word<'a>>();
    }
}

impl<'a> Canonical for Word<'a> {
    fn tell_canonical()
        ensures { CanonicalWords ⟦<Word<'a> as Wire>⟧.words }
    {
        canonical_by_parts::<WordParts<'a>, Word<'a>>();
    }
}

impl<'a> Encode for Word<'a> {
    fn tell_valid(&self) {
        self.0.tell_valid();
    }

    fn encode<E: Encoder>(&self, encoder: &mut E) -> Result<(), EncodeError> {
        self.0.encode(encoder)
    }
}

impl<'a, Context: Drop> BorrowDecode<&'a [u8], Context> for Word<'a> {
    type Run = Sequential;

    fn borrow_decode<D: BorrowDecoder<&'a [u8], Context = Context>>(
        decoder: &mut D,
    ) -> Result<Word<'a>, DecodeError> {
        let value: WordParts<'a> = BorrowDecode::borrow_decode(decoder)?;
        Ok(Word(value))
    }
}
