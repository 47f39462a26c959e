//! What the types of `book.rt` are written as. Made from that file by the program `derive`, and not edited: run
//! `derive` on the file again where its types change.

use super::*;
use bincode::de::{Decode, Decoder, Sequential};
use bincode::enc::{Encode, Encoder};
use bincode::error::{DecodeError, EncodeError};
use bincode::laws::{Canonical, Exact, Plain, canonical_by_parts, exact_by_fields, plain_by_parts};
use bincode::{HasParts, Wire};

type BookParts = (Vec<Contact>, BTreeMap<u64, String>);

impl HasParts<BookParts> for Book {
    ghost parts = { λ v. (v.contacts, v.notes) };
}

impl Wire for Book {
    ghost use Rattle.bincode.specs.TypeWords.{words_by};

    ghost words = { words_by ⟦<BookParts as Wire>⟧.words ⟦<Book as HasParts<BookParts>>⟧.parts };

    fn claim_size() -> usize {
        BookParts::claim_size()
    }
}

impl Plain for Book {
    fn tell_plain() {
        plain_by_parts::<BookParts, Book>();
    }
}

impl Exact for Book {
    fn tell_exact() {
        exact_by_fields::<BookParts, Book, _>();
    }
}

impl Canonical for Book {
    fn tell_canonical() {
        canonical_by_parts::<BookParts, Book>();
    }
}

impl Encode for Book {
    fn tell_valid(&self) {
        (&self.contacts, &self.notes).tell_valid();
    }

    fn encode<E: Encoder>(&self, encoder: &mut E) -> Result<(), EncodeError> {
        (&self.contacts, &self.notes).encode(encoder)
    }
}

impl<Context: Drop> Decode<Context> for Book {
    type Run = Sequential;

    fn decode<D: Decoder<Context = Context>>(decoder: &mut D) -> Result<Book, DecodeError> {
        let (contacts, notes): BookParts = Decode::decode(decoder)?;
        Ok(Book { contacts, notes })
    }
}
