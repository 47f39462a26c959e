//! What the types of `contact.rt` are written as. Made from that file by the program `derive`, and not edited: run
//! `derive` on the file again where its types change.

use super::*;
use bincode::de::{Decode, Decoder, Sequential};
use bincode::enc::{Encode, Encoder};
use bincode::error::{DecodeError, EncodeError};
use bincode::laws::{Canonical, Exact, Plain, canonical_by_parts, exact_by_fields, plain_by_parts};
use bincode::{HasParts, Wire};

type ContactParts = (u64, String, Vec<String>, Kind);

impl HasParts<ContactParts> for Contact {
    ghost parts = { λ v. (v.id, v.name, v.emails, v.kind) };
}

impl Wire for Contact {
    ghost use Rattle.bincode.specs.TypeWords.{words_by};

    ghost words = { words_by ⟦<ContactParts as Wire>⟧.words ⟦<Contact as HasParts<ContactParts>>⟧.parts };

    fn claim_size() -> usize {
        ContactParts::claim_size()
    }
}

impl Plain for Contact {
    fn tell_plain() {
        plain_by_parts::<ContactParts, Contact>();
    }
}

impl Exact for Contact {
    fn tell_exact() {
        exact_by_fields::<ContactParts, Contact, _>();
    }
}

impl Canonical for Contact {
    fn tell_canonical() {
        canonical_by_parts::<ContactParts, Contact>();
    }
}

impl Encode for Contact {
    fn tell_valid(&self) {
        (&self.id, &self.name, &self.emails, &self.kind).tell_valid();
    }

    fn encode<E: Encoder>(&self, encoder: &mut E) -> Result<(), EncodeError> {
        (&self.id, &self.name, &self.emails, &self.kind).encode(encoder)
    }
}

impl<Context: Drop> Decode<Context> for Contact {
    type Run = Sequential;

    fn decode<D: Decoder<Context = Context>>(decoder: &mut D) -> Result<Contact, DecodeError> {
        let (id, name, emails, kind): ContactParts = Decode::decode(decoder)?;
        Ok(Contact {
            id,
            name,
            emails,
            kind,
        })
    }
}
