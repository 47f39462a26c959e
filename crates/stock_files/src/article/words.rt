//! What the types of `article.rt` are written as. Made from that file by the program `derive`, and not edited: run
//! `derive` on the file again where its types change.

use super::*;
use bincode::de::{Decode, Decoder, Sequential};
use bincode::enc::{Encode, Encoder};
use bincode::error::{DecodeError, EncodeError};
use bincode::laws::{Canonical, Exact, Plain, canonical_by_parts, exact_by_fields, plain_by_parts};
use bincode::shape::{Described, Shape};
use bincode::{HasParts, Wire};
use std::alloc::Global;

type ArticleParts = (String, u64, Option<u32>, BTreeMap<String, String>);

impl HasParts<ArticleParts> for Article {
    ghost parts = { λ v. (v.name, v.price, v.weight, v.notes) };
}

impl Wire for Article {
    ghost use Rattle.bincode.specs.TypeWords.{words_by};

    ghost words = { words_by ⟦<ArticleParts as Wire>⟧.words ⟦<Article as HasParts<ArticleParts>>⟧.parts };

    fn claim_size() -> usize {
        ArticleParts::claim_size()
    }
}

impl Plain for Article {
    fn tell_plain() {
        plain_by_parts::<ArticleParts, Article>();
    }
}

impl Exact for Article {
    fn tell_exact() {
        exact_by_fields::<ArticleParts, Article, _>();
    }
}

impl Canonical for Article {
    fn tell_canonical() {
        canonical_by_parts::<ArticleParts, Article>();
    }
}

impl Described for Article {
    fn shape(alloc: Global) -> Option<Shape> {
        ArticleParts::shape(alloc)
    }
}

impl Encode for Article {
    fn tell_valid(&self) {
        (&self.name, &self.price, &self.weight, &self.notes).tell_valid();
    }

    fn encode<E: Encoder>(&self, encoder: &mut E) -> Result<(), EncodeError> {
        (&self.name, &self.price, &self.weight, &self.notes).encode(encoder)
    }
}

impl<Context: Drop> Decode<Context> for Article {
    type Run = Sequential;

    fn decode<D: Decoder<Context = Context>>(decoder: &mut D) -> Result<Article, DecodeError> {
        let (name, price, weight, notes): ArticleParts = Decode::decode(decoder)?;
        Ok(Article {
            name,
            price,
            weight,
            notes,
        })
    }
}
