//! What the types of `foo.rt` are written as. Made from that file by the program `derive`, and not edited: run
//! `derive` on the file again where its types change.

use super::*;
use bincode::de::{Decode, Decoder, Sequential};
use bincode::enc::{Encode, Encoder};
use bincode::error::{DecodeError, EncodeError};
use bincode::laws::{
    Canonical, ConstantCharge, Exact, Inhabited, Plain, Writable, canonical_by_parts,
    exact_by_fields, plain_by_parts, writable_by_parts,
};
use bincode::shape::{Described, Shape};
use bincode::{HasParts, Wire};
use std::alloc::Global;

type FooParts = (u32, u32);

impl HasParts<FooParts> for Foo {
    ghost parts = { λ v. (v.a, v.b) };
}

impl Wire for Foo {
    ghost use Rattle.bincode.specs.TypeWords.{words_by};

    ghost words = { words_by ⟦<FooParts as Wire>⟧.words ⟦<Foo as HasParts<FooParts>>⟧.parts };

    fn claim_size() -> usize {
        FooParts::claim_size()
    }
}

impl Plain for Foo {
    fn tell_plain() {
        plain_by_parts::<FooParts, Foo>();
    }
}

impl Exact for Foo {
    fn tell_exact() {
        exact_by_fields::<FooParts, Foo, _>();
    }
}

impl Canonical for Foo {
    fn tell_canonical() {
        canonical_by_parts::<FooParts, Foo>();
    }
}

impl Writable for Foo {
    fn tell_writable() {
        writable_by_parts::<FooParts, Foo>();
    }
}

impl Inhabited for Foo {
    fn tell_inhabited() {
        FooParts::tell_inhabited();
    }
}

impl ConstantCharge for Foo {
    ghost cost = { ⟦<FooParts as ConstantCharge>⟧.cost };

    ghost peak = { ⟦<FooParts as ConstantCharge>⟧.peak };

    fn tell_costs() {
        FooParts::tell_costs();
    }
}

impl Described for Foo {
    fn shape(alloc: Global) -> Option<Shape> {
        FooParts::shape(alloc)
    }
}

impl Encode for Foo {
    const MAX_FIXED_SIZE: Option<usize> = Some(8);

    fn tell_valid(&self) {
        (&self.a, &self.b).tell_valid();
    }

    fn encode<E: Encoder>(&self, encoder: &mut E) -> Result<(), EncodeError> {
        (&self.a, &self.b).encode(encoder)
    }
}

impl<Context: Drop> Decode<Context> for Foo {
    type Run = Sequential;

    fn decode<D: Decoder<Context = Context>>(decoder: &mut D) -> Result<Foo, DecodeError> {
        let (a, b): FooParts = Decode::decode(decoder)?;
        Ok(Foo { a, b })
    }
}
