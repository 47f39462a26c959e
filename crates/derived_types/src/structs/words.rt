//! What the types of `structs.rt` are written as. Made from that file by the program `derive`, and not edited: run
//! `derive` on the file again where its types change.

use super::*;
use bincode::de::{Decode, Decoder, Sequential};
use bincode::enc::{Encode, Encoder};
use bincode::error::{DecodeError, EncodeError};
use bincode::laws::{
    Canonical, Exact, Plain, canonical_by_parts, exact_by_fields, exact_by_parts, plain_by_parts,
};
use bincode::{HasParts, Wire};

type NothingParts = ();

impl HasParts<NothingParts> for Nothing {
    ghost parts = { λ v. tt };
}

impl Wire for Nothing {
    ghost use Rattle.bincode.specs.TypeWords.{words_by};

    ghost words = { words_by ⟦<NothingParts as Wire>⟧.words ⟦<Nothing as HasParts<NothingParts>>⟧.parts };

    fn claim_size() -> usize {
        NothingParts::claim_size()
    }
}

impl Plain for Nothing {
    fn tell_plain() {
        plain_by_parts::<NothingParts, Nothing>();
    }
}

impl Exact for Nothing {
    fn tell_exact() {
        exact_by_parts::<NothingParts, Nothing>();
    }
}

impl Canonical for Nothing {
    fn tell_canonical() {
        canonical_by_parts::<NothingParts, Nothing>();
    }
}

impl Encode for Nothing {
    fn tell_valid(&self) {
        ().tell_valid();
    }

    fn encode<E: Encoder>(&self, encoder: &mut E) -> Result<(), EncodeError> {
        ().encode(encoder)
    }
}

impl<Context: Drop> Decode<Context> for Nothing {
    type Run = Sequential;

    fn decode<D: Decoder<Context = Context>>(decoder: &mut D) -> Result<Nothing, DecodeError> {
        let (): NothingParts = Decode::decode(decoder)?;
        Ok(Nothing)
    }
}

type MillimetresParts = u32;

impl HasParts<MillimetresParts> for Millimetres {
    ghost parts = { λ v. v.0 };
}

impl Wire for Millimetres {
    ghost use Rattle.bincode.specs.TypeWords.{words_by};

    ghost words = { words_by ⟦<MillimetresParts as Wire>⟧.words ⟦<Millimetres as HasParts<MillimetresParts>>⟧.parts };

    fn claim_size() -> usize {
        MillimetresParts::claim_size()
    }
}

impl Plain for Millimetres {
    fn tell_plain() {
        plain_by_parts::<MillimetresParts, Millimetres>();
    }
}

impl Exact for Millimetres {
    fn tell_exact() {
        exact_by_parts::<MillimetresParts, Millimetres>();
    }
}

impl Canonical for Millimetres {
    fn tell_canonical() {
        canonical_by_parts::<MillimetresParts, Millimetres>();
    }
}

impl Encode for Millimetres {
    const MAX_FIXED_SIZE: Option<usize> = Some(4);

    fn tell_valid(&self) {
        self.0.tell_valid();
    }

    fn encode<E: Encoder>(&self, encoder: &mut E) -> Result<(), EncodeError> {
        self.0.encode(encoder)
    }
}

impl<Context: Drop> Decode<Context> for Millimetres {
    type Run = Sequential;

    fn decode<D: Decoder<Context = Context>>(decoder: &mut D) -> Result<Millimetres, DecodeError> {
        let value: MillimetresParts = Decode::decode(decoder)?;
        Ok(Millimetres(value))
    }
}

type PointParts = (i32, i32);

impl HasParts<PointParts> for Point {
    ghost parts = { λ v. (v.0, v.1) };
}

impl Wire for Point {
    ghost use Rattle.bincode.specs.TypeWords.{words_by};

    ghost words = { words_by ⟦<PointParts as Wire>⟧.words ⟦<Point as HasParts<PointParts>>⟧.parts };

    fn claim_size() -> usize {
        PointParts::claim_size()
    }
}

impl Plain for Point {
    fn tell_plain() {
        plain_by_parts::<PointParts, Point>();
    }
}

impl Exact for Point {
    fn tell_exact() {
        exact_by_fields::<PointParts, Point, _>();
    }
}

impl Canonical for Point {
    fn tell_canonical() {
        canonical_by_parts::<PointParts, Point>();
    }
}

impl Encode for Point {
    const MAX_FIXED_SIZE: Option<usize> = Some(8);

    fn tell_valid(&self) {
        (&self.0, &self.1).tell_valid();
    }

    fn encode<E: Encoder>(&self, encoder: &mut E) -> Result<(), EncodeError> {
        (&self.0, &self.1).encode(encoder)
    }
}

impl<Context: Drop> Decode<Context> for Point {
    type Run = Sequential;

    fn decode<D: Decoder<Context = Context>>(decoder: &mut D) -> Result<Point, DecodeError> {
        let (first, second): PointParts = Decode::decode(decoder)?;
        Ok(Point(first, second))
    }
}

type WrapperParts<T> = T;

impl<T> HasParts<WrapperParts<T>> for Wrapper<T> {
    ghost parts = { λ v. v.0 };
}

impl<T: Wire> Wire for Wrapper<T> {
    ghost use Rattle.bincode.specs.TypeWords.{words_by};

    ghost words = { words_by ⟦<WrapperParts<T> as Wire>⟧.words ⟦<Wrapper<T> as HasParts<WrapperParts<T>>>⟧.parts };

    fn claim_size() -> usize {
        <WrapperParts<T>>::claim_size()
    }
}

impl<T: Plain> Plain for Wrapper<T> {
    fn tell_plain() {
        plain_by_parts::<WrapperParts<T>, Wrapper<T>>();
    }
}

impl<T: Exact> Exact for Wrapper<T> {
    fn tell_exact() {
        exact_by_parts::<WrapperParts<T>, Wrapper<T>>();
    }
}

impl<T: Canonical> Canonical for Wrapper<T> {
    fn tell_canonical() {
        canonical_by_parts::<WrapperParts<T>, Wrapper<T>>();
    }
}

impl<T: Encode> Encode for Wrapper<T> {
    fn tell_valid(&self) {
        self.0.tell_valid();
    }

    fn encode<E: Encoder>(&self, encoder: &mut E) -> Result<(), EncodeError> {
        self.0.encode(encoder)
    }
}

impl<Context: Drop, T: Decode<Context>> Decode<Context> for Wrapper<T> {
    type Run = Sequential;

    fn decode<D: Decoder<Context = Context>>(decoder: &mut D) -> Result<Wrapper<T>, DecodeError> {
        let value: WrapperParts<T> = Decode::decode(decoder)?;
        Ok(Wrapper(value))
    }
}
