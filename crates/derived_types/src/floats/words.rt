//! What the types of `floats.rt` are written as. Made from that file by the program `derive`, and not edited: run
//! `derive` on the file again where its types change.
//! Left out of Place: Exact.
//! Left out of Reading: Exact.

use super::*;
use bincode::de::{Decode, Decoder, Sequential};
use bincode::enc::{Encode, Encoder};
use bincode::enums::{
    DecodeVariants, Enum, Sum, canonical_by_variants, decode_by_tag, decode_no_variant,
    decode_part, encode_variant, enum_claim, plain_by_variants,
};
use bincode::error::{DecodeError, EncodeError};
use bincode::laws::{Canonical, Exact, Plain, canonical_by_parts, exact_by_fields, plain_by_parts};
use bincode::short_text::TypeName;
use bincode::{HasParts, NoMoreVariants, VariantOf, Wire};

type PlaceParts = (f32, f32, f64);

impl HasParts<PlaceParts> for Place {
    ghost parts = { λ v. (v.x, v.y, v.height) };
}

impl Wire for Place {
    ghost use Rattle.bincode.specs.TypeWords.{words_by};

    ghost words = { words_by ⟦<PlaceParts as Wire>⟧.words ⟦<Place as HasParts<PlaceParts>>⟧.parts };

    fn claim_size() -> usize {
        PlaceParts::claim_size()
    }
}

impl Plain for Place {
    fn tell_plain() {
        plain_by_parts::<PlaceParts, Place>();
    }
}

impl Canonical for Place {
    fn tell_canonical() {
        canonical_by_parts::<PlaceParts, Place>();
    }
}

impl Encode for Place {
    const MAX_FIXED_SIZE: Option<usize> = Some(16);

    fn tell_valid(&self) {
        (&self.x, &self.y, &self.height).tell_valid();
    }

    fn encode<E: Encoder>(&self, encoder: &mut E) -> Result<(), EncodeError> {
        (&self.x, &self.y, &self.height).encode(encoder)
    }
}

impl<Context: Drop> Decode<Context> for Place {
    type Run = Sequential;

    fn decode<D: Decoder<Context = Context>>(decoder: &mut D) -> Result<Place, DecodeError> {
        let (x, y, height): PlaceParts = Decode::decode(decoder)?;
        Ok(Place { x, y, height })
    }
}

type ReadingMissingPart = ();

type ReadingAtPart = f64;

type ReadingBetweenPart = (f32, f32);

type ReadingParts = VariantOf<
    0,
    ReadingMissingPart,
    VariantOf<1, ReadingAtPart, VariantOf<2, ReadingBetweenPart, NoMoreVariants<Reading>>>,
>;

impl Sum<ReadingParts> for Reading {
    ghost use Rattle.bincode.specs.Sums.{this, other};
    ghost use Rattle.bincode.specs.EnumWords.{by, no_more, or_else};
    ghost use Rattle.derived_types.specs.declared.floats.Reading.TheVariants.{Missing, At, Between};

    ghost variants = { or_else 0 ⟦<ReadingMissingPart as Wire>⟧.words
        (or_else 1 ⟦<ReadingAtPart as Wire>⟧.words
        (or_else 2 ⟦<ReadingBetweenPart as Wire>⟧.words
        no_more)) };

    ghost parts = { elim [
      | Missing ↦ this tt
      | At value ↦ other (this value)
      | Between first second ↦ other (other (this (first, second)))
    ] };

    ghost made = { by (λ p. Missing)
        (by (λ p. At p)
        (by (λ p. Between p.0 p.1)
        (λ n. elim (n.0) [ ]))) };
}

impl Wire for Reading {
    ghost use Rattle.bincode.specs.EnumWords.{enum_words};

    ghost words = { enum_words ⟦<Reading as Sum<ReadingParts>>⟧.variants ⟦<Reading as Sum<ReadingParts>>⟧.parts };

    fn claim_size() -> usize {
        let widest = ReadingBetweenPart::claim_size().max(0);
        let widest = ReadingAtPart::claim_size().max(widest);
        let widest = ReadingMissingPart::claim_size().max(widest);
        enum_claim(widest)
    }
}

impl Enum for Reading {
    ghost use Rattle.std.specs.Prelude.{refl};
    ghost use Rattle.bincode.specs.EnumWords.{enum_laws, enum_variants};
    ghost use Rattle.derived_types.specs.declared.floats.Reading.TheVariants.{Missing, At, Between};

    ghost choices = { enum_variants ⟦<Reading as Sum<ReadingParts>>⟧.variants ⟦<Reading as Sum<ReadingParts>>⟧.made };

    fn type_name() -> TypeName {
        TypeName::new("Reading")
    }

    ghost laws = { enum_laws ⟦<Reading as Sum<ReadingParts>>⟧.variants ⟦<Reading as Sum<ReadingParts>>⟧.parts
        ⟦<Reading as Sum<ReadingParts>>⟧.made (elim [
          | Missing ↦ refl
          | At value ↦ refl
          | Between first second ↦ refl
        ]) };
}

impl Plain for Reading {
    fn tell_plain() {
        ReadingMissingPart::tell_plain();
        ReadingAtPart::tell_plain();
        ReadingBetweenPart::tell_plain();
        plain_by_variants::<Reading>();
    }
}

impl Canonical for Reading {
    fn tell_canonical() {
        ReadingMissingPart::tell_canonical();
        ReadingAtPart::tell_canonical();
        ReadingBetweenPart::tell_canonical();
        canonical_by_variants::<Reading>();
    }
}

impl Encode for Reading {
    fn tell_valid(&self) {
        match self {
            Reading::Missing => {}
            Reading::At(value) => value.tell_valid(),
            Reading::Between(first, second) => {
                first.tell_valid();
                second.tell_valid();
            }
        }
    }

    fn encode<E: Encoder>(&self, encoder: &mut E) -> Result<(), EncodeError> {
        match self {
            Reading::Missing => encode_variant(self, 0, &(), encoder),
            Reading::At(value) => encode_variant(self, 1, value, encoder),
            Reading::Between(first, second) => encode_variant(self, 2, &(first, second), encoder),
        }
    }
}

impl<Context: Drop> DecodeVariants<Context> for Reading {
    fn decode_variant<D: Decoder<Context = Context>>(
        tag: u32,
        decoder: &mut D,
    ) -> Result<Reading, DecodeError> {
        match tag {
            0 => match decode_part::<Context, Reading, ReadingMissingPart, D>(tag, 0, decoder) {
                Ok(()) => Ok(Reading::Missing),
                Err(error) => Err(error),
            },
            1 => match decode_part::<Context, Reading, ReadingAtPart, D>(tag, 1, decoder) {
                Ok(value) => Ok(Reading::At(value)),
                Err(error) => Err(error),
            },
            2 => match decode_part::<Context, Reading, ReadingBetweenPart, D>(tag, 2, decoder) {
                Ok((first, second)) => Ok(Reading::Between(first, second)),
                Err(error) => Err(error),
            },
            _ => decode_no_variant(tag, 2, decoder),
        }
    }
}

impl<Context: Drop> Decode<Context> for Reading {
    type Run = Sequential;

    fn decode<D: Decoder<Context = Context>>(decoder: &mut D) -> Result<Reading, DecodeError> {
        decode_by_tag(decoder)
    }
}

type LevelsParts = (BTreeMap<OrderedFloat<f64>, u32>, OrderedFloat<f32>);

impl HasParts<LevelsParts> for Levels {
    ghost parts = { λ v. (v.counts, v.least) };
}

impl Wire for Levels {
    ghost use Rattle.bincode.specs.TypeWords.{words_by};

    ghost words = { words_by ⟦<LevelsParts as Wire>⟧.words ⟦<Levels as HasParts<LevelsParts>>⟧.parts };

    fn claim_size() -> usize {
        LevelsParts::claim_size()
    }
}

impl Plain for Levels {
    fn tell_plain() {
        plain_by_parts::<LevelsParts, Levels>();
    }
}

impl Exact for Levels {
    fn tell_exact() {
        exact_by_fields::<LevelsParts, Levels, _>();
    }
}

impl Canonical for Levels {
    fn tell_canonical() {
        canonical_by_parts::<LevelsParts, Levels>();
    }
}

impl Encode for Levels {
    fn tell_valid(&self) {
        (&self.counts, &self.least).tell_valid();
    }

    fn encode<E: Encoder>(&self, encoder: &mut E) -> Result<(), EncodeError> {
        (&self.counts, &self.least).encode(encoder)
    }
}

impl<Context: Drop> Decode<Context> for Levels {
    type Run = Sequential;

    fn decode<D: Decoder<Context = Context>>(decoder: &mut D) -> Result<Levels, DecodeError> {
        let (counts, least): LevelsParts = Decode::decode(decoder)?;
        Ok(Levels { counts, least })
    }
}
