//! What the types of `turns.rt` are written as. Made from that file by the program `derive`, and not edited: run
//! `derive` on the file again where its types change.

use super::*;
use bincode::de::{Decode, Decoder, Sequential};
use bincode::enc::{Encode, Encoder};
use bincode::enums::{
    DecodeVariants, Enum, Sum, canonical_by_variants, decode_by_tag, decode_no_variant,
    decode_part, encode_variant, enum_claim, exact_by_variants, plain_by_variants,
};
use bincode::error::{DecodeError, EncodeError};
use bincode::laws::{Canonical, Exact, Plain};
use bincode::short_text::TypeName;
use bincode::{NoMoreVariants, VariantOf, Wire};

type TurnJoinedPart = (u32, String, u8);

type TurnLeftPart = (u32, String, u8);

type TurnMovedPart = (u32, String, u8);

type TurnSaidPart = (u32, String, u8);

type TurnWonPart = (u32, String, u8);

type TurnParts = VariantOf<
    0,
    TurnJoinedPart,
    VariantOf<
        1,
        TurnLeftPart,
        VariantOf<
            2,
            TurnMovedPart,
            VariantOf<3, TurnSaidPart, VariantOf<4, TurnWonPart, NoMoreVariants<Turn>>>,
        >,
    >,
>;

impl Sum<TurnParts> for Turn {
    ghost use Rattle.bincode.specs.Sums.{this, other};
    ghost use Rattle.bincode.specs.EnumWords.{by, no_more, or_else};
    ghost use Rattle.derived_types.specs.declared.turns.Turn.TheVariants.{Joined, Left, Moved, Said};
    ghost use Rattle.derived_types.specs.declared.turns.Turn.TheVariants.{Won};

    ghost variants = { or_else 0 ⟦<TurnJoinedPart as Wire>⟧.words
        (or_else 1 ⟦<TurnLeftPart as Wire>⟧.words
        (or_else 2 ⟦<TurnMovedPart as Wire>⟧.words
        (or_else 3 ⟦<TurnSaidPart as Wire>⟧.words
        (or_else 4 ⟦<TurnWonPart as Wire>⟧.words
        no_more)))) };

    ghost parts = { elim [
      | Joined first second third ↦ this (first, second, third)
      | Left first second third ↦ other (this (first, second, third))
      | Moved first second third ↦ other (other (this (first, second, third)))
      | Said first second third ↦ other (other (other (this (first, second, third))))
      | Won first second third ↦ other (other (other (other (this (first, second, third)))))
    ] };

    ghost made = { by (λ p. Joined p.0 p.1 p.2)
        (by (λ p. Left p.0 p.1 p.2)
        (by (λ p. Moved p.0 p.1 p.2)
        (by (λ p. Said p.0 p.1 p.2)
        (by (λ p. Won p.0 p.1 p.2)
        (λ n. elim (n.0) [ ]))))) };
}

impl Wire for Turn {
    ghost use Rattle.bincode.specs.EnumWords.{enum_words};

    ghost words = { enum_words ⟦<Turn as Sum<TurnParts>>⟧.variants ⟦<Turn as Sum<TurnParts>>⟧.parts };

    fn claim_size() -> usize {
        let widest = TurnWonPart::claim_size().max(0);
        let widest = TurnSaidPart::claim_size().max(widest);
        let widest = TurnMovedPart::claim_size().max(widest);
        let widest = TurnLeftPart::claim_size().max(widest);
        let widest = TurnJoinedPart::claim_size().max(widest);
        enum_claim(widest)
    }
}

impl Enum for Turn {
    ghost use Rattle.std.specs.Prelude.{refl};
    ghost use Rattle.bincode.specs.EnumWords.{enum_laws, enum_variants};
    ghost use Rattle.derived_types.specs.declared.turns.Turn.TheVariants.{Joined, Left, Moved, Said};
    ghost use Rattle.derived_types.specs.declared.turns.Turn.TheVariants.{Won};

    ghost choices = { enum_variants ⟦<Turn as Sum<TurnParts>>⟧.variants ⟦<Turn as Sum<TurnParts>>⟧.made };

    fn type_name() -> TypeName {
        TypeName::new("Turn")
    }

    ghost laws = { enum_laws ⟦<Turn as Sum<TurnParts>>⟧.variants ⟦<Turn as Sum<TurnParts>>⟧.parts
        ⟦<Turn as Sum<TurnParts>>⟧.made (elim [
          | Joined first second third ↦ refl
          | Left first second third ↦ refl
          | Moved first second third ↦ refl
          | Said first second third ↦ refl
          | Won first second third ↦ refl
        ]) };
}

impl Plain for Turn {
    fn tell_plain() {
        TurnJoinedPart::tell_plain();
        TurnLeftPart::tell_plain();
        TurnMovedPart::tell_plain();
        TurnSaidPart::tell_plain();
        TurnWonPart::tell_plain();
        plain_by_variants::<Turn>();
    }
}

impl Exact for Turn {
    fn tell_exact() {
        TurnJoinedPart::tell_exact();
        TurnLeftPart::tell_exact();
        TurnMovedPart::tell_exact();
        TurnSaidPart::tell_exact();
        TurnWonPart::tell_exact();
        exact_by_variants::<Turn>();
    }
}

impl Canonical for Turn {
    fn tell_canonical() {
        TurnJoinedPart::tell_canonical();
        TurnLeftPart::tell_canonical();
        TurnMovedPart::tell_canonical();
        TurnSaidPart::tell_canonical();
        TurnWonPart::tell_canonical();
        canonical_by_variants::<Turn>();
    }
}

impl Encode for Turn {
    fn tell_valid(&self) {
        match self {
            Turn::Joined(first, second, third) => {
                first.tell_valid();
                second.tell_valid();
                third.tell_valid();
            }
            Turn::Left(first, second, third) => {
                first.tell_valid();
                second.tell_valid();
                third.tell_valid();
            }
            Turn::Moved(first, second, third) => {
                first.tell_valid();
                second.tell_valid();
                third.tell_valid();
            }
            Turn::Said(first, second, third) => {
                first.tell_valid();
                second.tell_valid();
                third.tell_valid();
            }
            Turn::Won(first, second, third) => {
                first.tell_valid();
                second.tell_valid();
                third.tell_valid();
            }
        }
    }

    fn encode<E: Encoder>(&self, encoder: &mut E) -> Result<(), EncodeError> {
        match self {
            Turn::Joined(first, second, third) => encode_variant(
                self,
                0,
                &(first, second, third),
                encoder,
            ),
            Turn::Left(first, second, third) => encode_variant(
                self,
                1,
                &(first, second, third),
                encoder,
            ),
            Turn::Moved(first, second, third) => encode_variant(
                self,
                2,
                &(first, second, third),
                encoder,
            ),
            Turn::Said(first, second, third) => encode_variant(
                self,
                3,
                &(first, second, third),
                encoder,
            ),
            Turn::Won(first, second, third) => encode_variant(
                self,
                4,
                &(first, second, third),
                encoder,
            ),
        }
    }
}

impl<Context: Drop> DecodeVariants<Context> for Turn {
    fn decode_variant<D: Decoder<Context = Context>>(
        tag: u32,
        decoder: &mut D,
    ) -> Result<Turn, DecodeError> {
        match tag {
            0 => match decode_part::<Context, Turn, TurnJoinedPart, D>(tag, 0, decoder) {
                Ok((first, second, third)) => Ok(Turn::Joined(first, second, third)),
                Err(error) => Err(error),
            },
            1 => match decode_part::<Context, Turn, TurnLeftPart, D>(tag, 1, decoder) {
                Ok((first, second, third)) => Ok(Turn::Left(first, second, third)),
                Err(error) => Err(error),
            },
            2 => match decode_part::<Context, Turn, TurnMovedPart, D>(tag, 2, decoder) {
                Ok((first, second, third)) => Ok(Turn::Moved(first, second, third)),
                Err(error) => Err(error),
            },
            3 => match decode_part::<Context, Turn, TurnSaidPart, D>(tag, 3, decoder) {
                Ok((first, second, third)) => Ok(Turn::Said(first, second, third)),
                Err(error) => Err(error),
            },
            4 => match decode_part::<Context, Turn, TurnWonPart, D>(tag, 4, decoder) {
                Ok((first, second, third)) => Ok(Turn::Won(first, second, third)),
                Err(error) => Err(error),
            },
            _ => decode_no_variant(tag, 4, decoder),
        }
    }
}

impl<Context: Drop> Decode<Context> for Turn {
    type Run = Sequential;

    fn decode<D: Decoder<Context = Context>>(decoder: &mut D) -> Result<Turn, DecodeError> {
        decode_by_tag(decoder)
    }
}
