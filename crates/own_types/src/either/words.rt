//! What the types of `either.rt` are written as. Made from that file by the program `derive`, and not edited: run
//! `derive` on the file again where its types change.

use super::*;
use bincode::de::{Decode, Decoder, Sequential};
use bincode::enc::{Encode, Encoder};
use bincode::enums::{
    DecodeVariants, Enum, Sum, canonical_by_variants, decode_by_tag, decode_no_variant,
    decode_part, encode_variant, enum_claim, exact_by_variants, plain_by_variants,
};
use bincode::error::{DecodeError, EncodeError};
use bincode::laws::{Canonical, Exact, Plain};
use bincode::short_text::TypeName;
use bincode::{NoMoreVariants, VariantOf, Wire};

type EitherParts<L, R> = VariantOf<0, L, VariantOf<1, R, NoMoreVariants<Either<L, R>>>>;

impl<L: Wire, R: Wire> Sum<EitherParts<L, R>> for Either<L, R> {
    ghost use Rattle.bincode.specs.Sums.{this, other};
    ghost use Rattle.bincode.specs.EnumWords.{by, no_more, or_else};
    ghost use Rattle.own_types.specs.declared.either.Either.TheVariants.{Left, Right};

    ghost variants = { or_else 0 L.words (or_else 1 R.words no_more) };

    ghost parts = { elim [
      | Left value ↦ this value
      | Right value ↦ other (this value)
    ] };

    ghost made = { by (λ p. Left p) (by (λ p. Right p) (λ n. elim (n.0) [ ])) };
}

impl<L: Wire, R: Wire> Wire for Either<L, R> {
    ghost use Rattle.bincode.specs.EnumWords.{enum_words};

    ghost words = { enum_words ⟦<Either<L, R> as Sum<EitherParts<L, R>>>⟧.variants
        ⟦<Either<L, R> as Sum<EitherParts<L, R>>>⟧.parts };

    fn claim_size() -> usize {
        let widest = R::claim_size().max(0);
        let widest = L::claim_size().max(widest);
        enum_claim(widest)
    }
}

impl<L: Wire, R: Wire> Enum for Either<L, R> {
    ghost use Rattle.std.specs.Prelude.{refl};
    ghost use Rattle.bincode.specs.EnumWords.{enum_laws, enum_variants};
    ghost use Rattle.own_types.specs.declared.either.Either.TheVariants.{Left, Right};

    ghost choices = { enum_variants ⟦<Either<L, R> as Sum<EitherParts<L, R>>>⟧.variants
        ⟦<Either<L, R> as Sum<EitherParts<L, R>>>⟧.made };

    fn type_name() -> TypeName {
        TypeName::new("Either")
    }

    ghost laws = { enum_laws ⟦<Either<L, R> as Sum<EitherParts<L, R>>>⟧.variants
        ⟦<Either<L, R> as Sum<EitherParts<L, R>>>⟧.parts
        ⟦<Either<L, R> as Sum<EitherParts<L, R>>>⟧.made (elim [
          | Left value ↦ refl
          | Right value ↦ refl
        ]) };
}

impl<L: Plain, R: Plain> Plain for Either<L, R> {
    fn tell_plain() {
        L::tell_plain();
        R::tell_plain();
        plain_by_variants::<Either<L, R>>();
    }
}

impl<L: Exact, R: Exact> Exact for Either<L, R> {
    fn tell_exact() {
        L::tell_exact();
        R::tell_exact();
        exact_by_variants::<Either<L, R>>();
    }
}

impl<L: Canonical, R: Canonical> Canonical for Either<L, R> {
    fn tell_canonical() {
        L::tell_canonical();
        R::tell_canonical();
        canonical_by_variants::<Either<L, R>>();
    }
}

impl<L: Encode, R: Encode> Encode for Either<L, R> {
    fn tell_valid(&self) {
        match self {
            Either::Left(value) => value.tell_valid(),
            Either::Right(value) => value.tell_valid(),
        }
    }

    fn encode<E: Encoder>(&self, encoder: &mut E) -> Result<(), EncodeError> {
        match self {
            Either::Left(value) => encode_variant(self, 0, value, encoder),
            Either::Right(value) => encode_variant(self, 1, value, encoder),
        }
    }
}

impl<Context: Drop, L: Decode<Context>, R: Decode<Context>> DecodeVariants<Context>
    for Either<L, R> {
    fn decode_variant<D: Decoder<Context = Context>>(
        tag: u32,
        decoder: &mut D,
    ) -> Result<Either<L, R>, DecodeError> {
        match tag {
            0 => match decode_part::<Context, Either<L, R>, L, D>(tag, 0, decoder) {
                Ok(value) => Ok(Either::Left(value)),
                Err(error) => Err(error),
            },
            1 => match decode_part::<Context, Either<L, R>, R, D>(tag, 1, decoder) {
                Ok(value) => Ok(Either::Right(value)),
                Err(error) => Err(error),
            },
            _ => decode_no_variant(tag, 1, decoder),
        }
    }
}

impl<Context: Drop, L: Decode<Context>, R: Decode<Context>> Decode<Context> for Either<L, R> {
    type Run = Sequential;

    fn decode<D: Decoder<Context = Context>>(decoder: &mut D) -> Result<Either<L, R>, DecodeError> {
        decode_by_tag(decoder)
    }
}
