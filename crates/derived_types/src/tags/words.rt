//! What the types of `tags.rt` are written as. Made from that file by the program `derive`, and not edited: run
//! `derive` on the file again where its types change.

use super::*;
use bincode::de::{Decode, Decoder, Sequential};
use bincode::enc::{Encode, Encoder};
use bincode::enums::{
    DecodeVariants, Enum, Sum, canonical_by_variants, decode_by_tag, decode_no_variant,
    decode_part, decode_unlisted_variant, encode_variant, enum_claim, exact_by_variants,
    plain_by_variants,
};
use bincode::error::{DecodeError, EncodeError};
use bincode::laws::{Canonical, Exact, Plain};
use bincode::short_text::TypeName;
use bincode::{NoMoreVariants, VariantOf, Wire};

type MixedThirdPart = ();

type MixedFirstPart = ();

type MixedSecondPart = ();

type MixedParts = VariantOf<
    3,
    MixedThirdPart,
    VariantOf<1, MixedFirstPart, VariantOf<2, MixedSecondPart, NoMoreVariants<Mixed>>>,
>;

impl Sum<MixedParts> for Mixed {
    ghost use Rattle.bincode.specs.Sums.{this, other};
    ghost use Rattle.bincode.specs.EnumWords.{by, no_more, or_else};
    ghost use Rattle.derived_types.specs.declared.tags.Mixed.TheVariants.{Third, First, Second};

    ghost variants = { record (or_else 3 ⟦<MixedThirdPart as Wire>⟧.words
        (or_else 1 ⟦<MixedFirstPart as Wire>⟧.words
        (or_else 2 ⟦<MixedSecondPart as Wire>⟧.words
        no_more))) { claim = 0 } };

    ghost parts = { elim [
      | Third ↦ this tt
      | First ↦ other (this tt)
      | Second ↦ other (other (this tt))
    ] };

    ghost made = { by (λ p. Third)
        (by (λ p. First)
        (by (λ p. Second)
        (λ n. elim (n.0) [ ]))) };
}

impl Wire for Mixed {
    ghost use Rattle.bincode.specs.EnumWords.{enum_words};

    ghost words = { enum_words ⟦<Mixed as Sum<MixedParts>>⟧.variants ⟦<Mixed as Sum<MixedParts>>⟧.parts };

    fn claim_size() -> usize {
        enum_claim(0)
    }
}

impl Enum for Mixed {
    ghost use Rattle.std.specs.Prelude.{refl};
    ghost use Rattle.bincode.specs.EnumWords.{enum_laws, enum_variants};
    ghost use Rattle.derived_types.specs.declared.tags.Mixed.TheVariants.{Third, First, Second};

    ghost choices = { enum_variants ⟦<Mixed as Sum<MixedParts>>⟧.variants ⟦<Mixed as Sum<MixedParts>>⟧.made };

    fn type_name() -> TypeName {
        TypeName::new("Mixed")
    }

    ghost laws = { enum_laws ⟦<Mixed as Sum<MixedParts>>⟧.variants ⟦<Mixed as Sum<MixedParts>>⟧.parts
        ⟦<Mixed as Sum<MixedParts>>⟧.made (elim [
          | Third ↦ refl
          | First ↦ refl
          | Second ↦ refl
        ]) };
}

impl Plain for Mixed {
    fn tell_plain() {
        MixedThirdPart::tell_plain();
        MixedFirstPart::tell_plain();
        MixedSecondPart::tell_plain();
        plain_by_variants::<Mixed>();
    }
}

impl Exact for Mixed {
    fn tell_exact() {
        MixedThirdPart::tell_exact();
        MixedFirstPart::tell_exact();
        MixedSecondPart::tell_exact();
        exact_by_variants::<Mixed>();
    }
}

impl Canonical for Mixed {
    fn tell_canonical() {
        MixedThirdPart::tell_canonical();
        MixedFirstPart::tell_canonical();
        MixedSecondPart::tell_canonical();
        canonical_by_variants::<Mixed>();
    }
}

impl Encode for Mixed {
    fn tell_valid(&self) {}

    fn encode<E: Encoder>(&self, encoder: &mut E) -> Result<(), EncodeError> {
        match self {
            Mixed::Third => encode_variant(self, 3, &(), encoder),
            Mixed::First => encode_variant(self, 1, &(), encoder),
            Mixed::Second => encode_variant(self, 2, &(), encoder),
        }
    }
}

impl<Context: Drop> DecodeVariants<Context> for Mixed {
    fn decode_variant<D: Decoder<Context = Context>>(
        tag: u32,
        decoder: &mut D,
    ) -> Result<Mixed, DecodeError> {
        match tag {
            3 => match decode_part::<Context, Mixed, MixedThirdPart, D>(tag, 3, decoder) {
                Ok(()) => Ok(Mixed::Third),
                Err(error) => Err(error),
            },
            1 => match decode_part::<Context, Mixed, MixedFirstPart, D>(tag, 1, decoder) {
                Ok(()) => Ok(Mixed::First),
                Err(error) => Err(error),
            },
            2 => match decode_part::<Context, Mixed, MixedSecondPart, D>(tag, 2, decoder) {
                Ok(()) => Ok(Mixed::Second),
                Err(error) => Err(error),
            },
            _ => decode_unlisted_variant(tag, &[3, 1, 2], decoder),
        }
    }
}

impl<Context: Drop> Decode<Context> for Mixed {
    type Run = Sequential;

    fn decode<D: Decoder<Context = Context>>(decoder: &mut D) -> Result<Mixed, DecodeError> {
        decode_by_tag(decoder)
    }
}

type CStyleEnumAPart = ();

type CStyleEnumBPart = ();

type CStyleEnumCPart = ();

type CStyleEnumDPart = ();

type CStyleEnumEPart = ();

type CStyleEnumParts = VariantOf<
    0,
    CStyleEnumAPart,
    VariantOf<
        1,
        CStyleEnumBPart,
        VariantOf<
            2,
            CStyleEnumCPart,
            VariantOf<
                3,
                CStyleEnumDPart,
                VariantOf<4, CStyleEnumEPart, NoMoreVariants<CStyleEnum>>,
            >,
        >,
    >,
>;

impl Sum<CStyleEnumParts> for CStyleEnum {
    ghost use Rattle.bincode.specs.Sums.{this, other};
    ghost use Rattle.bincode.specs.EnumWords.{by, no_more, or_else};
    ghost use Rattle.derived_types.specs.declared.tags.CStyleEnum.TheVariants.{A, B, C, D, E};

    ghost variants = { record (or_else 0 ⟦<CStyleEnumAPart as Wire>⟧.words
        (or_else 1 ⟦<CStyleEnumBPart as Wire>⟧.words
        (or_else 2 ⟦<CStyleEnumCPart as Wire>⟧.words
        (or_else 3 ⟦<CStyleEnumDPart as Wire>⟧.words
        (or_else 4 ⟦<CStyleEnumEPart as Wire>⟧.words
        no_more))))) { claim = 0 } };

    ghost parts = { elim [
      | A ↦ this tt
      | B ↦ other (this tt)
      | C ↦ other (other (this tt))
      | D ↦ other (other (other (this tt)))
      | E ↦ other (other (other (other (this tt))))
    ] };

    ghost made = { by (λ p. A)
        (by (λ p. B)
        (by (λ p. C)
        (by (λ p. D)
        (by (λ p. E)
        (λ n. elim (n.0) [ ]))))) };
}

impl Wire for CStyleEnum {
    ghost use Rattle.bincode.specs.EnumWords.{enum_words};

    ghost words = { enum_words ⟦<CStyleEnum as Sum<CStyleEnumParts>>⟧.variants
        ⟦<CStyleEnum as Sum<CStyleEnumParts>>⟧.parts };

    fn claim_size() -> usize {
        enum_claim(0)
    }
}

impl Enum for CStyleEnum {
    ghost use Rattle.std.specs.Prelude.{refl};
    ghost use Rattle.bincode.specs.EnumWords.{enum_laws, enum_variants};
    ghost use Rattle.derived_types.specs.declared.tags.CStyleEnum.TheVariants.{A, B, C, D, E};

    ghost choices = { enum_variants ⟦<CStyleEnum as Sum<CStyleEnumParts>>⟧.variants
        ⟦<CStyleEnum as Sum<CStyleEnumParts>>⟧.made };

    fn type_name() -> TypeName {
        TypeName::new("CStyleEnum")
    }

    ghost laws = { enum_laws ⟦<CStyleEnum as Sum<CStyleEnumParts>>⟧.variants
        ⟦<CStyleEnum as Sum<CStyleEnumParts>>⟧.parts
        ⟦<CStyleEnum as Sum<CStyleEnumParts>>⟧.made (elim [
          | A ↦ refl
          | B ↦ refl
          | C ↦ refl
          | D ↦ refl
          | E ↦ refl
        ]) };
}

impl Plain for CStyleEnum {
    fn tell_plain() {
        CStyleEnumAPart::tell_plain();
        CStyleEnumBPart::tell_plain();
        CStyleEnumCPart::tell_plain();
        CStyleEnumDPart::tell_plain();
        CStyleEnumEPart::tell_plain();
        plain_by_variants::<CStyleEnum>();
    }
}

impl Exact for CStyleEnum {
    fn tell_exact() {
        CStyleEnumAPart::tell_exact();
        CStyleEnumBPart::tell_exact();
        CStyleEnumCPart::tell_exact();
        CStyleEnumDPart::tell_exact();
        CStyleEnumEPart::tell_exact();
        exact_by_variants::<CStyleEnum>();
    }
}

impl Canonical for CStyleEnum {
    fn tell_canonical() {
        CStyleEnumAPart::tell_canonical();
        CStyleEnumBPart::tell_canonical();
        CStyleEnumCPart::tell_canonical();
        CStyleEnumDPart::tell_canonical();
        CStyleEnumEPart::tell_canonical();
        canonical_by_variants::<CStyleEnum>();
    }
}

impl Encode for CStyleEnum {
    fn tell_valid(&self) {}

    fn encode<E: Encoder>(&self, encoder: &mut E) -> Result<(), EncodeError> {
        match self {
            CStyleEnum::A => encode_variant(self, 0, &(), encoder),
            CStyleEnum::B => encode_variant(self, 1, &(), encoder),
            CStyleEnum::C => encode_variant(self, 2, &(), encoder),
            CStyleEnum::D => encode_variant(self, 3, &(), encoder),
            CStyleEnum::E => encode_variant(self, 4, &(), encoder),
        }
    }
}

impl<Context: Drop> DecodeVariants<Context> for CStyleEnum {
    fn decode_variant<D: Decoder<Context = Context>>(
        tag: u32,
        decoder: &mut D,
    ) -> Result<CStyleEnum, DecodeError> {
        match tag {
            0 => match decode_part::<Context, CStyleEnum, CStyleEnumAPart, D>(tag, 0, decoder) {
                Ok(()) => Ok(CStyleEnum::A),
                Err(error) => Err(error),
            },
            1 => match decode_part::<Context, CStyleEnum, CStyleEnumBPart, D>(tag, 1, decoder) {
                Ok(()) => Ok(CStyleEnum::B),
                Err(error) => Err(error),
            },
            2 => match decode_part::<Context, CStyleEnum, CStyleEnumCPart, D>(tag, 2, decoder) {
                Ok(()) => Ok(CStyleEnum::C),
                Err(error) => Err(error),
            },
            3 => match decode_part::<Context, CStyleEnum, CStyleEnumDPart, D>(tag, 3, decoder) {
                Ok(()) => Ok(CStyleEnum::D),
                Err(error) => Err(error),
            },
            4 => match decode_part::<Context, CStyleEnum, CStyleEnumEPart, D>(tag, 4, decoder) {
                Ok(()) => Ok(CStyleEnum::E),
                Err(error) => Err(error),
            },
            _ => decode_no_variant(tag, 4, decoder),
        }
    }
}

impl<Context: Drop> Decode<Context> for CStyleEnum {
    type Run = Sequential;

    fn decode<D: Decoder<Context = Context>>(decoder: &mut D) -> Result<CStyleEnum, DecodeError> {
        decode_by_tag(decoder)
    }
}
