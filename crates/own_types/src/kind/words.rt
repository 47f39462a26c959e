//! What the types of `kind.rt` are written as. Made from that file by the program `derive`, and not edited: run
//! `derive` on the file again where its types change.

use super::*;
use bincode::de::{Decode, Decoder, Sequential};
use bincode::enc::{Encode, Encoder};
use bincode::enums::{
    DecodeVariants, Enum, Sum, canonical_by_variants, decode_by_tag, decode_no_variant,
    decode_part, encode_variant, enum_claim, exact_by_variants, plain_by_variants,
};
use bincode::error::{DecodeError, EncodeError};
use bincode::laws::{Canonical, Exact, Plain};
use bincode::shape::{Described, Shape, describe_variants, put_variant, start_variants};
use bincode::short_text::TypeName;
use bincode::{NoMoreVariants, VariantOf, Wire};
use std::alloc::Global;

type KindPrivatePart = ();

type KindWorkPart = (String, u16);

type KindOtherPart = Vec<(String, u32)>;

type KindParts = VariantOf<
    0,
    KindPrivatePart,
    VariantOf<1, KindWorkPart, VariantOf<2, KindOtherPart, NoMoreVariants<Kind>>>,
>;

impl Sum<KindParts> for Kind {
    ghost use Rattle.bincode.specs.Sums.{this, other};
    ghost use Rattle.bincode.specs.EnumWords.{by, no_more, or_else};
    ghost use Rattle.own_types.specs.declared.kind.Kind.TheVariants.{Private, Work, Other};

    ghost variants = { or_else 0 ⟦<KindPrivatePart as Wire>⟧.words
        (or_else 1 ⟦<KindWorkPart as Wire>⟧.words
        (or_else 2 ⟦<KindOtherPart as Wire>⟧.words
        no_more)) };

    ghost parts = { elim [
      | Private ↦ this tt
      | Work company since ↦ other (this (company, since))
      | Other value ↦ other (other (this value))
    ] };

    ghost made = { by (λ p. Private)
        (by (λ p. Work p.0 p.1)
        (by (λ p. Other p)
        (λ n. elim (n.0) [ ]))) };
}

impl Wire for Kind {
    ghost use Rattle.bincode.specs.EnumWords.{enum_words};

    ghost words = { enum_words ⟦<Kind as Sum<KindParts>>⟧.variants ⟦<Kind as Sum<KindParts>>⟧.parts };

    fn claim_size() -> usize {
        let widest = KindOtherPart::claim_size().max(0);
        let widest = KindWorkPart::claim_size().max(widest);
        let widest = KindPrivatePart::claim_size().max(widest);
        enum_claim(widest)
    }
}

impl Enum for Kind {
    ghost use Rattle.std.specs.Prelude.{refl};
    ghost use Rattle.bincode.specs.EnumWords.{enum_laws, enum_variants};
    ghost use Rattle.own_types.specs.declared.kind.Kind.TheVariants.{Private, Work, Other};

    ghost choices = { enum_variants ⟦<Kind as Sum<KindParts>>⟧.variants ⟦<Kind as Sum<KindParts>>⟧.made };

    fn type_name() -> TypeName {
        TypeName::new("Kind")
    }

    ghost laws = { enum_laws ⟦<Kind as Sum<KindParts>>⟧.variants ⟦<Kind as Sum<KindParts>>⟧.parts
        ⟦<Kind as Sum<KindParts>>⟧.made (elim [
          | Private ↦ refl
          | Work company since ↦ refl
          | Other value ↦ refl
        ]) };
}

impl Plain for Kind {
    fn tell_plain() {
        KindPrivatePart::tell_plain();
        KindWorkPart::tell_plain();
        KindOtherPart::tell_plain();
        plain_by_variants::<Kind>();
    }
}

impl Exact for Kind {
    fn tell_exact() {
        KindPrivatePart::tell_exact();
        KindWorkPart::tell_exact();
        KindOtherPart::tell_exact();
        exact_by_variants::<Kind>();
    }
}

impl Canonical for Kind {
    fn tell_canonical() {
        KindPrivatePart::tell_canonical();
        KindWorkPart::tell_canonical();
        KindOtherPart::tell_canonical();
        canonical_by_variants::<Kind>();
    }
}

impl Described for Kind {
    fn shape(alloc: Global) -> Option<Shape> {
        let shapes = start_variants::<Kind>(alloc);
        let shapes = put_variant::<Kind, KindPrivatePart>(alloc, 0, shapes)?;
        let shapes = put_variant::<Kind, KindWorkPart>(alloc, 1, shapes)?;
        let shapes = put_variant::<Kind, KindOtherPart>(alloc, 2, shapes)?;
        Some(describe_variants::<Kind>(3, shapes))
    }
}

impl Encode for Kind {
    fn tell_valid(&self) {
        match self {
            Kind::Private => {}
            Kind::Work { company, since } => {
                company.tell_valid();
                since.tell_valid();
            }
            Kind::Other(value) => value.tell_valid(),
        }
    }

    fn encode<E: Encoder>(&self, encoder: &mut E) -> Result<(), EncodeError> {
        match self {
            Kind::Private => encode_variant(self, 0, &(), encoder),
            Kind::Work { company, since } => encode_variant(self, 1, &(company, since), encoder),
            Kind::Other(value) => encode_variant(self, 2, value, encoder),
        }
    }
}

impl<Context: Drop> DecodeVariants<Context> for Kind {
    fn decode_variant<D: Decoder<Context = Context>>(
        tag: u32,
        decoder: &mut D,
    ) -> Result<Kind, DecodeError> {
        match tag {
            0 => match decode_part::<Context, Kind, KindPrivatePart, D>(tag, 0, decoder) {
                Ok(()) => Ok(Kind::Private),
                Err(error) => Err(error),
            },
            1 => match decode_part::<Context, Kind, KindWorkPart, D>(tag, 1, decoder) {
                Ok((company, since)) => Ok(Kind::Work { company, since }),
                Err(error) => Err(error),
            },
            2 => match decode_part::<Context, Kind, KindOtherPart, D>(tag, 2, decoder) {
                Ok(value) => Ok(Kind::Other(value)),
                Err(error) => Err(error),
            },
            _ => decode_no_variant(tag, 2, decoder),
        }
    }
}

impl<Context: Drop> Decode<Context> for Kind {
    type Run = Sequential;

    fn decode<D: Decoder<Context = Context>>(decoder: &mut D) -> Result<Kind, DecodeError> {
        decode_by_tag(decoder)
    }
}
