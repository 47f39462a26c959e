//! What the types of `replies.rt` are written as. Made from that file by the program `derive`, and not edited: run
//! `derive` on the file again where its types change.

use super::*;
use bincode::de::{Decode, Decoder, Sequential};
use bincode::enc::{Encode, Encoder};
use bincode::enums::{
    DecodeVariants, Enum, Sum, canonical_by_variants, decode_by_tag, decode_no_variant,
    decode_part, encode_variant, enum_claim, exact_by_variants, plain_by_variants,
};
use bincode::error::{DecodeError, EncodeError};
use bincode::laws::{Canonical, Exact, Plain};
use bincode::short_text::TypeName;
use bincode::{NoMoreVariants, VariantOf, Wire};

type ReplyNothingPart = ();

type ReplyRefusedPart = (u16, String);

type ReplyParts<T> = VariantOf<
    0,
    ReplyNothingPart,
    VariantOf<1, T, VariantOf<2, ReplyRefusedPart, NoMoreVariants<Reply<T>>>>,
>;

impl<T: Wire> Sum<ReplyParts<T>> for Reply<T> {
    ghost use Rattle.bincode.specs.Sums.{this, other};
    ghost use Rattle.bincode.specs.EnumWords.{by, no_more, or_else};
    ghost use Rattle.derived_types.specs.declared.replies.Reply.TheVariants.{Nothing, Found, Refused};

    ghost variants = { or_else 0 ⟦<ReplyNothingPart as Wire>⟧.words
        (or_else 1 T.words
        (or_else 2 ⟦<ReplyRefusedPart as Wire>⟧.words
        no_more)) };

    ghost parts = { elim [
      | Nothing ↦ this tt
      | Found value ↦ other (this value)
      | Refused code reason ↦ other (other (this (code, reason)))
    ] };

    ghost made = { by (λ p. Nothing)
        (by (λ p. Found p)
        (by (λ p. Refused p.0 p.1)
        (λ n. elim (n.0) [ ]))) };
}

impl<T: Wire> Wire for Reply<T> {
    ghost use Rattle.bincode.specs.EnumWords.{enum_words};

    ghost words = { enum_words ⟦<Reply<T> as Sum<ReplyParts<T>>>⟧.variants ⟦<Reply<T> as Sum<ReplyParts<T>>>⟧.parts };

    fn claim_size() -> usize {
        let widest = ReplyRefusedPart::claim_size().max(0);
        let widest = T::claim_size().max(widest);
        let widest = ReplyNothingPart::claim_size().max(widest);
        enum_claim(widest)
    }
}

impl<T: Wire> Enum for Reply<T> {
    ghost use Rattle.std.specs.Prelude.{refl};
    ghost use Rattle.bincode.specs.EnumWords.{enum_laws, enum_variants};
    ghost use Rattle.derived_types.specs.declared.replies.Reply.TheVariants.{Nothing, Found, Refused};

    ghost choices = { enum_variants ⟦<Reply<T> as Sum<ReplyParts<T>>>⟧.variants
        ⟦<Reply<T> as Sum<ReplyParts<T>>>⟧.made };

    fn type_name() -> TypeName {
        TypeName::new("Reply")
    }

    ghost laws = { enum_laws ⟦<Reply<T> as Sum<ReplyParts<T>>>⟧.variants ⟦<Reply<T> as Sum<ReplyParts<T>>>⟧.parts
        ⟦<Reply<T> as Sum<ReplyParts<T>>>⟧.made (elim [
          | Nothing ↦ refl
          | Found value ↦ refl
          | Refused code reason ↦ refl
        ]) };
}

impl<T: Plain> Plain for Reply<T> {
    fn tell_plain() {
        ReplyNothingPart::tell_plain();
        T::tell_plain();
        ReplyRefusedPart::tell_plain();
        plain_by_variants::<Reply<T>>();
    }
}

impl<T: Exact> Exact for Reply<T> {
    fn tell_exact() {
        ReplyNothingPart::tell_exact();
        T::tell_exact();
        ReplyRefusedPart::tell_exact();
        exact_by_variants::<Reply<T>>();
    }
}

impl<T: Canonical> Canonical for Reply<T> {
    fn tell_canonical() {
        ReplyNothingPart::tell_canonical();
        T::tell_canonical();
        ReplyRefusedPart::tell_canonical();
        canonical_by_variants::<Reply<T>>();
    }
}

impl<T: Encode> Encode for Reply<T> {
    fn tell_valid(&self) {
        match self {
            Reply::Nothing => {}
            Reply::Found(value) => value.tell_valid(),
            Reply::Refused { code, reason } => {
                code.tell_valid();
                reason.tell_valid();
            }
        }
    }

    fn encode<E: Encoder>(&self, encoder: &mut E) -> Result<(), EncodeError> {
        match self {
            Reply::Nothing => encode_variant(self, 0, &(), encoder),
            Reply::Found(value) => encode_variant(self, 1, value, encoder),
            Reply::Refused { code, reason } => encode_variant(self, 2, &(code, reason), encoder),
        }
    }
}

impl<Context: Drop, T: Decode<Context>> DecodeVariants<Context> for Reply<T> {
    fn decode_variant<D: Decoder<Context = Context>>(
        tag: u32,
        decoder: &mut D,
    ) -> Result<Reply<T>, DecodeError> {
        match tag {
            0 => match decode_part::<Context, Reply<T>, ReplyNothingPart, D>(tag, 0, decoder) {
                Ok(()) => Ok(Reply::Nothing),
                Err(error) => Err(error),
            },
            1 => match decode_part::<Context, Reply<T>, T, D>(tag, 1, decoder) {
                Ok(value) => Ok(Reply::Found(value)),
                Err(error) => Err(error),
            },
            2 => match decode_part::<Context, Reply<T>, ReplyRefusedPart, D>(tag, 2, decoder) {
                Ok((code, reason)) => Ok(Reply::Refused { code, reason }),
                Err(error) => Err(error),
            },
            _ => decode_no_variant(tag, 2, decoder),
        }
    }
}

impl<Context: Drop, T: Decode<Context>> Decode<Context> for Reply<T> {
    type Run = Sequential;

    fn decode<D: Decoder<Context = Context>>(decoder: &mut D) -> Result<Reply<T>, DecodeError> {
        decode_by_tag(decoder)
    }
}
