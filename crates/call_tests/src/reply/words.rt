//! What the types of `reply.rt` are written as. Made from that file by the program `derive`, and not edited: run
//! `derive` on the file again where its types change.

use super::*;
use bincode::de::{Decode, Decoder, Sequential};
use bincode::enc::{Encode, Encoder};
use bincode::enums::{
    DecodeVariants, Enum, Sum, canonical_by_variants, decode_by_tag, decode_no_variant,
    decode_part, encode_variant, enum_claim, exact_by_variants, plain_by_variants,
};
use bincode::error::{DecodeError, EncodeError};
use bincode::laws::{Canonical, Exact, Plain};
use bincode::short_text::TypeName;
use bincode::{NoMoreVariants, VariantOf, Wire};

type ReplyRefusedPart = Refusal;

type ReplyParts<T> = VariantOf<0, T, VariantOf<1, ReplyRefusedPart, NoMoreVariants<Reply<T>>>>;

impl<T: Wire> Sum<ReplyParts<T>> for Reply<T> {
    ghost use Rattle.bincode.specs.Sums.{this, other};
    ghost use Rattle.bincode.specs.EnumWords.{by, no_more, or_else};
    ghost use Rattle.call_tests.specs.declared.reply.Reply.TheVariants.{Answer, Refused};

    ghost variants = { or_else 0 T.words
        (or_else 1 ⟦<ReplyRefusedPart as Wire>⟧.words
        no_more) };

    ghost parts = { elim [
      | Answer value ↦ this value
      | Refused value ↦ other (this value)
    ] };

    ghost made = { by (λ p. Answer p) (by (λ p. Refused p) (λ n. elim (n.0) [ ])) };
}

impl<T: Wire> Wire for Reply<T> {
    ghost use Rattle.bincode.specs.EnumWords.{enum_words};

    ghost words = { enum_words ⟦<Reply<T> as Sum<ReplyParts<T>>>⟧.variants ⟦<Reply<T> as Sum<ReplyParts<T>>>⟧.parts };

    fn claim_size() -> usize {
        let widest = ReplyRefusedPart::claim_size().max(0);
        let widest = T::claim_size().max(widest);
        enum_claim(widest)
    }
}

impl<T: Wire> Enum for Reply<T> {
    ghost use Rattle.std.specs.Prelude.{refl};
    ghost use Rattle.bincode.specs.EnumWords.{enum_laws, enum_variants};
    ghost use Rattle.call_tests.specs.declared.reply.Reply.TheVariants.{Answer, Refused};

    ghost choices = { enum_variants ⟦<Reply<T> as Sum<ReplyParts<T>>>⟧.variants
        ⟦<Reply<T> as Sum<ReplyParts<T>>>⟧.made };

    fn type_name() -> TypeName {
        TypeName::new("Reply")
    }

    ghost laws = { enum_laws ⟦<Reply<T> as Sum<ReplyParts<T>>>⟧.variants ⟦<Reply<T> as Sum<ReplyParts<T>>>⟧.parts
        ⟦<Reply<T> as Sum<ReplyParts<T>>>⟧.made (elim [
          | Answer value ↦ refl
          | Refused value ↦ refl
        ]) };
}

impl<T: Plain> Plain for Reply<T> {
    fn tell_plain() {
        T::tell_plain();
        ReplyRefusedPart::tell_plain();
        plain_by_variants::<Reply<T>>();
    }
}

impl<T: Exact> Exact for Reply<T> {
    fn tell_exact() {
        T::tell_exact();
        ReplyRefusedPart::tell_exact();
        exact_by_variants::<Reply<T>>();
    }
}

impl<T: Canonical> Canonical for Reply<T> {
    fn tell_canonical() {
        T::tell_canonical();
        ReplyRefusedPart::tell_canonical();
        canonical_by_variants::<Reply<T>>();
    }
}

impl<T: Encode> Encode for Reply<T> {
    fn tell_valid(&self) {
        match self {
            Reply::Answer(value) => value.tell_valid(),
            Reply::Refused(value) => value.tell_valid(),
        }
    }

    fn encode<E: Encoder>(&self, encoder: &mut E) -> Result<(), EncodeError> {
        match self {
            Reply::Answer(value) => encode_variant(self, 0, value, encoder),
            Reply::Refused(value) => encode_variant(self, 1, value, encoder),
        }
    }
}

impl<Context: Drop, T: Decode<Context>> DecodeVariants<Context> for Reply<T> {
    fn decode_variant<D: Decoder<Context = Context>>(
        tag: u32,
        decoder: &mut D,
    ) -> Result<Reply<T>, DecodeError> {
        match tag {
            0 => match decode_part::<Context, Reply<T>, T, D>(tag, 0, decoder) {
                Ok(value) => Ok(Reply::Answer(value)),
                Err(error) => Err(error),
            },
            1 => match decode_part::<Context, Reply<T>, ReplyRefusedPart, D>(tag, 1, decoder) {
                Ok(value) => Ok(Reply::Refused(value)),
                Err(error) => Err(error),
            },
            _ => decode_no_variant(tag, 1, decoder),
        }
    }
}

impl<Context: Drop, T: Decode<Context>> Decode<Context> for Reply<T> {
    type Run = Sequential;

    fn decode<D: Decoder<Context = Context>>(decoder: &mut D) -> Result<Reply<T>, DecodeError> {
        decode_by_tag(decoder)
    }
}
