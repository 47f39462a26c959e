//! What the types of `message.rt` are written as. Made from that file by the program `derive`, and not edited: run
//! `derive` on the file again where its types change.
ghost use Rattle.std.specs.Prelude.{◌≡◌};
ghost use Rattle.bincode.specs.TypeLaws.{CanonicalWords, ExactWords, PlainWords};

use super::*;
use bincode::de::{BorrowDecode, BorrowDecoder, Sequential};
use bincode::enc::{Encode, Encoder};
use bincode::enums::{
    BorrowDecodeVariants, Enum, Sum, borrow_decode_by_tag, borrow_decode_part,
    canonical_by_variants, decode_no_variant, encode_variant, enum_claim, exact_by_variants,
    plain_by_variants,
};
use bincode::error::{DecodeError, EncodeError};
use bincode::laws::{Canonical, Exact, Plain};
use bincode::short_text::TypeName;
use bincode::{NoMoreVariants, VariantOf, Wire};

type MessageStartPart = ();

type MessageStopPart = u32;

type MessageNotePart<'a> = &'a str;

type MessageParts<'a> = VariantOf<
    0,
    MessageStartPart,
    VariantOf<1, MessageStopPart, VariantOf<2, MessageNotePart<'a>, NoMoreVariants<Message<'a>>>>,
>;

impl<'a> Sum<MessageParts<'a>> for Message<'a> {
    ghost use Rattle.bincode.specs.Sums.{this, other};
    ghost use Rattle.bincode.specs.EnumWords.{by, no_more, or_else};
    ghost use Rattle.own_types.specs.declared.message.Message.TheVariants.{Start, Stop, Note};

    ghost variants = { or_else 0 ⟦<MessageStartPart as Wire>⟧.words
        (or_else 1 ⟦<MessageStopPart as Wire>⟧.words
        (or_else 2 ⟦<MessageNotePart<'a> as Wire>⟧.words
        no_more)) };

    ghost parts = { elim [
      | Start ↦ this tt
      | Stop value ↦ other (this value)
      | Note value ↦ other (other (this value))
    ] };

    ghost made = { by (λ p. Start)
        (by (λ p. Stop p)
        (by (λ p. Note p)
        (λ n. elim (n.0) [ ]))) };
}

impl<'a> Wire for Message<'a> {
    ghost use Rattle.std.specs.Prelude.{min, ◌+◌, ◌-◌, ◌^◌};
    ghost use Rattle.bincode.specs.EnumWords.{enum_words};

    ghost words = { enum_words ⟦<Message<'a> as Sum<MessageParts<'a>>>⟧.variants
        ⟦<Message<'a> as Sum<MessageParts<'a>>>⟧.parts };

    fn claim_size() -> usize
        ensures { result ≡ min (4 + ⟦<Message<'a> as Sum<MessageParts<'a>>>⟧.variants.claim) (2 ^ 64 - 1) }
    {
        let widest = MessageNotePart::claim_size().max(0);
        let widest = MessageStopPart::claim_size().max(widest);
        let widest = MessageStartPart::claim_size().max(widest);
        enum_claim(widest)
    }
}

impl<'a> Enum for Message<'a> {
    ghost use Rattle.std.specs.Prelude.{refl};
    ghost use Rattle.bincode.specs.EnumWords.{enum_laws, enum_variants};
    ghost use Rattle.own_types.specs.declared.message.Message.TheVariants.{Start, Stop, Note};

    ghost choices = { enum_variants ⟦<Message<'a> as Sum<MessageParts<'a>>>⟧.variants
        ⟦<Message<'a> as Sum<MessageParts<'a>>>⟧.made };

    fn type_name() -> TypeName {
        TypeName::new("Message")
    }

    ghost laws = { enum_laws ⟦<Message<'a> as Sum<MessageParts<'a>>>⟧.variants
        ⟦<Message<'a> as Sum<MessageParts<'a>>>⟧.parts
        ⟦<Message<'a> as Sum<MessageParts<'a>>>⟧.made (elim [
          | Start ↦ refl
          | Stop value ↦ refl
          | Note value ↦ refl
        ]) };
}

impl<'a> Plain for Message<'a> {
    fn tell_plain()
        ensures { PlainWords ⟦<Message<'a> as Wire>⟧.words }
    {
        MessageStartPart::tell_plain();
        MessageStopPart::tell_plain();
        MessageNotePart::tell_plain();
        plain_by_variants::<Message<'a>>();
    }
}

impl<'a> Exact for Message<'a> {
    fn tell_exact()
        ensures { ExactWords ⟦<Message<'a> as Wire>⟧.words ⟦<Message<'a> as PartialEq>⟧.eq }
    {
        MessageStartPart::tell_exact();
        MessageStopPart::tell_exact();
        MessageNotePart::tell_exact();
        exact_by_variants::<Message<'a>>();
    }
}

impl<'a> Canonical for Message<'a> {
    fn tell_canonical()
        ensures { CanonicalWords ⟦<Message<'a> as Wire>⟧.words }
    {
        MessageStartPart::tell_canonical();
        MessageStopPart::tell_canonical();
        MessageNotePart::tell_canonical();
        canonical_by_variants::<Message<'a>>();
    }
}

impl<'a> Encode for Message<'a> {
    fn tell_valid(&self) {
        match self {
            Message::Start => {}
            Message::Stop(value) => value.tell_valid(),
            Message::Note(value) => value.tell_valid(),
        }
    }

    fn encode<E: Encoder>(&self, encoder: &mut E) -> Result<(), EncodeError> {
        match self {
            Message::Start => encode_variant(self, 0, &(), encoder),
            Message::Stop(value) => encode_variant(self, 1, value, encoder),
            Message::Note(value) => encode_variant(self, 2, value, encoder),
        }
    }
}

impl<'a, Context: Drop> BorrowDecodeVariants<&'a [u8], Context> for Message<'a> {
    fn borrow_decode_variant<D: BorrowDecoder<&'a [u8], Context = Context>>(
        tag: u32,
        decoder: &mut D,
    ) -> Result<Message<'a>, DecodeError> {
        match tag {
            0 => match borrow_decode_part::<&'a [u8], Context, Message<'a>, MessageStartPart, D>(
                tag, 0, decoder,
            ) {
                Ok(()) => Ok(Message::Start),
                Err(error) => Err(error),
            },
            1 => match borrow_decode_part::<&'a [u8], Context, Message<'a>, MessageStopPart, D>(
                tag, 1, decoder,
            ) {
                Ok(value) => Ok(Message::Stop(value)),
                Err(error) => Err(error),
            },
            2 => match borrow_decode_part::<&'a [u8], Context, Message<'a>, MessageNotePart<'a>, D>(
                tag, 2, decoder,
            ) {
                Ok(value) => Ok(Message::Note(value)),
                Err(error) => Err(error),
            },
            _ => decode_no_variant(tag, 2, decoder),
        }
    }
}

impl<'a, Context: Drop> BorrowDecode<&'a [u8], Context> for Message<'a> {
    type Run = Sequential;

    fn borrow_decode<D: BorrowDecoder<&'a [u8], Context = Context>>(
        decoder: &mut D,
    ) -> Result<Message<'a>, DecodeError> {
        borrow_decode_by_tag(decoder)
    }
}
