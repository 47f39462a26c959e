//! What the types of `event.rt` are written as. Made from that file by the program `derive`, and not edited: run
//! `derive` on the file again where its types change.

use super::*;
use bincode::de::{BorrowDecode, BorrowDecoder, BorrowedBytes, Decode, Decoder, Sequential};
use bincode::enc::{Encode, Encoder};
use bincode::enums::{
    DecodeVariants, Enum, Sum, canonical_by_variants, decode_by_tag, decode_no_variant,
    decode_part, encode_variant, enum_claim, exact_by_variants, plain_by_variants,
};
use bincode::error::{DecodeError, EncodeError};
use bincode::laws::{Canonical, Exact, Plain};
use bincode::short_text::TypeName;
use bincode::{NoMoreVariants, VariantOf, Wire};

type EventStartPart = ();

type EventStopPart = u32;

type EventNotePart = String;

type EventParts = VariantOf<
    0,
    EventStartPart,
    VariantOf<1, EventStopPart, VariantOf<2, EventNotePart, NoMoreVariants<Event>>>,
>;

impl Sum<EventParts> for Event {
    ghost use Rattle.bincode.specs.Sums.{this, other};
    ghost use Rattle.bincode.specs.EnumWords.{by, no_more, or_else};
    ghost use Rattle.own_types.specs.declared.event.Event.TheVariants.{Start, Stop, Note};

    ghost variants = { or_else 0 ⟦<EventStartPart as Wire>⟧.words
        (or_else 1 ⟦<EventStopPart as Wire>⟧.words
        (or_else 2 ⟦<EventNotePart as Wire>⟧.words
        no_more)) };

    ghost parts = { elim [
      | Start ↦ this tt
      | Stop value ↦ other (this value)
      | Note value ↦ other (other (this value))
    ] };

    ghost made = { by (λ p. Start)
        (by (λ p. Stop p)
        (by (λ p. Note p)
        (λ n. elim (n.0) [ ]))) };
}

impl Wire for Event {
    ghost use Rattle.bincode.specs.EnumWords.{enum_words};

    ghost words = { enum_words ⟦<Event as Sum<EventParts>>⟧.variants ⟦<Event as Sum<EventParts>>⟧.parts };

    fn claim_size() -> usize {
        let widest = EventNotePart::claim_size().max(0);
        let widest = EventStopPart::claim_size().max(widest);
        let widest = EventStartPart::claim_size().max(widest);
        enum_claim(widest)
    }
}

impl Enum for Event {
    ghost use Rattle.std.specs.Prelude.{refl};
    ghost use Rattle.bincode.specs.EnumWords.{enum_laws, enum_variants};
    ghost use Rattle.own_types.specs.declared.event.Event.TheVariants.{Start, Stop, Note};

    ghost choices = { enum_variants ⟦<Event as Sum<EventParts>>⟧.variants ⟦<Event as Sum<EventParts>>⟧.made };

    fn type_name() -> TypeName {
        TypeName::new("Event")
    }

    ghost laws = { enum_laws ⟦<Event as Sum<EventParts>>⟧.variants ⟦<Event as Sum<EventParts>>⟧.parts
        ⟦<Event as Sum<EventParts>>⟧.made (elim [
          | Start ↦ refl
          | Stop value ↦ refl
          | Note value ↦ refl
        ]) };
}

impl Plain for Event {
    fn tell_plain() {
        EventStartPart::tell_plain();
        EventStopPart::tell_plain();
        EventNotePart::tell_plain();
        plain_by_variants::<Event>();
    }
}

impl Exact for Event {
    fn tell_exact() {
        EventStartPart::tell_exact();
        EventStopPart::tell_exact();
        EventNotePart::tell_exact();
        exact_by_variants::<Event>();
    }
}

impl Canonical for Event {
    fn tell_canonical() {
        EventStartPart::tell_canonical();
        EventStopPart::tell_canonical();
        EventNotePart::tell_canonical();
        canonical_by_variants::<Event>();
    }
}

impl Encode for Event {
    fn tell_valid(&self) {
        match self {
            Event::Start => {}
            Event::Stop(value) => value.tell_valid(),
            Event::Note(value) => value.tell_valid(),
        }
    }

    fn encode<E: Encoder>(&self, encoder: &mut E) -> Result<(), EncodeError> {
        match self {
            Event::Start => encode_variant(self, 0, &(), encoder),
            Event::Stop(value) => encode_variant(self, 1, value, encoder),
            Event::Note(value) => encode_variant(self, 2, value, encoder),
        }
    }
}

impl<Context: Drop> DecodeVariants<Context> for Event {
    fn decode_variant<D: Decoder<Context = Context>>(
        tag: u32,
        decoder: &mut D,
    ) -> Result<Event, DecodeError> {
        match tag {
            0 => match decode_part::<Context, Event, EventStartPart, D>(tag, 0, decoder) {
                Ok(()) => Ok(Event::Start),
                Err(error) => Err(error),
            },
            1 => match decode_part::<Context, Event, EventStopPart, D>(tag, 1, decoder) {
                Ok(value) => Ok(Event::Stop(value)),
                Err(error) => Err(error),
            },
            2 => match decode_part::<Context, Event, EventNotePart, D>(tag, 2, decoder) {
                Ok(value) => Ok(Event::Note(value)),
                Err(error) => Err(error),
            },
            _ => decode_no_variant(tag, 2, decoder),
        }
    }
}

impl<Context: Drop> Decode<Context> for Event {
    type Run = Sequential;

    fn decode<D: Decoder<Context = Context>>(decoder: &mut D) -> Result<Event, DecodeError> {
        decode_by_tag(decoder)
    }
}

impl<B: BorrowedBytes, Context: Drop> BorrowDecode<B, Context> for Event {
    type Run = Sequential;

    fn borrow_decode<D: BorrowDecoder<B, Context = Context>>(
        decoder: &mut D,
    ) -> Result<Event, DecodeError> {
        Event::decode(decoder)
    }
}
