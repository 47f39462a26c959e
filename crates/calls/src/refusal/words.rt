//! What the types of `refusal.rt` are written as. Made from that file by the program `derive`, and not edited: run
//! `derive` on the file again where its types change.

use super::*;
use bincode::de::{Decode, Decoder, Sequential};
use bincode::enc::{Encode, Encoder};
use bincode::enums::{
    DecodeVariants, Enum, Sum, canonical_by_variants, decode_by_tag, decode_no_variant,
    decode_part, encode_variant, enum_claim, exact_by_variants, plain_by_variants,
};
use bincode::error::{DecodeError, EncodeError};
use bincode::laws::{Canonical, Exact, Plain};
use bincode::short_text::TypeName;
use bincode::{NoMoreVariants, VariantOf, Wire};

type RefusalDamagedPart = ();

type RefusalTooLongPart = (u32, u32);

type RefusalUndecodablePart = Fault;

type RefusalTrailingBytesPart = u64;

type RefusalAnswerTooLongPart = ();

type RefusalParts = VariantOf<
    0,
    RefusalDamagedPart,
    VariantOf<
        1,
        RefusalTooLongPart,
        VariantOf<
            2,
            RefusalUndecodablePart,
            VariantOf<
                3,
                RefusalTrailingBytesPart,
                VariantOf<4, RefusalAnswerTooLongPart, NoMoreVariants<Refusal>>,
            >,
        >,
    >,
>;

impl Sum<RefusalParts> for Refusal {
    ghost use Rattle.bincode.specs.Sums.{this, other};
    ghost use Rattle.bincode.specs.EnumWords.{by, no_more, or_else};
    ghost use Rattle.calls.specs.declared.refusal.Refusal.TheVariants.{Damaged, TooLong, Undecodable};
    ghost use Rattle.calls.specs.declared.refusal.Refusal.TheVariants.{TrailingBytes, AnswerTooLong};

    ghost variants = { or_else 0 ⟦<RefusalDamagedPart as Wire>⟧.words
        (or_else 1 ⟦<RefusalTooLongPart as Wire>⟧.words
        (or_else 2 ⟦<RefusalUndecodablePart as Wire>⟧.words
        (or_else 3 ⟦<RefusalTrailingBytesPart as Wire>⟧.words
        (or_else 4 ⟦<RefusalAnswerTooLongPart as Wire>⟧.words
        no_more)))) };

    ghost parts = { elim [
      | Damaged ↦ this tt
      | TooLong length most ↦ other (this (length, most))
      | Undecodable value ↦ other (other (this value))
      | TrailingBytes taken ↦ other (other (other (this taken)))
      | AnswerTooLong ↦ other (other (other (other (this tt))))
    ] };

    ghost made = { by (λ p. Damaged)
        (by (λ p. TooLong p.0 p.1)
        (by (λ p. Undecodable p)
        (by (λ p. TrailingBytes p)
        (by (λ p. AnswerTooLong)
        (λ n. elim (n.0) [ ]))))) };
}

impl Wire for Refusal {
    ghost use Rattle.bincode.specs.EnumWords.{enum_words};

    ghost words = { enum_words ⟦<Refusal as Sum<RefusalParts>>⟧.variants ⟦<Refusal as Sum<RefusalParts>>⟧.parts };

    fn claim_size() -> usize {
        let widest = RefusalAnswerTooLongPart::claim_size().max(0);
        let widest = RefusalTrailingBytesPart::claim_size().max(widest);
        let widest = RefusalUndecodablePart::claim_size().max(widest);
        let widest = RefusalTooLongPart::claim_size().max(widest);
        let widest = RefusalDamagedPart::claim_size().max(widest);
        enum_claim(widest)
    }
}

impl Enum for Refusal {
    ghost use Rattle.std.specs.Prelude.{refl};
    ghost use Rattle.bincode.specs.EnumWords.{enum_laws, enum_variants};
    ghost use Rattle.calls.specs.declared.refusal.Refusal.TheVariants.{Damaged, TooLong, Undecodable};
    ghost use Rattle.calls.specs.declared.refusal.Refusal.TheVariants.{TrailingBytes, AnswerTooLong};

    ghost choices = { enum_variants ⟦<Refusal as Sum<RefusalParts>>⟧.variants ⟦<Refusal as Sum<RefusalParts>>⟧.made };

    fn type_name() -> TypeName {
        TypeName::new("Refusal")
    }

    ghost laws = { enum_laws ⟦<Refusal as Sum<RefusalParts>>⟧.variants ⟦<Refusal as Sum<RefusalParts>>⟧.parts
        ⟦<Refusal as Sum<RefusalParts>>⟧.made (elim [
          | Damaged ↦ refl
          | TooLong length most ↦ refl
          | Undecodable value ↦ refl
          | TrailingBytes taken ↦ refl
          | AnswerTooLong ↦ refl
        ]) };
}

impl Plain for Refusal {
    fn tell_plain() {
        RefusalDamagedPart::tell_plain();
        RefusalTooLongPart::tell_plain();
        RefusalUndecodablePart::tell_plain();
        RefusalTrailingBytesPart::tell_plain();
        RefusalAnswerTooLongPart::tell_plain();
        plain_by_variants::<Refusal>();
    }
}

impl Exact for Refusal {
    fn tell_exact() {
        RefusalDamagedPart::tell_exact();
        RefusalTooLongPart::tell_exact();
        RefusalUndecodablePart::tell_exact();
        RefusalTrailingBytesPart::tell_exact();
        RefusalAnswerTooLongPart::tell_exact();
        exact_by_variants::<Refusal>();
    }
}

impl Canonical for Refusal {
    fn tell_canonical() {
        RefusalDamagedPart::tell_canonical();
        RefusalTooLongPart::tell_canonical();
        RefusalUndecodablePart::tell_canonical();
        RefusalTrailingBytesPart::tell_canonical();
        RefusalAnswerTooLongPart::tell_canonical();
        canonical_by_variants::<Refusal>();
    }
}

impl Encode for Refusal {
    fn tell_valid(&self) {
        match self {
            Refusal::Damaged => {}
            Refusal::TooLong { length, most } => {
                length.tell_valid();
                most.tell_valid();
            }
            Refusal::Undecodable(value) => value.tell_valid(),
            Refusal::TrailingBytes { taken } => taken.tell_valid(),
            Refusal::AnswerTooLong => {}
        }
    }

    fn encode<E: Encoder>(&self, encoder: &mut E) -> Result<(), EncodeError> {
        match self {
            Refusal::Damaged => encode_variant(self, 0, &(), encoder),
            Refusal::TooLong { length, most } => encode_variant(self, 1, &(length, most), encoder),
            Refusal::Undecodable(value) => encode_variant(self, 2, value, encoder),
            Refusal::TrailingBytes { taken } => encode_variant(self, 3, taken, encoder),
            Refusal::AnswerTooLong => encode_variant(self, 4, &(), encoder),
        }
    }
}

impl<Context: Drop> DecodeVariants<Context> for Refusal {
    fn decode_variant<D: Decoder<Context = Context>>(
        tag: u32,
        decoder: &mut D,
    ) -> Result<Refusal, DecodeError> {
        match tag {
            0 => match decode_part::<Context, Refusal, RefusalDamagedPart, D>(tag, 0, decoder) {
                Ok(()) => Ok(Refusal::Damaged),
                Err(error) => Err(error),
            },
            1 => match decode_part::<Context, Refusal, RefusalTooLongPart, D>(tag, 1, decoder) {
                Ok((length, most)) => Ok(Refusal::TooLong { length, most }),
                Err(error) => Err(error),
            },
            2 => match decode_part::<Context, Refusal, RefusalUndecodablePart, D>(tag, 2, decoder) {
                Ok(value) => Ok(Refusal::Undecodable(value)),
                Err(error) => Err(error),
            },
            3 => match decode_part::<Context, Refusal, RefusalTrailingBytesPart, D>(
                tag, 3, decoder,
            ) {
                Ok(taken) => Ok(Refusal::TrailingBytes { taken }),
                Err(error) => Err(error),
            },
            4 => match decode_part::<Context, Refusal, RefusalAnswerTooLongPart, D>(
                tag, 4, decoder,
            ) {
                Ok(()) => Ok(Refusal::AnswerTooLong),
                Err(error) => Err(error),
            },
            _ => decode_no_variant(tag, 4, decoder),
        }
    }
}

impl<Context: Drop> Decode<Context> for Refusal {
    type Run = Sequential;

    fn decode<D: Decoder<Context = Context>>(decoder: &mut D) -> Result<Refusal, DecodeError> {
        decode_by_tag(decoder)
    }
}

type FaultLimitExceededPart = ();

type FaultUnexpectedEndPart = u64;

type FaultUnexpectedVariantPart = u32;

type FaultInvalidIntegerTypePart = ();

type FaultNonZeroTypeIsZeroPart = ();

type FaultInvalidBooleanValuePart = u8;

type FaultInvalidCharEncodingPart = ();

type FaultUtf8Part = ();

type FaultInvalidDurationPart = ();

type FaultCStringNulErrorPart = u64;

type FaultOtherPart = ();

type FaultParts = VariantOf<
    0,
    FaultLimitExceededPart,
    VariantOf<
        1,
        FaultUnexpectedEndPart,
        VariantOf<
            2,
            FaultUnexpectedVariantPart,
            VariantOf<
                3,
                FaultInvalidIntegerTypePart,
                VariantOf<
                    4,
                    FaultNonZeroTypeIsZeroPart,
                    VariantOf<
                        5,
                        FaultInvalidBooleanValuePart,
                        VariantOf<
                            6,
                            FaultInvalidCharEncodingPart,
                            VariantOf<
                                7,
                                FaultUtf8Part,
                                VariantOf<
                                    8,
                                    FaultInvalidDurationPart,
                                    VariantOf<
                                        9,
                                        FaultCStringNulErrorPart,
                                        VariantOf<10, FaultOtherPart, NoMoreVariants<Fault>>,
                                    >,
                                >,
                            >,
                        >,
                    >,
                >,
            >,
        >,
    >,
>;

impl Sum<FaultParts> for Fault {
    ghost use Rattle.bincode.specs.Sums.{this, other};
    ghost use Rattle.bincode.specs.EnumWords.{by, no_more, or_else};
    ghost use Rattle.calls.specs.declared.refusal.Fault.TheVariants.{LimitExceeded, UnexpectedEnd};
    ghost use Rattle.calls.specs.declared.refusal.Fault.TheVariants.{UnexpectedVariant};
    ghost use Rattle.calls.specs.declared.refusal.Fault.TheVariants.{InvalidIntegerType};
    ghost use Rattle.calls.specs.declared.refusal.Fault.TheVariants.{NonZeroTypeIsZero};
    ghost use Rattle.calls.specs.declared.refusal.Fault.TheVariants.{InvalidBooleanValue};
    ghost use Rattle.calls.specs.declared.refusal.Fault.TheVariants.{InvalidCharEncoding, Utf8};
    ghost use Rattle.calls.specs.declared.refusal.Fault.TheVariants.{InvalidDuration, CStringNulError};
    ghost use Rattle.calls.specs.declared.refusal.Fault.TheVariants.{Other};

    ghost variants = { or_else 0 ⟦<FaultLimitExceededPart as Wire>⟧.words
        (or_else 1 ⟦<FaultUnexpectedEndPart as Wire>⟧.words
        (or_else 2 ⟦<FaultUnexpectedVariantPart as Wire>⟧.words
        (or_else 3 ⟦<FaultInvalidIntegerTypePart as Wire>⟧.words
        (or_else 4 ⟦<FaultNonZeroTypeIsZeroPart as Wire>⟧.words
        (or_else 5 ⟦<FaultInvalidBooleanValuePart as Wire>⟧.words
        (or_else 6 ⟦<FaultInvalidCharEncodingPart as Wire>⟧.words
        (or_else 7 ⟦<FaultUtf8Part as Wire>⟧.words
        (or_else 8 ⟦<FaultInvalidDurationPart as Wire>⟧.words
        (or_else 9 ⟦<FaultCStringNulErrorPart as Wire>⟧.words
        (or_else 10 ⟦<FaultOtherPart as Wire>⟧.words
        no_more)))))))))) };

    ghost parts = { elim [
      | LimitExceeded ↦ this tt
      | UnexpectedEnd additional ↦ other (this additional)
      | UnexpectedVariant found ↦ other (other (this found))
      | InvalidIntegerType ↦ other (other (other (this tt)))
      | NonZeroTypeIsZero ↦ other (other (other (other (this tt))))
      | InvalidBooleanValue value ↦ other (other (other (other (other (this value)))))
      | InvalidCharEncoding ↦ other (other (other (other (other (other (this tt))))))
      | Utf8 ↦ other (other (other (other (other (other (other (this tt)))))))
      | InvalidDuration ↦ other (other (other (other (other (other (other (other (this tt))))))))
      | CStringNulError position ↦ other (other (other (other (other (other (other (other (other (this position)))))))))
      | Other ↦ other (other (other (other (other (other (other (other (other (other (this tt))))))))))
    ] };

    ghost made = { by (λ p. LimitExceeded)
        (by (λ p. UnexpectedEnd p)
        (by (λ p. UnexpectedVariant p)
        (by (λ p. InvalidIntegerType)
        (by (λ p. NonZeroTypeIsZero)
        (by (λ p. InvalidBooleanValue p)
        (by (λ p. InvalidCharEncoding)
        (by (λ p. Utf8)
        (by (λ p. InvalidDuration)
        (by (λ p. CStringNulError p)
        (by (λ p. Other)
        (λ n. elim (n.0) [ ]))))))))))) };
}

impl Wire for Fault {
    ghost use Rattle.bincode.specs.EnumWords.{enum_words};

    ghost words = { enum_words ⟦<Fault as Sum<FaultParts>>⟧.variants ⟦<Fault as Sum<FaultParts>>⟧.parts };

    fn claim_size() -> usize {
        let widest = FaultOtherPart::claim_size().max(0);
        let widest = FaultCStringNulErrorPart::claim_size().max(widest);
        let widest = FaultInvalidDurationPart::claim_size().max(widest);
        let widest = FaultUtf8Part::claim_size().max(widest);
        let widest = FaultInvalidCharEncodingPart::claim_size().max(widest);
        let widest = FaultInvalidBooleanValuePart::claim_size().max(widest);
        let widest = FaultNonZeroTypeIsZeroPart::claim_size().max(widest);
        let widest = FaultInvalidIntegerTypePart::claim_size().max(widest);
        let widest = FaultUnexpectedVariantPart::claim_size().max(widest);
        let widest = FaultUnexpectedEndPart::claim_size().max(widest);
        let widest = FaultLimitExceededPart::claim_size().max(widest);
        enum_claim(widest)
    }
}

impl Enum for Fault {
    ghost use Rattle.std.specs.Prelude.{refl};
    ghost use Rattle.bincode.specs.EnumWords.{enum_laws, enum_variants};
    ghost use Rattle.calls.specs.declared.refusal.Fault.TheVariants.{LimitExceeded, UnexpectedEnd};
    ghost use Rattle.calls.specs.declared.refusal.Fault.TheVariants.{UnexpectedVariant};
    ghost use Rattle.calls.specs.declared.refusal.Fault.TheVariants.{InvalidIntegerType};
    ghost use Rattle.calls.specs.declared.refusal.Fault.TheVariants.{NonZeroTypeIsZero};
    ghost use Rattle.calls.specs.declared.refusal.Fault.TheVariants.{InvalidBooleanValue};
    ghost use Rattle.calls.specs.declared.refusal.Fault.TheVariants.{InvalidCharEncoding, Utf8};
    ghost use Rattle.calls.specs.declared.refusal.Fault.TheVariants.{InvalidDuration, CStringNulError};
    ghost use Rattle.calls.specs.declared.refusal.Fault.TheVariants.{Other};

    ghost choices = { enum_variants ⟦<Fault as Sum<FaultParts>>⟧.variants ⟦<Fault as Sum<FaultParts>>⟧.made };

    fn type_name() -> TypeName {
        TypeName::new("Fault")
    }

    ghost laws = { enum_laws ⟦<Fault as Sum<FaultParts>>⟧.variants ⟦<Fault as Sum<FaultParts>>⟧.parts
        ⟦<Fault as Sum<FaultParts>>⟧.made (elim [
          | LimitExceeded ↦ refl
          | UnexpectedEnd additional ↦ refl
          | UnexpectedVariant found ↦ refl
          | InvalidIntegerType ↦ refl
          | NonZeroTypeIsZero ↦ refl
          | InvalidBooleanValue value ↦ refl
          | InvalidCharEncoding ↦ refl
          | Utf8 ↦ refl
          | InvalidDuration ↦ refl
          | CStringNulError position ↦ refl
          | Other ↦ refl
        ]) };
}

impl Plain for Fault {
    fn tell_plain() {
        FaultLimitExceededPart::tell_plain();
        FaultUnexpectedEndPart::tell_plain();
        FaultUnexpectedVariantPart::tell_plain();
        FaultInvalidIntegerTypePart::tell_plain();
        FaultNonZeroTypeIsZeroPart::tell_plain();
        FaultInvalidBooleanValuePart::tell_plain();
        FaultInvalidCharEncodingPart::tell_plain();
        FaultUtf8Part::tell_plain();
        FaultInvalidDurationPart::tell_plain();
        FaultCStringNulErrorPart::tell_plain();
        FaultOtherPart::tell_plain();
        plain_by_variants::<Fault>();
    }
}

impl Exact for Fault {
    fn tell_exact() {
        FaultLimitExceededPart::tell_exact();
        FaultUnexpectedEndPart::tell_exact();
        FaultUnexpectedVariantPart::tell_exact();
        FaultInvalidIntegerTypePart::tell_exact();
        FaultNonZeroTypeIsZeroPart::tell_exact();
        FaultInvalidBooleanValuePart::tell_exact();
        FaultInvalidCharEncodingPart::tell_exact();
        FaultUtf8Part::tell_exact();
        FaultInvalidDurationPart::tell_exact();
        FaultCStringNulErrorPart::tell_exact();
        FaultOtherPart::tell_exact();
        exact_by_variants::<Fault>();
    }
}

impl Canonical for Fault {
    fn tell_canonical() {
        FaultLimitExceededPart::tell_canonical();
        FaultUnexpectedEndPart::tell_canonical();
        FaultUnexpectedVariantPart::tell_canonical();
        FaultInvalidIntegerTypePart::tell_canonical();
        FaultNonZeroTypeIsZeroPart::tell_canonical();
        FaultInvalidBooleanValuePart::tell_canonical();
        FaultInvalidCharEncodingPart::tell_canonical();
        FaultUtf8Part::tell_canonical();
        FaultInvalidDurationPart::tell_canonical();
        FaultCStringNulErrorPart::tell_canonical();
        FaultOtherPart::tell_canonical();
        canonical_by_variants::<Fault>();
    }
}

impl Encode for Fault {
    fn tell_valid(&self) {
        match self {
            Fault::LimitExceeded => {}
            Fault::UnexpectedEnd { additional } => additional.tell_valid(),
            Fault::UnexpectedVariant { found } => found.tell_valid(),
            Fault::InvalidIntegerType => {}
            Fault::NonZeroTypeIsZero => {}
            Fault::InvalidBooleanValue(value) => value.tell_valid(),
            Fault::InvalidCharEncoding => {}
            Fault::Utf8 => {}
            Fault::InvalidDuration => {}
            Fault::CStringNulError { position } => position.tell_valid(),
            Fault::Other => {}
        }
    }

    fn encode<E: Encoder>(&self, encoder: &mut E) -> Result<(), EncodeError> {
        match self {
            Fault::LimitExceeded => encode_variant(self, 0, &(), encoder),
            Fault::UnexpectedEnd { additional } => encode_variant(self, 1, additional, encoder),
            Fault::UnexpectedVariant { found } => encode_variant(self, 2, found, encoder),
            Fault::InvalidIntegerType => encode_variant(self, 3, &(), encoder),
            Fault::NonZeroTypeIsZero => encode_variant(self, 4, &(), encoder),
            Fault::InvalidBooleanValue(value) => encode_variant(self, 5, value, encoder),
            Fault::InvalidCharEncoding => encode_variant(self, 6, &(), encoder),
            Fault::Utf8 => encode_variant(self, 7, &(), encoder),
            Fault::InvalidDuration => encode_variant(self, 8, &(), encoder),
            Fault::CStringNulError { position } => encode_variant(self, 9, position, encoder),
            Fault::Other => encode_variant(self, 10, &(), encoder),
        }
    }
}

impl<Context: Drop> DecodeVariants<Context> for Fault {
    fn decode_variant<D: Decoder<Context = Context>>(
        tag: u32,
        decoder: &mut D,
    ) -> Result<Fault, DecodeError> {
        match tag {
            0 => match decode_part::<Context, Fault, FaultLimitExceededPart, D>(tag, 0, decoder) {
                Ok(()) => Ok(Fault::LimitExceeded),
                Err(error) => Err(error),
            },
            1 => match decode_part::<Context, Fault, FaultUnexpectedEndPart, D>(tag, 1, decoder) {
                Ok(additional) => Ok(Fault::UnexpectedEnd { additional }),
                Err(error) => Err(error),
            },
            2 => match decode_part::<Context, Fault, FaultUnexpectedVariantPart, D>(
                tag, 2, decoder,
            ) {
                Ok(found) => Ok(Fault::UnexpectedVariant { found }),
                Err(error) => Err(error),
            },
            3 => match decode_part::<Context, Fault, FaultInvalidIntegerTypePart, D>(
                tag, 3, decoder,
            ) {
                Ok(()) => Ok(Fault::InvalidIntegerType),
                Err(error) => Err(error),
            },
            4 => match decode_part::<Context, Fault, FaultNonZeroTypeIsZeroPart, D>(
                tag, 4, decoder,
            ) {
                Ok(()) => Ok(Fault::NonZeroTypeIsZero),
                Err(error) => Err(error),
            },
            5 => match decode_part::<Context, Fault, FaultInvalidBooleanValuePart, D>(
                tag, 5, decoder,
            ) {
                Ok(value) => Ok(Fault::InvalidBooleanValue(value)),
                Err(error) => Err(error),
            },
            6 => match decode_part::<Context, Fault, FaultInvalidCharEncodingPart, D>(
                tag, 6, decoder,
            ) {
                Ok(()) => Ok(Fault::InvalidCharEncoding),
                Err(error) => Err(error),
            },
            7 => match decode_part::<Context, Fault, FaultUtf8Part, D>(tag, 7, decoder) {
                Ok(()) => Ok(Fault::Utf8),
                Err(error) => Err(error),
            },
            8 => match decode_part::<Context, Fault, FaultInvalidDurationPart, D>(tag, 8, decoder) {
                Ok(()) => Ok(Fault::InvalidDuration),
                Err(error) => Err(error),
            },
            9 => match decode_part::<Context, Fault, FaultCStringNulErrorPart, D>(tag, 9, decoder) {
                Ok(position) => Ok(Fault::CStringNulError { position }),
                Err(error) => Err(error),
            },
            10 => match decode_part::<Context, Fault, FaultOtherPart, D>(tag, 10, decoder) {
                Ok(()) => Ok(Fault::Other),
                Err(error) => Err(error),
            },
            _ => decode_no_variant(tag, 10, decoder),
        }
    }
}

impl<Context: Drop> Decode<Context> for Fault {
    type Run = Sequential;

    fn decode<D: Decoder<Context = Context>>(decoder: &mut D) -> Result<Fault, DecodeError> {
        decode_by_tag(decoder)
    }
}
