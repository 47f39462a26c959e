//! What the types of `code.rt` are written as. Made from that file by the program `derive`, and not edited: run
//! `derive` on the file again where its types change.

use super::*;
use bincode::de::{
    BorrowDecode, BorrowDecoder, BorrowedBytes, Decode, Decoder, FromParts, Named, Sequential,
    decode_by_parts,
};
use bincode::enc::{Encode, Encoder, encode_variant as encode_in_sum};
use bincode::error::{DecodeError, EncodeError};
use bincode::laws::{Canonical, Exact, Plain, canonical_by_parts, exact_by_parts, plain_by_parts};
use bincode::short_text::TypeName;
use bincode::{EnumOf, HasParts, NoMoreVariants, VariantOf, Wire};

type CodeParts = EnumOf<
    VariantOf<1, (), VariantOf<5, (), VariantOf<300, (), NoMoreVariants<Code>>>>,
>;

impl HasParts<CodeParts> for Code {
    ghost use Rattle.bincode.specs.Sums.{this, other};
    ghost use Rattle.own_types.specs.declared.code.Code.TheVariants.{Done, Late, Refused};

    ghost parts = { elim [
      | Done ↦ record { 0 = this tt }
      | Late ↦ record { 0 = other (this tt) }
      | Refused ↦ record { 0 = other (other (this tt)) }
    ] };
}

impl Wire for Code {
    ghost use Rattle.std.proofs.Common.{arith};
    ghost use Rattle.bincode.specs.TypeWords.{with_claim, words_by};

    ghost words = { with_claim 4 (omega arith) (words_by ⟦<CodeParts as Wire>⟧.words
        ⟦<Code as HasParts<CodeParts>>⟧.parts) };

    fn claim_size() -> usize {
        4
    }
}

impl Plain for Code {
    fn tell_plain() {
        plain_by_parts::<CodeParts, Code>();
    }
}

impl Exact for Code {
    fn tell_exact() {
        exact_by_parts::<CodeParts, Code>();
    }
}

impl Canonical for Code {
    fn tell_canonical() {
        canonical_by_parts::<CodeParts, Code>();
    }
}

impl Named for Code {
    fn type_name() -> TypeName {
        TypeName::new("Code")
    }
}

impl Encode for Code {
    fn tell_valid(&self) {}

    fn encode<E: Encoder>(&self, encoder: &mut E) -> Result<(), EncodeError> {
        match self {
            Code::Done => encode_in_sum(self, 1, &(), encoder),
            Code::Late => encode_in_sum(self, 5, &(), encoder),
            Code::Refused => encode_in_sum(self, 300, &(), encoder),
        }
    }
}

impl FromParts<CodeParts> for Code {
    fn from_parts(parts: CodeParts) -> Code {
        match parts.0 {
            VariantOf::This(()) => Code::Done,
            VariantOf::Other(rest) => match rest {
                VariantOf::This(()) => Code::Late,
                VariantOf::Other(rest) => match rest {
                    VariantOf::This(()) => Code::Refused,
                },
            },
        }
    }
}

impl<Context: Drop> Decode<Context> for Code {
    type Run = Sequential;

    fn decode<D: Decoder<Context = Context>>(decoder: &mut D) -> Result<Code, DecodeError> {
        decode_by_parts::<CodeParts, Code, D>(decoder)
    }
}

impl<B: BorrowedBytes, Context: Drop> BorrowDecode<B, Context> for Code {
    type Run = Sequential;

    fn borrow_decode<D: BorrowDecoder<B, Context = Context>>(
        decoder: &mut D,
    ) -> Result<Code, DecodeError> {
        Code::decode(decoder)
    }
}
