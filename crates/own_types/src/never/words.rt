//! What the types of `never.rt` are written as. Made from that file by the program `derive`, and not edited: run
//! `derive` on the file again where its types change.
//! Left out of Never: Exact.

use super::*;
use bincode::de::{
    BorrowDecode, BorrowDecoder, BorrowedBytes, Decode, Decoder, Named, Sequential,
    decode_no_variants,
};
use bincode::error::DecodeError;
use bincode::laws::{Canonical, Plain, canonical_by_parts, plain_by_parts};
use bincode::short_text::TypeName;
use bincode::{HasParts, NoVariants, Wire};

type NeverParts = NoVariants<Never>;

impl HasParts<NeverParts> for Never {
    ghost parts = { elim [ ] };
}

impl Wire for Never {
    ghost use Rattle.bincode.specs.TypeWords.{words_by};

    ghost words = { words_by ⟦<NeverParts as Wire>⟧.words ⟦<Never as HasParts<NeverParts>>⟧.parts };

    fn claim_size() -> usize {
        NeverParts::claim_size()
    }
}

impl Plain for Never {
    fn tell_plain() {
        plain_by_parts::<NeverParts, Never>();
    }
}

impl Canonical for Never {
    fn tell_canonical() {
        canonical_by_parts::<NeverParts, Never>();
    }
}

impl Named for Never {
    fn type_name() -> TypeName {
        TypeName::new("Never")
    }
}

impl<Context: Drop> Decode<Context> for Never {
    type Run = Sequential;

    fn decode<D: Decoder<Context = Context>>(decoder: &mut D) -> Result<Never, DecodeError> {
        decode_no_variants::<Never, Never, D>(decoder)
    }
}

impl<B: BorrowedBytes, Context: Drop> BorrowDecode<B, Context> for Never {
    type Run = Sequential;

    fn borrow_decode<D: BorrowDecoder<B, Context = Context>>(
        decoder: &mut D,
    ) -> Result<Never, DecodeError> {
        Never::decode(decoder)
    }
}
