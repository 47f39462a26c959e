//! Decoding of enums that borrow bytes of the source.
ghost use Rattle.std.specs.Prelude.{◌≡◌};
ghost use Rattle.bincode_spec.specs.Format.{map_format};
ghost use Rattle.bincode_spec.specs.Meaning.{Choice};
ghost use Rattle.bincode_spec.specs.Words.{after_tag};
ghost use Rattle.bincode_spec.specs.Choices.{IsChoice};
ghost use Rattle.bincode_spec.specs.Layers.Values.{Reads};
ghost use Rattle.bincode_enums.specs.EnumWords.{DecodeAlike};

use crate::enums::Enum;
use bincode_base::error::DecodeError;
use bincode_decode::borrow_decode::BorrowDecode;
use bincode_decoder::decoder::{BorrowDecoder, BorrowedBytes};
use bincode_decoder::tags::DecodeTag;

/// An enum whose variants can be decoded, in a context, by a decoder that lends bytes of its source.
pub trait BorrowDecodeVariants<B: BorrowedBytes, Context: Drop>: Enum + Drop + Sized {
    /// Decodes the part that follows this tag.
    fn borrow_decode_variant<D: BorrowDecoder<B, Context = Context>>(
        tag: u32,
        decoder: &mut D,
    ) -> Result<Self, DecodeError>
        ensures { Reads D.is_known D.remaining D.charge D.failures D.loans D.C.bound D.R.end_error D.R.device
            Self.words.may_allocate (after_tag Self.choices.variants D.C.setting tag) Self.words.decodes_to
            (D.charge decoder.old) result decoder.old decoder.new };
}

/// Decodes the tag of a variant, then its part. Errors are those of the two.
#[inline(always)]
pub fn borrow_decode_by_tag<
    B: BorrowedBytes,
    T: BorrowDecodeVariants<B, D::Context>,
    D: BorrowDecoder<B>,
>(decoder: &mut D) -> Result<T, DecodeError>
    ensures { Reads D.is_known D.remaining D.charge D.failures D.loans D.C.bound D.R.end_error D.R.device
        T.words.may_allocate (T.words.format D.C.setting) T.words.decodes_to (D.charge decoder.old) result decoder.old
        decoder.new }
{
    let tag = u32::decode_tag(decoder)?;
    T::borrow_decode_variant(tag, decoder)
}

/// Decodes the part of the variant of `T` at index `number`, whose tag is `tag`. Errors are those of the part.
#[inline(always)]
pub fn borrow_decode_part<
    B: BorrowedBytes,
    Context: Drop,
    T: Enum,
    A: BorrowDecode<B, Context>,
    D: BorrowDecoder<B, Context = Context>,
>(tag: u32, number: u32, decoder: &mut D) -> Result<A, DecodeError>
    requires same { tag ≡ number }
    requires picks { DecodeAlike (after_tag T.choices.variants D.C.setting number)
        (map_format (Choice number) (A.words.format D.C.setting)) }
    requires may_allocate { A.words.may_allocate → T.words.may_allocate }
    ensures { Reads D.is_known D.remaining D.charge D.failures D.loans D.C.bound D.R.end_error D.R.device
        T.words.may_allocate (after_tag T.choices.variants D.C.setting tag) (λ m a. IsChoice tag
        (λ p. A.words.decodes_to p a) m) (D.charge decoder.old) result decoder.old decoder.new }
{
    A::borrow_decode(decoder)
}
