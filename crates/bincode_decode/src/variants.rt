//! Decoding of enums, variant by variant.
ghost use Rattle.std.specs.Prelude.{◌≡◌, ◌⊎◌, false, IfOk};
ghost use Rattle.bincode_spec.specs.Words.{variant_tags, in_order, allowed_tags, part};
ghost use Rattle.bincode_spec.specs.Choices.{IsChoice};
ghost use Rattle.bincode_spec.specs.Layers.Values.{Reads};

use crate::borrow_decode::{BorrowDecode, BorrowDecodeVariants};
use crate::decode::Decode;
use crate::strategies::{ByBorrowDecode, ByDecode, PartByBorrowDecode, PartByDecode};
use bincode_base::error::DecodeError;
use bincode_collections::values::Sequential;
use bincode_collections::variants::{decode_none, decode_one_of, decode_or};
use bincode_decoder::decoder::{BorrowDecoder, BorrowedBytes, Decoder};
use bincode_decoder::tags::{DecodeTag, Listed, Named};
use bincode_types::sums::{EnumOf, NoMoreVariants, Tag, VariantOf, Variants};
use bincode_types::wire::Wire;

/// Variants whose parts can be decoded, in a context.
pub trait DecodeVariants<Context: Drop>: Listed + Drop + Sized {
    /// Decodes the part that follows this tag, with these variants left of `All`.
    fn decode_part<All: Listed, D: Decoder<Context = Context>>(
        found: u32,
        decoder: &mut D,
    ) -> Result<Self, DecodeError>
        ensures reads { Reads D.is_known D.remaining D.charge D.failures D.loans D.C.bound D.R.end_error D.R.device
            ((in_order 0 (variant_tags All.variants) ≡ false) ⊎ Self.may_allocate)
            (part D.C.setting Self.variants (allowed_tags (variant_tags All.variants)) found)
            (λ m v. IsChoice found (Self.decodes_to v) m) (D.charge decoder.old) result decoder.old decoder.new }
        ensures tag { IfOk result (λ v. (Self.variant v).0 ≡ found) };
}

impl<Context: Drop, Of: Named, T: Tag> DecodeVariants<Context> for NoMoreVariants<Of, T> {
    #[inline]
    fn decode_part<All: Listed, D: Decoder<Context = Context>>(
        found: u32,
        decoder: &mut D,
    ) -> Result<Self, DecodeError> {
        decode_none::<D, Of, T, All>(found, decoder)
    }
}

impl<
    Context: Drop,
    const TAG: u32,
    A: Decode<Context>,
    Others: DecodeVariants<Context>,
> DecodeVariants<Context> for VariantOf<TAG, A, Others> {
    #[inline]
    fn decode_part<All: Listed, D: Decoder<Context = Context>>(
        found: u32,
        decoder: &mut D,
    ) -> Result<Self, DecodeError> {
        decode_or::<D, TAG, ByDecode<A>, PartByDecode<All, Others>>(found, decoder)
    }
}

/// At least one variant. An enum without variants is decoded as `NoVariants`, which fails before it reads.
pub trait SomeVariants: Variants {}

impl<const TAG: u32, A: Wire, Others: Variants> SomeVariants for VariantOf<TAG, A, Others> {}

impl<Context: Drop, Of: DecodeVariants<Context> + SomeVariants> Decode<Context> for EnumOf<Of>
where
    Of::Tag: DecodeTag,
{
    type Run = Sequential;

    #[inline]
    fn decode<D: Decoder<Context = Context>>(decoder: &mut D) -> Result<Self, DecodeError> {
        decode_one_of::<D, Of, PartByDecode<Of, Of>>(decoder)
    }
}

impl<B: BorrowedBytes, Context: Drop, Of: Named, T: Tag> BorrowDecodeVariants<B, Context>
    for NoMoreVariants<Of, T> {
    #[inline]
    fn borrow_decode_part<All: Listed, D: BorrowDecoder<B, Context = Context>>(
        found: u32,
        decoder: &mut D,
    ) -> Result<Self, DecodeError> {
        decode_none::<D, Of, T, All>(found, decoder)
    }
}

impl<
    B: BorrowedBytes,
    Context: Drop,
    const TAG: u32,
    A: BorrowDecode<B, Context>,
    Others: BorrowDecodeVariants<B, Context>,
> BorrowDecodeVariants<B, Context> for VariantOf<TAG, A, Others> {
    #[inline]
    fn borrow_decode_part<All: Listed, D: BorrowDecoder<B, Context = Context>>(
        found: u32,
        decoder: &mut D,
    ) -> Result<Self, DecodeError> {
        decode_or::<D, TAG, ByBorrowDecode<B, A>, PartByBorrowDecode<B, All, Others>>(
            found, decoder,
        )
    }
}

impl<
    B: BorrowedBytes,
    Context: Drop,
    Of: BorrowDecodeVariants<B, Context> + SomeVariants,
> BorrowDecode<B, Context> for EnumOf<Of>
where
    Of::Tag: DecodeTag,
{
    type Run = Sequential;

    #[inline]
    fn borrow_decode<D: BorrowDecoder<B, Context = Context>>(
        decoder: &mut D,
    ) -> Result<Self, DecodeError> {
        decode_one_of::<D, Of, PartByBorrowDecode<B, Of, Of>>(decoder)
    }
}
