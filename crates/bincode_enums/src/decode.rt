//! Decoding of enums: the tag of a variant, then its part.
ghost use Rattle.std.specs.Prelude.{◌≡◌, true, false};
ghost use Rattle.bincode_spec.specs.Format.{map_format};
ghost use Rattle.bincode_spec.specs.Meaning.{Choice};
ghost use Rattle.bincode_spec.specs.Words.{after_tag, variant_tags, in_order, last_of};
ghost use Rattle.bincode_spec.specs.Choices.{IsChoice};
ghost use Rattle.bincode_spec.specs.Layers.Values.{Reads};
ghost use Rattle.bincode_enums.specs.EnumWords.{IsNone, DecodeAlike};

use crate::enums::Enum;
use bincode_base::error::{AllowedEnumVariants, DecodeError};
use bincode_decode::decode::Decode;
use bincode_decoder::decoder::Decoder;
use bincode_decoder::tags::DecodeTag;

/// An enum whose variants can be decoded, in a context.
pub trait DecodeVariants<Context: Drop>: Enum + Drop + Sized {
    /// Decodes the part that follows this tag.
    fn decode_variant<D: Decoder<Context = Context>>(
        tag: u32,
        decoder: &mut D,
    ) -> Result<Self, DecodeError>
        ensures { Reads D.is_known D.remaining D.charge D.failures D.loans D.C.bound D.R.end_error D.R.device
            Self.words.may_allocate (after_tag Self.choices.variants D.C.setting tag) Self.words.decodes_to
            (D.charge decoder.old) result decoder.old decoder.new };
}

/// Decodes the tag of a variant, then its part. Errors are those of the two.
#[inline(always)]
pub fn decode_by_tag<T: DecodeVariants<D::Context>, D: Decoder>(
    decoder: &mut D,
) -> Result<T, DecodeError>
    ensures { Reads D.is_known D.remaining D.charge D.failures D.loans D.C.bound D.R.end_error D.R.device
        T.words.may_allocate (T.words.format D.C.setting) T.words.decodes_to (D.charge decoder.old) result decoder.old
        decoder.new }
{
    let tag = u32::decode_tag(decoder)?;
    T::decode_variant(tag, decoder)
}

/// Decodes the part of the variant of `T` at index `number`, whose tag is `tag`. Errors are those of the part.
#[inline(always)]
pub fn decode_part<Context: Drop, T: Enum, A: Decode<Context>, D: Decoder<Context = Context>>(
    tag: u32,
    number: u32,
    decoder: &mut D,
) -> Result<A, DecodeError>
    requires same { tag ≡ number }
    requires picks { DecodeAlike (after_tag T.choices.variants D.C.setting number)
        (map_format (Choice number) (A.words.format D.C.setting)) }
    requires may_allocate { A.words.may_allocate → T.words.may_allocate }
    ensures { Reads D.is_known D.remaining D.charge D.failures D.loans D.C.bound D.R.end_error D.R.device
        T.words.may_allocate (after_tag T.choices.variants D.C.setting tag) (λ m a. IsChoice tag
        (λ p. A.words.decodes_to p a) m) (D.charge decoder.old) result decoder.old decoder.new }
{
    A::decode(decoder)
}

/// Refuses an unknown tag with `UnexpectedVariant`, if the valid tags are `0..=last`.
#[inline(always)]
pub fn decode_no_variant<T: Enum, D: Decoder>(
    tag: u32,
    last: u32,
    decoder: &mut D,
) -> Result<T, DecodeError>
    requires differs { IsNone tag (variant_tags T.choices.variants) }
    requires ordered { in_order 0 (variant_tags T.choices.variants) ≡ true }
    requires ends { last_of 0 (variant_tags T.choices.variants) ≡ last }
    ensures { Reads D.is_known D.remaining D.charge D.failures D.loans D.C.bound D.R.end_error D.R.device
        T.words.may_allocate (after_tag T.choices.variants D.C.setting tag) T.words.decodes_to (D.charge decoder.old)
        result decoder.old decoder.new }
{
    let range = AllowedEnumVariants::Range { min: 0, max: last };
    Err(DecodeError::unexpected_variant(decoder.alloc(), T::type_name(), tag, range))
}

/// Refuses an unknown tag with `UnlistedVariant`, if the valid tags are not 0, 1 and so on. Allocates the list of them,
/// and returns `Memory` if that is refused.
#[inline(always)]
pub fn decode_unlisted_variant<T: Enum, D: Decoder>(
    tag: u32,
    tags: &[u32],
    decoder: &mut D,
) -> Result<T, DecodeError>
    requires differs { IsNone tag (variant_tags T.choices.variants) }
    requires unordered { in_order 0 (variant_tags T.choices.variants) ≡ false }
    requires listed { tags.now ≡ variant_tags T.choices.variants }
    requires may_allocate { T.words.may_allocate }
    ensures { Reads D.is_known D.remaining D.charge D.failures D.loans D.C.bound D.R.end_error D.R.device
        T.words.may_allocate (after_tag T.choices.variants D.C.setting tag) T.words.decodes_to (D.charge decoder.old)
        result decoder.old decoder.new }
{
    let list = AllowedEnumVariants::Allowed(tags);
    Err(DecodeError::unexpected_variant(decoder.alloc(), T::type_name(), tag, list))
}
