//! Decoding of enums, variant by variant.
ghost use Rattle.std.specs.Prelude.{◌≡◌, ◌⊎◌, false, IfOk};
ghost use Rattle.bincode_spec.specs.Words.{variant_tags, in_order, allowed_tags, part, tag_then_part};
ghost use Rattle.bincode_spec.specs.Choices.{IsChoice};
ghost use Rattle.bincode_spec.specs.Layers.Values.{Reads};

use crate::values::ReadValues;
use bincode_base::error::DecodeError;
use bincode_decoder::decoder::Decoder;
use bincode_decoder::tags::{DecodeTag, Listed, Named, unexpected_tag};
use bincode_types::sums::{EnumOf, NoMoreVariants, Tag, VariantOf, Variants};
use bincode_types::wire::Wire;

/// How the part that follows a tag is decoded.
pub trait ReadVariants<D: Decoder> {
    /// All variants of the enum.
    type All: Listed;

    /// The variants of `All` that are left.
    type Left: Variants + Drop;

    /// Decodes the part that follows a tag that no earlier variant has.
    fn read_part(found: u32, decoder: &mut D) -> Result<Self::Left, DecodeError>
        ensures reads { Reads D.is_known D.remaining D.charge D.failures D.loans D.C.bound D.R.end_error D.R.device
            ((in_order 0 (variant_tags Self.All.variants) ≡ false) ⊎ Self.Left.may_allocate)
            (part D.C.setting Self.Left.variants (allowed_tags (variant_tags Self.All.variants)) found)
            (λ m v. IsChoice found (Self.Left.decodes_to v) m) (D.charge decoder.old) result decoder.old decoder.new }
        ensures tag { IfOk result (λ v. (Self.Left.variant v).0 ≡ found) };
}

/// Fails with the error of a tag that none of the `All` variants of the enum `Of` has.
#[inline]
pub fn decode_none<D: Decoder, Of: Named, T: Tag, All: Listed>(
    found: u32,
    decoder: &mut D,
) -> Result<NoMoreVariants<Of, T>, DecodeError>
    ensures reads { Reads D.is_known D.remaining D.charge D.failures D.loans D.C.bound D.R.end_error D.R.device
        ((in_order 0 (variant_tags All.variants) ≡ false) ⊎ ⟦<NoMoreVariants<Of, T> as Variants>⟧.may_allocate)
        (part D.C.setting ⟦<NoMoreVariants<Of, T> as Variants>⟧.variants (allowed_tags (variant_tags All.variants))
        found) (λ m v. IsChoice found (⟦<NoMoreVariants<Of, T> as Variants>⟧.decodes_to v) m) (D.charge decoder.old)
        result decoder.old decoder.new }
    ensures tag { IfOk result (λ v. (⟦<NoMoreVariants<Of, T> as Variants>⟧.variant v).0 ≡ found) }
{
    Err(unexpected_tag::<Of, All, D>(decoder, found))
}

/// Decodes the part of the variant with this tag, or of one of the others. Errors are those of the part, or of
/// `decode_none` for an unknown tag.
#[inline]
pub fn decode_or<D: Decoder, const TAG: u32, A: ReadValues<D>, Others: ReadVariants<D>>(
    found: u32,
    decoder: &mut D,
) -> Result<VariantOf<TAG, A::Value, Others::Left>, DecodeError>
    ensures reads { Reads D.is_known D.remaining D.charge D.failures D.loans D.C.bound D.R.end_error D.R.device
        ((in_order 0 (variant_tags Others.All.variants) ≡ false)
        ⊎ ⟦<VariantOf<TAG, A::Value, Others::Left> as Variants>⟧.may_allocate)
        (part D.C.setting ⟦<VariantOf<TAG, A::Value, Others::Left> as Variants>⟧.variants
        (allowed_tags (variant_tags Others.All.variants)) found)
        (λ m v. IsChoice found (⟦<VariantOf<TAG, A::Value, Others::Left> as Variants>⟧.decodes_to v) m)
        (D.charge decoder.old) result decoder.old decoder.new }
    ensures tag { IfOk result (λ v. (⟦<VariantOf<TAG, A::Value, Others::Left> as Variants>⟧.variant v).0 ≡ found) }
{
    if found == TAG {
        let this = A::read_value(decoder)?;
        return Ok(VariantOf::This(this));
    }
    let other = Others::read_part(found, decoder)?;
    Ok(VariantOf::Other(other))
}

/// Decodes a tag, then the part of its variant. Errors are those of the two.
#[inline]
pub fn decode_one_of<D: Decoder, Of: Listed + Drop, W: ReadVariants<D, All = Of, Left = Of>>(
    decoder: &mut D,
) -> Result<EnumOf<Of>, DecodeError>
where
    Of::Tag: DecodeTag,
    ensures { Reads D.is_known D.remaining D.charge D.failures D.loans D.C.bound D.R.end_error D.R.device
        ((in_order 0 (variant_tags Of.variants) ≡ false) ⊎ Of.may_allocate) (tag_then_part Of.Tag.tags Of.variants
        D.C.setting) (λ m v. IsChoice (Of.variant v.0).0 (Of.decodes_to v.0) m) (D.charge decoder.old) result
        decoder.old decoder.new }
{
    let found = Of::Tag::decode_tag(decoder)?;
    let of = W::read_part(found, decoder)?;
    Ok(EnumOf(of))
}
