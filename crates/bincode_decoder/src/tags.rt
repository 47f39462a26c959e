//! Decoding of the tags of enums, and the error of an unknown tag.
ghost use Rattle.std.specs.Prelude.{◌≡◌, ◌⊎◌, ◌++◌, false, OnOk, IfOk};
ghost use Rattle.bincode_spec.specs.Fault.{TellsTag};
ghost use Rattle.bincode_base.specs.declared.error.DecodeError.TheVariants.{Memory};
ghost use Rattle.bincode_spec.specs.Words.{variant_tags, in_order, last_of, allowed_tags};
ghost use Rattle.bincode_spec.specs.Layers.Values.{Reads};

use crate::decoder::Decoder;
use crate::integers::{decode_byte, decode_integer};
use bincode_base::error::{AllowedEnumVariants, DecodeError};
use bincode_base::short_text::TypeName;
use bincode_types::sums::{NoMoreVariants, Tag, VariantOf, Variants};
use bincode_types::wire::Wire;
use std::alloc::{AllocError, Global};
use std::net::{IpAddr, SocketAddr};
use std::ops::Bound;

/// A type with a name for error messages.
pub trait Named {
    fn type_name() -> TypeName;
}

impl<T> Named for Option<T> {
    fn type_name() -> TypeName {
        TypeName::new("Option")
    }
}

impl<T, U> Named for Result<T, U> {
    fn type_name() -> TypeName {
        TypeName::new("Result")
    }
}

impl<T> Named for Bound<T> {
    fn type_name() -> TypeName {
        TypeName::new("Bound")
    }
}

impl Named for IpAddr {
    fn type_name() -> TypeName {
        TypeName::new("IpAddr")
    }
}

impl Named for SocketAddr {
    fn type_name() -> TypeName {
        TypeName::new("SocketAddr")
    }
}

/// A type of tags that can be read.
pub trait DecodeTag: Tag {
    /// Reads a tag.
    fn decode_tag<D: Decoder>(decoder: &mut D) -> Result<u32, DecodeError>
        ensures { Reads D.is_known D.remaining D.charge D.failures D.loans D.C.bound D.R.end_error D.R.device ⊥
            (Self.tags D.C.setting) (λ n v. n ≡ v) (D.charge decoder.old) result decoder.old decoder.new };
}

impl DecodeTag for u8 {
    #[inline]
    fn decode_tag<D: Decoder>(decoder: &mut D) -> Result<u32, DecodeError> {
        let tag = decode_byte(decoder)?;
        Ok(u32::from(tag))
    }
}

impl DecodeTag for u32 {
    #[inline]
    fn decode_tag<D: Decoder>(decoder: &mut D) -> Result<u32, DecodeError> {
        decode_integer(decoder)
    }
}

/// Variants whose tags an error can list.
pub trait Listed: Variants {
    /// Whether the tags are consecutive, from `next` on.
    fn are_in_order(next: u64) -> bool
        ensures { result ≡ in_order next (variant_tags Self.variants) };

    /// The last tag, or `before` if there are no variants.
    fn last_tag(before: u32) -> u32
        ensures { result ≡ last_of before (variant_tags Self.variants) };

    /// Appends the tags to a list. Fails if an allocation is refused.
    fn push_tags(tags: &mut Vec<u32>) -> Result<(), AllocError>
        ensures { OnOk result (tags.new.items ≡ tags.old.items ++ variant_tags Self.variants) };
}

impl<Of, T: Tag> Listed for NoMoreVariants<Of, T> {
    fn are_in_order(_next: u64) -> bool {
        true
    }

    fn last_tag(before: u32) -> u32 {
        before
    }

    fn push_tags(_tags: &mut Vec<u32>) -> Result<(), AllocError> {
        Ok(())
    }
}

impl<const TAG: u32, A: Wire, Others: Listed> Listed for VariantOf<TAG, A, Others> {
    fn are_in_order(next: u64) -> bool {
        u64::from(TAG) == next && Others::are_in_order(next + 1)
    }

    fn last_tag(_before: u32) -> u32 {
        Others::last_tag(TAG)
    }

    fn push_tags(tags: &mut Vec<u32>) -> Result<(), AllocError> {
        tags.push(TAG)?;
        Others::push_tags(tags)
    }
}

/// The error of a tag that none of the `All` variants has: `UnexpectedVariant`, or `UnlistedVariant` if the tags are
/// not 0, 1 and so on; `Memory` if that list cannot be allocated.
#[inline(always)]
pub fn unexpected_tag<Of: Named, All: Listed, D: Decoder>(decoder: &D, found: u32) -> DecodeError
    ensures { ((name : _) × TellsTag name (allowed_tags (variant_tags All.variants)) found result)
        ⊎ ((in_order 0 (variant_tags All.variants) ≡ false) × (result ≡ Memory)) }
{
    unexpected::<Of, All>(decoder.alloc(), found)
}

/// `unexpected_tag` with the allocator.
#[cold]
#[inline(never)]
fn unexpected<Of: Named, All: Listed>(alloc: Global, found: u32) -> DecodeError
    ensures { ((name : _) × TellsTag name (allowed_tags (variant_tags All.variants)) found result)
        ⊎ ((in_order 0 (variant_tags All.variants) ≡ false) × (result ≡ Memory)) }
{
    let type_name = Of::type_name();
    if All::are_in_order(0) {
        let range = AllowedEnumVariants::Range {
            min: 0,
            max: All::last_tag(0),
        };
        return DecodeError::unexpected_variant(alloc, type_name, found, range);
    }
    let mut tags = Vec::new(alloc);
    match All::push_tags(&mut tags) {
        Ok(()) => {
            let list = AllowedEnumVariants::Allowed(&tags);
            DecodeError::unexpected_variant(alloc, type_name, found, list)
        }
        Err(_) => DecodeError::Memory,
    }
}
