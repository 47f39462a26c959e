//! What can be decoded with borrowed parts of the source.
ghost use Rattle.std.specs.Prelude.{◌≡◌, ◌⊎◌, false, IfOk};
ghost use Rattle.bincode_spec.specs.Words.{variant_tags, in_order, allowed_tags, part};
ghost use Rattle.bincode_spec.specs.Choices.{IsChoice};
ghost use Rattle.bincode_spec.specs.Layers.Values.{Reads};

use bincode_base::error::DecodeError;
use bincode_collections::values::DecodeRun;
use bincode_decoder::decoder::{BorrowDecoder, BorrowedBytes};
use bincode_decoder::tags::Listed;
use bincode_types::wire::Wire;

/// A type whose values can be decoded, in a context, by a decoder that lends bytes of its source. `B` is `&'de [u8]`,
/// and stands for the lifetime `'de` of the source.
pub trait BorrowDecode<B: BorrowedBytes, Context: Drop>: Wire + Drop + Sized {
    /// How a slice of values is decoded, as `Decode::Run`.
    type Run: DecodeRun<Self>;

    /// Decodes a value, which may borrow bytes of the source. Errors, and what is left after them, are those of
    /// `Decode::decode`.
    fn borrow_decode<D: BorrowDecoder<B, Context = Context>>(
        decoder: &mut D,
    ) -> Result<Self, DecodeError>
        ensures { Reads D.is_known D.remaining D.charge D.failures D.loans D.C.bound D.R.end_error D.R.device
            Self.words.may_allocate (Self.words.format D.C.setting) Self.words.decodes_to (D.charge decoder.old) result
            decoder.old decoder.new };
}

/// Variants whose parts can be decoded, in a context, by a decoder that lends bytes of its source.
pub trait BorrowDecodeVariants<B: BorrowedBytes, Context: Drop>: Listed + Drop + Sized {
    /// Decodes the part that follows this tag, with these variants left of `All`.
    fn borrow_decode_part<All: Listed, D: BorrowDecoder<B, Context = Context>>(
        found: u32,
        decoder: &mut D,
    ) -> Result<Self, DecodeError>
        ensures reads { Reads D.is_known D.remaining D.charge D.failures D.loans D.C.bound D.R.end_error D.R.device
            ((in_order 0 (variant_tags All.variants) ≡ false) ⊎ Self.may_allocate)
            (part D.C.setting Self.variants (allowed_tags (variant_tags All.variants)) found)
            (λ m v. IsChoice found (Self.decodes_to v) m) (D.charge decoder.old) result decoder.old decoder.new }
        ensures tag { IfOk result (λ v. (Self.variant v).0 ≡ found) };
}
