//! Decoding of types whose values are checked after decoding.
ghost use Rattle.std.specs.Prelude.{◌≤◌, length};
ghost use Rattle.bincode_spec.specs.Fault.{IsOther};

use crate::borrow_decode::BorrowDecode;
use crate::decode::Decode;
use crate::strategies::{ByBorrowDecode, ByDecode};
use bincode_base::error::DecodeError;
use bincode_base::short_text::ShortText;
use bincode_collections::validated::decode_validated;
use bincode_collections::values::Sequential;
use bincode_decoder::decoder::{BorrowDecoder, BorrowedBytes, Decoder};
use bincode_types::validated::{Validate, Validated};

impl<Context: Drop, T: Validate + Drop> Decode<Context> for Validated<T>
where
    T::Of: Decode<Context>,
{
    type Run = Sequential;

    #[inline]
    fn decode<D: Decoder<Context = Context>>(decoder: &mut D) -> Result<Self, DecodeError> {
        decode_validated::<D, ByDecode<T::Of>, T>(decoder)
    }
}

impl<B: BorrowedBytes, Context: Drop, T: Validate + Drop> BorrowDecode<B, Context> for Validated<T>
where
    T::Of: BorrowDecode<B, Context>,
{
    type Run = Sequential;

    #[inline]
    fn borrow_decode<D: BorrowDecoder<B, Context = Context>>(
        decoder: &mut D,
    ) -> Result<Self, DecodeError> {
        decode_validated::<D, ByBorrowDecode<B, T::Of>, T>(decoder)
    }
}

/// `DecodeError::Other` with this text, for a fault of a type of your own. Does not allocate.
pub fn other_error(text: &str) -> DecodeError
    requires { length text.now ≤ 22 }
    ensures { IsOther text.now result }
{
    DecodeError::Other(ShortText::new(text))
}
