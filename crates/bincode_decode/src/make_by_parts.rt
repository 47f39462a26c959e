//! Types that are decoded as their parts.
ghost use Rattle.std.specs.Prelude.{◌≡◌};

use crate::borrow_decode::BorrowDecode;
use crate::decode::Decode;
use crate::strategies::{ByBorrowDecode, ByDecode};
use bincode_base::error::DecodeError;
use bincode_collections::by_parts::{MakeWhole, decode_whole};
use bincode_collections::values::{ReadValues, Sequential};
use bincode_decoder::decoder::{BorrowDecoder, BorrowedBytes, Decoder};
use bincode_types::by_parts::ByParts;
use std::marker::PhantomData;

/// A type that is made from its parts. It gets `Decode` and `BorrowDecode` from this, if the type of the parts has
/// them.
pub trait MakeByParts: ByParts {
    /// The value with these parts.
    fn make_by_parts(parts: Self::Parts) -> Self
        ensures parts { Self.parts result ≡ parts }
        ensures promise { (Self.promise result).OfValue };
}

/// Decodes values from their parts, which `V` reads.
struct ReadByParts<V, T>(PhantomData<(V, T)>);

impl<D: Decoder, V: ReadValues<D>, T: MakeByParts + ByParts<Parts = V::Value> + Drop> MakeWhole<D>
    for ReadByParts<V, T> {
    type Parts = V::Value;

    type Whole = T;

    #[inline(always)]
    fn read_parts(decoder: &mut D) -> Result<T::Parts, DecodeError> {
        V::read_value(decoder)
    }

    #[inline(always)]
    fn make(parts: T::Parts) -> T {
        T::make_by_parts(parts)
    }
}

impl<Context: Drop, T: MakeByParts + Drop> Decode<Context> for T
where
    T::Parts: Decode<Context>,
{
    type Run = Sequential;

    #[inline]
    fn decode<D: Decoder<Context = Context>>(decoder: &mut D) -> Result<T, DecodeError> {
        decode_whole::<D, ReadByParts<ByDecode<T::Parts>, T>>(decoder)
    }
}

impl<B: BorrowedBytes, Context: Drop, T: MakeByParts + Drop> BorrowDecode<B, Context> for T
where
    T::Parts: BorrowDecode<B, Context>,
{
    type Run = Sequential;

    #[inline]
    fn borrow_decode<D: BorrowDecoder<B, Context = Context>>(
        decoder: &mut D,
    ) -> Result<T, DecodeError> {
        decode_whole::<D, ReadByParts<ByBorrowDecode<B, T::Parts>, T>>(decoder)
    }
}
