//! How values are read by the generic decoders: with `Decode`, or with `BorrowDecode`.

use crate::borrow_decode::{BorrowDecode, BorrowDecodeVariants};
use crate::decode::Decode;
use crate::variants::DecodeVariants;
use bincode_base::error::DecodeError;
use bincode_collections::values::ReadValues;
use bincode_collections::variants::ReadVariants;
use bincode_decoder::decoder::{BorrowDecoder, BorrowedBytes, Decoder};
use bincode_decoder::tags::Listed;
use std::marker::PhantomData;

/// Reads values with their `Decode`.
pub(crate) struct ByDecode<T>(PhantomData<T>);

impl<D: Decoder, T: Decode<D::Context>> ReadValues<D> for ByDecode<T> {
    type Value = T;

    type Run = T::Run;

    #[inline(always)]
    fn read_value(decoder: &mut D) -> Result<T, DecodeError> {
        T::decode(decoder)
    }
}

/// Reads the parts of variants with their `Decode`: of those that are left of `All`.
pub(crate) struct PartByDecode<All, Left>(PhantomData<(All, Left)>);

impl<D: Decoder, All: Listed, Left: DecodeVariants<D::Context>> ReadVariants<D>
    for PartByDecode<All, Left> {
    type All = All;

    type Left = Left;

    #[inline(always)]
    fn read_part(found: u32, decoder: &mut D) -> Result<Left, DecodeError> {
        Left::decode_part::<All, D>(found, decoder)
    }
}

/// Reads values with their `BorrowDecode`.
pub(crate) struct ByBorrowDecode<B, T>(PhantomData<(B, T)>);

impl<B: BorrowedBytes, D: BorrowDecoder<B>, T: BorrowDecode<B, D::Context>> ReadValues<D>
    for ByBorrowDecode<B, T> {
    type Value = T;

    type Run = T::Run;

    #[inline(always)]
    fn read_value(decoder: &mut D) -> Result<T, DecodeError> {
        T::borrow_decode(decoder)
    }
}

/// Reads the parts of variants with their `BorrowDecode`: of those that are left of `All`.
pub(crate) struct PartByBorrowDecode<B, All, Left>(PhantomData<(B, All, Left)>);

impl<
    B: BorrowedBytes,
    D: BorrowDecoder<B>,
    All: Listed,
    Left: BorrowDecodeVariants<B, D::Context>,
> ReadVariants<D> for PartByBorrowDecode<B, All, Left> {
    type All = All;

    type Left = Left;

    #[inline(always)]
    fn read_part(found: u32, decoder: &mut D) -> Result<Left, DecodeError> {
        Left::borrow_decode_part::<All, D>(found, decoder)
    }
}
