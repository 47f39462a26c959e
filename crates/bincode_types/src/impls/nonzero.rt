//! `Wire` for `NonZero` integers.
ghost use Rattle.std.specs.Prelude.{refl};
ghost use Rattle.std.specs.Int.{w16, w32, w64, w128};
ghost use Rattle.std.specs.Int.NonZero.{non_zero_u8_get, non_zero_u16_get, non_zero_u32_get, non_zero_u64_get};
ghost use Rattle.std.specs.Int.NonZero.{non_zero_u128_get, non_zero_usize_get, non_zero_i8_get, non_zero_i16_get};
ghost use Rattle.std.specs.Int.NonZero.{non_zero_i32_get, non_zero_i64_get, non_zero_i128_get, non_zero_isize_get};
ghost use Rattle.bincode_base.specs.declared.error.IntegerType.TheVariants.{U8, U16, U32, U64, U128, Usize};
ghost use Rattle.bincode_base.specs.declared.error.IntegerType.TheVariants.{I8, I16, I32, I64, I128, Isize};
ghost use Rattle.bincode_spec.specs.Integers.{Two, Four, Eight, Sixteen};
ghost use Rattle.bincode_lemmas.specs.AllowedLaws.{number-same, integer-same};
ghost use Rattle.bincode_spec.specs.Forms.{bytes_not_zero, unsigned_not_zero, signed_bytes_not_zero, signed_not_zero};
ghost use Rattle.bincode_lemmas.specs.CostLaws.{map-costs, not_zero-costs, unsigned-costs, signed-costs};
ghost use Rattle.bincode_lemmas.specs.CostLaws.{unsigned_byte-costs, signed_byte-costs};
ghost use Rattle.bincode_lemmas.specs.FormLaws.{bytes_not_zero-laws, unsigned_not_zero-laws};
ghost use Rattle.bincode_lemmas.specs.FormLaws.{signed_bytes_not_zero-laws, signed_not_zero-laws};

use crate::by_parts::{ByParts, SameParts};
use crate::scalars::{FixedCharge, Scalar, Single};
use std::num::{
    NonZeroI8, NonZeroI16, NonZeroI32, NonZeroI64, NonZeroI128, NonZeroIsize, NonZeroU8,
    NonZeroU16, NonZeroU32, NonZeroU64, NonZeroU128, NonZeroUsize,
};

impl Scalar for NonZeroU8 {
    ghost form = { bytes_not_zero non_zero_u8_get };

    ghost form_laws = { bytes_not_zero-laws non_zero_u8_get };

    ghost SIZE = { 1 };

    const SIZE: usize = size_of::<NonZeroU8>();

    ghost same = { λ v w. number-same (non_zero_u8_get v) (non_zero_u8_get w) };
}

impl ByParts for NonZeroU8 {
    type Parts = Single<NonZeroU8>;

    ghost parts = { λ v. record { value = v } };
}

impl SameParts<Single<NonZeroU8>> for NonZeroU8 {
    ghost same_parts = { λ v w. refl };
}

impl FixedCharge for NonZeroU8 {
    ghost charges = { λ s. map-costs 1 1 _ _ (not_zero-costs _ U8 1 _ unsigned_byte-costs) };
}

impl Scalar for NonZeroU16 {
    ghost form = { unsigned_not_zero non_zero_u16_get U16 2 };

    ghost form_laws = { unsigned_not_zero-laws non_zero_u16_get U16 2 (Two refl) };

    ghost SIZE = { 2 };

    const SIZE: usize = size_of::<NonZeroU16>();

    ghost same = { λ v w. number-same (non_zero_u16_get v) (non_zero_u16_get w) };
}

impl ByParts for NonZeroU16 {
    type Parts = Single<NonZeroU16>;

    ghost parts = { λ v. record { value = v } };
}

impl SameParts<Single<NonZeroU16>> for NonZeroU16 {
    ghost same_parts = { λ v w. refl };
}

impl FixedCharge for NonZeroU16 {
    ghost charges = { λ s. map-costs 2 2 _ _ (not_zero-costs _ U16 2 _ (unsigned-costs U16 2 s)) };
}

impl Scalar for NonZeroU32 {
    ghost form = { unsigned_not_zero non_zero_u32_get U32 4 };

    ghost form_laws = { unsigned_not_zero-laws non_zero_u32_get U32 4 (Four refl) };

    ghost SIZE = { 4 };

    const SIZE: usize = size_of::<NonZeroU32>();

    ghost same = { λ v w. number-same (non_zero_u32_get v) (non_zero_u32_get w) };
}

impl ByParts for NonZeroU32 {
    type Parts = Single<NonZeroU32>;

    ghost parts = { λ v. record { value = v } };
}

impl SameParts<Single<NonZeroU32>> for NonZeroU32 {
    ghost same_parts = { λ v w. refl };
}

impl FixedCharge for NonZeroU32 {
    ghost charges = { λ s. map-costs 4 4 _ _ (not_zero-costs _ U32 4 _ (unsigned-costs U32 4 s)) };
}

impl Scalar for NonZeroU64 {
    ghost form = { unsigned_not_zero non_zero_u64_get U64 8 };

    ghost form_laws = { unsigned_not_zero-laws non_zero_u64_get U64 8 (Eight refl) };

    ghost SIZE = { 8 };

    const SIZE: usize = size_of::<NonZeroU64>();

    ghost same = { λ v w. number-same (non_zero_u64_get v) (non_zero_u64_get w) };
}

impl ByParts for NonZeroU64 {
    type Parts = Single<NonZeroU64>;

    ghost parts = { λ v. record { value = v } };
}

impl SameParts<Single<NonZeroU64>> for NonZeroU64 {
    ghost same_parts = { λ v w. refl };
}

impl FixedCharge for NonZeroU64 {
    ghost charges = { λ s. map-costs 8 8 _ _ (not_zero-costs _ U64 8 _ (unsigned-costs U64 8 s)) };
}

impl Scalar for NonZeroU128 {
    ghost form = { unsigned_not_zero non_zero_u128_get U128 16 };

    ghost form_laws = { unsigned_not_zero-laws non_zero_u128_get U128 16 (Sixteen refl) };

    ghost SIZE = { 16 };

    const SIZE: usize = size_of::<NonZeroU128>();

    ghost same = { λ v w. number-same (non_zero_u128_get v) (non_zero_u128_get w) };
}

impl ByParts for NonZeroU128 {
    type Parts = Single<NonZeroU128>;

    ghost parts = { λ v. record { value = v } };
}

impl SameParts<Single<NonZeroU128>> for NonZeroU128 {
    ghost same_parts = { λ v w. refl };
}

impl FixedCharge for NonZeroU128 {
    ghost charges = { λ s. map-costs 16 16 _ _ (not_zero-costs _ U128 16 _ (unsigned-costs U128 16 s)) };
}

impl Scalar for NonZeroUsize {
    ghost form = { unsigned_not_zero non_zero_usize_get Usize 8 };

    ghost form_laws = { unsigned_not_zero-laws non_zero_usize_get Usize 8 (Eight refl) };

    ghost SIZE = { 8 };

    const SIZE: usize = size_of::<NonZeroUsize>();

    ghost same = { λ v w. number-same (non_zero_usize_get v) (non_zero_usize_get w) };
}

impl ByParts for NonZeroUsize {
    type Parts = Single<NonZeroUsize>;

    ghost parts = { λ v. record { value = v } };
}

impl SameParts<Single<NonZeroUsize>> for NonZeroUsize {
    ghost same_parts = { λ v w. refl };
}

impl FixedCharge for NonZeroUsize {
    ghost charges = { λ s. map-costs 8 8 _ _ (not_zero-costs _ Usize 8 _ (unsigned-costs Usize 8 s)) };
}

impl Scalar for NonZeroI8 {
    ghost form = { signed_bytes_not_zero non_zero_i8_get };

    ghost form_laws = { signed_bytes_not_zero-laws non_zero_i8_get };

    ghost SIZE = { 1 };

    const SIZE: usize = size_of::<NonZeroI8>();

    ghost same = { λ v w. integer-same (non_zero_i8_get v) (non_zero_i8_get w) };
}

impl ByParts for NonZeroI8 {
    type Parts = Single<NonZeroI8>;

    ghost parts = { λ v. record { value = v } };
}

impl SameParts<Single<NonZeroI8>> for NonZeroI8 {
    ghost same_parts = { λ v w. refl };
}

impl FixedCharge for NonZeroI8 {
    ghost charges = { λ s. map-costs 1 1 _ _ (not_zero-costs _ I8 1 _ signed_byte-costs) };
}

impl Scalar for NonZeroI16 {
    ghost form = { signed_not_zero non_zero_i16_get I16 w16 };

    ghost form_laws = { signed_not_zero-laws non_zero_i16_get I16 w16 (Two refl) };

    ghost SIZE = { 2 };

    const SIZE: usize = size_of::<NonZeroI16>();

    ghost same = { λ v w. integer-same (non_zero_i16_get v) (non_zero_i16_get w) };
}

impl ByParts for NonZeroI16 {
    type Parts = Single<NonZeroI16>;

    ghost parts = { λ v. record { value = v } };
}

impl SameParts<Single<NonZeroI16>> for NonZeroI16 {
    ghost same_parts = { λ v w. refl };
}

impl FixedCharge for NonZeroI16 {
    ghost charges = { λ s. map-costs 2 2 _ _ (not_zero-costs _ I16 2 _ (signed-costs I16 2 s)) };
}

impl Scalar for NonZeroI32 {
    ghost form = { signed_not_zero non_zero_i32_get I32 w32 };

    ghost form_laws = { signed_not_zero-laws non_zero_i32_get I32 w32 (Four refl) };

    ghost SIZE = { 4 };

    const SIZE: usize = size_of::<NonZeroI32>();

    ghost same = { λ v w. integer-same (non_zero_i32_get v) (non_zero_i32_get w) };
}

impl ByParts for NonZeroI32 {
    type Parts = Single<NonZeroI32>;

    ghost parts = { λ v. record { value = v } };
}

impl SameParts<Single<NonZeroI32>> for NonZeroI32 {
    ghost same_parts = { λ v w. refl };
}

impl FixedCharge for NonZeroI32 {
    ghost charges = { λ s. map-costs 4 4 _ _ (not_zero-costs _ I32 4 _ (signed-costs I32 4 s)) };
}

impl Scalar for NonZeroI64 {
    ghost form = { signed_not_zero non_zero_i64_get I64 w64 };

    ghost form_laws = { signed_not_zero-laws non_zero_i64_get I64 w64 (Eight refl) };

    ghost SIZE = { 8 };

    const SIZE: usize = size_of::<NonZeroI64>();

    ghost same = { λ v w. integer-same (non_zero_i64_get v) (non_zero_i64_get w) };
}

impl ByParts for NonZeroI64 {
    type Parts = Single<NonZeroI64>;

    ghost parts = { λ v. record { value = v } };
}

impl SameParts<Single<NonZeroI64>> for NonZeroI64 {
    ghost same_parts = { λ v w. refl };
}

impl FixedCharge for NonZeroI64 {
    ghost charges = { λ s. map-costs 8 8 _ _ (not_zero-costs _ I64 8 _ (signed-costs I64 8 s)) };
}

impl Scalar for NonZeroI128 {
    ghost form = { signed_not_zero non_zero_i128_get I128 w128 };

    ghost form_laws = { signed_not_zero-laws non_zero_i128_get I128 w128 (Sixteen refl) };

    ghost SIZE = { 16 };

    const SIZE: usize = size_of::<NonZeroI128>();

    ghost same = { λ v w. integer-same (non_zero_i128_get v) (non_zero_i128_get w) };
}

impl ByParts for NonZeroI128 {
    type Parts = Single<NonZeroI128>;

    ghost parts = { λ v. record { value = v } };
}

impl SameParts<Single<NonZeroI128>> for NonZeroI128 {
    ghost same_parts = { λ v w. refl };
}

impl FixedCharge for NonZeroI128 {
    ghost charges = { λ s. map-costs 16 16 _ _ (not_zero-costs _ I128 16 _ (signed-costs I128 16 s)) };
}

impl Scalar for NonZeroIsize {
    ghost form = { signed_not_zero non_zero_isize_get Isize w64 };

    ghost form_laws = { signed_not_zero-laws non_zero_isize_get Isize w64 (Eight refl) };

    ghost SIZE = { 8 };

    const SIZE: usize = size_of::<NonZeroIsize>();

    ghost same = { λ v w. integer-same (non_zero_isize_get v) (non_zero_isize_get w) };
}

impl ByParts for NonZeroIsize {
    type Parts = Single<NonZeroIsize>;

    ghost parts = { λ v. record { value = v } };
}

impl SameParts<Single<NonZeroIsize>> for NonZeroIsize {
    ghost same_parts = { λ v w. refl };
}

impl FixedCharge for NonZeroIsize {
    ghost charges = { λ s. map-costs 8 8 _ _ (not_zero-costs _ Isize 8 _ (signed-costs Isize 8 s)) };
}
