//! `Wire` for integers.
ghost use Rattle.std.specs.Prelude.{refl};
ghost use Rattle.std.specs.Int.{w16, w32, w64, w128};
ghost use Rattle.bincode_base.specs.declared.error.IntegerType.TheVariants.{U16, U32, U64, U128, Usize, I16, I32, I64};
ghost use Rattle.bincode_base.specs.declared.error.IntegerType.TheVariants.{I128, Isize};
ghost use Rattle.bincode_spec.specs.Integers.{Two, Four, Eight, Sixteen};
ghost use Rattle.bincode_lemmas.specs.AllowedLaws.{number-same, integer-same};
ghost use Rattle.bincode_spec.specs.Forms.{bytes, unsigned_numbers, signed_bytes, signed_numbers};
ghost use Rattle.bincode_spec.specs.Integers.{unsigned_integer, signed_integer, unsigned_byte, signed_byte};
ghost use Rattle.bincode_lemmas.specs.CostLaws.{map-costs, unsigned-costs, signed-costs, unsigned_byte-costs};
ghost use Rattle.bincode_lemmas.specs.CostLaws.{signed_byte-costs};
ghost use Rattle.bincode_lemmas.specs.FormLaws.{bytes-laws, unsigned_numbers-laws};
ghost use Rattle.bincode_lemmas.specs.FormLaws.{signed_bytes-laws, signed_numbers-laws};
ghost use Rattle.bincode_types.specs.TypeWords.{scalar_words};

use crate::scalars::{FixedCharge, Scalar, scalar_claim};
use crate::wire::Wire;

impl Scalar for u8 {
    ghost form = { bytes };

    ghost form_laws = { bytes-laws };

    ghost SIZE = { 1 };

    const SIZE: usize = size_of::<u8>();

    ghost same = { number-same };
}

impl Wire for u8 {
    ghost words = { scalar_words ⟦<u8 as Scalar>⟧.form ⟦<u8 as Scalar>⟧.form_laws ⟦<u8 as Scalar>⟧.SIZE };

    #[inline]
    fn claim_size() -> usize {
        scalar_claim::<u8>()
    }
}

impl FixedCharge for u8 {
    ghost charges = { λ s. map-costs 1 1 _ (unsigned_byte) unsigned_byte-costs };
}

impl Scalar for u16 {
    ghost form = { unsigned_numbers U16 2 };

    ghost form_laws = { unsigned_numbers-laws U16 2 (Two refl) };

    ghost SIZE = { 2 };

    const SIZE: usize = size_of::<u16>();

    ghost same = { number-same };
}

impl Wire for u16 {
    ghost words = { scalar_words ⟦<u16 as Scalar>⟧.form ⟦<u16 as Scalar>⟧.form_laws ⟦<u16 as Scalar>⟧.SIZE };

    #[inline]
    fn claim_size() -> usize {
        scalar_claim::<u16>()
    }
}

impl FixedCharge for u16 {
    ghost charges = { λ s. map-costs 2 2 _ (unsigned_integer U16 2 s) (unsigned-costs U16 2 s) };
}

impl Scalar for u32 {
    ghost form = { unsigned_numbers U32 4 };

    ghost form_laws = { unsigned_numbers-laws U32 4 (Four refl) };

    ghost SIZE = { 4 };

    const SIZE: usize = size_of::<u32>();

    ghost same = { number-same };
}

impl Wire for u32 {
    ghost words = { scalar_words ⟦<u32 as Scalar>⟧.form ⟦<u32 as Scalar>⟧.form_laws ⟦<u32 as Scalar>⟧.SIZE };

    #[inline]
    fn claim_size() -> usize {
        scalar_claim::<u32>()
    }
}

impl FixedCharge for u32 {
    ghost charges = { λ s. map-costs 4 4 _ (unsigned_integer U32 4 s) (unsigned-costs U32 4 s) };
}

impl Scalar for u64 {
    ghost form = { unsigned_numbers U64 8 };

    ghost form_laws = { unsigned_numbers-laws U64 8 (Eight refl) };

    ghost SIZE = { 8 };

    const SIZE: usize = size_of::<u64>();

    ghost same = { number-same };
}

impl Wire for u64 {
    ghost words = { scalar_words ⟦<u64 as Scalar>⟧.form ⟦<u64 as Scalar>⟧.form_laws ⟦<u64 as Scalar>⟧.SIZE };

    #[inline]
    fn claim_size() -> usize {
        scalar_claim::<u64>()
    }
}

impl FixedCharge for u64 {
    ghost charges = { λ s. map-costs 8 8 _ (unsigned_integer U64 8 s) (unsigned-costs U64 8 s) };
}

impl Scalar for u128 {
    ghost form = { unsigned_numbers U128 16 };

    ghost form_laws = { unsigned_numbers-laws U128 16 (Sixteen refl) };

    ghost SIZE = { 16 };

    const SIZE: usize = size_of::<u128>();

    ghost same = { number-same };
}

impl Wire for u128 {
    ghost words = { scalar_words ⟦<u128 as Scalar>⟧.form ⟦<u128 as Scalar>⟧.form_laws
        ⟦<u128 as Scalar>⟧.SIZE };

    #[inline]
    fn claim_size() -> usize {
        scalar_claim::<u128>()
    }
}

impl FixedCharge for u128 {
    ghost charges = { λ s. map-costs 16 16 _ (unsigned_integer U128 16 s) (unsigned-costs U128 16 s) };
}

impl Scalar for usize {
    ghost form = { unsigned_numbers Usize 8 };

    ghost form_laws = { unsigned_numbers-laws Usize 8 (Eight refl) };

    ghost SIZE = { 8 };

    const SIZE: usize = size_of::<usize>();

    ghost same = { number-same };
}

impl Wire for usize {
    ghost words = { scalar_words ⟦<usize as Scalar>⟧.form ⟦<usize as Scalar>⟧.form_laws
        ⟦<usize as Scalar>⟧.SIZE };

    #[inline]
    fn claim_size() -> usize {
        scalar_claim::<usize>()
    }
}

impl FixedCharge for usize {
    ghost charges = { λ s. map-costs 8 8 _ (unsigned_integer Usize 8 s) (unsigned-costs Usize 8 s) };
}

impl Scalar for i8 {
    ghost form = { signed_bytes };

    ghost form_laws = { signed_bytes-laws };

    ghost SIZE = { 1 };

    const SIZE: usize = size_of::<i8>();

    ghost same = { integer-same };
}

impl Wire for i8 {
    ghost words = { scalar_words ⟦<i8 as Scalar>⟧.form ⟦<i8 as Scalar>⟧.form_laws ⟦<i8 as Scalar>⟧.SIZE };

    #[inline]
    fn claim_size() -> usize {
        scalar_claim::<i8>()
    }
}

impl FixedCharge for i8 {
    ghost charges = { λ s. map-costs 1 1 _ (signed_byte) signed_byte-costs };
}

impl Scalar for i16 {
    ghost form = { signed_numbers I16 w16 };

    ghost form_laws = { signed_numbers-laws I16 w16 (Two refl) };

    ghost SIZE = { 2 };

    const SIZE: usize = size_of::<i16>();

    ghost same = { integer-same };
}

impl Wire for i16 {
    ghost words = { scalar_words ⟦<i16 as Scalar>⟧.form ⟦<i16 as Scalar>⟧.form_laws ⟦<i16 as Scalar>⟧.SIZE };

    #[inline]
    fn claim_size() -> usize {
        scalar_claim::<i16>()
    }
}

impl FixedCharge for i16 {
    ghost charges = { λ s. map-costs 2 2 _ (signed_integer I16 2 s) (signed-costs I16 2 s) };
}

impl Scalar for i32 {
    ghost form = { signed_numbers I32 w32 };

    ghost form_laws = { signed_numbers-laws I32 w32 (Four refl) };

    ghost SIZE = { 4 };

    const SIZE: usize = size_of::<i32>();

    ghost same = { integer-same };
}

impl Wire for i32 {
    ghost words = { scalar_words ⟦<i32 as Scalar>⟧.form ⟦<i32 as Scalar>⟧.form_laws ⟦<i32 as Scalar>⟧.SIZE };

    #[inline]
    fn claim_size() -> usize {
        scalar_claim::<i32>()
    }
}

impl FixedCharge for i32 {
    ghost charges = { λ s. map-costs 4 4 _ (signed_integer I32 4 s) (signed-costs I32 4 s) };
}

impl Scalar for i64 {
    ghost form = { signed_numbers I64 w64 };

    ghost form_laws = { signed_numbers-laws I64 w64 (Eight refl) };

    ghost SIZE = { 8 };

    const SIZE: usize = size_of::<i64>();

    ghost same = { integer-same };
}

impl Wire for i64 {
    ghost words = { scalar_words ⟦<i64 as Scalar>⟧.form ⟦<i64 as Scalar>⟧.form_laws ⟦<i64 as Scalar>⟧.SIZE };

    #[inline]
    fn claim_size() -> usize {
        scalar_claim::<i64>()
    }
}

impl FixedCharge for i64 {
    ghost charges = { λ s. map-costs 8 8 _ (signed_integer I64 8 s) (signed-costs I64 8 s) };
}

impl Scalar for i128 {
    ghost form = { signed_numbers I128 w128 };

    ghost form_laws = { signed_numbers-laws I128 w128 (Sixteen refl) };

    ghost SIZE = { 16 };

    const SIZE: usize = size_of::<i128>();

    ghost same = { integer-same };
}

impl Wire for i128 {
    ghost words = { scalar_words ⟦<i128 as Scalar>⟧.form ⟦<i128 as Scalar>⟧.form_laws
        ⟦<i128 as Scalar>⟧.SIZE };

    #[inline]
    fn claim_size() -> usize {
        scalar_claim::<i128>()
    }
}

impl FixedCharge for i128 {
    ghost charges = { λ s. map-costs 16 16 _ (signed_integer I128 16 s) (signed-costs I128 16 s) };
}

impl Scalar for isize {
    ghost form = { signed_numbers Isize w64 };

    ghost form_laws = { signed_numbers-laws Isize w64 (Eight refl) };

    ghost SIZE = { 8 };

    const SIZE: usize = size_of::<isize>();

    ghost same = { integer-same };
}

impl Wire for isize {
    ghost words = { scalar_words ⟦<isize as Scalar>⟧.form ⟦<isize as Scalar>⟧.form_laws
        ⟦<isize as Scalar>⟧.SIZE };

    #[inline]
    fn claim_size() -> usize {
        scalar_claim::<isize>()
    }
}

impl FixedCharge for isize {
    ghost charges = { λ s. map-costs 8 8 _ (signed_integer Isize 8 s) (signed-costs Isize 8 s) };
}
