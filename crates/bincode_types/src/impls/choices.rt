//! `Wire` for `bool`, `Option`, `Result` and `Bound`.
ghost use Rattle.std.specs.Prelude.{refl};
ghost use Rattle.bincode_lemmas.specs.AllowedLaws.{truth-same};
ghost use Rattle.bincode_spec.specs.Forms.{truths};
ghost use Rattle.bincode_lemmas.specs.CostLaws.{truth-costs};
ghost use Rattle.bincode_lemmas.specs.FormLaws.{truths-laws};
ghost use Rattle.bincode_types.specs.TypeWords.{scalar_words};

use crate::by_parts::{ByParts, SameParts};
use crate::laws::Exact;
use crate::scalars::{FixedCharge, Scalar, scalar_claim};
use crate::sums::{EnumOf, NoMoreVariants, VariantOf};
use crate::wire::Wire;
use std::ops::Bound;

impl Scalar for bool {
    ghost form = { truths };

    ghost form_laws = { truths-laws };

    ghost SIZE = { 1 };

    const SIZE: usize = size_of::<bool>();

    ghost same = { truth-same };
}

impl Wire for bool {
    ghost words = { scalar_words ⟦<bool as Scalar>⟧.form ⟦<bool as Scalar>⟧.form_laws
        ⟦<bool as Scalar>⟧.SIZE };

    #[inline]
    fn claim_size() -> usize {
        scalar_claim::<bool>()
    }
}

impl FixedCharge for bool {
    ghost charges = { λ s. truth-costs };
}

type OptionParts<T> = EnumOf<VariantOf<0, (), VariantOf<1, T, NoMoreVariants<Option<()>, u8>>>>;

impl<T> ByParts for Option<T> {
    ghost use Rattle.std.specs.Prelude.{Some, None};
    ghost use Rattle.bincode_types.specs.declared.sums.VariantOf.TheVariants.{This, Other};

    type Parts = OptionParts<T>;

    ghost parts = { elim [ None ↦ record { 0 = This tt } | Some v ↦ record { 0 = Other (This v) } ] };
}

impl<T: Exact> SameParts<OptionParts<T>> for Option<T> {
    ghost use Rattle.std.specs.Prelude.{Some, None};

    ghost same_parts = { elim [
      | None ↦ elim [ None ↦ refl | Some w ↦ refl ]
      | Some v ↦ elim [ None ↦ refl | Some w ↦ refl ]
    ] };
}

type ResultParts<T, U> = EnumOf<VariantOf<0, T, VariantOf<1, U, NoMoreVariants<Result<(), ()>>>>>;

impl<T, U> ByParts for Result<T, U> {
    ghost use Rattle.std.specs.Prelude.{Ok, Err};
    ghost use Rattle.bincode_types.specs.declared.sums.VariantOf.TheVariants.{This, Other};

    type Parts = ResultParts<T, U>;

    ghost parts = { elim [ Ok v ↦ record { 0 = This v } | Err w ↦ record { 0 = Other (This w) } ] };
}

impl<T: Exact, U: Exact> SameParts<ResultParts<T, U>> for Result<T, U> {
    ghost use Rattle.std.specs.Prelude.{Ok, Err};

    ghost same_parts = { elim [
      | Ok v ↦ elim [ Ok w ↦ refl | Err w ↦ refl ]
      | Err v ↦ elim [ Ok w ↦ refl | Err w ↦ refl ]
    ] };
}

type BoundParts<T> = EnumOf<
    VariantOf<0, (), VariantOf<1, T, VariantOf<2, T, NoMoreVariants<Bound<()>>>>>,
>;

impl<T> ByParts for Bound<T> {
    ghost use Rattle.std.specs.declared.ops.Bound.TheVariants.{Included, Excluded, Unbounded};
    ghost use Rattle.bincode_types.specs.declared.sums.VariantOf.TheVariants.{This, Other};

    type Parts = BoundParts<T>;

    ghost parts = { elim [
      | Unbounded ↦ record { 0 = This tt }
      | Included v ↦ record { 0 = Other (This v) }
      | Excluded v ↦ record { 0 = Other (Other (This v)) }
    ] };
}

impl<T: Exact> SameParts<BoundParts<T>> for Bound<T> {
    ghost use Rattle.std.specs.declared.ops.Bound.TheVariants.{Included, Excluded, Unbounded};

    ghost same_parts = { elim [
      | Unbounded ↦ elim [ Unbounded ↦ refl | Included w ↦ refl | Excluded w ↦ refl ]
      | Included v ↦ elim [ Unbounded ↦ refl | Included w ↦ refl | Excluded w ↦ refl ]
      | Excluded v ↦ elim [ Unbounded ↦ refl | Included w ↦ refl | Excluded w ↦ refl ]
    ] };
}
