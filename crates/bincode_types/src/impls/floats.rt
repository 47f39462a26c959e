//! `Wire` for floats, and their laws. `f32` and `f64` are not `Exact`, since a NaN is not equal to itself; an
//! `OrderedFloat` is.
ghost use Rattle.std.specs.Float.{binary32, binary64};
ghost use Rattle.bincode_spec.specs.Floats.{floats};
ghost use Rattle.std.specs.Prelude.{refl};
ghost use Rattle.bincode_lemmas.specs.FloatLaws.{floats-laws, float-costs, real-same};
ghost use Rattle.bincode_types.specs.TypeWords.{scalar_words};

use crate::by_parts::{ByParts, SameParts};
use crate::laws::{Canonical, ConstantCharge, Inhabited, Plain, Writable};
use crate::scalars::{FixedCharge, Scalar, Single};
use crate::wire::Wire;
use std::cmp::OrderedFloat;

impl Wire for f32 {
    ghost words = { scalar_words (floats binary32 (λ v. v)) (floats-laws binary32 (λ v. v)) 4 };

    #[inline]
    fn claim_size() -> usize {
        4
    }
}

impl Inhabited for f32 {
    #[inline]
    fn tell_inhabited() {}
}

impl Writable for f32 {
    #[inline]
    fn tell_writable() {}
}

impl Plain for f32 {
    #[inline]
    fn tell_plain() {}
}

impl Canonical for f32 {
    #[inline]
    fn tell_canonical() {}
}

impl ConstantCharge for f32 {
    ghost cost = { 4 };

    ghost peak = { 4 };

    #[inline]
    fn tell_costs() {}
}

impl Wire for f64 {
    ghost words = { scalar_words (floats binary64 (λ v. v)) (floats-laws binary64 (λ v. v)) 8 };

    #[inline]
    fn claim_size() -> usize {
        8
    }
}

impl Inhabited for f64 {
    #[inline]
    fn tell_inhabited() {}
}

impl Writable for f64 {
    #[inline]
    fn tell_writable() {}
}

impl Plain for f64 {
    #[inline]
    fn tell_plain() {}
}

impl Canonical for f64 {
    #[inline]
    fn tell_canonical() {}
}

impl ConstantCharge for f64 {
    ghost cost = { 8 };

    ghost peak = { 8 };

    #[inline]
    fn tell_costs() {}
}

impl Scalar for OrderedFloat<f32> {
    ghost form = { floats binary32 (λ v. v.0) };

    ghost form_laws = { floats-laws binary32 (λ v. v.0) };

    ghost SIZE = { 4 };

    const SIZE: usize = 4;

    ghost same = { λ v w m. real-same v.0 w.0 m };
}

impl ByParts for OrderedFloat<f32> {
    type Parts = Single<OrderedFloat<f32>>;

    ghost parts = { λ v. record { value = v } };
}

impl SameParts<Single<OrderedFloat<f32>>> for OrderedFloat<f32> {
    ghost same_parts = { λ v w. refl };
}

impl FixedCharge for OrderedFloat<f32> {
    ghost charges = { float-costs binary32 };
}

impl Scalar for OrderedFloat<f64> {
    ghost form = { floats binary64 (λ v. v.0) };

    ghost form_laws = { floats-laws binary64 (λ v. v.0) };

    ghost SIZE = { 8 };

    const SIZE: usize = 8;

    ghost same = { λ v w m. real-same v.0 w.0 m };
}

impl ByParts for OrderedFloat<f64> {
    type Parts = Single<OrderedFloat<f64>>;

    ghost parts = { λ v. record { value = v } };
}

impl SameParts<Single<OrderedFloat<f64>>> for OrderedFloat<f64> {
    ghost same_parts = { λ v w. refl };
}

impl FixedCharge for OrderedFloat<f64> {
    ghost charges = { float-costs binary64 };
}
