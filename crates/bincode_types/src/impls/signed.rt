//! Laws of signed integers.

use crate::laws::{Canonical, ConstantCharge, Exact, Inhabited, Plain, Writable};
use crate::scalars::{
    Scalar, tell_scalar_canonical, tell_scalar_costs, tell_scalar_exact, tell_scalar_inhabited,
    tell_scalar_plain, tell_scalar_writable,
};

impl Inhabited for i8 {
    #[inline]
    fn tell_inhabited() {
        tell_scalar_inhabited::<i8>();
    }
}

impl Writable for i8 {
    #[inline]
    fn tell_writable() {
        tell_scalar_writable::<i8>();
    }
}

impl Plain for i8 {
    #[inline]
    fn tell_plain() {
        tell_scalar_plain::<i8>();
    }
}

impl Canonical for i8 {
    #[inline]
    fn tell_canonical() {
        tell_scalar_canonical::<i8>();
    }
}

impl Exact for i8 {
    #[inline]
    fn tell_exact() {
        tell_scalar_exact::<i8>();
    }
}

impl ConstantCharge for i8 {
    ghost cost = { ⟦<i8 as Scalar>⟧.SIZE };

    ghost peak = { ⟦<i8 as Scalar>⟧.SIZE };

    #[inline]
    fn tell_costs() {
        tell_scalar_costs::<i8>();
    }
}

impl Inhabited for i16 {
    #[inline]
    fn tell_inhabited() {
        tell_scalar_inhabited::<i16>();
    }
}

impl Writable for i16 {
    #[inline]
    fn tell_writable() {
        tell_scalar_writable::<i16>();
    }
}

impl Plain for i16 {
    #[inline]
    fn tell_plain() {
        tell_scalar_plain::<i16>();
    }
}

impl Canonical for i16 {
    #[inline]
    fn tell_canonical() {
        tell_scalar_canonical::<i16>();
    }
}

impl Exact for i16 {
    #[inline]
    fn tell_exact() {
        tell_scalar_exact::<i16>();
    }
}

impl ConstantCharge for i16 {
    ghost cost = { ⟦<i16 as Scalar>⟧.SIZE };

    ghost peak = { ⟦<i16 as Scalar>⟧.SIZE };

    #[inline]
    fn tell_costs() {
        tell_scalar_costs::<i16>();
    }
}

impl Inhabited for i32 {
    #[inline]
    fn tell_inhabited() {
        tell_scalar_inhabited::<i32>();
    }
}

impl Writable for i32 {
    #[inline]
    fn tell_writable() {
        tell_scalar_writable::<i32>();
    }
}

impl Plain for i32 {
    #[inline]
    fn tell_plain() {
        tell_scalar_plain::<i32>();
    }
}

impl Canonical for i32 {
    #[inline]
    fn tell_canonical() {
        tell_scalar_canonical::<i32>();
    }
}

impl Exact for i32 {
    #[inline]
    fn tell_exact() {
        tell_scalar_exact::<i32>();
    }
}

impl ConstantCharge for i32 {
    ghost cost = { ⟦<i32 as Scalar>⟧.SIZE };

    ghost peak = { ⟦<i32 as Scalar>⟧.SIZE };

    #[inline]
    fn tell_costs() {
        tell_scalar_costs::<i32>();
    }
}

impl Inhabited for i64 {
    #[inline]
    fn tell_inhabited() {
        tell_scalar_inhabited::<i64>();
    }
}

impl Writable for i64 {
    #[inline]
    fn tell_writable() {
        tell_scalar_writable::<i64>();
    }
}

impl Plain for i64 {
    #[inline]
    fn tell_plain() {
        tell_scalar_plain::<i64>();
    }
}

impl Canonical for i64 {
    #[inline]
    fn tell_canonical() {
        tell_scalar_canonical::<i64>();
    }
}

impl Exact for i64 {
    #[inline]
    fn tell_exact() {
        tell_scalar_exact::<i64>();
    }
}

impl ConstantCharge for i64 {
    ghost cost = { ⟦<i64 as Scalar>⟧.SIZE };

    ghost peak = { ⟦<i64 as Scalar>⟧.SIZE };

    #[inline]
    fn tell_costs() {
        tell_scalar_costs::<i64>();
    }
}

impl Inhabited for i128 {
    #[inline]
    fn tell_inhabited() {
        tell_scalar_inhabited::<i128>();
    }
}

impl Writable for i128 {
    #[inline]
    fn tell_writable() {
        tell_scalar_writable::<i128>();
    }
}

impl Plain for i128 {
    #[inline]
    fn tell_plain() {
        tell_scalar_plain::<i128>();
    }
}

impl Canonical for i128 {
    #[inline]
    fn tell_canonical() {
        tell_scalar_canonical::<i128>();
    }
}

impl Exact for i128 {
    #[inline]
    fn tell_exact() {
        tell_scalar_exact::<i128>();
    }
}

impl ConstantCharge for i128 {
    ghost cost = { ⟦<i128 as Scalar>⟧.SIZE };

    ghost peak = { ⟦<i128 as Scalar>⟧.SIZE };

    #[inline]
    fn tell_costs() {
        tell_scalar_costs::<i128>();
    }
}

impl Inhabited for isize {
    #[inline]
    fn tell_inhabited() {
        tell_scalar_inhabited::<isize>();
    }
}

impl Writable for isize {
    #[inline]
    fn tell_writable() {
        tell_scalar_writable::<isize>();
    }
}

impl Plain for isize {
    #[inline]
    fn tell_plain() {
        tell_scalar_plain::<isize>();
    }
}

impl Canonical for isize {
    #[inline]
    fn tell_canonical() {
        tell_scalar_canonical::<isize>();
    }
}

impl Exact for isize {
    #[inline]
    fn tell_exact() {
        tell_scalar_exact::<isize>();
    }
}

impl ConstantCharge for isize {
    ghost cost = { ⟦<isize as Scalar>⟧.SIZE };

    ghost peak = { ⟦<isize as Scalar>⟧.SIZE };

    #[inline]
    fn tell_costs() {
        tell_scalar_costs::<isize>();
    }
}
