//! Laws of unsigned integers.

use crate::laws::{Canonical, ConstantCharge, Exact, Inhabited, Plain, Writable};
use crate::scalars::{
    Scalar, tell_scalar_canonical, tell_scalar_costs, tell_scalar_exact, tell_scalar_inhabited,
    tell_scalar_plain, tell_scalar_writable,
};

impl Inhabited for u8 {
    #[inline]
    fn tell_inhabited() {
        tell_scalar_inhabited::<u8>();
    }
}

impl Writable for u8 {
    #[inline]
    fn tell_writable() {
        tell_scalar_writable::<u8>();
    }
}

impl Plain for u8 {
    #[inline]
    fn tell_plain() {
        tell_scalar_plain::<u8>();
    }
}

impl Canonical for u8 {
    #[inline]
    fn tell_canonical() {
        tell_scalar_canonical::<u8>();
    }
}

impl Exact for u8 {
    #[inline]
    fn tell_exact() {
        tell_scalar_exact::<u8>();
    }
}

impl ConstantCharge for u8 {
    ghost cost = { ⟦<u8 as Scalar>⟧.SIZE };

    ghost peak = { ⟦<u8 as Scalar>⟧.SIZE };

    #[inline]
    fn tell_costs() {
        tell_scalar_costs::<u8>();
    }
}

impl Inhabited for u16 {
    #[inline]
    fn tell_inhabited() {
        tell_scalar_inhabited::<u16>();
    }
}

impl Writable for u16 {
    #[inline]
    fn tell_writable() {
        tell_scalar_writable::<u16>();
    }
}

impl Plain for u16 {
    #[inline]
    fn tell_plain() {
        tell_scalar_plain::<u16>();
    }
}

impl Canonical for u16 {
    #[inline]
    fn tell_canonical() {
        tell_scalar_canonical::<u16>();
    }
}

impl Exact for u16 {
    #[inline]
    fn tell_exact() {
        tell_scalar_exact::<u16>();
    }
}

impl ConstantCharge for u16 {
    ghost cost = { ⟦<u16 as Scalar>⟧.SIZE };

    ghost peak = { ⟦<u16 as Scalar>⟧.SIZE };

    #[inline]
    fn tell_costs() {
        tell_scalar_costs::<u16>();
    }
}

impl Inhabited for u32 {
    #[inline]
    fn tell_inhabited() {
        tell_scalar_inhabited::<u32>();
    }
}

impl Writable for u32 {
    #[inline]
    fn tell_writable() {
        tell_scalar_writable::<u32>();
    }
}

impl Plain for u32 {
    #[inline]
    fn tell_plain() {
        tell_scalar_plain::<u32>();
    }
}

impl Canonical for u32 {
    #[inline]
    fn tell_canonical() {
        tell_scalar_canonical::<u32>();
    }
}

impl Exact for u32 {
    #[inline]
    fn tell_exact() {
        tell_scalar_exact::<u32>();
    }
}

impl ConstantCharge for u32 {
    ghost cost = { ⟦<u32 as Scalar>⟧.SIZE };

    ghost peak = { ⟦<u32 as Scalar>⟧.SIZE };

    #[inline]
    fn tell_costs() {
        tell_scalar_costs::<u32>();
    }
}

impl Inhabited for u64 {
    #[inline]
    fn tell_inhabited() {
        tell_scalar_inhabited::<u64>();
    }
}

impl Writable for u64 {
    #[inline]
    fn tell_writable() {
        tell_scalar_writable::<u64>();
    }
}

impl Plain for u64 {
    #[inline]
    fn tell_plain() {
        tell_scalar_plain::<u64>();
    }
}

impl Canonical for u64 {
    #[inline]
    fn tell_canonical() {
        tell_scalar_canonical::<u64>();
    }
}

impl Exact for u64 {
    #[inline]
    fn tell_exact() {
        tell_scalar_exact::<u64>();
    }
}

impl ConstantCharge for u64 {
    ghost cost = { ⟦<u64 as Scalar>⟧.SIZE };

    ghost peak = { ⟦<u64 as Scalar>⟧.SIZE };

    #[inline]
    fn tell_costs() {
        tell_scalar_costs::<u64>();
    }
}

impl Inhabited for u128 {
    #[inline]
    fn tell_inhabited() {
        tell_scalar_inhabited::<u128>();
    }
}

impl Writable for u128 {
    #[inline]
    fn tell_writable() {
        tell_scalar_writable::<u128>();
    }
}

impl Plain for u128 {
    #[inline]
    fn tell_plain() {
        tell_scalar_plain::<u128>();
    }
}

impl Canonical for u128 {
    #[inline]
    fn tell_canonical() {
        tell_scalar_canonical::<u128>();
    }
}

impl Exact for u128 {
    #[inline]
    fn tell_exact() {
        tell_scalar_exact::<u128>();
    }
}

impl ConstantCharge for u128 {
    ghost cost = { ⟦<u128 as Scalar>⟧.SIZE };

    ghost peak = { ⟦<u128 as Scalar>⟧.SIZE };

    #[inline]
    fn tell_costs() {
        tell_scalar_costs::<u128>();
    }
}

impl Inhabited for usize {
    #[inline]
    fn tell_inhabited() {
        tell_scalar_inhabited::<usize>();
    }
}

impl Writable for usize {
    #[inline]
    fn tell_writable() {
        tell_scalar_writable::<usize>();
    }
}

impl Plain for usize {
    #[inline]
    fn tell_plain() {
        tell_scalar_plain::<usize>();
    }
}

impl Canonical for usize {
    #[inline]
    fn tell_canonical() {
        tell_scalar_canonical::<usize>();
    }
}

impl Exact for usize {
    #[inline]
    fn tell_exact() {
        tell_scalar_exact::<usize>();
    }
}

impl ConstantCharge for usize {
    ghost cost = { ⟦<usize as Scalar>⟧.SIZE };

    ghost peak = { ⟦<usize as Scalar>⟧.SIZE };

    #[inline]
    fn tell_costs() {
        tell_scalar_costs::<usize>();
    }
}
