//! Laws of `bool`, `char` and `()`.

use crate::laws::{Canonical, ConstantCharge, Exact, Inhabited, Plain, Writable};
use crate::scalars::{
    Scalar, tell_scalar_canonical, tell_scalar_costs, tell_scalar_exact, tell_scalar_inhabited,
    tell_scalar_plain, tell_scalar_writable,
};

impl Inhabited for () {
    #[inline]
    fn tell_inhabited() {
        tell_scalar_inhabited::<()>();
    }
}

impl Writable for () {
    #[inline]
    fn tell_writable() {
        tell_scalar_writable::<()>();
    }
}

impl Plain for () {
    #[inline]
    fn tell_plain() {
        tell_scalar_plain::<()>();
    }
}

impl Canonical for () {
    #[inline]
    fn tell_canonical() {
        tell_scalar_canonical::<()>();
    }
}

impl Exact for () {
    #[inline]
    fn tell_exact() {
        tell_scalar_exact::<()>();
    }
}

impl ConstantCharge for () {
    ghost cost = { ⟦<() as Scalar>⟧.SIZE };

    ghost peak = { ⟦<() as Scalar>⟧.SIZE };

    #[inline]
    fn tell_costs() {
        tell_scalar_costs::<()>();
    }
}

impl Inhabited for bool {
    #[inline]
    fn tell_inhabited() {
        tell_scalar_inhabited::<bool>();
    }
}

impl Writable for bool {
    #[inline]
    fn tell_writable() {
        tell_scalar_writable::<bool>();
    }
}

impl Plain for bool {
    #[inline]
    fn tell_plain() {
        tell_scalar_plain::<bool>();
    }
}

impl Canonical for bool {
    #[inline]
    fn tell_canonical() {
        tell_scalar_canonical::<bool>();
    }
}

impl Exact for bool {
    #[inline]
    fn tell_exact() {
        tell_scalar_exact::<bool>();
    }
}

impl ConstantCharge for bool {
    ghost cost = { ⟦<bool as Scalar>⟧.SIZE };

    ghost peak = { ⟦<bool as Scalar>⟧.SIZE };

    #[inline]
    fn tell_costs() {
        tell_scalar_costs::<bool>();
    }
}

impl Inhabited for char {
    #[inline]
    fn tell_inhabited() {
        tell_scalar_inhabited::<char>();
    }
}

impl Writable for char {
    #[inline]
    fn tell_writable() {
        tell_scalar_writable::<char>();
    }
}

impl Plain for char {
    #[inline]
    fn tell_plain() {
        tell_scalar_plain::<char>();
    }
}

impl Canonical for char {
    #[inline]
    fn tell_canonical() {
        tell_scalar_canonical::<char>();
    }
}

impl Exact for char {
    #[inline]
    fn tell_exact() {
        tell_scalar_exact::<char>();
    }
}
