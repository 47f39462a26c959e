//! `Wire` for wrappers, pointers and references.
ghost use Rattle.std.proofs.Common.{arith};
ghost use Rattle.std.specs.Prelude.{refl};
ghost use Rattle.std.specs.Cow.{cow_value};
ghost use Rattle.std.specs.Arc.{arc_value};

use crate::by_parts::{ByParts, SameParts};
use crate::laws::{Canonical, ConstantCharge, Exact, Inhabited, Plain, Writable};
use crate::scalars::Scalar;
use crate::wire::Wire;
use std::borrow::Cow;
use std::cmp::Reverse;
use std::marker::PhantomData;
use std::num::Wrapping;
use std::rc::Rc;
use std::sync::Arc;

impl<T> ByParts for Wrapping<T> {
    type Parts = T;

    ghost parts = { λ v. v.0 };
}

impl<T: Exact> SameParts<T> for Wrapping<T> {
    ghost same_parts = { λ v w. refl };
}

impl<T> ByParts for Reverse<T> {
    type Parts = T;

    ghost parts = { λ v. v.0 };
}

impl<T: Exact> SameParts<T> for Reverse<T> {
    ghost same_parts = { λ v w. refl };
}

impl<T> ByParts for PhantomData<T> {
    type Parts = ();

    ghost parts = { λ v. tt };
}

impl<T> SameParts<()> for PhantomData<T> {
    ghost use Rattle.std.specs.Prelude.{refl};

    ghost same_parts = { λ v w. refl };
}

/// The target of a pointer, of which a container claims the pointer alone. Ghost type, never constructed.
#[derive(Drop, PartialEq)]
pub struct PointerTo<T> {
    pub to: T,
}

impl<T: Wire> Wire for PointerTo<T> {
    ghost words = { record {
      format = T.words.format;
      valid = λ v. T.words.valid v.to;
      means = λ v. T.words.means v.to;
      decodes_to = λ m v. T.words.decodes_to m v.to;
      writable = λ s v. T.words.writable s v.to;
      own_errors = T.words.own_errors;
      may_allocate = Unit {0};
      claim = 8;
      need = T.words.need;
      lawful = T.words.lawful;
      balanced = T.words.balanced;
      has_word = λ s v. T.words.has_word s v.to;
      errors_are_own = T.words.errors_are_own;
      claims = omega arith;
      needs = T.words.needs;
      charges_enough = T.words.charges_enough;
    } };

    fn claim_size() -> usize {
        8
    }
}

impl<T: Inhabited> Inhabited for PointerTo<T> {
    fn tell_inhabited() {
        T::tell_inhabited();
    }
}

impl<T: Writable> Writable for PointerTo<T> {
    fn tell_writable() {
        T::tell_writable();
    }
}

impl<T: Plain> Plain for PointerTo<T> {
    fn tell_plain() {
        T::tell_plain();
    }
}

impl<T: Exact> Exact for PointerTo<T> {
    fn tell_exact() {
        T::tell_exact();
    }
}

impl<T: Canonical> Canonical for PointerTo<T> {
    fn tell_canonical() {
        T::tell_canonical();
    }
}

impl<T: ConstantCharge> ConstantCharge for PointerTo<T> {
    ghost cost = { T.cost };

    ghost peak = { T.peak };

    fn tell_costs() {
        T::tell_costs();
    }
}

impl<T> ByParts for &T {
    type Parts = PointerTo<T>;

    ghost parts = { λ v. record { to = v.now } };
}

impl<T: Exact> SameParts<PointerTo<T>> for &T {
    ghost same_parts = { λ v w. refl };
}

impl<T> ByParts for Box<T> {
    type Parts = PointerTo<T>;

    ghost parts = { λ v. record { to = v.value } };
}

impl<T: Exact> SameParts<PointerTo<T>> for Box<T> {
    ghost same_parts = { λ v w. refl };
}

impl<T> ByParts for Rc<T> {
    type Parts = PointerTo<T>;

    ghost parts = { λ v. record { to = v.value } };
}

impl<T: Exact> SameParts<PointerTo<T>> for Rc<T> {
    ghost same_parts = { λ v w. refl };
}

impl<T> ByParts for Arc<T> {
    type Parts = PointerTo<T>;

    ghost parts = { λ v. record { to = arc_value v } };
}

impl<T: Exact> SameParts<PointerTo<T>> for Arc<T> {
    ghost same_parts = { λ v w. refl };
}

impl<T: Scalar + Clone> ByParts for Cow<'_, T> {
    type Parts = T;

    ghost parts = { λ v. cow_value v };
}

impl<T: Scalar + Exact + Clone> SameParts<T> for Cow<'_, T> {
    ghost same_parts = { λ v w. refl };
}
