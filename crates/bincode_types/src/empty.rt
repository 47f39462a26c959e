//! What enums without variants are written as.
ghost use Rattle.std.proofs.Common.{arith};
ghost use Rattle.bincode_spec.specs.Fault.{EmptyEnum};
ghost use Rattle.bincode_spec.specs.Format.{fail};
ghost use Rattle.bincode_lemmas.specs.FormatLaws.{fail-lawful};
ghost use Rattle.bincode_lemmas.specs.Balance.{fail-holds};
ghost use Rattle.bincode_lemmas.specs.NeedLaws.{fail-needs};
ghost use Rattle.bincode_lemmas.specs.ChargedLaws.{fail-charged};

use crate::laws::{Canonical, Plain, Writable};
use crate::wire::Wire;
use std::convert::Infallible;
use std::marker::PhantomData;

/// What the enum `Of` without variants is written as. It has no values; decoding any input fails with `EmptyEnum`.
#[derive(Drop)]
pub struct NoVariants<Of>(Infallible, PhantomData<Of>);

impl<Of> Wire for NoVariants<Of> {
    ghost words = { record {
      format = λ s. fail EmptyEnum;
      valid = λ v. ⊥;
      means = λ v m. ⊥;
      decodes_to = λ m v. ⊥;
      writable = λ s v. ⊥;
      own_errors = λ e. ⊥;
      may_allocate = ⊥;
      claim = 1;
      need = λ s input. 0;
      lawful = λ s. fail-lawful EmptyEnum (λ h. h);
      balanced = λ s. fail-holds 0 0 EmptyEnum;
      has_word = λ s v h w. absurd h;
      errors_are_own = λ e h. absurd h;
      claims = omega arith;
      needs = λ s. fail-needs EmptyEnum;
      charges_enough = λ s. fail-charged EmptyEnum;
    } };

    fn claim_size() -> usize {
        1
    }
}

impl<Of> Writable for NoVariants<Of> {
    fn tell_writable() {}
}

impl<Of> Plain for NoVariants<Of> {
    fn tell_plain() {}
}

impl<Of> Canonical for NoVariants<Of> {
    fn tell_canonical() {}
}
