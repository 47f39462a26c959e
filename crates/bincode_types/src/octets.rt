//! Octets: the bytes of addresses.
ghost use Rattle.std.proofs.Common.{arith};
ghost use Rattle.std.specs.Prelude.{max};
ghost use Rattle.bincode_lemmas.specs.NeedLaws.{octets-needs};
ghost use Rattle.bincode_lemmas.specs.ChargedLaws.{octets-charged};
ghost use Rattle.std.specs.Prelude.{◌≡◌, ◌<◌, length};
ghost use Rattle.std.specs.List.{All};
ghost use Rattle.bincode_spec.specs.Meaning.{IsBytes};
ghost use Rattle.bincode_spec.specs.Octets.{octets};
ghost use Rattle.bincode_lemmas.specs.OctetLaws.{octets-lawful, octets-balanced, octets-has_word};

use crate::laws::{Canonical, ConstantCharge, Exact, Inhabited, Plain, Writable};
use crate::wire::Wire;

/// The `N` bytes of an address, the highest first in every setting.
#[derive(Drop, PartialEq)]
pub struct Octets<const N: usize> {
    pub octets: [u8; N],
}

impl<const N: usize> Wire for Octets<N> {
    ghost words = { record {
      format = λ s. octets N;
      valid = λ v. (length v.octets ≡ N) × All (λ b. b < 256) v.octets;
      means = λ v. IsBytes v.octets;
      decodes_to = λ m v. IsBytes v.octets m;
      writable = λ s v. Unit {0};
      own_errors = λ e. ⊥;
      may_allocate = ⊥;
      claim = max N 1;
      need = λ s input. N;
      lawful = λ s. octets-lawful N;
      balanced = λ s. octets-balanced N;
      has_word = λ s v h w. octets-has_word N v.octets h.0 h.1;
      errors_are_own = λ e h. absurd h;
      claims = omega arith;
      needs = λ s. octets-needs N;
      charges_enough = λ s. octets-charged N;
    } };

    fn claim_size() -> usize {
        N.max(1)
    }
}

impl<const N: usize> Inhabited for Octets<N> {
    fn tell_inhabited() {}
}

impl<const N: usize> Writable for Octets<N> {
    fn tell_writable() {}
}

impl<const N: usize> Plain for Octets<N> {
    fn tell_plain() {}
}

impl<const N: usize> Exact for Octets<N> {
    fn tell_exact() {}
}

impl<const N: usize> Canonical for Octets<N> {
    fn tell_canonical() {}
}

impl<const N: usize> ConstantCharge for Octets<N> {
    ghost cost = { N };

    ghost peak = { N };

    fn tell_costs() {}
}
