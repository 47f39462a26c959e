//! `Wire` for arrays.
ghost use Rattle.std.proofs.Common.{arith};
ghost use Rattle.bincode_spec.specs.Layers.Needs.{array_needs};
ghost use Rattle.bincode_lemmas.specs.NeedLaws.{array-needs};
ghost use Rattle.bincode_lemmas.specs.ChargedLaws.{array-charged};
ghost use Rattle.std.specs.Prelude.{◌≡◌, ◌*◌, ◌-◌, ◌^◌, ◌⊎◌, min, max, length};
ghost use Rattle.std.specs.List.{All};
ghost use Rattle.bincode_base.specs.Slots.{SlotsFit};
ghost use Rattle.bincode_spec.specs.Words.{array};
ghost use Rattle.bincode_lemmas.specs.WordsLaws.{array-lawful, array-balanced};
ghost use Rattle.bincode_spec.specs.Run.{IsListOf};
ghost use Rattle.bincode_lemmas.specs.RunAllowedLaws.{array-allows, each-has_word};

use crate::laws::{Canonical, ConstantCharge, Exact, Inhabited, Plain, Writable};
use crate::wire::Wire;

// Decoding fails with `Memory` if the slots that it fills cannot exist, though the array itself could.
impl<T: Wire, const N: usize> Wire for [T; N] {
    ghost words = { record {
      format = λ s. array N T.words.claim (T.words.format s);
      valid = λ v. (length v ≡ N) × All T.words.valid v;
      means = λ v. IsListOf T.words.means v;
      decodes_to = λ m v. IsListOf (λ x n. T.words.decodes_to n x) v m;
      writable = λ s v. All (T.words.writable s) v;
      own_errors = T.words.own_errors;
      may_allocate = T.words.may_allocate ⊎ ¬ (SlotsFit T.row N);
      claim = max (min (N * T.words.claim) (2 ^ 64 - 1)) 1;
      need = λ s. array_needs N T.words.claim (T.words.format s) (T.words.need s);
      lawful = λ s. array-lawful N T.words.claim (T.words.format s) (T.words.lawful s);
      balanced = λ s. array-balanced N T.words.claim (T.words.format s) (T.words.balanced s);
      has_word = λ s v h w.
          let x = each-has_word _ T.words.valid (T.words.writable s) v (T.words.has_word s) h.1 w in
          record {
            bytes = x.bytes;
            are_bytes = x.are_bytes;
            is_allowed = array-allows T.words.means T.words.claim
                (T.words.format s) N v x.bytes h.0 x.is_allowed;
          };
      errors_are_own = T.words.errors_are_own;
      claims = omega arith;
      needs = λ s. array-needs N T.words.claim (T.words.format s) (T.words.need s) (T.words.balanced s)
          (T.words.needs s);
      charges_enough = λ s. array-charged N T.words.claim (T.words.format s) T.words.claims (T.words.charges_enough s);
    } };

    fn claim_size() -> usize {
        N.saturating_mul(T::claim_size()).max(1)
    }
}

impl<T: Inhabited, const N: usize> Inhabited for [T; N] {
    fn tell_inhabited() {
        T::tell_inhabited();
    }
}

impl<T: Writable, const N: usize> Writable for [T; N] {
    fn tell_writable() {
        T::tell_writable();
    }
}

impl<T: Plain, const N: usize> Plain for [T; N] {
    fn tell_plain() {
        T::tell_plain();
    }
}

impl<T: Exact, const N: usize> Exact for [T; N] {
    fn tell_exact() {
        T::tell_exact();
    }
}

impl<T: Canonical, const N: usize> Canonical for [T; N] {
    fn tell_canonical() {
        T::tell_canonical();
    }
}

impl<T: ConstantCharge, const N: usize> ConstantCharge for [T; N] {
    ghost cost = { N * T.cost };

    ghost peak = { N * max T.words.claim T.peak };

    fn tell_costs() {
        T::tell_costs();
    }
}
