//! `Wire` for cells.
ghost use Rattle.bincode_lemmas.specs.NeedLaws.{rewritten-needs};
ghost use Rattle.bincode_lemmas.specs.ChargedLaws.{rewritten-charged};
ghost use Rattle.std.specs.Prelude.{◌⊎◌};
ghost use Rattle.bincode_spec.specs.Format.{of_cell};
ghost use Rattle.bincode_spec.specs.Cells.{IsAny, IsBorrowed, IsHeld};
ghost use Rattle.bincode_lemmas.specs.CellLaws.{cell-lawful, cell-balanced, borrowed-named};
ghost use Rattle.bincode_lemmas.specs.TupleLaws.{either};

use crate::laws::{Inhabited, Writable};
use crate::wire::Wire;
use std::cell::{Cell, RefCell};

impl<T: Wire> Wire for Cell<T> {
    ghost words = { record {
      format = λ s. of_cell (T.words.format s);
      valid = λ v. Unit {0};
      means = λ v. IsAny;
      decodes_to = λ m v. IsAny m;
      writable = λ s v. IsHeld (T.words.format s) T.words.valid (T.words.writable s);
      own_errors = T.words.own_errors;
      may_allocate = T.words.may_allocate;
      claim = T.words.claim;
      need = T.words.need;
      lawful = λ s. cell-lawful (T.words.format s) (T.words.lawful s);
      balanced = λ s. cell-balanced (T.words.format s) (T.words.balanced s);
      has_word = λ s v h w. w.some_word;
      errors_are_own = T.words.errors_are_own;
      claims = T.words.claims;
      needs = λ s. rewritten-needs (T.words.need s) _ (T.words.format s) (T.words.needs s);
      charges_enough = λ s. rewritten-charged _ (T.words.format s) (T.words.charges_enough s);
    } };

    fn claim_size() -> usize {
        T::claim_size()
    }
}

impl<T: Inhabited> Inhabited for Cell<T> {
    fn tell_inhabited() {
        T::tell_inhabited();
    }
}

impl<T: Writable + Inhabited> Writable for Cell<T> {
    fn tell_writable() {
        T::tell_inhabited();
        T::tell_writable();
    }
}

impl<T: Wire> Wire for RefCell<T> {
    ghost words = { record {
      format = λ s. of_cell (T.words.format s);
      valid = λ v. Unit {0};
      means = λ v. IsAny;
      decodes_to = λ m v. IsAny m;
      writable = λ s v. IsHeld (T.words.format s) T.words.valid (T.words.writable s);
      own_errors = λ e. IsBorrowed e ⊎ T.words.own_errors e;
      may_allocate = T.words.may_allocate;
      claim = T.words.claim;
      need = T.words.need;
      lawful = λ s. cell-lawful (T.words.format s) (T.words.lawful s);
      balanced = λ s. cell-balanced (T.words.format s) (T.words.balanced s);
      has_word = λ s v h w. w.some_word;
      errors_are_own = λ e. either (borrowed-named e) (T.words.errors_are_own e);
      claims = T.words.claims;
      needs = λ s. rewritten-needs (T.words.need s) _ (T.words.format s) (T.words.needs s);
      charges_enough = λ s. rewritten-charged _ (T.words.format s) (T.words.charges_enough s);
    } };

    fn claim_size() -> usize {
        Cell::<T>::claim_size()
    }
}

impl<T: Inhabited> Inhabited for RefCell<T> {
    fn tell_inhabited() {
        T::tell_inhabited();
    }
}

impl<T: Writable + Inhabited> Writable for RefCell<T> {
    fn tell_writable() {
        T::tell_inhabited();
        T::tell_writable();
    }
}
