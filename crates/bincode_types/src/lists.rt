//! What lists are written as.
ghost use Rattle.std.proofs.Common.{arith};
ghost use Rattle.std.specs.Prelude.{max};
ghost use Rattle.bincode_spec.specs.Layers.Needs.{list_needs};
ghost use Rattle.bincode_lemmas.specs.NeedLaws.{list-needs};
ghost use Rattle.bincode_lemmas.specs.ChargedLaws.{list-charged};
ghost use Rattle.std.specs.List.{All};
ghost use Rattle.bincode_spec.specs.Words.{list};
ghost use Rattle.bincode_spec.specs.Run.{IsListOf};
ghost use Rattle.bincode_spec.specs.Collections.{AreValid};
ghost use Rattle.bincode_lemmas.specs.ListLaws.{list-lawful, list-balanced, list-has_word};
ghost use Rattle.bincode_types.specs.Memory.{Allocates};

use crate::laws::{Canonical, Exact, Inhabited, Plain, Writable};
use crate::wire::Wire;

/// The items of a list. A container claims `SIZE` bytes for the list; `ALLOCATES` says whether decoding allocates.
/// Ghost type, never constructed; in proofs `items` has any length.
#[derive(Drop, PartialEq)]
pub struct ListItems<T, const SIZE: usize, const ALLOCATES: bool> {
    pub items: [T; 0],
}

/// `ListItems` for a list whose decoding allocates.
pub type Items<T, const SIZE: usize> = ListItems<T, SIZE, true>;

impl<T: Wire, const SIZE: usize, const ALLOCATES: bool> Wire for ListItems<T, SIZE, ALLOCATES> {
    ghost words = { record {
      format = λ s. list s T.words.claim (T.words.format s);
      valid = λ v. AreValid T.words.valid v.items;
      means = λ v. IsListOf T.words.means v.items;
      decodes_to = λ m v. IsListOf (λ x n. T.words.decodes_to n x) v.items m;
      writable = λ s v. All (T.words.writable s) v.items;
      own_errors = T.words.own_errors;
      may_allocate = Allocates ALLOCATES;
      claim = max SIZE 1;
      need = λ s. list_needs s T.words.claim (T.words.format s) (T.words.need s);
      lawful = λ s. list-lawful s T.words.claim (T.words.format s) (T.words.lawful s);
      balanced = λ s. list-balanced s T.words.claim (T.words.format s) (T.words.balanced s);
      has_word = λ s v h w. list-has_word T.words.means s T.words.claim (T.words.format s) T.words.valid
          (T.words.writable s) (T.words.has_word s) v.items h w;
      errors_are_own = T.words.errors_are_own;
      claims = omega arith;
      needs = λ s. list-needs s T.words.claim (T.words.format s) (T.words.need s) (T.words.balanced s)
          (T.words.needs s);
      charges_enough = λ s. list-charged s T.words.claim (T.words.format s) T.words.claims (T.words.charges_enough s);
    } };

    fn claim_size() -> usize {
        SIZE.max(1)
    }
}

impl<T: Wire, const SIZE: usize, const ALLOCATES: bool> Inhabited
    for ListItems<T, SIZE, ALLOCATES> {
    fn tell_inhabited() {}
}

impl<T: Writable, const SIZE: usize, const ALLOCATES: bool> Writable
    for ListItems<T, SIZE, ALLOCATES> {
    fn tell_writable() {
        T::tell_writable();
    }
}

impl<T: Plain, const SIZE: usize, const ALLOCATES: bool> Plain for ListItems<T, SIZE, ALLOCATES> {
    fn tell_plain() {
        T::tell_plain();
    }
}

impl<T: Exact, const SIZE: usize, const ALLOCATES: bool> Exact for ListItems<T, SIZE, ALLOCATES> {
    fn tell_exact() {
        T::tell_exact();
    }
}

impl<T: Canonical, const SIZE: usize, const ALLOCATES: bool> Canonical
    for ListItems<T, SIZE, ALLOCATES> {
    fn tell_canonical() {
        T::tell_canonical();
    }
}
