//! What collections without an order are written as.
ghost use Rattle.std.proofs.Common.{arith};
ghost use Rattle.bincode_spec.specs.Layers.Needs.{list_needs};
ghost use Rattle.bincode_lemmas.specs.NeedLaws.{list-needs};
ghost use Rattle.bincode_lemmas.specs.ChargedLaws.{list-charged};
ghost use Rattle.std.specs.List.{All};
ghost use Rattle.bincode_spec.specs.Collections.{AreValid, IsMadeOf, MakesBag};
ghost use Rattle.bincode_spec.specs.Words.{list};
ghost use Rattle.bincode_lemmas.specs.ListLaws.{list-lawful, list-balanced, list-has_word};
ghost use Rattle.bincode_lemmas.specs.BagLaws.{bag-has_word};

use crate::laws::{Canonical, Inhabited, Plain, Writable};
use crate::wire::Wire;

/// The items of a collection in any order: what a heap is written as. Ghost type, never constructed.
#[derive(Drop)]
pub struct Bag<T> {
    pub items: [T; 0],
}

impl<T: Wire> Wire for Bag<T> {
    ghost words = { record {
      format = λ s. list s T.words.claim (T.words.format s);
      valid = λ v. AreValid T.words.valid v.items;
      means = λ v. IsMadeOf MakesBag T.words.means v.items;
      decodes_to = λ m v. IsMadeOf MakesBag (λ x n. T.words.decodes_to n x) v.items m;
      writable = λ s v. All (T.words.writable s) v.items;
      own_errors = T.words.own_errors;
      may_allocate = Unit {0};
      claim = 24;
      need = λ s. list_needs s T.words.claim (T.words.format s) (T.words.need s);
      lawful = λ s. list-lawful s T.words.claim (T.words.format s) (T.words.lawful s);
      balanced = λ s. list-balanced s T.words.claim (T.words.format s) (T.words.balanced s);
      has_word = λ s v h w.
          let x = list-has_word T.words.means s T.words.claim (T.words.format s) T.words.valid (T.words.writable s)
          (T.words.has_word s) v.items h w in
          record {
            bytes = x.bytes;
            are_bytes = x.are_bytes;
            is_allowed = bag-has_word T.words.means s T.words.claim (T.words.format s) v.items x.bytes x.is_allowed;
          };
      errors_are_own = T.words.errors_are_own;
      claims = omega arith;
      needs = λ s. list-needs s T.words.claim (T.words.format s) (T.words.need s) (T.words.balanced s)
          (T.words.needs s);
      charges_enough = λ s. list-charged s T.words.claim (T.words.format s) T.words.claims (T.words.charges_enough s);
    } };

    fn claim_size() -> usize {
        24
    }
}

impl<T: Wire> Inhabited for Bag<T> {
    fn tell_inhabited() {}
}

impl<T: Writable> Writable for Bag<T> {
    fn tell_writable() {
        T::tell_writable();
    }
}

impl<T: Plain> Plain for Bag<T> {
    fn tell_plain() {
        T::tell_plain();
    }
}

impl<T: Canonical> Canonical for Bag<T> {
    fn tell_canonical() {
        T::tell_canonical();
    }
}
