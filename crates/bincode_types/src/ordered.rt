//! What ordered sets and maps are written as: keys and entries in order.
ghost use Rattle.std.proofs.Common.{arith};
ghost use Rattle.bincode_spec.specs.Layers.Needs.{list_needs};
ghost use Rattle.bincode_lemmas.specs.NeedLaws.{list-needs};
ghost use Rattle.bincode_lemmas.specs.ChargedLaws.{list-charged};
ghost use Rattle.std.specs.List.{All};
ghost use Rattle.std.specs.List.Sorted.{IsStrictlySortedBy};
ghost use Rattle.std.specs.Map.{keys_of};
ghost use Rattle.bincode_spec.specs.Collections.{AreValid, IsMadeOf, MakesSet, MakesMap};
ghost use Rattle.bincode_spec.specs.Run.{IsListOf};
ghost use Rattle.bincode_spec.specs.Words.{list};
ghost use Rattle.bincode_lemmas.specs.ListLaws.{list-lawful, list-balanced, list-has_word};
ghost use Rattle.bincode_lemmas.specs.TupleLaws.{either};
ghost use Rattle.bincode_lemmas.specs.PairLaws.{pair-lawful, pair-balanced, pair-has_word};

use crate::laws::{Canonical, Exact, Inhabited, Plain, Writable};
use crate::wire::Wire;

/// The keys of a set, each below the next. Decoding keeps the first of equal keys. Ghost type, never constructed.
#[derive(Drop, PartialEq)]
pub struct Keys<K> {
    pub keys: [K; 0],
}

impl<K: Wire + Ord> Wire for Keys<K> {
    ghost words = { record {
      format = λ s. list s K.words.claim (K.words.format s);
      valid = λ v. AreValid K.words.valid v.keys × IsStrictlySortedBy K.cmp v.keys;
      means = λ v. IsListOf K.words.means v.keys;
      decodes_to = λ m v. IsMadeOf (MakesSet K.cmp) (λ x n. K.words.decodes_to n x) v.keys m;
      writable = λ s v. All (K.words.writable s) v.keys;
      own_errors = K.words.own_errors;
      may_allocate = Unit {0};
      claim = 24;
      need = λ s. list_needs s K.words.claim (K.words.format s) (K.words.need s);
      lawful = λ s. list-lawful s K.words.claim (K.words.format s) (K.words.lawful s);
      balanced = λ s. list-balanced s K.words.claim (K.words.format s) (K.words.balanced s);
      has_word = λ s v h. list-has_word K.words.means s K.words.claim (K.words.format s) K.words.valid
          (K.words.writable s) (K.words.has_word s) v.keys h.0;
      errors_are_own = K.words.errors_are_own;
      claims = omega arith;
      needs = λ s. list-needs s K.words.claim (K.words.format s) (K.words.need s) (K.words.balanced s)
          (K.words.needs s);
      charges_enough = λ s. list-charged s K.words.claim (K.words.format s) K.words.claims (K.words.charges_enough s);
    } };

    fn claim_size() -> usize {
        24
    }
}

impl<K: Wire + Ord> Inhabited for Keys<K> {
    fn tell_inhabited() {}
}

impl<K: Writable + Ord> Writable for Keys<K> {
    fn tell_writable() {
        K::tell_writable();
    }
}

impl<K: Exact + Ord> Plain for Keys<K> {
    fn tell_plain() {
        K::tell_plain();
    }
}

impl<K: Exact + Ord> Exact for Keys<K> {
    fn tell_exact() {
        K::tell_exact();
    }
}

impl<K: Exact + Canonical + Ord> Canonical for Keys<K> {
    fn tell_canonical() {
        K::tell_exact();
        K::tell_canonical();
    }
}

/// The entries of a map, each key below the next. Decoding keeps the first key and the last value of entries with equal
/// keys. Ghost type, never constructed.
#[derive(Drop, PartialEq)]
pub struct Entries<K, V> {
    pub entries: [(K, V); 0],
}

impl<K: Wire + Ord, V: Wire> Wire for Entries<K, V> {
    ghost words = { record {
      format = λ s. list s ⟦<(K, V) as Wire>⟧.words.claim (⟦<(K, V) as Wire>⟧.words.format s);
      valid = λ v. AreValid ⟦<(K, V) as Wire>⟧.words.valid v.entries
          × IsStrictlySortedBy K.cmp (keys_of v.entries);
      means = λ v. IsListOf ⟦<(K, V) as Wire>⟧.words.means v.entries;
      decodes_to = λ m v. IsMadeOf (MakesMap K.cmp) (λ x n. ⟦<(K, V) as Wire>⟧.words.decodes_to n x) v.entries m;
      writable = λ s v. All (⟦<(K, V) as Wire>⟧.words.writable s) v.entries;
      own_errors = ⟦<(K, V) as Wire>⟧.words.own_errors;
      may_allocate = Unit {0};
      claim = 24;
      need = λ s. list_needs s ⟦<(K, V) as Wire>⟧.words.claim (⟦<(K, V) as Wire>⟧.words.format s)
          (⟦<(K, V) as Wire>⟧.words.need s);
      lawful = λ s. list-lawful s ⟦<(K, V) as Wire>⟧.words.claim (⟦<(K, V) as Wire>⟧.words.format s)
          (pair-lawful s (K.words.lawful s) (V.words.lawful s));
      balanced = λ s. list-balanced s ⟦<(K, V) as Wire>⟧.words.claim (⟦<(K, V) as Wire>⟧.words.format s)
          (pair-balanced s (K.words.balanced s) (V.words.balanced s));
      has_word = λ s v h. list-has_word ⟦<(K, V) as Wire>⟧.words.means s ⟦<(K, V) as Wire>⟧.words.claim
          (⟦<(K, V) as Wire>⟧.words.format s) ⟦<(K, V) as Wire>⟧.words.valid (⟦<(K, V) as Wire>⟧.words.writable s)
          (λ e a w. pair-has_word s (K.words.has_word s e.0 a.0 w.0) (V.words.has_word s e.1 a.1.0 w.1.0)) v.entries
          h.0;
      errors_are_own = λ e. either (K.words.errors_are_own e) (either (V.words.errors_are_own e) (λ h. absurd h));
      claims = omega arith;
      needs = λ s. list-needs s ⟦<(K, V) as Wire>⟧.words.claim (⟦<(K, V) as Wire>⟧.words.format s)
          (⟦<(K, V) as Wire>⟧.words.need s) (⟦<(K, V) as Wire>⟧.words.balanced s)
          (⟦<(K, V) as Wire>⟧.words.needs s);
      charges_enough = λ s. list-charged s ⟦<(K, V) as Wire>⟧.words.claim (⟦<(K, V) as Wire>⟧.words.format s)
          ⟦<(K, V) as Wire>⟧.words.claims (⟦<(K, V) as Wire>⟧.words.charges_enough s);
    } };

    fn claim_size() -> usize {
        24
    }
}

impl<K: Wire + Ord, V: Wire> Inhabited for Entries<K, V> {
    fn tell_inhabited() {}
}

impl<K: Writable + Ord, V: Writable> Writable for Entries<K, V> {
    fn tell_writable() {
        K::tell_writable();
        V::tell_writable();
    }
}

impl<K: Exact + Ord, V: Plain> Plain for Entries<K, V> {
    fn tell_plain() {
        K::tell_plain();
        V::tell_plain();
    }
}

impl<K: Exact + Ord, V: Exact> Exact for Entries<K, V> {
    fn tell_exact() {
        K::tell_exact();
        V::tell_exact();
    }
}

impl<K: Exact + Canonical + Ord, V: Canonical> Canonical for Entries<K, V> {
    fn tell_canonical() {
        K::tell_exact();
        K::tell_canonical();
        V::tell_canonical();
    }
}
