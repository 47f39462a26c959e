//! What hashed sets and maps are written as: keys and entries in any order.
ghost use Rattle.std.proofs.Common.{arith};
ghost use Rattle.bincode_spec.specs.Layers.Needs.{list_needs};
ghost use Rattle.bincode_lemmas.specs.NeedLaws.{list-needs};
ghost use Rattle.bincode_lemmas.specs.ChargedLaws.{list-charged};
ghost use Rattle.std.specs.List.{All, IsDistinct};
ghost use Rattle.std.specs.Map.{keys_of};
ghost use Rattle.bincode_spec.specs.Collections.{AreValid, IsMadeOf, MakesBag};
ghost use Rattle.bincode_spec.specs.Hashed.{MakesHashedMap, MakesHashedSet};
ghost use Rattle.bincode_spec.specs.Words.{list};
ghost use Rattle.bincode_lemmas.specs.BagLaws.{bag-has_word};
ghost use Rattle.bincode_lemmas.specs.ListLaws.{list-lawful, list-balanced, list-has_word};
ghost use Rattle.bincode_lemmas.specs.TupleLaws.{either};
ghost use Rattle.bincode_lemmas.specs.PairLaws.{pair-lawful, pair-balanced, pair-has_word};

use crate::laws::{Canonical, Exact, Inhabited, Plain, Writable};
use crate::wire::Wire;

/// The keys of a set in any order, no two of them equal. Decoding keeps the first of equal keys. Ghost type, never
/// constructed.
#[derive(Drop)]
pub struct HashedKeys<K> {
    pub keys: [K; 0],
}

impl<K: Wire + Eq> Wire for HashedKeys<K> {
    ghost words = { record {
      format = λ s. list s K.words.claim (K.words.format s);
      valid = λ v. AreValid K.words.valid v.keys × IsDistinct K.eq v.keys;
      means = λ v. IsMadeOf MakesBag K.words.means v.keys;
      decodes_to = λ m v. IsMadeOf (MakesHashedSet K.eq) (λ x n. K.words.decodes_to n x) v.keys m;
      writable = λ s v. All (K.words.writable s) v.keys;
      own_errors = K.words.own_errors;
      may_allocate = Unit {0};
      claim = 24;
      need = λ s. list_needs s K.words.claim (K.words.format s) (K.words.need s);
      lawful = λ s. list-lawful s K.words.claim (K.words.format s) (K.words.lawful s);
      balanced = λ s. list-balanced s K.words.claim (K.words.format s) (K.words.balanced s);
      has_word = λ s v h w.
          let x = list-has_word K.words.means s K.words.claim (K.words.format s) K.words.valid (K.words.writable s)
          (K.words.has_word s) v.keys h.0 w in
          record {
            bytes = x.bytes;
            are_bytes = x.are_bytes;
            is_allowed = bag-has_word K.words.means s K.words.claim (K.words.format s) v.keys x.bytes x.is_allowed;
          };
      errors_are_own = K.words.errors_are_own;
      claims = omega arith;
      needs = λ s. list-needs s K.words.claim (K.words.format s) (K.words.need s) (K.words.balanced s)
          (K.words.needs s);
      charges_enough = λ s. list-charged s K.words.claim (K.words.format s) K.words.claims (K.words.charges_enough s);
    } };

    fn claim_size() -> usize {
        24
    }
}

impl<K: Wire + Eq> Inhabited for HashedKeys<K> {
    fn tell_inhabited() {}
}

impl<K: Writable + Eq> Writable for HashedKeys<K> {
    fn tell_writable() {
        K::tell_writable();
    }
}

impl<K: Exact + Eq> Plain for HashedKeys<K> {
    fn tell_plain() {
        K::tell_plain();
    }
}

impl<K: Exact + Canonical + Eq> Canonical for HashedKeys<K> {
    fn tell_canonical() {
        K::tell_exact();
        K::tell_canonical();
    }
}

/// The entries of a map in any order, no two of equal keys. Decoding keeps the first key and the last value of entries
/// with equal keys. Ghost type, never constructed.
#[derive(Drop)]
pub struct HashedEntries<K, V> {
    pub entries: [(K, V); 0],
}

impl<K: Wire + Eq, V: Wire> Wire for HashedEntries<K, V> {
    ghost words = { record {
      format = λ s. list s ⟦<(K, V) as Wire>⟧.words.claim (⟦<(K, V) as Wire>⟧.words.format s);
      valid = λ v. AreValid ⟦<(K, V) as Wire>⟧.words.valid v.entries × IsDistinct K.eq (keys_of v.entries);
      means = λ v. IsMadeOf MakesBag ⟦<(K, V) as Wire>⟧.words.means v.entries;
      decodes_to = λ m v. IsMadeOf (MakesHashedMap K.eq) (λ x n. ⟦<(K, V) as Wire>⟧.words.decodes_to n x) v.entries m;
      writable = λ s v. All (⟦<(K, V) as Wire>⟧.words.writable s) v.entries;
      own_errors = ⟦<(K, V) as Wire>⟧.words.own_errors;
      may_allocate = Unit {0};
      claim = 24;
      need = λ s. list_needs s ⟦<(K, V) as Wire>⟧.words.claim (⟦<(K, V) as Wire>⟧.words.format s)
          (⟦<(K, V) as Wire>⟧.words.need s);
      lawful = λ s. list-lawful s ⟦<(K, V) as Wire>⟧.words.claim (⟦<(K, V) as Wire>⟧.words.format s)
          (pair-lawful s (K.words.lawful s) (V.words.lawful s));
      balanced = λ s. list-balanced s ⟦<(K, V) as Wire>⟧.words.claim (⟦<(K, V) as Wire>⟧.words.format s)
          (pair-balanced s (K.words.balanced s) (V.words.balanced s));
      has_word = λ s v h w.
          let x = list-has_word ⟦<(K, V) as Wire>⟧.words.means s ⟦<(K, V) as Wire>⟧.words.claim
          (⟦<(K, V) as Wire>⟧.words.format s) ⟦<(K, V) as Wire>⟧.words.valid (⟦<(K, V) as Wire>⟧.words.writable s)
          (λ e a u. pair-has_word s (K.words.has_word s e.0 a.0 u.0) (V.words.has_word s e.1 a.1.0 u.1.0)) v.entries h.0
          w in
          record {
            bytes = x.bytes;
            are_bytes = x.are_bytes;
            is_allowed = bag-has_word ⟦<(K, V) as Wire>⟧.words.means s ⟦<(K, V) as Wire>⟧.words.claim
                (⟦<(K, V) as Wire>⟧.words.format s) v.entries x.bytes x.is_allowed;
          };
      errors_are_own = λ e. either (K.words.errors_are_own e) (either (V.words.errors_are_own e) (λ h. absurd h));
      claims = omega arith;
      needs = λ s. list-needs s ⟦<(K, V) as Wire>⟧.words.claim (⟦<(K, V) as Wire>⟧.words.format s)
          (⟦<(K, V) as Wire>⟧.words.need s) (⟦<(K, V) as Wire>⟧.words.balanced s)
          (⟦<(K, V) as Wire>⟧.words.needs s);
      charges_enough = λ s. list-charged s ⟦<(K, V) as Wire>⟧.words.claim (⟦<(K, V) as Wire>⟧.words.format s)
          ⟦<(K, V) as Wire>⟧.words.claims (⟦<(K, V) as Wire>⟧.words.charges_enough s);
    } };

    fn claim_size() -> usize {
        24
    }
}

impl<K: Wire + Eq, V: Wire> Inhabited for HashedEntries<K, V> {
    fn tell_inhabited() {}
}

impl<K: Writable + Eq, V: Writable> Writable for HashedEntries<K, V> {
    fn tell_writable() {
        K::tell_writable();
        V::tell_writable();
    }
}

impl<K: Exact + Eq, V: Plain> Plain for HashedEntries<K, V> {
    fn tell_plain() {
        K::tell_plain();
        V::tell_plain();
    }
}

impl<K: Exact + Canonical + Eq, V: Canonical> Canonical for HashedEntries<K, V> {
    fn tell_canonical() {
        K::tell_exact();
        K::tell_canonical();
        V::tell_canonical();
    }
}
