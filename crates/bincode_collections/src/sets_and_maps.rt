//! Decoding of length-prefixed sets and maps.
ghost use Rattle.std.specs.Prelude.{ℕ, ◌≡◌, ◌<◌, ◌≤◌, ◌*◌, ◌++◌, ◌∷◌, List, [], IfOk, MatchResult};
ghost use Rattle.std.specs.HashMap.{spare};
ghost use Rattle.std.specs.HashSet.{spare as set_spare};
ghost use Rattle.bincode_base.specs.declared.error.DecodeError.TheVariants.{Memory};
ghost use Rattle.bincode_spec.specs.Collections.{IsMadeOf, Makes, MakesMap, MakesSet};
ghost use Rattle.bincode_spec.specs.Hashed.{MakesHashedMap, MakesHashedSet};
ghost use Rattle.bincode_spec.specs.Layers.Releases.{CanRelease};
ghost use Rattle.bincode_spec.specs.Layers.Values.{Reads, RunRead};
ghost use Rattle.bincode_spec.specs.Words.{array, list};
ghost use Rattle.bincode_decoder.specs.Memory.{RefusedForSome};

use crate::runs::decode_next;
use crate::values::ReadValues;
use bincode_base::error::DecodeError;
use bincode_decoder::decoder::{ClaimContainer, Decoder};
use bincode_decoder::lengths::decode_length;
use bincode_types::wire::Wire;
use std::alloc::Global;
use std::collections::{BTreeMap, BTreeSet, HashMap, HashSet};
use std::hash::{BuildHasher, Hash};

/// A set or a map that is filled item by item: with keys, or with entries.
pub trait InsertAll: Drop + Sized {
    /// The type of the items.
    type Item: Wire;

    /// What the collection holds.
    ghost held_items: { Self → List Self.Item };

    /// What the collection holds after these items were inserted into an empty one, in order.
    ghost makes: { Makes Self.Item };

    /// There is room for this many items more, if it reserves any.
    ghost has_room: { Self → ℕ → Type 0 };

    /// An empty collection, with room for `len` items if it reserves any. Fails with `Memory` if the allocation is
    /// refused; never so for none.
    fn start(alloc: Global, len: usize) -> Result<Self, DecodeError>
        ensures begun { MatchResult result (λ v. makes [] (held_items v)) (λ e. (0 < len) × (e ≡ Memory)) }
        ensures room { IfOk result (λ v. has_room v len) };

    /// Inserts an item. Fails with `Memory` if an allocation is refused.
    fn put(&mut self, item: Self::Item) -> Result<(), DecodeError>
        ensures { MatchResult result
            (λ _. (items : List _) → makes items (held_items self.old) → makes (items ++ item ∷ [])
            (held_items self.new)) (λ e. e ≡ Memory) };
}

impl<K: Wire + Ord + Drop> InsertAll for BTreeSet<K> {
    type Item = K;

    ghost held_items = { λ v. v.keys };

    ghost makes = { MakesSet K.cmp };

    ghost has_room = { λ v len. Unit {0} };

    #[inline(always)]
    fn start(alloc: Global, _len: usize) -> Result<BTreeSet<K>, DecodeError> {
        Ok(BTreeSet::new(alloc))
    }

    #[inline(always)]
    fn put(&mut self, item: K) -> Result<(), DecodeError> {
        let Ok(_) = self.insert(item) else {
            return Err(DecodeError::Memory);
        };
        Ok(())
    }
}

impl<K: Wire + Ord + Drop, V: Wire + Drop> InsertAll for BTreeMap<K, V> {
    type Item = (K, V);

    ghost held_items = { λ v. v.entries };

    ghost makes = { MakesMap K.cmp };

    ghost has_room = { λ v len. Unit {0} };

    #[inline(always)]
    fn start(alloc: Global, _len: usize) -> Result<BTreeMap<K, V>, DecodeError> {
        Ok(BTreeMap::new(alloc))
    }

    #[inline(always)]
    fn put(&mut self, item: (K, V)) -> Result<(), DecodeError> {
        let (key, value) = item;
        let Ok(_) = self.insert(key, value) else {
            return Err(DecodeError::Memory);
        };
        Ok(())
    }
}

impl<K: Wire + Eq + Hash + Drop, S: BuildHasher + Default + Drop> InsertAll for HashSet<K, S> {
    type Item = K;

    ghost held_items = { λ v. v.keys };

    ghost makes = { MakesHashedSet K.eq };

    ghost has_room = { λ v len. len ≤ set_spare v };

    #[inline(always)]
    fn start(alloc: Global, len: usize) -> Result<HashSet<K, S>, DecodeError> {
        if len == 0 {
            return Ok(HashSet::with_hasher(alloc, S::default()));
        }
        let Ok(started) = HashSet::with_capacity_and_hasher(alloc, len, S::default()) else {
            return Err(DecodeError::Memory);
        };
        Ok(started)
    }

    #[inline(always)]
    fn put(&mut self, item: K) -> Result<(), DecodeError> {
        let Ok(_) = self.insert(item) else {
            return Err(DecodeError::Memory);
        };
        Ok(())
    }
}

impl<K: Wire + Eq + Hash + Drop, V: Wire + Drop, S: BuildHasher + Default + Drop> InsertAll
    for HashMap<K, V, S> {
    type Item = (K, V);

    ghost held_items = { λ v. v.entries };

    ghost makes = { MakesHashedMap K.eq };

    ghost has_room = { λ v len. len ≤ spare v };

    #[inline(always)]
    fn start(alloc: Global, len: usize) -> Result<HashMap<K, V, S>, DecodeError> {
        if len == 0 {
            return Ok(HashMap::with_hasher(alloc, S::default()));
        }
        let Ok(started) = HashMap::with_capacity_and_hasher(alloc, len, S::default()) else {
            return Err(DecodeError::Memory);
        };
        Ok(started)
    }

    #[inline(always)]
    fn put(&mut self, item: (K, V)) -> Result<(), DecodeError> {
        let (key, value) = item;
        match self.insert(key, value) {
            Ok(_) => Ok(()),
            Err(_) => Err(DecodeError::Memory),
        }
    }
}

/// Decodes `len` items and inserts each. `claim_container_read` must have reserved their claims; each is released
/// before its item is read. Fails with the error of an item, or with `Memory` if an allocation is refused.
fn decode_items<D: Decoder, V: ReadValues<D>, M: InsertAll<Item = V::Value>>(
    decoder: &mut D,
    len: usize,
) -> Result<M, DecodeError>
    requires { CanRelease D.C.bound (D.charge decoder.old) (len * V.Value.words.claim) }
    ensures { (items : List V.Value) × IfOk result (λ v. M.makes items (M.held_items v))
        × RunRead D.is_known D.remaining D.charge D.failures D.loans D.C.bound D.R.end_error D.R.device (0 < len)
        V.Value.words.claim (V.Value.words.format D.C.setting) V.Value.words.decodes_to len (λ _. items) result
        decoder.old decoder.new }
{
    let mut filling = M::start(decoder.alloc(), len)?;
    for _ in 0..len {
        let item = decode_next::<D, V>(decoder)?;
        filling.put(item)?;
    }
    Ok(filling)
}

/// Claims `len` items, and decodes them. Fails with `LimitExceeded` before it allocates, or like `decode_items`.
fn decode_claimed<D: Decoder, V: ReadValues<D>, M: InsertAll<Item = V::Value>>(
    decoder: &mut D,
    len: usize,
) -> Result<M, DecodeError>
    ensures { Reads D.is_known D.remaining D.charge D.failures D.loans D.C.bound D.R.end_error D.R.device (0 < len)
        (array len V.Value.words.claim (V.Value.words.format D.C.setting))
        (λ m v. IsMadeOf M.makes (λ x n. V.Value.words.decodes_to n x) (M.held_items v) m) (D.charge decoder.old) result
        decoder.old decoder.new }
{
    decoder.claim_container_read::<V::Value>(len)?;
    decode_items::<D, V, M>(decoder, len)
}

/// Decodes a length prefix and that many keys or entries, and inserts them in order: of equal keys the first stays,
/// with the last value. Items are claimed like those of a list; a hashed collection allocates for all at once, an
/// ordered one for none. Fails with the error of the length, `LimitExceeded`, `Memory` if an allocation is refused, or
/// the error of an item.
pub fn decode_keyed<D: Decoder, V: ReadValues<D>, M: InsertAll<Item = V::Value>>(
    decoder: &mut D,
) -> Result<M, DecodeError>
    ensures read { Reads D.is_known D.remaining D.charge D.failures D.loans D.C.bound D.R.end_error D.R.device
        (Unit {0}) (list D.C.setting V.Value.words.claim (V.Value.words.format D.C.setting))
        (λ m v. IsMadeOf M.makes (λ x n. V.Value.words.decodes_to n x) (M.held_items v) m) (D.charge decoder.old) result
        decoder.old decoder.new }
    ensures memory { RefusedForSome D.is_known D.remaining D.C.setting D.R.end_error D.R.device result decoder.old }
{
    let len = decode_length(decoder)?;
    decode_claimed::<D, V, M>(decoder, len)
}
