//! Encoding of ordered sets and maps.
ghost use Rattle.std.specs.Prelude.{length};
ghost use Rattle.std.specs.List.{All};
ghost use Rattle.std.specs.List.Sorted.{IsStrictlySortedBy};
ghost use Rattle.std.specs.Map.{keys_of};
ghost use Rattle.bincode_spec.specs.Words.{array, list};
ghost use Rattle.bincode_spec.specs.Run.{IsListOf};
ghost use Rattle.bincode_spec.specs.Allowed.{AllowedWord};
ghost use Rattle.bincode_spec.specs.Collections.{AreValid};
ghost use Rattle.bincode_spec.specs.Encoding.{Encodes};

use crate::answers::rebuild_result;
use crate::encoder::Encoder;
use crate::lists::encode_length;
use crate::room::{fits_in_one_check, most_of_both};
use crate::runs::{WriteValues, write_whole};
use bincode_base::error::EncodeError;
use bincode_types::wire::Wire;
use std::collections::{BTreeMap, BTreeSet};

/// Proves that the keys of a set are valid and ascend, and that their number fits 64 bits. Walks the keys: O(n).
pub fn tell_set_valid<V: WriteValues>(set: &BTreeSet<V::Value>)
where
    V::Value: Ord,
    ensures valid { AreValid V.Value.words.valid set.now.keys }
    ensures sorted { IsStrictlySortedBy V.Value.cmp set.now.keys }
{
    for key in set.iter() {
        V::tell_valid(key);
    }
}

/// Proves that the entries of a map are valid, its keys ascend, and their number fits 64 bits. Walks the entries: O(n).
pub fn tell_map_valid<K: WriteValues, V: WriteValues>(map: &BTreeMap<K::Value, V::Value>)
where
    K::Value: Ord,
    ensures valid { AreValid ⟦<(K::Value, V::Value) as Wire>⟧.words.valid map.now.entries }
    ensures sorted { IsStrictlySortedBy K.Value.cmp (keys_of map.now.entries) }
{
    for (key, value) in map.iter() {
        K::tell_valid(key);
        V::tell_valid(value);
    }
}

/// Writes the length of a set, then its keys in ascending order. Errors, and what is left after them, are those of the
/// writer and of a key's `Encode::encode`.
#[inline]
pub fn encode_set<V: WriteValues, E: Encoder>(
    set: &BTreeSet<V::Value>,
    encoder: &mut E,
) -> Result<(), EncodeError>
where
    V::Value: Ord,
    ensures { Encodes E.W.adds E.W.refuses E.writer_of E.loans (All (V.Value.words.writable E.C.setting) set.now.keys)
        (AllowedWord (IsListOf V.Value.words.means set.now.keys)
        (list E.C.setting V.Value.words.claim (V.Value.words.format E.C.setting)))
        V.Value.words.own_errors result encoder.old encoder.new }
{
    encode_length(encoder, set.len())?;
    rebuild_result(encode_keys::<V, E>(set, encoder))
}

/// Writes the keys alone.
#[inline]
fn encode_keys<V: WriteValues, E: Encoder>(
    set: &BTreeSet<V::Value>,
    encoder: &mut E,
) -> Result<(), EncodeError>
where
    V::Value: Ord,
    ensures { Encodes E.W.adds E.W.refuses E.writer_of E.loans (All (V.Value.words.writable E.C.setting) set.now.keys)
        (AllowedWord (IsListOf V.Value.words.means set.now.keys)
        (array (length set.now.keys) V.Value.words.claim (V.Value.words.format E.C.setting)))
        V.Value.words.own_errors result encoder.old encoder.new }
{
    for key in set.iter() {
        write_whole::<V, E>(key, encoder)?;
    }
    Ok(())
}

/// Writes the length of a map, then its entries in ascending order of the keys, each as key and value. Errors, and what
/// is left after them, are those of the writer and of `Encode::encode` of a key or value.
#[inline]
pub fn encode_map<K: WriteValues, V: WriteValues, E: Encoder>(
    map: &BTreeMap<K::Value, V::Value>,
    encoder: &mut E,
) -> Result<(), EncodeError>
where
    K::Value: Ord,
    ensures { Encodes E.W.adds E.W.refuses E.writer_of E.loans
        (All (⟦<(K::Value, V::Value) as Wire>⟧.words.writable E.C.setting) map.now.entries)
        (AllowedWord (IsListOf ⟦<(K::Value, V::Value) as Wire>⟧.words.means map.now.entries)
        (list E.C.setting ⟦<(K::Value, V::Value) as Wire>⟧.words.claim
        (⟦<(K::Value, V::Value) as Wire>⟧.words.format E.C.setting)))
        ⟦<(K::Value, V::Value) as Wire>⟧.words.own_errors result encoder.old encoder.new }
{
    encode_length(encoder, map.len())?;
    rebuild_result(encode_entries::<K, V, E>(map, encoder))
}

/// Writes the entries alone.
#[inline]
fn encode_entries<K: WriteValues, V: WriteValues, E: Encoder>(
    map: &BTreeMap<K::Value, V::Value>,
    encoder: &mut E,
) -> Result<(), EncodeError>
where
    K::Value: Ord,
    ensures { Encodes E.W.adds E.W.refuses E.writer_of E.loans
        (All (⟦<(K::Value, V::Value) as Wire>⟧.words.writable E.C.setting) map.now.entries)
        (AllowedWord (IsListOf ⟦<(K::Value, V::Value) as Wire>⟧.words.means map.now.entries)
        (array (length map.now.entries) ⟦<(K::Value, V::Value) as Wire>⟧.words.claim
        (⟦<(K::Value, V::Value) as Wire>⟧.words.format E.C.setting)))
        ⟦<(K::Value, V::Value) as Wire>⟧.words.own_errors result encoder.old encoder.new }
{
    for (key, value) in map.iter() {
        rebuild_result(encode_entry::<K, V, E>(key, value, encoder))?;
    }
    Ok(())
}

/// Writes a key and its value. Errors are those of the two.
#[inline(always)]
pub fn encode_entry<K: WriteValues, V: WriteValues, E: Encoder>(
    key: &K::Value,
    value: &V::Value,
    encoder: &mut E,
) -> Result<(), EncodeError>
    ensures { Encodes E.W.adds E.W.refuses E.writer_of E.loans
        (⟦<(K::Value, V::Value) as Wire>⟧.words.writable E.C.setting (key.now, value.now))
        (AllowedWord (⟦<(K::Value, V::Value) as Wire>⟧.words.means (key.now, value.now))
        (⟦<(K::Value, V::Value) as Wire>⟧.words.format E.C.setting))
        ⟦<(K::Value, V::Value) as Wire>⟧.words.own_errors result encoder.old encoder.new }
{
    if fits_in_one_check(encoder, most_of_both(K::MAX_FIXED_SIZE, V::MAX_FIXED_SIZE)) {
        return encode_pair::<K, V, E>(key, value, encoder);
    }
    encode_pair::<K, V, E>(key, value, encoder)
}

/// `encode_entry` without the check of the room for both.
#[inline(always)]
fn encode_pair<K: WriteValues, V: WriteValues, E: Encoder>(
    key: &K::Value,
    value: &V::Value,
    encoder: &mut E,
) -> Result<(), EncodeError>
    ensures { Encodes E.W.adds E.W.refuses E.writer_of E.loans
        (⟦<(K::Value, V::Value) as Wire>⟧.words.writable E.C.setting (key.now, value.now))
        (AllowedWord (⟦<(K::Value, V::Value) as Wire>⟧.words.means (key.now, value.now))
        (⟦<(K::Value, V::Value) as Wire>⟧.words.format E.C.setting))
        ⟦<(K::Value, V::Value) as Wire>⟧.words.own_errors result encoder.old encoder.new }
{
    K::write_value(key, encoder)?;
    V::write_value(value, encoder)
}
