//! Encoding of hashed sets and maps.
ghost use Rattle.std.specs.Prelude.{length};
ghost use Rattle.std.specs.List.{All, IsDistinct};
ghost use Rattle.std.specs.Map.{keys_of};
ghost use Rattle.bincode_spec.specs.Words.{array, list};
ghost use Rattle.bincode_spec.specs.Run.{IsListOf};
ghost use Rattle.bincode_spec.specs.Allowed.{AllowedWord};
ghost use Rattle.bincode_spec.specs.Collections.{AreValid, IsMadeOf, MakesBag};
ghost use Rattle.bincode_spec.specs.Encoding.{Encodes};

use crate::answers::rebuild_result;
use crate::encoder::Encoder;
use crate::lists::encode_length;
use crate::ordered::encode_entry;
use crate::runs::{WriteValues, write_whole};
use bincode_base::error::EncodeError;
use bincode_types::wire::Wire;
use std::collections::{HashMap, HashSet};
use std::hash::{BuildHasher, Hash};

/// Proves that the keys of a set are valid and distinct, and that their number fits 64 bits. Walks the keys: O(n).
pub fn tell_set_valid<V: WriteValues, S: BuildHasher>(set: &HashSet<V::Value, S>)
where
    V::Value: Eq + Hash,
    ensures valid { AreValid V.Value.words.valid set.now.keys }
    ensures unique { IsDistinct V.Value.eq set.now.keys }
{
    for key in set.iter() {
        V::tell_valid(key);
    }
}

/// Proves that the entries of a map are valid, its keys distinct, and their number fits 64 bits. Walks the entries:
/// O(n).
pub fn tell_map_valid<K: WriteValues, V: WriteValues, S: BuildHasher>(
    map: &HashMap<K::Value, V::Value, S>,
)
where
    K::Value: Eq + Hash,
    ensures valid { AreValid ⟦<(K::Value, V::Value) as Wire>⟧.words.valid map.now.entries }
    ensures unique { IsDistinct K.Value.eq (keys_of map.now.entries) }
{
    for (key, value) in map.iter() {
        K::tell_valid(key);
        V::tell_valid(value);
    }
}

/// Writes the length of a set, then its keys in the order of the table; decoding accepts any order. Errors, and what is
/// left after them, are those of the writer and of a key's `Encode::encode`.
#[inline]
pub fn encode_set<V: WriteValues, S: BuildHasher, E: Encoder>(
    set: &HashSet<V::Value, S>,
    encoder: &mut E,
) -> Result<(), EncodeError>
where
    V::Value: Eq + Hash,
    ensures { Encodes E.W.adds E.W.refuses E.writer_of E.loans (All (V.Value.words.writable E.C.setting) set.now.keys)
        (AllowedWord (IsMadeOf MakesBag V.Value.words.means set.now.keys)
        (list E.C.setting V.Value.words.claim (V.Value.words.format E.C.setting)))
        V.Value.words.own_errors result encoder.old encoder.new }
{
    encode_length(encoder, set.len())?;
    rebuild_result(encode_keys::<V, S, E>(set, encoder))
}

/// Writes the keys alone.
#[inline]
fn encode_keys<V: WriteValues, S: BuildHasher, E: Encoder>(
    set: &HashSet<V::Value, S>,
    encoder: &mut E,
) -> Result<(), EncodeError>
where
    V::Value: Eq + Hash,
    ensures { Encodes E.W.adds E.W.refuses E.writer_of E.loans (All (V.Value.words.writable E.C.setting) set.now.keys)
        (AllowedWord (IsListOf V.Value.words.means set.now.keys)
        (array (length set.now.keys) V.Value.words.claim (V.Value.words.format E.C.setting)))
        V.Value.words.own_errors result encoder.old encoder.new }
{
    for key in set.iter() {
        write_whole::<V, E>(key, encoder)?;
    }
    Ok(())
}

/// Writes the length of a map, then its entries in the order of the table, each as key and value; decoding accepts any
/// order. Errors, and what is left after them, are those of the writer and of `Encode::encode` of a key or value.
#[inline]
pub fn encode_map<K: WriteValues, V: WriteValues, S: BuildHasher, E: Encoder>(
    map: &HashMap<K::Value, V::Value, S>,
    encoder: &mut E,
) -> Result<(), EncodeError>
where
    K::Value: Eq + Hash,
    ensures { Encodes E.W.adds E.W.refuses E.writer_of E.loans
        (All (⟦<(K::Value, V::Value) as Wire>⟧.words.writable E.C.setting) map.now.entries)
        (AllowedWord (IsMadeOf MakesBag ⟦<(K::Value, V::Value) as Wire>⟧.words.means map.now.entries)
        (list E.C.setting ⟦<(K::Value, V::Value) as Wire>⟧.words.claim
        (⟦<(K::Value, V::Value) as Wire>⟧.words.format E.C.setting)))
        ⟦<(K::Value, V::Value) as Wire>⟧.words.own_errors result encoder.old encoder.new }
{
    encode_length(encoder, map.len())?;
    rebuild_result(encode_entries::<K, V, S, E>(map, encoder))
}

/// Writes the entries alone.
#[inline]
fn encode_entries<K: WriteValues, V: WriteValues, S: BuildHasher, E: Encoder>(
    map: &HashMap<K::Value, V::Value, S>,
    encoder: &mut E,
) -> Result<(), EncodeError>
where
    K::Value: Eq + Hash,
    ensures { Encodes E.W.adds E.W.refuses E.writer_of E.loans
        (All (⟦<(K::Value, V::Value) as Wire>⟧.words.writable E.C.setting) map.now.entries)
        (AllowedWord (IsListOf ⟦<(K::Value, V::Value) as Wire>⟧.words.means map.now.entries)
        (array (length map.now.entries) ⟦<(K::Value, V::Value) as Wire>⟧.words.claim
        (⟦<(K::Value, V::Value) as Wire>⟧.words.format E.C.setting)))
        ⟦<(K::Value, V::Value) as Wire>⟧.words.own_errors result encoder.old encoder.new }
{
    for (key, value) in map.iter() {
        rebuild_result(encode_entry::<K, V, E>(key, value, encoder))?;
    }
    Ok(())
}
