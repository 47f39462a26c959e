//! What the types of `table.rt` are written as. Made from that file by the program `derive`, and not edited: run
//! `derive` on the file again where its types change.

use super::*;
use bincode::de::{Decode, Decoder, Sequential};
use bincode::enc::{Encode, Encoder};
use bincode::error::{DecodeError, EncodeError};
use bincode::laws::{Canonical, Exact, Plain, canonical_by_parts, exact_by_fields, plain_by_parts};
use bincode::{HasParts, Wire};

type TableParts<K, V> = (String, BTreeMap<K, V>, Option<K>);

impl<K: Ord, V> HasParts<TableParts<K, V>> for Table<K, V> {
    ghost parts = { λ v. (v.name, v.entries, v.last) };
}

impl<K: Ord, V> Wire for Table<K, V>
where
    BTreeMap<K, V>: Wire,
    Option<K>: Wire,
{
    ghost use Rattle.bincode.specs.TypeWords.{words_by};

    ghost words = { words_by ⟦<TableParts<K, V> as Wire>⟧.words ⟦<Table<K, V> as HasParts<TableParts<K, V>>>⟧.parts };

    fn claim_size() -> usize {
        <TableParts<K, V>>::claim_size()
    }
}

impl<K: Ord, V> Plain for Table<K, V>
where
    BTreeMap<K, V>: Plain,
    Option<K>: Plain,
{
    fn tell_plain() {
        plain_by_parts::<TableParts<K, V>, Table<K, V>>();
    }
}

impl<K: Ord, V: PartialEq> Exact for Table<K, V>
where
    BTreeMap<K, V>: Exact,
    Option<K>: Exact,
{
    fn tell_exact() {
        exact_by_fields::<TableParts<K, V>, Table<K, V>, _>();
    }
}

impl<K: Ord, V> Canonical for Table<K, V>
where
    BTreeMap<K, V>: Canonical,
    Option<K>: Canonical,
{
    fn tell_canonical() {
        canonical_by_parts::<TableParts<K, V>, Table<K, V>>();
    }
}

impl<K: Ord + Drop, V: Drop> Encode for Table<K, V>
where
    BTreeMap<K, V>: Encode,
    Option<K>: Encode,
{
    fn tell_valid(&self) {
        (&self.name, &self.entries, &self.last).tell_valid();
    }

    fn encode<E: Encoder>(&self, encoder: &mut E) -> Result<(), EncodeError> {
        (&self.name, &self.entries, &self.last).encode(encoder)
    }
}

impl<Context: Drop, K: Ord + Drop, V: Drop> Decode<Context> for Table<K, V>
where
    BTreeMap<K, V>: Decode<Context>,
    Option<K>: Decode<Context>,
{
    type Run = Sequential;

    fn decode<D: Decoder<Context = Context>>(decoder: &mut D) -> Result<Table<K, V>, DecodeError> {
        let (name, entries, last): TableParts<K, V> = Decode::decode(decoder)?;
        Ok(Table {
            name,
            entries,
            last,
        })
    }
}
