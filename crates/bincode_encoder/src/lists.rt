//! Encoding of length-prefixed lists.
ghost use Rattle.std.specs.List.{All};
ghost use Rattle.std.specs.BinaryHeap.{heap_items};
ghost use Rattle.bincode_spec.specs.Words.{list};
ghost use Rattle.bincode_spec.specs.Run.{IsListOf};
ghost use Rattle.bincode_spec.specs.Allowed.{AllowedWord};
ghost use Rattle.bincode_spec.specs.Layers.Meanings.{LengthWord};
ghost use Rattle.bincode_spec.specs.Collections.{AreValid, IsMadeOf, MakesBag};
ghost use Rattle.bincode_spec.specs.Encoding.{Encodes};

use crate::answers::rebuild_result;
use crate::encoder::Encoder;
use crate::integers::encode_integer;
use crate::runs::{WriteValues, encode_each, encode_run, tell_each_valid};
use bincode_base::error::EncodeError;
use std::collections::{BinaryHeap, VecDeque};

/// Writes a length prefix: a `u64`. Errors are those of the writer.
#[inline(always)]
pub fn encode_length<E: Encoder>(encoder: &mut E, len: usize) -> Result<(), EncodeError>
    ensures { Encodes E.W.adds E.W.refuses E.writer_of E.loans (Unit {0}) (LengthWord E.C.setting len)
        (λ _. ⊥) result encoder.old encoder.new }
{
    rebuild_result(encode_integer(encoder, len as u64))
}

/// Proves that each item is valid and that their number fits 64 bits. Walks the items: O(n).
pub fn tell_list_valid<V: WriteValues>(items: &[V::Value])
    ensures { AreValid V.Value.words.valid items.now }
{
    let _len = items.len();
    tell_each_valid::<V>(items);
}

/// Writes the length prefix of a list, then its items. Errors, and what is left after them, are those of the writer and
/// of an item's `Encode::encode`.
#[inline]
pub fn encode_list<V: WriteValues, E: Encoder>(
    items: &[V::Value],
    encoder: &mut E,
) -> Result<(), EncodeError>
    ensures { Encodes E.W.adds E.W.refuses E.writer_of E.loans (All (V.Value.words.writable E.C.setting) items.now)
        (AllowedWord (IsListOf V.Value.words.means items.now)
        (list E.C.setting V.Value.words.claim (V.Value.words.format E.C.setting)))
        V.Value.words.own_errors result encoder.old encoder.new }
{
    encode_length(encoder, items.len())?;
    rebuild_result(encode_run::<V, E>(items, encoder))
}

/// Writes a queue like `encode_list`, from the two slices that hold it.
#[inline]
pub fn encode_deque<V: WriteValues, E: Encoder>(
    queue: &VecDeque<V::Value>,
    encoder: &mut E,
) -> Result<(), EncodeError>
    ensures { Encodes E.W.adds E.W.refuses E.writer_of E.loans (All (V.Value.words.writable E.C.setting)
        queue.now.items) (AllowedWord (IsListOf V.Value.words.means queue.now.items)
        (list E.C.setting V.Value.words.claim (V.Value.words.format E.C.setting)))
        V.Value.words.own_errors result encoder.old encoder.new }
{
    let len = queue.len();
    let (first, second) = queue.as_slices();
    encode_length(encoder, len)?;
    encode_run::<V, E>(first, encoder)?;
    rebuild_result(encode_run::<V, E>(second, encoder))
}

/// Writes a heap like `encode_list`, item by item as bincode does, in the order of the heap; decoding accepts any
/// order.
#[inline]
pub fn encode_heap<V: WriteValues, E: Encoder>(
    heap: &BinaryHeap<V::Value>,
    encoder: &mut E,
) -> Result<(), EncodeError>
where
    V::Value: Ord,
    ensures { Encodes E.W.adds E.W.refuses E.writer_of E.loans
        (All (V.Value.words.writable E.C.setting) (heap_items heap.now))
        (AllowedWord (IsMadeOf MakesBag V.Value.words.means (heap_items heap.now))
        (list E.C.setting V.Value.words.claim (V.Value.words.format E.C.setting)))
        V.Value.words.own_errors result encoder.old encoder.new }
{
    let items = heap.as_slice();
    let count = items.len();
    encode_length(encoder, count)?;
    rebuild_result(encode_each::<V, E>(items, encoder))
}
