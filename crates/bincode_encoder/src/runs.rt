//! Encoding of slices of values, without a length prefix, generic over how one value is written.
ghost use Rattle.std.specs.Prelude.{IfSome, length};
ghost use Rattle.std.specs.List.{All};
ghost use Rattle.bincode_base.specs.Setting.{Setting};
ghost use Rattle.bincode_spec.specs.Words.{array};
ghost use Rattle.bincode_spec.specs.Run.{IsListOf};
ghost use Rattle.bincode_spec.specs.Allowed.{AllowedWord};
ghost use Rattle.bincode_spec.specs.Encoding.{IsReady, Encodes};

use crate::encoder::{Encoder, write_from};
use crate::room::fits_in_one_check;
use bincode_base::error::EncodeError;
use bincode_types::wire::Wire;

/// How the values of a type are written. The encoders of collections are generic over it.
pub trait WriteValues {
    /// The type of the values.
    type Value: Wire;

    /// The maximum size in bytes under fixed integers, as `Encode::MAX_FIXED_SIZE`.
    const MAX_FIXED_SIZE: Option<usize>;

    /// Proves that a value is valid, like `Encode::tell_valid`: O(n) for a collection.
    fn tell_valid(value: &Self::Value)
        ensures { Self.Value.words.valid value.now };

    /// Writes the encoding of a value, like `Encode::encode`.
    fn write_value<E: Encoder>(value: &Self::Value, encoder: &mut E) -> Result<(), EncodeError>
        ensures { Encodes E.W.adds E.W.refuses E.writer_of E.loans (Self.Value.words.writable E.C.setting value.now)
            (AllowedWord (Self.Value.words.means value.now) (Self.Value.words.format E.C.setting))
            Self.Value.words.own_errors result encoder.old encoder.new };

    /// The bytes of a slice of values, if they are their own encoding.
    fn as_bytes(items: &[Self::Value]) -> Option<&[u8]>
        ensures { IfSome result (λ bytes. (s : Setting) → IsReady (All (Self.Value.words.writable s) items.now)
            (AllowedWord (IsListOf Self.Value.words.means items.now)
            (array (length items.now) Self.Value.words.claim (Self.Value.words.format s))) bytes.now) };
}

/// Proves that each of the values is valid. Walks them: O(n).
pub fn tell_each_valid<V: WriteValues>(items: &[V::Value])
    ensures { All V.Value.words.valid items.now }
{
    for value in items {
        V::tell_valid(value);
    }
}

/// Writes the items in turn, without a length prefix; in one piece if their bytes are their encoding. Errors, and what
/// is left after them, are those of an item's `Encode::encode`.
#[inline]
pub fn encode_run<V: WriteValues, E: Encoder>(
    items: &[V::Value],
    encoder: &mut E,
) -> Result<(), EncodeError>
    ensures { Encodes E.W.adds E.W.refuses E.writer_of E.loans (All (V.Value.words.writable E.C.setting) items.now)
        (AllowedWord (IsListOf V.Value.words.means items.now)
        (array (length items.now) V.Value.words.claim (V.Value.words.format E.C.setting)))
        V.Value.words.own_errors result encoder.old encoder.new }
{
    if let Some(bytes) = V::as_bytes(items) {
        return write_from(encoder, bytes);
    }
    encode_each::<V, E>(items, encoder)
}

/// `encode_run` one by one, even if the bytes of the items are their encoding: so a writer with too little room keeps
/// the items that fit.
#[inline]
pub(crate) fn encode_each<V: WriteValues, E: Encoder>(
    items: &[V::Value],
    encoder: &mut E,
) -> Result<(), EncodeError>
    ensures { Encodes E.W.adds E.W.refuses E.writer_of E.loans (All (V.Value.words.writable E.C.setting) items.now)
        (AllowedWord (IsListOf V.Value.words.means items.now)
        (array (length items.now) V.Value.words.claim (V.Value.words.format E.C.setting)))
        V.Value.words.own_errors result encoder.old encoder.new }
{
    for item in items {
        write_whole::<V, E>(item, encoder)?;
    }
    Ok(())
}

/// Writes an item of a list or a key of a set like `write_value`, with one check of the room if possible
/// (`fits_in_one_check`).
#[inline(always)]
pub(crate) fn write_whole<V: WriteValues, E: Encoder>(
    item: &V::Value,
    encoder: &mut E,
) -> Result<(), EncodeError>
    ensures { Encodes E.W.adds E.W.refuses E.writer_of E.loans (V.Value.words.writable E.C.setting item.now)
        (AllowedWord (V.Value.words.means item.now) (V.Value.words.format E.C.setting)) V.Value.words.own_errors
        result encoder.old encoder.new }
{
    if fits_in_one_check(encoder, V::MAX_FIXED_SIZE) {
        return V::write_value(item, encoder);
    }
    V::write_value(item, encoder)
}
