//! Slices of values, without a length prefix.
ghost use Rattle.std.specs.Prelude.{length};
ghost use Rattle.std.specs.List.{All};
ghost use Rattle.bincode_spec.specs.Words.{array};
ghost use Rattle.bincode_spec.specs.Run.{IsListOf};
ghost use Rattle.bincode_spec.specs.Allowed.{AllowedWord};
ghost use Rattle.bincode_spec.specs.Encoding.{Encodes};

use crate::encode::Encode;
use bincode_base::error::EncodeError;
use bincode_encoder::answers::rebuild_result;
use bincode_encoder::encoder::Encoder;
use bincode_encoder::runs;
use bincode_encoder::runs::WriteValues;
use std::marker::PhantomData;

/// Writes values with their `Encode`.
pub(crate) struct ByEncode<T>(PhantomData<T>);

impl<T: Encode> WriteValues for ByEncode<T> {
    type Value = T;

    const MAX_FIXED_SIZE: Option<usize> = T::MAX_FIXED_SIZE;

    #[inline(always)]
    fn tell_valid(value: &T) {
        value.tell_valid();
    }

    #[inline(always)]
    fn write_value<E: Encoder>(value: &T, encoder: &mut E) -> Result<(), EncodeError> {
        rebuild_result(value.encode(encoder))
    }

    #[inline(always)]
    fn as_bytes(items: &[T]) -> Option<&[u8]> {
        T::as_bytes(items)
    }
}

/// Writes the items in turn, without a length prefix; in one piece if their bytes are their encoding. Errors are those
/// of an item. After an error a prefix of an encoding is written, with the exceptions of `Encode::encode`.
#[inline]
pub fn encode_run<T: Encode, E: Encoder>(items: &[T], encoder: &mut E) -> Result<(), EncodeError>
    ensures { Encodes E.W.adds E.W.refuses E.writer_of E.loans (All (T.words.writable E.C.setting) items.now)
        (AllowedWord (IsListOf T.words.means items.now) (array (length items.now) T.words.claim
        (T.words.format E.C.setting))) T.words.own_errors result encoder.old encoder.new }
{
    runs::encode_run::<ByEncode<T>, E>(items, encoder)
}
