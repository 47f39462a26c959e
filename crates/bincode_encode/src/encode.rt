//! What can be encoded.
ghost use Rattle.std.specs.Prelude.{IfSome, length};
ghost use Rattle.std.specs.List.{All};
ghost use Rattle.bincode_base.specs.Setting.{Setting};
ghost use Rattle.bincode_spec.specs.Words.{array};
ghost use Rattle.bincode_spec.specs.Run.{IsListOf};
ghost use Rattle.bincode_spec.specs.Allowed.{AllowedWord};
ghost use Rattle.bincode_spec.specs.Encoding.{IsReady, Encodes};

use bincode_base::error::EncodeError;
use bincode_encoder::encoder::Encoder;
use bincode_types::wire::Wire;

/// A type whose values can be encoded.
pub trait Encode: Wire + Drop {
    /// The maximum size of a value in bytes under fixed integers, if it is known. For speed only: a list or a map asks
    /// its writer once for the room of all its short items, and `encode_into_slice` checks its slice once for a value
    /// that may be longer than a number.
    const MAX_FIXED_SIZE: Option<usize> = None;

    /// Proves that this value is valid; it has no other effect. A collection walks its items: O(n). For a number `let
    /// _value = *self;` is enough, since reading it proves that it is in the range of its type.
    fn tell_valid(&self)
        ensures { Self.words.valid self.now };

    /// Writes the encoding of this value. Fails with the error of the writer, or with an error of the type. After an
    /// error a prefix of an encoding is written, if the inner type of each cell in the value has one, and unless the
    /// error comes from a type of your own.
    fn encode<E: Encoder>(&self, encoder: &mut E) -> Result<(), EncodeError>
        ensures { Encodes E.W.adds E.W.refuses E.writer_of E.loans (Self.words.writable E.C.setting self.now)
            (AllowedWord (Self.words.means self.now) (Self.words.format E.C.setting)) Self.words.own_errors result
            encoder.old encoder.new };

    /// The bytes of a slice of values, if they are their own encoding in every setting: `encode_run` then writes them
    /// in one piece. `None` for every other type.
    fn as_bytes(_items: &[Self]) -> Option<&[u8]>
    where
        Self: Sized,
        ensures { IfSome result (λ bytes. (s : Setting) → IsReady (All (Self.words.writable s) _items.now)
            (AllowedWord (IsListOf Self.words.means _items.now)
            (array (length _items.now) Self.words.claim (Self.words.format s)))
            bytes.now) }
    {
        None
    }
}
