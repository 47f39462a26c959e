//! Encoding of types whose values are checked after decoding.
ghost use Rattle.std.specs.Prelude.{◌≡◌, true};
ghost use Rattle.bincode_spec.specs.Meaning.{Meaning};
ghost use Rattle.bincode_spec.specs.Validated.{with_test};
ghost use Rattle.bincode_spec.specs.Allowed.{AllowedWord};
ghost use Rattle.bincode_spec.specs.Encoding.{Encodes};

use crate::encode::Encode;
use bincode_base::error::EncodeError;
use bincode_encoder::encoder::Encoder;
use bincode_types::validated::Validate;

/// Writes the value that is held, like its `Encode::encode`.
#[inline(always)]
pub fn encode_validated<T: Validate, E: Encoder>(
    value: &T,
    encoder: &mut E,
) -> Result<(), EncodeError>
where
    T::Of: Encode,
    ensures { Encodes E.W.adds E.W.refuses E.writer_of E.loans (T.Of.words.writable E.C.setting (T.of value.now))
        (AllowedWord (T.Of.words.means (T.of value.now)) (with_test T.passes T.fault (T.Of.words.format E.C.setting)))
        T.Of.words.own_errors result encoder.old encoder.new }
{
    value.of().encode(encoder)
}

/// Proves that a value is valid as `Validated`: the value that it holds is valid, and passes the test.
#[inline]
pub fn tell_validated<T: Validate>(value: &T)
where
    T::Of: Encode,
    ensures { T.Of.words.valid (T.of value.now)
        × ((m : Meaning) → T.Of.words.means (T.of value.now) m → T.passes m ≡ true) }
{
    value.of().tell_valid();
}
