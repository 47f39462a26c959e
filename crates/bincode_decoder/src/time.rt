//! Decoding of `Duration`.
ghost use Rattle.std.specs.Prelude.{pos};
ghost use Rattle.bincode_spec.specs.Meaning.{IsNumber, IsThen, IsNothing};
ghost use Rattle.bincode_spec.specs.Words.{duration};
ghost use Rattle.bincode_types.specs.Durations.{secs_of, nanos_of};
ghost use Rattle.bincode_spec.specs.Layers.Values.{Reads};

use crate::decoder::Decoder;
use crate::integers::decode_integer;
use bincode_base::error::DecodeError;
use bincode_types::own::time::Duration;

/// Charges and reads the seconds, then the nanoseconds, of which whole seconds are carried. Fails with the error of one
/// of the numbers, or with `InvalidDuration` and both numbers as read if the seconds pass 64 bits.
pub fn decode_duration<D: Decoder>(decoder: &mut D) -> Result<Duration, DecodeError>
    ensures { Reads D.is_known D.remaining D.charge D.failures D.loans D.C.bound D.R.end_error D.R.device ⊥
        (duration D.C.setting) (λ m v. IsThen (IsNumber (pos (secs_of v))) (IsThen (IsNumber (pos (nanos_of v)))
        IsNothing) m) (D.charge decoder.old) result decoder.old decoder.new }
{
    let secs: u64 = decode_integer(decoder)?;
    let nanos: u32 = decode_integer(decoder)?;
    if secs.checked_add(u64::from(nanos) / 1_000_000_000).is_none() {
        return Err(DecodeError::InvalidDuration { secs, nanos });
    }
    Ok(Duration::new(secs, nanos))
}
