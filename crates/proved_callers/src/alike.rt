//! Callers that read equal bytes from two readers. Their proofs use the contracts of the calls alone.
ghost use Rattle.std.specs.Prelude.{◌≡◌};
ghost use Rattle.bincode_spec.specs.Layers.Alike.{DeviceFailed, ReadAlike};
ghost use Rattle.bincode_spec.specs.Decoding.{IsExcused};

use bincode::config::{Config, Endianness};
use bincode::de::read::Reader;
use bincode::de::{Decode, Decoder};
use bincode::error::DecodeError;
use bincode::varint::varint_decode_u64;

/// The results of reading from one reader, and from the other.
#[derive(Drop)]
pub struct ReadBoth<T> {
    pub first: Result<T, DecodeError>,
    pub second: Result<T, DecodeError>,
}

/// Reads a number from two readers. If both know their bytes and have equal ones left, they give equal numbers and
/// leave equal bytes, or errors of one fault, unless a device fails.
pub fn read_number_from_both<R: Reader, S: Reader>(
    first: &mut R,
    second: &mut S,
    endian: Endianness,
) -> ReadBoth<u64>
    ensures { R.is_known first.old → S.is_known second.old → S.remaining second.old ≡ R.remaining first.old
        → ReadAlike R.end_error S.end_error (DeviceFailed R.device (R.failures first.old) (R.failures first.new))
        (DeviceFailed S.device (S.failures second.old) (S.failures second.new)) (λ m v. v ≡ m)
        (R.remaining first.new) (S.remaining second.new) 0 0 result.first result.second }
{
    let first = varint_decode_u64(first, endian);
    let second = varint_decode_u64(second, endian);
    ReadBoth { first, second }
}

/// Decodes a value from two decoders of one configuration. If both know their bytes, have equal ones left and have
/// equal charges, they give values for one meaning and leave equal bytes and charges, or errors of one fault, or the
/// error of one is of its device, or `Memory` if the type may allocate.
pub fn decode_from_both<
    Context: Drop,
    T: Decode<Context>,
    C: Config,
    D: Decoder<C = C, Context = Context>,
    E: Decoder<C = C, Context = Context>,
>(first: &mut D, second: &mut E) -> ReadBoth<T>
    ensures { D.is_known first.old → E.is_known second.old → E.remaining second.old ≡ D.remaining first.old
        → E.charge second.old ≡ D.charge first.old → ReadAlike D.R.end_error E.R.end_error
        (IsExcused D.R.device T.words.may_allocate (D.failures first.old) (D.failures first.new))
        (IsExcused E.R.device T.words.may_allocate (E.failures second.old) (E.failures second.new)) T.words.decodes_to
        (D.remaining first.new) (E.remaining second.new) (D.charge first.new) (E.charge second.new)
        result.first result.second }
{
    let first = T::decode(first);
    let second = T::decode(second);
    ReadBoth { first, second }
}
