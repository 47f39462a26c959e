//! Calls whose contracts say in one sentence what a program relies on: that what was written is read back, that a limit
//! bounds what is read, and how long a value is.
ghost use Rattle.std.specs.Prelude.{◌≡◌, ◌-◌, ◌^◌, ℕ, List, true, length, take, IfErr, IfOk, MatchResult, Some};
ghost use Rattle.bincode_base.specs.declared.error.DecodeError.TheVariants.{LimitExceeded};
ghost use Rattle.bincode_spec.specs.Allowed.{AllowedWord};
ghost use Rattle.bincode_spec.specs.Answer.{Allows};
ghost use Rattle.bincode_spec.specs.Decoding.{IsExcused, IsRead, MayReportMemory};
ghost use Rattle.bincode_spec.specs.Limited.{LimitedBy, WordBounded};
ghost use Rattle.bincode_spec.specs.Limits.{FitsLimit};
ghost use Rattle.bincode_spec.specs.Slice.{EndsSlice, IsAnswer};
ghost use Rattle.bincode_io.specs.Stream.{TellsBytes, known_bytes, EndsShort, stream_errors};
ghost use Rattle.bincode.specs.Short.{LacksMemory, TooShort};
ghost use Rattle.bincode.specs.Streamed.{IsStreamRead};

use crate::borrow::borrow_decode_from_slice;
use crate::reader::decode_from_reader;
use crate::slice::{decode_from_slice, encode_into_slice};
use crate::streams::decode_from_std_read;
use crate::vec::encode_to_vec;
use crate::writer::encode_into_writer;
use bincode_base::config::Config;
use bincode_base::error::{DecodeError, EncodeError};
use bincode_decode::borrow_decode::BorrowDecode;
use bincode_decode::decode::Decode;
use bincode_encode::encode::Encode;
use bincode_io::read::Reader;
use bincode_io::write::SizeWriter;
use bincode_types::laws::{ConstantCharge, Exact, Plain};
use std::alloc::Global;
use std::io::Read;

/// The result of a round trip: the number of bytes written, and what was decoded.
#[derive(Drop)]
pub struct RoundTrip<T> {
    pub written: usize,
    pub read: Result<(T, usize), DecodeError>,
}

/// Encodes a value into the front of a slice and decodes it from there, with the bytes after it. If the charges of the
/// encoding stay within the limit, an equal value is decoded from as many bytes, or decoding fails with `Memory`, for
/// any value of a type that may allocate. Fails with `UnexpectedEnd` if the slice is too short.
pub fn round_trip<T: Encode + Decode<()> + Exact, C: Config>(
    alloc: Global,
    value: &T,
    slice: &mut [u8],
    config: C,
) -> Result<RoundTrip<T>, EncodeError>
    ensures back { IfOk result (λ trip. FitsLimit (T.words.format C.setting) C.bound (take trip.written slice.new) →
        MatchResult trip.read (λ x. (T.eq value.now x.0 ≡ true) × (x.1 ≡ trip.written))
        (MayReportMemory T.words.may_allocate)) }
    ensures short { IfErr result (TooShort (AllowedWord (T.words.means value.now) (T.words.format C.setting))
        (length slice.old)) }
{
    T::tell_plain();
    T::tell_exact();
    value.tell_valid();
    let written = encode_into_slice(value, slice, config)?;
    let read = decode_from_slice(alloc, slice, config);
    Ok(RoundTrip { written, read })
}

/// The result of a round trip through a vector: the encoding, and what was decoded.
#[derive(Drop)]
pub struct VecTrip<T> {
    pub bytes: Vec<u8>,
    pub read: Result<(T, usize), DecodeError>,
}

/// Encodes a value into a vector and decodes it from there. If the charges of the encoding stay within the limit, an
/// equal value is decoded from as many bytes, or decoding fails with `Memory`, for any value of a type that may
/// allocate. Encoding fails with no other error than `Memory`, for any value that has bytes, and never for another.
pub fn round_trip_by_vec<T: Encode + Decode<()> + Exact, C: Config>(
    alloc: Global,
    value: &T,
    config: C,
) -> Result<VecTrip<T>, EncodeError>
    ensures back { IfOk result (λ trip. FitsLimit (T.words.format C.setting) C.bound trip.bytes.items →
        MatchResult trip.read (λ x. (T.eq value.now x.0 ≡ true) × (x.1 ≡ length trip.bytes.items))
        (MayReportMemory T.words.may_allocate)) }
    ensures refused { IfErr result (LacksMemory (AllowedWord (T.words.means value.now) (T.words.format C.setting))) }
{
    T::tell_plain();
    T::tell_exact();
    value.tell_valid();
    let bytes = encode_to_vec(alloc, value, config)?;
    let read = decode_from_slice(alloc, &bytes, config);
    Ok(VecTrip { bytes, read })
}

/// `round_trip` for a type whose encodings all charge the same: the limit has to allow the most that is charged and
/// held at one time. Under a smaller one it promises what `round_trip` does.
pub fn round_trip_within<T: Encode + Decode<()> + Exact + ConstantCharge, C: Config>(
    alloc: Global,
    value: &T,
    slice: &mut [u8],
    config: C,
) -> Result<RoundTrip<T>, EncodeError>
    ensures back { Allows C.bound T.peak → IfOk result (λ trip.
        MatchResult trip.read (λ x. (T.eq value.now x.0 ≡ true) × (x.1 ≡ trip.written))
        (MayReportMemory T.words.may_allocate)) }
    ensures fits { IfOk result (λ trip. FitsLimit (T.words.format C.setting) C.bound (take trip.written slice.new) →
        MatchResult trip.read (λ x. (T.eq value.now x.0 ≡ true) × (x.1 ≡ trip.written))
        (MayReportMemory T.words.may_allocate)) }
    ensures short { IfErr result (TooShort (AllowedWord (T.words.means value.now) (T.words.format C.setting))
        (length slice.old)) }
{
    T::tell_costs();
    round_trip(alloc, value, slice, config)
}

/// Decodes a value from a slice, as `decode_from_slice` does. Under a limit the error is `LimitExceeded` exactly if the
/// bytes need more; else the result is that without a limit. The limit bounds what is decoded: its bytes, and the
/// elements of all that it holds.
pub fn read_within<T: Decode<()>, C: Config>(
    alloc: Global,
    src: &[u8],
    config: C,
) -> Result<(T, usize), DecodeError>
    ensures answer { IsAnswer (T.words.format C.setting) C.bound T.words.may_allocate T.words.decodes_to src.now
        result }
    ensures limited { (limit : ℕ) → C.bound ≡ Some limit → LimitedBy EndsSlice (T.words.format C.setting)
        (T.words.need C.setting) limit (MayReportMemory T.words.may_allocate) src.now result }
    ensures bounded { (limit : ℕ) → C.bound ≡ Some limit
        → IfOk result (λ x. WordBounded (T.words.format C.setting) limit src.now x.1) }
{
    decode_from_slice(alloc, src, config)
}

/// `read_within` for a value that may borrow bytes of the slice.
pub fn borrow_read_within<'a, T: BorrowDecode<&'a [u8], ()>, C: Config>(
    alloc: Global,
    src: &'a [u8],
    config: C,
) -> Result<(T, usize), DecodeError>
    ensures answer { IsAnswer (T.words.format C.setting) C.bound T.words.may_allocate T.words.decodes_to src.now
        result }
    ensures limited { (limit : ℕ) → C.bound ≡ Some limit → LimitedBy EndsSlice (T.words.format C.setting)
        (T.words.need C.setting) limit (MayReportMemory T.words.may_allocate) src.now result }
    ensures bounded { (limit : ℕ) → C.bound ≡ Some limit
        → IfOk result (λ x. WordBounded (T.words.format C.setting) limit src.now x.1) }
{
    borrow_decode_from_slice(alloc, src, config)
}

/// `read_within` from a reader that knows its bytes, and whose end is not reported as `LimitExceeded`.
pub fn read_within_from<T: Decode<()>, R: Reader, C: Config>(
    alloc: Global,
    reader: &mut R,
    config: C,
) -> Result<T, DecodeError>
    ensures answer { IsRead R.is_known R.remaining R.end_error
        (IsExcused R.device T.words.may_allocate (R.failures reader.old) (R.failures reader.new)) R.device.is_uncounted
        (T.words.format C.setting) C.bound T.words.decodes_to result reader.old reader.new }
    ensures limited { R.is_known reader.old
        → ((missing : ℕ) (e : DecodeError) → R.end_error missing e → ¬ (e ≡ LimitExceeded)) → (limit : ℕ)
        → C.bound ≡ Some limit → LimitedBy R.end_error (T.words.format C.setting) (T.words.need C.setting) limit
        (IsExcused R.device T.words.may_allocate (R.failures reader.old) (R.failures reader.new))
        (R.remaining reader.old) result }
    ensures bounded { R.is_known reader.old → (limit : ℕ) → C.bound ≡ Some limit
        → IfOk result (λ _. WordBounded (T.words.format C.setting) limit (R.remaining reader.old)
        (length (R.remaining reader.old) - length (R.remaining reader.new))) }
{
    decode_from_reader(alloc, reader, config)
}

/// `read_within` from a stream that knows its bytes.
pub fn read_within_from_stream<T: Decode<()>, R: Read, C: Config>(
    alloc: Global,
    stream: &mut R,
    config: C,
) -> Result<T, DecodeError>
    ensures answer { IsStreamRead R.remaining T.words.may_allocate (T.words.format C.setting) C.bound T.words.decodes_to
        result stream.old stream.new }
    ensures limited { TellsBytes (R.remaining stream.old) → (limit : ℕ) → C.bound ≡ Some limit
        → LimitedBy EndsShort (T.words.format C.setting) (T.words.need C.setting) limit
        (IsExcused stream_errors T.words.may_allocate 0 0) (known_bytes (R.remaining stream.old)) result }
    ensures bounded { TellsBytes (R.remaining stream.old) → (limit : ℕ) → C.bound ≡ Some limit
        → IfOk result (λ _. WordBounded (T.words.format C.setting) limit (known_bytes (R.remaining stream.old))
        (length (known_bytes (R.remaining stream.old)) - length (known_bytes (R.remaining stream.new)))) }
{
    decode_from_std_read(alloc, stream, config)
}

/// The length in bytes of every encoding of a value. Encodes it once into a counter. Fails with `UnexpectedEnd` if 64
/// bits do not count its bytes, and never otherwise.
pub fn encoded_length<E: Encode + Plain, C: Config>(
    value: &E,
    config: C,
) -> Result<usize, EncodeError>
    ensures length { IfOk result (λ n. (word : List ℕ) → AllowedWord (E.words.means value.now)
        (E.words.format C.setting) word → length word ≡ n) }
    ensures short { IfErr result (TooShort (AllowedWord (E.words.means value.now) (E.words.format C.setting))
        (2 ^ 64 - 1)) }
{
    E::tell_plain();
    value.tell_valid();
    let mut counter = SizeWriter::default();
    encode_into_writer(value, &mut counter, config)?;
    Ok(counter.bytes_written)
}
