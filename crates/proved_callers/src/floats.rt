//! What callers prove of floats: the very float comes back.
ghost use Rattle.std.specs.Prelude.{◌≡◌, true, IfOk, MatchResult};
ghost use Rattle.bincode_spec.specs.Answer.{Allows};
ghost use Rattle.bincode_spec.specs.Decoding.{MayReportMemory};

use bincode::checked::{RoundTrip, round_trip_within};
use bincode::config::Config;
use bincode::error::{DecodeError, EncodeError};
use bincode::{Wire, decode_from_slice, encode_into_slice};
use std::alloc::Global;
use std::cmp::OrderedFloat;
use std::collections::BTreeMap;

/// Encodes a float into the front of a slice and decodes it from there: any limit from 8 on is enough, and the very
/// float comes back, a NaN as the NaN and a zero with its sign.
pub fn round_trip_of_f64<C: Config>(
    alloc: Global,
    value: f64,
    slice: &mut [u8],
    config: C,
) -> Result<RoundTrip<f64>, EncodeError>
    ensures { Allows C.bound 8 → IfOk result (λ trip. MatchResult trip.read
        (λ x. (value ≡ x.0) × (x.1 ≡ trip.written)) (MayReportMemory ⊥)) }
{
    let written = encode_into_slice(value, slice, config)?;
    let read = decode_from_slice(alloc, slice, config);
    Ok(RoundTrip { written, read })
}

/// A float beside a number, which is equal to what comes back.
pub fn round_trip_of_ordered<C: Config>(
    alloc: Global,
    value: &(u32, OrderedFloat<f64>),
    slice: &mut [u8],
    config: C,
) -> Result<RoundTrip<(u32, OrderedFloat<f64>)>, EncodeError>
    ensures { Allows C.bound 12 → IfOk result (λ trip. MatchResult trip.read
        (λ x. (⟦<(u32, OrderedFloat<f64>) as PartialEq>⟧.eq value.now x.0 ≡ true) × (x.1 ≡ trip.written))
        (MayReportMemory (⟦<(u32, OrderedFloat<f64>) as Wire>⟧.words.may_allocate))) }
{
    round_trip_within(alloc, value, slice, config)
}

/// Decodes a list of floats.
pub fn read_floats<C: Config>(
    alloc: Global,
    src: &[u8],
    config: C,
) -> Result<(Vec<f64>, usize), DecodeError> {
    decode_from_slice(alloc, src, config)
}

/// Decodes a map by floats.
pub fn read_map<C: Config>(
    alloc: Global,
    src: &[u8],
    config: C,
) -> Result<(BTreeMap<OrderedFloat<f64>, u8>, usize), DecodeError> {
    decode_from_slice(alloc, src, config)
}
