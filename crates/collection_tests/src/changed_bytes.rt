//! Encodings of the test vectors: cut at each place, and with another first byte of a number, a length or a tag.

use crate::encodings::Outcome::{Ends, NoVariant, Passed, Read, Wide};
use crate::encodings::{Kind, LISTS, Outcome, Row, SCALARS, WHOLES};
use bincode::config::{
    BigEndian, Config, Configuration, Fixint, InternalLimitConfig, Limit, LittleEndian, NoLimit,
    Varint,
};
use bincode::de::{BorrowDecode, Decode};
use bincode::error::DecodeError;
use bincode::time::Duration;
use bincode::{borrow_decode_from_slice, decode_from_slice, decode_from_slice_with_context};
use bumpalo::Bump;
use own_types::arena::ArenaList;
use std::alloc::Global;
use std::cell::{Cell, RefCell};
use std::collections::BTreeMap;
use std::net::{IpAddr, Ipv4Addr, SocketAddrV6};
use std::ops::Bound;

/// How many bytes a value of the type takes.
fn taken<T: Decode<()>, C: Config>(
    alloc: Global,
    config: C,
    input: &[u8],
) -> Result<usize, DecodeError> {
    let (_, count): (T, usize) = decode_from_slice(alloc, input, config)?;
    Ok(count)
}

/// How many bytes a value that borrows takes.
fn lent<'a, T: BorrowDecode<&'a [u8], ()>, C: Config>(
    alloc: Global,
    config: C,
    input: &'a [u8],
) -> Result<usize, DecodeError> {
    let (_, count): (T, usize) = borrow_decode_from_slice(alloc, input, config)?;
    Ok(count)
}

/// How many bytes a list in an arena takes.
fn taken_into_arena<C: Config>(
    alloc: Global,
    config: C,
    input: &[u8],
) -> Result<usize, DecodeError> {
    let bump = Bump::new(alloc);
    let outcome: Result<(ArenaList<'_, u32>, usize), DecodeError> = decode_from_slice_with_context(
        alloc, input, config, &bump,
    );
    match outcome {
        Ok((_, count)) => Ok(count),
        Err(error) => Err(error),
    }
}

/// How many bytes of an input are read as the kind of a row under a limit, or why none are.
fn read_as<L: InternalLimitConfig + Copy>(
    alloc: Global,
    kind: Kind,
    _limit: L,
    input: &[u8],
) -> Result<usize, DecodeError> {
    let config = Configuration::<LittleEndian, Varint, L>::default();
    let big = Configuration::<BigEndian, Varint, L>::default();
    let legacy = Configuration::<LittleEndian, Fixint, L>::default();
    let legacy_big = Configuration::<BigEndian, Fixint, L>::default();
    match kind {
        Kind::U8 => taken::<u8, _>(alloc, config, input),
        Kind::U16 => taken::<u16, _>(alloc, config, input),
        Kind::BigU16 => taken::<u16, _>(alloc, big, input),
        Kind::U32 => taken::<u32, _>(alloc, config, input),
        Kind::LegacyBigU32 => taken::<u32, _>(alloc, legacy_big, input),
        Kind::U128 => taken::<u128, _>(alloc, config, input),
        Kind::I8 => taken::<i8, _>(alloc, config, input),
        Kind::I16 => taken::<i16, _>(alloc, config, input),
        Kind::BigI16 => taken::<i16, _>(alloc, big, input),
        Kind::I64 => taken::<i64, _>(alloc, config, input),
        Kind::I128 => taken::<i128, _>(alloc, config, input),
        Kind::Char => taken::<char, _>(alloc, config, input),
        Kind::Unit => taken::<(), _>(alloc, config, input),
        Kind::Five => taken::<(u8, u32, i128, char, [u8; 4]), _>(alloc, config, input),
        Kind::Pair => taken::<(u8, u32), _>(alloc, config, input),
        Kind::TwoU32 => taken::<(u32, u32), _>(alloc, config, input),
        Kind::TwoU64 => taken::<(u64, u64), _>(alloc, config, input),
        Kind::Duration => taken::<Duration, _>(alloc, config, input),
        Kind::CellU32 => taken::<Cell<u32>, _>(alloc, config, input),
        Kind::RefCellU32 => taken::<RefCell<u32>, _>(alloc, config, input),
        Kind::LegacyOption => taken::<Option<u32>, _>(alloc, legacy, input),
        Kind::LegacyResult => taken::<Result<u8, u8>, _>(alloc, legacy, input),
        Kind::Bound => taken::<Bound<u8>, _>(alloc, config, input),
        Kind::Lists => taken::<Vec<Vec<u8>>, _>(alloc, config, input),
        Kind::List => taken::<Vec<u32>, _>(alloc, config, input),
        Kind::LegacyList => taken::<Vec<u32>, _>(alloc, legacy, input),
        Kind::Units => taken::<Vec<()>, _>(alloc, config, input),
        Kind::Options => taken::<Vec<Option<()>>, _>(alloc, config, input),
        Kind::ArenaList => taken_into_arena(alloc, config, input),
        Kind::NumberAndList => taken::<(u8, Vec<u16>), _>(alloc, config, input),
        Kind::Map => taken::<BTreeMap<u8, u8>, _>(alloc, config, input),
        Kind::Texts => lent::<Vec<&str>, _>(alloc, config, input),
        Kind::ThreeTexts => lent::<[&str; 3], _>(alloc, config, input),
        Kind::Ip => taken::<IpAddr, _>(alloc, config, input),
        Kind::LegacyIp => taken::<IpAddr, _>(alloc, legacy, input),
        Kind::Ipv4 => taken::<Ipv4Addr, _>(alloc, config, input),
        Kind::SocketV6 => taken::<SocketAddrV6, _>(alloc, config, input),
    }
}

/// The same. Retries once if an allocation is refused.
fn answer<L: InternalLimitConfig + Copy>(
    alloc: Global,
    kind: Kind,
    limit: L,
    input: &[u8],
) -> Result<usize, DecodeError> {
    match read_as(alloc, kind, limit, input) {
        Err(DecodeError::Memory) => read_as(alloc, kind, limit, input),
        outcome => outcome,
    }
}

/// Whether the error is the one expected.
fn is_fault(error: &DecodeError, outcome: Outcome) -> bool {
    match (error, outcome) {
        (DecodeError::UnexpectedEnd { additional: _ }, Ends) => true,
        (DecodeError::LimitExceeded, Passed) => true,
        (DecodeError::InvalidIntegerType { expected, found }, Wide(wanted, seen)) => {
            *expected == wanted && *found == seen
        }
        (
            DecodeError::UnexpectedVariant {
                type_name: _,
                found,
                min,
                max,
            },
            NoVariant(tag, greatest),
        ) => *found == tag && *min == 0 && *max == greatest,
        _ => false,
    }
}

/// Whether the outcome is the one expected.
fn is_outcome(taken: &Result<usize, DecodeError>, expected: Outcome) -> bool {
    match taken {
        Ok(count) => matches!(expected, Read(wanted) if *count == wanted),
        Err(error) => is_fault(error, expected),
    }
}

/// Whether the whole encoding is read, and each prefix that is shorter ends early.
fn ends_where_it_is_cut(alloc: Global, row: &Row) -> bool {
    let length = row.encoding.len();
    for count in 0..length {
        if !is_outcome(
            &answer(alloc, row.kind, NoLimit, &row.encoding[..count]),
            Ends,
        ) {
            return false;
        }
    }
    is_outcome(
        &answer(alloc, row.kind, NoLimit, row.encoding),
        Read(length),
    )
}

/// The label of the first row with an encoding that does not end so.
fn first_that_goes_on(alloc: Global, rows: &[Row]) -> Option<&'static str> {
    for row in rows {
        if !ends_where_it_is_cut(alloc, row) {
            return Some(row.label);
        }
    }
    None
}

/// each word cut at each place
#[test]
fn ends_where_encodings_are_cut(rt: HostRuntime) {
    for rows in [SCALARS.as_slice(), WHOLES.as_slice(), LISTS.as_slice()] {
        assert_eq!(rt; first_that_goes_on(rt.alloc(), rows), None);
    }
}

/// Whether this is the result within 100000 for the encoding with another byte at a place.
fn is_outcome_of(alloc: Global, row: &Row, place: usize, byte: u8, expected: Outcome) -> bool {
    let mut bytes = [0u8; 19];
    let Some(input) = bytes.get_mut(..row.encoding.len()) else {
        return false;
    };
    input.copy_from_slice(row.encoding);
    let Some(first) = input.get_mut(place) else {
        return false;
    };
    *first = byte;
    is_outcome(&answer(alloc, row.kind, Limit::<100_000>, input), expected)
}

/// The first place of a row, and the first byte there, with another result.
fn first_unexpected(alloc: Global, row: &Row) -> Option<(&'static str, usize, u8)> {
    for (place, answers) in row.tags {
        let mut byte = 251u8;
        for expected in answers.iter() {
            if !is_outcome_of(alloc, row, *place, byte, *expected) {
                return Some((row.label, *place, byte));
            }
            byte = byte.saturating_add(1);
        }
    }
    None
}

/// each first byte in place of each tag
#[test]
fn answers_to_other_first_bytes(rt: HostRuntime) {
    for rows in [SCALARS.as_slice(), WHOLES.as_slice(), LISTS.as_slice()] {
        for row in rows {
            assert_eq!(rt; first_unexpected(rt.alloc(), row), None);
        }
    }
}
