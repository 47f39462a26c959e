//! Tuples, arrays, choices, ranges, durations and wrappers, of which the test vectors have some.

use crate::asserts::{all_true, rows_hold};
use crate::encodings::is_encoded;
use bincode::config;
use bincode::de::{Decode, collect_into_array};
use bincode::enc::Encode;
use bincode::error::DecodeError;
use bincode::time::Duration;
use std::alloc::Global;
use std::cmp::Reverse;
use std::marker::PhantomData;
use std::num::Wrapping;
use std::ops::{Bound, Range, RangeInclusive};
use std::time::Duration as StdDuration;
use test_helpers::checks::{is_passed, keeps, read_front, refuses_tag, within};

/// Tuples whose parts are of one type, by their length: the shortest, and those whose parts are grouped in another
/// way. The worked rows have those of two and of five parts, and a row below has the longest.
type One<T> = (T,);

type Three<T> = (T, T, T);

type Four<T> = (T, T, T, T);

type Eight<T> = (T, T, T, T, T, T, T, T);

type Nine<T> = (T, T, T, T, T, T, T, T, T);

/// The numbers from 0.
const COUNT: [u8; 16] = [0, 1, 2, 3, 4, 5, 6, 7, 8, 9, 10, 11, 12, 13, 14, 15];

/// Whether tuples keep their words, of a type whose words are single bytes.
fn keeps_tuples_of<T: Encode + Decode<()> + Copy>(alloc: Global) -> bool {
    keeps::<One<T>>(alloc, &COUNT[..1])
        && keeps::<Three<T>>(alloc, &COUNT[..3])
        && keeps::<Four<T>>(alloc, &COUNT[..4])
        && keeps::<Eight<T>>(alloc, &COUNT[..8])
        && keeps::<Nine<T>>(alloc, &COUNT[..9])
}

#[test]
fn keeps_tuples(rt: HostRuntime) {
    assert!(rt; keeps_tuples_of::<u8>(rt.alloc()));
}

#[test]
fn keeps_ranges_and_wrappers(rt: HostRuntime) {
    let alloc = rt.alloc();
    all_true(
        &rt,
        &[
            keeps::<Range<u8>>(alloc, &[1, 9]),
            keeps::<Wrapping<u8>>(alloc, &[7]),
            keeps::<Reverse<u8>>(alloc, &[8]),
            keeps::<PhantomData<u8>>(alloc, &[]),
        ],
    );
}

/// The longest tuple, of bytes.
type Sixteen = (
    u8,
    u8,
    u8,
    u8,
    u8,
    u8,
    u8,
    u8,
    u8,
    u8,
    u8,
    u8,
    u8,
    u8,
    u8,
    u8,
);

/// Whether the numbers from 0 are encoded as a tuple, and each part is decoded at its place: tuples of more than twelve
/// parts have no `==`.
fn keeps_sixteen(alloc: Global) -> bool {
    let value: Sixteen = (0, 1, 2, 3, 4, 5, 6, 7, 8, 9, 10, 11, 12, 13, 14, 15);
    let Some(v) = read_front::<Sixteen>(alloc, &COUNT, 16) else {
        return false;
    };
    let parts = [
        v.0, v.1, v.2, v.3, v.4, v.5, v.6, v.7, v.8, v.9, v.10, v.11, v.12, v.13, v.14, v.15,
    ];
    parts == COUNT && is_encoded(&value, &COUNT, config::standard())
}

/// Whether a range with its end is encoded as both, and decoded as one that was not gone through.
fn keeps_a_range(alloc: Global) -> bool {
    let Some(range) = read_front::<RangeInclusive<u8>>(alloc, &[1, 5, 99], 2) else {
        return false;
    };
    range == (1..=5) && !range.is_empty() && is_encoded(&(1u8..=5u8), &[1, 5], config::standard())
}

/// Whether an error is encoded after its tag, and decoded as that error.
fn keeps_an_error(alloc: Global) -> bool {
    let read: Option<Result<(), u8>> = read_front(alloc, &[1, 7, 99], 2);
    let value: Result<(), u8> = Err(7);
    matches!(read, Some(Err(7))) && is_encoded(&value, &[1, 7], config::standard())
}

/// Whether this array was decoded, of so many bytes.
fn is_array<T: PartialEq + Drop>(
    read: Result<(T, usize), DecodeError>,
    array: T,
    length: usize,
) -> bool {
    match read {
        Ok((value, taken)) => value == array && taken == length,
        Err(_) => false,
    }
}

#[test]
fn keeps_composites(rt: HostRuntime) {
    let alloc = rt.alloc();
    rows_hold(
        &rt,
        &[
            ("sixteen bytes as a tuple", keeps_sixteen(alloc)),
            (
                "two u16 as an array, limits 3 and 4",
                is_passed(within::<[u16; 2], 3>(alloc, &[5, 6]))
                    && is_array(within::<[u16; 2], 4>(alloc, &[5, 6]), [5, 6], 2),
            ),
            (
                "no bytes as an empty array",
                is_array(within::<[u8; 0], 0>(alloc, &[]), [], 0),
            ),
            ("a range with its end", keeps_a_range(alloc)),
            ("an error beside a unit", keeps_an_error(alloc)),
        ],
    );
}

#[test]
fn names_a_tag_that_no_choice_has(rt: HostRuntime) {
    let alloc = rt.alloc();
    assert!(rt;
        refuses_tag::<Option<u8>>(alloc, 2, "Option", 1)
            && refuses_tag::<Result<u8, u8>>(alloc, 2, "Result", 1)
            && refuses_tag::<Bound<u8>>(alloc, 3, "Bound", 2)
    );
}

#[test]
fn converts_spans(rt: HostRuntime) {
    let span = Duration::new(1, 2_500_000_000);
    let converted = StdDuration::from(span);
    assert!(rt;
        span.as_secs() == 3
            && span.subsec_nanos() == 500_000_000
            && converted == StdDuration::new(3, 500_000_000)
            && Duration::from(converted) == span
            && Duration::default() == Duration::new(0, 0)
            && span < Duration::new(4, 0)
    );
}

/// What is collected of some items, and the next item.
type Collected = (Option<Result<[u8; 3], u8>>, Option<Result<u8, u8>>);

/// Collects three of these items.
fn collected(items: &[Result<u8, u8>]) -> Collected {
    let mut items = items.iter().copied();
    let collected = collect_into_array(&mut items);
    (collected, items.next())
}

#[test]
fn collects_into_arrays(rt: HostRuntime) {
    rows_hold(
        &rt,
        &[
            (
                "collected with an error",
                collected(&[Ok(1), Ok(2), Err(7), Ok(4)]) == (Some(Err(7)), Some(Ok(4))),
            ),
            (
                "collected from too few",
                collected(&[Ok(1), Ok(2)]) == (None, None),
            ),
            (
                "collected from more",
                collected(&[Ok(1), Ok(2), Ok(3), Ok(4)]) == (Some(Ok([1, 2, 3])), Some(Ok(4))),
            ),
        ],
    );
}
