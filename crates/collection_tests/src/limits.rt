//! What lists claim of a limit and when, and capacities that cannot be.

use crate::asserts::all_hold;
use bincode::config;
use bincode::error::{DecodeError, IntegerType};
use proved_callers::calls::round_trip_of_numbers;
use std::alloc::Global;
use test_helpers::checks::{decoded, fault_of, is_cut, is_passed, within};

/// What decoding returns: a value and how many bytes it takes, or an error.
type Outcome<T> = Result<(T, usize), DecodeError>;

/// a length beyond all memory
#[test]
fn refuses_room_that_cannot_be(rt: HostRuntime) {
    let fault = fault_of::<Vec<u32>>(rt.alloc(), &[253, 255, 255, 255, 255, 255, 255, 255, 255]);
    assert!(rt; matches!(fault, Some(DecodeError::Memory)));
}

/// Whether a list of one empty list was decoded, in a list by itself, from three bytes.
fn is_one_in_one(outcome: Outcome<Vec<Vec<Vec<u8>>>>) -> bool {
    let Ok((lists, 3)) = outcome else {
        return false;
    };
    let [list] = lists.as_slice() else {
        return false;
    };
    let [empty] = list.as_slice() else {
        return false;
    };
    empty.is_empty()
}

/// Whether 2 was found where an `Option` begins.
fn is_no_option(outcome: Outcome<Vec<Option<u8>>>) -> bool {
    matches!(
        outcome,
        Err(DecodeError::UnexpectedVariant {
            type_name: _,
            found: 2,
            min: 0,
            max: 1
        })
    )
}

/// Whether the byte 255 was found where a `u16` begins.
fn is_reserved(fault: Option<DecodeError>) -> bool {
    let Some(DecodeError::InvalidIntegerType { expected, found }) = fault else {
        return false;
    };
    expected == IntegerType::U16 && found == IntegerType::Reserved
}

/// Whether 256 was decoded twice, from seven bytes.
fn is_twice_256(outcome: Outcome<Vec<u16>>) -> bool {
    let Ok((numbers, 7)) = outcome else {
        return false;
    };
    numbers.as_slice() == [256, 256].as_slice()
}

/// A list of 9 in a list of two, of which the second is cut.
const CUT: [u8; 4] = [2, 1, 9, 1];

/// A length of 2^32, and nothing after it.
const MANY: [u8; 9] = [253, 0, 0, 0, 0, 1, 0, 0, 0];

/// The list of 256 and 256.
const WIDE: [u8; 7] = [2, 251, 0, 1, 251, 0, 1];

/// For a list in a list 24 are claimed, and given back where it begins; for an `Option<u8>` and a `u16` 2 are.
#[test]
fn claims_for_what_lists_hold(rt: HostRuntime) {
    let alloc = rt.alloc();
    let config = config::standard();
    all_hold(
        &rt,
        &[
            (
                "a list in a list, cut within a limit",
                is_passed(within::<Vec<Vec<u8>>, 55>(alloc, &CUT))
                    && is_cut::<(Vec<Vec<u8>>, usize)>(decoded(
                        alloc,
                        &CUT,
                        config.with_limit::<56>(),
                    ))
                    && is_cut::<(Vec<Vec<u8>>, usize)>(decoded(alloc, &CUT, config)),
            ),
            (
                "lists in lists, limits 39 and 40",
                is_passed::<(Vec<Vec<Vec<u8>>>, usize)>(decoded(
                    alloc,
                    &[1, 1, 0],
                    config.with_limit::<39>(),
                )) && is_one_in_one(decoded(alloc, &[1, 1, 0], config.with_limit::<40>())),
            ),
            (
                "four billion lists",
                is_passed(within::<Vec<Vec<u8>>, 65_536>(alloc, &MANY)),
            ),
            (
                "options, limits 11 and 12",
                is_passed(within::<Vec<Option<u8>>, 11>(alloc, &[2, 0, 2]))
                    && is_no_option(decoded(alloc, &[2, 0, 2], config.with_limit::<12>())),
            ),
            (
                "a reserved tag in a list",
                is_reserved(fault_of::<Vec<u16>>(alloc, &[2, 255])),
            ),
            (
                "a list of wide numbers, limits 11 and 12",
                is_passed(within::<Vec<u16>, 11>(alloc, &WIDE))
                    && is_twice_256(decoded(alloc, &WIDE, config.with_limit::<12>())),
            ),
        ],
    );
}

/// What is read back of a number and four within 24.
fn reads_back(alloc: Global) -> Option<Outcome<(u64, [u32; 4])>> {
    let mut slice = [9u8; 8];
    let config = config::standard().with_limit::<24>();
    let trip = round_trip_of_numbers(alloc, &(7, [1, 2, 3, 300]), &mut slice, config).ok()?;
    Some(trip.read)
}

/// Eight bytes and the room of four numbers of four are within 24.
#[test]
fn reads_back_within_the_peak(rt: HostRuntime) {
    let Some(Ok((numbers, 7))) = reads_back(rt.alloc()) else {
        assert!(rt; false);
        return;
    };
    assert!(rt; numbers == (7, [1, 2, 3, 300]));
}
