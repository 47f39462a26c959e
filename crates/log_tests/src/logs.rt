//! Logs of payments: whole, cut at each byte, damaged, and with a payment that is refused. The checks are Python's.

use bincode::config;
use framed_store::appending::append;
use replay::replay::{Failure, ReplayError, Replayed, replay};
use std::alloc::{AllocError, Global};
use tills::till::{Full, Till};

/// The frames of payments of 7, of 300 and of 7 again.
pub const LOG: [u8; 29] = [
    1, 0, 0, 0, 7, 114, 125, 169, 169, 3, 0, 0, 0, 251, 44, 1, 226, 82, 158, 82, 1, 0, 0, 0, 7,
    114, 125, 169, 169,
];

/// The same with a bit of 300 changed.
const DAMAGED: [u8; 29] = [
    1, 0, 0, 0, 7, 114, 125, 169, 169, 3, 0, 0, 0, 251, 45, 1, 226, 82, 158, 82, 1, 0, 0, 0, 7,
    114, 125, 169, 169,
];

/// A payment of 7, and then the first byte of three of a payment.
const SHORT: [u8; 18] = [
    1, 0, 0, 0, 7, 114, 125, 169, 169, 1, 0, 0, 0, 251, 215, 221, 132, 23,
];

/// A frame of two payments.
const TWICE: [u8; 10] = [2, 0, 0, 0, 7, 7, 231, 113, 1, 34];

/// The greatest length of an encoding in these logs.
const LONGEST: u32 = 3;

/// Replays a log into a till.
fn replay_into(
    alloc: Global,
    till: &mut Till,
    mut log: &[u8],
    longest: u32,
) -> Result<Replayed, ReplayError<Full>> {
    let mut buffer = Vec::new(alloc);
    replay(
        alloc,
        till,
        &mut log,
        &mut buffer,
        config::standard(),
        longest,
    )
}

/// Whether a log comes to this sum and this end.
fn comes_to(alloc: Global, log: &[u8], sum: u32, end: Replayed) -> bool {
    let mut till = Till {
        held: 0,
        most: 1000,
    };
    let replayed = replay_into(alloc, &mut till, log, LONGEST);
    till.held == sum && matches!(replayed, Ok(found) if found == end)
}

/// The sum of the payments that stand whole in a front of the log, their number, and the offset after them.
pub fn stage_of(length: usize) -> (u32, u64, usize) {
    match length {
        0..9 => (0, 0, 0),
        9..20 => (7, 1, 9),
        20..29 => (307, 2, 20),
        _ => (314, 3, 29),
    }
}

/// Whether the front of the log comes to the sum of the payments that stand whole in it.
fn replays_front(alloc: Global, length: usize) -> bool {
    let Some(front) = LOG.get(..length) else {
        return false;
    };
    let (sum, commands, end) = stage_of(length);
    let end = Replayed {
        commands,
        length: end,
        is_torn: end < length,
    };
    comes_to(alloc, front, sum, end)
}

#[test]
fn replays_each_front(rt: HostRuntime) {
    for length in 0..=LOG.len() {
        assert!(rt; replays_front(rt.alloc(), length), "{length}");
    }
}

/// Why a log stops.
#[derive(Clone, Copy, PartialEq)]
enum Why {
    Full,
    Damaged,
    Undecodable,
    Longer(usize),
    TooLong(u32),
}

/// Whether a replay failed for this.
fn is_for(failure: &Failure<Full>, why: Why) -> bool {
    match failure {
        Failure::Refused(Full) => why == Why::Full,
        Failure::Damaged => why == Why::Damaged,
        Failure::Undecodable(_) => why == Why::Undecodable,
        Failure::Longer { taken } => why == Why::Longer(*taken),
        Failure::TooLong(length) => why == Why::TooLong(*length),
        _ => false,
    }
}

/// Where a log stops: what the till holds there, the number of the command and its offset.
type Place = (u32, u64, usize);

/// A log, the size of the till, the longest encoding that the log takes, and where and why it stops.
type Stop = (&'static [u8], u32, u32, Place, Why);

/// Payments that the till refuses, a damaged frame, and frames that hold no payment.
static STOPS: [Stop; 6] = [
    (&LOG, 306, LONGEST, (7, 1, 9), Why::Full),
    (&LOG, 313, LONGEST, (307, 2, 20), Why::Full),
    (&DAMAGED, 1000, LONGEST, (7, 1, 9), Why::Damaged),
    (&SHORT, 1000, LONGEST, (7, 1, 9), Why::Undecodable),
    (&TWICE, 1000, LONGEST, (0, 0, 0), Why::Longer(1)),
    (&LOG, 1000, 2, (7, 1, 9), Why::TooLong(3)),
];

/// Whether a log stops there.
fn stops(alloc: Global, (log, most, longest, place, why): Stop) -> bool {
    let mut till = Till { held: 0, most };
    match &replay_into(alloc, &mut till, log, longest) {
        Ok(_) => false,
        Err(error) => {
            (till.held, error.commands, error.offset) == place && is_for(&error.why, why)
        }
    }
}

/// The place of the first row that does not hold.
fn wrong_row(alloc: Global, rows: &[Stop]) -> Option<usize> {
    for (place, &stop) in rows.iter().enumerate() {
        if !stops(alloc, stop) {
            return Some(place);
        }
    }
    None
}

#[test]
fn tells_where_it_stops(rt: HostRuntime) {
    assert_eq!(rt; wrong_row(rt.alloc(), &STOPS), None);
}

/// Whether a torn log goes on, by a payment of 7, where its last whole frame ends.
fn goes_on(alloc: Global, log: &mut Vec<u8>) -> bool {
    let mut till = Till {
        held: 0,
        most: 1000,
    };
    match replay_into(alloc, &mut till, log.as_slice(), LONGEST) {
        Ok(replayed) if replayed.is_torn => {
            log.truncate(replayed.length);
            let appended = append(alloc, log, &7u16, config::standard(), LONGEST);
            matches!(appended, Ok(9)) && log.as_slice() == LOG.as_slice()
        }
        _ => false,
    }
}

#[test]
fn goes_on_after_a_torn_end(rt: HostRuntime) -> Result<(), AllocError> {
    let mut log = LOG[..25].to_vec(rt.alloc())?;
    assert!(rt; goes_on(rt.alloc(), &mut log));
    Ok(())
}
