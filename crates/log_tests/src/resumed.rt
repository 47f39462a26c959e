//! Replaying numbered payments from a snapshot on: of 7, of 300 and of 7 again, from logs with all of them, with those
//! that the snapshot lacks, and with some missing. The checks are Python's.

use crate::snapshots_of_tills::SECOND;
use bincode::config;
use replay::replay::{Failure, ReplayError, Replayed};
use snapshots::numbered::{Numbered, NumberedRefusal};
use snapshots::resume::replay_from;
use snapshots::resuming::{ResumeError, resume_machine};
use snapshots::saving::RestoreError;
use snapshots::snapshot::LoadError;
use std::alloc::Global;
use tills::till::{Full, Till};

/// The frames of the payments 0 to 2, of which the last two begin at the bytes 10 and 22.
static LOG: [u8; 32] = [
    2, 0, 0, 0, 0, 7, 162, 184, 108, 88, 4, 0, 0, 0, 1, 251, 44, 1, 136, 215, 213, 33, 2, 0, 0, 0,
    2, 7, 76, 136, 41, 127,
];

/// The greatest length of an encoding in the log.
const LONGEST: u32 = 12;

/// A till with the sum of this many payments.
fn till_after(payments: u64, most: u32) -> Numbered<Till> {
    let held = match payments {
        0 => 0,
        1 => 7,
        2 => 307,
        _ => 314,
    };
    Numbered {
        next: payments,
        machine: Till { held, most },
    }
}

/// Replays a log into a till.
fn replay_into(
    alloc: Global,
    till: &mut Numbered<Till>,
    mut log: &[u8],
) -> Result<Replayed, ReplayError<NumberedRefusal<Full>>> {
    let mut buffer = Vec::new(alloc);
    replay_from(
        alloc,
        till,
        &mut log,
        &mut buffer,
        config::standard(),
        LONGEST,
    )
}

/// Whether the log from a byte on comes to all three payments, from a till that has the first of them.
fn comes_to_all(alloc: Global, payments: u64, from: usize) -> bool {
    let mut till = till_after(payments, 1000);
    match LOG.get(from..) {
        Some(log) => { replay_into(alloc, &mut till, log).is_ok() && till == till_after(3, 1000) }
        None => false,
    }
}

/// How many payments a till has, and the byte from which on the log is replayed into it.
static STARTS: [(u64, usize); 8] = [
    (0, 0),
    (1, 0),
    (2, 0),
    (3, 0),
    (1, 10),
    (2, 10),
    (2, 22),
    (3, 32),
];

#[test]
fn passes_over_what_it_has(rt: HostRuntime) {
    for (payments, from) in STARTS {
        assert!(rt;
            comes_to_all(rt.alloc(), payments, from),
            "{payments}, {from}"
        );
    }
}

#[test]
fn tells_a_torn_end(rt: HostRuntime) {
    let mut till = till_after(1, 1000);
    let replayed = replay_into(rt.alloc(), &mut till, &LOG[..31]);
    let end = Replayed {
        commands: 2,
        length: 22,
        is_torn: true,
    };
    assert!(rt; matches!(replayed, Ok(found) if found == end) && till == till_after(2, 1000));
}

/// Why numbered payments stop.
#[derive(Clone, Copy, PartialEq)]
enum Why {
    Full,
    Missing(u64, u64),
    NoNumber,
}

/// Whether a replay stopped after this many payments, at this byte and for this.
fn is_stop(
    error: &ReplayError<NumberedRefusal<Full>>,
    (commands, offset, why): (u64, usize, Why),
) -> bool {
    let is_why = match &error.why {
        Failure::Refused(NumberedRefusal::Refused(Full)) => why == Why::Full,
        Failure::Refused(NumberedRefusal::Missing { expected, found }) => {
            why == Why::Missing(*expected, *found)
        }
        Failure::Refused(NumberedRefusal::NoNumber) => why == Why::NoNumber,
        _ => false,
    };
    is_why && error.commands == commands && error.offset == offset
}

/// Whether a log stops there, and leaves the till as it was.
fn stops(alloc: Global, start: Numbered<Till>, log: &[u8], stop: (u64, usize, Why)) -> bool {
    let mut till = start;
    match &replay_into(alloc, &mut till, log) {
        Ok(_) => false,
        Err(error) => is_stop(error, stop) && till == start,
    }
}

/// A payment with the last number.
const LAST: [u8; 18] = [
    10, 0, 0, 0, 253, 255, 255, 255, 255, 255, 255, 255, 255, 7, 157, 151, 25, 37,
];

#[test]
fn refuses_where_payments_are_missing(rt: HostRuntime) {
    let missing = (0, 0, Why::Missing(1, 2));
    assert!(rt; stops(rt.alloc(), till_after(1, 1000), &LOG[22..], missing));
}

#[test]
fn tells_what_the_till_refuses(rt: HostRuntime) {
    assert!(rt; stops(rt.alloc(), till_after(1, 100), &LOG, (1, 10, Why::Full)));
}

#[test]
fn refuses_the_last_number(rt: HostRuntime) {
    let till = Numbered {
        next: u64::MAX,
        machine: Till {
            held: 7,
            most: 1000,
        },
    };
    assert!(rt; stops(rt.alloc(), till, &LAST, (0, 0, Why::NoNumber)));
}

/// The till of a snapshot and a log.
fn resumed(
    alloc: Global,
    snapshot: &[u8],
    mut log: &[u8],
) -> Result<(Numbered<Till>, Replayed), ResumeError<Full>> {
    let mut buffer = Vec::new(alloc);
    resume_machine(
        alloc,
        snapshot,
        &mut log,
        &mut buffer,
        config::standard(),
        LONGEST,
    )
}

/// Whether a front of the log comes to three payments if it is whole, and else to the two of the snapshot.
fn resumes_front(alloc: Global, length: usize) -> bool {
    let Some(front) = LOG.get(..length) else {
        return false;
    };
    let payments = if length == LOG.len() { 3 } else { 2 };
    matches!(resumed(alloc, &SECOND, front), Ok((till, _)) if till == till_after(payments, 1000))
}

#[test]
fn resumes_from_a_snapshot_and_each_front(rt: HostRuntime) {
    for length in 0..=LOG.len() {
        assert!(rt; resumes_front(rt.alloc(), length), "{length}");
    }
}

/// Whether bytes are told as too short for a snapshot.
fn is_short(alloc: Global, snapshot: &[u8]) -> bool {
    matches!(
        resumed(alloc, snapshot, &LOG),
        Err(ResumeError::Snapshot(RestoreError::Load(LoadError::Short)))
    )
}

/// Whether a log of the payment 3 is told as one that lacks the payment 2.
fn lacks_second(alloc: Global) -> bool {
    match &resumed(alloc, &SECOND, &[2, 0, 0, 0, 3, 7, 59, 16, 139, 108]) {
        Err(ResumeError::Log(error)) => is_stop(error, (0, 0, Why::Missing(2, 3))),
        _ => false,
    }
}

#[test]
fn tells_whether_snapshot_or_log_is_wrong(rt: HostRuntime) {
    assert!(rt; is_short(rt.alloc(), &[]) && lacks_second(rt.alloc()));
}
