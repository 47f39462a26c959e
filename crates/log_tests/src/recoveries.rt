//! Recovering logs: cut at each byte, with a crash in each call and at each byte of the cut, and what is refused.

use crate::device_logs::{
    DAMAGED, LONGEST, ONE, Place, TWO, device_with, front, pay, recover_into, recovers_to,
};
use crash_device::device::DeviceError;
use crash_device::memory::{Call, Memory};
use durable_log::recovering::RecoverError;
use replay::replay::{Failure, ReplayError};
use std::alloc::Global;
use tills::till::{Full, Till};

/// The end of the last payment that stands whole in a front of the log.
fn whole_end(length: usize) -> usize {
    match length {
        0..9 => 0,
        9..20 => ONE,
        20..29 => TWO,
        _ => 29,
    }
}

/// Whether what is recovered of a front of the log is the payments that stand whole in it, and the next one follows.
fn recovers_front(alloc: Global, length: usize) -> bool {
    let Some(mut device) = device_with(alloc, front(length), None) else {
        return false;
    };
    let end = whole_end(length);
    recovers_to(alloc, &mut device, end)
        && pay(alloc, &mut device, 7, LONGEST).is_ok()
        && device.log().len() == end.saturating_add(ONE)
}

/// The length of a front of which something else is recovered.
fn wrong_front(alloc: Global) -> Option<usize> {
    for length in 0..=29 {
        if !recovers_front(alloc, length) {
            return Some(length);
        }
    }
    None
}

#[test]
fn recovers_each_front(rt: HostRuntime) {
    assert_eq!(rt; wrong_front(rt.alloc()), None);
}

/// Whether a recovery fails in this call where the device crashes there, and a second one gives the payment that stands
/// whole in the log.
fn recovers_after(alloc: Global, crash: Place, call: Call) -> bool {
    let Some(mut device) = device_with(alloc, front(15), Some(crash)) else {
        return false;
    };
    let mut till = Till {
        held: 0,
        most: 1000,
    };
    let told = recover_into(alloc, &mut till, &mut device);
    matches!(told, Err(RecoverError::Device(DeviceError::Failed)))
        && device.failures() == [call].as_slice()
        && recovers_to(alloc, &mut device, ONE)
}

/// The number of bytes of a cut after which something else is recovered.
fn wrong_byte(alloc: Global) -> Option<usize> {
    for bytes in 0..=7 {
        if !recovers_after(alloc, (1, bytes), Call::Cut) {
            return Some(bytes);
        }
    }
    None
}

#[test]
fn crashes_in_a_recovery(rt: HostRuntime) {
    assert_eq!(rt; wrong_byte(rt.alloc()), None);
    assert!(rt;
        recovers_after(rt.alloc(), (0, 0), Call::ReadLog)
            && recovers_after(rt.alloc(), (2, 0), Call::Sync)
    );
}

/// Whether the recovery of a log into a till of this size stops at its second frame, since that is damaged or since the
/// payment is refused.
fn stops(alloc: Global, device: &mut Memory, most: u32, is_damaged: bool) -> bool {
    let mut till = Till { held: 0, most };
    match &recover_into(alloc, &mut till, device) {
        Err(RecoverError::Replay(ReplayError { offset: 9, why, .. })) => {
            till.held == 7
                && match why {
                    Failure::Damaged => is_damaged,
                    Failure::Refused(Full) => !is_damaged,
                    _ => false,
                }
        }
        _ => false,
    }
}

/// Whether it stops so, and nothing of the log is cut.
fn leaves(alloc: Global, log: &[u8], most: u32, is_damaged: bool) -> bool {
    match device_with(alloc, log, None) {
        Some(mut device) => stops(alloc, &mut device, most, is_damaged) && device.log() == log,
        None => false,
    }
}

#[test]
fn cuts_nothing_of_a_damaged_log(rt: HostRuntime) {
    assert!(rt; leaves(rt.alloc(), &DAMAGED, 1000, true));
}

#[test]
fn tells_a_command_that_is_refused(rt: HostRuntime) {
    assert!(rt; leaves(rt.alloc(), front(29), 306, false));
}
