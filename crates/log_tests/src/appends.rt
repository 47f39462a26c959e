//! Appending payments: the files after each, and after a crash in each call and at each byte.

use crate::device_logs::{
    LONGEST, ONE, Place, TWO, device_with, front, is_told, pay, recovers, recovers_to,
};
use bincode::config;
use crash_device::memory::Memory;
use durable_log::appending::CommandError;
use durable_log::runs::append_commands;
use framed_store::appending::AppendError;
use std::alloc::Global;

/// Whether a payment is appended, and the log is then the front of this length.
fn appends(alloc: Global, device: &mut Memory, payment: u16, end: usize) -> bool {
    pay(alloc, device, payment, LONGEST).is_ok() && device.log() == front(end)
}

/// Whether three payments are appended one after another, and recovered.
fn appends_three(alloc: Global) -> bool {
    let Some(mut device) = device_with(alloc, &[], None) else {
        return false;
    };
    for (payment, end) in [(7, ONE), (300, TWO), (7, 29)] {
        if !appends(alloc, &mut device, payment, end) {
            return false;
        }
    }
    recovers_to(alloc, &mut device, 29)
}

/// Whether nothing is recovered of an empty log.
fn recovers_nothing(alloc: Global) -> bool {
    match device_with(alloc, &[], None) {
        Some(mut device) => recovers_to(alloc, &mut device, 0),
        None => false,
    }
}

#[test]
fn appends_in_order(rt: HostRuntime) {
    assert!(rt; recovers_nothing(rt.alloc()) && appends_three(rt.alloc()));
}

/// Whether the append of 300 to a log of 7 fails or not where the device crashes there, and what is recovered then is
/// the payments up to this end.
fn stands(alloc: Global, crash: Place, fails: bool, end: usize) -> bool {
    let Some(mut device) = device_with(alloc, front(ONE), Some(crash)) else {
        return false;
    };
    let told = pay(alloc, &mut device, 300, LONGEST);
    is_told(&told, fails) && recovers_to(alloc, &mut device, end)
}

/// The number of bytes that stand of an append that does not stand whole, or the first that does not hold.
fn wrong_byte(alloc: Global) -> Option<usize> {
    for bytes in 0..TWO - ONE {
        if !stands(alloc, (0, bytes), true, ONE) {
            return Some(bytes);
        }
    }
    None
}

/// The payment stands once all of its bytes do, even where the device fails after that.
#[test]
fn stands_at_each_byte(rt: HostRuntime) {
    assert_eq!(rt; wrong_byte(rt.alloc()), None);
    assert!(rt;
        stands(rt.alloc(), (0, TWO - ONE), true, TWO)
            && stands(rt.alloc(), (1, 0), true, TWO)
            && stands(rt.alloc(), (2, 0), false, TWO)
    );
}

/// Whether 300 is too long for encodings of two bytes, and no call is made of a device that would crash in it.
fn refuses_long(alloc: Global) -> bool {
    let Some(mut device) = device_with(alloc, front(29), Some((0, 5))) else {
        return false;
    };
    let told = pay(alloc, &mut device, 300, 2);
    matches!(
        told,
        Err(CommandError::Frame(AppendError::TooLong { length: 3, most: 2 }))
    ) && device.log() == front(29)
        && device.failures().is_empty()
}

#[test]
fn refuses_a_long_command(rt: HostRuntime) {
    assert!(rt; refuses_long(rt.alloc()));
}

/// Whether this many payments of 7 are appended.
fn pays_many(alloc: Global, device: &mut Memory, count: u32) -> bool {
    for _ in 0..count {
        if pay(alloc, device, 7, LONGEST).is_err() {
            return false;
        }
    }
    true
}

/// Whether 300 payments are appended, and recovered.
fn keeps_many(alloc: Global) -> bool {
    let Some(mut device) = device_with(alloc, &[], None) else {
        return false;
    };
    let is_paid = pays_many(alloc, &mut device, 300);
    match device.log().to_vec(alloc) {
        Ok(log) => {
            is_paid && log.len() == 2_700 && recovers(alloc, &mut device, (2_100, 300), &log)
        }
        Err(_) => false,
    }
}

#[test]
fn appends_many(rt: HostRuntime) {
    assert!(rt; keeps_many(rt.alloc()));
}

/// Whether a run of three payments fails or not where the device crashes there, and those up to this end are recovered.
fn stands_for_first(alloc: Global, crash: Place, fails: bool, end: usize) -> bool {
    let Some(mut device) = device_with(alloc, &[], Some(crash)) else {
        return false;
    };
    let told = append_commands(
        alloc,
        &mut device,
        &[7u16, 300, 7],
        config::standard(),
        LONGEST,
    );
    is_told(&told, fails) && recovers_to(alloc, &mut device, end)
}

/// Where the device crashes, whether that is told, and the end of what stands then.
static RUNS: [(Place, bool, usize); 6] = [
    ((0, 8), true, 0),
    ((1, 0), true, ONE),
    ((2, 10), true, ONE),
    ((4, 3), true, TWO),
    ((5, 0), true, 29),
    ((6, 0), false, 29),
];

/// The place of the first row that does not hold.
fn wrong_run(alloc: Global, rows: &[(Place, bool, usize)]) -> Option<usize> {
    for (place, &(crash, fails, end)) in rows.iter().enumerate() {
        if !stands_for_first(alloc, crash, fails, end) {
            return Some(place);
        }
    }
    None
}

#[test]
fn appends_a_run(rt: HostRuntime) {
    assert_eq!(rt; wrong_run(rt.alloc(), &RUNS), None);
}
