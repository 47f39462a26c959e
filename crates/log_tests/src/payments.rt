//! Payments that are appended under their numbers and applied, from a first snapshot on, and with a crash at each byte.

use crate::device_logs::{Place, is_told};
use crate::tills_on_devices::{
    NONE, PAYMENTS, TWO_PAID, WIDEST, compact_till, paid, resumes_as, till_after, till_device,
};
use bincode::config;
use crash_device::memory::Memory;
use durable_log::appending::CommandError;
use durable_log::machines::{append_next, apply_next};
use framed_store::appending::AppendError;
use snapshots::numbered::{Numbered, NumberedRefusal};
use std::alloc::Global;
use tills::till::{Full, Till};

/// Appends a payment to the log of a till, and applies it. Tells whether both were done.
fn pay_next(alloc: Global, device: &mut Memory, till: &mut Numbered<Till>, payment: u16) -> bool {
    match append_next(alloc, device, till, payment, config::standard(), WIDEST) {
        Ok(next) => apply_next(till, next).is_ok(),
        Err(_) => false,
    }
}

/// Whether a snapshot of a till is made, and is this one.
fn compacts(alloc: Global, device: &mut Memory, till: &Numbered<Till>, snapshot: &[u8]) -> bool {
    compact_till(alloc, device, till).is_ok() && device.snapshot() == snapshot
}

/// Whether a first snapshot is made, and two payments after it come back.
fn pays_two(alloc: Global, device: &mut Memory, till: &mut Numbered<Till>) -> bool {
    compacts(alloc, device, till, &NONE)
        && pay_next(alloc, device, till, 7)
        && pay_next(alloc, device, till, 300)
        && *till == till_after(2)
        && resumes_as(alloc, device, 2, &NONE, paid(22))
}

/// Whether a snapshot of these is made, and the next payment after it comes back.
fn pays_third(alloc: Global, device: &mut Memory, till: &mut Numbered<Till>) -> bool {
    compacts(alloc, device, till, &TWO_PAID)
        && pay_next(alloc, device, till, 7)
        && resumes_as(alloc, device, 3, &TWO_PAID, &PAYMENTS[22..])
}

/// Whether both is so, on a device that had a log of something else.
fn pays_all(alloc: Global) -> bool {
    let mut till = till_after(0);
    match till_device(alloc, &[], &[1, 2], None) {
        Some(mut device) => {
            pays_two(alloc, &mut device, &mut till) && pays_third(alloc, &mut device, &mut till)
        }
        None => false,
    }
}

#[test]
fn pays_from_a_first_snapshot_on(rt: HostRuntime) {
    assert!(rt; pays_all(rt.alloc()));
}

/// Whether the append of the second payment fails where the device crashes there, and this many come back then.
fn stands_for(alloc: Global, crash: Place, payments: u64, end: usize) -> bool {
    let Some(mut device) = till_device(alloc, &NONE, paid(10), Some(crash)) else {
        return false;
    };
    let till = till_after(1);
    let told = append_next(alloc, &mut device, &till, 300, config::standard(), WIDEST);
    is_told(&told.map(|_| ()), true) && resumes_as(alloc, &mut device, payments, &NONE, paid(end))
}

/// The number of bytes of a payment that stand where something else comes back than the payment before it.
fn wrong_byte(alloc: Global) -> Option<usize> {
    for bytes in 0..12 {
        if !stands_for(alloc, (0, bytes), 1, 10) {
            return Some(bytes);
        }
    }
    None
}

#[test]
fn stands_before_or_after_a_payment(rt: HostRuntime) {
    assert_eq!(rt; wrong_byte(rt.alloc()), None);
    assert!(rt; stands_for(rt.alloc(), (0, 12), 2, 22) && stands_for(rt.alloc(), (1, 0), 2, 22));
}

/// Whether a payment is too long for encodings of three bytes, and no call is made of a device that would crash in it.
fn refuses_long(alloc: Global) -> bool {
    let Some(mut device) = till_device(alloc, &NONE, &[], Some((0, 9))) else {
        return false;
    };
    let till = till_after(0);
    let told = append_next(alloc, &mut device, &till, 300, config::standard(), 3);
    matches!(
        told,
        Err(CommandError::Frame(AppendError::TooLong { length: 4, most: 3 }))
    ) && device.failures().is_empty()
}

#[test]
fn refuses_a_long_payment(rt: HostRuntime) {
    assert!(rt; refuses_long(rt.alloc()));
}

#[test]
fn leaves_a_till_that_refuses(rt: HostRuntime) {
    let mut till = till_after(3);
    let refused = apply_next(&mut till, (3, 1000));
    assert!(rt; matches!(refused, Err(NumberedRefusal::Refused(Full))) && till == till_after(3));
}
