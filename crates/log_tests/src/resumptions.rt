//! Tills that come back from a snapshot and a log on a device: from a log cut at each byte, after a crash in each call,
//! and what is refused.

use crate::device_logs::Place;
use crate::tills_on_devices::{PAYMENTS, TWO_PAID, paid, resume_till, resumes_as, till_device};
use crash_device::device::DeviceError;
use crash_device::memory::{Call, Memory};
use durable_log::machines::ComeBackError;
use replay::replay::{Failure, ReplayError};
use snapshots::numbered::NumberedRefusal;
use snapshots::resuming::ResumeError;
use snapshots::saving::RestoreError;
use snapshots::snapshot::LoadError;
use std::alloc::Global;

/// The end of the last payment that stands whole in so many bytes of the log.
fn whole_end(length: usize) -> usize {
    match length {
        0..10 => 0,
        10..22 => 10,
        22..32 => 22,
        _ => 32,
    }
}

/// Whether a front of the log comes back as three payments if it is whole, and else as the two of the snapshot.
fn resumes_front(alloc: Global, length: usize) -> bool {
    let payments = if length == PAYMENTS.len() { 3 } else { 2 };
    match till_device(alloc, &TWO_PAID, paid(length), None) {
        Some(mut device) => {
            resumes_as(
                alloc,
                &mut device,
                payments,
                &TWO_PAID,
                paid(whole_end(length)),
            )
        }
        None => false,
    }
}

/// The length of a front that comes back as something else.
fn wrong_front(alloc: Global) -> Option<usize> {
    for length in 0..=PAYMENTS.len() {
        if !resumes_front(alloc, length) {
            return Some(length);
        }
    }
    None
}

#[test]
fn resumes_from_each_front(rt: HostRuntime) {
    assert_eq!(rt; wrong_front(rt.alloc()), None);
}

/// Whether the till does not come back where the device crashes in this call, and does so afterwards.
fn resumes_after(alloc: Global, crash: Place, call: Call) -> bool {
    let Some(mut device) = till_device(alloc, &TWO_PAID, paid(27), Some(crash)) else {
        return false;
    };
    let told = resume_till(alloc, &mut device);
    matches!(told, Err(ComeBackError::Device(DeviceError::Failed)))
        && device.failures() == [call].as_slice()
        && resumes_as(alloc, &mut device, 2, &TWO_PAID, paid(22))
}

/// The number of bytes of a cut after which something else comes back.
fn wrong_byte(alloc: Global) -> Option<usize> {
    for bytes in 0..=6 {
        if !resumes_after(alloc, (2, bytes), Call::Cut) {
            return Some(bytes);
        }
    }
    None
}

#[test]
fn crashes_in_a_resumption(rt: HostRuntime) {
    assert_eq!(rt; wrong_byte(rt.alloc()), None);
    assert!(rt;
        resumes_after(rt.alloc(), (0, 0), Call::ReadSnapshot)
            && resumes_after(rt.alloc(), (1, 0), Call::ReadLog)
            && resumes_after(rt.alloc(), (3, 0), Call::Sync)
    );
}

/// Whether the snapshot of a device is told as too short.
fn tells_short(alloc: Global, device: &mut Memory) -> bool {
    matches!(
        resume_till(alloc, device),
        Err(ComeBackError::Files(ResumeError::Snapshot(RestoreError::Load(LoadError::Short))))
    )
}

/// Whether its log is told as one that begins with the payment 3 where the payment 2 is missing.
fn tells_gap(alloc: Global, device: &mut Memory) -> bool {
    matches!(
        resume_till(alloc, device),
        Err(ComeBackError::Files(ResumeError::Log(ReplayError {
            commands: 0,
            offset: 0,
            why: Failure::Refused(NumberedRefusal::Missing {
                expected: 2,
                found: 3
            })
        })))
    )
}

/// Whether what is no snapshot is refused, and the files are left.
fn refuses_short(alloc: Global) -> bool {
    match till_device(alloc, &[], paid(32), None) {
        Some(mut device) => {
            tells_short(alloc, &mut device)
                && device.log() == paid(32)
                && device.snapshot().is_empty()
        }
        None => false,
    }
}

/// The frame of a payment of 7 with the number 3.
static LATER: [u8; 10] = [2, 0, 0, 0, 3, 7, 59, 16, 139, 108];

/// Whether a log with a gap is refused, and the files are left.
fn refuses_gap(alloc: Global) -> bool {
    match till_device(alloc, &TWO_PAID, &LATER, None) {
        Some(mut device) => {
            tells_gap(alloc, &mut device)
                && device.log() == LATER.as_slice()
                && device.snapshot() == TWO_PAID.as_slice()
        }
        None => false,
    }
}

#[test]
fn refuses_what_is_no_snapshot(rt: HostRuntime) {
    assert!(rt; refuses_short(rt.alloc()));
}

#[test]
fn refuses_a_log_with_a_gap(rt: HostRuntime) {
    assert!(rt; refuses_gap(rt.alloc()));
}
