//! Calls of a device that does not crash, and of one that has crashed.

use crate::messages::says;
use crate::steps::{Step, device, take};
use crash_device::device::{Device, DeviceError};
use crash_device::memory::{Call, Crash, Memory};
use std::alloc::{AllocError, Global};

/// Whether this is the snapshot of a device, as it gives it when it is read.
fn reads_snapshot(alloc: Global, device: &mut Memory, snapshot: &[u8]) -> bool {
    match device.read_snapshot(alloc) {
        Ok(bytes) => bytes.as_slice() == snapshot,
        Err(_) => false,
    }
}

/// Whether this is its log.
fn reads_log(alloc: Global, device: &mut Memory, log: &[u8]) -> bool {
    match device.read_log(alloc) {
        Ok(bytes) => bytes.as_slice() == log,
        Err(_) => false,
    }
}

/// Whether these are the files of a device.
fn holds(alloc: Global, device: &mut Memory, snapshot: &[u8], log: &[u8]) -> bool {
    device.snapshot() == snapshot
        && device.log() == log
        && reads_snapshot(alloc, device, snapshot)
        && reads_log(alloc, device, log)
}

/// A step, and the snapshot and the log after it.
type Row<'a> = (Step<'a>, &'a [u8], &'a [u8]);

/// Whether each step leaves its files, one step after the other, and no call fails.
fn all_leave(alloc: Global, rows: &[Row<'_>]) -> bool {
    let Some(mut device) = device(alloc) else {
        return false;
    };
    for &(step, snapshot, log) in rows {
        if take(&mut device, step).is_err() || !holds(alloc, &mut device, snapshot, log) {
            return false;
        }
    }
    device.failures().is_empty()
}

/// Single calls, and then steps of several.
static ROWS: [Row<'static>; 7] = [
    (Step::Append(&[4, 5]), &[9], &[1, 2, 3, 4, 5]),
    (Step::Cut(1), &[9], &[1]),
    (Step::Replace(&[7, 8]), &[7, 8], &[1]),
    (Step::Sync, &[7, 8], &[1]),
    (Step::AppendDurably(&[4, 6]), &[7, 8], &[1, 4, 6]),
    (Step::CutDurably(2), &[7, 8], &[1, 4]),
    (Step::Compact(&[6, 6]), &[6, 6], &[]),
];

#[test]
fn appends_cuts_and_replaces(rt: HostRuntime) {
    assert!(rt; all_leave(rt.alloc(), &ROWS));
}

/// A hundred thousand bytes.
fn much(alloc: Global) -> Result<Vec<u8>, AllocError> {
    vec![in alloc; 3u8; 100_000]
}

#[test]
fn takes_nothing_and_much(rt: HostRuntime) -> Result<(), AllocError> {
    let much = much(rt.alloc())?;
    let much = much.as_slice();
    assert!(rt;
        all_leave(
            rt.alloc(),
            &[
                (Step::Compact(&[]), &[], &[]),
                (Step::AppendDurably(&[]), &[], &[]),
                (Step::CutDurably(5), &[], &[]),
                (Step::AppendDurably(much), &[], much),
                (Step::CutDurably(200_000), &[], much),
                (Step::Compact(much), much, &[]),
            ],
        )
    );
    Ok(())
}

/// Whether each of these steps fails.
fn all_fail(device: &mut Memory, steps: &[Step<'_>]) -> bool {
    for &step in steps {
        if take(device, step) != Err(DeviceError::Failed) {
            return false;
        }
    }
    true
}

/// Whether both reads of a device fail.
fn fails_to_read(alloc: Global, device: &mut Memory) -> bool {
    matches!(device.read_log(alloc), Err(DeviceError::Failed))
        && matches!(device.read_snapshot(alloc), Err(DeviceError::Failed))
}

/// The calls that fail after a crash, in order.
static FAILED: [Call; 6] = [
    Call::ReadLog,
    Call::ReadSnapshot,
    Call::Append,
    Call::Cut,
    Call::Sync,
    Call::Replace,
];

/// Whether a device that has crashed fails in each call and changes nothing, until it works again.
fn fails_until_it_works(alloc: Global) -> bool {
    let Some(mut device) = device(alloc) else {
        return false;
    };
    device.set_crash(Some(Crash { calls: 0, bytes: 2 }));
    let steps = [
        Step::Append(&[4]),
        Step::Cut(0),
        Step::Sync,
        Step::Replace(&[4]),
    ];
    let fails = fails_to_read(alloc, &mut device)
        && all_fail(&mut device, &steps)
        && device.failures() == FAILED.as_slice();
    device.set_crash(None);
    fails && holds(alloc, &mut device, &[9], &[1, 2, 3])
}

#[test]
fn fails_after_a_crash_until_it_works_again(rt: HostRuntime) {
    assert!(rt; fails_until_it_works(rt.alloc()));
}

#[test]
fn tells_errors_in_words(rt: HostRuntime) {
    assert!(rt;
        says(rt.alloc(), &DeviceError::Memory, "memory was refused")
            && says(rt.alloc(), &DeviceError::Failed, "the device failed")
    );
}
