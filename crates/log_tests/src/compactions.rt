//! Snapshots of tills that take the place of their logs, with a crash in each step and at each byte of the cut.

use crate::device_logs::Place;
use crate::tills_on_devices::{
    ALL_PAID, TWO_PAID, compact_till, paid, resumes_as, till_after, till_device,
};
use bincode::config;
use crash_device::device::DeviceError;
use crash_device::memory::{Call, Memory};
use durable_log::machines::{CompactError, compact_machine};
use std::alloc::Global;

/// Whether the outcome is that the device failed in this call; or that it did not, and the log is empty.
fn is_told(told: &Result<(), CompactError>, device: &Memory, failed: Option<Call>) -> bool {
    match (told, failed) {
        (Ok(()), None) => device.failures().is_empty() && device.log().is_empty(),
        (Err(CompactError::Device(DeviceError::Failed)), Some(call)) => {
            device.failures() == [call].as_slice()
        }
        _ => false,
    }
}

/// Whether a compaction fails in this call or not where the device crashes there, and the till after all payments comes
/// back from this snapshot and so many bytes of the log.
fn stands_after(
    alloc: Global,
    crash: Place,
    failed: Option<Call>,
    snapshot: &[u8],
    length: usize,
) -> bool {
    let Some(mut device) = till_device(alloc, &TWO_PAID, paid(32), Some(crash)) else {
        return false;
    };
    let told = compact_till(alloc, &mut device, &till_after(3));
    is_told(&told, &device, failed) && resumes_as(alloc, &mut device, 3, snapshot, paid(length))
}

/// What stands of the log where the cut stops after this many bytes: whole payments.
fn left_of(bytes: usize) -> usize {
    match bytes {
        0 => 32,
        1..11 => 22,
        11..23 => 10,
        _ => 0,
    }
}

/// The number of bytes of a cut after which something else stands.
fn wrong_byte(alloc: Global) -> Option<usize> {
    for bytes in 0..=32 {
        if !stands_after(
            alloc,
            (1, bytes),
            Some(Call::Cut),
            &ALL_PAID,
            left_of(bytes),
        ) {
            return Some(bytes);
        }
    }
    None
}

/// A crash before the new snapshot stands, and after that; and none.
#[test]
fn stands_at_each_step(rt: HostRuntime) {
    let alloc = rt.alloc();
    assert_eq!(rt; wrong_byte(alloc), None);
    assert!(rt;
        stands_after(alloc, (0, 0), Some(Call::Replace), &TWO_PAID, 32)
            && stands_after(alloc, (0, 1), Some(Call::Replace), &ALL_PAID, 32)
            && stands_after(alloc, (2, 0), Some(Call::Sync), &ALL_PAID, 0)
            && stands_after(alloc, (3, 0), None, &ALL_PAID, 0)
    );
}

/// Whether a state that passes the limit is not saved, and no call is made of a device that would crash in it.
fn calls_no_device(alloc: Global) -> bool {
    let Some(mut device) = till_device(alloc, &TWO_PAID, paid(32), Some((0, 9))) else {
        return false;
    };
    let narrow = config::standard().with_limit::<11>();
    let told = compact_machine(alloc, &mut device, &till_after(3), narrow);
    matches!(told, Err(CompactError::Save(_)))
        && device.failures().is_empty()
        && resumes_as(alloc, &mut device, 3, &TWO_PAID, paid(32))
}

#[test]
fn calls_no_device_without_a_snapshot(rt: HostRuntime) {
    assert!(rt; calls_no_device(rt.alloc()));
}
