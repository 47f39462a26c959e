//! Tills on devices in memory, with snapshots and logs of numbered payments.

use crate::device_logs::Place;
use bincode::config;
use crash_device::memory::{Crash, Memory};
use durable_log::machines::{ComeBackError, CompactError, compact_machine, resume_from_device};
use snapshots::numbered::Numbered;
use std::alloc::Global;
use tills::till::{Full, Till};

/// The frames of payments of 7, of 300 and of 7 again, with the numbers 0 to 2.
pub static PAYMENTS: [u8; 32] = [
    2, 0, 0, 0, 0, 7, 162, 184, 108, 88, 4, 0, 0, 0, 1, 251, 44, 1, 136, 215, 213, 33, 2, 0, 0, 0,
    2, 7, 76, 136, 41, 127,
];

/// The snapshot of a till of 0 before all payments.
pub static NONE: [u8; 45] = [
    213, 47, 246, 2, 100, 93, 235, 231, 86, 68, 84, 187, 150, 229, 92, 61, 163, 97, 140, 53, 122,
    179, 83, 165, 216, 105, 181, 197, 133, 20, 178, 96, 0, 0, 0, 0, 0, 0, 0, 0, 1, 0, 251, 232, 3,
];

/// The snapshot of a till of 307 after two of them.
pub static TWO_PAID: [u8; 47] = [
    190, 61, 15, 186, 132, 0, 122, 200, 188, 215, 96, 199, 233, 213, 17, 166, 240, 16, 24, 225, 60,
    86, 82, 13, 100, 229, 177, 201, 218, 213, 236, 154, 2, 0, 0, 0, 0, 0, 0, 0, 1, 251, 51, 1, 251,
    232, 3,
];

/// The snapshot of a till of 314 after all three.
pub static ALL_PAID: [u8; 47] = [
    32, 188, 33, 211, 233, 199, 89, 185, 59, 140, 89, 246, 31, 137, 229, 179, 30, 1, 43, 36, 101,
    130, 222, 86, 233, 31, 90, 208, 211, 195, 178, 81, 3, 0, 0, 0, 0, 0, 0, 0, 1, 251, 58, 1, 251,
    232, 3,
];

/// The greatest length of an encoding in these logs.
pub const WIDEST: u32 = 12;

/// The till after this many payments.
pub fn till_after(payments: u64) -> Numbered<Till> {
    let held = match payments {
        0 => 0,
        1 => 7,
        2 => 307,
        _ => 314,
    };
    Numbered {
        next: payments,
        machine: Till { held, most: 1000 },
    }
}

/// A device with these files, which crashes there.
pub fn till_device(
    alloc: Global,
    snapshot: &[u8],
    log: &[u8],
    crash: Option<Place>,
) -> Option<Memory> {
    let snapshot = snapshot.to_vec(alloc).ok()?;
    let log = log.to_vec(alloc).ok()?;
    let mut device = Memory::new(alloc, snapshot, log);
    device.set_crash(crash.map(|(calls, bytes)| Crash { calls, bytes }));
    Some(device)
}

/// The front of the log of payments of this length.
pub fn paid(length: usize) -> &'static [u8] {
    PAYMENTS.get(..length).unwrap_or(&[])
}

/// The till of a device.
pub fn resume_till(
    alloc: Global,
    device: &mut Memory,
) -> Result<Numbered<Till>, ComeBackError<Full>> {
    resume_from_device(alloc, device, config::standard(), WIDEST)
}

/// Puts the snapshot of a till in the place of the files of a device.
pub fn compact_till(
    alloc: Global,
    device: &mut Memory,
    till: &Numbered<Till>,
) -> Result<(), CompactError> {
    compact_machine(alloc, device, till, config::standard())
}

/// Whether a device that works again gives the till after this many payments, and then has these files.
pub fn resumes_as(
    alloc: Global,
    device: &mut Memory,
    payments: u64,
    snapshot: &[u8],
    log: &[u8],
) -> bool {
    device.set_crash(None);
    let resumed = resume_till(alloc, device);
    matches!(resumed, Ok(till) if till == till_after(payments))
        && device.snapshot() == snapshot
        && device.log() == log
}
