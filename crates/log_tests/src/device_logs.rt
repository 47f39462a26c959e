//! Logs of payments on devices in memory, and what a till recovers from them.

use bincode::config;
use crash_device::device::DeviceError;
use crash_device::memory::{Crash, Memory};
use durable_log::appending::{CommandError, append_command};
use durable_log::recovering::{RecoverError, recover};
use replay::replay::Replayed;
use std::alloc::Global;
use tills::till::{Full, Till};

/// The frames of payments of 7, of 300 and of 7 again.
pub static LOG: [u8; 29] = [
    1, 0, 0, 0, 7, 114, 125, 169, 169, 3, 0, 0, 0, 251, 44, 1, 226, 82, 158, 82, 1, 0, 0, 0, 7,
    114, 125, 169, 169,
];

/// The same with a bit of 300 changed.
pub static DAMAGED: [u8; 29] = [
    1, 0, 0, 0, 7, 114, 125, 169, 169, 3, 0, 0, 0, 251, 45, 1, 226, 82, 158, 82, 1, 0, 0, 0, 7,
    114, 125, 169, 169,
];

/// The lengths of the log after one payment, and after two.
pub const ONE: usize = 9;

pub const TWO: usize = 20;

/// The greatest length of an encoding in these logs.
pub const LONGEST: u32 = 3;

/// A call in which a device crashes, by the number of calls before it, and the number of bytes that stand of it.
pub type Place = (usize, usize);

/// A device with this log and a snapshot of one byte, which crashes there.
pub fn device_with(alloc: Global, log: &[u8], crash: Option<Place>) -> Option<Memory> {
    let snapshot = [9].to_vec(alloc).ok()?;
    let log = log.to_vec(alloc).ok()?;
    let mut device = Memory::new(alloc, snapshot, log);
    device.set_crash(crash.map(|(calls, bytes)| Crash { calls, bytes }));
    Some(device)
}

/// The front of the log of this length.
pub fn front(length: usize) -> &'static [u8] {
    LOG.get(..length).unwrap_or(&[])
}

/// The sum of the payments in a front of the log that ends after a payment, and their number.
fn sum_of(end: usize) -> (u32, u64) {
    match end {
        0 => (0, 0),
        ONE => (7, 1),
        TWO => (307, 2),
        _ => (314, 3),
    }
}

/// Appends a payment.
pub fn pay(
    alloc: Global,
    device: &mut Memory,
    payment: u16,
    longest: u32,
) -> Result<(), CommandError> {
    append_command(alloc, device, &payment, config::standard(), longest)
}

/// Recovers a log into a till of this size.
pub fn recover_into(
    alloc: Global,
    till: &mut Till,
    device: &mut Memory,
) -> Result<Replayed, RecoverError<Full>> {
    recover(alloc, till, device, config::standard(), LONGEST)
}

/// Whether a device that works again recovers this sum of this number of payments, and then has this log.
pub fn recovers(
    alloc: Global,
    device: &mut Memory,
    (sum, commands): (u32, u64),
    log: &[u8],
) -> bool {
    let mut till = Till {
        held: 0,
        most: 10_000,
    };
    device.set_crash(None);
    let recovered = recover_into(alloc, &mut till, device);
    till.held == sum
        && matches!(recovered, Ok(found) if found.commands == commands && found.length == log.len())
        && device.log() == log
        && device.snapshot() == [9].as_slice()
}

/// Whether it recovers the payments in the front of the log that ends there.
pub fn recovers_to(alloc: Global, device: &mut Memory, end: usize) -> bool {
    recovers(alloc, device, sum_of(end), front(end))
}

/// Whether the outcome is that the device failed, or that it did not.
pub fn is_told(told: &Result<(), CommandError>, fails: bool) -> bool {
    match told {
        Ok(()) => !fails,
        Err(CommandError::Device(DeviceError::Failed)) => fails,
        Err(_) => false,
    }
}
