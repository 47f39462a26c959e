//! What is done to a device, and the device to which it is done.

use crash_device::device::{Device, DeviceError};
use crash_device::durable::{append_durably, compact, cut_durably};
use crash_device::memory::Memory;
use std::alloc::Global;

/// A call of a device, or a step of several calls.
#[derive(Clone, Copy)]
pub enum Step<'a> {
    Append(&'a [u8]),
    Cut(usize),
    Sync,
    Replace(&'a [u8]),
    AppendDurably(&'a [u8]),
    CutDurably(usize),
    Compact(&'a [u8]),
}

/// Takes a step.
pub fn take(device: &mut Memory, step: Step<'_>) -> Result<(), DeviceError> {
    match step {
        Step::Append(bytes) => device.append(bytes),
        Step::Cut(length) => device.cut(length),
        Step::Sync => device.sync(),
        Step::Replace(bytes) => device.replace(bytes),
        Step::AppendDurably(bytes) => append_durably(device, bytes),
        Step::CutDurably(length) => cut_durably(device, length),
        Step::Compact(bytes) => compact(device, bytes),
    }
}

/// A device with a snapshot of one byte and a log of three.
pub fn device(alloc: Global) -> Option<Memory> {
    let snapshot = [9].to_vec(alloc).ok()?;
    let log = [1, 2, 3].to_vec(alloc).ok()?;
    Some(Memory::new(alloc, snapshot, log))
}
