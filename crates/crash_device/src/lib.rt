//! A log and a snapshot on a device, and what a crash leaves of them. docs/PROVED.md says what is assumed of a device.
#![tactic(auto)]

pub mod device;
pub mod durable;
pub mod memory;
