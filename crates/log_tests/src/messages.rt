//! What errors say.

use crash_device::device::DeviceError;
use durable_log::appending::CommandError;
use durable_log::machines::{ComeBackError, CompactError};
use framed_store::appending::AppendError;
use snapshots::resuming::ResumeError;
use snapshots::saving::RestoreError;
use std::alloc::Global;
use std::fmt::Display;

/// Whether an error says this.
pub fn says<E: Display>(alloc: Global, error: &E, text: &str) -> bool {
    match format!(in alloc; "{error}") {
        Ok(said) => said.as_str() == text,
        Err(_) => false,
    }
}

#[test]
fn tells_errors_of_commands_in_words(rt: HostRuntime) {
    let failed = CommandError::Device(DeviceError::Failed);
    let long = CommandError::Frame(AppendError::TooLong { length: 3, most: 2 });
    let why = "its encoding has 3 bytes, and the store takes 2";
    assert!(rt; says(rt.alloc(), &failed, "the device failed") && says(rt.alloc(), &long, why));
}

#[test]
fn tells_errors_of_compactions_in_words(rt: HostRuntime) {
    let failed = CompactError::Device(DeviceError::Failed);
    assert!(rt; says(rt.alloc(), &failed, "the device failed"));
}

#[test]
fn tells_errors_of_resumptions_in_words(rt: HostRuntime) {
    let failed: ComeBackError<DeviceError> = ComeBackError::Device(DeviceError::Failed);
    let refused: ComeBackError<DeviceError> = ComeBackError::Files(ResumeError::Snapshot(
        RestoreError::NoState,
    ));
    assert!(rt;
        says(rt.alloc(), &failed, "the device failed")
            && says(rt.alloc(), &refused, "the snapshot: it stands for no state")
    );
}
