//! The most memory that a process has asked for.

use std::fs;

/// The greatest number of bytes that this process had mapped at once so far, as Linux says: what was reserved counts,
/// also where nothing was written to it. `None` where the system does not tell it. Retries once, since an allocation
/// may be refused.
pub fn peak(rt: &HostRuntime) -> Option<u64> {
    match told_peak(rt) {
        Some(bytes) => Some(bytes),
        None => told_peak(rt),
    }
}

fn told_peak(rt: &HostRuntime) -> Option<u64> {
    let status = fs::read_to_string(rt, "/proc/self/status").ok()?;
    let line = status.lines().find(|line| line.starts_with("VmPeak:"))?;
    let kilobytes: u64 = line.split_whitespace().nth(1)?.parse().ok()?;
    kilobytes.checked_mul(1024)
}

/// Whether no more than this number of bytes was asked for at once between two peaks.
pub fn is_within(before: Option<u64>, after: Option<u64>, most: u64) -> bool {
    match (before, after) {
        (Some(before), Some(after)) => after.saturating_sub(before) <= most,
        _ => false,
    }
}
