//! Crashes in each call of a step, and at each byte of a write.

use crate::steps::{Step, device, take};
use crash_device::device::DeviceError;
use crash_device::memory::{Call, Crash};
use std::alloc::Global;

/// A step, the number of calls before the crash and of bytes that stand of the one in which it is, what is left, the
/// snapshot and the log, and the call that fails; none, if the crash comes after the step.
type Row = (
    Step<'static>,
    (usize, usize),
    (&'static [u8], &'static [u8]),
    Option<Call>,
);

/// The step of each of the first rows.
const APPEND: Step<'static> = Step::AppendDurably(&[4, 5, 6]);

/// That of the rows after them.
const CUT: Step<'static> = Step::CutDurably(1);

/// And that of the last ones.
const COMPACT: Step<'static> = Step::Compact(&[7, 8]);

static ROWS: [Row; 21] = [
    (APPEND, (0, 0), (&[9], &[1, 2, 3]), Some(Call::Append)),
    (APPEND, (0, 1), (&[9], &[1, 2, 3, 4]), Some(Call::Append)),
    (APPEND, (0, 2), (&[9], &[1, 2, 3, 4, 5]), Some(Call::Append)),
    (
        APPEND,
        (0, 3),
        (&[9], &[1, 2, 3, 4, 5, 6]),
        Some(Call::Append),
    ),
    (
        APPEND,
        (0, 4),
        (&[9], &[1, 2, 3, 4, 5, 6]),
        Some(Call::Append),
    ),
    (
        APPEND,
        (1, 0),
        (&[9], &[1, 2, 3, 4, 5, 6]),
        Some(Call::Sync),
    ),
    (APPEND, (2, 0), (&[9], &[1, 2, 3, 4, 5, 6]), None),
    (CUT, (0, 0), (&[9], &[1, 2, 3]), Some(Call::Cut)),
    (CUT, (0, 1), (&[9], &[1, 2]), Some(Call::Cut)),
    (CUT, (0, 2), (&[9], &[1]), Some(Call::Cut)),
    (CUT, (0, 3), (&[9], &[1]), Some(Call::Cut)),
    (CUT, (1, 0), (&[9], &[1]), Some(Call::Sync)),
    (CUT, (2, 0), (&[9], &[1]), None),
    (COMPACT, (0, 0), (&[9], &[1, 2, 3]), Some(Call::Replace)),
    (COMPACT, (0, 1), (&[7, 8], &[1, 2, 3]), Some(Call::Replace)),
    (COMPACT, (1, 0), (&[7, 8], &[1, 2, 3]), Some(Call::Cut)),
    (COMPACT, (1, 1), (&[7, 8], &[1, 2]), Some(Call::Cut)),
    (COMPACT, (1, 2), (&[7, 8], &[1]), Some(Call::Cut)),
    (COMPACT, (1, 3), (&[7, 8], &[]), Some(Call::Cut)),
    (COMPACT, (2, 0), (&[7, 8], &[]), Some(Call::Sync)),
    (COMPACT, (3, 0), (&[7, 8], &[]), None),
];

/// Whether a device that crashes there has these files, and tells of it.
fn leaves(alloc: Global, (step, (calls, bytes), (snapshot, log), failed): Row) -> bool {
    let Some(mut device) = device(alloc) else {
        return false;
    };
    device.set_crash(Some(Crash { calls, bytes }));
    let told = take(&mut device, step);
    let is_told = match failed {
        Some(call) => { told == Err(DeviceError::Failed) && device.failures() == [call].as_slice() }
        None => told.is_ok() && device.failures().is_empty(),
    };
    is_told && device.snapshot() == snapshot && device.log() == log
}

/// The place of the first row that does not hold.
fn wrong_row(alloc: Global, rows: &[Row]) -> Option<usize> {
    for (place, &row) in rows.iter().enumerate() {
        if !leaves(alloc, row) {
            return Some(place);
        }
    }
    None
}

#[test]
fn leaves_what_was_done_before_a_crash(rt: HostRuntime) {
    assert_eq!(rt; wrong_row(rt.alloc(), &ROWS), None);
}
