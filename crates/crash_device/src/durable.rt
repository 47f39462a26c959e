//! Steps after which each crash leaves what they did: an append to the log, a cut of it, and a new snapshot with an
//! empty log.
ghost use Rattle.std.specs.Prelude.{◌≡◌, ◌<◌, ◌≤◌, [], take, ◌++◌, OnOk, IsErrOf};
ghost use Rattle.crash_device.specs.Files.{AppendsPart, CutsPart, CompactsPart};
ghost use Rattle.crash_device.specs.Moments.{Only, Holds, LeavesOnly};

use crate::device::{Device, DeviceError};

/// Appends bytes to the log and syncs it. Fails with `Failed` if a call of the device does; then a prefix of the bytes
/// may be in the log, and it has to be recovered before the next append. Fails with `Memory` before anything is
/// appended.
pub fn append_durably<D: Device>(device: &mut D, bytes: &[u8]) -> Result<(), DeviceError>
    // What a read returns is on the disk.
    requires { Only (D.seen device.old) (D.may_leave device.old) }

    // After `Ok` each crash leaves the log with the bytes at its end.
    ensures ok { OnOk result (Holds D.seen D.may_leave device.new
        (record (D.seen device.old) { log = (D.seen device.old).log ++ bytes.now })) }
    // A crash at any moment of the call leaves the log as it was, with a prefix of the bytes at its end.
    ensures any_moment { LeavesOnly D.moment D.left_since device.old device.new
        (AppendsPart bytes.now (D.seen device.old)) }
    // After `Memory` the files are as they were, and each crash leaves them so.
    ensures refused { IsErrOf result DeviceError.Memory
        → Holds D.seen D.may_leave device.new (D.seen device.old) }
    // It does not fail by itself.
    ensures failed { IsErrOf result DeviceError.Failed → D.faults device.old < D.faults device.new }
    ensures later { D.faults device.old ≤ D.faults device.new }
{
    device.append(bytes)?;
    device.sync()
}

/// Cuts the log to a length in bytes and syncs it. Fails with `Failed` or `Memory` if a call of the device does; then
/// the log may have more than that length.
pub fn cut_durably<D: Device>(device: &mut D, length: usize) -> Result<(), DeviceError>
    requires { Only (D.seen device.old) (D.may_leave device.old) }

    // After `Ok` each crash leaves the log with that length, or as it was if it was shorter.
    ensures ok { OnOk result (Holds D.seen D.may_leave device.new
        (record (D.seen device.old) { log = take length (D.seen device.old).log })) }
    // A crash at any moment of the call leaves a front of the log of at least that length.
    ensures any_moment { LeavesOnly D.moment D.left_since device.old device.new
        (CutsPart length (D.seen device.old)) }
    ensures failed { IsErrOf result DeviceError.Failed → D.faults device.old < D.faults device.new }
    ensures later { D.faults device.old ≤ D.faults device.new }
{
    device.cut(length)?;
    device.sync()
}

/// Puts a new snapshot in the place of the old one, and then empties the log. Fails with `Failed` or `Memory` if a call
/// of the device does; then the files are those of a crash at that moment.
pub fn compact<D: Device>(device: &mut D, snapshot: &[u8]) -> Result<(), DeviceError>
    requires { Only (D.seen device.old) (D.may_leave device.old) }

    // After `Ok` each crash leaves the new snapshot and an empty log.
    ensures ok { OnOk result (Holds D.seen D.may_leave device.new
        (record { snapshot = snapshot.now; log = [] })) }
    // A crash at any moment of the call leaves both files as they were, or the new snapshot and a front of the log,
    // which is the whole log while nothing of it is cut.
    ensures any_moment { LeavesOnly D.moment D.left_since device.old device.new
        (CompactsPart snapshot.now (D.seen device.old)) }
    ensures failed { IsErrOf result DeviceError.Failed → D.faults device.old < D.faults device.new }
    ensures later { D.faults device.old ≤ D.faults device.new }
{
    device.replace(snapshot)?;
    cut_durably(device, 0)
}
