//! Appending many commands to a log, each on the disk before the next.
ghost use Rattle.std.specs.Prelude.{◌<◌, ◌≤◌, List, IfErr, IsErrOf, OnOk};
ghost use Rattle.std.specs.List.{All};
ghost use Rattle.framed_store.specs.Appended.{FitsStore};
ghost use Rattle.framed_store.specs.Pieces.{Piece};
ghost use Rattle.crash_device.specs.Moments.{LeavesOnly, Only};
ghost use Rattle.durable_log.specs.Appending.{IsForced};
ghost use Rattle.durable_log.specs.Runs.{IsLogAfter, StandsForPart};
ghost use Rattle.durable_log.specs.Standing.{IsLogOf};

use crate::appending::{CommandError, append_command};
use bincode::config::Config;
use bincode::de::Decode;
use bincode::enc::Encode;
use bincode::laws::Exact;
use crash_device::device::{Device, DeviceError};
use std::alloc::Global;

/// Appends commands in order, each on the disk before the next. Fails where `append_command` does, at the first command
/// that is not appended; those before it are acknowledged.
pub fn append_commands<T: Encode + Decode<()> + Exact, D: Device, C: Config>(
    alloc: Global,
    device: &mut D,
    commands: &[T],
    config: C,
    most: u32,
) -> Result<(), CommandError>
    // What a read returns is on the disk.
    requires { Only (D.seen device.old) (D.may_leave device.old) }
    ensures durable { OnOk result (Only (D.seen device.new) (D.may_leave device.new)) }

    // If the log is that of commands, it is on `Ok` that of these and the new ones.
    ensures after { (pieces : List (Piece T)) → IsLogOf T.words C.setting C.bound most pieces (D.seen device.old).log
        → OnOk result (IsLogAfter T.words C.setting C.bound most pieces commands.now (D.seen device.new).log) }
    // A crash at any moment of the call leaves a log that stands for these and the first of the new ones, in order,
    // none left out and none in part.
    ensures any_moment { (pieces : List (Piece T))
        → IsLogOf T.words C.setting C.bound most pieces (D.seen device.old).log
        → LeavesOnly D.moment D.left_since device.old device.new
        (StandsForPart T.words C.setting C.bound most pieces commands.now (D.seen device.old)) }

    // It does not fail by itself: of commands that all fit the error is one of memory or device.
    ensures fits { All (λ command. FitsStore T.words C.setting C.bound most command) commands.now
        → IfErr result IsForced }
    ensures failed { IsErrOf result (CommandError.Device DeviceError.Failed)
        → D.faults device.old < D.faults device.new }
    ensures later { D.faults device.old ≤ D.faults device.new }
{
    for command in commands {
        append_command(alloc, device, command, config, most)?;
    }
    Ok(())
}
