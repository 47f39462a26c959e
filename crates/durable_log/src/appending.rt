//! Appending commands to a log, each on the disk before it is acknowledged.
ghost use Rattle.std.specs.Prelude.{◌≡◌, ◌<◌, ◌≤◌, ◌++◌, ℕ, List, IfErr, IfOk, IsErrOf, OnOk};
ghost use Rattle.std.specs.List.{All};
ghost use Rattle.frames.specs.Frames.{frame};
ghost use Rattle.framed_store.specs.Appended.{FitsStore, IsFitting};
ghost use Rattle.framed_store.specs.Pieces.{Piece};
ghost use Rattle.crash_device.specs.Files.{AppendsPart};
ghost use Rattle.crash_device.specs.Moments.{Holds, LeavesOnly, Only};
ghost use Rattle.durable_log.specs.Appending.{AddsFrame, AddsPart, IsUntouched, IsForced};
ghost use Rattle.durable_log.specs.Standing.{IsAfter, IsBeforeOrAfter, IsLogOf};

use bincode::config::Config;
use bincode::de::Decode;
use bincode::enc::Encode;
use bincode::laws::Exact;
use crash_device::device::{Device, DeviceError};
use crash_device::durable::append_durably;
use framed_store::appending::{AppendError, append};
use std::alloc::Global;
use thiserror::Error;

/// Why a command was not appended.
#[derive(Debug, Drop, Error)]
pub enum CommandError {
    /// The command was not encoded, or its frame not made. The device was not called.
    #[error("{0}")]
    Frame(AppendError),
    /// A call of the device failed. After `Failed` the log may have a prefix of the frame, or all of it: recover it
    /// before the next command. After `Memory` nothing was appended.
    #[error("{0}")]
    Device(DeviceError),
}

/// Appends the frame of a command to a log that takes encodings of at most `most` bytes, and syncs it. At `Ok` the
/// command is acknowledged: from then on each crash leaves a log that has it. Fails with `Frame` before the device is
/// called, or with `Device` if a call of the device fails.
pub fn append_command<T: Encode + Decode<()> + Exact, D: Device, C: Config>(
    alloc: Global,
    device: &mut D,
    command: &T,
    config: C,
    most: u32,
) -> Result<(), CommandError>
    // What a read returns is on the disk.
    requires { Only (D.seen device.old) (D.may_leave device.old) }

    // On `Ok` the frame of an encoding of the command follows what the log held,
    ensures added { OnOk result (AddsFrame T.words C.setting C.bound most command.now
        (D.seen device.old) (D.seen device.new)) }
    // and each crash leaves it.
    ensures durable { OnOk result (Only (D.seen device.new) (D.may_leave device.new)) }
    // A crash at any moment of the call leaves the log as it was, with a prefix of such a frame at its end.
    ensures any_moment { LeavesOnly D.moment D.left_since device.old device.new
        (AddsPart T.words C.setting C.bound most command.now (D.seen device.old)) }

    // If the log is that of commands, it is on `Ok` that of these and the new one.
    ensures after { (pieces : List (Piece T)) → IsLogOf T.words C.setting C.bound most pieces (D.seen device.old).log
        → OnOk result (IsAfter T.words C.setting C.bound most pieces command.now (D.seen device.new).log) }
    // A crash at any moment of the call leaves a log that stands for the commands before it, or for these and the new
    // one (`recover` tells what that means).
    ensures before_or_after { (pieces : List (Piece T))
        → IsLogOf T.words C.setting C.bound most pieces (D.seen device.old).log
        → LeavesOnly D.moment D.left_since device.old device.new
        (IsBeforeOrAfter T.words C.setting C.bound most pieces command.now (D.seen device.old)) }

    // After an error of memory nothing was appended: the device was not called, or its files are as they were, and each
    // crash leaves them so.
    ensures untouched { IfErr result (IsUntouched D.seen D.may_leave device.old device.new) }
    // It does not fail by itself: of a command that fits the error is one of memory or device.
    ensures fits { FitsStore T.words C.setting C.bound most command.now → IfErr result IsForced }
    ensures failed { IsErrOf result (CommandError.Device DeviceError.Failed)
        → D.faults device.old < D.faults device.new }
    ensures later { D.faults device.old ≤ D.faults device.new }
{
    let frame = framed(alloc, command, config, most)?;
    append_frame(device, &frame)
}

/// The frame of a command.
fn framed<T: Encode + Decode<()> + Exact, C: Config>(
    alloc: Global,
    command: &T,
    config: C,
    most: u32,
) -> Result<Vec<u8>, CommandError>
    ensures frame { IfOk result (λ v. (word : List ℕ)
        × IsFitting T.words C.setting C.bound most command.now word × (v.items ≡ frame word)) }
    ensures fits { FitsStore T.words C.setting C.bound most command.now → IfErr result IsForced }
    ensures no_device { (e : DeviceError) → result ≡ Err (CommandError.Device e) → ⊥ }
{
    let mut frame = Vec::new(alloc);
    match append(alloc, &mut frame, command, config, most) {
        Ok(_) => Ok(frame),
        Err(e) => Err(CommandError::Frame(e)),
    }
}

/// Appends the bytes of a frame and syncs them.
fn append_frame<D: Device>(device: &mut D, frame: &[u8]) -> Result<(), CommandError>
    requires { Only (D.seen device.old) (D.may_leave device.old) }
    ensures ok { OnOk result (Holds D.seen D.may_leave device.new
        (record (D.seen device.old) { log = (D.seen device.old).log ++ frame.now })) }
    ensures any_moment { LeavesOnly D.moment D.left_since device.old device.new
        (AppendsPart frame.now (D.seen device.old)) }
    ensures bytes { All (λ b. b < 256) frame.now }
    ensures untouched { IfErr result (IsUntouched D.seen D.may_leave device.old device.new) }
    ensures forced { IfErr result IsForced }
    ensures failed { IsErrOf result (CommandError.Device DeviceError.Failed)
        → D.faults device.old < D.faults device.new }
    ensures later { D.faults device.old ≤ D.faults device.new }
{
    match append_durably(device, frame) {
        Ok(()) => Ok(()),
        Err(e) => Err(CommandError::Device(e)),
    }
}
