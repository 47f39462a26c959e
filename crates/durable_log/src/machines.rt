//! Machines kept on a device: the snapshot is of a state, and the log has the commands after it, under their numbers.
ghost use Rattle.std.specs.Prelude.{◌≡◌, ◌<◌, ◌≤◌, ◌++◌, ℕ, List, [], ◌∷◌, length, IfErr, IfOk, IsErrOf};
ghost use Rattle.std.specs.Prelude.{OnErr, OnOk};
ghost use Rattle.framed_store.specs.Appended.{FitsStore};
ghost use Rattle.snapshots.specs.Numbers.{AppliesNext, RefusesNext};
ghost use Rattle.snapshots.specs.Saved.{FitsSnapshot};
ghost use Rattle.crash_device.specs.Moments.{LeavesOnly, Only};
ghost use Rattle.durable_log.specs.Appending.{IsForced, IsUntouched};
ghost use Rattle.durable_log.specs.Machines.{
  ComesFrom,
  FilesAreOf,
  FilesBeforeOrAfter,
  FilesStandFor,
  HasCome,
  HasOutsideCause,
  IsRefused,
  IsSnapshotAlone,
  IsUncalled,
  StopsFromOutside,
};

use crate::appending::{CommandError, append_command};
use crate::recovering::{RecoverError, recover};
use bincode::Wire;
use bincode::config::Config;
use bincode::enc::Encode;
use crash_device::device::{Device, DeviceError};
use crash_device::durable::compact;
use replay::machine::Machine;
use snapshots::numbered::{Numbered, NumberedRefusal};
use snapshots::resuming::ResumeError;
use snapshots::saving::{Saving, restore_machine, save_machine};
use snapshots::snapshot::SaveError;
use std::alloc::Global;
use std::fmt::Display;
use thiserror::Error;

/// Why no machine comes back from a device.
#[derive(Debug, Drop, Error)]
#[error_bound(E: Display)]
pub enum ComeBackError<E> {
    /// A call of the device failed. The files stand for the same commands. Begin again.
    #[error("{0}")]
    Device(DeviceError),
    /// No machine is restored from the snapshot, or the log was not replayed to its end. The files are as they were.
    #[error("{0}")]
    Files(ResumeError<E>),
}

/// Why the snapshot of a machine did not take the place of its log.
#[derive(Debug, Drop, Error)]
pub enum CompactError {
    /// The state was not saved. The device was not called.
    #[error("{0}")]
    Save(SaveError),
    /// A call of the device failed. The files stand for the same commands. Resume before the next command.
    #[error("{0}")]
    Device(DeviceError),
}

/// The machine of a device: that of its snapshot, after the commands of its log that the snapshot does not have. Cuts
/// away what a crash left of a frame after them. The log takes encodings of at most `most` bytes. Snapshot and log are
/// read whole into memory. Fails with `Files` where `resume_machine` does, before anything is cut, or with `Device` if
/// a call of the device fails.
pub fn resume_from_device<M: Saving + Drop, D: Device, C: Config>(
    alloc: Global,
    device: &mut D,
    config: C,
    most: u32,
) -> Result<Numbered<M>, ComeBackError<M::Refusal>>
    // After a restart, what a read returns is on the disk.
    requires { Only (D.seen device.old) (D.may_leave device.old) }

    // If the files stand for commands, these, or equal ones, lead to the state, and the number is theirs.
    ensures comes_back { (first : M.State) (commands : List M.Command)
        → FilesStandFor M.stands_for M.Saved.words M.state M.Command.eq M.applies
        ⟦<(u64, M::Command) as Wire>⟧.words C.setting C.bound most first commands (D.seen device.old)
        → IfOk result (λ n. HasCome M.Command.eq M.applies first commands (n.next, M.state n.machine)) }
    // Then the log ends after the last of them, and each crash leaves it so.
    ensures whole { (first : M.State) (commands : List M.Command)
        → FilesStandFor M.stands_for M.Saved.words M.state M.Command.eq M.applies
        ⟦<(u64, M::Command) as Wire>⟧.words C.setting C.bound most first commands (D.seen device.old)
        → OnOk result (FilesAreOf M.stands_for M.Saved.words M.state M.Command.eq M.applies
        ⟦<(u64, M::Command) as Wire>⟧.words C.setting C.bound most first commands (D.seen device.new)) }
    ensures durable { OnOk result (Only (D.seen device.new) (D.may_leave device.new)) }
    // A crash at any moment of the call leaves files that stand for the same commands.
    ensures any_moment { (first : M.State) (commands : List M.Command)
        → FilesStandFor M.stands_for M.Saved.words M.state M.Command.eq M.applies
        ⟦<(u64, M::Command) as Wire>⟧.words C.setting C.bound most first commands (D.seen device.old)
        → LeavesOnly D.moment D.left_since device.old device.new (FilesStandFor M.stands_for M.Saved.words M.state
        M.Command.eq M.applies ⟦<(u64, M::Command) as Wire>⟧.words C.setting C.bound most first commands) }
    // Of files that stand for commands the error says that the machine refused a command, that a read or the device
    // failed, or that an allocation was refused.
    ensures from_outside { (first : M.State) (commands : List M.Command)
        → FilesStandFor M.stands_for M.Saved.words M.state M.Command.eq M.applies
        ⟦<(u64, M::Command) as Wire>⟧.words C.setting C.bound most first commands (D.seen device.old)
        → IfErr result HasOutsideCause }

    // These clauses speak of files of any origin. A machine was restored from the snapshot, and the log led it on.
    ensures restored { IfOk result (λ n. ComesFrom M.stands_for M.applies M.state (M.Saved.words.format C.setting)
        M.Saved.words.decodes_to (⟦<(u64, M::Command) as Wire>⟧.words.format C.setting)
        ⟦<(u64, M::Command) as Wire>⟧.words.decodes_to C.bound most (D.seen device.old) (D.seen device.new)
        (n.next, M.state n.machine)) }
    // After `Files` they are as they were, and it is told what is wrong with the snapshot, or where the replay stopped.
    ensures fault { IfErr result (IsRefused M.stands_for M.applies M.refuses M.state
        (M.Saved.words.format C.setting) M.Saved.words.decodes_to
        (⟦<(u64, M::Command) as Wire>⟧.words.format C.setting) ⟦<(u64, M::Command) as Wire>⟧.words.decodes_to
        C.bound most D.seen D.may_leave device.old device.new) }
    ensures failed { IsErrOf result (ComeBackError.Device DeviceError.Failed)
        → D.faults device.old < D.faults device.new }
{
    let bytes = match device.read_snapshot(alloc) {
        Ok(bytes) => bytes,
        Err(e) => return Err(ComeBackError::Device(e)),
    };
    let mut numbered = match restore_machine(alloc, &bytes, config) {
        Ok(numbered) => numbered,
        Err(e) => return Err(ComeBackError::Files(ResumeError::Snapshot(e))),
    };
    match recover(alloc, &mut numbered, device, config, most) {
        Ok(_) => Ok(numbered),
        Err(RecoverError::Device(e)) => Err(ComeBackError::Device(e)),
        Err(RecoverError::Replay(e)) => Err(ComeBackError::Files(ResumeError::Log(e))),
    }
}

/// Puts a snapshot of a machine in the place of the snapshot and the log of a device. Fails with `Save` where
/// `save_machine` does, before the device is called, or with `Device` if a call of the device fails.
pub fn compact_machine<M: Saving, D: Device, C: Config>(
    alloc: Global,
    device: &mut D,
    numbered: &Numbered<M>,
    config: C,
) -> Result<(), CompactError>
    // What a read returns is on the disk.
    requires { Only (D.seen device.old) (D.may_leave device.old) }

    // On `Ok` the files are a snapshot of the machine and an empty log, and each crash leaves these,
    ensures saved { OnOk result (IsSnapshotAlone M.stands_for M.Saved.words C.setting C.bound numbered.now.next
        numbered.now.machine (D.seen device.new)) }
    ensures durable { OnOk result (Only (D.seen device.new) (D.may_leave device.new)) }
    // and they stand for the commands that led to the machine, whatever stood there before.
    ensures after { (most : ℕ) (first : M.State) (commands : List M.Command)
        → HasCome M.Command.eq M.applies first commands (numbered.now.next, M.state numbered.now.machine)
        → OnOk result (FilesAreOf M.stands_for M.Saved.words M.state M.Command.eq M.applies
        ⟦<(u64, M::Command) as Wire>⟧.words C.setting C.bound most first commands (D.seen device.new)) }
    // If the files stand for these commands, a crash at any moment of the call leaves files that stand for them.
    ensures any_moment { (most : ℕ) (first : M.State) (commands : List M.Command)
        → HasCome M.Command.eq M.applies first commands (numbered.now.next, M.state numbered.now.machine)
        → FilesStandFor M.stands_for M.Saved.words M.state M.Command.eq M.applies
        ⟦<(u64, M::Command) as Wire>⟧.words C.setting C.bound most first commands (D.seen device.old)
        → LeavesOnly D.moment D.left_since device.old device.new (FilesStandFor M.stands_for M.Saved.words M.state
        M.Command.eq M.applies ⟦<(u64, M::Command) as Wire>⟧.words C.setting C.bound most first commands) }

    ensures untouched { IfErr result (IsUncalled device.old device.new) }
    // It does not fail by itself: of a machine of which all that is saved fits the limit the error is one of memory or
    // device.
    ensures fits { FitsSnapshot M.stands_for M.Saved.words C.setting C.bound numbered.now.machine
        → IfErr result StopsFromOutside }
    ensures failed { IsErrOf result (CompactError.Device DeviceError.Failed)
        → D.faults device.old < D.faults device.new }
{
    // Gives the proof that the number is below 2^64.
    let _number = numbered.next;
    let snapshot = match save_machine(alloc, numbered, config) {
        Ok(snapshot) => snapshot,
        Err(e) => return Err(CompactError::Save(e)),
    };
    match compact(device, &snapshot) {
        Ok(()) => Ok(()),
        Err(e) => Err(CompactError::Device(e)),
    }
}

/// Applies a command under its number, as `Machine::apply` of a numbered machine does. Fails where that does, and then
/// leaves the machine as it was.
pub fn apply_next<M: Machine>(
    numbered: &mut Numbered<M>,
    command: (u64, M::Command),
) -> Result<(), NumberedRefusal<M::Refusal>>
    // After the commands that led to the machine this one, if its number is theirs, leads to the new state.
    ensures leads_on { (first : M.State) (commands : List M.Command) → command.0 ≡ numbered.old.next
        → HasCome M.Command.eq M.applies first commands (numbered.old.next, M.state numbered.old.machine)
        → OnOk result (HasCome M.Command.eq M.applies first (commands ++ command.1 ∷ [])
        (numbered.new.next, M.state numbered.new.machine)) }
    // An earlier command is passed over, and no later one is taken.
    ensures applies { OnOk result (AppliesNext M.applies (numbered.old.next, M.state numbered.old.machine) command
        (numbered.new.next, M.state numbered.new.machine)) }
    ensures refused { IfErr result (RefusesNext M.refuses (numbered.old.next, M.state numbered.old.machine) command) }
    ensures same_number { OnErr result (numbered.new.next ≡ numbered.old.next) }
    ensures same_state { OnErr result (M.state numbered.new.machine ≡ M.state numbered.old.machine) }
{
    numbered.apply(command)
}

/// Appends the next command of a machine to the log of its device, under its number, and syncs it. Returns it with that
/// number, for `apply_next`. The machine has to take it: a log with a command that the machine refuses is not replayed
/// past it. The log takes encodings of at most `most` bytes. Fails where `append_command` does.
pub fn append_next<M: Saving, D: Device, C: Config>(
    alloc: Global,
    device: &mut D,
    numbered: &Numbered<M>,
    command: M::Command,
    config: C,
    most: u32,
) -> Result<(u64, M::Command), CommandError>
where
    M::Command: Encode,
    // What a read returns is on the disk.
    requires { Only (D.seen device.old) (D.may_leave device.old) }

    ensures numbered { IfOk result (λ x. x ≡ (numbered.now.next, command)) }
    // If the files are of commands, and the number is theirs, they are on `Ok` of these and the new one,
    ensures after { (first : M.State) (commands : List M.Command) → numbered.now.next ≡ length commands
        → FilesAreOf M.stands_for M.Saved.words M.state M.Command.eq M.applies
        ⟦<(u64, M::Command) as Wire>⟧.words C.setting C.bound most first commands (D.seen device.old)
        → OnOk result (FilesAreOf M.stands_for M.Saved.words M.state M.Command.eq M.applies
        ⟦<(u64, M::Command) as Wire>⟧.words C.setting C.bound most first (commands ++ command ∷ [])
        (D.seen device.new)) }
    // and each crash leaves it so.
    ensures durable { OnOk result (Only (D.seen device.new) (D.may_leave device.new)) }
    // A crash at any moment of the call leaves files that stand for the commands before it, or for these and the new
    // one.
    ensures any_moment { (first : M.State) (commands : List M.Command) → numbered.now.next ≡ length commands
        → FilesAreOf M.stands_for M.Saved.words M.state M.Command.eq M.applies
        ⟦<(u64, M::Command) as Wire>⟧.words C.setting C.bound most first commands (D.seen device.old)
        → LeavesOnly D.moment D.left_since device.old device.new (FilesBeforeOrAfter M.stands_for M.Saved.words
        M.state M.Command.eq M.applies ⟦<(u64, M::Command) as Wire>⟧.words C.setting C.bound most first commands
        command) }

    // After an error of memory nothing was appended, and it does not fail by itself, as `append_command` does not.
    ensures untouched { IfErr result (IsUntouched D.seen D.may_leave device.old device.new) }
    ensures fits { FitsStore ⟦<(u64, M::Command) as Wire>⟧.words C.setting C.bound most (numbered.now.next, command)
        → IfErr result IsForced }
    ensures failed { IsErrOf result (CommandError.Device DeviceError.Failed)
        → D.faults device.old < D.faults device.new }
    ensures later { D.faults device.old ≤ D.faults device.new }
{
    let next = (numbered.next, command);
    append_command(alloc, device, &next, config, most)?;
    Ok(next)
}
