//! A device with two files, a log and a snapshot: what a read returns, and what a crash may leave.
ghost use Rattle.std.specs.Prelude.{◌≡◌, ◌≤◌, ℕ, length, IfOk, IsErrOf, OnOk};
ghost use Rattle.crash_device.specs.Moments.{Only, Elapses};
ghost use Rattle.crash_device.specs.Files.{Files, IsAppended, IsCut, IsReplaced, Follows};
ghost use Rattle.crash_device.specs.Files.{AppendsPart, CutsPart, ReplacesOrNot, HasCause};
ghost use Rattle.crash_device.specs.declared.device.DeviceError.TheVariants.{Memory};

use std::alloc::{AllocError, AllocFailed, Global};
use thiserror::Error;

/// Why a call of a device failed.
#[derive(Clone, Copy, Debug, Drop, Error, PartialEq)]
pub enum DeviceError {
    /// An allocation was refused.
    #[error("memory was refused")]
    Memory,
    /// The device failed.
    #[error("the device failed")]
    Failed,
}

impl From<AllocError> for DeviceError {
    ghost from_gives = { λ _ e. e ≡ Memory };

    fn from(_: AllocError) -> Self {
        DeviceError::Memory
    }
}

impl<T: Drop> From<AllocFailed<T>> for DeviceError {
    ghost from_gives = { λ _ e. e ≡ Memory };

    fn from(_: AllocFailed<T>) -> Self {
        DeviceError::Memory
    }
}

/// A device with a log, which is appended to, and a snapshot, which is replaced whole. It is assumed that of an append
/// a crash leaves a prefix; that a replaced file is the old or the new one, and on the disk when the call returns; that
/// what was synced stays; and that nothing else writes. No clause shows this of a real file.
pub trait Device {
    /// What a read returns.
    ghost seen: { Self → Files };

    /// What a crash at this moment may leave.
    ghost may_leave: { Self → Files → Type 0 };

    /// The moment, as a number that does not fall.
    ghost moment: { Self → ℕ };

    /// What a crash at some moment from that one on might have left, during a call or between two.
    ghost left_since: { Self → ℕ → Files → Type 0 };

    /// How often the device has failed.
    ghost faults: { Self → ℕ };

    /// The next sync asks for no memory. For a device whose syncs never do, all are such.
    ghost syncs_without_memory: { Self → Type 0 } = { λ _. Unit {0} };

    /// The bytes of the snapshot. Fails with `Failed` or `Memory`, and changes nothing.
    fn read_snapshot(&mut self, alloc: Global) -> Result<Vec<u8>, DeviceError>
        ensures bytes { IfOk result (λ bytes. bytes.items ≡ (seen self.old).snapshot) }
        ensures seen { seen self.new ≡ seen self.old }
        ensures crash { (c : Files) → may_leave self.new c → may_leave self.old c }
        ensures time { Elapses (moment self.old) (moment self.new) (left_since self.old) (left_since self.new)
            (may_leave self.new) }
        ensures cause { HasCause (faults self.old) (faults self.new) result };

    /// The bytes of the log. Fails with `Failed` or `Memory`, and changes nothing.
    fn read_log(&mut self, alloc: Global) -> Result<Vec<u8>, DeviceError>
        ensures bytes { IfOk result (λ bytes. bytes.items ≡ (seen self.old).log) }
        ensures seen { seen self.new ≡ seen self.old }
        ensures crash { (c : Files) → may_leave self.new c → may_leave self.old c }
        ensures time { Elapses (moment self.old) (moment self.new) (left_since self.old) (left_since self.new)
            (may_leave self.new) }
        ensures cause { HasCause (faults self.old) (faults self.new) result };

    /// Appends bytes to the log. Until a sync, and after an error, a crash leaves a prefix of them. Fails with
    /// `Failed`, or with `Memory` before anything is appended. After `Ok` a sync does not fail with `Memory`.
    fn append(&mut self, bytes: &[u8]) -> Result<(), DeviceError>
        ensures appended { OnOk result (IsAppended bytes.now (seen self.old) (seen self.new)) }
        ensures refused { IsErrOf result Memory → seen self.new ≡ seen self.old }
        ensures left { IsErrOf result Memory → (c : Files) → may_leave self.new c → may_leave self.old c }
        ensures ready { OnOk result (syncs_without_memory self.new) }
        ensures crash { Follows (AppendsPart bytes.now) (may_leave self.old) (may_leave self.new) }
        ensures time { Elapses (moment self.old) (moment self.new) (left_since self.old) (left_since self.new)
            (may_leave self.new) }
        ensures cause { HasCause (faults self.old) (faults self.new) result };

    /// Cuts the log to a length in bytes. Until a sync, and after an error, a crash leaves that length or more. Fails
    /// with `Failed` or `Memory`.
    fn cut(&mut self, length: usize) -> Result<(), DeviceError>
        ensures cut { OnOk result (IsCut length (seen self.old) (seen self.new)) }
        ensures crash { Follows (CutsPart length) (may_leave self.old) (may_leave self.new) }
        ensures time { Elapses (moment self.old) (moment self.new) (left_since self.old) (left_since self.new)
            (may_leave self.new) }
        ensures cause { HasCause (faults self.old) (faults self.new) result };

    /// Puts the log on the disk: after `Ok` a crash leaves what a read returns. Fails with `Failed`, or with `Memory`
    /// where it asks for some: never after an append.
    fn sync(&mut self) -> Result<(), DeviceError>
        ensures told { syncs_without_memory self.old → ¬ IsErrOf result Memory }
        ensures durable { OnOk result (Only (seen self.old) (may_leave self.new)) }
        ensures seen { seen self.new ≡ seen self.old }
        ensures crash { (c : Files) → may_leave self.new c → may_leave self.old c }
        ensures time { Elapses (moment self.old) (moment self.new) (left_since self.old) (left_since self.new)
            (may_leave self.new) }
        ensures cause { HasCause (faults self.old) (faults self.new) result };

    /// Puts a new snapshot in the place of the old one, as a file that is written, synced and renamed, in a folder that
    /// is synced. After `Ok` a crash leaves the new one; after an error the old one or the new one. Fails with `Failed`
    /// or `Memory`.
    fn replace(&mut self, bytes: &[u8]) -> Result<(), DeviceError>
        ensures replaced { OnOk result (IsReplaced bytes.now (seen self.old) (seen self.new)) }
        ensures durable { OnOk result (Follows (IsReplaced bytes.now) (may_leave self.old) (may_leave self.new)) }
        ensures crash { Follows (ReplacesOrNot bytes.now) (may_leave self.old) (may_leave self.new) }
        ensures time { Elapses (moment self.old) (moment self.new) (left_since self.old) (left_since self.new)
            (may_leave self.new) }
        ensures cause { HasCause (faults self.old) (faults self.new) result };

    /// This moment is one of those since an earlier one.
    ghost counts_now: { (device : Self) (t : ℕ) (c : Files) → t ≤ moment device → may_leave device c
        → left_since device t c };

    /// Since this moment there is no other.
    ghost only_now: { (device : Self) (c : Files) → left_since device (moment device) c → may_leave device c };
}
