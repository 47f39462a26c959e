//! Recovering a log that a crash may have left.
ghost use Rattle.std.specs.Prelude.{◌≡◌, ◌<◌, List, length, take, IfErr, IfOk, IsErrOf, OnOk};
ghost use Rattle.framed_store.specs.Pieces.{Piece, bytes_of_all};
ghost use Rattle.replay.specs.Replays.{IsReplay, IsStop};
ghost use Rattle.crash_device.specs.Moments.{Holds, LeavesOnly, Only};
ghost use Rattle.durable_log.specs.Recovering.{ComesFromOutside, IsOutside, IsRecovered, StopsIn};
ghost use Rattle.durable_log.specs.Standing.{IsLogOf, StandsFor};

use bincode::config::Config;
use bincode::laws::Exact;
use crash_device::device::{Device, DeviceError};
use crash_device::durable::cut_durably;
use replay::machine::Machine;
use replay::replay::{ReplayError, Replayed, replay};
use std::alloc::Global;
use std::fmt::Display;
use thiserror::Error;

/// Why a log was not recovered.
#[derive(Debug, Drop, Error)]
#[error_bound(E: Display)]
pub enum RecoverError<E> {
    /// A call of the device failed. The log stands for the same commands. Begin again, with a new machine.
    #[error("{0}")]
    Device(DeviceError),
    /// The log was not replayed to its end. Nothing of it was cut.
    #[error("{0}")]
    Replay(ReplayError<E>),
}

/// Applies the commands of a log to a machine, each once and in order, and cuts away what a crash left of a frame after
/// them. The log takes encodings of at most `most` bytes. It is read whole into memory. Fails with `Replay` where
/// `replay` does, before anything is cut, or with `Device` if a call of the device fails.
pub fn recover<M: Machine, D: Device, C: Config>(
    alloc: Global,
    machine: &mut M,
    device: &mut D,
    config: C,
    most: u32,
) -> Result<Replayed, RecoverError<M::Refusal>>
    // After a restart, what a read returns is on the disk.
    requires { Only (D.seen device.old) (D.may_leave device.old) }

    // On `Ok` the commands of all whole frames of the log led from the old state to the new one, and the log ends after
    // them.
    ensures replayed { IfOk result (IsReplay M.applies (M.Command.words.format C.setting) C.bound
        M.Command.words.decodes_to most (D.seen device.old).log (M.state machine.old) (M.state machine.new)) }
    ensures cut { IfOk result (λ r. Holds D.seen D.may_leave device.new
        (record (D.seen device.old) { log = take r.length (D.seen device.old).log })) }

    // If the log stands for commands, these led to the new state, or equal ones, and it is the log of them.
    ensures recovers { (pieces : List (Piece M.Command))
        → StandsFor M.Command.words C.setting C.bound most pieces (D.seen device.old).log
        → IfOk result (IsRecovered M.Command.eq M.applies pieces (M.state machine.old) (M.state machine.new)) }
    ensures whole { (pieces : List (Piece M.Command))
        → StandsFor M.Command.words C.setting C.bound most pieces (D.seen device.old).log
        → OnOk result (IsLogOf M.Command.words C.setting C.bound most pieces (D.seen device.new).log) }
    // A crash at any moment of the call leaves a log that stands for the same commands.
    ensures any_moment { (pieces : List (Piece M.Command))
        → StandsFor M.Command.words C.setting C.bound most pieces (D.seen device.old).log
        → LeavesOnly D.moment D.left_since device.old device.new (λ c. (c.snapshot ≡ (D.seen device.old).snapshot)
        × StandsFor M.Command.words C.setting C.bound most pieces c.log) }

    // Of a log that stands for commands the error says that the machine refused a command, that a read or the device
    // failed, or that an allocation was refused.
    ensures from_outside { (pieces : List (Piece M.Command))
        → StandsFor M.Command.words C.setting C.bound most pieces (D.seen device.old).log
        → IfErr result ComesFromOutside }
    // After `Replay` the files are as they were, and what stands at the place is told.
    ensures stopped { IfErr result (StopsIn M.applies M.refuses (M.Command.words.format C.setting) C.bound
        M.Command.words.decodes_to most D.seen D.may_leave device.old device.new
        (M.state machine.old) (M.state machine.new)) }
    ensures failed { IsErrOf result (RecoverError.Device DeviceError.Failed)
        → D.faults device.old < D.faults device.new }
{
    let bytes = match device.read_log(alloc) {
        Ok(bytes) => bytes,
        Err(e) => return Err(RecoverError::Device(e)),
    };
    let replayed = match replay_log(alloc, machine, &bytes, config, most) {
        Ok(replayed) => replayed,
        Err(e) => return Err(RecoverError::Replay(e)),
    };
    match cut_durably(device, replayed.length) {
        Ok(()) => Ok(replayed),
        Err(e) => Err(RecoverError::Device(e)),
    }
}

/// Applies the commands of a log to a machine.
fn replay_log<M: Machine, C: Config>(
    alloc: Global,
    machine: &mut M,
    log: &[u8],
    config: C,
    most: u32,
) -> Result<Replayed, ReplayError<M::Refusal>>
    ensures replayed { IfOk result (IsReplay M.applies (M.Command.words.format C.setting) C.bound
        M.Command.words.decodes_to most log.now (M.state machine.old) (M.state machine.new)) }
    ensures stopped { IfErr result (IsStop M.applies M.refuses (M.Command.words.format C.setting) C.bound
        M.Command.words.decodes_to most log.now (M.state machine.old) (M.state machine.new)) }
    ensures recovers { (pieces : List (Piece M.Command))
        → StandsFor M.Command.words C.setting C.bound most pieces log.now → IfOk result (λ r.
        IsRecovered M.Command.eq M.applies pieces (M.state machine.old) (M.state machine.new) r
        × (r.length ≡ length (bytes_of_all pieces))) }
    ensures from_outside { (pieces : List (Piece M.Command))
        → StandsFor M.Command.words C.setting C.bound most pieces log.now
        → IfErr result (λ e. IsOutside e.why) }
{
    M::Command::tell_exact();
    let mut rest = log;
    let mut buffer = Vec::new(alloc);
    replay(alloc, machine, &mut rest, &mut buffer, config, most)
}
