//! Coming back to a machine from a snapshot and the log after it.
ghost use Rattle.std.specs.Prelude.{◌≡◌, ◌<◌, ◌^◌, ◌++◌, ℕ, List, length, IfErr, IfOk};
ghost use Rattle.std.specs.List.{All};
ghost use Rattle.bincode_io.specs.Stream.{TellsBytes, known_bytes};
ghost use Rattle.framed_store.specs.Pieces.{ArePieces, Piece, bytes_of_all};
ghost use Rattle.replay.specs.Replays.{Run};
ghost use Rattle.snapshots.specs.Resuming.{HoldBelow, HoldFrom, IsComeBack, IsResumeFault, Resumes};
ghost use Rattle.snapshots.specs.Saved.{IsSavedAs};

use crate::numbered::{Numbered, NumberedRefusal};
use crate::resume::replay_from;
use crate::saving::{RestoreError, Saving, restore_machine};
use bincode::Wire;
use bincode::config::Config;
use replay::replay::{ReplayError, Replayed};
use std::alloc::Global;
use std::fmt::Display;
use std::io::Read;
use thiserror::Error;

/// Why no machine comes back.
#[derive(Debug, Drop, Error)]
#[error_bound(E: Display)]
pub enum ResumeError<E> {
    /// It is not restored from the snapshot. Nothing of the log was read.
    #[error("the snapshot: {0}")]
    Snapshot(RestoreError),
    /// The log was not replayed to its end.
    #[error("the log: {0}")]
    Log(ReplayError<NumberedRefusal<E>>),
}

/// The machine of a snapshot, after the commands of a log that it does not have, and how the log ends. The log takes
/// encodings of at most `most` bytes, and `buffer` holds one frame at a time. Fails with `Snapshot` where
/// `restore_machine` does, or with `Log` where `replay_from` does.
pub fn resume_machine<M: Saving + Drop, C: Config, R: Read>(
    alloc: Global,
    snapshot: &[u8],
    log: &mut R,
    buffer: &mut Vec<u8>,
    config: C,
    most: u32,
) -> Result<(Numbered<M>, Replayed), ResumeError<M::Refusal>>
    // These clauses speak of logs whose bytes are known. A machine was restored, and the log continues its state.
    ensures comes_back { TellsBytes (R.remaining log.old) → IfOk result (λ x. IsComeBack M.stands_for M.applies M.state
        (M.Saved.words.format C.setting) M.Saved.words.decodes_to
        (⟦<(u64, M::Command) as Wire>⟧.words.format C.setting) ⟦<(u64, M::Command) as Wire>⟧.words.decodes_to
        C.bound most snapshot.now (known_bytes (R.remaining log.old)) (x.0.next, M.state x.0.machine) x.1) }
    // An error tells what is wrong with the snapshot, or where the replay stopped.
    ensures fault { TellsBytes (R.remaining log.old) → IfErr result (IsResumeFault M.stands_for M.applies M.refuses
        M.state (M.Saved.words.format C.setting) M.Saved.words.decodes_to
        (⟦<(u64, M::Command) as Wire>⟧.words.format C.setting) ⟦<(u64, M::Command) as Wire>⟧.words.decodes_to
        C.bound most snapshot.now (known_bytes (R.remaining log.old))) }
    // Let commands have led to a machine that was saved in the snapshot, and others have been appended to the log: some
    // that the snapshot has, and then some in a row from its number on. Wherever the log was cut since, all commands
    // before the snapshot lead to the state, and then those that stand whole in the log after them, or equal ones.
    ensures resumes { TellsBytes (R.remaining log.old) → All (λ b. b < 256) (known_bytes (R.remaining log.old))
        → (first : M.State) (earlier : List M.Command) (saved : M) → Run M.applies first earlier (M.state saved)
        → length earlier < 2 ^ 64
        → IsSavedAs M.stands_for M.Saved.words C.setting C.bound (length earlier) saved snapshot.now
        → (passed others : List (Piece (ℕ × M.Command))) (lost : List ℕ)
        → HoldBelow (length earlier) passed → HoldFrom (length earlier) others
        → ArePieces ⟦<(u64, M::Command) as Wire>⟧.words C.setting C.bound most (passed ++ others)
        → bytes_of_all (passed ++ others) ≡ known_bytes (R.remaining log.old) ++ lost
        → IfOk result (λ x. Resumes M.Command.eq M.applies first earlier passed others
        (length (known_bytes (R.remaining log.old))) (x.0.next, M.state x.0.machine)) }
{
    let mut numbered = match restore_machine(alloc, snapshot, config) {
        Ok(numbered) => numbered,
        Err(e) => return Err(ResumeError::Snapshot(e)),
    };
    match replay_from(alloc, &mut numbered, log, buffer, config, most) {
        Ok(replayed) => Ok((numbered, replayed)),
        Err(e) => Err(ResumeError::Log(e)),
    }
}
