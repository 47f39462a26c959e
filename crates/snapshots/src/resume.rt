//! Replaying a log from a snapshot on.
ghost use Rattle.std.specs.Prelude.{◌≡◌, ◌<◌, ◌++◌, ℕ, List, length, IfErr, IfOk, MatchResult};
ghost use Rattle.std.specs.List.{All};
ghost use Rattle.bincode_io.specs.Stream.{TellsBytes, known_bytes};
ghost use Rattle.framed_store.specs.Pieces.{ArePieces, Piece, bytes_of_all};
ghost use Rattle.replay.specs.Recovered.{Recovers};
ghost use Rattle.replay.specs.Replays.{IsReplay, IsStop, Run};
ghost use Rattle.snapshots.specs.Numbers.{AppliesNext, RefusesNext};
ghost use Rattle.snapshots.specs.Resumed.{Advances, Continues};
ghost use Rattle.snapshots.specs.Resuming.{HoldBelow, HoldFrom, Resumes};

use crate::numbered::{Numbered, NumberedRefusal};
use bincode::Wire;
use bincode::config::Config;
use replay::machine::Machine;
use replay::replay::{ReplayError, Replayed, replay};
use std::alloc::Global;
use std::io::Read;

/// Replays a log of numbered commands into a machine that has the commands of a snapshot: those of the log that it has
/// already are passed over, and the others are applied, each once and in order. Arguments and errors are those of
/// `replay`, which tells the place of an error by the commands of the log; a command is refused where others are
/// missing before it.
pub fn replay_from<M: Machine, C: Config, R: Read>(
    alloc: Global,
    numbered: &mut Numbered<M>,
    log: &mut R,
    buffer: &mut Vec<u8>,
    config: C,
    most: u32,
) -> Result<Replayed, ReplayError<NumberedRefusal<M::Refusal>>>
    // Whatever the log gives, commands lead from the old state to the new one, and the number grows by theirs.
    ensures advances { MatchResult result
        (λ _. Advances M.applies (numbered.old.next, M.state numbered.old.machine)
        (numbered.new.next, M.state numbered.new.machine))
        (λ _. Advances M.applies (numbered.old.next, M.state numbered.old.machine)
        (numbered.new.next, M.state numbered.new.machine)) }
    // These clauses speak of logs whose bytes are known. The commands are those of the frames of the log, in order; it
    // ends after them, or within a frame.
    ensures replayed { TellsBytes (R.remaining log.old) → IfOk result (IsReplay (AppliesNext M.applies)
        (⟦<(u64, M::Command) as Wire>⟧.words.format C.setting) C.bound
        ⟦<(u64, M::Command) as Wire>⟧.words.decodes_to most (known_bytes (R.remaining log.old))
        (numbered.old.next, M.state numbered.old.machine) (numbered.new.next, M.state numbered.new.machine)) }
    // All whole frames of the log hold numbered commands. Where they are some that the snapshot has, and then others in
    // a row from its number on, all commands lead to the state.
    ensures continues { TellsBytes (R.remaining log.old) → IfOk result (Continues M.applies
        (⟦<(u64, M::Command) as Wire>⟧.words.format C.setting) C.bound
        ⟦<(u64, M::Command) as Wire>⟧.words.decodes_to most
        (known_bytes (R.remaining log.old)) (numbered.old.next, M.state numbered.old.machine)
        (numbered.new.next, M.state numbered.new.machine)) }
    // After an error the state is that before the place, and what stands there is told.
    ensures stopped { TellsBytes (R.remaining log.old) → IfErr result (IsStop (AppliesNext M.applies)
        (RefusesNext M.refuses) (⟦<(u64, M::Command) as Wire>⟧.words.format C.setting) C.bound
        ⟦<(u64, M::Command) as Wire>⟧.words.decodes_to most (known_bytes (R.remaining log.old))
        (numbered.old.next, M.state numbered.old.machine) (numbered.new.next, M.state numbered.new.machine)) }
    // Of commands that were appended to a log, wherever it was cut since, those are applied that stand whole in it.
    ensures recovers { TellsBytes (R.remaining log.old) → All (λ b. b < 256) (known_bytes (R.remaining log.old))
        → (pieces : List (Piece (ℕ × M.Command))) (lost : List ℕ)
        → ArePieces ⟦<(u64, M::Command) as Wire>⟧.words C.setting C.bound most pieces
        → bytes_of_all pieces ≡ known_bytes (R.remaining log.old) ++ lost
        → IfOk result (Recovers ⟦<(u64, M::Command) as PartialEq>⟧.eq (AppliesNext M.applies) pieces
        (length (known_bytes (R.remaining log.old))) (numbered.old.next, M.state numbered.old.machine)
        (numbered.new.next, M.state numbered.new.machine)) }
    // Let commands have led to the old state, and others have been appended to the log: some of those, and then some in
    // a row from the old number on. Wherever the log was cut since, the first ones lead to the new state, and then
    // those that stand whole in the log after the ones that are passed over, or equal ones.
    ensures resumes { TellsBytes (R.remaining log.old) → All (λ b. b < 256) (known_bytes (R.remaining log.old))
        → (first : M.State) (earlier : List M.Command) → Run M.applies first earlier (M.state numbered.old.machine)
        → numbered.old.next ≡ length earlier
        → (passed others : List (Piece (ℕ × M.Command))) (lost : List ℕ)
        → HoldBelow (length earlier) passed → HoldFrom (length earlier) others
        → ArePieces ⟦<(u64, M::Command) as Wire>⟧.words C.setting C.bound most (passed ++ others)
        → bytes_of_all (passed ++ others) ≡ known_bytes (R.remaining log.old) ++ lost
        → IfOk result (λ _. Resumes M.Command.eq M.applies first earlier passed others
        (length (known_bytes (R.remaining log.old))) (numbered.new.next, M.state numbered.new.machine)) }
{
    replay(alloc, numbered, log, buffer, config, most)
}
