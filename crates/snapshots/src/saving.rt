//! Machines whose states are saved in snapshots, in versions, and come back from them.
ghost use Rattle.std.specs.Prelude.{◌≡◌, ◌<◌, ◌^◌, ℕ, true, IfErr, IfOk, IsErrOf, MatchResult};
ghost use Rattle.snapshots.specs.Saved.{FitsSnapshot, IsRestored, IsRestoreFault, IsRestoreMemory, IsSavedAs};
ghost use Rattle.snapshots.specs.Snapshots.{IsSaveMemory};

use crate::numbered::Numbered;
use crate::snapshot::{LoadError, SaveError, load, save};
use bincode::config::Config;
use bincode::de::Decode;
use bincode::enc::Encode;
use bincode::laws::Exact;
use replay::machine::Machine;
use std::alloc::{AllocError, Global};
use thiserror::Error;

/// Why no machine is made of what was saved.
#[derive(Debug, Drop, Error)]
pub enum StateError {
    /// It stands for no state.
    #[error("it stands for no state")]
    NoState,
    /// An allocation was refused.
    #[error("{0}")]
    Memory(AllocError),
}

/// A machine whose state is saved.
pub trait Saving: Machine {
    /// What is saved of a state: an enum with a variant for each version, so that its tag tells the version.
    type Saved: Encode + Decode<()> + Exact;

    /// What was saved stands for the state of a machine.
    ghost stands_for: { Self.Saved → Self → Type 0 };

    /// What is to be saved of the state, in the newest version. Fails if an allocation is refused.
    fn to_saved(&self, alloc: Global) -> Result<Self::Saved, AllocError>
        ensures { IfOk result (λ saved. stands_for saved self.now) };

    /// A machine in the state that something saved stands for, of whatever version. Fails with `NoState` where it
    /// stands for none, or with `Memory`.
    fn from_saved(alloc: Global, saved: Self::Saved) -> Result<Self, StateError>
        ensures state { IfOk result (λ machine. stands_for saved machine) }
        ensures none { IsErrOf result StateError.NoState → (machine : Self) → stands_for saved machine → ⊥ };

    /// What was saved stands for one state alone,
    ghost one_state: { (saved : Self.Saved) (a b : Self) → stands_for saved a → stands_for saved b
        → ⟦<Self as Machine>⟧.state b ≡ ⟦<Self as Machine>⟧.state a };

    /// and what equals it for the same.
    ghost equals_stand: { (a b : Self.Saved) (machine : Self) → Self.Saved.eq a b ≡ true → stands_for a machine
        → stands_for b machine };
}

/// Why no machine is restored from a snapshot.
#[derive(Debug, Drop, Error)]
pub enum RestoreError {
    /// The bytes are not taken for a snapshot.
    #[error("{0}")]
    Load(LoadError),
    /// They are a snapshot of something that stands for no state.
    #[error("it stands for no state")]
    NoState,
    /// An allocation was refused.
    #[error("{0}")]
    Memory(AllocError),
}

/// The bytes of a snapshot of a machine. Fails with `Memory` if an allocation is refused, or as `save` does: with
/// `ReadBack` where the encoding passes the limit, or with any of its errors for want of memory.
pub fn save_machine<M: Saving, C: Config>(
    alloc: Global,
    numbered: &Numbered<M>,
    config: C,
) -> Result<Vec<u8>, SaveError>
    ensures saved { IfOk result (λ v. IsSavedAs M.stands_for M.Saved.words C.setting C.bound numbered.now.next
        numbered.now.machine v.items) }
    // Of a machine of which all that is saved fits the limit the error is one of memory.
    ensures fits { FitsSnapshot M.stands_for M.Saved.words C.setting C.bound numbered.now.machine
        → IfErr result IsSaveMemory }
{
    match numbered.machine.to_saved(alloc) {
        Ok(saved) => save(alloc, numbered.next, &saved, config),
        Err(e) => Err(SaveError::Memory(e)),
    }
}

/// The machine of a snapshot. Fails with `Load` or `NoState` where the bytes are no snapshot of such a machine, or with
/// `Memory`.
pub fn restore_machine<M: Saving, C: Config>(
    alloc: Global,
    bytes: &[u8],
    config: C,
) -> Result<Numbered<M>, RestoreError>
    // The bytes are a snapshot of that machine after that number of commands,
    ensures restored { IfOk result (λ numbered. IsRestored M.stands_for (M.Saved.words.format C.setting) C.bound
        M.Saved.words.decodes_to bytes.now numbered.next numbered.machine) }
    // or it is told why they are of none.
    ensures fault { IfErr result (IsRestoreFault M.stands_for (M.Saved.words.format C.setting) C.bound
        M.Saved.words.decodes_to bytes.now) }
    // What `save_machine` returned is restored, the same number and the same state, or the error is `Memory`.
    ensures back { (commands : ℕ) (machine : M) → commands < 2 ^ 64
        → IsSavedAs M.stands_for M.Saved.words C.setting C.bound commands machine bytes.now
        → MatchResult result (λ numbered. (numbered.next ≡ commands)
        × (M.state numbered.machine ≡ M.state machine)) IsRestoreMemory }
{
    let (next, saved) = match load(alloc, bytes, config) {
        Ok(loaded) => loaded,
        Err(e) => return Err(RestoreError::Load(e)),
    };
    match M::from_saved(alloc, saved) {
        Ok(machine) => Ok(Numbered { next, machine }),
        Err(StateError::NoState) => Err(RestoreError::NoState),
        Err(StateError::Memory(e)) => Err(RestoreError::Memory(e)),
    }
}
