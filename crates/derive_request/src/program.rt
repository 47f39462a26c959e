//! What is done with the module of a source, and what is said of it.
ghost use Rattle.std.specs.Prelude.{◌≡◌, ◌≢◌, IfOk, IsOk, None, false, true};

use crate::compare::{State, state_of};
use crate::paths::{declared_path, file_name};
use crate::request::{Action, Request};
use derive_words::answers::answers_of;
use derive_words::error::Fault;
use derive_words::module::{Origin, is_made, module_of};
use std::alloc::{AllocError, Global};
use std::io;
use thiserror::Error;

/// Why nothing is done with a source.
#[derive(Debug, Drop, Error)]
pub enum ProgramError {
    /// It is not known which crate a source is of.
    #[error("{file}: it is in no folder `src` of a crate: name the crate by `--crate NAME`")]
    NoCrate {
        file: String,
    },
    /// Something in a source is refused.
    #[error("{file}:{line}:{column}: {why}")]
    Refused {
        file: String,
        line: usize,
        column: usize,
        why: String,
    },
    /// Another file stands where a module goes, which the program did not make.
    #[error("{path}: `derive` did not make this file, and writes none over it: move it away, or print the \
        module by `--print`")]
    ByHand {
        path: String,
    },
    /// A file can't be read or written.
    #[error("{path}: {why}")]
    File {
        path: String,
        why: io::Error,
    },
    /// Memory was refused.
    #[error(transparent)]
    Memory(#[from(alloc)] AllocError),
}

/// What is made of a source.
#[derive(Drop)]
pub struct Made {
    /// The text of its module.
    pub module: String,
    /// What has to be written by hand beside it, with the paths of the files. Nothing for most types.
    pub answers: String,
}

/// What is made of a source of this path, which stands at this place in the file system. Messages name its path.
pub fn written_for(
    alloc: Global,
    request: &Request,
    file: &str,
    place: &str,
    text: &str,
) -> Result<Made, ProgramError> {
    let crate_name = request.crate_name.as_ref().map(String::as_str);
    let Some(declared) = declared_path(alloc, place, crate_name)? else {
        let file = String::from_str(alloc, file)?;
        return Err(ProgramError::NoCrate { file });
    };
    let origin = Origin {
        file_name: file_name(place),
        declared: declared.as_str(),
    };
    let module = told_of(alloc, file, module_of(alloc, &origin, text))?;
    let answers = told_of(alloc, file, answers_of(alloc, &origin, text))?;
    Ok(Made { module, answers })
}

/// What was made of a file, and an error with its name.
fn told_of(alloc: Global, file: &str, made: Result<String, Fault>) -> Result<String, ProgramError> {
    match made {
        Ok(text) => Ok(text),
        Err(fault) => Err(in_file(alloc, file, fault)?),
    }
}

/// The error for a fault in this file.
fn in_file(alloc: Global, file: &str, fault: Fault) -> Result<ProgramError, AllocError> {
    let file = String::from_str(alloc, file)?;
    Ok(match fault {
        Fault::Refused { line, column, why } => ProgramError::Refused {
            file,
            line,
            column,
            why,
        },
        Fault::Memory(error) => ProgramError::Memory(error),
    })
}

/// What is done with a module, what is printed, and the status.
#[derive(Drop)]
pub struct Outcome {
    /// The module is written to its path.
    pub is_written: bool,
    /// What is printed.
    pub printed: String,
    /// The status for its source.
    pub status: u8,
}

/// What is done with the module for the source of a file, which goes to this path, where another was found or none. A
/// module that is the same code as what was found is not written again.
pub fn outcome_of(
    alloc: Global,
    action: Action,
    file: &str,
    path: &str,
    module: &str,
    found: Option<&str>,
) -> Result<Outcome, AllocError>
    // Only a request to write writes, and it does where nothing was found.
    ensures reads { action ≢ Action.Write → IfOk result (λ o. o.is_written ≡ false) }
    ensures writes { action ≡ Action.Write → found.entry ≡ None → IfOk result (λ o. o.is_written ≡ true) }

    // Only a request to check ends with another status than 0, and it does where nothing was found.
    ensures passes { action ≢ Action.Check → IfOk result (λ o. o.status ≡ 0) }
    ensures fails { action ≡ Action.Check → found.entry ≡ None → IfOk result (λ o. o.status ≡ 1) }
{
    let state = state_of(alloc, module, found)?;
    match action {
        Action::Print => Ok(Outcome {
            is_written: false,
            printed: String::from_str(alloc, module)?,
            status: 0,
        }),
        Action::Check => checked(alloc, file, path, state),
        Action::Write => written(alloc, path, state),
    }
}

/// Fails where something is to be done about a file at this path that the program did not make. One that is the same
/// code as the module stays as it is.
pub fn refuse_by_hand(
    alloc: Global,
    path: &str,
    found: Option<&str>,
    outcome: &Outcome,
) -> Result<(), ProgramError>
    ensures passes { found.entry ≡ None → IsOk result }
{
    match found {
        Some(text) if !is_made(text) && (outcome.is_written || outcome.status > 0) => {
            let path = String::from_str(alloc, path)?;
            Err(ProgramError::ByHand { path })
        }
        _ => Ok(()),
    }
}

/// What is said of a module that is compared with what was found.
fn checked(alloc: Global, file: &str, path: &str, state: State) -> Result<Outcome, AllocError>
    ensures reads { IfOk result (λ o. o.is_written ≡ false) }
    ensures passes { state ≡ State.UpToDate → IfOk result (λ o. o.status ≡ 0) }
    ensures fails { state ≢ State.UpToDate → IfOk result (λ o. o.status ≡ 1) }
{
    let (found, file, end) = match state {
        State::UpToDate => ("up to date", "", ""),
        State::Stale => ("stale: run `derive ", file, "`"),
        State::Absent => ("missing: run `derive ", file, "`"),
    };
    Ok(Outcome {
        is_written: false,
        printed: format!(in alloc; "{path}: {found}{file}{end}\n")?,
        status: if state == State::UpToDate { 0 } else { 1 },
    })
}

/// What is said of a module that is to stand beside its source.
fn written(alloc: Global, path: &str, state: State) -> Result<Outcome, AllocError>
    ensures writes { state ≢ State.UpToDate → IfOk result (λ o. o.is_written ≡ true) }
    ensures stays { state ≡ State.UpToDate → IfOk result (λ o. o.is_written ≡ false) }
    ensures passes { IfOk result (λ o. o.status ≡ 0) }
{
    let is_written = state != State::UpToDate;
    let done = if is_written { "written" } else { "up to date" };
    Ok(Outcome {
        is_written,
        printed: format!(in alloc; "{path}: {done}\n")?,
        status: 0,
    })
}
