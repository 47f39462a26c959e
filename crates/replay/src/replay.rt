//! Replaying a log of commands from a stream, with one frame in memory at a time.
ghost use Rattle.std.specs.Prelude.{◌≡◌, ◌+◌, ◌<◌, ◌++◌, ℕ, List, length, IfErr, IfOk, MatchResult, OnErr, OnOk};
ghost use Rattle.std.specs.List.{All};
ghost use Rattle.bincode_io.specs.Stream.{TellsBytes, known_bytes};
ghost use Rattle.framed_store.specs.Pieces.{ArePieces, Piece, bytes_of_all};
ghost use Rattle.replay.specs.Recovered.{Recovers};
ghost use Rattle.replay.specs.Replays.{IsReplay, IsStop, RunsFor, StopsBefore};
ghost use Rattle.replay.specs.Stepping.{StepsBy, StopsFor, TakesStep};

use crate::machine::Machine;
use bincode::config::Config;
use bincode::error::DecodeError;
use bincode::laws::Exact;
use framed_store::records::{Content, Next};
use framed_store::streams::{ReadError, next_from_stream};
use std::alloc::{AllocError, Global};
use std::fmt::Display;
use std::io;
use std::io::{ErrorKind, Read};
use thiserror::Error;

/// What a log was replayed to.
#[derive(Clone, Copy, Debug, Drop, PartialEq)]
pub struct Replayed {
    /// The number of commands that were applied.
    pub commands: u64,
    /// The number of bytes of their frames: the offset where the next frame goes.
    pub length: usize,
    /// Whether the log ends within a frame after them.
    pub is_torn: bool,
}

/// Why a log was not replayed to its end, and where. The commands before that place were applied, and no others.
#[derive(Debug, Drop, Error)]
#[error_bound(E: Display)]
#[error("command {commands}, at byte {offset}: {why}")]
pub struct ReplayError<E> {
    /// The number of commands before the place, which is the number of the command there, from 0 on.
    pub commands: u64,
    /// The number of bytes before the place.
    pub offset: usize,
    /// What went wrong there.
    pub why: Failure<E>,
}

/// What goes wrong at a frame of a log.
#[derive(Debug, Drop, Error)]
#[error_bound(E: Display)]
pub enum Failure<E> {
    /// The machine refused the command.
    #[error("it is refused: {0}")]
    Refused(E),
    /// The check does not fit.
    #[error("its frame is damaged")]
    Damaged,
    /// The check fits, and the word does not begin with a command within the limit. The error tells why.
    #[error("it cannot be decoded: {0}")]
    Undecodable(DecodeError),
    /// The check fits, and the word goes on after a command.
    #[error("bytes follow the {taken} of its encoding")]
    Longer {
        /// The number of bytes of the command's encoding.
        taken: usize,
    },
    /// The length is above what the log takes.
    #[error("its length of {0} is above what the log takes")]
    TooLong(u32),
    /// The stream failed, or the frame ends at 2^64 bytes or after. What the stream gave of the frame is lost.
    #[error("{0}")]
    Read(io::Error),
    /// An allocation was refused. What the stream gave of the frame is lost.
    #[error("{0}")]
    Memory(AllocError),
}

/// Applies the commands of a log to a machine, each once and in order, up to the end of the log or to a torn frame. The
/// log takes encodings of at most `most` bytes. `buffer` holds one frame at a time. Fails with `Refused` where the
/// machine refuses a command, with `Damaged`, `Undecodable` or `Longer` at a frame that holds no command, with
/// `TooLong` at a length above `most`, with `Read` if the stream fails, or with `Memory`.
pub fn replay<M: Machine, C: Config, R: Read>(
    alloc: Global,
    machine: &mut M,
    log: &mut R,
    buffer: &mut Vec<u8>,
    config: C,
    most: u32,
) -> Result<Replayed, ReplayError<M::Refusal>>
    // As many commands as are told led from the old state to the new one, whatever the stream gave.
    ensures runs { MatchResult result
        (λ r. RunsFor M.applies r.commands (M.state machine.old) (M.state machine.new))
        (λ e. RunsFor M.applies e.commands (M.state machine.old) (M.state machine.new)) }
    // These clauses speak of streams whose bytes are known. The commands are those of the frames of the log, in order;
    // it ends after them, or within a frame.
    ensures replayed { TellsBytes (R.remaining log.old) → IfOk result (IsReplay M.applies
        (M.Command.words.format C.setting) C.bound M.Command.words.decodes_to most
        (known_bytes (R.remaining log.old)) (M.state machine.old) (M.state machine.new)) }
    // After an error they are those of the frames before the place, and what stands there is told.
    ensures stopped { TellsBytes (R.remaining log.old) → IfErr result (IsStop M.applies M.refuses
        (M.Command.words.format C.setting) C.bound M.Command.words.decodes_to most
        (known_bytes (R.remaining log.old)) (M.state machine.old) (M.state machine.new)) }
    // Of commands that were appended to a log (`appended-pieces` of framed_store), wherever it was cut since, those are
    // applied that stand whole in it.
    ensures recovers { TellsBytes (R.remaining log.old) → All (λ b. b < 256) (known_bytes (R.remaining log.old))
        → (pieces : List (Piece M.Command)) (lost : List ℕ)
        → ArePieces M.Command.words C.setting C.bound most pieces
        → bytes_of_all pieces ≡ known_bytes (R.remaining log.old) ++ lost
        → IfOk result (Recovers M.Command.eq M.applies pieces (length (known_bytes (R.remaining log.old)))
        (M.state machine.old) (M.state machine.new)) }
{
    M::Command::tell_exact();
    replay_frames(alloc, machine, log, buffer, config, most)
}

/// `replay`, without what it promises of appended commands.
fn replay_frames<M: Machine, C: Config, R: Read>(
    alloc: Global,
    machine: &mut M,
    log: &mut R,
    buffer: &mut Vec<u8>,
    config: C,
    most: u32,
) -> Result<Replayed, ReplayError<M::Refusal>>
    ensures runs { MatchResult result
        (λ r. RunsFor M.applies r.commands (M.state machine.old) (M.state machine.new))
        (λ e. RunsFor M.applies e.commands (M.state machine.old) (M.state machine.new)) }
    ensures replayed { TellsBytes (R.remaining log.old) → IfOk result (IsReplay M.applies
        (M.Command.words.format C.setting) C.bound M.Command.words.decodes_to most
        (known_bytes (R.remaining log.old)) (M.state machine.old) (M.state machine.new)) }
    ensures stopped { TellsBytes (R.remaining log.old) → IfErr result (IsStop M.applies M.refuses
        (M.Command.words.format C.setting) C.bound M.Command.words.decodes_to most
        (known_bytes (R.remaining log.old)) (M.state machine.old) (M.state machine.new)) }
{
    let mut commands = 0;
    let mut offset = 0;
    'commands: loop {
        match apply_next(alloc, machine, log, buffer, config, most, offset) {
            Ok(Step::End) => {
                return Ok(Replayed {
                    commands,
                    length: offset,
                    is_torn: false,
                });
            }
            Ok(Step::Torn) => {
                return Ok(Replayed {
                    commands,
                    length: offset,
                    is_torn: true,
                });
            }
            Ok(Step::Applied(next)) => {
                commands += 1;
                offset = next;
            }
            Err(why) => {
                return Err(ReplayError {
                    commands,
                    offset,
                    why,
                });
            }
        }
    }
}

/// One step of a replay.
#[derive(Clone, Copy, Drop)]
enum Step {
    /// No byte was left.
    End,
    /// The log ended within a frame.
    Torn,
    /// A command was applied. The number is the offset after its frame.
    Applied(usize),
}

/// Reads the frame at an offset and applies its command.
fn apply_next<M: Machine, C: Config, R: Read>(
    alloc: Global,
    machine: &mut M,
    log: &mut R,
    buffer: &mut Vec<u8>,
    config: C,
    most: u32,
    offset: usize,
) -> Result<Step, Failure<M::Refusal>>
    ensures steps { IfOk result (StepsBy M.applies offset (M.state machine.old) (M.state machine.new)) }
    ensures takes { TellsBytes (R.remaining log.old) → IfOk result (TakesStep M.applies
        (M.Command.words.format C.setting) C.bound M.Command.words.decodes_to most offset
        (known_bytes (R.remaining log.old)) (M.state machine.old) (M.state machine.new)
        (known_bytes (R.remaining log.new))) }
    ensures stops { TellsBytes (R.remaining log.old) → IfErr result (StopsBefore M.refuses
        (M.Command.words.format C.setting) C.bound M.Command.words.decodes_to most
        (known_bytes (R.remaining log.old)) (M.state machine.old)) }
    ensures unchanged { OnErr result (M.state machine.new ≡ M.state machine.old) }
    ensures is_known { TellsBytes (R.remaining log.old) → TellsBytes (R.remaining log.new) }
{
    match next_from_stream(alloc, log, buffer, config, most) {
        Ok(Next::End) => Ok(Step::End),
        Ok(Next::Torn) => Ok(Step::Torn),
        Ok(Next::TooLong(length)) => Err(Failure::TooLong(length)),
        Ok(Next::Record { size, content }) => match content {
            Content::Value(command) => match apply_at(machine, command, offset, size) {
                Ok(next) => Ok(Step::Applied(next)),
                Err(why) => Err(why),
            },
            Content::Damaged => Err(Failure::Damaged),
            Content::Undecodable(why) => Err(Failure::Undecodable(why)),
            Content::Longer { taken } => Err(Failure::Longer { taken }),
        },
        Err(ReadError::Read(why)) => Err(Failure::Read(why)),
        Err(ReadError::Memory(why)) => Err(Failure::Memory(why)),
    }
}

/// Applies the command of a frame of `size` bytes, and returns the offset after it.
fn apply_at<M: Machine>(
    machine: &mut M,
    command: M::Command,
    offset: usize,
    size: usize,
) -> Result<usize, Failure<M::Refusal>>
    ensures next { IfOk result (λ next. next ≡ offset + size) }
    ensures applied { OnOk result (M.applies (M.state machine.old) command (M.state machine.new)) }
    ensures refused { IfErr result (StopsFor M.refuses (M.state machine.old) command offset size) }
    ensures unchanged { OnErr result (M.state machine.new ≡ M.state machine.old) }
{
    let Some(next) = offset.checked_add(size) else {
        return Err(Failure::Read(io::Error::from(ErrorKind::FileTooLarge)));
    };
    match machine.apply(command) {
        Ok(()) => Ok(next),
        Err(why) => Err(Failure::Refused(why)),
    }
}
