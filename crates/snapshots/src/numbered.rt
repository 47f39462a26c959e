//! Commands with their numbers, so that a log shows which commands it has.
ghost use Rattle.std.specs.Prelude.{ℕ};
ghost use Rattle.snapshots.specs.Numbers.{AppliesNext, RefusesNext};

use replay::machine::Machine;
use std::fmt::Display;
use thiserror::Error;

/// A machine, and the number of its next command: how many commands came before it.
#[derive(Clone, Copy, Debug, Drop, PartialEq)]
pub struct Numbered<M> {
    /// The number of the next command, from 0 on.
    pub next: u64,
    /// The machine, in the state after all commands before that one.
    pub machine: M,
}

/// Why a numbered command is refused.
#[derive(Clone, Copy, Debug, Drop, Error, PartialEq)]
#[error_bound(E: Display)]
pub enum NumberedRefusal<E> {
    /// The machine refused the command.
    #[error("{0}")]
    Refused(E),
    /// Commands are missing before it.
    #[error("command {expected} is missing before command {found}")]
    Missing {
        /// The number of the next command.
        expected: u64,
        /// The number that stands there.
        found: u64,
    },
    /// Its number is the last one of 64 bits, after which no other could follow.
    #[error("no number is left after it")]
    NoNumber,
}

/// The commands of the log are pairs of a number and a command of the machine. A command whose number is below that of
/// the next one is passed over, since the machine has it already.
impl<M: Machine> Machine for Numbered<M> {
    type Command = (u64, M::Command);

    type Refusal = NumberedRefusal<M::Refusal>;

    ghost State = { ℕ × M.State };

    ghost state = { λ numbered. (numbered.next, M.state numbered.machine) };

    ghost applies = { AppliesNext M.applies };

    ghost refuses = { RefusesNext M.refuses };

    fn apply(
        &mut self,
        (number, command): (u64, M::Command),
    ) -> Result<(), NumberedRefusal<M::Refusal>> {
        let expected = self.next;
        if number < expected {
            return Ok(());
        }
        if expected < number {
            return Err(NumberedRefusal::Missing {
                expected,
                found: number,
            });
        }
        let Some(next) = expected.checked_add(1) else {
            return Err(NumberedRefusal::NoNumber);
        };
        match self.machine.apply(command) {
            Ok(()) => {
                self.next = next;
                Ok(())
            }
            Err(why) => Err(NumberedRefusal::Refused(why)),
        }
    }
}
