//! A till, whose log is of payments.
ghost use Rattle.std.specs.Prelude.{◌≡◌, ◌+◌, ◌<◌, ℕ};

use crate::saved::Saved;
use replay::machine::Machine;
use snapshots::saving::{Saving, StateError};
use std::alloc::{AllocError, Global};

/// A till, which takes payments while it has room.
#[derive(Clone, Copy, Debug, Drop, PartialEq)]
pub struct Till {
    /// The sum of the payments.
    pub held: u32,
    /// The greatest sum that it takes.
    pub most: u32,
}

/// The till has no room for a payment.
#[derive(Clone, Copy, Debug, Drop, PartialEq)]
pub struct Full;

impl Machine for Till {
    type Command = u16;

    type Refusal = Full;

    ghost State = { ℕ × ℕ };

    ghost state = { λ till. (till.held, till.most) };

    ghost applies = { λ old payment new. new ≡ (old.0 + payment, old.1) };

    ghost refuses = { λ old payment why. old.1 < old.0 + payment };

    fn apply(&mut self, payment: u16) -> Result<(), Full> {
        let most = self.most;
        match self.held.checked_add(u32::from(payment)) {
            Some(held) if held <= most => {
                self.held = held;
                Ok(())
            }
            _ => Err(Full),
        }
    }
}

impl Saving for Till {
    ghost use Rattle.tills.specs.Standing.{StandsFor, one-till, equals-stand};

    type Saved = Saved;

    ghost stands_for = { StandsFor };

    fn to_saved(&self, _alloc: Global) -> Result<Saved, AllocError> {
        Ok(Saved::Second {
            held: self.held,
            most: self.most,
        })
    }

    fn from_saved(_alloc: Global, saved: Saved) -> Result<Till, StateError> {
        match saved {
            Saved::First(held) => Ok(Till { held, most: 1000 }),
            Saved::Second { held, most } => Ok(Till { held, most }),
        }
    }

    ghost one_state = { one-till };

    ghost equals_stand = { equals-stand };
}
