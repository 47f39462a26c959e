//! What is written is read back.
ghost use Rattle.std.specs.Prelude.{◌≡◌, true, IfOk, MatchResult, length};
ghost use Rattle.bincode.specs.Decoding.{MayReportMemory};

use crate::settings::Saved;
use bincode::checked::{VecTrip, round_trip_by_vec};
use bincode::error::EncodeError;
use bincode::{Wire, config};
use std::alloc::Global;

/// Writes settings and reads them back: equal ones, of all the bytes, or decoding fails with `Memory`.
pub fn write_and_read(alloc: Global, saved: &Saved) -> Result<VecTrip<Saved>, EncodeError>
    ensures { IfOk result (λ trip. MatchResult trip.read
        (λ x. (⟦<Saved as PartialEq>⟧.eq saved.now x.0 ≡ true) × (x.1 ≡ length trip.bytes.items))
        (MayReportMemory ⟦<Saved as Wire>⟧.words.may_allocate)) }
{
    round_trip_by_vec(alloc, saved, config::standard())
}
