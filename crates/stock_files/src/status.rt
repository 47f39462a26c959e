//! The statuses with which the program ends.
ghost use Rattle.std.specs.Prelude.{◌≡◌, ◌↔◌, IsTrue};
ghost use Rattle.stock_files.specs.Statuses.{IsGreatest};

/// Done, and whole.
pub const DONE: u8 = 0;

/// Damaged or torn.
pub const DAMAGED: u8 = 1;

/// The arguments spell no request.
pub const USAGE: u8 = 2;

/// A file, the standard input or the standard output failed.
pub const FAILED: u8 = 3;

/// The status of a store by whether it is whole.
pub fn status_of(is_whole: bool) -> u8
    ensures whole { (result ≡ DONE) ↔ IsTrue is_whole }
    ensures damaged { (result ≡ DAMAGED) ↔ (IsTrue is_whole → ⊥) }
{
    if is_whole { DONE } else { DAMAGED }
}

/// The status of a run over several files, by the status of each: the greatest, or `DONE` of none.
pub fn run_status(statuses: &[u8]) -> u8
    ensures { IsGreatest statuses.now result }
{
    let mut greatest = DONE;
    for status in statuses {
        if *status > greatest {
            greatest = *status;
        }
    }
    greatest
}
