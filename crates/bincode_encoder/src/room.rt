//! One check of the capacity for a whole value.
ghost use Rattle.std.specs.Prelude.{◌≡◌, ◌+◌, ◌^◌, ◌<◌, ℕ, List, length, max, true, Some, IfSome};
ghost use Rattle.bincode_spec.specs.Device.{WithinRoom};

use crate::encoder::Encoder;
use bincode_base::config::{Config, IntEncoding};

/// The longest value, in bytes, that is checked at once. The code after the check exists twice, so it has to be short.
const LONGEST: usize = 12;

/// Whether integers are fixed, the maximum size of a value is known and at most `LONGEST`, and the writer is sure to
/// have room for it. The caller does the same in both branches: after `true` LLVM knows that each piece has room and
/// drops the checks of the pieces (docs/dev/PERFORMANCE.md, "One check of the capacity").
#[inline(always)]
pub fn fits_in_one_check<E: Encoder>(encoder: &E, most: Option<usize>) -> bool
    ensures { result ≡ true → IfSome most (λ n. (piece : List ℕ) → length piece ≡ n
        → WithinRoom (E.W.room (E.writer_of encoder.now)) piece) }
{
    match (encoder.config().int_encoding(), most) {
        (IntEncoding::Fixed, Some(most)) if most <= LONGEST => encoder.has_room_for(most),
        _ => false,
    }
}

/// The maximum size of two values in a row, if both are known.
#[inline(always)]
pub const fn most_of_both(first: Option<usize>, second: Option<usize>) -> Option<usize>
    // It is the sum,
    ensures sum { IfSome result (λ n. (a : ℕ) × (b : ℕ) × (first ≡ Some a) × (second ≡ Some b)
        × (n ≡ a + b)) }
    // and known if that fits 64 bits.
    ensures known { (a b : ℕ) → first ≡ Some a → second ≡ Some b → a + b < 2 ^ 64 → result ≡ Some (a + b) }
{
    match (first, second) {
        (Some(first), Some(second)) => first.checked_add(second),
        _ => None,
    }
}

/// The maximum size of one of two values, if both are known.
#[inline(always)]
pub const fn most_of_either(first: Option<usize>, second: Option<usize>) -> Option<usize>
    // It is the larger one,
    ensures larger { IfSome result (λ n. (a : ℕ) × (b : ℕ) × (first ≡ Some a) × (second ≡ Some b)
        × (n ≡ max a b)) }
    // and known.
    ensures known { (a b : ℕ) → first ≡ Some a → second ≡ Some b → result ≡ Some (max a b) }
{
    match (first, second) {
        (Some(first), Some(second)) if first < second => Some(second),
        (Some(first), Some(_)) => Some(first),
        _ => None,
    }
}
