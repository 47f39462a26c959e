//! Arrays that are filled item by item without allocation, through slots of `Option<T>`.
ghost use Rattle.std.specs.Prelude.{◌≡◌, ℕ, ◌<◌, IfSome, IsSome, Option, Some, None, List, length, map};
ghost use Rattle.std.specs.Prelude.{slice_index_or, slice_set};
ghost use Rattle.std.specs.Bool.{MatchBool};
ghost use Rattle.bincode_base.specs.Slots.{SlotsFit, Collects, FillsSlots};

use std::mem::size_of_val;

/// Whether `N` slots of `Option<T>` take less than 2^63 bytes, so that such an array can exist.
pub fn slots_fit<T: Drop, const N: usize>() -> bool
    ensures { MatchBool result (SlotsFit T.row N) (¬ (SlotsFit T.row N)) }
{
    let slot: Option<T> = None;
    match size_of_val(&slot).checked_mul(N) {
        Some(bytes) => bytes < 0x8000_0000_0000_0000,
        None => false,
    }
}

/// `N` empty slots.
pub fn empty_slots<T, const N: usize>() -> [Option<T>; N]
    ensures { (i : ℕ) → i < N → slice_index_or result i None ≡ None }
{
    std::array::from_fn(|_index: usize| None)
}

/// Unwraps slots that are all filled.
pub fn unwrap_all<T: Drop, const N: usize>(mut slots: [Option<T>; N]) -> [T; N]
    requires { (i : ℕ) → i < N → IsSome (slice_index_or slots i None) }
    ensures { map Some result ≡ slots }
{
    let from = &mut slots;
    std::array::from_fn(
        |index: usize| -> T
            requires { (index < N) × IsSome (slice_index_or from.now index None) }
            ensures value { Some result ≡ slice_index_or from.entry.now index None }
            ensures taken { from.exit.now ≡ slice_set from.entry.now index None }
        {
            match from[index].take() {
                Some(value) => value,
                None => unreachable!(),
            }
        },
    )
}

/// Calls `next` once.
fn next_item<I: Iterator>(iter: &mut I) -> Option<I::Item>
    requires { I.can_next iter.old }
    ensures steps { I.next_gives iter.old result iter.new }
    ensures keeps { IfSome result (λ _. I.can_next iter.new) }
{
    iter.next()
}

/// Fills the slots in order, and stops at the first `Err` or `None`.
fn fill<T: Drop, E: Drop, I: Iterator<Item = Result<T, E>>>(
    slots: &mut [Option<T>],
    iter: &mut I,
) -> Option<Result<(), E>>
    requires { I.can_next iter.old }
    ensures { FillsSlots I.next_gives iter.old slots.new result iter.new }
{
    for index in 0..slots.len() {
        match next_item(iter) {
            Some(Ok(value)) => slots[index] = Some(value),
            Some(Err(e)) => return Some(Err(e)),
            None => return None,
        }
    }
    Some(Ok(()))
}

/// Fills the slots and unwraps them into an array.
fn collect_by<T: Drop, E: Drop, I: Iterator<Item = Result<T, E>>, const N: usize>(
    mut slots: [Option<T>; N],
    iter: &mut I,
) -> Option<Result<[T; N], E>>
    requires { I.can_next iter.old }
    ensures { Collects I.next_gives iter.old N result iter.new }
{
    match fill(&mut slots[..], iter) {
        Some(Ok(())) => Some(Ok(unwrap_all(slots))),
        Some(Err(e)) => Some(Err(e)),
        None => None,
    }
}

/// Collects `N` items into an array, without allocation. Returns the first `Err` at once, and `None` if the items end
/// too early; the items before it are dropped. Never calls `next` more than `N` times. Call `slots_fit` first.
pub fn collect_into_array<E: Drop, I: Iterator<Item = Result<T, E>>, T: Drop, const N: usize>(
    iter: &mut I,
) -> Option<Result<[T; N], E>>
    requires may_be_called { I.can_next iter.old }
    requires fits { SlotsFit T.row N }
    ensures { Collects I.next_gives iter.old N result iter.new }
{
    collect_by(empty_slots(), iter)
}
