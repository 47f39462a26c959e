//! User-defined lists in arenas.

use crate::asserts::all_hold;
use bincode::config::{self, Config};
use bincode::de::Decode;
use bincode::enc::Encode;
use bincode::error::DecodeError;
use bincode::{Wire, decode_from_slice_with_context, decode_from_std_read_with_context};
use bumpalo::Bump;
use own_types::arena::ArenaList;
use own_types::framed::{Env, Framed};
use std::alloc::Global;
use test_helpers::checks::{decoded_with, each_call_writes, ends_at_each_place, is_passed};
use test_helpers::streams::{Breaking, is_broken};

/// The numbers 1, 2 and 3.
const NUMBERS: [u8; 4] = [3, 1, 2, 3];

/// The same after the kind 7.
const FRAMED: [u8; 5] = [7, 3, 1, 2, 3];

/// What is decoded of the three numbers into an arena. Retries once if an allocation is refused.
fn listed<C: Config>(
    alloc: Global,
    bump: &Bump,
    config: C,
) -> Result<(ArenaList<'_, u32>, usize), DecodeError> {
    decoded_with(alloc, &NUMBERS, config, bump)
}

/// Whether the three numbers were decoded, from four bytes.
fn is_listed(outcome: Result<(ArenaList<'_, u32>, usize), DecodeError>) -> bool {
    matches!(outcome, Ok((ArenaList { items: [1, 2, 3] }, 4)))
}

#[test]
fn fills_an_arena_within_a_limit(rt: HostRuntime) {
    let alloc = rt.alloc();
    let bump = Bump::new(alloc);
    let config = config::standard();
    all_hold(
        &rt,
        &[
            (
                "a list in an arena",
                is_listed(listed(alloc, &bump, config)) && ArenaList::<u32>::claim_size() == 16,
            ),
            (
                "a list in an arena, limits 19 and 20",
                is_passed(listed(alloc, &bump, config.with_limit::<19>()))
                    && is_listed(listed(alloc, &bump, config.with_limit::<20>())),
            ),
        ],
    );
}

/// Whether the length exceeds a limit of 100000, at the first call.
fn is_too_long(alloc: Global, bump: &Bump, length: &[u8]) -> bool {
    let limited = config::standard().with_limit::<100_000>();
    let outcome: Result<(ArenaList<'_, u32>, usize), DecodeError> = decode_from_slice_with_context(
        alloc, length, limited, bump,
    );
    is_passed(outcome)
}

/// an arena that is refused: `Memory`. A length that exceeds a limit is refused before the arena is asked.
#[test]
fn answers_that_the_arena_is_full(rt: HostRuntime) {
    let bump = Bump::new(rt.alloc());
    bump.set_allocation_limit(Some(0));
    assert!(&rt;
        is_too_long(
            rt.alloc(),
            &bump,
            &[253, 255, 255, 255, 255, 255, 255, 255, 255]
        ) && is_too_long(rt.alloc(), &bump, &[252, 160, 134, 1, 0])
    );
    let refused: Result<(ArenaList<'_, u32>, usize), DecodeError> = decode_from_slice_with_context(
        rt.alloc(),
        &NUMBERS,
        config::standard(),
        &bump,
    );
    assert!(&rt; matches!(refused, Err(DecodeError::Memory)));
    bump.set_allocation_limit(None);
    assert!(&rt; is_listed(listed(rt.alloc(), &bump, config::standard())));
}

/// What is decoded into an arena from a stream of one byte a call, which fails from a given call on.
fn streamed(alloc: Global, bump: &Bump, calls: usize) -> Result<ArenaList<'_, u32>, DecodeError> {
    let mut stream = Breaking {
        bytes: &NUMBERS,
        calls,
    };
    decode_from_std_read_with_context(alloc, &mut stream, config::standard(), bump)
}

/// Whether the three numbers are decoded from a stream of four calls.
fn are_streamed(alloc: Global, bump: &Bump) -> bool {
    matches!(streamed(alloc, bump, 4), Ok(ArenaList { items: [1, 2, 3] }))
}

/// Whether the stream is told to be broken where it fails at an earlier call.
fn is_broken_at(alloc: Global, bump: &Bump, calls: usize) -> bool {
    is_broken(&streamed(alloc, bump, calls)) || is_broken(&streamed(alloc, bump, calls))
}

/// A list in an arena byte by byte, and from a stream that fails at each call. Retries once, since an allocation may be
/// refused.
#[test]
fn fills_an_arena_from_a_stream(rt: HostRuntime) {
    let bump = Bump::new(rt.alloc());
    assert!(&rt; are_streamed(rt.alloc(), &bump) || are_streamed(rt.alloc(), &bump));
    for calls in 0..4 {
        assert!(&rt; is_broken_at(rt.alloc(), &bump, calls));
    }
}

/// Whether each call writes the value as this word, and in this context no prefix of it is one.
fn is_word_in<Context: Copy + Drop, T: Encode + Decode<Context>>(
    alloc: Global,
    value: &T,
    word: &[u8],
    context: Context,
) -> bool {
    each_call_writes(alloc, value, word) && ends_at_each_place::<Context, T>(alloc, word, context)
}

/// an arena within a context
#[test]
fn lends_the_arena_of_a_context(rt: HostRuntime) {
    let bump = Bump::new(rt.alloc());
    let env = Env { bump: &bump, id: 5 };
    let read: Result<(Framed, usize), DecodeError> = decoded_with(
        rt.alloc(),
        &FRAMED,
        config::standard(),
        env,
    );
    let Ok((framed, 5)) = read else {
        assert!(&rt; false);
        return;
    };
    assert!(&rt;
        framed.kind == 7
            && matches!(framed.list.items, [1, 2, 3])
            && is_word_in(rt.alloc(), &framed, &FRAMED, env)
            && Framed::claim_size() == 17
    );
}
