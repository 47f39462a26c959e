//! Two arenas in a context: which one a decoder borrows, and how long its lists live.
ghost use Rattle.std.specs.Prelude.{◌≡◌, ℕ, List, length, IfOk};
ghost use Rattle.bincode.specs.Run.{IsListOf};
ghost use Rattle.bincode.specs.Slice.{IsDecoded};

use crate::arena::ArenaList;
use bincode::config::Config;
use bincode::de::{Decoder, LendInContext, WithContext};
use bincode::error::DecodeError;
use bincode::{Wire, decode_from_slice_with_context};
use bumpalo::Bump;
use std::alloc::Global;

/// Two arenas: one for what is kept, one for what is not.
#[derive(Clone, Copy)]
pub struct Arenas<'b> {
    pub kept: &'b Bump,
    pub passing: &'b Bump,
}

/// Borrows the decoder with the arena for what is kept.
pub fn with_kept<'a, 'b, D: Decoder<Context = Arenas<'b>>>(
    decoder: &'a mut D,
) -> WithContext<'a, D, &'b Bump>
    ensures { ⟦<WithContext<'a, D, &'b Bump> as Decoder>⟧.context_of result ≡ (D.context_of decoder.old).kept }
{
    let bump = decoder.context().kept;
    decoder.with_context(bump)
}

/// The number of items of a list. The arena can be used again afterwards. Fails if the list cannot be decoded, or with
/// `Memory` if the arena has no room for it.
pub fn count_numbers<C: Config>(
    alloc: Global,
    bump: &mut Bump,
    bytes: &[u8],
    config: C,
) -> Result<usize, DecodeError>
    ensures { IfOk result (λ n. (taken : ℕ)
        × IsDecoded (⟦<ArenaList<'static, u32> as Wire>⟧.words.format C.setting) C.bound bytes.now
        (λ m. (items : List ℕ) × IsListOf (λ x k. ⟦<u32 as Wire>⟧.words.decodes_to k x) items m
        × (n ≡ length items)) taken) }
{
    let (list, _taken): (ArenaList<u32>, usize) = decode_from_slice_with_context(
        alloc, bytes, config, &*bump,
    )?;
    let count = list.items.len();
    let _ = bump.reset();
    Ok(count)
}
