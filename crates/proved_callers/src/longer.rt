//! Callers that decode from more bytes and from fewer. Their proofs use the contracts of the calls alone.
ghost use Rattle.std.specs.Prelude.{◌≤◌, ◌<◌, ◌⊎◌, ◌++◌, ℕ, List, All, Result, length, IfOk};
ghost use Rattle.bincode_base.specs.declared.error.DecodeError.{DecodeError};
ghost use Rattle.bincode_spec.specs.Layers.Agree.{SameAnswer, WasCut, WasRefused};
ghost use Rattle.bincode_spec.specs.Slice.{IsAnswer};

use bincode::config::Config;
use bincode::de::Decode;
use bincode::decode_from_slice;
use bincode::error::DecodeError;
use std::alloc::Global;

/// The results of decoding a value from the first of some bytes, and from all of them.
#[derive(Drop)]
pub struct ReadLonger<T> {
    pub front: Result<(T, usize), DecodeError>,
    pub whole: Result<(T, usize), DecodeError>,
}

/// Decodes a value from the first `count` bytes, and from all. Both results are equal, unless the first is an early end
/// of the input or `Memory`. If an encoding goes on after the first bytes, that result is an early end.
pub fn read_longer<T: Decode<()>, C: Config>(
    alloc: Global,
    bytes: &[u8],
    count: usize,
    config: C,
) -> ReadLonger<T>
    requires { count ≤ length bytes.now }
    ensures same { ¬ (WasCut result.front) → WasRefused T.words.may_allocate result.front
        ⊎ (WasRefused T.words.may_allocate result.whole ⊎ SameAnswer T.words.decodes_to result.front result.whole) }
    ensures cut { IfOk result.whole (λ x. count < x.1 → WasCut result.front
        ⊎ WasRefused T.words.may_allocate result.front) }
{
    let front = decode_from_slice(alloc, &bytes[..count], config);
    let whole = decode_from_slice(alloc, bytes, config);
    ReadLonger { front, whole }
}

/// Decodes a value from bytes to which more may be added. If the error says that they ended too early, there are bytes
/// that can follow them, with which it does not.
pub fn read_part<T: Decode<()>, C: Config>(
    alloc: Global,
    bytes: &[u8],
    config: C,
) -> Result<(T, usize), DecodeError>
    ensures { WasCut result → (more : List ℕ) × All (λ x. x < 256) more × ((later : Result (T × ℕ) DecodeError)
        → IsAnswer (T.words.format C.setting) C.bound T.words.may_allocate T.words.decodes_to (bytes.now ++ more) later
        → ¬ (WasCut later)) }
{
    decode_from_slice(alloc, bytes, config)
}
