//! What is read under a limit, and under a larger one.
ghost use Rattle.std.specs.Prelude.{◌≡◌, IfOk, MatchResult};
ghost use Rattle.bincode_spec.specs.Layers.Agree.{SameReading};
ghost use Rattle.bincode_spec.specs.Decoding.{MayReportMemory};
ghost use Rattle.bincode_spec.specs.Limits.{IsNoTighter};

use bincode::config::Config;
use bincode::de::Decode;
use bincode::decode_from_slice;
use bincode::error::DecodeError;
use std::alloc::Global;

/// The results of decoding a value within a limit, and within a larger one.
#[derive(Drop)]
pub struct ReadUnderBoth<T> {
    pub small: Result<(T, usize), DecodeError>,
    pub large: Result<(T, usize), DecodeError>,
}

/// Decodes a value under two configurations of one setting; the second has no limit, or one at least as large. What the
/// first decodes the second does, from as many bytes and with the same meaning, or it fails with `Memory`, if the type
/// may allocate.
pub fn read_under_both<T: Decode<()>, C: Config, D: Config>(
    alloc: Global,
    src: &[u8],
    small: C,
    large: D,
) -> ReadUnderBoth<T>
    ensures { D.setting ≡ C.setting → IsNoTighter C.bound D.bound → IfOk result.small
        (λ x. MatchResult result.large (λ y. SameReading T.words.decodes_to x y)
        (MayReportMemory T.words.may_allocate)) }
{
    let small = decode_from_slice(alloc, src, small);
    let large = decode_from_slice(alloc, src, large);
    ReadUnderBoth { small, large }
}
