//! Callers of borrowed decoding. Their proofs use the contracts of the calls alone.
ghost use Rattle.std.specs.Prelude.{◌≡◌, IfErr, IfOk, MatchResult};
ghost use Rattle.bincode_base.specs.declared.error.DecodeError.TheVariants.{Memory};
ghost use Rattle.bincode_spec.specs.Layers.Agree.{SameReading};
ghost use Rattle.bincode_spec.specs.Decoding.{MayReportMemory};

use bincode::config::Config;
use bincode::de::{BorrowDecode, Decode};
use bincode::error::DecodeError;
use bincode::{Wire, borrow_decode_from_slice, decode_from_slice};
use std::alloc::Global;

/// The results of decoding a value by copying, and by borrowing.
#[derive(Drop)]
pub struct ReadTwice<T> {
    pub owned: Result<(T, usize), DecodeError>,
    pub borrowed: Result<(T, usize), DecodeError>,
}

/// Decodes a value from a slice in both ways. They agree on whether it succeeds, on the meaning and on the length, or
/// one of them fails with `Memory`, if the type may allocate.
pub fn read_twice<'a, T: Decode<()> + BorrowDecode<&'a [u8], ()>, C: Config>(
    alloc: Global,
    src: &'a [u8],
    config: C,
) -> ReadTwice<T>
    ensures owned { IfOk result.owned (λ x. MatchResult result.borrowed (λ y. SameReading T.words.decodes_to x y)
        (MayReportMemory T.words.may_allocate)) }
    ensures borrowed { IfOk result.borrowed (λ y. MatchResult result.owned (λ x. SameReading T.words.decodes_to y x)
        (MayReportMemory T.words.may_allocate)) }
{
    let owned = decode_from_slice(alloc, src, config);
    let borrowed = borrow_decode_from_slice(alloc, src, config);
    ReadTwice { owned, borrowed }
}

/// Decodes a value that may borrow bytes of the slice. If its type never allocates, the error is never `Memory`.
pub fn borrow_read<'a, D: BorrowDecode<&'a [u8], ()>, C: Config>(
    alloc: Global,
    src: &'a [u8],
    config: C,
) -> Result<(D, usize), DecodeError>
    ensures memory { (D.words.may_allocate → ⊥) → IfErr result (λ e. ¬ (e ≡ Memory)) }
{
    borrow_decode_from_slice(alloc, src, config)
}

/// Decodes a pair of a text and bytes, both borrowed from the slice, without allocation.
pub fn borrow_pair<'a, C: Config>(
    alloc: Global,
    src: &'a [u8],
    config: C,
) -> Result<((&'a str, &'a [u8]), usize), DecodeError>
    ensures { IfErr result (λ e. ¬ (e ≡ Memory)) }
{
    borrow_read(alloc, src, config)
}
