//! Callers of encoding and decoding. Their proofs use the contracts of the two calls alone.
ghost use Rattle.std.specs.Prelude.{◌≡◌, ◌*◌, ◌≤◌, ℕ, true, IfErr, IfOk};
ghost use Rattle.std.specs.Prelude.{MatchResult, Some, false, length, vec_capacity};
ghost use Rattle.bincode_base.specs.declared.error.DecodeError.TheVariants.{Memory};
ghost use Rattle.bincode_spec.specs.Allowed.{AllowedWord};
ghost use Rattle.bincode_spec.specs.Answer.{Allows};
ghost use Rattle.bincode_spec.specs.Decoding.{MayReportMemory};
ghost use Rattle.bincode_spec.specs.Slice.{FrontWritten};
ghost use Rattle.bincode.specs.Short.{TooShort};
ghost use Rattle.std.specs.Range.{range_inclusive_exhausted};

use bincode::checked::{RoundTrip, round_trip_within};
use bincode::config::Config;
use bincode::de::Decode;
use bincode::enc::Encode;
use bincode::error::{DecodeError, EncodeError};
use bincode::laws::Writable;
use bincode::time::Duration;
use bincode::{Wire, decode_from_slice, encode_into_slice};
use std::alloc::Global;
use std::cell::{Cell, RefCell};
use std::cmp::Reverse;
use std::marker::PhantomData;
use std::net::{IpAddr, Ipv4Addr, Ipv6Addr, SocketAddr, SocketAddrV4, SocketAddrV6};
use std::num::{NonZeroU16, Wrapping};
use std::ops::{Bound, Range, RangeInclusive};

/// Decodes a value. If its type never allocates, the error is never `Memory`.
pub fn read<D: Decode<()>, C: Config>(
    alloc: Global,
    src: &[u8],
    config: C,
) -> Result<(D, usize), DecodeError>
    ensures memory { (D.words.may_allocate → ⊥) → IfErr result (λ e. ¬ (e ≡ Memory)) }
{
    decode_from_slice(alloc, src, config)
}

/// `round_trip_within` for a number of 8 bytes and four of 4: any limit from 24 on is enough.
pub fn round_trip_of_numbers<C: Config>(
    alloc: Global,
    value: &(u64, [u32; 4]),
    slice: &mut [u8],
    config: C,
) -> Result<RoundTrip<(u64, [u32; 4])>, EncodeError>
    ensures back { Allows C.bound 24 → IfOk result (λ trip. MatchResult trip.read
        (λ x. (⟦<(u64, [u32; 4]) as PartialEq>⟧.eq value.now x.0 ≡ true) × (x.1 ≡ trip.written))
        (MayReportMemory (⟦<(u64, [u32; 4]) as Wire>⟧.words.may_allocate))) }
    ensures short { IfErr result (TooShort (AllowedWord (⟦<(u64, [u32; 4]) as Wire>⟧.words.means value.now)
        (⟦<(u64, [u32; 4]) as Wire>⟧.words.format C.setting)) (length slice.old)) }
{
    round_trip_within(alloc, value, slice, config)
}

/// Decodes a list. Under a limit its capacity, times the claim of an item, is within the limit.
pub fn read_list<T: Decode<()>, C: Config>(
    alloc: Global,
    src: &[u8],
    config: C,
) -> Result<(Vec<T>, usize), DecodeError>
    ensures { (limit : ℕ) → C.bound ≡ Some limit
        → IfOk result (λ x. vec_capacity x.0 * T.words.claim ≤ limit) }
{
    decode_from_slice(alloc, src, config)
}

/// Decodes a range, which is not exhausted.
pub fn read_range<C: Config>(
    alloc: Global,
    src: &[u8],
    config: C,
) -> Result<(RangeInclusive<u16>, usize), DecodeError>
    ensures { IfOk result (λ x. range_inclusive_exhausted x.0 ≡ false) }
{
    decode_from_slice(alloc, src, config)
}

/// Decodes a number, without allocation.
pub fn read_number<C: Config>(
    alloc: Global,
    src: &[u8],
    config: C,
) -> Result<(u64, usize), DecodeError>
    ensures { IfErr result (λ e. ¬ (e ≡ Memory)) }
{
    read(alloc, src, config)
}

/// Decodes a cell, without allocation.
pub fn read_cell<C: Config>(
    alloc: Global,
    src: &[u8],
    config: C,
) -> Result<(Cell<u32>, usize), DecodeError>
    ensures { IfErr result (λ e. ¬ (e ≡ Memory)) }
{
    read(alloc, src, config)
}

/// Types of each family that never allocate, so that `read` never fails with `Memory` for them.
pub fn types_without_memory()
    ensures number { ⟦<u64 as Wire>⟧.words.may_allocate → ⊥ }
    ensures number_other_than_zero { ⟦<NonZeroU16 as Wire>⟧.words.may_allocate → ⊥ }
    ensures truth { ⟦<bool as Wire>⟧.words.may_allocate → ⊥ }
    ensures character { ⟦<char as Wire>⟧.words.may_allocate → ⊥ }
    ensures pair { ⟦<(u8, u32) as Wire>⟧.words.may_allocate → ⊥ }
    // its slots fit
    ensures array { ⟦<[u8; 4] as Wire>⟧.words.may_allocate → ⊥ }
    ensures option { ⟦<Option<u32> as Wire>⟧.words.may_allocate → ⊥ }
    ensures outcome { ⟦<Result<u8, u16> as Wire>⟧.words.may_allocate → ⊥ }
    ensures bound { ⟦<Bound<u8> as Wire>⟧.words.may_allocate → ⊥ }
    ensures range { ⟦<Range<u16> as Wire>⟧.words.may_allocate → ⊥ }
    ensures inclusive_range { ⟦<RangeInclusive<u16> as Wire>⟧.words.may_allocate → ⊥ }
    ensures wrapping { ⟦<Wrapping<u32> as Wire>⟧.words.may_allocate → ⊥ }
    ensures reverse { ⟦<Reverse<u32> as Wire>⟧.words.may_allocate → ⊥ }
    ensures nothing { ⟦<PhantomData<u8> as Wire>⟧.words.may_allocate → ⊥ }
    ensures span { ⟦<Duration as Wire>⟧.words.may_allocate → ⊥ }
    ensures cell { ⟦<Cell<u32> as Wire>⟧.words.may_allocate → ⊥ }
    ensures ref_cell { ⟦<RefCell<u32> as Wire>⟧.words.may_allocate → ⊥ }
    ensures address { ⟦<IpAddr as Wire>⟧.words.may_allocate → ⊥ }
    ensures address_v4 { ⟦<Ipv4Addr as Wire>⟧.words.may_allocate → ⊥ }
    ensures address_v6 { ⟦<Ipv6Addr as Wire>⟧.words.may_allocate → ⊥ }
    ensures socket { ⟦<SocketAddr as Wire>⟧.words.may_allocate → ⊥ }
    ensures socket_v4 { ⟦<SocketAddrV4 as Wire>⟧.words.may_allocate → ⊥ }
    ensures socket_v6 { ⟦<SocketAddrV6 as Wire>⟧.words.may_allocate → ⊥ }
{}

/// Encodes a value of a `Writable` type. After an error the slice holds a prefix of an allowed encoding.
pub fn write<T: Encode + Writable, C: Config>(
    value: &T,
    slice: &mut [u8],
    config: C,
) -> Result<usize, EncodeError>
    ensures { IfErr result (FrontWritten (AllowedWord (T.words.means value.now) (T.words.format C.setting)) slice.old
        slice.new) }
{
    T::tell_writable();
    value.tell_valid();
    encode_into_slice(value, slice, config)
}

/// Encodes a cell.
pub fn write_cell<C: Config>(
    value: &Cell<u8>,
    slice: &mut [u8],
    config: C,
) -> Result<usize, EncodeError>
    ensures { IfErr result (FrontWritten (AllowedWord (⟦<Cell<u8> as Wire>⟧.words.means value.now)
        (⟦<Cell<u8> as Wire>⟧.words.format C.setting)) slice.old slice.new) }
{
    write(value, slice, config)
}
