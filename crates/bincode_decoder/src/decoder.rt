//! Decoders: a reader with a configuration, a context and a charge.
ghost use Rattle.std.specs.Prelude.{◌≡◌, ◌*◌, ℕ, List};
ghost use Rattle.std.specs.Borrow.{GName, Lends, sem};
ghost use Rattle.std.specs.declared.alloc.Global.{Global};
ghost use Rattle.std.specs.Bool.{MatchBool};
ghost use Rattle.bincode_spec.specs.Answer.{Allows};
ghost use Rattle.bincode_spec.specs.Layers.Releases.{CanRelease};
ghost use Rattle.bincode_spec.specs.Layers.Claims.{MakesClaim, MakesRelease};

mod borrow;
mod charge;
mod lent;
mod owner;
mod reference;

use bincode_base::config::Config;
use bincode_base::error::DecodeError;
use bincode_io::read::Reader;
use bincode_types::wire::Wire;
pub use borrow::{BorrowDecoder, BorrowedBytes};
pub use lent::LentDecoder;
pub use owner::DecoderImpl;
use std::alloc::Global;

pub(crate) mod sealed {
    /// Seals `Decoder`: only this crate implements it.
    pub trait Sealed {}
}

use sealed::Sealed;

/// A reader with a configuration, a context and a charge.
pub trait Decoder: Sealed {
    type R: Reader;

    type C: Config;

    type Context: Drop;

    /// The remaining bytes are known (a slice), or not (a file). Clauses about `remaining` assume that they are.
    ghost is_known: { Self → Type 0 };

    /// The remaining bytes.
    ghost remaining: { Self → List ℕ };

    /// How often the device failed.
    ghost failures: { Self → ℕ };

    /// The number of bytes that are charged.
    ghost charge: { Self → ℕ };

    /// The reader.
    ghost reader_of: { Self → Self.R };

    /// The decoder with another reader.
    ghost put_reader: { Self → Self.R → Self };

    /// The context.
    ghost context_of: { Self → Self.Context };

    /// The decoder with another context.
    ghost put_context: { Self → Self.Context → Self };

    /// The configuration.
    ghost config_of: { Self → Self.C };

    /// The allocator.
    ghost alloc_of: { Self → Global };

    /// The references that it reads through. No call changes them.
    ghost loans: { Self → List GName };

    /// Lends the reader.
    fn reader(&mut self) -> &mut Self::R
        ensures* lends { sem 𝓛 (Lends Self.row Self.R.row self.entry result (put_reader self.old)) }
        ensures value { result.now ≡ reader_of self.old };

    /// Lends the context.
    fn context(&mut self) -> &mut Self::Context
        ensures* lends { sem 𝓛 (Lends Self.row Self.Context.row self.entry result (put_context self.old)) }
        ensures value { result.now ≡ context_of self.old };

    /// Lends the configuration: the one that the decoder was made with. Most of it is known without this clause: byte
    /// order, integer encoding and limit are those of the type `C`, whatever value it has.
    fn config(&self) -> &Self::C
        ensures { result.now ≡ config_of self.now };

    /// The allocator for what is decoded: the one that the decoder was made with.
    fn alloc(&self) -> Global
        ensures { result ≡ alloc_of self.now };

    /// Charges `n` bytes; without a limit nothing is counted. Fails with `LimitExceeded` if the new charge is above the
    /// limit. Even then the new charge is kept, if it fits 64 bits.
    fn claim_bytes_read(&mut self, n: usize) -> Result<(), DecodeError>
        ensures { MakesClaim is_known remaining charge failures reader_of context_of loans Self.C.bound n result
            self.old self.new };

    /// Whether the charge is within the limit. After a claim that failed it may not be.
    fn is_within_limit(&self) -> bool
        ensures { MatchBool result (Allows Self.C.bound (charge self.now))
            (¬ (Allows Self.C.bound (charge self.now))) };

    /// Releases `n` of the bytes that a container claimed; without a limit nothing is counted.
    fn unclaim_bytes_read(&mut self, n: usize)
        requires { CanRelease Self.C.bound (charge self.old) n }
        ensures { MakesRelease is_known remaining charge failures reader_of context_of loans Self.C.bound n self.old
            self.new };

    /// Lens laws: `reader_of` after `put_reader` is the reader put; `put_context` leaves it,
    ghost reader_put: { (d : Self) (r : Self.R) → reader_of (put_reader d r) ≡ r };

    ghost reader_kept: { (d : Self) (x : Self.Context) → reader_of (put_context d x) ≡ reader_of d };

    /// and likewise for the context.
    ghost context_put: { (d : Self) (x : Self.Context) → context_of (put_context d x) ≡ x };

    ghost context_kept: { (d : Self) (r : Self.R) → context_of (put_reader d r) ≡ context_of d };

    /// Neither changes the configuration or the allocator.
    ghost reader_config: { (d : Self) (r : Self.R) → config_of (put_reader d r) ≡ config_of d };

    ghost context_config: { (d : Self) (x : Self.Context) → config_of (put_context d x) ≡ config_of d };

    ghost reader_alloc: { (d : Self) (r : Self.R) → alloc_of (put_reader d r) ≡ alloc_of d };

    ghost context_alloc: { (d : Self) (x : Self.Context) → alloc_of (put_context d x) ≡ alloc_of d };

    /// The decoder knows and counts what its reader does.
    ghost reader_is_known: { (d : Self) → is_known d → Self.R.is_known (reader_of d) };

    ghost remaining_is: { (d : Self) → Self.R.remaining (reader_of d) ≡ remaining d };

    ghost failures_is: { (d : Self) → Self.R.failures (reader_of d) ≡ failures d };

    /// Replacing the reader changes what remains, and not the charge,
    ghost put_is_known: { (d : Self) (r : Self.R) → Self.R.is_known r → is_known (put_reader d r) };

    ghost put_remaining: { (d : Self) (r : Self.R) → remaining (put_reader d r) ≡ Self.R.remaining r };

    ghost put_failures: { (d : Self) (r : Self.R) → failures (put_reader d r) ≡ Self.R.failures r };

    ghost put_charge: { (d : Self) (r : Self.R) → charge (put_reader d r) ≡ charge d };

    ghost put_loans: { (d : Self) (r : Self.R) → Self.R.loans r ≡ Self.R.loans (reader_of d)
        → loans (put_reader d r) ≡ loans d };

    /// and replacing the context changes neither.
    ghost context_is_known: { (d : Self) (x : Self.Context) → is_known d → is_known (put_context d x) };

    ghost context_remaining: { (d : Self) (x : Self.Context) → remaining (put_context d x) ≡ remaining d };

    ghost context_failures: { (d : Self) (x : Self.Context) → failures (put_context d x) ≡ failures d };

    ghost context_charge: { (d : Self) (x : Self.Context) → charge (put_context d x) ≡ charge d };

    ghost context_loans: { (d : Self) (x : Self.Context) → loans (put_context d x) ≡ loans d };
}

/// Claims of containers, for every decoder.
pub trait ClaimContainer: Decoder {
    /// Charges a container of `len` elements: `len` times the claim of `T`. Fails with `LimitExceeded` if that passes
    /// the limit; a product that does not fit 64 bits passes every limit and leaves the charge as it was.
    fn claim_container_read<T: Wire>(&mut self, len: usize) -> Result<(), DecodeError>
        ensures { MakesClaim Self.is_known Self.remaining Self.charge Self.failures Self.reader_of Self.context_of
            Self.loans Self.C.bound (len * T.words.claim) result self.old self.new };
}

impl<D: Decoder> ClaimContainer for D {
    fn claim_container_read<T: Wire>(&mut self, len: usize) -> Result<(), DecodeError> {
        claim_room(self, len, T::claim_size())
    }
}

/// `claim_container_read` with the claim of an element in bytes.
pub fn claim_room<D: Decoder>(decoder: &mut D, len: usize, claim: usize) -> Result<(), DecodeError>
    ensures { MakesClaim D.is_known D.remaining D.charge D.failures D.reader_of D.context_of D.loans D.C.bound
        (len * claim) result decoder.old decoder.new }
{
    match len.checked_mul(claim) {
        Some(n) => decoder.claim_bytes_read(n),
        None if decoder.config().limit().is_none() => Ok(()),
        None => Err(DecodeError::LimitExceeded),
    }
}
