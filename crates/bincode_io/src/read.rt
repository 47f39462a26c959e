//! The trait of readers, and the reader of a slice.
ghost use Rattle.std.specs.Prelude.{◌≡◌, ◌-◌, ◌<◌, ◌≤◌, ◌⊎◌, ◌↔◌, ℕ, List, []};
ghost use Rattle.std.specs.Prelude.{◌∷◌, ◌++◌, length, drop, take, ⊤, OnOk, OnErr, IfErr, IfSome, IsSome};
ghost use Rattle.std.specs.Prelude.{IsErr, IfOk};
ghost use Rattle.std.proofs.Common.{le_refl, inl};
ghost use Rattle.std.specs.Borrow.{GName, sem};
ghost use Rattle.std.specs.Io.BufRead.{Rests};
ghost use Rattle.bincode_spec.specs.Device.{DeviceErrors};
ghost use Rattle.bincode_spec.specs.Layers.Pieces.{no_device, IsEndError};
ghost use Rattle.bincode_spec.specs.Layers.Pieces.{FallsShort, FillsBuffer, TakesShown, LeavesState};
ghost use Rattle.bincode_base.specs.declared.error.DecodeError.{DecodeError};
ghost use Rattle.bincode_base.specs.declared.error.DecodeError.TheVariants.{UnexpectedEnd};

mod borrow;

use bincode_base::error::DecodeError;
pub use borrow::BorrowReader;

/// A source of bytes, which are consumed in order.
pub trait Reader: Drop {
    /// Whether an integer is decoded from a peek, if enough bytes are buffered for the longest encoding of its type.
    /// The result is the same. Faster for readers whose `read` does more than copy from a slice.
    const PEEKS_FIRST: bool = true;

    /// The remaining bytes are known (a slice), or not (a file). Clauses about `remaining` assume that they are.
    ghost is_known: { Self → Type 0 };

    /// The remaining bytes.
    ghost remaining: { Self → List ℕ };

    /// The number of bytes that a peek can return.
    ghost buffered_len: { Self → ℕ };

    /// How often the device failed with an error that it counts. A counter at its maximum, 2^64 - 1, passes for one
    /// that was increased.
    ghost failures: { Self → ℕ };

    /// The errors of a read that asks for this many bytes more than remain.
    ghost end_error: { ℕ → DecodeError → Type 0 };

    /// The errors of the device itself.
    ghost device: { DeviceErrors };

    /// The references that it reads through. No call changes them.
    ghost loans: { Self → List GName };

    /// Fills all of `bytes` with the next bytes. Fails if fewer remain or the device fails; then a prefix of them is
    /// consumed, unless the error is one that the device does not count.
    fn read(&mut self, bytes: &mut [u8]) -> Result<(), DecodeError>
        ensures { FillsBuffer is_known remaining failures loans end_error device bytes.old bytes.new result self.old
            self.new };

    /// Returns the next `n` bytes without consuming them. For `n > 0`: `Some` exactly if that many are buffered.
    fn peek_read(&mut self, n: usize) -> Option<&[u8]>
        ensures next { IfSome result (λ s. (length s.now ≡ n)
            × (is_known self.old → s.now ≡ take n (remaining self.old))) }
        ensures shows { 0 < n → IsSome result ↔ (n ≤ buffered_len self.old) }
        ensures* stays { sem 𝓛 (Rests Self.row self.entry (λ after.
            LeavesState (is_known self.old) (is_known after) (remaining self.old) (remaining after) (failures self.old)
            (failures after) (loans self.old) (loans after)
            × IfSome result (λ _. n ≤ buffered_len after))) };

    /// Consumes `n` buffered bytes.
    fn consume(&mut self, n: usize)
        requires { n ≤ buffered_len self.old }
        ensures { TakesShown is_known remaining failures loans n self.old self.new };

    /// No more is buffered than remains.
    ghost buffered_within: { (r : Self) → is_known r → buffered_len r ≤ length (remaining r) };

    /// The error for missing bytes is `UnexpectedEnd` or `Io`, with their number.
    ghost end_error_is: { (missing : ℕ) (e : DecodeError) → end_error missing e → IsEndError missing e };
}

/// A reader over a slice.
pub struct SliceReader<'s> {
    slice: &'s [u8],
    taken: usize,
    ghost within: { taken ≤ length slice.now },
}

impl Drop for SliceReader<'_> {
    fn drop(self) {
        let SliceReader { slice: _, taken: _ } = self;
    }
}

impl<'s> SliceReader<'s> {
    ghost use Rattle.bincode_io.specs.Slices.{left_of};

    /// A reader over these bytes.
    pub fn new(bytes: &'s [u8]) -> SliceReader<'s>
        ensures { left_of result ≡ bytes.now }
    {
        SliceReader {
            slice: bytes,
            taken: 0,
        }
    }

    /// The number of bytes that remain.
    pub fn bytes_left(&self) -> usize
        ensures { result ≡ length (left_of self.now) }
    {
        self.slice.len() - self.taken
    }
}

impl Reader for SliceReader<'_> {
    ghost use Rattle.bincode_io.specs.Slices.{left_of};
    ghost use Rattle.bincode_io.specs.contracts.read.SliceReader.{the_row};
    ghost use mir.Syntax.{named};

    const PEEKS_FIRST: bool = false;

    ghost is_known = { λ _. ⊤ };

    ghost remaining = { left_of };

    ghost buffered_len = { λ r. length (left_of r) };

    ghost failures = { λ _. 0 };

    ghost end_error = { λ missing e. e ≡ UnexpectedEnd missing };

    ghost device = { no_device };

    ghost loans = { λ _. [] };

    /// Fails exactly if fewer bytes remain, and then consumes none.
    fn read(&mut self, bytes: &mut [u8]) -> Result<(), DecodeError>
        ensures next { OnOk result (left_of self.old ≡ bytes.new ++ left_of self.new) }
        ensures why { IfErr result (λ e. FallsShort (λ missing d. d ≡ UnexpectedEnd missing) (left_of self.old)
            (length bytes.old) e) }
        ensures left { OnErr result (left_of self.new ≡ left_of self.old) }
    {
        // The position is compared with the last one at which the bytes fit, so that LLVM sees one length checked by
        // several reads.
        if self.slice.len() < bytes.len() || self.slice.len() - bytes.len() < self.taken {
            return Err(DecodeError::UnexpectedEnd {
                additional: bytes.len() - self.bytes_left(),
            });
        }
        let end = self.taken + bytes.len();
        bytes.copy_from_slice(&self.slice[self.taken..end]);
        self.taken = end;
        Ok(())
    }

    /// Returns `Some` exactly if `n` bytes remain.
    fn peek_read(&mut self, n: usize) -> Option<&[u8]>
        ensures next { IfSome result (λ s. (length s.now ≡ n) × (s.now ≡ take n (left_of self.old))) }
        ensures shows { IsSome result ↔ (n ≤ length (left_of self.old)) }
        ensures* stays { sem 𝓛 (Rests (the_row (record { mir = named 1; lft = [] })) self.entry (λ after.
            LeavesState ⊤ ⊤ (left_of self.old) (left_of after) 0 0 [] []
            × IfSome result (λ _. n ≤ length (left_of after)))) }
    {
        self.slice[self.taken..].get(..n)
    }

    fn consume(&mut self, n: usize) {
        self.taken += n;
    }

    ghost buffered_within = { λ r _. le_refl (length (left_of r)) };

    ghost end_error_is = { λ missing e h. inl h };
}

impl<R: Reader> Reader for &mut R {
    const PEEKS_FIRST: bool = R::PEEKS_FIRST;

    ghost is_known = { λ r. R.is_known r.now };

    ghost remaining = { λ r. R.remaining r.now };

    ghost buffered_len = { λ r. R.buffered_len r.now };

    ghost failures = { λ r. R.failures r.now };

    ghost end_error = { R.end_error };

    ghost device = { R.device };

    ghost loans = { λ r. r.ghost_name ∷ R.loans r.now };

    fn read(&mut self, bytes: &mut [u8]) -> Result<(), DecodeError> {
        (**self).read(bytes)
    }

    fn peek_read(&mut self, n: usize) -> Option<&[u8]> {
        (**self).peek_read(n)
    }

    fn consume(&mut self, n: usize) {
        (**self).consume(n)
    }

    ghost buffered_within = { λ r. R.buffered_within r.now };

    ghost end_error_is = { R.end_error_is };
}
