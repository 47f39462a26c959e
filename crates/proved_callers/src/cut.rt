//! A user-defined reader and writer, over a line that is cut after a number of calls.
ghost use Rattle.std.specs.Prelude.{◌≡◌, ◌+◌, ◌-◌, ◌^◌, ◌<◌, ◌≤◌};
ghost use Rattle.std.specs.Prelude.{◌⊎◌, ◌++◌, [], length};
ghost use Rattle.std.specs.Prelude.{⊤, Some};
ghost use Rattle.std.proofs.Common.{zero-le, le_refl, inl, inr, arith, length-append, refl, ap, ◌∙◌};
ghost use Rattle.bincode_spec.specs.Device.{CountRises};
ghost use Rattle.bincode_io.specs.Slices.{left_of};
ghost use Rattle.bincode_io.specs.RoomLaws.{first-empty, second-empty};
ghost use Rattle.bincode_base.specs.declared.error.DecodeError.TheVariants.{UnexpectedEnd};
ghost use Rattle.proved_callers.specs.Cut.{cut_errors};

use bincode::de::read::{Reader, SliceReader};
use bincode::enc::write::Writer;
use bincode::error::{DecodeError, EncodeError};
use bincode_base::short_text::ShortText;

/// Reads a slice until the line is cut, and counts each read after that as a failure.
#[derive(Drop)]
pub struct CutReader<'s> {
    reader: SliceReader<'s>,
    reads: usize,
    failures: u64,
}

impl<'s> CutReader<'s> {
    /// A reader of these bytes, whose line is cut after `reads` reads.
    pub fn new(bytes: &'s [u8], reads: usize) -> CutReader<'s> {
        CutReader {
            reader: SliceReader::new(bytes),
            reads,
            failures: 0,
        }
    }

    /// The number of reads that failed.
    pub fn failures(&self) -> u64 {
        self.failures
    }
}

impl Reader for CutReader<'_> {
    ghost is_known = { λ _. ⊤ };

    ghost remaining = { λ r. left_of r.reader };

    ghost buffered_len = { λ _. 0 };

    ghost failures = { λ r. r.failures };

    ghost end_error = { λ missing e. e ≡ UnexpectedEnd missing };

    ghost device = { cut_errors };

    ghost loans = { λ _. [] };

    fn read(&mut self, bytes: &mut [u8]) -> Result<(), DecodeError> {
        if self.reads == 0 {
            self.failures = self.failures.saturating_add(1);
            return Err(DecodeError::Other(ShortText::new("the line is cut")));
        }
        self.reads -= 1;
        self.reader.read(bytes)
    }

    fn peek_read(&mut self, _n: usize) -> Option<&[u8]> {
        None
    }

    fn consume(&mut self, _n: usize) {}

    ghost buffered_within = { λ r _. zero-le };

    ghost end_error_is = { λ missing e h. inl h };
}

/// Counts the bytes that are sent until the line is cut, and each piece after that as a failure. An empty piece is not
/// sent.
#[derive(Drop)]
pub struct CutWriter {
    sent: usize,
    pieces: usize,
    failures: u64,
}

impl CutWriter {
    /// A writer whose line is cut after `pieces` pieces.
    pub fn new(pieces: usize) -> CutWriter {
        CutWriter {
            sent: 0,
            pieces,
            failures: 0,
        }
    }

    /// The number of bytes that were sent.
    pub fn sent(&self) -> usize {
        self.sent
    }

    /// The number of pieces that failed.
    pub fn failures(&self) -> u64 {
        self.failures
    }
}

impl Writer for CutWriter {
    ghost adds = { λ a piece b. (b.sent ≡ a.sent + length piece) × (a.failures ≤ b.failures)
        × (length piece ≤ 2 ^ 64 - 1 - a.sent) × (piece ≡ [] → b ≡ a) };

    ghost refuses = { λ a piece e b. (b.sent ≡ a.sent) × (a.failures ≤ b.failures)
        × ((2 ^ 64 - 1 - a.sent < length piece) ⊎ CountRises a.failures b.failures) };

    ghost room = { λ w. Some (2 ^ 64 - 1 - w.sent) };

    ghost failures = { λ w. w.failures };

    ghost device = { λ _. ⊥ };

    ghost loans = { λ _. [] };

    fn write(&mut self, bytes: &[u8]) -> Result<(), EncodeError> {
        if bytes.is_empty() {
            return Ok(());
        }
        if self.pieces == 0 {
            self.failures = self.failures.saturating_add(1);
            return Err(EncodeError::Other(ShortText::new("the line is cut")));
        }
        if usize::MAX - self.sent < bytes.len() {
            return Err(EncodeError::UnexpectedEnd);
        }
        self.pieces -= 1;
        self.sent += bytes.len();
        Ok(())
    }

    ghost adds_none = { λ w. (Prim.omega arith, le_refl w.failures, zero-le, λ empty. refl) };

    ghost adds_join = { λ a b c x y p q. let l = length-append x y in (
      Prim.omega arith,
      Prim.omega arith,
      Prim.omega arith,
      λ empty. q.3 (second-empty x y empty) ∙ p.3 (first-empty x y empty),
    ) };

    ghost adds_count = { λ a b piece h. h.1 };

    ghost refuses_count = { λ a b piece e h. h.1 };

    ghost refuses_why = { λ a b piece e h. elim h.2 [ inl short ↦ inl short | inr rose ↦ inr (inr (inr rose)) ] };

    ghost adds_nothing = { λ a b h. h.3 refl };

    ghost adds_room = { λ a b piece h. record { within = h.2; left = ap Some (Prim.omega arith) } };
}
