//! A writer into a vector of fixed capacity.
ghost use Rattle.std.specs.Prelude.{◌≡◌, ◌^◌, ◌<◌, ◌++◌, []};
ghost use Rattle.std.specs.Prelude.{IsOk, IfOk, IfErr, None, false};
ghost use Rattle.std.proofs.Common.{◌∙◌, ap, sym, inl, inr, le_refl, append_assoc, refl};
ghost use Rattle.std.proofs.lemmas.List.{append-nil};
ghost use Rattle.bincode_base.specs.declared.error.EncodeError.TheVariants.{UnexpectedEnd, Memory};
ghost use Rattle.bincode_io.specs.RoomLaws.{first-empty, second-empty};

use crate::vec_writer::VecWriter;
use crate::write::Writer;
use bincode_base::error::EncodeError;
use std::alloc::Global;

/// A writer into a vector that never grows, for a value that was counted before: so no code to grow follows each piece.
/// Fails with `UnexpectedEnd` if the capacity is too small, and keeps what was written before.
#[derive(Drop)]
pub struct RoomWriter {
    held: VecWriter,
    any_refused: bool,
}

impl RoomWriter {
    ghost use Rattle.bincode_io.specs.Rooms.{written_to, room_of, refused_by};

    /// Allocates this capacity, in bytes. Fails with `Memory` if the allocation is refused.
    pub fn with_capacity(alloc: Global, capacity: usize) -> Result<RoomWriter, EncodeError>
        ensures start { IfOk result (λ w. (written_to w ≡ []) × (refused_by w ≡ false)) }
        ensures room { IfOk result (λ w. (room_of w ≡ capacity) × (capacity < 2 ^ 63)) }
        ensures fault { IfErr result (λ e. e ≡ Memory) }
        ensures none { capacity ≡ 0 → IsOk result }
    {
        match VecWriter::with_capacity(alloc, capacity) {
            Ok(held) => Ok(RoomWriter {
                held,
                any_refused: false,
            }),
            Err(_) => Err(EncodeError::Memory),
        }
    }

    /// The bytes that were written.
    pub fn collect(self) -> Vec<u8>
        ensures { result.items ≡ written_to self }
    {
        let RoomWriter {
            held,
            any_refused: _,
        } = self;
        held.collect()
    }

    /// Whether a piece was refused because the capacity was too small.
    pub fn has_refused(&self) -> bool
        ensures { result ≡ refused_by self.now }
    {
        self.any_refused
    }
}

impl Writer for RoomWriter {
    ghost use Rattle.bincode_io.specs.Rooms.{written_to, RoomAdds, RoomRefuses};

    ghost adds = { RoomAdds };

    ghost refuses = { RoomRefuses };

    ghost room = { λ _. None };

    ghost failures = { λ _. 0 };

    ghost device = { λ e. e ≡ UnexpectedEnd };

    ghost loans = { λ _. [] };

    #[inline(always)]
    fn write(&mut self, bytes: &[u8]) -> Result<(), EncodeError> {
        if self.held.room_left() < bytes.len() {
            self.any_refused = true;
            return Err(EncodeError::UnexpectedEnd);
        }
        if matches!(bytes.len(), 1 | 2 | 4 | 8) {
            self.held.push_each(bytes);
            Ok(())
        } else {
            self.held.write(bytes)
        }
    }

    /// Kept shorter than `write`: LLVM inlines it seven times in the encoding of a `u64`, and does not inline into a
    /// function that would grow too large, whatever its attributes ask for.
    #[inline(always)]
    fn write_tag(&mut self, byte: u8, _all: usize) -> Result<(), EncodeError> {
        if self.held.room_left() == 0 {
            self.any_refused = true;
            return Err(EncodeError::UnexpectedEnd);
        }
        self.held.push(byte);
        Ok(())
    }

    /// Pushes the bytes one by one.
    #[inline(always)]
    fn write_payload(&mut self, bytes: &[u8]) -> Result<(), EncodeError> {
        if bytes.len() > self.held.room_left() {
            self.any_refused = true;
            return Err(EncodeError::UnexpectedEnd);
        }
        self.held.push_each(bytes);
        Ok(())
    }

    ghost adds_none = { λ w. (sym (append-nil (written_to w)), refl, λ empty. refl) };

    ghost adds_join = { λ a b c x y p q. (
      q.0 ∙ ap (λ l. l ++ y) p.0 ∙ append_assoc (written_to a) x y,
      q.1 ∙ p.1,
      λ empty. q.2 (second-empty x y empty) ∙ p.2 (first-empty x y empty),
    ) };

    ghost adds_count = { λ a b piece h. le_refl 0 };

    ghost refuses_count = { λ a b piece e h. le_refl 0 };

    ghost refuses_why = { λ a b piece e h. inr (inr (inl h.0)) };

    ghost adds_nothing = { λ a b h. h.2 refl };

    ghost adds_room = { λ a b piece h. record { within = tt; left = refl } };
}
