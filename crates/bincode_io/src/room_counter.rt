//! A counter for the capacity to reserve.
ghost use Rattle.std.specs.Prelude.{◌≡◌, ◌∷◌, None, OnOk, [], length};
ghost use Rattle.std.proofs.Common.{◌∙◌, le_refl, refl};
ghost use Rattle.bincode_spec.specs.Layers.Pieces.{TakesPiece};
ghost use Rattle.bincode_io.specs.RoomLaws.{first-empty, second-empty};

use crate::write::Writer;
use bincode_base::error::EncodeError;

/// Counts bytes modulo 2^64, to reserve a capacity before encoding. Never fails. Since no addition is checked, a list
/// of fixed-width numbers is counted by a product. `SizeWriter` counts with a check.
#[derive(Default, Drop)]
pub struct RoomCounter {
    /// The number of bytes written, modulo 2^64.
    pub bytes_written: usize,
}

impl Writer for RoomCounter {
    const COUNTS: bool = true;

    ghost use Rattle.bincode_io.specs.Counts.{CounterAdds, Counts};

    ghost adds = { CounterAdds };

    ghost refuses = { λ _ _ _ _. ⊥ };

    ghost room = { λ _. None };

    ghost failures = { λ _. 0 };

    ghost device = { λ _. ⊥ };

    ghost loans = { λ _. [] };

    ghost writes = { λ a piece b. Counts (length piece) a b };

    ghost announces = { λ a all b. Counts all a b };

    /// Counts the piece.
    #[inline(always)]
    fn write(&mut self, bytes: &[u8]) -> Result<(), EncodeError>
        ensures piece { TakesPiece CounterAdds (λ _ _ _ _. ⊥) (λ _. 0) (λ _. []) bytes.now result self.old self.new }
        ensures count { OnOk result (Counts (length bytes.now) self.old self.new) }
    {
        self.bytes_written = self.bytes_written.wrapping_add(bytes.len());
        Ok(())
    }

    /// Counts the whole number.
    #[inline(always)]
    fn write_tag(&mut self, byte: u8, all: usize) -> Result<(), EncodeError>
        ensures piece { TakesPiece CounterAdds (λ _ _ _ _. ⊥) (λ _. 0) (λ _. []) (byte ∷ []) result self.old self.new }
        ensures count { OnOk result (Counts all self.old self.new) }
    {
        self.bytes_written = self.bytes_written.wrapping_add(all);
        Ok(())
    }

    /// Counts nothing: `write_tag` has counted these bytes.
    #[inline(always)]
    fn write_payload(&mut self, bytes: &[u8]) -> Result<(), EncodeError>
        ensures piece { TakesPiece CounterAdds (λ _ _ _ _. ⊥) (λ _. 0) (λ _. []) bytes.now result self.old self.new }
        ensures count { self.new ≡ self.old }
    {
        Ok(())
    }

    ghost adds_none = { λ w empty. refl };

    ghost adds_join = { λ a b c x y p q empty. q (second-empty x y empty) ∙ p (first-empty x y empty) };

    ghost adds_count = { λ a b piece h. le_refl 0 };

    ghost refuses_count = { λ a b piece e h. le_refl 0 };

    ghost refuses_why = { λ a b piece e h. absurd h };

    ghost adds_nothing = { λ a b h. h refl };

    ghost adds_room = { λ a b piece h. record { within = tt; left = refl } };
}
