//! A writer that only counts.
ghost use Rattle.std.specs.Prelude.{◌≡◌, ◌+◌, ◌-◌, ◌^◌, ◌<◌, ◌≤◌, ◌++◌};
ghost use Rattle.std.specs.Prelude.{Some, [], length};
ghost use Rattle.std.proofs.Common.{arith, inl, le_refl, zero-le, ap, ◌∙◌, add-zero, length-append};
ghost use Rattle.bincode_base.specs.declared.error.EncodeError.TheVariants.{UnexpectedEnd};

use crate::write::Writer;
use bincode_base::error::EncodeError;

/// Counts the bytes of a value and keeps none. Fails with `UnexpectedEnd` if the count would pass 64 bits, and leaves
/// the count as it was.
#[derive(Default, Drop)]
pub struct SizeWriter {
    /// The number of bytes written.
    pub bytes_written: usize,
}

impl Writer for SizeWriter {
    ghost adds = { λ a piece b. (b.bytes_written ≡ a.bytes_written + length piece)
        × (length piece ≤ 2 ^ 64 - 1 - a.bytes_written) };

    ghost refuses = { λ a piece e b. (e ≡ UnexpectedEnd)
        × (2 ^ 64 - 1 - a.bytes_written < length piece) × (b ≡ a) };

    ghost room = { λ w. Some (2 ^ 64 - 1 - w.bytes_written) };

    ghost failures = { λ _. 0 };

    ghost device = { λ _. ⊥ };

    ghost loans = { λ _. [] };

    #[inline(always)]
    fn write(&mut self, bytes: &[u8]) -> Result<(), EncodeError> {
        let Some(count) = self.bytes_written.checked_add(bytes.len()) else {
            return Err(EncodeError::UnexpectedEnd);
        };
        self.bytes_written = count;
        Ok(())
    }

    ghost adds_none = { λ w. (Prim.omega arith, zero-le) };

    ghost adds_join = { λ a b c x y p q. let l = length-append x y in (Prim.omega arith, Prim.omega arith) };

    ghost adds_count = { λ a b piece h. le_refl 0 };

    ghost refuses_count = { λ a b piece e h. le_refl 0 };

    ghost refuses_why = { λ a b piece e h. inl h.1 };

    ghost adds_nothing = { λ a b h. ap (λ n. record { bytes_written = n }) (h.0 ∙ add-zero a.bytes_written) };

    ghost adds_room = { λ a b piece h. record { within = h.1; left = ap Some (Prim.omega arith) } };
}
