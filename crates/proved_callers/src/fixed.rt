//! A user-defined writer, into a vector of fixed capacity.
ghost use Rattle.std.specs.Prelude.{◌≡◌, ◌+◌, ◌-◌, ◌<◌, ◌≤◌, ◌++◌, Some, [], length};
ghost use Rattle.std.proofs.Common.{◌∙◌, ap, sym, inl};
ghost use Rattle.std.proofs.Common.{le_refl, zero-le, append_assoc, arith, refl, length-append};
ghost use Rattle.std.proofs.lemmas.List.{append-nil};
ghost use Rattle.bincode_base.specs.declared.error.EncodeError.TheVariants.{UnexpectedEnd};
ghost use Rattle.bincode_io.specs.RoomLaws.{first-empty, second-empty};
ghost use Rattle.arrayvec.specs.ArrayVec.{array_vec_len};

use arrayvec::ArrayVec;
use bincode::enc::write::Writer;
use bincode::error::EncodeError;

/// Holds at most `N` bytes and never allocates. A piece that does not fit is refused whole, with `UnexpectedEnd`.
#[derive(Drop)]
pub struct Fixed<const N: usize> {
    bytes: ArrayVec<u8, N>,
}

impl<const N: usize> Fixed<N> {
    ghost use Rattle.proved_callers.specs.Fixed.{held_by};

    /// A writer that holds nothing.
    pub fn new() -> Fixed<N>
        ensures { held_by result ≡ [] }
    {
        Fixed {
            bytes: ArrayVec::new(),
        }
    }

    /// The bytes that it holds.
    pub fn held(&self) -> &[u8]
        ensures { result.now ≡ held_by self.now }
    {
        self.bytes.as_slice()
    }
}

impl<const N: usize> Writer for Fixed<N> {
    ghost use Rattle.proved_callers.specs.Fixed.{held_by};

    // Set here, since the trait's default would ask that the array fits in memory, which is not known of `N`.
    const COUNTS: bool = false;

    ghost adds = { λ a piece b. (held_by b ≡ held_by a ++ piece) × (length piece ≤ N - length (held_by a))
        × (piece ≡ [] → b ≡ a) };

    ghost refuses = { λ a piece e b. (e ≡ UnexpectedEnd) × (N - length (held_by a) < length piece) × (b ≡ a) };

    ghost room = { λ w. Some (N - length (held_by w)) };

    ghost failures = { λ _. 0 };

    ghost device = { λ _. ⊥ };

    ghost loans = { λ _. [] };

    fn write(&mut self, bytes: &[u8]) -> Result<(), EncodeError> {
        if bytes.is_empty() {
            return Ok(());
        }
        // proves that what is held fits the capacity
        let _left = self.bytes.remaining_capacity();
        match self.bytes.try_extend_from_slice(bytes) {
            Ok(()) => Ok(()),
            Err(_) => Err(EncodeError::UnexpectedEnd),
        }
    }

    ghost adds_none = { λ w. (sym (append-nil (held_by w)), zero-le, λ empty. refl) };

    ghost adds_join = { λ a b c x y p q. let l = length-append x y in
        let held = ap length p.0 ∙ length-append (held_by a) x in (
          q.0 ∙ ap (λ l. l ++ y) p.0 ∙ append_assoc (held_by a) x y,
          Prim.omega arith,
          λ empty. q.2 (second-empty x y empty) ∙ p.2 (first-empty x y empty),
        ) };

    ghost adds_count = { λ a b piece h. le_refl 0 };

    ghost refuses_count = { λ a b piece e h. le_refl 0 };

    ghost refuses_why = { λ a b piece e h. inl h.1 };

    ghost adds_nothing = { λ a b h. h.2 refl };

    ghost adds_room = { λ a b piece h. let held = ap length h.0 ∙ length-append (held_by a) piece in
        record { within = h.1; left = ap Some (Prim.omega arith) } };
}
