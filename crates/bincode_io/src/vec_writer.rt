//! A writer into a vector that grows.
ghost use Rattle.std.specs.Prelude.{◌≡◌, ◌+◌, ◌-◌, ◌<◌, ◌≤◌, ◌⊎◌, ◌++◌};
ghost use Rattle.std.specs.Prelude.{◌∷◌, [], length, vec_capacity};
ghost use Rattle.std.specs.Prelude.{IsOk, IfOk, IfErr, OnOk, None};
ghost use Rattle.std.proofs.Common.{◌∙◌, ap, sym, inl, inr, le_refl, le_trans, append_assoc, refl};
ghost use Rattle.std.proofs.lemmas.List.{append-nil};
ghost use Rattle.bincode_base.specs.declared.error.EncodeError.TheVariants.{Memory};
ghost use Rattle.bincode_io.specs.RoomLaws.{first-empty, second-empty};
ghost use Rattle.bincode_io.specs.Growth.{GrowsFor};
ghost use Rattle.bincode_spec.specs.Layers.Pieces.{TakesPiece};

use crate::write::Writer;
use bincode_base::error::EncodeError;
use std::alloc::Global;
use std::mem::{forget, replace};

/// A writer into a vector that grows when a piece does not fit, to at least twice its capacity. Fails with `Memory` if
/// the allocation is refused, and keeps what was written before.
#[derive(Drop)]
pub struct VecWriter {
    bytes: Vec<u8>,
}

impl VecWriter {
    ghost use Rattle.bincode_io.specs.Vectors.{held_by, capacity_of};

    /// Allocates exactly this capacity, in bytes. Fails with `Memory` if the allocation is refused.
    pub fn with_capacity(alloc: Global, capacity: usize) -> Result<VecWriter, EncodeError>
        ensures start { IfOk result (λ w. held_by w ≡ []) }
        ensures room { IfOk result (λ w. capacity_of w ≡ capacity) }
        ensures fault { IfErr result (λ e. e ≡ Memory) }
        ensures none { capacity ≡ 0 → IsOk result }
    {
        match Vec::with_capacity(alloc, capacity) {
            Ok(bytes) => Ok(VecWriter { bytes }),
            Err(_) => Err(EncodeError::Memory),
        }
    }

    /// The bytes that were written.
    pub fn collect(self) -> Vec<u8>
        ensures { result.items ≡ held_by self }
    {
        let VecWriter { bytes } = self;
        bytes
    }

    /// The number of bytes that still fit before the vector grows.
    #[inline(always)]
    pub(crate) fn room_left(&self) -> usize
        ensures { result ≡ capacity_of self.now - length (held_by self.now) }
    {
        self.bytes.capacity() - self.bytes.len()
    }

    /// Takes the vector out and leaves an empty one.
    #[inline(always)]
    fn take_out(&mut self) -> Vec<u8>
        ensures { result ≡ self.old.bytes }
    {
        let empty = Vec::new(*self.bytes.allocator());
        replace(&mut self.bytes, empty)
    }

    /// Puts the vector back. The empty one in its place has no memory: it is forgotten, so that no code checks whether
    /// to free it.
    #[inline(always)]
    fn put_back(&mut self, bytes: Vec<u8>)
        ensures { self.new.bytes ≡ bytes }
    {
        forget(replace(&mut self.bytes, bytes));
    }

    /// Adds a byte that fits.
    #[inline(always)]
    pub(crate) fn push(&mut self, byte: u8)
        requires { length (held_by self.old) < capacity_of self.old }
        ensures bytes { held_by self.new ≡ held_by self.old ++ byte ∷ [] }
    {
        self.bytes.push_reserved(byte);
    }

    /// Adds a few bytes that fit.
    #[inline(always)]
    pub(crate) fn push_each(&mut self, bytes: &[u8])
        requires { length (held_by self.old) + length bytes.now ≤ capacity_of self.old }
        ensures bytes { held_by self.new ≡ held_by self.old ++ bytes.now }
        ensures capacity { capacity_of self.new ≡ capacity_of self.old }
        ensures same { bytes.now ≡ [] → self.new ≡ self.old }
    {
        if bytes.is_empty() {
            return;
        }
        let held = self.take_out();
        self.put_back(with_each(held, bytes));
    }

    /// Makes room for `additional` more bytes, unless the allocation is refused. Moves the vector out and back for
    /// speed: a vector that is lent to a call stays in memory, even around writes that don't grow it.
    #[inline(always)]
    fn grow(&mut self, additional: usize)
        ensures bytes { held_by self.new ≡ held_by self.old }
        ensures room { GrowsFor additional self.old.bytes self.new.bytes }
    {
        let bytes = self.take_out();
        self.put_back(with_room(bytes, additional));
    }
}

/// The smallest capacity that is allocated.
const LEAST_CAPACITY: usize = 8;

/// Reserves room for `additional` more bytes and at least twice the capacity; unchanged if the allocation is refused.
#[cold]
#[inline(never)]
fn with_room(mut bytes: Vec<u8>, additional: usize) -> Vec<u8>
    ensures bytes { result.items ≡ bytes.items }
    ensures room { GrowsFor additional bytes result }
{
    let spare = bytes.capacity() - bytes.len();
    let doubles = bytes.capacity().saturating_add(spare);
    let _refused = bytes.reserve_exact(additional.max(doubles).max(LEAST_CAPACITY));
    bytes
}

/// Appends a few bytes one by one: LLVM makes few stores of them, while the copy of a slice first checks whether it
/// overlaps the vector.
#[inline(always)]
fn with_each(mut held: Vec<u8>, bytes: &[u8]) -> Vec<u8>
    requires { length held.items + length bytes.now ≤ vec_capacity held }
    ensures bytes { result.items ≡ held.items ++ bytes.now }
    ensures capacity { vec_capacity result ≡ vec_capacity held }
{
    for byte in bytes {
        held.push_reserved(*byte);
    }
    held
}

impl Writer for VecWriter {
    ghost use Rattle.bincode_io.specs.Vectors.{held_by, capacity_of, VecAdds, VecRefuses, Doubles, MakesRoom};

    ghost adds = { VecAdds };

    ghost refuses = { VecRefuses };

    ghost room = { λ _. None };

    ghost failures = { λ _. 0 };

    ghost device = { λ _. ⊥ };

    ghost loans = { λ _. [] };

    ghost writes = { λ a piece b. Doubles a b };

    ghost announces = { λ a all b. MakesRoom all a b };

    /// If the piece does not fit, the capacity at least doubles.
    #[inline(always)]
    fn write(&mut self, bytes: &[u8]) -> Result<(), EncodeError>
        ensures piece { TakesPiece VecAdds VecRefuses (λ _. 0) (λ _. []) bytes.now result self.old self.new }
        ensures growth { OnOk result (Doubles self.old self.new) }
    {
        if bytes.is_empty() {
            return Ok(());
        }
        if self.room_left() < bytes.len() {
            self.grow(bytes.len());
        }
        if self.room_left() < bytes.len() {
            return Err(EncodeError::Memory);
        }
        if let [byte] = bytes {
            self.bytes.push_reserved(*byte);
            return Ok(());
        }
        if self.bytes.extend_from_slice(bytes).is_err() {
            return Err(EncodeError::Memory);
        }
        Ok(())
    }

    /// Makes room for all bytes of the number, unless the allocation is refused.
    #[inline(always)]
    fn write_tag(&mut self, byte: u8, all: usize) -> Result<(), EncodeError>
        ensures piece { TakesPiece VecAdds VecRefuses (λ _. 0) (λ _. []) (byte ∷ []) result self.old self.new }
        ensures room { OnOk result (MakesRoom all self.old self.new) }
    {
        if self.room_left() < all {
            self.grow(all);
        }
        if self.room_left() == 0 {
            return Err(EncodeError::Memory);
        }
        self.bytes.push_reserved(byte);
        Ok(())
    }

    #[inline(always)]
    fn write_payload(&mut self, bytes: &[u8]) -> Result<(), EncodeError> {
        if bytes.is_empty() {
            return Ok(());
        }
        if self.room_left() < bytes.len() {
            return Err(EncodeError::Memory);
        }
        self.push_each(bytes);
        Ok(())
    }

    ghost adds_none = { λ w. (sym (append-nil (held_by w)), le_refl _, λ empty. refl) };

    ghost adds_join = { λ a b c x y p q. (
      q.0 ∙ ap (λ l. l ++ y) p.0 ∙ append_assoc (held_by a) x y,
      le_trans p.1 q.1,
      λ empty. q.2 (second-empty x y empty) ∙ p.2 (first-empty x y empty),
    ) };

    ghost adds_count = { λ a b piece h. le_refl 0 };

    ghost refuses_count = { λ a b piece e h. le_refl 0 };

    ghost refuses_why = { λ a b piece e h. inr (inl h.0) };

    ghost adds_nothing = { λ a b h. h.2 refl };

    ghost adds_room = { λ a b piece h. record { within = tt; left = refl } };
}
