//! The trait of writers, and the writer into a slice.
ghost use Rattle.std.specs.Prelude.{◌≡◌, ◌+◌, ◌-◌, ◌^◌, ◌<◌, ◌≤◌, ◌⊎◌, ℕ, List, []};
ghost use Rattle.std.specs.Prelude.{◌∷◌, ◌++◌, length, true, Option, Some, OnOk, IfErr};
ghost use Rattle.std.specs.Borrow.{GName};
ghost use Rattle.std.proofs.Common.{rules, sym, ◌∙◌, ap, arith, le_refl, refl};
ghost use Rattle.std.proofs.lemmas.Grind.{common_steps};
ghost use Rattle.bincode_spec.specs.Layers.Pieces.{TakesPiece, TakesRoom};
ghost use Rattle.bincode_spec.specs.Device.{TooLong, WithinRoom, WriterFails};
ghost use Rattle.bincode_io.specs.RoomLaws.{room-taken, front-within, first-empty, second-empty};
ghost use Rattle.bincode_spec.specs.Put.{put};
ghost use Rattle.bincode_lemmas.specs.PutLaws.{put-none, put-join};
ghost use Rattle.bincode_base.specs.declared.error.EncodeError.{EncodeError};
ghost use Rattle.bincode_base.specs.declared.error.EncodeError.TheVariants.{UnexpectedEnd, Memory};

pub use crate::size_writer::SizeWriter;
pub use crate::vec_writer::VecWriter;
use bincode_base::error::EncodeError;

/// A sink of bytes, which arrive piece by piece.
pub trait Writer: Drop {
    /// `true` for a writer that only counts bytes: integers then report their length once, through `write_tag`, before
    /// any branch.
    const COUNTS: bool = false;

    /// What a write that succeeds does to a writer.
    ghost adds: { Self → List ℕ → Self → Type 0 };

    /// What a write that fails returns, and does to the writer.
    ghost refuses: { Self → List ℕ → EncodeError → Self → Type 0 };

    /// The number of bytes that it can still take, if that is limited.
    ghost room: { Self → Option ℕ };

    /// How often the device failed. A counter at its maximum, 2^64 - 1, passes for one that was increased.
    ghost failures: { Self → ℕ };

    /// The errors that may come at any call.
    ghost device: { EncodeError → Type 0 };

    /// The references that it writes through. No call changes them.
    ghost loans: { Self → List GName };

    /// What else `write` does to a writer, if `write_tag` does something different.
    ghost writes: { Self → List ℕ → Self → Type 0 } = { λ _ _ _. Unit {0} };

    /// What else `write_tag` does to it, given the announced length.
    ghost announces: { Self → ℕ → Self → Type 0 } = { λ _ _ _. Unit {0} };

    /// Writes a piece. Fails if it is longer than the room, an allocation is refused, or the device fails.
    fn write(&mut self, bytes: &[u8]) -> Result<(), EncodeError>
        ensures piece { TakesPiece adds refuses failures loans bytes.now result self.old self.new }
        ensures besides { OnOk result (writes self.old bytes.now self.new) };

    /// Writes the first byte of an integer of `_all` bytes. A writer that grows reserves all of them here, so that no
    /// code to grow follows each piece. The provided method writes the byte alone.
    #[inline(always)]
    fn write_tag(&mut self, byte: u8, _all: usize) -> Result<(), EncodeError>
        ensures piece { TakesPiece adds refuses failures loans (byte ∷ []) result self.old self.new }
        ensures besides { OnOk result (writes self.old (byte ∷ []) self.new ⊎ announces self.old _all self.new) }
    {
        self.write(&[byte])
    }

    /// Writes the few bytes that follow `write_tag`. A writer that grows reserves nothing for them.
    #[inline(always)]
    fn write_payload(&mut self, bytes: &[u8]) -> Result<(), EncodeError>
        ensures { TakesPiece adds refuses failures loans bytes.now result self.old self.new }
    {
        self.write(bytes)
    }

    /// Returns `true` only if `_count` more bytes are sure to fit. For speed only: after `true` the compiler drops the
    /// checks of the pieces. The provided method always returns `false`.
    #[inline(always)]
    fn has_room_for(&self, _count: usize) -> bool
        ensures { result ≡ true → (piece : List ℕ) → length piece ≡ _count
            → WithinRoom (room self.now) piece }
    {
        false
    }

    /// A writer that is unchanged has added the empty piece.
    ghost adds_none: { (w : Self) → adds w [] w };

    /// Adding two pieces in turn adds their concatenation.
    ghost adds_join: { (a b c : Self) (x y : List ℕ) → adds a x b → adds b y c → adds a (x ++ y) c };

    /// A write that succeeds does not lower the count of failures,
    ghost adds_count: { (a b : Self) (piece : List ℕ) → adds a piece b → failures a ≤ failures b };

    /// nor does one that fails.
    ghost refuses_count: { (a b : Self) (piece : List ℕ) (e : EncodeError) → refuses a piece e b → failures a
        ≤ failures b };

    /// A write fails because the piece is too long, with `Memory`, or with an error of the device.
    ghost refuses_why: { (a b : Self) (piece : List ℕ) (e : EncodeError) → refuses a piece e b →
        TooLong (room a) piece ⊎ WriterFails device (failures a) (failures b) e };

    /// A writer that added the empty piece is unchanged.
    ghost adds_nothing: { (a b : Self) → adds a [] b → b ≡ a };

    /// A piece that was added did fit, and takes its length off the room.
    ghost adds_room: { (a b : Self) (piece : List ℕ) → adds a piece b → TakesRoom (room a) piece (room b) };
}

/// A writer into the front of a slice. It keeps both the number of bytes written and the number left, so that no write
/// computes one from the other.
pub struct SliceWriter<'s> {
    slice: &'s mut [u8],
    written: usize,
    left: usize,
    ghost within: { written + left ≡ length slice.now },
}

impl Drop for SliceWriter<'_> {
    ghost use Rattle.bincode_io.specs.Slices.{bytes_of};

    fn drop(self)
        ensures { self.exit.0.now ≡ bytes_of self.entry }
    {
        let SliceWriter {
            slice: _,
            written: _,
            left: _,
        } = self;
    }
}

impl<'s> SliceWriter<'s> {
    ghost use Rattle.bincode_io.specs.Slices.{bytes_of, written_by, loan_of};

    /// A writer into these bytes, from their start.
    pub fn new(bytes: &'s mut [u8]) -> SliceWriter<'s>
        ensures loans { loan_of result ≡ bytes.entry.ghost_name }
        ensures bytes { bytes_of result ≡ bytes.old }
        ensures start { written_by result ≡ 0 }
    {
        let left = bytes.len();
        SliceWriter {
            slice: bytes,
            written: 0,
            left,
        }
    }

    /// The number of bytes written.
    pub fn bytes_written(&self) -> usize
        ensures { result ≡ written_by self.now }
    {
        self.written
    }
}

impl Writer for SliceWriter<'_> {
    ghost use Rattle.bincode_io.specs.Slices.{bytes_of, written_by, loan_of};

    ghost adds = { λ a piece b. (written_by b ≡ written_by a + length piece)
        × (bytes_of b ≡ put (written_by a) piece (bytes_of a)) × (length (bytes_of b) ≡ length (bytes_of a))
        × (piece ≡ [] → b ≡ a) };

    ghost refuses = { λ a piece e b. (e ≡ UnexpectedEnd) × (length (bytes_of a) - written_by a < length piece)
        × (b ≡ a) };

    ghost room = { λ w. Some (length (bytes_of w) - written_by w) };

    ghost failures = { λ _. 0 };

    ghost device = { λ _. ⊥ };

    ghost loans = { λ w. loan_of w ∷ [] };

    fn write(&mut self, bytes: &[u8]) -> Result<(), EncodeError> {
        if self.left < bytes.len() {
            return Err(EncodeError::UnexpectedEnd);
        }
        let end = self.written + bytes.len();
        copy_piece(&mut self.slice[self.written..end], bytes);
        self.written = end;
        self.left -= bytes.len();
        Ok(())
    }

    /// Exact: `true` if and only if `count` bytes are left.
    #[inline(always)]
    fn has_room_for(&self, count: usize) -> bool
        ensures room { result ≡ true → (piece : List ℕ) → length piece ≡ count
            → WithinRoom (Some (length (bytes_of self.now) - written_by self.now)) piece }
        ensures exact { count ≤ length (bytes_of self.now) - written_by self.now → result ≡ true }
    {
        count <= self.left
    }

    ghost adds_none = { λ w. (Prim.search rules, put-none w.written w.slice.now, refl, λ empty. refl) };

    ghost adds_join = { λ a b c x y p q. (
      Prim.grind (arith, common_steps),
      q.1 ∙ ap (put b.written y) p.1 ∙ ap (λ k. put k y (put a.written x a.slice.now)) p.0
          ∙ put-join a.written x y a.slice.now (front-within _ _ _ a.within),
      q.2 ∙ p.2,
      λ empty. q.3 (second-empty x y empty) ∙ p.3 (first-empty x y empty),
    ) };

    ghost adds_count = { λ a b piece h. le_refl 0 };

    ghost refuses_count = { λ a b piece e h. le_refl 0 };

    ghost refuses_why = { λ a b piece e h. Prim.search rules };

    ghost adds_nothing = { λ a b h. h.3 refl };

    ghost adds_room = { λ a b piece h. room-taken (length (bytes_of a)) (written_by a) (length (bytes_of b))
        (written_by b) piece h.0 h.2 (front-within _ _ _ b.within) };
}

/// Copies `piece` into `target` of equal length; up to 32 bytes by two overlapping loads and stores. The branches go
/// down to the shortest, so that a name or a key takes few of them.
#[inline(always)]
fn copy_piece(target: &mut [u8], piece: &[u8])
    requires { length target.old ≡ length piece.now }
    ensures { target.new ≡ piece.now }
{
    if piece.len() < 8 {
        copy_few(target, piece);
    } else if piece.len() <= 16 {
        copy_ends::<8, 8>(target, piece);
    } else {
        copy_long(target, piece);
    }
}

/// `copy_piece` for less than 8 bytes.
#[inline(always)]
fn copy_few(target: &mut [u8], piece: &[u8])
    requires same { length target.old ≡ length piece.now }
    requires few { length piece.now < 8 }
    ensures { target.new ≡ piece.now }
{
    if piece.len() < 2 {
        if piece.len() == 1 {
            copy_ends::<1, 1>(target, piece);
        }
    } else if piece.len() < 4 {
        copy_ends::<1, 2>(target, piece);
    } else {
        copy_ends::<4, 4>(target, piece);
    }
}

/// `copy_piece` for more than 16 bytes. Kept out of line, so that `copy_piece` stays small where it is inlined.
#[inline(never)]
fn copy_long(target: &mut [u8], piece: &[u8])
    requires same { length target.old ≡ length piece.now }
    requires long { 16 < length piece.now }
    ensures { target.new ≡ piece.now }
{
    if piece.len() <= 32 {
        copy_ends::<16, 16>(target, piece);
    } else {
        target.copy_from_slice(piece);
    }
}

/// Copies the first `F` and the last `B` bytes of a piece, which together cover it.
#[inline(always)]
fn copy_ends<const F: usize, const B: usize>(target: &mut [u8], piece: &[u8])
    requires same { length target.old ≡ length piece.now }
    requires enough { (F ≤ length piece.now) × (B ≤ length piece.now) }
    requires covered { length piece.now ≤ F + B }
    requires small { (F < 2 ^ 63) × (B < 2 ^ 63) }
    ensures { target.new ≡ piece.now }
{
    let Some(front) = piece.first_chunk::<F>() else {
        return;
    };
    let Some(back) = piece.last_chunk::<B>() else {
        return;
    };
    if let Some(place) = target.first_chunk_mut::<F>() {
        *place = *front;
    }
    if let Some(place) = target.last_chunk_mut::<B>() {
        *place = *back;
    }
}

impl<W: Writer> Writer for &mut W {
    const COUNTS: bool = W::COUNTS;

    ghost adds = { λ a piece b. W.adds a.now piece b.now × (b ≡ record a { now = b.now }) };

    ghost refuses = { λ a piece e b. W.refuses a.now piece e b.now };

    ghost room = { λ w. W.room w.now };

    ghost failures = { λ w. W.failures w.now };

    ghost device = { W.device };

    ghost loans = { λ w. w.ghost_name ∷ W.loans w.now };

    ghost writes = { λ a piece b. W.writes a.now piece b.now };

    ghost announces = { λ a all b. W.announces a.now all b.now };

    fn write(&mut self, bytes: &[u8]) -> Result<(), EncodeError> {
        (**self).write(bytes)
    }

    #[inline(always)]
    fn write_tag(&mut self, byte: u8, all: usize) -> Result<(), EncodeError> {
        (**self).write_tag(byte, all)
    }

    #[inline(always)]
    fn write_payload(&mut self, bytes: &[u8]) -> Result<(), EncodeError> {
        (**self).write_payload(bytes)
    }

    #[inline(always)]
    fn has_room_for(&self, count: usize) -> bool {
        (**self).has_room_for(count)
    }

    ghost adds_none = { λ w. (W.adds_none w.now, refl) };

    ghost adds_join = { λ a b c x y p q. (
      W.adds_join a.now b.now c.now x y p.0 q.0,
      q.1 ∙ ap (λ (w : Self). record w { now = c.now }) p.1,
    ) };

    ghost adds_count = { λ a b piece h. W.adds_count a.now b.now piece h.0 };

    ghost refuses_count = { λ a b piece e h. W.refuses_count a.now b.now piece e h };

    ghost refuses_why = { λ a b piece e h. W.refuses_why a.now b.now piece e h };

    ghost adds_nothing = { λ a b h. h.1 ∙ ap (λ x. record a { now = x }) (W.adds_nothing a.now b.now h.0) };

    ghost adds_room = { λ a b piece h. W.adds_room a.now b.now piece h.0 };
}
