//! Encoders: a writer with a configuration.
ghost use Rattle.std.specs.Prelude.{◌≡◌, ℕ, List, ◌∷◌, length, true, refl};
ghost use Rattle.std.proofs.Common.{ap};
ghost use Rattle.std.specs.Borrow.{GName, Lends, sem};
ghost use Rattle.bincode_spec.specs.Layers.Pieces.{TakesPiece};
ghost use Rattle.bincode_spec.specs.Device.{WithinRoom};

use crate::answers::rebuild_result;
use bincode_base::config::Config;
use bincode_base::error::EncodeError;
use bincode_io::write::Writer;

mod sealed {
    /// Seals `Encoder`: only this crate implements it.
    pub trait Sealed {}
}

use sealed::Sealed;

/// A writer with a configuration.
pub trait Encoder: Sealed {
    type W: Writer;

    type C: Config;

    /// The writer.
    ghost writer_of: { Self → Self.W };

    /// The configuration.
    ghost config_of: { Self → Self.C };

    /// The encoder with another writer.
    ghost put_writer: { Self → Self.W → Self };

    /// The references that it writes through. No call changes them.
    ghost loans: { Self → List GName };

    /// Lends the writer.
    fn writer(&mut self) -> &mut Self::W
        ensures* lends { sem 𝓛 (Lends Self.row Self.W.row self.entry result (put_writer self.old)) }
        ensures value { result.now ≡ writer_of self.old };

    /// Lends the configuration: the one that the encoder was made with. Most of it is known without this clause: byte
    /// order, integer encoding and limit are those of the type `C`, whatever value it has.
    fn config(&self) -> &Self::C
        ensures { result.now ≡ config_of self.now };

    /// Returns `true` only if `count` more bytes are sure to fit (`Writer::has_room_for`).
    fn has_room_for(&self, count: usize) -> bool
        ensures { result ≡ true → (piece : List ℕ) → length piece ≡ count
            → WithinRoom (Self.W.room (writer_of self.now)) piece };

    ghost put_get: { (e : Self) (w : Self.W) → writer_of (put_writer e w) ≡ w };

    ghost put_config: { (e : Self) (w : Self.W) → config_of (put_writer e w) ≡ config_of e };

    ghost put_loans: { (e : Self) (w : Self.W) → Self.W.loans w ≡ Self.W.loans (writer_of e)
        → loans (put_writer e w) ≡ loans e };
}

/// An encoder that owns its writer.
pub struct EncoderImpl<W, C> {
    writer: W,
    config: C,
}

impl<W: Drop, C: Drop> Drop for EncoderImpl<W, C> {
    fn drop(self) {
        let EncoderImpl {
            writer: _,
            config: _,
        } = self;
    }
}

impl<W: Writer, C: Config> EncoderImpl<W, C> {
    /// An encoder into this writer.
    pub fn new(writer: W, config: C) -> EncoderImpl<W, C>
        ensures writer { ⟦<EncoderImpl<W, C> as Encoder>⟧.writer_of result ≡ writer }
        ensures config { ⟦<EncoderImpl<W, C> as Encoder>⟧.config_of result ≡ config }
    {
        EncoderImpl { writer, config }
    }

    /// Returns the writer with what was written.
    pub fn into_writer(self) -> W
        ensures { result ≡ ⟦<EncoderImpl<W, C> as Encoder>⟧.writer_of self }
    {
        let EncoderImpl { writer, config: _ } = self;
        writer
    }
}

impl<W: Writer, C: Config> Sealed for EncoderImpl<W, C> {}

impl<W: Writer, C: Config> Encoder for EncoderImpl<W, C> {
    type W = W;

    type C = C;

    ghost writer_of = { λ e. e.writer };

    ghost config_of = { λ e. e.config };

    ghost put_writer = { λ e w. record e { writer = w } };

    ghost loans = { λ e. W.loans e.writer };

    fn writer(&mut self) -> &mut W {
        &mut self.writer
    }

    fn config(&self) -> &C {
        &self.config
    }

    #[inline(always)]
    fn has_room_for(&self, count: usize) -> bool {
        self.writer.has_room_for(count)
    }

    ghost put_get = { λ e w. refl };

    ghost put_config = { λ e w. refl };

    ghost put_loans = { λ e w h. h };
}

/// An encoder that borrows its writer and its configuration.
pub struct LentEncoder<'a, W, C> {
    writer: &'a mut W,
    config: &'a C,
}

impl<W, C> Drop for LentEncoder<'_, W, C> {
    fn drop(self)
        ensures { self.exit.0.now ≡ self.entry.writer.now }
    {
        let LentEncoder {
            writer: _,
            config: _,
        } = self;
    }
}

impl<'a, W: Writer, C: Config> LentEncoder<'a, W, C> {
    /// An encoder into this writer.
    pub fn new(writer: &'a mut W, config: &'a C) -> LentEncoder<'a, W, C>
        ensures loans { ⟦<LentEncoder<'a, W, C> as Encoder>⟧.loans result
            ≡ writer.entry.ghost_name ∷ W.loans writer.old }
        ensures writer { ⟦<LentEncoder<'a, W, C> as Encoder>⟧.writer_of result ≡ writer.old }
        ensures config { ⟦<LentEncoder<'a, W, C> as Encoder>⟧.config_of result ≡ config.now }
    {
        LentEncoder { writer, config }
    }
}

impl<W: Writer, C: Config> Sealed for LentEncoder<'_, W, C> {}

impl<W: Writer, C: Config> Encoder for LentEncoder<'_, W, C> {
    type W = W;

    type C = C;

    ghost writer_of = { λ e. e.writer.now };

    ghost config_of = { λ e. e.config.now };

    ghost put_writer = { λ e w. record e { writer = record e.writer { now = w } } };

    ghost loans = { λ e. e.writer.ghost_name ∷ W.loans e.writer.now };

    fn writer(&mut self) -> &mut W {
        self.writer
    }

    fn config(&self) -> &C {
        self.config
    }

    #[inline(always)]
    fn has_room_for(&self, count: usize) -> bool {
        self.writer.has_room_for(count)
    }

    ghost put_get = { λ e w. refl };

    ghost put_config = { λ e w. refl };

    ghost put_loans = { λ e w h. ap (λ z. e.writer.ghost_name ∷ z) h };
}

impl<E: Encoder> Sealed for &mut E {}

impl<E: Encoder> Encoder for &mut E {
    type W = E::W;

    type C = E::C;

    ghost writer_of = { λ e. E.writer_of e.now };

    ghost config_of = { λ e. E.config_of e.now };

    ghost put_writer = { λ e w. record e { now = E.put_writer e.now w } };

    ghost loans = { λ e. e.ghost_name ∷ E.loans e.now };

    fn writer(&mut self) -> &mut E::W {
        (**self).writer()
    }

    fn config(&self) -> &E::C {
        (**self).config()
    }

    #[inline(always)]
    fn has_room_for(&self, count: usize) -> bool {
        (**self).has_room_for(count)
    }

    ghost put_get = { λ e w. E.put_get e.now w };

    ghost put_config = { λ e w. E.put_config e.now w };

    ghost put_loans = { λ e w h. ap (λ z. e.ghost_name ∷ z) (E.put_loans e.now w h) };
}

/// Writes a piece to the encoder's writer.
#[inline(always)]
pub fn write_from<E: Encoder>(encoder: &mut E, bytes: &[u8]) -> Result<(), EncodeError>
    ensures { TakesPiece (λ a piece b. E.W.adds (E.writer_of a) piece (E.writer_of b))
        (λ a piece e b. E.W.refuses (E.writer_of a) piece e (E.writer_of b)) (λ e. E.W.failures (E.writer_of e))
        E.loans bytes.now result encoder.old encoder.new }
{
    rebuild_result(encoder.writer().write(bytes))
}
