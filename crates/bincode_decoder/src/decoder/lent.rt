//! The decoder that borrows its reader, its configuration and its context.
ghost use Rattle.std.specs.Prelude.{◌≡◌, ◌∷◌, refl};
ghost use Rattle.std.proofs.Common.{ap};

use super::Decoder;
use super::charge::{claim, is_within, unclaim};
use super::sealed::Sealed;
use bincode_base::config::Config;
use bincode_base::error::DecodeError;
use bincode_io::read::Reader;
use std::alloc::Global;

/// A decoder that borrows its reader, its configuration and its context.
pub struct LentDecoder<'a, R, C, Context> {
    pub(super) reader: &'a mut R,
    config: &'a C,
    context: &'a mut Context,
    bytes_read: usize,
    alloc: Global,
}

impl<R, C, Context> Drop for LentDecoder<'_, R, C, Context> {
    fn drop(self)
        ensures { self.exit.0.now ≡ self.entry.reader.now }
    {
        let LentDecoder {
            reader: _,
            config: _,
            context: _,
            bytes_read: _,
            alloc: _,
        } = self;
    }
}

impl<'a, R: Reader, C: Config, Context: Drop> LentDecoder<'a, R, C, Context> {
    /// A decoder of this reader, with a charge of 0.
    pub fn new(
        alloc: Global,
        reader: &'a mut R,
        config: &'a C,
        context: &'a mut Context,
    ) -> LentDecoder<'a, R, C, Context>
        ensures loans { ⟦<LentDecoder<'a, R, C, Context> as Decoder>⟧.loans result
            ≡ reader.entry.ghost_name ∷ R.loans reader.old }
        ensures reader { ⟦<LentDecoder<'a, R, C, Context> as Decoder>⟧.reader_of result ≡ reader.old }
        ensures context { ⟦<LentDecoder<'a, R, C, Context> as Decoder>⟧.context_of result ≡ context.old }
        ensures charge { ⟦<LentDecoder<'a, R, C, Context> as Decoder>⟧.charge result ≡ 0 }
        ensures config { ⟦<LentDecoder<'a, R, C, Context> as Decoder>⟧.config_of result ≡ config.now }
        ensures alloc { ⟦<LentDecoder<'a, R, C, Context> as Decoder>⟧.alloc_of result ≡ alloc }
    {
        LentDecoder {
            reader,
            config,
            context,
            bytes_read: 0,
            alloc,
        }
    }
}

impl<R: Reader, C: Config, Context: Drop> Sealed for LentDecoder<'_, R, C, Context> {}

impl<R: Reader, C: Config, Context: Drop> Decoder for LentDecoder<'_, R, C, Context> {
    type R = R;

    type C = C;

    type Context = Context;

    ghost is_known = { λ d. R.is_known d.reader.now };

    ghost remaining = { λ d. R.remaining d.reader.now };

    ghost failures = { λ d. R.failures d.reader.now };

    ghost charge = { λ d. d.bytes_read };

    ghost reader_of = { λ d. d.reader.now };

    ghost put_reader = { λ d r. record d { reader = record d.reader { now = r } } };

    ghost context_of = { λ d. d.context.now };

    ghost put_context = { λ d x. record d { context = record d.context { now = x } } };

    ghost config_of = { λ d. d.config.now };

    ghost alloc_of = { λ d. d.alloc };

    ghost loans = { λ d. d.reader.ghost_name ∷ R.loans d.reader.now };

    fn reader(&mut self) -> &mut R {
        self.reader
    }

    fn context(&mut self) -> &mut Context {
        self.context
    }

    fn config(&self) -> &C {
        self.config
    }

    fn alloc(&self) -> Global {
        self.alloc
    }

    fn claim_bytes_read(&mut self, n: usize) -> Result<(), DecodeError> {
        claim(self.config.limit(), &mut self.bytes_read, n)
    }

    fn is_within_limit(&self) -> bool {
        is_within(self.config.limit(), self.bytes_read)
    }

    fn unclaim_bytes_read(&mut self, n: usize) {
        unclaim(self.config.limit(), &mut self.bytes_read, n);
    }

    ghost reader_put = { λ d r. refl };

    ghost reader_kept = { λ d x. refl };

    ghost context_put = { λ d x. refl };

    ghost context_kept = { λ d r. refl };

    ghost reader_config = { λ d r. refl };

    ghost context_config = { λ d x. refl };

    ghost reader_alloc = { λ d r. refl };

    ghost context_alloc = { λ d x. refl };

    ghost reader_is_known = { λ d h. h };

    ghost remaining_is = { λ d. refl };

    ghost failures_is = { λ d. refl };

    ghost put_is_known = { λ d r h. h };

    ghost put_remaining = { λ d r. refl };

    ghost put_failures = { λ d r. refl };

    ghost put_charge = { λ d r. refl };

    ghost put_loans = { λ d r h. ap (λ z. d.reader.ghost_name ∷ z) h };

    ghost context_is_known = { λ d x h. h };

    ghost context_remaining = { λ d x. refl };

    ghost context_failures = { λ d x. refl };

    ghost context_charge = { λ d x. refl };

    ghost context_loans = { λ d x. refl };
}
