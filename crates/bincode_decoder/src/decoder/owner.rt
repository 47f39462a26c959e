//! The decoder that owns its reader and its context.
ghost use Rattle.std.specs.Prelude.{◌≡◌, refl};

use super::Decoder;
use super::charge::{claim, is_within, unclaim};
use super::sealed::Sealed;
use bincode_base::config::Config;
use bincode_base::error::DecodeError;
use bincode_io::read::Reader;
use std::alloc::Global;

/// A decoder that owns its reader and its context.
pub struct DecoderImpl<R, C, Context> {
    pub(super) reader: R,
    config: C,
    context: Context,
    bytes_read: usize,
    alloc: Global,
}

impl<R: Drop, C: Drop, Context: Drop> Drop for DecoderImpl<R, C, Context> {
    fn drop(self) {
        let DecoderImpl {
            reader: _,
            config: _,
            context: _,
            bytes_read: _,
            alloc: _,
        } = self;
    }
}

impl<R: Reader, C: Config, Context: Drop> DecoderImpl<R, C, Context> {
    /// A decoder of this reader, with a charge of 0.
    pub fn new(alloc: Global, reader: R, config: C, context: Context) -> DecoderImpl<R, C, Context>
        ensures reader { ⟦<DecoderImpl<R, C, Context> as Decoder>⟧.reader_of result ≡ reader }
        ensures context { ⟦<DecoderImpl<R, C, Context> as Decoder>⟧.context_of result ≡ context }
        ensures charge { ⟦<DecoderImpl<R, C, Context> as Decoder>⟧.charge result ≡ 0 }
        ensures config { ⟦<DecoderImpl<R, C, Context> as Decoder>⟧.config_of result ≡ config }
        ensures alloc { ⟦<DecoderImpl<R, C, Context> as Decoder>⟧.alloc_of result ≡ alloc }
    {
        DecoderImpl {
            reader,
            config,
            context,
            bytes_read: 0,
            alloc,
        }
    }
}

impl<R: Reader, C: Config, Context: Drop> Sealed for DecoderImpl<R, C, Context> {}

impl<R: Reader, C: Config, Context: Drop> Decoder for DecoderImpl<R, C, Context> {
    type R = R;

    type C = C;

    type Context = Context;

    ghost is_known = { λ d. R.is_known d.reader };

    ghost remaining = { λ d. R.remaining d.reader };

    ghost failures = { λ d. R.failures d.reader };

    ghost charge = { λ d. d.bytes_read };

    ghost reader_of = { λ d. d.reader };

    ghost put_reader = { λ d r. record d { reader = r } };

    ghost context_of = { λ d. d.context };

    ghost put_context = { λ d x. record d { context = x } };

    ghost config_of = { λ d. d.config };

    ghost alloc_of = { λ d. d.alloc };

    ghost loans = { λ d. R.loans d.reader };

    fn reader(&mut self) -> &mut R {
        &mut self.reader
    }

    fn context(&mut self) -> &mut Context {
        &mut self.context
    }

    fn config(&self) -> &C {
        &self.config
    }

    fn alloc(&self) -> Global {
        self.alloc
    }

    fn claim_bytes_read(&mut self, n: usize) -> Result<(), DecodeError> {
        claim(self.config.limit(), &mut self.bytes_read, n)
    }

    fn is_within_limit(&self) -> bool {
        is_within(self.config.limit(), self.bytes_read)
    }

    fn unclaim_bytes_read(&mut self, n: usize) {
        unclaim(self.config.limit(), &mut self.bytes_read, n);
    }

    ghost reader_put = { λ d r. refl };

    ghost reader_kept = { λ d x. refl };

    ghost context_put = { λ d x. refl };

    ghost context_kept = { λ d r. refl };

    ghost reader_config = { λ d r. refl };

    ghost context_config = { λ d x. refl };

    ghost reader_alloc = { λ d r. refl };

    ghost context_alloc = { λ d x. refl };

    ghost reader_is_known = { λ d h. h };

    ghost remaining_is = { λ d. refl };

    ghost failures_is = { λ d. refl };

    ghost put_is_known = { λ d r h. h };

    ghost put_remaining = { λ d r. refl };

    ghost put_failures = { λ d r. refl };

    ghost put_charge = { λ d r. refl };

    ghost put_loans = { λ d r h. h };

    ghost context_is_known = { λ d x h. h };

    ghost context_remaining = { λ d x. refl };

    ghost context_failures = { λ d x. refl };

    ghost context_charge = { λ d x. refl };

    ghost context_loans = { λ d x. refl };
}
