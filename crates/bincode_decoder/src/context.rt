//! A decoder with another context.
ghost use Rattle.std.specs.Prelude.{◌≡◌, ◌∷◌, refl};
ghost use Rattle.std.proofs.Common.{ap};
ghost use Rattle.bincode_decoder.specs.Contexts.{lender_of};

use crate::decoder::sealed::Sealed;
use crate::decoder::{BorrowDecoder, BorrowedBytes, Decoder};
use bincode_base::error::DecodeError;
use std::alloc::Global;

/// A borrowed decoder with a context of its own. The reader, the configuration and the charge are the lender's.
pub struct WithContext<'a, D, Context> {
    decoder: &'a mut D,
    context: Context,
}

impl<D, Context: Drop> Drop for WithContext<'_, D, Context> {
    fn drop(self)
        ensures { self.exit.0.now ≡ self.entry.decoder.now }
    {
        let WithContext {
            decoder: _,
            context: _,
        } = self;
    }
}

/// Decoders that can be borrowed with another context: all of them.
pub trait LendInContext: Decoder {
    /// Borrows the decoder with this context. What calls through the borrow read and charge stays so afterwards. No
    /// contract says that they leave the decoder's own context as it was.
    fn with_context<'a, Context: Drop>(
        &'a mut self,
        context: Context,
    ) -> WithContext<'a, Self, Context>
        ensures lender { (lender_of result).now ≡ self.old }
        ensures name { (lender_of result).ghost_name ≡ self.entry.ghost_name }
        ensures context { ⟦<WithContext<'a, Self, Context> as Decoder>⟧.context_of result ≡ context };
}

impl<D: Decoder> LendInContext for D {
    fn with_context<'a, Context: Drop>(
        &'a mut self,
        context: Context,
    ) -> WithContext<'a, D, Context> {
        WithContext {
            decoder: self,
            context,
        }
    }
}

impl<D: Sealed, Context> Sealed for WithContext<'_, D, Context> {}

impl<D: Decoder, Context: Drop> Decoder for WithContext<'_, D, Context> {
    type R = D::R;

    type C = D::C;

    type Context = Context;

    ghost is_known = { λ d. D.is_known d.decoder.now };

    ghost remaining = { λ d. D.remaining d.decoder.now };

    ghost failures = { λ d. D.failures d.decoder.now };

    ghost charge = { λ d. D.charge d.decoder.now };

    ghost reader_of = { λ d. D.reader_of d.decoder.now };

    ghost put_reader = { λ d r. record d { decoder = record d.decoder { now = D.put_reader d.decoder.now r } } };

    ghost context_of = { λ d. d.context };

    ghost put_context = { λ d x. record d { context = x } };

    ghost config_of = { λ d. D.config_of d.decoder.now };

    ghost alloc_of = { λ d. D.alloc_of d.decoder.now };

    ghost loans = { λ d. d.decoder.ghost_name ∷ D.loans d.decoder.now };

    fn reader(&mut self) -> &mut D::R {
        self.decoder.reader()
    }

    fn context(&mut self) -> &mut Context {
        &mut self.context
    }

    fn config(&self) -> &D::C {
        self.decoder.config()
    }

    fn alloc(&self) -> Global {
        self.decoder.alloc()
    }

    fn claim_bytes_read(&mut self, n: usize) -> Result<(), DecodeError> {
        self.decoder.claim_bytes_read(n)
    }

    fn is_within_limit(&self) -> bool {
        self.decoder.is_within_limit()
    }

    fn unclaim_bytes_read(&mut self, n: usize) {
        self.decoder.unclaim_bytes_read(n);
    }

    ghost reader_put = { λ d r. D.reader_put d.decoder.now r };

    ghost reader_kept = { λ d x. refl };

    ghost context_put = { λ d x. refl };

    ghost context_kept = { λ d r. refl };

    ghost reader_config = { λ d r. D.reader_config d.decoder.now r };

    ghost context_config = { λ d x. refl };

    ghost reader_alloc = { λ d r. D.reader_alloc d.decoder.now r };

    ghost context_alloc = { λ d x. refl };

    ghost reader_is_known = { λ d. D.reader_is_known d.decoder.now };

    ghost remaining_is = { λ d. D.remaining_is d.decoder.now };

    ghost failures_is = { λ d. D.failures_is d.decoder.now };

    ghost put_is_known = { λ d r. D.put_is_known d.decoder.now r };

    ghost put_remaining = { λ d r. D.put_remaining d.decoder.now r };

    ghost put_failures = { λ d r. D.put_failures d.decoder.now r };

    ghost put_charge = { λ d r. D.put_charge d.decoder.now r };

    ghost put_loans = { λ d r h. ap (λ z. d.decoder.ghost_name ∷ z) (D.put_loans d.decoder.now r h) };

    ghost context_is_known = { λ d x h. h };

    ghost context_remaining = { λ d x. refl };

    ghost context_failures = { λ d x. refl };

    ghost context_charge = { λ d x. refl };

    ghost context_loans = { λ d x. refl };
}

impl<B: BorrowedBytes, D: BorrowDecoder<B>, Context: Drop> BorrowDecoder<B>
    for WithContext<'_, D, Context> {
    fn take_bytes(&mut self, count: usize) -> Result<B, DecodeError> {
        self.decoder.take_bytes(count)
    }
}
