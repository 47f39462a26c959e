//! A reference to a decoder is a decoder.
ghost use Rattle.std.specs.Prelude.{◌∷◌};
ghost use Rattle.std.proofs.Common.{ap};

use super::Decoder;
use super::sealed::Sealed;
use bincode_base::error::DecodeError;
use std::alloc::Global;

impl<D: Sealed> Sealed for &mut D {}

impl<D: Decoder> Decoder for &mut D {
    type R = D::R;

    type C = D::C;

    type Context = D::Context;

    ghost is_known = { λ d. D.is_known d.now };

    ghost remaining = { λ d. D.remaining d.now };

    ghost failures = { λ d. D.failures d.now };

    ghost charge = { λ d. D.charge d.now };

    ghost reader_of = { λ d. D.reader_of d.now };

    ghost put_reader = { λ d r. record d { now = D.put_reader d.now r } };

    ghost context_of = { λ d. D.context_of d.now };

    ghost put_context = { λ d x. record d { now = D.put_context d.now x } };

    ghost config_of = { λ d. D.config_of d.now };

    ghost alloc_of = { λ d. D.alloc_of d.now };

    ghost loans = { λ d. d.ghost_name ∷ D.loans d.now };

    fn reader(&mut self) -> &mut D::R {
        (**self).reader()
    }

    fn context(&mut self) -> &mut D::Context {
        (**self).context()
    }

    fn config(&self) -> &D::C {
        (**self).config()
    }

    fn alloc(&self) -> Global {
        (**self).alloc()
    }

    fn claim_bytes_read(&mut self, n: usize) -> Result<(), DecodeError> {
        (**self).claim_bytes_read(n)
    }

    fn is_within_limit(&self) -> bool {
        (**self).is_within_limit()
    }

    fn unclaim_bytes_read(&mut self, n: usize) {
        (**self).unclaim_bytes_read(n);
    }

    ghost reader_put = { λ d r. D.reader_put d.now r };

    ghost reader_kept = { λ d x. D.reader_kept d.now x };

    ghost context_put = { λ d x. D.context_put d.now x };

    ghost context_kept = { λ d r. D.context_kept d.now r };

    ghost reader_config = { λ d r. D.reader_config d.now r };

    ghost context_config = { λ d x. D.context_config d.now x };

    ghost reader_alloc = { λ d r. D.reader_alloc d.now r };

    ghost context_alloc = { λ d x. D.context_alloc d.now x };

    ghost reader_is_known = { λ d. D.reader_is_known d.now };

    ghost remaining_is = { λ d. D.remaining_is d.now };

    ghost failures_is = { λ d. D.failures_is d.now };

    ghost put_is_known = { λ d r. D.put_is_known d.now r };

    ghost put_remaining = { λ d r. D.put_remaining d.now r };

    ghost put_failures = { λ d r. D.put_failures d.now r };

    ghost put_charge = { λ d r. D.put_charge d.now r };

    ghost put_loans = { λ d r h. ap (λ z. d.ghost_name ∷ z) (D.put_loans d.now r h) };

    ghost context_is_known = { λ d x. D.context_is_known d.now x };

    ghost context_remaining = { λ d x. D.context_remaining d.now x };

    ghost context_failures = { λ d x. D.context_failures d.now x };

    ghost context_charge = { λ d x. D.context_charge d.now x };

    ghost context_loans = { λ d x. ap (λ z. d.ghost_name ∷ z) (D.context_loans d.now x) };
}
