//! Heterogeneous lists (HLists): what tuples are written as.
ghost use Rattle.std.specs.Prelude.{◌≡◌, ℕ, ◌⊎◌, ◌+◌, ◌-◌, ◌^◌, min, max, refl};
ghost use Rattle.std.proofs.Common.{arith};
ghost use Rattle.bincode_spec.specs.Meaning.{IsThen, IsFourThen};
ghost use Rattle.bincode_spec.specs.Layers.Needs.{then_needs};
ghost use Rattle.bincode_spec.specs.Words.{first_and, four_and};
ghost use Rattle.bincode_spec.specs.Forms.{units};
ghost use Rattle.bincode_lemmas.specs.CostLaws.{nothing-costs};
ghost use Rattle.bincode_lemmas.specs.NeedLaws.{then-needs};
ghost use Rattle.bincode_lemmas.specs.ChargedLaws.{then-charged};
ghost use Rattle.bincode_lemmas.specs.TupleLaws.{units-laws, then-lawful, then-balanced, then-has_word};
ghost use Rattle.bincode_lemmas.specs.TupleLaws.{either, four-lawful};
ghost use Rattle.bincode_lemmas.specs.TupleLaws.{four-balanced, four-has_word};
ghost use Rattle.bincode_types.specs.TypeWords.{scalar_words};

use crate::laws::{Canonical, ConstantCharge, Exact, Inhabited, Plain, Writable};
use crate::scalars::{FixedCharge, Scalar, scalar_claim};
use crate::wire::Wire;

impl Scalar for () {
    ghost form = { units };

    ghost form_laws = { units-laws };

    ghost SIZE = { 0 };

    const SIZE: usize = 0;

    ghost same = { λ v w m p q. refl };
}

impl Wire for () {
    ghost words = { scalar_words ⟦<() as Scalar>⟧.form ⟦<() as Scalar>⟧.form_laws ⟦<() as Scalar>⟧.SIZE };

    #[inline]
    fn claim_size() -> usize {
        scalar_claim::<()>()
    }
}

impl FixedCharge for () {
    ghost charges = { λ s. nothing-costs };
}

/// The tail of a row: another row, or `()`.
pub trait Tail {
    /// What the tail adds to the claim of the row, if it claims this much itself; `()` adds nothing.
    ghost more: { ℕ → ℕ };

    /// `more` at run time.
    fn more_size(claim: usize) -> usize
        ensures { result ≡ more claim };
}

impl Tail for () {
    ghost more = { λ claim. 0 };

    fn more_size(_claim: usize) -> usize {
        0
    }
}

/// A part and the tail. The claims add up, to at most `usize::MAX`.
#[derive(Drop, PartialEq)]
pub struct Cons<A, Others>(pub A, pub Others);

impl<A: Wire, Others: Wire + Tail> Wire for Cons<A, Others> {
    ghost words = { record {
      format = λ s. first_and (A.words.format s) (Others.words.format s);
      valid = λ v. A.words.valid v.0 × Others.words.valid v.1;
      means = λ v. IsThen (A.words.means v.0) (Others.words.means v.1);
      decodes_to = λ m v. IsThen (λ p. A.words.decodes_to p v.0) (λ p. Others.words.decodes_to p v.1) m;
      writable = λ s v. A.words.writable s v.0 × Others.words.writable s v.1;
      own_errors = λ e. A.words.own_errors e ⊎ Others.words.own_errors e;
      may_allocate = A.words.may_allocate ⊎ Others.words.may_allocate;
      claim = min (A.words.claim + Others.more Others.words.claim) (2 ^ 64 - 1);
      need = λ s. then_needs (A.words.format s) (A.words.need s) (λ _. Others.words.need s);
      lawful = λ s. then-lawful (A.words.lawful s) (Others.words.lawful s);
      balanced = λ s. then-balanced (A.words.balanced s) (Others.words.balanced s);
      has_word = λ s v h w. then-has_word (A.words.has_word s v.0 h.0 w.0) (Others.words.has_word s v.1 h.1 w.1);
      errors_are_own = λ e. either (A.words.errors_are_own e) (Others.words.errors_are_own e);
      claims = omega (arith, A.words.claims);
      needs = λ s. then-needs (A.words.balanced s) (A.words.needs s) (Others.words.needs s);
      charges_enough = λ s. then-charged (A.words.charges_enough s) (Others.words.charges_enough s);
    } };

    fn claim_size() -> usize {
        A::claim_size().saturating_add(Others::more_size(Others::claim_size()))
    }
}

impl<A, Others> Tail for Cons<A, Others> {
    ghost more = { λ claim. claim };

    fn more_size(claim: usize) -> usize {
        claim
    }
}

impl<A: Inhabited, Others: Inhabited + Tail> Inhabited for Cons<A, Others> {
    fn tell_inhabited() {
        A::tell_inhabited();
        Others::tell_inhabited();
    }
}

impl<A: Writable, Others: Writable + Tail> Writable for Cons<A, Others> {
    fn tell_writable() {
        A::tell_writable();
        Others::tell_writable();
    }
}

impl<A: Plain, Others: Plain + Tail> Plain for Cons<A, Others> {
    fn tell_plain() {
        A::tell_plain();
        Others::tell_plain();
    }
}

impl<A: Exact, Others: Exact + Tail> Exact for Cons<A, Others> {
    fn tell_exact() {
        A::tell_exact();
        Others::tell_exact();
    }
}

impl<A: Canonical, Others: Canonical + Tail> Canonical for Cons<A, Others> {
    fn tell_canonical() {
        A::tell_canonical();
        Others::tell_canonical();
    }
}

impl<A: ConstantCharge, Others: ConstantCharge + Tail> ConstantCharge for Cons<A, Others> {
    ghost cost = { A.cost + Others.cost };

    ghost peak = { max A.peak (A.cost + Others.peak) };

    fn tell_costs() {
        A::tell_costs();
        Others::tell_costs();
    }
}

/// Four parts and the tail.
#[derive(Drop, PartialEq)]
pub struct Cons4<A, B, C, D, Others>(pub A, pub B, pub C, pub D, pub Others);

impl<A: Wire, B: Wire, C: Wire, D: Wire, Others: Wire + Tail> Wire for Cons4<A, B, C, D, Others> {
    ghost words = { record {
      format = λ s. four_and (A.words.format s) (B.words.format s) (C.words.format s) (D.words.format s)
          (Others.words.format s);
      valid = λ v. A.words.valid v.0 × (B.words.valid v.1
          × (C.words.valid v.2 × (D.words.valid v.3 × Others.words.valid v.4)));
      means = λ v. IsFourThen (A.words.means v.0) (B.words.means v.1) (C.words.means v.2) (D.words.means v.3)
          (Others.words.means v.4);
      decodes_to = λ m v. IsFourThen (λ p. A.words.decodes_to p v.0) (λ p. B.words.decodes_to p v.1)
          (λ p. C.words.decodes_to p v.2) (λ p. D.words.decodes_to p v.3) (λ p. Others.words.decodes_to p v.4) m;
      writable = λ s v. A.words.writable s v.0 × (B.words.writable s v.1
          × (C.words.writable s v.2 × (D.words.writable s v.3 × Others.words.writable s v.4)));
      own_errors = λ e. A.words.own_errors e ⊎ (B.words.own_errors e ⊎ (C.words.own_errors e ⊎
          (D.words.own_errors e ⊎ Others.words.own_errors e)));
      may_allocate = A.words.may_allocate ⊎ (B.words.may_allocate ⊎ (C.words.may_allocate ⊎
          (D.words.may_allocate ⊎ Others.words.may_allocate)));
      claim = ⟦<Cons<A, Cons<B, Cons<C, Cons<D, Others>>>> as Wire>⟧.words.claim;
      need = λ s. then_needs (A.words.format s) (A.words.need s) (λ _. then_needs (B.words.format s) (B.words.need s)
          (λ _. then_needs (C.words.format s) (C.words.need s) (λ _. then_needs (D.words.format s) (D.words.need s)
          (λ _. Others.words.need s))));
      lawful = λ s. four-lawful (A.words.lawful s) (B.words.lawful s) (C.words.lawful s) (D.words.lawful s)
          (Others.words.lawful s);
      balanced = λ s. four-balanced (A.words.balanced s) (B.words.balanced s) (C.words.balanced s) (D.words.balanced s)
          (Others.words.balanced s);
      has_word = λ s v h w.
          four-has_word (A.words.has_word s v.0 h.0 w.0) (B.words.has_word s v.1 h.1.0 w.1.0)
          (C.words.has_word s v.2 h.1.1.0 w.1.1.0)
          (D.words.has_word s v.3 h.1.1.1.0 w.1.1.1.0) (Others.words.has_word s v.4 h.1.1.1.1 w.1.1.1.1);
      errors_are_own = λ e. either (A.words.errors_are_own e) (either (B.words.errors_are_own e)
          (either (C.words.errors_are_own e) (either (D.words.errors_are_own e) (Others.words.errors_are_own e))));
      claims = omega (arith, A.words.claims);
      needs = λ s. then-needs (A.words.balanced s) (A.words.needs s) (then-needs (B.words.balanced s) (B.words.needs s)
          (then-needs (C.words.balanced s) (C.words.needs s) (then-needs (D.words.balanced s) (D.words.needs s)
          (Others.words.needs s))));
      charges_enough = λ s. then-charged (A.words.charges_enough s) (then-charged (B.words.charges_enough s)
          (then-charged (C.words.charges_enough s) (then-charged (D.words.charges_enough s)
          (Others.words.charges_enough s))));
    } };

    fn claim_size() -> usize {
        Cons::<A, Cons<B, Cons<C, Cons<D, Others>>>>::claim_size()
    }
}

impl<A, B, C, D, Others> Tail for Cons4<A, B, C, D, Others> {
    ghost more = { λ claim. claim };

    fn more_size(claim: usize) -> usize {
        claim
    }
}

impl<A: Inhabited, B: Inhabited, C: Inhabited, D: Inhabited, Others: Inhabited + Tail> Inhabited
    for Cons4<A, B, C, D, Others> {
    fn tell_inhabited() {
        A::tell_inhabited();
        B::tell_inhabited();
        C::tell_inhabited();
        D::tell_inhabited();
        Others::tell_inhabited();
    }
}

impl<A: Writable, B: Writable, C: Writable, D: Writable, Others: Writable + Tail> Writable
    for Cons4<A, B, C, D, Others> {
    fn tell_writable() {
        A::tell_writable();
        B::tell_writable();
        C::tell_writable();
        D::tell_writable();
        Others::tell_writable();
    }
}

impl<A: Plain, B: Plain, C: Plain, D: Plain, Others: Plain + Tail> Plain
    for Cons4<A, B, C, D, Others> {
    fn tell_plain() {
        A::tell_plain();
        B::tell_plain();
        C::tell_plain();
        D::tell_plain();
        Others::tell_plain();
    }
}

impl<A: Exact, B: Exact, C: Exact, D: Exact, Others: Exact + Tail> Exact
    for Cons4<A, B, C, D, Others> {
    fn tell_exact() {
        A::tell_exact();
        B::tell_exact();
        C::tell_exact();
        D::tell_exact();
        Others::tell_exact();
    }
}

impl<A: Canonical, B: Canonical, C: Canonical, D: Canonical, Others: Canonical + Tail> Canonical
    for Cons4<A, B, C, D, Others> {
    fn tell_canonical() {
        A::tell_canonical();
        B::tell_canonical();
        C::tell_canonical();
        D::tell_canonical();
        Others::tell_canonical();
    }
}

impl<
    A: ConstantCharge,
    B: ConstantCharge,
    C: ConstantCharge,
    D: ConstantCharge,
    Others: ConstantCharge + Tail,
> ConstantCharge for Cons4<A, B, C, D, Others> {
    ghost cost = { ⟦<Cons<A, Cons<B, Cons<C, Cons<D, Others>>>> as ConstantCharge>⟧.cost };

    ghost peak = { ⟦<Cons<A, Cons<B, Cons<C, Cons<D, Others>>>> as ConstantCharge>⟧.peak };

    fn tell_costs() {
        A::tell_costs();
        B::tell_costs();
        C::tell_costs();
        D::tell_costs();
        Others::tell_costs();
    }
}
