//! Types that are encoded as their parts.
ghost use Rattle.std.specs.Prelude.{◌≡◌};
ghost use Rattle.bincode_spec.specs.Promises.{Promise, nothing_more};

use crate::laws::{Canonical, ConstantCharge, Exact, Inhabited, Plain, Writable};
use crate::wire::Wire;

/// A type that is encoded as its parts: a struct as the tuple of its fields. It gets `Wire` from this, and each law
/// trait that the type of its parts has.
pub trait ByParts {
    /// The type of the parts.
    type Parts;

    /// The parts of a value.
    ghost parts: { Self → Self.Parts };

    /// What decoding promises of a value, beside what it promises of its parts.
    ghost promise: { Self → Promise } = { λ v. nothing_more };
}

impl<T: ByParts> Wire for T
where
    T::Parts: Wire,
{
    ghost words = { record {
      format = T.Parts.words.format;
      valid = λ v. T.Parts.words.valid (T.parts v);
      means = λ v. T.Parts.words.means (T.parts v);
      decodes_to = λ m v. (T.promise v).Promised (T.Parts.words.decodes_to m (T.parts v));
      writable = λ s v. T.Parts.words.writable s (T.parts v);
      own_errors = T.Parts.words.own_errors;
      may_allocate = T.Parts.words.may_allocate;
      claim = T.Parts.words.claim;
      need = T.Parts.words.need;
      lawful = T.Parts.words.lawful;
      balanced = T.Parts.words.balanced;
      has_word = λ s v. T.Parts.words.has_word s (T.parts v);
      errors_are_own = T.Parts.words.errors_are_own;
      claims = T.Parts.words.claims;
      needs = T.Parts.words.needs;
      charges_enough = T.Parts.words.charges_enough;
    } };

    fn claim_size() -> usize {
        T::Parts::claim_size()
    }
}

impl<T: ByParts> Inhabited for T
where
    T::Parts: Inhabited,
{
    fn tell_inhabited() {
        T::Parts::tell_inhabited();
    }
}

impl<T: ByParts> Writable for T
where
    T::Parts: Writable,
{
    fn tell_writable() {
        T::Parts::tell_writable();
    }
}

impl<T: ByParts> Plain for T
where
    T::Parts: Plain,
{
    fn tell_plain() {
        T::Parts::tell_plain();
    }
}

impl<T: ByParts> Canonical for T
where
    T::Parts: Canonical,
{
    fn tell_canonical() {
        T::Parts::tell_canonical();
    }
}

impl<T: ByParts> ConstantCharge for T
where
    T::Parts: ConstantCharge,
{
    ghost cost = { T.Parts.cost };

    ghost peak = { T.Parts.peak };

    fn tell_costs() {
        T::Parts::tell_costs();
    }
}

/// A type whose values are equal exactly if their parts are. It is `Exact` if the type of its parts is.
pub trait SameParts<Parts: PartialEq>: ByParts<Parts = Parts> + PartialEq {
    /// Values are equal exactly if their parts are.
    ghost same_parts: { (v w : Self) → Parts.eq (Self.parts v) (Self.parts w) ≡ Self.eq v w };
}

impl<P: Exact, T: ByParts<Parts = P> + SameParts<P>> Exact for T {
    fn tell_exact() {
        P::tell_exact();
    }
}
