//! Types whose values are checked after decoding.
ghost use Rattle.std.specs.Prelude.{◌≡◌, Bool, true, is_ok, IfOk, IfErr};
ghost use Rattle.std.proofs.Common.{rules};
ghost use Rattle.std.specs.Cmp.Rules.{comparing};
ghost use Rattle.bincode_spec.specs.Fault.{Fault, IsEnd};
ghost use Rattle.bincode_spec.specs.Meaning.{Meaning};
ghost use Rattle.bincode_spec.specs.Validated.{with_test, passed_of, TellsOwn};
ghost use Rattle.bincode_lemmas.specs.NeedLaws.{test-needs};
ghost use Rattle.bincode_lemmas.specs.ChargedLaws.{test-charged};
ghost use Rattle.bincode_lemmas.specs.ValidatedLaws.{with_test-lawful, with_test-balanced, with_test-has_word};

use crate::laws::{Canonical, Exact, Plain, Writable};
use crate::wire::Wire;
use bincode_base::error::DecodeError;

/// A type that holds a value of another type which passes a test, as an even number does. It is encoded as that value;
/// decoding what fails the test fails with the fault that the type names. It is written as `Validated<Self>`.
pub trait Validate: Sized {
    /// The type that is tested.
    type Of: Wire;

    /// The value that is held.
    ghost of: { Self → Self.Of };

    /// The test, on the meaning of what was decoded.
    ghost passes: { Meaning → Bool };

    /// The fault of a value that fails the test.
    ghost fault: { Fault };

    /// The fault is not an early end of the input, which more bytes would mend.
    ghost is_no_end: { ¬ (IsEnd fault) };

    /// The value that is held.
    fn of(&self) -> &Self::Of
        ensures { result.now ≡ of self.now };

    /// Tests a value and holds it. Fails with the error of the type's fault exactly if the test fails.
    fn validate(value: Self::Of) -> Result<Self, DecodeError>
        ensures holds { IfOk result (λ v. of v ≡ value) }
        ensures passes { (m : Meaning) → Self.Of.words.decodes_to m value → passes m ≡ is_ok result }
        ensures tells { IfErr result (TellsOwn fault) };

    /// Every value of the type passes the test.
    ghost each_passes: { (v : Self) (m : Meaning) → Self.Of.words.means (of v) m → passes m ≡ true };
}

/// What a `Validate` type is written as.
#[derive(Drop)]
pub struct Validated<T>(pub T);

impl<T: Validate> PartialEq for Validated<T>
where
    T::Of: PartialEq,
{
    ghost eq = { λ v w. T.Of.eq (T.of v.0) (T.of w.0) };

    ghost laws = { Prim.search (comparing, rules) };

    fn eq(&self, other: &Validated<T>) -> bool {
        self.0.of() == other.0.of()
    }
}

impl<T: Validate> Wire for Validated<T> {
    ghost words = { record {
      format = λ s. with_test T.passes T.fault (T.Of.words.format s);
      valid = λ v. T.Of.words.valid (T.of v.0)
          × ((m : Meaning) → T.Of.words.means (T.of v.0) m → T.passes m ≡ true);
      means = λ v. T.Of.words.means (T.of v.0);
      decodes_to = λ m v. T.Of.words.decodes_to m (T.of v.0) × (T.passes m ≡ true);
      writable = λ s v. T.Of.words.writable s (T.of v.0);
      own_errors = T.Of.words.own_errors;
      may_allocate = T.Of.words.may_allocate;
      claim = T.Of.words.claim;
      need = T.Of.words.need;
      lawful = λ s. with_test-lawful T.passes T.fault (T.Of.words.format s) T.is_no_end (T.Of.words.lawful s);
      balanced = λ s. with_test-balanced T.passes T.fault (T.Of.words.format s) (T.Of.words.balanced s);
      has_word = λ s v h w. with_test-has_word T.passes T.fault (T.Of.words.format s) (T.Of.words.means (T.of v.0))
          h.1 (T.Of.words.has_word s (T.of v.0) h.0 w);
      errors_are_own = T.Of.words.errors_are_own;
      claims = T.Of.words.claims;
      needs = λ s. test-needs _ (T.Of.words.format s) (passed_of T.passes T.fault) (T.Of.words.needs s);
      charges_enough = λ s. test-charged (T.Of.words.format s) (passed_of T.passes T.fault)
          (T.Of.words.charges_enough s);
    } };

    fn claim_size() -> usize {
        T::Of::claim_size()
    }
}

impl<T: Validate> Writable for Validated<T>
where
    T::Of: Writable,
{
    fn tell_writable() {
        T::Of::tell_writable();
    }
}

impl<T: Validate> Plain for Validated<T>
where
    T::Of: Plain,
{
    fn tell_plain() {
        T::Of::tell_plain();
    }
}

impl<T: Validate> Exact for Validated<T>
where
    T::Of: Exact,
{
    fn tell_exact() {
        T::Of::tell_exact();
    }
}

impl<T: Validate> Canonical for Validated<T>
where
    T::Of: Canonical,
{
    fn tell_canonical() {
        T::Of::tell_canonical();
    }
}
