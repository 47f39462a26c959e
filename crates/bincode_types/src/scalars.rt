//! Types with one encoding for each value: numbers, `bool`, `char` and `()`.
ghost use Rattle.std.specs.Prelude.{◌≡◌, ℕ, max, true};
ghost use Rattle.bincode_spec.specs.Meaning.{Meaning};
ghost use Rattle.bincode_base.specs.Setting.{Setting};
ghost use Rattle.bincode_spec.specs.Forms.{Form};
ghost use Rattle.bincode_spec.specs.Layers.Laws.{Costs};
ghost use Rattle.bincode_lemmas.specs.FormLaws.{FormLaws};
ghost use Rattle.bincode_types.specs.TypeLaws.{HasSomeWord, AlwaysWritable, PlainWords, ExactWords, CanonicalWords};
ghost use Rattle.bincode_types.specs.TypeWords.{scalar_words, words_by};

use crate::laws::{Canonical, ConstantCharge, Exact, Inhabited, Plain, Writable};
use crate::wire::Wire;

/// A type whose values are each written in one way, and are equal if they mean the same.
pub trait Scalar: PartialEq {
    /// Its format, which values are in bounds, and what each means.
    ghost form: { Form Self };

    /// Each value in bounds is written in one way, which is the shortest.
    ghost form_laws: { FormLaws form };

    /// Its size in memory, in bytes. A container claims it, and at least 1.
    ghost SIZE: { ℕ };

    const SIZE: usize;

    /// Values with one meaning are equal.
    ghost same: { (v w : Self) (m : Meaning) → form.means v m → form.means w m → Self.eq v w ≡ true };
}

/// A scalar whose encodings all charge its size in memory.
pub trait FixedCharge: Scalar {
    ghost charges: { (s : Setting) → Costs Self.SIZE Self.SIZE (Self.form.format s) };
}

/// What a container claims for a scalar: its size in memory, and at least 1.
#[inline]
pub fn scalar_claim<T: Scalar>() -> usize
    ensures { result ≡ max T.SIZE 1 }
{
    T::SIZE.max(1)
}

/// Proves that a scalar is `Inhabited`.
pub fn tell_scalar_inhabited<T: Scalar>()
    ensures { HasSomeWord (scalar_words T.form T.form_laws T.SIZE) }
{}

/// Proves that a scalar is `Writable`.
pub fn tell_scalar_writable<T: Scalar>()
    ensures { AlwaysWritable (scalar_words T.form T.form_laws T.SIZE) }
{}

/// Proves that a scalar is `Plain`.
pub fn tell_scalar_plain<T: Scalar>()
    ensures { PlainWords (scalar_words T.form T.form_laws T.SIZE) }
{}

/// Proves that a scalar is `Canonical`.
pub fn tell_scalar_canonical<T: Scalar>()
    ensures { CanonicalWords (scalar_words T.form T.form_laws T.SIZE) }
{}

/// Proves that a scalar is `Exact`.
pub fn tell_scalar_exact<T: Scalar>()
    ensures { ExactWords (scalar_words T.form T.form_laws T.SIZE) T.eq }
{}

/// Proves that a scalar has a `ConstantCharge`: its size in memory.
pub fn tell_scalar_costs<T: FixedCharge>()
    ensures { (s : Setting) → Costs T.SIZE T.SIZE (T.form.format s) }
{}

/// A value that is written by itself. Ghost type, never constructed.
#[derive(Drop, PartialEq)]
pub struct Single<T> {
    pub value: T,
}

impl<T: Scalar> Wire for Single<T> {
    ghost words = { words_by (scalar_words T.form T.form_laws T.SIZE) (λ v. v.value) };

    fn claim_size() -> usize {
        scalar_claim::<T>()
    }
}

impl<T: Scalar> Inhabited for Single<T> {
    fn tell_inhabited() {}
}

impl<T: Scalar> Writable for Single<T> {
    fn tell_writable() {}
}

impl<T: Scalar> Plain for Single<T> {
    fn tell_plain() {}
}

impl<T: Scalar> Canonical for Single<T> {
    fn tell_canonical() {}
}

impl<T: Scalar> Exact for Single<T> {
    fn tell_exact() {}
}

impl<T: FixedCharge> ConstantCharge for Single<T> {
    ghost cost = { T.SIZE };

    ghost peak = { T.SIZE };

    fn tell_costs() {}
}
