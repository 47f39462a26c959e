//! Equality of rows, part by part.
ghost use Rattle.std.specs.Prelude.{◌≡◌, true};
ghost use Rattle.bincode_lemmas.specs.EqualLaws.{both-show};

use crate::rows::{Cons, Cons4};

/// Rows that are equal only if each part is, so that `exact_by_fields` can use a struct's own `==`.
pub trait EqualParts: PartialEq {
    /// Each part is equal to that of the other.
    ghost each_equal: { Self → Self → Type 0 };

    /// Equal rows have equal parts.
    ghost parts_equal: { (v w : Self) → Self.eq v w ≡ true → each_equal v w };
}

impl EqualParts for () {
    ghost each_equal = { λ v w. Unit {0} };

    ghost parts_equal = { λ v w h. tt };
}

impl<A: PartialEq, Others: EqualParts> EqualParts for Cons<A, Others> {
    ghost each_equal = { λ v w. (A.eq v.0 w.0 ≡ true) × Others.each_equal v.1 w.1 };

    ghost parts_equal = { λ v w. both-show (A.eq v.0 w.0) _ (Others.parts_equal v.1 w.1) };
}

impl<A: PartialEq, B: PartialEq, C: PartialEq, D: PartialEq, Others: EqualParts> EqualParts
    for Cons4<A, B, C, D, Others> {
    ghost each_equal = { λ v w. (A.eq v.0 w.0 ≡ true) × ((B.eq v.1 w.1 ≡ true) × ((C.eq v.2 w.2 ≡ true)
        × ((D.eq v.3 w.3 ≡ true) × Others.each_equal v.4 w.4))) };

    ghost parts_equal = { λ v w. both-show (A.eq v.0 w.0) _ (both-show (B.eq v.1 w.1) _
        (both-show (C.eq v.2 w.2) _ (both-show (D.eq v.3 w.3) _ (Others.parts_equal v.4 w.4)))) };
}
