//! `Wire` for tuples.
ghost use Rattle.std.specs.Prelude.{[], ◌∷◌};
ghost use Rattle.bincode_types.specs.Rows.{row, four};
ghost use Rattle.bincode_lemmas.specs.RowLaws.{row-same};

use crate::by_parts::{ByParts, SameParts};
use crate::rows::{Cons, Cons4};

impl<A> ByParts for (A,) {
    type Parts = Cons<A, ()>;

    ghost parts = { λ v. row v.0 tt };
}

impl<A, B> ByParts for (A, B) {
    type Parts = Cons<A, Cons<B, ()>>;

    ghost parts = { λ v. row v.0 (row v.1 tt) };
}

impl<A, B, C> ByParts for (A, B, C) {
    type Parts = Cons<A, Cons<B, Cons<C, ()>>>;

    ghost parts = { λ v. row v.0 (row v.1 (row v.2 tt)) };
}

impl<A, B, C, D> ByParts for (A, B, C, D) {
    type Parts = Cons4<A, B, C, D, ()>;

    ghost parts = { λ v. four v.0 v.1 v.2 v.3 tt };
}

impl<A, B, C, D, E> ByParts for (A, B, C, D, E) {
    type Parts = Cons4<A, B, C, D, Cons<E, ()>>;

    ghost parts = { λ v. four v.0 v.1 v.2 v.3 (row v.4 tt) };
}

impl<A, B, C, D, E, F> ByParts for (A, B, C, D, E, F) {
    type Parts = Cons4<A, B, C, D, Cons<E, Cons<F, ()>>>;

    ghost parts = { λ v. four v.0 v.1 v.2 v.3 (row v.4 (row v.5 tt)) };
}

impl<A, B, C, D, E, F, G> ByParts for (A, B, C, D, E, F, G) {
    type Parts = Cons4<A, B, C, D, Cons<E, Cons<F, Cons<G, ()>>>>;

    ghost parts = { λ v. four v.0 v.1 v.2 v.3 (row v.4 (row v.5 (row v.6 tt))) };
}

impl<A, B, C, D, E, F, G, H> ByParts for (A, B, C, D, E, F, G, H) {
    type Parts = Cons4<A, B, C, D, Cons4<E, F, G, H, ()>>;

    ghost parts = { λ v. four v.0 v.1 v.2 v.3 (four v.4 v.5 v.6 v.7 tt) };
}

impl<A, B, C, D, E, F, G, H, I> ByParts for (A, B, C, D, E, F, G, H, I) {
    type Parts = Cons4<A, B, C, D, Cons4<E, F, G, H, Cons<I, ()>>>;

    ghost parts = { λ v. four v.0 v.1 v.2 v.3 (four v.4 v.5 v.6 v.7 (row v.8 tt)) };
}

impl<A, B, C, D, E, F, G, H, I, J> ByParts for (A, B, C, D, E, F, G, H, I, J) {
    type Parts = Cons4<A, B, C, D, Cons4<E, F, G, H, Cons<I, Cons<J, ()>>>>;

    ghost parts = { λ v. four v.0 v.1 v.2 v.3 (four v.4 v.5 v.6 v.7 (row v.8 (row v.9 tt))) };
}

impl<A, B, C, D, E, F, G, H, I, J, K> ByParts for (A, B, C, D, E, F, G, H, I, J, K) {
    type Parts = Cons4<A, B, C, D, Cons4<E, F, G, H, Cons<I, Cons<J, Cons<K, ()>>>>>;

    ghost parts = { λ v. four v.0 v.1 v.2 v.3 (four v.4 v.5 v.6 v.7 (row v.8 (row v.9 (row v.10 tt)))) };
}

impl<A, B, C, D, E, F, G, H, I, J, K, L> ByParts for (A, B, C, D, E, F, G, H, I, J, K, L) {
    type Parts = Cons4<A, B, C, D, Cons4<E, F, G, H, Cons4<I, J, K, L, ()>>>;

    ghost parts = { λ v. four v.0 v.1 v.2 v.3 (four v.4 v.5 v.6 v.7 (four v.8 v.9 v.10 v.11 tt)) };
}

impl<A, B, C, D, E, F, G, H, I, J, K, L, M> ByParts for (A, B, C, D, E, F, G, H, I, J, K, L, M) {
    type Parts = Cons4<A, B, C, D, Cons4<E, F, G, H, Cons4<I, J, K, L, Cons<M, ()>>>>;

    ghost parts = { λ v. four v.0 v.1.0 v.1.1.0 v.1.1.1.0 (
        four v.1.1.1.1.0 v.1.1.1.1.1.0 v.1.1.1.1.1.1.0 v.1.1.1.1.1.1.1.0 (
        four v.1.1.1.1.1.1.1.1.0 v.1.1.1.1.1.1.1.1.1.0 v.1.1.1.1.1.1.1.1.1.1.0 v.1.1.1.1.1.1.1.1.1.1.1.0 (
        row v.1.1.1.1.1.1.1.1.1.1.1.1.0 tt))) };
}

impl<A, B, C, D, E, F, G, H, I, J, K, L, M, N> ByParts
    for (A, B, C, D, E, F, G, H, I, J, K, L, M, N) {
    type Parts = Cons4<A, B, C, D, Cons4<E, F, G, H, Cons4<I, J, K, L, Cons<M, Cons<N, ()>>>>>;

    ghost parts = { λ v. four v.0 v.1.0 v.1.1.0 v.1.1.1.0 (
        four v.1.1.1.1.0 v.1.1.1.1.1.0 v.1.1.1.1.1.1.0 v.1.1.1.1.1.1.1.0 (
        four v.1.1.1.1.1.1.1.1.0 v.1.1.1.1.1.1.1.1.1.0 v.1.1.1.1.1.1.1.1.1.1.0 v.1.1.1.1.1.1.1.1.1.1.1.0 (
        row v.1.1.1.1.1.1.1.1.1.1.1.1.0 (row v.1.1.1.1.1.1.1.1.1.1.1.1.1.0 tt)))) };
}

impl<A, B, C, D, E, F, G, H, I, J, K, L, M, N, O> ByParts
    for (A, B, C, D, E, F, G, H, I, J, K, L, M, N, O) {
    type Parts = Cons4<
        A,
        B,
        C,
        D,
        Cons4<E, F, G, H, Cons4<I, J, K, L, Cons<M, Cons<N, Cons<O, ()>>>>>,
    >;

    ghost parts = { λ v. four v.0 v.1.0 v.1.1.0 v.1.1.1.0 (
        four v.1.1.1.1.0 v.1.1.1.1.1.0 v.1.1.1.1.1.1.0 v.1.1.1.1.1.1.1.0 (
        four v.1.1.1.1.1.1.1.1.0 v.1.1.1.1.1.1.1.1.1.0 v.1.1.1.1.1.1.1.1.1.1.0 v.1.1.1.1.1.1.1.1.1.1.1.0 (
        row v.1.1.1.1.1.1.1.1.1.1.1.1.0 (row v.1.1.1.1.1.1.1.1.1.1.1.1.1.0 (
        row v.1.1.1.1.1.1.1.1.1.1.1.1.1.1.0 tt))))) };
}

impl<A, B, C, D, E, F, G, H, I, J, K, L, M, N, O, P> ByParts
    for (A, B, C, D, E, F, G, H, I, J, K, L, M, N, O, P) {
    type Parts = Cons4<A, B, C, D, Cons4<E, F, G, H, Cons4<I, J, K, L, Cons4<M, N, O, P, ()>>>>;

    ghost parts = { λ v. four v.0 v.1.0 v.1.1.0 v.1.1.1.0 (
        four v.1.1.1.1.0 v.1.1.1.1.1.0 v.1.1.1.1.1.1.0 v.1.1.1.1.1.1.1.0 (
        four v.1.1.1.1.1.1.1.1.0 v.1.1.1.1.1.1.1.1.1.0 v.1.1.1.1.1.1.1.1.1.1.0 v.1.1.1.1.1.1.1.1.1.1.1.0 (
        four v.1.1.1.1.1.1.1.1.1.1.1.1.0 v.1.1.1.1.1.1.1.1.1.1.1.1.1.0 v.1.1.1.1.1.1.1.1.1.1.1.1.1.1.0
        v.1.1.1.1.1.1.1.1.1.1.1.1.1.1.1.0 tt))) };
}

impl<A: PartialEq> SameParts<Cons<A, ()>> for (A,) {
    ghost same_parts = { λ v w. row-same (A.eq v.0 w.0) [] };
}

impl<A: PartialEq, B: PartialEq> SameParts<Cons<A, Cons<B, ()>>> for (A, B) {
    ghost same_parts = { λ v w. row-same (A.eq v.0 w.0) (B.eq v.1 w.1 ∷ []) };
}

impl<A: PartialEq, B: PartialEq, C: PartialEq> SameParts<Cons<A, Cons<B, Cons<C, ()>>>>
    for (A, B, C) {
    ghost same_parts = { λ v w. row-same (A.eq v.0 w.0) (B.eq v.1 w.1 ∷ C.eq v.2 w.2 ∷ []) };
}

impl<A: PartialEq, B: PartialEq, C: PartialEq, D: PartialEq> SameParts<Cons4<A, B, C, D, ()>>
    for (A, B, C, D) {
    ghost same_parts = { λ v w. row-same (A.eq v.0 w.0) (B.eq v.1 w.1 ∷ C.eq v.2 w.2 ∷ D.eq v.3 w.3 ∷ []) };
}

impl<A: PartialEq, B: PartialEq, C: PartialEq, D: PartialEq, E: PartialEq> SameParts<
    Cons4<A, B, C, D, Cons<E, ()>>,
> for (A, B, C, D, E) {
    ghost same_parts = { λ v w. row-same (A.eq v.0 w.0) (B.eq v.1 w.1 ∷ C.eq v.2 w.2 ∷ D.eq v.3 w.3
        ∷ E.eq v.4 w.4
        ∷ []) };
}

impl<A: PartialEq, B: PartialEq, C: PartialEq, D: PartialEq, E: PartialEq, F: PartialEq> SameParts<
    Cons4<A, B, C, D, Cons<E, Cons<F, ()>>>,
> for (A, B, C, D, E, F) {
    ghost same_parts = { λ v w. row-same (A.eq v.0 w.0) (B.eq v.1 w.1 ∷ C.eq v.2 w.2 ∷ D.eq v.3 w.3
        ∷ E.eq v.4 w.4 ∷ F.eq v.5 w.5
        ∷ []) };
}

impl<
    A: PartialEq,
    B: PartialEq,
    C: PartialEq,
    D: PartialEq,
    E: PartialEq,
    F: PartialEq,
    G: PartialEq,
> SameParts<Cons4<A, B, C, D, Cons<E, Cons<F, Cons<G, ()>>>>> for (A, B, C, D, E, F, G) {
    ghost same_parts = { λ v w. row-same (A.eq v.0 w.0) (B.eq v.1 w.1 ∷ C.eq v.2 w.2 ∷ D.eq v.3 w.3
        ∷ E.eq v.4 w.4 ∷ F.eq v.5 w.5
        ∷ G.eq v.6 w.6 ∷ []) };
}

impl<
    A: PartialEq,
    B: PartialEq,
    C: PartialEq,
    D: PartialEq,
    E: PartialEq,
    F: PartialEq,
    G: PartialEq,
    H: PartialEq,
> SameParts<Cons4<A, B, C, D, Cons4<E, F, G, H, ()>>> for (A, B, C, D, E, F, G, H) {
    ghost same_parts = { λ v w. row-same (A.eq v.0 w.0) (B.eq v.1 w.1 ∷ C.eq v.2 w.2 ∷ D.eq v.3 w.3
        ∷ E.eq v.4 w.4 ∷ F.eq v.5 w.5
        ∷ G.eq v.6 w.6 ∷ H.eq v.7 w.7 ∷ []) };
}

impl<
    A: PartialEq,
    B: PartialEq,
    C: PartialEq,
    D: PartialEq,
    E: PartialEq,
    F: PartialEq,
    G: PartialEq,
    H: PartialEq,
    I: PartialEq,
> SameParts<Cons4<A, B, C, D, Cons4<E, F, G, H, Cons<I, ()>>>> for (A, B, C, D, E, F, G, H, I) {
    ghost same_parts = { λ v w. row-same (A.eq v.0 w.0) (B.eq v.1 w.1 ∷ C.eq v.2 w.2 ∷ D.eq v.3 w.3
        ∷ E.eq v.4 w.4 ∷ F.eq v.5 w.5
        ∷ G.eq v.6 w.6 ∷ H.eq v.7 w.7 ∷ I.eq v.8 w.8 ∷ []) };
}

impl<
    A: PartialEq,
    B: PartialEq,
    C: PartialEq,
    D: PartialEq,
    E: PartialEq,
    F: PartialEq,
    G: PartialEq,
    H: PartialEq,
    I: PartialEq,
    J: PartialEq,
> SameParts<Cons4<A, B, C, D, Cons4<E, F, G, H, Cons<I, Cons<J, ()>>>>>
    for (A, B, C, D, E, F, G, H, I, J) {
    ghost same_parts = { λ v w. row-same (A.eq v.0 w.0) (B.eq v.1 w.1 ∷ C.eq v.2 w.2 ∷ D.eq v.3 w.3
        ∷ E.eq v.4 w.4 ∷ F.eq v.5 w.5
        ∷ G.eq v.6 w.6 ∷ H.eq v.7 w.7 ∷ I.eq v.8 w.8 ∷ J.eq v.9 w.9 ∷ []) };
}

impl<
    A: PartialEq,
    B: PartialEq,
    C: PartialEq,
    D: PartialEq,
    E: PartialEq,
    F: PartialEq,
    G: PartialEq,
    H: PartialEq,
    I: PartialEq,
    J: PartialEq,
    K: PartialEq,
> SameParts<Cons4<A, B, C, D, Cons4<E, F, G, H, Cons<I, Cons<J, Cons<K, ()>>>>>>
    for (A, B, C, D, E, F, G, H, I, J, K) {
    ghost same_parts = { λ v w. row-same (A.eq v.0 w.0) (B.eq v.1 w.1 ∷ C.eq v.2 w.2 ∷ D.eq v.3 w.3
        ∷ E.eq v.4 w.4 ∷ F.eq v.5 w.5
        ∷ G.eq v.6 w.6 ∷ H.eq v.7 w.7 ∷ I.eq v.8 w.8 ∷ J.eq v.9 w.9 ∷ K.eq v.10 w.10 ∷ []) };
}

impl<
    A: PartialEq,
    B: PartialEq,
    C: PartialEq,
    D: PartialEq,
    E: PartialEq,
    F: PartialEq,
    G: PartialEq,
    H: PartialEq,
    I: PartialEq,
    J: PartialEq,
    K: PartialEq,
    L: PartialEq,
> SameParts<Cons4<A, B, C, D, Cons4<E, F, G, H, Cons4<I, J, K, L, ()>>>>
    for (A, B, C, D, E, F, G, H, I, J, K, L) {
    ghost same_parts = { λ v w. row-same (A.eq v.0 w.0) (B.eq v.1 w.1 ∷ C.eq v.2 w.2 ∷ D.eq v.3 w.3
        ∷ E.eq v.4 w.4 ∷ F.eq v.5 w.5
        ∷ G.eq v.6 w.6 ∷ H.eq v.7 w.7 ∷ I.eq v.8 w.8 ∷ J.eq v.9 w.9 ∷ K.eq v.10 w.10 ∷ L.eq v.11 w.11
        ∷ []) };
}
