//! Shapes of tuples.
use crate::described::Described;
use crate::rows::tuple_shape;
use crate::shape::Shape;
use std::alloc::Global;

impl<A: Described> Described for (A,) {
    fn shape(alloc: Global) -> Option<Shape> {
        tuple_shape::<(A,)>(alloc)
    }
}

impl<A: Described, B: Described> Described for (A, B) {
    fn shape(alloc: Global) -> Option<Shape> {
        tuple_shape::<(A, B)>(alloc)
    }
}

impl<A: Described, B: Described, C: Described> Described for (A, B, C) {
    fn shape(alloc: Global) -> Option<Shape> {
        tuple_shape::<(A, B, C)>(alloc)
    }
}

impl<A: Described, B: Described, C: Described, D: Described> Described for (A, B, C, D) {
    fn shape(alloc: Global) -> Option<Shape> {
        tuple_shape::<(A, B, C, D)>(alloc)
    }
}

impl<A: Described, B: Described, C: Described, D: Described, E: Described> Described
    for (A, B, C, D, E) {
    fn shape(alloc: Global) -> Option<Shape> {
        tuple_shape::<(A, B, C, D, E)>(alloc)
    }
}

impl<A: Described, B: Described, C: Described, D: Described, E: Described, F: Described> Described
    for (A, B, C, D, E, F) {
    fn shape(alloc: Global) -> Option<Shape> {
        tuple_shape::<(A, B, C, D, E, F)>(alloc)
    }
}

impl<
    A: Described,
    B: Described,
    C: Described,
    D: Described,
    E: Described,
    F: Described,
    G: Described,
> Described for (A, B, C, D, E, F, G) {
    fn shape(alloc: Global) -> Option<Shape> {
        tuple_shape::<(A, B, C, D, E, F, G)>(alloc)
    }
}

impl<
    A: Described,
    B: Described,
    C: Described,
    D: Described,
    E: Described,
    F: Described,
    G: Described,
    H: Described,
> Described for (A, B, C, D, E, F, G, H) {
    fn shape(alloc: Global) -> Option<Shape> {
        tuple_shape::<(A, B, C, D, E, F, G, H)>(alloc)
    }
}

impl<
    A: Described,
    B: Described,
    C: Described,
    D: Described,
    E: Described,
    F: Described,
    G: Described,
    H: Described,
    I: Described,
> Described for (A, B, C, D, E, F, G, H, I) {
    fn shape(alloc: Global) -> Option<Shape> {
        tuple_shape::<(A, B, C, D, E, F, G, H, I)>(alloc)
    }
}

impl<
    A: Described,
    B: Described,
    C: Described,
    D: Described,
    E: Described,
    F: Described,
    G: Described,
    H: Described,
    I: Described,
    J: Described,
> Described for (A, B, C, D, E, F, G, H, I, J) {
    fn shape(alloc: Global) -> Option<Shape> {
        tuple_shape::<(A, B, C, D, E, F, G, H, I, J)>(alloc)
    }
}

impl<
    A: Described,
    B: Described,
    C: Described,
    D: Described,
    E: Described,
    F: Described,
    G: Described,
    H: Described,
    I: Described,
    J: Described,
    K: Described,
> Described for (A, B, C, D, E, F, G, H, I, J, K) {
    fn shape(alloc: Global) -> Option<Shape> {
        tuple_shape::<(A, B, C, D, E, F, G, H, I, J, K)>(alloc)
    }
}

impl<
    A: Described,
    B: Described,
    C: Described,
    D: Described,
    E: Described,
    F: Described,
    G: Described,
    H: Described,
    I: Described,
    J: Described,
    K: Described,
    L: Described,
> Described for (A, B, C, D, E, F, G, H, I, J, K, L) {
    fn shape(alloc: Global) -> Option<Shape> {
        tuple_shape::<(A, B, C, D, E, F, G, H, I, J, K, L)>(alloc)
    }
}

impl<
    A: Described,
    B: Described,
    C: Described,
    D: Described,
    E: Described,
    F: Described,
    G: Described,
    H: Described,
    I: Described,
    J: Described,
    K: Described,
    L: Described,
    M: Described,
> Described for (A, B, C, D, E, F, G, H, I, J, K, L, M) {
    fn shape(alloc: Global) -> Option<Shape> {
        tuple_shape::<(A, B, C, D, E, F, G, H, I, J, K, L, M)>(alloc)
    }
}

impl<
    A: Described,
    B: Described,
    C: Described,
    D: Described,
    E: Described,
    F: Described,
    G: Described,
    H: Described,
    I: Described,
    J: Described,
    K: Described,
    L: Described,
    M: Described,
    N: Described,
> Described for (A, B, C, D, E, F, G, H, I, J, K, L, M, N) {
    fn shape(alloc: Global) -> Option<Shape> {
        tuple_shape::<(A, B, C, D, E, F, G, H, I, J, K, L, M, N)>(alloc)
    }
}

impl<
    A: Described,
    B: Described,
    C: Described,
    D: Described,
    E: Described,
    F: Described,
    G: Described,
    H: Described,
    I: Described,
    J: Described,
    K: Described,
    L: Described,
    M: Described,
    N: Described,
    O: Described,
> Described for (A, B, C, D, E, F, G, H, I, J, K, L, M, N, O) {
    fn shape(alloc: Global) -> Option<Shape> {
        tuple_shape::<(A, B, C, D, E, F, G, H, I, J, K, L, M, N, O)>(alloc)
    }
}

impl<
    A: Described,
    B: Described,
    C: Described,
    D: Described,
    E: Described,
    F: Described,
    G: Described,
    H: Described,
    I: Described,
    J: Described,
    K: Described,
    L: Described,
    M: Described,
    N: Described,
    O: Described,
    P: Described,
> Described for (A, B, C, D, E, F, G, H, I, J, K, L, M, N, O, P) {
    fn shape(alloc: Global) -> Option<Shape> {
        tuple_shape::<(A, B, C, D, E, F, G, H, I, J, K, L, M, N, O, P)>(alloc)
    }
}
