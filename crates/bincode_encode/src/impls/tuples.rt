//! Encoding of tuples.
use crate::encode::Encode;
use crate::rows::{Cons4Ref, ConsRef, EncodeRow, MostOfRow};
use bincode_base::error::EncodeError;
use bincode_encoder::answers::rebuild_result;
use bincode_encoder::encoder::Encoder;
use bincode_types::by_parts::ByParts;

// All are inlined: LLVM takes a call after several `?` for a rare one, and a call returns its result through memory.

impl Encode for () {
    const MAX_FIXED_SIZE: Option<usize> = Some(0);

    fn tell_valid(&self) {}

    #[inline(always)]
    fn encode<Z: Encoder>(&self, _encoder: &mut Z) -> Result<(), EncodeError> {
        Ok(())
    }
}

/// Proves that four values are valid.
fn tell_four_valid<A: Encode, B: Encode, C: Encode, D: Encode>(a: &A, b: &B, c: &C, d: &D)
    ensures first { A.words.valid a.now }
    ensures second { B.words.valid b.now }
    ensures third { C.words.valid c.now }
    ensures fourth { D.words.valid d.now }
{
    a.tell_valid();
    b.tell_valid();
    c.tell_valid();
    d.tell_valid();
}

impl<A: Encode> Encode for (A,) {
    const MAX_FIXED_SIZE: Option<usize> = <<Self as ByParts>::Parts as MostOfRow>::MOST;

    fn tell_valid(&self) {
        self.0.tell_valid();
    }

    #[inline(always)]
    fn encode<Z: Encoder>(&self, encoder: &mut Z) -> Result<(), EncodeError> {
        let (a,) = self;
        let row = ConsRef(a, ());
        rebuild_result(row.encode_row(encoder))
    }
}

impl<A: Encode, B: Encode> Encode for (A, B) {
    const MAX_FIXED_SIZE: Option<usize> = <<Self as ByParts>::Parts as MostOfRow>::MOST;

    fn tell_valid(&self) {
        self.0.tell_valid();
        self.1.tell_valid();
    }

    #[inline(always)]
    fn encode<Z: Encoder>(&self, encoder: &mut Z) -> Result<(), EncodeError> {
        let (a, b) = self;
        let row = ConsRef(a, ConsRef(b, ()));
        rebuild_result(row.encode_row(encoder))
    }
}

impl<A: Encode, B: Encode, C: Encode> Encode for (A, B, C) {
    const MAX_FIXED_SIZE: Option<usize> = <<Self as ByParts>::Parts as MostOfRow>::MOST;

    fn tell_valid(&self) {
        self.0.tell_valid();
        self.1.tell_valid();
        self.2.tell_valid();
    }

    #[inline(always)]
    fn encode<Z: Encoder>(&self, encoder: &mut Z) -> Result<(), EncodeError> {
        let (a, b, c) = self;
        let row = ConsRef(a, ConsRef(b, ConsRef(c, ())));
        rebuild_result(row.encode_row(encoder))
    }
}

impl<A: Encode, B: Encode, C: Encode, D: Encode> Encode for (A, B, C, D) {
    const MAX_FIXED_SIZE: Option<usize> = <<Self as ByParts>::Parts as MostOfRow>::MOST;

    fn tell_valid(&self) {
        self.0.tell_valid();
        self.1.tell_valid();
        self.2.tell_valid();
        self.3.tell_valid();
    }

    #[inline(always)]
    fn encode<Z: Encoder>(&self, encoder: &mut Z) -> Result<(), EncodeError> {
        let (a, b, c, d) = self;
        let row = Cons4Ref(a, b, c, d, ());
        rebuild_result(row.encode_row(encoder))
    }
}

impl<A: Encode, B: Encode, C: Encode, D: Encode, E: Encode> Encode for (A, B, C, D, E) {
    const MAX_FIXED_SIZE: Option<usize> = <<Self as ByParts>::Parts as MostOfRow>::MOST;

    fn tell_valid(&self) {
        self.0.tell_valid();
        self.1.tell_valid();
        self.2.tell_valid();
        self.3.tell_valid();
        self.4.tell_valid();
    }

    #[inline(always)]
    fn encode<Z: Encoder>(&self, encoder: &mut Z) -> Result<(), EncodeError> {
        let (a, b, c, d, e) = self;
        let row = Cons4Ref(a, b, c, d, ConsRef(e, ()));
        rebuild_result(row.encode_row(encoder))
    }
}

impl<A: Encode, B: Encode, C: Encode, D: Encode, E: Encode, F: Encode> Encode
    for (A, B, C, D, E, F) {
    const MAX_FIXED_SIZE: Option<usize> = <<Self as ByParts>::Parts as MostOfRow>::MOST;

    fn tell_valid(&self) {
        self.0.tell_valid();
        self.1.tell_valid();
        self.2.tell_valid();
        self.3.tell_valid();
        self.4.tell_valid();
        self.5.tell_valid();
    }

    #[inline(always)]
    fn encode<Z: Encoder>(&self, encoder: &mut Z) -> Result<(), EncodeError> {
        let (a, b, c, d, e, f) = self;
        let row = Cons4Ref(a, b, c, d, ConsRef(e, ConsRef(f, ())));
        rebuild_result(row.encode_row(encoder))
    }
}

impl<A: Encode, B: Encode, C: Encode, D: Encode, E: Encode, F: Encode, G: Encode> Encode
    for (A, B, C, D, E, F, G) {
    const MAX_FIXED_SIZE: Option<usize> = <<Self as ByParts>::Parts as MostOfRow>::MOST;

    fn tell_valid(&self) {
        self.0.tell_valid();
        self.1.tell_valid();
        self.2.tell_valid();
        self.3.tell_valid();
        self.4.tell_valid();
        self.5.tell_valid();
        self.6.tell_valid();
    }

    #[inline(always)]
    fn encode<Z: Encoder>(&self, encoder: &mut Z) -> Result<(), EncodeError> {
        let (a, b, c, d, e, f, g) = self;
        let row = Cons4Ref(a, b, c, d, ConsRef(e, ConsRef(f, ConsRef(g, ()))));
        rebuild_result(row.encode_row(encoder))
    }
}

impl<A: Encode, B: Encode, C: Encode, D: Encode, E: Encode, F: Encode, G: Encode, H: Encode> Encode
    for (A, B, C, D, E, F, G, H) {
    const MAX_FIXED_SIZE: Option<usize> = <<Self as ByParts>::Parts as MostOfRow>::MOST;

    fn tell_valid(&self) {
        tell_four_valid(&self.0, &self.1, &self.2, &self.3);
        tell_four_valid(&self.4, &self.5, &self.6, &self.7);
    }

    #[inline(always)]
    fn encode<Z: Encoder>(&self, encoder: &mut Z) -> Result<(), EncodeError> {
        let (a, b, c, d, e, f, g, h) = self;
        let row = Cons4Ref(a, b, c, d, Cons4Ref(e, f, g, h, ()));
        rebuild_result(row.encode_row(encoder))
    }
}

impl<
    A: Encode,
    B: Encode,
    C: Encode,
    D: Encode,
    E: Encode,
    F: Encode,
    G: Encode,
    H: Encode,
    I: Encode,
> Encode for (A, B, C, D, E, F, G, H, I) {
    const MAX_FIXED_SIZE: Option<usize> = <<Self as ByParts>::Parts as MostOfRow>::MOST;

    fn tell_valid(&self) {
        tell_four_valid(&self.0, &self.1, &self.2, &self.3);
        tell_four_valid(&self.4, &self.5, &self.6, &self.7);
        self.8.tell_valid();
    }

    #[inline(always)]
    fn encode<Z: Encoder>(&self, encoder: &mut Z) -> Result<(), EncodeError> {
        let (a, b, c, d, e, f, g, h, i) = self;
        let row = Cons4Ref(a, b, c, d, Cons4Ref(e, f, g, h, ConsRef(i, ())));
        rebuild_result(row.encode_row(encoder))
    }
}

impl<
    A: Encode,
    B: Encode,
    C: Encode,
    D: Encode,
    E: Encode,
    F: Encode,
    G: Encode,
    H: Encode,
    I: Encode,
    J: Encode,
> Encode for (A, B, C, D, E, F, G, H, I, J) {
    const MAX_FIXED_SIZE: Option<usize> = <<Self as ByParts>::Parts as MostOfRow>::MOST;

    fn tell_valid(&self) {
        tell_four_valid(&self.0, &self.1, &self.2, &self.3);
        tell_four_valid(&self.4, &self.5, &self.6, &self.7);
        self.8.tell_valid();
        self.9.tell_valid();
    }

    #[inline(always)]
    fn encode<Z: Encoder>(&self, encoder: &mut Z) -> Result<(), EncodeError> {
        let (a, b, c, d, e, f, g, h, i, j) = self;
        let row = Cons4Ref(a, b, c, d, Cons4Ref(e, f, g, h, ConsRef(i, ConsRef(j, ()))));
        rebuild_result(row.encode_row(encoder))
    }
}

impl<
    A: Encode,
    B: Encode,
    C: Encode,
    D: Encode,
    E: Encode,
    F: Encode,
    G: Encode,
    H: Encode,
    I: Encode,
    J: Encode,
    K: Encode,
> Encode for (A, B, C, D, E, F, G, H, I, J, K) {
    const MAX_FIXED_SIZE: Option<usize> = <<Self as ByParts>::Parts as MostOfRow>::MOST;

    fn tell_valid(&self) {
        tell_four_valid(&self.0, &self.1, &self.2, &self.3);
        tell_four_valid(&self.4, &self.5, &self.6, &self.7);
        self.8.tell_valid();
        self.9.tell_valid();
        self.10.tell_valid();
    }

    #[inline(always)]
    fn encode<Z: Encoder>(&self, encoder: &mut Z) -> Result<(), EncodeError> {
        let (a, b, c, d, e, f, g, h, i, j, k) = self;
        let row = Cons4Ref(
            a,
            b,
            c,
            d,
            Cons4Ref(e, f, g, h, ConsRef(i, ConsRef(j, ConsRef(k, ())))),
        );
        rebuild_result(row.encode_row(encoder))
    }
}

impl<
    A: Encode,
    B: Encode,
    C: Encode,
    D: Encode,
    E: Encode,
    F: Encode,
    G: Encode,
    H: Encode,
    I: Encode,
    J: Encode,
    K: Encode,
    L: Encode,
> Encode for (A, B, C, D, E, F, G, H, I, J, K, L) {
    const MAX_FIXED_SIZE: Option<usize> = <<Self as ByParts>::Parts as MostOfRow>::MOST;

    fn tell_valid(&self) {
        tell_four_valid(&self.0, &self.1, &self.2, &self.3);
        tell_four_valid(&self.4, &self.5, &self.6, &self.7);
        tell_four_valid(&self.8, &self.9, &self.10, &self.11);
    }

    #[inline(always)]
    fn encode<Z: Encoder>(&self, encoder: &mut Z) -> Result<(), EncodeError> {
        let (a, b, c, d, e, f, g, h, i, j, k, l) = self;
        let row = Cons4Ref(a, b, c, d, Cons4Ref(e, f, g, h, Cons4Ref(i, j, k, l, ())));
        rebuild_result(row.encode_row(encoder))
    }
}

impl<
    A: Encode,
    B: Encode,
    C: Encode,
    D: Encode,
    E: Encode,
    F: Encode,
    G: Encode,
    H: Encode,
    I: Encode,
    J: Encode,
    K: Encode,
    L: Encode,
    M: Encode,
> Encode for (A, B, C, D, E, F, G, H, I, J, K, L, M) {
    const MAX_FIXED_SIZE: Option<usize> = <<Self as ByParts>::Parts as MostOfRow>::MOST;

    fn tell_valid(&self) {
        tell_four_valid(&self.0, &self.1, &self.2, &self.3);
        tell_four_valid(&self.4, &self.5, &self.6, &self.7);
        tell_four_valid(&self.8, &self.9, &self.10, &self.11);
        self.12.tell_valid();
    }

    #[inline(always)]
    fn encode<Z: Encoder>(&self, encoder: &mut Z) -> Result<(), EncodeError> {
        let (a, b, c, d, e, f, g, h, i, j, k, l, m) = self;
        let row = Cons4Ref(
            a,
            b,
            c,
            d,
            Cons4Ref(e, f, g, h, Cons4Ref(i, j, k, l, ConsRef(m, ()))),
        );
        rebuild_result(row.encode_row(encoder))
    }
}

impl<
    A: Encode,
    B: Encode,
    C: Encode,
    D: Encode,
    E: Encode,
    F: Encode,
    G: Encode,
    H: Encode,
    I: Encode,
    J: Encode,
    K: Encode,
    L: Encode,
    M: Encode,
    N: Encode,
> Encode for (A, B, C, D, E, F, G, H, I, J, K, L, M, N) {
    const MAX_FIXED_SIZE: Option<usize> = <<Self as ByParts>::Parts as MostOfRow>::MOST;

    fn tell_valid(&self) {
        tell_four_valid(&self.0, &self.1, &self.2, &self.3);
        tell_four_valid(&self.4, &self.5, &self.6, &self.7);
        tell_four_valid(&self.8, &self.9, &self.10, &self.11);
        self.12.tell_valid();
        self.13.tell_valid();
    }

    #[inline(always)]
    fn encode<Z: Encoder>(&self, encoder: &mut Z) -> Result<(), EncodeError> {
        let (a, b, c, d, e, f, g, h, i, j, k, l, m, n) = self;
        let row = Cons4Ref(
            a,
            b,
            c,
            d,
            Cons4Ref(e, f, g, h, Cons4Ref(i, j, k, l, ConsRef(m, ConsRef(n, ())))),
        );
        rebuild_result(row.encode_row(encoder))
    }
}

impl<
    A: Encode,
    B: Encode,
    C: Encode,
    D: Encode,
    E: Encode,
    F: Encode,
    G: Encode,
    H: Encode,
    I: Encode,
    J: Encode,
    K: Encode,
    L: Encode,
    M: Encode,
    N: Encode,
    O: Encode,
> Encode for (A, B, C, D, E, F, G, H, I, J, K, L, M, N, O) {
    const MAX_FIXED_SIZE: Option<usize> = <<Self as ByParts>::Parts as MostOfRow>::MOST;

    fn tell_valid(&self) {
        tell_four_valid(&self.0, &self.1, &self.2, &self.3);
        tell_four_valid(&self.4, &self.5, &self.6, &self.7);
        tell_four_valid(&self.8, &self.9, &self.10, &self.11);
        self.12.tell_valid();
        self.13.tell_valid();
        self.14.tell_valid();
    }

    #[inline(always)]
    fn encode<Z: Encoder>(&self, encoder: &mut Z) -> Result<(), EncodeError> {
        let (a, b, c, d, e, f, g, h, i, j, k, l, m, n, o) = self;
        let row = Cons4Ref(
            a,
            b,
            c,
            d,
            Cons4Ref(
                e,
                f,
                g,
                h,
                Cons4Ref(i, j, k, l, ConsRef(m, ConsRef(n, ConsRef(o, ())))),
            ),
        );
        rebuild_result(row.encode_row(encoder))
    }
}

impl<
    A: Encode,
    B: Encode,
    C: Encode,
    D: Encode,
    E: Encode,
    F: Encode,
    G: Encode,
    H: Encode,
    I: Encode,
    J: Encode,
    K: Encode,
    L: Encode,
    M: Encode,
    N: Encode,
    O: Encode,
    P: Encode,
> Encode for (A, B, C, D, E, F, G, H, I, J, K, L, M, N, O, P) {
    const MAX_FIXED_SIZE: Option<usize> = <<Self as ByParts>::Parts as MostOfRow>::MOST;

    fn tell_valid(&self) {
        tell_four_valid(&self.0, &self.1, &self.2, &self.3);
        tell_four_valid(&self.4, &self.5, &self.6, &self.7);
        tell_four_valid(&self.8, &self.9, &self.10, &self.11);
        tell_four_valid(&self.12, &self.13, &self.14, &self.15);
    }

    #[inline(always)]
    fn encode<Z: Encoder>(&self, encoder: &mut Z) -> Result<(), EncodeError> {
        let (a, b, c, d, e, f, g, h, i, j, k, l, m, n, o, p) = self;
        let row = Cons4Ref(
            a,
            b,
            c,
            d,
            Cons4Ref(e, f, g, h, Cons4Ref(i, j, k, l, Cons4Ref(m, n, o, p, ()))),
        );
        rebuild_result(row.encode_row(encoder))
    }
}
